//! The items of a downlink.

ghost use Rattle.std.specs.Prelude.{◌≡◌, ◌+◌, ◌<◌, ◌≤◌, [], ◌∷◌, ◌++◌};
ghost use Rattle.arrayvec.specs.ArrayVec.{array_vec_len};

use crate::item::Item;
use arrayvec::ArrayVec;

/// The items of one downlink, one to eight.
///
/// Source: RTCA DO-258A / EUROCAE ED-100A; the limit is this project's profile.
#[derive(Debug, PartialEq, Eq, Drop)]
pub struct Items {
    /// The items in the order in which they are sent.
    pub list: ArrayVec<Item, 8>,
    ghost some: { 1 ≤ array_vec_len list },
    ghost few: { array_vec_len list ≤ 8 },
}

impl Items {
    /// A downlink of one item.
    pub fn one(item: Item) -> Items
        ensures { result.list.items ≡ item ∷ [] }
    {
        let mut list = ArrayVec::new();
        list.push(item);
        Items { list }
    }

    /// Adds an item behind the others. There are fewer than eight.
    pub fn push(&mut self, item: Item)
        requires { array_vec_len self.old.list < 8 }
        ensures { self.new.list.items ≡ self.old.list.items ++ item ∷ [] }
    {
        self.list.push(item);
    }
}
