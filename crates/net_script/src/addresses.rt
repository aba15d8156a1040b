//! The addresses that a `G` line lists.

ghost use Rattle.std.specs.Prelude.{◌≡◌, nat_eq};
ghost use Rattle.std.specs.Cmp.{on_equiv, on_per, partial_equiv_from_equiv};
ghost use Rattle.std.specs.Cmp.Lexicographic.{lists_equiv, lists_per, nat_list_eq_equiv, pointwise};

use acars_envelope::Address;
use std::marker::Model;

/// The ground addresses that a `G` line lists, in its order. Two lists with the same addresses are one value. This project's
/// profile.
#[derive(Debug, Drop)]
pub struct Addresses {
    list: Vec<Address>,
}

impl Model for Addresses {
    ghost use Rattle.net_script.specs.Addresses.{AddressList};

    ghost Value = { AddressList };

    ghost view = { λ addresses. record { items = addresses.list.items } };
}

impl Addresses {
    /// The list of these addresses.
    pub fn new(list: Vec<Address>) -> Addresses
        ensures { result.items ≡ list.items }
    {
        Addresses { list }
    }

    /// The addresses.
    pub fn as_slice(&self) -> &[Address]
        ensures { result.now ≡ self.now.items }
    {
        self.list.as_slice()
    }
}

impl PartialEq for Addresses {
    ghost eq = { λ a b. pointwise (pointwise nat_eq) a.items b.items };

    ghost laws = { on_per (λ a. a.items) (lists_per (partial_equiv_from_equiv nat_list_eq_equiv)) };

    fn eq(&self, other: &Addresses) -> bool {
        self.as_slice() == other.as_slice()
    }
}

impl Eq for Addresses {
    ghost laws = { on_equiv (λ a. a.items) (lists_equiv nat_list_eq_equiv) };
}
