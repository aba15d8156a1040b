//! The names in a text: a ground facility's address, an aircraft's registration, a flight identifier.
ghost use Rattle.std.specs.Prelude.{◌≡◌, ◌↔◌, ℕ, ◌-◌, ◌≤◌, List, length, IsTrue, IsSome, IfSome, replicate, ◌++◌};
ghost use Rattle.std.specs.List.{AllPass};
ghost use Rattle.acars_envelope.specs.Names.{IsAddress, IsMark, IsRegistration, IsFlight, with_dots, is_name_character, is_mark_character};

use arrayvec::ArrayVec;
use std::marker::Model;

/// A ground facility's address: seven capital letters or digits.
#[derive(Clone, Copy, Debug, PartialEq, Eq)]
pub struct Address {
    seven: [u8; 7],
}

impl Model for Address {
    ghost Value = { List ℕ };

    ghost view = { λ a. a.seven };

    ghost invariant = { λ a. IsAddress a.seven };

    ghost inverse = { λ seven. record { seven = seven } };
}

impl Address {
    /// The address that a text is, or None where the text isn't seven of `A` to `Z` and `0` to `9`.
    pub fn new(text: &[u8]) -> Option<Address>
        ensures found { IsSome result ↔ IsAddress text.now }
        ensures value { IfSome result (λ a. a ≡ text.now) }
    {
        let seven = *text.as_array::<7>()?;
        if !is_name(text) {
            return None;
        }
        Some(Address { seven })
    }

    /// The address with these seven characters.
    pub(crate) fn from_seven(seven: [u8; 7]) -> Address
        requires { IsAddress seven }
        ensures { result ≡ seven }
    {
        Address { seven }
    }

    /// The seven characters.
    pub fn seven(&self) -> [u8; 7]
        ensures value { result ≡ self.now }
        ensures form { IsAddress self.now }
    {
        self.seven
    }
}

/// An aircraft's registration as texts carry it: seven characters, dots before its mark of one to seven
/// capital letters, digits or dashes.
#[derive(Clone, Copy, Debug, PartialEq, Eq)]
pub struct Registration {
    seven: [u8; 7],
}

impl Model for Registration {
    ghost Value = { List ℕ };

    ghost view = { λ r. r.seven };

    ghost invariant = { λ r. IsRegistration r.seven };

    ghost inverse = { λ seven. record { seven = seven } };
}

impl Registration {
    /// The registration with this mark, filled up with dots before it, or None where the mark isn't one
    /// to seven of `A` to `Z`, `0` to `9` and `-`.
    pub fn new(text: &[u8]) -> Option<Registration>
        ensures found { IsSome result ↔ IsMark text.now }
        ensures value { IfSome result (λ r. r ≡ with_dots text.now) }
    {
        if !is_mark(text) {
            return None;
        }
        Some(Registration {
            seven: dotted(text),
        })
    }

    /// The registration with these seven characters.
    pub(crate) fn from_seven(seven: [u8; 7]) -> Registration
        requires { IsRegistration seven }
        ensures { result ≡ seven }
    {
        Registration { seven }
    }

    /// The seven characters, dots first.
    pub fn seven(&self) -> [u8; 7]
        ensures value { result ≡ self.now }
        ensures form { IsRegistration self.now }
    {
        self.seven
    }
}

/// A flight identifier: one to eight capital letters or digits.
#[derive(Debug, Drop, PartialEq, Eq)]
pub struct Flight {
    text: ArrayVec<u8, 8>,
}

impl Model for Flight {
    ghost Value = { List ℕ };

    ghost view = { λ f. f.text.items };

    ghost invariant = { λ f. IsFlight f.text.items };

    ghost inverse = { λ text. record { text = record { items = text } } };
}

impl Flight {
    /// The flight identifier that a text is, or None where the text isn't one to eight of `A` to `Z` and
    /// `0` to `9`.
    pub fn new(text: &[u8]) -> Option<Flight>
        ensures found { IsSome result ↔ IsFlight text.now }
        ensures value { IfSome result (λ f. f ≡ text.now) }
    {
        let held = ArrayVec::try_from(text).ok()?;
        if text.is_empty() {
            return None;
        }
        if !is_name(text) {
            return None;
        }
        Some(Flight { text: held })
    }

    /// The characters, without any filling.
    pub fn text(&self) -> &[u8]
        ensures value { result.now ≡ self.now }
        ensures form { IsFlight self.now }
    {
        self.text.as_slice()
    }
}

/// Whether the text has only capital letters and digits.
fn is_name(text: &[u8]) -> bool
    ensures { IsTrue result ↔ AllPass is_name_character text.now }
{
    text.iter()
        .all(|c| c.is_ascii_uppercase() || c.is_ascii_digit())
}

/// Whether the text is the mark of a registration: one to seven capital letters, digits or dashes.
fn is_mark(text: &[u8]) -> bool
    ensures { IsTrue result ↔ IsMark text.now }
{
    if text.is_empty() {
        return false;
    }
    if text.len() > 7 {
        return false;
    }
    text.iter().all(|c| c.is_ascii_uppercase() || c.is_ascii_digit() || *c == b'-')
}

/// The mark with dots before it up to seven characters.
fn dotted(mark: &[u8]) -> [u8; 7]
    requires { length mark.now ≤ 7 }
    ensures { result ≡ with_dots mark.now }
{
    let mut seven = [b'.'; 7];
    seven[7 - mark.len()..].copy_from_slice(mark);
    seven
}
