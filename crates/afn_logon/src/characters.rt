//! The classes of characters in a text.
ghost use Rattle.std.specs.Prelude.{◌≡◌};
ghost use Rattle.afn_logon.specs.Reading.{is_in};

/// A class of characters.
#[derive(Clone, Copy)]
pub(crate) enum Class {
    /// The dots before the mark of a registration.
    Dot,
    /// Capital letters and digits, as in a flight identifier.
    Name,
    /// Capital letters, digits and dashes, as in the mark of a registration.
    Mark,
    /// Capital letters.
    Letter,
}

impl Class {
    /// Whether the character is of the class.
    pub(crate) fn holds(self, character: u8) -> bool
        ensures { result ≡ is_in self character }
    {
        match self {
            Class::Dot => character == b'.',
            Class::Name => character.is_ascii_uppercase() || character.is_ascii_digit(),
            Class::Mark => {
                character.is_ascii_uppercase() || character.is_ascii_digit() || character == b'-'
            }
            Class::Letter => character.is_ascii_uppercase(),
        }
    }
}
