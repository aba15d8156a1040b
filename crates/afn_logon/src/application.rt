//! An application that a contact or an answer speaks of.
ghost use Rattle.std.specs.Prelude.{◌≡◌, IsTrue, length, codes};
ghost use Rattle.std.specs.List.{list_all};
ghost use Rattle.acars_envelope.specs.Names.{is_letter};

/// An application of the data link, as `ADS`: its name and its number.
#[derive(Clone, Copy, Debug, PartialEq, Eq)]
pub struct Application {
    /// The name: three capital letters.
    pub name: [u8; 3],
    /// The number, of two digits in a contact and of one in an answer.
    pub number: u8,
    ghost three: { length name ≡ 3 },
    ghost letters: { IsTrue (list_all is_letter name) },
}

impl Default for Application {
    /// The application ADS with number 0, which stands in the unused places of a list.
    fn default() -> Application {
        Application {
            name: *b"ADS",
            number: 0,
        }
    }
}
