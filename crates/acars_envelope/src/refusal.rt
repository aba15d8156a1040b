//! Why a text is no envelope's.
ghost use Rattle.std.specs.Prelude.{◌≡◌};
ghost use Rattle.acars_envelope.specs.Faults.{refused};

/// What is wrong at the first bad place of a text.
#[derive(Clone, Copy, Debug, PartialEq, Eq)]
pub enum EnvelopeWhy {
    /// The first character isn't a slash.
    Slash,
    /// A character of the address isn't a capital letter or a digit.
    Address,
    /// No dot stands behind the address.
    Dot,
    /// The three letters behind the dot are neither `ADS` nor `AFN`.
    Imi,
    /// A character isn't allowed at its place in the registration, or all seven are dots.
    Registration,
    /// A character isn't a hexadecimal digit with capital letters, or a digit of a pair is missing.
    Hex,
    /// A character of an AFN text isn't from 20 to 7E hexadecimal.
    Character,
    /// The text ends before this place.
    TooShort,
    /// The text goes on behind its greatest length.
    TooLong,
    /// The check isn't the code that is due.
    Check { found: u16, due: u16 },
}

/// The first bad place of a text, counted from 0, and what is wrong there.
#[derive(Clone, Copy, Debug, PartialEq, Eq)]
pub struct EnvelopeRefusal {
    pub place: u32,
    pub why: EnvelopeWhy,
}

/// The refusal of a text at this place.
pub(crate) fn refused(place: u32, why: EnvelopeWhy) -> EnvelopeRefusal
    ensures { result ≡ refused place why }
{
    EnvelopeRefusal { place, why }
}
