//! Why a line is bad.

ghost use Rattle.std.specs.Prelude.{◌≡◌};

/// What is wrong with a line. The codes and their order are this project's profile; a line has the first that applies.
///
/// [`read_script_line`](crate::read_script_line) answers `Kind`, `Byte`, `Count`, `Field` and `Twice`. The others need what
/// stands before the line, and are judged by whoever runs the script.
#[derive(Clone, Copy, Debug, PartialEq, Eq)]
pub enum Code {
    /// One of the three lines that begin a script is missing, or has another letter. The value is 0.
    Head,
    /// Field 0 is none of the letters. The value is 0.
    Kind,
    /// A line other than `U` holds a quote, a carriage return or a byte above 7E hexadecimal. The value is the place of the
    /// first, counted from 0.
    Byte,
    /// The line has too few or too many fields. The value is its number of commas.
    Count,
    /// A field has a wrong form or is out of its range, or has the second star of a `G` line. The value is the number of the
    /// first such field.
    Field,
    /// An address stands twice in a `G` line, stars left aside. The value is the number of the field where one first stands
    /// again.
    Twice,
    /// The address isn't listed. The value is 1.
    Address,
    /// The address is used in the other role, as a centre's or by texts. The value is 0.
    Role,
    /// There is no message or downlink at this place. The value is how many there are.
    Number,
    /// A centre asks before it heard a contact. The value is 0.
    Logon,
    /// A centre asks for a kind of contract that is pending. The value is the pending number.
    Waiting,
    /// A centre cancels a kind of contract that isn't pending, confirmed or partial. The value is 0.
    Nothing,
    /// The line is longer than 4096 bytes. The value is 4096.
    Long,
    /// A recorded downlink stands before the first line that makes an entry, in a log that is
    /// audited. The value is 0.
    Early,
}

/// A bad line of a script.
#[derive(Clone, Copy, Debug, PartialEq, Eq)]
pub struct BadLine {
    /// The line's number, counted from 1.
    pub line: u32,
    /// What is wrong with it.
    pub code: Code,
    /// The value that belongs to the code.
    pub value: u32,
}

/// Why a line gives no value.
#[derive(Clone, Copy, Debug, PartialEq, Eq)]
pub enum LineRefusal {
    /// The line is bad.
    Bad {
        /// What is wrong with it.
        code: Code,
        /// The value that belongs to the code.
        value: u32,
    },
    /// Memory ran out, which comes with a `G` or an `S` line alone.
    NoMemory,
}

/// The refusal of a line that is bad in this way.
pub(crate) fn bad(code: Code, value: u32) -> LineRefusal
    ensures { result ≡ LineRefusal.Bad code value }
{
    LineRefusal::Bad { code, value }
}

/// The refusal of a line whose first wrong field is this one.
pub(crate) fn wrong_field(place: u32) -> LineRefusal
    ensures { result ≡ LineRefusal.Bad Code.Field place }
{
    bad(Code::Field, place)
}
