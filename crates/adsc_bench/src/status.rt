//! How the program ends.
ghost use Rattle.std.specs.Prelude.{◌≡◌};
ghost use Rattle.adsc_bench.specs.Statuses.{status_number};

/// How the program ended. The statuses and their numbers are this project's profile.
#[derive(Clone, Copy, Debug, PartialEq, Eq)]
pub enum Status {
    /// The whole input was read and the whole output written.
    Done = 0,
    /// `show` read the whole input and wrote the whole shown text, and some line is refused.
    Refused = 1,
    /// The words of the command line have no listed form. Nothing was read or written.
    Words = 2,
    /// The input could not be read. `run` wrote nothing, and `show` the shown text of the lines that were wholly read.
    ReadFault = 3,
    /// The output could not be written. A beginning of it was.
    WriteFault = 4,
    /// A line of the script is bad. All lines before it were carried out, and what was written says which line it is and why.
    BadLine = 5,
    /// There was not enough memory. Nothing was written, and `show` read nothing.
    NoMemory = 6,
    /// The limit of lines or bytes was met before any bad line. `run` carried out the lines before and wrote which line is over
    /// it; `show` wrote the shown text of the lines before.
    Limit = 7,
}

impl Status {
    /// The number with which the program ends.
    pub fn number(self) -> u8
        ensures { result ≡ status_number self }
    {
        self as u8
    }
}
