//! The ways in which a run can end.
ghost use Rattle.std.specs.Prelude.{◌≡◌};
ghost use Rattle.um_driver.specs.Statuses.{status_number};

/// How a run ended.
#[derive(Clone, Copy, Debug, PartialEq, Eq)]
pub enum Status {
    /// The whole input was read, and the whole output was written.
    Done,
    /// The command-line words name no command. Nothing was read or written.
    BadWords,
    /// A line of the input was refused, or the input ended too early. The last line of output gives the line number and the reason.
    BadInput,
    /// Reading the input failed.
    ReadFault,
    /// Writing the output failed.
    WriteFault,
    /// Memory could not be allocated. Nothing was read or written.
    NoMemory,
    /// The input has more than 67,108,864 octets.
    TooLong,
}

impl Status {
    /// Returns the exit status of the program as a number.
    pub fn number(self) -> u8
        ensures { result ≡ status_number self }
    {
        match self {
            Status::Done => 0,
            Status::BadWords => 2,
            Status::BadInput => 3,
            Status::ReadFault => 4,
            Status::WriteFault => 5,
            Status::NoMemory => 6,
            Status::TooLong => 7,
        }
    }
}
