//! How a call ends.

ghost use Rattle.std.specs.Prelude.{◌≡◌};
ghost use Rattle.stream_top.specs.Codes.{code_of};

/// How a call of the program ends.
#[derive(Clone, Copy, Debug, PartialEq, Eq)]
pub enum Status {
    /// The run completed. All that is reported went out and was flushed, as with the five below.
    Done,
    /// The words are no command line.
    Usage,
    /// The text isn't accepted.
    Refused,
    /// The run wants more than its budget.
    Budget,
    /// Reading failed.
    ReadFault,
    /// The run met an out-of-bounds load or store of its array.
    Fault,
    /// Writing failed.
    WriteFault,
    /// Memory ran out.
    NoMemory,
}

impl Status {
    /// The status code of the process, as `wsc` has it for its calls.
    pub fn code(self) -> u8
        ensures { result ≡ code_of self }
    {
        match self {
            Status::Done => 0,
            Status::Usage => 1,
            Status::Refused => 2,
            Status::Budget => 3,
            Status::ReadFault => 4,
            Status::WriteFault => 5,
            Status::NoMemory => 7,
            Status::Fault => 8,
        }
    }
}
