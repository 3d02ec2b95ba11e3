//! How a call ends.

ghost use Rattle.std.specs.Prelude.{◌≡◌};
ghost use Rattle.opt_top.specs.Calls.{code_of};

/// How a call of the program ends. The codes are those of `wsc`.
#[derive(Clone, Copy, Debug, PartialEq, Eq)]
pub enum Status {
    /// The assembly went out and was flushed.
    Done,
    /// There are arguments.
    Usage,
    /// The text is refused.
    Refused,
    /// Reading failed.
    ReadFault,
    /// Writing failed.
    WriteFault,
    /// Memory ran out.
    NoMemory,
}

impl Status {
    /// The status code of the process.
    pub fn code(self) -> u8
        ensures { result ≡ code_of self }
    {
        match self {
            Status::Done => 0,
            Status::Usage => 1,
            Status::Refused => 2,
            Status::ReadFault => 4,
            Status::WriteFault => 5,
            Status::NoMemory => 7,
        }
    }
}
