//! How a call ends.

ghost use Rattle.std.specs.Prelude.{◌≡◌};
ghost use Rattle.wsc_top.specs.Codes.{code_of};

use port_set::{Port, Slots};
use ws_isa::Checked;

/// How a call of the program ends.
#[derive(Clone, Copy, Debug, PartialEq, Eq)]
pub enum Status {
    /// The whole answer went out and was flushed.
    Done,
    /// The words are no command line.
    Usage,
    /// The text isn't accepted.
    Refused,
    /// The run wants more than its budget.
    Budget,
    /// Reading failed.
    ReadFault,
    /// Writing failed.
    WriteFault,
    /// A call of the port with this number failed.
    PortFault(u8),
    /// Memory ran out.
    NoMemory,
    /// The run met an out-of-bounds load or store of its array.
    Fault,
}

impl Status {
    /// The status code of the process, from 0 to 8 in the order of the variants.
    pub fn code(self) -> u8
        ensures { result ≡ code_of self }
    {
        match self {
            Status::Done => 0,
            Status::Usage => 1,
            Status::Refused => 2,
            Status::Budget => 3,
            Status::ReadFault => 4,
            Status::WriteFault => 5,
            Status::PortFault(_) => 6,
            Status::NoMemory => 7,
            Status::Fault => 8,
        }
    }
}

/// What a call of the program gives back: its status, the image that it ran or printed, where it came
/// so far, the images of its threads in order, where it ran some, and the ports.
#[derive(Drop)]
pub struct Outcome<P: Port> {
    pub status: Status,
    pub image: Option<Checked>,
    pub threads: Vec<Checked>,
    pub ports: Slots<P>,
}
