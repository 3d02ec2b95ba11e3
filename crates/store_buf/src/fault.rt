//! Why a request isn't answered.

/// Why a buffer doesn't answer a request. `Old`: it was kept before. `Port`: the port failed in this
/// call, and `Stopped`: in an earlier one. `Index`: the operation that is now next is out of bounds in
/// this array, and `Ended`: it was so before.
#[derive(Clone, Copy, Debug, PartialEq, Eq)]
pub enum BufFault {
    Old,
    Port { port: u8 },
    Stopped { port: u8 },
    Index { array: u32 },
    Ended { array: u32 },
    NoMemory,
}

/// The port that doesn't answer, and why.
#[derive(Clone, Copy, Debug, PartialEq, Eq)]
pub enum Silent {
    Failed { port: u8 },
    NoMemory { port: u8 },
}
