//! Gates.

/// What a worker calls before it brings a token to its table.
pub trait Gate: Sync {
    /// The token for this port of this instance is about to be brought. No lock is held.
    fn before(&self, wave: u64, instr: u32, port: u8);
}

/// The gate that does nothing.
pub struct Free;

impl Gate for Free {
    fn before(&self, _wave: u64, _instr: u32, _port: u8) {}
}
