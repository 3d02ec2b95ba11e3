//! Who hears how far a run is.

/// Hears after each 1,024 firings of a run that goes on how many instances have fired.
pub trait Watch {
    /// So many have fired.
    fn fired(&mut self, count: u64);
}

/// Nobody hears it.
#[derive(Clone, Copy, Debug, PartialEq, Eq)]
pub struct Nobody;

impl Watch for Nobody {
    fn fired(&mut self, _count: u64) {}
}
