//! The calls of a source or a sink over memory.

ghost use Rattle.std.specs.Prelude.{◌≡◌, ◌↔◌, ◌≤◌, Contains, IsErr, OnOk, OnErr};
ghost use Rattle.ws_io.specs.Memory.{one_more};

use crate::stream::Failed;
use ws_words::Words;

// Counts calls from 1. Those whose numbers stand in a list fail. Both counts stand still at their
// type's end.
#[derive(Drop)]
pub(crate) struct Calls {
    pub(crate) count: u64,
    pub(crate) fail_at: Words,
    pub(crate) faults: u64,
}

impl Calls {
    // No calls so far.
    pub(crate) fn new(fail_at: Words) -> Calls
        ensures { result ≡ record { count = 0; fail_at = fail_at; faults = 0 } }
    {
        Calls {
            count: 0,
            fail_at,
            faults: 0,
        }
    }

    // Counts a call, and a fault where it is to fail.
    pub(crate) fn begin(&mut self) -> Result<(), Failed>
        ensures number { self.new.count ≡ one_more self.old.count }
        ensures fails { IsErr result ↔ Contains self.old.fail_at self.new.count }
        ensures ok { OnOk result (self.new.faults ≡ self.old.faults) }
        ensures err { OnErr result (self.new.faults ≡ one_more self.old.faults) }
        ensures counted { self.old.faults ≤ self.new.faults }
        ensures same { self.new.fail_at ≡ self.old.fail_at }
    {
        self.count = self.count.saturating_add(1);
        if self.fail_at.as_slice().contains(&self.count) {
            return Err(self.fault());
        }
        Ok(())
    }

    // Counts a fault.
    pub(crate) fn fault(&mut self) -> Failed
        ensures faults { self.new ≡ record self.old { faults = one_more self.old.faults } }
        ensures counted { self.old.faults ≤ self.new.faults }
    {
        self.faults = self.faults.saturating_add(1);
        Failed
    }
}
