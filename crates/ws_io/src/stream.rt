//! What gives bytes and what takes them.

ghost use Rattle.std.specs.Prelude.{◌≡◌, ◌↔◌, ℕ, ◌<◌, ◌≤◌, List, [], take, length, Option, IfOk, OnOk, OnErr};
ghost use Rattle.std.specs.Prelude.{IfSome};
ghost use Rattle.ws_io.specs.Streams.{Rose, Takes, Adds, Flushes};

/// A read, a write or a flush failed.
#[derive(Clone, Copy, Debug, PartialEq, Eq)]
pub struct Failed;

/// What gives bytes, piece by piece.
pub trait Source {
    /// The bytes not yet read, if the source reports them.
    ghost left: { Self → Option (List ℕ) };

    /// How often it has failed.
    ghost faults: { Self → ℕ };

    /// Reads some bytes into a prefix of `into` and says how many. 0 is the end.
    fn read(&mut self, into: &mut [u8]) -> Result<usize, Failed>
        requires { 0 < length into.old }
        ensures bound { IfOk result (λ n. n ≤ length into.new) }
        ensures taken { IfOk result (λ n. Takes (left self.old) (take n into.new) (left self.new)) }
        ensures end { IfOk result (λ n. IfSome (left self.old) (λ bytes. (n ≡ 0) ↔ (bytes ≡ []))) }
        ensures failed { OnErr result (Rose (faults self.old) (faults self.new)) }
        ensures kept { OnErr result (left self.new ≡ left self.old) }
        ensures counted { faults self.old ≤ faults self.new };
}

/// What takes bytes, piece by piece.
pub trait Sink {
    /// The bytes written so far, if the sink reports them.
    ghost held: { Self → Option (List ℕ) };

    /// How many of them the last successful flush covered, if the sink reports it.
    ghost flushed: { Self → Option ℕ };

    /// How often it has failed.
    ghost faults: { Self → ℕ };

    /// Writes a prefix of `piece`, at least one byte, and says how many.
    fn write(&mut self, piece: &[u8]) -> Result<usize, Failed>
        requires { 0 < length piece.now }
        ensures some { IfOk result (λ n. 0 < n) }
        ensures bound { IfOk result (λ n. n ≤ length piece.now) }
        ensures added { IfOk result (λ n. Adds (held self.old) (take n piece.now) (held self.new)) }
        ensures failed { OnErr result (Rose (faults self.old) (faults self.new)) }
        ensures kept { OnErr result (held self.new ≡ held self.old) }
        ensures unflushed { flushed self.new ≡ flushed self.old }
        ensures counted { faults self.old ≤ faults self.new };

    /// Brings what was written to where it is to stay.
    fn flush(&mut self) -> Result<(), Failed>
        ensures covered { OnOk result
            (Flushes (held self.old) (flushed self.old) (flushed self.new)) }
        ensures failed { OnErr result (Rose (faults self.old) (faults self.new)) }
        ensures unflushed { OnErr result (flushed self.new ≡ flushed self.old) }
        ensures kept { held self.new ≡ held self.old }
        ensures counted { faults self.old ≤ faults self.new };
}
