//! A port over lists in memory.

ghost use Rattle.std.specs.Prelude.{◌≡◌, ◌↔◌, ◌≤◌, [], Some, Err, Contains, false, true, IfOk, IfErr, IsErr};
ghost use Rattle.std.specs.Prelude.{OnOk, OnErr};
ghost use Rattle.ws_io.specs.Memory.{one_more};
ghost use Rattle.ws_io.specs.Streams.{Rose};
ghost use Rattle.port_set.specs.declared.port.PortError.TheVariants.{Failed};
ghost use Rattle.port_set.specs.Ports.{Gives, TakesWord, IfFailed};
ghost use Rattle.port_set.specs.Tape.{CountsFault, tape_tells};

use crate::port::{Port, PortError};
use std::alloc::Global;
use std::marker::Model;
use ws_words::Words;

/// A port over lists in memory, for tests: it gives the words of a list, keeps what it takes, and
/// fails at chosen calls. Its counts stop at the maximum of their type.
#[derive(Drop)]
pub struct TapePort {
    words: Words,
    given: usize,
    took: Words,
    calls: u64,
    fail_at: Words,
    faults: u64,
    closed: bool,
}

impl Model for TapePort {
    ghost use Rattle.std.specs.Prelude.{◌≤◌, drop, length};
    ghost use Rattle.port_set.specs.Tape.{TapeState};

    ghost Value = { TapeState };

    ghost view = { λ p. record {
      left = drop p.given p.words;
      took = p.took;
      calls = p.calls;
      fail_at = p.fail_at;
      faults = p.faults;
      closed = p.closed;
    } };

    ghost invariant = { λ p. p.given ≤ length p.words };
}

impl TapePort {
    /// Has these words left. The calls whose numbers, counted from 1, stand in `fail_at` fail.
    pub fn new(alloc: Global, left: Words, fail_at: Words) -> TapePort
        ensures { result ≡ record {
          left = left;
          took = [];
          calls = 0;
          fail_at = fail_at;
          faults = 0;
          closed = false;
        } }
    {
        TapePort {
            words: left,
            given: 0,
            took: Words::empty(alloc),
            calls: 0,
            fail_at,
            faults: 0,
            closed: false,
        }
    }

    /// The words left.
    pub fn left(&self) -> &[u64]
        ensures { result.now ≡ self.now.left }
    {
        &self.words.as_slice()[self.given..]
    }

    /// The words taken.
    pub fn took(&self) -> &[u64]
        ensures { result.now ≡ self.now.took }
    {
        self.took.as_slice()
    }

    /// How many calls have failed.
    pub fn faults(&self) -> u64
        ensures { result ≡ self.now.faults }
    {
        self.faults
    }

    /// Whether it is closed.
    pub fn is_closed(&self) -> bool
        ensures { result ≡ self.now.closed }
    {
        self.closed
    }

    // Counts a call, and a fault where it is to fail.
    fn begin(&mut self) -> Result<(), PortError>
        ensures fails { IsErr result ↔ Contains self.old.fail_at (one_more self.old.calls) }
        ensures ok { OnOk result (self.new ≡ record self.old { calls = one_more self.old.calls }) }
        ensures err { IfErr result (λ why. (why ≡ Failed) × (self.new ≡ record self.old {
          calls = one_more self.old.calls;
          faults = one_more self.old.faults;
        })) }
        ensures counted { self.old.faults ≤ self.new.faults }
    {
        self.calls = self.calls.saturating_add(1);
        if self.fail_at.as_slice().contains(&self.calls) {
            self.faults = self.faults.saturating_add(1);
            return Err(PortError::Failed);
        }
        Ok(())
    }
}

impl Port for TapePort {
    ghost tells = { tape_tells };

    #[tactic(auto, using(crate::proofs::Tapes::gives_next, crate::proofs::Tapes::gives_none))]
    fn give(&mut self) -> Result<u64, PortError>
        requires { self.old.closed ≡ false }
        ensures given { IfOk result (λ word. Gives (Some self.old.left) word (Some self.new.left)) }
        ensures kept { OnErr result (Some self.new.left ≡ Some self.old.left) }
        ensures failed { IfErr result (λ why.
            IfFailed why (Rose self.old.faults self.new.faults)) }
        ensures took { Some self.new.took ≡ Some self.old.took }
        ensures counted { self.old.faults ≤ self.new.faults }
        ensures open { self.new.closed ≡ false }

        // What it does exactly.
        ensures number { self.new.calls ≡ one_more self.old.calls }
        ensures fails { IsErr result ↔ Contains self.old.fail_at self.new.calls }
        ensures fault { IfErr result (λ why. why ≡ Failed) }
        ensures faults { CountsFault result self.old.faults self.new.faults }
        ensures fail_at { self.new.fail_at ≡ self.old.fail_at }
    {
        self.begin()?;
        let place = self.given;
        if place >= self.words.len() {
            return Ok(0);
        }
        self.given = place + 1;
        Ok(self.words.word(place))
    }

    fn take(&mut self, word: u64) -> Result<(), PortError>
        requires { self.old.closed ≡ false }
        ensures taken { OnOk result (TakesWord (Some self.old.took) word (Some self.new.took)) }
        ensures kept { OnErr result (Some self.new.took ≡ Some self.old.took) }
        ensures failed { IfErr result (λ why.
            IfFailed why (Rose self.old.faults self.new.faults)) }
        ensures left { Some self.new.left ≡ Some self.old.left }
        ensures counted { self.old.faults ≤ self.new.faults }
        ensures open { self.new.closed ≡ false }

        // What it does exactly.
        ensures number { self.new.calls ≡ one_more self.old.calls }
        ensures fails { (result ≡ Err Failed) ↔ Contains self.old.fail_at self.new.calls }
        ensures faults { CountsFault result self.old.faults self.new.faults }
        ensures fail_at { self.new.fail_at ≡ self.old.fail_at }
    {
        self.begin()?;
        match self.took.push(word) {
            Ok(()) => Ok(()),
            Err(_) => Err(PortError::NoMemory),
        }
    }

    fn close(&mut self)
        ensures closed { self.new ≡ record self.old { closed = true } }
    {
        self.closed = true;
    }
}
