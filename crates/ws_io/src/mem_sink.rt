//! A sink over memory.

ghost use Rattle.std.specs.Prelude.{◌≡◌, ◌↔◌, ◌⊎◌, ◌-◌, ◌<◌, ◌≤◌, [], Some, min, take, length, Contains};
ghost use Rattle.std.specs.Prelude.{IfOk, OnOk, OnErr, IsErr};
ghost use Rattle.ws_io.specs.Memory.{one_more, room};
ghost use Rattle.ws_io.specs.Streams.{Rose, Adds, Flushes};

use crate::calls::Calls;
use crate::stream::{Failed, Sink};
use std::alloc::Global;
use std::marker::Model;
use ws_words::{NoMemory, Words};

// The room of a sink, in bytes.
const ROOM: usize = 1 << 20;

/// A sink over memory, for tests: it takes a few bytes a call, and fails at chosen calls. It has
/// room for 1 MiB; a write to a full sink fails. Its counts stop at the maximum of their type.
#[derive(Drop)]
pub struct MemSink {
    bytes: Vec<u8>,
    flushed: usize,
    piece: usize,
    calls: Calls,
}

impl Model for MemSink {
    ghost use Rattle.std.specs.Prelude.{◌<◌, ◌≤◌, length, vec_capacity};
    ghost use Rattle.ws_io.specs.Memory.{Drain, room};

    ghost Value = { Drain };

    ghost view = { λ s. record {
      held = s.bytes.items;
      flushed = s.flushed;
      piece = s.piece;
      calls = s.calls.count;
      fail_at = s.calls.fail_at;
      faults = s.calls.faults;
    } };

    ghost invariant = { λ s.
        (length s.bytes.items ≤ room) × (room ≤ vec_capacity s.bytes) × (0 < s.piece) };
}

impl MemSink {
    /// Holds nothing, and takes at most `piece` bytes a call. The calls whose numbers, counted from
    /// 1, stand in `fail_at` fail.
    pub fn new(alloc: Global, piece: usize, fail_at: Words) -> Result<MemSink, NoMemory>
        requires { 0 < piece }
        ensures { IfOk result (λ sink. sink ≡ record {
          held = [];
          flushed = 0;
          piece = piece;
          calls = 0;
          fail_at = fail_at;
          faults = 0;
        }) }
    {
        Ok(MemSink {
            bytes: Vec::with_capacity(alloc, ROOM)?,
            flushed: 0,
            piece,
            calls: Calls::new(fail_at),
        })
    }

    /// The bytes written.
    pub fn held(&self) -> &[u8]
        ensures { result.now ≡ self.now.held }
    {
        &self.bytes
    }

    /// How many bytes the last good flush covered.
    pub fn flushed(&self) -> usize
        ensures { result ≡ self.now.flushed }
    {
        self.flushed
    }

    /// How many calls have failed.
    pub fn faults(&self) -> u64
        ensures { result ≡ self.now.faults }
    {
        self.calls.faults
    }
}

impl Sink for MemSink {
    ghost held = { λ sink. Some sink.held };

    ghost flushed = { λ sink. Some sink.flushed };

    ghost faults = { λ sink. sink.faults };

    fn write(&mut self, piece: &[u8]) -> Result<usize, Failed>
        requires { 0 < length piece.now }
        ensures some { IfOk result (λ n. 0 < n) }
        ensures bound { IfOk result (λ n. n ≤ length piece.now) }
        ensures added { IfOk result (λ n.
            Adds (Some self.old.held) (take n piece.now) (Some self.new.held)) }
        ensures failed { OnErr result (Rose self.old.faults self.new.faults) }
        ensures kept { OnErr result (Some self.new.held ≡ Some self.old.held) }
        ensures unflushed { Some self.new.flushed ≡ Some self.old.flushed }
        ensures counted { self.old.faults ≤ self.new.faults }

        // What it does exactly.
        ensures number { self.new.calls ≡ one_more self.old.calls }
        ensures good { OnOk result (¬ (Contains self.old.fail_at self.new.calls)) }
        ensures bad { OnErr result
            (Contains self.old.fail_at self.new.calls ⊎ (length self.old.held ≡ room)) }
        ensures amount { IfOk result (λ n.
            n ≡ min self.old.piece (min (length piece.now) (room - length self.old.held))) }
        ensures fault { OnErr result (self.new.faults ≡ one_more self.old.faults) }
        ensures no_fault { OnOk result (self.new.faults ≡ self.old.faults) }
        ensures piece { self.new.piece ≡ self.old.piece }
        ensures fail_at { self.new.fail_at ≡ self.old.fail_at }
    {
        self.calls.begin()?;
        let count = self.piece.min(piece.len()).min(ROOM - self.bytes.len());
        if count == 0 {
            return Err(self.calls.fault());
        }
        match self.bytes.extend_from_slice(&piece[..count]) {
            Ok(()) => Ok(count),
            Err(_) => unreachable!(),
        }
    }

    fn flush(&mut self) -> Result<(), Failed>
        ensures covered { OnOk result
            (Flushes (Some self.old.held) (Some self.old.flushed) (Some self.new.flushed)) }
        ensures failed { OnErr result (Rose self.old.faults self.new.faults) }
        ensures unflushed { OnErr result (Some self.new.flushed ≡ Some self.old.flushed) }
        ensures kept { Some self.new.held ≡ Some self.old.held }
        ensures counted { self.old.faults ≤ self.new.faults }

        // What it does exactly.
        ensures number { self.new.calls ≡ one_more self.old.calls }
        ensures fails { IsErr result ↔ Contains self.old.fail_at self.new.calls }
        ensures fault { OnErr result (self.new.faults ≡ one_more self.old.faults) }
        ensures no_fault { OnOk result (self.new.faults ≡ self.old.faults) }
        ensures piece { self.new.piece ≡ self.old.piece }
        ensures fail_at { self.new.fail_at ≡ self.old.fail_at }
    {
        self.calls.begin()?;
        self.flushed = self.bytes.len();
        Ok(())
    }
}
