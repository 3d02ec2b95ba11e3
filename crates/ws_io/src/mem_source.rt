//! A source over memory.

ghost use Rattle.std.specs.Prelude.{◌≡◌, ◌↔◌, ◌<◌, ◌≤◌, [], Some, min, take, drop, length, Contains, IfOk};
ghost use Rattle.std.specs.Prelude.{OnOk, OnErr, IsErr};
ghost use Rattle.ws_io.specs.Memory.{one_more};
ghost use Rattle.ws_io.specs.Streams.{Rose, Takes};

use crate::calls::Calls;
use crate::stream::{Failed, Source};
use std::marker::Model;
use ws_words::{Bytes, Words};

/// A source over memory, for tests: it gives a few bytes a call, and fails at chosen calls. Its
/// counts stop at the maximum of their type.
#[derive(Drop)]
pub struct MemSource {
    bytes: Bytes,
    given: usize,
    piece: usize,
    calls: Calls,
}

impl Model for MemSource {
    ghost use Rattle.std.specs.Prelude.{◌<◌, ◌≤◌, drop, length};
    ghost use Rattle.ws_io.specs.Memory.{Supply};

    ghost Value = { Supply };

    ghost view = { λ s. record {
      left = drop s.given s.bytes;
      piece = s.piece;
      calls = s.calls.count;
      fail_at = s.calls.fail_at;
      faults = s.calls.faults;
    } };

    ghost invariant = { λ s. (s.given ≤ length s.bytes) × (0 < s.piece) };
}

impl MemSource {
    /// Gives these bytes, at most `piece` of them a call. The calls whose numbers, counted from 1,
    /// stand in `fail_at` fail.
    pub fn new(bytes: Bytes, piece: usize, fail_at: Words) -> MemSource
        requires { 0 < piece }
        ensures { result
            ≡ record { left = bytes; piece = piece; calls = 0; fail_at = fail_at; faults = 0 } }
    {
        MemSource {
            bytes,
            given: 0,
            piece,
            calls: Calls::new(fail_at),
        }
    }

    /// The bytes not yet read.
    pub fn left(&self) -> &[u8]
        ensures { result.now ≡ self.now.left }
    {
        &self.bytes.as_slice()[self.given..]
    }

    /// How many calls have failed.
    pub fn faults(&self) -> u64
        ensures { result ≡ self.now.faults }
    {
        self.calls.faults
    }
}

impl Source for MemSource {
    ghost left = { λ source. Some source.left };

    ghost faults = { λ source. source.faults };

    fn read(&mut self, into: &mut [u8]) -> Result<usize, Failed>
        requires { 0 < length into.old }
        ensures bound { IfOk result (λ n. n ≤ length into.new) }
        ensures taken { IfOk result (λ n.
            Takes (Some self.old.left) (take n into.new) (Some self.new.left)) }
        ensures end { IfOk result (λ n. (n ≡ 0) ↔ (self.old.left ≡ [])) }
        ensures failed { OnErr result (Rose self.old.faults self.new.faults) }
        ensures kept { OnErr result (Some self.new.left ≡ Some self.old.left) }
        ensures counted { self.old.faults ≤ self.new.faults }

        // What it does exactly.
        ensures number { self.new.calls ≡ one_more self.old.calls }
        ensures fails { IsErr result ↔ Contains self.old.fail_at self.new.calls }
        ensures amount { IfOk result (λ n.
            n ≡ min self.old.piece (min (length self.old.left) (length into.old))) }
        ensures given { IfOk result (λ n. take n into.new ≡ take n self.old.left) }
        ensures rest { IfOk result (λ n. drop n into.new ≡ drop n into.old) }
        ensures left { IfOk result (λ n. self.new.left ≡ drop n self.old.left) }
        ensures good { OnOk result (self.new.faults ≡ self.old.faults) }
        ensures fault { OnErr result (self.new.faults ≡ one_more self.old.faults) }
        ensures untouched { OnErr result (into.new ≡ into.old) }
        ensures piece { self.new.piece ≡ self.old.piece }
        ensures fail_at { self.new.fail_at ≡ self.old.fail_at }
    {
        self.calls.begin()?;
        let count = copy_front(&self.bytes.as_slice()[self.given..], self.piece, into);
        self.given += count;
        Ok(count)
    }
}

// Copies a prefix of some bytes, of at most so many, and says how many.
fn copy_front(bytes: &[u8], most: usize, into: &mut [u8]) -> usize
    ensures amount { result ≡ min most (min (length bytes.now) (length into.old)) }
    ensures front { take result into.new ≡ take result bytes.now }
    ensures rest { drop result into.new ≡ drop result into.old }
{
    let count = most.min(bytes.len()).min(into.len());
    into[..count].copy_from_slice(&bytes[..count]);
    count
}
