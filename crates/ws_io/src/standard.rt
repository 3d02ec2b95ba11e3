//! Standard readers and writers as sources and sinks.

ghost use Rattle.std.specs.Prelude.{◌≡◌, ◌<◌, ◌≤◌, None, length, IfOk, OnOk, OnErr};
ghost use Rattle.std.specs.Io.KnownBytes.{Keeps, ReadConsumes, WriteAppends};
ghost use Rattle.ws_io.specs.Memory.{one_more};
ghost use Rattle.ws_io.specs.Streams.{Rose};

use crate::stream::{Failed, Sink, Source};
use std::io::{Read, Write};

/// A source over a standard reader. As a source it reports no bytes.
#[derive(Drop)]
pub struct StdSource<R> {
    pub reader: R,
    /// How many reads have failed. The count stands still at its type's end.
    pub faults: u64,
}

impl<R: Read> StdSource<R> {
    /// Over this reader, with no faults so far.
    pub fn new(reader: R) -> StdSource<R>
        ensures reader { result.reader ≡ reader }
        ensures faults { result.faults ≡ 0 }
    {
        StdSource { reader, faults: 0 }
    }
}

impl<R: Read> Source for StdSource<R> {
    ghost left = { λ _. None };

    ghost faults = { λ source. source.faults };

    fn read(&mut self, into: &mut [u8]) -> Result<usize, Failed>
        requires { 0 < length into.old }
        ensures bound { IfOk result (λ n. n ≤ length into.new) }
        ensures failed { OnErr result (Rose self.old.faults self.new.faults) }
        ensures counted { self.old.faults ≤ self.new.faults }

        // What it does exactly: what the reader does, and each of its errors is a fault.
        ensures bytes { ReadConsumes (R.remaining self.old.reader)
            (R.remaining self.new.reader) result into.new }
        ensures good { OnOk result (self.new.faults ≡ self.old.faults) }
        ensures fault { OnErr result (self.new.faults ≡ one_more self.old.faults) }
    {
        match self.reader.read(into) {
            Ok(count) => Ok(count),
            Err(_) => {
                self.faults = self.faults.saturating_add(1);
                Err(Failed)
            }
        }
    }
}

/// A sink over a standard writer. As a sink it reports no bytes. A writer that takes nothing of a
/// piece has failed.
#[derive(Drop)]
pub struct StdSink<W> {
    pub writer: W,
    /// How many writes and flushes have failed. The count stands still at its type's end.
    pub faults: u64,
}

impl<W: Write> StdSink<W> {
    /// Over this writer, with no faults so far.
    pub fn new(writer: W) -> StdSink<W>
        ensures writer { result.writer ≡ writer }
        ensures faults { result.faults ≡ 0 }
    {
        StdSink { writer, faults: 0 }
    }
}

impl<W: Write> Sink for StdSink<W> {
    ghost held = { λ _. None };

    ghost flushed = { λ _. None };

    ghost faults = { λ sink. sink.faults };

    fn write(&mut self, piece: &[u8]) -> Result<usize, Failed>
        requires { 0 < length piece.now }
        ensures some { IfOk result (λ n. 0 < n) }
        ensures bound { IfOk result (λ n. n ≤ length piece.now) }
        ensures failed { OnErr result (Rose self.old.faults self.new.faults) }
        ensures counted { self.old.faults ≤ self.new.faults }

        // What it does exactly: what the writer does, and each of its errors is a fault.
        ensures bytes { WriteAppends (W.contents self.old.writer)
            (W.contents self.new.writer) result piece.now }
        ensures good { OnOk result (self.new.faults ≡ self.old.faults) }
        ensures fault { OnErr result (self.new.faults ≡ one_more self.old.faults) }
    {
        match self.writer.write(piece) {
            Ok(count) if count > 0 => Ok(count),
            _ => {
                self.faults = self.faults.saturating_add(1);
                Err(Failed)
            }
        }
    }

    fn flush(&mut self) -> Result<(), Failed>
        ensures failed { OnErr result (Rose self.old.faults self.new.faults) }
        ensures counted { self.old.faults ≤ self.new.faults }

        // What it does exactly: what the writer does, and each of its errors is a fault.
        ensures bytes { Keeps (W.contents self.old.writer) (W.contents self.new.writer) }
        ensures good { OnOk result (self.new.faults ≡ self.old.faults) }
        ensures fault { OnErr result (self.new.faults ≡ one_more self.old.faults) }
    {
        match self.writer.flush() {
            Ok(()) => Ok(()),
            Err(_) => {
                self.faults = self.faults.saturating_add(1);
                Err(Failed)
            }
        }
    }
}
