//! A port that writes what it takes to a sink, a line each.

ghost use Rattle.std.specs.Prelude.{◌≡◌, ℕ, ◌≤◌, Ok, false, true, take, length, IfErr, OnOk, OnErr};
ghost use Rattle.ws_io.specs.Streams.{Rose, Adds, Flushes};
ghost use Rattle.port_set.specs.declared.port.PortError.TheVariants.{Failed};
ghost use Rattle.port_set.specs.Lines.{line_of};

use crate::port::{Port, PortError};
use itoa::Buffer;
use ws_io::{Sink, write_all};

// The most bytes of a line: 20 digits and a line feed.
const LINE: usize = 21;

/// A port over a sink. It has no words left, and writes each word that it takes in decimal digits
/// and a line feed. As a port it reports no words taken. Its faults are the sink's.
#[derive(Drop)]
pub struct LinePort<K> {
    pub sink: K,
    pub closed: bool,
}

impl<K: Sink> LinePort<K> {
    /// Over this sink.
    pub fn new(sink: K) -> LinePort<K>
        ensures sink { result.sink ≡ sink }
        ensures open { result.closed ≡ false }
    {
        LinePort {
            sink,
            closed: false,
        }
    }
}

impl<K: Sink + Drop> Port for LinePort<K> {
    ghost use Rattle.std.specs.Prelude.{Some, None, []};

    ghost tells = { λ port. record {
      left = Some [];
      took = None;
      faults = K.faults port.sink;
      closed = port.closed;
    } };

    fn give(&mut self) -> Result<u64, PortError>
        requires { self.old.closed ≡ false }
        ensures given { result ≡ Ok 0 }
        ensures same { self.new ≡ self.old }
    {
        Ok(0)
    }

    fn take(&mut self, word: u64) -> Result<(), PortError>
        requires { self.old.closed ≡ false }
        ensures failed { IfErr result (λ why.
            (why ≡ Failed) × Rose (K.faults self.old.sink) (K.faults self.new.sink)) }
        ensures counted { K.faults self.old.sink ≤ K.faults self.new.sink }
        ensures open { self.new.closed ≡ false }

        // What it writes: the whole line, or a prefix of it.
        ensures line { OnOk result
            (Adds (K.held self.old.sink) (line_of word) (K.held self.new.sink)) }
        ensures flushed { OnOk result (Flushes (K.held self.new.sink)
            (K.flushed self.old.sink) (K.flushed self.new.sink)) }
        ensures front { OnErr result ((n : ℕ) × (n ≤ length (line_of word))
            × Adds (K.held self.old.sink) (take n (line_of word)) (K.held self.new.sink)) }
    {
        let mut line = [0; LINE];
        let length = put_line(word, &mut line);
        match write_all(&mut self.sink, &line[..length]) {
            Ok(()) => Ok(()),
            Err(_) => Err(PortError::Failed),
        }
    }

    fn close(&mut self)
        ensures { self.new ≡ record self.old { closed = true } }
    {
        self.closed = true;
    }
}

// Puts the digits of a word and a line feed at the start of a line, and says how many bytes they are.
fn put_line(word: u64, line: &mut [u8; LINE]) -> usize
    ensures length { result ≤ 21 }
    ensures line { take result line.new ≡ line_of word }
{
    let mut buffer = Buffer::new();
    let digits = buffer.format(word).as_bytes();
    let length = digits.len();
    line[..length].copy_from_slice(digits);
    line[length] = b'\n';
    length + 1
}
