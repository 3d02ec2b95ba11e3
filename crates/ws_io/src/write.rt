//! Writing a whole text.

ghost use Rattle.std.specs.Prelude.{◌≡◌, ℕ, ◌≤◌, take, length, OnOk, OnErr};
ghost use Rattle.ws_io.specs.Streams.{Rose, Adds, Flushes};

use crate::stream::{Failed, Sink};

/// Why a text was not written whole.
#[derive(Clone, Copy, Debug, PartialEq, Eq)]
pub enum WriteEnd {
    Failed,
}

impl From<Failed> for WriteEnd {
    fn from(_: Failed) -> WriteEnd {
        WriteEnd::Failed
    }
}

/// Writes all of a text and flushes, also if the text is empty. If that fails, a prefix of the
/// text is written.
pub fn write_all<K: Sink>(sink: &mut K, text: &[u8]) -> Result<(), WriteEnd>
    ensures ok { OnOk result (Adds (K.held sink.old) text.now (K.held sink.new)) }
    ensures flushed { OnOk result
        (Flushes (K.held sink.new) (K.flushed sink.old) (K.flushed sink.new)) }

    // A fault has occurred, a prefix of the text is written, and nothing more is flushed.
    ensures failed { OnErr result (Rose (K.faults sink.old) (K.faults sink.new)) }
    ensures prefix { OnErr result ((n : ℕ)
        × (n ≤ length text.now) × Adds (K.held sink.old) (take n text.now) (K.held sink.new)) }
    ensures unflushed { OnErr result (K.flushed sink.new ≡ K.flushed sink.old) }

    ensures counted { K.faults sink.old ≤ K.faults sink.new }
{
    let mut done = 0;
    'pieces: while done < text.len() {
        done += sink.write(&text[done..])?;
    }
    sink.flush()?;
    Ok(())
}
