//! Reading a whole text.

ghost use Rattle.std.specs.Prelude.{◌≡◌, ℕ, ◌+◌, ◌≤◌, List, length, IfOk, IsErrOf};
ghost use Rattle.ws_io.specs.Streams.{Rose, Takes, TakesAll};
ghost use Rattle.ws_io.specs.declared.read.ReadEnd.{ReadEnd};

use crate::stream::{Failed, Source};
use std::alloc::Global;
use ws_words::{Bytes, NoMemory};

/// Why a text was not read whole.
#[derive(Clone, Copy, Debug, PartialEq, Eq)]
pub enum ReadEnd {
    Failed,
    TooLong,
    NoMemory,
}

impl From<Failed> for ReadEnd {
    ghost use Rattle.ws_io.specs.declared.read.ReadEnd.TheVariants.{Failed as failed_end};

    ghost from_gives = { λ _ end. end ≡ failed_end };

    fn from(_: Failed) -> ReadEnd {
        ReadEnd::Failed
    }
}

impl From<NoMemory> for ReadEnd {
    ghost use Rattle.ws_io.specs.declared.read.ReadEnd.TheVariants.{NoMemory as no_memory_end};

    ghost from_gives = { λ _ end. end ≡ no_memory_end };

    fn from(_: NoMemory) -> ReadEnd {
        ReadEnd::NoMemory
    }
}

// How many bytes a read asks for at most.
const PIECE: usize = 4096;

/// Reads a whole text of at most `limit` bytes. It reads at most `limit + 1` bytes: if there is one
/// more than the limit, the text is too long.
pub fn read_all<S: Source>(alloc: Global, source: &mut S, limit: usize) -> Result<Bytes, ReadEnd>
    ensures ok { IfOk result (λ text. TakesAll (S.left source.old) text (S.left source.new)) }
    ensures within { IfOk result (λ text. length text ≤ limit) }
    ensures long { IsErrOf result ReadEnd.TooLong → (bytes : List ℕ)
        × (length bytes ≡ limit + 1) × Takes (S.left source.old) bytes (S.left source.new) }

    // A fault has occurred, and the bytes read before it are gone.
    ensures failed { IsErrOf result ReadEnd.Failed
        → Rose (S.faults source.old) (S.faults source.new) }
    ensures failed_taken { IsErrOf result ReadEnd.Failed → (bytes : List ℕ)
        × (length bytes ≤ limit) × Takes (S.left source.old) bytes (S.left source.new) }

    ensures memory { IsErrOf result ReadEnd.NoMemory → (bytes : List ℕ)
        × (length bytes ≤ limit + 1) × Takes (S.left source.old) bytes (S.left source.new) }
    ensures counted { S.faults source.old ≤ S.faults source.new }
{
    let mut text = Bytes::empty(alloc);
    let mut buffer = [0u8; PIECE];
    'pieces: loop {
        let room = (limit - text.len()).saturating_add(1);
        let count = source.read(&mut buffer[..room.min(PIECE)])?;
        if count == 0 {
            return Ok(text);
        }
        text.extend(&buffer[..count])?;
        if text.len() > limit {
            return Err(ReadEnd::TooLong);
        }
    }
}
