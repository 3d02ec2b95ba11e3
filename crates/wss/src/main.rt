//! Runs of any length: the call of `stream_top` over the command-line arguments, standard input and
//! standard output. If the first argument is `--progress`, a line `firings N` goes to standard error each
//! 67,108,864 firings, and the call has the other arguments.
//!
//! `called` answers a code: that of a status with which a call on the arguments but the first ends. `main`
//! gives it the standard streams, of which no contract speaks.
#![tactic(auto)]

ghost use Rattle.std.specs.Prelude.{◌≡◌, drop, map, string_bytes};
ghost use Rattle.std.specs.Process.{exit_status};
ghost use Rattle.asm_read.specs.Reads.{reading};
ghost use Rattle.run_text.specs.Writes.{writing};
ghost use Rattle.stream_top.specs.declared.status.Status.{Status};
ghost use Rattle.stream_top.specs.Calls.{CallEnds};
ghost use Rattle.stream_top.specs.Codes.{code_of};

use std::alloc::Global;
use std::env;
use std::env::Env;
use std::io::ErrorKind;
use std::process::ExitCode;
use stream_run::{Nobody, Watch};
use stream_top::{Status, wss};
use ws_io::{Sink, Source, StdSink, StdSource, put_decimal, write_all};
use ws_words::{Bytes, NoMemory};

// The command-line arguments, or nothing if memory runs out. If one of them is no text there are none: these
// are no command line.
fn words<R: Env + AllocGlobal>(rt: &R) -> Option<Vec<String>> {
    let mut words = Vec::new(rt.alloc());
    match env::args(rt) {
        Ok(args) => {
            for word in args {
                words.push(word).ok()?;
            }
        }
        Err(error) => {
            if error.kind() == ErrorKind::OutOfMemory {
                return None;
            }
        }
    }
    Some(words)
}

// All words but the first, which is the program's own name.
fn others(words: &[String]) -> &[String]
    ensures { map string_bytes result.now ≡ drop 1 (map string_bytes words.now) }
{
    match words.split_first() {
        Some((_, others)) => others,
        None => words,
    }
}

// Firings between two lines of progress: some seconds.
const STEP: u64 = 1 << 26;

// Writes a line of progress after each so many firings. One that can't be written is passed over.
#[derive(Drop)]
struct Progress<K> {
    alloc: Global,
    sink: K,
    next: u64,
}

impl<K: Sink> Watch for Progress<K> {
    fn fired(&mut self, count: u64) {
        if count >= self.next {
            self.next = count.saturating_add(STEP);
            if let Ok(text) = line(self.alloc, count) {
                let _ = write_all(&mut self.sink, text.as_slice());
            }
        }
    }
}

// The line of so many firings.
fn line(alloc: Global, count: u64) -> Result<Bytes, NoMemory> {
    let mut text = Bytes::from_slice(alloc, b"firings ")?;
    put_decimal(&mut text, count)?;
    text.push(b'\n')?;
    Ok(text)
}

// Calls the program with these words, of which the first is its own name, and answers the code of the status.
fn called<S: Source, K: Sink, W: Watch>(
    alloc: Global,
    words: &[String],
    source: &mut S,
    sink: &mut K,
    watch: &mut W,
) -> ExitCode
    ensures { (status : Status) × (exit_status result ≡ code_of status)
        × CallEnds (drop 1 (map string_bytes words.now)) (reading S.left S.faults source.old source.new)
        (writing K.held K.flushed K.faults sink.old sink.new) status }
{
    let status = wss(alloc, others(words), source, sink, watch);
    ExitCode::from(status.code())
}

// Whether the first word asks for progress.
fn asks_for_progress(words: &[String]) -> bool {
    match words.first() {
        Some(word) => word.as_str() == "--progress",
        None => false,
    }
}

fn main(rt: HostRuntime) -> ExitCode {
    let Some(words) = words(&rt) else {
        return ExitCode::from(Status::NoMemory.code());
    };
    let alloc = rt.alloc();
    let mut source = StdSource::new(rt.stdin());
    let mut sink = StdSink::new(rt.stdout());
    let words = words.as_slice();
    if asks_for_progress(others(words)) {
        let mut progress = Progress {
            alloc,
            sink: StdSink::new(rt.stderr()),
            next: STEP,
        };
        return called(alloc, others(words), &mut source, &mut sink, &mut progress);
    }
    called(alloc, words, &mut source, &mut sink, &mut Nobody)
}
