//! The program: the top call over the command-line arguments, standard input and standard output.
//! Port 1 writes to standard error.
//!
//! `called` answers a code: that of a status with which the top call, on the arguments but the first and with
//! a port in slot 1 alone, ends (`EndsWithCode`). So what `CallEnds` says holds of the code, the source and
//! the sink. `main` gives it the arguments and the standard streams, of which no contract speaks.
#![tactic(auto)]

ghost use Rattle.std.specs.Prelude.{◌≡◌, drop, map, string_bytes};
ghost use Rattle.std.specs.Process.{exit_status};
ghost use Rattle.port_set.specs.Slots.{AllOpen, contents};
ghost use Rattle.wsc_top.specs.Answers.{TellWords};
ghost use Rattle.wsc_top.specs.Calls.{EndsWithCode, in_first};
ghost use Rattle.asm_read.specs.Reads.{reading};
ghost use Rattle.run_text.specs.Writes.{writing};

use fire_crew::Free;
use port_set::{LinePort, Port, Slots};
use std::alloc::Global;
use std::env;
use std::env::Env;
use std::io::ErrorKind;
use std::process::ExitCode;
use std::sync::Wait;
use std::thread::Threads;
use ws_io::{Sink, Source, StdSink, StdSource};
use wsc_top::{Status, wsc};

// The command-line arguments, or nothing if memory runs out. If one of them is no text there are none: these
// are no command line.
fn words<R: Env + AllocGlobal>(rt: &R) -> Option<Vec<String>> {
    let mut words = Vec::new(rt.alloc());
    match env::args(rt) {
        Ok(args) => {
            for word in args {
                words.push(word).ok()?;
            }
        }
        Err(error) => {
            if error.kind() == ErrorKind::OutOfMemory {
                return None;
            }
        }
    }
    Some(words)
}

// All words but the first, which is the program's own name.
fn others(words: &[String]) -> &[String]
    ensures { map string_bytes result.now ≡ drop 1 (map string_bytes words.now) }
{
    match words.split_first() {
        Some((_, others)) => others,
        None => words,
    }
}

// Slots of which the first alone has a port.
fn alone<P: Port>(port: P) -> Slots<P>
    ensures { contents P.tells result ≡ in_first (P.tells port) }
{
    Slots {
        first: Some(port),
        second: None,
        third: None,
        fourth: None,
        fifth: None,
        sixth: None,
        seventh: None,
    }
}

// Calls the program with these words, of which the first is its own name, and this port in slot 1, finishes
// the port, and answers the code of the status.
fn called<S: Source, K: Sink, P: Port + Send, R: Threads + Wait + Sync>(
    rt: &R,
    alloc: Global,
    words: &[String],
    source: &mut S,
    sink: &mut K,
    port: P,
) -> ExitCode
    requires told { TellWords (in_first (P.tells port)) }
    requires open { AllOpen (in_first (P.tells port)) }
    ensures { EndsWithCode (drop 1 (map string_bytes words.now))
        (reading S.left S.faults source.old source.new)
        (writing K.held K.flushed K.faults sink.old sink.new) (P.tells port) (exit_status result) }
{
    let outcome = wsc(rt, alloc, others(words), source, sink, alone(port), &Free);
    let code = outcome.status.code();
    outcome.ports.finish();
    ExitCode::from(code)
}

fn main(rt: HostRuntime) -> ExitCode {
    let Some(words) = words(&rt) else {
        return ExitCode::from(Status::NoMemory.code());
    };
    let mut source = StdSource::new(rt.stdin());
    let mut sink = StdSink::new(rt.stdout());
    let port = LinePort::new(StdSink::new(rt.stderr()));
    called(&rt, rt.alloc(), &words, &mut source, &mut sink, port)
}
