//! Optimized assemblies: the call of `opt_top` over the command-line arguments, standard input and
//! standard output.
#![tactic(auto)]

use opt_top::{Status, wso};
use std::alloc::Global;
use std::env;
use std::env::Env;
use std::io::ErrorKind;
use std::process::ExitCode;
use ws_io::{Sink, Source, StdSink, StdSource};

// The command-line arguments, or nothing if memory runs out. If one of them is no text, there are none.
fn words<R: Env + AllocGlobal>(rt: &R) -> Option<Vec<String>> {
    let mut words = Vec::new(rt.alloc());
    match env::args(rt) {
        Ok(args) => {
            for word in args {
                words.push(word).ok()?;
            }
        }
        Err(error) => {
            if error.kind() == ErrorKind::OutOfMemory {
                return None;
            }
        }
    }
    Some(words)
}

// All words but the first, which is the program's own name.
fn others(words: &[String]) -> &[String] {
    match words.split_first() {
        Some((_, others)) => others,
        None => words,
    }
}

// Calls the program with these arguments, of which the first is its own name, and answers the status code.
fn called<S: Source, K: Sink>(
    alloc: Global,
    words: &[String],
    source: &mut S,
    sink: &mut K,
) -> ExitCode {
    ExitCode::from(wso(alloc, others(words), source, sink).code())
}

fn main(rt: HostRuntime) -> ExitCode {
    let Some(words) = words(&rt) else {
        return ExitCode::from(Status::NoMemory.code());
    };
    let mut source = StdSource::new(rt.stdin());
    let mut sink = StdSink::new(rt.stdout());
    called(rt.alloc(), &words, &mut source, &mut sink)
}
