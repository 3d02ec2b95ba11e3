//! The call of the program.

ghost use Rattle.std.specs.Prelude.{◌≤◌, length, map, string_bytes, IfOk};
ghost use Rattle.src_ast.specs.View as ast;
ghost use Rattle.src_ast.specs.Written.{IsWritten};
ghost use Rattle.job_read.specs.Job.{job_limit};
ghost use Rattle.opt_top.specs.Calls.{CallEnds, Due, Replies, Answers, IsOptimized};

use crate::status::Status;
use asm_read::{front_length, refused};
use asm_text::print_asm;
use src_ast::{TextFault, read_is_written};
use src_check::Accepted;
use std::alloc::Global;
use wave_build::compile_optimized;
use ws_io::{ReadEnd, Sink, Source, read_all, write_all};
use ws_words::{Bytes, NoMemory};

/// The most bytes of a job.
const LIMIT: usize = 1_048_576;

// The assembly of a program, and the input section of its text.
fn optimized(alloc: Global, text: &[u8], accepted: &Accepted) -> Result<Bytes, NoMemory>
    requires { IsWritten (ast.parts accepted.now.program.items.items) }
    ensures { let parts = ast.parts accepted.now.program.items.items in
        IfOk result (IsOptimized text.now parts) }
{
    let made = compile_optimized(alloc, accepted)?;
    let mut out = print_asm(alloc, made.image())?;
    out.extend(&text[front_length(text, b"%input")..])?;
    Ok(out)
}

// What is answered to a text.
fn answer(alloc: Global, text: &[u8]) -> Result<(Status, Bytes), NoMemory>
    requires { length text.now ≤ job_limit }
    ensures { IfOk result (λ x. Answers text.now x.0 x.1) }
{
    read_is_written();
    match job_read::read(alloc, text) {
        Ok((accepted, _)) => {
            let out = optimized(alloc, text, &accepted)?;
            Ok((Status::Done, out))
        }
        Err(TextFault::Refused(refusal)) => {
            let out = refused(alloc, refusal)?;
            Ok((Status::Refused, out))
        }
        Err(TextFault::NoMemory) => Err(NoMemory),
    }
}

// What is answered to what a source gives.
fn reply<S: Source>(alloc: Global, source: &mut S) -> Result<(Status, Bytes), NoMemory>
    ensures { IfOk result (λ x. Replies (S.left source.old) (S.left source.new) (S.faults source.old)
        (S.faults source.new) x.0 x.1) }
{
    match read_all(alloc, source, LIMIT) {
        Ok(text) => answer(alloc, text.as_slice()),
        Err(ReadEnd::Failed) => {
            let out = Bytes::from_slice(alloc, b"fault read\n")?;
            Ok((Status::ReadFault, out))
        }
        Err(ReadEnd::TooLong) => {
            let out = Bytes::from_slice(alloc, b"refused long\n")?;
            Ok((Status::Refused, out))
        }
        Err(ReadEnd::NoMemory) => Err(NoMemory),
    }
}

// The answer of a call with these arguments.
fn due<S: Source>(
    alloc: Global,
    words: &[String],
    source: &mut S,
) -> Result<(Status, Bytes), NoMemory>
    ensures { IfOk result (λ x. Due (map string_bytes words.now) (S.left source.old)
        (S.left source.new) (S.faults source.old) (S.faults source.new) x.0 x.1) }
{
    if words.is_empty() {
        return reply(alloc, source);
    }
    let out = Bytes::from_slice(alloc, b"usage: wso\n")?;
    Ok((Status::Usage, out))
}

/// One call of the program: from the command-line arguments, without the program's own name, of which there
/// must be none, and what the source gives, to what the sink takes.
pub fn wso<S: Source, K: Sink>(
    alloc: Global,
    words: &[String],
    source: &mut S,
    sink: &mut K,
) -> Status
    ensures ends { CallEnds (map string_bytes words.now) (S.left source.old) (S.left source.new)
        (S.faults source.old) (S.faults source.new) (K.held sink.old) (K.held sink.new)
        (K.flushed sink.old) (K.flushed sink.new) (K.faults sink.old) (K.faults sink.new) result }
{
    match due(alloc, words, source) {
        Ok((status, out)) => match write_all(sink, out.as_slice()) {
            Ok(()) => status,
            Err(_) => Status::WriteFault,
        },
        Err(_) => Status::NoMemory,
    }
}
