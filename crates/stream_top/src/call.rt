//! The call of the program.

ghost use Rattle.std.specs.Prelude.{◌≡◌, List, ℕ, map, string_bytes};
ghost use Rattle.asm_read.specs.Reads.{IsUnread, SourceCall, reading};
ghost use Rattle.stream_run.specs.declared.options.Options.{Options as Asked};
ghost use Rattle.run_text.specs.Writes.{writing};
ghost use Rattle.stream_top.specs.Lines.{AsksForRun};
ghost use Rattle.stream_top.specs.Calls.{CallEnds, IsAnswer, IsDue, status_of};
ghost use Rattle.stream_top.specs.Causes.{CallCaused};

use crate::laws::each_status_has_its_cause;
use crate::status::Status;
use crate::words::read_options;
use asm_read::{Unread, asm_refused, read_source, world};
use df_core::Finish;
use std::alloc::Global;
use stream_run::{Options, Stop, Watch, run_image};
use ws_io::{Sink, Source, write_all};
use ws_isa::Checked;
use ws_words::{NoMemory, Words};
use wsc_words::WordsFault;

const USAGE: &[u8] = b"usage: wss [--budget N] [--memory] [--stats]\n";

const UNREAD: &[u8] = b"fault read\n";

const LONG: &[u8] = b"refused long\n";

/// One call of the program: from the command-line arguments, without the program's own name, and
/// what the source gives, to what the sink takes. While a run goes on, the watch is told how many have fired.
pub fn wss<S: Source, K: Sink, W: Watch>(
    alloc: Global,
    words: &[String],
    source: &mut S,
    sink: &mut K,
    watch: &mut W,
) -> Status
    ensures ends { CallEnds (map string_bytes words.now) (reading S.left S.faults source.old source.new)
        (writing K.held K.flushed K.faults sink.old sink.new) result }
    ensures caused { CallCaused (map string_bytes words.now)
        (reading S.left S.faults source.old source.new)
        (writing K.held K.flushed K.faults sink.old sink.new) result }
{
    each_status_has_its_cause();
    match read_options(alloc, words) {
        Ok(options) => called(alloc, options, source, sink, watch),
        Err(WordsFault::Usage) => put(sink, Status::Usage, USAGE),
        Err(WordsFault::NoMemory) => Status::NoMemory,
    }
}

// The same with these options.
fn called<S: Source, K: Sink, W: Watch>(
    alloc: Global,
    options: Options,
    source: &mut S,
    sink: &mut K,
    watch: &mut W,
) -> Status
    ensures { (words : List (List ℕ)) → AsksForRun words options → CallEnds words
        (reading S.left S.faults source.old source.new)
        (writing K.held K.flushed K.faults sink.old sink.new) result }
{
    match read_source(alloc, source) {
        Ok((image, input)) => run(alloc, options, &image, input, sink, watch),
        Err(why) => refuse(alloc, why, sink),
    }
}

// Answers where the source gives no assembly.
fn refuse<K: Sink>(alloc: Global, why: Unread, sink: &mut K) -> Status
    ensures { (words : List (List ℕ)) (reads : SourceCall) (options : Asked) → AsksForRun words options
        → IsUnread reads why → CallEnds words reads
        (writing K.held K.flushed K.faults sink.old sink.new) result }
{
    match why {
        Unread::Failed => put(sink, Status::ReadFault, UNREAD),
        Unread::TooLong => put(sink, Status::Refused, LONG),
        Unread::Refused(why) => match asm_refused(alloc, why) {
            Ok(text) => put(sink, Status::Refused, text.as_slice()),
            Err(NoMemory) => Status::NoMemory,
        },
        Unread::NoMemory => Status::NoMemory,
    }
}

// Runs an image on these words, and writes what is reported of it.
fn run<K: Sink, W: Watch>(
    alloc: Global,
    options: Options,
    image: &Checked,
    input: Words,
    sink: &mut K,
    watch: &mut W,
) -> Status
    ensures { (words : List (List ℕ)) (reads : SourceCall)
        → IsDue words reads options image.now input → CallEnds words reads
        (writing K.held K.flushed K.faults sink.old sink.new) result }
{
    let world = match world(alloc, input) {
        Ok(world) => world,
        Err(NoMemory) => return Status::NoMemory,
    };
    match run_image(alloc, options, image, &world, sink, watch) {
        Ok(finish) => status_of(finish),
        Err(Stop::Unwritten) => Status::WriteFault,
        Err(Stop::NoMemory) => Status::NoMemory,
    }
}

// Writes an answer of this status.
fn put<K: Sink>(sink: &mut K, status: Status, text: &[u8]) -> Status
    ensures { (words : List (List ℕ)) (reads : SourceCall) → IsAnswer words reads status text.now
        → CallEnds words reads (writing K.held K.flushed K.faults sink.old sink.new) result }
{
    match write_all(sink, text) {
        Ok(()) => status,
        Err(_) => Status::WriteFault,
    }
}

// The status by how a run ended.
fn status_of(finish: Finish) -> Status
    ensures { result ≡ status_of finish }
{
    match finish {
        Finish::Rest => Status::Done,
        Finish::Budget => Status::Budget,
        Finish::Fault { .. } => Status::Fault,
    }
}
