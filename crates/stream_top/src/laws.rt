//! What follows from the ends of calls.

ghost use Rattle.std.specs.Prelude.{◌≡◌, List, ℕ};
ghost use Rattle.asm_read.specs.Reads.{SourceCall};
ghost use Rattle.stream_run.specs.declared.options.Options.{Options};
ghost use Rattle.run_text.specs.Writes.{Writing};
ghost use Rattle.stream_top.specs.declared.status.Status.{Status};
ghost use Rattle.stream_top.specs.Lines.{AsksForRun};
ghost use Rattle.stream_top.specs.Calls.{CallEnds};
ghost use Rattle.stream_top.specs.Causes.{CallCaused};

use asm_read::each_assembly_is_read_or_refused;

/// Arguments ask for one run at most.
pub fn words_ask_once()
    ensures { (words : List (List ℕ)) (options others : Options)
        → AsksForRun words options → AsksForRun words others → options ≡ others }
{}

/// Each call has its exit status by its arguments, its text, faults that occurred, and memory running out.
pub fn each_status_has_its_cause()
    ensures { (words : List (List ℕ)) (reads : SourceCall) (writes : Writing) (status : Status)
        → CallEnds words reads writes status → CallCaused words reads writes status }
{
    words_ask_once();
    each_assembly_is_read_or_refused();
}
