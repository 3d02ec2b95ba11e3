//! What follows from the definitions of jobs and answers.

ghost use Rattle.std.specs.Prelude.{◌≡◌, ◌⊎◌, ℕ, List, [], Option, Some, true};
ghost use Rattle.std.specs.List.{AllByRecursion};
ghost use Rattle.ws_words.specs.Outside.{IsMachineWord};
ghost use Rattle.port_set.specs.Ports.{Told};
ghost use Rattle.store_buf.specs.Outdoors.{world_with};
ghost use Rattle.src_ast.specs.Syntax.{Part};
ghost use Rattle.src_ast.specs.Once.{ExactlyOne};
ghost use Rattle.ws_isa.specs.Image.{Image};
ghost use Rattle.ws_isa.specs.Formed.{Formed};
ghost use Rattle.ws_isa.specs.Sound.{Sound};
ghost use Rattle.work_gen.specs.Job.{words_of};
ghost use Rattle.asm_text.specs.Printed.{printed};
ghost use Rattle.asm_text.specs.Reading.{read};
ghost use Rattle.trace_check.specs.declared.replaying.Replayed.{Replayed};
ghost use Rattle.trace_check.specs.Replays.{Replays};
ghost use Rattle.trace_check.specs.Traces.{numbered};
ghost use Rattle.wsc_top.specs.declared.status.Status.{Status};
ghost use Rattle.wsc_top.specs.declared.task.Task.{Task};
ghost use Rattle.wsc_top.specs.declared.task.BenchOptions.{BenchOptions};
ghost use Rattle.wsc_top.specs.declared.task.JobTask.{JobTask};
ghost use Rattle.wsc_top.specs.declared.task.RunOptions.{RunOptions};
ghost use Rattle.wsc_top.specs.declared.task.AssemblyTask.{AssemblyTask};
ghost use Rattle.wsc_top.specs.declared.task.GridOptions.{GridOptions};
ghost use Rattle.asm_read.specs.Sections.{before_trace, trace_line};
ghost use Rattle.asm_read.specs.Reads.{world_of};
ghost use Rattle.asm_read.specs.Assembly.{IsAssembly};
ghost use Rattle.wsc_top.specs.Executions.{Executes, EndsRun, IsFailed};
ghost use Rattle.wsc_top.specs.Generated.{IsGeneratedJob};
ghost use Rattle.wsc_top.specs.Texts.{with_input};
ghost use Rattle.wsc_top.specs.Traced.{IsTraced, HasTrace, CanReplay, replayed_text};
ghost use Rattle.wsc_top.specs.Tasks.{AsksFor};
ghost use Rattle.wsc_top.specs.Answers.{TellWords, JobEndsSo, AssemblyEndsSo, BenchEndsSo, Answers, IsDue};
ghost use Rattle.wsc_top.specs.Answers.{IsFixed, IsAnswer, IsFree, IsSettled, Yields, AssemblyAnswered};
ghost use Rattle.wsc_top.specs.Answers.{IsAssemblyReply, IsToldJob, IsToldAssembly};

use annot_check::breaches_break;
use asm_text::{printed_reads_again, printed_texts_have_no_marker, read_images_are_formed};
use grid_clock::clocks_are_one;
use job_read::each_text_is_a_job_or_refused;
use seq_run::one_answer;
use src_ast::{printed_reads_the_same, read_is_written, same_programs_are_accepted_alike};
use trace_check::{made_traces_are_replayed, written_traces_read_again};
use work_gen::generated_programs_are_accepted;
use ws_isa::{effects_are_one, walks_go_on};
use wsc_words::words_are_one_line;

/// For each task but `run` and `compile` each text has one answer alone, a status and a text.
pub fn every_text_is_answered_once()
    ensures { (task : JobTask) (text : List ℕ) (handed : List (Option Told)) → IsFixed task
        → ExactlyOne (IsAnswer task text handed) }
{
    each_text_is_a_job_or_refused();
    read_is_written();
    printed_reads_the_same();
    one_answer();
}

/// Two answers of `run` to one text, with ports that have the same left, are the same where nothing is
/// left to the image: where neither is cut short by the budget or a port and no firings are reported.
pub fn runs_are_answered_alike()
    ensures { (options : RunOptions) (text : List ℕ) (handed : List (Option Told))
        (a b : Status × List ℕ)
        → IsAnswer (JobTask.Run options) text handed a
        → IsAnswer (JobTask.Run options) text handed b
        → IsFree options a.0 → IsFree options b.0 → a ≡ b }
{
    each_text_is_a_job_or_refused();
    one_answer();
}

/// What comes of the run that is due is the answer.
pub fn what_is_due_is_answered()
    ensures { (words : List (List ℕ)) (left after : Option (List ℕ)) (faults counted : ℕ)
        (handed back : List (Option Told)) (options : RunOptions) (image : Image) (input : List ℕ)
        (status : Status) (out : List ℕ)
        → IsDue words left after options image input → TellWords handed
        → Executes options image (world_with input handed) handed status out back
        → Answers words left after faults counted handed status out (Some image) back }
{
    walks_go_on();
    effects_are_one();
}

/// Each answer to a job, an assembly or a generated job that was read has the status that its run
/// decides, and that of a run the budget with it.
pub fn each_answer_has_its_status()
    ensures job { (words : List (List ℕ)) (left after : Option (List ℕ)) (faults counted : ℕ)
        (handed back : List (Option Told)) (status : Status) (out : List ℕ) (image : Option Image)
        (task : JobTask) (parts : List Part) (input : List ℕ)
        → Answers words left after faults counted handed status out image back
        → IsToldJob words left task parts input → TellWords handed
        → (status ≡ Status.ReadFault → ⊥) → JobEndsSo task parts input handed status }
    ensures assembly { (words : List (List ℕ)) (left after : Option (List ℕ)) (faults counted : ℕ)
        (handed back : List (Option Told)) (status : Status) (out : List ℕ) (again : Option Image)
        (task : AssemblyTask) (image : Image) (input : List ℕ)
        → Answers words left after faults counted handed status out again back
        → (told : IsToldAssembly words left task image input)
        → (status ≡ Status.ReadFault → ⊥)
        → AssemblyEndsSo task told.text image input handed status }
    ensures bench { (words : List (List ℕ)) (left after : Option (List ℕ)) (faults counted : ℕ)
        (handed back : List (Option Told)) (status : Status) (out : List ℕ) (image : Option Image)
        (options : BenchOptions) (parts : List Part)
        → Answers words left after faults counted handed status out image back
        → AsksFor words (Task.Bench options) → IsGeneratedJob options.number parts → TellWords handed
        → BenchEndsSo options parts handed status }
{
    words_are_one_line();
    each_text_is_a_job_or_refused();
    breaches_break();
    one_answer();
}

/// Each answer of `run` and `bench` to a job that was read has the status that the walk of the image
/// decides which is handed back.
pub fn each_run_ends_as_its_walk()
    ensures job { (words : List (List ℕ)) (left after : Option (List ℕ)) (faults counted : ℕ)
        (handed back : List (Option Told)) (status : Status) (out : List ℕ) (image : Option Image)
        (ran : Image) (options : RunOptions) (parts : List Part) (input : List ℕ)
        → Answers words left after faults counted handed status out image back
        → IsToldJob words left (JobTask.Run options) parts input → image ≡ Some ran
        → EndsRun ran (world_with input handed) options.budget status }
    ensures bench { (words : List (List ℕ)) (left after : Option (List ℕ)) (faults counted : ℕ)
        (handed back : List (Option Told)) (status : Status) (out : List ℕ) (image : Option Image)
        (ran : Image) (options : BenchOptions)
        → Answers words left after faults counted handed status out image back
        → AsksFor words (Task.Bench options) → image ≡ Some ran
        → EndsRun ran (world_with (words_of options.number) handed) options.run.budget status }
{
    words_are_one_line();
    each_text_is_a_job_or_refused();
}

/// Two answers of `check`, `list`, `exec` or `grid` to an assembly that aren't cut short by the budget or
/// a port are the same, or both say that it is refused; `check` and `list` have exactly one answer to a
/// sound assembly. Two of `grid` to a sound assembly are the same also where the budget cuts them short,
/// with their firings and cycles.
pub fn assemblies_are_answered_alike()
    ensures alike { (task : AssemblyTask) → IsSettled task → (text : List ℕ)
        (handed : List (Option Told)) (a b : Status × List ℕ)
        → IsAssemblyReply task text handed a → IsAssemblyReply task text handed b
        → (a.0 ≡ Status.Budget → ⊥) → (b.0 ≡ Status.Budget → ⊥)
        → (IsFailed a.0 → ⊥) → (IsFailed b.0 → ⊥)
        → (a ≡ b) ⊎ ((a.0 ≡ Status.Refused) × (b.0 ≡ Status.Refused)) }
    ensures checked { (text : List ℕ) (image : Image) (words : List ℕ) (handed : List (Option Told))
        → IsAssembly text image words → ExactlyOne (IsAssemblyReply AssemblyTask.Check text handed) }
    ensures listed { (text : List ℕ) (image : Image) (words : List ℕ) (handed : List (Option Told))
        → IsAssembly text image words → ExactlyOne (IsAssemblyReply AssemblyTask.List text handed) }
    ensures gridded { (options : GridOptions) (text : List ℕ) (image : Image) (words : List ℕ)
        (handed : List (Option Told)) (a b : Status × List ℕ) → IsAssembly text image words
        → IsAssemblyReply (AssemblyTask.Grid options) text handed a
        → IsAssemblyReply (AssemblyTask.Grid options) text handed b → a ≡ b }
{
    breaches_break();
    walks_go_on();
    effects_are_one();
    read_images_are_formed();
    clocks_are_one();
}

/// The text of each generated job is one: the program that multiplies two matrices, and their cells.
pub fn each_generated_job_is_a_job()
    ensures { (number : ℕ) → (parts : List Part) × IsGeneratedJob number parts }
{
    generated_programs_are_accepted();
    printed_reads_the_same();
    same_programs_are_accepted_alike();
}

/// What is printed is read again: the text of an image as that image, with the words of an input section
/// behind it, and a trace as the image, the words and the events that were traced. The call takes a text of
/// at most `assembly_limit` bytes: a longer one is refused as too long, whatever it says.
pub fn printed_texts_are_read_again()
    // the text of a sound image by itself
    ensures image { (image : Image) → Formed image → Sound image → IsAssembly (printed image) image [] }
    // the same with an input section behind it
    ensures input { (image : Image) (words : List ℕ) → Formed image → Sound image
        → AllByRecursion IsMachineWord words → IsAssembly (with_input (printed image) words) image words }
    // what `compile` prints, by itself and with an input section, is the image that it hands back
    ensures compiled { (parts : List Part) (input : List ℕ) (handed back : List (Option Told))
        (out : List ℕ) (image : Image)
        → Yields JobTask.Compile parts input handed Status.Done out (Some image) back
        → IsAssembly out image [] × ((words : List ℕ) → AllByRecursion IsMachineWord words
        → IsAssembly (with_input out words) image words) }
    // what `trace` prints of an assembly has its image, its words and the very events that were made, each
    // on a line of its own, and each enabled after those before it
    ensures traced { (budget : ℕ) (text : List ℕ) (image : Image) (input : List ℕ) (status : Status)
        (out : List ℕ) → IsAssembly text image input
        → (told : IsTraced budget image input status out)
        → IsAssembly (before_trace out) image input
        × HasTrace out (numbered (trace_line out) told.events) × CanReplay out image input }
    // so `replay` answers Done to it and hands the image back; it reports the result of making those events,
    // and `rest` where the trace came to rest
    ensures replayed { (budget : ℕ) (text : List ℕ) (image : Image) (input : List ℕ) (status : Status)
        (out : List ℕ) → IsAssembly text image input
        → (told : IsTraced budget image input status out)
        → (handed back : List (Option Told)) (replied : Status) (reply : List ℕ) (again : Option Image)
        → AssemblyAnswered AssemblyTask.Replay out handed replied reply again back
        → (replied ≡ Status.Done) × (again ≡ Some image) × ((r : Replayed)
        × Replays image (world_of input) (numbered (trace_line out) told.events) r
        × (reply ≡ replayed_text r) × (status ≡ Status.Done → r.rest ≡ true)) }
{
    printed_reads_again();
    printed_texts_have_no_marker();
    read_images_are_formed();
    written_traces_read_again();
    made_traces_are_replayed();
    breaches_break();
}
