//! What follows from the definitions of several threads.

ghost use Rattle.std.specs.Prelude.{◌≡◌, ℕ, List, Option, None};
ghost use Rattle.port_set.specs.Ports.{Told};
ghost use Rattle.src_ast.specs.Once.{ExactlyOne};
ghost use Rattle.ws_isa.specs.Image.{Image};
ghost use Rattle.wsc_top.specs.declared.status.Status.{Status};
ghost use Rattle.wsc_top.specs.declared.task.RunOptions.{RunOptions};
ghost use Rattle.wsc_top.specs.Jobs.{ProgramAndInput, IsJobsAnswer};
ghost use Rattle.wsc_top.specs.Answers.{TellWords};
ghost use Rattle.wsc_top.specs.Threads.{ThreadsDo, ExecutesAlone, status_of, Thread, images_of, Replies};
ghost use Rattle.wsc_top.specs.Threads.{AreDue, AreToldJobs, MultiEndsSo, WalksEndSo, IsFreeAnswer};

use job_read::each_text_is_a_job_or_refused;
use seq_run::one_answer;
use ws_isa::{effects_are_one, walks_go_on};
use wsc_words::words_are_one_line;

/// Each text has exactly one reading: it is some jobs, each with one program and one list of words, or
/// it is refused for one reason.
pub fn each_text_is_some_jobs_or_refused()
    ensures { (text : List ℕ) → ExactlyOne (IsJobsAnswer text) }
{
    each_text_is_a_job_or_refused();
}

/// Two answers of `multi` to one text, with ports that have the same left, are the same where nothing of
/// any thread is left to its image: where none is cut short by the budget or a port and no firings are
/// reported.
pub fn threads_are_answered_alike()
    ensures { (options : RunOptions) (text : List ℕ) (handed : List (Option Told))
        (a b : Status × List ℕ)
        → IsFreeAnswer options text handed a → IsFreeAnswer options text handed b → a ≡ b }
{
    each_text_is_a_job_or_refused();
    one_answer();
}

/// What the threads do that are due is the answer.
pub fn what_threads_do_is_answered()
    ensures { (words : List (List ℕ)) (left after : Option (List ℕ)) (faults counted : ℕ)
        (handed back : List (Option Told)) (options : RunOptions) (threads : List Thread)
        (statuses : List Status) (out : List ℕ)
        → AreDue words left after options threads → TellWords handed
        → ThreadsDo (ExecutesAlone options) 1 threads handed statuses out back
        → Replies words left after faults counted handed (status_of statuses) out None
        (images_of threads) back }
{
    walks_go_on();
    effects_are_one();
}

/// Each answer to jobs that were read has the status of the first thread that isn't Done, and each
/// thread has one as `run` has it for its job.
pub fn each_answer_of_threads_has_its_status()
    ensures { (words : List (List ℕ)) (left after : Option (List ℕ)) (faults counted : ℕ)
        (handed back : List (Option Told)) (status : Status) (out : List ℕ) (image : Option Image)
        (images : List Image) (options : RunOptions) (jobs : List ProgramAndInput)
        → Replies words left after faults counted handed status out image images back
        → AreToldJobs words left options jobs → TellWords handed
        → (status ≡ Status.ReadFault → ⊥) → MultiEndsSo options jobs handed status }
{
    words_are_one_line();
    each_text_is_a_job_or_refused();
}

/// Each answer of `multi` to jobs that were read has the status that the walks of the images decide
/// which are handed back.
pub fn threads_end_as_their_walks()
    ensures { (words : List (List ℕ)) (left after : Option (List ℕ)) (faults counted : ℕ)
        (handed back : List (Option Told)) (status : Status) (out : List ℕ) (image : Option Image)
        (images : List Image) (options : RunOptions) (jobs : List ProgramAndInput)
        → Replies words left after faults counted handed status out image images back
        → AreToldJobs words left options jobs → (status ≡ Status.ReadFault → ⊥)
        → WalksEndSo options images jobs handed status }
{
    words_are_one_line();
    each_text_is_a_job_or_refused();
}
