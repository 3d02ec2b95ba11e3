//! Laws of the texts of jobs.

ghost use Rattle.std.specs.Prelude.{List, ℕ};
ghost use Rattle.src_ast.specs.Once.{ExactlyOne};
ghost use Rattle.job_read.specs.Job.{IsTextAnswer};

use src_check::each_program_is_checked_once;
use src_lex::each_text_is_lexed_once;
use src_parse::lexemes_are_parsed_once;

/// Each text has exactly one reading: it is a job, with one program and one list of words, or it is refused
/// for one reason.
pub fn each_text_is_a_job_or_refused()
    ensures { (text : List ℕ) → ExactlyOne (IsTextAnswer text) }
{
    each_text_is_lexed_once();
    lexemes_are_parsed_once();
    each_program_is_checked_once();
}
