//! What is so of generated jobs.

ghost use Rattle.std.specs.Prelude.{ℕ};
ghost use Rattle.work_gen.specs.Jobs.{IsGenerated};

/// The program of each generated job can be written and is accepted, its bound is 222, and the text
/// of the job is short.
pub fn generated_programs_are_accepted()
    ensures { (number : ℕ) → IsGenerated number }
{}
