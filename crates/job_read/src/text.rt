//! The text of a job: its program, and the words that it reads.

ghost use Rattle.std.specs.Prelude.{◌≡◌, ◌≤◌, ℕ, List, length, IfOk, IfErr};
ghost use Rattle.src_ast.specs.View as view;
ghost use Rattle.src_ast.specs.Syntax.{Part};
ghost use Rattle.src_ast.specs.declared.fault.TextFault.{TextFault};
ghost use Rattle.job_read.specs.Job.{job_limit, IsJob, IsRefused};

use crate::program::read_program;
use asm_read::{input_words, split};
use src_ast::TextFault;
use src_check::Accepted;
use std::alloc::Global;
use ws_words::Words;

/// The program of a job and the words that it reads, or why the text is refused.
pub fn read(alloc: Global, text: &[u8]) -> Result<(Accepted, Words), TextFault>
    requires { length text.now ≤ job_limit }
    ensures ok { IfOk result
        (λ x. IsJob text.now (view.parts x.0.program.items.items) x.1) }
    ensures only { (parts : List Part) (input : List ℕ)
        → IsJob text.now parts input
        → IfErr result (λ e. e ≡ TextFault.NoMemory) }
    ensures same { (parts : List Part) (input : List ℕ)
        → IsJob text.now parts input
        → IfOk result (λ x. (view.parts x.0.program.items.items ≡ parts) × (x.1 ≡ input)) }
    ensures refused { IfErr result (λ e. IsRefused text.now e) }
{
    let (section, input) = split(text);
    let accepted = match read_program(alloc, section) {
        Ok(accepted) => accepted,
        Err(fault) => return Err(fault),
    };
    match input_words(alloc, section, input) {
        Ok(words) => Ok((accepted, words)),
        Err(fault) => Err(fault),
    }
}
