//! The program of a job.

ghost use Rattle.std.specs.Prelude.{◌<◌, ◌^◌, ◌-◌, List, length, IfOk, IfErr};
ghost use Rattle.src_ast.specs.View as view;
ghost use Rattle.src_ast.specs.Syntax.{Part};
ghost use Rattle.job_read.specs.Job.{ReadsAs, IsProgramFault, AnswersParts};

use src_ast::TextFault;
use src_check::{Accepted, check};
use src_lex::lex;
use src_parse::parse;
use std::alloc::Global;

/// The accepted program of a program section, or its first fault.
pub(crate) fn read_program(alloc: Global, section: &[u8]) -> Result<Accepted, TextFault>
    requires { length section.now < 2 ^ 32 - 1 }
    ensures ok { IfOk result (λ a. ReadsAs section.now (view.parts a.program.items.items)) }
    ensures only { (parts : List Part) → ReadsAs section.now parts → AnswersParts result parts }
    ensures refused { IfErr result (λ e. IsProgramFault section.now e) }
{
    let lexemes = match lex(alloc, section) {
        Ok(lexemes) => lexemes,
        Err(fault) => return Err(fault),
    };
    let tree = match parse(alloc, &lexemes) {
        Ok(tree) => tree,
        Err(fault) => return Err(fault),
    };
    match check(alloc, tree) {
        Ok(accepted) => Ok(accepted),
        Err(fault) => Err(fault),
    }
}
