//! How a run begins.

ghost use Rattle.std.specs.Prelude.{◌≡◌, IfOk};
ghost use Rattle.ws_isa.specs.Walk.{start_tokens};

use crate::code::Code;
use crate::job::Job;
use crate::list::TokenList;
use std::alloc::Global;
use ws_words::NoMemory;

/// The start pulse's tokens.
pub fn start<J: Job>(alloc: Global, code: &Code<'_, J>) -> Result<TokenList<J>, NoMemory>
    ensures { IfOk result (λ tokens. tokens ≡ start_tokens J.image) }
{
    let pulse = code.program().start();
    let mut tokens = TokenList::empty(alloc);
    tokens.send(0, pulse, 0)?;
    Ok(tokens)
}
