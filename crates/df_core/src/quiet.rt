//! Tokens whose match fires no instance.

ghost use Rattle.std.specs.Prelude.{◌≡◌, Some, false, map, MatchOption};
ghost use Rattle.df_core.specs.Core.{IsSent, is_full, has, with_at};
ghost use Rattle.df_core.specs.Places.{image_of};
ghost use Rattle.df_core.specs.Partial.{partial_of};
ghost use Rattle.df_core.specs.Ways.{token_of, way_of};
ghost use Rattle.df_core.specs.Quiet as spec;

use crate::flow::Flow;
use crate::plain::Token;
use crate::program::Program;
use crate::slots::MatchStore;

/// A token in flight that doesn't fill its instance, if there is one.
pub fn quiet_token(program: &Program<'_>, flow: &Flow<'_>) -> Option<Token>
    ensures { MatchOption result
        (spec.AllFill (image_of program.now) flow.now.slots (way_of flow.now.way))
        (λ token. IsSent (way_of flow.now.way) token.wave token.instr token.port token.value
        × (spec.fills (image_of program.now) flow.now.slots (token_of token) ≡ false)) }
{
    match quiet_among(program, &flow.slots, &flow.way.now) {
        Some(token) => Some(token),
        None => quiet_among(program, &flow.slots, &flow.way.later),
    }
}

// One of these tokens that doesn't fill its instance, if there is one.
fn quiet_among(program: &Program<'_>, slots: &MatchStore, tokens: &[Token]) -> Option<Token>
    ensures { MatchOption result
        (spec.AllFill (image_of program.now) slots.now (map token_of tokens.now))
        (λ token. IsSent (map token_of tokens.now) token.wave token.instr token.port token.value
        × (spec.fills (image_of program.now) slots.now (token_of token) ≡ false)) }
{
    let mut place = tokens.len();
    while place > 0 {
        place -= 1;
        let token = tokens[place];
        if !fills(program, slots, token) {
            return Some(token);
        }
    }
    None
}

/// Whether the instance of a token is full with it.
pub fn fills(program: &Program<'_>, slots: &MatchStore, token: Token) -> bool
    ensures { result ≡ spec.fills (image_of program.now) slots.now (token_of token) }
{
    is_filled(slots, token, program.op(token.instr).ports())
}

// Whether the instance of a token has all of so many ports with it.
fn is_filled(slots: &MatchStore, token: Token, ports: u8) -> bool
    ensures { result ≡ is_full (with_at token.wave token.instr token.port (Some token.value)
        (partial_of slots.now.slots.items slots.now.spill)) token.wave token.instr ports }
{
    for port in 0..ports {
        if !has_with(slots, token, port) {
            return false;
        }
    }
    true
}

// Whether the instance of a token has one at a port with it.
#[tactic(auto, using(crate::proofs::Parts::Quietly::has_at_port))]
fn has_with(slots: &MatchStore, token: Token, port: u8) -> bool
    ensures { result ≡ has (with_at token.wave token.instr token.port (Some token.value)
        (partial_of slots.now.slots.items slots.now.spill) token.wave token.instr port) }
{
    token.port == port || slots.at(token.wave, token.instr, port).is_some()
}
