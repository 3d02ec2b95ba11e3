//! The chain behind what is issued.

ghost use Rattle.std.specs.Prelude.{◌≡◌, ◌<◌, ◌≤◌, ◌+◌, ◌^◌};
ghost use Rattle.df_core.specs.Chains.{chain_of, PassedOn};
ghost use Rattle.df_core.specs.Places.{image_of};
ghost use Rattle.df_core.specs.Stands.{Settles};
ghost use Rattle.store_buf.specs.Earlies.{Numbered, early_capacity, early_len, early_ops};

use crate::early::Early;
use df_core::{Chain, Program, is_nothing};

/// The chain behind an issued operation. One that isn't next is kept.
pub fn pass_on(program: &Program<'_>, chain: Chain, early: &mut Early, instr: u32) -> Chain
    requires wave { chain.wave + 1 < 2 ^ 64 }
    requires room { early_len early.old < early_capacity early.old }
    requires numbered { Numbered (image_of program.now) early.old }
    ensures passed { PassedOn (image_of program.now)
        (chain_of chain) instr (early_ops early.old) (chain_of result) (early_ops early.new) }
    ensures numbered { Numbered (image_of program.now) early.new }
    ensures fewer { early_len early.new ≤ early_len early.old + 1 }
    ensures room { early_capacity early.old ≤ early_capacity early.new }
{
    let note = program.note(instr);
    if !chain.is_next(note) {
        early.push(note.seq, instr);
        return chain;
    }
    let next = chain.pass(note);
    if is_nothing(note.succ) {
        early.clear();
        return next;
    }
    settle(program, next, early)
}

// The chain behind those of these operations that are next, until none is. They are taken out, and so are
// those behind it. The first one decides: if it is ahead and isn't next, none of a run's is.
fn settle(program: &Program<'_>, chain: Chain, early: &mut Early) -> Chain
    requires wave { chain.wave + 1 < 2 ^ 64 }
    requires numbered { Numbered (image_of program.now) early.old }
    ensures settles { Settles (image_of program.now)
        (chain_of chain) (early_ops early.old) (chain_of result) (early_ops early.new) }
    ensures numbered { Numbered (image_of program.now) early.new }
    ensures fewer { early_len early.new ≤ early_len early.old }
    ensures room { early_capacity early.new ≡ early_capacity early.old }
{
    let mut at = chain;
    while let Some((number, instr)) = early.top() {
        if number > at.position() {
            let note = program.note(instr);
            if !at.is_next(note) {
                return at;
            }
            at = at.pass(note);
            if is_nothing(note.succ) {
                early.clear();
                return at;
            }
        }
        early.drop_top();
    }
    at
}
