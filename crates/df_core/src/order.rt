//! Issued loads that the chain hasn't passed.

ghost use Rattle.std.specs.Prelude.{◌≡◌, ◌<◌, ◌≤◌, ◌+◌, ◌^◌, ℕ, length, vec_len, vec_capacity};
ghost use Rattle.std.specs.Prelude.{slice_index, MatchOption};
ghost use Rattle.ws_isa.specs.Image.{note_of};
ghost use Rattle.df_core.specs.Core.{IsNext};
ghost use Rattle.df_core.specs.Stands.{Settles, left_after};
ghost use Rattle.df_core.specs.Chains.{chain_of, PassedOn};
ghost use Rattle.df_core.specs.Places.{image_of};
ghost use Rattle.ws_words.specs.Items.{In};

use crate::chain::{Chain, is_nothing};
use crate::program::Program;
use ws_isa::Note;

/// The chain behind an issued operation. One that isn't next is kept.
pub fn pass_on(program: &Program<'_>, chain: Chain, early: &mut Vec<u32>, instr: u32) -> Chain
    requires wave { chain.wave + 1 < 2 ^ 64 }
    requires room { vec_len early.old < vec_capacity early.old }
    ensures passed { PassedOn (image_of program.now)
        (chain_of chain) instr early.old.items (chain_of result) early.new.items }
    ensures fewer { vec_len early.new ≤ vec_len early.old + 1 }
    ensures room { vec_capacity early.new ≡ vec_capacity early.old }
{
    let note = program.note(instr);
    if !chain.is_next(note) {
        early.push_reserved(instr);
        return chain;
    }
    let next = chain.pass(note);
    if is_nothing(note.succ) {
        early.clear();
        return next;
    }
    settle(program, next, early)
}

/// The chain behind those of these operations that are next, until none is. They are taken out.
pub fn settle(program: &Program<'_>, chain: Chain, early: &mut Vec<u32>) -> Chain
    requires wave { chain.wave + 1 < 2 ^ 64 }
    ensures settles { Settles (image_of program.now)
        (chain_of chain) early.old.items (chain_of result) early.new.items }
    ensures fewer { vec_len early.new ≤ vec_len early.old }
    ensures room { vec_capacity early.new ≡ vec_capacity early.old }
{
    let mut at = chain;
    while let Some(place) = find_next(program, &at, early) {
        let note = program.note(early[place]);
        early.remove(place);
        forget(note, early);
        at = at.pass(note);
        if is_nothing(note.succ) {
            return at;
        }
    }
    at
}

/// Behind the last operation of a wave none is left.
pub fn forget(note: Note, early: &mut Vec<u32>)
    ensures left { early.new.items ≡ left_after note early.old.items }
    ensures fewer { vec_len early.new ≤ vec_len early.old }
    ensures room { vec_capacity early.new ≡ vec_capacity early.old }
{
    if is_nothing(note.succ) {
        early.clear();
    }
}

// The place of one that is next, looked for from both ends: mostly it stands at one of them.
fn find_next(program: &Program<'_>, chain: &Chain, early: &[u32]) -> Option<usize>
    ensures { MatchOption result ((i : ℕ) → In i early.now →
        IsNext (chain_of chain.now) (note_of (image_of program.now) i) → ⊥)
        (λ place. (place < length early.now)
        × IsNext (chain_of chain.now)
        (note_of (image_of program.now) (slice_index early.now place))) }
{
    let mut front = 0;
    let mut back = early.len();
    while front < back {
        back -= 1;
        if chain.is_next(program.note(early[back])) {
            return Some(back);
        }
        if chain.is_next(program.note(early[front])) {
            return Some(front);
        }
        front += 1;
    }
    None
}
