//! What a walk does at the exit of a block.

ghost use Rattle.std.specs.Prelude.{◌≡◌, ◌-◌, ◌++◌, IfOk};
ghost use Rattle.ws_words.specs.Outside.{zeros};
ghost use Rattle.cfg_core.specs.Tables.{graph_in};
ghost use Rattle.cfg_core.specs.Graph as plain;
ghost use Rattle.cfg_core.specs.Walk as walks;
ghost use Rattle.cfg_core.specs.View as view;
ghost use Rattle.cfg_core.specs.Shows.{Moved, comes_back, passes};

use crate::blocks::Leave;
use crate::table::{GraphTable, Room};
use crate::terms::{value, values};
use crate::walker::{Frame, Pace, Walker};
use std::alloc::Global;
use std::mem;
use ws_words::{NoMemory, Words};

/// The walk is at the start of a block, has ended, or needs more turns than are left.
#[derive(Clone, Copy)]
pub enum Next {
    At(usize),
    Over,
    Going,
}

impl<'a> Walker<'a> {
    /// Walks one block.
    pub fn pass(
        &mut self,
        alloc: Global,
        table: &GraphTable<'_>,
        b: usize,
    ) -> Result<Next, NoMemory>
        ensures { let g = view.graph (graph_in table.now) in
            IfOk result (λ next. Moved (passes g b) self.old next self.new) }
    {
        match table.spot(b) {
            Some(spot) => match self.run_ops(&spot.block.ops)? {
                Pace::Done => {
                    let next = self.leave(alloc, table, &spot.block.exit)?;
                    Ok(next)
                }
                Pace::Out => Ok(Next::Going),
            },
            None => Ok(Next::Over),
        }
    }

    fn leave(
        &mut self,
        alloc: Global,
        table: &GraphTable<'_>,
        exit: &Leave,
    ) -> Result<Next, NoMemory>
        ensures { let way = walks.leave (view.graph (graph_in table.now)) (view.exit exit.now) in
            IfOk result (λ next. Moved way self.old next self.new) }
    {
        match exit {
            Leave::Goto(b) => Ok(Next::At(*b as usize)),
            Leave::Branch(test, a, b) => {
                if value(test, &self.vars, &self.memory.cells) == 0 {
                    Ok(Next::At(*b as usize))
                } else {
                    Ok(Next::At(*a as usize))
                }
            }
            Leave::Call {
                result,
                callee,
                values: terms,
                back,
            } => {
                let words = values(alloc, terms, &self.vars, &self.memory.cells)?;
                let room = table.room(*callee as usize);
                let fresh = enter(words, room)?;
                let vars = mem::replace(&mut self.vars, fresh);
                self.frames.push(Frame {
                    result: *result,
                    back: *back,
                    vars,
                })?;
                Ok(Next::At(room.entry))
            }
            Leave::Return(t) => {
                let word = value(t, &self.vars, &self.memory.cells);
                Ok(self.give_back(word))
            }
            Leave::Send {
                address,
                values: terms,
                landings,
            } => {
                let place = value(address, &self.vars, &self.memory.cells);
                let words = values(alloc, terms, &self.vars, &self.memory.cells)?;
                let b = choose(place, landings) as usize;
                self.vars = land(alloc, table, b, &words)?;
                Ok(Next::At(b))
            }
            Leave::Stop => Ok(Next::Over),
        }
    }

    // Back into the last call that waits, or the walk's end.
    fn give_back(&mut self, word: u64) -> Next
        ensures { Moved (comes_back word) self.old result self.new }
    {
        match self.frames.pop() {
            Some(frame) => {
                let mut vars = frame.vars;
                take_result(&mut vars, frame.result, word);
                self.vars = vars;
                Next::At(frame.back as usize)
            }
            None => Next::Over,
        }
    }
}

// The variable that a call names takes its result.
fn take_result(vars: &mut Words, target: Option<u32>, word: u64)
    ensures { vars.new ≡ walks.with_result target word vars.old }
{
    if let Some(x) = target {
        vars.set(x as usize, word);
    }
}

// The variables of a procedure at its entry: its arguments, then zeros.
#[tactic(auto, using(crate::proofs::Leaving::entered_more))]
fn enter(words: Words, room: Room) -> Result<Words, NoMemory>
    ensures { IfOk result (λ vars. vars ≡ words ++ zeros (room.vars - room.params)) }
{
    let mut vars = words;
    for _ in 0..room.vars.saturating_sub(room.params) {
        vars.push(0)?;
    }
    Ok(vars)
}

// The landing that an address chooses: the one at that place, or the last one.
fn choose(address: u64, landings: &[u32]) -> u32
    ensures { result ≡ walks.landing address landings.now }
{
    let last = landings.len().saturating_sub(1);
    let place = (address as usize).min(last);
    landings.get(place).copied().unwrap_or(0)
}

// The variables at a landing: the words in those that it names, and 0 in all others.
fn land(alloc: Global, table: &GraphTable<'_>, b: usize, words: &Words) -> Result<Words, NoMemory>
    ensures { let spot = plain.spot_at (view.graph (graph_in table.now)) b in
        IfOk result (λ vars. vars ≡ walks.landed spot.block.named words.now (zeros spot.vars)) }
{
    match table.spot(b) {
        Some(spot) => {
            let mut vars = Words::zeros(alloc, spot.vars as usize)?;
            fill(&mut vars, &spot.block.named, words);
            Ok(vars)
        }
        None => Ok(Words::empty(alloc)),
    }
}

fn fill(vars: &mut Words, named: &[u32], words: &Words)
    ensures { vars.new ≡ walks.landed named.now words.now vars.old }
{
    for (i, x) in named.iter().enumerate() {
        if i < words.len() {
            vars.set(*x as usize, words.word(i));
        }
    }
}
