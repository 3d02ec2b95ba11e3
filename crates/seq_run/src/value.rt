//! The value of terms, and the array of the first out-of-bounds load.

ghost use Rattle.std.specs.Prelude.{◌≡◌, map, IfOk};
ghost use Rattle.ws_words.specs.Memory.{lengths_of};
ghost use Rattle.ws_words.specs.Outside.{loads};
ghost use Rattle.cfg_core.specs.Walk as walks;
ghost use Rattle.cfg_core.specs.View as graph;
ghost use Rattle.seq_run.specs.Firsts.{past_array, first_past};
ghost use Rattle.ws_words.specs.Items.{first_some};

use cfg_core::Term;
use std::alloc::Global;
use ws_words::{Alu, Memory, NoMemory, Words, apply};

/// Records the array of an out-of-bounds load or store, if none was recorded before.
#[inline(always)]
pub(crate) fn note(past: &mut Option<u32>, memory: &Memory<'_>, array: u32, index: u64)
    ensures { let lengths = lengths_of memory.now.cells in
        past.new ≡ first_some past.old (past_array lengths (loads array index)) }
{
    if !memory.is_within(array, index) && past.is_none() {
        *past = Some(array);
    }
}

/// The value of a term, as `value` gives it. Terms without terms inside, and operators on two of
/// them, have a short path, for the loop of bench/plain.py.
#[inline(always)]
pub(crate) fn quick(term: &Term, vars: &Words, memory: &Memory<'_>, past: &mut Option<u32>) -> u64
    ensures value { result ≡ walks.value (graph.term term.now) vars.now memory.now.cells }
    ensures past { let acts = walks.loads_of (graph.term term.now) vars.now memory.now.cells in
        past.new ≡ first_some past.old (first_past (lengths_of memory.now.cells) acts) }
{
    match term {
        Term::Binary(op, a, b) => {
            let x = match &**a {
                Term::Var(x) => vars.word(*x as usize),
                a => value(a, vars, memory, past),
            };
            let y = match &**b {
                Term::Number(n) => n.value,
                Term::Var(x) => vars.word(*x as usize),
                b => value(b, vars, memory, past),
            };
            apply(*op, x, y)
        }
        Term::Number(n) => n.value,
        Term::Var(x) => vars.word(*x as usize),
        _ => value(term, vars, memory, past),
    }
}

/// The value of a term, in which an out-of-bounds load gives 0, and the array of the first such
/// load, if none was recorded before.
pub(crate) fn value(term: &Term, vars: &Words, memory: &Memory<'_>, past: &mut Option<u32>) -> u64
    ensures value { result ≡ walks.value (graph.term term.now) vars.now memory.now.cells }
    ensures past { let acts = walks.loads_of (graph.term term.now) vars.now memory.now.cells in
        past.new ≡ first_some past.old (first_past (lengths_of memory.now.cells) acts) }
{
    match term {
        Term::Number(n) => n.value,
        Term::Var(x) => vars.word(*x as usize),
        Term::Cell(a, t) => {
            let index = value(t, vars, memory, past);
            note(past, memory, *a, index);
            memory.load(*a, index)
        }
        Term::Flip(t) => u64::MAX - value(t, vars, memory, past),
        Term::Not(t) => u64::from(value(t, vars, memory, past) == 0),
        Term::Neg(t) => apply(Alu::Sub, 0, value(t, vars, memory, past)),
        Term::Binary(op, a, b) => {
            let x = value(a, vars, memory, past);
            let y = value(b, vars, memory, past);
            apply(*op, x, y)
        }
    }
}

/// The values of arguments, from left to right.
pub(crate) fn values(
    alloc: Global,
    terms: &[Term],
    vars: &Words,
    memory: &Memory<'_>,
    past: &mut Option<u32>,
) -> Result<Words, NoMemory>
    ensures values { IfOk result (λ words.
        words ≡ walks.values (map graph.term terms.now) vars.now memory.now.cells) }
    ensures past { IfOk result (λ words.
        let acts = walks.all_loads (map graph.term terms.now) vars.now memory.now.cells in
        past.new ≡ first_some past.old (first_past (lengths_of memory.now.cells) acts)) }
{
    let mut words = Words::empty(alloc);
    for term in terms {
        words.push(value(term, vars, memory, past))?;
    }
    Ok(words)
}
