//! The values of terms.

ghost use Rattle.std.specs.Prelude.{◌≡◌, IfOk, map};
ghost use Rattle.cfg_core.specs.Walk as walks;
ghost use Rattle.cfg_core.specs.View.{term as term_of};

use crate::blocks::Term;
use std::alloc::Global;
use ws_words::{Alu, Cells, NoMemory, Words, apply};

/// The value of a term on these variables and arrays.
pub fn value(term: &Term, vars: &Words, cells: &Cells) -> u64
    ensures { result ≡ walks.value (term_of term.now) vars.now cells.now }
{
    match term {
        Term::Number(n) => n.value,
        Term::Var(x) => vars.word(*x as usize),
        Term::Cell(a, t) => {
            let place = (*a as usize).saturating_sub(1);
            cells.word(place, value(t, vars, cells) as usize)
        }
        Term::Flip(t) => u64::MAX - value(t, vars, cells),
        Term::Not(t) => u64::from(value(t, vars, cells) == 0),
        Term::Neg(t) => apply(Alu::Sub, 0, value(t, vars, cells)),
        Term::Binary(op, a, b) => apply(*op, value(a, vars, cells), value(b, vars, cells)),
    }
}

/// The values of terms, in order.
pub fn values(alloc: Global, terms: &[Term], vars: &Words, cells: &Cells) -> Result<Words, NoMemory>
    ensures { let list = map term_of terms.now in
        IfOk result (λ words. words ≡ walks.values list vars.now cells.now) }
{
    let mut words = Words::empty(alloc);
    for term in terms {
        words.push(value(term, vars, cells))?;
    }
    Ok(words)
}
