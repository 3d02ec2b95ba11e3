//! Items that make the values of terms.

ghost use Rattle.std.specs.Prelude.{◌≡◌, ◌++◌, suc, map, IfOk, OnOk};
ghost use Rattle.cfg_core.specs.Graph as graph;
ghost use Rattle.cfg_core.specs.View as view;
ghost use Rattle.wave_gen.specs.Gen.{gen_term};
ghost use Rattle.wave_gen.specs.View as plans;

use crate::body::Body;
use cfg_core::Term;
use std::alloc::Global;
use ws_isa::Op;
use ws_words::{Alu, NoMemory};

/// The name of the pulse.
pub(crate) const PULSE: usize = 0;

/// The name of a variable.
pub(crate) fn name_of(x: u32) -> usize
    ensures { result ≡ suc x }
{
    x as usize + 1
}

impl Body {
    /// Makes the value of a term, and answers its name.
    #[tactic(auto, unfolding(crate::specs::Gen::top_word))]
    pub(crate) fn term(&mut self, alloc: Global, term: &Term) -> Result<usize, NoMemory>
        ensures items { let got = gen_term self.old.next (view.term term.now) in
            OnOk result (map plans.item self.new.items.items ≡
            map plans.item self.old.items.items ++ got.items) }
        ensures name { IfOk result (λ name.
            name ≡ (gen_term self.old.next (view.term term.now)).name) }
        ensures next { OnOk result (self.new.next ≡
            (gen_term self.old.next (view.term term.now)).next) }
    {
        match term {
            Term::Number(n) => self.number(alloc, n.value),
            Term::Var(x) => Ok(name_of(*x)),
            Term::Cell(a, t) => {
                let index = self.term(alloc, t)?;
                self.value(alloc, Op::Load(*a), &[index])
            }
            Term::Flip(t) => {
                let name = self.term(alloc, t)?;
                let top = self.value(alloc, Op::Const(u64::MAX), &[name])?;
                self.value(alloc, Op::Alu(Alu::Sub), &[top, name])
            }
            Term::Not(t) => {
                let name = self.term(alloc, t)?;
                self.value(alloc, Op::Alu(Alu::Eq), &[name, PULSE])
            }
            Term::Neg(t) => {
                let name = self.term(alloc, t)?;
                self.value(alloc, Op::Alu(Alu::Sub), &[PULSE, name])
            }
            Term::Binary(op, a, b) => {
                let first = self.term(alloc, a)?;
                let second = self.term(alloc, b)?;
                self.value(alloc, Op::Alu(*op), &[first, second])
            }
        }
    }

    // A word 0 is the pulse.
    fn number(&mut self, alloc: Global, n: u64) -> Result<usize, NoMemory>
        ensures items { let got = gen_term self.old.next (graph.Number n) in
            OnOk result (map plans.item self.new.items.items ≡
            map plans.item self.old.items.items ++ got.items) }
        ensures name { IfOk result (λ name.
            name ≡ (gen_term self.old.next (graph.Number n)).name) }
        ensures next { OnOk result (self.new.next ≡
            (gen_term self.old.next (graph.Number n)).next) }
    {
        if n == 0 {
            return Ok(PULSE);
        }
        self.value(alloc, Op::Const(n), &[PULSE])
    }
}
