//! Items of exits, and how plans are left.

ghost use Rattle.std.specs.Prelude.{◌≡◌, ◌++◌, ◌∷◌, [], ℕ, map, IfOk, OnOk};
ghost use Rattle.cfg_core.specs.Graph as graph;
ghost use Rattle.cfg_core.specs.View as view;
ghost use Rattle.wave_gen.specs.Plans.{pulse};
ghost use Rattle.wave_gen.specs.Drawn.{gen_source, gen_terms, exit_next};
ghost use Rattle.wave_gen.specs.Listing.{gen_exit};
ghost use Rattle.wave_gen.specs.View as plans;
ghost use Rattle.wave_gen.specs.Placed.{place};

use crate::body::{Body, names};
use crate::order::Order;
use crate::plan::{HowLeft, Names};
use crate::values::{PULSE, name_of};
use cfg_core::{Leave, Term};
use std::alloc::Global;
use ws_isa::Op;
use ws_words::{Alu, NoMemory};

// The last operation of a term.
#[derive(Drop)]
struct Source {
    op: Op,
    from: Names,
}

fn source_of(alloc: Global, op: Op, from: &[usize]) -> Result<Source, NoMemory>
    ensures op { IfOk result (λ made. made.op ≡ op) }
    ensures from { IfOk result (λ made. made.from.items ≡ from.now) }
{
    let from = names(alloc, from)?;
    Ok(Source { op, from })
}

// A word 0 is the pulse.
fn number(alloc: Global, n: u64) -> Result<Source, NoMemory>
    ensures op { IfOk result (λ made. (k : ℕ) → made.op ≡ (gen_source k (graph.Number n)).op) }
    ensures from { IfOk result (λ made. (k : ℕ) →
        made.from.items ≡ (gen_source k (graph.Number n)).from) }
    ensures items { IfOk result (λ made. (k : ℕ) → (gen_source k (graph.Number n)).items ≡ []) }
    ensures next { IfOk result (λ made. (k : ℕ) → (gen_source k (graph.Number n)).next ≡ k) }
{
    if n == 0 {
        return source_of(alloc, Op::Merge, &[PULSE]);
    }
    source_of(alloc, Op::Const(n), &[PULSE])
}

impl Body {
    // Makes the operands of a term.
    #[tactic(auto, unfolding(crate::specs::Gen::top_word))]
    fn source(&mut self, alloc: Global, t: &Term) -> Result<Source, NoMemory>
        ensures items { let made = gen_source self.old.next (view.term t.now) in
            OnOk result (map plans.item self.new.items.items ≡
            map plans.item self.old.items.items ++ made.items) }
        ensures op { IfOk result (λ made.
            made.op ≡ (gen_source self.old.next (view.term t.now)).op) }
        ensures from { IfOk result (λ made.
            made.from.items ≡ (gen_source self.old.next (view.term t.now)).from) }
        ensures next { OnOk result (self.new.next ≡
            (gen_source self.old.next (view.term t.now)).next) }
    {
        match t {
            Term::Number(n) => number(alloc, n.value),
            Term::Var(x) => source_of(alloc, Op::Merge, &[name_of(*x)]),
            Term::Cell(a, t) => {
                let index = self.term(alloc, t)?;
                source_of(alloc, Op::Load(*a), &[index])
            }
            Term::Flip(t) => {
                let name = self.term(alloc, t)?;
                let top = self.value(alloc, Op::Const(u64::MAX), &[name])?;
                source_of(alloc, Op::Alu(Alu::Sub), &[top, name])
            }
            Term::Not(t) => {
                let name = self.term(alloc, t)?;
                source_of(alloc, Op::Alu(Alu::Eq), &[name, PULSE])
            }
            Term::Neg(t) => {
                let name = self.term(alloc, t)?;
                source_of(alloc, Op::Alu(Alu::Sub), &[PULSE, name])
            }
            Term::Binary(op, a, b) => {
                let first = self.term(alloc, a)?;
                let second = self.term(alloc, b)?;
                source_of(alloc, Op::Alu(*op), &[first, second])
            }
        }
    }

    // Makes the values of terms, each under a name of its own, and answers these after the pulse.
    fn values(&mut self, alloc: Global, terms: &[Term]) -> Result<Names, NoMemory>
        ensures items { let made = gen_terms self.old.next (map view.term terms.now) in
            OnOk result (map plans.item self.new.items.items ≡
            map plans.item self.old.items.items ++ made.items) }
        ensures names { IfOk result (λ names. names.items ≡
            pulse ∷ (gen_terms self.old.next (map view.term terms.now)).names) }
        ensures next { OnOk result (self.new.next ≡
            (gen_terms self.old.next (map view.term terms.now)).next) }
    {
        let mut list = names(alloc, &[PULSE])?;
        for t in terms {
            let value = self.term(alloc, t)?;
            let name = self.fresh()?;
            self.same(name, value)?;
            list.push(name)?;
        }
        Ok(list)
    }

    /// The items of an exit, after those so far, and how the plan is left.
    pub(crate) fn exit(
        &mut self,
        alloc: Global,
        order: &Order,
        exit: &Leave,
    ) -> Result<HowLeft, NoMemory>
        ensures items { let made = gen_exit (place order.now) self.old.next (view.exit exit.now) in
            OnOk result (map plans.item self.new.items.items ≡
            map plans.item self.old.items.items ++ made.items) }
        ensures exit { IfOk result (λ made. plans.leaves made ≡
            (gen_exit (place order.now) self.old.next (view.exit exit.now)).exit) }
        ensures next { OnOk result (self.new.next ≡
            exit_next self.old.next (view.exit exit.now)) }
    {
        match exit {
            Leave::Goto(c) => Ok(HowLeft::Onto(order.place(*c))),
            Leave::Branch(t, c, d) => {
                let source = self.source(alloc, t)?;
                Ok(HowLeft::Either {
                    op: source.op,
                    from: source.from,
                    some: order.place(*c),
                    none: order.place(*d),
                })
            }
            Leave::Send {
                address,
                values,
                landings,
            } => {
                let address = self.term(alloc, address)?;
                let values = self.values(alloc, values)?;
                let from = names(alloc, &[address])?;
                Ok(HowLeft::Lands {
                    op: Op::Merge,
                    from,
                    values,
                    landings: order.places(alloc, landings)?,
                })
            }
            Leave::Return(t) => {
                self.term(alloc, t)?;
                Ok(HowLeft::Halts)
            }
            Leave::Call { .. } => Ok(HowLeft::Halts),
            Leave::Stop => Ok(HowLeft::Halts),
        }
    }
}
