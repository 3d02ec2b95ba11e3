//! What stands for a short branch.

ghost use Rattle.std.specs.Prelude.{◌≡◌, ◌+◌, ◌<◌, ◌^◌, ◌++◌, ◌∷◌, [], map, IfOk, OnOk};
ghost use Rattle.cfg_core.specs.Graph.{TickBy};
ghost use Rattle.cfg_core.specs.View as view;
ghost use Rattle.live_vars.specs.Marks.{has};
ghost use Rattle.phi_conv.specs.Joined as joined;
ghost use Rattle.phi_conv.specs.Found.{branch_in_code, JoinIs};

use crate::arms::{add_arm, copied, turns_of};
use crate::find::ShortBranch;
use crate::written::{add_all_written, is_among};
use cfg_core::{GraphOp, GraphOps, Numbers, Term, copy_term};
use live_vars::LiveSets;
use std::alloc::Global;
use ws_words::NoMemory;

/// A short branch of a procedure with so many variables: whether its test stands for itself, and
/// the variables that its first arm, its second arm, and one of the two write.
#[derive(Drop)]
pub(crate) struct Join<'a> {
    pub(crate) branch: ShortBranch<'a>,
    pub(crate) vars: u32,
    pub(crate) still: bool,
    pub(crate) first: Numbers,
    pub(crate) second: Numbers,
    pub(crate) either: Numbers,
}

// Whether the test stands for itself, where one of the arms writes these variables.
fn is_still(test: &Term, either: &[u32]) -> bool
    ensures { result ≡ joined.is_still either.now (view.term test.now) }
{
    match test {
        Term::Number(_) => true,
        Term::Var(x) => !is_among(either, *x),
        _ => false,
    }
}

impl<'a> Join<'a> {
    /// What is to be known of a short branch.
    pub(crate) fn of(
        alloc: Global,
        branch: ShortBranch<'a>,
        vars: u32,
    ) -> Result<Join<'a>, NoMemory>
        ensures branch { IfOk result (λ join. branch_in_code join.branch ≡
            branch_in_code branch.entry) }
        ensures vars { IfOk result (λ join. join.vars ≡ vars) }
        ensures is { IfOk result JoinIs }
    {
        let mut first = Vec::new(alloc);
        add_all_written(&mut first, branch.first)?;
        let mut second = Vec::new(alloc);
        add_all_written(&mut second, branch.second)?;
        let mut either = Vec::new(alloc);
        add_all_written(&mut either, branch.first)?;
        add_all_written(&mut either, branch.second)?;
        let still = is_still(branch.test, &either);
        Ok(Join {
            branch,
            vars,
            still,
            first,
            second,
            either,
        })
    }

    // The term that stands for the test.
    fn test(&self, alloc: Global) -> Result<Term, NoMemory>
        requires { JoinIs self.now }
        ensures { let s = branch_in_code self.now.branch in
            IfOk result (λ t. view.term t ≡ joined.test_of self.now.vars s) }
    {
        if self.still {
            copy_term(alloc, self.branch.test)
        } else {
            Ok(Term::Var(self.vars))
        }
    }

    // Keeps the test in its variable, unless it stands for itself.
    fn add_test(&self, alloc: Global, ops: &mut GraphOps) -> Result<(), NoMemory>
        ensures { let test = view.term self.now.branch.test.now in
            OnOk result (map view.op ops.new.items ≡
            map view.op ops.old.items ++ joined.keep_test self.now.still self.now.vars test) }
    {
        if self.still {
            return Ok(());
        }
        let test = copy_term(alloc, self.branch.test)?;
        ops.push(GraphOp::Assign(self.vars, test))?;
        Ok(())
    }

    // Takes the turns of the arm that the test takes.
    fn add_turns(&self, alloc: Global, ops: &mut GraphOps) -> Result<(), NoMemory>
        requires { JoinIs self.now }
        ensures { let s = branch_in_code self.now.branch in
            let test = joined.test_of self.now.vars s in
            OnOk result (map view.op ops.new.items ≡ map view.op ops.old.items
            ++ TickBy test (joined.turns_of s.first) (joined.turns_of s.second) ∷ []) }
    {
        let test = self.test(alloc)?;
        let first = turns_of(self.branch.first)?;
        let second = turns_of(self.branch.second)?;
        ops.push(GraphOp::TickBy(test, first, second))?;
        Ok(())
    }

    // What x has after the arm that the test takes.
    fn choice(&self, alloc: Global, x: u32) -> Result<GraphOp, NoMemory>
        requires is { JoinIs self.now }
        requires room { joined.more_vars self.now.vars < 2 ^ 32 }
        ensures { let s = branch_in_code self.now.branch in
            IfOk result (λ op. view.op op ≡ joined.choice self.now.vars s x) }
    {
        let test = self.test(alloc)?;
        let first = copied(self.vars + 1, &self.first, x)?;
        let second = copied(self.vars + self.vars + 1, &self.second, x)?;
        Ok(GraphOp::Choose(x, test, Term::Var(first), Term::Var(second)))
    }

    // Puts a choice after operations for each variable that is written and live at the join.
    fn add_choices(
        &self,
        alloc: Global,
        live: &LiveSets,
        ops: &mut GraphOps,
    ) -> Result<(), NoMemory>
        requires is { JoinIs self.now }
        requires room { joined.more_vars self.now.vars < 2 ^ 32 }
        ensures { let s = branch_in_code self.now.branch in
            OnOk result (map view.op ops.new.items ≡
            map view.op ops.old.items ++ joined.choices live.now self.now.vars s) }
    {
        for x in &self.either {
            if live.has(self.branch.join, *x) {
                ops.push(self.choice(alloc, *x)?)?;
            }
        }
        Ok(())
    }

    /// Puts what stands for the branch after operations.
    pub(crate) fn add_to(
        &self,
        alloc: Global,
        live: &LiveSets,
        ops: &mut GraphOps,
    ) -> Result<(), NoMemory>
        requires is { JoinIs self.now }
        requires room { joined.more_vars self.now.vars < 2 ^ 32 }
        ensures { let s = branch_in_code self.now.branch in
            OnOk result (map view.op ops.new.items ≡
            map view.op ops.old.items ++ joined.joining live.now self.now.vars s) }
    {
        self.add_test(alloc, ops)?;
        self.add_turns(alloc, ops)?;
        add_arm(alloc, ops, self.vars + 1, self.branch.first)?;
        add_arm(alloc, ops, self.vars + self.vars + 1, self.branch.second)?;
        self.add_choices(alloc, live, ops)
    }
}
