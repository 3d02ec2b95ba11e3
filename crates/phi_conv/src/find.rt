//! The short branches of a graph.

ghost use Rattle.std.specs.Prelude.{◌≡◌, ◌+◌, ◌<◌, false, None, Some, map, MatchOption};
ghost use Rattle.cfg_core.specs.Tables.{graph_in};
ghost use Rattle.cfg_core.specs.Graph.{block_at};
ghost use Rattle.cfg_core.specs.View as view;
ghost use Rattle.cfg_core.specs.Weights.{term_nodes};
ghost use Rattle.phi_conv.specs.Short as short;
ghost use Rattle.phi_conv.specs.Found.{ArmIs, LoneArmIs, FoundIs};

use cfg_core::{GraphBlock, GraphOp, GraphTable, Leave, Term};

// The arms of a short branch have at most so many nodes together.
const MOST_NODES: u32 = 8;

/// A short branch: its test, the operations of its two arms, and the block where they join.
#[derive(Clone, Copy)]
pub(crate) struct ShortBranch<'a> {
    pub(crate) test: &'a Term,
    pub(crate) first: &'a [GraphOp],
    pub(crate) second: &'a [GraphOp],
    pub(crate) join: u32,
}

// What is left of so many nodes after those of a term, if it has no more.
fn after_term(t: &Term, left: u32) -> Option<u32>
    ensures { let n = term_nodes (view.term t.now) in
        MatchOption result (left < n) (λ rest. rest + n ≡ left) }
{
    if left == 0 {
        return None;
    }
    match t {
        Term::Number(_) => Some(left - 1),
        Term::Var(_) => Some(left - 1),
        Term::Cell(_, t) => after_term(t, left - 1),
        Term::Flip(t) => after_term(t, left - 1),
        Term::Not(t) => after_term(t, left - 1),
        Term::Neg(t) => after_term(t, left - 1),
        Term::Binary(_, a, b) => match after_term(a, left - 1) {
            Some(rest) => after_term(b, rest),
            None => None,
        },
    }
}

// The same after the terms that operations assign.
fn after_ops(ops: &[GraphOp], left: u32) -> Option<u32>
    ensures { let n = short.all_nodes (map view.op ops.now) in
        MatchOption result (left < n) (λ rest. rest + n ≡ left) }
{
    let mut rest = left;
    for op in ops {
        match after_op(op, rest) {
            Some(less) => rest = less,
            None => return None,
        }
    }
    Some(rest)
}

fn after_op(op: &GraphOp, left: u32) -> Option<u32>
    ensures { let n = short.assigned_nodes (view.op op.now) in
        MatchOption result (left < n) (λ rest. rest + n ≡ left) }
{
    match op {
        GraphOp::Assign(_, t) => after_term(t, left),
        _ => Some(left),
    }
}

// Whether two arms have few enough nodes together.
fn are_small(first: &[GraphOp], second: &[GraphOp]) -> bool
    ensures { let n = short.all_nodes (map view.op first.now) in
        let m = short.all_nodes (map view.op second.now) in result ≡ short.are_few (n + m) }
{
    match after_ops(first, MOST_NODES) {
        Some(rest) => after_ops(second, rest).is_some(),
        None => false,
    }
}

fn is_small(arm: &[GraphOp]) -> bool
    ensures { result ≡ short.are_few (short.all_nodes (map view.op arm.now)) }
{
    after_ops(arm, MOST_NODES).is_some()
}

// Whether a term loads nothing.
fn is_bare(t: &Term) -> bool
    ensures { result ≡ short.is_bare (view.term t.now) }
{
    match t {
        Term::Number(_) => true,
        Term::Var(_) => true,
        Term::Cell(_, _) => false,
        Term::Flip(t) => is_bare(t),
        Term::Not(t) => is_bare(t),
        Term::Neg(t) => is_bare(t),
        Term::Binary(_, a, b) => is_bare(a) && is_bare(b),
    }
}

// Whether an arm may hold the operation.
fn is_light(op: &GraphOp) -> bool
    ensures { result ≡ short.is_light (view.op op.now) }
{
    match op {
        GraphOp::Assign(_, t) => is_bare(t),
        GraphOp::Tick(_) => true,
        _ => false,
    }
}

fn all_light(ops: &[GraphOp]) -> bool
    ensures { result ≡ short.all_light (map view.op ops.now) }
{
    for op in ops {
        if !is_light(op) {
            return false;
        }
    }
    true
}

fn goes_to(exit: &Leave, d: u32) -> bool
    ensures { result ≡ short.goes_to (view.exit exit.now) d }
{
    match exit {
        Leave::Goto(c) => *c == d,
        _ => false,
    }
}

fn is_arm(block: &GraphBlock, j: u32) -> bool
    ensures { result ≡ short.is_arm (view.block block.now) j }
{
    goes_to(&block.exit, j) && all_light(&block.ops)
}

// The operations of block b, if it is an arm that goes on to j.
fn arm_to<'a>(table: &GraphTable<'a>, b: u32, j: u32) -> Option<&'a [GraphOp]>
    ensures { let block = block_at (view.graph (graph_in table.now)) b in
        MatchOption result (short.is_arm block j ≡ false)
        (λ ops. ArmIs block j (map view.op ops.now)) }
{
    match table.spot(b as usize) {
        Some(spot) => {
            if is_arm(spot.block, j) {
                Some(&spot.block.ops)
            } else {
                None
            }
        }
        None => None,
    }
}

// The same, if it is small enough beside no other arm.
fn lone_arm<'a>(table: &GraphTable<'a>, b: u32, j: u32) -> Option<&'a [GraphOp]>
    ensures { let block = block_at (view.graph (graph_in table.now)) b in
        MatchOption result (short.is_lone_arm block j ≡ false)
        (λ ops. LoneArmIs block j (map view.op ops.now)) }
{
    match arm_to(table, b, j) {
        Some(ops) => { if is_small(ops) { Some(ops) } else { None } }
        None => None,
    }
}

// The block that block b goes on to alone.
fn goal(table: &GraphTable<'_>, b: u32) -> Option<u32>
    ensures { result ≡ short.goal (block_at (view.graph (graph_in table.now)) b).exit }
{
    match table.spot(b as usize) {
        Some(spot) => match &spot.block.exit {
            Leave::Goto(c) => Some(*c),
            _ => None,
        },
        None => None,
    }
}

// The branch whose arms are both blocks.
fn two_arms<'a>(table: &GraphTable<'a>, test: &'a Term, c: u32, d: u32) -> Option<ShortBranch<'a>>
    ensures { let g = view.graph (graph_in table.now) in
        let found = short.two_arms g (view.term test.now) c d (short.goal (block_at g c).exit) in
        FoundIs found result }
{
    let join = match goal(table, c) {
        Some(j) => j,
        None => return None,
    };
    let first = match arm_to(table, c, join) {
        Some(ops) => ops,
        None => return None,
    };
    let second = match arm_to(table, d, join) {
        Some(ops) => ops,
        None => return None,
    };
    if are_small(first, second) {
        Some(ShortBranch {
            test,
            first,
            second,
            join,
        })
    } else {
        None
    }
}

// The branch to blocks c and d, if it is short.
fn short_to<'a>(table: &GraphTable<'a>, test: &'a Term, c: u32, d: u32) -> Option<ShortBranch<'a>>
    ensures { let g = view.graph (graph_in table.now) in
        FoundIs (short.short_to g (view.term test.now) c d) result }
{
    if c == d {
        return Some(ShortBranch {
            test,
            first: &[],
            second: &[],
            join: d,
        });
    }
    if let Some(first) = lone_arm(table, c, d) {
        return Some(ShortBranch {
            test,
            first,
            second: &[],
            join: d,
        });
    }
    if let Some(second) = lone_arm(table, d, c) {
        return Some(ShortBranch {
            test,
            first: &[],
            second,
            join: c,
        });
    }
    two_arms(table, test, c, d)
}

/// The short branch that an exit is, if it is one.
pub(crate) fn short<'a>(table: &GraphTable<'a>, exit: &'a Leave) -> Option<ShortBranch<'a>>
    ensures { let g = view.graph (graph_in table.now) in
        FoundIs (short.short g (view.exit exit.now)) result }
{
    match exit {
        Leave::Branch(test, c, d) => short_to(table, test, *c, *d),
        _ => None,
    }
}
