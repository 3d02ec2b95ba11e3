//! Copies of what a graph consists of.

ghost use Rattle.std.specs.Prelude.{◌≡◌, map, IfOk};
ghost use Rattle.cfg_core.specs.View as view;
ghost use Rattle.cfg_core.specs.View.{term as term_of};

use crate::blocks::{GraphArray, GraphArrays, GraphOp, GraphOps, Leave, Numbers, Term, Terms};
use std::alloc::Global;
use ws_words::{Bytes, NoMemory};

/// The same term once more.
pub fn copy_term(alloc: Global, term: &Term) -> Result<Term, NoMemory>
    ensures { IfOk result (λ made. term_of made ≡ term_of term.now) }
{
    match term {
        Term::Number(n) => Ok(Term::Number(*n)),
        Term::Var(x) => Ok(Term::Var(*x)),
        Term::Cell(a, index) => {
            let index = copy_term(alloc, index)?;
            Ok(Term::Cell(*a, Box::new(alloc, index)?))
        }
        Term::Flip(t) => {
            let t = copy_term(alloc, t)?;
            Ok(Term::Flip(Box::new(alloc, t)?))
        }
        Term::Not(t) => {
            let t = copy_term(alloc, t)?;
            Ok(Term::Not(Box::new(alloc, t)?))
        }
        Term::Neg(t) => {
            let t = copy_term(alloc, t)?;
            Ok(Term::Neg(Box::new(alloc, t)?))
        }
        Term::Binary(op, a, b) => {
            let a = copy_term(alloc, a)?;
            let b = copy_term(alloc, b)?;
            Ok(Term::Binary(*op, Box::new(alloc, a)?, Box::new(alloc, b)?))
        }
    }
}

/// The same terms once more, in order.
pub fn copy_terms(alloc: Global, terms: &[Term]) -> Result<Terms, NoMemory>
    ensures { IfOk result (λ made. map term_of made.items ≡ map term_of terms.now) }
{
    let mut list = Vec::new(alloc);
    for term in terms {
        list.push(copy_term(alloc, term)?)?;
    }
    Ok(list)
}

// The same operation once more.
fn copy_op(alloc: Global, op: &GraphOp) -> Result<GraphOp, NoMemory>
    ensures { IfOk result (λ made. view.op made ≡ view.op op.now) }
{
    match op {
        GraphOp::Assign(x, t) => Ok(GraphOp::Assign(*x, copy_term(alloc, t)?)),
        GraphOp::Store(a, t, u) => {
            let t = copy_term(alloc, t)?;
            let u = copy_term(alloc, u)?;
            Ok(GraphOp::Store(*a, t, u))
        }
        GraphOp::Print(t) => Ok(GraphOp::Print(copy_term(alloc, t)?)),
        GraphOp::Read(x) => Ok(GraphOp::Read(*x)),
        GraphOp::Give(p, x) => Ok(GraphOp::Give(*p, *x)),
        GraphOp::Take(p, t) => Ok(GraphOp::Take(*p, copy_term(alloc, t)?)),
        GraphOp::Choose(x, t, a, b) => {
            let t = copy_term(alloc, t)?;
            let a = copy_term(alloc, a)?;
            let b = copy_term(alloc, b)?;
            Ok(GraphOp::Choose(*x, t, a, b))
        }
        GraphOp::Tick(n) => Ok(GraphOp::Tick(*n)),
        GraphOp::TickBy(t, n, m) => Ok(GraphOp::TickBy(copy_term(alloc, t)?, *n, *m)),
    }
}

/// The same operations once more.
pub fn copy_ops(alloc: Global, ops: &[GraphOp]) -> Result<GraphOps, NoMemory>
    ensures { IfOk result (λ made. map view.op made.items ≡ map view.op ops.now) }
{
    let mut list = Vec::new(alloc);
    for op in ops {
        list.push(copy_op(alloc, op)?)?;
    }
    Ok(list)
}

/// The same numbers once more.
pub fn copy_numbers(alloc: Global, ns: &[u32]) -> Result<Numbers, NoMemory>
    ensures { IfOk result (λ made. made.items ≡ ns.now) }
{
    let mut list = Vec::new(alloc);
    for n in ns {
        list.push(*n)?;
    }
    Ok(list)
}

/// The same exit once more.
pub fn copy_exit(alloc: Global, leave: &Leave) -> Result<Leave, NoMemory>
    ensures { IfOk result (λ made. view.exit made ≡ view.exit leave.now) }
{
    match leave {
        Leave::Goto(b) => Ok(Leave::Goto(*b)),
        Leave::Branch(test, a, b) => Ok(Leave::Branch(copy_term(alloc, test)?, *a, *b)),
        Leave::Call {
            result,
            callee,
            values,
            back,
        } => Ok(Leave::Call {
            result: *result,
            callee: *callee,
            values: copy_terms(alloc, values)?,
            back: *back,
        }),
        Leave::Return(t) => Ok(Leave::Return(copy_term(alloc, t)?)),
        Leave::Send {
            address,
            values,
            landings,
        } => Ok(Leave::Send {
            address: copy_term(alloc, address)?,
            values: copy_terms(alloc, values)?,
            landings: copy_numbers(alloc, landings)?,
        }),
        Leave::Stop => Ok(Leave::Stop),
    }
}

// The same array once more.
fn copy_array(alloc: Global, array: &GraphArray) -> Result<GraphArray, NoMemory>
    ensures { IfOk result (λ made. view.array made ≡ view.array array.now) }
{
    let name = match &array.name {
        Some(name) => Some(name.copy(alloc)?),
        None => None,
    };
    Ok(GraphArray {
        name,
        length: array.length,
    })
}

/// The same arrays once more.
pub fn copy_arrays(alloc: Global, arrays: &[GraphArray]) -> Result<GraphArrays, NoMemory>
    ensures { IfOk result (λ made. map view.array made.items ≡ map view.array arrays.now) }
{
    let mut list = Vec::new(alloc);
    for a in arrays {
        list.push(copy_array(alloc, a)?)?;
    }
    Ok(list)
}
