//! What is kept of two paths that enter one block.

ghost use Rattle.std.specs.Prelude.{◌≡◌, ◌≤◌, ℕ, IfSome, IfNone, IfOk, IfErr, Some, None, cond, ltb};
ghost use Rattle.annot_check.specs.Order.{link_eq, added, placed, joint as joint_lasts, LastsOk, Merged};
ghost use Rattle.annot_check.specs.Seen.{OrderBreach};
ghost use Rattle.annot_check.specs.declared.fault.Bad.{Bad};
ghost use Rattle.annot_check.specs.declared.fault.CheckFault.TheVariants.{Refused};
ghost use Rattle.ws_isa.specs.Image.{Image as PlainImage};
ghost use Rattle.ws_isa.specs.Sound.{ShapeRules};
ghost use Rattle.annot_check.specs.declared.fault.Bad.TheVariants.{Link as LinkBad};

use crate::fault::Bad;
use crate::lasts::{Lasts, Mark, no_op, same_link};
use ws_isa::Link;

fn odd_of(lasts: &Lasts, top: Mark, rest: Mark) -> Mark
    ensures { result ≡ cond (link_eq rest.note.succ top.note.succ) lasts.now.odd rest }
{
    if same_link(rest.note.succ, top.note.succ) {
        lasts.odd
    } else {
        rest
    }
}

fn place(lasts: &Lasts, top: Mark, rest: Mark) -> Lasts
    ensures { result ≡ placed lasts.now top rest }
{
    let odd = odd_of(lasts, top, rest);
    Lasts {
        none: lasts.none,
        top,
        other: rest,
        odd,
        writer: lasts.writer,
    }
}

/// One more operation that may have been last, unless another has its sequence number.
pub fn add(lasts: &Lasts, mark: Mark) -> Option<Lasts>
    ensures added { IfSome result (λ more. more ≡ added lasts.now mark) }
    ensures apart { IfSome result (λ more. 1 ≤ lasts.now.top.op → (mark.op ≡ lasts.now.top.op → ⊥) →
        mark.note.seq ≡ lasts.now.top.note.seq → ⊥) }
    ensures none { IfNone result ((1 ≤ lasts.now.top.op) × (mark.op ≡ lasts.now.top.op → ⊥) ×
        (mark.note.seq ≡ lasts.now.top.note.seq)) }
{
    if lasts.top.op == 0 {
        return Some(Lasts {
            none: lasts.none,
            top: mark,
            other: no_op(),
            odd: no_op(),
            writer: lasts.writer,
        });
    }
    if mark.op == lasts.top.op {
        return Some(*lasts);
    }
    if mark.note.seq == lasts.top.note.seq {
        return None;
    }
    if lasts.top.note.seq < mark.note.seq {
        Some(place(lasts, mark, lasts.top))
    } else {
        Some(place(lasts, lasts.top, mark))
    }
}

// Adds an operation if there is one.
fn add_some(lasts: &Lasts, mark: Mark) -> Result<Lasts, Bad>
    ensures added { IfOk result (λ more. (1 ≤ mark.op → more ≡ added lasts.now mark) ×
        (mark.op ≡ 0 → more ≡ lasts.now)) }
    ensures apart { IfOk result (λ more. 1 ≤ mark.op → 1 ≤ lasts.now.top.op →
        (mark.op ≡ lasts.now.top.op → ⊥) → mark.note.seq ≡ lasts.now.top.note.seq → ⊥) }
    ensures refused { IfErr result (λ bad. (1 ≤ mark.op) × (1 ≤ lasts.now.top.op) ×
        (mark.op ≡ lasts.now.top.op → ⊥) × (mark.note.seq ≡ lasts.now.top.note.seq) ×
        (bad ≡ cond (ltb lasts.now.top.op mark.op) (LinkBad lasts.now.top.op mark.op)
        (LinkBad mark.op lasts.now.top.op))) }
{
    if mark.op == 0 {
        return Ok(*lasts);
    }
    match add(lasts, mark) {
        Some(more) => Ok(more),
        None => Err(one_number(lasts.top.op, mark.op)),
    }
}

// Two operations with one sequence number, in their order.
fn one_number(op: u32, other: u32) -> Bad
    ensures { result ≡ cond (ltb op other) (LinkBad op other) (LinkBad other op) }
{
    if op < other {
        Bad::Link {
            first: op,
            second: other,
        }
    } else {
        Bad::Link {
            first: other,
            second: op,
        }
    }
}

fn joint(lasts: &Lasts, others: &Lasts) -> Lasts
    ensures { result ≡ joint_lasts lasts.now others.now }
{
    Lasts {
        none: lasts.none || others.none,
        top: lasts.top,
        other: lasts.other,
        odd: lasts.odd,
        writer: greater(lasts.writer, others.writer),
    }
}

fn greater(mark: Mark, other: Mark) -> Mark
    ensures { result ≡ cond (ltb mark.note.seq other.note.seq) other mark }
{
    if mark.note.seq < other.note.seq {
        other
    } else {
        mark
    }
}

/// What is kept of the paths of both, unless two operations have one sequence number.
pub fn merge(lasts: &Lasts, others: &Lasts) -> Result<Lasts, Bad>
    ensures merged { IfOk result (λ more. (image : PlainImage) (b k : ℕ) →
        LastsOk image b k lasts.now → LastsOk image b k others.now →
        Merged image b k lasts.now others.now more) }
    ensures refused { IfErr result (λ bad. (image : PlainImage) (b k : ℕ) → ShapeRules image →
        LastsOk image b k lasts.now → LastsOk image b k others.now →
        OrderBreach image (Refused bad)) }
{
    let joint = joint(lasts, others);
    let first = match add_some(&joint, others.top) {
        Ok(first) => first,
        Err(bad) => return Err(bad),
    };
    let second = match add_some(&first, others.other) {
        Ok(second) => second,
        Err(bad) => return Err(bad),
    };
    match add_some(&second, others.odd) {
        Ok(third) => Ok(third),
        Err(bad) => Err(bad),
    }
}
