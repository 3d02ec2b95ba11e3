//! The names and numbers in a line: whether names may stand there, and which numbers are next.

ghost use Rattle.std.specs.Prelude.{◌≡◌, Some, None, true};
ghost use Rattle.std.specs.List.{list_all};
ghost use Rattle.asm_text.specs.State as spec;

use crate::line::{Label, Line, Target};
use crate::state::TextState;

fn is_number(label: &Label) -> bool
    ensures { result ≡ spec.is_number label.now }
{
    matches!(label, Label::At(_))
}

fn are_numbers(targets: &[Target]) -> bool
    ensures { result ≡ spec.are_numbers targets.now }
{
    targets.iter().all(|t| is_number(&t.instr))
}

fn are_number_labels(labels: &[Label]) -> bool
    ensures { result ≡ list_all spec.is_number labels.now }
{
    labels.iter().all(|l| is_number(l))
}

/// Whether no name stands in a line, but that of an array.
#[tactic(auto, unfolding(crate::specs::State::is_plain))]
pub(crate) fn is_plain(line: &Line) -> bool
    ensures { result ≡ spec.is_plain line.now }
{
    match line {
        Line::Block(l) | Line::Go(l) => is_number(l),
        Line::Pad(_, dests) => are_numbers(dests.as_slice()),
        Line::Instr(i) => {
            is_number(&i.own) && are_numbers(i.dests.as_slice()) && are_numbers(i.others.as_slice())
        }
        Line::If(s, b, c) => is_number(s) && is_number(b) && is_number(c),
        Line::Send(s, landings) => is_number(s) && are_number_labels(landings.as_slice()),
        _ => true,
    }
}

// Whether an own number is the next in count.
#[tactic(auto, using(std::proofs::lemmas::Bool::Decides::nat_tests))]
fn is_next(label: &Label, count: u64) -> bool
    ensures { result ≡ spec.is_next label.now count }
{
    match label {
        Label::At(n) => *n >= 1 && u64::from(*n) - 1 == count,
        Label::Named(_) => true,
    }
}

fn are_ports(targets: &[Target]) -> bool
    ensures { result ≡ spec.are_ports targets.now }
{
    targets.iter().all(|t| t.port <= 2)
}

fn is_above(last: Option<u8>, number: u8) -> bool
    ensures { result ≡ spec.is_above last number }
{
    match last {
        Some(last) => last < number,
        None => true,
    }
}

/// Whether own numbers are the next in count, pads rise, and ports are below 3.
#[tactic(auto, unfolding(crate::specs::State::is_numbered))]
pub(crate) fn is_numbered(state: &TextState, line: &Line) -> bool
    ensures { result ≡ spec.is_numbered state.now line.now }
{
    match line {
        Line::Wave(k) => u64::from(*k) == u64::from(state.waves) + 1,
        Line::Block(l) => is_next(l, u64::from(state.blocks)),
        Line::Pad(k, dests) => is_above(state.pad, *k) && are_ports(dests.as_slice()),
        Line::Instr(i) => {
            is_next(&i.own, state.ports.len() as u64)
                && are_ports(i.dests.as_slice())
                && are_ports(i.others.as_slice())
        }
        _ => true,
    }
}
