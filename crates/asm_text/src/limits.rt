//! The limits that a line keeps.

ghost use Rattle.std.specs.Prelude.{◌≡◌, true};
ghost use Rattle.std.specs.List.{list_all};
ghost use Rattle.ws_isa.specs.Formed.{most_instrs, most_blocks};
ghost use Rattle.asm_text.specs.State as spec;

use crate::line::{Label, Line, Target};
use crate::state::TextState;
use ws_isa::Op;
use ws_words::Bytes;

#[tactic(auto, unfolding(ws_isa::specs::Formed::most_name))]
fn is_short_name(name: &Bytes) -> bool
    ensures { result ≡ spec.is_short_name name.now }
{
    name.len() <= 64
}

fn is_short(label: &Label) -> bool
    ensures { result ≡ spec.is_short label.now }
{
    match label {
        Label::At(_) => true,
        Label::Named(name) => is_short_name(name),
    }
}

fn are_short_targets(targets: &[Target]) -> bool
    ensures { result ≡ spec.are_short targets.now }
{
    targets.iter().all(|t| is_short(&t.instr))
}

#[tactic(auto, unfolding(ws_isa::specs::Formed::most_dests))]
fn are_few(targets: &[Target]) -> bool
    ensures { result ≡ spec.are_few targets.now }
{
    targets.len() <= 8 && are_short_targets(targets)
}

fn are_short(labels: &[Label]) -> bool
    ensures { result ≡ list_all spec.is_short labels.now }
{
    labels.iter().all(|l| is_short(l))
}

#[tactic(auto, unfolding(ws_isa::specs::Formed::most_pads))]
fn is_within_op(op: Op) -> bool
    ensures { result ≡ spec.is_within_op op }
{
    match op {
        Op::Send(k) => k < 16,
        Op::Give(p) | Op::Take(p) => 1 <= p && p <= 7,
        _ => true,
    }
}

fn limit(named: bool, first: u64, second: u64) -> u64
    ensures { result ≡ spec.limit named first second }
{
    if named { second } else { first }
}

#[tactic(auto, unfolding(ws_isa::specs::Formed::most_arrays, ws_isa::specs::Formed::most_length, ws_isa::specs::Formed::most_cells))]
fn is_within_cells(state: &TextState, cells: u32) -> bool
    ensures { result ≡ spec.is_within_cells state.now cells }
{
    state.arrays < 256 && cells <= 65536 && u64::from(state.cells) + u64::from(cells) <= 2_097_152
}

/// Whether a line keeps the limits.
#[tactic(auto, unfolding(crate::specs::State::is_within, crate::specs::Limits::first_most_waves, crate::specs::Limits::first_most_blocks, crate::specs::Limits::first_most_instrs, crate::specs::Limits::first_most_landings, ws_isa::specs::Formed::most_waves, ws_isa::specs::Formed::most_blocks, ws_isa::specs::Formed::most_pads, ws_isa::specs::Formed::most_instrs, ws_isa::specs::Formed::most_landings))]
pub(crate) fn is_within(state: &TextState, line: &Line) -> bool
    ensures { result ≡ spec.is_within state.now line.now }
{
    match line {
        Line::Array(name, cells) => is_within_cells(state, *cells) && is_short_name(name),
        Line::Hidden(cells) => is_within_cells(state, *cells),
        Line::Wave(_) => u64::from(state.waves) < limit(state.named, 65536, 131_072),
        Line::Block(l) => {
            u64::from(state.blocks) < limit(state.named, 65536, 131_072) && is_short(l)
        }
        Line::Pad(k, dests) => *k < 16 && are_few(dests.as_slice()),
        Line::Instr(i) => {
            (state.ports.len() as u64) < limit(state.named, 2_097_152, 4_194_304)
                && is_short(&i.own)
                && is_within_op(i.op)
                && i.fits
                && are_few(i.dests.as_slice())
                && are_few(i.others.as_slice())
        }
        Line::Go(l) => is_short(l),
        Line::If(t, b, c) => is_short(t) && is_short(b) && is_short(c),
        Line::Send(t, landings) => {
            is_short(t)
                && landings.as_slice().len() as u64 <= limit(state.named, 1024, 2048)
                && are_short(landings.as_slice())
        }
        _ => true,
    }
}
