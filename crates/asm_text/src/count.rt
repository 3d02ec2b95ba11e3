//! What a line adds: its names, which are new, and its counts.

ghost use Rattle.std.specs.Prelude.{◌≡◌, ◌+◌, ◌<◌, ◌≤◌, length, Some, None, true, OnOk};
ghost use Rattle.ws_isa.specs.Image.{ports_of};
ghost use Rattle.ws_isa.specs.Formed.{most_instrs, most_blocks};
ghost use Rattle.asm_text.specs.State as spec;

use crate::line::{InstrLine, Label, Line};
use crate::names::NameTable;
use crate::state::TextState;
use std::alloc::Global;
use ws_isa::Op;
use ws_words::NoMemory;

fn is_new_label(names: &NameTable, label: &Label) -> bool
    ensures { result ≡ spec.is_new_label names.now label.now }
{
    match label {
        Label::At(_) => true,
        Label::Named(name) => names.find(name.as_slice()).is_none(),
    }
}

/// Whether a line gives no name that stands already.
#[tactic(auto, unfolding(crate::specs::State::is_new))]
pub(crate) fn is_new(state: &TextState, line: &Line) -> bool
    ensures { result ≡ spec.is_new state.now line.now }
{
    match line {
        Line::Block(l) => is_new_label(&state.block_names, l),
        Line::Instr(i) => is_new_label(&state.instr_names, &i.own),
        _ => true,
    }
}

// Adds the name of a label.
fn add_name(
    names: &mut NameTable,
    alloc: Global,
    label: &Label,
    number: u32,
) -> Result<(), NoMemory>
    requires { spec.is_new_label names.old label.now ≡ true }
    ensures { OnOk result (names.new ≡ spec.with_name names.old label.now number) }
{
    match label {
        Label::At(_) => Ok(()),
        Label::Named(name) => names.add(alloc, name.as_slice(), number),
    }
}

fn ports(op: Op) -> u8
    ensures { result ≡ ports_of op }
{
    match op {
        Op::Alu(_) | Op::Steer | Op::Send(_) | Op::Store(_) => 2,
        Op::Phi => 3,
        _ => 1,
    }
}

// Counts an array.
#[tactic(auto, using(crate::proofs::Keeping::Counts::cells_fit), unfolding(ws_isa::specs::Formed::most_arrays, ws_isa::specs::Formed::most_length, ws_isa::specs::Formed::most_cells))]
fn count_array(state: &mut TextState, cells: u32)
    requires { spec.is_within_cells state.old cells ≡ true }
    ensures { state.new ≡ record state.old {
      arrays = state.old.arrays + 1;
      cells = state.old.cells + cells;
    } }
{
    state.arrays += 1;
    state.cells += cells;
}

// Counts a block.
#[tactic(auto, unfolding(ws_isa::specs::Formed::most_blocks))]
fn count_block(state: &mut TextState, alloc: Global, label: &Label) -> Result<(), NoMemory>
    requires few { state.old.blocks < most_blocks }
    requires new { spec.is_new_label state.old.block_names label.now ≡ true }
    ensures { OnOk result (state.new ≡ spec.with_block state.old label.now) }
{
    state.blocks += 1;
    state.pad = None;
    add_name(&mut state.block_names, alloc, label, state.blocks)
}

// Counts an instruction.
#[tactic(auto, unfolding(ws_isa::specs::Formed::most_instrs))]
fn count_instr(state: &mut TextState, alloc: Global, instr: &InstrLine) -> Result<(), NoMemory>
    requires few { length state.old.ports < most_instrs }
    requires new { spec.is_new_label state.old.instr_names instr.now.own ≡ true }
    ensures with { OnOk result (state.new ≡ spec.with_instr state.old instr.now) }
    ensures few { OnOk result (length state.new.ports ≤ most_instrs) }
{
    let number = state.ports.len() as u32 + 1;
    state.ports.push(ports(instr.op))?;
    add_name(&mut state.instr_names, alloc, &instr.own, number)
}

// Counts what a line has.
#[tactic(auto, using(crate::proofs::Keeping::Counts::counts), unfolding(crate::specs::State::counted, crate::specs::State::is_within, crate::specs::State::is_new))]
pub(crate) fn count(state: &mut TextState, alloc: Global, line: &Line) -> Result<(), NoMemory>
    requires within { spec.is_within state.old line.now ≡ true }
    requires new { spec.is_new state.old line.now ≡ true }
    requires few { length state.old.ports ≤ most_instrs }
    ensures counted { OnOk result (state.new ≡ spec.counted state.old line.now) }
    ensures few { OnOk result (length state.new.ports ≤ most_instrs) }
{
    match line {
        Line::Version(n) => {
            state.named = *n == 2;
            Ok(())
        }
        Line::Array(_, cells) | Line::Hidden(cells) => {
            count_array(state, *cells);
            Ok(())
        }
        Line::Wave(_) => {
            state.waves += 1;
            Ok(())
        }
        Line::Block(l) => count_block(state, alloc, l),
        Line::Pad(k, _) => {
            state.pad = Some(*k);
            Ok(())
        }
        Line::Instr(i) => count_instr(state, alloc, i),
        _ => Ok(()),
    }
}
