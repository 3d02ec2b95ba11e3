//! What operations do with their operands.

ghost use Rattle.std.specs.Prelude.{◌≡◌, ◌<◌, ◌+◌, ◌^◌, ℕ, suc, cond, slice_index, IfSome, IsSome};
ghost use Rattle.ws_isa.specs.Image.{Image, instr_at, is_advance_op, selector_of, result_of_op};
ghost use Rattle.df_core.specs.Places.{destinations, image_of};
ghost use Rattle.match_table.specs.Ports.{listed};
ghost use Rattle.match_table.specs.Tables.{IsPlacedAt};

use crate::meeting::Operands;
use df_core::{PlacedInstr, Program};
use ws_isa::{Dest, Op};

impl Operands {
    /// The operand at port 0.
    #[inline(always)]
    pub fn first(self) -> u64
        ensures { result ≡ slice_index (listed self) 0 }
    {
        match self {
            Operands::One(first) => first,
            Operands::Two(first, _) => first,
            Operands::Three(first, _, _) => first,
        }
    }

    /// The operand at port 1; 0 where there is none.
    #[inline(always)]
    pub fn second(self) -> u64
        ensures { result ≡ slice_index (listed self) 1 }
    {
        match self {
            Operands::One(_) => 0,
            Operands::Two(_, second) => second,
            Operands::Three(_, second, _) => second,
        }
    }

    /// The operand at port 2; 0 where there is none.
    #[inline(always)]
    pub fn third(self) -> u64
        ensures { result ≡ slice_index (listed self) 2 }
    {
        match self {
            Operands::Three(_, _, third) => third,
            _ => 0,
        }
    }
}

/// The operand by which an instance chooses where its result goes.
#[inline(always)]
pub fn selector(op: Op, operands: Operands) -> u64
    ensures { result ≡ selector_of op (listed operands) }
{
    match op {
        Op::Steer => operands.second(),
        Op::Send(_) => operands.first(),
        _ => 0,
    }
}

/// The result of an operation that isn't memory's.
#[inline(always)]
pub fn result_of(op: Op, operands: Operands) -> u64
    ensures { result ≡ result_of_op op (listed operands) }
{
    op.result_on(operands.first(), operands.second(), operands.third())
}

// The operation of the instruction at a place of the code; `Halt` where there is none.
#[inline(always)]
pub(crate) fn op_of(placed: Option<PlacedInstr<'_>>) -> Op
    ensures { (image : Image) (number : ℕ) → IsPlacedAt image number placed.entry
        → result ≡ (instr_at image number).op }
{
    match placed {
        Some(placed) => placed.instr.op,
        None => Op::Halt,
    }
}

// Where the instruction with this number and place sends its result, if this is the operand by which it
// chooses.
#[inline(always)]
pub(crate) fn dests_of<'i>(
    program: &Program<'i>,
    placed: Option<PlacedInstr<'i>>,
    instr: u32,
    selector: u64,
) -> &'i [Dest]
    requires placed { IsPlacedAt (image_of program.now) instr placed }
    ensures { result.now ≡ destinations (image_of program.now) instr selector }
{
    match placed {
        Some(placed) => match placed.instr.op {
            Op::Steer => {
                if selector == 0 {
                    &placed.instr.others
                } else {
                    &placed.instr.dests
                }
            }
            Op::Send(_) => program.destinations(instr, selector),
            _ => &placed.instr.dests,
        },
        None => &[],
    }
}

/// The wave number of an instance's results, where there is one.
#[inline(always)]
pub fn number_of(op: Op, wave: u64) -> Option<u64>
    ensures number { IfSome result (λ number. number ≡ cond (is_advance_op op) (suc wave) wave) }
    ensures some { wave + 1 < 2 ^ 64 → IsSome result }
{
    if op.is_advance() {
        wave.checked_add(1)
    } else {
        Some(wave)
    }
}
