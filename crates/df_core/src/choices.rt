//! What an operation names, and by which operand it chooses.

ghost use Rattle.std.specs.Prelude.{◌≡◌};
ghost use Rattle.ws_isa.specs.Image.{array_of_op, selector_of};
ghost use Rattle.df_core.specs.Flows.{all_of};

use crate::plain::Operands;
use ws_isa::Op;

// The array of a load or store.
pub fn array_of(op: Op) -> u32
    ensures { result ≡ array_of_op op }
{
    match op {
        Op::Load(array) | Op::Store(array) => array,
        _ => 0,
    }
}

// The operand by which an instance chooses where its result goes.
pub fn selector(op: Op, operands: Operands) -> u64
    ensures { result ≡ selector_of op (all_of operands) }
{
    match op {
        Op::Steer => operands.second,
        Op::Send(_) => operands.first,
        _ => 0,
    }
}
