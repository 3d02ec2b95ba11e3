//! The rows of the arrays of loads and stores.

ghost use Rattle.std.specs.Prelude.{◌≡◌, ◌-◌};
ghost use Rattle.ws_isa.specs.Image.{array_of_op};

use ws_isa::Op;

// The place of the array of a load or store, from 0.
pub(crate) fn row_of(op: Op) -> usize
    ensures { result ≡ array_of_op op - 1 }
{
    (array_of(op) as usize).saturating_sub(1)
}

// The array of a load or store.
pub(crate) fn array_of(op: Op) -> u32
    ensures { result ≡ array_of_op op }
{
    match op {
        Op::Load(array) | Op::Store(array) => array,
        _ => 0,
    }
}
