//! The variables that an arm writes.

ghost use Rattle.std.specs.Prelude.{◌≡◌, ◌∷◌, [], map, OnOk};
ghost use Rattle.cfg_core.specs.View as view;
ghost use Rattle.phi_conv.specs.Joined as joined;

use cfg_core::{GraphOp, Numbers};
use ws_words::NoMemory;

pub(crate) fn is_among(numbers: &[u32], x: u32) -> bool
    ensures { result ≡ joined.is_among numbers.now x }
{
    for y in numbers {
        if x == *y {
            return true;
        }
    }
    false
}

fn add(done: &mut Numbers, x: u32) -> Result<(), NoMemory>
    ensures { OnOk result (done.new.items ≡ joined.added done.old.items x) }
{
    if is_among(done, x) {
        return Ok(());
    }
    done.push(x)?;
    Ok(())
}

// Adds the variable that an operation of an arm writes.
pub(crate) fn add_written(done: &mut Numbers, op: &GraphOp) -> Result<(), NoMemory>
    ensures { OnOk result (done.new.items ≡
        joined.written done.old.items (view.op op.now ∷ [])) }
{
    match op {
        GraphOp::Assign(x, _) => add(done, *x),
        _ => Ok(()),
    }
}

// Adds the variables that an arm writes.
pub(crate) fn add_all_written(done: &mut Numbers, ops: &[GraphOp]) -> Result<(), NoMemory>
    ensures { OnOk result (done.new.items ≡
        joined.written done.old.items (map view.op ops.now)) }
{
    for op in ops {
        add_written(done, op)?;
    }
    Ok(())
}
