//! Calls of a graph, counted.

ghost use Rattle.std.specs.Prelude.{◌≡◌, ◌≤◌, ◌&&◌, ◌||◌, ◌==◌, if◌then◌else◌, map, length};
ghost use Rattle.cfg_core.specs.Tables.{graph_in};
ghost use Rattle.cfg_core.specs.Graph.{spots, block_at};
ghost use Rattle.cfg_core.specs.Rules.{calls};
ghost use Rattle.cfg_core.specs.View as view;
ghost use Rattle.call_gen.specs.Spelled.{callee_is, callee, is_called, is_calling};
ghost use Rattle.call_gen.specs.Spelled.{address};

use cfg_core::{GraphTable, Leave};

/// Whether an exit calls.
pub(crate) fn calls(exit: &Leave) -> bool
    ensures { result ≡ calls (view.exit exit.now) }
{
    match exit {
        Leave::Call { .. } => true,
        _ => false,
    }
}

fn calls_to(exit: &Leave, f: u32) -> bool
    ensures { result ≡ callee_is (view.exit exit.now) f }
{
    match exit {
        Leave::Call { callee, .. } => *callee == f,
        _ => false,
    }
}

/// Whether the block with this number calls.
pub(crate) fn calls_at(table: &GraphTable<'_>, b: usize) -> bool
    ensures { result ≡ calls (block_at (view.graph (graph_in table.now)) b).exit }
{
    match table.spot(b) {
        Some(spot) => calls(&spot.block.exit),
        None => false,
    }
}

/// Whether the block with this number calls this procedure.
pub(crate) fn calls_to_at(table: &GraphTable<'_>, b: usize, f: u32) -> bool
    ensures { result ≡ callee_is (block_at (view.graph (graph_in table.now)) b).exit f }
{
    match table.spot(b) {
        Some(spot) => calls_to(&spot.block.exit, f),
        None => false,
    }
}

fn callee(exit: &Leave) -> Option<u32>
    ensures { result ≡ callee (view.exit exit.now) }
{
    match exit {
        Leave::Call { callee, .. } => Some(*callee),
        _ => None,
    }
}

/// The procedure that the block with this number calls.
pub(crate) fn callee_at(table: &GraphTable<'_>, b: usize) -> Option<u32>
    ensures { result ≡ callee (block_at (view.graph (graph_in table.now)) b).exit }
{
    match table.spot(b) {
        Some(spot) => callee(&spot.block.exit),
        None => None,
    }
}

/// How many of the first so many blocks call this procedure.
pub(crate) fn calls_before(table: &GraphTable<'_>, count: usize, f: u32) -> usize
    requires { count ≤ length (spots (view.graph (graph_in table.now))) }
    ensures count { result ≡ address (view.graph (graph_in table.now)) f count }
    ensures few { result ≤ count }
{
    let mut found = 0;
    for b in 0..count {
        found += one_if(calls_to_at(table, b, f));
    }
    found
}

/// Whether some block calls this procedure.
pub(crate) fn is_called(table: &GraphTable<'_>, f: u32) -> bool
    ensures { result ≡ is_called (view.graph (graph_in table.now)) f }
{
    calls_before(table, table.block_count(), f) > 0
}

/// Whether some block of this procedure calls.
pub(crate) fn is_calling(table: &GraphTable<'_>, homes: &[u32], f: u32) -> bool
    requires { homes.now ≡ map (λ s. s.home) (spots (view.graph (graph_in table.now))) }
    ensures { result ≡ is_calling (view.graph (graph_in table.now)) f }
{
    let mut found = false;
    for (b, home) in homes.iter().enumerate() {
        found = either(found, calls_in(table, b, *home, f));
    }
    found
}

// Whether the block with this number, which stands in procedure `home`, calls and is one of
// procedure f.
fn calls_in(table: &GraphTable<'_>, b: usize, home: u32, f: u32) -> bool
    ensures { result ≡ ((home == f) && calls (block_at (view.graph (graph_in table.now)) b).exit) }
{
    home == f && calls_at(table, b)
}

fn either(a: bool, b: bool) -> bool
    ensures { result ≡ (a || b) }
{
    a || b
}

/// 1 where the test holds.
pub(crate) fn one_if(test: bool) -> usize
    ensures { result ≡ (if test then 1 else 0) }
{
    if test { 1 } else { 0 }
}
