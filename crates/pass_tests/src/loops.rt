//! Live variables and waves of a graph with a loop in an arm.

use cfg_core::{Graph, GraphBlock, GraphOp, GraphOps, GraphProc, Leave, Term};
use live_vars::live;
use std::alloc::Global;
use std::test::Fail;
use wave_cut::cut;
use ws_words::NoMemory;

fn block(alloc: Global, ops: GraphOps, exit: Leave) -> GraphBlock {
    GraphBlock {
        named: Vec::new(alloc),
        ops,
        exit,
    }
}

// A variable is read in a loop in the first arm of a branch, and another in the second arm.
fn looping(alloc: Global) -> Result<Graph, NoMemory> {
    let body = vec![in alloc; GraphOp::Print(Term::Var(69)), GraphOp::Read(0)]?;
    let print = vec![in alloc; GraphOp::Print(Term::Var(1))]?;
    let blocks = vec![in alloc;
        block(
            alloc,
            vec![in alloc; GraphOp::Read(0)]?,
            Leave::Branch(Term::Var(0), 1, 5)
        ),
        block(alloc, Vec::new(alloc), Leave::Goto(2)),
        block(alloc, Vec::new(alloc), Leave::Branch(Term::Var(0), 3, 4)),
        block(alloc, body, Leave::Goto(2)),
        block(alloc, Vec::new(alloc), Leave::Goto(6)),
        block(alloc, vec![in alloc; GraphOp::Read(1)]?, Leave::Goto(6)),
        block(alloc, print, Leave::Stop),
    ]?;
    let proc = GraphProc {
        params: 0,
        vars: 70,
        blocks,
    };
    Ok(Graph {
        arrays: Vec::new(alloc),
        procs: vec![in alloc; proc]?,
    })
}

// The variables that are live at the start of each block.
const LIVE: [&[u32]; 7] = [
    &[1, 69],
    &[0, 1, 69],
    &[0, 1, 69],
    &[1, 69],
    &[1],
    &[],
    &[1],
];

#[test]
fn what_a_loop_reads_is_live_before_it(rt: HostRuntime) -> Result<(), Fail> {
    let alloc = rt.alloc();
    let sets = live(alloc, &looping(alloc)?)?;
    for (block, wanted) in LIVE.iter().enumerate() {
        for x in 0..70u32 {
            assert_eq!(rt;
                sets.has(block as u32, x),
                wanted.contains(&x),
                "block {block}, variable {x}"
            );
        }
    }
    Ok(())
}

// The wave of each block, and whether that begins there.
const WAVES: [(u32, bool); 7] = [
    (1, true),
    (1, false),
    (2, true),
    (2, false),
    (2, false),
    (1, false),
    (3, true),
];

#[test]
fn a_loop_and_a_join_of_waves_begin_waves(rt: HostRuntime) -> Result<(), Fail> {
    let alloc = rt.alloc();
    let waves = cut(alloc, &looping(alloc)?)?;
    assert_eq!(rt; waves.count(), 3);
    for (block, (wave, first)) in WAVES.iter().enumerate() {
        assert_eq!(rt; waves.wave(block as u32), *wave, "block {block}");
        assert_eq!(rt; waves.first(block as u32), *first, "block {block}");
    }
    Ok(())
}
