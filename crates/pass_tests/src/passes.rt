//! A graph with a short branch and a call, from pass to pass.

ghost use Rattle.std.specs.Prelude.{◌≡◌, [], map, IfOk};
ghost use Rattle.cfg_core.specs.Rules.{IsGraph};
ghost use Rattle.cfg_core.specs.Samples as samples;
ghost use Rattle.cfg_core.specs.Shape.{ArmsAlone};
ghost use Rattle.cfg_core.specs.View as view;
ghost use Rattle.call_gen.specs.Keeps.{HasNoCall, NoneLiveAcross};
ghost use Rattle.ws_isa.specs.Open.{Walkable};
ghost use Rattle.pass_tests.specs.Samples.{doubles};
ghost use Rattle.ws_isa.specs.View as image;

use call_gen::{reached, spell_calls};
use cfg_core::{
    Constant, Graph, GraphBlock, GraphBlocks, GraphOp, GraphOps, GraphProc, Leave, Term, run_graph,
};
use cfg_fold::simplify;
use cfg_inline::{choose, inline_calls};
use live_vars::live;
use phi_conv::join_short;
use std::alloc::Global;
use std::test::Fail;
use wave_cut::cut;
use wave_gen::generate;
use ws_isa::{Draft, walk_draft};
use ws_words::{Alu, Cells, NoMemory, Plain, Words, World};

fn block(alloc: Global, ops: GraphOps, exit: Leave) -> GraphBlock
    ensures { view.block result ≡ samples.block [] (map view.op ops.items) (view.exit exit) }
{
    GraphBlock {
        named: Vec::new(alloc),
        ops,
        exit,
    }
}

fn proc(params: u32, vars: u32, blocks: GraphBlocks) -> GraphProc
    ensures { view.proc result ≡ samples.proc params vars (map view.block blocks.items) }
{
    GraphProc {
        params,
        vars,
        blocks,
    }
}

// Reads x; if x isn't 0, y is 3, in two turns, else y is 4, in one; prints y doubled by a call, and x.
fn doubling(alloc: Global) -> Result<Graph, NoMemory>
    ensures { IfOk result (λ g. view.graph g ≡ doubles) }
{
    let one = Box::new(alloc, Term::Var(0))?;
    let other = Box::new(alloc, Term::Var(0))?;
    let sum = Leave::Return(Term::Binary(Alu::Add, one, other));
    let double = vec![in alloc; block(alloc, Vec::new(alloc), sum)]?;
    let reads = vec![in alloc; GraphOp::Read(0), GraphOp::Tick(1)]?;
    let some = vec![in alloc;
        GraphOp::Tick(2),
        GraphOp::Assign(1, Term::Number(Constant { value: 3 })),
    ]?;
    let none = vec![in alloc;
        GraphOp::Tick(1),
        GraphOp::Assign(1, Term::Number(Constant { value: 4 })),
    ]?;
    let call = Leave::Call {
        result: Some(1),
        callee: 0,
        values: vec![in alloc; Term::Var(1)]?,
        back: 5,
    };
    let prints = vec![in alloc; GraphOp::Print(Term::Var(1)), GraphOp::Print(Term::Var(0))]?;
    let main = vec![in alloc;
        block(alloc, reads, Leave::Branch(Term::Var(0), 2, 3)),
        block(alloc, some, Leave::Goto(4)),
        block(alloc, none, Leave::Goto(4)),
        block(alloc, vec![in alloc; GraphOp::Tick(1)]?, call),
        block(alloc, prints, Leave::Stop),
    ]?;
    Ok(Graph {
        arrays: Vec::new(alloc),
        procs: vec![in alloc; proc(1, 1, double), proc(0, 2, main)]?,
    })
}

// How many blocks there are, and how many branches.
fn sizes(graph: &Graph) -> (usize, usize) {
    let mut count = (0usize, 0usize);
    for proc in &graph.procs {
        count.0 = count.0.wrapping_add(proc.blocks.len());
        let branches = proc
            .blocks
            .iter()
            .filter(|block| matches!(block.exit, Leave::Branch(..)));
        count.1 = count.1.wrapping_add(branches.count());
    }
    count
}

// A word that is read, the words that are printed, and the turns.
const RUNS: [(u64, [u64; 2], u64); 2] = [(7, [6, 7], 4), (0, [8, 0], 3)];

fn world(alloc: Global, word: u64) -> Result<World, NoMemory> {
    Ok(World {
        input: Words::from_slice(alloc, &[word])?,
        left: Cells::empty(alloc),
    })
}

// Whether the graph walks so, and takes no turn less.
fn walks(alloc: Global, graph: &Graph) -> Result<bool, NoMemory>
    requires { IsGraph (view.graph graph.now) }
{
    for (word, wanted, total) in RUNS {
        let world = world(alloc, word)?;
        match run_graph(alloc, graph, &world, total)? {
            Plain::Ended { printed, turns, .. } if turns == total => {
                if printed.as_slice() != wanted.as_slice() {
                    return Ok(false);
                }
            }
            _ => return Ok(false),
        }
    }
    Ok(true)
}

#[test]
#[tactic(auto, using(crate::proofs::Kept::doubles_kept))]
fn a_short_branch_is_joined(rt: HostRuntime) -> Result<(), Fail> {
    let alloc = rt.alloc();
    let graph = doubling(alloc)?;
    assert!(rt; walks(alloc, &graph)?);
    assert_eq!(rt; sizes(&graph), (6, 1));
    let sets = live(alloc, &graph)?;
    let joined = join_short(alloc, &graph, &sets)?;
    assert_eq!(rt; sizes(&joined), (6, 0));
    assert!(rt; walks(alloc, &joined)?);
    Ok(())
}

// How many blocks call.
fn calls(graph: &Graph) -> usize {
    let mut count = 0usize;
    for proc in &graph.procs {
        let found = proc
            .blocks
            .iter()
            .filter(|block| matches!(block.exit, Leave::Call { .. }));
        count = count.wrapping_add(found.count());
    }
    count
}

#[test]
#[tactic(auto, using(crate::proofs::Kept::doubles_kept))]
fn a_call_is_inlined(rt: HostRuntime) -> Result<(), Fail> {
    let alloc = rt.alloc();
    let graph = doubling(alloc)?;
    let folded = simplify(alloc, &graph)?;
    assert!(rt; walks(alloc, &folded)?);
    assert_eq!(rt; calls(&folded), 1);
    let plan = choose(alloc, &folded, 258)?;
    assert_eq!(rt; plan.room, 2);
    let inlined = inline_calls(alloc, &folded, plan.room, &plan.chosen)?;
    assert_eq!(rt; calls(&inlined), 0);
    assert!(rt; walks(alloc, &inlined)?);
    Ok(())
}

// The draft of the graph with its calls spelled out.
fn drafted(alloc: Global, spelled: &Graph) -> Result<Draft, NoMemory>
    requires rules { IsGraph (view.graph spelled.now) }
    requires no_call { HasNoCall (view.graph spelled.now) }
    requires across { NoneLiveAcross (view.graph spelled.now) }
    requires arms { ArmsAlone (view.graph spelled.now) }
    ensures { IfOk result (λ made. Walkable (image.draft made)) }
{
    let sets = live(alloc, spelled)?;
    let waves = cut(alloc, spelled)?;
    let draft = generate(alloc, spelled, &waves, &sets)?;
    Ok(draft)
}

// Whether the draft prints so.
fn prints(alloc: Global, draft: &Draft) -> Result<bool, NoMemory>
    requires { Walkable (image.draft draft.now) }
{
    for (word, wanted, _) in RUNS {
        let walked = walk_draft(alloc, draft, &world(alloc, word)?, 200)?;
        if !walked.whole || walked.printed.as_slice() != wanted.as_slice() {
            return Ok(false);
        }
    }
    Ok(true)
}

// The procedures have an entry block each, and the call a return block.
#[test]
#[tactic(auto, using(crate::proofs::Kept::doubles_kept, crate::proofs::Kept::doubles_alone, crate::proofs::Kept::doubles_sends_nothing))]
fn a_call_is_spelled_out(rt: HostRuntime) -> Result<(), Fail> {
    let alloc = rt.alloc();
    let graph = doubling(alloc)?;
    let part = reached(alloc, &graph)?;
    let sets = live(alloc, &part)?;
    let spelled = spell_calls(alloc, &part, &sets)?;
    assert_eq!(rt; sizes(&spelled), (9, 1));
    assert!(rt; walks(alloc, &spelled)?);
    let draft = drafted(alloc, &spelled)?;
    assert!(rt; prints(alloc, &draft)?);
    Ok(())
}
