//! The drafts of programs walk to the words that the programs print.

ghost use Rattle.std.specs.Prelude.{IfOk};
ghost use Rattle.cfg_core.specs.View as view;
ghost use Rattle.cfg_core.specs.Rules.{IsGraph};
ghost use Rattle.cfg_core.specs.Shape.{ArmsAlone};
ghost use Rattle.call_gen.specs.Keeps.{HasNoCall, NoneLiveAcross};
ghost use Rattle.ws_isa.specs.Open.{Walkable};
ghost use Rattle.ws_isa.specs.View as image;

use crate::graphs::{accepted, joined, spelled, world};
use call_gen::shaped_branches_stand_alone;
use cfg_build::lower;
use cfg_core::Graph;
use live_vars::live;
use src_check::Accepted;
use std::alloc::Global;
use std::test::Fail;
use wave_cut::cut;
use wave_gen::generate;
use ws_isa::{Draft, walk_draft};
use ws_words::NoMemory;

// The draft of a graph with its calls spelled out.
fn drafted(alloc: Global, spelled: &Graph) -> Result<Draft, NoMemory>
    requires rules { IsGraph (view.graph spelled.now) }
    requires no_call { HasNoCall (view.graph spelled.now) }
    requires across { NoneLiveAcross (view.graph spelled.now) }
    requires arms { ArmsAlone (view.graph spelled.now) }
    ensures { IfOk result (λ made. Walkable (image.draft made)) }
{
    let sets = live(alloc, spelled)?;
    let waves = cut(alloc, spelled)?;
    let draft = generate(alloc, spelled, &waves, &sets)?;
    Ok(draft)
}

// The graph of which the draft of a program is made.
fn graph_of(alloc: Global, accepted: &Accepted) -> Result<Graph, NoMemory>
    ensures rules { IfOk result (λ made. IsGraph (view.graph made)) }
    ensures no_call { IfOk result (λ made. HasNoCall (view.graph made)) }
    ensures across { IfOk result (λ made. NoneLiveAcross (view.graph made)) }
    ensures arms { IfOk result (λ made. ArmsAlone (view.graph made)) }
{
    shaped_branches_stand_alone();
    let lowered = lower(alloc, accepted)?;
    let joined = joined(alloc, &lowered)?;
    spelled(alloc, &joined)
}

// The draft of a program.
fn draft_of(alloc: Global, text: &str) -> Result<Draft, NoMemory>
    ensures { IfOk result (λ made. Walkable (image.draft made)) }
{
    let accepted = accepted(alloc, text)?;
    let graph = graph_of(alloc, &accepted)?;
    drafted(alloc, &graph)
}

// Programs, each with words that it reads and the words that it prints of them.
const ROWS: &[(&str, &[u64], &[u64])] = &[
    (
        "array a[1]; proc main() { var x; read x; if (x) { a[0] = 1; } print a[0]; }",
        &[0],
        &[0],
    ),
    (
        "array a[1]; proc main() { var x; read x; if (x) { a[0] = 1; } print a[0]; }",
        &[1],
        &[1],
    ),
    (
        "proc main() { var i, s; i = 1; while (i <= 10) { s = s + i; i = i + 1; } print s; }",
        &[],
        &[55],
    ),
    (
        "proc main() { var x; read x; print x; read x; print x; read x; print x; }",
        &[4, 9],
        &[4, 9, 0],
    ),
    (
        "proc main() { var x, i; read x; if (x) { while (i < x) { i = i + 1; } } print i; }",
        &[3],
        &[3],
    ),
    (
        "proc main() { var x, i; read x; if (x) { while (i < x) { i = i + 1; } } print i; }",
        &[0],
        &[0],
    ),
];

// Whether the whole walk of a draft prints so.
fn prints(alloc: Global, draft: &Draft, input: &[u64], wanted: &[u64]) -> Result<bool, NoMemory>
    requires { Walkable (image.draft draft.now) }
{
    let walked = walk_draft(alloc, draft, &world(alloc, input)?, 1_000)?;
    Ok(walked.whole && walked.printed.as_slice() == wanted)
}

// Whether it is so of the draft of a program.
fn draft_prints(
    alloc: Global,
    text: &str,
    input: &[u64],
    wanted: &[u64],
) -> Result<bool, NoMemory> {
    let draft = draft_of(alloc, text)?;
    prints(alloc, &draft, input, wanted)
}

#[test]
fn drafts_walk_to_printed_words(rt: HostRuntime) -> Result<(), Fail> {
    let alloc = rt.alloc();
    for (text, input, wanted) in ROWS {
        assert!(rt; draft_prints(alloc, text, input, wanted)?, "{text}");
    }
    Ok(())
}
