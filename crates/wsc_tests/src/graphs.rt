//! The graphs of programs walk as the programs run, from pass to pass.

ghost use Rattle.std.specs.Prelude.{IfOk};
ghost use Rattle.src_ast.specs.View as ast;
ghost use Rattle.src_ast.specs.Written.{IsWritten};
ghost use Rattle.cfg_core.specs.View as view;
ghost use Rattle.cfg_core.specs.Rules.{IsGraph};
ghost use Rattle.cfg_core.specs.Shape.{ArmsAlone};
ghost use Rattle.cfg_build.specs.Keeps.{IsFirstForm};
ghost use Rattle.call_gen.specs.Keeps.{HasNoCall, HasNoSend, NoneLiveAcross};

use crate::programs::{INPUTS, PROGRAMS};
use call_gen::{reached, spell_calls};
use cfg_build::lower;
use cfg_core::{Graph, run_graph};
use live_vars::live;
use phi_conv::join_short;
use seq_run::run_plain;
use src_ast::read_is_written;
use src_check::{Accepted, check};
use src_lex::lex;
use src_parse::parse;
use std::alloc::Global;
use std::test::Fail;
use wave_build::compile;
use wave_cut::cut;
use ws_isa::Checked;
use ws_words::{Cells, NoMemory, Words, World};

// Numbers of turns in which runs stop at each of their first statements, then further on.
const TURNS: &[u64] = &[
    0, 1, 2, 3, 4, 5, 6, 7, 8, 9, 10, 11, 12, 13, 14, 15, 17, 20, 24, 30, 40, 75, 150, 500,
];

pub fn accepted(alloc: Global, text: &str) -> Result<Accepted, NoMemory>
    ensures { IfOk result (λ accepted. IsWritten (ast.parts accepted.program.items.items)) }
{
    read_is_written();
    if text.len() > 10_000 {
        return Err(NoMemory);
    }
    let Ok(lexemes) = lex(alloc, text.as_bytes()) else {
        return Err(NoMemory);
    };
    let Ok(tree) = parse(alloc, &lexemes) else {
        return Err(NoMemory);
    };
    let Ok(accepted) = check(alloc, tree) else {
        return Err(NoMemory);
    };
    Ok(accepted)
}

// The image of a program.
pub fn compiled(alloc: Global, text: &str) -> Result<Checked, NoMemory> {
    let accepted = accepted(alloc, text)?;
    compile(alloc, &accepted)
}

// What the ports have left, from port 1 on.
const LEFT: &[&[u64]] = &[&[4], &[6, 0, 11], &[3, 1, 2], &[], &[], &[], &[]];

fn ports_left(alloc: Global) -> Result<Cells, NoMemory> {
    let mut left = Cells::empty(alloc);
    for words in LEFT {
        left.push(Words::from_slice(alloc, words)?)?;
    }
    Ok(left)
}

// The world with this input.
pub fn world(alloc: Global, input: &[u64]) -> Result<World, NoMemory> {
    let input = Words::from_slice(alloc, input)?;
    let left = ports_left(alloc)?;
    Ok(World { input, left })
}

fn blocks(graph: &Graph) -> usize {
    let mut count = 0usize;
    for proc in &graph.procs {
        count = count.saturating_add(proc.blocks.len());
    }
    count
}

// A graph with its short branches joined, without what isn't reached.
#[tactic(auto, using(crate::proofs::Sends::first_has_none, crate::proofs::Sends::kept_has_none))]
pub fn joined(alloc: Global, lowered: &Graph) -> Result<Graph, NoMemory>
    requires rules { IsGraph (view.graph lowered.now) }
    requires form { IsFirstForm (view.graph lowered.now) }
    ensures rules { IfOk result (λ made. IsGraph (view.graph made)) }
    ensures no_send { IfOk result (λ made. HasNoSend (view.graph made)) }
    ensures arms { IfOk result (λ made. ArmsAlone (view.graph lowered.now) → ArmsAlone (view.graph made)) }
{
    let reached = reached(alloc, lowered)?;
    let needed = live(alloc, &reached)?;
    let joined = join_short(alloc, &reached, &needed)?;
    Ok(joined)
}

// A graph with its calls spelled out.
pub fn spelled(alloc: Global, joined: &Graph) -> Result<Graph, NoMemory>
    requires rules { IsGraph (view.graph joined.now) }
    requires no_send { HasNoSend (view.graph joined.now) }
    ensures rules { IfOk result (λ made. IsGraph (view.graph made)) }
    ensures no_call { IfOk result (λ made. HasNoCall (view.graph made)) }
    ensures across { IfOk result (λ made. NoneLiveAcross (view.graph made)) }
    ensures arms { IfOk result (λ made. ArmsAlone (view.graph joined.now) → ArmsAlone (view.graph made)) }
{
    let wanted = live(alloc, joined)?;
    spell_calls(alloc, joined, &wanted)
}

// Whether a graph walks as a program runs, on each number of turns.
fn walks_on(
    alloc: Global,
    accepted: &Accepted,
    graph: &Graph,
    world: &World,
) -> Result<bool, NoMemory>
    requires { IsGraph (view.graph graph.now) }
{
    for turns in TURNS {
        let run = run_plain(alloc, accepted, world, *turns)?;
        if run_graph(alloc, graph, world, *turns)? != run {
            return Ok(false);
        }
    }
    Ok(true)
}

// The same, whole, on each input.
fn walks_as(alloc: Global, accepted: &Accepted, graph: &Graph) -> Result<bool, NoMemory>
    requires { IsGraph (view.graph graph.now) }
{
    for input in INPUTS {
        let world = world(alloc, input)?;
        if !walks_on(alloc, accepted, graph, &world)? {
            return Ok(false);
        }
    }
    Ok(true)
}

// What is seen of the graphs of a program: how many blocks it has first, and which of the graphs walk as
// the program runs.
#[derive(Clone, Copy)]
struct Seen {
    blocks: usize,
    lowered: bool,
    joined: bool,
    spelled: bool,
}

// Whether the graph with calls spelled out walks as the program runs.
fn spelled_walks(alloc: Global, accepted: &Accepted, joined: &Graph) -> Result<bool, NoMemory>
    requires rules { IsGraph (view.graph joined.now) }
    requires no_send { HasNoSend (view.graph joined.now) }
{
    let spelled = spelled(alloc, joined)?;
    walks_as(alloc, accepted, &spelled)
}

// Whether the graph with branches joined does, and whether the one with calls spelled out does.
fn joined_walk(
    alloc: Global,
    accepted: &Accepted,
    lowered: &Graph,
) -> Result<(bool, bool), NoMemory>
    requires rules { IsGraph (view.graph lowered.now) }
    requires form { IsFirstForm (view.graph lowered.now) }
{
    let joined = joined(alloc, lowered)?;
    let walks = walks_as(alloc, accepted, &joined)?;
    Ok((walks, spelled_walks(alloc, accepted, &joined)?))
}

fn seen_of(alloc: Global, accepted: &Accepted) -> Result<Seen, NoMemory> {
    let graph = lower(alloc, accepted)?;
    let lowered = walks_as(alloc, accepted, &graph)?;
    let (joined, spelled) = joined_walk(alloc, accepted, &graph)?;
    Ok(Seen {
        blocks: blocks(&graph),
        lowered,
        joined,
        spelled,
    })
}

fn seen_in(alloc: Global, text: &str) -> Result<Seen, NoMemory> {
    let accepted = accepted(alloc, text)?;
    seen_of(alloc, &accepted)
}

#[test]
fn graphs_walk_as_programs_run(rt: HostRuntime) -> Result<(), Fail> {
    let alloc = rt.alloc();
    for (text, blocks) in PROGRAMS {
        let seen = seen_in(alloc, text)?;
        assert!(rt; seen.blocks == *blocks, "{text}");
        assert!(rt; seen.lowered, "{text}, lowered");
        assert!(rt; seen.joined, "{text}, joined");
        assert!(rt; seen.spelled, "{text}, spelled");
    }
    Ok(())
}

// Programs, and how many waves their graphs have: one for each procedure, header and return block.
const WAVES: &[(&str, u32)] = &[
    (
        "proc main() { if (0) { print 1; } else { print 2; } print 3; }",
        1,
    ),
    ("proc main() { while (0) { } }", 2),
    ("proc f() { } proc main() { f(); print 1; f(); }", 4),
];

fn waves(alloc: Global, text: &str) -> Result<u32, NoMemory> {
    let accepted = accepted(alloc, text)?;
    let graph = lower(alloc, &accepted)?;
    Ok(cut(alloc, &graph)?.count())
}

#[test]
fn graphs_are_cut_into_waves(rt: HostRuntime) -> Result<(), Fail> {
    let alloc = rt.alloc();
    for (text, count) in WAVES {
        assert_eq!(rt; waves(alloc, text)?, *count, "{text}");
    }
    Ok(())
}
