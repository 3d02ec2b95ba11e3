//! The part of a graph that a walk can reach.

ghost use Rattle.std.specs.Prelude.{◌≡◌, ◌+◌, ◌++◌, ◌∷◌, [], ◌<◌, ◌≤◌, map, length, if◌then◌else◌, IfOk};
ghost use Rattle.std.specs.Prelude.{OnOk};
ghost use Rattle.cfg_core.specs.Tables.{graph_in};
ghost use Rattle.cfg_core.specs.Graph.{spots};
ghost use Rattle.cfg_core.specs.Rules.{IsGraph};
ghost use Rattle.cfg_core.specs.Shape.{IsShaped, ArmsAlone};
ghost use Rattle.cfg_core.specs.Shown.{SameWalks, SameArrays};
ghost use Rattle.cfg_core.specs.View as view;
ghost use Rattle.call_gen.specs.Keeps.{HasNoSend};
ghost use Rattle.call_gen.specs.Reached.{AllReached};
ghost use Rattle.call_gen.specs.Sizes.{Sizes, KeepsSizes};
ghost use Rattle.call_gen.specs.Charged.{ReachedInPlace};
ghost use Rattle.call_gen.specs.Part.{PartIs, ExitThere, BlocksThere, before, number, name, part_block};
ghost use Rattle.call_gen.specs.Part.{part_blocks, part_proc, part_procs, part};
ghost use Rattle.ws_words.specs.Items.{flag_at};

use crate::find::find;
use crate::part_numbers::{flag, number_at, numbers, places};
use cfg_core::{
    Graph, GraphBlock, GraphBlocks, GraphProc, GraphProcs, GraphTable, Leave, copy_arrays,
    copy_numbers, copy_ops, copy_term, copy_terms,
};
use std::alloc::Global;
use ws_words::NoMemory;

/// Which blocks of a graph are kept, and the new numbers of blocks and procedures.
#[derive(Drop)]
pub(crate) struct Part<'a> {
    pub(crate) table: GraphTable<'a>,
    pub(crate) flags: Vec<bool>,
    pub(crate) places: Vec<usize>,
    pub(crate) numbers: Vec<usize>,
}

impl<'a> Part<'a> {
    // The new number of a block.
    fn place(&self, b: u32) -> u32
        requires part { PartIs self.now }
        requires there { b < length (spots (view.graph (graph_in self.now.table))) }
        ensures { result ≡ before (flag_at self.now.flags.items) b }
    {
        number_at(&self.places, b as usize) as u32
    }

    // The new number of a procedure.
    fn number(&self, f: u32) -> u32
        requires part { PartIs self.now }
        requires there { f < length (view.graph (graph_in self.now.table)).procs }
        ensures { result ≡ number (view.graph (graph_in self.now.table))
            (flag_at self.now.flags.items) f }
    {
        number_at(&self.numbers, f as usize) as u32
    }

    // An exit with the new numbers.
    fn exit(&self, alloc: Global, exit: &Leave) -> Result<Leave, NoMemory>
        requires part { PartIs self.now }
        requires there { ExitThere (view.graph (graph_in self.now.table)) (view.exit exit.now) }
        ensures { IfOk result (λ made. view.exit made ≡
            name (view.graph (graph_in self.now.table)) (flag_at self.now.flags.items)
            (view.exit exit.now)) }
    {
        match exit {
            Leave::Goto(c) => Ok(Leave::Goto(self.place(*c))),
            Leave::Branch(test, c, d) => {
                let test = copy_term(alloc, test)?;
                Ok(Leave::Branch(test, self.place(*c), self.place(*d)))
            }
            Leave::Call {
                result,
                callee,
                values,
                back,
            } => Ok(Leave::Call {
                result: *result,
                callee: self.number(*callee),
                values: copy_terms(alloc, values)?,
                back: self.place(*back),
            }),
            Leave::Return(t) => Ok(Leave::Return(copy_term(alloc, t)?)),
            Leave::Send { .. } => Ok(Leave::Stop),
            Leave::Stop => Ok(Leave::Stop),
        }
    }

    fn block(&self, alloc: Global, block: &GraphBlock) -> Result<GraphBlock, NoMemory>
        requires part { PartIs self.now }
        requires there { ExitThere (view.graph (graph_in self.now.table))
            (view.block block.now).exit }
        ensures { IfOk result (λ made. view.block made ≡
            part_block (name (view.graph (graph_in self.now.table))
            (flag_at self.now.flags.items)) (view.block block.now)) }
    {
        let named = copy_numbers(alloc, &block.named)?;
        let ops = copy_ops(alloc, &block.ops)?;
        let exit = self.exit(alloc, &block.exit)?;
        Ok(GraphBlock { named, ops, exit })
    }

    // Puts block b after others, if it is kept.
    fn add_block(
        &self,
        alloc: Global,
        blocks: &mut GraphBlocks,
        b: usize,
        block: &GraphBlock,
    ) -> Result<(), NoMemory>
        requires part { PartIs self.now }
        requires there { ExitThere (view.graph (graph_in self.now.table))
            (view.block block.now).exit }
        ensures { let keep = flag_at self.now.flags.items in
            let name = name (view.graph (graph_in self.now.table)) keep in
            OnOk result (map view.block blocks.new.items ≡ (if keep b
            then map view.block blocks.old.items ++ part_block name (view.block block.now) ∷ []
            else map view.block blocks.old.items)) }
    {
        if flag(&self.flags, b) {
            blocks.push(self.block(alloc, block)?)?;
        }
        Ok(())
    }

    // The blocks of a procedure that are kept, where its first block has this number.
    fn blocks(
        &self,
        alloc: Global,
        first: usize,
        blocks: &[GraphBlock],
    ) -> Result<GraphBlocks, NoMemory>
        requires part { PartIs self.now }
        requires count { first + length blocks.now ≤ length self.now.flags.items }
        requires there { BlocksThere (view.graph (graph_in self.now.table))
            (map view.block blocks.now) }
        ensures { let keep = flag_at self.now.flags.items in
            let name = name (view.graph (graph_in self.now.table)) keep in
            IfOk result (λ made. map view.block made.items ≡
            part_blocks keep name first (map view.block blocks.now)) }
    {
        let mut made = Vec::new(alloc);
        for (i, block) in blocks.iter().enumerate() {
            self.add_block(alloc, &mut made, first + i, block)?;
        }
        Ok(made)
    }

    // Puts a procedure after others, if it is kept. Its first block has this number.
    fn add_proc(
        &self,
        alloc: Global,
        procs: &mut GraphProcs,
        first: usize,
        proc: &GraphProc,
    ) -> Result<(), NoMemory>
        requires part { PartIs self.now }
        requires count { first + length proc.now.blocks.items ≤ length self.now.flags.items }
        requires there { BlocksThere (view.graph (graph_in self.now.table))
            (map view.block proc.now.blocks.items) }
        ensures { let keep = flag_at self.now.flags.items in
            let name = name (view.graph (graph_in self.now.table)) keep in
            OnOk result (map view.proc procs.new.items ≡ (if keep first
            then map view.proc procs.old.items ++
            part_proc keep name first (view.proc proc.now) ∷ []
            else map view.proc procs.old.items)) }
    {
        if flag(&self.flags, first) {
            let blocks = self.blocks(alloc, first, &proc.blocks)?;
            procs.push(GraphProc {
                params: proc.params,
                vars: proc.vars,
                blocks,
            })?;
        }
        Ok(())
    }

    fn procs(&self, alloc: Global) -> Result<GraphProcs, NoMemory>
        requires part { PartIs self.now }
        requires rules { IsGraph (view.graph (graph_in self.now.table)) }
        ensures { let keep = flag_at self.now.flags.items in
            let g = view.graph (graph_in self.now.table) in
            IfOk result (λ made. map view.proc made.items ≡
            part_procs keep (name g keep) 0 g.procs) }
    {
        let mut procs = Vec::new(alloc);
        let mut first = 0;
        for proc in &self.table.graph().procs {
            self.add_proc(alloc, &mut procs, first, proc)?;
            first += proc.blocks.len();
        }
        Ok(procs)
    }

    fn graph(&self, alloc: Global) -> Result<Graph, NoMemory>
        requires part { PartIs self.now }
        requires rules { IsGraph (view.graph (graph_in self.now.table)) }
        ensures { IfOk result (λ made. view.graph made ≡
            part (view.graph (graph_in self.now.table)) (flag_at self.now.flags.items)) }
    {
        let arrays = copy_arrays(alloc, &self.table.graph().arrays)?;
        let procs = self.procs(alloc)?;
        Ok(Graph { arrays, procs })
    }
}

/// The part of a graph that its walk can reach: the blocks to which edges and calls lead from
/// main's first block, and the procedures that have such a block, in the same order.
pub fn reached(alloc: Global, graph: &Graph) -> Result<Graph, NoMemory>
    requires rules { IsGraph (view.graph graph.now) }
    requires no_send { HasNoSend (view.graph graph.now) }

    // the walk is the same, with the same acts and turns, and so are the arrays
    ensures walks { IfOk result (λ made. SameWalks (view.graph graph.now) (view.graph made)) }
    ensures arrays { IfOk result (λ made. SameArrays (view.graph graph.now) (view.graph made)) }

    // nothing else is left
    ensures all { IfOk result (λ made. AllReached (view.graph made)) }

    // what later passes rest on
    ensures rules { IfOk result (λ made. IsGraph (view.graph made)) }
    ensures no_send { IfOk result (λ made. HasNoSend (view.graph made)) }
    ensures shape { IfOk result (λ made. IsShaped (view.graph graph.now) →
        IsShaped (view.graph made)) }
    ensures arms { IfOk result (λ made. ArmsAlone (view.graph graph.now) →
        ArmsAlone (view.graph made)) }
    ensures sizes { IfOk result (λ made. (z : Sizes) → KeepsSizes z (view.graph graph.now) →
        KeepsSizes z (view.graph made)) }

    // the blocks that are reached pay for what walks pass here
    ensures places { IfOk result (λ made. ReachedInPlace (view.graph graph.now)
        (view.graph made)) }
{
    let table = GraphTable::of(alloc, graph)?;
    let flags = find(alloc, &table)?;
    let places = places(alloc, &flags)?;
    let numbers = numbers(alloc, &table, &flags)?;
    let part = Part {
        table,
        flags,
        places,
        numbers,
    };
    let made = part.graph(alloc)?;
    Ok(made)
}
