//! The plans of a graph.

ghost use Rattle.std.specs.Prelude.{◌≡◌, ◌<◌, ◌∷◌, ◌++◌, ◌||◌, not, cond, eqb, [], suc, length, map, IfOk};
ghost use Rattle.std.specs.Prelude.{OnOk};
ghost use Rattle.cfg_core.specs.Tables.{graph_in};
ghost use Rattle.cfg_core.specs.Graph.{spots};
ghost use Rattle.cfg_core.specs.View as view;
ghost use Rattle.live_vars.specs.Marks.{has};
ghost use Rattle.wave_cut.specs.Cut.{is_first};
ghost use Rattle.wave_gen.specs.Plans.{pulse};
ghost use Rattle.wave_gen.specs.Gen.{gen_ops};
ghost use Rattle.wave_gen.specs.Drawn.{exit_next};
ghost use Rattle.wave_gen.specs.Shared.{shared, none_known};
ghost use Rattle.wave_gen.specs.Listing as listing;
ghost use Rattle.wave_gen.specs.Listing.{gen_exit, plan_of, plans_of, place_of, width_of};
ghost use Rattle.wave_gen.specs.Words.{live_from};
ghost use Rattle.wave_gen.specs.View as plans;
ghost use Rattle.wave_gen.specs.Placed.{OutlineIs, place};
ghost use Rattle.ws_words.specs.Items.{flag_at};

use crate::body::{Body, names};
use crate::marks::{arms, landed, width};
use crate::order::{Order, turned};
use crate::plan::{HowLeft, Items, Names, Plan, Plans};
use crate::share::share_constants;
use crate::values::{PULSE, name_of};
use cfg_core::{Graph, GraphBlock, GraphTable};
use live_vars::LiveSets;
use std::alloc::Global;
use wave_cut::Waves;
use ws_words::NoMemory;

/// What the plans of a graph are made from: its blocks, the order in which they stand in the draft,
/// for each whether it is an arm of a branch and whether a Send lands there, where the walk starts,
/// and how many names there are for the pulse and the variables.
#[derive(Drop)]
pub(crate) struct PlanGround<'a> {
    pub(crate) table: GraphTable<'a>,
    pub(crate) live: &'a LiveSets,
    pub(crate) waves: &'a Waves,
    pub(crate) order: Order,
    pub(crate) arms: Vec<bool>,
    pub(crate) landed: Vec<bool>,
    pub(crate) start: u32,
    pub(crate) width: usize,
}

fn small(count: usize) -> Result<u32, NoMemory>
    ensures { IfOk result (λ made. made ≡ count) }
{
    if count <= u32::MAX as usize {
        Ok(count as u32)
    } else {
        Err(NoMemory)
    }
}

impl<'a> PlanGround<'a> {
    /// The outline of a graph. More blocks than 32 bits count give `NoMemory`.
    pub(crate) fn of(
        alloc: Global,
        graph: &'a Graph,
        live: &'a LiveSets,
        waves: &'a Waves,
    ) -> Result<PlanGround<'a>, NoMemory>
        ensures graph { IfOk result (λ made. graph_in made.table ≡ graph.now) }
        ensures live { IfOk result (λ made. made.live.now ≡ live.now) }
        ensures waves { IfOk result (λ made. made.waves.now ≡ waves.now) }
        ensures outline { IfOk result (λ made. OutlineIs made) }
    {
        let table = GraphTable::of(alloc, graph)?;
        let start = small(table.room(graph.procs.len().saturating_sub(1)).entry)?;
        let count = small(table.block_count())?;
        let order = Order::of(alloc, &table, waves, start, count)?;
        let arms = arms(alloc, &table)?;
        let landed = landed(alloc, &table)?;
        let width = width(&table);
        Ok(PlanGround {
            table,
            live,
            waves,
            order,
            arms,
            landed,
            start,
            width,
        })
    }

    // The names that a block needs if it is the first one of its wave, where its procedure has so
    // many variables.
    fn entries(&self, alloc: Global, b: u32, vars: u32) -> Result<Names, NoMemory>
        ensures { IfOk result (λ made. made.items ≡ cond (is_first self.now.waves.now b)
            (pulse ∷ live_from (has self.now.live.now b) 0 vars) []) }
    {
        if !self.waves.first(b) {
            return Ok(Vec::new(alloc));
        }
        let mut list = names(alloc, &[PULSE])?;
        for x in 0..vars {
            add_if(&mut list, self.live.has(b, x), x)?;
        }
        Ok(list)
    }

    // The names that are filled where the walk starts or a Send lands.
    fn pads(&self, alloc: Global, b: u32, named: &[u32]) -> Result<Names, NoMemory>
        ensures { IfOk result (λ made. made.items ≡
            cond (eqb b self.now.start || flag_at self.now.landed.items b)
            (pulse ∷ map suc named.now) []) }
    {
        if b != self.start && !is_set(&self.landed, b) {
            return Ok(Vec::new(alloc));
        }
        let mut list = names(alloc, &[PULSE])?;
        for x in named {
            list.push(name_of(*x))?;
        }
        Ok(list)
    }

    // Whether a block is neither the first one of its wave nor an arm.
    fn is_joined(&self, b: u32) -> bool
        ensures { result ≡ not (is_first self.now.waves.now b || flag_at self.now.arms.items b) }
    {
        !self.waves.first(b) && !is_set(&self.arms, b)
    }

    // The plan of a block that is there.
    fn plan(&self, alloc: Global, b: u32) -> Result<Plan, NoMemory>
        requires outline { OutlineIs self.now }
        requires there { b < length (spots (view.graph (graph_in self.now.table))) }
        ensures { let g = view.graph (graph_in self.now.table) in IfOk result (λ made.
            plans.plan made ≡ plan_of g (has self.now.live.now)
            (listing.turned g self.now.waves.now) (is_first self.now.waves.now)
            (place_of g self.now.waves.now) (width_of g) b) }
    {
        let spot = self.table.spot_there(b as usize);
        let code = code_of(alloc, &self.order, self.width, spot.block)?;
        Ok(Plan {
            wave: turned(self.waves, self.start, b),
            first: self.waves.first(b),
            joined: self.is_joined(b),
            entries: self.entries(alloc, b, spot.vars)?,
            pads: self.pads(alloc, b, &spot.block.named)?,
            items: code.items,
            exit: code.exit,
            test: code.next,
        })
    }

    /// The plans of all blocks, in the draft's order.
    pub(crate) fn plans(&self, alloc: Global) -> Result<Plans, NoMemory>
        requires { OutlineIs self.now }
        ensures { let g = view.graph (graph_in self.now.table) in IfOk result (λ made.
            map plans.plan made.items ≡ plans_of g (has self.now.live.now) self.now.waves.now) }
    {
        let mut list = Vec::new(alloc);
        for b in &self.order.blocks {
            list.push(self.plan(alloc, *b)?)?;
        }
        Ok(list)
    }
}

// The items of a block, how it is left, and the next free name.
#[derive(Drop)]
struct BlockCode {
    items: Items,
    exit: HowLeft,
    next: usize,
}

// The code of a block, where names from `width` on are free.
fn code_of(
    alloc: Global,
    order: &Order,
    width: usize,
    block: &GraphBlock,
) -> Result<BlockCode, NoMemory>
    ensures items { let block = view.block block.now in let d = gen_ops width block.ops in
        IfOk result (λ made. map plans.item made.items.items ≡ shared none_known
        (d.items ++ (gen_exit (place order.now) d.next block.exit).items)) }
    ensures exit { let block = view.block block.now in let d = gen_ops width block.ops in
        IfOk result (λ made. plans.leaves made.exit ≡
        (gen_exit (place order.now) d.next block.exit).exit) }
    ensures next { let block = view.block block.now in let d = gen_ops width block.ops in
        IfOk result (λ made. made.next ≡ exit_next d.next block.exit) }
{
    let mut body = Body {
        items: Vec::new(alloc),
        next: width,
    };
    body.ops(alloc, &block.ops)?;
    let exit = body.exit(alloc, order, &block.exit)?;
    Ok(BlockCode {
        items: share_constants(alloc, body.items)?,
        exit,
        next: body.next,
    })
}

fn is_set(flags: &[bool], b: u32) -> bool
    ensures { result ≡ flag_at flags.now b }
{
    flags.get(b as usize).copied().unwrap_or(false)
}

fn add_if(list: &mut Names, hit: bool, x: u32) -> Result<(), NoMemory>
    ensures { OnOk result (list.new.items ≡ list.old.items ++ cond hit (suc x ∷ []) []) }
{
    if hit {
        list.push(name_of(x))?;
    }
    Ok(())
}
