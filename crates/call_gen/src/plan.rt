//! Where the blocks and hidden cells of the spelled graph stand.

ghost use Rattle.std.specs.Prelude.{◌≡◌, ◌+◌, ◌<◌, IsTrue, length, ◌++◌, ◌∷◌, [], if◌then◌else◌, false, IfOk};
ghost use Rattle.std.specs.Prelude.{OnOk};
ghost use Rattle.cfg_core.specs.Tables.{graph_in};
ghost use Rattle.cfg_core.specs.Graph.{spots};
ghost use Rattle.cfg_core.specs.Rules.{IsGraph};
ghost use Rattle.cfg_core.specs.View as view;
ghost use Rattle.call_gen.specs.Spelled.{is_called, moved, door, landings, address, first_cell, cell};
ghost use Rattle.call_gen.specs.Spelled.{array_of, index_of};
ghost use Rattle.call_gen.specs.Plans.{Few, PlanIs};

use crate::counts::{calls_before, calls_to_at, is_called};
use crate::numbering::{addresses, called, cells, homes, places};
use cfg_core::{Graph, GraphTable};
use live_vars::LiveSets;
use std::alloc::Global;
use ws_words::NoMemory;

/// Hidden cells lie in at most so many arrays.
pub(crate) const HIDDEN_ARRAYS: u64 = 192;

// A graph has fewer blocks, procedures and arrays, so that the spelled one's have 32 bits.
const MOST: usize = 1 << 30;

/// What the spelled graph's numbers are made from: for each block its procedure, its new number and
/// the place of its call, for each procedure whether it is called and the number of its first hidden cell.
#[derive(Drop)]
pub(crate) struct CallPlan<'a> {
    pub(crate) table: GraphTable<'a>,
    pub(crate) live: &'a LiveSets,
    pub(crate) homes: Vec<u32>,
    pub(crate) places: Vec<u32>,
    pub(crate) addresses: Vec<u32>,
    pub(crate) called: Vec<bool>,
    pub(crate) cells: Vec<u64>,
    pub(crate) total: u64,
}

/// A hidden cell: its array and the index there.
#[derive(Clone, Copy)]
pub(crate) struct CellPlace {
    pub(crate) array: u32,
    pub(crate) index: u64,
}

fn is_few(table: &GraphTable<'_>) -> bool
    ensures { IsTrue result → Few (view.graph (graph_in table.now)) }
{
    if table.block_count() >= MOST {
        return false;
    }
    if table.proc_count() >= MOST {
        return false;
    }
    table.graph().arrays.len() < MOST
}

impl<'a> CallPlan<'a> {
    /// The plan of a graph. More than a billion blocks, procedures or arrays, or more hidden cells
    /// than 32 bits count, give `NoMemory`.
    pub(crate) fn of(
        alloc: Global,
        graph: &'a Graph,
        live: &'a LiveSets,
    ) -> Result<CallPlan<'a>, NoMemory>
        ensures graph { IfOk result (λ plan. graph_in plan.table ≡ graph.now) }
        ensures live { IfOk result (λ plan. plan.live.now ≡ live.now) }
        ensures plan { IfOk result (λ plan. PlanIs plan) }
    {
        let table = GraphTable::of(alloc, graph)?;
        if !is_few(&table) {
            return Err(NoMemory);
        }
        let homes = homes(alloc, graph)?;
        let places = places(alloc, &table, &homes)?;
        let addresses = addresses(alloc, &table)?;
        let called = called(alloc, &table)?;
        let (cells, total) = cells(alloc, &table, &homes)?;
        Ok(CallPlan {
            table,
            live,
            homes,
            places,
            addresses,
            called,
            cells,
            total,
        })
    }

    /// The new number of a block.
    pub(crate) fn place(&self, b: u32) -> u32
        requires plan { PlanIs self.now }
        requires there { b < length (spots (view.graph (graph_in self.now.table))) }
        ensures { result ≡ moved (view.graph (graph_in self.now.table)) b }
    {
        self.places.get(b as usize).copied().unwrap_or(0)
    }

    /// The number of a procedure's entry block.
    pub(crate) fn door(&self, f: u32) -> u32
        requires plan { PlanIs self.now }
        requires rules { IsGraph (view.graph (graph_in self.now.table)) }
        requires there { f < length (view.graph (graph_in self.now.table)).procs }
        ensures { result ≡ door (view.graph (graph_in self.now.table)) f }
    {
        let entry = self.table.room(f as usize).entry;
        self.place(entry as u32) - 1
    }

    /// Whether a procedure is called.
    pub(crate) fn is_called(&self, f: u32) -> bool
        requires plan { PlanIs self.now }
        requires there { f < length (view.graph (graph_in self.now.table)).procs }
        ensures { result ≡ is_called (view.graph (graph_in self.now.table)) f }
    {
        self.called.get(f as usize).copied().unwrap_or(false)
    }

    /// How many of the blocks before this one call the procedure: the return address, where this one
    /// does too.
    pub(crate) fn address(&self, b: u32, f: u32) -> u32
        requires plan { PlanIs self.now }
        requires block { b < length (spots (view.graph (graph_in self.now.table))) }
        requires there { f < length (view.graph (graph_in self.now.table)).procs }
        ensures { result ≡ address (view.graph (graph_in self.now.table)) f b }
    {
        if calls_to_at(&self.table, b as usize, f) {
            self.addresses.get(b as usize).copied().unwrap_or(0)
        } else {
            calls_before(&self.table, b as usize, f) as u32
        }
    }

    fn first_cell(&self, home: u32) -> u64
        requires plan { PlanIs self.now }
        requires there { home < length (view.graph (graph_in self.now.table)).procs }
        ensures { result ≡ first_cell (view.graph (graph_in self.now.table)) home }
    {
        self.cells.get(home as usize).copied().unwrap_or(0)
    }

    /// The hidden cell of a variable.
    pub(crate) fn cell(&self, home: u32, x: u32) -> CellPlace
        requires plan { PlanIs self.now }
        requires there { home < length (view.graph (graph_in self.now.table)).procs }
        ensures array { result.array ≡ array_of (view.graph (graph_in self.now.table))
            (cell (view.graph (graph_in self.now.table)) home x) }
        ensures index { result.index ≡ index_of (cell (view.graph (graph_in self.now.table)) home
            x) }
    {
        let number = self.first_cell(home) + u64::from(x);
        CellPlace {
            array: self.table.graph().arrays.len() as u32 + (number % HIDDEN_ARRAYS) as u32 + 1,
            index: number / HIDDEN_ARRAYS,
        }
    }

    /// The return blocks of a procedure's calls, in order.
    pub(crate) fn landings(&self, alloc: Global, f: u32) -> Result<Vec<u32>, NoMemory>
        requires { PlanIs self.now }
        ensures { IfOk result (λ points. points.items ≡
            landings (view.graph (graph_in self.now.table)) f) }
    {
        let mut points = Vec::new(alloc);
        for (b, place) in self.places.iter().enumerate() {
            let hit = calls_to_at(&self.table, b, f);
            push_if(&mut points, hit, *place + 1)?;
        }
        Ok(points)
    }
}

/// Puts a number at the end where the test holds.
pub(crate) fn push_if(points: &mut Vec<u32>, hit: bool, point: u32) -> Result<(), NoMemory>
    ensures { OnOk result (points.new.items ≡
        (if hit then points.old.items ++ point ∷ [] else points.old.items)) }
{
    if hit {
        points.push(point)?;
    }
    Ok(())
}
