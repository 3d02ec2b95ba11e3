//! The blocks and procedures of a graph by number.

ghost use Rattle.std.specs.Prelude.{◌≡◌, ◌<◌, ◌++◌, map, length, IfOk, OnOk, MatchOption};
ghost use Rattle.cfg_core.specs.Graph.{no_spot, spots, spot_at, proc_at, entry_of};
ghost use Rattle.cfg_core.specs.View as view;
ghost use Rattle.cfg_core.specs.Listed.{ListsSpots, ListsRooms, lists_spots-prop, spot_in_code};

use crate::blocks::{Graph, GraphBlock, GraphProc};
use std::alloc::Global;
use ws_words::NoMemory;

/// A block, and how many variables its procedure has.
#[derive(Clone, Copy)]
pub struct Spot<'a> {
    pub block: &'a GraphBlock,
    pub vars: u32,
}

/// The first block of a procedure, and its counts of parameters and variables.
#[derive(Clone, Copy)]
pub struct Room {
    pub entry: usize,
    pub params: u32,
    pub vars: u32,
}

/// A graph, with its blocks and its procedures in order.
#[derive(Drop)]
pub struct GraphTable<'a> {
    graph: &'a Graph,
    spots: Vec<Spot<'a>>,
    rooms: Vec<Room>,
    ghost spots_listed: { ListsSpots graph.now spots.items } by { lists_spots-prop graph.now spots.items },
    ghost rooms_listed: { ListsRooms graph.now rooms.items },
}

impl<'a> GraphTable<'a> {
    ghost use Rattle.cfg_core.specs.Shows.{SpotIs};
    ghost use Rattle.cfg_core.specs.Tables.{graph_in};

    /// The table of a graph.
    pub fn of(alloc: Global, graph: &'a Graph) -> Result<GraphTable<'a>, NoMemory>
        ensures { IfOk result (λ table. graph_in table ≡ graph.now) }
    {
        let mut spots = Vec::new(alloc);
        let mut rooms = Vec::new(alloc);
        for proc in &graph.procs {
            rooms.push(Room {
                entry: spots.len(),
                params: proc.params,
                vars: proc.vars,
            })?;
            add_blocks(&mut spots, proc)?;
        }
        Ok(GraphTable {
            graph,
            spots,
            rooms,
        })
    }

    /// The graph itself.
    pub fn graph(&self) -> &'a Graph
        ensures { result.now ≡ graph_in self.now }
    {
        self.graph
    }

    /// How many blocks there are.
    pub fn block_count(&self) -> usize
        ensures { result ≡ length (spots (view.graph (graph_in self.now))) }
    {
        self.spots.len()
    }

    /// How many procedures there are.
    pub fn proc_count(&self) -> usize
        ensures { result ≡ length (view.graph (graph_in self.now)).procs }
    {
        self.rooms.len()
    }

    /// The block with this number, which is there.
    pub fn spot_there(&self, b: usize) -> Spot<'a>
        requires { b < length (spots (view.graph (graph_in self.now))) }
        ensures { SpotIs (spot_at (view.graph (graph_in self.now)) b) result }
    {
        self.spots[b]
    }

    /// The block with this number.
    pub fn spot(&self, b: usize) -> Option<Spot<'a>>
        ensures { let spot = spot_at (view.graph (graph_in self.now)) b in
            MatchOption result (spot ≡ no_spot) (SpotIs spot) }
    {
        match self.spots.get(b) {
            Some(spot) => Some(*spot),
            None => None,
        }
    }

    /// The procedure with this number; out of bounds, one without blocks and variables.
    pub fn room(&self, f: usize) -> Room
        ensures entry { result.entry ≡ entry_of (view.graph (graph_in self.now)) f }
        ensures params { result.params ≡ (proc_at (view.graph (graph_in self.now)) f).params }
        ensures vars { result.vars ≡ (proc_at (view.graph (graph_in self.now)) f).vars }
    {
        match self.rooms.get(f) {
            Some(room) => *room,
            None => Room {
                entry: 0,
                params: 0,
                vars: 0,
            },
        }
    }
}

// The blocks of a procedure, after those of the earlier ones.
fn add_blocks<'a>(spots: &mut Vec<Spot<'a>>, proc: &'a GraphProc) -> Result<(), NoMemory>
    ensures { let blocks = map (λ b. (proc.now.vars, view.block b)) proc.now.blocks.items in
        let before = map spot_in_code spots.old.items in
        OnOk result (map spot_in_code spots.new.items ≡ before ++ blocks) }
{
    for block in &proc.blocks {
        spots.push(Spot {
            block,
            vars: proc.vars,
        })?;
    }
    Ok(())
}
