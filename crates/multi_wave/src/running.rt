//! Phase after phase of several threads.

ghost use Rattle.std.specs.Prelude.{ℕ, ◌≡◌, ◌≤◌, ◌+◌, ◌*◌, true, false};
ghost use Rattle.multi_wave.specs.Fours.{EachIs, EachTo};
ghost use Rattle.multi_wave.specs.Parts.{CostsAtMost};
ghost use Rattle.multi_wave.specs.Stands.{IsOver, IsJudgedOf, StaysAs};

use crate::crew::ThreadCrew;
use crate::each::{Each, First, Fourth, Second, Third};
use crate::jobs::FourParts;
use crate::lane::Lane;
use crate::part::ThreadGate;
use port_set::Port;
use std::alloc::Global;
use std::sync::Wait;
use std::thread::Threads;

/// Four threads between two phases.
pub type AllLanes<'i, M, P> = Each<
    Lane<'i, First<M>, P>,
    Lane<'i, Second<M>, P>,
    Lane<'i, Third<M>, P>,
    Lane<'i, Fourth<M>, P>,
>;

/// Where a run of several threads has ended, and after how many phases.
#[derive(Drop)]
pub struct MultiLeft<'i, M: FourParts, P: Port> {
    pub lanes: AllLanes<'i, M, P>,
    pub phases: u64,
}

impl<'a, G: ThreadGate, R: Threads + Wait + Sync> ThreadCrew<'a, G, R> {
    /// Runs phase after phase until every thread has ended. In each phase each thread that goes on has had a
    /// token that it had not, so where each walk has at most n instances there are at most 3 n + 1 phases.
    pub fn run_on<'i, M: FourParts + Send + Sync, P: Port + Send>(
        &self,
        lanes: AllLanes<'i, M, P>,
    ) -> MultiLeft<'i, M, P>
        ensures over { EachIs IsOver result.lanes }
        ensures few { (cost : ℕ) → EachIs (CostsAtMost cost) M.parts → result.phases ≤ 3 * cost + 1 }
    {
        let mut lanes = lanes;
        for phases in 0..u64::MAX {
            lanes = settle_all(self.alloc, lanes);
            if !any_going(&lanes) {
                return MultiLeft { lanes, phases };
            }
            lanes = self.round(lanes);
        }

        // So many tokens take more memory than there is.
        MultiLeft {
            lanes: give_up_all(lanes),
            phases: u64::MAX,
        }
    }
}

// Each thread goes on with the tokens that it has still to bring, or it has ended.
fn settle_all<'i, M: FourParts, P: Port>(
    alloc: Global,
    lanes: AllLanes<'i, M, P>,
) -> AllLanes<'i, M, P>
    ensures same { EachTo StaysAs lanes.entry result }
    ensures settled { EachTo IsJudgedOf M.parts result }
{
    Each {
        first: lanes.first.settle(alloc),
        second: lanes.second.settle(alloc),
        third: lanes.third.settle(alloc),
        fourth: lanes.fourth.settle(alloc),
    }
}

// Whether a thread goes on.
fn any_going<M: FourParts, P: Port>(lanes: &AllLanes<'_, M, P>) -> bool
    ensures over { result ≡ false → EachIs IsOver lanes.now }
    ensures some { result ≡ true → ¬ EachIs IsOver lanes.now }
{
    lanes.first.is_going()
        || lanes.second.is_going()
        || lanes.third.is_going()
        || lanes.fourth.is_going()
}

/// No thread goes on, since memory ran out.
pub fn give_up_all<'i, M: FourParts, P: Port>(lanes: AllLanes<'i, M, P>) -> AllLanes<'i, M, P>
    ensures over { EachIs IsOver result }
    ensures same { EachTo StaysAs lanes.entry result }
{
    Each {
        first: lanes.first.give_up(),
        second: lanes.second.give_up(),
        third: lanes.third.give_up(),
        fourth: lanes.fourth.give_up(),
    }
}
