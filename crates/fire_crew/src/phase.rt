//! One phase of a run.

ghost use Rattle.std.specs.Prelude.{◌≡◌, length};
ghost use Rattle.match_table.specs.Growth.{AllGrow};
ghost use Rattle.match_table.specs.Rows.{Fits, contents};

use crate::crew::Crew;
use crate::gate::Gate;
use crate::hand::InHand;
use crate::work::Worker;
use df_core::{Code, Job, Token, TokenList};
use match_table::{Quotas, Row, Tables};
use port_set::Port;
use ready_pool::{Seat, SeatList};
use std::sync::atomic::AtomicU64;
use std::sync::{Mutex, Wait};
use std::thread;
use std::thread::Threads;
use store_buf::Buffer;

/// What a phase leaves: tables, the buffer, and whether memory ran out.
#[derive(Drop)]
pub struct PhaseEnd<J: Job, P: Port> {
    pub tables: Tables<J>,
    pub buffer: Buffer<J, P>,
    pub starved: bool,
}

impl<'a, G: Gate, R: Threads + Wait + Sync> Crew<'a, G, R> {
    /// A worker for each seat, until none finds a token. Each table keeps within its limit and loses
    /// nothing. Where no thread can be started the caller's does all.
    pub fn phase<J: Job + Send + Sync, Q: Quotas + Send + Sync, P: Port + Send>(
        &self,
        code: &Code<'_, J>,
        tables: Tables<J>,
        buffer: Buffer<J, P>,
        limits: &[usize],
        deal: SeatList<Token<J>>,
    ) -> PhaseEnd<J, P>
        requires limits { (limits.now ≡ Q.most) × (length limits.now ≡ 16) }
        requires fits { Fits tables limits.now }
        requires began { contents tables ≡ Q.began }
        ensures fits { Fits result.tables limits.now }
        ensures grow { AllGrow (contents tables) (contents result.tables) }
    {
        let rt = self.rt;
        let alloc = self.alloc;
        let gate = self.gate;
        let row: Row<J, Q> = match Row::new(alloc, tables, limits) {
            Ok(row) => row,
            Err(tables) => return starved_phase(tables, buffer),
        };
        let lock = Mutex::new(buffer);
        let shared = &row;
        let behind = &lock;
        let at_work = AtomicU64::new(deal.len() as u64);
        let counted = &at_work;
        let back = thread::map_vec(
            rt,
            deal,
            &|seat: Seat<Token<J>>| -> bool {
                let worker = Worker {
                    rt,
                    seat,
                    hand: InHand::empty(alloc),
                    let_go: TokenList::empty(alloc),
                    row: shared,
                    buffer: behind,
                    code,
                    gate,
                };
                worker.work(counted)
            },
        );
        let starved = match back {
            Ok(all) => all.contains(&true),
            Err(_) => true,
        };
        PhaseEnd {
            tables: row.gather(),
            buffer: lock.into_inner(),
            starved,
        }
    }
}

// Memory ran out before a worker could run.
pub(crate) fn starved_phase<J: Job, P: Port>(
    tables: Tables<J>,
    buffer: Buffer<J, P>,
) -> PhaseEnd<J, P>
    ensures { result.tables ≡ tables }
{
    PhaseEnd {
        tables,
        buffer,
        starved: true,
    }
}
