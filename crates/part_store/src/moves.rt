//! What the chain and the rules let proceed.

ghost use Rattle.std.specs.Prelude.{◌≡◌, ◌<◌, ◌*◌, ◌⊎◌, true, false, Some, None, length};
ghost use Rattle.std.specs.Prelude.{slice_set, IfErr, OnOk, OnErr, MatchOption};
ghost use Rattle.smallvec.specs.SmallVec.{HasRoomFor};
ghost use Rattle.ws_isa.specs.Formed.{Formed};
ghost use Rattle.df_core.specs.Core.{has};
ghost use Rattle.df_core.specs.Chains.{PassedOn, chain_of};
ghost use Rattle.df_core.specs.Places.{image_of};
ghost use Rattle.df_core.specs.Rights.{tokens_of};
ghost use Rattle.store_buf.specs.Ordering.{MayAt, chain_in, early_of, kept_at, requests_of, waiting_of};
ghost use Rattle.store_buf.specs.Ordering.{with_near};
ghost use Rattle.store_buf.specs.Outdoors.{FaultsGrow};
ghost use Rattle.part_store.specs.Bares.{is_in};
ghost use Rattle.part_store.specs.Queues.{joined};
ghost use Rattle.part_store.specs.Parted.{is_store_op};
ghost use Rattle.part_store.specs.Contents.{holds_op};
ghost use Rattle.part_store.specs.Rules.{entry_at};
ghost use Rattle.part_store.specs.Parts.{GoesAt, MovesOn, NoneGoSo, NoneSought, PartsOk, PartsFiled};
ghost use Rattle.part_store.specs.Parts.{PartsSilentSo, PartsLeadTo, PartsSettledSo, StaysCalm, go_flag};
ghost use Rattle.part_store.specs.Parts.{left_over, rule_flag};

use crate::entry::Queued;
use crate::parts::Parts;
use crate::queues::QUEUES;
use crate::rows::{array_of, row_of};
use df_core::Program;
use port_set::Port;
use store_buf::{BufFault, Kept, PlainTokens, Silent, tell};
use ws_isa::Op;
use ws_words::NoMemory;

impl<P: Port> Parts<P> {
    // Does what the rules let, first at this place, and keeps in mind how that ends.
    pub(crate) fn settle(
        &mut self,
        program: &Program<'_>,
        first: Option<usize>,
        told: &mut PlainTokens,
    ) -> Result<(), BufFault>
        requires formed { Formed (image_of program.now) }
        requires ok { PartsOk self.old }
        requires filed { PartsFiled (image_of program.now) self.old }
        requires room { HasRoomFor told.old (8 * waiting_of self.old.order) }
        ensures ok { PartsOk self.new }
        ensures filed { PartsFiled (image_of program.now) self.new }
        ensures lead { PartsLeadTo (image_of program.now) (record self.old { starved = false }) self.new
            (tokens_of told.old.items) (tokens_of told.new.items) }
        ensures settled { PartsSettledSo (image_of program.now) self.old result self.new }
        ensures room { told.new.capacity ≡ told.old.capacity }
    {
        self.starved = false;
        match self.go_on(program, first, told) {
            Ok(()) => match self.fault {
                Some(array) => Err(BufFault::Index { array }),
                None => Ok(()),
            },
            Err(Silent::Failed { port }) => {
                self.failed = Some(port);
                Err(BufFault::Port { port })
            }
            Err(Silent::NoMemory { .. }) => {
                self.starved = true;
                Err(BufFault::NoMemory)
            }
        }
    }

    /// Lets requests and addresses proceed, first this one if it may, until none may, or the chain is
    /// stopped, or a port doesn't answer.
    pub fn go_on(
        &mut self,
        program: &Program<'_>,
        first: Option<usize>,
        told: &mut PlainTokens,
    ) -> Result<(), Silent>
        requires formed { Formed (image_of program.now) }
        requires ok { PartsOk self.old }
        requires filed { PartsFiled (image_of program.now) self.old }
        requires room { HasRoomFor told.old (8 * waiting_of self.old.order) }
        ensures ok { PartsOk self.new }
        ensures filed { PartsFiled (image_of program.now) self.new }
        ensures lead { PartsLeadTo (image_of program.now) self.old self.new
            (tokens_of told.old.items) (tokens_of told.new.items) }
        ensures none { OnOk result ((has self.new.fault ≡ true)
            ⊎ NoneGoSo (image_of program.now) self.new) }
        ensures silent { IfErr result (PartsSilentSo (image_of program.now) self.old self.new) }
        ensures going { OnErr result (self.new.fault ≡ None) }
        ensures failed { self.new.failed ≡ self.old.failed }
        ensures starved { self.new.starved ≡ self.old.starved }
        ensures same_room { told.new.capacity ≡ told.old.capacity }
    {
        let mut next = first;
        while self.fault.is_none() {
            match self.ready(program, next) {
                None => return Ok(()),
                Some(place) => self.go(program, place, told)?,
            }
            next = None;
        }
        Ok(())
    }

    // The place of a request or address that may go: this one, or the one that waits in the current
    // wave with the smallest sequence number, or a load before its turn. In a buffer of a run it is
    // None only where none may.
    fn ready(&mut self, program: &Program<'_>, this: Option<usize>) -> Option<usize>
        requires ok { PartsOk self.old }
        requires filed { PartsFiled (image_of program.now) self.old }
        ensures ok { PartsOk self.new }
        ensures filed { PartsFiled (image_of program.now) self.new }
        ensures same { self.new ≡ record self.old
            { order = with_near self.old.order self.new.order } }
        ensures goes { MatchOption result (NoneSought (image_of program.now) self.new)
            (GoesAt (image_of program.now) self.new) }
    {
        if let Some(place) = this {
            if self.may_go(program, place) {
                return Some(place);
            }
        }
        let Some(place) = self.order.first(program) else {
            return None;
        };
        if self.may_go(program, place) {
            Some(place)
        } else {
            self.order.early(program)
        }
    }

    // Whether the request or address at a place may go.
    fn may_go(&self, program: &Program<'_>, place: usize) -> bool
        requires ok { PartsOk self.now }
        requires filed { PartsFiled (image_of program.now) self.now }
        ensures yes { result ≡ true → place < length (requests_of self.now.order) }
        ensures goes { place < length (requests_of self.now.order)
            → result ≡ go_flag (image_of program.now) self.now (kept_at self.now.order place) }
    {
        match self.order.kept().get(place) {
            Some(kept) => {
                self.order.may_issue(program, place) && self.may_by_rules(program, *kept)
            }
            None => false,
        }
    }

    // Whether the rules let one proceed that the chain does: an address within its array where a queue
    // holds its cell or one is free, and a request within its array or where no queue is open.
    fn may_by_rules(&self, program: &Program<'_>, kept: Kept) -> bool
        requires ok { PartsOk self.now }
        requires filed { PartsFiled (image_of program.now) self.now }
        ensures { result ≡ rule_flag (image_of program.now) self.now kept }
    {
        let op = program.op(kept.instr);
        if self.is_alone(op, kept.wave, kept.instr) {
            !program.is_past(op, kept.first)
                && (self.queues.held < QUEUES || self.holds(op, kept.first))
        } else {
            self.queues.entries.is_empty() || !program.is_past(op, kept.first)
        }
    }

    // Whether of an instance with this operation the address alone has come; only a store's does.
    pub(crate) fn is_alone(&self, op: Op, wave: u64, instr: u32) -> bool
        requires { is_in self.now.bare wave instr ≡ true → is_store_op op ≡ true }
        ensures { result ≡ is_in self.now.bare wave instr }
    {
        match op {
            Op::Store(_) => self.bare.has(wave, instr),
            _ => false,
        }
    }

    // Whether a queue holds the cell of an operation with this index.
    fn holds(&self, op: Op, index: u64) -> bool
        requires { PartsOk self.now }
        ensures { result ≡ holds_op self.now.queues.entries.items op index }
    {
        match op {
            Op::Load(_) | Op::Store(_) => self.queues.holds(row_of(op), index),
            _ => false,
        }
    }

    /// Lets the request or address at a place proceed. If it is out of bounds the chain stops. If a
    /// port doesn't answer, the request still waits.
    pub fn go(
        &mut self,
        program: &Program<'_>,
        place: usize,
        told: &mut PlainTokens,
    ) -> Result<(), Silent>
        requires formed { Formed (image_of program.now) }
        requires ok { PartsOk self.old }
        requires filed { PartsFiled (image_of program.now) self.old }
        requires goes { GoesAt (image_of program.now) self.old place }
        requires going { self.old.fault ≡ None }
        requires room { HasRoomFor told.old (8 * waiting_of self.old.order) }
        ensures ok { PartsOk self.new }
        ensures filed { PartsFiled (image_of program.now) self.new }
        ensures leads { OnOk result (MovesOn (image_of program.now) self.old self.new
            (tokens_of told.old.items) (tokens_of told.new.items)) }
        ensures stays { OnErr result (StaysCalm (image_of program.now) self.old self.new) }
        ensures fewer { OnOk result (left_over self.new < left_over self.old) }
        ensures order { OnErr result (self.new.order ≡ self.old.order) }
        ensures fault { OnErr result (self.new.fault ≡ self.old.fault) }
        ensures untold { OnErr result (told.new.items ≡ told.old.items) }
        ensures silent { IfErr result (PartsSilentSo (image_of program.now) self.old self.new) }
        ensures counted { FaultsGrow self.old.outer.ports self.new.outer.ports }
        ensures failed { self.new.failed ≡ self.old.failed }
        ensures starved { self.new.starved ≡ self.old.starved }
        ensures room { HasRoomFor told.new (8 * waiting_of self.new.order) }
        ensures same_room { told.new.capacity ≡ told.old.capacity }
    {
        let kept = self.order.request(place);
        let op = program.op(kept.instr);
        if program.is_past(op, kept.first) {
            self.fault = Some(array_of(op));
            return Ok(());
        }
        if self.is_alone(op, kept.wave, kept.instr) || self.holds(op, kept.first) {
            self.wait_on(program, place);
            return Ok(());
        }
        let word = self.outer.run(op, kept.first, kept.second)?;
        self.order.issue(program, place, word);
        tell(told, kept.wave, program.destinations(kept.instr, 0), word);
        Ok(())
    }

    // The request or address at a place joins the queue of its cell, and counts as issued.
    fn wait_on(&mut self, program: &Program<'_>, place: usize)
        requires ok { PartsOk self.old }
        requires filed { PartsFiled (image_of program.now) self.old }
        requires may { MayAt (image_of program.now) self.old.order place }
        ensures ok { PartsOk self.new }
        ensures filed { PartsFiled (image_of program.now) self.new }
        ensures kept { requests_of self.new.order ≡ slice_set (requests_of self.old.order) place
            (record (kept_at self.old.order place) { answer = Some 0 }) }
        ensures passed { PassedOn (image_of program.now) (chain_of (chain_in self.old.order))
            (kept_at self.old.order place).instr (early_of self.old.order)
            (chain_of (chain_in self.new.order)) (early_of self.new.order) }
        ensures queued { self.new.queues.entries.items ≡ joined
            (entry_at (image_of program.now) (kept_at self.old.order place))
            self.old.queues.entries.items }
        ensures fewer { waiting_of self.new.order < waiting_of self.old.order }
        ensures bare { self.new.bare ≡ self.old.bare }
        ensures outer { self.new.outer ≡ self.old.outer }
        ensures fault { self.new.fault ≡ self.old.fault }
        ensures failed { self.new.failed ≡ self.old.failed }
        ensures starved { self.new.starved ≡ self.old.starved }
    {
        let kept = self.order.request(place);
        let entry = Queued {
            wave: kept.wave,
            instr: kept.instr,
            seq: program.note(kept.instr).seq,
            row: row_of(program.op(kept.instr)),
            index: kept.first,
        };
        self.queues.join(entry);
        self.order.issue(program, place, 0);
    }
}
