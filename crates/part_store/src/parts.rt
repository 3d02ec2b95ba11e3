//! A buffer with partial store queues, without its job: what comes.

ghost use Rattle.std.specs.Prelude.{◌≡◌, ◌≤◌, [], true, false, None};
ghost use Rattle.ws_isa.specs.Formed.{Formed};
ghost use Rattle.ws_isa.specs.Image.{instr_at};
ghost use Rattle.store_buf.specs.Contents.{stop_of};
ghost use Rattle.df_core.specs.Chains.{chain_of, may_flag};
ghost use Rattle.df_core.specs.Places.{image_of};
ghost use Rattle.df_core.specs.Rights.{tokens_of};
ghost use Rattle.store_buf.specs.Ordering.{chain_in, requests_of};
ghost use Rattle.store_buf.specs.Requests.{entry_of};
ghost use Rattle.part_store.specs.Bares.{is_in};
ghost use Rattle.part_store.specs.Parted.{is_store_op};
ghost use Rattle.part_store.specs.Parts.{AddressLeads, PartsOk, PartsFiled, PartsSubmitLeads};

use crate::bare::Bare;
use crate::queues::Queues;
use df_core::Program;
use port_set::Port;
use store_buf::{BufFault, Kept, Order, Outer, PlainTokens};
use ws_words::NoMemory;

/// Requests, addresses and queues, and what they work on. An operation that is queued counts as issued
/// in the order. `fault` is the array of the out-of-bounds operation at which the chain is stopped,
/// `failed` a port that failed; `starved` is set where a port found no memory.
#[derive(Drop)]
pub struct Parts<P: Port> {
    pub order: Order,
    pub bare: Bare,
    pub queues: Queues,
    pub outer: Outer<P>,
    pub fault: Option<u32>,
    pub failed: Option<u8>,
    pub starved: bool,
}

impl<P: Port> Parts<P> {
    // Why no request is taken.
    fn refuses(&self) -> Option<BufFault>
        ensures { result ≡ stop_of self.now.fault self.now.failed false }
    {
        if let Some(array) = self.fault {
            return Some(BufFault::Ended { array });
        }
        if let Some(port) = self.failed {
            return Some(BufFault::Stopped { port });
        }
        None
    }

    /// Keeps a store's address, and does what the rules let then; the tokens of that are reported.
    pub fn address(
        &mut self,
        program: &Program<'_>,
        kept: Kept,
        told: &mut PlainTokens,
    ) -> Result<(), BufFault>
        requires formed { Formed (image_of program.now) }
        requires ok { PartsOk self.old }
        requires filed { PartsFiled (image_of program.now) self.old }
        requires waits { kept.answer ≡ None }
        requires store { is_store_op (instr_at (image_of program.now) kept.instr).op ≡ true }
        requires told { told.old.items ≡ [] }
        ensures ok { PartsOk self.new }
        ensures filed { PartsFiled (image_of program.now) self.new }
        ensures leads { AddressLeads (image_of program.now) self.old kept
            (tokens_of told.new.items) result self.new }
        ensures room { told.old.capacity ≤ told.new.capacity }
    {
        if let Some(fault) = self.refuses() {
            return Err(fault);
        }
        match self.order.find(kept.wave, kept.instr) {
            Some(_) => Err(BufFault::Old),
            None => {
                if self.starved || self.order.lets(program, kept) {
                    self.take_address(program, kept, told)
                } else {
                    self.put_by_address(program, kept)
                }
            }
        }
    }

    // Keeps an address that the chain doesn't let proceed, so that no rule is applicable then.
    fn put_by_address(&mut self, program: &Program<'_>, kept: Kept) -> Result<(), BufFault>
        requires ok { PartsOk self.old }
        requires filed { PartsFiled (image_of program.now) self.old }
        requires fresh { entry_of (requests_of self.old.order) kept.wave kept.instr ≡ None }
        requires waits { kept.answer ≡ None }
        requires store { is_store_op (instr_at (image_of program.now) kept.instr).op ≡ true }
        requires running { self.old.fault ≡ None }
        requires working { self.old.failed ≡ None }
        requires fed { self.old.starved ≡ false }
        requires held { may_flag (image_of program.now) (chain_of (chain_in self.old.order))
            kept.wave kept.instr kept.first ≡ false }
        ensures ok { PartsOk self.new }
        ensures filed { PartsFiled (image_of program.now) self.new }
        ensures leads { AddressLeads (image_of program.now) self.old kept [] result self.new }
    {
        match self.keep_bare(program, kept) {
            Ok(()) => Ok(()),
            Err(_) => Err(BufFault::NoMemory),
        }
    }

    // Keeps an address of an instance that had none, and does what the rules let then.
    fn take_address(
        &mut self,
        program: &Program<'_>,
        kept: Kept,
        told: &mut PlainTokens,
    ) -> Result<(), BufFault>
        requires formed { Formed (image_of program.now) }
        requires ok { PartsOk self.old }
        requires filed { PartsFiled (image_of program.now) self.old }
        requires fresh { entry_of (requests_of self.old.order) kept.wave kept.instr ≡ None }
        requires waits { kept.answer ≡ None }
        requires store { is_store_op (instr_at (image_of program.now) kept.instr).op ≡ true }
        requires running { self.old.fault ≡ None }
        requires working { self.old.failed ≡ None }
        requires told { told.old.items ≡ [] }
        ensures ok { PartsOk self.new }
        ensures filed { PartsFiled (image_of program.now) self.new }
        ensures leads { AddressLeads (image_of program.now) self.old kept
            (tokens_of told.new.items) result self.new }
        ensures room { told.old.capacity ≤ told.new.capacity }
    {
        if self.make_room(told).is_err() {
            return Err(BufFault::NoMemory);
        }
        let place = self.order.kept().len();
        match self.keep_bare(program, kept) {
            Ok(()) => self.settle(program, Some(place), told),
            Err(_) => Err(BufFault::NoMemory),
        }
    }

    /// Keeps a whole request, and does what the rules let then; the tokens of that are reported.
    pub fn submit(
        &mut self,
        program: &Program<'_>,
        kept: Kept,
        told: &mut PlainTokens,
    ) -> Result<(), BufFault>
        requires formed { Formed (image_of program.now) }
        requires ok { PartsOk self.old }
        requires filed { PartsFiled (image_of program.now) self.old }
        requires waits { kept.answer ≡ None }
        requires told { told.old.items ≡ [] }
        ensures ok { PartsOk self.new }
        ensures filed { PartsFiled (image_of program.now) self.new }
        ensures leads { PartsSubmitLeads (image_of program.now) self.old kept
            (tokens_of told.new.items) result self.new }
        ensures room { told.old.capacity ≤ told.new.capacity }
    {
        if let Some(fault) = self.refuses() {
            return Err(fault);
        }
        match self.order.find(kept.wave, kept.instr) {
            None => {
                if self.starved || self.order.lets(program, kept) {
                    self.take_request(program, kept, told)
                } else {
                    self.put_by(program, kept)
                }
            }
            Some(_) => {
                if self.bare.has(kept.wave, kept.instr) {
                    self.complete(program, kept, told)
                } else {
                    Err(BufFault::Old)
                }
            }
        }
    }

    // Keeps a request that the chain doesn't let proceed, so that no rule is applicable then.
    fn put_by(&mut self, program: &Program<'_>, kept: Kept) -> Result<(), BufFault>
        requires ok { PartsOk self.old }
        requires filed { PartsFiled (image_of program.now) self.old }
        requires fresh { entry_of (requests_of self.old.order) kept.wave kept.instr ≡ None }
        requires waits { kept.answer ≡ None }
        requires running { self.old.fault ≡ None }
        requires working { self.old.failed ≡ None }
        requires fed { self.old.starved ≡ false }
        requires held { may_flag (image_of program.now) (chain_of (chain_in self.old.order))
            kept.wave kept.instr kept.first ≡ false }
        ensures ok { PartsOk self.new }
        ensures filed { PartsFiled (image_of program.now) self.new }
        ensures leads { PartsSubmitLeads (image_of program.now) self.old kept [] result self.new }
    {
        match self.keep(program, kept) {
            Ok(()) => Ok(()),
            Err(_) => Err(BufFault::NoMemory),
        }
    }

    // Keeps a request of an instance that had none, and does what the rules let then.
    fn take_request(
        &mut self,
        program: &Program<'_>,
        kept: Kept,
        told: &mut PlainTokens,
    ) -> Result<(), BufFault>
        requires formed { Formed (image_of program.now) }
        requires ok { PartsOk self.old }
        requires filed { PartsFiled (image_of program.now) self.old }
        requires fresh { entry_of (requests_of self.old.order) kept.wave kept.instr ≡ None }
        requires waits { kept.answer ≡ None }
        requires running { self.old.fault ≡ None }
        requires working { self.old.failed ≡ None }
        requires told { told.old.items ≡ [] }
        ensures ok { PartsOk self.new }
        ensures filed { PartsFiled (image_of program.now) self.new }
        ensures leads { PartsSubmitLeads (image_of program.now) self.old kept
            (tokens_of told.new.items) result self.new }
        ensures room { told.old.capacity ≤ told.new.capacity }
    {
        if self.make_room(told).is_err() {
            return Err(BufFault::NoMemory);
        }
        let place = self.order.kept().len();
        match self.keep(program, kept) {
            Ok(()) => self.settle(program, Some(place), told),
            Err(_) => Err(BufFault::NoMemory),
        }
    }

    // The data of a store has come, whose address came before.
    fn complete(
        &mut self,
        program: &Program<'_>,
        kept: Kept,
        told: &mut PlainTokens,
    ) -> Result<(), BufFault>
        requires formed { Formed (image_of program.now) }
        requires ok { PartsOk self.old }
        requires filed { PartsFiled (image_of program.now) self.old }
        requires bare { is_in self.old.bare kept.wave kept.instr ≡ true }
        requires waits { kept.answer ≡ None }
        requires running { self.old.fault ≡ None }
        requires working { self.old.failed ≡ None }
        requires told { told.old.items ≡ [] }
        ensures ok { PartsOk self.new }
        ensures filed { PartsFiled (image_of program.now) self.new }
        ensures leads { PartsSubmitLeads (image_of program.now) self.old kept
            (tokens_of told.new.items) result self.new }
        ensures room { told.old.capacity ≤ told.new.capacity }
    {
        if self.make_room(told).is_err() {
            return Err(BufFault::NoMemory);
        }
        self.put_data(kept);
        self.starved = false;
        self.drain(program, kept, told);
        self.settle(program, None, told)
    }
}
