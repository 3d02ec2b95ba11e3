//! A buffer without its job: requests, chain, memory and ports.

ghost use Rattle.std.specs.Prelude.{◌≡◌, ◌<◌, ◌≤◌, ◌+◌, ◌*◌, ◌++◌, ◌∷◌, ◌⊎◌, [], true, false, Some, None};
ghost use Rattle.std.specs.Prelude.{length, IfErr, IfOk, IfSome, OnOk, OnErr};
ghost use Rattle.smallvec.specs.SmallVec.{HasRoomFor};
ghost use Rattle.ws_isa.specs.Formed.{Formed};
ghost use Rattle.ws_isa.specs.Image.{Image, array_of_op};
ghost use Rattle.df_core.specs.Core.{has};
ghost use Rattle.df_core.specs.Chains.{chain_of, may_flag};
ghost use Rattle.df_core.specs.Places.{image_of};
ghost use Rattle.df_core.specs.Rights.{tokens_of};
ghost use Rattle.store_buf.specs.Requests.{entry_of};
ghost use Rattle.store_buf.specs.Finding.{HookIn};
ghost use Rattle.store_buf.specs.Ordering.{IsPrepared, MayAt, on_cell};
ghost use Rattle.store_buf.specs.Outdoors.{FaultsGrow};
ghost use Rattle.store_buf.specs.Stores.{StoreOk, StoreKeeps, ServeLeads, IssueLeads, StaysSo, AllLead};
ghost use Rattle.store_buf.specs.Stores.{SilentSo, SettledSo, SubmitLeads, NoneMaySo};
ghost use Rattle.store_buf.specs.Stores.{left_over};

use crate::fault::{BufFault, Silent};
use crate::index::Hook;
use crate::kept::Kept;
use crate::order::Order;
use crate::outer::Outer;
use crate::told::{PlainTokens, tell};
use df_core::Program;
use port_set::Port;
use ws_isa::Op;
use ws_words::NoMemory;

// For each request that waits there has to be room for eight tokens.
const MOST_WAITING: usize = usize::MAX / 16;

/// Requests and what they work on. `fault` is the array of the out-of-bounds operation at which the
/// chain is stopped, `failed` a port that failed; `starved` is set where a port found no memory.
#[derive(Drop)]
pub struct Store<P: Port> {
    pub(crate) order: Order,
    pub(crate) outer: Outer<P>,
    pub(crate) fault: Option<u32>,
    pub(crate) failed: Option<u8>,
    pub(crate) starved: bool,
}

impl<P: Port> Store<P> {
    /// StoreKeeps a request and issues what may be issued then; the tokens of that are reported.
    pub fn submit(
        &mut self,
        program: &Program<'_>,
        kept: Kept,
        told: &mut PlainTokens,
    ) -> Result<(), BufFault>
        requires formed { Formed (image_of program.now) }
        requires ok { StoreOk (image_of program.now) self.old }
        requires waits { kept.answer ≡ None }
        requires told { told.old.items ≡ [] }
        ensures leads { SubmitLeads (image_of program.now) self.old kept
            (tokens_of told.new.items) result self.new }
        ensures room { told.old.capacity ≤ told.new.capacity }
    {
        if let Some(array) = self.fault {
            return Err(BufFault::Ended { array });
        }
        if let Some(port) = self.failed {
            return Err(BufFault::Stopped { port });
        }
        let hook = self.order.hook(kept.wave, kept.instr);
        match self.order.find_at(kept.wave, kept.instr, hook) {
            Some(_) => Err(BufFault::Old),
            None => {
                let lets = self.order.lets(program, kept);
                if lets && is_on_cell(program, kept) {
                    self.serve(program, kept, hook, told)
                } else if self.starved || lets {
                    self.take_in(program, kept, hook, lets, told)
                } else {
                    self.put_by(program, kept, hook)
                }
            }
        }
    }

    // StoreKeeps a request that the chain doesn't let issue, so that nothing may be issued then.
    fn put_by(&mut self, program: &Program<'_>, kept: Kept, hook: Hook) -> Result<(), BufFault>
        requires ok { StoreOk (image_of program.now) self.old }
        requires hook { HookIn self.old.order.kept.items self.old.order.index
            kept.wave kept.instr hook }
        requires fresh { entry_of self.old.order.kept.items kept.wave kept.instr ≡ None }
        requires waits { kept.answer ≡ None }
        requires running { self.old.fault ≡ None }
        requires working { self.old.failed ≡ None }
        requires fed { self.old.starved ≡ false }
        requires held { may_flag (image_of program.now) (chain_of self.old.order.chain)
            kept.wave kept.instr kept.first ≡ false }
        ensures leads { SubmitLeads (image_of program.now) self.old kept [] result self.new }
    {
        match self.keep(program, kept, hook) {
            Ok(()) => Ok(()),
            Err(_) => Err(BufFault::NoMemory),
        }
    }

    // StoreKeeps a request, which the chain lets issue or not, and issues what may be issued then.
    fn take_in(
        &mut self,
        program: &Program<'_>,
        kept: Kept,
        hook: Hook,
        lets: bool,
        told: &mut PlainTokens,
    ) -> Result<(), BufFault>
        requires formed { Formed (image_of program.now) }
        requires ok { StoreOk (image_of program.now) self.old }
        requires lets { lets ≡ may_flag (image_of program.now) (chain_of self.old.order.chain)
            kept.wave kept.instr kept.first }
        requires hook { HookIn self.old.order.kept.items self.old.order.index
            kept.wave kept.instr hook }
        requires fresh { entry_of self.old.order.kept.items kept.wave kept.instr ≡ None }
        requires waits { kept.answer ≡ None }
        requires running { self.old.fault ≡ None }
        requires working { self.old.failed ≡ None }
        requires told { told.old.items ≡ [] }
        ensures leads { SubmitLeads (image_of program.now) self.old kept
            (tokens_of told.new.items) result self.new }
        ensures room { told.old.capacity ≤ told.new.capacity }
    {
        if self.make_room(told).is_err() {
            return Err(BufFault::NoMemory);
        }
        let place = self.order.kept().len();
        match self.keep(program, kept, hook) {
            Ok(()) => {
                let first = if lets { Some(place) } else { None };
                self.settle(program, first, told)
            }
            Err(_) => Err(BufFault::NoMemory),
        }
    }

    // Keeps a request on a cell, which the chain lets issue, and issues it; then issues what else may be
    // issued.
    #[inline(always)]
    fn serve(
        &mut self,
        program: &Program<'_>,
        kept: Kept,
        hook: Hook,
        told: &mut PlainTokens,
    ) -> Result<(), BufFault>
        requires formed { Formed (image_of program.now) }
        requires ok { StoreOk (image_of program.now) self.old }
        requires lets { may_flag (image_of program.now) (chain_of self.old.order.chain)
            kept.wave kept.instr kept.first ≡ true }
        requires cell { on_cell (image_of program.now) kept ≡ true }
        requires hook { HookIn self.old.order.kept.items self.old.order.index
            kept.wave kept.instr hook }
        requires fresh { entry_of self.old.order.kept.items kept.wave kept.instr ≡ None }
        requires waits { kept.answer ≡ None }
        requires running { self.old.fault ≡ None }
        requires working { self.old.failed ≡ None }
        requires told { told.old.items ≡ [] }
        ensures leads { SubmitLeads (image_of program.now) self.old kept
            (tokens_of told.new.items) result self.new }
        ensures room { told.old.capacity ≤ told.new.capacity }
    {
        if self.make_room(told).is_err() {
            return Err(BufFault::NoMemory);
        }
        match self.prepare(kept, hook) {
            Ok(place) => {
                self.serve_at(program, place, kept, hook, told);
                self.go_on(program, told)
            }
            Err(_) => Err(BufFault::NoMemory),
        }
    }

    // Makes room for a request of an instance that had none.
    #[inline(always)]
    fn prepare(&mut self, kept: Kept, hook: Hook) -> Result<usize, NoMemory>
        requires hook { HookIn self.old.order.kept.items self.old.order.index
            kept.wave kept.instr hook }
        requires fresh { entry_of self.old.order.kept.items kept.wave kept.instr ≡ None }
        ensures place { IfOk result (λ place. place ≡ length self.new.order.kept.items) }
        ensures prepared { OnOk result (IsPrepared self.new.order kept hook) }
        ensures ok { (image : Image) → StoreOk image self.old → StoreOk image self.new }
        ensures keeps { StoreKeeps self.old self.old.order.kept.items self.new }
        ensures waiting { self.new.order.waiting ≡ self.old.order.waiting }
    {
        self.order.prepare(kept, hook)
    }

    // Keeps a request on a cell at its place, and issues it. It stands in no heap and prints no word.
    #[inline(always)]
    fn serve_at(
        &mut self,
        program: &Program<'_>,
        place: usize,
        kept: Kept,
        hook: Hook,
        told: &mut PlainTokens,
    )
        requires formed { Formed (image_of program.now) }
        requires ok { StoreOk (image_of program.now) self.old }
        requires prepared { IsPrepared self.old.order kept hook }
        requires place { place ≡ length self.old.order.kept.items }
        requires waits { kept.answer ≡ None }
        requires lets { may_flag (image_of program.now) (chain_of self.old.order.chain)
            kept.wave kept.instr kept.first ≡ true }
        requires cell { on_cell (image_of program.now) kept ≡ true }
        requires going { self.old.fault ≡ None }
        requires room { HasRoomFor told.old (8 * (self.old.order.waiting + 1)) }
        ensures ok { StoreOk (image_of program.now) self.new }
        ensures leads { ServeLeads (image_of program.now) self.old kept self.new
            (tokens_of told.old.items) (tokens_of told.new.items) }
        ensures ports { self.new.outer.ports ≡ self.old.outer.ports }
        ensures fault { self.new.fault ≡ self.old.fault }
        ensures failed { self.new.failed ≡ self.old.failed }
        ensures room { HasRoomFor told.new (8 * self.new.order.waiting) }
        ensures same_room { told.new.capacity ≡ told.old.capacity }
    {
        let op = program.op(kept.instr);
        let word = match self.outer.run(op, kept.first, kept.second) {
            Ok(word) => word,
            Err(_) => unreachable!(),
        };
        self.order.push(kept, hook);
        self.order.issue(program, place, word);
        tell(told, kept.wave, program.destinations(kept.instr, 0), word);
    }

    // Issues what may be issued, if any request waits, and keeps in mind how that ends.
    #[inline(always)]
    fn go_on(&mut self, program: &Program<'_>, told: &mut PlainTokens) -> Result<(), BufFault>
        requires formed { Formed (image_of program.now) }
        requires ok { StoreOk (image_of program.now) self.old }
        requires going { self.old.fault ≡ None }
        requires room { HasRoomFor told.old (8 * self.old.order.waiting) }
        ensures ok { StoreOk (image_of program.now) self.new }
        ensures lead { AllLead (image_of program.now) self.old self.new
            (tokens_of told.old.items) (tokens_of told.new.items) }
        ensures settled { SettledSo (image_of program.now) self.old result self.new }
        ensures room { told.new.capacity ≡ told.old.capacity }
    {
        if self.order.waiting() == 0 {
            self.starved = false;
            return Ok(());
        }
        self.settle(program, None, told)
    }

    // Makes room for the tokens of all that waits, and of one more.
    fn make_room(&self, told: &mut PlainTokens) -> Result<(), NoMemory>
        ensures items { told.new.items ≡ told.old.items }
        ensures room { OnOk result (HasRoomFor told.new (8 * (self.now.order.waiting + 1))) }
        ensures grown { told.old.capacity ≤ told.new.capacity }
    {
        let waiting = self.order.waiting();
        if waiting >= MOST_WAITING {
            return Err(NoMemory);
        }
        told.reserve(8 * (waiting + 1))?;
        Ok(())
    }

    // StoreKeeps a request of an instance that had none, and makes room for the word that it may print.
    #[inline(always)]
    fn keep(&mut self, program: &Program<'_>, kept: Kept, hook: Hook) -> Result<(), NoMemory>
        requires ok { StoreOk (image_of program.now) self.old }
        requires hook { HookIn self.old.order.kept.items self.old.order.index
            kept.wave kept.instr hook }
        requires fresh { entry_of self.old.order.kept.items kept.wave kept.instr ≡ None }
        requires waits { kept.answer ≡ None }
        ensures ok { StoreOk (image_of program.now) self.new }
        ensures keeps { OnOk result (StoreKeeps self.old (self.old.order.kept.items ++ kept ∷ []) self.new) }
        ensures unchanged { OnErr result (StoreKeeps self.old self.old.order.kept.items self.new) }
        ensures waiting { OnOk result (self.new.order.waiting ≡ self.old.order.waiting + 1) }
        ensures may { OnOk result ((image : Image) → may_flag image (chain_of self.old.order.chain)
            kept.wave kept.instr kept.first ≡ true
            → MayAt image self.new.order (length self.old.order.kept.items)) }
    {
        let waiting = self.order.waiting();
        if waiting >= MOST_WAITING {
            return Err(NoMemory);
        }
        self.outer.printed.reserve(waiting + 1)?;
        self.order.add_at(program, kept, hook)
    }

    // Issues what may be issued, first this one, and keeps in mind how that ends.
    fn settle(
        &mut self,
        program: &Program<'_>,
        first: Option<usize>,
        told: &mut PlainTokens,
    ) -> Result<(), BufFault>
        requires formed { Formed (image_of program.now) }
        requires ok { StoreOk (image_of program.now) self.old }
        requires first { IfSome first (MayAt (image_of program.now) self.old.order) }
        requires room { HasRoomFor told.old (8 * self.old.order.waiting) }
        ensures ok { StoreOk (image_of program.now) self.new }
        ensures lead { AllLead (image_of program.now) self.old self.new
            (tokens_of told.old.items) (tokens_of told.new.items) }
        ensures settled { SettledSo (image_of program.now) self.old result self.new }
        ensures room { told.new.capacity ≡ told.old.capacity }
    {
        self.starved = false;
        match self.issue_all(program, first, told) {
            Ok(()) => match self.fault {
                Some(array) => Err(BufFault::Index { array }),
                None => Ok(()),
            },
            Err(Silent::Failed { port }) => {
                self.failed = Some(port);
                Err(BufFault::Port { port })
            }
            Err(Silent::NoMemory { .. }) => {
                self.starved = true;
                Err(BufFault::NoMemory)
            }
        }
    }

    /// Issues the request at a place, which may be issued; at one out of bounds the chain stops. Where
    /// a port doesn't answer, the request still waits.
    pub(crate) fn issue(
        &mut self,
        program: &Program<'_>,
        place: usize,
        told: &mut PlainTokens,
    ) -> Result<(), Silent>
        requires formed { Formed (image_of program.now) }
        requires ok { StoreOk (image_of program.now) self.old }
        requires may { MayAt (image_of program.now) self.old.order place }
        requires going { self.old.fault ≡ None }
        requires room { HasRoomFor told.old (8 * self.old.order.waiting) }
        ensures ok { StoreOk (image_of program.now) self.new }
        ensures leads { OnOk result (IssueLeads (image_of program.now) self.old self.new
            (tokens_of told.old.items) (tokens_of told.new.items)) }
        ensures stays { OnErr result (StaysSo (image_of program.now) self.old self.new) }
        ensures fewer { OnOk result (left_over self.new < left_over self.old) }
        ensures order { OnErr result (self.new.order ≡ self.old.order) }
        ensures fault { OnErr result (self.new.fault ≡ self.old.fault) }
        ensures untold { OnErr result (told.new.items ≡ told.old.items) }
        ensures silent { IfErr result (SilentSo (image_of program.now) self.old self.new) }
        ensures counted { FaultsGrow self.old.outer.ports self.new.outer.ports }
        ensures failed { self.new.failed ≡ self.old.failed }
        ensures starved { self.new.starved ≡ self.old.starved }
        ensures room { HasRoomFor told.new (8 * self.new.order.waiting) }
        ensures same_room { told.new.capacity ≡ told.old.capacity }
    {
        let kept = self.order.request(place);
        let op = program.op(kept.instr);
        if program.is_past(op, kept.first) {
            self.fault = Some(array_of(op));
            return Ok(());
        }
        let word = self.outer.run(op, kept.first, kept.second)?;
        self.order.issue(program, place, word);
        tell(told, kept.wave, program.destinations(kept.instr, 0), word);
        Ok(())
    }

    /// Issues requests, first this one, until none may be issued, or the chain is stopped, or a port
    /// doesn't answer.
    pub(crate) fn issue_all(
        &mut self,
        program: &Program<'_>,
        first: Option<usize>,
        told: &mut PlainTokens,
    ) -> Result<(), Silent>
        requires formed { Formed (image_of program.now) }
        requires ok { StoreOk (image_of program.now) self.old }
        requires first { IfSome first (MayAt (image_of program.now) self.old.order) }
        requires room { HasRoomFor told.old (8 * self.old.order.waiting) }
        ensures ok { StoreOk (image_of program.now) self.new }
        ensures lead { AllLead (image_of program.now) self.old self.new
            (tokens_of told.old.items) (tokens_of told.new.items) }
        ensures none { OnOk result ((has self.new.fault ≡ true)
            ⊎ NoneMaySo (image_of program.now) self.new) }
        ensures silent { IfErr result (SilentSo (image_of program.now) self.old self.new) }
        ensures going { OnErr result (self.new.fault ≡ None) }
        ensures failed { self.new.failed ≡ self.old.failed }
        ensures starved { self.new.starved ≡ self.old.starved }
        ensures same_room { told.new.capacity ≡ told.old.capacity }
    {
        let mut next = first;
        while self.fault.is_none() {
            match self.order.this_or_issuable(program, next) {
                None => return Ok(()),
                Some(place) => self.issue(program, place, told)?,
            }
            next = None;
        }
        Ok(())
    }
}

// Whether a request is on a cell, within its array.
#[inline(always)]
fn is_on_cell(program: &Program<'_>, kept: Kept) -> bool
    ensures { result ≡ on_cell (image_of program.now) kept }
{
    let op = program.op(kept.instr);
    match op {
        Op::Load(_) | Op::Store(_) => !program.is_past(op, kept.first),
        _ => false,
    }
}

// The array of a load or store.
fn array_of(op: Op) -> u32
    ensures { result ≡ array_of_op op }
{
    match op {
        Op::Load(array) | Op::Store(array) => array,
        _ => 0,
    }
}
