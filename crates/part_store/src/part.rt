//! The store buffer with partial store queues of a job.

ghost use Rattle.std.specs.Prelude.{◌≡◌, ◌≤◌, ◌&&◌, [], not, is_some, true, All, Some, None, IfOk, IfErr};
ghost use Rattle.ws_isa.specs.Image.{instr_at};
ghost use Rattle.port_set.specs.Slots.{AllOpen, contents};
ghost use Rattle.df_core.specs.Codes.{IsCode};
ghost use Rattle.df_core.specs.Rights.{IsAsked, tokens_of};
ghost use Rattle.store_buf.specs.Stores.{asked_of};
ghost use Rattle.store_buf.specs.Requests.{entry_of};
ghost use Rattle.store_buf.specs.Outdoors.{AllBegan};
ghost use Rattle.store_buf.specs.Contents.{RightTokens, gives_word, stop_of, with_tokens};
ghost use Rattle.part_store.specs.Queues.{open_queues};
ghost use Rattle.part_store.specs.Contents.{answer_of, is_bare, opening_content, PartContent};
ghost use Rattle.part_store.specs.Parted.{IsAddressed, Parted, is_store_op};
ghost use Rattle.part_store.specs.Calls.{AddressedSo, SubmittedSo, address_of, request_of, PartIdle};
ghost use Rattle.part_store.specs.Calls.{PartFailedSo};
ghost use Rattle.part_store.specs.Parts.{PartsStanding};

use crate::bare::Bare;
use crate::parts::Parts;
use crate::queues::Queues;
use df_core::{Code, Job, Program, Request, Token, TokenList, every_list_of_events};
use port_set::{OpenSet, Port, Slots};
use std::alloc::Global;
use std::marker::{Model, PhantomData};
use store_buf::{BufFault, BufferAnswers, BufferEnd, Kept, Order, Outer, PlainTokens, empty_cells};
use ws_isa::Op;
use ws_words::Words;

/// A store buffer in which a store's address may come before its data.
#[derive(Drop)]
pub struct PartBuffer<J: Job, P: Port> {
    parts: Parts<P>,
    alloc: Global,
    of: PhantomData<J>,
}

impl<J: Job, P: Port> Model for PartBuffer<J, P> {
    ghost use Rattle.part_store.specs.Contents.{PartContent};
    ghost use Rattle.part_store.specs.Parts.{PartsStanding, content_of};

    ghost Value = { PartContent };

    ghost view = { λ buffer. content_of buffer.parts };

    ghost invariant = { λ buffer. PartsStanding J.image J.world J.began buffer.parts };
}

impl<J: Job, P: Port> PartBuffer<J, P> {
    /// The opening buffer of a job, of which these are the input and the ports. If memory runs
    /// out, it hands the ports back.
    pub fn begin(
        alloc: Global,
        code: &Code<'_, J>,
        input: Words,
        ports: Slots<P>,
    ) -> Result<PartBuffer<J, P>, Slots<P>>
        requires input { input ≡ J.world.input }
        requires ports { AllBegan J.began J.world.left (contents P.tells ports) }
        requires open { AllOpen (contents P.tells ports) }
        ensures opening { IfOk result (λ buffer. buffer
            ≡ opening_content J.image J.world (contents P.tells ports)) }
        ensures back { IfErr result (λ slots. contents P.tells slots ≡ contents P.tells ports) }
    {
        every_list_of_events();
        let cells = match empty_cells(alloc, &code.program().image().arrays) {
            Ok(cells) => cells,
            Err(_) => return Err(ports),
        };
        let outer = Outer {
            cells,
            input,
            read: 0,
            printed: Vec::new(alloc),
            ports: OpenSet::new(ports),
        };
        Ok(PartBuffer {
            parts: Parts {
                order: Order::new(alloc),
                bare: Bare::new(alloc),
                queues: Queues::new(alloc),
                outer,
                fault: None,
                failed: None,
                starved: false,
            },
            alloc,
            of: PhantomData,
        })
    }

    /// The allocator that it was begun with.
    pub(crate) fn allocator(&self) -> Global {
        self.alloc
    }

    /// Keeps the address of a store, which is a token at its port 0, and does what the rules let
    /// until they let nothing more. Answers the result tokens of what was done.
    pub fn address(&mut self, code: &Code<'_, J>, token: Token<J>) -> Result<TokenList<J>, BufFault>
        requires store { is_store_op (instr_at J.image token.instr).op ≡ true }
        requires port { token.port ≡ 0 }
        ensures { AddressedSo J.image self.old (address_of token) result self.new }
    {
        let mut answers = BufferAnswers::none(self.alloc);
        match self.address_into(code, token, &mut answers) {
            Ok(()) => Ok(answers.listed()),
            Err(fault) => Err(fault),
        }
    }

    /// The same, with the result tokens in place of earlier answers.
    #[inline(always)]
    pub fn address_into(
        &mut self,
        code: &Code<'_, J>,
        token: Token<J>,
        answers: &mut BufferAnswers<J>,
    ) -> Result<(), BufFault>
        requires store { is_store_op (instr_at J.image token.instr).op ≡ true }
        requires port { token.port ≡ 0 }
        ensures { AddressedSo J.image self.old (address_of token) (with_tokens answers.new result) self.new }
    {
        let kept = kept_address(&token);
        answers.told.clear();
        self.parts.address(code.program(), kept, &mut answers.told)
    }

    /// Keeps a request, and does what the rules let until they let nothing more. Answers the result
    /// tokens of what was done.
    pub fn submit(
        &mut self,
        code: &Code<'_, J>,
        request: Request<J>,
    ) -> Result<TokenList<J>, BufFault>
        ensures { SubmittedSo J.image self.old (request_of request) result self.new }
    {
        let mut answers = BufferAnswers::none(self.alloc);
        match self.submit_into(code, request, &mut answers) {
            Ok(()) => Ok(answers.listed()),
            Err(fault) => Err(fault),
        }
    }

    /// The same, with the result tokens in place of earlier answers.
    #[inline(always)]
    pub fn submit_into(
        &mut self,
        code: &Code<'_, J>,
        request: Request<J>,
        answers: &mut BufferAnswers<J>,
    ) -> Result<(), BufFault>
        ensures { SubmittedSo J.image self.old (request_of request) (with_tokens answers.new result)
            self.new }
    {
        let kept = kept_request(&request);
        answers.told.clear();
        self.take_whole(code.program(), kept, &mut answers.told)
    }

    /// The same of a right request that is reported as plain data. The result tokens come into the empty
    /// list.
    #[inline(always)]
    pub(crate) fn take_whole(
        &mut self,
        program: &Program<'_>,
        kept: Kept,
        told: &mut PlainTokens,
    ) -> Result<(), BufFault>
        requires code { IsCode J.image program.now }
        requires right { IsAsked J.image J.world (asked_of kept) }
        requires waits { kept.answer ≡ None }
        requires told { told.old.items ≡ [] }
        ensures submitted { SubmittedSo J.image self.old (request_of (asked_of kept))
            (with_tokens (tokens_of told.new.items) result) self.new }
        ensures right { RightTokens J.image J.world (tokens_of told.new.items) }
        ensures room { told.old.capacity ≤ told.new.capacity }
    {
        self.parts.submit(program, kept, told)
    }

    /// Whether the whole request of an instance was kept.
    pub fn knows(&self, wave: u64, instr: u32) -> bool
        ensures { result ≡ (is_some (entry_of self.now.kept wave instr)
            && not (is_bare self.now wave instr)) }
    {
        self.parts.order.find(wave, instr).is_some() && !self.parts.bare.has(wave, instr)
    }

    /// The requests and addresses that it keeps, in the order in which they came.
    pub fn kept(&self) -> &[Kept]
        ensures { result.now ≡ self.now.kept }
    {
        self.parts.order.kept()
    }

    /// The word that a load, IN or GIVE gave.
    pub fn answer(&self, code: &Code<'_, J>, wave: u64, instr: u32) -> Option<u64>
        ensures { result ≡ answer_of J.image self.now wave instr }
    {
        self.word(code.program(), wave, instr)
    }

    /// The same, by the instructions of the job's image.
    pub(crate) fn word(&self, program: &Program<'_>, wave: u64, instr: u32) -> Option<u64>
        requires { IsCode J.image program.now }
        ensures { result ≡ answer_of J.image self.now wave instr }
    {
        if !gives_word(program.op(instr)) {
            return None;
        }
        if self.parts.queues.is_queued(wave, instr) {
            return None;
        }
        match self.parts.order.find(wave, instr) {
            Some(kept) => kept.answer,
            None => None,
        }
    }

    /// How many queues hold a cell.
    pub fn open_queues(&self) -> u32
        ensures { result ≡ open_queues self.now.queued }
    {
        self.parts.queues.held as u32
    }

    /// Why it takes no more requests, or `NoMemory` where a port found no memory and its request
    /// still waits.
    pub fn stop(&self) -> Option<BufFault>
        ensures { result ≡ stop_of self.now.fault self.now.failed self.now.starved }
    {
        if let Some(array) = self.parts.fault {
            return Some(BufFault::Ended { array });
        }
        if let Some(port) = self.parts.failed {
            return Some(BufFault::Stopped { port });
        }
        if self.parts.starved {
            Some(BufFault::NoMemory)
        } else {
            None
        }
    }

    /// What is true of every buffer: its addresses, queues and cells are as the walk has them, no rule
    /// is applicable but where a port hasn't answered, and where one has failed the operation that is
    /// next is on it.
    pub fn facts(&self)
        ensures parted { Parted J.image J.world J.began self.now }
        ensures idle { PartIdle J.image self.now }
        ensures failed { PartFailedSo J.image J.began self.now }
        ensures once { All (λ k. entry_of self.now.kept k.wave k.instr ≡ Some k) self.now.kept }
    {
        let _ = &self.parts;
    }

    /// What the run has left. Takes no memory.
    pub fn finish(self) -> BufferEnd<P>
        ensures printed { result.printed ≡ self.outside.printed }
        ensures arrays { result.arrays ≡ self.outside.cells }
        ensures ports { contents P.tells result.ports ≡ self.outside.ports }
        ensures open { AllOpen self.outside.ports }
    {
        let alloc = self.alloc;
        let parts = self.parts;
        let outer = parts.outer;
        outer.finish(alloc)
    }
}

// The address of a store that has no data.
fn kept_address<J: Job>(token: &Token<J>) -> Kept
    requires store { is_store_op (instr_at J.image token.now.instr).op ≡ true }
    requires port { token.now.port ≡ 0 }
    ensures kept { result ≡ address_of token.now }
    ensures right { IsAddressed J.image J.world result.wave result.instr result.first }
{
    Kept {
        wave: token.wave(),
        instr: token.instr(),
        first: token.value(),
        second: 0,
        answer: None,
    }
}

// A request that has no answer.
fn kept_request<J: Job>(request: &Request<J>) -> Kept
    ensures kept { result ≡ request_of request.now }
    ensures right { IsAsked J.image J.world (asked_of result) }
{
    Kept {
        wave: request.wave(),
        instr: request.instr(),
        first: request.first(),
        second: request.second(),
        answer: None,
    }
}

// Whether an operation gives a word.
fn gives_word(op: Op) -> bool
    ensures { result ≡ gives_word op }
{
    match op {
        Op::Load(_) | Op::Input | Op::Give(_) => true,
        _ => false,
    }
}
