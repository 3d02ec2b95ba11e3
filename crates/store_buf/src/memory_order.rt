//! What every buffer of memory operations answers.

ghost use Rattle.std.specs.Prelude.{◌≡◌, ◌≤◌, [], All, Some, None, is_some, false};
ghost use Rattle.ws_words.specs.Outside.{Outside};
ghost use Rattle.port_set.specs.Slots.{AllOpen, contents};
ghost use Rattle.df_core.specs.Codes.{IsCode};
ghost use Rattle.df_core.specs.Rights.{IsAsked, tokens_of};
ghost use Rattle.store_buf.specs.Requests.{entry_of};
ghost use Rattle.store_buf.specs.Contents.{IsBuffer, FailedSo, Idle, RightTokens, SubmitSo, answer_of};
ghost use Rattle.store_buf.specs.Contents.{stop_of, with_tokens};
ghost use Rattle.store_buf.specs.Stores.{asked_of};

use crate::answers::BufferAnswers;
use crate::fault::BufFault;
use crate::kept::Kept;
use crate::outer::BufferEnd;
use crate::told::PlainTokens;
use df_core::{Code, Job, Program, Request, TokenList};
use port_set::Port;
use std::alloc::Global;

/// A buffer of a job's memory operations, which issues them in the order of waves. What it holds is
/// seen as one content. A kind of buffer says how `take_in` and `word` come about; who has the job's
/// code and requests calls `submit`, `submit_into` and `answer`.
pub trait MemoryOrder<J: Job, P: Port>: Drop {
    ghost use Rattle.store_buf.specs.Contents.{Content};

    /// What it holds.
    ghost content: { Self → Content };

    /// The allocator that it was begun with.
    fn allocator(&self) -> Global;

    /// Keeps a right request, and issues what is issuable until nothing is. The result tokens of what
    /// it issued come into the empty list.
    fn take_in(
        &mut self,
        program: &Program<'_>,
        kept: Kept,
        told: &mut PlainTokens,
    ) -> Result<(), BufFault>
        requires code { IsCode J.image program.now }
        requires right { IsAsked J.image J.world (asked_of kept) }
        requires waits { kept.answer ≡ None }
        requires told { told.old.items ≡ [] }
        ensures submitted { SubmitSo J.image J.world J.began (content self.old) (asked_of kept)
            (with_tokens (tokens_of told.new.items) result) (content self.new) }
        ensures right { RightTokens J.image J.world (tokens_of told.new.items) }
        ensures room { told.old.capacity ≤ told.new.capacity };

    /// Whether the request of an instance was kept.
    fn knows(&self, wave: u64, instr: u32) -> bool
        ensures { result ≡ is_some (entry_of (content self.now).kept wave instr) };

    /// The requests that it keeps, in the order in which they came.
    fn kept(&self) -> &[Kept]
        ensures { result.now ≡ (content self.now).kept };

    /// The word that an issued load, IN or GIVE gave.
    fn word(&self, program: &Program<'_>, wave: u64, instr: u32) -> Option<u64>
        requires { IsCode J.image program.now }
        ensures { result ≡ answer_of J.image (content self.now) wave instr };

    /// Why it takes no more requests, or `NoMemory` where a port found no memory and its request
    /// still waits.
    fn stop(&self) -> Option<BufFault>
        ensures { result ≡ stop_of (content self.now).fault (content self.now).failed
            (content self.now).starved };

    /// What is true of every buffer: with some memory it is one of the run, nothing that waits is
    /// issuable but where a port hasn't answered, and where one has failed the operation that is next
    /// is on it.
    fn facts(&self)
        ensures stands { (m : Outside) × IsBuffer J.image J.world J.began (content self.now) m }
        ensures idle { (content self.now).failed ≡ None → (content self.now).starved ≡ false →
            Idle J.image (content self.now) }
        ensures failed { FailedSo J.image J.began (content self.now) }
        ensures once { All (λ k. entry_of (content self.now).kept k.wave k.instr ≡ Some k)
            (content self.now).kept };

    /// What the run has left. Takes no memory.
    fn finish(self) -> BufferEnd<P>
        ensures printed { result.printed ≡ (content self).outside.printed }
        ensures arrays { result.arrays ≡ (content self).outside.cells }
        ensures ports { contents P.tells result.ports ≡ (content self).outside.ports }
        ensures open { AllOpen (content self).outside.ports };

    /// Keeps a request, and issues what is issuable until nothing is. Answers the result tokens of
    /// what it issued.
    final fn submit(
        &mut self,
        code: &Code<'_, J>,
        request: Request<J>,
    ) -> Result<TokenList<J>, BufFault>
        ensures { SubmitSo J.image J.world J.began (content self.old) request result
            (content self.new) }
    {
        let mut answers = BufferAnswers::none(self.allocator());
        match self.submit_into(code, request, &mut answers) {
            Ok(()) => Ok(answers.listed()),
            Err(fault) => Err(fault),
        }
    }

    /// The same, with the result tokens in place of earlier answers.
    #[inline(always)]
    final fn submit_into(
        &mut self,
        code: &Code<'_, J>,
        request: Request<J>,
        answers: &mut BufferAnswers<J>,
    ) -> Result<(), BufFault>
        ensures { SubmitSo J.image J.world J.began (content self.old) request
            (with_tokens answers.new result) (content self.new) }
    {
        let kept = kept_of(&request);
        answers.told.clear();
        self.take_in(code.program(), kept, &mut answers.told)
    }

    /// The word that an issued load, IN or GIVE gave.
    final fn answer(&self, code: &Code<'_, J>, wave: u64, instr: u32) -> Option<u64>
        ensures { result ≡ answer_of J.image (content self.now) wave instr }
    {
        self.word(code.program(), wave, instr)
    }
}

// A request that has no answer.
fn kept_of<J: Job>(request: &Request<J>) -> Kept
    ensures asked { asked_of result ≡ request.now }
    ensures right { IsAsked J.image J.world request.now }
    ensures waits { result.answer ≡ None }
{
    Kept {
        wave: request.wave(),
        instr: request.instr(),
        first: request.first(),
        second: request.second(),
        answer: None,
    }
}
