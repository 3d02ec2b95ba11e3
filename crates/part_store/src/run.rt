//! A run of an image on one thread, over one table and one buffer with partial store queues. Tokens are
//! brought in rounds by wave, and of each round the one that came last first: what comes of a token is of
//! its round if it is of that token's wave or an earlier one, and of the next round else. So a wave is
//! brought as far as it goes before a later one begins, and all that is in flight comes in turn.

ghost use Rattle.std.specs.Prelude.{◌≡◌, ◌+◌, ◌≤◌, ◌∷◌, List, [], Option, true, length, MatchOption};
ghost use Rattle.std.specs.Prelude.{OnOk};
ghost use Rattle.ws_isa.specs.Image.{instr_at};
ghost use Rattle.ws_isa.specs.Walk.{start_tokens};
ghost use Rattle.df_core.specs.Shown.{Tables};
ghost use Rattle.match_table.specs.Tables.{part};
ghost use Rattle.port_set.specs.Ports.{Told};
ghost use Rattle.port_set.specs.Slots.{AllOpen, contents};
ghost use Rattle.store_buf.specs.Outdoors.{AllBegan, AllTell, began_of, world_with};
ghost use Rattle.store_buf.specs.declared.finish.RunFinish.TheVariants as finish;
ghost use Rattle.store_buf.specs.Answer.{RunTells};
ghost use Rattle.store_buf.specs.Runs.{Covers};
ghost use Rattle.part_store.specs.Parted.{is_store_op};
ghost use Rattle.part_store.specs.Runs.{IsWhole, Paid, PaidWhile, PartEndingSo, GoesOn};

use crate::finish::{Ending, finish};
use crate::part::PartBuffer;
use df_core::{Code, Job, Request, Token, start};
use match_table::{Results, Table, Took};
use port_set::{Port, Slots};
use std::alloc::Global;
use std::marker::Brand;
use store_buf::{BufferAnswers, Rounds, RunEnd, RunFinish, told_ports_begin};
use ws_isa::{Checked, Op};
use ws_words::{NoMemory, Words};

// A table, a buffer, and the tokens in flight. The buffer's answers have a place of their own until they
// are in flight too.
#[derive(Drop)]
struct PartRun<J: Job, P: Port> {
    table: Table<J>,
    buffer: PartBuffer<J, P>,
    way: Rounds<J>,
    answers: BufferAnswers<J>,
}

/// Runs an image on one thread, until the whole walk has been run, so many instances have fired, the
/// walk's first out-of-bounds load or store is next, a port fails, or memory runs out. Each port
/// reports the words that it has left, and none is closed.
pub fn part_image<P: Port>(
    alloc: Global,
    image: &Checked,
    input: Words,
    ports: Slots<P>,
    budget: u64,
) -> RunEnd<P>
    requires told { AllTell (contents P.tells ports) }
    requires open { AllOpen (contents P.tells ports) }
    ensures tells { RunTells image.now (world_with input (contents P.tells ports))
        (contents P.tells ports) budget result.finish (contents P.tells result.ports) }
    ensures open { AllOpen (contents P.tells result.ports) }
{
    part_run::<Brand, P>(alloc, image, input, ports, budget)
}

/// Runs the image of a job, as `part_image` does. The job names this image, this input, and the ports
/// as they are handed in, with the words that they have left.
pub fn part_run<J: Job, P: Port>(
    alloc: Global,
    image: &Checked,
    input: Words,
    ports: Slots<P>,
    budget: u64,
) -> RunEnd<P>
    requires image { image.now ≡ J.image }
    requires world { J.world ≡ world_with input (contents P.tells ports) }
    requires began { J.began ≡ began_of (contents P.tells ports) }
    requires told { AllTell (contents P.tells ports) }
    requires open { AllOpen (contents P.tells ports) }
    ensures tells { RunTells J.image J.world (contents P.tells ports) budget result.finish
        (contents P.tells result.ports) }
    ensures open { AllOpen (contents P.tells result.ports) }
{
    told_ports_begin();
    match Code::<'_, J>::of(alloc, image) {
        Ok(code) => run_over(alloc, &code, input, ports, budget),
        Err(_) => stays(ports),
    }
}

// Runs the code of a job with these ports.
fn run_over<J: Job, P: Port>(
    alloc: Global,
    code: &Code<'_, J>,
    input: Words,
    ports: Slots<P>,
    budget: u64,
) -> RunEnd<P>
    requires input { input ≡ J.world.input }
    requires ports { AllBegan J.began J.world.left (contents P.tells ports) }
    requires began { J.began ≡ began_of (contents P.tells ports) }
    requires open { AllOpen (contents P.tells ports) }
    ensures tells { RunTells J.image J.world (contents P.tells ports) budget result.finish
        (contents P.tells result.ports) }
    ensures open { AllOpen (contents P.tells result.ports) }
{
    match PartBuffer::begin(alloc, code, input, ports) {
        Ok(buffer) => run_from(alloc, code, buffer, budget),
        Err(ports) => stays(ports),
    }
}

// Runs the code of a job with its opening buffer.
fn run_from<J: Job, P: Port>(
    alloc: Global,
    code: &Code<'_, J>,
    buffer: PartBuffer<J, P>,
    budget: u64,
) -> RunEnd<P>
    requires none { buffer.kept ≡ [] }
    ensures tells { (handed : List (Option Told)) → J.began ≡ began_of handed →
        RunTells J.image J.world handed budget result.finish (contents P.tells result.ports) }
    ensures open { AllOpen (contents P.tells result.ports) }
{
    let mut run = PartRun {
        table: Table::new(alloc),
        buffer,
        way: Rounds::none(alloc),
        answers: BufferAnswers::none(alloc),
    };
    let ending = match begin(alloc, code, &mut run.way) {
        Ok(()) => run_on(code, &mut run, budget),
        Err(_) => Ending::Stopped,
    };
    finish(code, run.table, run.buffer, ending, budget)
}

// Puts the start pulse in flight.
fn begin<J: Job>(alloc: Global, code: &Code<'_, J>, way: &mut Rounds<J>) -> Result<(), NoMemory>
    ensures { OnOk result (Covers (start_tokens J.image) way.new) }
{
    way.pour(start(alloc, code)?)
}

// Memory ran out, and nothing was run.
fn stays<P: Port>(ports: Slots<P>) -> RunEnd<P>
    ensures finish { result.finish ≡ finish.NoMemory }
    ensures ports { result.ports ≡ ports }
{
    RunEnd {
        finish: RunFinish::NoMemory,
        ports,
    }
}

// Brings tokens to the table until none is in flight, the budget is exhausted, or the buffer is stopped.
fn run_on<J: Job, P: Port>(code: &Code<'_, J>, run: &mut PartRun<J, P>, budget: u64) -> Ending
    requires within { length run.old.table.fired ≤ budget }
    requires paid { PaidWhile J.image (part run.old.table) run.old.buffer run.old.way }
    ensures within { length run.new.table.fired ≤ budget }
    ensures ended { PartEndingSo J.image J.world budget run.new.table run.new.buffer result }
{
    for _ in 0..u64::MAX {
        if let Some(ending) = step(code, run, budget) {
            return ending;
        }
    }
    Ending::Stopped
}

// Brings a token of the round to the table, if the run goes on.
fn step<J: Job, P: Port>(code: &Code<'_, J>, run: &mut PartRun<J, P>, budget: u64) -> Option<Ending>
    requires within { length run.old.table.fired ≤ budget }
    requires paid { PaidWhile J.image (part run.old.table) run.old.buffer run.old.way }
    ensures within { length run.new.table.fired ≤ budget }
    ensures paid { MatchOption result
        (PaidWhile J.image (part run.new.table) run.new.buffer run.new.way)
        (λ ending. PartEndingSo J.image J.world budget run.new.table run.new.buffer ending) }
{
    if run.buffer.stop().is_some() {
        return Some(Ending::Stopped);
    }
    let Some(token) = run.way.take() else {
        return Some(Ending::Whole);
    };
    if run.table.fired_count() as u64 >= budget {
        if run.table.holds(token.wave(), token.instr(), token.port()) {
            return None;
        }
        return Some(Ending::Spent);
    }
    match bring(code, run, token) {
        Ok(()) => None,
        Err(_) => Some(Ending::Stopped),
    }
}

// Brings a token to the table, and what comes of it to the buffer. One that has come before is released.
fn bring<J: Job, P: Port>(
    code: &Code<'_, J>,
    run: &mut PartRun<J, P>,
    token: Token<J>,
) -> Result<(), NoMemory>
    requires paid { Paid J.image (part run.old.table) run.old.buffer (token ∷ run.old.way) }
    ensures fired { length run.new.table.fired ≤ length run.old.table.fired + 1 }
    ensures paid { OnOk result
        (PaidWhile J.image (part run.new.table) run.new.buffer run.new.way) }
{
    run.table.facts();
    code.facts();
    token.facts();
    let mut results = Results::none();
    let took = run.table.accept_into(code, &token, &mut results);
    let Results { mut sent, request } = results;
    match took {
        Took::Waits => match address_of(code, token) {
            Some(address) => tell(
                code,
                &mut run.buffer,
                &mut run.answers,
                &mut run.way,
                address,
            ),
            None => Ok(()),
        },
        Took::Fires => run.way.send_all(&mut sent),
        Took::Asks => match request {
            Some(request) => ask(
                code,
                &mut run.buffer,
                &mut run.answers,
                &mut run.way,
                request,
            ),
            None => unreachable!(),
        },
        Took::Old => Ok(()),
        Took::NoMemory => Err(NoMemory),
    }
}

// Brings an address to the buffer.
fn tell<J: Job, P: Port>(
    code: &Code<'_, J>,
    buffer: &mut PartBuffer<J, P>,
    answers: &mut BufferAnswers<J>,
    way: &mut Rounds<J>,
    token: Token<J>,
) -> Result<(), NoMemory>
    requires store { is_store_op (instr_at J.image token.instr).op ≡ true }
    requires port { token.port ≡ 0 }
    ensures paid { OnOk result ((t : Tables) → Paid J.image t buffer.old way.old
        → PaidWhile J.image t buffer.new way.new) }
{
    let answer = buffer.address_into(code, token, answers);
    way.offer(answer, answers)
}

// Brings a request to the buffer.
fn ask<J: Job, P: Port>(
    code: &Code<'_, J>,
    buffer: &mut PartBuffer<J, P>,
    answers: &mut BufferAnswers<J>,
    way: &mut Rounds<J>,
    request: Request<J>,
) -> Result<(), NoMemory>
    ensures paid { OnOk result ((t : Tables) → Paid J.image t buffer.old way.old
        → PaidWhile J.image t buffer.new way.new) }
    ensures asked { OnOk result (GoesOn buffer.new
        → IsWhole buffer.new request.wave request.instr) }
{
    buffer.facts();
    let answer = buffer.submit_into(code, request, answers);
    way.offer(answer, answers)
}

// The token, where it is the address of a store.
fn address_of<J: Job>(code: &Code<'_, J>, token: Token<J>) -> Option<Token<J>>
    ensures { MatchOption result (Unit {0}) (λ address. (address ≡ token)
        × (is_store_op (instr_at J.image token.instr).op ≡ true) × (token.port ≡ 0)) }
{
    match code.program().op(token.instr()) {
        Op::Store(_) => { if token.port() == 0 { Some(token) } else { None } }
        _ => None,
    }
}
