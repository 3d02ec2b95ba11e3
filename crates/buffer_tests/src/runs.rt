//! Runs of a table and a buffer, token by token.

ghost use Rattle.std.specs.Prelude.{◌≡◌};
ghost use Rattle.port_set.specs.Slots.{AllOpen, contents};
ghost use Rattle.store_buf.specs.Outdoors.{AllTell, began_of, world_with};

use df_core::{Code, Job, Request, Token, TokenList, start};
use match_table::{Accept, Table};
use port_set::{Port, Slots};
use std::alloc::Global;
use std::marker::Brand;
use store_buf::{BufFault, Buffer, BufferEnd, MemoryOrder, told_ports_begin};
use ws_isa::Checked;
use ws_words::{NoMemory, Words};

// The most tokens of a run.
const TOKENS: u32 = 1_000;

// What a buffer answered to a request, and to the same request once more.
pub type Answer = (Option<BufFault>, Option<BufFault>);

/// What has come of a run: each token's wave number, instruction and port, in the order in which they
/// came, and how many requests had been issued then; the answers that differ from the one before; the
/// words of what was issued, in rising order; and how it ended.
#[derive(Drop)]
pub struct Past<P: Port> {
    pub tokens: Vec<(u64, u32, u8, usize)>,
    pub answers: Vec<Answer>,
    pub words: Vec<u64>,
    pub stop: Option<BufFault>,
    pub is_whole: bool,
    pub end: BufferEnd<P>,
}

#[derive(Drop)]
struct Run<J: Job, P: Port> {
    table: Table<J>,
    buffer: Buffer<J, P>,
    bag: Vec<Token<J>>,
    tokens: Vec<(u64, u32, u8, usize)>,
    answers: Vec<Answer>,
}

// Puts all tokens of a list behind others.
fn take_all<J: Job>(tokens: TokenList<J>, bag: &mut Vec<Token<J>>) -> Result<(), NoMemory> {
    let mut tokens = tokens;
    for _ in 0..1_000 {
        let Some(token) = tokens.pop() else {
            break;
        };
        bag.push(token)?;
    }
    Ok(())
}

// Submits a request, twice.
fn ask<J: Job, P: Port>(
    code: &Code<'_, J>,
    run: &mut Run<J, P>,
    request: Request<J>,
) -> Result<(), NoMemory> {
    let again = request.again();
    let first = match run.buffer.submit(code, request) {
        Ok(tokens) => {
            take_all(tokens, &mut run.bag)?;
            None
        }
        Err(fault) => Some(fault),
    };
    let answer = (first, run.buffer.submit(code, again).err());
    if run.answers.last() != Some(&answer) {
        run.answers.push(answer)?;
    }
    Ok(())
}

// How many requests have been issued.
fn issued<J: Job, P: Port>(buffer: &Buffer<J, P>) -> usize {
    let mut count = 0usize;
    for kept in buffer.kept() {
        if kept.answer.is_some() {
            count = count.wrapping_add(1);
        }
    }
    count
}

// Brings a token to the table, and what it asks for to the buffer.
fn bring<J: Job, P: Port>(
    alloc: Global,
    code: &Code<'_, J>,
    run: &mut Run<J, P>,
    token: Token<J>,
) -> Result<(), NoMemory> {
    let (wave, instr, port) = (token.wave(), token.instr(), token.port());
    match run.table.accept(alloc, code, token) {
        Ok(Accept::Waits) => {}
        Ok(Accept::Fires(tokens)) => take_all(tokens, &mut run.bag)?,
        Ok(Accept::Asks(request)) => ask(code, run, request)?,
        Err(_) => return Err(NoMemory),
    }
    run.tokens.push((wave, instr, port, issued(&run.buffer)))?;
    Ok(())
}

// Brings tokens in some order.
fn bring_all<J: Job, P: Port>(
    alloc: Global,
    code: &Code<'_, J>,
    run: &mut Run<J, P>,
    seed: u64,
) -> Result<(), NoMemory> {
    let mut number = seed;
    for _ in 0..TOKENS {
        if run.bag.len() == 0 {
            return Ok(());
        }
        number = number
            .wrapping_mul(6_364_136_223_846_793_005)
            .wrapping_add(1_442_695_040_888_963_407);
        let place = (number >> 33) as usize % run.bag.len();
        let token = run.bag.swap_remove(place);
        bring(alloc, code, run, token)?;
    }
    Ok(())
}

// The words that issued loads, INs and GIVEs gave, in rising order.
fn words<J: Job, P: Port>(
    alloc: Global,
    code: &Code<'_, J>,
    buffer: &Buffer<J, P>,
) -> Result<Vec<u64>, NoMemory> {
    let mut words = Vec::new(alloc);
    for kept in buffer.kept() {
        if let Some(word) = buffer.answer(code, kept.wave, kept.instr) {
            words.push(word)?;
        }
    }
    words.sort()?;
    Ok(words)
}

// A run with no tokens.
fn begun<J: Job, P: Port>(alloc: Global, buffer: Buffer<J, P>) -> Run<J, P> {
    Run {
        table: Table::new(alloc),
        buffer,
        bag: Vec::new(alloc),
        tokens: Vec::new(alloc),
        answers: Vec::new(alloc),
    }
}

// Carries a run out, and answers the words of what was issued.
fn carry_out<J: Job, P: Port>(
    alloc: Global,
    code: &Code<'_, J>,
    run: &mut Run<J, P>,
    seed: u64,
) -> Result<Vec<u64>, NoMemory> {
    let tokens = start(alloc, code)?;
    take_all(tokens, &mut run.bag)?;
    bring_all(alloc, code, run, seed)?;
    words(alloc, code, &run.buffer)
}

// What has come of a run.
fn what_came<J: Job, P: Port>(run: Run<J, P>, words: Vec<u64>) -> Past<P> {
    Past {
        tokens: run.tokens,
        answers: run.answers,
        words,
        stop: run.buffer.stop(),
        is_whole: run.bag.len() == 0,
        end: run.buffer.finish(),
    }
}

// A whole run of a buffer.
fn run_on<J: Job, P: Port>(
    alloc: Global,
    code: &Code<'_, J>,
    buffer: Buffer<J, P>,
    seed: u64,
) -> Result<Past<P>, NoMemory> {
    let mut run = begun(alloc, buffer);
    match carry_out(alloc, code, &mut run, seed) {
        Ok(words) => Ok(what_came(run, words)),
        Err(_) => Err(NoMemory),
    }
}

// The same as `past_of`, as a job.
fn run_as<J: Job, P: Port>(
    alloc: Global,
    image: &Checked,
    input: Words,
    ports: Slots<P>,
    seed: u64,
) -> Result<Past<P>, NoMemory>
    requires image { image.now ≡ J.image }
    requires world { J.world ≡ world_with input (contents P.tells ports) }
    requires began { J.began ≡ began_of (contents P.tells ports) }
    requires told { AllTell (contents P.tells ports) }
    requires open { AllOpen (contents P.tells ports) }
{
    told_ports_begin();
    let Ok(code) = Code::<'_, J>::of(alloc, image) else {
        return Err(NoMemory);
    };
    match Buffer::begin(alloc, &code, input, ports) {
        Ok(buffer) => run_on(alloc, &code, buffer, seed),
        Err(_) => Err(NoMemory),
    }
}

/// Runs an image on a table and a buffer. Tokens come in an order that the seed makes.
pub fn past_of<P: Port>(
    alloc: Global,
    image: &Checked,
    input: Words,
    ports: Slots<P>,
    seed: u64,
) -> Result<Past<P>, NoMemory>
    requires told { AllTell (contents P.tells ports) }
    requires open { AllOpen (contents P.tells ports) }
{
    run_as::<Brand, P>(alloc, image, input, ports, seed)
}

/// Releases a run. The caller needn't say how each of its parts is released.
pub fn let_go<P: Port>(_past: Past<P>) {}
