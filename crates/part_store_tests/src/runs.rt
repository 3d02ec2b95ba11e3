//! Runs of a table and a buffer with queues, token by token.

ghost use Rattle.std.specs.Prelude.{◌≡◌};
ghost use Rattle.port_set.specs.Slots.{AllOpen, contents};
ghost use Rattle.store_buf.specs.Outdoors.{AllTell, began_of, world_with};

use crate::bring::{BroughtRun, bring, is_data, take_all};
use df_core::{Code, Job, Token, start};
use match_table::Table;
use part_store::PartBuffer;
use port_set::{Port, Slots};
use std::alloc::Global;
use std::marker::Brand;
use store_buf::{BufFault, BufferEnd, told_ports_begin};
use ws_isa::Checked;
use ws_words::{NoMemory, Words};

// The most tokens of a run.
const TOKENS: u32 = 1_000;

/// In which order tokens come: those to these ports of these instructions, and then the others as a seed
/// has it. Where `late` is set, the data of a store comes when nothing else is in flight. Where `apart`
/// is set, an address that comes before its data goes to the buffer alone. `watched` is an instruction of
/// wave 1 whose answer is asked for after each call.
#[derive(Clone, Copy)]
pub struct BufferOrder {
    pub script: &'static [(u32, u8)],
    pub seed: Option<u64>,
    pub late: bool,
    pub apart: bool,
    pub watched: u32,
}

/// What the buffer said to an address or a request of an instruction: the last token that it reported, by
/// instruction, port and value, or a fault; its fault when it was asked the same again; how many queues were
/// open then, and the answer of the watched instruction.
#[derive(Clone, Copy, Debug, PartialEq, Eq)]
pub struct Said {
    pub instr: u32,
    pub token: Option<(u32, u8, u64)>,
    pub fault: Option<BufFault>,
    pub again: Option<BufFault>,
    pub open: u32,
    pub answer: Option<u64>,
}

/// What has come of a run: what the buffer said in turn; the answer of each instance that it keeps; and how
/// it ended.
#[derive(Drop)]
pub struct Past<P: Port> {
    pub said: Vec<Said>,
    pub answers: Vec<(u64, u32, Option<u64>)>,
    pub stop: Option<BufFault>,
    pub is_whole: bool,
    pub end: BufferEnd<P>,
}

// The place of a token to this port of this instruction.
fn place_of<J: Job>(bag: &[Token<J>], instr: u32, port: u8) -> Option<usize> {
    bag.iter()
        .position(|token| token.instr() == instr && token.port() == port)
}

// The place of a token from this one on, round and round, that isn't the data of a store.
fn place_before<J: Job>(code: &Code<'_, J>, bag: &[Token<J>], from: usize) -> usize {
    let mut at = from;
    for _ in 0..bag.len() {
        match bag.get(at) {
            Some(token) => {
                if !is_data(code, token) {
                    return at;
                }
                at = at.wrapping_add(1);
            }
            None => at = 0,
        }
    }
    from
}

// Brings the tokens of a script.
fn bring_script<J: Job, P: Port>(
    alloc: Global,
    code: &Code<'_, J>,
    run: &mut BroughtRun<J, P>,
    order: &BufferOrder,
) -> Result<(), NoMemory> {
    for (instr, port) in order.script {
        let Some(place) = place_of(&run.bag, *instr, *port) else {
            return Err(NoMemory);
        };
        if place < run.bag.len() {
            let token = run.bag.swap_remove(place);
            bring(alloc, code, run, order, token)?;
        }
    }
    Ok(())
}

// Brings tokens as a seed has it.
fn bring_all<J: Job, P: Port>(
    alloc: Global,
    code: &Code<'_, J>,
    run: &mut BroughtRun<J, P>,
    order: &BufferOrder,
    seed: u64,
) -> Result<(), NoMemory> {
    let mut number = seed;
    for _ in 0..TOKENS {
        if run.bag.len() == 0 {
            return Ok(());
        }
        number = number
            .wrapping_mul(6_364_136_223_846_793_005)
            .wrapping_add(1_442_695_040_888_963_407);
        let mut place = (number >> 33) as usize % run.bag.len();
        if order.late {
            place = place_before(code, &run.bag, place);
        }
        if place < run.bag.len() {
            let token = run.bag.swap_remove(place);
            bring(alloc, code, run, order, token)?;
        }
    }
    Ok(())
}

// The answers of what is kept.
fn answers<J: Job, P: Port>(
    alloc: Global,
    code: &Code<'_, J>,
    buffer: &PartBuffer<J, P>,
) -> Result<Vec<(u64, u32, Option<u64>)>, NoMemory> {
    let mut answers = Vec::new(alloc);
    for kept in buffer.kept() {
        let answer = buffer.answer(code, kept.wave, kept.instr);
        answers.push((kept.wave, kept.instr, answer))?;
    }
    Ok(answers)
}

// A run with no tokens.
fn begun<J: Job, P: Port>(alloc: Global, buffer: PartBuffer<J, P>) -> BroughtRun<J, P> {
    BroughtRun {
        table: Table::new(alloc),
        buffer,
        bag: Vec::new(alloc),
        said: Vec::new(alloc),
    }
}

// Carries a run out, and reports the answers.
fn carry_out<J: Job, P: Port>(
    alloc: Global,
    code: &Code<'_, J>,
    run: &mut BroughtRun<J, P>,
    order: &BufferOrder,
) -> Result<Vec<(u64, u32, Option<u64>)>, NoMemory> {
    let tokens = start(alloc, code)?;
    let _ = take_all(tokens, &mut run.bag)?;
    bring_script(alloc, code, run, order)?;
    if let Some(seed) = order.seed {
        bring_all(alloc, code, run, order, seed)?;
    }
    answers(alloc, code, &run.buffer)
}

// What has come of a run.
fn what_came<J: Job, P: Port>(
    run: BroughtRun<J, P>,
    answers: Vec<(u64, u32, Option<u64>)>,
) -> Past<P> {
    Past {
        said: run.said,
        answers,
        stop: run.buffer.stop(),
        is_whole: run.bag.len() == 0,
        end: run.buffer.finish(),
    }
}

// A whole run of a buffer.
fn run_on<J: Job, P: Port>(
    alloc: Global,
    code: &Code<'_, J>,
    buffer: PartBuffer<J, P>,
    order: &BufferOrder,
) -> Result<Past<P>, NoMemory> {
    let mut run = begun(alloc, buffer);
    match carry_out(alloc, code, &mut run, order) {
        Ok(answers) => Ok(what_came(run, answers)),
        Err(_) => Err(NoMemory),
    }
}

// The same as `past_of`, as a job.
fn run_as<J: Job, P: Port>(
    alloc: Global,
    image: &Checked,
    input: Words,
    ports: Slots<P>,
    order: &BufferOrder,
) -> Result<Past<P>, NoMemory>
    requires image { image.now ≡ J.image }
    requires world { J.world ≡ world_with input (contents P.tells ports) }
    requires began { J.began ≡ began_of (contents P.tells ports) }
    requires told { AllTell (contents P.tells ports) }
    requires open { AllOpen (contents P.tells ports) }
{
    told_ports_begin();
    let Ok(code) = Code::<'_, J>::of(alloc, image) else {
        return Err(NoMemory);
    };
    match PartBuffer::begin(alloc, &code, input, ports) {
        Ok(buffer) => run_on(alloc, &code, buffer, order),
        Err(_) => Err(NoMemory),
    }
}

/// Brings the tokens of an image to a table and a buffer, in some order.
pub fn past_of<P: Port>(
    alloc: Global,
    image: &Checked,
    input: Words,
    ports: Slots<P>,
    order: &BufferOrder,
) -> Result<Past<P>, NoMemory>
    requires told { AllTell (contents P.tells ports) }
    requires open { AllOpen (contents P.tells ports) }
{
    run_as::<Brand, P>(alloc, image, input, ports, order)
}

/// Releases a run. The caller needn't say how each of its parts is released.
pub fn let_go<P: Port>(_past: Past<P>) {}
