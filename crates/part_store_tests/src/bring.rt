//! Tokens are brought to a table and to a buffer with queues.

ghost use Rattle.std.specs.Prelude.{◌≡◌, true, MatchOption};
ghost use Rattle.ws_isa.specs.Image.{instr_at};
ghost use Rattle.part_store.specs.Parted.{is_store_op};

use crate::runs::{BufferOrder, Said};
use df_core::{Code, Job, Request, Token, TokenList};
use match_table::{Accept, Table};
use part_store::PartBuffer;
use port_set::Port;
use std::alloc::Global;
use store_buf::BufFault;
use ws_isa::Op;
use ws_words::NoMemory;

#[derive(Drop)]
pub struct BroughtRun<J: Job, P: Port> {
    pub table: Table<J>,
    pub buffer: PartBuffer<J, P>,
    pub bag: Vec<Token<J>>,
    pub said: Vec<Said>,
}

// Puts all tokens of a list behind others, and reports the last one.
pub fn take_all<J: Job>(
    tokens: TokenList<J>,
    bag: &mut Vec<Token<J>>,
) -> Result<Option<(u32, u8, u64)>, NoMemory> {
    let mut tokens = tokens;
    let mut last = None;
    for _ in 0..1_000 {
        let Some(token) = tokens.pop() else {
            break;
        };
        last = Some((token.instr(), token.port(), token.value()));
        bag.push(token)?;
    }
    Ok(last)
}

// Notes what the buffer answered to a call on an instruction, and to the same call once more.
fn note<J: Job, P: Port>(
    code: &Code<'_, J>,
    run: &mut BroughtRun<J, P>,
    order: &BufferOrder,
    instr: u32,
    answer: Result<TokenList<J>, BufFault>,
    again: Option<BufFault>,
) -> Result<(), NoMemory> {
    let (token, fault) = match answer {
        Ok(tokens) => (take_all(tokens, &mut run.bag)?, None),
        Err(fault) => (None, Some(fault)),
    };
    let said = Said {
        instr,
        token,
        fault,
        again,
        open: run.buffer.open_queues(),
        answer: run.buffer.answer(code, 1, order.watched),
    };
    run.said.push(said)?;
    Ok(())
}

// Brings an address to the buffer, twice.
fn tell<J: Job, P: Port>(
    code: &Code<'_, J>,
    run: &mut BroughtRun<J, P>,
    order: &BufferOrder,
    token: Token<J>,
) -> Result<(), NoMemory>
    requires store { is_store_op (instr_at J.image token.instr).op ≡ true }
    requires port { token.port ≡ 0 }
{
    let instr = token.instr();
    let once_more = token.again();
    let answer = run.buffer.address(code, token);
    let again = run.buffer.address(code, once_more).err();
    note(code, run, order, instr, answer, again)
}

// Brings a request to the buffer, twice.
fn ask<J: Job, P: Port>(
    code: &Code<'_, J>,
    run: &mut BroughtRun<J, P>,
    order: &BufferOrder,
    request: Request<J>,
) -> Result<(), NoMemory> {
    let instr = request.instr();
    let once_more = request.again();
    let answer = run.buffer.submit(code, request);
    let again = run.buffer.submit(code, once_more).err();
    note(code, run, order, instr, answer, again)
}

// The same token once more, where it is the address of a store.
fn address_of<J: Job>(code: &Code<'_, J>, token: &Token<J>) -> Option<Token<J>>
    ensures { MatchOption result (Unit {0}) (λ address. (address ≡ token.now)
        × (is_store_op (instr_at J.image token.now.instr).op ≡ true) × (token.now.port ≡ 0)) }
{
    match code.program().op(token.instr()) {
        Op::Store(_) => {
            if token.port() == 0 {
                Some(token.again())
            } else {
                None
            }
        }
        _ => None,
    }
}

// Whether a token is the data of a store.
pub fn is_data<J: Job>(code: &Code<'_, J>, token: &Token<J>) -> bool {
    match code.program().op(token.instr()) {
        Op::Store(_) => token.port() == 1,
        _ => false,
    }
}

// Brings a token to the table, and what comes of it to the buffer.
pub fn bring<J: Job, P: Port>(
    alloc: Global,
    code: &Code<'_, J>,
    run: &mut BroughtRun<J, P>,
    order: &BufferOrder,
    token: Token<J>,
) -> Result<(), NoMemory> {
    let address = address_of(code, &token);
    match run.table.accept(alloc, code, token) {
        Ok(Accept::Waits) => match address {
            Some(address) if order.apart => tell(code, run, order, address),
            _ => Ok(()),
        },
        Ok(Accept::Fires(tokens)) => {
            let _ = take_all(tokens, &mut run.bag)?;
            Ok(())
        }
        Ok(Accept::Asks(request)) => ask(code, run, order, request),
        Err(_) => Err(NoMemory),
    }
}
