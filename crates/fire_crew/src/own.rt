//! What a collector does itself where the workers left a token.

ghost use Rattle.std.specs.Prelude.{◌≡◌, ◌<◌, ◌≤◌, OnOk, length, true};
ghost use Rattle.df_core.specs.Core.{has};
ghost use Rattle.match_table.specs.Growth.{AllGrow};
ghost use Rattle.match_table.specs.Rows.{contents};
ghost use Rattle.match_table.specs.Together.{AllServe, part_of};

use crate::pour;
use df_core::{Code, Job, Request, Token, TokenList};
use match_table::{Results, Tables, Took, bring, fired, is_there};
use port_set::Port;
use std::alloc::Global;
use store_buf::{BufFault, Buffer, MemoryOrder};
use ws_words::NoMemory;

/// Brings a token to its table if none has had it and more may fire, and puts what comes of it behind
/// these tokens.
pub fn see_brought<J: Job, P: Port>(
    alloc: Global,
    code: &Code<'_, J>,
    tables: &mut Tables<J>,
    buffer: &mut Buffer<J, P>,
    token: &Token<J>,
    tokens: &mut TokenList<J>,
    budget: u64,
) -> Result<(), NoMemory>
    requires serve { AllServe tables.old }
    requires within { length (part_of tables.old).fired ≤ budget }
    ensures serve { AllServe tables.new }
    ensures within { length (part_of tables.new).fired ≤ budget }
    ensures grow { AllGrow (contents tables.old) (contents tables.new) }
    ensures come { OnOk result (length (part_of tables.new).fired < budget → has ((part_of tables.new).held
        token.now.wave token.now.instr token.now.port) ≡ true) }
{
    if fired(tables) >= budget || is_there(tables, token) {
        return Ok(());
    }
    let mut results = Results::none();
    let took = bring(code, tables, token, &mut results);
    if took == Took::NoMemory {
        return Err(NoMemory);
    }
    follow(alloc, code, buffer, results, tokens)
}

// What an instance hands on: result tokens, or a request.
fn follow<J: Job, P: Port>(
    alloc: Global,
    code: &Code<'_, J>,
    buffer: &mut Buffer<J, P>,
    results: Results<'_, J>,
    tokens: &mut TokenList<J>,
) -> Result<(), NoMemory> {
    pour(results.sent.listed(alloc), tokens);
    match results.request {
        Some(request) => submit_request(code, buffer, request, tokens),
        None => Ok(()),
    }
}

// Submits a request.
fn submit_request<J: Job, P: Port>(
    code: &Code<'_, J>,
    buffer: &mut Buffer<J, P>,
    request: Request<J>,
    tokens: &mut TokenList<J>,
) -> Result<(), NoMemory> {
    match buffer.submit(code, request) {
        Ok(told) => {
            pour(told, tokens);
            Ok(())
        }
        Err(BufFault::NoMemory) => Err(NoMemory),
        Err(_) => Ok(()),
    }
}
