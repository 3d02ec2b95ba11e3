//! What a crew does after a phase.

ghost use Rattle.std.specs.Prelude.{◌≡◌, ℕ, [], All, IfErr, IfOk, IfSome, OnOk};
ghost use Rattle.match_table.specs.Together.{AllServe, part_of};
ghost use Rattle.fire_crew.specs.Owing.{AllKnown, IsMissing};
ghost use Rattle.fire_crew.specs.Ends.{IsGoing};
ghost use Rattle.fire_crew.specs.Solo.{Paid};
ghost use Rattle.fire_crew.specs.Verdicts.{CourseSo, EndingSo, GoesWith};

use crate::ends::some_run;
use crate::missing::missing;
use crate::solo::see_whole;
use crate::unknown::unknown;
use df_core::{Code, Job, Request, Token, TokenList};
use match_table::{Tables, is_there};
use port_set::Port;
use std::alloc::Global;
use store_buf::{Buffer, MemoryOrder};

/// Why a run has ended: the whole walk has been run; the budget is exhausted and a token is outstanding; the
/// buffer is stopped, or a port found no memory; or memory ran out.
#[derive(Clone, Copy, Debug, PartialEq, Eq)]
pub enum Ending {
    Whole,
    Spent,
    Stopped,
    Starved,
}

/// Whether a run goes on, with these tokens, of which one is named that no table has had; or has ended.
#[derive(Drop)]
pub enum Verdict<J: Job> {
    Go {
        token: Token<J>,
        tokens: TokenList<J>,
    },
    Ends(Ending),
}

/// Whether a run goes on where these tokens were released in the last phase and so many may still fire.
pub fn find_course<J: Job, P: Port>(
    alloc: Global,
    code: &Code<'_, J>,
    tables: &Tables<J>,
    buffer: &mut Buffer<J, P>,
    tokens: TokenList<J>,
    left: u64,
) -> Verdict<J>
    requires serve { AllServe tables.now }
    ensures { CourseSo J.image J.world J.began (part_of tables.now) left buffer.new result }
{
    if let Some(_) = buffer.stop() {
        return Verdict::Ends(Ending::Stopped);
    }
    let mut tokens = tokens;
    if left > 0
        && let Some(token) = wanted(tables, &mut tokens)
    {
        return go(token, tokens);
    }
    if let Err(ending) = submit_unknown(alloc, code, tables, buffer) {
        return Verdict::Ends(ending);
    }
    let most = if left == 0 { 1 } else { usize::MAX };
    match missing(alloc, code, tables, buffer, most) {
        Ok(owed) => settle(code, tables, buffer, owed, left),
        Err(_) => Verdict::Ends(Ending::Starved),
    }
}

/// The outstanding tokens when a phase has ended, or why the run has.
pub fn find_owed<J: Job, P: Port>(
    alloc: Global,
    code: &Code<'_, J>,
    tables: &Tables<J>,
    buffer: &mut Buffer<J, P>,
) -> Result<TokenList<J>, Ending>
    requires serve { AllServe tables.now }
    ensures going { OnOk result (IsGoing buffer.new) }
    ensures paid { IfOk result (λ owed. Paid J.image (part_of tables.now) buffer.new owed) }
    ensures ends { IfErr result (λ ending. (left : ℕ) → EndingSo J.image J.world J.began
        (part_of tables.now).fired left buffer.new ending) }
{
    if let Some(_) = buffer.stop() {
        return Err(Ending::Stopped);
    }
    submit_unknown(alloc, code, tables, buffer)?;
    match missing(alloc, code, tables, buffer, usize::MAX) {
        Ok(owed) if owed.len() < usize::MAX => Ok(owed),
        _ => Err(Ending::Starved),
    }
}

// The last of these tokens that no table has had. Those behind it are released.
fn wanted<J: Job>(tables: &Tables<J>, tokens: &mut TokenList<J>) -> Option<Token<J>>
    ensures { IfSome result (IsMissing (part_of tables.now).held) }
{
    while let Some(token) = tokens.pop() {
        if !is_there(tables, &token) {
            return Some(token);
        }
    }
    None
}

// Goes on with this token, which stands behind the others too.
fn go<J: Job>(token: Token<J>, tokens: TokenList<J>) -> Verdict<J>
    ensures { GoesWith token result }
{
    let mut tokens = tokens;
    let _ = tokens.push(token.again());
    Verdict::Go { token, tokens }
}

// Submits the requests of instances that have fired and that the buffer doesn't know, so that it knows
// all, unless it is stopped or memory runs out.
fn submit_unknown<J: Job, P: Port>(
    alloc: Global,
    code: &Code<'_, J>,
    tables: &Tables<J>,
    buffer: &mut Buffer<J, P>,
) -> Result<(), Ending>
    requires { IsGoing buffer.old }
    ensures going { OnOk result (IsGoing buffer.new) }
    ensures known { OnOk result (AllKnown J.image (part_of tables.now) buffer.new.kept) }
    ensures ends { IfErr result (λ ending. (left : ℕ) → EndingSo J.image J.world J.began
        (part_of tables.now).fired left buffer.new ending) }
{
    let Ok(requests) = unknown(alloc, code, tables, buffer) else {
        return Err(Ending::Starved);
    };
    if requests.len() == 0 {
        return Ok(());
    }
    submit_all(code, buffer, requests);
    if let Some(_) = buffer.stop() {
        return Err(Ending::Stopped);
    }
    match unknown(alloc, code, tables, buffer) {
        Ok(requests) if requests.len() == 0 => Ok(()),
        _ => Err(Ending::Starved),
    }
}

// What is to be done if these tokens are outstanding.
fn settle<J: Job, P: Port>(
    code: &Code<'_, J>,
    tables: &Tables<J>,
    buffer: &Buffer<J, P>,
    owed: TokenList<J>,
    left: u64,
) -> Verdict<J>
    requires serve { AllServe tables.now }
    requires going { IsGoing buffer.now }
    requires known { AllKnown J.image (part_of tables.now) buffer.now.kept }
    requires missing { All (IsMissing (part_of tables.now).held) owed }
    requires paid { owed ≡ [] → Paid J.image (part_of tables.now) buffer.now owed }
    ensures { CourseSo J.image J.world J.began (part_of tables.now) left buffer.now result }
{
    let mut owed = owed;
    match owed.pop() {
        None => {
            see_whole(code, tables, buffer);
            Verdict::Ends(Ending::Whole)
        }
        Some(token) => {
            if left > 0 {
                return go(token, owed);
            }
            some_run(code, tables, buffer, &token);
            Verdict::Ends(Ending::Spent)
        }
    }
}

// Submits requests. The buffer reports what comes of it.
fn submit_all<J: Job, P: Port>(
    code: &Code<'_, J>,
    buffer: &mut Buffer<J, P>,
    requests: Vec<Request<J>>,
) {
    for request in requests {
        let _ = buffer.submit(code, request);
    }
}
