//! The run of a crew of one, which shares nothing: no table is behind a lock, and no token in a seat.

ghost use Rattle.std.specs.Prelude.{◌≡◌, ◌+◌, ◌-◌, ◌<◌, ◌≤◌, ◌∷◌, ◌++◌, [], OnOk, false, length, true};
ghost use Rattle.df_core.specs.Core.{has};
ghost use Rattle.store_buf.specs.Runs.{Covers};
ghost use Rattle.match_table.specs.Growth.{AllGrow};
ghost use Rattle.match_table.specs.Rows.{contents};
ghost use Rattle.match_table.specs.Together.{AllServe, part_of};
ghost use Rattle.fire_crew.specs.Ends.{AllRun, IsGoing, SomeRun};
ghost use Rattle.fire_crew.specs.Owing.{AllKnown};
ghost use Rattle.fire_crew.specs.Solo.{AsksSo, GoesOn, Paid, ending_of};
ghost use Rattle.fire_crew.specs.Verdicts.{EndingSo};

use crate::Gate;
use crate::crew::{Crew, CrewLeft};
use crate::ends::{all_run, some_run};
use crate::judge::Ending;
use df_core::{Code, Job, Request, Token, TokenList, start};
use match_table::{Results, Tables, Took, bring, facts, fired, is_there};
use port_set::Port;
use std::alloc::Global;
use store_buf::{BufFault, Buffer, BufferAnswers, MemoryOrder, Rounds};
use ws_words::NoMemory;

// What the one worker has: tables, the buffer, the tokens in flight, what was handed on last, the buffer's
// answers until they are in flight too, and how many instances may still fire.
#[derive(Drop)]
struct Solo<'i, J: Job, P: Port> {
    tables: Tables<J>,
    buffer: Buffer<J, P>,
    way: Rounds<J>,
    results: Results<'i, J>,
    answers: BufferAnswers<J>,
    left: u64,
}

/// Where one worker has come: what it has, the tokens in flight, and how the run has ended, if it has.
#[derive(Drop)]
pub struct SoloLeft<J: Job, P: Port> {
    pub tables: Tables<J>,
    pub buffer: Buffer<J, P>,
    pub tokens: TokenList<J>,
    pub ending: Option<Ending>,
}

impl<'a, G: Gate, R> Crew<'a, G, R> {
    /// Brings tokens to tables, from the start pulse on, until none is in flight, so many instances have
    /// fired, or the buffer takes no more requests.
    pub fn run_solo<J: Job, P: Port>(
        &self,
        code: &Code<'_, J>,
        tables: Tables<J>,
        buffer: Buffer<J, P>,
    ) -> CrewLeft<J, P>
        requires serve { AllServe tables }
        requires fresh { length (part_of tables).fired ≡ 0 }
        requires going { IsGoing buffer }
        requires none { buffer.kept ≡ [] }
        ensures serve { AllServe result.tables }
        ensures grow { AllGrow (contents tables) (contents result.tables) }
        ensures within { length (part_of result.tables).fired ≤ self.now.budget }
        ensures ended { EndingSo J.image J.world J.began (part_of result.tables).fired
            (self.now.budget - length (part_of result.tables).fired) result.buffer result.ending }
    {
        let Ok(tokens) = start(self.alloc, code) else {
            return CrewLeft {
                tables,
                buffer,
                ending: Ending::Starved,
                phases: 0,
            };
        };
        let left = self.go_alone(code, tables, buffer, tokens, u64::MAX);
        match left.ending {
            Some(ending) => CrewLeft {
                tables: left.tables,
                buffer: left.buffer,
                ending,
                phases: 0,
            },
            None => CrewLeft {
                tables: left.tables,
                buffer: left.buffer,
                ending: Ending::Starved,
                phases: 0,
            },
        }
    }

    /// Brings these tokens, which are in flight, and what comes of them, so many at most, until none is in
    /// flight, so many instances have fired, or the buffer takes no more requests. Tokens go in rounds by
    /// wave, and the first result of a firing is brought at once if it is of the round.
    pub fn go_alone<J: Job, P: Port>(
        &self,
        code: &Code<'_, J>,
        tables: Tables<J>,
        buffer: Buffer<J, P>,
        tokens: TokenList<J>,
        most: u64,
    ) -> SoloLeft<J, P>
        requires serve { AllServe tables }
        requires within { length (part_of tables).fired ≤ self.now.budget }
        requires going { IsGoing buffer }
        requires paid { Paid J.image (part_of tables) buffer tokens }
        ensures serve { AllServe result.tables }
        ensures grow { AllGrow (contents tables) (contents result.tables) }
        ensures within { length (part_of result.tables).fired ≤ self.now.budget }
        ensures goes { GoesOn J.image J.world J.began (part_of result.tables)
            (self.now.budget - length (part_of result.tables).fired) result.buffer result.tokens
            result.ending }
    {
        let alloc = self.alloc;
        let left = self.budget - fired(&tables);
        let mut run = Solo {
            tables,
            buffer,
            way: Rounds::none(alloc),
            results: Results::none(),
            answers: BufferAnswers::none(alloc),
            left,
        };
        let Ok(()) = run.way.pour(tokens) else {
            return SoloLeft {
                tables: run.tables,
                buffer: run.buffer,
                tokens: TokenList::empty(alloc),
                ending: Some(Ending::Starved),
            };
        };
        let ending = go_on(code, &mut run, most, self.gate);
        leave(alloc, run, ending)
    }
}

// What is left where one worker stops.
fn leave<J: Job, P: Port>(
    alloc: Global,
    run: Solo<'_, J, P>,
    ending: Option<Ending>,
) -> SoloLeft<J, P>
    requires { GoesOn J.image J.world J.began (part_of run.tables) run.left run.buffer
        (run.results.sent ++ run.way) ending }
    ensures tables { result.tables ≡ run.entry.tables }
    ensures goes { GoesOn J.image J.world J.began (part_of result.tables) run.entry.left result.buffer
        result.tokens result.ending }
{
    let mut tokens = run.results.sent.listed(alloc);
    if let Some(ending) = ending {
        return SoloLeft {
            tables: run.tables,
            buffer: run.buffer,
            tokens,
            ending: Some(ending),
        };
    }
    match pour_way(run.way, &mut tokens) {
        Ok(()) => SoloLeft {
            tables: run.tables,
            buffer: run.buffer,
            tokens,
            ending: None,
        },
        Err(_) => SoloLeft {
            tables: run.tables,
            buffer: run.buffer,
            tokens,
            ending: Some(Ending::Starved),
        },
    }
}

// Puts what is in flight behind other tokens.
fn pour_way<J: Job>(way: Rounds<J>, tokens: &mut TokenList<J>) -> Result<(), NoMemory>
    ensures { OnOk result (Covers (tokens.old ++ way) tokens.new) }
{
    let mut way = way;
    while let Some(token) = way.take() {
        tokens.push(token)?;
    }
    Ok(())
}

// Brings so many tokens, or until the run has ended.
fn go_on<'i, J: Job, P: Port, G: Gate>(
    code: &Code<'i, J>,
    run: &mut Solo<'i, J, P>,
    most: u64,
    gate: &G,
) -> Option<Ending>
    requires serve { AllServe run.old.tables }
    requires going { IsGoing run.old.buffer }
    requires paid { Paid J.image (part_of run.old.tables) run.old.buffer
        (run.old.results.sent ++ run.old.way) }
    ensures serve { AllServe run.new.tables }
    ensures grow { AllGrow (contents run.old.tables) (contents run.new.tables) }
    ensures count { length (part_of run.new.tables).fired + run.new.left
        ≡ length (part_of run.old.tables).fired + run.old.left }
    ensures goes { GoesOn J.image J.world J.began (part_of run.new.tables) run.new.left run.new.buffer
        (run.new.results.sent ++ run.new.way) result }
{
    for _ in 0..most {
        if let Some(ending) = step(code, run, gate) {
            return Some(ending);
        }
    }
    None
}

// Brings the next token, if there is one and more may fire.
#[inline(always)]
fn step<'i, J: Job, P: Port, G: Gate>(
    code: &Code<'i, J>,
    run: &mut Solo<'i, J, P>,
    gate: &G,
) -> Option<Ending>
    requires serve { AllServe run.old.tables }
    requires going { IsGoing run.old.buffer }
    requires paid { Paid J.image (part_of run.old.tables) run.old.buffer
        (run.old.results.sent ++ run.old.way) }
    ensures serve { AllServe run.new.tables }
    ensures grow { AllGrow (contents run.old.tables) (contents run.new.tables) }
    ensures count { length (part_of run.new.tables).fired + run.new.left
        ≡ length (part_of run.old.tables).fired + run.old.left }
    ensures goes { GoesOn J.image J.world J.began (part_of run.new.tables) run.new.left run.new.buffer
        (run.new.results.sent ++ run.new.way) result }
{
    let Ok(next) = run.way.follow(&mut run.results.sent) else {
        return Some(Ending::Starved);
    };
    let Some(token) = next else {
        see_whole(code, &run.tables, &run.buffer);
        return Some(Ending::Whole);
    };
    if run.left == 0 {
        if see_come(code, &run.tables, &run.buffer, &token) {
            return None;
        }
        return Some(Ending::Spent);
    }
    gate.before(token.wave(), token.instr(), token.port());
    bring_on(code, run, token)
}

/// Nothing is in flight: the whole walk has been run.
pub(crate) fn see_whole<J: Job, P: Port>(
    code: &Code<'_, J>,
    tables: &Tables<J>,
    buffer: &Buffer<J, P>,
)
    requires serve { AllServe tables.now }
    requires going { IsGoing buffer.now }
    requires paid { Paid J.image (part_of tables.now) buffer.now [] }
    ensures { AllRun J.image J.world J.began (part_of tables.now).fired buffer.now.outside }
{
    buffer.facts();
    all_run(code, tables, buffer);
}

// Whether a token has come. Where it hasn't the walk has more instances than have fired.
fn see_come<J: Job, P: Port>(
    code: &Code<'_, J>,
    tables: &Tables<J>,
    buffer: &Buffer<J, P>,
    token: &Token<J>,
) -> bool
    requires serve { AllServe tables.now }
    requires going { IsGoing buffer.now }
    requires known { AllKnown J.image (part_of tables.now) buffer.now.kept }
    ensures come { result ≡ true →
        has ((part_of tables.now).held token.now.wave token.now.instr token.now.port) ≡ true }
    ensures more { result ≡ false →
        SomeRun J.image J.world J.began (part_of tables.now).fired buffer.now.outside }
{
    if is_there(tables, token) {
        return true;
    }
    some_run(code, tables, buffer, token);
    false
}

// Brings a token to its table, and a request that comes of it to the buffer. One that has come before is let
// go.
#[inline(always)]
fn bring_on<'i, J: Job, P: Port>(
    code: &Code<'i, J>,
    run: &mut Solo<'i, J, P>,
    token: Token<J>,
) -> Option<Ending>
    requires serve { AllServe run.old.tables }
    requires going { IsGoing run.old.buffer }
    requires some { 0 < run.old.left }
    requires paid { Paid J.image (part_of run.old.tables) run.old.buffer (token ∷ run.old.way) }
    ensures serve { AllServe run.new.tables }
    ensures grow { AllGrow (contents run.old.tables) (contents run.new.tables) }
    ensures count { length (part_of run.new.tables).fired + run.new.left
        ≡ length (part_of run.old.tables).fired + run.old.left }
    ensures goes { GoesOn J.image J.world J.began (part_of run.new.tables) run.new.left run.new.buffer
        (run.new.results.sent ++ run.new.way) result }
{
    code.facts();
    token.facts();
    facts(&run.tables);
    let took = bring(code, &mut run.tables, &token, &mut run.results);
    match took {
        Took::Waits => None,
        Took::Fires => {
            run.left -= 1;
            None
        }
        Took::Asks => {
            run.left -= 1;
            match run.results.request.take() {
                Some(request) => ask(
                    code,
                    &mut run.buffer,
                    &mut run.answers,
                    &mut run.way,
                    request,
                ),
                None => unreachable!(),
            }
        }
        Took::Old => None,
        Took::NoMemory => Some(Ending::Starved),
    }
}

// Brings a request to the buffer, and puts its answers in flight.
fn ask<J: Job, P: Port>(
    code: &Code<'_, J>,
    buffer: &mut Buffer<J, P>,
    answers: &mut BufferAnswers<J>,
    way: &mut Rounds<J>,
    request: Request<J>,
) -> Option<Ending>
    requires { IsGoing buffer.old }
    ensures { AsksSo J.image J.world J.began buffer.old request way.old buffer.new way.new result }
{
    buffer.facts();
    match buffer.submit_into(code, request, answers) {
        Ok(()) => match way.take_all(answers) {
            Ok(()) => None,
            Err(_) => Some(Ending::Starved),
        },
        Err(fault) => end_at(fault),
    }
}

// Whether a run ends where a buffer has answered so.
fn end_at(fault: BufFault) -> Option<Ending>
    ensures { result ≡ ending_of fault }
{
    match fault {
        BufFault::Old => None,
        BufFault::NoMemory => Some(Ending::Starved),
        _ => Some(Ending::Stopped),
    }
}
