//! A phase of several workers, and the tokens that are outstanding after it.

ghost use Rattle.std.specs.Prelude.{◌≡◌, ◌<◌, ◌≤◌, ◌-◌, IfOk, IfSome, None, OnOk, false, length};
ghost use Rattle.std.specs.Prelude.{true};
ghost use Rattle.match_table.specs.Growth.{AllGrow};
ghost use Rattle.match_table.specs.Rows.{contents};
ghost use Rattle.match_table.specs.Together.{AllServe, part_of};
ghost use Rattle.fire_crew.specs.Ends.{IsGoing};
ghost use Rattle.fire_crew.specs.Owing.{IsMissing};
ghost use Rattle.fire_crew.specs.Solo.{GoesOn, Paid};
ghost use Rattle.fire_crew.specs.Verdicts.{BroughtOne};

use crate::Gate;
use crate::crew::Crew;
use crate::judge::{Ending, find_owed};
use crate::solo::SoloLeft;
use df_core::{Code, Job, Token, TokenList};
use match_table::{Tables, fired, is_there};
use port_set::Port;
use std::sync::Wait;
use std::thread::Threads;
use store_buf::Buffer;
use ws_words::NoMemory;

// How many tokens there have to be for each worker where a phase begins, but for the first.
const EACH: u64 = 2;

/// Where a run has come, and whether there was a phase.
#[derive(Drop)]
pub struct Shared<J: Job, P: Port> {
    pub left: SoloLeft<J, P>,
    pub is_phase: bool,
}

impl<'a, G: Gate, R: Threads + Wait + Sync> Crew<'a, G, R> {
    /// A phase of workers with these tokens, if it is the first or there are enough for all, more may
    /// fire and the last of them is wanted; and then the outstanding tokens.
    pub fn share<J: Job + Send + Sync, P: Port + Send>(
        &self,
        code: &Code<'_, J>,
        tables: Tables<J>,
        buffer: Buffer<J, P>,
        tokens: TokenList<J>,
        is_first: bool,
    ) -> Shared<J, P>
        requires serve { AllServe tables }
        requires within { length (part_of tables).fired ≤ self.now.budget }
        requires going { IsGoing buffer }
        requires paid { Paid J.image (part_of tables) buffer tokens }
        ensures serve { AllServe result.left.tables }
        ensures within { length (part_of result.left.tables).fired ≤ self.now.budget }
        ensures grow { AllGrow (contents tables) (contents result.left.tables) }
        ensures goes { GoesOn J.image J.world J.began (part_of result.left.tables)
            (self.now.budget - length (part_of result.left.tables).fired) result.left.buffer
            result.left.tokens result.left.ending }
        ensures some { result.is_phase ≡ true → length (part_of tables).fired < self.now.budget }
        ensures still { result.is_phase ≡ false → contents result.left.tables ≡ contents tables }
        ensures moved { result.is_phase ≡ true → result.left.ending ≡ None
            → length (part_of result.left.tables).fired < self.now.budget
            → BroughtOne (part_of tables).held (part_of result.left.tables).held }
    {
        let mut tokens = tokens;
        match self.to_share(&tables, &mut tokens, is_first) {
            Ok(Some(token)) => Shared {
                left: self.phase_with(code, tables, buffer, &token, tokens),
                is_phase: true,
            },
            Ok(None) => Shared {
                left: SoloLeft {
                    tables,
                    buffer,
                    tokens,
                    ending: None,
                },
                is_phase: false,
            },
            Err(_) => Shared {
                left: SoloLeft {
                    tables,
                    buffer,
                    tokens,
                    ending: Some(Ending::Starved),
                },
                is_phase: false,
            },
        }
    }

    // The last of these tokens, if there are enough for a phase, no table has had it and more may fire.
    fn to_share<J: Job>(
        &self,
        tables: &Tables<J>,
        tokens: &mut TokenList<J>,
        is_first: bool,
    ) -> Result<Option<Token<J>>, NoMemory>
        requires within { length (part_of tables.now).fired ≤ self.now.budget }
        ensures same { OnOk result (tokens.new ≡ tokens.old) }
        ensures missing { IfOk result (λ token. IfSome token (IsMissing (part_of tables.now).held)) }
        ensures some { IfOk result (λ token. IfSome token
            (λ t. length (part_of tables.now).fired < self.now.budget)) }
    {
        let budget = self.budget;
        let is_enough = tokens.len() as u64 / EACH >= self.workers as u64;
        if !(is_first || is_enough) || fired(tables) >= budget {
            return Ok(None);
        }
        last_missing(tables, tokens)
    }

    // A phase with these tokens, of which no table has had the one that is named, and those outstanding then.
    fn phase_with<J: Job + Send + Sync, P: Port + Send>(
        &self,
        code: &Code<'_, J>,
        tables: Tables<J>,
        buffer: Buffer<J, P>,
        token: &Token<J>,
        tokens: TokenList<J>,
    ) -> SoloLeft<J, P>
        requires serve { AllServe tables }
        requires within { length (part_of tables).fired ≤ self.now.budget }
        requires missing { IsMissing (part_of tables).held token.now }
        ensures serve { AllServe result.tables }
        ensures within { length (part_of result.tables).fired ≤ self.now.budget }
        ensures grow { AllGrow (contents tables) (contents result.tables) }
        ensures goes { GoesOn J.image J.world J.began (part_of result.tables)
            (self.now.budget - length (part_of result.tables).fired) result.buffer result.tokens
            result.ending }
        ensures moved { result.ending ≡ None → length (part_of result.tables).fired < self.now.budget
            → BroughtOne (part_of tables).held (part_of result.tables).held }
    {
        let after = self.turn(code, tables, buffer, token, tokens);
        let mut buffer = after.buffer;
        if after.starved {
            return SoloLeft {
                tables: after.tables,
                buffer,
                tokens: TokenList::empty(self.alloc),
                ending: Some(Ending::Starved),
            };
        }
        match find_owed(self.alloc, code, &after.tables, &mut buffer) {
            Ok(tokens) => SoloLeft {
                tables: after.tables,
                buffer,
                tokens,
                ending: None,
            },
            Err(ending) => SoloLeft {
                tables: after.tables,
                buffer,
                tokens: TokenList::empty(self.alloc),
                ending: Some(ending),
            },
        }
    }
}

// The last of these tokens, if no table has had it.
fn last_missing<J: Job>(
    tables: &Tables<J>,
    tokens: &mut TokenList<J>,
) -> Result<Option<Token<J>>, NoMemory>
    ensures same { OnOk result (tokens.new ≡ tokens.old) }
    ensures missing { IfOk result (λ token. IfSome token (IsMissing (part_of tables.now).held)) }
{
    let Some(token) = tokens.pop() else {
        return Ok(None);
    };
    let again = token.again();
    tokens.push(token)?;
    if is_there(tables, &again) {
        return Ok(None);
    }
    Ok(Some(again))
}
