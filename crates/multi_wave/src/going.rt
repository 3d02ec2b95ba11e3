//! A thread that goes on.

ghost use Rattle.std.specs.Prelude.{◌≤◌, ◌-◌, OnOk, Some, length};
ghost use Rattle.match_table.specs.Together.{AllServe, part_of};
ghost use Rattle.fire_crew.specs.Verdicts.{EndingSo};
ghost use Rattle.multi_wave.specs.Goings.{HasPart};
ghost use Rattle.multi_wave.specs.Stands.{HasMoved, IsOver, IsJudged, On, StaysAs, Went};

use crate::jobs::LaneJob;
use crate::lane::Lane;
use df_core::{Code, Job, Token, TokenList};
use fire_crew::{
    Ending, Verdict, crew_end, ends_are_told, few_tokens, find_course, no_tables, see_brought,
};
use match_table::{Tables, fired};
use port_set::Port;
use std::alloc::Global;
use std::marker::Model;
use store_buf::Buffer;
use ws_words::NoMemory;

/// A thread that goes on: tokens are to be brought to its tables, of which one is named that no table has
/// had, once the thread has been judged. Its tables serve apart, and list no more than the budget of its part
/// allows.
#[derive(Drop)]
pub struct GoingLane<'i, J: LaneJob, P: Port> {
    pub(crate) code: Code<'i, J>,
    pub(crate) tables: Tables<J>,
    pub(crate) buffer: Buffer<J, P>,
    pub(crate) token: Option<Token<J>>,
    pub(crate) tokens: TokenList<J>,
    pub(crate) budget: u64,
}

impl<'i, J: LaneJob, P: Port> Model for GoingLane<'i, J, P> {
    ghost use Rattle.multi_wave.specs.Stands.{Goer};
    ghost use Rattle.multi_wave.specs.Goings.{GoesOk};

    ghost Value = { Goer };

    ghost view = { λ g. record { tables = g.tables; token = g.token; budget = g.budget } };

    ghost invariant = { λ g. GoesOk J.part g.tables g.budget };
}

impl<'i, J: LaneJob, P: Port> GoingLane<'i, J, P> {
    /// A thread before its first phase.
    pub fn begin(
        alloc: Global,
        code: Code<'i, J>,
        buffer: Buffer<J, P>,
        budget: u64,
    ) -> GoingLane<'i, J, P>
        requires { HasPart J.part budget }
    {
        GoingLane {
            code,
            tables: no_tables(alloc),
            buffer,
            token: None,
            tokens: TokenList::empty(alloc),
            budget,
        }
    }

    /// A thread goes on with the tokens that it has still to bring, of which it names one that no table has
    /// had, or it has ended.
    pub fn settle(self, alloc: Global) -> Lane<'i, J, P>
        ensures same { StaysAs (On self.entry) result }
        ensures settled { IsJudged J.image J.world result }
    {
        let GoingLane {
            code,
            tables,
            buffer,
            token,
            tokens,
            budget,
        } = self;
        drop(token);
        few_tokens(&code, &tables);
        let mut buffer = buffer;
        let left = budget - fired(&tables);
        match find_course(alloc, &code, &tables, &mut buffer, tokens, left) {
            Verdict::Go { token, tokens } => Lane::on(GoingLane {
                code,
                tables,
                buffer,
                token: Some(token),
                tokens,
                budget,
            }),
            Verdict::Ends(ending) => over(&code, tables, buffer, ending, budget),
        }
    }

    /// A thread that goes on no more, since memory ran out.
    pub fn give_up(self) -> Lane<'i, J, P>
        ensures { IsOver result }
    {
        let GoingLane {
            code,
            tables,
            buffer,
            token,
            tokens,
            budget,
        } = self;
        drop(token);
        drop(tokens);
        over(&code, tables, buffer, Ending::Starved, budget)
    }

    /// A thread after a phase: once a table has had the token that is named it goes on, or it has ended, out
    /// of memory.
    pub fn go_on(self, alloc: Global) -> Lane<'i, J, P>
        ensures { Went self.entry.tables self.entry.token self.entry.budget result }
    {
        let mut going = self;
        match going.bring_named(alloc) {
            Ok(()) => Lane::on(going),
            Err(_) => going.give_up(),
        }
    }

    // Sees that a table has had the token that is named.
    #[tactic(auto, using(match_table::proofs::Growth::all_grow_same))]
    fn bring_named(&mut self, alloc: Global) -> Result<(), NoMemory>
        ensures { OnOk result (HasMoved self.old.tables self.old.token self.old.budget self.new) }
    {
        match &self.token {
            None => Ok(()),
            Some(named) => see_brought(
                alloc,
                &self.code,
                &mut self.tables,
                &mut self.buffer,
                named,
                &mut self.tokens,
                self.budget,
            ),
        }
    }
}

// A thread that has ended so.
fn over<'i, J: LaneJob, P: Port>(
    code: &Code<'_, J>,
    tables: Tables<J>,
    buffer: Buffer<J, P>,
    ending: Ending,
    budget: u64,
) -> Lane<'i, J, P>
    requires part { HasPart J.part budget }
    requires serve { AllServe tables }
    requires within { length (part_of tables).fired ≤ budget }
    requires ended { EndingSo J.image J.world J.began (part_of tables).fired
        (budget - length (part_of tables).fired) buffer ending }
    ensures { IsOver result }
{
    ends_are_told();
    let end = crew_end(code, &tables, buffer, ending, budget);
    drop(tables);
    Lane::off(Some(end))
}
