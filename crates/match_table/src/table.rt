//! Tables.

ghost use Rattle.std.specs.Prelude.{[], ◌<◌, ◌≡◌, ◌≤◌, ℕ, IsOk, Some, None, OnOk};
ghost use Rattle.df_core.specs.Core.{Once};
ghost use Rattle.df_core.specs.Shown.{TablesOk};
ghost use Rattle.match_table.specs.declared.meeting.Seen.TheVariants.{Waits};
ghost use Rattle.match_table.specs.Matching.{NoResults};
ghost use Rattle.match_table.specs.Tables.{held, part, TableContent};

use crate::instances::Instances;
use crate::meeting::Operands;
use crate::pages::Pages;
use df_core::{Job, Request, Sent, Token, TokenList};
use std::alloc::Global;
use std::marker::{Model, PhantomData};
use ws_words::NoMemory;

/// An instance that has fired, with its operands by port.
#[derive(Clone, Copy)]
pub struct Fired {
    pub wave: u64,
    pub instr: u32,
    pub operands: Operands,
}

/// What a table answers to a token: its instance isn't full, or it has fired, and these are its
/// result tokens or its request.
#[derive(Drop)]
pub enum Accept<J: Job> {
    Waits,
    Fires(TokenList<J>),
    Asks(Request<J>),
}

/// What a table does with a token that the caller keeps: its instance isn't full; it has fired, and hands
/// on result tokens or its request; its port had it before; or memory ran out.
#[derive(Clone, Copy, Debug, PartialEq, Eq)]
pub enum Took {
    Waits,
    Fires,
    Asks,
    Old,
    NoMemory,
}

/// What an instance hands on when it fires: its result tokens, or its request.
#[derive(Drop)]
pub struct Results<'i, J: Job> {
    pub sent: Sent<'i, J>,
    pub request: Option<Request<J>>,
}

impl<'i, J: Job> Results<'i, J> {
    /// Nothing is handed on.
    #[inline(always)]
    pub fn none() -> Results<'i, J>
        ensures { NoResults result }
    {
        Results {
            sent: Sent::none(),
            request: None,
        }
    }

    /// Lets all go.
    #[inline(always)]
    pub fn clear(&mut self)
        ensures { NoResults self.new }
    {
        self.sent.clear();
        self.drop_request();
    }

    // Lets the request go.
    #[inline(always)]
    fn drop_request(&mut self)
        ensures request { self.new.request ≡ None }
        ensures sent { self.new.sent ≡ self.old.sent }
    {
        if self.request.is_some() {
            self.request = None;
        }
    }

    // Hands on these tokens alone.
    #[inline(always)]
    pub(crate) fn send(&mut self, sent: Sent<'i, J>)
        ensures sent { self.new.sent ≡ sent.entry }
        ensures request { self.new.request ≡ None }
    {
        self.sent = sent;
        self.drop_request();
    }

    // Hands on this request alone.
    #[inline(always)]
    pub(crate) fn ask(&mut self, request: Request<J>)
        ensures request { self.new.request ≡ Some request }
        ensures sent { self.new.sent ≡ [] }
    {
        self.sent.clear();
        self.request = Some(request);
    }
}

/// Why a table doesn't take a token, which it hands back: its port had it before, or memory ran out.
#[derive(Drop)]
pub enum AcceptFault<J: Job> {
    Old(Token<J>),
    NoMemory(Token<J>),
}

/// The instances of which tokens have come, with their tokens. Those that have fired are listed in the
/// order of firing, and those of memory among them once more. There is room for so many more tokens at least.
#[derive(Drop)]
pub struct Table<J: Job> {
    pub(crate) pages: Pages,
    pub(crate) fired: Instances,
    pub(crate) asked: Instances,
    pub(crate) room: usize,
    pub(crate) of: PhantomData<J>,
}

impl<J: Job> Model for Table<J> {
    ghost use Rattle.match_table.specs.Spots.{instances};
    ghost use Rattle.match_table.specs.Tables.{TableContent, TableStands};

    ghost Value = { TableContent };

    ghost view = { λ t. record {
      entries = t.pages.entries;
      fired = instances t.pages.entries.slots t.fired;
      spare = t.room;
    } };

    ghost invariant = { λ t. TableStands J.image J.world t.pages t.fired t.asked t.room };
}

impl<J: Job> Table<J> {
    /// No tokens, and nothing has fired.
    pub fn new(alloc: Global) -> Table<J>
        ensures held { (w i p : ℕ) → held result w i p ≡ None }
        ensures fired { result.fired ≡ [] }
    {
        Table {
            pages: Pages::new(alloc),
            fired: Instances::none(alloc),
            asked: Instances::none(alloc),
            room: 0,
            of: PhantomData,
        }
    }

    /// Makes room for so many tokens.
    pub fn reserve(&mut self, tokens: u32) -> Result<(), NoMemory>
        ensures entries { self.new.entries ≡ self.old.entries }
        ensures fired { self.new.fired ≡ self.old.fired }
        ensures room { OnOk result (tokens ≤ self.new.spare) }
        ensures kept { self.old.spare ≤ self.new.spare }
        ensures succeeds { 0 < tokens → tokens ≤ self.old.spare → IsOk result }
    {
        let count = tokens as usize;
        if self.room < count {
            self.pages.reserve(tokens)?;
            self.fired.reserve(count)?;
            self.asked.reserve(count)?;
            self.room = count;
        }
        Ok(())
    }

    /// What is true of every table: it is a part of the core's state of which the law speaks, and an
    /// instance fires once.
    pub fn facts(&self)
        ensures part { TablesOk J.image J.world (part self.now) }
        ensures once { Once (part self.now).fired }
    {
        let _ = &self.fired;
    }

    // Makes room for one token; for some more, where there is none.
    #[inline(always)]
    pub(crate) fn make_room(&mut self) -> Result<(), NoMemory>
        ensures entries { self.new.entries ≡ self.old.entries }
        ensures fired { self.new.fired ≡ self.old.fired }
        ensures room { OnOk result (0 < self.new.spare) }
        ensures succeeds { 0 < self.old.spare → IsOk result }
        ensures kept { self.old.spare ≤ self.new.spare }
    {
        if self.room > 0 {
            return Ok(());
        }
        self.reserve(MORE)
    }
}

// For how many tokens room is made at once: lists of so many grow where they lie.
const MORE: u32 = 4096;
