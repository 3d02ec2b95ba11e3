//! The data of a store has come: the first entries on its cell are done.

ghost use Rattle.std.specs.Prelude.{◌≡◌, ◌<◌, ◌+◌, ◌*◌, ℕ, true, false, cond, Some, length, slice_set};
ghost use Rattle.std.specs.Prelude.{is_some, IfSome, IfNone};
ghost use Rattle.smallvec.specs.SmallVec.{HasRoomFor};
ghost use Rattle.ws_words.specs.Outside.{row, with_row};
ghost use Rattle.ws_isa.specs.Formed.{Formed};
ghost use Rattle.ws_isa.specs.Image.{Image};
ghost use Rattle.df_core.specs.Places.{image_of};
ghost use Rattle.df_core.specs.Rights.{tokens_of};
ghost use Rattle.store_buf.specs.Requests.{entry_of};
ghost use Rattle.store_buf.specs.Ordering.{kept_at, requests_of, waiting_of};
ghost use Rattle.part_store.specs.declared.entry.Queued.{Queued};
ghost use Rattle.store_buf.specs.declared.kept.Kept.{Kept};
ghost use Rattle.part_store.specs.Queues.{front, without_first};
ghost use Rattle.part_store.specs.Parted.{is_store_op};
ghost use Rattle.part_store.specs.Contents.{cell};
ghost use Rattle.part_store.specs.Bares.{is_in};
ghost use Rattle.part_store.specs.Parts.{PartsOk, PartsFiled, Beside, DrainLeads, FinishLeads};
ghost use Rattle.part_store.specs.Parts.{FollowsOn, issued_flag};

use crate::entry::Queued;
use crate::parts::Parts;
use crate::rows::row_of;
use df_core::Program;
use port_set::Port;
use store_buf::{Kept, Outer, PlainTokens, tell};
use ws_isa::Op;

impl<P: Port> Parts<P> {
    // The first entries on the cell of a store whose data has come are done.
    pub(crate) fn drain(&mut self, program: &Program<'_>, kept: Kept, told: &mut PlainTokens)
        requires formed { Formed (image_of program.now) }
        requires ok { PartsOk self.old }
        requires filed { PartsFiled (image_of program.now) self.old }
        requires room { HasRoomFor told.old
            (8 * (waiting_of self.old.order + length self.old.queues.entries.items)) }
        ensures ok { PartsOk self.new }
        ensures filed { PartsFiled (image_of program.now) self.new }
        ensures leads { DrainLeads (image_of program.now) kept self.old self.new
            (tokens_of told.old.items) (tokens_of told.new.items) }
        ensures same { Beside self.old self.new }
        ensures room { HasRoomFor told.new (8 * waiting_of self.new.order) }
        ensures same_room { told.new.capacity ≡ told.old.capacity }
    {
        self.follow(program, row_of(program.op(kept.instr)), kept.first, told);
    }

    // The first entries of a cell's queue are done, up to the next store without data.
    fn follow(&mut self, program: &Program<'_>, row: usize, index: u64, told: &mut PlainTokens)
        requires formed { Formed (image_of program.now) }
        requires ok { PartsOk self.old }
        requires filed { PartsFiled (image_of program.now) self.old }
        requires room { HasRoomFor told.old
            (8 * (waiting_of self.old.order + length self.old.queues.entries.items)) }
        ensures ok { PartsOk self.new }
        ensures filed { PartsFiled (image_of program.now) self.new }
        ensures leads { FollowsOn (image_of program.now) row index self.old self.new
            (tokens_of told.old.items) (tokens_of told.new.items) }
        ensures none { (e : Queued) → front self.new.queues.entries.items row index ≡ Some e →
            is_in self.new.bare e.wave e.instr ≡ true }
        ensures same { Beside self.old self.new }
        ensures room { HasRoomFor told.new (8 * waiting_of self.new.order) }
        ensures same_room { told.new.capacity ≡ told.old.capacity }
    {
        while let Some(entry) = self.ready_front(program, row, index) {
            self.finish_front(program, entry, told);
        }
    }

    // The first entry on a cell, where it isn't a store without data.
    fn ready_front(&self, program: &Program<'_>, row: usize, index: u64) -> Option<Queued>
        requires ok { PartsOk self.now }
        requires filed { PartsFiled (image_of program.now) self.now }
        ensures some { IfSome result (λ e. (front self.now.queues.entries.items row index ≡ Some e)
            × (is_in self.now.bare e.wave e.instr ≡ false)) }
        ensures none { IfNone result ((e : Queued) →
            front self.now.queues.entries.items row index ≡ Some e →
            is_in self.now.bare e.wave e.instr ≡ true) }
    {
        match self.queues.front(row, index) {
            Some(entry) => {
                if self.is_alone(program.op(entry.instr), entry.wave, entry.instr) {
                    None
                } else {
                    Some(entry)
                }
            }
            None => None,
        }
    }

    // The first entry of a queue is done, and leaves it.
    fn finish_front(&mut self, program: &Program<'_>, entry: Queued, told: &mut PlainTokens)
        requires formed { Formed (image_of program.now) }
        requires ok { PartsOk self.old }
        requires filed { PartsFiled (image_of program.now) self.old }
        requires first { front self.old.queues.entries.items entry.row entry.index ≡ Some entry }
        requires room { HasRoomFor told.old
            (8 * (waiting_of self.old.order + length self.old.queues.entries.items)) }
        ensures ok { PartsOk self.new }
        ensures filed { PartsFiled (image_of program.now) self.new }
        ensures leads { FinishLeads (image_of program.now) entry self.old self.new
            (tokens_of told.old.items) (tokens_of told.new.items) }
        ensures queued { self.new.queues.entries.items
            ≡ without_first self.old.queues.entries.items entry.row entry.index }
        ensures fewer { length self.new.queues.entries.items + 1
            ≡ length self.old.queues.entries.items }
        ensures same { Beside self.old self.new }
        ensures room { HasRoomFor told.new
            (8 * (waiting_of self.new.order + length self.new.queues.entries.items)) }
        ensures same_room { told.new.capacity ≡ told.old.capacity }
    {
        self.queues.leave(entry);
        let Some(place) = self.issued_place(entry.wave, entry.instr) else {
            return;
        };
        let kept = self.order.request(place);
        let word = use_cell(&mut self.outer, program.op(entry.instr), entry, kept.second);
        self.answer_at(place, word);
        tell(told, entry.wave, program.destinations(entry.instr, 0), word);
    }

    // The place of the request of an instance that counts as issued.
    fn issued_place(&self, wave: u64, instr: u32) -> Option<usize>
        ensures within { IfSome result (λ p. p < length (requests_of self.now.order)) }
        ensures is { IfSome result (λ p. issued_flag self.now.order p wave instr ≡ true) }
        ensures none { IfNone result ((k : Kept) (a : ℕ) →
            entry_of (requests_of self.now.order) wave instr ≡ Some k → k.answer ≡ Some a → ⊥) }
    {
        match self.order.place(wave, instr) {
            Some(place) => {
                if self.is_issued_at(place, wave, instr) {
                    Some(place)
                } else {
                    None
                }
            }
            None => None,
        }
    }

    // Whether the request at a place is that of the instance, and counts as issued.
    fn is_issued_at(&self, place: usize, wave: u64, instr: u32) -> bool
        ensures yes { result ≡ true → place < length (requests_of self.now.order) }
        ensures flag { place < length (requests_of self.now.order) →
            result ≡ issued_flag self.now.order place wave instr }
    {
        match self.order.kept().get(place) {
            Some(kept) => kept.wave == wave && kept.instr == instr && kept.answer.is_some(),
            None => false,
        }
    }

    // The request at a place, which counts as issued, has this answer.
    fn answer_at(&mut self, place: usize, word: u64)
        requires ok { PartsOk self.old }
        requires within { place < length (requests_of self.old.order) }
        requires issued { is_some (kept_at self.old.order place).answer ≡ true }
        ensures ok { PartsOk self.new }
        ensures filed { (image : Image) → PartsFiled image self.old → PartsFiled image self.new }
        ensures kept { requests_of self.new.order ≡ slice_set (requests_of self.old.order) place
            (record (kept_at self.old.order place) { answer = Some word }) }
        ensures same { Beside self.old self.new }
        ensures outer { self.new.outer ≡ self.old.outer }
        ensures queues { self.new.queues ≡ self.old.queues }
    {
        let kept = self.order.request(place);
        self.order.change(
            place,
            Kept {
                answer: Some(word),
                ..kept
            },
        );
    }
}

// Does what an entry waits for on its cell, and gives its word; 0 where it is a store.
fn use_cell<P: Port>(outer: &mut Outer<P>, op: Op, entry: Queued, second: u64) -> u64
    ensures word { result ≡ cond (is_store_op op) 0 (cell outer.old.cells entry.row entry.index) }
    ensures cells { outer.new.cells ≡ cond (is_store_op op) (with_row outer.old.cells entry.row
        (slice_set (row outer.old.cells entry.row) entry.index second)) outer.old.cells }
    ensures input { outer.new.input ≡ outer.old.input }
    ensures read { outer.new.read ≡ outer.old.read }
    ensures printed { outer.new.printed ≡ outer.old.printed }
    ensures ports { outer.new.ports ≡ outer.old.ports }
{
    match op {
        Op::Store(_) => {
            outer.cells.set(entry.row, entry.index as usize, second);
            0
        }
        _ => outer.cells.word(entry.row, entry.index as usize),
    }
}
