//! Requests and addresses that a buffer with partial store queues keeps, and room for what comes of them.

ghost use Rattle.std.specs.Prelude.{◌≡◌, ◌<◌, ◌≤◌, ◌+◌, ◌*◌, ◌++◌, ◌∷◌, ℕ, [], true, cond, Some, None};
ghost use Rattle.std.specs.Prelude.{length, IfSome, IfNone, OnOk, OnErr};
ghost use Rattle.smallvec.specs.SmallVec.{HasRoomFor};
ghost use Rattle.ws_isa.specs.Image.{Image, instr_at};
ghost use Rattle.df_core.specs.Core.{same_key};
ghost use Rattle.df_core.specs.Places.{image_of};
ghost use Rattle.std.specs.HashSet.{spare};
ghost use Rattle.store_buf.specs.Ordering.{requests_of, waiting_of};
ghost use Rattle.store_buf.specs.Requests.{entry_of};
ghost use Rattle.store_buf.specs.declared.kept.Kept.{Kept};
ghost use Rattle.part_store.specs.Bares.{is_in};
ghost use Rattle.part_store.specs.Parted.{is_store_op};
ghost use Rattle.part_store.specs.Parts.{PartsOk, PartsFiled, Filled, kept_flag, PartsKeep};

use crate::parts::Parts;
use df_core::Program;
use port_set::Port;
use store_buf::{Kept, PlainTokens};
use ws_words::NoMemory;

// For each request that waits there has to be room for eight tokens.
const MOST_WAITING: usize = usize::MAX / 32;

impl<P: Port> Parts<P> {
    // Makes room for the tokens of all that waits or is queued, and of one more.
    pub(crate) fn make_room(&self, told: &mut PlainTokens) -> Result<(), NoMemory>
        ensures items { told.new.items ≡ told.old.items }
        ensures room { OnOk result (HasRoomFor told.new
            (8 * (waiting_of self.now.order + length self.now.queues.entries.items + 1))) }
        ensures grown { told.old.capacity ≤ told.new.capacity }
    {
        let waiting = self.order.waiting();
        let queued = self.queues.entries.len();
        if waiting >= MOST_WAITING || queued >= MOST_WAITING {
            return Err(NoMemory);
        }
        told.reserve(8 * (waiting + queued + 1))?;
        Ok(())
    }

    // PartsKeep a request of an instance that had none, and makes room for the word that it may print and
    // the queue that it may join.
    pub(crate) fn keep(&mut self, program: &Program<'_>, kept: Kept) -> Result<(), NoMemory>
        requires ok { PartsOk self.old }
        requires filed { PartsFiled (image_of program.now) self.old }
        requires fresh { entry_of (requests_of self.old.order) kept.wave kept.instr ≡ None }
        requires waits { kept.answer ≡ None }
        ensures ok { PartsOk self.new }
        ensures filed { PartsFiled (image_of program.now) self.new }
        ensures keeps { OnOk result (PartsKeep self.old (requests_of self.old.order ++ kept ∷ []) self.new) }
        ensures unchanged { OnErr result (PartsKeep self.old (requests_of self.old.order) self.new) }
        ensures waiting { OnOk result (waiting_of self.new.order ≡ waiting_of self.old.order + 1) }
        ensures bare { self.new.bare ≡ self.old.bare }
    {
        let waiting = self.order.waiting();
        if waiting >= MOST_WAITING {
            return Err(NoMemory);
        }
        self.outer.printed.reserve(waiting + 1)?;
        self.queues.reserve(waiting + 1)?;
        self.order.add(program, kept)
    }

    // PartsKeep an address of an instance that had none.
    pub(crate) fn keep_bare(&mut self, program: &Program<'_>, kept: Kept) -> Result<(), NoMemory>
        requires ok { PartsOk self.old }
        requires filed { PartsFiled (image_of program.now) self.old }
        requires fresh { entry_of (requests_of self.old.order) kept.wave kept.instr ≡ None }
        requires waits { kept.answer ≡ None }
        requires store { is_store_op (instr_at (image_of program.now) kept.instr).op ≡ true }
        ensures ok { PartsOk self.new }
        ensures filed { PartsFiled (image_of program.now) self.new }
        ensures keeps { OnOk result (PartsKeep self.old (requests_of self.old.order ++ kept ∷ []) self.new) }
        ensures unchanged { OnErr result (PartsKeep self.old (requests_of self.old.order) self.new) }
        ensures waiting { OnOk result (waiting_of self.new.order ≡ waiting_of self.old.order + 1) }
        ensures bare { OnOk result ((w i : ℕ) → is_in self.new.bare w i
            ≡ cond (same_key kept.wave kept.instr w i) true (is_in self.old.bare w i)) }
        ensures still { OnErr result ((w i : ℕ) → is_in self.new.bare w i
            ≡ is_in self.old.bare w i) }
    {
        self.reserve_bare()?;
        self.keep(program, kept)?;
        self.add_bare(kept);
        Ok(())
    }

    // Makes room for one more address.
    fn reserve_bare(&mut self) -> Result<(), NoMemory>
        requires ok { PartsOk self.old }
        ensures ok { PartsOk self.new }
        ensures filed { (image : Image) → PartsFiled image self.old → PartsFiled image self.new }
        ensures keeps { PartsKeep self.old (requests_of self.old.order) self.new }
        ensures waiting { waiting_of self.new.order ≡ waiting_of self.old.order }
        ensures room { OnOk result (1 ≤ spare self.new.bare.set) }
        ensures bare { (w i : ℕ) → is_in self.new.bare w i ≡ is_in self.old.bare w i }
    {
        self.bare.reserve()
    }

    // A request that was kept is an address alone.
    fn add_bare(&mut self, kept: Kept)
        requires ok { PartsOk self.old }
        requires kept { (k : Kept) × (entry_of (requests_of self.old.order) kept.wave kept.instr ≡ Some k) }
        requires room { 1 ≤ spare self.old.bare.set }
        ensures ok { PartsOk self.new }
        ensures filed { (image : Image) → is_store_op (instr_at image kept.instr).op ≡ true
            → PartsFiled image self.old → PartsFiled image self.new }
        ensures keeps { PartsKeep self.old (requests_of self.old.order) self.new }
        ensures waiting { waiting_of self.new.order ≡ waiting_of self.old.order }
        ensures bare { (w i : ℕ) → is_in self.new.bare w i
            ≡ cond (same_key kept.wave kept.instr w i) true (is_in self.old.bare w i) }
    {
        self.bare.add(kept.wave, kept.instr);
    }

    // The data of a store has come, whose address came before.
    pub(crate) fn put_data(&mut self, kept: Kept)
        requires ok { PartsOk self.old }
        requires bare { is_in self.old.bare kept.wave kept.instr ≡ true }
        ensures ok { PartsOk self.new }
        ensures filed { (image : Image) → PartsFiled image self.old → PartsFiled image self.new }
        ensures filled { Filled self.old kept self.new }
    {
        let Some(place) = self.kept_place(kept.wave, kept.instr) else {
            return;
        };
        self.bare.forget(kept.wave, kept.instr);
        let old = self.order.request(place);
        self.order.change(
            place,
            Kept {
                first: kept.first,
                second: kept.second,
                ..old
            },
        );
    }

    // The place of the request or address of an instance.
    fn kept_place(&self, wave: u64, instr: u32) -> Option<usize>
        ensures within { IfSome result (λ p. p < length (requests_of self.now.order)) }
        ensures is { IfSome result (λ p. kept_flag self.now.order p wave instr ≡ true) }
        ensures none { IfNone result ((k : Kept) →
            entry_of (requests_of self.now.order) wave instr ≡ Some k → ⊥) }
    {
        match self.order.place(wave, instr) {
            Some(place) => {
                if self.is_kept_at(place, wave, instr) {
                    Some(place)
                } else {
                    None
                }
            }
            None => None,
        }
    }

    // Whether the request at a place is that of the instance.
    fn is_kept_at(&self, place: usize, wave: u64, instr: u32) -> bool
        ensures yes { result ≡ true → place < length (requests_of self.now.order) }
        ensures flag { place < length (requests_of self.now.order) →
            result ≡ kept_flag self.now.order place wave instr }
    {
        match self.order.kept().get(place) {
            Some(kept) => kept.wave == wave && kept.instr == instr,
            None => false,
        }
    }
}
