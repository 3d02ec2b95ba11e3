//! The order of a buffer: its requests, and which of them may be issued.

ghost use Rattle.std.specs.Prelude.{◌≡◌, ◌∷◌, ◌++◌, [], ℕ, ◌+◌, ◌<◌, ◌≤◌, Option, None, Some, length};
ghost use Rattle.std.specs.Prelude.{is_none, slice_set, IfOk, OnOk, OnErr};
ghost use Rattle.ws_isa.specs.Image.{Image};
ghost use Rattle.df_core.specs.Places.{image_of};
ghost use Rattle.df_core.specs.Chains.{chain_of, PassedOn};
ghost use Rattle.store_buf.specs.Requests.{entry_of};
ghost use Rattle.store_buf.specs.Finding.{HookIn};
ghost use Rattle.store_buf.specs.Indexed.{Indexed};
ghost use Rattle.store_buf.specs.Ranks.{IsFiled};
ghost use Rattle.store_buf.specs.Laters.{IsFiledIn};

use crate::early::Early;
use crate::index::{Hook, Index};
use crate::kept::Kept;
use crate::later::Later;
use crate::next::ripple_of;
use crate::pass::pass_on;
use crate::wave_places::WavePlaces;
use df_core::{Chain, Program};
use std::alloc::Global;
use ws_words::NoMemory;

/// The requests that a buffer keeps, in the order in which they came, how many of them wait, and
/// where they are: by instance, those that wait in the current wave, and those of later waves. `early`
/// are the issued loads that the chain hasn't passed.
#[derive(Drop)]
pub struct Order {
    pub(crate) kept: Vec<Kept>,
    waiting: usize,
    pub(crate) index: Index,
    pub(crate) near: WavePlaces,
    pub(crate) later: Later,
    pub(crate) early: Early,
    pub(crate) chain: Chain,
    ghost ok: { Indexed kept.items index waiting chain.wave },
}

impl Order {
    ghost use Rattle.store_buf.specs.Ordering.{AllFiled, FiledBut, Room, MayAt, IsPrepared, SameEarly};
    ghost use Rattle.store_buf.specs.Ordering.{chain_in, early_of, early_room, kept_at, number_of};
    ghost use Rattle.store_buf.specs.Ordering.{place_of_instance, requests_of, ripple_of, waiting_of};
    ghost use Rattle.store_buf.specs.Earlies.{early_items};

    /// No requests; the chain is at its start.
    pub fn new(alloc: Global) -> Order
        ensures filed { (image : Image) → AllFiled image result }
        ensures kept { requests_of result ≡ [] }
        ensures early { early_of result ≡ [] }
        ensures wave { (chain_in result).wave ≡ 1 }
        ensures last { (chain_in result).last ≡ None }
    {
        Order {
            kept: Vec::new(alloc),
            waiting: 0,
            index: Index::new(alloc),
            near: WavePlaces::new(alloc),
            later: Later::new(alloc),
            early: Early::new(alloc),
            chain: Chain {
                wave: 1,
                last: None,
            },
        }
    }

    /// The requests, in the order in which they came.
    #[inline(always)]
    pub fn kept(&self) -> &[Kept]
        ensures { result.now ≡ requests_of self.now }
    {
        &self.kept
    }

    /// How many of them wait.
    #[inline(always)]
    pub fn waiting(&self) -> usize
        ensures { result ≡ waiting_of self.now }
    {
        self.waiting
    }

    /// Where the index has an instance, or would have it.
    #[inline(always)]
    pub(crate) fn hook(&self, wave: u64, instr: u32) -> Hook
        ensures { HookIn self.now.kept.items self.now.index wave instr result }
    {
        self.index.hook(&self.kept, wave, instr)
    }

    /// The request of an instance.
    pub fn find(&self, wave: u64, instr: u32) -> Option<Kept>
        ensures { result ≡ entry_of (requests_of self.now) wave instr }
    {
        self.find_at(wave, instr, self.hook(wave, instr))
    }

    /// The request of an instance that the index has or would have there.
    #[inline(always)]
    pub(crate) fn find_at(&self, wave: u64, instr: u32, hook: Hook) -> Option<Kept>
        requires { HookIn self.now.kept.items self.now.index wave instr hook }
        ensures { result ≡ entry_of (requests_of self.now) wave instr }
    {
        match hook {
            Hook::At(at) => Some(self.kept[at]),
            Hook::Root => None,
            Hook::Behind(_, _) => None,
            Hook::Deep => None,
        }
    }

    /// The place where the request of an instance is, or none.
    #[inline(always)]
    pub fn place(&self, wave: u64, instr: u32) -> Option<usize>
        ensures { result ≡ place_of_instance self.now wave instr }
    {
        self.hook(wave, instr).place()
    }

    /// Keeps a request of an instance that had none, and makes room for its answer.
    pub fn add(&mut self, program: &Program<'_>, kept: Kept) -> Result<(), NoMemory>
        requires filed { AllFiled (image_of program.now) self.old }
        requires fresh { entry_of (requests_of self.old) kept.wave kept.instr ≡ None }
        requires waits { kept.answer ≡ None }
        ensures filed { AllFiled (image_of program.now) self.new }
        ensures kept { OnOk result (requests_of self.new ≡ requests_of self.old ++ kept ∷ []) }
        ensures room { OnOk result (Room self.new) }
        ensures unchanged { OnErr result (requests_of self.new ≡ requests_of self.old) }
        ensures early { early_of self.new ≡ early_of self.old }
        ensures chain { chain_in self.new ≡ chain_in self.old }
        ensures waiting { OnOk result (waiting_of self.new ≡ waiting_of self.old + 1) }
        ensures still { OnErr result (waiting_of self.new ≡ waiting_of self.old) }
        ensures grown { early_room self.old ≤ early_room self.new }
    {
        let hook = self.hook(kept.wave, kept.instr);
        self.add_at(program, kept, hook)
    }

    /// The same for an instance that the index would have there.
    #[inline(always)]
    pub(crate) fn add_at(
        &mut self,
        program: &Program<'_>,
        kept: Kept,
        hook: Hook,
    ) -> Result<(), NoMemory>
        requires filed { AllFiled (image_of program.now) self.old }
        requires fresh { entry_of (requests_of self.old) kept.wave kept.instr ≡ None }
        requires waits { kept.answer ≡ None }
        requires hook { HookIn self.old.kept.items self.old.index kept.wave kept.instr hook }
        ensures filed { AllFiled (image_of program.now) self.new }
        ensures kept { OnOk result (requests_of self.new ≡ requests_of self.old ++ kept ∷ []) }
        ensures room { OnOk result (Room self.new) }
        ensures unchanged { OnErr result (requests_of self.new ≡ requests_of self.old) }
        ensures early { early_of self.new ≡ early_of self.old }
        ensures chain { chain_in self.new ≡ chain_in self.old }
        ensures waiting { OnOk result (waiting_of self.new ≡ waiting_of self.old + 1) }
        ensures still { OnErr result (waiting_of self.new ≡ waiting_of self.old) }
        ensures grown { early_room self.old ≤ early_room self.new }
    {
        let place = self.prepare(kept, hook)?;
        self.file(program, kept, place)?;
        self.push(kept, hook);
        Ok(())
    }

    /// Makes room for a request at the next place, for its answer, and for its node in the index.
    #[inline(always)]
    pub(crate) fn prepare(&mut self, kept: Kept, hook: Hook) -> Result<usize, NoMemory>
        requires fresh { entry_of (requests_of self.old) kept.wave kept.instr ≡ None }
        requires hook { HookIn self.old.kept.items self.old.index kept.wave kept.instr hook }
        ensures place { IfOk result (λ place. place ≡ length (requests_of self.old)) }
        ensures prepared { OnOk result (IsPrepared self.new kept hook) }
        ensures kept { requests_of self.new ≡ requests_of self.old }
        ensures early { early_items self.new.early ≡ early_items self.old.early }
        ensures near { self.new.near ≡ self.old.near }
        ensures later { self.new.later ≡ self.old.later }
        ensures chain { chain_in self.new ≡ chain_in self.old }
        ensures waiting { waiting_of self.new ≡ waiting_of self.old }
        ensures grown { early_room self.old ≤ early_room self.new }
    {
        if self.waiting >= usize::MAX - 1 {
            return Err(NoMemory);
        }
        let place = self.kept.len();
        self.kept.reserve(1)?;
        self.early.reserve(self.waiting + 1)?;
        self.index.make_room(kept.wave, hook)?;
        Ok(place)
    }

    /// Keeps a request for which all is prepared. The heaps stay as they are.
    #[inline(always)]
    pub(crate) fn push(&mut self, kept: Kept, hook: Hook)
        requires prepared { IsPrepared self.old kept hook }
        requires waits { kept.answer ≡ None }
        ensures filed { (image : Image) → AllFiled image self.old
            → FiledBut image self.new (length (requests_of self.old)) }
        ensures kept { requests_of self.new ≡ requests_of self.old ++ kept ∷ [] }
        ensures room { Room self.new }
        ensures waiting { waiting_of self.new ≡ waiting_of self.old + 1 }
        ensures early { self.new.early ≡ self.old.early }
        ensures near { self.new.near ≡ self.old.near }
        ensures later { self.new.later ≡ self.old.later }
        ensures chain { chain_in self.new ≡ chain_in self.old }
    {
        self.index.put(kept.wave, hook);
        self.kept.push_reserved(kept);
        self.waiting += 1;
    }

    // Puts the place of a request among those of its wave.
    #[inline(always)]
    fn file(&mut self, program: &Program<'_>, kept: Kept, place: usize) -> Result<(), NoMemory>
        ensures here { OnOk result (kept.wave ≤ (chain_in self.old).wave
            → IsFiled self.new.near (number_of (image_of program.now) kept)
            (ripple_of (image_of program.now) kept) place) }
        ensures there { OnOk result ((chain_in self.old).wave < kept.wave
            → IsFiledIn self.new.later kept.wave (number_of (image_of program.now) kept)
            (ripple_of (image_of program.now) kept) place) }
        ensures near { (n : ℕ) (r : Option ℕ) (p : ℕ)
            → IsFiled self.old.near n r p → IsFiled self.new.near n r p }
        ensures later { (w n : ℕ) (r : Option ℕ) (p : ℕ)
            → IsFiledIn self.old.later w n r p → IsFiledIn self.new.later w n r p }
        ensures same { self.new ≡ record self.old { near = self.new.near; later = self.new.later } }
    {
        let number = program.note(kept.instr).seq;
        let ripple = ripple_of(program, kept);
        if kept.wave > self.chain.wave {
            self.later.put(kept.wave, number, ripple, place)
        } else {
            self.near.put(number, ripple, place)
        }
    }

    /// The request at a place.
    #[inline(always)]
    pub fn request(&self, place: usize) -> Kept
        requires { place < length (requests_of self.now) }
        ensures { result ≡ kept_at self.now place }
    {
        self.kept[place]
    }

    /// The request at a place becomes this one, of the same instance. It waits where it waited before.
    pub fn change(&mut self, place: usize, kept: Kept)
        requires within { place < length (requests_of self.old) }
        requires wave { kept.wave ≡ (kept_at self.old place).wave }
        requires instr { kept.instr ≡ (kept_at self.old place).instr }
        requires waits { is_none kept.answer ≡ is_none (kept_at self.old place).answer }
        ensures filed { (image : Image) → ripple_of image kept ≡ ripple_of image (kept_at self.old place)
            → AllFiled image self.old → AllFiled image self.new }
        ensures kept { requests_of self.new ≡ slice_set (requests_of self.old) place kept }
        ensures waiting { waiting_of self.new ≡ waiting_of self.old }
        ensures chain { chain_in self.new ≡ chain_in self.old }
        ensures early { SameEarly self.old self.new }
        ensures places { (w i : ℕ) → place_of_instance self.new w i ≡ place_of_instance self.old w i }
    {
        self.kept[place] = kept;
    }

    /// The request at a place, which may be issued, has this answer. The chain passes what is next and
    /// issued.
    #[inline(always)]
    pub fn issue(&mut self, program: &Program<'_>, place: usize, word: u64)
        requires filed { FiledBut (image_of program.now) self.old place }
        requires may { MayAt (image_of program.now) self.old place }
        requires room { Room self.old }
        ensures filed { AllFiled (image_of program.now) self.new }
        ensures room { Room self.new }
        ensures kept { requests_of self.new ≡ slice_set (requests_of self.old) place
            (record (kept_at self.old place) { answer = Some word }) }
        ensures passed { PassedOn (image_of program.now) (chain_of (chain_in self.old))
            (kept_at self.old place).instr (early_of self.old)
            (chain_of (chain_in self.new)) (early_of self.new) }
        ensures fewer { waiting_of self.new < waiting_of self.old }
    {
        let kept = self.kept[place];
        self.kept[place] = Kept {
            answer: Some(word),
            ..kept
        };
        self.waiting -= 1;
        let wave = self.chain.wave;
        self.chain = pass_on(program, self.chain, &mut self.early, kept.instr);
        if self.chain.wave != wave {
            self.later.move_to(self.chain.wave, &mut self.near);
        }
    }
}
