//! The laws of the core, over definitions.
//!
//! The law of a core that makes events in any order: a match of a token in flight, or an issue of a request
//! that waits. From the opening state of a formed and sound image every list of events leads to a state that
//! is fit and grounded, in which each instance has fired once at most (`reach`); each enabled event can be
//! made, in one way (`makes`, `alone`), and keeps states fit (`kept`); a fit state at rest has fired every
//! instance of the walk and issued every operation, or its chain is stopped at the walk's first index fault
//! (`rest`, `stopped`); **whatever the order, memory is the same at rest** (`determined`). How
//! many have fired is counted beside the walk (`counts`); what tables and a buffer stand for between locks is
//! fit (`shown_is_fit`), and at rest if no token is outstanding (`owing_nothing_is_rest`).
ghost use Rattle.std.specs.Prelude.{◌≡◌, ◌≤◌, ◌<◌, ◌⊎◌, ℕ, List, length, Some, true, false};
ghost use Rattle.ws_words.specs.Outside.{Outside, World};
ghost use Rattle.ws_isa.specs.Image.{Image, is_past};
ghost use Rattle.ws_isa.specs.Formed.{Formed};
ghost use Rattle.ws_isa.specs.Walk.{Inst, fires, walk};
ghost use Rattle.ws_isa.specs.Operations.{ops, Effect, FaultsAt};
ghost use Rattle.ws_isa.specs.Sound.{Sound};
ghost use Rattle.df_core.specs.Core.{State, Same, Event, Ready, Issue, Enabled, Reach, Step, Rest, HasFired};
ghost use Rattle.df_core.specs.Core.{Once};
ghost use Rattle.df_core.specs.Fit.{Fit, Grounded};
ghost use Rattle.df_core.specs.Ends.{WholeRun, AtFault, Meets, Passed, AfterFired};

/// From the opening state of a formed, sound image every list of events leads to a state that is
/// fit and grounded. A fit state at rest has fired every instance of the walk and issued every
/// operation, or its chain is stopped at the walk's first out-of-bounds operation. Whatever the
/// order, memory is the same at the end.
pub fn every_list_of_events()
    ensures reach { (image : Image) (world : World) → Formed image → Sound image → (state : State) →
        Reach image world state → Fit image world state × Grounded image world state
        × Once state.fired }
    ensures makes { (image : Image) (world : World) → Formed image → Sound image →
        (state : State) → Fit image world state → (event : Event) → Enabled image state event →
        (new : State) × Step image state event new }
    ensures alone { (image : Image) (world : World) → Formed image → Sound image →
        (state : State) → Fit image world state → (event : Event) (one other : State) →
        Step image state event one → Step image state event other → Same one other }
    ensures kept { (image : Image) (world : World) → Formed image → Sound image →
        (event : Event) (old new : State) → Fit image world old → Step image old event new →
        Fit image world new }
    ensures both_kept { (image : Image) (world : World) → Formed image → Sound image →
        (event : Event) (old new : State) → Fit image world old → Grounded image world old →
        Step image old event new → Grounded image world new }
    ensures rest { (image : Image) (world : World) → Formed image → Sound image → (state : State) →
        Fit image world state → Rest image state → WholeRun image world state
        ⊎ AtFault image world state }
    ensures stopped { (image : Image) (world : World) → Formed image → Sound image →
        (state : State) → Fit image world state → state.stopped ≡ true → AtFault image world state }
    ensures meets { (image : Image) (world : World) → Formed image → Sound image → (state : State) →
        Fit image world state → (wave instr : ℕ) (operands : List ℕ) →
        Ready image state wave instr operands → is_past image instr operands ≡ true →
        Meets image world wave instr }
    ensures determined { (image : Image) (world : World) → Formed image → Sound image →
        (one other : State) → Fit image world one → Rest image one → Fit image world other →
        Rest image other → one.memory ≡ other.memory }
{}

/// At rest as many instances have fired as the walk has; before, no more, and fewer where one of
/// the walk hasn't fired. Where nothing can be issued and the chain isn't stopped, the passed
/// operations are the most that have fired without a gap. Where it is stopped, the place of the
/// out-of-bounds operation is at most the number of instances that have fired.
pub fn counts()
    ensures rest { (image : Image) (world : World) → Formed image → Sound image → (state : State) →
        Fit image world state → WholeRun image world state → (t : ℕ) →
        length (walk image world t) ≤ length state.fired }
    ensures fired { (image : Image) (world : World) → Formed image → Sound image → (state : State) →
        Fit image world state → Once state.fired → (t : ℕ)
        × (length state.fired ≤ length (walk image world t)) }
    ensures fewer { (image : Image) (world : World) → Formed image → Sound image → (state : State) →
        Fit image world state → Once state.fired → (u : ℕ) (x : Inst) →
        fires image world u ≡ Some x → (HasFired state.fired x.wave x.instr → ⊥) → (t : ℕ)
        × (length state.fired < length (walk image world t)) }
    ensures once { (image : Image) (world : World) → Formed image → Sound image →
        (event : Event) (old new : State) → Fit image world old → Once old.fired →
        Step image old event new → Once new.fired }
    ensures spent { (image : Image) (world : World) → Formed image → Sound image → (state : State) →
        Fit image world state → Grounded image world state → state.stopped ≡ false →
        ((wave instr : ℕ) → Enabled image state (Issue wave instr) → ⊥) → (p : ℕ)
        × AfterFired image world state p }
    ensures passed { (image : Image) (world : World) → Formed image → Sound image →
        (state : State) → Fit image world state → state.stopped ≡ false →
        ((wave instr : ℕ) → Enabled image state (Issue wave instr) → ⊥) →
        (p : ℕ) × Passed image world state p }
    ensures waves { (image : Image) (world : World) → Formed image → Sound image →
        (state : State) → Fit image world state → Grounded image world state →
        (wave instr port value : ℕ) → state.way wave instr port ≡ Some value →
        wave ≤ length state.fired }
    ensures place { (image : Image) (world : World) → Formed image → Sound image → (state : State) →
        Fit image world state → Grounded image world state → state.stopped ≡ true → (t : ℕ) →
        FaultsAt image world t → length (ops image world t) < length state.fired }
    ensures way { (image : Image) (world : World) → Formed image → Sound image → (state : State) →
        Fit image world state → Once state.fired → (wave instr port value : ℕ) →
        state.way wave instr port ≡ Some value → (t : ℕ)
        × (length state.fired < length (walk image world t)) }
    ensures effect { (image : Image) (world : World) → Formed image → Sound image →
        (p : ℕ) (one other : Outside) → Effect image world p one → Effect image world p other →
        one ≡ other }
{}

ghost use Rattle.df_core.specs.Shown.{Tables, Buffer, TablesOk, BufferOk, OwesNothing, NoneIssuable, shown};

/// What tables and a buffer stand for is fit, whatever was lost between the locks.
pub fn shown_is_fit()
    ensures { (image : Image) (world : World) → Formed image → Sound image →
        (tables : Tables) (buffer : Buffer) → TablesOk image world tables →
        BufferOk image world buffer → Fit image world (shown image tables buffer) }
{}

/// If tables and a buffer have no outstanding tokens, and nothing that waits in the buffer is
/// issuable, the state for which they stand is at rest.
pub fn owing_nothing_is_rest()
    ensures { (image : Image) (tables : Tables) (buffer : Buffer) →
        OwesNothing image tables buffer →
        NoneIssuable image buffer → Rest image (shown image tables buffer) }
{}
