//! What moves keep.

ghost use Rattle.std.specs.Prelude.{◌≡◌, ◌↔◌, Bool, List, [], All, Option, Some, None, Result};
ghost use Rattle.ws_words.specs.Outside.{Outside, World};
ghost use Rattle.ws_isa.specs.Image.{Image, Token};
ghost use Rattle.ws_isa.specs.Formed.{Formed};
ghost use Rattle.ws_isa.specs.Sound.{Sound};
ghost use Rattle.df_core.specs.Began.{Began};
ghost use Rattle.store_buf.specs.Contents.{IsBuffer, RightTokens, SubmitSo};
ghost use Rattle.store_buf.specs.declared.fault.BufFault.{BufFault};
ghost use Rattle.store_buf.specs.Requests.{entry_of};
ghost use Rattle.part_store.specs.Contents.{NoBare, whole_of, PartContent};
ghost use Rattle.store_buf.specs.declared.kept.Kept.{Kept};
ghost use Rattle.part_store.specs.Parted.{IsKept, Parted, Parting};
ghost use Rattle.part_store.specs.Rules.{Fills, Moves, ComesIn};
ghost use Rattle.part_store.specs.Calls.{SubmittedSo, request_of};
ghost use Rattle.df_core.specs.Rights.{Asked, IsAsked};
ghost use Rattle.store_buf.specs.Stores.{asked_of};

/// Moves by the rules keep what is true of a buffer with partial store queues, and what they report
/// is right.
pub fn moves_keep()
    ensures { (image : Image) (world : World) (began : List (Option Began)) → Formed image →
        Sound image → (old new : PartContent) (tokens : List Token) → Moves image old tokens new →
        Parting image world began old →
        Parting image world began new × RightTokens image world tokens }
{}

/// A right request, or a right address without its data, that comes keeps it too.
pub fn arrivals_keep()
    ensures { (image : Image) (world : World) (began : List (Option Began)) → (old new : PartContent)
        (k : Kept) (bare : Bool) → ComesIn old k bare new → old.fault ≡ None →
        IsKept image world bare k → Parted image world began old → Parted image world began new }
{}

/// The right data of a store keeps what is true of a buffer, but that a queue's first entry may have its
/// data then.
pub fn data_keeps()
    ensures { (image : Image) (world : World) (began : List (Option Began)) → (old new : PartContent)
        (k : Kept) → Fills old k new → old.fault ≡ None → IsAsked image world (asked_of k) →
        Parting image world began old → Parting image world began new }
{}

/// A buffer that holds no address without data is one of a run exactly where no queue is open and it is
/// a store buffer of the run.
pub fn no_bare_is_a_store_buffer()
    ensures { (image : Image) (world : World) (began : List (Option Began)) → Formed image →
        Sound image → (c : PartContent) → NoBare c →
        All (λ k. entry_of c.kept k.wave k.instr ≡ Some k) c.kept →
        Parted image world began c
        ↔ ((c.queued ≡ []) × ((m : Outside) × IsBuffer image world began (whole_of c) m)) }
{}

/// On a buffer that holds no address without data, what comes of a right request is what comes of it
/// in the store buffer, and again none is without data.
pub fn no_bare_submits_as_a_store_buffer()
    ensures { (image : Image) (world : World) (began : List (Option Began)) → Formed image →
        Sound image → (old new : PartContent) (r : Asked) → IsAsked image world r → NoBare old →
        Parted image world began old → Parted image world began new →
        All (λ k. entry_of old.kept k.wave k.instr ≡ Some k) old.kept →
        All (λ k. entry_of new.kept k.wave k.instr ≡ Some k) new.kept →
        (answer : Result (List Token) BufFault) → SubmittedSo image old (request_of r) answer new →
        NoBare new × SubmitSo image world began (whole_of old) r answer (whole_of new) }
{}
