//! From the text of a draft to its image.

ghost use Rattle.std.specs.Prelude.{◌≡◌, ◌≤◌, None, length, IfOk, IfErr, OnOk};
ghost use Rattle.ws_isa.specs.Formed.{Formed, NoNotes};
ghost use Rattle.ws_isa.specs.Open.{Walkable};
ghost use Rattle.ws_isa.specs.Sound.{ShapeRules, SlotRules};
ghost use Rattle.ws_isa.specs.View as view;
ghost use Rattle.wave_link.specs.Numbered.{NumberedInOrder};
ghost use Rattle.wave_link.specs.Plain.{noted};
ghost use Rattle.wave_link.specs.Ripples.{ExactRipples};
ghost use Rattle.wave_link.specs.Room.{WithinLimits};
ghost use Rattle.asm_link.specs.Calls.{text_limit};
ghost use Rattle.asm_link.specs.Linked.{CanBeNoted, HasNotes, Linked, LinksText, RefusesImage, RefusesText};
ghost use Rattle.asm_link.specs.Linked.{StillLacks, TellsLack};
ghost use Rattle.asm_link.specs.Unfit.{lack_in, lacks, room_in};

use crate::draft::draft_of;
use crate::fault::{Lack, LinkFault, LinkRefusal, Unfit};
use crate::unfit::{find_excess, find_lack};
use annot_check::{CheckFault, breaches_break, check_image, check_shape, check_slots};
use asm_text::{AsmFault, read_asm};
use std::alloc::Global;
use wave_link::{annotate, note_draft};
use ws_isa::{Checked, Draft, Image};
use ws_words::NoMemory;

// The rules on shape.
fn shaped(alloc: Global, image: &Image) -> Result<(), LinkFault>
    requires formed { Formed (view.image image.now) }
    ensures rules { OnOk result (ShapeRules (view.image image.now)) }
    ensures refused { IfErr result (RefusesImage (view.image image.now)) }
{
    match check_shape(alloc, image) {
        Ok(()) => Ok(()),
        Err(CheckFault::Refused(bad)) => Err(LinkFault::Refused(LinkRefusal::Unsound(bad))),
        Err(CheckFault::NoMemory) => Err(LinkFault::NoMemory),
    }
}

// The rules on slots.
fn slotted(alloc: Global, image: &Image) -> Result<(), LinkFault>
    requires formed { Formed (view.image image.now) }
    requires shape { ShapeRules (view.image image.now) }
    ensures rules { OnOk result (SlotRules (view.image image.now)) }
    ensures refused { IfErr result (RefusesImage (view.image image.now)) }
{
    match check_slots(alloc, image) {
        Ok(()) => Ok(()),
        Err(CheckFault::Refused(bad)) => Err(LinkFault::Refused(LinkRefusal::Unsound(bad))),
        Err(CheckFault::NoMemory) => Err(LinkFault::NoMemory),
    }
}

// Whether nothing is missing in a draft before anything is added.
fn fit(alloc: Global, draft: &Draft) -> Result<(), Lack>
    ensures fit { OnOk result (lack_in (view.draft draft.now).blocks ≡ None) }
    ensures lacks { IfErr result (TellsLack (lack_in (view.draft draft.now).blocks)) }
{
    match find_lack(alloc, draft)? {
        Some(unfit) => Err(Lack::Unfitting(unfit)),
        None => Ok(()),
    }
}

// Whether what is made of it stays within the limits.
fn within(draft: &Draft, made: &Image) -> Result<(), Lack>
    ensures within { OnOk result (room_in (view.draft draft.now).blocks (view.image made.now).blocks
        ≡ None) }
    ensures lacks { IfErr result (TellsLack
        (room_in (view.draft draft.now).blocks (view.image made.now).blocks)) }
{
    match find_excess(draft, made)? {
        Some(unfit) => Err(Lack::Unfitting(unfit)),
        None => Ok(()),
    }
}

// The image of a draft with memory annotations, and with what they need.
#[tactic(auto, using(crate::proofs::Opens::fits, crate::proofs::Renoted::lack_front, crate::proofs::Renoted::lack_back, crate::proofs::Renoted::lacks_nothing))]
fn with_needed(alloc: Global, draft: &Draft) -> Result<Image, Lack>
    requires bare { NoNotes (view.draft draft.now) }
    requires walkable { Walkable (view.draft draft.now) }
    requires limits { WithinLimits (view.draft draft.now) }
    ensures none { IfOk result (λ made. lacks (view.draft draft.now) ≡ None) }
    ensures formed { IfOk result (λ made. Formed (view.image made)) }
    ensures noted { IfOk result (λ made. HasNotes (view.draft draft.now) (view.image made)) }
    ensures numbers { IfOk result (λ made. NumberedInOrder (view.image made)) }
    ensures ripples { IfOk result (λ made. ExactRipples (view.image made)) }
    ensures lacks { IfErr result (TellsLack (lacks (view.draft draft.now))) }
{
    fit(alloc, draft)?;
    let made = annotate(alloc, draft)?;
    match within(draft, &made) {
        Ok(()) => Ok(made),
        Err(lack) => Err(lack),
    }
}

// The draft with annotations and nothing else, if this is missing.
fn plain(alloc: Global, draft: Draft, lack: Unfit) -> Result<Checked, LinkFault>
    requires formed { Formed (noted (view.draft draft)) }
    ensures made { IfOk result (λ made. made ≡ noted (view.draft draft)) }
    ensures lacks { IfErr result (StillLacks (view.draft draft) lack) }
{
    let made = note_draft(alloc, draft)?;
    breaches_break();
    match check_image(alloc, made) {
        Ok(checked) => Ok(checked),
        Err(CheckFault::Refused(_)) => Err(LinkFault::Refused(LinkRefusal::Unfit(lack))),
        Err(CheckFault::NoMemory) => Err(LinkFault::NoMemory),
    }
}

// The image with new annotations.
#[tactic(auto, using(crate::proofs::Renoted::draft_bare, crate::proofs::Renoted::draft_walkable, crate::proofs::Renoted::draft_within, crate::proofs::Renoted::draft_formed, crate::proofs::Renoted::can_with, crate::proofs::Renoted::linked_with, crate::proofs::Renoted::can_plain, crate::proofs::Renoted::linked_plain, crate::proofs::Renoted::refused_plain))]
fn renoted(alloc: Global, image: Image) -> Result<Checked, LinkFault>
    requires formed { Formed (view.image image) }
    requires shape { ShapeRules (view.image image) }
    requires slots { SlotRules (view.image image) }
    ensures can { IfOk result (λ made. CanBeNoted (view.image image)) }
    ensures linked { IfOk result (Linked (view.image image)) }
    ensures refused { IfErr result (RefusesImage (view.image image)) }
{
    let draft = draft_of(alloc, image)?;
    match with_needed(alloc, &draft) {
        Ok(made) => Ok(Checked::from_sound(made)),
        Err(Lack::Unfitting(lack)) => {
            let made = plain(alloc, draft, lack)?;
            let _ = made.image();
            Ok(made)
        }
        Err(Lack::OutOfMemory) => Err(LinkFault::NoMemory),
    }
}

/// The sound image of a text whose memory annotations are made anew, or why it is refused.
pub fn link(alloc: Global, text: &[u8]) -> Result<Checked, LinkFault>
    requires { length text.now ≤ text_limit }
    ensures ok { IfOk result (LinksText text.now) }
    ensures refused { IfErr result (RefusesText text.now) }
{
    match read_asm(alloc, text) {
        Ok(image) => {
            shaped(alloc, &image)?;
            slotted(alloc, &image)?;
            renoted(alloc, image)
        }
        Err(AsmFault::Refused { kind, line }) => {
            Err(LinkFault::Refused(LinkRefusal::Text(kind, line)))
        }
        Err(AsmFault::NoMemory) => Err(LinkFault::NoMemory),
    }
}
