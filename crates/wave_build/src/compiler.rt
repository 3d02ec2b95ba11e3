//! From an accepted program to its image.

ghost use Rattle.std.specs.Prelude.{IfOk};
ghost use Rattle.ws_isa.specs.Formed.{Formed};
ghost use Rattle.ws_isa.specs.View as image;
ghost use Rattle.src_ast.specs.View as ast;
ghost use Rattle.src_ast.specs.Written.{IsWritten};
ghost use Rattle.ws_isa.specs.Sound.{Sound};
ghost use Rattle.cfg_core.specs.View as view;
ghost use Rattle.wave_link.specs.Numbered.{NumberedInOrder};
ghost use Rattle.wave_link.specs.Ripples.{ExactRipples};
ghost use Rattle.wave_build.specs.Compiled.{ShowsArrays, DoesAs, KeepsBound, HasDraft};
ghost use Rattle.wave_build.specs.Prepared.{Begun, Prepared};

use call_gen::{reached, spell_calls};
use cfg_build::lower;
use cfg_core::{Graph, walks_answer};
use live_vars::live;
use phi_conv::join_short;
use src_ast::{accepted_has_few_variables, written_is_narrow};
use src_check::Accepted;
use std::alloc::Global;
use wave_cut::cut;
use wave_gen::generate;
use wave_link::{annotate, open_drafts_fit};
use ws_isa::{Checked, Image};
use ws_words::NoMemory;

// The graph with its short branches joined.
fn begin(alloc: Global, accepted: &Accepted) -> Result<Graph, NoMemory>
    ensures { let parts = ast.parts accepted.now.program.items.items in
        IfOk result (λ graph. Begun parts (view.graph graph)) }
{
    let lowered = lower(alloc, accepted)?;
    let live = live(alloc, &lowered)?;
    let joined = join_short(alloc, &lowered, &live)?;
    Ok(joined)
}

// The graph of which the draft is made.
fn prepared_graph(alloc: Global, accepted: &Accepted) -> Result<Graph, NoMemory>
    ensures { let parts = ast.parts accepted.now.program.items.items in
        IfOk result (λ graph. Prepared parts (view.graph graph)) }
{
    let joined = begin(alloc, accepted)?;
    let kept = reached(alloc, &joined)?;
    let needed = live(alloc, &kept)?;
    let spelled = spell_calls(alloc, &kept, &needed)?;
    Ok(spelled)
}

/// The image, which is within the limits since the draft leaves room.
pub(crate) fn image_of(alloc: Global, accepted: &Accepted) -> Result<Image, NoMemory>
    requires { IsWritten (ast.parts accepted.now.program.items.items) }
    ensures formed { IfOk result (λ made. Formed (image.image made)) }
    ensures sound { IfOk result (λ made. Sound (image.image made)) }
    ensures arrays { let parts = ast.parts accepted.now.program.items.items in
        IfOk result (λ made. ShowsArrays parts (image.image made)) }
    ensures walk { let parts = ast.parts accepted.now.program.items.items in
        IfOk result (λ made. DoesAs parts (image.image made)) }
    ensures cost { let parts = ast.parts accepted.now.program.items.items in
        IfOk result (λ made. KeepsBound parts (image.image made)) }
    ensures numbers { IfOk result (λ made. NumberedInOrder (image.image made)) }
    ensures ripples { IfOk result (λ made. ExactRipples (image.image made)) }
    ensures draft { IfOk result (λ made. HasDraft (image.image made)) }
{
    walks_answer();
    written_is_narrow();
    accepted_has_few_variables();
    let graph = prepared_graph(alloc, accepted)?;
    open_drafts_fit();
    let live = live(alloc, &graph)?;
    let waves = cut(alloc, &graph)?;
    let draft = generate(alloc, &graph, &waves, &live)?;
    let made = annotate(alloc, &draft)?;
    Ok(made)
}

/// The image of an accepted program that can be written as a text, as each one can that was read from
/// one. It is formed: no such program passes a limit of images.
pub fn compile(alloc: Global, accepted: &Accepted) -> Result<Checked, NoMemory>
    requires written { IsWritten (ast.parts accepted.now.program.items.items) }

    // it shows the program's arrays, and does what the unchecked run does, in every world of words
    ensures arrays { let parts = ast.parts accepted.now.program.items.items in
        IfOk result (λ made. ShowsArrays parts made) }
    ensures walk { let parts = ast.parts accepted.now.program.items.items in
        IfOk result (λ made. DoesAs parts made) }

    // its walk costs at most the program's bound for each turn of that run, and once more
    ensures cost { let parts = ast.parts accepted.now.program.items.items in
        IfOk result (λ made. KeepsBound parts made) }

    // its annotations, and what was added to its draft for them
    ensures numbers { IfOk result (λ made. NumberedInOrder made) }
    ensures ripples { IfOk result (λ made. ExactRipples made) }
    ensures draft { IfOk result (λ made. HasDraft made) }
{
    let made = image_of(alloc, accepted)?;
    Ok(Checked::from_sound(made))
}
