//! From the control graph to a draft.

ghost use Rattle.std.specs.Prelude.{◌≡◌, ℕ, IfOk};
ghost use Rattle.ws_words.specs.Outside.{World, WorldOfWords};
ghost use Rattle.ws_isa.specs.View as image;
ghost use Rattle.ws_isa.specs.Open.{OpenToNotes};
ghost use Rattle.cfg_core.specs.Rules.{IsGraph};
ghost use Rattle.cfg_core.specs.View as view;
ghost use Rattle.live_vars.specs.Marks.{AreLive, has};
ghost use Rattle.wave_cut.specs.Cut.{IsCut, AreWaves};
ghost use Rattle.call_gen.specs.Keeps.{HasNoCall, NoneLiveAcross};
ghost use Rattle.cfg_core.specs.Shape.{ArmsAlone};
ghost use Rattle.wave_gen.specs.Lists.{ListsFit};
ghost use Rattle.wave_gen.specs.NoNop.{HasNoNop};
ghost use Rattle.wave_gen.specs.Cost.{CostsAtMost};
ghost use Rattle.wave_gen.specs.Limits.{KeepsLimits};
ghost use Rattle.wave_gen.specs.Words.{GraphOfWords, arrays_of};
ghost use Rattle.wave_gen.specs.Keeps.{KeepsWalk, EndlessWith};

use crate::arrays::arrays;
use crate::draft::make_draft;
use crate::plans::PlanGround;
use cfg_core::Graph;
use live_vars::LiveSets;
use std::alloc::Global;
use wave_cut::Waves;
use ws_isa::Draft;
use ws_words::NoMemory;

/// The draft of a graph without calls, by its waves and live variables. More blocks or instructions
/// than 32 bits count, or more pads of a block or values of a Send than a byte counts, give
/// `NoMemory`.
pub fn generate(
    alloc: Global,
    graph: &Graph,
    waves: &Waves,
    live: &LiveSets,
) -> Result<Draft, NoMemory>
    requires rules { IsGraph (view.graph graph.now) }
    requires live { AreLive (view.graph graph.now) live.now }
    requires cut { IsCut (view.graph graph.now) waves.now }
    requires waves { AreWaves (view.graph graph.now) waves.now }
    requires no_call { HasNoCall (view.graph graph.now) }
    requires across { NoneLiveAcross (view.graph graph.now) }
    requires arms { ArmsAlone (view.graph graph.now) }

    // formed but for annotations: references, lists, waves and pads; and so far go its numbers
    ensures open_to_notes { IfOk result (λ made. OpenToNotes (image.draft made)) }
    ensures lists { IfOk result (λ made. ListsFit (image.draft made)) }
    ensures no_nop { IfOk result (λ made. HasNoNop (image.draft made)) }
    ensures limits { IfOk result (λ made.
        KeepsLimits (view.graph graph.now) (has live.now) (image.draft made)) }
    ensures arrays { IfOk result (λ made.
        (image.draft made).arrays ≡ arrays_of (view.graph graph.now)) }

    // the graph's walk: acts, printed words, cells, what is taken from ports, and the end
    ensures walk { IfOk result (λ made. GraphOfWords (view.graph graph.now) → (world : World) →
        WorldOfWords world → (turns : ℕ) →
        KeepsWalk (view.graph graph.now) (image.draft made) world turns) }
    ensures endless { IfOk result (λ made. GraphOfWords (view.graph graph.now) →
        (world : World) → WorldOfWords world →
        EndlessWith (view.graph graph.now) (image.draft made) world) }
    ensures cost { IfOk result (λ made. GraphOfWords (view.graph graph.now) → (world : World) →
        WorldOfWords world → (turns : ℕ) →
        CostsAtMost (view.graph graph.now) (has live.now) (image.draft made) world turns) }
{
    let outline = PlanGround::of(alloc, graph, live, waves)?;
    let plans = outline.plans(alloc)?;
    let arrays = arrays(alloc, graph)?;
    let draft = make_draft(alloc, arrays, outline.width, &plans)?;
    Ok(draft)
}
