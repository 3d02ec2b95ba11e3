//! Laws of traces.

ghost use Rattle.std.specs.Prelude.{◌≡◌, ℕ, List, Ok, true};
ghost use Rattle.ws_words.specs.Outside.{World};
ghost use Rattle.ws_isa.specs.Image.{Image};
ghost use Rattle.ws_isa.specs.Formed.{Formed};
ghost use Rattle.ws_isa.specs.Sound.{Sound};
ghost use Rattle.df_core.specs.Core.{State, Event, Run, core_opening};
ghost use Rattle.df_core.specs.declared.engine.Event.{Event as Made};
ghost use Rattle.trace_check.specs.declared.events.Lined.{Lined};
ghost use Rattle.trace_check.specs.declared.recording.TraceEnd.{TraceEnd};
ghost use Rattle.trace_check.specs.declared.recording.TraceEnd.TheVariants as end;
ghost use Rattle.trace_check.specs.declared.replaying.Replayed.{Replayed};
ghost use Rattle.trace_check.specs.Recorded.{Traces};
ghost use Rattle.trace_check.specs.Replays.{Replays, StopsAt, events_of};
ghost use Rattle.trace_check.specs.Traces.{AllFit, events_in, events_text, numbered};

use asm_text::printed_lexemes_are_lexed;
use df_core::every_list_of_events;

/// Events lead to one state, and where each of a trace is enabled after those before it, none is the
/// first that isn't.
pub fn traces_are_replayed_once()
    ensures alone { (image : Image) (world : World) → Formed image → Sound image →
        (events : List Event) (one other : State) →
        Run image (core_opening image world) events one →
        Run image (core_opening image world) events other → one ≡ other }
    ensures whole { (image : Image) (world : World) → Formed image → Sound image →
        (trace : List Lined) (state : State) (line : ℕ) →
        Run image (core_opening image world) (events_of trace) state →
        StopsAt image (core_opening image world) trace line → ⊥ }
{
    every_list_of_events();
}

/// The text of events is read as those events, one on each line.
pub fn written_traces_read_again()
    ensures { (first : ℕ) (events : List Made) → AllFit events →
        events_in first (events_text events) ≡ Ok (numbered first events) }
{
    printed_lexemes_are_lexed();
}

/// The events that a core made are replayed: none stops the replay, and it comes to rest where they
/// do.
pub fn made_traces_are_replayed()
    ensures whole { (image : Image) (world : World) → Formed image → Sound image →
        (budget : ℕ) (events : List Made) (how : TraceEnd) →
        Traces image world budget events how → (first line : ℕ) →
        StopsAt image (core_opening image world) (numbered first events) line → ⊥ }
    ensures rests { (image : Image) (world : World) → Formed image → Sound image →
        (budget : ℕ) (events : List Made) → Traces image world budget events end.Rest →
        (first : ℕ) (replayed : Replayed) →
        Replays image world (numbered first events) replayed → replayed.rest ≡ true }
{
    traces_are_replayed_once();
}
