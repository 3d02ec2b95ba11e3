//! A law of the ends of runs.

ghost use Rattle.std.specs.Prelude.{ℕ, List, Option};
ghost use Rattle.ws_words.specs.Outside.{World};
ghost use Rattle.ws_isa.specs.Image.{Image};
ghost use Rattle.df_core.specs.Core.{Key};
ghost use Rattle.port_set.specs.Ports.{Told};
ghost use Rattle.store_buf.specs.Outdoors.{began_of};
ghost use Rattle.store_buf.specs.declared.finish.RunFinish.{RunFinish};
ghost use Rattle.store_buf.specs.Answer.{RunTells};
ghost use Rattle.fire_crew.specs.Finishes.{EndsSo};

use store_buf::told_ports_begin;

/// The end of a run, in the words of the walk alone.
pub fn ends_are_told()
    ensures { (image : Image) (world : World) (budget : ℕ) (listed : List Key)
        (handed back : List (Option Told)) (finish : RunFinish) →
        EndsSo image world (began_of handed) budget listed handed back finish →
        RunTells image world handed budget finish back }
{
    told_ports_begin();
}
