//! Why the checker stops, and the test of one rule.

ghost use Rattle.std.specs.Prelude.{◌≡◌, [], ◌∷◌, IsTrue, OnOk};
ghost use Rattle.src_ast.specs.Rules.{rule};
ghost use Rattle.src_check.specs.Keeps.{Keeps};

use src_ast::{Place, Refusal, RefusalKind};
use ws_words::NoMemory;

/// Why the checker stops.
#[derive(Clone, Copy)]
pub enum Stop {
    Memory,
    Broken(Refusal),
}

impl From<NoMemory> for Stop {
    ghost use Rattle.src_check.specs.declared.stop.Stop.TheVariants.{Memory};

    ghost from_gives = { λ _ stop. stop ≡ Memory };

    fn from(_error: NoMemory) -> Stop {
        Stop::Memory
    }
}

impl From<Refusal> for Stop {
    ghost use Rattle.src_check.specs.declared.stop.Stop.TheVariants.{Broken};

    ghost from_gives = { λ refusal stop. stop ≡ Broken refusal };

    fn from(refusal: Refusal) -> Stop {
        Stop::Broken(refusal)
    }
}

/// A rule, which is kept or not.
#[tactic(auto, unfolding(crate::specs::Rule::first_broken))]
pub fn require(kept: bool, kind: RefusalKind, place: Place) -> Result<(), Refusal>
    ensures rule { Keeps (rule place kind kept ∷ []) result }
    ensures kept { OnOk result (IsTrue kept) }
{
    if kept {
        Ok(())
    } else {
        Err(Refusal { kind, place })
    }
}
