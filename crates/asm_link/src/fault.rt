//! Why a text has no annotated image.

use annot_check::Bad;
use asm_text::AsmKind;

/// What is missing in a draft whose shape and slots are right. `Arm`: this block branches neither to two
/// blocks that are no first ones and that no other edge enters, nor to two first ones. `Trigger`: nothing
/// could trigger the no-op that this block needs, no instruction of it and no steer of the one block before
/// it. `Full`: a list of this instruction has no room for a no-op that it would trigger. `Many`: there is no
/// room for the no-ops.
#[derive(Clone, Copy, Debug, PartialEq, Eq)]
pub enum Unfit {
    Arm(u32),
    Trigger(u32),
    Full(u32),
    Many,
}

/// Why a draft has no image with what its annotations need.
#[derive(Clone, Copy, Debug, PartialEq, Eq)]
pub enum Lack {
    Unfitting(Unfit),
    OutOfMemory,
}

impl From<ws_words::NoMemory> for Lack {
    ghost use Rattle.std.specs.Prelude.{◌≡◌};
    ghost use Rattle.asm_link.specs.declared.fault.Lack.TheVariants.{OutOfMemory};

    ghost from_gives = { λ _ e. e ≡ OutOfMemory };

    fn from(_error: ws_words::NoMemory) -> Lack {
        Lack::OutOfMemory
    }
}

/// Why a text is refused: its first faulty line, counted from 1, numbers that break a rule on shape or
/// slots, or what is missing.
#[derive(Clone, Copy, Debug, PartialEq, Eq)]
pub enum LinkRefusal {
    Text(AsmKind, u32),
    Unsound(Bad),
    Unfit(Unfit),
}

#[derive(Clone, Copy, Debug, PartialEq, Eq)]
pub enum LinkFault {
    Refused(LinkRefusal),
    NoMemory,
}

impl From<ws_words::NoMemory> for LinkFault {
    ghost use Rattle.std.specs.Prelude.{◌≡◌};
    ghost use Rattle.asm_link.specs.declared.fault.LinkFault.TheVariants.{NoMemory};

    ghost from_gives = { λ _ e. e ≡ NoMemory };

    fn from(_error: ws_words::NoMemory) -> LinkFault {
        LinkFault::NoMemory
    }
}
