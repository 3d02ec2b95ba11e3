//! Laws of walks.

ghost use Rattle.std.specs.Prelude.{◌≡◌, ◌≤◌, ◌+◌, ◌++◌, ℕ, List, length, Some, true, false};
ghost use Rattle.ws_words.specs.Outside.{Act, Outside, World};
ghost use Rattle.ws_isa.specs.declared.instr.Op.{Op as Operation};
ghost use Rattle.ws_isa.specs.Image.{Image, is_load_op, answer_op, after_op};
ghost use Rattle.ws_isa.specs.Formed.{Formed};
ghost use Rattle.ws_isa.specs.Walk.{Inst, pos, mem, walk, fires, has_ended, CostAtMost};
ghost use Rattle.ws_isa.specs.Operations.{effect_of, Effect};
ghost use Rattle.ws_isa.specs.Sound.{PortsThere, ShapeRules, Sound};
ghost use Rattle.ws_isa.specs.Open.{Walkable};

/// Destinations of a formed image name ports that are there, and each formed and sound image can be
/// walked.
pub fn checked_images_walk()
    ensures there { (image : Image) → Formed image → PortsThere image }
    ensures walks { (image : Image) → Formed image → Sound image → Walkable image }
{}

/// The instances of fewer steps stand before those of more; their acts do too. A walk that has
/// ended has no more instances. Each instance fires once, and wave numbers never fall.
pub fn walks_go_on()
    ensures instances { (image : Image) (world : World) (d t : ℕ) →
        (more : List Inst) × (walk image world (d + t) ≡ walk image world t ++ more) }
    ensures acts { (image : Image) (world : World) (d t : ℕ) →
        (acts : List Act) × ((mem image world (d + t)).acts ≡ (mem image world t).acts ++ acts) }
    ensures ended { (image : Image) (world : World) (t : ℕ) → has_ended image world t ≡ true →
        CostAtMost image world (length (walk image world t)) }
    ensures once { (image : Image) (world : World) → ShapeRules image → (t u : ℕ) (x y : Inst) →
        fires image world t ≡ Some x → fires image world u ≡ Some y → x.wave ≡ y.wave →
        x.instr ≡ y.instr → t ≡ u }
    ensures waves { (image : Image) (world : World) → ShapeRules image → (d t : ℕ) →
        has_ended image world (d + t) ≡ false →
        (pos image world t).wave ≤ (pos image world (d + t)).wave }
{}

/// What takes effect leaves loads out: a load has no effect, every other operation has the same
/// whenever loads were answered, and every answer depends on the effect so far alone.
pub fn loads_have_no_effect()
    ensures load { (op : Operation) (xs : List ℕ) (o : Outside) → is_load_op op ≡ true →
        effect_of (after_op op xs o) ≡ effect_of o }
    ensures other { (op : Operation) (xs : List ℕ) (o : Outside) → is_load_op op ≡ false →
        effect_of (after_op op xs o) ≡ after_op op xs (effect_of o) }
    ensures answer { (op : Operation) (xs : List ℕ) (o : Outside) →
        answer_op op xs (effect_of o) ≡ answer_op op xs o }
{}

/// What the first so many operations of a walk leave is one.
pub fn effects_are_one()
    ensures { (image : Image) (world : World) (p : ℕ) (one other : Outside) →
        Effect image world p one → Effect image world p other → one ≡ other }
{}
