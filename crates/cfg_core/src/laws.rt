//! Laws over the definitions of the graph and its walk.

ghost use Rattle.std.specs.Prelude.{◌≡◌, ◌+◌, ◌*◌, ◌≤◌, ℕ, List};
ghost use Rattle.ws_words.specs.Outside.{ProcState, World, Outside};
ghost use Rattle.cfg_core.specs.Graph.{Graph};
ghost use Rattle.cfg_core.specs.Walk.{Frame, walk, IsOver, starts, Ends, EndsWith, Goes};
ghost use Rattle.cfg_core.specs.Rules.{IsGraph};
ghost use Rattle.cfg_core.specs.Weights.{IsPotential, WeighsAtMost, first_block, WalksWeigh};
ghost use Rattle.cfg_core.specs.Shown.{NoneHidden, ShowsAll, StaysInside};

/// A walk of any number of turns has an answer.
pub fn walks_answer()
    ensures { (graph : Graph) → IsGraph graph →
        (b : ℕ) (s : ProcState) (frames : List Frame) (turns : ℕ) →
        (n : ℕ) × IsOver (walk graph n (starts b s frames turns)) }
{}

/// A walk that ends takes the same number of turns and leaves the same, however many more it is
/// given; with fewer it is going.
pub fn turns_are_exact()
    ensures fewer { (graph : Graph) (world : World) (turns left : ℕ) (o : Outside) →
        EndsWith graph world turns o left → (n : ℕ) × (turns ≡ left + n) × Ends graph world n o }
    ensures more { (graph : Graph) (world : World) (n left : ℕ) (o : Outside) →
        Ends graph world n o → EndsWith graph world (left + n) o left }
    ensures one_end { (graph : Graph) (world : World) (n m : ℕ) (o p : Outside) →
        Ends graph world n o → Ends graph world m p → (n ≡ m) × (o ≡ p) }
    ensures not_both { (graph : Graph) (world : World) (n turns : ℕ) (o p : Outside) →
        n ≤ turns → Ends graph world n o → Goes graph world turns p → ⊥ }
{}

/// A walk of a graph without hidden arrays shows all that it does and leaves, and has no
/// out-of-bounds access to a hidden array.
pub fn nothing_hidden()
    ensures ends { (graph : Graph) → IsGraph graph → NoneHidden graph.arrays →
        (world : World) (turns : ℕ) (o : Outside) → Ends graph world turns o → ShowsAll graph o }
    ensures goes { (graph : Graph) → IsGraph graph → NoneHidden graph.arrays →
        (world : World) (turns : ℕ) (o : Outside) → Goes graph world turns o → ShowsAll graph o }
    ensures inside { (graph : Graph) → IsGraph graph → NoneHidden graph.arrays →
        (world : World) → StaysInside graph world }
{}

/// The blocks that a walk leaves weigh together at most the potential of its first block and what
/// its turns pay. A potential of blocks that weigh 1 gives one of any weights that are bounded by a
/// base and the turns of a block, and so bounds them on each walk.
pub fn weights_are_paid()
    ensures walk { (graph : Graph) (weight p : ℕ → ℕ) (pay : ℕ)
        → IsGraph graph → IsPotential graph weight pay p
        → WalksWeigh graph weight (p (first_block graph)) pay }
    ensures multiple { (graph : Graph) (weight p : ℕ → ℕ) (base pay blocks : ℕ)
        → IsPotential graph (λ b. 1) blocks p → WeighsAtMost graph weight base pay
        → IsPotential graph weight (pay + blocks * base) (λ b. base * p b) }
    ensures bounded { (graph : Graph) (weight p : ℕ → ℕ) (base pay blocks : ℕ)
        → IsGraph graph → IsPotential graph (λ b. 1) blocks p → p (first_block graph) ≤ 1
        → WeighsAtMost graph weight base pay
        → WalksWeigh graph weight base (pay + blocks * base) }
{}
