//! Laws of the definitions in `specs/`: each function here does nothing, and its contract is the law.
ghost use Rattle.std.specs.Prelude.{ℕ, List, Option, drop};
ghost use Rattle.std.specs.List.{AllByRecursion};
ghost use Rattle.net_core.specs.declared.spec.NodeSpec.{NodeSpec};
ghost use Rattle.net_core.specs.Wiring.{Circuit, IsNetwork, IsWired, IsClosed};
ghost use Rattle.net_core.specs.Networks.{IsClean, SoundFor, Correct};
ghost use Rattle.substitute.specs.Splice.{spliced, Fitting};
ghost use Rattle.substitute.specs.Splices.{all_spliced, FitEach, EachPart, ServeEach};

/// What a network keeps where another one takes the place of one of its nodes: each node has its wires, each
/// wire its two ends, and it is sound and correct for what it was.
pub fn splice_law()
    ensures fits { (c m : Circuit) (a : ℕ) → Fitting c a m
        → AllByRecursion (IsWired (spliced c a m).wires) (spliced c a m).nodes }
    ensures closed { (c m : Circuit) (a : ℕ) → Fitting c a m → IsClosed (spliced c a m) }
    ensures clean { (c m : Circuit) (a : ℕ) → Fitting c a m → IsClean c → IsClean m
        → IsClean (spliced c a m) }
    ensures sound { (c m : Circuit) (a : ℕ) (s t : NodeSpec) → Fitting c a m → SoundFor c s → SoundFor m t
        → SoundFor (spliced c a m) s }
    ensures correct { (c m : Circuit) (a : ℕ) (s t : NodeSpec) → Fitting c a m → Correct c s → Correct m t
        → Correct (spliced c a m) s }
{}

/// Clean networks with the specifications of the nodes of a clean network may take their places. And what
/// a network keeps where one network after the other takes the place of its node.
pub fn splices_law()
    ensures fits { (c : Circuit) (ps : List (Option Circuit)) → IsNetwork c → IsClosed c → IsClean c
        → ServeEach (drop 1 c.nodes) ps → FitEach c 1 ps }
    ensures network { (c : Circuit) (ps : List (Option Circuit)) → FitEach c 1 ps → IsNetwork c
        → IsNetwork (all_spliced c 1 ps) }
    ensures closed { (c : Circuit) (ps : List (Option Circuit)) → FitEach c 1 ps → IsClosed c
        → IsClosed (all_spliced c 1 ps) }
    ensures clean { (c : Circuit) (ps : List (Option Circuit)) → FitEach c 1 ps → IsClean c
        → EachPart IsClean ps → IsClean (all_spliced c 1 ps) }
    ensures sound { (c : Circuit) (ps : List (Option Circuit)) (s : NodeSpec) → FitEach c 1 ps → SoundFor c s
        → EachPart (λ m. (t : NodeSpec) × SoundFor m t) ps → SoundFor (all_spliced c 1 ps) s }
    ensures correct { (c : Circuit) (ps : List (Option Circuit)) (s : NodeSpec) → FitEach c 1 ps → Correct c s
        → EachPart (λ m. (t : NodeSpec) × Correct m t) ps → Correct (all_spliced c 1 ps) s }
{}
