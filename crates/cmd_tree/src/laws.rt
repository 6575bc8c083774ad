//! Laws of the definitions in `specs/`: each function here does nothing, and its contract is the law.
ghost use Rattle.std.specs.Prelude.{◌≡◌, ◌↔◌, ℕ, ◌<◌, nat_eq, List, [], ◌∷◌, ◌++◌, length, count_by};
ghost use Rattle.std.specs.List.{AllByRecursion, IsDistinct};
ghost use Rattle.cmd_tree.specs.declared.tree.Proc.{Proc};
ghost use Rattle.cmd_tree.specs.Limits.{IsProc};
ghost use Rattle.cmd_tree.specs.Meaning.{TraceOf, Trace};
ghost use Rattle.cmd_tree.specs.Residual.{Runs, start};
ghost use Rattle.cmd_tree.specs.Rounds.{counts, Follows, RoundsAt, Rounds};
ghost use Rattle.cmd_tree.specs.RoundsProc.{rounds, rounds_of, MayCome};

/// The traces of a process are the lists of symbols that are steps one after another from its start.
pub fn traces_are_steps()
    ensures { (p : Proc) (t : List ℕ) → IsProc p → (TraceOf p t ↔ Runs p.body (start p) t) }
{}

/// A list of processes has the empty trace, and each prefix of a trace.
pub fn traces_are_closed()
    ensures empty { (ps : List Proc) → AllByRecursion IsProc ps → Trace ps [] }
    ensures prefixes { (ps : List Proc) (t u : List ℕ) → Trace ps (t ++ u) → Trace ps t }
{}

/// A process of rounds has the traces in which each symbol may come by the counts of those before it:
/// of different symbols, and of ports by number. Its traces grow by the ports that may come.
pub fn rounds_by_counts()
    ensures symbols { (ins outs : List ℕ) (t : List ℕ) → 0 < length ins → 0 < length outs → IsDistinct nat_eq (ins ++ outs) → (Trace (rounds_of ins outs ∷ []) t ↔ Follows (λ u a. MayCome ins outs (counts u) a) [] t) }
    ensures ports { (n m : ℕ) (t : List ℕ) → 0 < n → 0 < m → (Trace (rounds n m ∷ []) t ↔ Rounds n m t) }
    ensures empty { (n m : ℕ) → Rounds n m [] }
    ensures push { (n m : ℕ) (t : List ℕ) (p : ℕ) → (Rounds n m (t ++ p ∷ []) ↔ (Rounds n m t × RoundsAt n m (counts t) p)) }
    ensures counted { (t : List ℕ) (p : ℕ) → counts t p ≡ count_by (nat_eq p) t }
{}
