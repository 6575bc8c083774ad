//! Laws of the definitions in `specs/`. Each function is empty: its clauses are what it is for.
ghost use Rattle.std.specs.Prelude.{◌≡◌, ◌↔◌, ℕ, ◌<◌, List, [], ◌∷◌, ◌++◌};
ghost use Rattle.cmd_tree.specs.Rounds.{counts, Rounds};
ghost use Rattle.basic_kinds.specs.declared.kind.Kind.{Kind};
ghost use Rattle.basic_kinds.specs.Kinds.{IsWide};
ghost use Rattle.basic_kinds.specs.KindTraces.{KindTrace};
ghost use Rattle.basic_kinds.specs.KindCounts.{KindAt, KindFollows};

use crate::kind::Kind;

/// A WIRE, a FORK and a C take all their inputs and then give all their outputs, again and again. So
/// whether a trace is one of theirs is decided by how often each port has come before each port of it.
pub fn rounds_law()
    ensures wire { (t : List ℕ) → (KindTrace Kind.Wire t ↔ Rounds 1 1 t) }
    ensures fork { (n : ℕ) (t : List ℕ) → 0 < n → (KindTrace (Kind.Fork n) t ↔ Rounds 1 n t) }
    ensures join { (n : ℕ) (t : List ℕ) → 0 < n → (KindTrace (Kind.C n) t ↔ Rounds n 1 t) }
{}

/// Of each kind, of any width or shape, the counts decide: a trace is one of the kind exactly where each port
/// of it may come by how often each port has come before it. So the empty trace is one, and a trace with one
/// more port is one exactly where the trace is and the port may come.
pub fn kinds_by_counts()
    ensures counts { (kind : Kind) (t : List ℕ) → IsWide kind → (KindTrace kind t ↔ KindFollows kind t) }
    ensures empty { (kind : Kind) → IsWide kind → KindTrace kind [] }
    ensures push { (kind : Kind) (t : List ℕ) (p : ℕ) → IsWide kind
        → (KindTrace kind (t ++ p ∷ []) ↔ (KindTrace kind t × KindAt kind (counts t) p)) }
{}
