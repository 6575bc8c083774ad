//! Laws of the definitions in `specs/`: each function here does nothing, and its contract is the law.
ghost use Rattle.std.specs.Prelude.{◌≡◌, ℕ, ◌<◌, Bool, true, false, nat_eq, IsTrue, List, length};
ghost use Rattle.std.specs.List.{AllByRecursion, IsDistinct};
ghost use Rattle.cmd_tree.specs.declared.tree.Proc.{Proc};
ghost use Rattle.cmd_tree.specs.Limits.{IsProc};
ghost use Rattle.cmd_tree.specs.Lists.{is_in};
ghost use Rattle.cmd_tree.specs.Meaning.{TraceOf, Trace};
ghost use Rattle.cmd_tree.specs.RoundsProc.{rounds_of};
ghost use Rattle.process_laws.specs.GrantForms.{Giving, plain, release, granted_of, returned_of};
ghost use Rattle.process_laws.specs.Granting.{PlainGrant, ReleaseGrant};
ghost use Rattle.process_laws.specs.Insensitive.{Insensitive};
ghost use Rattle.process_laws.specs.Phased.{Phased};
ghost use Rattle.process_laws.specs.Shape.{IsFair};
ghost use Rattle.process_laws.specs.Steady.{Steady};

/// The traces of a process are steady where its bursts alternate, and a symbol tells which alternative begins.
pub fn fair_is_steady()
    ensures { (out : ℕ → Bool) (p : Proc) → IsProc p → IsFair out p → Steady (TraceOf p) out }
{}

/// A process that takes all of its inputs in any order, and then gives all of its outputs in any order, is so.
pub fn rounds_are_fair()
    ensures { (out : ℕ → Bool) (ins outs : List ℕ) → IsDistinct nat_eq ins → IsDistinct nat_eq outs
        → AllByRecursion (λ a. out a ≡ false) ins → AllByRecursion (λ a. out a ≡ true) outs
        → IsFair out (rounds_of ins outs) }
{}

/// Processes of this shape keep the rules of delay-insensitivity.
pub fn fair_is_insensitive()
    ensures phased { (out : ℕ → Bool) (p : Proc) → IsProc p → IsFair out p → Phased ℕ out (TraceOf p) }
    ensures rules { (out : ℕ → Bool) (p : Proc) → IsProc p → IsFair out p → Insensitive (TraceOf p) out }
{}

/// A plain grant gives one of its symbols each time that it is asked.
pub fn plain_grant_law()
    ensures { (n : ℕ) (ps : List ℕ) → 1 < length ps → is_in n ps ≡ false
        → PlainGrant n ps (TraceOf (plain n ps)) }
{}

/// A grant with release gives one of its symbols, and no other until that one is returned.
pub fn release_grant_law()
    ensures { (gs : List Giving) → 1 < length gs
        → ((a : ℕ) → IsTrue (is_in a (granted_of gs)) → is_in a (returned_of gs) ≡ false)
        → ReleaseGrant gs (TraceOf (release gs)) }
{}

/// Both forms of a grant keep the rules of delay-insensitivity, where outputs are granted, and inputs ask or return.
pub fn grants_are_insensitive()
    ensures plain_phased { (out : ℕ → Bool) (n : ℕ) (ps : List ℕ) → 1 < length ps → out n ≡ false
        → AllByRecursion (λ a. out a ≡ true) ps → Phased ℕ out (TraceOf (plain n ps)) }
    ensures plain_rules { (out : ℕ → Bool) (n : ℕ) (ps : List ℕ) → 1 < length ps → out n ≡ false
        → AllByRecursion (λ a. out a ≡ true) ps → Insensitive (TraceOf (plain n ps)) out }
    ensures release_phased { (out : ℕ → Bool) (gs : List Giving) → 1 < length gs
        → AllByRecursion (λ a. out a ≡ true) (granted_of gs)
        → AllByRecursion (λ a. out a ≡ false) (returned_of gs) → Phased ℕ out (TraceOf (release gs)) }
    ensures release_rules { (out : ℕ → Bool) (gs : List Giving) → 1 < length gs
        → AllByRecursion (λ a. out a ≡ true) (granted_of gs)
        → AllByRecursion (λ a. out a ≡ false) (returned_of gs) → Insensitive (TraceOf (release gs)) out }
{}

/// A weave keeps the rules of delay-insensitivity where each of its processes does.
pub fn weaves_are_insensitive()
    ensures { (out : ℕ → Bool) (ps : List Proc) → AllByRecursion (λ p. Insensitive (TraceOf p) out) ps
        → Insensitive (Trace ps) out }
{}
