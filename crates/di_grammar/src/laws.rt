//! Laws of admitted commands: each function here does nothing, and its contract is the law.
ghost use Rattle.std.specs.Prelude.{◌≡◌, ◌↔◌, ℕ, true, false, List};
ghost use Rattle.std.specs.List.{AllByRecursion};
ghost use Rattle.cmd_tree.specs.declared.tree.Proc.{Proc};
ghost use Rattle.cmd_tree.specs.Limits.{IsProc};
ghost use Rattle.cmd_tree.specs.Meaning.{TraceOf, Trace};
ghost use Rattle.process_laws.specs.GrantForms.{granted_of, returned_of};
ghost use Rattle.process_laws.specs.Granting.{PlainGrant, ReleaseGrant};
ghost use Rattle.process_laws.specs.Insensitive.{Insensitive};
ghost use Rattle.process_laws.specs.Phased.{Phased};
ghost use Rattle.process_laws.specs.Steady.{Steady};
ghost use Rattle.di_grammar.specs.Admitted.{Admitted};
ghost use Rattle.di_grammar.specs.Grants.{Gift, GrantsPlainly, GrantsWithRelease, IsGrant};
ghost use Rattle.di_grammar.specs.Lists.{Each};
ghost use Rattle.di_grammar.specs.Outputs.{out_of};
ghost use Rattle.di_grammar.specs.Sums.{grants};

/// In an admitted command each process that is no grant has steady traces. All processes, grants too, take
/// turns of inputs and outputs, and keep the rules of delay-insensitivity.
pub fn processes_law()
    ensures steady { (ps : List Proc) → AllByRecursion IsProc ps → Admitted ps
        → Each (λ p. (IsGrant p → ⊥) → Steady (TraceOf p) (out_of ps)) ps }
    ensures phased { (ps : List Proc) → AllByRecursion IsProc ps → Admitted ps
        → Each (λ p. Phased ℕ (out_of ps) (TraceOf p)) ps }
    ensures rules { (ps : List Proc) → AllByRecursion IsProc ps → Admitted ps
        → Each (λ p. Insensitive (TraceOf p) (out_of ps)) ps }
{}

/// In an admitted command each grant asks by inputs, and gives its outputs one at a time.
pub fn grants_law()
    ensures plain_ways { (ps : List Proc) → Admitted ps
        → Each (λ p. (gs : List Gift) (g : GrantsPlainly p gs)
        → (out_of ps g.asks ≡ false) × AllByRecursion (λ a. out_of ps a ≡ true) g.symbols) ps }
    ensures plain { (ps : List Proc) → Admitted ps
        → Each (λ p. (gs : List Gift) (g : GrantsPlainly p gs) → PlainGrant g.asks g.symbols (TraceOf p)) ps }
    ensures release_ways { (ps : List Proc) → Admitted ps
        → Each (λ p. (gs : List Gift) (g : GrantsWithRelease p gs)
        → AllByRecursion (λ a. out_of ps a ≡ true) (granted_of g.givings)
        × AllByRecursion (λ a. out_of ps a ≡ false) (returned_of g.givings)) ps }
    ensures release { (ps : List Proc) → Admitted ps
        → Each (λ p. (gs : List Gift) (g : GrantsWithRelease p gs) → ReleaseGrant g.givings (TraceOf p)) ps }
{}

/// The traces of an admitted command keep the rules of delay-insensitivity.
pub fn weave_law()
    ensures { (ps : List Proc) → AllByRecursion IsProc ps → Admitted ps → Insensitive (Trace ps) (out_of ps) }
{}

/// The sums take exactly the grants for grants.
pub fn sums_law()
    ensures { (p : Proc) → (grants p ≡ true ↔ IsGrant p) }
{}
