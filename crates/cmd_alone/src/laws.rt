//! Laws of the definitions in `specs/`: each function here does nothing, and its contract is the law.
ghost use Rattle.std.specs.Prelude.{◌≡◌, ◌↔◌, ℕ, ◌<◌, IsTrue, List, [], ◌∷◌, map, length};
ghost use Rattle.std.specs.List.{AllByRecursion};
ghost use Rattle.cmd_tree.specs.declared.command.Command.{Command};
ghost use Rattle.cmd_tree.specs.declared.tree.Proc.{Proc};
ghost use Rattle.cmd_tree.specs.Limits.{marks_of_proc, marks_of_all};
ghost use Rattle.cmd_tree.specs.Lists.{is_in};
ghost use Rattle.cmd_tree.specs.Meaning.{has_symbol, project, TraceOf, Trace};
ghost use Rattle.cmd_rename.specs.Symbols.{renumbered};
ghost use Rattle.di_grammar.specs.Admitted.{Admitted};
ghost use Rattle.di_grammar.specs.Grants.{IsGrant};
ghost use Rattle.di_grammar.specs.Outputs.{out_of};
ghost use Rattle.basic_kinds.specs.Sorts.{Sort};
ghost use Rattle.basic_kinds.specs.Sums.{wide_sum, two_way_sum, total_of};
ghost use Rattle.place_graph.specs.Graph.{graph_of};
ghost use Rattle.place_graph.specs.Sums.{counted};
ghost use Rattle.cmd_alone.specs.Alone.{IsAlone, own_symbols, number_in, symbol_at};

/// The symbols of a process are those that stand in it. By itself it has the traces that it has in the command, by
/// their numbers. Where the command is admitted they are inputs and outputs as they are there; and if the process is no
/// grant, then it is admitted by itself and is none. The same components are counted of its graph, in the basis wide and
/// in the basis two.
pub fn alone_law()
    ensures symbols { (p : Proc) (x : ℕ) → is_in x (own_symbols p) ≡ has_symbol (marks_of_proc p) x }
    ensures known { (c d : Command) (i : ℕ) (a : IsAlone c i d)
        → AllByRecursion (λ x. x < length c.names) (own_symbols a.process) }
    ensures names { (c d : Command) (i : ℕ) (a : IsAlone c i d) → length d.names ≡ length (own_symbols a.process) }
    ensures traces { (c d : Command) (i : ℕ) (a : IsAlone c i d) (t : List ℕ) → (Trace d.procs t
        ↔ (AllByRecursion (λ k. k < length (own_symbols a.process)) t × TraceOf a.process (map (symbol_at a.process) t))) }
    ensures by_number { (c d : Command) (i : ℕ) (a : IsAlone c i d) (u : List ℕ)
        → AllByRecursion (λ x. IsTrue (has_symbol (marks_of_proc a.process) x)) u
        → (TraceOf a.process u ↔ Trace d.procs (map (number_in a.process) u)) }
    ensures directions { (c d : Command) (i : ℕ) (a : IsAlone c i d) → Admitted c.procs → (k : ℕ)
        → k < length (own_symbols a.process) → out_of d.procs k ≡ out_of c.procs (symbol_at a.process k) }
    ensures admitted { (c d : Command) (i : ℕ) (a : IsAlone c i d) → Admitted c.procs → (IsGrant a.process → ⊥)
        → Admitted d.procs }
    ensures no_grant { (c d : Command) (i : ℕ) (a : IsAlone c i d) → (IsGrant a.process → ⊥) → (q : Proc)
        → d.procs ≡ q ∷ [] → IsGrant q → ⊥ }
    ensures wide { (c d : Command) (i : ℕ) (a : IsAlone c i d) (q : Proc) → d.procs ≡ q ∷ [] → (k : Sort)
        → total_of wide_sum (counted (graph_of q) (length d.names)) k
        ≡ total_of wide_sum (counted (graph_of a.process) (length c.names)) k }
    ensures two_way { (c d : Command) (i : ℕ) (a : IsAlone c i d) (q : Proc) → d.procs ≡ q ∷ [] → (k : Sort)
        → total_of two_way_sum (counted (graph_of q) (length d.names)) k
        ≡ total_of two_way_sum (counted (graph_of a.process) (length c.names)) k }
{}

/// A command has the traces that its processes by themselves have, each at its own symbols.
pub fn weave_law()
    ensures { (ps : List Proc) (t : List ℕ) → (Trace ps t
        ↔ (AllByRecursion (λ x. IsTrue (has_symbol (marks_of_all ps) x)) t
        × AllByRecursion (λ p. Trace (renumbered (p ∷ [])) (map (number_in p) (project p t))) ps)) }
{}
