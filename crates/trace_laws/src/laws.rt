//! Laws of the definitions in `specs/`: each function here does nothing, and its contract is the law.
ghost use Rattle.std.specs.Prelude.{◌≡◌, ◌⊎◌, ℕ, ◌<◌, Bool, List};
ghost use Rattle.std.specs.List.{Contains, AllByRecursion};
ghost use Rattle.cmd_tree.specs.declared.tree.Dir.{Dir};
ghost use Rattle.process_laws.specs.Insensitive.{Insensitive};
ghost use Rattle.trace_laws.specs.Breaks.{LeastBroken};
ghost use Rattle.trace_laws.specs.ListText.{IsListText, IsFaultyLine};

/// Bytes are the text of one list, or they have one first faulty line.
pub fn list_or_faulty_line()
    ensures either { (bytes : List ℕ) →
        ((names : List (List ℕ)) × (dirs : List Dir) × (traces : List (List ℕ)) × IsListText bytes names dirs traces)
        ⊎ ((n : ℕ) × IsFaultyLine bytes n) }
    ensures not_both { (bytes : List ℕ) (names : List (List ℕ)) (dirs : List Dir) (traces : List (List ℕ)) (n : ℕ) →
        IsListText bytes names dirs traces → IsFaultyLine bytes n → ⊥ }
    ensures one_list { (bytes : List ℕ) (names ns : List (List ℕ)) (dirs ds : List Dir) (traces ts : List (List ℕ)) →
        IsListText bytes names dirs traces → IsListText bytes ns ds ts → (names ≡ ns) × (dirs ≡ ds) × (traces ≡ ts) }
    ensures one_line { (bytes : List ℕ) (m n : ℕ) → IsFaultyLine bytes m → IsFaultyLine bytes n → m ≡ n }
{}

/// A list breaks one least rule at one least trace, or keeps them all.
pub fn one_rule_is_told()
    ensures one { (out : ℕ → Bool) (traces : List (List ℕ)) (j k : ℕ) (t u : List ℕ) →
        LeastBroken out (Contains traces) j t → LeastBroken out (Contains traces) k u → (j ≡ k) × (t ≡ u) }
    ensures kept { (out : ℕ → Bool) (traces : List (List ℕ)) (j : ℕ) (t : List ℕ) →
        LeastBroken out (Contains traces) j t → Insensitive (Contains traces) out → ⊥ }
{}

/// The trace at which a list breaks a rule has no other symbols than the traces of the list.
pub fn told_traces_have_listed_symbols()
    ensures { (out : ℕ → Bool) (traces : List (List ℕ)) (n : ℕ) (j : ℕ) (t : List ℕ) →
        AllByRecursion (AllByRecursion (λ a. a < n)) traces → LeastBroken out (Contains traces) j t → AllByRecursion (λ a. a < n) t }
{}
