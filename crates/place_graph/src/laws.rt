//! Laws of the definitions in `specs/`: each function here does nothing, and its contract is the law.
ghost use Rattle.std.specs.Prelude.{◌≡◌, ◌↔◌, ℕ, Bool, IsTrue, List, [], ◌∷◌, ◌++◌, is_some};
ghost use Rattle.cmd_tree.specs.declared.tree.Proc.{Proc};
ghost use Rattle.std.specs.List.{AllByRecursion};
ghost use Rattle.cmd_tree.specs.Limits.{IsProc, IsCommand};
ghost use Rattle.cmd_tree.specs.Meaning.{TraceOf};
ghost use Rattle.process_laws.specs.Shape.{IsFair};
ghost use Rattle.di_grammar.specs.Lists.{Each};
ghost use Rattle.di_grammar.specs.Grants.{IsGrant};
ghost use Rattle.di_grammar.specs.Admitted.{Admitted};
ghost use Rattle.di_grammar.specs.Outputs.{out_of};
ghost use Rattle.place_graph.specs.Points.{legs};
ghost use Rattle.place_graph.specs.Graph.{graph_of, burst_number, home_number};
ghost use Rattle.place_graph.specs.GraphTraces.{TraceOfGraph};
ghost use Rattle.place_graph.specs.declared.styles.SplitStyle.TheVariants.{OneWait, Rounds};
ghost use Rattle.place_graph.specs.Style.{style_of};
ghost use Rattle.place_graph.specs.StyleLegs.{AtOneWait, InRounds};
ghost use Rattle.place_graph.specs.Apart.{HasApart};
ghost use Rattle.place_graph.specs.Drawable.{AreDirections, AreSets, IsDrawable};
ghost use Rattle.place_graph.specs.Chart.{Chart, Homes, Plays};
ghost use Rattle.place_graph.specs.Walks.{GraphTrace, Here, Move, Moves, Reaches, begin};

/// The traces of a process are those of its legs: the fronts of walks from the point 1, and the lists of
/// symbols that are moves one after another.
pub fn graph_traces()
    ensures walks { (p : Proc) → IsProc p → (t : List ℕ) → (TraceOf p t ↔ GraphTrace (legs p) t) }
    ensures moves { (p : Proc) → IsProc p → (t : List ℕ) → (TraceOf p t ↔ Moves (legs p) begin t) }
{}

/// A trace leads to a state, and to one alone where the alternatives of each choice begin with bursts that
/// share no symbol. Then a symbol may follow the trace exactly where a move by it leads on.
pub fn moves_decide()
    ensures reached { (p : Proc) → IsProc p → (t : List ℕ)
        → (TraceOf p t ↔ ((c : Here) × Reaches (legs p) begin t c)) }
    ensures one { (p : Proc) → IsProc p → HasApart p → (t : List ℕ) (c d : Here) → Reaches (legs p) begin t c
        → Reaches (legs p) begin t d → c ≡ d }
    ensures can { (p : Proc) → IsProc p → HasApart p → (t : List ℕ) (a : ℕ) (c : Here)
        → Reaches (legs p) begin t c → (TraceOf p (t ++ a ∷ []) ↔ ((d : Here) × Move (legs p) c a d)) }
{}

/// The legs of a fair process whose marks have the directions of their symbols make a chart, and its traces
/// have tales.
pub fn fair_is_charted()
    ensures chart { (out : ℕ → Bool) (p : Proc) → IsProc p → IsFair out p → AreDirections out p
        → Chart (legs p) out }
    ensures plays { (out : ℕ → Bool) (p : Proc) → IsProc p → IsFair out p → AreDirections out p
        → Plays (legs p) (TraceOf p) }
{}

/// The traces of a fair process with a body are those of its graph by numbers.
pub fn number_traces()
    ensures { (out : ℕ → Bool) (p : Proc) → IsProc p → IsTrue (is_some p.body) → IsFair out p
        → AreDirections out p → (t : List ℕ) → (TraceOf p t ↔ TraceOfGraph (graph_of p) t) }
{}

/// Where each input belongs to one burst as a set, the number of this burst is its home.
pub fn sets_have_homes()
    ensures { (p : Proc) → AreSets (legs p) → Homes (legs p) (burst_number (legs p)) (home_number (legs p)) }
{}

/// What the style of the graph says of the legs: at one wait all inputs lead from one point, and in rounds
/// one burst is taken again and again.
pub fn styles_law()
    ensures one_wait { (p : Proc) → style_of (graph_of p) ≡ OneWait → AtOneWait (legs p) }
    ensures rounds { (out : ℕ → Bool) (p : Proc) → IsProc p → IsTrue (is_some p.body) → IsFair out p
        → AreDirections out p → (k : ℕ) → style_of (graph_of p) ≡ Rounds k → InRounds (legs p) k }
{}

/// So it is for each process of an admitted command that is no grant: it has a chart, its traces have tales
/// and are those of its graph, and its graph can be drawn. In each process, grants too, the alternatives of a
/// choice begin with bursts that share no symbol.
pub fn admitted_graphs()
    ensures chart { (ps : List Proc) → AllByRecursion IsProc ps → Admitted ps
        → Each (λ p. (IsGrant p → ⊥) → Chart (legs p) (out_of ps)) ps }
    ensures plays { (ps : List Proc) → AllByRecursion IsProc ps → Admitted ps
        → Each (λ p. (IsGrant p → ⊥) → Plays (legs p) (TraceOf p)) ps }
    ensures traces { (ps : List Proc) → AllByRecursion IsProc ps
        → AllByRecursion (λ p. IsTrue (is_some p.body)) ps → Admitted ps
        → Each (λ p. (IsGrant p → ⊥) → (t : List ℕ) → (TraceOf p t ↔ TraceOfGraph (graph_of p) t)) ps }
    ensures rounds { (ps : List Proc) → AllByRecursion IsProc ps
        → AllByRecursion (λ p. IsTrue (is_some p.body)) ps → Admitted ps
        → Each (λ p. (IsGrant p → ⊥) → (k : ℕ) → style_of (graph_of p) ≡ Rounds k → InRounds (legs p) k) ps }
    ensures apart { (ps : List Proc) → Admitted ps → AllByRecursion IsProc ps → Each HasApart ps }
    ensures drawable { (names : List (List ℕ)) (ps : List Proc) → IsCommand names ps → Admitted ps
        → Each (λ p. (IsGrant p → ⊥) → IsDrawable p) ps }
{}
