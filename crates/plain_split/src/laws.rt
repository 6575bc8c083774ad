//! Laws of the networks of one process: each function here does nothing, and its contract is the law.
ghost use Rattle.std.specs.Prelude.{◌↔◌, ◌≡◌, ℕ, ◌<◌, ◌^◌, Bool, IsTrue, is_some, List, [], ◌∷◌, map};
ghost use Rattle.std.specs.List.{range_with_len};
ghost use Rattle.cmd_tree.specs.declared.command.Command.{Command as Whole};
ghost use Rattle.cmd_tree.specs.declared.tree.Proc.{Proc};
ghost use Rattle.cmd_tree.specs.Limits.{IsProc, places_of_proc, marks_of_proc};
ghost use Rattle.cmd_tree.specs.Meaning.{TraceOf, has_symbol};
ghost use Rattle.di_grammar.specs.Admitted.{Admitted};
ghost use Rattle.di_grammar.specs.Grants.{IsGrant};
ghost use Rattle.process_laws.specs.Shape.{IsFair};
ghost use Rattle.place_graph.specs.declared.styles.SplitStyle.TheVariants.{OneWait, Rounds};
ghost use Rattle.place_graph.specs.Points.{legs};
ghost use Rattle.place_graph.specs.Graph.{graph_of};
ghost use Rattle.place_graph.specs.Style.{in_rounds, style_of};
ghost use Rattle.place_graph.specs.Drawable.{AreDirections, AreSets, IsDrawable};
ghost use Rattle.net_core.specs.declared.spec.NodeSpec.{NodeSpec};
ghost use Rattle.net_core.specs.declared.spec.NodeSpec.TheVariants.{Cmd};
ghost use Rattle.net_core.specs.Specs.{IsFormed, May, outs_of};
ghost use Rattle.net_core.specs.Wiring.{Node, Circuit};
ghost use Rattle.net_laws.specs.Charts.{charted};
ghost use Rattle.net_laws.specs.Implementing.{Implements};
ghost use Rattle.plain_split.specs.OneWait.{links, one_chart};
ghost use Rattle.plain_split.specs.OneWaitCommands.{HasOneWait, one_wait_net};
ghost use Rattle.plain_split.specs.RoundsNet.{pow};
ghost use Rattle.plain_split.specs.RoundsChart.{rounds_chart};
ghost use Rattle.plain_split.specs.RoundsParts.{parts_of, Specifies};
ghost use Rattle.plain_split.specs.RoundsCommands.{HasRounds, rounds_net};
ghost use Rattle.plain_split.specs.PlainNet.{HasPlain, HasCounted, IsPlainNet};

/// A specification that does what a fair process with one wait does, and has its symbols as ports, is
/// implemented by the network of one wait. So is an admitted command of one process that is no grant
/// and has one wait, by fewer than 2^20 wires, and by as many components of each kind as are
/// counted of its graph.
pub fn one_wait_law()
    ensures process { (out : ℕ → Bool) (p : Proc) → IsProc p → IsTrue (is_some p.body) → IsFair out p → AreDirections out p → AreSets (legs p)
        → style_of (graph_of p) ≡ OneWait → (names : ℕ) → ((a : ℕ) → (a < names ↔ IsTrue (has_symbol (marks_of_proc p) a)))
        → places_of_proc p < 2 ^ 27 → names < 2 ^ 27 → (s : NodeSpec) → IsFormed s → outs_of s ≡ map out (range_with_len 0 names)
        → ((t : List ℕ) → (May s t ↔ TraceOf p t)) → Implements (charted (one_chart s (links (graph_of p) names))) s }
    ensures admitted { (c : Whole) (p : Proc) → c.procs ≡ p ∷ [] → Admitted c.procs → (IsGrant p → ⊥) → style_of (graph_of p) ≡ OneWait → HasOneWait c p }
    ensures command { (c : Whole) (p : Proc) → HasOneWait c p → Implements (one_wait_net c p) (Cmd c) }
    ensures wires { (c : Whole) (p : Proc) → HasOneWait c p → (one_wait_net c p).wires < 2 ^ 20 }
    ensures kinds { (c : Whole) (p : Proc) → HasOneWait c p → HasCounted c p (one_wait_net c p) }
{}

/// Where one burst is taken at each of 2^e waits in turn, a tree of TOGGLEs, which gives each round to
/// the act that follows, implements what specifies the process. So it does a command of this process
/// alone, by fewer than 2^20 wires, and by as many components of each kind as are counted of its
/// graph.
pub fn rounds_law()
    ensures process { (s : NodeSpec) (out : ℕ → Bool) (p : Proc) (e : ℕ) → IsDrawable p → IsFair out p → AreDirections out p → IsTrue (in_rounds (graph_of p))
        → (graph_of p).waits ≡ pow e → 0 < e → Specifies s out (legs p) (TraceOf p) → Implements (charted (rounds_chart (parts_of s (graph_of p) e))) s }
    ensures admitted { (c : Whole) (p : Proc) (k : ℕ) → c.procs ≡ p ∷ [] → Admitted c.procs → (IsGrant p → ⊥) → style_of (graph_of p) ≡ Rounds k → (e : ℕ) × (k ≡ pow e) × HasRounds c p e }
    ensures command { (c : Whole) (p : Proc) (e : ℕ) → HasRounds c p e → Implements (rounds_net c p e) (Cmd c) }
    ensures wires { (c : Whole) (p : Proc) (e : ℕ) → HasRounds c p e → (rounds_net c p e).wires < 2 ^ 20 }
    ensures kinds { (c : Whole) (p : Proc) (e : ℕ) → HasRounds c p e → HasCounted c p (rounds_net c p e) }
{}

/// The network of a command of one process that needs no token implements the command, has fewer than
/// 2^20 wires, and has as many components of each kind as are counted of its graph.
pub fn plain_law()
    ensures command { (c : Whole) (p : Proc) (net : Circuit) → HasPlain c p → IsPlainNet c p net → Implements net (Cmd c) }
    ensures wires { (c : Whole) (p : Proc) (net : Circuit) → HasPlain c p → IsPlainNet c p net → net.wires < 2 ^ 20 }
    ensures kinds { (c : Whole) (p : Proc) (net : Circuit) → HasPlain c p → IsPlainNet c p net → HasCounted c p net }
{}
