//! Laws of the networks of one process by a token: each function here does nothing, and its contract is the law.
ghost use Rattle.std.specs.Prelude.{◌↔◌, ◌≡◌, ℕ, ◌<◌, ◌^◌, Bool, IsTrue, is_some, List, [], ◌∷◌, map};
ghost use Rattle.std.specs.List.{range_with_len};
ghost use Rattle.cmd_tree.specs.declared.command.Command.{Command as Whole};
ghost use Rattle.cmd_tree.specs.declared.tree.Proc.{Proc};
ghost use Rattle.cmd_tree.specs.Limits.{IsProc, places_of_proc, marks_of_proc};
ghost use Rattle.cmd_tree.specs.Meaning.{TraceOf, has_symbol};
ghost use Rattle.process_laws.specs.Shape.{IsFair};
ghost use Rattle.place_graph.specs.Points.{legs};
ghost use Rattle.place_graph.specs.Graph.{graph_of};
ghost use Rattle.place_graph.specs.Drawable.{AreDirections, AreSets};
ghost use Rattle.net_core.specs.declared.spec.NodeSpec.{NodeSpec};
ghost use Rattle.net_core.specs.declared.spec.NodeSpec.TheVariants.{Cmd};
ghost use Rattle.net_core.specs.Specs.{IsFormed, May, outs_of};
ghost use Rattle.net_core.specs.Wiring.{Circuit};
ghost use Rattle.net_laws.specs.Charts.{charted};
ghost use Rattle.net_laws.specs.Implementing.{Implements};
ghost use Rattle.plain_split.specs.PlainNet.{HasCounted};
ghost use Rattle.token_split.specs.TokenChart.{links, token_chart};
ghost use Rattle.token_split.specs.TokenNet.{NeedsToken, HasToken, IsTokenNet, token_circuit};

/// A specification that does what a fair process with a body does, and has its symbols as ports, is
/// implemented by the network in which a token stands at the wait where the process is, whatever the
/// style of its graph. So is an admitted command of one process that is no grant and needs a token, by
/// fewer than 2^20 wires, and by as many components of each kind as are counted of its graph.
pub fn token_law()
    ensures process { (out : ℕ → Bool) (p : Proc) → IsProc p → IsTrue (is_some p.body) → IsFair out p → AreDirections out p → AreSets (legs p)
        → (names : ℕ) → ((a : ℕ) → (a < names ↔ IsTrue (has_symbol (marks_of_proc p) a))) → places_of_proc p < 2 ^ 26 → names < 2 ^ 26
        → (s : NodeSpec) → IsFormed s → outs_of s ≡ map out (range_with_len 0 names) → ((t : List ℕ) → (May s t ↔ TraceOf p t))
        → Implements (charted (token_chart s (links (graph_of p) names))) s }
    ensures admitted { (c : Whole) (p : Proc) → NeedsToken c p → HasToken c p }
    ensures command { (c : Whole) (p : Proc) (net : Circuit) → HasToken c p → IsTokenNet c p net → Implements net (Cmd c) }
    ensures wires { (c : Whole) (p : Proc) (net : Circuit) → HasToken c p → IsTokenNet c p net → net.wires < 2 ^ 20 }
    ensures kinds { (c : Whole) (p : Proc) (net : Circuit) → HasToken c p → IsTokenNet c p net → HasCounted c p net }
{}
