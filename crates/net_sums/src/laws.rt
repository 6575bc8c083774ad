//! Laws of the definitions in `specs/`: each function here does nothing, and its contract is the law.
ghost use Rattle.std.specs.Prelude.{◌≡◌, ℕ, length};
ghost use Rattle.cmd_tree.specs.declared.command.Command.{Command};
ghost use Rattle.cmd_tree.specs.declared.tree.Proc.{Proc};
ghost use Rattle.basic_kinds.specs.Sorts.{Sort};
ghost use Rattle.basic_kinds.specs.Sums.{Counted, wide_sum, two_way_sum, total_of};
ghost use Rattle.di_grammar.specs.Admitted.{Admitted};
ghost use Rattle.place_graph.specs.Graph.{graph_of};
ghost use Rattle.place_graph.specs.Sums.{counted, command_sum};
ghost use Rattle.net_core.specs.Wiring.{Circuit};
ghost use Rattle.net_core.specs.Renumbering.{sum_of_parts};
ghost use Rattle.plain_split.specs.PlainNet.{HasPlain, IsPlainNet};
ghost use Rattle.token_split.specs.TokenNet.{HasToken, IsTokenNet};
ghost use Rattle.weave_split.specs.WeaveNet.{IsWeaveNet};
ghost use Rattle.net_sums.specs.NodeSums.{IsSum, node_sum};

/// The sums in both bases go over networks. Such a sum over the components of the network of one process is what it makes of
/// that which is counted of the graph of the process; and over those of the network of a weave, where a process stands for what
/// is counted of it, what it makes of that which is counted of the command.
pub fn net_sums_law()
    ensures wide { IsSum wide_sum }
    ensures two { IsSum two_way_sum }
    ensures plain { (sum : Counted → Sort → ℕ) (c : Command) (p : Proc) (net : Circuit) → IsSum sum → HasPlain c p → IsPlainNet c p net
        → (s : Sort) → sum_of_parts (node_sum sum s) net ≡ total_of sum (counted (graph_of p) (length c.names)) s }
    ensures token { (sum : Counted → Sort → ℕ) (c : Command) (p : Proc) (net : Circuit) → IsSum sum → HasToken c p → IsTokenNet c p net
        → (s : Sort) → sum_of_parts (node_sum sum s) net ≡ total_of sum (counted (graph_of p) (length c.names)) s }
    ensures weave { (sum : Counted → Sort → ℕ) (c : Command) (net : Circuit) → IsSum sum → Admitted c.procs → IsWeaveNet c net
        → (s : Sort) → sum_of_parts (node_sum sum s) net ≡ command_sum sum c.procs (length c.names) s }
{}
