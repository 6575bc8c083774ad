//! The law of the networks of weaves: the function does nothing, and its contract is the law.
ghost use Rattle.std.specs.Prelude.{◌≡◌, ◌<◌, ◌^◌, drop, length};
ghost use Rattle.cmd_tree.specs.declared.command.Command.{Command};
ghost use Rattle.basic_kinds.specs.Sorts.{Sort};
ghost use Rattle.basic_kinds.specs.Sums.{wide_sum};
ghost use Rattle.di_grammar.specs.Admitted.{Admitted};
ghost use Rattle.place_graph.specs.Sums.{command_sum};
ghost use Rattle.net_core.specs.declared.spec.NodeSpec.TheVariants.{Cmd};
ghost use Rattle.net_core.specs.Wiring.{Circuit};
ghost use Rattle.net_core.specs.Networks.{IsClean, Correct};
ghost use Rattle.net_core.specs.Renumbering.{sum_of_parts};
ghost use Rattle.weave_split.specs.WeaveNet.{IsWeaveNet};
ghost use Rattle.weave_split.specs.WeaveParts.{AreParts, part_sum};

/// The network of an admitted command as a weave is correct for it and clean, and has fewer than 2^20 wires. It consists
/// of kinds and of the processes that are no grants, and what is counted of both is what is counted of the command.
pub fn weave_law()
    ensures correct { (c : Command) (net : Circuit) → Admitted c.procs → IsWeaveNet c net → Correct net (Cmd c) }
    ensures clean { (c : Command) (net : Circuit) → Admitted c.procs → IsWeaveNet c net → IsClean net }
    ensures few { (c : Command) (net : Circuit) → IsWeaveNet c net → net.wires < 2 ^ 20 }
    ensures parts { (c : Command) (net : Circuit) → Admitted c.procs → IsWeaveNet c net
        → AreParts (drop 1 net.nodes) }
    ensures sums { (c : Command) (net : Circuit) → Admitted c.procs → IsWeaveNet c net → (s : Sort)
        → sum_of_parts (part_sum s) net ≡ command_sum wide_sum c.procs (length c.names) s }
{}
