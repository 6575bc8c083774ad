//! The network of a process that needs no token.
ghost use Rattle.std.specs.Prelude.{◌≡◌, ◌<◌, ◌^◌, IfOk};
ghost use Rattle.cmd_tree.specs.declared.tree.Proc.{Proc};
ghost use Rattle.place_graph.specs.Graph.{graph_of};
ghost use Rattle.net_core.specs.declared.spec.NodeSpec.TheVariants.{Cmd};
ghost use Rattle.net_laws.specs.Implementing.{Implements};
ghost use Rattle.plain_split.specs.PlainNet.{HasPlain, HasCounted, IsPlainNet};

use crate::one_wait_net::one_wait;
use crate::rounds_net::rounds;
use cmd_tree::{Command, copy_command};
use net_core::Net;
use place_graph::WaitGraph;
use std::alloc::{AllocError, Global};

/// The network of an admitted command of one process that is no grant and needs no token, whose graph this
/// is: of one wait, or of rounds. It consists of basic components, is correct for the command and clean,
/// has fewer than 2^20 wires, and of each kind as many as are counted of the graph.
pub fn plain_net(alloc: Global, spec: &Command, graph: &WaitGraph) -> Result<Net, AllocError>
    requires { (p : Proc) × HasPlain spec.now p × (graph.now ≡ graph_of p) }
    ensures net { (p : Proc) → HasPlain spec.now p → IfOk result (IsPlainNet spec.now p) }
    ensures right { IfOk result (λ net. Implements net (Cmd spec.now)) }
    ensures few { IfOk result (λ net. net.wires < 2 ^ 20) }
    ensures kinds { (p : Proc) → HasPlain spec.now p → IfOk result (HasCounted spec.now p) }
{
    let copy = copy_command(alloc, spec)?;
    if graph.waits == 1 {
        one_wait(alloc, copy, graph)
    } else {
        rounds(alloc, copy, graph)
    }
}
