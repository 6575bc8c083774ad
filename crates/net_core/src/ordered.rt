ghost use Rattle.std.specs.Prelude.{◌≡◌, ℕ, ◌<◌, length, IfOk, IfErr};
ghost use Rattle.net_core.specs.Wiring.{IsNetwork, IsClosed};
ghost use Rattle.net_core.specs.Networks.{directions, end_at, IsThrough};
ghost use Rattle.net_core.specs.Renumbering.{Preserves};
ghost use Rattle.net_core.specs.Walk as defined;

use crate::net::{Net, Node};
use crate::renumber::{moved_nodes, places};
use crate::walk::WalkState;
use std::alloc::{AllocError, Global};

/// The closed network in walk order, in one pass over its nodes and wires. The environment stays first, and where no
/// wire leads from it to itself, its port p is at the wire p. Without memory the network comes back unchanged.
pub fn order(alloc: Global, net: Net) -> Result<Net, (Net, AllocError)>
    requires { IsClosed net }
    ensures ok { IfOk result (λ ordered. ordered ≡ defined.walk net) }
    ensures refused { IfErr result (λ refusal. refusal.0 ≡ net) }
    ensures in_order { IfOk result (λ ordered. defined.IsInWalkOrder ordered) }
    ensures preserved { IfOk result (λ ordered. Preserves net ordered) }
    ensures outside { ((w : ℕ) → w < net.wires → IsThrough net w → ⊥)
        → IfOk result (λ ordered. (p : ℕ) → p < length (directions net 0) → end_at ordered 0 p ≡ p) }
{
    put_in_order(alloc, net)
}

fn put_in_order(alloc: Global, net: Net) -> Result<Net, (Net, AllocError)>
    requires { IsClosed net }
    ensures ok { IfOk result (λ ordered. ordered ≡ defined.walk net) }
    ensures refused { IfErr result (λ refusal. refusal.0 ≡ net) }
    ensures network { IsNetwork net }
{
    // What a network keeps is known from a use of one of its fields on.
    let _ = &net.nodes;
    match ordered(alloc, &net) {
        Err(error) => Err((net, error)),
        Ok(ordered) => Ok(ordered),
    }
}

/// A copy of the network in walk order.
fn ordered(alloc: Global, net: &Net) -> Result<Net, AllocError>
    requires { IsClosed net.now }
    ensures { IfOk result (λ ordered. ordered ≡ defined.walk net.now) }
{
    let nodes = ordered_nodes(alloc, net)?;
    Net::of_nodes(alloc, nodes, net.wires)
}

/// Copies of the nodes in walk order, with the wires' new numbers.
fn ordered_nodes(alloc: Global, net: &Net) -> Result<Vec<Node>, AllocError>
    requires { IsClosed net.now }
    ensures { IfOk result (λ nodes. nodes.items ≡ (defined.walk net.now).nodes) }
{
    let walk = WalkState::through(alloc, net)?;
    let numbers = places(alloc, walk.numbered.numbers(), net.wires)?;
    moved_nodes(alloc, net, walk.listed.numbers(), &numbers)
}
