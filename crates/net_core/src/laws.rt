//! Laws of the definitions in `specs/`: each function here does nothing, and its contract is the law.
ghost use Rattle.std.specs.Prelude.{◌↔◌, ◌≡◌, ℕ, ◌+◌, ◌<◌, ◌≤◌, length, None};
ghost use Rattle.net_core.specs.Wiring.{Circuit, IsNetwork, IsClosed, driven, received};
ghost use Rattle.net_core.specs.Networks.{directions, end_at, IsThrough, IsClosedByEnds};
ghost use Rattle.net_core.specs.Renumbering.{IsRenumbered, Preserves};
ghost use Rattle.net_core.specs.Walk.{walk, walk_of, walk_step, IsInWalkOrder};

use crate::net::Net;

/// What a `Net` is, whatever was done with it.
pub fn network_law(net: &Net)
    ensures { IsNetwork net.now }
{
    // What a network keeps is known from a use of one of its fields on.
    let _ = &net.nodes;
}

/// A network is closed by counts where each wire is at one output port and no other, and at one input port and no other.
pub fn closed_law()
    ensures { (c : Circuit) → IsNetwork c → (IsClosed c ↔ IsClosedByEnds c) }
{}

/// A closed network has as many output ports, and as many input ports, as wires. Since each node has a port,
/// there are at most twice as many nodes.
pub fn ports_law()
    ensures outputs { (c : Circuit) → IsNetwork c → IsClosed c → length (driven c) ≡ c.wires }
    ensures inputs { (c : Circuit) → IsNetwork c → IsClosed c → length (received c) ≡ c.wires }
    ensures nodes { (c : Circuit) → IsNetwork c → IsClosed c → length c.nodes ≤ c.wires + c.wires }
{}

/// With other numbers for its nodes and its wires a closed network is, and does, what it was and did.
pub fn renumber_law()
    ensures { (c d : Circuit) → IsNetwork c → IsClosed c → IsRenumbered c d → Preserves c d }
{}

/// The walk through a closed network ends: no step is left. It lists each node and numbers each wire, so the network
/// in walk order is the same with other numbers. A second walk changes nothing. Where no wire leads from the environment
/// to itself, the environment's port p is at the wire p.
pub fn walk_law()
    ensures ended { (c : Circuit) → IsNetwork c → IsClosed c → walk_step c (walk_of c) ≡ None }
    ensures renumbered { (c : Circuit) → IsNetwork c → IsClosed c → IsRenumbered c (walk c) }
    ensures preserved { (c : Circuit) → IsNetwork c → IsClosed c → Preserves c (walk c) }
    ensures in_order { (c : Circuit) → IsNetwork c → IsClosed c → IsInWalkOrder (walk c) }
    ensures outside { (c : Circuit) → IsNetwork c → IsClosed c → ((w : ℕ) → w < c.wires → IsThrough c w → ⊥)
        → (p : ℕ) → p < length (directions c 0) → end_at (walk c) 0 p ≡ p }
{}
