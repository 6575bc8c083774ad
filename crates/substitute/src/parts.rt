//! The components of a network with their numbers in the network where it takes the place of a node.
ghost use Rattle.std.specs.Prelude.{◌≡◌, ℕ, ◌+◌, ◌<◌, ◌^◌, length, map, drop, slice_get, slice_index, IfOk};
ghost use Rattle.std.specs.List.{AllByRecursion};
ghost use Rattle.net_core.specs.Wiring.{moved};
ghost use Rattle.net_core.specs.Walk.{ends_at};
ghost use Rattle.substitute.specs.Splice.{FitsAt, renumber_at, rank, is_inner};

use crate::renumber::{moved_nodes, new_numbers};
use net_core::{Net, Node};
use std::alloc::{AllocError, Global};

/// The components that take the place of a node, and how many wires there then are.
#[derive(Drop)]
pub struct Parts {
    pub nodes: Vec<Node>,
    pub wires: u32,
}

/// The wires at the ports of a node.
pub fn wires_of(net: &Net, node: u32) -> &[u32]
    requires inside { node < length net.now.nodes }
    ensures ends { result.now ≡ ends_at (slice_get net.now.nodes node) }
    ensures known { AllByRecursion (λ w. w < net.now.wires) result.now }
{
    &net.nodes[node as usize].wires
}

/// The components of `sub` with their numbers in the whole, where `sub` takes the place of a node with
/// these wires at its ports, in a network of so many wires.
pub fn new_parts(alloc: Global, ends: &[u32], wires: u32, sub: &Net) -> Result<Parts, AllocError>
    requires fitting { FitsAt ends.now sub.now }
    requires few { wires + sub.now.wires < 2 ^ 31 }
    ensures nodes { IfOk result (λ parts. parts.nodes.items
        ≡ map (moved (renumber_at ends.now wires sub.now)) (drop 1 sub.now.nodes)) }
    ensures wires { IfOk result (λ parts. parts.wires ≡ wires + rank (is_inner sub.now) sub.now.wires) }
{
    let numbers = new_numbers(alloc, ends, wires, sub)?;
    let nodes = moved_parts(alloc, sub, &numbers.table)?;
    Ok(Parts {
        nodes,
        wires: numbers.wires,
    })
}

/// Copies of the components of a network, with the table's numbers for their wires.
fn moved_parts(alloc: Global, sub: &Net, table: &[u32]) -> Result<Vec<Node>, AllocError>
    requires { length table.now ≡ sub.now.wires }
    ensures { IfOk result (λ nodes. nodes.items
        ≡ map (moved (λ w. slice_index table.now w)) (drop 1 sub.now.nodes)) }
{
    moved_nodes(alloc, &sub.nodes[1..], table)
}
