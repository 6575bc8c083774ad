ghost use Rattle.std.specs.Prelude.{◌≡◌, ℕ, ◌+◌, ◌<◌, ◌^◌, length, map, slice_index, IsTrue, IfOk, MatchOption};
ghost use Rattle.std.specs.List.{AllByRecursion, range_with_len};
ghost use Rattle.net_core.specs.Wiring.{Node, IsWired, IsClosed, moved};
ghost use Rattle.substitute.specs.Splice.{FitsAt, renumber_at, rank, is_inner};
ghost use Rattle.substitute.specs.Mirror.Outer.{IsOuter};

use net_core::{Net, Node, moved_node, network_law};
use std::alloc::{AllocError, Global};

/// The new number of each wire, and how many wires there then are.
#[derive(Drop)]
pub struct Numbers {
    pub table: Vec<u32>,
    pub wires: u32,
}

/// The number of each wire of `sub` in the whole, and how many wires the whole has, where `sub` takes the place of a
/// node with these wires at its ports, in a network of so many wires. The wires that are not fused take the next numbers.
pub fn new_numbers(
    alloc: Global,
    ends: &[u32],
    wires: u32,
    sub: &Net,
) -> Result<Numbers, AllocError>
    requires fitting { FitsAt ends.now sub.now }
    requires few { wires + sub.now.wires < 2 ^ 31 }
    ensures table { IfOk result (λ numbers. numbers.table.items
        ≡ map (renumber_at ends.now wires sub.now) (range_with_len 0 sub.now.wires)) }
    ensures wires { IfOk result (λ numbers. numbers.wires ≡ wires + rank (is_inner sub.now) sub.now.wires) }
{
    let mut table = Vec::new(alloc);
    let mut next = wires;
    for wire in 0..sub.wires {
        match outer_port(sub, wire) {
            Some(port) => table.push(ends[port as usize])?,
            None => {
                table.push(next)?;
                next += 1;
            }
        }
    }
    Ok(Numbers { table, wires: next })
}

/// The environment's port at the wire, where one end of the wire is at the environment.
fn outer_port(net: &Net, wire: u32) -> Option<u32>
    requires closed { IsClosed net.now }
    requires known { wire < net.now.wires }
    ensures { MatchOption result (IsTrue (is_inner net.now wire)) (λ port. IsOuter net.now wire port) }
{
    network_law(net);
    let (driver, output) = net.driver(wire);
    if driver == 0 {
        return Some(output);
    }
    let (receiver, input) = net.receiver(wire);
    if receiver == 0 { Some(input) } else { None }
}

/// Copies of the nodes with the table's numbers for their wires.
pub fn moved_nodes(alloc: Global, nodes: &[Node], table: &[u32]) -> Result<Vec<Node>, AllocError>
    requires { AllByRecursion (IsWired (length table.now)) nodes.now }
    ensures { IfOk result (λ copies. copies.items ≡ map (moved (λ w. slice_index table.now w)) nodes.now) }
{
    let mut copies = Vec::new(alloc);
    for node in nodes {
        let copy = moved_node(alloc, node, table)?;
        copies.push(copy)?;
    }
    Ok(copies)
}
