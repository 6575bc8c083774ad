//! The ends of wires: a table of the ports that are there.
ghost use Rattle.std.specs.Prelude.{◌≡◌, ◌+◌, ◌<◌, ◌^◌, true, false, length, replicate, IfOk, OnOk};
ghost use Rattle.std.specs.List.{AllByRecursion};
ghost use Rattle.net_core.specs.Wiring.{IsWired};
ghost use Rattle.net_core.specs.Mirror.EndTables.{Added, IsTable, joined, is_one, numbers_of, ports_from, all_ports, turned, with_parts, no_ends};

use crate::net::Node;
use crate::spec::directions;
use std::alloc::{AllocError, Global};

/// A port of a node, by their numbers. The ports of a node are numbered from 0 in the order of its wires.
#[derive(Clone, Copy)]
pub struct Port {
    pub node: u32,
    pub number: u32,
}

/// One end of a wire, by the ports that are there.
#[derive(Clone, Copy)]
pub enum End {
    /// No port.
    Free,
    /// This port and no other.
    At(Port),
    /// Two ports or more.
    Shared,
}

impl End {
    /// The end where the port comes to it.
    fn with(self, port: Port) -> End
        ensures { result ≡ joined self (End.At port) }
    {
        match self {
            End::Free => End::At(port),
            End::At(_) | End::Shared => End::Shared,
        }
    }

    /// Whether there is one port and no other.
    pub fn is_one(self) -> bool
        ensures { result ≡ is_one self }
    {
        matches!(self, End::At(_))
    }

    /// The numbers of the node and of its port, or (0, 0) where there is none, or more than one.
    pub fn numbers(self) -> (u32, u32)
        ensures { result ≡ numbers_of self }
    {
        match self {
            End::At(port) => (port.node, port.number),
            End::Free | End::Shared => (0, 0),
        }
    }
}

/// The two ends of a wire: the output port that drives it, and the input port that receives from it.
#[derive(Clone, Copy)]
pub struct Ends {
    pub driver: End,
    pub receiver: End,
}

/// The ends of a wire that is at no port.
pub const NO_ENDS: Ends = Ends {
    driver: End::Free,
    receiver: End::Free,
};

/// Notes the ports of a node, with these directions, at their wires. The environment's directions are exchanged.
pub fn note_ports(ends: &mut [Ends], outs: &[bool], wires: &[u32], node: u32)
    requires sized { length wires.now ≡ length outs.now }
    requires known { AllByRecursion (λ w. w < length ends.old) wires.now }
    requires few { length wires.now < 2 ^ 32 }
    ensures { Added ends.old ends.new (ports_from (turned true node) node 0 outs.now wires.now)
        (ports_from (turned false node) node 0 outs.now wires.now) }
{
    let outside = node == 0;
    for (number, wire) in wires.iter().enumerate() {
        let port = Port {
            node,
            number: number as u32,
        };
        let end = &mut ends[*wire as usize];
        if outs[number] != outside {
            end.driver = end.driver.with(port);
        } else {
            end.receiver = end.receiver.with(port);
        }
    }
}

/// Notes the ports of these nodes, which have the numbers from the first one on.
fn note_nodes(
    alloc: Global,
    ends: &mut [Ends],
    nodes: &[Node],
    first: u32,
) -> Result<(), AllocError>
    requires wired { AllByRecursion (IsWired (length ends.old)) nodes.now }
    requires few { first + length nodes.now < 2 ^ 32 }
    ensures { OnOk result (Added ends.old ends.new (all_ports true first nodes.now) (all_ports false first nodes.now)) }
{
    for (place, node) in nodes.iter().enumerate() {
        let outs = directions(alloc, &node.spec)?;
        note_ports(ends, &outs, &node.wires, first + place as u32);
    }
    Ok(())
}

/// The ends of so many wires that are at no port.
fn free_ends(alloc: Global, wires: u32) -> Result<Vec<Ends>, AllocError>
    ensures { IfOk result (λ ends. ends.items ≡ replicate wires no_ends) }
{
    vec![in alloc; NO_ENDS; wires as usize]
}

/// The ends of so many wires, at the ports of these nodes.
pub fn ends_of(alloc: Global, nodes: &[Node], wires: u32) -> Result<Vec<Ends>, AllocError>
    requires wired { AllByRecursion (IsWired wires) nodes.now }
    requires few { length nodes.now < 2 ^ 32 }
    ensures { IfOk result (λ ends. IsTable wires ends.items (all_ports true 0 nodes.now) (all_ports false 0 nodes.now)) }
{
    let mut ends = free_ends(alloc, wires)?;
    note_nodes(alloc, &mut ends, nodes, 0)?;
    Ok(ends)
}

/// The ends of so many wires, at the ports of the nodes with the parts in the place of one of them.
pub fn ends_with(
    alloc: Global,
    nodes: &[Node],
    at: u32,
    parts: &[Node],
    wires: u32,
) -> Result<Vec<Ends>, AllocError>
    requires inside { at < length nodes.now }
    requires wired { AllByRecursion (IsWired wires) (with_parts nodes.now at parts.now) }
    requires few { length (with_parts nodes.now at parts.now) < 2 ^ 32 }
    ensures { IfOk result (λ ends. IsTable wires ends.items (all_ports true 0 (with_parts nodes.now at parts.now))
        (all_ports false 0 (with_parts nodes.now at parts.now))) }
{
    let mut ends = free_ends(alloc, wires)?;
    note_nodes(alloc, &mut ends, &nodes[..at as usize], 0)?;
    note_nodes(alloc, &mut ends, parts, at)?;
    let next = at + parts.len() as u32;
    note_nodes(alloc, &mut ends, &nodes[at as usize + 1..], next)?;
    Ok(ends)
}
