ghost use Rattle.std.specs.Prelude.{◌≡◌, ℕ, ◌<◌, ◌≤◌, ◌^◌, map, nat_eq, length, slice_index, IfOk};
ghost use Rattle.std.specs.List.{AllByRecursion, position_or_len};
ghost use Rattle.net_core.specs.Wiring.{Circuit, IsWired, count, moved};
ghost use Rattle.net_core.specs.Walk.{moved_all};

use crate::net::{Net, Node};
use crate::spec::copy_spec;
use std::alloc::{AllocError, Global};

/// For each number below the bound its place in the list.
pub fn places(alloc: Global, numbers: &[u32], bound: u32) -> Result<Vec<u32>, AllocError>
    requires known { AllByRecursion (λ n. n < bound) numbers.now }
    requires once { (n : ℕ) → count n numbers.now ≤ 1 }
    requires whole { (n : ℕ) → n < bound → 0 < count n numbers.now }
    ensures sized { IfOk result (λ table. length table.items ≡ bound) }
    ensures places { IfOk result (λ table. (n : ℕ) → n < bound → slice_index table.items n ≡ position_or_len (nat_eq n) numbers.now) }
{
    let mut table = vec![in alloc; 0u32; bound as usize]?;
    for (place, number) in numbers.iter().enumerate() {
        table[*number as usize] = place as u32;
    }
    Ok(table)
}

/// A copy of the node with the table's numbers for its wires.
pub fn moved_node(alloc: Global, node: &Node, table: &[u32]) -> Result<Node, AllocError>
    requires { IsWired (length table.now) node.now }
    ensures { IfOk result (λ copy. copy ≡ moved (λ w. slice_index table.now w) node.now) }
{
    let spec = copy_spec(alloc, &node.spec)?;
    let wires = moved_wires(alloc, &node.wires, table)?;
    Ok(Node { spec, wires })
}

fn moved_wires(alloc: Global, wires: &[u32], table: &[u32]) -> Result<Vec<u32>, AllocError>
    requires { AllByRecursion (λ w. w < length table.now) wires.now }
    ensures { IfOk result (λ copies. copies.items ≡ map (λ w. slice_index table.now w) wires.now) }
{
    let mut copies = Vec::new(alloc);
    for wire in wires {
        copies.push(table[*wire as usize])?;
    }
    Ok(copies)
}

/// Copies of these nodes of the network, in this order, with the table's numbers for their wires.
pub fn moved_nodes(
    alloc: Global,
    net: &Net,
    numbers: &[u32],
    table: &[u32],
) -> Result<Vec<Node>, AllocError>
    requires known { AllByRecursion (λ n. n < length net.now.nodes) numbers.now }
    requires sized { length table.now ≡ net.now.wires }
    ensures { IfOk result (λ copies. copies.items ≡ moved_all (λ w. slice_index table.now w) net.now numbers.now) }
{
    let mut copies = Vec::new(alloc);
    for number in numbers {
        let copy = moved_node(alloc, &net.nodes[*number as usize], table)?;
        copies.push(copy)?;
    }
    Ok(copies)
}
