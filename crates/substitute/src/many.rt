//! Networks in the places of several nodes of another, in one pass over them all.
ghost use Rattle.std.specs.Prelude.{◌≡◌, ℕ, ◌+◌, ◌<◌, ◌^◌, [], ◌∷◌, ◌++◌, Bool, length, take, drop, IfOk, OnOk};
ghost use Rattle.std.specs.Option.{IfSome};
ghost use Rattle.std.specs.List.{AllByRecursion, sum_by};
ghost use Rattle.net_core.specs.declared.spec.NodeSpec.{NodeSpec};
ghost use Rattle.net_core.specs.Wiring.{Circuit, Node, IsNetwork, IsClosed};
ghost use Rattle.net_core.specs.Networks.{IsClean, SoundFor, Correct};
ghost use Rattle.net_core.specs.Renumbering.{sum_of_parts};
ghost use Rattle.substitute.specs.Splice.{FitsAt};
ghost use Rattle.substitute.specs.Splices.{all_spliced, FitEach, wires_in, EachPart, specs_in, specs_after, PassIn, PassAfter, sum_after};
ghost use Rattle.substitute.specs.Mirror.OnePass.{in_place, wires_with, all_in_place, wires_with_all};

use crate::parts::{Parts, new_parts};
use net_core::{Net, Node, copy_spec, network_law};
use std::alloc::{AllocError, Global};

/// The network with each part in the place of its node, an entry for each component: node 1 has the first
/// part, and where the entry is None the node stays. The result is that of one splice after the other, from
/// the first node on: the inner wires of the first part come after the network's wires, and then those of
/// the next part. The only error is want of memory; the time is linear in the network and the parts.
pub fn splice_all(alloc: Global, net: &Net, parts: &[Option<Net>]) -> Result<Net, AllocError>
    requires closed { IsClosed net.now }
    requires sized { length parts.now + 1 ≡ length net.now.nodes }
    requires fitting { FitEach net.now 1 parts.now }
    requires few { net.now.wires + wires_in parts.now < 2 ^ 31 }
    ensures ok { IfOk result (λ whole. whole ≡ all_spliced net.now 1 parts.now) }
    ensures closed { IfOk result (λ whole. IsClosed whole) }
    ensures clean { IsClean net.now → EachPart IsClean parts.now → IfOk result (λ whole. IsClean whole) }
    ensures sound { (s : NodeSpec) → SoundFor net.now s
        → EachPart (λ m. (t : NodeSpec) × SoundFor m t) parts.now
        → IfOk result (λ whole. SoundFor whole s) }
    ensures correct { (s : NodeSpec) → Correct net.now s
        → EachPart (λ m. (t : NodeSpec) × Correct m t) parts.now
        → IfOk result (λ whole. Correct whole s) }
    ensures components { IfOk result
        (λ whole. specs_in whole ≡ specs_after (drop 1 net.now.nodes) parts.now) }
    ensures passing { (test : NodeSpec → Bool) → PassAfter test (drop 1 net.now.nodes) parts.now
        → IfOk result (λ whole. PassIn test whole) }
    ensures sums { (f : NodeSpec → ℕ)
        → IfOk result (λ whole. sum_of_parts f whole ≡ sum_after f (drop 1 net.now.nodes) parts.now) }
{
    network_law(net);
    let whole = put_all(alloc, net, parts)?;
    Net::of_nodes(alloc, whole.nodes, whole.wires)
}

/// The nodes of the result with their numbers, and how many wires it has.
fn put_all(alloc: Global, net: &Net, parts: &[Option<Net>]) -> Result<Parts, AllocError>
    requires sized { length parts.now + 1 ≡ length net.now.nodes }
    requires fitting { FitEach net.now 1 parts.now }
    requires few { net.now.wires + wires_in parts.now < 2 ^ 31 }
    ensures nodes { IfOk result (λ whole. whole.nodes.items
        ≡ take 1 net.now.nodes ++ all_in_place net.now.wires (drop 1 net.now.nodes) parts.now) }
    ensures wires { IfOk result (λ whole. whole.wires ≡ wires_with_all net.now.wires parts.now) }
{
    let mut nodes = Vec::new(alloc);
    let outside = copy_node(alloc, &net.nodes[0])?;
    nodes.push(outside)?;
    let mut whole = Parts {
        nodes,
        wires: net.wires,
    };
    for (place, part) in parts.iter().enumerate() {
        put_next(alloc, &mut whole, &net.nodes[place + 1], part)?;
    }
    Ok(whole)
}

/// Puts the part, or the node where there is none, behind the nodes so far.
fn put_next(
    alloc: Global,
    whole: &mut Parts,
    node: &Node,
    part: &Option<Net>,
) -> Result<(), AllocError>
    requires fitting { IfSome part.now (FitsAt node.now.ends) }
    requires few { whole.old.wires + wires_in (part.now ∷ []) < 2 ^ 31 }
    ensures nodes { OnOk result (whole.new.nodes.items
        ≡ whole.old.nodes.items ++ in_place whole.old.wires node.now part.now) }
    ensures wires { OnOk result (whole.new.wires ≡ wires_with whole.old.wires part.now) }
{
    match part {
        None => {
            let copy = copy_node(alloc, node)?;
            whole.nodes.push(copy)?;
        }
        Some(sub) => {
            let mut parts = new_parts(alloc, &node.wires, whole.wires, sub)?;
            whole.nodes.append(&mut parts.nodes)?;
            whole.wires = parts.wires;
        }
    }
    Ok(())
}

/// An equal node with memory of its own.
fn copy_node(alloc: Global, node: &Node) -> Result<Node, AllocError>
    ensures { IfOk result (λ copy. copy ≡ node.now) }
{
    let spec = copy_spec(alloc, &node.spec)?;
    let wires = Vec::from_slice(alloc, &node.wires)?;
    Ok(Node { spec, wires })
}
