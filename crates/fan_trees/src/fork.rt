ghost use Rattle.std.specs.Prelude.{◌≡◌, ◌+◌, ◌-◌, ◌<◌, ◌≤◌, ◌^◌, [], ◌∷◌, IfOk};
ghost use Rattle.std.specs.List.{range_with_len};
ghost use Rattle.basic_kinds.specs.ShapeParts.{half};
ghost use Rattle.fan_trees.specs.FanLayers.{by_width, fork_layer, fork_node};

use crate::width::by_width;
use basic_kinds::Kind;
use net_core::{Net, Node, NodeSpec};
use net_laws::numbers;
use std::alloc::{AllocError, Global};

/// A FORK with the wire that it takes, and those that it gives.
fn fork(alloc: Global, outputs: u32, taken: u32, mut given: Vec<u32>) -> Result<Node, AllocError>
    ensures { IfOk result (λ node. node ≡ fork_node outputs taken given.items) }
{
    let mut wires = vec![in alloc; taken]?;
    wires.append(&mut given)?;
    Ok(Node {
        spec: NodeSpec::Kind(Kind::Fork(outputs)),
        wires,
    })
}

/// The FORK of the second half, where this has two outputs or more.
fn second_half(alloc: Global, outputs: u32, taken: u32, first: u32) -> Result<Vec<Node>, AllocError>
    requires { first + outputs < 2 ^ 32 }
    ensures { IfOk result (λ nodes. nodes.items ≡ by_width outputs [] (fork_node outputs taken (range_with_len first outputs) ∷ [])) }
{
    if outputs < 2 {
        return Ok(Vec::new(alloc));
    }
    let node = fork(alloc, outputs, taken, numbers(alloc, first, outputs)?)?;
    Ok(vec![in alloc; node]?)
}

/// The environment, the FORK of two, and those of the halves.
fn nodes(alloc: Global, outputs: u32, first: u32) -> Result<Vec<Node>, AllocError>
    requires inside { first ≤ outputs }
    requires few { outputs + 1 < 2 ^ 28 }
    ensures { IfOk result (λ nodes. nodes.items ≡ (fork_layer outputs first (outputs - first)).nodes) }
{
    let rest = outputs - first;
    let to_rest = by_width(rest, first + 1, outputs + 2);
    let outside = fork(alloc, outputs, 0, numbers(alloc, 1, outputs)?)?;
    let hub = fork(alloc, 2, 0, vec![in alloc; outputs + 1, to_rest]?)?;
    let half = fork(alloc, first, outputs + 1, numbers(alloc, 1, first)?)?;
    let mut nodes = vec![in alloc; outside, hub, half]?;
    nodes.append(&mut second_half(alloc, rest, outputs + 2, first + 1)?)?;
    Ok(nodes)
}

/// One layer of a FORK of three outputs or more.
pub fn layer(alloc: Global, outputs: u32) -> Result<Net, AllocError>
    requires wide { 3 ≤ outputs }
    requires few { outputs + 1 < 2 ^ 28 }
    ensures { IfOk result (λ net. net ≡ fork_layer outputs (half outputs) (outputs - half outputs)) }
{
    let first = outputs - outputs / 2;
    let nodes = nodes(alloc, outputs, first)?;
    let wires = by_width(outputs - first, outputs + 2, outputs + 3);
    Net::of_nodes(alloc, nodes, wires)
}
