ghost use Rattle.std.specs.Prelude.{◌≡◌, ◌+◌, ◌-◌, ◌<◌, ◌≤◌, ◌^◌, [], ◌∷◌, IfOk};
ghost use Rattle.std.specs.List.{range_with_len};
ghost use Rattle.basic_kinds.specs.ShapeParts.{half};
ghost use Rattle.fan_trees.specs.FanLayers.{by_width, gather_layer, gather_node};
ghost use Rattle.fan_trees.specs.Mirror.Gathers.{kind_of};

use crate::width::by_width;
use basic_kinds::Kind;
use net_core::{Net, Node, NodeSpec};
use net_laws::numbers;
use std::alloc::{AllocError, Global};

/// What gathers several inputs.
#[derive(Clone, Copy)]
pub enum Takes {
    /// A C, which takes all of them.
    All,
    /// A MERGE, which takes any one of them.
    Any,
}

impl Takes {
    fn kind(self, inputs: u32) -> Kind
        ensures { result ≡ kind_of self inputs }
    {
        match self {
            Takes::All => Kind::C(inputs),
            Takes::Any => Kind::Merge(inputs),
        }
    }
}

/// A component with the wires that it takes, and the one that it gives.
fn component(kind: Takes, inputs: u32, mut taken: Vec<u32>, given: u32) -> Result<Node, AllocError>
    ensures { IfOk result (λ node. node ≡ gather_node (kind_of kind) inputs taken.items given) }
{
    taken.push(given)?;
    Ok(Node {
        spec: NodeSpec::Kind(kind.kind(inputs)),
        wires: taken,
    })
}

/// The component of the second half, where this has two inputs or more.
fn second_half(
    alloc: Global,
    kind: Takes,
    inputs: u32,
    first: u32,
    given: u32,
) -> Result<Vec<Node>, AllocError>
    requires { first + inputs < 2 ^ 32 }
    ensures { IfOk result (λ nodes. nodes.items ≡ by_width inputs [] (gather_node (kind_of kind) inputs (range_with_len first inputs) given ∷ [])) }
{
    if inputs < 2 {
        return Ok(Vec::new(alloc));
    }
    let node = component(kind, inputs, numbers(alloc, first, inputs)?, given)?;
    Ok(vec![in alloc; node]?)
}

/// The environment, the components of the halves, and that of two.
fn nodes(alloc: Global, kind: Takes, inputs: u32, first: u32) -> Result<Vec<Node>, AllocError>
    requires inside { first ≤ inputs }
    requires few { inputs + 1 < 2 ^ 28 }
    ensures { IfOk result (λ nodes. nodes.items ≡ (gather_layer (kind_of kind) inputs first (inputs - first)).nodes) }
{
    let rest = inputs - first;
    let from_rest = by_width(rest, first, inputs + 2);
    let outside = component(kind, inputs, numbers(alloc, 0, inputs)?, inputs)?;
    let half = component(kind, first, numbers(alloc, 0, first)?, inputs + 1)?;
    let hub = component(kind, 2, vec![in alloc; inputs + 1, from_rest]?, inputs)?;
    let mut nodes = vec![in alloc; outside, half]?;
    nodes.append(&mut second_half(alloc, kind, rest, first, inputs + 2)?)?;
    nodes.push(hub)?;
    Ok(nodes)
}

/// One layer of a C or a MERGE of three inputs or more.
pub fn layer(alloc: Global, kind: Takes, inputs: u32) -> Result<Net, AllocError>
    requires wide { 3 ≤ inputs }
    requires few { inputs + 1 < 2 ^ 28 }
    ensures { IfOk result (λ net. net ≡ gather_layer (kind_of kind) inputs (half inputs) (inputs - half inputs)) }
{
    let first = inputs - inputs / 2;
    let nodes = nodes(alloc, kind, inputs, first)?;
    let wires = by_width(inputs - first, inputs + 2, inputs + 3);
    Net::of_nodes(alloc, nodes, wires)
}
