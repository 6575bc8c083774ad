//! The network of the parts.
ghost use Rattle.std.specs.Prelude.{◌≡◌, ◌+◌, ◌<◌, ◌^◌, true, ◌∷◌, map, IfOk};
ghost use Rattle.std.specs.List.{AllByRecursion, range_with_len};
ghost use Rattle.basic_kinds.specs.declared.kind.Kind.TheVariants.{Dw};
ghost use Rattle.basic_kinds.specs.Kinds.{IsWellFormed};
ghost use Rattle.net_core.specs.declared.spec.NodeSpec.TheVariants.{Kind as Basic};
ghost use Rattle.two_way.specs.Layers.{IsLayerOf};
ghost use Rattle.wait_parts.specs.PartKind.{is_shape, dw_of, part_kind};
ghost use Rattle.wait_parts.specs.PartsNet.{is_cut, ports_of, part_node, parts_circuit};
ghost use Rattle.wait_parts.specs.Mirror.Known.{IsKnown};

use basic_kinds::{Kind, Shape};
use net_core::{Net, Node, NodeSpec};
use net_laws::numbers;
use shape_parts::{ShapePart, parts};
use sqlite_items::Items;
use std::alloc::{AllocError, Global};

/// The DW of these crossings.
fn wait_kind(alloc: Global, rows: u32, cols: u32, cross: &[(u32, u32)]) -> Result<Kind, AllocError>
    requires { is_shape rows cols cross.now ≡ true }
    ensures { IfOk result (λ kind. kind ≡ dw_of rows cols cross.now) }
{
    let cross = Items::from_slice(alloc, cross)?;
    Ok(Kind::Dw(Shape { rows, cols, cross }))
}

/// What stands for a part of these crossings.
fn part_kind(alloc: Global, rows: u32, cols: u32, cross: &[(u32, u32)]) -> Result<Kind, AllocError>
    requires { is_shape rows cols cross.now ≡ true }
    ensures { IfOk result (λ kind. kind ≡ part_kind rows cols cross.now) }
{
    if cross.len() == 1 {
        return Ok(Kind::C(2));
    }
    wait_kind(alloc, rows, cols, cross)
}

/// Each number with as many more.
fn raised(alloc: Global, numbers: &[u32], more: u32) -> Result<Vec<u32>, AllocError>
    requires { AllByRecursion (λ n. more + n < 2 ^ 32) numbers.now }
    ensures { IfOk result (λ all. all.items ≡ map (λ n. more + n) numbers.now) }
{
    let mut all = Vec::new(alloc);
    for number in numbers {
        all.push(more + *number)?;
    }
    Ok(all)
}

/// The component of a part, at the wires of the whole.
fn node(alloc: Global, shape: &Shape, part: &ShapePart) -> Result<Node, AllocError>
    requires few { ports_of shape.now < 2 ^ 28 }
    requires known { IsKnown shape.now part.now }
    ensures { IfOk result (λ node. node ≡ part_node shape.now part.now) }
{
    let rows = part.rows.len() as u32;
    let cols = part.columns.len() as u32;
    let kind = part_kind(alloc, rows, cols, part.cross.as_slice())?;
    let mut wires = raised(alloc, part.rows.as_slice(), 0)?;
    wires.append(&mut raised(alloc, part.columns.as_slice(), shape.rows)?)?;
    wires.append(&mut raised(alloc, part.places.as_slice(), shape.rows + shape.cols)?)?;
    Ok(Node {
        spec: NodeSpec::Kind(kind),
        wires,
    })
}

/// The components of the parts.
fn inner_nodes(alloc: Global, shape: &Shape, parts: &[ShapePart]) -> Result<Vec<Node>, AllocError>
    requires few { ports_of shape.now < 2 ^ 28 }
    requires known { AllByRecursion (IsKnown shape.now) parts.now }
    ensures { IfOk result (λ nodes. nodes.items ≡ map (part_node shape.now) parts.now) }
{
    let mut nodes = Vec::new(alloc);
    for part in parts {
        let next = node(alloc, shape, part)?;
        nodes.push(next)?;
    }
    Ok(nodes)
}

/// The environment, with so many ports.
fn outside(alloc: Global, shape: &Shape, ports: u32) -> Result<Node, AllocError>
    ensures { IfOk result (λ node. node ≡ record { spec = Basic (Dw shape.now); ends = range_with_len 0 ports }) }
{
    let cross = Items::from_slice(alloc, shape.cross.as_slice())?;
    let copy = Shape {
        rows: shape.rows,
        cols: shape.cols,
        cross,
    };
    let wires = numbers(alloc, 0, ports)?;
    Ok(Node {
        spec: NodeSpec::Kind(Kind::Dw(copy)),
        wires,
    })
}

/// The parts of a DW that is not connected, or has one crossing, in its place.
pub fn parts_net(alloc: Global, shape: &Shape) -> Result<Net, AllocError>
    requires formed { IsWellFormed (Dw shape.now) }
    requires cut { is_cut shape.now ≡ true }
    ensures layer { IfOk result (IsLayerOf (Dw shape.now)) }
    ensures net { IfOk result (λ net. net ≡ parts_circuit shape.now) }
{
    let ports = shape.rows + shape.cols + shape.cross.len() as u32;
    let found = parts(alloc, shape.rows, shape.cols, shape.cross.as_slice())?;
    let mut nodes = inner_nodes(alloc, shape, found.as_slice())?;
    let outside = outside(alloc, shape, ports)?;
    nodes.insert(0, outside)?;
    Net::of_nodes(alloc, nodes, ports)
}
