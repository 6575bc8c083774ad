//! The layers of the components of a network.
ghost use Rattle.std.specs.Prelude.{◌≡◌, drop, is_some, IsTrue, IfOk};
ghost use Rattle.std.specs.List.{list_any};
ghost use Rattle.basic_kinds.specs.Kinds.{IsWellFormed};
ghost use Rattle.net_core.specs.Specs.{IsFormed};
ghost use Rattle.substitute.specs.Splices.{PassIn};
ghost use Rattle.net_layers.specs.TwoWayNets.{is_splittable, is_splittable_kind};
ghost use Rattle.net_layers.specs.Mirror.Laid.{IsLaid, IsLaidFor, AreLaid};

use basic_kinds::Kind;
use fan_trees::split;
use net_core::{Net, NodeSpec, network_law};
use std::alloc::{AllocError, Global};

fn layer(alloc: Global, kind: &Kind) -> Result<Option<Net>, AllocError>
    requires form { IsTrue (is_splittable_kind kind.now) }
    requires formed { IsWellFormed kind.now }
    ensures { IfOk result (IsLaid kind.now) }
{
    match kind {
        Kind::Fork(_) | Kind::C(_) | Kind::Merge(_) => split(alloc, kind),
        Kind::Wire
        | Kind::Iwire
        | Kind::Source
        | Kind::Sink
        | Kind::Toggle
        | Kind::Dw(_)
        | Kind::Seq(_) => Ok(None),
    }
}

fn part_layer(alloc: Global, spec: &NodeSpec) -> Result<Option<Net>, AllocError>
    requires form { IsTrue (is_splittable spec.now) }
    requires formed { IsFormed spec.now }
    ensures { IfOk result (IsLaidFor spec.now) }
{
    match spec {
        NodeSpec::Kind(kind) => layer(alloc, kind),
        NodeSpec::Cmd(_) => Ok(None),
    }
}

/// For each component its layer, or None where it is two-way.
pub fn layers(alloc: Global, net: &Net) -> Result<Vec<Option<Net>>, AllocError>
    requires { PassIn is_splittable net.now }
    ensures { IfOk result (λ it. AreLaid (drop 1 net.now.nodes) it.items) }
{
    network_law(net);
    let mut parts = Vec::new(alloc);
    for node in 1..net.nodes.len() {
        parts.push(part_layer(alloc, &net.nodes[node].spec)?)?;
    }
    Ok(parts)
}

/// Whether some component has a layer.
pub fn has_layer(parts: &[Option<Net>]) -> bool
    ensures { result ≡ list_any is_some parts.now }
{
    for part in parts {
        if part.is_some() {
            return true;
        }
    }
    false
}
