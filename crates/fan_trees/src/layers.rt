ghost use Rattle.std.specs.Prelude.{◌≡◌, ◌+◌, ◌<◌, ◌≤◌, ◌^◌, IfOk};
ghost use Rattle.std.specs.Option.{IfSome};
ghost use Rattle.basic_kinds.specs.declared.kind.Kind.TheVariants.{Fork};
ghost use Rattle.basic_kinds.specs.Kinds.{IsWellFormed, inputs_of, outputs_of};
ghost use Rattle.two_way.specs.Layers.{IsSplitOf};
ghost use Rattle.fan_trees.specs.FanLayers.{IsFan, IsFanLayer, fan_layer};
ghost use Rattle.fan_trees.specs.Mirror.Gathers.{kind_of};

use crate::gather::Takes;
use crate::{fork, gather};
use basic_kinds::Kind;
use net_core::Net;
use std::alloc::{AllocError, Global};

fn split_fork(alloc: Global, outputs: u32) -> Result<Option<Net>, AllocError>
    requires { outputs + 1 < 2 ^ 28 }
    ensures { IfOk result (λ net. net ≡ fan_layer (Fork outputs)) }
{
    if outputs < 3 {
        return Ok(None);
    }
    let net = fork::layer(alloc, outputs)?;
    Ok(Some(net))
}

fn split_gather(alloc: Global, kind: Takes, inputs: u32) -> Result<Option<Net>, AllocError>
    requires { inputs + 1 < 2 ^ 28 }
    ensures { IfOk result (λ net. net ≡ fan_layer (kind_of kind inputs)) }
{
    if inputs < 3 {
        return Ok(None);
    }
    let net = gather::layer(alloc, kind, inputs)?;
    Ok(Some(net))
}

fn layer(alloc: Global, kind: &Kind) -> Result<Option<Net>, AllocError>
    requires fan { IsFan kind.now }
    requires formed { IsWellFormed kind.now }
    ensures { IfOk result (IsFanLayer kind.now) }
{
    match kind {
        Kind::Fork(outputs) => split_fork(alloc, *outputs),
        Kind::C(inputs) => split_gather(alloc, Takes::All, *inputs),
        Kind::Merge(inputs) => split_gather(alloc, Takes::Any, *inputs),
        Kind::Wire
        | Kind::Iwire
        | Kind::Source
        | Kind::Sink
        | Kind::Toggle
        | Kind::Dw(_)
        | Kind::Seq(_) => Ok(None),
    }
}

/// One layer of the split of a FORK, a C or a MERGE, or None where it is two-way.
pub fn split(alloc: Global, kind: &Kind) -> Result<Option<Net>, AllocError>
    requires fan { IsFan kind.now }
    requires formed { IsWellFormed kind.now }
    ensures split { IfOk result (IsSplitOf kind.now) }
    ensures net { IfOk result (IsFanLayer kind.now) }
    ensures few { IfOk result (λ net. IfSome net (λ it. it.wires ≤ inputs_of kind.now + outputs_of kind.now + 2)) }
{
    layer(alloc, kind)
}
