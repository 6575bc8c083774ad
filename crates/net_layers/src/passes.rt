//! One pass after the other, until each component is two-way.
ghost use Rattle.std.specs.Prelude.{◌≡◌, ◌<◌, ◌^◌, drop, IfOk};
ghost use Rattle.basic_kinds.specs.Sorts.{Sort, how_many};
ghost use Rattle.net_core.specs.Wiring.{Node};
ghost use Rattle.net_core.specs.Renumbering.{sum_of_parts};
ghost use Rattle.plain_split.specs.OneWaitSums.{is_component};
ghost use Rattle.substitute.specs.Splices.{PassIn};
ghost use Rattle.two_way.specs.Layers.{two_way_part};
ghost use Rattle.net_layers.specs.TwoWayNets.{is_two_way_part, IsSplittable, IsSplitTo};
ghost use Rattle.net_layers.specs.Mirror.Laid.{IsLayered};

use crate::layers::{has_layer, layers};
use net_core::Net;
use std::alloc::{AllocError, Global};
use substitute::splice_all;

/// The network with a layer in the place of each component that is not two-way, or None where there is none.
fn layered(alloc: Global, net: &Net) -> Result<Option<Net>, AllocError>
    requires { IsSplittable net.now }
    ensures { IfOk result (IsLayered net.now) }
{
    let parts = layers(alloc, net)?;
    if !has_layer(parts.as_slice()) {
        return Ok(None);
    }
    let whole = splice_all(alloc, net, parts.as_slice())?;
    Ok(Some(whole))
}

/// The network with layers in the places of its components until each is two-way. It is for what the network was for, and has
/// as many components of each sort as stand for those of the network in the end. Each pass is linear in the network, and there are
/// about as many passes as the greatest width has binary digits.
pub fn split_all(alloc: Global, net: Net) -> Result<Net, AllocError>
    requires { IsSplittable net }
    ensures split { IfOk result (IsSplitTo net) }
    ensures two_way { IfOk result (PassIn is_two_way_part) }
    ensures numbers { (s : Sort) → IfOk result (λ it. how_many (λ (x : Node). is_component s x.spec) (drop 1 it.nodes)
        ≡ sum_of_parts (two_way_part s) net) }
    ensures few { IfOk result (λ it. it.wires < 2 ^ 30) }
{
    let mut whole = net;
    while let Some(next) = layered(alloc, &whole)? {
        whole = next;
    }
    Ok(whole)
}
