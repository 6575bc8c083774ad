ghost use Rattle.std.specs.Prelude.{◌≡◌, ◌+◌, ◌-◌, ◌*◌, ◌<◌, ◌≤◌, ◌^◌, IfOk};
ghost use Rattle.std.specs.Option.{IfSome};
ghost use Rattle.basic_kinds.specs.declared.kind.Kind.TheVariants.{Seq};
ghost use Rattle.basic_kinds.specs.Kinds.{IsWellFormed, inputs_of, outputs_of};
ghost use Rattle.basic_kinds.specs.ShapeParts.{half};
ghost use Rattle.two_way.specs.Layers.{IsSplitOf};
ghost use Rattle.seq_tree.specs.SequencerLayer.{IsSequencer, IsSequencerLayer, sequencer_circuit, sequencer_layer};
ghost use Rattle.seq_tree.specs.Mirror.GroupNodes.{IsLow, group_of, outer_nodes};

use crate::groups::{Group, component};
use basic_kinds::Kind;
use net_core::{Net, Node};
use net_laws::numbers;
use std::alloc::{AllocError, Global};

/// The first half of the requests, and the rest.
fn groups(requests: u32) -> (Group, Group)
    requires few { 2 * requests + 1 < 2 ^ 28 }
    ensures first { result.0 ≡ group_of (half requests) (requests - half requests) 0 }
    ensures rest { result.1 ≡ group_of (half requests) (requests - half requests) 1 }
{
    let rest = requests / 2;
    let half = requests - rest;
    let first = Group {
        request: 0,
        grant: requests + 1,
        size: half,
        base: 2 * requests + 1,
    };
    let last = Group {
        request: half,
        grant: requests + 1 + half,
        size: rest,
        base: 2 * requests + 1 + 5 * half + 4,
    };
    (first, last)
}

/// The environment, and the outer SEQ.
fn outer_nodes(
    alloc: Global,
    requests: u32,
    first: Group,
    rest: Group,
) -> Result<Vec<Node>, AllocError>
    requires few { 2 * requests + 1 < 2 ^ 28 }
    requires first { IsLow first }
    requires rest { IsLow rest }
    ensures { IfOk result (λ it. it.items ≡ outer_nodes requests first rest) }
{
    let outside = numbers(alloc, 0, 2 * requests + 1)?;
    let ends = vec![in alloc;
        first.call(),
        rest.call(),
        requests,
        first.give(),
        rest.give(),
    ]?;
    Ok(vec![in alloc;
        component(Kind::Seq(requests), outside),
        component(Kind::Seq(2), ends),
    ]?)
}

/// One layer of a SEQ of more than two requests.
fn layer(alloc: Global, requests: u32) -> Result<Net, AllocError>
    requires wide { 2 < requests }
    requires formed { IsWellFormed (Seq requests) }
    ensures { IfOk result (λ net. net ≡ sequencer_circuit requests) }
{
    let (first, rest) = groups(requests);
    let mut nodes = outer_nodes(alloc, requests, first, rest)?;
    nodes.append(&mut first.nodes(alloc)?)?;
    nodes.append(&mut rest.nodes(alloc)?)?;
    Net::of_nodes(alloc, nodes, rest.end())
}

fn split_requests(alloc: Global, requests: u32) -> Result<Option<Net>, AllocError>
    requires { IsWellFormed (Seq requests) }
    ensures { IfOk result (λ net. net ≡ sequencer_layer (Seq requests)) }
{
    if requests < 3 {
        return Ok(None);
    }
    let net = layer(alloc, requests)?;
    Ok(Some(net))
}

fn layer_of(alloc: Global, kind: &Kind) -> Result<Option<Net>, AllocError>
    requires sequencer { IsSequencer kind.now }
    requires formed { IsWellFormed kind.now }
    ensures { IfOk result (IsSequencerLayer kind.now) }
{
    match kind {
        Kind::Seq(requests) => split_requests(alloc, *requests),
        Kind::Wire
        | Kind::Iwire
        | Kind::Source
        | Kind::Sink
        | Kind::Fork(_)
        | Kind::C(_)
        | Kind::Merge(_)
        | Kind::Toggle
        | Kind::Dw(_) => Ok(None),
    }
}

/// One layer of the split of a SEQ, or None where it is two-way.
pub fn split(alloc: Global, kind: &Kind) -> Result<Option<Net>, AllocError>
    requires sequencer { IsSequencer kind.now }
    requires formed { IsWellFormed kind.now }
    ensures split { IfOk result (IsSplitOf kind.now) }
    ensures net { IfOk result (IsSequencerLayer kind.now) }
    ensures few { IfOk result (λ net. IfSome net (λ it. it.wires ≤ 4 * (inputs_of kind.now + outputs_of kind.now) + 1)) }
{
    layer_of(alloc, kind)
}
