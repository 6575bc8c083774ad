ghost use Rattle.std.specs.Prelude.{◌≡◌, ◌⊎◌, ◌↔◌, ℕ, ◌+◌, ◌<◌, ◌^◌, length, map, drop, slice_get, slice_index, IsTrue, IfOk, IfErr, MatchOption};
ghost use Rattle.std.specs.List.{AllByRecursion, range_with_len};
ghost use Rattle.net_core.specs.declared.spec.NodeSpec.{NodeSpec};
ghost use Rattle.net_core.specs.Wiring.{IsWired, IsClosed, moved, replaced};
ghost use Rattle.net_core.specs.Networks.{IsClean, SoundFor, Correct};
ghost use Rattle.substitute.specs.Splice.{spliced, Fitting, renumber, rank, is_inner};
ghost use Rattle.substitute.specs.Refusals.{IsSame, IsAround, IsNone, IsLeast, Refuses};
ghost use Rattle.net_core.specs.Walk.{ends_at};

use crate::parts::{new_parts, wires_of};
use net_core::{Net, network_law, same_spec};
use std::alloc::{AllocError, Global};

/// Why a network does not take the place of a node.
#[derive(Debug, Clone, Copy, PartialEq, Eq)]
pub enum SpliceRefusal {
    /// The node is specified in another way than the network.
    SpecDiffers,
    /// The wire of the network goes from its environment to its environment.
    ThroughWire { wire: u32 },
    /// The wire goes from the node to itself.
    SelfWire { wire: u32 },
    NoMemory,
}

/// The network with the components of `sub` in the place of its node `at`, in their order. A wire at the
/// environment of `sub` is fused with the wire at the same port of `at`, which keeps its number; the other
/// wires of `sub` take the next numbers in their order. A refusal hands the network back unchanged: where
/// the specifications differ, else where a wire of `sub` goes from its environment to its environment, else
/// where a wire of the network goes from `at` to itself; both name the least such wire.
pub fn splice(alloc: Global, net: Net, at: u32, sub: &Net) -> Result<Net, (Net, SpliceRefusal)>
    requires closed_net { IsClosed net }
    requires closed_sub { IsClosed sub.now }
    requires component { 0 < at }
    requires inside { at < length net.nodes }
    requires few { net.wires + sub.now.wires < 2 ^ 31 }
    ensures ok { IfOk result (λ whole. whole ≡ spliced net at sub.now) }
    ensures fitting { IfOk result (λ whole. Fitting net at sub.now) }
    ensures refused { IfErr result (λ refusal. refusal.0 ≡ net) }
    ensures reason { IfErr result (λ refusal. Refuses net at sub.now refusal.1) }
    ensures closed { IfOk result (λ whole. IsClosed whole) }
    ensures clean { IsClean net → IsClean sub.now → IfOk result (λ whole. IsClean whole) }
    ensures sound { (s t : NodeSpec) → SoundFor net s → SoundFor sub.now t
        → IfOk result (λ whole. SoundFor whole s) }
    ensures correct { (s t : NodeSpec) → Correct net s → Correct sub.now t
        → IfOk result (λ whole. Correct whole s) }
    ensures no_wire { IsClean net → IsClean sub.now
        → IfErr result
        (λ refusal. (refusal.1 ≡ SpliceRefusal.SpecDiffers) ⊎ (refusal.1 ≡ SpliceRefusal.NoMemory)) }
{
    put_in_place(alloc, net, at, sub)
}

fn put_in_place(alloc: Global, net: Net, at: u32, sub: &Net) -> Result<Net, (Net, SpliceRefusal)>
    requires closed_net { IsClosed net }
    requires closed_sub { IsClosed sub.now }
    requires component { 0 < at }
    requires inside { at < length net.nodes }
    requires few { net.wires + sub.now.wires < 2 ^ 31 }
    ensures ok { IfOk result (λ whole. whole ≡ spliced net at sub.now) }
    ensures fitting { IfOk result (λ whole. Fitting net at sub.now) }
    ensures refused { IfErr result (λ refusal. refusal.0 ≡ net) }
    ensures reason { IfErr result (λ refusal. Refuses net at sub.now refusal.1) }
{
    if let Some(refusal) = obstacle(&net, at, sub) {
        return Err((net, refusal));
    }
    match new_parts(alloc, wires_of(&net, at), net.wires, sub) {
        Err(_) => Err((net, SpliceRefusal::NoMemory)),
        Ok(parts) => match net.replace(alloc, at, parts.nodes, parts.wires) {
            Err((net, _)) => Err((net, SpliceRefusal::NoMemory)),
            Ok(whole) => Ok(whole),
        },
    }
}

/// What keeps `sub` from taking the place of the node.
fn obstacle(net: &Net, at: u32, sub: &Net) -> Option<SpliceRefusal>
    requires closed_net { IsClosed net.now }
    requires closed_sub { IsClosed sub.now }
    requires component { 0 < at }
    requires inside { at < length net.now.nodes }
    ensures { MatchOption result (Fitting net.now at sub.now) (λ refusal. Refuses net.now at sub.now refusal) }
{
    network_law(net);
    network_law(sub);
    if !is_same(net, at, sub) {
        return Some(SpliceRefusal::SpecDiffers);
    }
    if let Some(wire) = around(sub, 0) {
        return Some(SpliceRefusal::ThroughWire { wire });
    }
    if let Some(wire) = around(net, at) {
        return Some(SpliceRefusal::SelfWire { wire });
    }
    None
}

/// Whether the node is specified as the network's environment is.
pub fn is_same(net: &Net, at: u32, sub: &Net) -> bool
    requires inside { at < length net.now.nodes }
    ensures { IsTrue result ↔ IsSame net.now at sub.now }
{
    same_spec(&net.nodes[at as usize].spec, &sub.nodes[0].spec)
}

/// The least wire that goes from the node to itself.
pub fn around(net: &Net, node: u32) -> Option<u32>
    requires closed { IsClosed net.now }
    ensures { MatchOption result (IsNone (IsAround net.now node) net.now.wires)
        (λ w. IsLeast (IsAround net.now node) net.now.wires w) }
{
    for wire in 0..net.wires {
        if is_around(net, node, wire) {
            return Some(wire);
        }
    }
    None
}

/// Whether a wire goes from the node to itself. The time is linear in the node's ports.
pub fn has_around(net: &Net, node: u32) -> bool
    requires closed { IsClosed net.now }
    requires inside { node < length net.now.nodes }
    ensures { IsTrue result ↔ ((w : ℕ) × (w < net.now.wires) × IsAround net.now node w) }
{
    network_law(net);
    let wires = wires_of(net, node);
    for wire in wires {
        if is_around(net, node, *wire) {
            return true;
        }
    }
    false
}

/// Whether the wire goes from the node to itself.
fn is_around(net: &Net, node: u32, wire: u32) -> bool
    requires closed { IsClosed net.now }
    requires known { wire < net.now.wires }
    ensures { IsTrue result ↔ IsAround net.now node wire }
{
    net.driver(wire).0 == node && net.receiver(wire).0 == node
}
