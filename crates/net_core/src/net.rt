ghost use Rattle.std.specs.Prelude.{◌≡◌, ◌≢◌, ℕ, ◌+◌, ◌<◌, ◌≤◌, ◌^◌, true, false, not, [], ◌∷◌, ◌++◌, length, IfOk, IfErr, OnOk, OnErr, MatchOption, suc, take, drop};
ghost use Rattle.std.specs.List.{AllByRecursion};
ghost use Rattle.net_core.specs.Wiring.{Node, Circuit, Draft, IsWired, IsOnce, IsClosed, finished, replaced, count, driven, received};
ghost use Rattle.net_core.specs.Networks.{gives, takes, IsEnd};
ghost use Rattle.net_core.specs.Specs.{IsFormed};
ghost use Rattle.net_core.specs.Mirror.EndTables.{Kept};

use crate::spec::{NodeSpec, directions};
use crate::table::{Ends, NO_ENDS, ends_of, ends_with, note_ports};
use std::alloc::{AllocError, Global};
use std::marker::Model;

/// A node of a network, with the wire at each of its ports.
#[derive(Drop)]
pub struct Node {
    pub spec: NodeSpec,
    pub wires: Vec<u32>,
}

impl Model for Node {
    ghost use Rattle.std.specs.Coded.{codes};
    ghost use Rattle.net_core.specs.contracts.spec.NodeSpec as node_spec;
    ghost use Rattle.net_core.specs.Wiring.{Node};

    ghost Value = { Node };

    ghost coded = { Prim.hlevel (codes, node_spec.the_row.coded) };

    ghost view = { λ x. record { spec = x.spec; ends = x.wires.items } };
}

/// A wire that has not one driver and one receiver.
#[derive(Debug, Clone, Copy, PartialEq, Eq)]
pub struct OpenPort {
    pub wire: u32,
}

/// A network. Node 0 is the environment: it has its specification's ports with directions exchanged.
/// Each node has one wire per port, below `wires`, and its kind is well formed.
#[derive(Drop)]
pub struct Net {
    pub nodes: Vec<Node>,
    pub wires: u32,
    ends: Vec<Ends>,
}

impl Model for Net {
    ghost use Rattle.std.specs.Coded.{codes};
    ghost use Rattle.net_core.specs.contracts.spec.NodeSpec as node_spec;
    ghost use Rattle.net_core.specs.Wiring.{Circuit};

    ghost Value = { Circuit };

    ghost coded = { Prim.hlevel (codes, node_spec.the_row.coded) };

    ghost view = { λ a. record { nodes = a.nodes.items; wires = a.wires } };

    ghost use Rattle.net_core.specs.Mirror.EndTables.{Kept};

    ghost invariant = { λ a. Kept a.nodes.items a.wires a.ends.items };
}

/// A network in the making: the environment's specification, and components and wires so far.
#[derive(Drop)]
pub struct NetBuilder {
    spec: NodeSpec,
    parts: Vec<Node>,
    wires: u32,
    ends: Vec<Ends>,
    alloc: Global,
}

impl Model for NetBuilder {
    ghost use Rattle.std.specs.Coded.{codes};
    ghost use Rattle.net_core.specs.contracts.spec.NodeSpec as node_spec;
    ghost use Rattle.net_core.specs.Wiring.{Draft};

    ghost Value = { Draft };

    ghost coded = { Prim.hlevel (codes, node_spec.the_row.coded) };

    ghost view = { λ a. record { spec = a.spec; parts = a.parts.items; wires = a.wires } };

    ghost use Rattle.net_core.specs.Mirror.EndTables.{KeptDraft};

    ghost invariant = { λ a. KeptDraft a.spec a.parts.items a.wires a.ends.items };
}

impl NetBuilder {
    /// Begins a network whose environment has this specification.
    pub fn new(alloc: Global, spec: NodeSpec) -> Result<NetBuilder, AllocError>
        requires { IsFormed spec }
        ensures { IfOk result (λ builder. builder ≡ record { spec = spec; parts = []; wires = 0 }) }
    {
        Ok(NetBuilder {
            spec,
            parts: Vec::new(alloc),
            wires: 0,
            ends: Vec::new(alloc),
            alloc,
        })
    }

    /// The next wire's number. After an error the builder is as before.
    pub fn wire(&mut self) -> Result<u32, AllocError>
        requires { self.old.wires + 1 < 2 ^ 32 }
        ensures ok { IfOk result (λ w. (w ≡ self.old.wires) × (self.new ≡ record self.old { wires = self.old.wires + 1 })) }
        ensures refused { OnErr result (self.new ≡ self.old) }
    {
        self.wires(1)
    }

    /// So many wires: the number of the first. The others have the numbers after it. After an error the
    /// builder is as before.
    pub fn wires(&mut self, many: u32) -> Result<u32, AllocError>
        requires { self.old.wires + many < 2 ^ 32 }
        ensures ok { IfOk result (λ first. (first ≡ self.old.wires) × (self.new ≡ record self.old { wires = self.old.wires + many })) }
        ensures refused { OnErr result (self.new ≡ self.old) }
    {
        self.ends.resize(self.ends.len() + many as usize, NO_ENDS)?;
        let first = self.wires;
        self.wires += many;
        Ok(first)
    }

    /// Adds a component with these wires at its ports, and gives its number.
    /// After an error the builder is as before.
    pub fn node(&mut self, spec: NodeSpec, wires: Vec<u32>) -> Result<u32, AllocError>
        requires fit { IsWired self.old.wires (record { spec = spec; ends = wires.items }) }
        requires few { length self.old.parts + 2 < 2 ^ 32 }
        ensures ok { IfOk result (λ n. (n ≡ length self.old.parts + 1)
            × (self.new ≡ record self.old { parts = self.old.parts ++ record { spec = spec; ends = wires.items } ∷ [] })) }
        ensures refused { OnErr result (self.new ≡ self.old) }
    {
        let outs = directions(self.alloc, &spec)?;
        self.parts.push(Node { spec, wires })?;
        let number = self.parts.len() as u32;
        let node = &self.parts[self.parts.len() - 1];
        note_ports(&mut self.ends, &outs, &node.wires, number);
        Ok(number)
    }

    /// The network whose environment has these wires at its ports.
    pub fn finish(self, wires: Vec<u32>) -> Result<Net, AllocError>
        requires { IsWired self.wires (record { spec = self.spec; ends = wires.items }) }
        ensures { IfOk result (λ net. net ≡ finished self wires.items) }
    {
        let NetBuilder {
            spec,
            parts,
            wires: count,
            mut ends,
            alloc,
        } = self;
        let outs = directions(alloc, &spec)?;
        note_ports(&mut ends, &outs, &wires, 0);
        let mut nodes = parts;
        nodes.insert(0, Node { spec, wires })?;
        Ok(Net {
            nodes,
            wires: count,
            ends,
        })
    }
}

/// Puts the other list in the place of one item. After an error the list is as before.
fn put_in_place(nodes: &mut Vec<Node>, at: usize, parts: &mut Vec<Node>) -> Result<(), AllocError>
    requires { at < length nodes.old.items }
    ensures ok { OnOk result (nodes.new.items ≡ take at nodes.old.items ++ (parts.old.items ++ drop (suc at) nodes.old.items)) }
    ensures refused { OnErr result (nodes.new.items ≡ nodes.old.items) }
{
    let many = parts.len();
    nodes.append(parts)?;
    nodes.remove(at);
    nodes[at..].rotate_right(many);
    Ok(())
}

impl Net {
    /// The network with these nodes in the place of a component, and with so many wires, where each wire
    /// then has its two ends. After an error the network is as before.
    pub fn replace(
        self,
        alloc: Global,
        at: u32,
        parts: Vec<Node>,
        wires: u32,
    ) -> Result<Net, (Net, AllocError)>
        requires component { 0 < at }
        requires inside { at < length self.nodes }
        requires few { length (replaced self at parts.items wires).nodes < 2 ^ 32 }
        requires fit { AllByRecursion (IsWired wires) (replaced self at parts.items wires).nodes }
        requires closed { IsClosed (replaced self at parts.items wires) }
        ensures ok { IfOk result (λ net. net ≡ replaced self at parts.items wires) }
        ensures refused { IfErr result (λ error. error.0 ≡ self) }
    {
        match ends_with(alloc, &self.nodes, at, &parts, wires) {
            Err(error) => Err((self, error)),
            Ok(ends) => self.replace_with(at, parts, wires, ends),
        }
    }

    fn replace_with(
        self,
        at: u32,
        mut parts: Vec<Node>,
        wires: u32,
        ends: Vec<Ends>,
    ) -> Result<Net, (Net, AllocError)>
        requires component { 0 < at }
        requires inside { at < length self.nodes }
        requires kept { Kept (replaced self at parts.items wires).nodes wires ends.items }
        ensures ok { IfOk result (λ net. net ≡ replaced self at parts.items wires) }
        ensures refused { IfErr result (λ error. error.0 ≡ self) }
    {
        let Net {
            mut nodes,
            wires: old_wires,
            ends: old_ends,
        } = self;
        if let Err(error) = put_in_place(&mut nodes, at as usize, &mut parts) {
            let net = Net {
                nodes,
                wires: old_wires,
                ends: old_ends,
            };
            return Err((net, error));
        }
        Ok(Net { nodes, wires, ends })
    }

    /// The network of these nodes, with so many wires, where each wire has its two ends.
    pub fn of_nodes(alloc: Global, nodes: Vec<Node>, wires: u32) -> Result<Net, AllocError>
        requires some { 0 < length nodes.items }
        requires few { length nodes.items < 2 ^ 32 }
        requires wired { AllByRecursion (IsWired wires) nodes.items }
        requires closed { IsClosed (record { nodes = nodes.items; wires = wires }) }
        ensures { IfOk result (λ net. net ≡ record { nodes = nodes.items; wires = wires }) }
    {
        let ends = ends_of(alloc, &nodes, wires)?;
        Ok(Net { nodes, wires, ends })
    }

    /// The node that drives the wire, and its port at the wire, counted from 0 in the order of the node's wires: an
    /// output, and of the environment an input of its specification. For a wire with no driver, or with several, the
    /// answer is (0, 0). It takes no memory, and the same time for each wire.
    pub fn driver(&self, wire: u32) -> (u32, u32)
        requires { wire < self.now.wires }
        ensures one { count wire (driven self.now) ≡ 1 → IsEnd (gives self.now) self.now wire result.0 result.1 }
        ensures open { count wire (driven self.now) ≢ 1 → (result.0 ≡ 0) × (result.1 ≡ 0) }
    {
        self.ends[wire as usize].driver.numbers()
    }

    /// The node that receives from the wire, and its port at the wire: an input, and of the environment an output of
    /// its specification. For a wire with no receiver, or with several, the answer is (0, 0). It takes no memory, and
    /// the same time for each wire.
    pub fn receiver(&self, wire: u32) -> (u32, u32)
        requires { wire < self.now.wires }
        ensures one { count wire (received self.now) ≡ 1 → IsEnd (takes self.now) self.now wire result.0 result.1 }
        ensures open { count wire (received self.now) ≢ 1 → (result.0 ≡ 0) × (result.1 ≡ 0) }
    {
        self.ends[wire as usize].receiver.numbers()
    }
}

/// The least wire that has not one driver and one receiver, or None where each wire has.
/// It takes no memory and one pass over the wires.
pub fn closed(net: &Net) -> Option<OpenPort>
    ensures { MatchOption result (IsClosed net.now) (λ x. (x.wire < net.now.wires) × (IsOnce net.now x.wire → ⊥)
        × ((w : ℕ) → w < x.wire → IsOnce net.now w)) }
{
    for wire in 0..net.wires {
        let end = net.ends[wire as usize];
        if !end.driver.is_one() || !end.receiver.is_one() {
            return Some(OpenPort { wire });
        }
    }
    None
}
