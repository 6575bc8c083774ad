ghost use Rattle.std.specs.Prelude.{◌≡◌, ◌≢◌, ℕ, ◌+◌, ◌<◌, ◌≤◌, ◌^◌, true, false, [], ◌∷◌, ◌++◌, length, slice_get, slice_index, slice_index_or, Some, IfOk, OnOk};
ghost use Rattle.std.specs.List.{AllByRecursion};
ghost use Rattle.net_core.specs.Wiring.{IsClosed, picked};
ghost use Rattle.cmd_tree.specs.Lists.{is_in};
ghost use Rattle.net_core.specs.Walk as defined;
ghost use Rattle.net_core.specs.Mirror.Walking.{Leads, IsVisited, AreSourcesListed};
ghost use Rattle.net_core.specs.Mirror.WalkStates.{walk_in, IsSized, Walks};

use crate::listing::Listing;
use crate::net::{Net, Node};
use crate::spec::{NodeSpec, directions};
use basic_kinds::Kind;
use std::alloc::{AllocError, Global};

/// Whether the node is a SOURCE.
fn is_source(spec: &NodeSpec) -> bool
    ensures { result ≡ defined.is_source spec.now }
{
    matches!(spec, NodeSpec::Kind(Kind::Source))
}

/// The wires at the node's output ports, in order.
fn output_wires(alloc: Global, net: &Net, node: u32) -> Result<Vec<u32>, AllocError>
    requires { node < length net.now.nodes }
    ensures wires { IfOk result (λ wires. wires.items ≡ defined.output_wires (slice_get net.now.nodes node)) }
    ensures known { IfOk result (λ wires. AllByRecursion (λ w. w < net.now.wires) wires.items) }
{
    let outs = directions(alloc, &net.nodes[node as usize].spec)?;
    picked_wires(alloc, &outs, &net.nodes[node as usize].wires)
}

/// The wires of the ports that are outputs.
fn picked_wires(alloc: Global, outs: &[bool], wires: &[u32]) -> Result<Vec<u32>, AllocError>
    requires { length wires.now ≡ length outs.now }
    ensures { IfOk result (λ picks. picks.items ≡ picked true outs.now wires.now) }
{
    let mut picks = Vec::new(alloc);
    for (port, wire) in wires.iter().enumerate() {
        if outs[port] {
            picks.push(*wire)?;
        }
    }
    Ok(picks)
}

/// A walk so far: the nodes that are listed, the wires that have numbers, and how many of those are visited.
#[derive(Drop)]
pub struct WalkState {
    pub listed: Listing,
    pub numbered: Listing,
    visited: usize,
}

impl WalkState {
    /// The environment is listed, and its wires have the first numbers.
    fn new(alloc: Global, net: &Net) -> Result<WalkState, AllocError>
        ensures sized { IfOk result (λ walk. IsSized net.now walk) }
        ensures outset { IfOk result (λ walk. walk_in walk ≡ defined.outset net.now) }
    {
        let mut listed = Listing::new(alloc, net.nodes.len())?;
        listed.add(0)?;
        let mut numbered = Listing::new(alloc, net.wires as usize)?;
        numbered.add_all(&net.nodes[0].wires)?;
        Ok(WalkState {
            listed,
            numbered,
            visited: 0,
        })
    }

    /// Lists the node, unless it is listed already, and numbers its output wires.
    fn list_node(&mut self, alloc: Global, net: &Net, node: u32) -> Result<(), AllocError>
        requires sized { IsSized net.now self.old }
        requires inside { node < length net.now.nodes }
        ensures sized { OnOk result (IsSized net.now self.new) }
        ensures listed { OnOk result (walk_in self.new ≡ defined.list_node net.now node (walk_in self.old)) }
    {
        if !self.listed.has(node) {
            let wires = output_wires(alloc, net, node)?;
            self.listed.add(node)?;
            self.numbered.add_all(&wires)?;
        }
        Ok(())
    }

    /// Visits the next wire: its receiver is listed.
    fn visit_next(&mut self, alloc: Global, net: &Net) -> Result<(), AllocError>
        requires closed { IsClosed net.now }
        requires walks { Walks net.now self.old }
        requires left { self.old.visited < length self.old.numbered.numbers }
        ensures walks { OnOk result (Walks net.now self.new) }
        ensures step { OnOk result (defined.walk_step net.now (walk_in self.old) ≡ Some (walk_in self.new)) }
        ensures visited { OnOk result (self.new.visited ≡ self.old.visited + 1) }
        ensures few { OnOk result (self.old.visited < net.now.wires) }
    {
        // What a network keeps is known from a use of one of its fields on.
        let _ = &net.nodes;
        let wire = self.numbered.numbers()[self.visited];
        self.visited += 1;
        self.list_node(alloc, net, net.receiver(wire).0)
    }

    /// Visits wires until each that has a number is visited.
    fn visit_all(&mut self, alloc: Global, net: &Net) -> Result<(), AllocError>
        requires closed { IsClosed net.now }
        requires walks { Walks net.now self.old }
        ensures walks { OnOk result (Walks net.now self.new) }
        ensures leads { OnOk result (Leads net.now (walk_in self.old) (walk_in self.new)) }
        ensures visited { OnOk result (IsVisited (walk_in self.new)) }
    {
        while self.visited < self.numbered.numbers().len() {
            self.visit_next(alloc, net)?;
        }
        Ok(())
    }

    /// Lists the node that is next where no wire is left to visit, unless it is listed already, and goes on
    /// until again no wire is left.
    fn go_on_at(&mut self, alloc: Global, net: &Net, node: u32) -> Result<(), AllocError>
        requires closed { IsClosed net.now }
        requires walks { Walks net.now self.old }
        requires visited { IsVisited (walk_in self.old) }
        requires inside { node < length net.now.nodes }
        requires next { is_in node self.old.listed.numbers ≡ false → defined.next_left net.now self.old.listed.numbers ≡ Some node }
        ensures walks { OnOk result (Walks net.now self.new) }
        ensures leads { OnOk result (Leads net.now (walk_in self.old) (walk_in self.new)) }
        ensures visited { OnOk result (IsVisited (walk_in self.new)) }
        ensures listed { OnOk result (is_in node self.new.listed.numbers ≡ true) }
    {
        self.list_node(alloc, net, node)?;
        self.visit_all(alloc, net)
    }

    /// Goes on at each SOURCE that is left.
    fn go_on_at_sources(&mut self, alloc: Global, net: &Net) -> Result<(), AllocError>
        requires closed { IsClosed net.now }
        requires walks { Walks net.now self.old }
        requires visited { IsVisited (walk_in self.old) }
        ensures walks { OnOk result (Walks net.now self.new) }
        ensures visited { OnOk result (IsVisited (walk_in self.new)) }
        ensures sources { OnOk result (AreSourcesListed net.now (walk_in self.new)) }
    {
        for (number, node) in net.nodes.iter().enumerate() {
            if is_source(&node.spec) {
                self.go_on_at(alloc, net, number as u32)?;
            }
        }
        Ok(())
    }

    /// Goes on at each node that is left, to the end of the walk.
    fn go_on_at_all(&mut self, alloc: Global, net: &Net) -> Result<(), AllocError>
        requires closed { IsClosed net.now }
        requires walks { Walks net.now self.old }
        requires visited { IsVisited (walk_in self.old) }
        requires sources { AreSourcesListed net.now (walk_in self.old) }
        ensures { OnOk result (walk_in self.new ≡ defined.walk_of net.now) }
    {
        for number in 0..net.nodes.len() {
            self.go_on_at(alloc, net, number as u32)?;
        }
        Ok(())
    }

    /// The whole walk through a closed network, in one pass over its nodes and wires.
    pub fn through(alloc: Global, net: &Net) -> Result<WalkState, AllocError>
        requires { IsClosed net.now }
        ensures { IfOk result (λ walk. walk_in walk ≡ defined.walk_of net.now) }
    {
        let mut walk = WalkState::new(alloc, net)?;
        walk.visit_all(alloc, net)?;
        walk.go_on_at_sources(alloc, net)?;
        walk.go_on_at_all(alloc, net)?;
        Ok(walk)
    }
}
