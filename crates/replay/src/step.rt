//! What an event does in the network: which node takes part by which port, and what becomes of which wire.
ghost use Rattle.std.specs.Prelude.{◌≡◌, not, map, Some};
ghost use Rattle.net_core.specs.Wiring.{IsClosed};
ghost use Rattle.net_core.specs.Specs.{IsFormed};
ghost use Rattle.net_core.specs.Networks.{directions, end_at, end_of};
ghost use Rattle.replay.specs.declared.event.Event.{Event};
ghost use Rattle.replay.specs.Answers.{output_at, output_of};
ghost use Rattle.replay.specs.Mirror.Steps.{step_for, verdict, refused, unwanted, sight_in};

use crate::event::{Answer, Event, Seen};
use basic_kinds::ports;
use cmd_tree::Sym;
use net_core::{Net, Node, NodeSpec};

/// The node takes part by its port. With it the wire becomes busy, or free.
#[derive(Clone, Copy)]
pub struct Step {
    pub node: u32,
    pub port: u32,
    pub wire: u32,
    pub fills: bool,
}

impl Step {
    /// The answer to the event, by whether the node may take part and whether the wire is busy.
    pub fn answer(&self, can: bool, busy: bool) -> Answer
        ensures { result ≡ verdict self.now can busy }
    {
        match (self.fills, busy, can) {
            (true, _, false) => self.refused(),
            (true, true, true) => Answer::Clash { wire: self.wire },
            (false, false, _) => Answer::EmptyWire { wire: self.wire },
            (false, true, false) => self.unwanted(),
            (true, false, true) | (false, true, true) => Answer::Done,
        }
    }

    fn refused(&self) -> Answer
        ensures { result ≡ refused self.now }
    {
        if self.node == 0 {
            Answer::NotAllowed {
                sym: Sym(self.port),
            }
        } else {
            Answer::CannotFire {
                component: self.node,
            }
        }
    }

    fn unwanted(&self) -> Answer
        ensures { result ≡ unwanted self.now }
    {
        if self.node == 0 {
            Answer::WrongOutput {
                sym: Sym(self.port),
            }
        } else {
            Answer::Forbidden {
                component: self.node,
                port: self.port,
            }
        }
    }

    /// What is seen of the event.
    pub fn sight(&self) -> Seen
        ensures { result ≡ sight_in self.now }
    {
        let wire = self.wire;
        if !self.fills {
            Seen::Passed { wire }
        } else if self.node == 0 {
            Seen::Gave {
                sym: Sym(self.port),
                wire,
            }
        } else {
            Seen::Fired {
                component: self.node,
                wire,
            }
        }
    }
}

/// The step that the event does, if the network has such an event. `outs` says which symbols of the environment's
/// specification are outputs.
pub fn step_of(net: &Net, outs: &[bool], event: Event) -> Option<Step>
    requires closed { IsClosed net.now }
    requires directed { directions net.now 0 ≡ map not outs.now }
    ensures { result ≡ step_for net.now event }
{
    match event {
        Event::Give(symbol) => give_step(net, outs, symbol),
        Event::Pass(wire) => pass_step(net, wire),
        Event::Fire(component, output) => fire_step(net, component, output),
        Event::Unknown => None,
    }
}

fn give_step(net: &Net, outs: &[bool], symbol: Sym) -> Option<Step>
    requires { directions net.now 0 ≡ map not outs.now }
    ensures { result ≡ step_for net.now (Event.Give symbol) }
{
    let port = symbol.0;
    if port as usize >= outs.len() || outs[port as usize] {
        return None;
    }
    Some(Step {
        node: 0,
        port,
        wire: wire_at(net, 0, port),
        fills: true,
    })
}

fn pass_step(net: &Net, wire: u32) -> Option<Step>
    requires { IsClosed net.now }
    ensures { result ≡ step_for net.now (Event.Pass wire) }
{
    if wire >= net.wires {
        return None;
    }
    let (node, port) = net.receiver(wire);
    Some(Step {
        node,
        port,
        wire,
        fills: false,
    })
}

fn fire_step(net: &Net, component: u32, output: u32) -> Option<Step>
    ensures { result ≡ step_for net.now (Event.Fire component output) }
{
    let port = output_port(net, component, output)?;
    Some(Step {
        node: component,
        port,
        wire: wire_at(net, component, port),
        fills: true,
    })
}

// The port of an output of a component.
fn output_port(net: &Net, component: u32, output: u32) -> Option<u32>
    ensures { result ≡ output_at net.now component output }
{
    if component == 0 {
        return None;
    }
    let index = component as usize;
    if index < net.nodes.len() {
        output_of(&net.nodes[index].spec, output)
    } else {
        None
    }
}

fn output_of(spec: &NodeSpec, output: u32) -> Option<u32>
    requires { IsFormed spec.now }
    ensures { result ≡ output_of spec.now output }
{
    let NodeSpec::Kind(kind) = spec else {
        return None;
    };
    let (inputs, outputs) = ports(kind);
    if 0 < output && output <= outputs {
        Some(inputs + output - 1)
    } else {
        None
    }
}

fn wire_at(net: &Net, node: u32, port: u32) -> u32
    ensures { result ≡ end_at net.now node port }
{
    let index = node as usize;
    if index < net.nodes.len() {
        end_of(&net.nodes[index], port)
    } else {
        0
    }
}

fn end_of(node: &Node, port: u32) -> u32
    ensures { result ≡ end_of (Some node.now) port }
{
    let index = port as usize;
    if index < node.wires.len() {
        node.wires[index]
    } else {
        0
    }
}
