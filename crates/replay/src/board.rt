//! What stands for the state of a network.
ghost use Rattle.std.specs.Prelude.{◌≡◌, ◌≢◌, ◌↔◌, ℕ, suc, ◌<◌, false, IsTrue, List, [], ◌∷◌, ◌++◌, length, replicate, slice_get, slice_index_or, Some, IfOk};
ghost use Rattle.basic_kinds.specs.declared.machine.Machine.{Machine};
ghost use Rattle.basic_kinds.specs.KindTraces.{KindTrace};
ghost use Rattle.basic_kinds.specs.Mirror.Machines.{kind_of};
ghost use Rattle.basic_kinds.specs.Mirror.Machines as running;
ghost use Rattle.cmd_tree.specs.declared.command.Command.{Command};
ghost use Rattle.cmd_machine.specs.Mirror.Walkers as walking;
ghost use Rattle.net_core.specs.declared.spec.NodeSpec.TheVariants.{Kind, Cmd};
ghost use Rattle.net_core.specs.Specs.{IsFormed, is_kind};
ghost use Rattle.net_core.specs.Runs.{State, start};
ghost use Rattle.net_core.specs.Wiring.{Circuit};
ghost use Rattle.net_core.specs.Networks.{fabric, IsBasic, IsSpecified};
ghost use Rattle.replay.specs.Answers.{IsPlayable};
ghost use Rattle.replay.specs.Mirror.Steps.{MayTake, moved};
ghost use Rattle.replay.specs.Mirror.Boards.{AreMachines, Stands};

use crate::step::Step;
use basic_kinds::Machine;
use cmd_machine::Walker;
use cmd_tree::Sym;
use net_core::{Net, Node, NodeSpec, directions};
use std::alloc::{AllocError, Global};

/// A machine for each component, a walker for the environment, and a bit for each wire, which says whether it is busy.
#[derive(Drop)]
pub struct Board {
    machines: Vec<Machine>,
    walker: Walker,
    pub outs: Vec<bool>,
    busy: Vec<bool>,
}

impl Board {
    /// The board of a network at the start.
    pub fn new(alloc: Global, net: &Net) -> Result<Board, AllocError>
        requires { IsPlayable net.now }
        ensures { IfOk result (λ board. Stands net.now board start) }
    {
        Ok(Board {
            machines: machines_of(alloc, net)?,
            walker: walker_of(alloc, net)?,
            outs: directions(alloc, &net.nodes[0].spec)?,
            busy: no_bits(alloc, net.wires as usize)?,
        })
    }

    /// Whether the node's trace so far, followed by the port, is one of its traces.
    pub fn can(&self, node: u32, port: u32) -> bool
        ensures { (c : Circuit) (s : State) → Stands c self.now s → node < length c.nodes
            → (IsTrue result ↔ (fabric c).may node (s.trace node ++ port ∷ [])) }
    {
        if node == 0 {
            self.walker.can(Sym(port))
        } else {
            can_at(&self.machines, node as usize - 1, port)
        }
    }

    /// Whether the wire is busy.
    pub fn is_busy(&self, wire: u32) -> bool
        ensures { (c : Circuit) (s : State) → Stands c self.now s → result ≡ s.busy wire }
    {
        let index = wire as usize;
        index < self.busy.len() && self.busy[index]
    }

    /// Takes a step that may be taken.
    pub fn take(&mut self, step: &Step)
        ensures board { (c : Circuit) (s : State) → Stands c self.old s → MayTake c s step.now → step.now.node < length c.nodes
            → step.now.wire < c.wires → Stands c self.new (moved s step.now) }
        ensures outs { self.new.outs ≡ self.old.outs }
    {
        if step.node == 0 {
            let _taken = self.walker.step(Sym(step.port));
        } else {
            step_at(&mut self.machines, step.node as usize - 1, step.port);
        }
        put_bit(&mut self.busy, step.wire as usize, step.fills);
    }
}

fn walker_of(alloc: Global, net: &Net) -> Result<Walker, AllocError>
    requires { IsPlayable net.now }
    ensures { IfOk result (λ walker. (k : Command) → IsSpecified net.now (Cmd k) → walking.Stands k.procs walker []) }
{
    let NodeSpec::Cmd(command) = &net.nodes[0].spec else {
        unreachable!();
    };
    Walker::new(alloc, command)
}

fn machines_of(alloc: Global, net: &Net) -> Result<Vec<Machine>, AllocError>
    requires { IsBasic net.now }
    ensures each { IfOk result (λ machines. AreMachines net.now machines.items (λ _. [])) }
    ensures many { IfOk result (λ machines. length net.now.nodes ≡ suc (length machines.items)) }
{
    let mut machines = Vec::new(alloc);
    for index in 1..net.nodes.len() {
        let machine = machine_of(alloc, &net.nodes[index])?;
        machines.push(machine)?;
    }
    Ok(machines)
}

fn machine_of(alloc: Global, node: &Node) -> Result<Machine, AllocError>
    requires formed { IsFormed node.now.spec }
    requires kind { IsTrue (is_kind node.now.spec) }
    ensures kind { IfOk result (λ machine. node.now.spec ≡ Kind (kind_of machine)) }
    ensures stands { IfOk result (λ machine. running.Stands machine []) }
{
    let NodeSpec::Kind(kind) = &node.spec else {
        unreachable!();
    };
    Machine::new(alloc, kind)
}

fn can_at(machines: &[Machine], index: usize, port: u32) -> bool
    ensures { (m : Machine) (t : List ℕ) → slice_get machines.now index ≡ Some m → running.Stands m t
        → (IsTrue result ↔ KindTrace (kind_of m) (t ++ port ∷ [])) }
{
    index < machines.len() && machines[index].can(port)
}

fn step_at(machines: &mut [Machine], index: usize, port: u32)
    ensures here { (m n : Machine) (t : List ℕ) → slice_get machines.old index ≡ Some m → slice_get machines.new index ≡ Some n
        → running.Stands m t → KindTrace (kind_of m) (t ++ port ∷ []) → running.Stands n (t ++ port ∷ []) }
    ensures kind { (m n : Machine) → slice_get machines.old index ≡ Some m → slice_get machines.new index ≡ Some n
        → kind_of n ≡ kind_of m }
    ensures others { (i : ℕ) → i ≢ index → slice_get machines.new i ≡ slice_get machines.old i }
    ensures length { length machines.new ≡ length machines.old }
{
    if index < machines.len() {
        let _taken = machines[index].step(port);
    }
}

fn no_bits(alloc: Global, count: usize) -> Result<Vec<bool>, AllocError>
    ensures { IfOk result (λ bits. bits.items ≡ replicate count false) }
{
    vec![in alloc; false; count]
}

fn put_bit(bits: &mut Vec<bool>, index: usize, bit: bool)
    ensures here { index < length bits.old.items → slice_index_or bits.new.items index false ≡ bit }
    ensures others { (i : ℕ) → i ≢ index → slice_index_or bits.new.items i false ≡ slice_index_or bits.old.items i false }
    ensures length { length bits.new.items ≡ length bits.old.items }
{
    if index < bits.len() {
        bits[index] = bit;
    }
}
