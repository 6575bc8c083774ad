//! Machines: each keeps what of a trace of its kind decides which port may come next.
ghost use Rattle.std.specs.Prelude.{◌≡◌, ◌↔◌, ℕ, IsTrue, false, List, [], ◌∷◌, ◌++◌, IfOk};
ghost use Rattle.cmd_tree.proofs.Phases.{Grew};
ghost use Rattle.basic_kinds.specs.Kinds.{IsWellFormed};
ghost use Rattle.basic_kinds.specs.KindTraces.{KindTrace};
ghost use Rattle.basic_kinds.specs.KindCounts.{KindAt};
ghost use Rattle.basic_kinds.specs.Mirror.Machines.{kind_of, MachineCounts, Stands};

use crate::kind::Kind;
use crate::machine_rounds::{ForkMachine, JoinMachine};
use crate::machine_seq::SeqMachine;
use crate::machine_turns::{MergeMachine, OnceMachine, ToggleMachine, WireMachine};
use crate::machine_wait::WaitMachine;
use std::alloc::{AllocError, Global};

/// A component that runs: it stands for a trace of its kind, and keeps bits and small numbers in place of
/// the trace. Its ports are counted from 0, inputs first.
#[derive(Drop)]
pub enum Machine {
    Wire(WireMachine),
    Iwire(WireMachine),
    Source(OnceMachine),
    Sink(OnceMachine),
    Fork(ForkMachine),
    C(JoinMachine),
    Merge(MergeMachine),
    Toggle(ToggleMachine),
    Dw(WaitMachine),
    Seq(SeqMachine),
}

impl Machine {
    /// A machine of this kind that stands for the empty trace.
    pub fn new(alloc: Global, kind: &Kind) -> Result<Machine, AllocError>
        requires { IsWellFormed kind.now }
        ensures stands { IfOk result (λ machine. Stands machine []) }
        ensures kind { IfOk result (λ machine. kind_of machine ≡ kind.now) }
    {
        Ok(match kind {
            Kind::Wire => Machine::Wire(WireMachine::new(false)),
            Kind::Iwire => Machine::Iwire(WireMachine::new(true)),
            Kind::Source => Machine::Source(OnceMachine::new()),
            Kind::Sink => Machine::Sink(OnceMachine::new()),
            Kind::Fork(width) => Machine::Fork(ForkMachine::new(alloc, *width)?),
            Kind::C(width) => Machine::C(JoinMachine::new(alloc, *width)?),
            Kind::Merge(width) => Machine::Merge(MergeMachine::new(*width)),
            Kind::Toggle => Machine::Toggle(ToggleMachine::new()),
            Kind::Dw(shape) => Machine::Dw(WaitMachine::new(alloc, shape)?),
            Kind::Seq(requests) => Machine::Seq(SeqMachine::new(alloc, *requests)?),
        })
    }

    /// Whether the trace so far, followed by the port, is a trace of the kind. A port out of range gives
    /// false. Takes constant time, but for a DW the search of a crossing by halves.
    pub fn can(&self, port: u32) -> bool
        ensures { (t : List ℕ) → Stands self.now t
            → (IsTrue result ↔ KindTrace (kind_of self.now) (t ++ port ∷ [])) }
    {
        self.may(port)
    }

    /// Answers as `can` does. Where that is true the trace grows by the port, and else nothing changes.
    pub fn step(&mut self, port: u32) -> bool
        ensures answer { (t : List ℕ) → Stands self.old t
            → (IsTrue result ↔ KindTrace (kind_of self.old) (t ++ port ∷ [])) }
        ensures taken { (t : List ℕ) → Stands self.old t → IsTrue result → Stands self.new (t ++ port ∷ []) }
        ensures still { result ≡ false → self.new ≡ self.old }
        ensures kept { kind_of self.new ≡ kind_of self.old }
    {
        self.advance(port)
    }

    // Whether the port may come by how often each has come.
    fn may(&self, port: u32) -> bool
        ensures { (c : ℕ → ℕ) → MachineCounts self.now c → (IsTrue result ↔ KindAt (kind_of self.now) c port) }
    {
        match self {
            Machine::Wire(machine) => machine.can(port),
            Machine::Iwire(machine) => machine.can(port),
            Machine::Source(machine) => machine.can(port),
            Machine::Sink(machine) => machine.can(port),
            Machine::Fork(machine) => machine.can(port),
            Machine::C(machine) => machine.can(port),
            Machine::Merge(machine) => machine.can(port),
            Machine::Toggle(machine) => machine.can(port),
            Machine::Dw(machine) => machine.can(port),
            Machine::Seq(machine) => machine.can(port),
        }
    }

    // Takes the step where the port may come, and else changes nothing.
    fn advance(&mut self, port: u32) -> bool
        ensures answer { (c : ℕ → ℕ) → MachineCounts self.old c → (IsTrue result ↔ KindAt (kind_of self.old) c port) }
        ensures taken { (c d : ℕ → ℕ) → MachineCounts self.old c → IsTrue result → Grew c port d
            → MachineCounts self.new d }
        ensures still { result ≡ false → self.new ≡ self.old }
        ensures kept { kind_of self.new ≡ kind_of self.old }
    {
        match self {
            Machine::Wire(machine) => machine.step(port),
            Machine::Iwire(machine) => machine.step(port),
            Machine::Source(machine) => machine.step(port),
            Machine::Sink(machine) => machine.step(port),
            Machine::Fork(machine) => machine.step(port),
            Machine::C(machine) => machine.step(port),
            Machine::Merge(machine) => machine.step(port),
            Machine::Toggle(machine) => machine.step(port),
            Machine::Dw(machine) => machine.step(port),
            Machine::Seq(machine) => machine.step(port),
        }
    }
}
