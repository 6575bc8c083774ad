//! Machines of FORK and C: one port on the one side, and on the other side ports that come in rounds.
ghost use Rattle.std.specs.Prelude.{◌≡◌, ◌↔◌, ℕ, suc, ◌<◌, IsTrue, IfOk, false, true, length};
ghost use Rattle.cmd_tree.proofs.Phases.{Grew};
ghost use Rattle.basic_kinds.specs.declared.kind.Kind.{Kind};
ghost use Rattle.basic_kinds.specs.KindCounts.{KindAt};
ghost use Rattle.basic_kinds.specs.Mirror.Machines.{RoundCounts, ForkCounts, JoinCounts};

use std::alloc::{AllocError, Global};

/// Ports that come once each in every round. One is still to come where its bit differs from `turn`, so
/// nothing is cleared as the next round begins.
#[derive(Drop)]
pub struct Round {
    came: Vec<bool>,
    turn: bool,
    left: usize,
}

impl Round {
    /// Ports of which none has come: all are to come in a round that has begun, or none before it begins.
    pub(crate) fn new(alloc: Global, width: u32, begun: bool) -> Result<Round, AllocError>
        ensures over { IfOk result (λ it. begun ≡ false → RoundCounts it (λ i. 0) 0) }
        ensures begun { IfOk result (λ it. begun ≡ true → RoundCounts it (λ i. 0) 1) }
        ensures width { IfOk result (λ it. length it.came.items ≡ width) }
    {
        let came = vec![in alloc; false; width as usize]?;
        let left = if begun { came.len() } else { 0 };
        Ok(Round {
            came,
            turn: begun,
            left,
        })
    }

    /// How many ports come in a round.
    pub(crate) fn width(&self) -> usize
        ensures { result ≡ length self.now.came.items }
    {
        self.came.len()
    }

    /// Whether all ports have come.
    pub(crate) fn is_over(&self) -> bool
        ensures { (s : ℕ → ℕ) (round : ℕ) → RoundCounts self.now s round
            → (IsTrue result ↔ ((i : ℕ) → i < length self.now.came.items → s i ≡ round)) }
    {
        self.left == 0
    }

    /// Whether the port is still to come.
    pub(crate) fn awaits(&self, place: usize) -> bool
        ensures answer { (s : ℕ → ℕ) (round : ℕ) → RoundCounts self.now s round
            → (IsTrue result ↔ ((place < length self.now.came.items) × (s place < round))) }
        ensures within { IsTrue result → place < length self.now.came.items }
    {
        place < self.came.len() && self.came[place] != self.turn
    }

    /// Begins the next round where this one is over, and else changes nothing.
    pub(crate) fn begin(&mut self) -> bool
        ensures answer { (s : ℕ → ℕ) (round : ℕ) → RoundCounts self.old s round
            → (IsTrue result ↔ ((i : ℕ) → i < length self.old.came.items → s i ≡ round)) }
        ensures taken { (s : ℕ → ℕ) (round : ℕ) → RoundCounts self.old s round → IsTrue result
            → RoundCounts self.new s (suc round) }
        ensures still { result ≡ false → self.new ≡ self.old }
        ensures kept { length self.new.came.items ≡ length self.old.came.items }
    {
        let over = self.is_over();
        if over {
            self.turn = !self.turn;
            self.left = self.came.len();
        }
        over
    }

    /// Takes the port where it is still to come, and else changes nothing.
    pub(crate) fn take(&mut self, place: usize) -> bool
        ensures answer { (s : ℕ → ℕ) (round : ℕ) → RoundCounts self.old s round
            → (IsTrue result ↔ ((place < length self.old.came.items) × (s place < round))) }
        ensures taken { (s z : ℕ → ℕ) (round : ℕ) → RoundCounts self.old s round → IsTrue result → Grew s place z
            → RoundCounts self.new z round }
        ensures still { result ≡ false → self.new ≡ self.old }
        ensures kept { length self.new.came.items ≡ length self.old.came.items }
    {
        let can = self.awaits(place);
        if can {
            self.came[place] = self.turn;
            // Some port was left, since this one was.
            self.left = self.left.saturating_sub(1);
        }
        can
    }
}

/// A FORK: its outputs come in rounds, each of which its input begins.
#[derive(Drop)]
pub struct ForkMachine {
    outputs: Round,
}

impl ForkMachine {
    /// A FORK with so many outputs, before its input.
    pub(crate) fn new(alloc: Global, width: u32) -> Result<ForkMachine, AllocError>
        ensures stands { IfOk result (λ it. ForkCounts it (λ p. 0)) }
        ensures width { IfOk result (λ it. length it.outputs.came.items ≡ width) }
    {
        let outputs = Round::new(alloc, width, false)?;
        Ok(ForkMachine { outputs })
    }

    /// Whether the port may come.
    pub(crate) fn can(&self, port: u32) -> bool
        ensures { (c : ℕ → ℕ) → ForkCounts self.now c
            → (IsTrue result ↔ KindAt (Kind.Fork (length self.now.outputs.came.items)) c port) }
    {
        if port == 0 {
            self.outputs.is_over()
        } else {
            self.outputs.awaits(port as usize - 1)
        }
    }

    /// Takes the step where the port may come, and else changes nothing.
    pub(crate) fn step(&mut self, port: u32) -> bool
        ensures answer { (c : ℕ → ℕ) → ForkCounts self.old c
            → (IsTrue result ↔ KindAt (Kind.Fork (length self.old.outputs.came.items)) c port) }
        ensures taken { (c d : ℕ → ℕ) → ForkCounts self.old c → IsTrue result → Grew c port d
            → ForkCounts self.new d }
        ensures still { result ≡ false → self.new ≡ self.old }
        ensures kept { length self.new.outputs.came.items ≡ length self.old.outputs.came.items }
    {
        if port == 0 {
            self.outputs.begin()
        } else {
            self.outputs.take(port as usize - 1)
        }
    }
}

/// A C: its inputs come in rounds, and its output ends each.
#[derive(Drop)]
pub struct JoinMachine {
    inputs: Round,
}

impl JoinMachine {
    /// A C with so many inputs, before any of them.
    pub(crate) fn new(alloc: Global, width: u32) -> Result<JoinMachine, AllocError>
        ensures stands { IfOk result (λ it. JoinCounts it (λ p. 0)) }
        ensures width { IfOk result (λ it. length it.inputs.came.items ≡ width) }
    {
        let inputs = Round::new(alloc, width, true)?;
        Ok(JoinMachine { inputs })
    }

    /// Whether the port may come.
    pub(crate) fn can(&self, port: u32) -> bool
        ensures { (c : ℕ → ℕ) → JoinCounts self.now c
            → (IsTrue result ↔ KindAt (Kind.C (length self.now.inputs.came.items)) c port) }
    {
        let place = port as usize;
        if place == self.inputs.width() {
            self.inputs.is_over()
        } else {
            self.inputs.awaits(place)
        }
    }

    /// Takes the step where the port may come, and else changes nothing.
    pub(crate) fn step(&mut self, port: u32) -> bool
        ensures answer { (c : ℕ → ℕ) → JoinCounts self.old c
            → (IsTrue result ↔ KindAt (Kind.C (length self.old.inputs.came.items)) c port) }
        ensures taken { (c d : ℕ → ℕ) → JoinCounts self.old c → IsTrue result → Grew c port d
            → JoinCounts self.new d }
        ensures still { result ≡ false → self.new ≡ self.old }
        ensures kept { length self.new.inputs.came.items ≡ length self.old.inputs.came.items }
    {
        let place = port as usize;
        if place == self.inputs.width() {
            self.inputs.begin()
        } else {
            self.inputs.take(place)
        }
    }
}
