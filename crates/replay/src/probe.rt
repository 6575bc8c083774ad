//! Observers of a run.
ghost use Rattle.std.specs.Prelude.{◌≡◌, ℕ, ◌≤◌, Bool, true, List, slice_get, IfOk, IsOk};
ghost use Rattle.replay.specs.Probes.{HasNumbers, probe_step};

use crate::event::Seen;

/// Why a probe is not ready.
#[derive(Debug, Clone, Copy, PartialEq, Eq)]
pub enum ProbeFault {
    NoMemory,
}

/// An observer of a run. It has a rule and numbers, and sees the events that were applied in order. Before each it is
/// asked whether it is ready; a steady one always is.
pub trait Probe: Drop {
    ghost rule: { Self → ℕ };

    ghost numbers: { Self → List ℕ };

    ghost room: { Self → ℕ };

    ghost steady: { Self → Bool };

    /// The number of the rule by which the numbers change.
    fn rule(&self) -> u32
        ensures is { result ≡ rule self.now }
        ensures numbers { HasNumbers (rule self.now) (numbers self.now) };

    /// Makes room for what is seen of one event.
    fn ready(&mut self) -> Result<(), ProbeFault>
        ensures rule { rule self.new ≡ rule self.old }
        ensures steady { steady self.new ≡ steady self.old }
        ensures numbers { numbers self.new ≡ numbers self.old }
        ensures room { IfOk result (λ _. 1 ≤ room self.new) }
        ensures always { steady self.old ≡ true → IsOk result };

    /// Sees an event.
    fn see(&mut self, e: Seen)
        requires { 1 ≤ room self.old }
        ensures rule { rule self.new ≡ rule self.old }
        ensures steady { steady self.new ≡ steady self.old }
        ensures numbers { numbers self.new ≡ probe_step (rule self.old) (numbers self.old) e };

    /// The number of this index, counted from 0.
    fn line(&self, k: u32) -> Option<u64>
        ensures { result ≡ slice_get (numbers self.now) k };
}

/// A probe in a box is a probe.
impl Probe for Box<dyn Probe> {
    ghost rule = { λ b. (Probe-box b).rule b.value };

    ghost numbers = { λ b. (Probe-box b).numbers b.value };

    ghost room = { λ b. (Probe-box b).room b.value };

    ghost steady = { λ b. (Probe-box b).steady b.value };

    fn rule(&self) -> u32 {
        (**self).rule()
    }

    fn ready(&mut self) -> Result<(), ProbeFault> {
        (**self).ready()
    }

    fn see(&mut self, e: Seen) {
        (**self).see(e)
    }

    fn line(&self, k: u32) -> Option<u64> {
        (**self).line(k)
    }
}
