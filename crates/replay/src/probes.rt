//! Two observers: how many events of each form there were, and how many wires were busy at once.
ghost use Rattle.std.specs.Prelude.{◌≡◌, [], ◌∷◌, true};

use crate::event::Seen;
use crate::probe::{Probe, ProbeFault};

/// Counts gives, passes and fires.
#[derive(Drop)]
pub struct CountProbe {
    gives: u64,
    passes: u64,
    fires: u64,
}

impl CountProbe {
    pub fn new() -> CountProbe
        ensures rule { ⟦<CountProbe as Probe>⟧.rule result ≡ 1 }
        ensures numbers { ⟦<CountProbe as Probe>⟧.numbers result ≡ 0 ∷ 0 ∷ 0 ∷ [] }
        ensures steady { ⟦<CountProbe as Probe>⟧.steady result ≡ true }
    {
        CountProbe {
            gives: 0,
            passes: 0,
            fires: 0,
        }
    }
}

impl Probe for CountProbe {
    ghost use Rattle.std.specs.Prelude.{[], ◌∷◌, true};

    ghost rule = { λ _. 1 };

    ghost numbers = { λ p. p.gives ∷ p.passes ∷ p.fires ∷ [] };

    ghost room = { λ _. 1 };

    ghost steady = { λ _. true };

    fn rule(&self) -> u32 {
        1
    }

    fn ready(&mut self) -> Result<(), ProbeFault> {
        Ok(())
    }

    fn see(&mut self, e: Seen) {
        match e {
            Seen::Gave { .. } => self.gives = self.gives.saturating_add(1),
            Seen::Passed { .. } => self.passes = self.passes.saturating_add(1),
            Seen::Fired { .. } => self.fires = self.fires.saturating_add(1),
        }
    }

    fn line(&self, k: u32) -> Option<u64> {
        match k {
            0 => Some(self.gives),
            1 => Some(self.passes),
            2 => Some(self.fires),
            _ => None,
        }
    }
}

/// Tells how many wires are busy, and the most that were so far.
#[derive(Drop)]
pub struct PeakProbe {
    busy: u64,
    peak: u64,
}

impl PeakProbe {
    pub fn new() -> PeakProbe
        ensures rule { ⟦<PeakProbe as Probe>⟧.rule result ≡ 2 }
        ensures numbers { ⟦<PeakProbe as Probe>⟧.numbers result ≡ 0 ∷ 0 ∷ [] }
        ensures steady { ⟦<PeakProbe as Probe>⟧.steady result ≡ true }
    {
        PeakProbe { busy: 0, peak: 0 }
    }
}

impl Probe for PeakProbe {
    ghost use Rattle.std.specs.Prelude.{[], ◌∷◌, true};

    ghost rule = { λ _. 2 };

    ghost numbers = { λ p. p.busy ∷ p.peak ∷ [] };

    ghost room = { λ _. 1 };

    ghost steady = { λ _. true };

    fn rule(&self) -> u32 {
        2
    }

    fn ready(&mut self) -> Result<(), ProbeFault> {
        Ok(())
    }

    fn see(&mut self, e: Seen) {
        match e {
            Seen::Gave { .. } | Seen::Fired { .. } => {
                self.busy = self.busy.saturating_add(1);
                self.peak = self.busy.max(self.peak);
            }
            Seen::Passed { .. } => self.busy = self.busy.saturating_sub(1),
        }
    }

    fn line(&self, k: u32) -> Option<u64> {
        match k {
            0 => Some(self.busy),
            1 => Some(self.peak),
            _ => None,
        }
    }
}
