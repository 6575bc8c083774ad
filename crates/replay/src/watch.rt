//! Probes that watch together.
ghost use Rattle.std.specs.Prelude.{◌≡◌, ℕ, ◌≤◌, IfOk, IsOk, true, map};
ghost use Rattle.std.specs.List.{All};
ghost use Rattle.replay.specs.Probes.{view_of, views_of, stepped, AllSteady};

use crate::event::Seen;
use crate::probe::{Probe, ProbeFault};

fn ready_one<P: Probe>(probe: &mut P) -> Result<(), ProbeFault>
    ensures view { view_of P.rule P.numbers P.steady probe.new ≡ view_of P.rule P.numbers P.steady probe.old }
    ensures room { IfOk result (λ _. 1 ≤ P.room probe.new) }
    ensures always { P.steady probe.old ≡ true → IsOk result }
{
    probe.ready()
}

fn see_one<P: Probe>(probe: &mut P, seen: Seen)
    requires { 1 ≤ P.room probe.old }
    ensures { view_of P.rule P.numbers P.steady probe.new ≡ stepped seen (view_of P.rule P.numbers P.steady probe.old) }
{
    probe.see(seen)
}

/// Asks each probe in order whether it is ready, up to the first that is not.
pub fn ready_all<P: Probe>(probes: &mut [P]) -> Result<(), ProbeFault>
    ensures views { views_of P.rule P.numbers P.steady probes.new ≡ views_of P.rule P.numbers P.steady probes.old }
    ensures room { IfOk result (λ _. All (λ p. 1 ≤ P.room p) probes.new) }
    ensures always { AllSteady (views_of P.rule P.numbers P.steady probes.old) → IsOk result }
{
    for probe in probes.iter_mut() {
        ready_one(probe)?;
    }
    Ok(())
}

/// Each probe sees the event.
pub fn see_all<P: Probe>(probes: &mut [P], seen: Seen)
    requires { All (λ p. 1 ≤ P.room p) probes.old }
    ensures { views_of P.rule P.numbers P.steady probes.new ≡ map (stepped seen) (views_of P.rule P.numbers P.steady probes.old) }
{
    for probe in probes.iter_mut() {
        see_one(probe, seen);
    }
}
