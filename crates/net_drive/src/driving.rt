//! Networks that are driven by drawn events.
ghost use Rattle.std.specs.Prelude.{◌≡◌, ℕ, suc, ◌+◌, ◌-◌, ◌*◌, ◌%◌, ◌<◌, ◌≤◌, List, [], ◌∷◌, ◌++◌, length, slice_get, Some, None, IfOk, IfErr, MatchOption};
ghost use Rattle.rand_pcg.specs.Pcg.{pcg32};
ghost use Rattle.cmd_tree.specs.declared.command.Command.{Command};
ghost use Rattle.net_core.specs.Runs.{start};
ghost use Rattle.net_core.specs.Networks.{IsSpecified};
ghost use Rattle.net_core.specs.declared.spec.NodeSpec.TheVariants.{Cmd};
ghost use Rattle.replay.specs.declared.event.Answer.{Answer};
ghost use Rattle.replay.specs.Answers.{IsPlayable, IsAnswer, state_of, state_after};
ghost use Rattle.replay.specs.Probes.{views_of};
ghost use Rattle.net_drive.specs.Bits.{trues};
ghost use Rattle.net_drive.specs.Drawn.{possible, widest, generator_of, Draws, Drawn, IsDrawn};
ghost use Rattle.net_drive.specs.Mirror.Plans.{IsPlan};
ghost use Rattle.net_drive.specs.Mirror.Refreshing.{AllRight};
ghost use Rattle.net_drive.specs.Mirror.Driving.{picked, IsCurrent};

use crate::index::BitIndex;
use crate::plan::Plan;
use crate::refresh::{Known, refresh_range, update};
use net_core::Net;
use rand_core::utils::NextWord;
use rand_pcg::Lcg64Xsh32;
use replay::{Answer, Event, Probe, Replay, Replaying};
use std::alloc::{AllocError, Global};

/// Why a drawn schedule has no more events.
#[derive(Debug, Clone, Copy, PartialEq, Eq)]
pub enum Stop {
    /// As many events were applied as there should be steps.
    All,
    /// No event may happen.
    Quiet,
    /// The event that was drawn next has this hazard.
    Hazard(Answer),
}

/// A network that was driven.
#[derive(Drop)]
pub struct Driven {
    /// The events that were applied, in order.
    pub events: Vec<Event>,
    /// The length of the environment's trace.
    pub seen: u32,
    pub stop: Stop,
    /// The replay that was driven. It has no probes.
    pub replay: Replay,
}

/// Drives the network by so many steps. At each one of the events that may happen is drawn, by a word of the generator
/// that the seed starts, and applied. It ends early where no event may happen, and before an event that has a hazard.
/// A step costs the logarithm of the network, for each event that it may have changed.
pub fn drive(alloc: Global, net: Net, seed: u64, steps: u32) -> Result<Driven, AllocError>
    requires { IsPlayable net }
    ensures drawn { IfOk result (λ driven. IsDrawn net seed steps driven.events.items driven.stop) }
    ensures seen { IfOk result (λ driven. driven.seen ≡ length ((state_after net start driven.events.items).trace 0)) }
    ensures replay { IfOk result (λ driven. driven.replay.course
        ≡ record { net = net; events = driven.events.items; room = steps - length driven.events.items }) }
    ensures probes { IfOk result (λ driven. driven.replay.probes.items ≡ []) }
    ensures asked { IfOk result (λ driven. driven.replay.asked
        ≤ 2 * net.wires + length driven.events.items * (1 + 2 * widest net)) }
{
    let plan = Plan::new(alloc, &net)?;
    let mut known = Known {
        index: BitIndex::new(alloc, plan.events.len())?,
        tested: vec![in alloc; 0; plan.gives]?,
    };
    let mut replay = Replay::start(alloc, net, Vec::new(alloc), steps)?;
    let mut events = Vec::new(alloc);
    ask_all(&mut replay, &plan, &mut known);
    let stop = draw_all(&mut replay, &plan, &mut known, seed, steps, &mut events)?;
    let seen = replay.seen().len() as u32;
    Ok(Driven {
        events,
        seen,
        stop,
        replay,
    })
}

// Tests each event once, before the first step.
fn ask_all<P: Probe>(replay: &mut Replaying<P>, plan: &Plan, known: &mut Known)
    requires { length known.old.index ≡ length plan.now.events.items }
    ensures right { AllRight replay.old.course.net (state_of replay.old.course) plan.now.events.items known.new.index }
    ensures tested { known.new.tested.items ≡ known.old.tested.items }
    ensures course { replay.new.course ≡ replay.old.course }
    ensures probes { replay.new.probes ≡ replay.old.probes }
    ensures asked { replay.new.asked ≤ replay.old.asked + length plan.now.events.items }
{
    refresh_range(replay, &plan.events, &mut known.index, 0, plan.events.len());
}

fn draw_all<P: Probe>(
    replay: &mut Replaying<P>,
    plan: &Plan,
    known: &mut Known,
    seed: u64,
    steps: u32,
    events: &mut Vec<Event>,
) -> Result<Stop, AllocError>
    requires playable { IsPlayable replay.old.course.net }
    requires plan { (k : Command) → IsSpecified replay.old.course.net (Cmd k) → IsPlan replay.old.course.net k.procs plan.now }
    requires fresh { replay.old.course ≡ record { net = replay.old.course.net; events = []; room = steps } }
    requires current { IsCurrent replay.old.course plan.now known.old.index known.old.tested.items 1 }
    requires probes { views_of P.rule P.numbers P.steady replay.old.probes.items ≡ [] }
    requires none { events.old.items ≡ [] }
    ensures drawn { IfOk result (λ stop. IsDrawn replay.old.course.net seed steps events.new.items stop) }
    ensures course { IfOk result (λ _. replay.new.course
        ≡ record { net = replay.old.course.net; events = events.new.items; room = steps - length events.new.items }) }
    ensures probes { IfOk result (λ _. views_of P.rule P.numbers P.steady replay.new.probes.items ≡ []) }
    ensures asked { IfOk result (λ _. replay.new.asked ≤ replay.old.asked + length events.new.items * (1 + widest replay.old.course.net)) }
{
    let mut generator = Lcg64Xsh32::new(seed, 1);
    for taken in 0..steps {
        match draw_one(replay, plan, known, &mut generator, taken + 1) {
            Ok(event) => events.push(event)?,
            Err(stop) => return Ok(stop),
        }
    }
    Ok(Stop::All)
}

// Draws the next event and applies it, or tells why there is none.
fn draw_one<P: Probe>(
    replay: &mut Replaying<P>,
    plan: &Plan,
    known: &mut Known,
    generator: &mut Lcg64Xsh32,
    step: u32,
) -> Result<Event, Stop>
    requires playable { IsPlayable replay.old.course.net }
    requires plan { (k : Command) → IsSpecified replay.old.course.net (Cmd k) → IsPlan replay.old.course.net k.procs plan.now }
    requires current { IsCurrent replay.old.course plan.now known.old.index known.old.tested.items step }
    requires room { 1 ≤ replay.old.course.room }
    requires probes { views_of P.rule P.numbers P.steady replay.old.probes.items ≡ [] }
    ensures drawn { IfOk result (λ e. Draws replay.old.course.net (state_of replay.old.course) (pcg32 generator.old).0 e) }
    ensures done { IfOk result (λ e. IsAnswer replay.old.course.net (state_of replay.old.course) e Answer.Done) }
    ensures generator { IfOk result (λ _. generator.new ≡ (pcg32 generator.old).1) }
    ensures course { IfOk result (λ e. replay.new.course
        ≡ record replay.old.course { events = replay.old.course.events ++ e ∷ []; room = replay.old.course.room - 1 }) }
    ensures current { IfOk result (λ _. IsCurrent replay.new.course plan.now known.new.index known.new.tested.items (step + 1)) }
    ensures asked { IfOk result (λ _. replay.new.asked ≤ replay.old.asked + (1 + widest replay.old.course.net)) }
    ensures stopped { IfErr result (λ stop. (n : ℕ) → Drawn replay.old.course.net (suc n) generator.old (state_of replay.old.course) [] stop) }
    ensures still { IfErr result (λ _. (replay.new.course ≡ replay.old.course) × (replay.new.asked ≡ replay.old.asked)) }
    ensures probes { views_of P.rule P.numbers P.steady replay.new.probes.items ≡ [] }
{
    let Some(event) = draw(&plan.events, &known.index, generator) else {
        return Err(Stop::Quiet);
    };
    match replay.play(event) {
        Answer::Done => {}
        answer => return Err(Stop::Hazard(answer)),
    }
    update(replay, plan, known, step, event);
    Ok(event)
}

// Takes a word and draws the event that it names, if there is one.
fn draw(events: &[Event], index: &BitIndex, generator: &mut Lcg64Xsh32) -> Option<Event>
    requires { length index.now ≡ length events.now }
    ensures { MatchOption result (trues index.now ≡ 0) (λ e. (0 < trues index.now) × (generator.new ≡ (pcg32 generator.old).1)
        × (slice_get (picked index.now events.now) ((pcg32 generator.old).0 % trues index.now) ≡ Some e)) }
{
    let count = index.count();
    if count == 0 {
        return None;
    }
    let word = generator.next_word();
    Some(events[index.at(word as usize % count)])
}
