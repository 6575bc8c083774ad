//! Replays a schedule on a network, event by event.
ghost use Rattle.std.specs.Prelude.{◌≡◌, ◌≢◌, ◌↔◌, ◌-◌, ◌≤◌, [], ◌∷◌, ◌++◌, IsTrue, IfOk};
ghost use Rattle.replay.specs.declared.event.Answer.{Answer};
ghost use Rattle.replay.specs.Answers.{IsPlayable, IsAnswer, IsEnabled, state_of, symbols};
ghost use Rattle.replay.specs.Mirror.Steps.{step_for};
ghost use Rattle.replay.specs.Probes.{views_of, seen_of, all_stepped, one_more, AllSteady};

use crate::course::Course;
use crate::event::{Answer, Event};
use crate::probe::Probe;
use crate::step::Step;
use crate::watch::{ready_all, see_all};
use cmd_tree::Sym;
use net_core::Net;
use std::alloc::{AllocError, Global};

/// A run of a network, and the probes that watch it.
#[derive(Drop)]
pub struct Replaying<P> {
    course: Course,
    asked: u64,
    probes: Vec<P>,
}

/// A run that is watched by probes of any type.
pub type Replay = Replaying<Box<dyn Probe>>;

impl<P: Probe> Replaying<P> {
    /// The network at its start, with room for so many events.
    pub fn start(
        alloc: Global,
        net: Net,
        probes: Vec<P>,
        events: u32,
    ) -> Result<Replaying<P>, AllocError>
        requires { IsPlayable net }
        ensures course { IfOk result (λ replay. replay.course ≡ record { net = net; events = []; room = events }) }
        ensures probes { IfOk result (λ replay. replay.probes ≡ probes) }
        ensures asked { IfOk result (λ replay. replay.asked ≡ 0) }
    {
        let course = Course::start(alloc, net, events)?;
        Ok(Replaying {
            course,
            asked: 0,
            probes,
        })
    }

    /// Whether the event may happen now, with or without a hazard: false where there is no such event. It takes no memory.
    pub fn enabled(&mut self, event: Event) -> bool
        ensures answer { IsTrue result ↔ IsEnabled self.old.course.net (state_of self.old.course) event }
        ensures course { self.new.course ≡ self.old.course }
        ensures probes { self.new.probes ≡ self.old.probes }
        ensures asked { self.new.asked ≡ one_more self.old.asked }
    {
        self.asked = self.asked.saturating_add(1);
        self.course.may(event)
    }

    /// How often `enabled` was asked since the start, up to the greatest number of 64 bits.
    pub fn asked(&self) -> u64
        ensures { result ≡ self.now.asked }
    {
        self.asked
    }

    /// What the event does, if the network has such an event.
    pub fn step(&self, event: Event) -> Option<Step>
        ensures { result ≡ step_for self.now.course.net event }
    {
        self.course.step(event)
    }

    /// Applies the event where it may happen, has no hazard, and each probe is ready. After any answer but `Done` the run
    /// and the numbers of the probes are as before. But for what the probes do it takes no memory, and the same time in
    /// networks of any size.
    pub fn play(&mut self, event: Event) -> Answer
        requires { 1 ≤ self.old.course.room }
        ensures answer { result ≢ Answer.NoMemory → IsAnswer self.old.course.net (state_of self.old.course) event result }
        ensures unready { result ≡ Answer.NoMemory → IsAnswer self.old.course.net (state_of self.old.course) event Answer.Done }
        ensures applied { result ≡ Answer.Done → self.new.course
            ≡ record self.old.course { events = self.old.course.events ++ event ∷ []; room = self.old.course.room - 1 } }
        ensures seen { result ≡ Answer.Done → views_of P.rule P.numbers P.steady self.new.probes.items
            ≡ all_stepped (seen_of self.old.course.net event) (views_of P.rule P.numbers P.steady self.old.probes.items) }
        ensures still { result ≢ Answer.Done → self.new.course ≡ self.old.course }
        ensures unseen { result ≢ Answer.Done → views_of P.rule P.numbers P.steady self.new.probes.items
            ≡ views_of P.rule P.numbers P.steady self.old.probes.items }
        ensures steady { AllSteady (views_of P.rule P.numbers P.steady self.old.probes.items) → result ≢ Answer.NoMemory }
        ensures asked { self.new.asked ≡ self.old.asked }
    {
        let step = match self.course.judge(event) {
            Ok(step) => step,
            Err(answer) => return answer,
        };
        if ready_all(&mut self.probes).is_err() {
            return Answer::NoMemory;
        }
        self.course.apply(event, &step);
        see_all(&mut self.probes, step.sight());
        Answer::Done
    }

    /// The trace of the environment.
    pub fn seen(&self) -> &[Sym]
        ensures { symbols result.now ≡ (state_of self.now.course).trace 0 }
    {
        self.course.seen()
    }

    /// The network and the probes that were given.
    pub fn finish(self) -> (Net, Vec<P>)
        ensures net { result.0 ≡ self.course.net }
        ensures probes { result.1 ≡ self.probes }
    {
        let Replaying {
            course,
            asked: _,
            probes,
        } = self;
        (course.finish(), probes)
    }
}
