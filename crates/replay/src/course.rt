//! A run so far: the network, what stands for its state, and the events that were applied.
ghost use Rattle.std.specs.Prelude.{◌≡◌, ◌≢◌, ◌↔◌, ℕ, IsTrue, ◌+◌, ◌-◌, ◌≤◌, List, [], ◌∷◌, ◌++◌, vec_len, vec_capacity, IfOk, IfErr};
ghost use Rattle.net_core.specs.Runs.{grow};
ghost use Rattle.replay.specs.declared.event.Answer.{Answer};
ghost use Rattle.replay.specs.Answers.{IsPlayable, IsAnswer, IsEnabled, state_of, symbols};
ghost use Rattle.replay.specs.Mirror.Steps.{Judged, step_for};

use crate::board::Board;
use crate::event::{Answer, Event};
use crate::step::{Step, step_of};
use cmd_tree::Sym;
use net_core::Net;
use std::alloc::{AllocError, Global};
use std::marker::Model;

/// A run so far. Contracts see the network, the applied events, and for how many more there is room.
#[derive(Drop)]
pub struct Course {
    net: Net,
    board: Board,
    seen: Vec<Sym>,
    events: Vec<Event>,
    room: u32,
}

impl Model for Course {
    ghost use Rattle.std.specs.Prelude.{◌+◌, ◌≤◌, vec_len, vec_capacity};
    ghost use Rattle.std.specs.Coded.{codes};
    ghost use Rattle.net_core.specs.contracts.spec.NodeSpec as node_spec;
    ghost use Rattle.net_core.specs.Runs.{start};
    ghost use Rattle.replay.specs.Answers.{Course, state_after};
    ghost use Rattle.replay.specs.Mirror.Boards.{Kept};

    ghost Value = { Course };

    ghost coded = { Prim.hlevel (codes, node_spec.the_row.coded) };

    ghost view = { λ a. record { net = a.net; events = a.events.items; room = a.room } };

    ghost invariant = { λ a. Kept a.net a.board a.seen.items (state_after a.net start a.events.items)
        × (vec_len a.events + a.room ≤ vec_capacity a.events) × (vec_len a.seen + a.room ≤ vec_capacity a.seen) };
}

impl Course {
    /// The network at its start, with room for so many events.
    pub fn start(alloc: Global, net: Net, events: u32) -> Result<Course, AllocError>
        requires { IsPlayable net }
        ensures { IfOk result (λ course. course ≡ record { net = net; events = []; room = events }) }
    {
        let board = Board::new(alloc, &net)?;
        let seen = Vec::with_capacity(alloc, events as usize)?;
        let applied = Vec::with_capacity(alloc, events as usize)?;
        Ok(Course {
            net,
            board,
            seen,
            events: applied,
            room: events,
        })
    }

    /// What the event does, if the network has such an event.
    pub(crate) fn step(&self, event: Event) -> Option<Step>
        ensures { result ≡ step_for self.now.net event }
    {
        step_of(&self.net, &self.board.outs, event)
    }

    /// Whether the event may happen, with or without a hazard.
    pub(crate) fn may(&self, event: Event) -> bool
        ensures { IsTrue result ↔ IsEnabled self.now.net (state_of self.now) event }
    {
        let Some(step) = step_of(&self.net, &self.board.outs, event) else {
            return false;
        };
        if step.fills {
            self.board.can(step.node, step.port)
        } else {
            self.board.is_busy(step.wire)
        }
    }

    /// The step that applies the event, or the answer where there is none, it may not happen, or it has a hazard.
    pub(crate) fn judge(&self, event: Event) -> Result<Step, Answer>
        ensures step { IfOk result (λ step. Judged self.now event step) }
        ensures answer { IfErr result (λ answer. IsAnswer self.now.net (state_of self.now) event answer) }
        ensures refused { IfErr result (λ answer. answer ≢ Answer.Done) }
    {
        let Some(step) = step_of(&self.net, &self.board.outs, event) else {
            return Err(Answer::NoSuch);
        };
        let can = self.board.can(step.node, step.port);
        let busy = self.board.is_busy(step.wire);
        match step.answer(can, busy) {
            Answer::Done => Ok(step),
            answer => Err(answer),
        }
    }

    /// Applies an event by its step.
    pub(crate) fn apply(&mut self, event: Event, step: &Step)
        requires judged { Judged self.old event step.now }
        requires room { 1 ≤ self.old.room }
        ensures { self.new ≡ record self.old { events = self.old.events ++ event ∷ []; room = self.old.room - 1 } }
    {
        self.board.take(step);
        note(&mut self.seen, step);
        // There is room for the event.
        let _noted = self.events.push(event);
        self.room -= 1;
    }

    /// The trace of the environment.
    pub fn seen(&self) -> &[Sym]
        ensures { symbols result.now ≡ (state_of self.now).trace 0 }
    {
        &self.seen
    }

    /// The network that was given.
    pub fn finish(self) -> Net
        ensures { result ≡ self.net }
    {
        self.net
    }
}

// Notes the symbol where the environment takes part. There is room for it.
fn note(seen: &mut Vec<Sym>, step: &Step)
    requires { vec_len seen.old + 1 ≤ vec_capacity seen.old }
    ensures symbols { (trace : ℕ → List ℕ) → symbols seen.old.items ≡ trace 0
        → symbols seen.new.items ≡ grow trace step.now.node step.now.port 0 }
    ensures len { vec_len seen.new ≤ vec_len seen.old + 1 }
    ensures capacity { vec_capacity seen.old ≤ vec_capacity seen.new }
{
    if step.node == 0 {
        let _noted = seen.push(Sym(step.port));
    }
}
