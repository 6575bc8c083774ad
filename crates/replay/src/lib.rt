//! Runs of a network, replayed event by event under the eyes of observers.
//!
//! `Replay` applies the events that a schedule asks for, one call of `play` each, as long as they may happen and have no
//! hazard. `specs/Answers.antt` has the answer to each event. Probes see the applied events, in order: one that counts
//! them, one that tells how many wires were busy at once, and those that the caller brings.
#![tactic(auto)]

mod board;
mod course;
mod event;
mod laws;
mod pieces;
mod probe;
mod probes;
mod replay;
mod schedule;
mod step;
mod watch;

pub use course::Course;
pub use event::{Answer, Event, Seen};
pub use laws::{one_answer, one_schedule, replays_are_runs};
pub use probe::{Probe, ProbeFault};
pub use probes::{CountProbe, PeakProbe};
pub use replay::{Replay, Replaying};
pub use schedule::{ScheduleRefusal, read_schedule};
pub use step::Step;
