ghost use Rattle.std.specs.Prelude.{◌≡◌};
ghost use Rattle.di_top.specs.Say.{status_of};
ghost use Rattle.di_top.specs.Plans.{names_in};

use crate::names::names_of;
use cmd_expand::ExpandRefusal;
use cmd_text::Refusal;
use cmd_tree::Name;
use di_grammar::Broken;
use net_core::Net;
use net_text::NetRefusal;
use replay::{Answer, ScheduleRefusal};
use std::alloc::AllocError;
use trace_laws::TraceRefusal;

/// How a call of the program ended.
#[derive(Debug, Clone, Copy, PartialEq, Eq)]
pub enum Outcome {
    /// The output is written.
    Done,
    /// The input is refused.
    Refused(Why),
    /// The words are of no form.
    Usage,
    /// The file of this number, counted from 1, could not be read.
    ReadFault { file: u8 },
    /// The output or the line about it could not be written.
    WriteFault,
    /// Memory was refused before anything was written.
    NoMemory,
    /// The limit of this number is passed. `value` is what was found.
    Limit { limit: u8, value: u64 },
    /// The event in this line of the schedule has a hazard, or the one that was drawn in this step of a drive.
    Hazard { line: u32, what: Answer },
    /// The event in this line of the schedule may not happen.
    NotRun { line: u32, what: Answer },
}

/// Why an input is refused.
#[derive(Debug, Clone, Copy, PartialEq, Eq)]
pub enum Why {
    /// The file is no text of the grammar.
    Text(Refusal),
    /// Something is wrong with its definitions or their uses.
    Expand(ExpandRefusal),
    /// Its command is admitted, and none of those that are compiled today.
    NotThisForm,
    /// The command is not admitted.
    Grammar(Broken),
    /// The file is no list of traces.
    Traces(TraceRefusal),
    /// The file is no netlist.
    Net(NetRefusal),
    /// The file is no schedule.
    Schedule(ScheduleRefusal),
}

/// What the number of an event counts.
#[derive(Debug, Clone, Copy, PartialEq, Eq)]
pub enum Numbered {
    /// The lines of a schedule, from 1 on.
    Lines,
    /// The steps of a drive, from 1 on.
    Steps,
}

impl Outcome {
    /// The status with which the program ends.
    pub fn status(&self) -> u8
        ensures { result ≡ status_of self.now }
    {
        match self {
            Outcome::Done => 0,
            Outcome::Refused(_) => 1,
            Outcome::Usage => 2,
            Outcome::ReadFault { .. } => 3,
            Outcome::WriteFault => 4,
            Outcome::NoMemory => 5,
            Outcome::Limit { .. } => 6,
            Outcome::Hazard { .. } => 7,
            Outcome::NotRun { .. } => 8,
        }
    }
}

impl From<AllocError> for Outcome {
    ghost use Rattle.di_top.specs.declared.outcome.Outcome.TheVariants.{NoMemory};

    ghost from_gives = { λ _ outcome. outcome ≡ NoMemory };

    fn from(_error: AllocError) -> Outcome {
        Outcome::NoMemory
    }
}

impl From<Refusal> for Outcome {
    ghost use Rattle.std.specs.Prelude.{◌≡◌};
    ghost use Rattle.di_top.specs.CommandFiles.{told_of_text};

    ghost from_gives = { λ refusal outcome. outcome ≡ told_of_text refusal };

    fn from(refusal: Refusal) -> Outcome {
        match refusal {
            Refusal::NoMemory => Outcome::NoMemory,
            _ => Outcome::Refused(Why::Text(refusal)),
        }
    }
}

impl From<ExpandRefusal> for Outcome {
    ghost use Rattle.std.specs.Prelude.{◌≡◌};
    ghost use Rattle.di_top.specs.CommandFiles.{told_of_expand};

    ghost from_gives = { λ refusal outcome. outcome ≡ told_of_expand refusal };

    fn from(refusal: ExpandRefusal) -> Outcome {
        match refusal {
            ExpandRefusal::TooManySymbols { count } => Outcome::Limit {
                limit: 3,
                value: count,
            },
            ExpandRefusal::TooManyProcs { count } => Outcome::Limit {
                limit: 4,
                value: count,
            },
            ExpandRefusal::TooManyPlaces { count } => Outcome::Limit {
                limit: 5,
                value: count,
            },
            ExpandRefusal::NoMemory => Outcome::NoMemory,
            _ => Outcome::Refused(Why::Expand(refusal)),
        }
    }
}

impl From<TraceRefusal> for Outcome {
    ghost use Rattle.std.specs.Prelude.{◌≡◌};
    ghost use Rattle.di_top.specs.RulesForm.{told_of_traces};

    ghost from_gives = { λ refusal outcome. outcome ≡ told_of_traces refusal };

    fn from(refusal: TraceRefusal) -> Outcome {
        match refusal {
            TraceRefusal::NoMemory => Outcome::NoMemory,
            _ => Outcome::Refused(Why::Traces(refusal)),
        }
    }
}

impl From<NetRefusal> for Outcome {
    ghost use Rattle.std.specs.Prelude.{◌≡◌};
    ghost use Rattle.di_top.specs.RunForm.{told_of_net};

    ghost from_gives = { λ refusal outcome. outcome ≡ told_of_net refusal };

    fn from(refusal: NetRefusal) -> Outcome {
        match refusal {
            NetRefusal::NoMemory => Outcome::NoMemory,
            _ => Outcome::Refused(Why::Net(refusal)),
        }
    }
}

impl From<ScheduleRefusal> for Outcome {
    ghost use Rattle.std.specs.Prelude.{◌≡◌};
    ghost use Rattle.di_top.specs.RunForm.{told_of_schedule};

    ghost from_gives = { λ refusal outcome. outcome ≡ told_of_schedule refusal };

    fn from(refusal: ScheduleRefusal) -> Outcome {
        match refusal {
            ScheduleRefusal::NoMemory => Outcome::NoMemory,
            _ => Outcome::Refused(Why::Schedule(refusal)),
        }
    }
}

/// What ends a call before it writes. The outcome of an event is said by what its number counts, and by the names of the
/// network that was read by then.
#[derive(Drop)]
pub struct Stop {
    pub outcome: Outcome,
    pub numbered: Numbered,
    pub net: Option<Net>,
}

impl Stop {
    /// The names with which the outcome is said.
    pub fn names(&self) -> &[Name]
        ensures { result.now ≡ names_in self.now.net }
    {
        match &self.net {
            None => &[],
            Some(net) => names_of(net),
        }
    }
}

impl From<Outcome> for Stop {
    ghost use Rattle.std.specs.Prelude.{◌≡◌, None};
    ghost use Rattle.di_top.specs.declared.outcome.Numbered.{Numbered};

    ghost from_gives = { λ outcome stop. stop ≡ record { outcome = outcome; numbered = Numbered.Lines; net = None } };

    fn from(outcome: Outcome) -> Stop {
        Stop {
            outcome,
            numbered: Numbered::Lines,
            net: None,
        }
    }
}

impl From<AllocError> for Stop {
    ghost use Rattle.std.specs.Prelude.{◌≡◌, None};
    ghost use Rattle.di_top.specs.declared.outcome.Numbered.{Numbered};
    ghost use Rattle.di_top.specs.declared.outcome.Outcome.TheVariants.{NoMemory};

    ghost from_gives = { λ _ stop. stop ≡ record { outcome = NoMemory; numbered = Numbered.Lines; net = None } };

    fn from(_error: AllocError) -> Stop {
        Stop::from(Outcome::NoMemory)
    }
}
