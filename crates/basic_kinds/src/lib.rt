//! The ten kinds of basic components, each specified by a command over its ports.
//!
//! `specs/KindTraces.antt` has the command of each kind, which says its traces. `specs/KindCounts.antt` says by how
//! often each port has come which port may come next. That this decides the same traces is the law
//! `kinds_by_counts`, by which networks of components are proved correct. A `Machine` runs a component: it keeps what
//! of the counts decides, and answers which port may come next.
#![tactic(auto)]

mod copy;
mod kind;
mod laws;
mod machine;
mod machine_rounds;
mod machine_seq;
mod machine_turns;
mod machine_wait;
mod shape;

pub use copy::{copy_kind, same_kind};
pub use kind::{Kind, ports};
pub use laws::{kinds_by_counts, rounds_law};
pub use machine::Machine;
pub use shape::Shape;
