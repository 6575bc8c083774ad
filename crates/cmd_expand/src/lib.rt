//! What a command file with definitions means: the command of `main`, in which each use of a definition is replaced
//! by its processes with their symbols renamed, or the first thing that is wrong.
//!
//! A definition is resolved when it is met, whether or not it is used, and keeps no tree: its parts name what they
//! use, and beside them stand its symbols and its numbers. Only `main` becomes trees. `specs/Expansion.antt` says
//! what a file means.
#![tactic(auto)]

mod command;
mod faults;
mod laws;
mod names;
mod pairs;
mod plan;
mod read;
mod refusal;
mod unfolding;

pub use command::expand;
pub use laws::own_command_law;
pub use read::read_command;
pub use refusal::ExpandRefusal;
