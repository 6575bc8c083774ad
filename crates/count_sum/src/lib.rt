//! How many components of each sort the network of a command has, in the basis wide and in the basis two.
//!
//! What is counted is read off the command: off its weave, and off the graph of each process. No network is built.
#![tactic(auto)]

mod commands;
mod counts;
mod graphs;
mod laws;
mod narrow;
mod parts;
mod rings;
mod sequencers;
mod sums;
mod tally;
mod waits;
mod weaves;

pub use commands::count;
pub use counts::{Basis, Counts};
pub use laws::{command_law, wait_law};
pub use narrow::is_narrow;
