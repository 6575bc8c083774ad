//! The laws by which networks are proved correct: webs of named nodes and wires, counts, one invariant, and charts.
#![tactic(auto)]

mod laws;
mod side_by_side;

pub use laws::{fork_chain_law, forks_net_law, rounds_net_law};
pub use side_by_side::{forks, numbers};
