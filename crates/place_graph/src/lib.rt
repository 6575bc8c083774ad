//! The graph of a process: its points and the bursts that lead from one to another, and the same by numbers,
//! for the networks that are built of it.
#![tactic(auto)]

mod draw;
mod laws;
mod leg;
mod numbers;
mod styles;
#[cfg(test)]
mod tests;
mod wait_graph;

pub use draw::graph;
pub use laws::{
    admitted_graphs, fair_is_charted, graph_traces, moves_decide, number_traces, sets_have_homes,
    styles_law,
};
pub use leg::{Leg, legs};
pub use styles::{SplitStyle, style};
pub use wait_graph::{Act, Cross, Start, WaitGraph};
