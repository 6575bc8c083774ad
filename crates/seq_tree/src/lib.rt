//! SEQs of many requests, in layers of smaller ones: one layer has a SEQ of two between two groups of requests, and in each
//! group of two requests and more a SEQ that chooses one of them.
#![tactic(auto)]

mod columns;
mod groups;
mod laws;
mod layers;
#[cfg(test)]
mod tests;

pub use laws::sequencer_law;
pub use layers::split;
