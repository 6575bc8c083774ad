//! From a command to its network.
//!
//! `compile` checks the command, builds the network of its weave, puts the network of each process in its
//! place, in the basis two layers in the places of all components that are not two-way, and puts the whole in walk order.
#![tactic(auto)]

mod build;
mod laws;
mod refusal;

pub use build::compile;
pub use count_sum::Basis;
pub use laws::compile_law;
pub use refusal::CompileRefusal;
