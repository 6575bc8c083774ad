//! Networks of two-way components: layers take the places of the components that are not two-way, pass after pass.
#![tactic(auto)]

mod layers;
mod passes;

pub use passes::split_all;
