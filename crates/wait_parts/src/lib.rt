//! A decision wait cut into its connected parts, in place of it.
#![tactic(auto)]

mod laws;
mod nodes;
#[cfg(test)]
mod tests;

pub use laws::wait_parts_law;
pub use nodes::parts_net;
