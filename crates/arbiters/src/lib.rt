//! Arbiters: commands of clients that share one resource, for any number of clients that the limits allow.
#![tactic(auto)]

mod arbiter;
mod laws;
mod names;
mod processes;
#[cfg(test)]
mod tests;

pub use arbiter::big;
pub use laws::arbiter_law;
