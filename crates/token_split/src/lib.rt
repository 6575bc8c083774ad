//! The network of a process whose graph needs a token.
#![tactic(auto)]

mod built;
mod laws;
mod links;
mod listed;
mod named;
mod numbered;
mod paths;

pub use built::token_net;
pub use laws::token_law;
