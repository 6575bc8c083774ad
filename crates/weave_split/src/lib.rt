//! The network of a weave: a node for each process, and what leads the symbols to and from them.
//!
//! `weave_net` builds it for every admitted command, grants and all, exactly as `specs/WeaveNet` says; `weave_law` says
//! what each such network is worth.
#![tactic(auto)]

mod built;
mod grants;
mod laws;
mod listed;
mod named;
mod numbered;
mod paths;
mod rows;
mod tables;

pub use built::weave_net;
pub use laws::weave_law;
