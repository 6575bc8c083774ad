//! Walkers: each keeps what of a trace of a command decides which symbol may come next.
#![tactic(auto)]

mod laws;
mod position;
pub mod users;
mod walker;

pub use laws::admitted_is_lawful;
pub use position::Position;
pub use walker::Walker;
