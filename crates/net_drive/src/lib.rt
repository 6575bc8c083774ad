//! Drawn schedules: a network is driven by events that a generator of random words draws among those that may happen.
//!
//! `specs/Drawn.antt` has what `drive` draws, applies and tells. A draw and an update cost the logarithm of the network:
//! an index has a bit for each event that the network could ever have, and a tree of sums over the bits.
#![tactic(auto)]

mod driving;
mod index;
mod laws;
mod plan;
mod refresh;

pub use driving::{Driven, Stop, drive};
pub use laws::{changes_law, listed_law, one_drawn};
