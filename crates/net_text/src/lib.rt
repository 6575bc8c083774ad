//! The text of a network: a netlist.
//!
//! `write_net` puts the text of a network whose environment is a command: the command, a line for each
//! symbol, a line for each component, and `end`. It takes no memory. `read_net` reads such a text in one pass, or tells
//! its first faulty line or the least open wire, as `specs/NetFault` says. `specs/NetText` has the format:
//!
//!     dinet 1
//!     spec pref*[(a?||b?);(c!||d!)]
//!     port a? 0
//!     port b? 1
//!     port c! 2
//!     port d! 3
//!     C 0 1 > 4
//!     FORK 4 > 2 3
//!     end
#![tactic(auto)]

mod component;
mod header;
mod laws;
mod net;
mod part;
mod pieces;
mod ports;
mod read;
mod refusal;
#[cfg(test)]
mod tests;
mod wait;
mod wires;

pub use laws::{netlist_or_fault, texts_tell_networks};
pub use net::write_net;
pub use read::read_net;
pub use refusal::NetRefusal;
