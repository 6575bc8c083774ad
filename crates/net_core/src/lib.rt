//! Networks of components joined by wires, and what they do under any delays.
#![tactic(auto)]

mod laws;
mod listing;
mod net;
mod ordered;
mod renumber;
mod spec;
mod table;
mod walk;

pub use laws::{closed_law, network_law, ports_law, renumber_law, walk_law};
pub use net::{Net, NetBuilder, Node, OpenPort, closed};
pub use ordered::order;
pub use renumber::moved_node;
pub use spec::{NodeSpec, copy_spec, directions, same_spec};
