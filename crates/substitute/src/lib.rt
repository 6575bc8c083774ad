//! Networks in the places of nodes of another: of one node by `splice`, of many at once by `splice_all`.
//!
//! A network that is specified as a node is takes the place of the node: the wires at its environment are fused
//! with those at the node's ports, and its inner wires take the next numbers. `specs/Splice.antt` says which network
//! results (`spliced`) and when one may take a place (`Fitting`), and `specs/Splices.antt` the same of many. What is
//! closed, clean, sound and correct stays so where the parts are: `splice_law` and `splices_law`.
#![tactic(auto)]

mod fits;
mod laws;
mod many;
mod parts;
mod renumber;
mod whole;

pub use fits::fits_each;
pub use laws::{splice_law, splices_law};
pub use many::splice_all;
pub use whole::{SpliceRefusal, splice};
