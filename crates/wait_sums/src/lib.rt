//! Laws of the number of components that stand for a DW in the basis two.
#![tactic(auto)]

mod laws;
#[cfg(test)]
mod tests;

pub use laws::{columns_law, connected_law, crossings_law, parts_law, shape_law, small_law};
