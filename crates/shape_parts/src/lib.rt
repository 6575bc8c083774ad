//! The connected parts of a shape.
//!
//! Two crossings are in one part where they are linked by shared rows and columns. `labels` finds the parts by
//! union-find, and `parts` lists each with its own rows, columns and crossings.
#![tactic(auto)]

mod by_key;
mod cut;
mod keys;
mod layers;
mod marks;
#[cfg(test)]
mod tests;
mod union_find;

pub use cut::{ShapePart, parts};
pub use layers::{Layer, exchanged};
pub use union_find::labels;
