//! FORKs, Cs and MERGEs of many ports, in layers of smaller ones: one layer has a component for each half of the ports, and one
//! of two ports that joins the halves.
#![tactic(auto)]

mod fork;
mod gather;
mod laws;
mod layers;
#[cfg(test)]
mod tests;
mod width;

pub use laws::fan_law;
pub use layers::split;
