//! Tests of components, and of networks in their places. The library itself has nothing.
#![tactic(auto)]

#[cfg(test)]
mod components;
#[cfg(test)]
mod machines;
