//! Tests of sums over commands that are read. The library itself has nothing.
#![tactic(auto)]

#[cfg(test)]
mod sums;
