//! Tests of walkers over commands that are read. The library itself has nothing.
#![tactic(auto)]

#[cfg(test)]
mod walks;
