//! Tests of replays, on a network that is made by hand. The library itself has nothing.
#![tactic(auto)]

#[cfg(test)]
mod replays;
