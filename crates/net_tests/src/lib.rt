//! Tests of networks, their builder and their order. The library itself has nothing.
#![tactic(auto)]

#[cfg(test)]
mod networks;
