//! Tests of the networks of processes. The library itself has nothing.
#![tactic(auto)]

#[cfg(test)]
mod plain;
