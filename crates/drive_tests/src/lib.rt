//! Tests of drawn schedules, on small netlists. The library itself has nothing.
#![tactic(auto)]

#[cfg(test)]
mod drives;
