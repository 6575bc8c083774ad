//! Tests of files with definitions. The library itself has nothing.
#![tactic(auto)]

#[cfg(test)]
mod files;
