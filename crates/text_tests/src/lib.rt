//! Tests of commands and of their texts. The library itself has nothing.
#![tactic(auto)]

#[cfg(test)]
mod commands;
#[cfg(test)]
mod texts;
