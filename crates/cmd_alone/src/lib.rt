//! A process of a command as a command of its own.
//!
//! `alone` makes the command of one process: its symbols are numbered by first occurrence, and keep their names.
//! `alone_law` says what it shares with the command that it is taken from, and `weave_law` that a command has the traces
//! of its processes by themselves.
#![tactic(auto)]

mod laws;
mod single;
#[cfg(test)]
mod tests;

pub use laws::{alone_law, weave_law};
pub use single::alone;
