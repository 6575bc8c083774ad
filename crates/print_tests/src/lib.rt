//! Tests of shelves, sinks, the printer and the writer of commands. The library itself has nothing.
#![tactic(auto)]

#[cfg(test)]
mod printing;
