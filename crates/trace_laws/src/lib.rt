//! Lists of traces: the reader of their text, and whether a list keeps the five rules of delay-insensitivity.
//!
//! `list_or_faulty_line` is the law that a text is of one list, or has one first faulty line; `one_rule_is_told` the law
//! that one rule and one trace are the least.
#![tactic(auto)]

mod check;
mod faults;
mod followers;
mod laws;
mod least;
mod links;
mod list;
mod places;
mod projection;
mod read;
#[cfg(test)]
mod read_tests;
#[cfg(test)]
mod tests;
mod words;

pub use check::{BrokenRule, check_rules};
pub use laws::{list_or_faulty_line, one_rule_is_told, told_traces_have_listed_symbols};
pub use list::{TraceList, TraceRefusal};
pub use projection::{in_projection, project};
pub use read::read_traces;
