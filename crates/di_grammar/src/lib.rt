//! The grammar of delay-insensitive commands: which commands are admitted, and where a command
//! breaks a rule. `specs/` has the rules, a file for each.
#![tactic(auto)]

mod alternation;
mod answer;
mod breach;
mod choices;
mod clash;
mod directions;
mod even_bursts;
mod granted;
mod grants;
mod homes;
mod laws;
mod overlaps;
mod rule_laws;
mod spots;
mod symbols;
mod twins;

pub use answer::{Broken, check};
pub use grants::is_grant;
pub use laws::{grants_law, processes_law, sums_law, weave_law};
pub use rule_laws::{answers_law, rules_law};
