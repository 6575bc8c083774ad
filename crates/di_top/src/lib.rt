//! The top call of the program: words in, bytes out.
#![tactic(auto)]

mod check_form;
mod command;
mod compile_form;
mod count_form;
mod drive_form;
mod keep;
mod laws;
mod load;
mod names;
mod outcome;
mod plan;
mod rules_form;
mod run_form;
mod say;
mod texts;
mod top;
mod words;

pub use laws::{compile_law, forms_law};
pub use outcome::{Outcome, Why};
pub use top::run;
