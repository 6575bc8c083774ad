//! Commands under other symbols: trees with their symbols renamed, and symbols in order of first occurrence.
//!
//! `rename_proc` copies a process and gives each symbol the number that a table has for it, all at once. `list_symbols`
//! puts the symbols of a process, each once, behind those that are listed, and `symbol_names` copies the names of some
//! symbols. `specs/` says what a process under other
//! symbols is and which symbols processes have.
#![tactic(auto)]

mod names;
mod rename;
mod symbols;
mod table;

pub use names::symbol_names;
pub use rename::rename_proc;
pub use symbols::{list_symbol, proc_symbols};
pub use table::Table;
