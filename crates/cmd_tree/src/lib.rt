//! Commands of trace theory as trees: names, symbols, bursts, choices, sequences, processes.
//!
//! A command is a list of processes that run woven with one another (Ebergen, Translating Programs into
//! Delay-Insensitive Circuits, 1989). `specs/` says which traces a command has.
#![tactic(auto)]

mod command;
mod copy;
mod laws;
mod limits;
mod marks;
mod measure;
mod name;
mod same;
mod tree;

pub use command::Command;
pub use copy::copy_command;
pub use laws::{rounds_by_counts, traces_are_closed, traces_are_steps};
pub use limits::{
    MAX_BIG, MAX_COMPONENTS, MAX_DRIVEN_STEPS, MAX_FILE_BYTES, MAX_NAME_BYTES, MAX_NETLIST_BYTES,
    MAX_NETLIST_WIRES, MAX_OPEN_BRACKETS, MAX_PLACES, MAX_PROCESSES, MAX_SYMBOLS,
};
pub use marks::all_marks;
pub use measure::{depth, item_places, places, places_in_all, seq_places};
pub use name::{Name, NameSet};
pub use same::same_command;
pub use tree::{Dir, Item, Mark, Proc, Seq, Sym};
