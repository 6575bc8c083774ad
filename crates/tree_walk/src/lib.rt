//! One walk over the tree of a process.
//!
//! `walk` takes a visitor past a process from the left to the right. It hands out each burst with its place, each
//! meeting of neighbours, and each choice. Places are symbol places, counted from 1 in each process; processes are
//! counted from 1. `specs/` says what the bursts, the neighbours and the choices of a process are.
//!
//! A visitor says by a relation, `knows`, what it knows after some processes and a part of the next one. Each of its
//! methods keeps the relation by one stop, and so `walk` keeps it by all stops of a process. `walk_firsts` goes past
//! the first bursts of a choice alone. `Table` has a number for each symbol, for visitors that must remember some.
#![tactic(auto)]

mod course;
mod edges;
mod first_bursts;
mod table;
mod visit;

pub use course::walk;
pub use edges::{ByDirection, Edges, dir_of};
pub use first_bursts::{Choice, VisitFirst, walk_firsts};
pub use table::Table;
pub use visit::Visit;
