//! What is counted of a command, part by part.
use crate::counts::Sort;
use sqlite_items::Items;

/// What is counted.
#[derive(Drop)]
pub enum Part {
    /// One component.
    One(Sort),
    /// A FORK, a C or a MERGE of this width; where it is less than two there is only the wire.
    Wide(Sort, usize),
    /// A DW of so many rows and columns, with these crossings.
    Wait(usize, usize, Items<(u32, u32)>),
    /// A SEQ of so many requests.
    Sequencer(usize),
}
