//! Graphs by numbers.
use cmd_tree::Sym;
use sqlite_items::Items;

/// The graph of a process by numbers. Waits are numbered by the least places of the bursts that are taken
/// there, bursts by their first occurrence, and acts in text order. Crossings are in the order of wait, then
/// burst.
#[derive(Drop)]
pub struct WaitGraph {
    pub waits: u32,
    pub bursts: Items<Items<Sym>>,
    pub crosses: Items<Cross>,
    pub acts: Items<Act>,
    pub start: Start,
}

/// At the wait the burst is taken, and the act follows.
#[derive(Debug, Clone, Copy, PartialEq, Eq, PartialOrd, Ord)]
pub struct Cross {
    pub wait: u32,
    pub burst: u32,
    pub act: u32,
}

/// The outputs are given, and then the process is at the wait.
#[derive(Drop)]
pub struct Act {
    pub outs: Items<Sym>,
    pub exit: Option<u32>,
}

/// Where a process begins.
#[derive(Debug, Clone, Copy, PartialEq, Eq)]
pub enum Start {
    Wait(u32),
    Act(u32),
}
