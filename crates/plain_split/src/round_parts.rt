//! The parts of a network of rounds as tables.
ghost use Rattle.std.specs.Prelude.{◌≡◌, ℕ, ◌<◌, ◌^◌, [], length, IfOk};
ghost use Rattle.place_graph.specs.GraphTraces.{numbers_of};
ghost use Rattle.net_core.specs.declared.spec.NodeSpec.TheVariants.{Cmd};
ghost use Rattle.plain_split.specs.RoundsNet.{pow, act_after, burst_before};
ghost use Rattle.plain_split.specs.RoundsChart.{begins_process};
ghost use Rattle.plain_split.specs.RoundsParts.{begins_with_act, first_burst, parts_of};
ghost use Rattle.plain_split.specs.Mirror.RoundsTables.{parts_by, IsRoundGraph, IsTabled};

use crate::gives::{Give, all_gives};
use crate::joined::{all_outs, numbers};
use cmd_tree::{Command, Sym};
use net_core::{NodeSpec, directions};
use place_graph::{Start, WaitGraph};
use sqlite_items::Items;
use std::alloc::{AllocError, Global};

/// What a network of rounds is built from.
#[derive(Drop)]
pub struct RoundParts {
    pub spec: NodeSpec,
    /// There are 2^levels rounds, and as many acts.
    pub levels: u32,
    /// Whether the process begins with an act.
    pub opens: bool,
    pub burst: Vec<u32>,
    /// The outputs of each act.
    pub outs: Vec<Vec<u32>>,
    /// Of each symbol whether it is an output.
    pub sides: Vec<bool>,
    /// Of each symbol the outputs of acts that give it.
    pub gives: Vec<Vec<Give>>,
}

/// How often this power of 2 can be halved.
fn halvings(power: u32) -> u32
    ensures { (e : ℕ) → power ≡ pow e → result ≡ e }
{
    let mut rest = power;
    let mut count = 0;
    while rest > 1 {
        rest /= 2;
        count += 1;
    }
    count
}

/// Whether the process begins with an act.
fn opens(start: Start) -> bool
    ensures { result ≡ begins_with_act start }
{
    match start {
        Start::Wait(_) => false,
        Start::Act(_) => true,
    }
}

/// The symbols of the first burst.
fn burst(alloc: Global, bursts: &[Items<Sym>]) -> Result<Vec<u32>, AllocError>
    ensures { IfOk result (λ it. it.items ≡ numbers_of (first_burst bursts.now)) }
{
    match bursts {
        [] => Ok(Vec::new(alloc)),
        [burst, ..] => numbers(alloc, burst.as_slice()),
    }
}

impl RoundParts {
    /// The parts of the network of a command of one process in rounds, whose graph this is.
    pub fn new(alloc: Global, spec: Command, graph: &WaitGraph) -> Result<RoundParts, AllocError>
        requires { (e : ℕ) × IsRoundGraph (Cmd spec) graph.now e }
        ensures { (e : ℕ) → graph.now.waits ≡ pow e → IfOk result (λ it. IsTabled it × (parts_by it ≡ parts_of (Cmd spec) graph.now e)) }
    {
        let names = spec.names.len() as u32;
        let spec = NodeSpec::Cmd(spec);
        let outs = all_outs(alloc, graph.acts.as_slice())?;
        Ok(RoundParts {
            levels: halvings(graph.waits),
            opens: opens(graph.start),
            burst: burst(alloc, graph.bursts.as_slice())?,
            sides: directions(alloc, &spec)?,
            gives: all_gives(alloc, outs.as_slice(), names)?,
            outs,
            spec,
        })
    }

    /// How many rounds there are.
    pub fn rounds(&self) -> u32
        requires { IsTabled self.now }
        ensures { result ≡ pow self.now.levels }
    {
        self.outs.len() as u32
    }

    /// Whether the process begins with this act.
    pub fn begins(&self, act: u32) -> bool
        ensures { result ≡ begins_process (parts_by self.now) act }
    {
        self.opens && act == 0
    }

    /// The act that follows a round.
    pub fn act_after(&self, round: u32) -> u32
        requires tabled { IsTabled self.now }
        requires known { round < pow self.now.levels }
        ensures act { result ≡ act_after self.now.opens (pow self.now.levels) round }
        ensures low { result < pow self.now.levels }
    {
        if !self.opens {
            return round;
        }
        if round + 1 == self.rounds() {
            0
        } else {
            round + 1
        }
    }

    /// The round before an act.
    pub fn round_before(&self, act: u32) -> u32
        requires tabled { IsTabled self.now }
        requires known { act < pow self.now.levels }
        ensures round { result ≡ burst_before self.now.opens (pow self.now.levels) act }
        ensures low { result < pow self.now.levels }
    {
        if !self.opens {
            return act;
        }
        if act == 0 { self.rounds() - 1 } else { act - 1 }
    }
}
