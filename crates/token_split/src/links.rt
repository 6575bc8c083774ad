//! How the graph of a process by a token is joined: tables of what leads where, each made in one pass.
ghost use Rattle.std.specs.Prelude.{◌≡◌, ℕ, ◌+◌, ◌<◌, ◌^◌, nat_eq, [], map, filter, length, get_or, ◌∷◌, ◌++◌, replicate, None, IfOk, OnOk, if◌then◌else◌};
ghost use Rattle.std.specs.List.{range_with_len, position_or_len, AllByRecursion};
ghost use Rattle.cmd_tree.specs.Lists.{is_in};
ghost use Rattle.net_laws.proofs.Among.{Distinct};
ghost use Rattle.token_split.specs.TokenChart.{listed};
ghost use Rattle.token_split.specs.Mirror.TokenTables.{crossing_at, links_by, part_in, tables_of, IsTokenGraph};

use place_graph::{Act, Cross, Start, WaitGraph};
use plain_split::{all_outs, all_symbols};
use shape_parts::{ShapePart, parts};
use std::alloc::{AllocError, Global};
use std::marker::Model;

/// Notes the burst of its symbols.
fn set_homes(homes: &mut [u32], symbols: &[u32], burst: u32)
    requires { AllByRecursion (λ a. a < length homes.old) symbols.now }
    ensures { (a : ℕ) → a < length homes.old → get_or homes.new a 0 ≡ (if is_in a symbols.now then burst else get_or homes.old a 0) }
{
    for symbol in symbols {
        homes[*symbol as usize] = burst;
    }
}

/// The burst of each symbol: the first that has it, or how many there are.
fn homes(alloc: Global, bursts: &[Vec<u32>], names: u32) -> Result<Vec<u32>, AllocError>
    requires known { AllByRecursion (λ v. AllByRecursion (λ a. a < names) v.items) bursts.now }
    requires few { length bursts.now < 2 ^ 32 }
    ensures { IfOk result (λ it. it.items ≡ map (λ a. position_or_len (is_in a) (map (λ v. v.items) bursts.now)) (range_with_len 0 names)) }
{
    let mut homes = vec![in alloc; bursts.len() as u32; names as usize]?;
    for count in 0..bursts.len() {
        let burst = bursts.len() - 1 - count;
        set_homes(homes.as_mut_slice(), bursts[burst].as_slice(), burst as u32);
    }
    Ok(homes)
}

fn no_crossings(alloc: Global, many: u32) -> Result<Vec<Vec<Cross>>, AllocError>
    ensures { IfOk result (λ it. map (λ v. v.items) it.items ≡ replicate many []) }
{
    let mut rows = Vec::new(alloc);
    for _ in 0..many {
        rows.push(Vec::new(alloc))?;
    }
    Ok(rows)
}

/// The crossings that call each act.
fn entries(alloc: Global, crosses: &[Cross], acts: u32) -> Result<Vec<Vec<Cross>>, AllocError>
    ensures { IfOk result (λ it. map (λ v. v.items) it.items ≡ map (λ n. filter (λ c. nat_eq c.act n) crosses.now) (range_with_len 0 acts)) }
{
    let mut rows = no_crossings(alloc, acts)?;
    for cross in crosses {
        if cross.act < acts {
            rows[cross.act as usize].push(*cross)?;
        }
    }
    Ok(rows)
}

/// The wait that each act leads to, if it leads to one.
fn exits(alloc: Global, acts: &[Act]) -> Result<Vec<Vec<u32>>, AllocError>
    ensures { IfOk result (λ it. map (λ v. v.items) it.items ≡ map (λ y. listed y.exit) acts.now) }
{
    let mut rows = Vec::new(alloc);
    for act in acts {
        rows.push(one_exit(alloc, act.exit)?)?;
    }
    Ok(rows)
}

fn one_exit(alloc: Global, exit: Option<u32>) -> Result<Vec<u32>, AllocError>
    ensures { IfOk result (λ it. it.items ≡ listed exit) }
{
    match exit {
        None => Ok(Vec::new(alloc)),
        Some(wait) => {
            let row = vec![in alloc; wait]?;
            Ok(row)
        }
    }
}

fn no_acts(alloc: Global, many: u32) -> Result<Vec<Vec<u32>>, AllocError>
    ensures { IfOk result (λ it. map (λ v. v.items) it.items ≡ replicate many []) }
{
    let mut rows = Vec::new(alloc);
    for _ in 0..many {
        rows.push(Vec::new(alloc))?;
    }
    Ok(rows)
}

/// The acts that lead to each wait.
fn returns(alloc: Global, acts: &[Act], waits: u32) -> Result<Vec<Vec<u32>>, AllocError>
    requires { length acts.now < 2 ^ 32 }
    ensures { IfOk result (λ it. map (λ v. v.items) it.items
        ≡ map (λ w. filter (λ n. is_in w (listed (get_or (map (λ y. y.exit) acts.now) n None))) (range_with_len 0 (length acts.now))) (range_with_len 0 waits)) }
{
    let mut rows = no_acts(alloc, waits)?;
    for (number, act) in acts.iter().enumerate() {
        match act.exit {
            Some(wait) => {
                if wait < waits {
                    rows[wait as usize].push(number as u32)?;
                }
            }
            None => {}
        }
    }
    Ok(rows)
}

/// Adds an act to the rows of its outputs.
fn add_giver(rows: &mut [Vec<u32>], act: u32, outs: &[u32]) -> Result<(), AllocError>
    requires known { AllByRecursion (λ a. a < length rows.old) outs.now }
    requires once { Distinct outs.now }
    ensures len { length rows.new ≡ length rows.old }
    ensures rows { OnOk result ((a : ℕ) → a < length rows.old
        → get_or (map (λ v. v.items) rows.new) a [] ≡ get_or (map (λ v. v.items) rows.old) a [] ++ (if is_in a outs.now then act ∷ [] else [])) }
{
    for symbol in outs {
        rows[*symbol as usize].push(act)?;
    }
    Ok(())
}

/// The acts that give each symbol.
fn givers(alloc: Global, outs: &[Vec<u32>], names: u32) -> Result<Vec<Vec<u32>>, AllocError>
    requires known { AllByRecursion (λ v. AllByRecursion (λ a. a < names) v.items) outs.now }
    requires once { AllByRecursion (λ v. Distinct v.items) outs.now }
    requires few { length outs.now < 2 ^ 32 }
    ensures { IfOk result (λ it. map (λ v. v.items) it.items
        ≡ map (λ a. filter (λ n. is_in a (get_or (map (λ v. v.items) outs.now) n [])) (range_with_len 0 (length outs.now))) (range_with_len 0 names)) }
{
    let mut rows = no_acts(alloc, names)?;
    for (act, symbols) in outs.iter().enumerate() {
        add_giver(rows.as_mut_slice(), act as u32, symbols.as_slice())?;
    }
    Ok(rows)
}

/// The waits and bursts of crossings.
fn pairs(alloc: Global, crosses: &[Cross]) -> Result<Vec<(u32, u32)>, AllocError>
    ensures { IfOk result (λ it. it.items ≡ map (λ c. (c.wait, c.burst)) crosses.now) }
{
    crosses
        .iter()
        .map(|cross| (cross.wait, cross.burst))
        .collect(alloc)
}

/// The crossings at these places.
fn crossings_at(alloc: Global, crosses: &[Cross], places: &[u32]) -> Result<Vec<Cross>, AllocError>
    requires { AllByRecursion (λ n. n < length crosses.now) places.now }
    ensures { IfOk result (λ it. it.items ≡ map (crossing_at crosses.now) places.now) }
{
    let mut found = Vec::new(alloc);
    for place in places {
        found.push(crosses[*place as usize])?;
    }
    Ok(found)
}

/// The crossings of each part.
fn meets(
    alloc: Global,
    crosses: &[Cross],
    parts: &[ShapePart],
) -> Result<Vec<Vec<Cross>>, AllocError>
    requires { AllByRecursion (λ p. AllByRecursion (λ n. n < length crosses.now) p.places) parts.now }
    ensures { IfOk result (λ it. map (λ v. v.items) it.items ≡ map (λ p. map (crossing_at crosses.now) p.places) parts.now) }
{
    let mut rows = Vec::new(alloc);
    for part in parts {
        rows.push(crossings_at(alloc, crosses, part.places.as_slice())?)?;
    }
    Ok(rows)
}

/// The tables of a graph.
#[derive(Drop)]
pub struct LinkTables {
    symbols: Vec<Vec<u32>>,
    homes: Vec<u32>,
    entries: Vec<Vec<Cross>>,
    outs: Vec<Vec<u32>>,
    exits: Vec<Vec<u32>>,
    returns: Vec<Vec<u32>>,
    givers: Vec<Vec<u32>>,
    parts: Vec<ShapePart>,
    meets: Vec<Vec<Cross>>,
    start: Start,
}

impl Model for LinkTables {
    ghost use Rattle.std.specs.Prelude.{map};
    ghost use Rattle.token_split.specs.Mirror.TokenTables.{LinkTables};

    ghost Value = { LinkTables };

    ghost view = { λ t. record {
      symbols = map (λ v. v.items) t.symbols.items;
      homes = t.homes.items;
      entries = map (λ v. v.items) t.entries.items;
      outs = map (λ v. v.items) t.outs.items;
      exits = map (λ v. v.items) t.exits.items;
      returns = map (λ v. v.items) t.returns.items;
      givers = map (λ v. v.items) t.givers.items;
      parts = t.parts.items;
      meets = map (λ v. v.items) t.meets.items;
      start = t.start;
    } };
}

/// A row of a table, or none past its end.
fn row(table: &[Vec<u32>], number: u32) -> &[u32]
    ensures { result.now ≡ get_or (map (λ v. v.items) table.now) number [] }
{
    match table.get(number as usize) {
        Some(row) => row.as_slice(),
        None => &[],
    }
}

/// A row of a table of crossings, or none past its end.
fn crossings(table: &[Vec<Cross>], number: u32) -> &[Cross]
    ensures { result.now ≡ get_or (map (λ v. v.items) table.now) number [] }
{
    match table.get(number as usize) {
        Some(row) => row.as_slice(),
        None => &[],
    }
}

impl LinkTables {
    /// The tables of the graph, for a command of so many symbols.
    pub fn new(alloc: Global, graph: &WaitGraph, names: u32) -> Result<LinkTables, AllocError>
        requires { IsTokenGraph graph.now names }
        ensures { IfOk result (λ it. it ≡ tables_of graph.now names) }
    {
        let crosses = graph.crosses.as_slice();
        let acts = graph.acts.as_slice();
        let symbols = all_symbols(alloc, graph.bursts.as_slice())?;
        let outs = all_outs(alloc, acts)?;
        let pairs = pairs(alloc, crosses)?;
        let parts = parts(alloc, graph.waits, symbols.len() as u32, pairs.as_slice())?;
        let meets = meets(alloc, crosses, parts.as_slice())?;
        Ok(LinkTables {
            homes: homes(alloc, symbols.as_slice(), names)?,
            entries: entries(alloc, crosses, acts.len() as u32)?,
            exits: exits(alloc, acts)?,
            returns: returns(alloc, acts, graph.waits)?,
            givers: givers(alloc, outs.as_slice(), names)?,
            symbols,
            outs,
            parts,
            meets,
            start: graph.start,
        })
    }

    /// The burst of a symbol.
    pub fn home(&self, symbol: u32) -> u32
        requires { length self.now.symbols < 2 ^ 32 }
        ensures { result ≡ (links_by self.now).home symbol }
    {
        match self.homes.get(symbol as usize) {
            Some(burst) => *burst,
            None => self.symbols.len() as u32,
        }
    }

    /// The symbols of a burst.
    pub fn symbols(&self, burst: u32) -> &[u32]
        ensures { result.now ≡ (links_by self.now).symbols burst }
    {
        row(&self.symbols, burst)
    }

    /// The crossings that call an act.
    pub fn entries(&self, act: u32) -> &[Cross]
        ensures { result.now ≡ (links_by self.now).entries act }
    {
        crossings(&self.entries, act)
    }

    /// Whether the process begins at an act.
    pub fn begins(&self, act: u32) -> bool
        ensures { result ≡ (links_by self.now).begins act }
    {
        match self.start {
            Start::Wait(_) => false,
            Start::Act(first) => act == first,
        }
    }

    /// The outputs of an act.
    pub fn outs(&self, act: u32) -> &[u32]
        ensures { result.now ≡ (links_by self.now).outs act }
    {
        row(&self.outs, act)
    }

    /// The wait that an act leads to, if it leads to one.
    pub fn exits(&self, act: u32) -> &[u32]
        ensures { result.now ≡ (links_by self.now).exits act }
    {
        row(&self.exits, act)
    }

    /// The acts that lead to a wait.
    pub fn returns(&self, wait: u32) -> &[u32]
        ensures { result.now ≡ (links_by self.now).returns wait }
    {
        row(&self.returns, wait)
    }

    /// Whether the process begins at a wait.
    pub fn opens(&self, wait: u32) -> bool
        ensures { result ≡ (links_by self.now).opens wait }
    {
        match self.start {
            Start::Wait(first) => wait == first,
            Start::Act(_) => false,
        }
    }

    /// The acts that give a symbol.
    pub fn givers(&self, symbol: u32) -> &[u32]
        ensures { result.now ≡ (links_by self.now).givers symbol }
    {
        row(&self.givers, symbol)
    }

    /// The waits of a part of the crossings.
    pub fn rows(&self, part: u32) -> &[u32]
        ensures { result.now ≡ (links_by self.now).rows part }
    {
        match self.parts.get(part as usize) {
            Some(part) => part.rows.as_slice(),
            None => &[],
        }
    }

    /// The bursts of a part of the crossings.
    pub fn columns(&self, part: u32) -> &[u32]
        ensures { result.now ≡ (links_by self.now).columns part }
    {
        match self.parts.get(part as usize) {
            Some(part) => part.columns.as_slice(),
            None => &[],
        }
    }

    /// The crossings of a part by its own rows and columns.
    pub fn local(&self, part: u32) -> &[(u32, u32)]
        ensures { result.now ≡ (part_in self.now part).cross }
    {
        match self.parts.get(part as usize) {
            Some(part) => part.cross.as_slice(),
            None => &[],
        }
    }

    /// The crossings of a part.
    pub fn meets(&self, part: u32) -> &[Cross]
        ensures { result.now ≡ (links_by self.now).meets part }
    {
        crossings(&self.meets, part)
    }

    /// How many bursts there are.
    pub fn bursts(&self) -> usize
        ensures { result ≡ (links_by self.now).bursts }
    {
        self.symbols.len()
    }

    /// How many parts of the crossings there are.
    pub fn parts(&self) -> usize
        ensures { result ≡ length self.now.parts }
    {
        self.parts.len()
    }

    /// How many acts there are.
    pub fn acts(&self) -> usize
        ensures { result ≡ (links_by self.now).acts }
    {
        self.outs.len()
    }

    /// How many waits there are.
    pub fn waits(&self) -> usize
        ensures { result ≡ (links_by self.now).waits }
    {
        self.returns.len()
    }

    /// How many symbols there are.
    pub fn names(&self) -> usize
        ensures { result ≡ (links_by self.now).names }
    {
        self.homes.len()
    }
}
