//! How the graph of a process with one wait is joined: tables of what leads where.
ghost use Rattle.std.specs.Prelude.{◌≡◌, ℕ, ◌<◌, ◌^◌, [], map, length, get_or, IfOk};
ghost use Rattle.std.specs.List.{range_with_len};
ghost use Rattle.place_graph.specs.GraphTraces.{numbers_of};
ghost use Rattle.net_laws.proofs.Among.{Distinct};
ghost use Rattle.plain_split.specs.OneWait.{links, outs_at};
ghost use Rattle.plain_split.specs.Mirror.OneWaitTables.{links_by, tables_of};

use crate::rows::{Link, back_links, firsts, rows_of};
use cmd_tree::Sym;
use place_graph::{Act, Cross, Start, WaitGraph};
use sqlite_items::Items;
use std::alloc::{AllocError, Global};
use std::marker::Model;

/// From each act to the bursts that lead to it, in the order of the crossings.
fn act_links(alloc: Global, crosses: &[Cross]) -> Result<Vec<Link>, AllocError>
    ensures { IfOk result (λ it. it.items ≡ map (λ c. record { from = c.act; to = c.burst }) crosses.now) }
{
    crosses
        .iter()
        .map(|cross| Link {
            from: cross.act,
            to: cross.burst,
        })
        .collect(alloc)
}

/// From each burst to the acts that it leads to, in the order of the crossings.
fn burst_links(alloc: Global, crosses: &[Cross]) -> Result<Vec<Link>, AllocError>
    ensures { IfOk result (λ it. it.items ≡ map (λ c. record { from = c.burst; to = c.act }) crosses.now) }
{
    crosses
        .iter()
        .map(|cross| Link {
            from: cross.burst,
            to: cross.act,
        })
        .collect(alloc)
}

/// The bursts that lead to each act.
fn all_entries(alloc: Global, graph: &WaitGraph) -> Result<Vec<Vec<u32>>, AllocError>
    ensures { (names : ℕ) → IfOk result (λ it. map (λ es. es.items) it.items
        ≡ map (links graph.now names).entries (range_with_len 0 (length graph.now.acts))) }
{
    let links = act_links(alloc, graph.crosses.as_slice())?;
    let rows = rows_of(alloc, graph.acts.len(), links.as_slice())?;
    Ok(rows)
}

/// The acts that each burst leads to.
fn all_leads(alloc: Global, graph: &WaitGraph) -> Result<Vec<Vec<u32>>, AllocError>
    ensures { (names : ℕ) → IfOk result (λ it. map (λ ns. ns.items) it.items
        ≡ map (links graph.now names).leads (range_with_len 0 (length graph.now.bursts))) }
{
    let links = burst_links(alloc, graph.crosses.as_slice())?;
    let rows = rows_of(alloc, graph.bursts.len(), links.as_slice())?;
    Ok(rows)
}

/// The numbers of symbols.
pub fn numbers(alloc: Global, symbols: &[Sym]) -> Result<Vec<u32>, AllocError>
    ensures { IfOk result (λ it. it.items ≡ numbers_of symbols.now) }
{
    let mut all = Vec::new(alloc);
    for symbol in symbols {
        all.push(symbol.0)?;
    }
    Ok(all)
}

/// The symbols of each burst.
pub fn all_symbols(alloc: Global, bursts: &[Items<Sym>]) -> Result<Vec<Vec<u32>>, AllocError>
    ensures { IfOk result (λ it. map (λ xs. xs.items) it.items ≡ map numbers_of bursts.now) }
{
    let mut all = Vec::new(alloc);
    for burst in bursts {
        let found = numbers(alloc, burst.as_slice())?;
        all.push(found)?;
    }
    Ok(all)
}

/// The outputs of each act.
pub fn all_outs(alloc: Global, acts: &[Act]) -> Result<Vec<Vec<u32>>, AllocError>
    ensures { IfOk result (λ it. map (λ xs. xs.items) it.items ≡ map (λ y. numbers_of y.outs) acts.now) }
{
    let mut all = Vec::new(alloc);
    for act in acts {
        let found = numbers(alloc, act.outs.as_slice())?;
        all.push(found)?;
    }
    Ok(all)
}

/// The acts that give each symbol, where these are the outputs of the acts.
fn all_givers(
    alloc: Global,
    graph: &WaitGraph,
    outs: &[Vec<u32>],
    names: u32,
) -> Result<Vec<Vec<u32>>, AllocError>
    requires acts { length graph.now.acts < 2 ^ 32 }
    requires outs { map (λ v. v.items) outs.now ≡ map (λ y. numbers_of y.outs) graph.now.acts }
    requires once { (act : ℕ) → Distinct (outs_at graph.now act) }
    ensures { IfOk result (λ it. map (λ ns. ns.items) it.items ≡ map (links graph.now names).givers (range_with_len 0 names)) }
{
    let links = back_links(alloc, outs)?;
    let rows = rows_of(alloc, names as usize, links.as_slice())?;
    Ok(rows)
}

/// The burst of each symbol: the first that has it, or how many there are.
fn homes(
    alloc: Global,
    graph: &WaitGraph,
    symbols: &[Vec<u32>],
    names: u32,
) -> Result<Vec<u32>, AllocError>
    requires bursts { length graph.now.bursts < 2 ^ 32 }
    requires symbols { map (λ v. v.items) symbols.now ≡ map numbers_of graph.now.bursts }
    ensures { IfOk result (λ it. it.items ≡ map (links graph.now names).home (range_with_len 0 names)) }
{
    let links = back_links(alloc, symbols)?;
    let rows = rows_of(alloc, names as usize, links.as_slice())?;
    let all = firsts(alloc, rows.as_slice(), graph.bursts.len() as u32)?;
    Ok(all)
}

/// The tables of a graph.
#[derive(Drop)]
pub struct LinkTables {
    symbols: Vec<Vec<u32>>,
    leads: Vec<Vec<u32>>,
    entries: Vec<Vec<u32>>,
    outs: Vec<Vec<u32>>,
    homes: Vec<u32>,
    givers: Vec<Vec<u32>>,
    start: Start,
}

impl Model for LinkTables {
    ghost use Rattle.std.specs.Prelude.{map};
    ghost use Rattle.plain_split.specs.Mirror.OneWaitTables.{LinkTables};

    ghost Value = { LinkTables };

    ghost view = { λ t. record {
      symbols = map (λ v. v.items) t.symbols.items;
      leads = map (λ v. v.items) t.leads.items;
      entries = map (λ v. v.items) t.entries.items;
      outs = map (λ v. v.items) t.outs.items;
      homes = t.homes.items;
      givers = map (λ v. v.items) t.givers.items;
      start = t.start;
    } };
}

/// A row of a table, or none past its end.
fn row(table: &[Vec<u32>], number: u32) -> &[u32]
    ensures { result.now ≡ get_or (map (λ v. v.items) table.now) number [] }
{
    match table.get(number as usize) {
        Some(row) => row.as_slice(),
        None => &[],
    }
}

impl LinkTables {
    /// The tables of the graph, for a command of so many symbols.
    pub fn new(alloc: Global, graph: &WaitGraph, names: u32) -> Result<LinkTables, AllocError>
        requires acts { length graph.now.acts < 2 ^ 32 }
        requires bursts { length graph.now.bursts < 2 ^ 32 }
        requires once { (act : ℕ) → Distinct (outs_at graph.now act) }
        ensures { IfOk result (λ it. it ≡ tables_of graph.now names) }
    {
        let symbols = all_symbols(alloc, graph.bursts.as_slice())?;
        let outs = all_outs(alloc, graph.acts.as_slice())?;
        Ok(LinkTables {
            leads: all_leads(alloc, graph)?,
            entries: all_entries(alloc, graph)?,
            homes: homes(alloc, graph, symbols.as_slice(), names)?,
            givers: all_givers(alloc, graph, outs.as_slice(), names)?,
            start: graph.start,
            symbols,
            outs,
        })
    }

    /// The burst of a symbol.
    pub fn home(&self, symbol: u32) -> u32
        requires { length self.now.symbols < 2 ^ 32 }
        ensures { result ≡ (links_by self.now).home symbol }
    {
        match self.homes.get(symbol as usize) {
            Some(burst) => *burst,
            None => self.symbols.len() as u32,
        }
    }

    /// The symbols of a burst.
    pub fn symbols(&self, burst: u32) -> &[u32]
        ensures { result.now ≡ (links_by self.now).symbols burst }
    {
        row(&self.symbols, burst)
    }

    /// The acts that a burst leads to.
    pub fn leads(&self, burst: u32) -> &[u32]
        ensures { result.now ≡ (links_by self.now).leads burst }
    {
        row(&self.leads, burst)
    }

    /// The bursts that lead to an act.
    pub fn entries(&self, act: u32) -> &[u32]
        ensures { result.now ≡ (links_by self.now).entries act }
    {
        row(&self.entries, act)
    }

    /// Whether the process begins at an act.
    pub fn begins(&self, act: u32) -> bool
        ensures { result ≡ (links_by self.now).begins act }
    {
        match self.start {
            Start::Wait(_) => false,
            Start::Act(first) => act == first,
        }
    }

    /// The outputs of an act.
    pub fn outs(&self, act: u32) -> &[u32]
        ensures { result.now ≡ (links_by self.now).outs act }
    {
        row(&self.outs, act)
    }

    /// The acts that give a symbol.
    pub fn givers(&self, symbol: u32) -> &[u32]
        ensures { result.now ≡ (links_by self.now).givers symbol }
    {
        row(&self.givers, symbol)
    }

    /// How many bursts there are.
    pub fn bursts(&self) -> usize
        ensures { result ≡ (links_by self.now).bursts }
    {
        self.symbols.len()
    }

    /// How many acts there are.
    pub fn acts(&self) -> usize
        ensures { result ≡ (links_by self.now).acts }
    {
        self.entries.len()
    }

    /// How many symbols there are.
    pub fn names(&self) -> usize
        ensures { result ≡ (links_by self.now).names }
    {
        self.homes.len()
    }
}
