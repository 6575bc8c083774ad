//! How the processes of a command are tied to its symbols, as tables.
ghost use Rattle.std.specs.Prelude.{◌≡◌, ◌<◌, ◌^◌, [], false, map, length, get_or, IfOk};
ghost use Rattle.std.specs.List.{AllByRecursion};
ghost use Rattle.cmd_tree.specs.Limits.{marks_of_proc};
ghost use Rattle.cmd_rename.specs.Symbols.{symbols_in};
ghost use Rattle.di_grammar.specs.Sums.{grants};
ghost use Rattle.weave_split.specs.WeaveChart.{head};
ghost use Rattle.weave_split.specs.Mirror.TieTables.{ties_by, tables_of};

use crate::grants::all_grants;
use crate::rows::{all_begin, all_marked, all_once, all_symbols, havers};
use cmd_tree::Proc;
use std::alloc::{AllocError, Global};
use std::marker::Model;

/// A row or a mark for each symbol and each process.
#[derive(Drop)]
pub struct TieTables {
    outs: Vec<bool>,
    grants: Vec<bool>,
    symbols: Vec<Vec<u32>>,
    takers: Vec<Vec<u32>>,
    givers: Vec<Vec<u32>>,
    owners: Vec<Vec<u32>>,
    requests: Vec<Vec<u32>>,
    returns: Vec<Vec<u32>>,
    lends: Vec<bool>,
}

impl Model for TieTables {
    ghost use Rattle.std.specs.Prelude.{map};
    ghost use Rattle.weave_split.specs.Mirror.TieTables.{TieTables};

    ghost Value = { TieTables };

    ghost view = { λ t. record {
      outs = t.outs.items;
      grants = t.grants.items;
      symbols = map (λ v. v.items) t.symbols.items;
      takers = map (λ v. v.items) t.takers.items;
      givers = map (λ v. v.items) t.givers.items;
      owners = map (λ v. v.items) t.owners.items;
      requests = map (λ v. v.items) t.requests.items;
      returns = map (λ v. v.items) t.returns.items;
      lends = t.lends.items;
    } };
}

/// A row of a table, or none past its end.
fn row(table: &[Vec<u32>], number: u32) -> &[u32]
    ensures { result.now ≡ get_or (map (λ v. v.items) table.now) number [] }
{
    match table.get(number as usize) {
        Some(row) => row.as_slice(),
        None => &[],
    }
}

/// A mark of a table, or `false` past its end.
fn mark(table: &[bool], number: u32) -> bool
    ensures { result ≡ get_or table.now number false }
{
    match table.get(number as usize) {
        Some(mark) => *mark,
        None => false,
    }
}

impl TieTables {
    /// The tables of these processes, where `outs` says of each symbol whether it is an output.
    pub fn new(alloc: Global, procs: &[Proc], outs: Vec<bool>) -> Result<TieTables, AllocError>
        requires known { AllByRecursion (λ p. AllByRecursion (λ a. a < length outs.items) (symbols_in (marks_of_proc p))) procs.now }
        requires few { length procs.now < 2 ^ 32 }
        ensures { IfOk result (λ it. it ≡ tables_of (map (λ p. symbols_in (marks_of_proc p)) procs.now) outs.items (map grants procs.now)) }
    {
        let rows = all_symbols(alloc, procs)?;
        let grants = all_grants(alloc, procs)?;
        let symbols = all_once(alloc, rows.as_slice())?;
        let takers = havers(alloc, symbols.as_slice(), outs.len())?;
        let givers = all_marked(alloc, takers.as_slice(), grants.as_slice(), false)?;
        let owners = all_marked(alloc, takers.as_slice(), grants.as_slice(), true)?;
        let requests = all_marked(alloc, rows.as_slice(), outs.as_slice(), true)?;
        let inputs = all_marked(alloc, rows.as_slice(), outs.as_slice(), false)?;
        let returns = all_once(alloc, inputs.as_slice())?;
        let lends = all_begin(alloc, rows.as_slice(), outs.as_slice())?;
        Ok(TieTables {
            outs,
            grants,
            symbols,
            takers,
            givers,
            owners,
            requests,
            returns,
            lends,
        })
    }

    /// Whether a symbol is an output.
    pub fn is_out(&self, symbol: u32) -> bool
        ensures { result ≡ (ties_by self.now).out symbol }
    {
        mark(self.outs.as_slice(), symbol)
    }

    /// Whether a process is a grant.
    pub fn is_grant(&self, process: u32) -> bool
        ensures { result ≡ (ties_by self.now).grants process }
    {
        mark(self.grants.as_slice(), process)
    }

    /// The symbols of a process.
    pub fn symbols(&self, process: u32) -> &[u32]
        ensures { result.now ≡ (ties_by self.now).symbols process }
    {
        row(&self.symbols, process)
    }

    /// The processes that have a symbol.
    pub fn takers(&self, symbol: u32) -> &[u32]
        ensures { result.now ≡ (ties_by self.now).takers symbol }
    {
        row(&self.takers, symbol)
    }

    /// Those of them that are no grants.
    pub fn givers(&self, symbol: u32) -> &[u32]
        ensures { result.now ≡ (ties_by self.now).givers symbol }
    {
        row(&self.givers, symbol)
    }

    /// The grant that gives a symbol, if one does.
    pub fn owner(&self, symbol: u32) -> Option<u32>
        ensures { result ≡ (ties_by self.now).owner symbol }
    {
        match row(&self.owners, symbol) {
            [] => None,
            [owner, ..] => Some(*owner),
        }
    }

    /// The symbols that a grant gives.
    pub fn requests(&self, process: u32) -> &[u32]
        ensures { result.now ≡ (ties_by self.now).requests process }
    {
        row(&self.requests, process)
    }

    /// The symbols by which a grant is asked or given back.
    pub fn returns(&self, process: u32) -> &[u32]
        ensures { result.now ≡ (ties_by self.now).returns process }
    {
        row(&self.returns, process)
    }

    /// Whether a grant may give a symbol at the start.
    pub fn lends(&self, process: u32) -> bool
        ensures { result ≡ (ties_by self.now).lends process }
    {
        mark(self.lends.as_slice(), process)
    }

    /// How many processes there are.
    pub fn processes(&self) -> usize
        ensures { result ≡ (ties_by self.now).processes }
    {
        self.symbols.len()
    }

    /// How many symbols there are.
    pub fn names(&self) -> usize
        ensures { result ≡ (ties_by self.now).names }
    {
        self.outs.len()
    }
}
