//! Renamings by the numbers of names.
ghost use Rattle.std.specs.Prelude.{◌≡◌, List, map, IfOk, OnOk};
ghost use Rattle.cmd_expand.specs.Names.{AreIn};
ghost use Rattle.cmd_expand.specs.Pairs.{pair_of, renamed};
ghost use Rattle.cmd_expand.specs.Mirror.Tables.{Renames};
ghost use Rattle.cmd_expand.specs.declared.pairs.Pair.{Pair};

use cmd_rename::Table;
use cmd_text::{NameTable, Rename};
use std::alloc::{AllocError, Global};

/// The symbol `was` gets the name `fresh`, both by their numbers. The places are those in the text.
#[derive(Debug, Clone, Copy, PartialEq, Eq)]
pub struct Pair {
    pub fresh: u32,
    pub fresh_at: u32,
    pub was: u32,
    pub was_at: u32,
}

/// The pairs of a list of renamings, whose names are in the table.
pub fn number_pairs(
    alloc: Global,
    names: &mut NameTable,
    renames: &[Rename],
) -> Result<Vec<Pair>, AllocError>
    requires known { AreIn names.old renames.now }
    ensures same { OnOk result (names.new ≡ names.old) }
    ensures pairs { IfOk result (λ pairs. pairs.items ≡ map (pair_of names.old) renames.now) }
{
    let mut pairs = Vec::new(alloc);
    for rename in renames {
        let fresh = names.insert(alloc, rename.fresh.bytes())?;
        let was = names.insert(alloc, rename.was.bytes())?;
        pairs.push(Pair {
            fresh: symbol_of(fresh)?,
            fresh_at: rename.fresh_at,
            was: symbol_of(was)?,
            was_at: rename.was_at,
        })?;
    }
    Ok(pairs)
}

/// The symbol of a number. No memory holds as many names as would not fit.
fn symbol_of(number: usize) -> Result<u32, AllocError>
    ensures { IfOk result (λ symbol. symbol ≡ number) }
{
    if number > u32::MAX as usize {
        return Err(AllocError);
    }
    Ok(number as u32)
}

/// The table gets the new name of each symbol that the pairs rename: of several pairs with one old name, that of the
/// first.
pub fn set_pairs(table: &mut Table, pairs: &[Pair]) -> Result<(), AllocError>
    ensures { OnOk result (Renames table.new pairs.now) }
{
    table.clear();
    let mut left = pairs.len();
    while left > 0 {
        left -= 1;
        let pair = pairs[left];
        table.put(pair.was, pair.fresh)?;
    }
    Ok(())
}

/// The number of the name that a symbol has after the renaming.
pub fn rename_symbol(table: &Table, symbol: u32) -> u32
    ensures { (pairs : List Pair) → Renames table.now pairs → result ≡ renamed pairs symbol }
{
    match table.get(symbol) {
        Some(fresh) => fresh,
        None => symbol,
    }
}

/// The names that the symbols have after the renaming.
pub fn rename_symbols(alloc: Global, table: &Table, symbols: &[u32]) -> Result<Vec<u32>, AllocError>
    ensures { IfOk result (λ fresh. (pairs : List Pair) → Renames table.now pairs → fresh.items ≡ map (renamed pairs) symbols.now) }
{
    let mut fresh = Vec::new(alloc);
    for symbol in symbols {
        fresh.push(rename_symbol(table, *symbol))?;
    }
    Ok(fresh)
}
