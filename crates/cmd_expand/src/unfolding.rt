//! The processes of a line, with their symbols numbered.
ghost use Rattle.std.specs.Prelude.{◌≡◌, ℕ, ◌<◌, ◌≤◌, List, map, length, get_or, [], ◌++◌, IfOk, OnOk};
ghost use Rattle.std.specs.List.{AllByRecursion};
ghost use Rattle.cmd_tree.specs.declared.tree.Proc.{Proc};
ghost use Rattle.cmd_rename.specs.Renaming.{ren_all};
ghost use Rattle.cmd_rename.specs.Table.{number_by};
ghost use Rattle.cmd_expand.specs.declared.pairs.Pair.{Pair};
ghost use Rattle.cmd_expand.specs.Pairs.{renamed};
ghost use Rattle.cmd_expand.specs.Mirror.Tables.{Renames};
ghost use Rattle.cmd_expand.specs.Mirror.Plan.{assigned, procs_of_part, IsBelow, AreBelow, AreLines};
ghost use Rattle.cmd_expand.specs.Mirror.Pieces.{numbered_by, procs_of_piece, procs_of_stack, IsPieceBelow};

use crate::pairs::{rename_symbol, set_pairs};
use crate::plan::{Line, Part, Tables};
use cmd_rename::{Table, rename_proc};
use cmd_tree::Proc;
use sqlite_items::Items;
use std::alloc::{AllocError, Global};

/// A process that is done, or the number of a line and the numbers of its symbols.
#[derive(Drop)]
enum Piece {
    Done(Proc),
    Rest { of: usize, numbers: Vec<u32> },
}

/// The table gets the number of each of these symbols.
fn number_symbols(table: &mut Table, symbols: &[u32], numbers: &[u32]) -> Result<(), AllocError>
    ensures { OnOk result ((a : ℕ) → number_by table.new a ≡ assigned symbols.now numbers.now a) }
{
    table.clear();
    let mut left = symbols.len().min(numbers.len());
    while left > 0 {
        left -= 1;
        table.put(symbols[left], numbers[left])?;
    }
    Ok(())
}

/// The number that a table has for a symbol, or 0.
fn number_of(numbers: &Table, symbol: u32) -> u32
    ensures { result ≡ number_by numbers.now symbol }
{
    match numbers.get(symbol) {
        Some(number) => number,
        None => 0,
    }
}

/// The number of the name that each symbol has after a renaming.
fn renamed_numbers(
    alloc: Global,
    numbers: &Table,
    fresh: &Table,
    symbols: &[u32],
) -> Result<Vec<u32>, AllocError>
    ensures { IfOk result (λ found. (pairs : List Pair) → Renames fresh.now pairs →
        found.items ≡ map (λ a. number_by numbers.now (renamed pairs a)) symbols.now) }
{
    let mut found = Vec::new(alloc);
    for symbol in symbols {
        found.push(number_of(numbers, rename_symbol(fresh, *symbol)))?;
    }
    Ok(found)
}

/// What a part becomes, where `tables.symbols` has the numbers of the symbols of its line.
fn piece_of(
    alloc: Global,
    lines: &[Line],
    part: &Part,
    tables: &mut Tables,
) -> Result<Piece, AllocError>
    requires lines { AreBelow lines.now }
    requires part { IsBelow (length lines.now) part.now }
    ensures symbols { tables.new.symbols ≡ tables.old.symbols }
    ensures below { IfOk result (λ piece. (n : ℕ) → IsBelow n part.now → IsPieceBelow n piece) }
    ensures piece { IfOk result (λ piece. (ms : List (List Proc)) → AreLines ms lines.now →
        procs_of_piece ms piece ≡ ren_all (number_by tables.old.symbols) (procs_of_part ms part.now)) }
{
    match part {
        Part::Own(process) => {
            let process = rename_proc(alloc, process, &tables.symbols)?;
            Ok(Piece::Done(process))
        }
        Part::Use { of, pairs } => {
            let line = &lines[*of];
            set_pairs(&mut tables.fresh, pairs.as_slice())?;
            let numbers = renamed_numbers(
                alloc,
                &tables.symbols,
                &tables.fresh,
                line.symbols.as_slice(),
            )?;
            Ok(Piece::Rest {
                of: line.shape,
                numbers,
            })
        }
    }
}

/// What the parts of a line become, where its symbols have these numbers: the last part comes first.
fn pieces_of(
    alloc: Global,
    lines: &[Line],
    of: usize,
    numbers: &[u32],
    tables: &mut Tables,
) -> Result<Vec<Piece>, AllocError>
    requires lines { AreBelow lines.now }
    requires inside { of < length lines.now }
    ensures below { IfOk result (λ pieces. AllByRecursion (IsPieceBelow of) pieces.items) }
    ensures pieces { IfOk result (λ pieces. (ms : List (List Proc)) → AreLines ms lines.now →
        procs_of_stack ms pieces.items ≡ numbered_by (get_or ms of []) numbers.now) }
{
    let line = &lines[of];
    number_symbols(&mut tables.symbols, line.symbols.as_slice(), numbers)?;
    let mut pieces = Vec::new(alloc);
    let mut left = line.parts.len();
    while left > 0 {
        left -= 1;
        let part = &line.parts[left];
        let piece = piece_of(alloc, lines, part, tables)?;
        pieces.push(piece)?;
    }
    Ok(pieces)
}

/// Puts the processes of a line behind the others, where its symbols have these numbers.
#[cycle(unfold)]
pub fn unfold(
    alloc: Global,
    lines: &[Line],
    of: usize,
    numbers: &[u32],
    tables: &mut Tables,
    procs: &mut Items<Proc>,
) -> Result<(), AllocError>
    requires lines { AreBelow lines.now }
    requires inside { of < length lines.now }
    ensures { OnOk result ((ms : List (List Proc)) → AreLines ms lines.now →
        procs.new ≡ procs.old ++ numbered_by (get_or ms of []) numbers.now) }
{
    let mut pieces = pieces_of(alloc, lines, of, numbers, tables)?;
    while let Some(piece) = pieces.pop() {
        match piece {
            Piece::Done(process) => procs.push(process)?,
            Piece::Rest { of, numbers } => {
                unfold(alloc, lines, of, numbers.as_slice(), tables, procs)?;
            }
        }
    }
    Ok(())
}
