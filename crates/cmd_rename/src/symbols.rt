//! Symbols in order of first occurrence.
ghost use Rattle.std.specs.Prelude.{◌≡◌, ◌++◌, map, IfOk, OnOk};
ghost use Rattle.cmd_tree.specs.Tree.{marks_of, marks_in};
ghost use Rattle.cmd_tree.specs.View.{item_of};
ghost use Rattle.cmd_tree.specs.Limits.{marks_of_proc};
ghost use Rattle.cmd_rename.specs.Symbols.{put, symbols_in};
ghost use Rattle.cmd_rename.specs.Table.{IsListed};

use crate::table::Table;
use cmd_tree::{Item, Mark, Proc, Seq};
use std::alloc::{AllocError, Global};

/// Puts the symbol at the end of the list where it is not in it. `listed` has a number for the symbols of the list,
/// and for no other.
pub fn list_symbol(
    symbols: &mut Vec<u32>,
    listed: &mut Table,
    symbol: u32,
) -> Result<(), AllocError>
    requires { IsListed listed.old symbols.old.items }
    ensures symbols { OnOk result (symbols.new.items ≡ put symbols.old.items symbol) }
    ensures listed { OnOk result (IsListed listed.new symbols.new.items) }
{
    if listed.get(symbol).is_some() {
        return Ok(());
    }
    listed.put(symbol, 0)?;
    symbols.push(symbol)?;
    Ok(())
}

/// The symbol of each place of the process, in text order.
pub fn proc_symbols(alloc: Global, process: &Proc) -> Result<Vec<u32>, AllocError>
    ensures { IfOk result (λ symbols. symbols.items ≡ symbols_in (marks_of_proc process.now)) }
{
    let mut symbols = Vec::new(alloc);
    if let Some(lead) = &process.lead {
        push_seq_symbols(lead, &mut symbols)?;
    }
    if let Some(body) = &process.body {
        push_seq_symbols(body, &mut symbols)?;
    }
    Ok(symbols)
}

#[cycle(symbols)]
fn push_seq_symbols(seq: &Seq, symbols: &mut Vec<u32>) -> Result<(), AllocError>
    ensures { OnOk result (symbols.new.items ≡ symbols.old.items ++ symbols_in (marks_of seq.now)) }
{
    for item in seq.items.as_slice() {
        push_item_symbols(item, symbols)?;
    }
    Ok(())
}

#[cycle(symbols)]
fn push_item_symbols(item: &Item, symbols: &mut Vec<u32>) -> Result<(), AllocError>
    ensures { OnOk result (symbols.new.items ≡ symbols.old.items ++ symbols_in (marks_in (item_of item.now))) }
{
    match item {
        Item::Burst(marks) => push_mark_symbols(marks.as_slice(), symbols)?,
        Item::Alt(seqs) => {
            for seq in seqs.as_slice() {
                push_seq_symbols(seq, symbols)?;
            }
        }
    }
    Ok(())
}

fn push_mark_symbols(marks: &[Mark], symbols: &mut Vec<u32>) -> Result<(), AllocError>
    ensures { OnOk result (symbols.new.items ≡ symbols.old.items ++ symbols_in marks.now) }
{
    for mark in marks {
        symbols.push(mark.sym.0)?;
    }
    Ok(())
}
