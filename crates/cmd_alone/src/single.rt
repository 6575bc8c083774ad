//! The command of one process.
ghost use Rattle.std.specs.Prelude.{◌≡◌, ℕ, ◌<◌, ◌^◌, [], ◌∷◌, IsTrue, IfOk, get_or, length};
ghost use Rattle.cmd_tree.specs.Lists.{is_in};
ghost use Rattle.cmd_rename.specs.Symbols.{put_each, symbols_of, rank};
ghost use Rattle.cmd_rename.specs.Table.{number_by};
ghost use Rattle.cmd_alone.specs.Alone.{IsAlone};

use cmd_rename::{Table, list_symbol, proc_symbols, rename_proc, symbol_names};
use cmd_tree::{Command, Proc};
use sqlite_items::Items;
use std::alloc::{AllocError, Global};

/// The process at a place of the command, as a command of its own. The time grows with the marks of the process and
/// with the greatest number of a symbol of it.
pub fn alone(alloc: Global, command: &Command, index: usize) -> Result<Command, AllocError>
    requires { index < length command.now.procs }
    ensures { IfOk result (IsAlone command.now index) }
{
    let process = &command.procs.as_slice()[index];
    let symbols = own_symbols(alloc, process)?;
    let names = symbol_names(alloc, command.names.as_slice(), symbols.as_slice())?;
    let ranks = ranks_of(alloc, symbols.as_slice())?;
    let copy = rename_proc(alloc, process, &ranks)?;
    let mut procs = Items::new(alloc);
    procs.push(copy)?;
    Ok(Command { names, procs })
}

/// The symbols of the process, each once, in order of first occurrence.
fn own_symbols(alloc: Global, process: &Proc) -> Result<Vec<u32>, AllocError>
    ensures { IfOk result (λ symbols. symbols.items ≡ symbols_of (process.now ∷ [])) }
{
    let places = proc_symbols(alloc, process)?;
    let symbols = each_once(alloc, places.as_slice())?;
    Ok(symbols)
}

/// These symbols, each where it stands first.
fn each_once(alloc: Global, places: &[u32]) -> Result<Vec<u32>, AllocError>
    ensures { IfOk result (λ symbols. symbols.items ≡ put_each [] places.now) }
{
    let mut symbols = Vec::new(alloc);
    let mut listed = Table::new(alloc);
    for symbol in places {
        list_symbol(&mut symbols, &mut listed, *symbol)?;
    }
    Ok(symbols)
}

/// A table of the ranks of these symbols.
fn ranks_of(alloc: Global, symbols: &[u32]) -> Result<Table, AllocError>
    requires { length symbols.now < 2 ^ 32 }
    ensures { IfOk result (λ table. (a : ℕ) → IsTrue (is_in a symbols.now) → number_by table a ≡ rank symbols.now a) }
{
    let mut table = Table::new(alloc);
    let mut left = symbols.len();
    while left > 0 {
        left -= 1;
        table.put(symbols[left], left as u32)?;
    }
    Ok(table)
}
