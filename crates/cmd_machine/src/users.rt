//! Which processes have each symbol: rows of numbers.
ghost use Rattle.std.specs.Prelude.{◌≡◌, ℕ, ◌<◌, [], ◌∷◌, ◌++◌, List, length, map, if◌then◌else◌, IfOk, OnOk};
ghost use Rattle.std.specs.List.{AllByRecursion};
ghost use Rattle.cmd_tree.specs.Lists.{is_in};
ghost use Rattle.cmd_machine.specs.Mirror.Walkers.{row_at, users_from};

use cmd_rename::proc_symbols;
use cmd_tree::Proc;
use std::alloc::{AllocError, Global};

/// The numbers in the row of this index: none past the last row.
pub fn row_of(rows: &[Vec<usize>], index: usize) -> &[usize]
    ensures { result.now ≡ row_at (map (λ row. row.items) rows.now) index }
{
    if index < rows.len() {
        rows[index].as_slice()
    } else {
        &[]
    }
}

/// A row for each symbol: the numbers of the processes that have it, in order.
pub fn users_by_symbol(alloc: Global, procs: &[Proc]) -> Result<Vec<Vec<usize>>, AllocError>
    ensures { IfOk result (λ users. (a : ℕ) → row_at (map (λ row. row.items) users.items) a ≡ users_from 0 procs.now a) }
{
    let mut users = Vec::new(alloc);
    for (number, process) in procs.iter().enumerate() {
        let symbols = proc_symbols(alloc, process)?;
        note(alloc, &mut users, symbols.as_slice(), number)?;
    }
    Ok(users)
}

// Puts the process at the end of the rows of these symbols, once each. All others there come before it.
fn note(
    alloc: Global,
    users: &mut Vec<Vec<usize>>,
    symbols: &[u32],
    process: usize,
) -> Result<(), AllocError>
    ensures { ((a : ℕ) → AllByRecursion (λ i. i < process) (row_at (map (λ row. row.items) users.old.items) a))
        → OnOk result ((a : ℕ) → row_at (map (λ row. row.items) users.new.items) a
        ≡ row_at (map (λ row. row.items) users.old.items) a ++ (if is_in a symbols.now then process ∷ [] else [])) }
{
    for symbol in symbols {
        let index = *symbol as usize;
        grow(alloc, users, index)?;
        add(&mut users[index], process)?;
    }
    Ok(())
}

/// Makes empty rows up to that of this index.
pub fn grow(alloc: Global, users: &mut Vec<Vec<usize>>, index: usize) -> Result<(), AllocError>
    ensures room { OnOk result (index < length users.new.items) }
    ensures same { (a : ℕ) → row_at (map (λ row. row.items) users.new.items) a
        ≡ row_at (map (λ row. row.items) users.old.items) a }
{
    while users.len() <= index {
        users.push(Vec::new(alloc))?;
    }
    Ok(())
}

// Puts the process at the end of the row, where it is not there yet.
fn add(row: &mut Vec<usize>, process: usize) -> Result<(), AllocError>
    ensures twice { (xs : List ℕ) → row.old.items ≡ xs ++ process ∷ [] → OnOk result (row.new.items ≡ row.old.items) }
    ensures once { AllByRecursion (λ i. i < process) row.old.items
        → OnOk result (row.new.items ≡ row.old.items ++ process ∷ []) }
{
    let size = row.len();
    if size > 0 && row[size - 1] == process {
        return Ok(());
    }
    row.push(process)?;
    Ok(())
}
