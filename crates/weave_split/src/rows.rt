//! Rows of numbers, one for each process or symbol. Each table is made in one pass over what it is made of.
ghost use Rattle.std.specs.Prelude.{◌≡◌, ℕ, ◌<◌, ◌^◌, ◌++◌, false, [], ◌∷◌, map, length, get_or, replicate, IfOk, OnOk, if◌then◌else◌};
ghost use Rattle.std.specs.List.{AllByRecursion};
ghost use Rattle.cmd_tree.specs.Lists.{is_in};
ghost use Rattle.cmd_tree.specs.Limits.{marks_of_proc};
ghost use Rattle.cmd_rename.specs.Symbols.{symbols_in, put_each};
ghost use Rattle.net_laws.proofs.Among.{Distinct};
ghost use Rattle.weave_split.specs.Mirror.TieTables.{agrees, begins, chosen, having};

use cmd_rename::{Table, list_symbol, proc_symbols};
use cmd_tree::Proc;
use std::alloc::{AllocError, Global};

/// The symbol of each place of each process.
pub fn all_symbols(alloc: Global, procs: &[Proc]) -> Result<Vec<Vec<u32>>, AllocError>
    ensures { IfOk result (λ it. map (λ v. v.items) it.items ≡ map (λ p. symbols_in (marks_of_proc p)) procs.now) }
{
    let mut rows = Vec::new(alloc);
    for process in procs {
        rows.push(proc_symbols(alloc, process)?)?;
    }
    Ok(rows)
}

/// The numbers, each once, in order of first occurrence. `listed` is used for the search alone.
fn once(alloc: Global, numbers: &[u32], listed: &mut Table) -> Result<Vec<u32>, AllocError>
    ensures { IfOk result (λ it. it.items ≡ put_each [] numbers.now) }
{
    listed.clear();
    let mut found = Vec::new(alloc);
    for number in numbers {
        list_symbol(&mut found, listed, *number)?;
    }
    Ok(found)
}

/// Of each row its numbers, each once.
pub fn all_once(alloc: Global, rows: &[Vec<u32>]) -> Result<Vec<Vec<u32>>, AllocError>
    ensures { IfOk result (λ it. map (λ v. v.items) it.items ≡ map (put_each []) (map (λ v. v.items) rows.now)) }
{
    let mut listed = Table::new(alloc);
    let mut all = Vec::new(alloc);
    for row in rows {
        all.push(once(alloc, row.as_slice(), &mut listed)?)?;
    }
    Ok(all)
}

/// Whether the mark of a number is the wanted one. A number past the marks has the mark `false`.
fn is_marked(marks: &[bool], wanted: bool, number: u32) -> bool
    ensures { result ≡ agrees wanted (get_or marks.now number false) }
{
    match marks.get(number as usize) {
        Some(mark) => *mark == wanted,
        None => !wanted,
    }
}

/// The numbers whose mark is the wanted one.
fn marked(
    alloc: Global,
    numbers: &[u32],
    marks: &[bool],
    wanted: bool,
) -> Result<Vec<u32>, AllocError>
    ensures { IfOk result (λ it. it.items ≡ chosen marks.now wanted numbers.now) }
{
    let mut found = Vec::new(alloc);
    for number in numbers {
        if is_marked(marks, wanted, *number) {
            found.push(*number)?;
        }
    }
    Ok(found)
}

/// Of each row the numbers whose mark is the wanted one.
pub fn all_marked(
    alloc: Global,
    rows: &[Vec<u32>],
    marks: &[bool],
    wanted: bool,
) -> Result<Vec<Vec<u32>>, AllocError>
    ensures { IfOk result (λ it. map (λ v. v.items) it.items ≡ map (chosen marks.now wanted) (map (λ v. v.items) rows.now)) }
{
    let mut all = Vec::new(alloc);
    for row in rows {
        all.push(marked(alloc, row.as_slice(), marks, wanted)?)?;
    }
    Ok(all)
}

/// Whether the first number has the mark `true`.
fn begins(numbers: &[u32], marks: &[bool]) -> bool
    ensures { result ≡ begins marks.now numbers.now }
{
    match numbers {
        [] => false,
        [first, ..] => is_marked(marks, true, *first),
    }
}

/// Of each row whether its first number has the mark `true`.
pub fn all_begin(alloc: Global, rows: &[Vec<u32>], marks: &[bool]) -> Result<Vec<bool>, AllocError>
    ensures { IfOk result (λ it. it.items ≡ map (begins marks.now) (map (λ v. v.items) rows.now)) }
{
    let mut all = Vec::new(alloc);
    for row in rows {
        all.push(begins(row.as_slice(), marks))?;
    }
    Ok(all)
}

fn no_rows(alloc: Global, many: usize) -> Result<Vec<Vec<u32>>, AllocError>
    ensures { IfOk result (λ it. map (λ v. v.items) it.items ≡ replicate many []) }
{
    let mut rows = Vec::new(alloc);
    for _ in 0..many {
        rows.push(Vec::new(alloc))?;
    }
    Ok(rows)
}

/// Adds a number to the rows of these symbols.
fn add_haver(rows: &mut [Vec<u32>], haver: u32, symbols: &[u32]) -> Result<(), AllocError>
    requires known { AllByRecursion (λ a. a < length rows.old) symbols.now }
    requires once { Distinct symbols.now }
    ensures len { length rows.new ≡ length rows.old }
    ensures rows { OnOk result ((a : ℕ) → a < length rows.old
        → get_or (map (λ v. v.items) rows.new) a [] ≡ get_or (map (λ v. v.items) rows.old) a [] ++ (if is_in a symbols.now then haver ∷ [] else [])) }
{
    for symbol in symbols {
        rows[*symbol as usize].push(haver)?;
    }
    Ok(())
}

/// Of each symbol below `names` the rows that have it.
pub fn havers(alloc: Global, rows: &[Vec<u32>], names: usize) -> Result<Vec<Vec<u32>>, AllocError>
    requires known { AllByRecursion (λ v. AllByRecursion (λ a. a < names) v.items) rows.now }
    requires once { AllByRecursion (λ v. Distinct v.items) rows.now }
    requires few { length rows.now < 2 ^ 32 }
    ensures { IfOk result (λ it. map (λ v. v.items) it.items ≡ having (map (λ v. v.items) rows.now) names) }
{
    let mut all = no_rows(alloc, names)?;
    for (haver, row) in rows.iter().enumerate() {
        add_haver(all.as_mut_slice(), haver as u32, row.as_slice())?;
    }
    Ok(all)
}
