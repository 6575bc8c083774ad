//! Copies of trees under other symbols.
ghost use Rattle.std.specs.Prelude.{◌≡◌, IfOk};
ghost use Rattle.cmd_tree.specs.View.{item_of};
ghost use Rattle.cmd_rename.specs.Renaming.{ren_marks, ren_seq, ren_item, ren_part, ren_proc};
ghost use Rattle.cmd_rename.specs.Table.{number_by};

use crate::table::Table;
use cmd_tree::{Item, Mark, Proc, Seq, Sym};
use sqlite_items::Items;
use std::alloc::{AllocError, Global};

/// A copy of the process in which each symbol is the number that the table has for it, or 0.
pub fn rename_proc(alloc: Global, process: &Proc, table: &Table) -> Result<Proc, AllocError>
    ensures { IfOk result (λ copy. copy ≡ ren_proc (number_by table.now) process.now) }
{
    let lead = rename_part(alloc, &process.lead, table)?;
    let body = rename_part(alloc, &process.body, table)?;
    Ok(Proc { lead, body })
}

fn rename_part(alloc: Global, part: &Option<Seq>, table: &Table) -> Result<Option<Seq>, AllocError>
    ensures { IfOk result (λ copy. copy ≡ ren_part (number_by table.now) part.now) }
{
    match part {
        None => Ok(None),
        Some(seq) => {
            let copy = rename_seq(alloc, seq, table)?;
            Ok(Some(copy))
        }
    }
}

#[cycle(rename)]
fn rename_seq(alloc: Global, seq: &Seq, table: &Table) -> Result<Seq, AllocError>
    ensures { IfOk result (λ copy. copy ≡ ren_seq (number_by table.now) seq.now) }
{
    let mut items = Items::new(alloc);
    for item in seq.items.as_slice() {
        let copy = rename_item(alloc, item, table)?;
        items.push(copy)?;
    }
    Ok(Seq { items })
}

#[cycle(rename)]
fn rename_item(alloc: Global, item: &Item, table: &Table) -> Result<Item, AllocError>
    ensures { IfOk result (λ copy. item_of copy ≡ ren_item (number_by table.now) (item_of item.now)) }
{
    match item {
        Item::Burst(marks) => {
            let copy = rename_marks(alloc, marks.as_slice(), table)?;
            Ok(Item::Burst(copy))
        }
        Item::Alt(seqs) => {
            let mut copies = Items::new(alloc);
            for seq in seqs.as_slice() {
                let copy = rename_seq(alloc, seq, table)?;
                copies.push(copy)?;
            }
            Ok(Item::Alt(copies))
        }
    }
}

fn rename_marks(alloc: Global, marks: &[Mark], table: &Table) -> Result<Items<Mark>, AllocError>
    ensures { IfOk result (λ copy. copy ≡ ren_marks (number_by table.now) marks.now) }
{
    let mut copies = Items::new(alloc);
    for mark in marks {
        let copy = Mark {
            sym: number_of(mark.sym, table),
            dir: mark.dir,
        };
        copies.push(copy)?;
    }
    Ok(copies)
}

fn number_of(symbol: Sym, table: &Table) -> Sym
    ensures { result.0 ≡ number_by table.now symbol.0 }
{
    match table.get(symbol.0) {
        Some(number) => Sym(number),
        None => Sym(0),
    }
}
