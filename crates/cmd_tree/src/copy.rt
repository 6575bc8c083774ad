//! Copies of commands.
ghost use Rattle.std.specs.Prelude.{◌≡◌, IfOk};

use crate::command::Command;
use crate::tree::{Item, Proc, Seq};
use sqlite_items::Items;
use std::alloc::{AllocError, Global};

/// An equal command with memory of its own.
pub fn copy_command(alloc: Global, command: &Command) -> Result<Command, AllocError>
    ensures { IfOk result (λ copy. copy ≡ command.now) }
{
    let names = command.names.clone()?;
    let procs = copy_procs(alloc, command.procs.as_slice())?;
    Ok(Command { names, procs })
}

fn copy_procs(alloc: Global, procs: &[Proc]) -> Result<Items<Proc>, AllocError>
    ensures { IfOk result (λ copy. copy ≡ procs.now) }
{
    let mut copies = Items::new(alloc);
    for process in procs {
        let copy = copy_proc(alloc, process)?;
        copies.push(copy)?;
    }
    Ok(copies)
}

fn copy_proc(alloc: Global, process: &Proc) -> Result<Proc, AllocError>
    ensures { IfOk result (λ copy. copy ≡ process.now) }
{
    let lead = copy_part(alloc, &process.lead)?;
    let body = copy_part(alloc, &process.body)?;
    Ok(Proc { lead, body })
}

fn copy_part(alloc: Global, part: &Option<Seq>) -> Result<Option<Seq>, AllocError>
    ensures { IfOk result (λ copy. copy ≡ part.now) }
{
    match part {
        None => Ok(None),
        Some(seq) => {
            let copy = copy_seq(alloc, seq)?;
            Ok(Some(copy))
        }
    }
}

#[cycle(copy)]
fn copy_seq(alloc: Global, seq: &Seq) -> Result<Seq, AllocError>
    ensures { IfOk result (λ copy. copy ≡ seq.now) }
{
    let mut items = Items::new(alloc);
    for item in seq.items.as_slice() {
        let copy = copy_item(alloc, item)?;
        items.push(copy)?;
    }
    Ok(Seq { items })
}

#[cycle(copy)]
fn copy_item(alloc: Global, item: &Item) -> Result<Item, AllocError>
    ensures { IfOk result (λ copy. copy ≡ item.now) }
{
    match item {
        Item::Burst(marks) => {
            let copy = Items::from_slice(alloc, marks.as_slice())?;
            Ok(Item::Burst(copy))
        }
        Item::Alt(seqs) => {
            let mut copies = Items::new(alloc);
            for seq in seqs.as_slice() {
                let copy = copy_seq(alloc, seq)?;
                copies.push(copy)?;
            }
            Ok(Item::Alt(copies))
        }
    }
}
