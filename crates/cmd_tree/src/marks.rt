//! The marks of a command, listed.
ghost use Rattle.std.specs.Prelude.{◌≡◌, ◌++◌, IfOk, OnOk};
ghost use Rattle.cmd_tree.specs.Tree.{marks_of, marks_in};
ghost use Rattle.cmd_tree.specs.View.{item_of};
ghost use Rattle.cmd_tree.specs.Limits.{marks_of_proc, marks_of_all};

use crate::command::Command;
use crate::tree::{Item, Mark, Proc, Seq};
use std::alloc::{AllocError, Global};

/// The marks of a command in text order.
pub fn all_marks(alloc: Global, command: &Command) -> Result<Vec<Mark>, AllocError>
    ensures { IfOk result (λ marks. marks.items ≡ marks_of_all command.now.procs) }
{
    let mut marks = Vec::new(alloc);
    for process in command.procs.as_slice() {
        push_proc_marks(process, &mut marks)?;
    }
    Ok(marks)
}

fn push_proc_marks(process: &Proc, marks: &mut Vec<Mark>) -> Result<(), AllocError>
    ensures { OnOk result (marks.new.items ≡ marks.old.items ++ marks_of_proc process.now) }
{
    if let Some(lead) = &process.lead {
        push_seq_marks(lead, marks)?;
    }
    if let Some(body) = &process.body {
        push_seq_marks(body, marks)?;
    }
    Ok(())
}

#[cycle(marks)]
fn push_seq_marks(seq: &Seq, marks: &mut Vec<Mark>) -> Result<(), AllocError>
    ensures { OnOk result (marks.new.items ≡ marks.old.items ++ marks_of seq.now) }
{
    for item in seq.items.as_slice() {
        push_item_marks(item, marks)?;
    }
    Ok(())
}

#[cycle(marks)]
fn push_item_marks(item: &Item, marks: &mut Vec<Mark>) -> Result<(), AllocError>
    ensures { OnOk result (marks.new.items ≡ marks.old.items ++ marks_in (item_of item.now)) }
{
    match item {
        Item::Burst(burst) => marks.extend_from_slice(burst.as_slice())?,
        Item::Alt(seqs) => {
            for seq in seqs.as_slice() {
                push_seq_marks(seq, marks)?;
            }
        }
    }
    Ok(())
}
