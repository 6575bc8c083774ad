//! Whether two commands are equal.
ghost use Rattle.std.specs.Prelude.{◌≡◌, ◌↔◌, IsTrue};

use crate::command::Command;
use crate::name::NameSet;
use crate::tree::{Item, Proc, Seq};

/// Whether both commands are equal: in their names, and in each process, mark for mark.
pub fn same_command(a: &Command, b: &Command) -> bool
    ensures { IsTrue result ↔ (a.now ≡ b.now) }
{
    same_names(&a.names, &b.names) && same_procs(a.procs.as_slice(), b.procs.as_slice())
}

fn same_names(a: &NameSet, b: &NameSet) -> bool
    ensures { IsTrue result ↔ (a.now ≡ b.now) }
{
    a.as_slice() == b.as_slice()
}

fn same_procs(a: &[Proc], b: &[Proc]) -> bool
    ensures { IsTrue result ↔ (a.now ≡ b.now) }
{
    if a.len() != b.len() {
        return false;
    }
    for (index, process) in a.iter().enumerate() {
        if !same_proc(process, &b[index]) {
            return false;
        }
    }
    true
}

fn same_proc(a: &Proc, b: &Proc) -> bool
    ensures { IsTrue result ↔ (a.now ≡ b.now) }
{
    same_part(&a.lead, &b.lead) && same_part(&a.body, &b.body)
}

fn same_part(a: &Option<Seq>, b: &Option<Seq>) -> bool
    ensures { IsTrue result ↔ (a.now ≡ b.now) }
{
    match (a, b) {
        (None, None) => true,
        (Some(first), Some(second)) => same_seq(first, second),
        _ => false,
    }
}

#[cycle(same)]
fn same_seq(a: &Seq, b: &Seq) -> bool
    ensures { IsTrue result ↔ (a.now ≡ b.now) }
{
    let others = b.items.as_slice();
    if a.items.len() != others.len() {
        return false;
    }
    for (index, item) in a.items.as_slice().iter().enumerate() {
        if !same_item(item, &others[index]) {
            return false;
        }
    }
    true
}

#[cycle(same)]
fn same_item(a: &Item, b: &Item) -> bool
    ensures { IsTrue result ↔ (a.now ≡ b.now) }
{
    match (a, b) {
        (Item::Burst(first), Item::Burst(second)) => first.as_slice() == second.as_slice(),
        (Item::Alt(first), Item::Alt(second)) => {
            let others = second.as_slice();
            if first.len() != others.len() {
                return false;
            }
            for (index, seq) in first.as_slice().iter().enumerate() {
                if !same_seq(seq, &others[index]) {
                    return false;
                }
            }
            true
        }
        _ => false,
    }
}
