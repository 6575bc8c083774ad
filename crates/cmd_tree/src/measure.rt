//! How many symbol places a command has, and how deep its choices stand in one another.
ghost use Rattle.std.specs.Prelude.{◌≡◌, ◌+◌, ◌≤◌, ◌<◌, ◌^◌};
ghost use Rattle.cmd_tree.specs.Tree.{places_of, places_in, depth_of, depth_in};
ghost use Rattle.cmd_tree.specs.View.{item_of};
ghost use Rattle.cmd_tree.specs.Limits.{places_of_proc, places_of_all, depth_of_proc, depth_of_all};

use crate::command::Command;
use crate::tree::{Item, Proc, Seq};

/// How many symbol places the command has.
pub fn places(command: &Command) -> u32
    ensures { result ≡ places_of_all command.now.procs }
{
    places_in_all(command.procs.as_slice())
}

/// How many symbol places the processes have.
pub fn places_in_all(procs: &[Proc]) -> u32
    requires { places_of_all procs.now < 2 ^ 32 }
    ensures { result ≡ places_of_all procs.now }
{
    let mut count: u32 = 0;
    for process in procs {
        count += proc_places(process);
    }
    count
}

fn proc_places(process: &Proc) -> u32
    requires { places_of_proc process.now < 2 ^ 32 }
    ensures { result ≡ places_of_proc process.now }
{
    let lead = match &process.lead {
        None => 0,
        Some(seq) => seq_places(seq),
    };
    let body = match &process.body {
        None => 0,
        Some(seq) => seq_places(seq),
    };
    lead + body
}

/// How many symbol places a sequence has.
#[cycle(places)]
pub fn seq_places(seq: &Seq) -> u32
    requires { places_of seq.now < 2 ^ 32 }
    ensures { result ≡ places_of seq.now }
{
    let mut count: u32 = 0;
    for item in seq.items.as_slice() {
        count += item_places(item);
    }
    count
}

/// How many symbol places an item has.
#[cycle(places)]
pub fn item_places(item: &Item) -> u32
    requires { places_in (item_of item.now) < 2 ^ 32 }
    ensures { result ≡ places_in (item_of item.now) }
{
    match item {
        Item::Burst(marks) => marks.len() as u32,
        Item::Alt(seqs) => {
            let mut count: u32 = 0;
            for seq in seqs.as_slice() {
                count += seq_places(seq);
            }
            count
        }
    }
}

/// The greatest number of choices of which each but the first stands in the one before.
pub fn depth(command: &Command) -> u32
    ensures { result ≡ depth_of_all command.now.procs }
{
    let mut deepest: u32 = 0;
    for process in command.procs.as_slice() {
        deepest = deepest.max(proc_depth(process));
    }
    deepest
}

fn proc_depth(process: &Proc) -> u32
    requires { depth_of_proc process.now < 2 ^ 32 }
    ensures { result ≡ depth_of_proc process.now }
{
    let lead = match &process.lead {
        None => 0,
        Some(seq) => seq_depth(seq),
    };
    let body = match &process.body {
        None => 0,
        Some(seq) => seq_depth(seq),
    };
    lead.max(body)
}

#[cycle(depth)]
fn seq_depth(seq: &Seq) -> u32
    requires { depth_of seq.now < 2 ^ 32 }
    ensures { result ≡ depth_of seq.now }
{
    let mut deepest: u32 = 0;
    for item in seq.items.as_slice() {
        deepest = deepest.max(item_depth(item));
    }
    deepest
}

#[cycle(depth)]
fn item_depth(item: &Item) -> u32
    requires { depth_in (item_of item.now) < 2 ^ 32 }
    ensures { result ≡ depth_in (item_of item.now) }
{
    match item {
        Item::Burst(_) => 0,
        Item::Alt(seqs) => {
            let mut deepest: u32 = 0;
            for seq in seqs.as_slice() {
                deepest = deepest.max(seq_depth(seq));
            }
            deepest + 1
        }
    }
}
