//! The bursts of a process with the points from which and to which they lead.
ghost use Rattle.std.specs.Prelude.{◌≡◌, ◌+◌, ◌<◌, ◌^◌, ◌++◌, IfOk, OnOk};
ghost use Rattle.cmd_tree.specs.Tree.{places_of, places_in};
ghost use Rattle.cmd_tree.specs.View.{item_of};
ghost use Rattle.cmd_tree.specs.Limits.{of_part, places_of_proc};
ghost use Rattle.cmd_tree.specs.Residual.{lead_of};
ghost use Rattle.place_graph.specs.Points.{legs_of, legs_in, body_place, turn_point, legs};

use cmd_tree::{Item, Mark, Proc, Seq, item_places, seq_places};
use sqlite_items::Items;
use std::alloc::{AllocError, Global};

/// A burst of a process and its place, which is that of its first mark. It leads from a point to a point.
#[derive(Drop)]
pub struct Leg {
    pub from: u32,
    pub place: u32,
    pub marks: Items<Mark>,
    pub to: u32,
}

/// The legs of a process in text order.
pub fn legs(alloc: Global, process: &Proc) -> Result<Vec<Leg>, AllocError>
    requires { places_of_proc process.now + 1 < 2 ^ 32 }
    ensures { IfOk result (λ found. found.items ≡ legs process.now) }
{
    let body = body_place(process);
    let turn = match &process.body {
        None => 0,
        Some(_) => body,
    };
    let mut found = Vec::new(alloc);
    push_part_legs(alloc, &process.lead, 1, turn, &mut found)?;
    push_part_legs(alloc, &process.body, body, turn, &mut found)?;
    Ok(found)
}

fn body_place(process: &Proc) -> u32
    requires { places_of_proc process.now + 1 < 2 ^ 32 }
    ensures { result ≡ body_place process.now }
{
    match &process.lead {
        None => 1,
        Some(lead) => 1 + seq_places(lead),
    }
}

// A lead or a body, which is entered at its own place.
fn push_part_legs(
    alloc: Global,
    part: &Option<Seq>,
    first: u32,
    later: u32,
    legs: &mut Vec<Leg>,
) -> Result<(), AllocError>
    requires { first + of_part 0 places_of part.now < 2 ^ 32 }
    ensures { OnOk result (legs.new.items ≡ legs.old.items ++ legs_of first (lead_of part.now) first later) }
{
    if let Some(seq) = part {
        push_seq_legs(alloc, seq, first, first, later, legs)?;
    }
    Ok(())
}

#[cycle(legs)]
fn push_seq_legs(
    alloc: Global,
    seq: &Seq,
    first: u32,
    at: u32,
    later: u32,
    legs: &mut Vec<Leg>,
) -> Result<(), AllocError>
    requires { first + places_of seq.now < 2 ^ 32 }
    ensures { OnOk result (legs.new.items ≡ legs.old.items ++ legs_of first seq.now at later) }
{
    let mut place = first;
    let mut entry = at;
    let mut left = seq.items.len();
    for item in seq.items.as_slice() {
        left -= 1;
        let next = place + item_places(item);
        let to = if left == 0 { later } else { next };
        push_item_legs(alloc, item, place, entry, to, legs)?;
        place = next;
        entry = next;
    }
    Ok(())
}

#[cycle(legs)]
fn push_item_legs(
    alloc: Global,
    item: &Item,
    first: u32,
    at: u32,
    later: u32,
    legs: &mut Vec<Leg>,
) -> Result<(), AllocError>
    requires { first + places_in (item_of item.now) < 2 ^ 32 }
    ensures { OnOk result (legs.new.items ≡ legs.old.items ++ legs_in first (item_of item.now) at later) }
{
    match item {
        Item::Burst(burst) => {
            let marks = Items::from_slice(alloc, burst.as_slice())?;
            legs.push(Leg {
                from: at,
                place: first,
                marks,
                to: later,
            })?;
        }
        Item::Alt(seqs) => {
            let mut place = first;
            for seq in seqs.as_slice() {
                push_seq_legs(alloc, seq, place, at, later, legs)?;
                place += seq_places(seq);
            }
        }
    }
    Ok(())
}
