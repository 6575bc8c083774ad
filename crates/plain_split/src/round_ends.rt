//! Where the paths of wires in a network of rounds end.
ghost use Rattle.std.specs.Prelude.{◌≡◌, ℕ, ◌<◌, ◌≤◌, [], map, length, get_or, IfOk};
ghost use Rattle.std.specs.List.{range_with_len};
ghost use Rattle.cmd_tree.specs.Lists.{is_in};
ghost use Rattle.net_core.specs.Specs.{outs_of};
ghost use Rattle.plain_split.specs.RoundsNet.{pow, leaf};
ghost use Rattle.plain_split.specs.RoundsNet as web;
ghost use Rattle.plain_split.specs.RoundsChart.{on_put, on_go};
ghost use Rattle.plain_split.specs.Mirror.RoundsTables.{parts_by, end_of, end_at, IsTabled};

use crate::round_parts::RoundParts;
use std::alloc::{AllocError, Global};

/// The symbol, where a path through an output of an act ends at it: where no other act gives it.
fn put_end(parts: &RoundParts, symbol: u32) -> Option<u32>
    requires tabled { IsTabled parts.now }
    requires known { symbol < length (outs_of parts.now.spec) }
    ensures { (y : ℕ) → result ≡ end_of (on_put (parts_by parts.now) y symbol) }
{
    match parts.gives[symbol as usize].as_slice() {
        [] => None,
        [_] => Some(symbol),
        [_, _, ..] => None,
    }
}

/// The symbol where the path that begins an act ends at one.
pub fn go_end(parts: &RoundParts, act: u32) -> Option<u32>
    requires tabled { IsTabled parts.now }
    requires known { act < pow parts.now.levels }
    ensures { result ≡ end_of (on_go (parts_by parts.now) act) }
{
    match parts.outs[act as usize].as_slice() {
        [] => None,
        [symbol] => put_end(parts, *symbol),
        [_, _, ..] => None,
    }
}

/// The symbol where the path from a last place of the tree ends at one.
fn leaf_end(parts: &RoundParts, round: u32) -> Option<u32>
    requires tabled { IsTabled parts.now }
    requires known { round < pow parts.now.levels }
    ensures { result ≡ end_at (parts_by parts.now) (web.To (leaf parts.now.levels round)) }
{
    let act = parts.act_after(round);
    if parts.begins(act) {
        None
    } else {
        go_end(parts, act)
    }
}

/// The symbol where the path from a place of the tree ends at one.
fn place_end(parts: &RoundParts, depth: u32, place: u32) -> Option<u32>
    requires tabled { IsTabled parts.now }
    requires known { place < pow depth }
    ensures { result ≡ end_at (parts_by parts.now) (web.To (leaf depth place)) }
{
    if depth == parts.levels {
        leaf_end(parts, place)
    } else {
        None
    }
}

/// The ends of the paths from the places of a level of the tree.
pub fn level_ends(
    alloc: Global,
    parts: &RoundParts,
    depth: u32,
    places: u32,
) -> Result<Vec<Option<u32>>, AllocError>
    requires tabled { IsTabled parts.now }
    requires many { places ≡ pow depth }
    ensures { IfOk result (λ it. it.items ≡ map (λ i. end_at (parts_by parts.now) (web.To (leaf depth i))) (range_with_len 0 places)) }
{
    let mut ends = Vec::new(alloc);
    for place in 0..places {
        ends.push(place_end(parts, depth, place))?;
    }
    Ok(ends)
}

/// The ends of the paths through the outputs of an act.
pub fn put_ends(alloc: Global, parts: &RoundParts, act: u32) -> Result<Vec<Option<u32>>, AllocError>
    requires tabled { IsTabled parts.now }
    requires known { act < pow parts.now.levels }
    ensures { IfOk result (λ it. it.items ≡ map (λ a. end_at (parts_by parts.now) (web.Put act a)) ((parts_by parts.now).outs act)) }
{
    let mut ends = Vec::new(alloc);
    for symbol in &parts.outs[act as usize] {
        ends.push(put_end(parts, *symbol))?;
    }
    Ok(ends)
}
