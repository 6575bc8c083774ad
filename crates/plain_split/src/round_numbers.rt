//! The numbers of the wires of a network of rounds: first the symbols, then the wires that begin inside and
//! do not end at a symbol.
ghost use Rattle.std.specs.Prelude.{◌≡◌, ℕ, suc, ◌+◌, ◌<◌, ◌≤◌, ◌^◌, true, [], ◌∷◌, ◌++◌, map, length, IfOk, OnOk};
ghost use Rattle.std.specs.List.{range_with_len};
ghost use Rattle.plain_split.specs.RoundsNet.{pow};
ghost use Rattle.plain_split.specs.RoundsNet as web;
ghost use Rattle.plain_split.specs.Mirror.RoundsTables.{parts_by, number_of, picked, after_end, numbered, after_ends, next_after, before_level, before_begin, before_puts, level_numbers, put_numbers, top_wires, IsTabled, IsNumbered};

use crate::round_ends::{go_end, level_ends, put_ends};
use crate::round_parts::RoundParts;
use std::alloc::{AllocError, Global};

/// The numbers of the wires of a network of rounds.
#[derive(Drop)]
pub struct RoundNumbers {
    /// Of each place of the tree of TOGGLEs, level by level.
    pub tree: Vec<Vec<u32>>,
    /// Of what begins the process, where it begins with an act.
    pub begin: u32,
    /// Of each output of each act.
    pub puts: Vec<Vec<u32>>,
    /// How many wires there are.
    pub wires: u32,
}

/// The number of a path: its symbol where it ends at one, else the next number.
fn pick(end: Option<u32>, next: &mut u32) -> u32
    requires { next.old + 1 < 2 ^ 32 }
    ensures number { result ≡ picked next.old end }
    ensures next { next.new ≡ after_end next.old end }
{
    match end {
        Some(symbol) => symbol,
        None => {
            let number = *next;
            *next += 1;
            number
        }
    }
}

/// The numbers of paths with these ends.
fn numbered(alloc: Global, ends: &[Option<u32>], next: &mut u32) -> Result<Vec<u32>, AllocError>
    requires { next.old + length ends.now + 1 < 2 ^ 32 }
    ensures numbers { IfOk result (λ it. it.items ≡ numbered next.old ends.now) }
    ensures next { OnOk result (next.new ≡ after_ends next.old ends.now) }
{
    let mut numbers = Vec::new(alloc);
    for end in ends {
        numbers.push(pick(*end, next))?;
    }
    Ok(numbers)
}

/// The number of the wire at the top of the tree.
fn top_number(parts: &RoundParts, next: &mut u32) -> u32
    requires tabled { IsTabled parts.now }
    requires next { next.old ≡ next_after (parts_by parts.now) [] }
    ensures number { result ≡ number_of (parts_by parts.now) (web.To web.Top) }
    ensures next { next.new ≡ next_after (parts_by parts.now) (top_wires (parts_by parts.now)) }
{
    match parts.burst.as_slice() {
        [] => pick(None, next),
        [symbol] => *symbol,
        [_, _, ..] => pick(None, next),
    }
}

/// The numbers of the places of a level below the top.
fn level(
    alloc: Global,
    parts: &RoundParts,
    depth: u32,
    places: u32,
    next: &mut u32,
) -> Result<Vec<u32>, AllocError>
    requires tabled { IsTabled parts.now }
    requires known { depth < parts.now.levels }
    requires many { places ≡ pow (suc depth) }
    requires next { next.old ≡ next_after (parts_by parts.now) (before_level (parts_by parts.now) depth) }
    ensures numbers { IfOk result (λ it. it.items ≡ level_numbers (parts_by parts.now) (suc depth)) }
    ensures next { OnOk result (next.new ≡ next_after (parts_by parts.now) (before_level (parts_by parts.now) (suc depth))) }
{
    let ends = level_ends(alloc, parts, depth + 1, places)?;
    numbered(alloc, ends.as_slice(), next)
}

/// The numbers of the places of the tree, level by level.
fn tree(alloc: Global, parts: &RoundParts, next: &mut u32) -> Result<Vec<Vec<u32>>, AllocError>
    requires tabled { IsTabled parts.now }
    requires next { next.old ≡ next_after (parts_by parts.now) [] }
    ensures numbers { IfOk result (λ it. map (λ v. v.items) it.items ≡ map (level_numbers (parts_by parts.now)) (range_with_len 0 (suc parts.now.levels))) }
    ensures next { OnOk result (next.new ≡ next_after (parts_by parts.now) (before_begin (parts_by parts.now))) }
{
    let top = vec![in alloc; top_number(parts, next)]?;
    let mut levels = vec![in alloc; top]?;
    let mut places = 1;
    for depth in 0..parts.levels {
        places *= 2;
        let numbers = level(alloc, parts, depth, places, next)?;
        levels.push(numbers)?;
    }
    Ok(levels)
}

/// The number of what begins the process, or 0 where it begins with the burst.
fn begin_number(parts: &RoundParts, next: &mut u32) -> u32
    requires tabled { IsTabled parts.now }
    requires next { next.old ≡ next_after (parts_by parts.now) (before_begin (parts_by parts.now)) }
    ensures number { parts.now.opens ≡ true → result ≡ number_of (parts_by parts.now) (web.Go 0) }
    ensures next { next.new ≡ next_after (parts_by parts.now) (before_puts (parts_by parts.now) 0) }
{
    if parts.opens {
        pick(go_end(parts, 0), next)
    } else {
        0
    }
}

/// The number of what begins an act.
pub fn go_number(parts: &RoundParts, leaves: &[u32], begin: u32, act: u32) -> u32
    requires tabled { IsTabled parts.now }
    requires known { act < pow parts.now.levels }
    requires leaves { leaves.now ≡ level_numbers (parts_by parts.now) parts.now.levels }
    requires begin { parts.now.opens ≡ true → begin ≡ number_of (parts_by parts.now) (web.Go 0) }
    ensures { result ≡ number_of (parts_by parts.now) (web.Go act) }
{
    if parts.begins(act) {
        begin
    } else {
        leaves[parts.round_before(act) as usize]
    }
}

/// The numbers of the outputs of an act.
fn act_puts(
    alloc: Global,
    parts: &RoundParts,
    leaves: &[u32],
    begin: u32,
    act: u32,
    next: &mut u32,
) -> Result<Vec<u32>, AllocError>
    requires tabled { IsTabled parts.now }
    requires known { act < pow parts.now.levels }
    requires leaves { leaves.now ≡ level_numbers (parts_by parts.now) parts.now.levels }
    requires begin { parts.now.opens ≡ true → begin ≡ number_of (parts_by parts.now) (web.Go 0) }
    requires next { next.old ≡ next_after (parts_by parts.now) (before_puts (parts_by parts.now) act) }
    ensures numbers { IfOk result (λ it. it.items ≡ put_numbers (parts_by parts.now) act) }
    ensures next { OnOk result (next.new ≡ next_after (parts_by parts.now) (before_puts (parts_by parts.now) (suc act))) }
{
    if parts.outs[act as usize].len() == 1 {
        let numbers = vec![in alloc; go_number(parts, leaves, begin, act)]?;
        return Ok(numbers);
    }
    let ends = put_ends(alloc, parts, act)?;
    numbered(alloc, ends.as_slice(), next)
}

/// The numbers of the outputs of each act.
fn all_puts(
    alloc: Global,
    parts: &RoundParts,
    leaves: &[u32],
    begin: u32,
    next: &mut u32,
) -> Result<Vec<Vec<u32>>, AllocError>
    requires tabled { IsTabled parts.now }
    requires leaves { leaves.now ≡ level_numbers (parts_by parts.now) parts.now.levels }
    requires begin { parts.now.opens ≡ true → begin ≡ number_of (parts_by parts.now) (web.Go 0) }
    requires next { next.old ≡ next_after (parts_by parts.now) (before_puts (parts_by parts.now) 0) }
    ensures numbers { IfOk result (λ it. map (λ v. v.items) it.items ≡ map (put_numbers (parts_by parts.now)) (range_with_len 0 (pow parts.now.levels))) }
    ensures next { OnOk result (next.new ≡ next_after (parts_by parts.now) (before_puts (parts_by parts.now) (pow parts.now.levels))) }
{
    let mut puts = Vec::new(alloc);
    for act in 0..parts.rounds() {
        let numbers = act_puts(alloc, parts, leaves, begin, act, next)?;
        puts.push(numbers)?;
    }
    Ok(puts)
}

impl RoundNumbers {
    /// The numbers for these parts.
    pub fn new(alloc: Global, parts: &RoundParts) -> Result<RoundNumbers, AllocError>
        requires { IsTabled parts.now }
        ensures { IfOk result (λ it. IsNumbered (parts_by parts.now) it) }
    {
        let mut next = parts.sides.len() as u32;
        let tree = tree(alloc, parts, &mut next)?;
        let begin = begin_number(parts, &mut next);
        let leaves = tree[parts.levels as usize].as_slice();
        let puts = all_puts(alloc, parts, leaves, begin, &mut next)?;
        Ok(RoundNumbers {
            tree,
            begin,
            puts,
            wires: next,
        })
    }
}
