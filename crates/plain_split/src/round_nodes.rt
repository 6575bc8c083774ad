//! The components of a network of rounds.
ghost use Rattle.std.specs.Prelude.{◌≡◌, ℕ, ◌+◌, ◌<◌, ◌&&◌, not, [], ◌∷◌, ◌++◌, map, filter, length, get_or, slice_index, IfOk, IsTrue};
ghost use Rattle.std.specs.List.{range_with_len, AllByRecursion};
ghost use Rattle.plain_split.specs.RoundsNet.{pow};
ghost use Rattle.plain_split.specs.RoundsNet as web;
ghost use Rattle.plain_split.specs.RoundsChart.{count, givers, is_single, is_kept, is_out, toggles};
ghost use Rattle.plain_split.specs.RoundsChart as chart;
ghost use Rattle.net_laws.specs.ForkChain.{each};
ghost use Rattle.plain_split.specs.Mirror.RoundsTables.{parts_by, number_of, part_of, toggle_of, shown, IsTabled, IsNumbered};

use crate::gives::Give;
use crate::round_numbers::{RoundNumbers, go_number};
use crate::round_parts::RoundParts;
use basic_kinds::Kind;
use net_core::{Node, NodeSpec};
use std::alloc::{AllocError, Global};

/// The C of the burst, where it has two symbols or more.
fn join(alloc: Global, parts: &RoundParts, numbers: &RoundNumbers) -> Result<Vec<Node>, AllocError>
    requires tabled { IsTabled parts.now }
    requires numbered { IsNumbered (parts_by parts.now) numbers.now }
    ensures { IfOk result (λ it. it.items ≡ map (part_of (parts_by parts.now)) (filter (is_kept (parts_by parts.now)) (web.Join ∷ []))) }
{
    let mut nodes = Vec::new(alloc);
    if parts.burst.len() != 1 {
        let mut wires = Vec::from_slice(alloc, parts.burst.as_slice())?;
        wires.push(numbers.tree[0][0])?;
        nodes.push(Node {
            spec: NodeSpec::Kind(Kind::C(parts.burst.len() as u32)),
            wires,
        })?;
    }
    Ok(nodes)
}

/// The TOGGLEs of a level, from the numbers of its places and of those below.
fn toggle_level(alloc: Global, upper: &[u32], lower: &[u32]) -> Result<Vec<Node>, AllocError>
    requires { length lower.now ≡ length upper.now + length upper.now }
    ensures { IfOk result (λ it. it.items ≡ map (toggle_of upper.now lower.now) (range_with_len 0 (length upper.now))) }
{
    let mut nodes = Vec::new(alloc);
    for place in 0..upper.len() {
        let wires = vec![in alloc; upper[place], lower[place], lower[place + upper.len()]]?;
        nodes.push(Node {
            spec: NodeSpec::Kind(Kind::Toggle),
            wires,
        })?;
    }
    Ok(nodes)
}

/// The TOGGLEs, level by level.
fn all_toggles(
    alloc: Global,
    parts: &RoundParts,
    numbers: &RoundNumbers,
) -> Result<Vec<Node>, AllocError>
    requires tabled { IsTabled parts.now }
    requires numbered { IsNumbered (parts_by parts.now) numbers.now }
    ensures { IfOk result (λ it. it.items ≡ map (part_of (parts_by parts.now)) (each (toggles (parts_by parts.now)) parts.now.levels)) }
{
    let mut nodes = Vec::new(alloc);
    for depth in 0..parts.levels as usize {
        let upper = numbers.tree[depth].as_slice();
        let lower = numbers.tree[depth + 1].as_slice();
        nodes.append(&mut toggle_level(alloc, upper, lower)?)?;
    }
    Ok(nodes)
}

/// The IWIRE of the act that begins the process, if one does.
fn gate(alloc: Global, parts: &RoundParts, numbers: &RoundNumbers) -> Result<Vec<Node>, AllocError>
    requires tabled { IsTabled parts.now }
    requires numbered { IsNumbered (parts_by parts.now) numbers.now }
    ensures { IfOk result (λ it. it.items ≡ map (part_of (parts_by parts.now)) (filter (is_kept (parts_by parts.now)) (web.Gate 0 ∷ []))) }
{
    let mut nodes = Vec::new(alloc);
    if parts.opens {
        let entry = numbers.tree[parts.levels as usize][parts.round_before(0) as usize];
        let wires = vec![in alloc; entry, numbers.begin]?;
        nodes.push(Node {
            spec: NodeSpec::Kind(Kind::Iwire),
            wires,
        })?;
    }
    Ok(nodes)
}

/// The FORK of an act.
fn spread(
    alloc: Global,
    parts: &RoundParts,
    numbers: &RoundNumbers,
    act: u32,
) -> Result<Node, AllocError>
    requires tabled { IsTabled parts.now }
    requires numbered { IsNumbered (parts_by parts.now) numbers.now }
    requires known { act < pow parts.now.levels }
    ensures { IfOk result (λ it. it ≡ part_of (parts_by parts.now) (web.Spread act)) }
{
    let leaves = numbers.tree[parts.levels as usize].as_slice();
    let begin = go_number(parts, leaves, numbers.begin, act);
    let puts = numbers.puts[act as usize].as_slice();
    let mut wires = vec![in alloc; begin]?;
    wires.extend_from_slice(puts)?;
    Ok(Node {
        spec: NodeSpec::Kind(Kind::Fork(puts.len() as u32)),
        wires,
    })
}

/// The FORKs of the acts with two outputs or more.
fn spreads(
    alloc: Global,
    parts: &RoundParts,
    numbers: &RoundNumbers,
) -> Result<Vec<Node>, AllocError>
    requires tabled { IsTabled parts.now }
    requires numbered { IsNumbered (parts_by parts.now) numbers.now }
    ensures { IfOk result (λ it. it.items ≡ map (part_of (parts_by parts.now)) (filter (is_kept (parts_by parts.now)) (map web.Spread (range_with_len 0 (pow parts.now.levels))))) }
{
    let mut nodes = Vec::new(alloc);
    for act in 0..parts.rounds() {
        if parts.outs[act as usize].len() != 1 {
            let next = spread(alloc, parts, numbers, act)?;
            nodes.push(next)?;
        }
    }
    Ok(nodes)
}

/// The numbers of these outputs of acts.
fn give_numbers(alloc: Global, puts: &[Vec<u32>], gives: &[Give]) -> Result<Vec<u32>, AllocError>
    requires acts { AllByRecursion (λ g. g.act < length puts.now) gives.now }
    requires ports { AllByRecursion (λ g. g.port < length (get_or (map (λ v. v.items) puts.now) g.act [])) gives.now }
    ensures { IfOk result (λ it. it.items ≡ map (λ g. slice_index (get_or (map (λ v. v.items) puts.now) g.act []) g.port) gives.now) }
{
    let mut wires = Vec::new(alloc);
    for give in gives {
        wires.push(puts[give.act as usize][give.port as usize])?;
    }
    Ok(wires)
}

/// The MERGE of a symbol.
fn show(
    alloc: Global,
    parts: &RoundParts,
    numbers: &RoundNumbers,
    symbol: u32,
) -> Result<Node, AllocError>
    requires tabled { IsTabled parts.now }
    requires numbered { IsNumbered (parts_by parts.now) numbers.now }
    requires known { symbol < count (parts_by parts.now) }
    requires out { IsTrue (is_out (parts_by parts.now) symbol) }
    ensures { IfOk result (λ it. it ≡ part_of (parts_by parts.now) (web.Shows symbol)) }
{
    let gives = parts.gives[symbol as usize].as_slice();
    let mut wires = give_numbers(alloc, numbers.puts.as_slice(), gives)?;
    wires.push(symbol)?;
    Ok(Node {
        spec: NodeSpec::Kind(Kind::Merge(gives.len() as u32)),
        wires,
    })
}

/// Whether a symbol is an output of two acts or more.
fn is_shown(parts: &RoundParts, symbol: u32) -> bool
    requires tabled { IsTabled parts.now }
    requires known { symbol < count (parts_by parts.now) }
    ensures { result ≡ (is_out (parts_by parts.now) symbol && not (is_single (givers (parts_by parts.now) symbol))) }
{
    parts.sides[symbol as usize] && parts.gives[symbol as usize].len() != 1
}

/// The MERGEs of the symbols that two acts or more give.
fn shows(alloc: Global, parts: &RoundParts, numbers: &RoundNumbers) -> Result<Vec<Node>, AllocError>
    requires tabled { IsTabled parts.now }
    requires numbered { IsNumbered (parts_by parts.now) numbers.now }
    ensures { IfOk result (λ it. it.items ≡ map (part_of (parts_by parts.now)) (map web.Shows (shown (parts_by parts.now)))) }
{
    let mut nodes = Vec::new(alloc);
    for symbol in 0..parts.sides.len() as u32 {
        if is_shown(parts, symbol) {
            let next = show(alloc, parts, numbers, symbol)?;
            nodes.push(next)?;
        }
    }
    Ok(nodes)
}

/// The components, in the order of their numbers.
pub fn components(
    alloc: Global,
    parts: &RoundParts,
    numbers: &RoundNumbers,
) -> Result<Vec<Node>, AllocError>
    requires tabled { IsTabled parts.now }
    requires numbered { IsNumbered (parts_by parts.now) numbers.now }
    ensures { IfOk result (λ it. it.items ≡ map (part_of (parts_by parts.now)) (chart.parts (parts_by parts.now))) }
{
    let mut nodes = join(alloc, parts, numbers)?;
    nodes.append(&mut all_toggles(alloc, parts, numbers)?)?;
    nodes.append(&mut gate(alloc, parts, numbers)?)?;
    nodes.append(&mut spreads(alloc, parts, numbers)?)?;
    nodes.append(&mut shows(alloc, parts, numbers)?)?;
    Ok(nodes)
}
