//! What is counted of a process, read off its graph.
ghost use Rattle.std.specs.Prelude.{◌≡◌, ℕ, ◌+◌, ◌-◌, ◌<◌, ◌^◌, ◌++◌, nat_eq, length, map, replicate, true, false, get_or, [], IfOk, OnOk};
ghost use Rattle.std.specs.List.{range_with_len, list_any, AllByRecursion};
ghost use Rattle.basic_kinds.specs.Sums.{Wide, One, Wait};
ghost use Rattle.basic_kinds.specs.Sorts.{Toggles};
ghost use Rattle.place_graph.specs.GraphTraces.{numbers_of};
ghost use Rattle.place_graph.specs.Style.{is_exit, style_of};
ghost use Rattle.place_graph.specs.Sums as sums;
ghost use Rattle.count_sum.specs.Mirror.Parts.{sort_of, counted_of};
ghost use Rattle.count_sum.specs.Mirror.Lists.{times, joined, kept_outs, given_by, listed, single_acts, gate_of, first_by, first_wait_by, wait_gate, directs_by, straight_by};
ghost use Rattle.count_sum.specs.Mirror.Graphs.{IsReadable};

use crate::counts::Sort;
use crate::parts::Part;
use crate::tally::tally;
use cmd_tree::Sym;
use place_graph::{Act, Cross, SplitStyle, Start, WaitGraph, style};
use shape_parts::{ShapePart, parts};
use sqlite_items::Items;
use std::alloc::{AllocError, Global};

/// Groups of one sort, of these widths.
fn wide(alloc: Global, sort: Sort, widths: &[usize]) -> Result<Vec<Part>, AllocError>
    ensures { IfOk result (λ it. map counted_of it.items ≡ map (Wide (sort_of sort)) widths.now) }
{
    let mut groups = Vec::new(alloc);
    for width in widths {
        groups.push(Part::Wide(sort, *width))?;
    }
    Ok(groups)
}

fn burst_widths(alloc: Global, bursts: &[Items<Sym>]) -> Result<Vec<usize>, AllocError>
    ensures { IfOk result (λ it. it.items ≡ map (λ b. length b) bursts.now) }
{
    let mut widths = Vec::new(alloc);
    for burst in bursts {
        widths.push(burst.len())?;
    }
    Ok(widths)
}

fn out_widths(alloc: Global, acts: &[Act]) -> Result<Vec<usize>, AllocError>
    ensures { IfOk result (λ it. it.items ≡ map (λ y. length y.outs) acts.now) }
{
    let mut widths = Vec::new(alloc);
    for act in acts {
        widths.push(act.outs.len())?;
    }
    Ok(widths)
}

/// The outputs of an act, and its exit.
fn move_width(act: &Act) -> usize
    requires { length act.now.outs < 2 ^ 32 }
    ensures { result ≡ length act.now.outs + sums.exits act.now.exit }
{
    match act.exit {
        None => act.outs.len(),
        Some(_) => act.outs.len() + 1,
    }
}

fn move_widths(alloc: Global, acts: &[Act]) -> Result<Vec<usize>, AllocError>
    requires { AllByRecursion (λ y. length y.outs < 2 ^ 32) acts.now }
    ensures { IfOk result (λ it. it.items ≡ map (λ y. length y.outs + sums.exits y.exit) acts.now) }
{
    let mut widths = Vec::new(alloc);
    for act in acts {
        widths.push(move_width(act))?;
    }
    Ok(widths)
}

/// The act of each crossing.
fn called(alloc: Global, crosses: &[Cross]) -> Result<Vec<u32>, AllocError>
    ensures { IfOk result (λ it. it.items ≡ map (λ c. c.act) crosses.now) }
{
    crosses.iter().map(|cross| cross.act).collect(alloc)
}

fn is_single(bursts: &[Items<Sym>], burst: u32) -> bool
    ensures { result ≡ nat_eq (length (get_or bursts.now burst [])) 1 }
{
    match bursts.get(burst as usize) {
        Some(burst) => burst.len() == 1,
        None => false,
    }
}

/// The act of each crossing whose burst is of one symbol.
fn single_acts(
    alloc: Global,
    bursts: &[Items<Sym>],
    crosses: &[Cross],
) -> Result<Vec<u32>, AllocError>
    ensures { IfOk result (λ it. it.items ≡ single_acts bursts.now crosses.now) }
{
    let mut acts = Vec::new(alloc);
    for cross in crosses {
        if is_single(bursts, cross.burst) {
            acts.push(cross.act)?;
        }
    }
    Ok(acts)
}

/// The waits that acts lead to.
fn exits(alloc: Global, acts: &[Act]) -> Result<Vec<u32>, AllocError>
    ensures { IfOk result (λ it. it.items ≡ joined (λ y. listed y.exit) acts.now) }
{
    let mut waits = Vec::new(alloc);
    for act in acts {
        if let Some(wait) = act.exit {
            waits.push(wait)?;
        }
    }
    Ok(waits)
}

fn push_numbers(numbers: &mut Vec<u32>, symbols: &[Sym]) -> Result<(), AllocError>
    ensures { OnOk result (numbers.new.items ≡ numbers.old.items ++ numbers_of symbols.now) }
{
    for symbol in symbols {
        numbers.push(symbol.0)?;
    }
    Ok(())
}

/// The outputs of an act, where it is marked.
fn kept_outs<'a>(acts: &'a [Act], kept: &[bool], act: usize) -> &'a [Sym]
    requires acts { act < length acts.now }
    requires kept { act < length kept.now }
    ensures { result.now ≡ kept_outs kept.now acts.now act }
{
    if kept[act] {
        acts[act].outs.as_slice()
    } else {
        &[]
    }
}

/// The outputs of all acts that are marked.
fn given(alloc: Global, acts: &[Act], kept: &[bool]) -> Result<Vec<u32>, AllocError>
    requires { length kept.now ≡ length acts.now }
    ensures { IfOk result (λ it. it.items ≡ given_by kept.now acts.now) }
{
    let mut numbers = Vec::new(alloc);
    for act in 0..acts.len() {
        push_numbers(&mut numbers, kept_outs(acts, kept, act))?;
    }
    Ok(numbers)
}

/// At the act where the process begins, an IWIRE where something leads there, else a SOURCE.
fn first_act(alloc: Global, start: Start, entries: &[usize]) -> Result<Vec<Part>, AllocError>
    ensures { IfOk result (λ it. map counted_of it.items ≡ first_by start entries.now) }
{
    let mut first = Vec::new(alloc);
    if let Start::Act(act) = start {
        if let Some(entries) = entries.get(act as usize) {
            first.push(Part::One(gate(*entries)))?;
        }
    }
    Ok(first)
}

fn gate(entries: usize) -> Sort
    ensures { One (sort_of result) ≡ gate_of entries }
{
    if entries == 0 {
        Sort::Source
    } else {
        Sort::Iwire
    }
}

/// A WIRE for each symbol with one giver, which is straight.
fn directs(alloc: Global, givers: &[usize], straights: &[usize]) -> Result<Vec<Part>, AllocError>
    requires { length straights.now ≡ length givers.now }
    ensures { IfOk result (λ it. map counted_of it.items ≡ directs_by givers.now straights.now) }
{
    let mut wires = Vec::new(alloc);
    for symbol in 0..givers.len() {
        if givers[symbol] == 1 && straights[symbol] == 1 {
            wires.push(Part::One(Sort::Wire))?;
        }
    }
    Ok(wires)
}

/// The TOGGLEs of a ring of so many rounds.
fn toggles(alloc: Global, rounds: u32) -> Result<Vec<Part>, AllocError>
    ensures { IfOk result (λ it. map counted_of it.items ≡ map (λ i. One Toggles) (range_with_len 0 (rounds - 1))) }
{
    let mut ring = Vec::new(alloc);
    let others = rounds.saturating_sub(1);
    for _ in 0..others {
        ring.push(Part::One(Sort::Toggle))?;
    }
    Ok(ring)
}

/// Whether some act leads to the wait.
fn is_left_for(wait: u32, acts: &[Act]) -> bool
    ensures { result ≡ list_any (λ y. is_exit wait y.exit) acts.now }
{
    for act in acts {
        if leads_to(act.exit, wait) {
            return true;
        }
    }
    false
}

fn leads_to(exit: Option<u32>, wait: u32) -> bool
    ensures { result ≡ is_exit wait exit }
{
    match exit {
        None => false,
        Some(exit) => exit == wait,
    }
}

/// Where the process begins at a wait, an IWIRE where an act leads there, else a SOURCE.
fn first_wait(alloc: Global, start: Start, acts: &[Act]) -> Result<Vec<Part>, AllocError>
    ensures { IfOk result (λ it. map counted_of it.items ≡ first_wait_by start acts.now) }
{
    let mut first = Vec::new(alloc);
    if let Start::Wait(wait) = start {
        first.push(Part::One(wait_gate(wait, acts)))?;
    }
    Ok(first)
}

fn wait_gate(wait: u32, acts: &[Act]) -> Sort
    ensures { sort_of result ≡ wait_gate wait acts.now }
{
    if is_left_for(wait, acts) {
        Sort::Iwire
    } else {
        Sort::Source
    }
}

/// The wait and the burst of each crossing.
fn pairs(alloc: Global, graph: &WaitGraph) -> Result<Vec<(u32, u32)>, AllocError>
    ensures { IfOk result (λ it. it.items ≡ sums.pairs graph.now) }
{
    let crosses = graph.crosses.as_slice();
    crosses
        .iter()
        .map(|cross| (cross.wait, cross.burst))
        .collect(alloc)
}

/// A DW for each part of the crossings.
fn waits_of(alloc: Global, found: &[ShapePart]) -> Result<Vec<Part>, AllocError>
    ensures { IfOk result (λ it. map counted_of it.items ≡ map (λ p. Wait (length p.rows) (length p.columns) p.cross) found.now) }
{
    let mut waits = Vec::new(alloc);
    for part in found {
        let cross = Items::from_slice(alloc, part.cross.as_slice())?;
        waits.push(Part::Wait(part.rows.len(), part.columns.len(), cross))?;
    }
    Ok(waits)
}

fn meetings(alloc: Global, graph: &WaitGraph) -> Result<Vec<Part>, AllocError>
    requires { IsReadable graph.now }
    ensures { IfOk result (λ it. map counted_of it.items ≡ sums.meetings graph.now) }
{
    let pairs = pairs(alloc, graph)?;
    let found = parts(
        alloc,
        graph.waits,
        graph.bursts.len() as u32,
        pairs.as_slice(),
    )?;
    waits_of(alloc, found.as_slice())
}

/// A C for each burst.
fn joins(alloc: Global, graph: &WaitGraph) -> Result<Vec<Part>, AllocError>
    ensures { IfOk result (λ it. map counted_of it.items ≡ sums.joins graph.now) }
{
    let widths = burst_widths(alloc, graph.bursts.as_slice())?;
    wide(alloc, Sort::C, widths.as_slice())
}

/// A FORK for each act, to its outputs.
fn spreads(alloc: Global, graph: &WaitGraph) -> Result<Vec<Part>, AllocError>
    ensures { IfOk result (λ it. map counted_of it.items ≡ sums.spreads graph.now) }
{
    let widths = out_widths(alloc, graph.acts.as_slice())?;
    wide(alloc, Sort::Fork, widths.as_slice())
}

/// A FORK for each act, to its outputs and its exit.
fn moves(alloc: Global, graph: &WaitGraph) -> Result<Vec<Part>, AllocError>
    requires { IsReadable graph.now }
    ensures { IfOk result (λ it. map counted_of it.items ≡ sums.moves graph.now) }
{
    let widths = move_widths(alloc, graph.acts.as_slice())?;
    wide(alloc, Sort::Fork, widths.as_slice())
}

/// A MERGE for each wait, of the acts that lead to it.
fn returns(alloc: Global, graph: &WaitGraph) -> Result<Vec<Part>, AllocError>
    ensures { IfOk result (λ it. map counted_of it.items ≡ sums.returns graph.now) }
{
    let waits = exits(alloc, graph.acts.as_slice())?;
    let widths = tally(alloc, waits.as_slice(), graph.waits as usize)?;
    wide(alloc, Sort::Merge, widths.as_slice())
}

/// How many crossings lead to each act.
fn entry_counts(alloc: Global, graph: &WaitGraph) -> Result<Vec<usize>, AllocError>
    ensures { IfOk result (λ it. it.items ≡ map (λ n. length (sums.entries_of graph.now n)) (sums.all_acts graph.now)) }
{
    let acts = called(alloc, graph.crosses.as_slice())?;
    tally(alloc, acts.as_slice(), graph.acts.len())
}

/// So many marks.
fn marks(alloc: Global, many: usize) -> Result<Vec<bool>, AllocError>
    ensures { IfOk result (λ it. it.items ≡ replicate many true) }
{
    let mut marks = Vec::new(alloc);
    for _ in 0..many {
        marks.push(true)?;
    }
    Ok(marks)
}

/// How many acts give each symbol below `names`.
fn giver_counts(alloc: Global, graph: &WaitGraph, names: usize) -> Result<Vec<usize>, AllocError>
    requires { IsReadable graph.now }
    ensures { IfOk result (λ it. it.items ≡ map (λ a. length (sums.givers graph.now a)) (range_with_len 0 names)) }
{
    let acts = graph.acts.as_slice();
    let all = marks(alloc, acts.len())?;
    let numbers = given(alloc, acts, all.as_slice())?;
    tally(alloc, numbers.as_slice(), names)
}

fn begins_at(start: Start, act: usize) -> bool
    ensures { result ≡ sums.begins_at start act }
{
    match start {
        Start::Wait(_) => false,
        Start::Act(first) => act == first as usize,
    }
}

/// Whether the act leads one input straight to one output, by how many crossings lead to it, and how many of
/// these are of one symbol.
fn is_straight(graph: &WaitGraph, entries: &[usize], singles: &[usize], act: usize) -> bool
    requires acts { act < length graph.now.acts }
    requires entries { act < length entries.now }
    requires singles { act < length singles.now }
    ensures { result ≡ straight_by entries.now singles.now graph.now act }
{
    let outs = graph.acts.as_slice()[act].outs.len();
    outs == 1 && !begins_at(graph.start, act) && entries[act] == 1 && singles[act] == 1
}

fn straight_acts(
    alloc: Global,
    graph: &WaitGraph,
    entries: &[usize],
) -> Result<Vec<bool>, AllocError>
    requires { entries.now ≡ map (λ n. length (sums.entries_of graph.now n)) (sums.all_acts graph.now) }
    ensures { IfOk result (λ it. it.items ≡ map (sums.is_straight graph.now) (sums.all_acts graph.now)) }
{
    let called = single_acts(alloc, graph.bursts.as_slice(), graph.crosses.as_slice())?;
    let singles = tally(alloc, called.as_slice(), graph.acts.len())?;
    let mut straight = Vec::new(alloc);
    for act in 0..graph.acts.len() {
        straight.push(is_straight(graph, entries, singles.as_slice(), act))?;
    }
    Ok(straight)
}

/// A WIRE for each symbol that a straight act gives and no other.
fn straight_wires(
    alloc: Global,
    graph: &WaitGraph,
    entries: &[usize],
    givers: &[usize],
) -> Result<Vec<Part>, AllocError>
    requires readable { IsReadable graph.now }
    requires entries { entries.now ≡ map (λ n. length (sums.entries_of graph.now n)) (sums.all_acts graph.now) }
    requires givers { givers.now ≡ map (λ a. length (sums.givers graph.now a)) (range_with_len 0 (length givers.now)) }
    ensures { IfOk result (λ it. map counted_of it.items ≡ sums.directs graph.now (length givers.now)) }
{
    let kept = straight_acts(alloc, graph, entries)?;
    let numbers = given(alloc, graph.acts.as_slice(), kept.as_slice())?;
    let straights = tally(alloc, numbers.as_slice(), givers.len())?;
    directs(alloc, givers, straights.as_slice())
}

/// What is counted with a token alone.
fn token_parts(alloc: Global, graph: &WaitGraph) -> Result<Vec<Part>, AllocError>
    requires { IsReadable graph.now }
    ensures { IfOk result (λ it. map counted_of it.items
        ≡ sums.moves graph.now ++ (sums.returns graph.now ++ (first_wait_by graph.now.start graph.now.acts ++ sums.meetings graph.now))) }
{
    let mut first = first_wait(alloc, graph.start, graph.acts.as_slice())?;
    first.append(&mut meetings(alloc, graph)?)?;
    let mut returns = returns(alloc, graph)?;
    returns.append(&mut first)?;
    let mut moves = moves(alloc, graph)?;
    moves.append(&mut returns)?;
    Ok(moves)
}

/// What is counted by the style of the graph.
fn style_parts(
    alloc: Global,
    graph: &WaitGraph,
    entries: &[usize],
    givers: &[usize],
) -> Result<Vec<Part>, AllocError>
    requires readable { IsReadable graph.now }
    requires entries { entries.now ≡ map (λ n. length (sums.entries_of graph.now n)) (sums.all_acts graph.now) }
    requires givers { givers.now ≡ map (λ a. length (sums.givers graph.now a)) (range_with_len 0 (length givers.now)) }
    ensures { IfOk result (λ it. map counted_of it.items ≡ sums.of_style (style_of graph.now) graph.now (length givers.now)) }
{
    match style(graph) {
        SplitStyle::OneWait => {
            let mut parts = spreads(alloc, graph)?;
            parts.append(&mut straight_wires(alloc, graph, entries, givers)?)?;
            Ok(parts)
        }
        SplitStyle::Rounds(rounds) => {
            let mut parts = spreads(alloc, graph)?;
            parts.append(&mut toggles(alloc, rounds)?)?;
            Ok(parts)
        }
        SplitStyle::Token => token_parts(alloc, graph),
    }
}

/// What is counted of a process with this graph, over so many symbols.
pub fn graph_parts(alloc: Global, graph: &WaitGraph, names: usize) -> Result<Vec<Part>, AllocError>
    requires { IsReadable graph.now }
    ensures { IfOk result (λ it. map counted_of it.items ≡ sums.counted graph.now names) }
{
    let entries = entry_counts(alloc, graph)?;
    let givers = giver_counts(alloc, graph, names)?;
    let mut rest = style_parts(alloc, graph, entries.as_slice(), givers.as_slice())?;
    let mut first = first_act(alloc, graph.start, entries.as_slice())?;
    first.append(&mut rest)?;
    let mut shows = wide(alloc, Sort::Merge, givers.as_slice())?;
    shows.append(&mut first)?;
    let mut calls = wide(alloc, Sort::Merge, entries.as_slice())?;
    calls.append(&mut shows)?;
    let mut parts = joins(alloc, graph)?;
    parts.append(&mut calls)?;
    Ok(parts)
}
