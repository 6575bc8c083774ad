//! The graph of a process by numbers.
ghost use Rattle.std.specs.Prelude.{◌≡◌, ℕ, ◌+◌, ◌<◌, ◌^◌, IsTrue, [], ◌∷◌, length, map, IfOk, OnOk};
ghost use Rattle.std.specs.List.{AllByRecursion};
ghost use Rattle.cmd_tree.specs.declared.limits.TheConstants.{MAX_SYMBOLS};
ghost use Rattle.cmd_tree.specs.declared.tree.Sym.{Sym as Symbol};
ghost use Rattle.place_graph.specs.Graph.{acts_of, inputs_of, wait_points, act_points, syms, has_sym, same_set, with_new, is_act, cross, in_order, act, start_at, graph_of};
ghost use Rattle.place_graph.specs.Drawable.{IsDrawable};
ghost use Rattle.place_graph.specs.Mirror.Numbers.{AreNumerable, AreNumbersOf, AreBurstNumbers};
ghost use Rattle.place_graph.specs.declared.draw.TheConstants.{POINTS};

use crate::leg::{Leg, legs};
use crate::numbers::{BurstNumbers, PointNumbers};
use crate::wait_graph::{Act, Cross, Start, WaitGraph};
use cmd_tree::{Dir, MAX_PLACES, MAX_SYMBOLS, Proc, Sym};
use sqlite_items::Items;
use std::alloc::{AllocError, Global};

// The points of a process are at most one more than its places, and 0.
const POINTS: usize = MAX_PLACES as usize + 2;

/// The graph of a process by numbers.
pub fn graph(alloc: Global, process: &Proc) -> Result<WaitGraph, AllocError>
    requires { IsDrawable process.now }
    ensures { IfOk result (λ g. g ≡ graph_of process.now) }
{
    let legs = legs(alloc, process)?;
    let waits = number_waits(alloc, &legs)?;
    let acts = number_acts(alloc, &legs)?;
    let bursts = number_bursts(alloc, &legs)?;
    let crosses = crosses(alloc, &legs, &waits, &acts, &bursts)?;
    let exits = exits(alloc, &legs, &waits)?;
    Ok(WaitGraph {
        waits: waits.count(),
        bursts: bursts.bursts,
        crosses,
        acts: exits,
        start: begin(&waits, &acts),
    })
}

fn number_waits(alloc: Global, legs: &[Leg]) -> Result<PointNumbers, AllocError>
    requires { AreNumerable legs.now POINTS }
    ensures { IfOk result (λ it. it ≡ record { points = wait_points legs.now; bound = POINTS }) }
{
    let mut waits = PointNumbers::new(alloc, POINTS)?;
    for leg in legs {
        if !is_act(leg) {
            waits.add(leg.from)?;
        }
    }
    Ok(waits)
}

fn number_acts(alloc: Global, legs: &[Leg]) -> Result<PointNumbers, AllocError>
    requires { AreNumerable legs.now POINTS }
    ensures { IfOk result (λ it. it ≡ record { points = act_points legs.now; bound = POINTS }) }
{
    let mut acts = PointNumbers::new(alloc, POINTS)?;
    for leg in legs {
        if is_act(leg) {
            acts.add(leg.from)?;
        }
    }
    Ok(acts)
}

fn number_bursts(alloc: Global, legs: &[Leg]) -> Result<BurstNumbers, AllocError>
    requires { AreNumerable legs.now POINTS }
    ensures { IfOk result (λ it. AreNumbersOf legs.now it) }
{
    let mut bursts = BurstNumbers::new(alloc, MAX_SYMBOLS)?;
    for leg in legs {
        if !is_act(leg) {
            add_burst(alloc, leg, &mut bursts)?;
        }
    }
    Ok(bursts)
}

// Since a symbol is of one burst as a set, one of its symbols tells whether a burst is there.
fn add_burst(alloc: Global, leg: &Leg, bursts: &mut BurstNumbers) -> Result<(), AllocError>
    requires some { 0 < length leg.now.marks }
    requires inside { AllByRecursion (λ m. m.sym.0 < MAX_SYMBOLS) leg.now.marks }
    requires sized { length bursts.old.numbers.items ≡ MAX_SYMBOLS }
    requires few { length bursts.old.bursts + 1 < 2 ^ 32 }
    requires numbers { AreBurstNumbers bursts.old.numbers.items bursts.old.bursts }
    requires sets { (a : Symbol) → IsTrue (has_sym a (syms leg.now.marks))
        → AllByRecursion (λ b. has_sym a b ≡ same_set (syms leg.now.marks) b) bursts.old.bursts }
    ensures bursts { OnOk result
        (bursts.new.bursts ≡ with_new same_set bursts.old.bursts (syms leg.now.marks ∷ [])) }
    ensures sized { OnOk result (length bursts.new.numbers.items ≡ MAX_SYMBOLS) }
    ensures numbers { OnOk result (AreBurstNumbers bursts.new.numbers.items bursts.new.bursts) }
{
    if !bursts.has(first_sym(leg)) {
        let burst = symbols(alloc, leg)?;
        bursts.add(burst)?;
    }
    Ok(())
}

fn crosses(
    alloc: Global,
    legs: &[Leg],
    waits: &PointNumbers,
    acts: &PointNumbers,
    bursts: &BurstNumbers,
) -> Result<Items<Cross>, AllocError>
    requires legs { AreNumerable legs.now POINTS }
    requires waits { waits.now ≡ record { points = wait_points legs.now; bound = POINTS } }
    requires acts { acts.now ≡ record { points = act_points legs.now; bound = POINTS } }
    requires bursts { AreNumbersOf legs.now bursts.now }
    ensures { IfOk result (λ it. it ≡ in_order (map (cross legs.now) (inputs_of legs.now))) }
{
    let mut crosses = Vec::new(alloc);
    for leg in legs {
        if !is_act(leg) {
            crosses.push(Cross {
                wait: waits.index(leg.from),
                burst: bursts.index(first_sym(leg)),
                act: acts.index(leg.to),
            })?;
        }
    }
    sort(&mut crosses);
    Ok(Items::from_vec(crosses))
}

fn sort(crosses: &mut Vec<Cross>)
    ensures { crosses.new.items ≡ in_order crosses.old.items }
{
    crosses.sort_unstable();
}

fn exits(alloc: Global, legs: &[Leg], waits: &PointNumbers) -> Result<Items<Act>, AllocError>
    requires legs { AreNumerable legs.now POINTS }
    requires waits { waits.now ≡ record { points = wait_points legs.now; bound = POINTS } }
    ensures { IfOk result (λ it. it ≡ map (act legs.now) (acts_of legs.now)) }
{
    let mut acts = Items::new(alloc);
    for leg in legs {
        if is_act(leg) {
            let outs = symbols(alloc, leg)?;
            acts.push(Act {
                outs,
                exit: waits.number(leg.to),
            })?;
        }
    }
    Ok(acts)
}

fn begin(waits: &PointNumbers, acts: &PointNumbers) -> Start
    requires waits { 1 < waits.now.bound }
    requires acts { 1 < acts.now.bound }
    ensures { result ≡ start_at acts.now.points waits.now.points }
{
    match acts.number(1) {
        Some(act) => Start::Act(act),
        None => Start::Wait(waits.index(1)),
    }
}

fn is_act(leg: &Leg) -> bool
    ensures { result ≡ is_act leg.now }
{
    match leg.marks.as_slice() {
        [] => false,
        [mark, ..] => mark.dir == Dir::Output,
    }
}

fn first_sym(leg: &Leg) -> Sym
    requires { 0 < length leg.now.marks }
    ensures has { IsTrue (has_sym result (syms leg.now.marks)) }
    ensures inside { AllByRecursion (λ m. m.sym.0 < MAX_SYMBOLS) leg.now.marks → result.0 < MAX_SYMBOLS }
{
    leg.marks.as_slice()[0].sym
}

fn symbols(alloc: Global, leg: &Leg) -> Result<Items<Sym>, AllocError>
    ensures { IfOk result (λ it. it ≡ syms leg.now.marks) }
{
    let mut symbols = Items::new(alloc);
    for mark in leg.marks.as_slice() {
        symbols.push(mark.sym)?;
    }
    Ok(symbols)
}
