//! Where one process is: the leg under way, and what is left of it.
ghost use Rattle.std.specs.Prelude.{◌≡◌, ◌≢◌, ◌↔◌, ℕ, ◌+◌, ◌<◌, ◌≤◌, ◌^◌, IsTrue, true, false, List, [], ◌∷◌, ◌++◌, length, slice_get, slice_index_or, IfOk, OnOk, None, Some};
ghost use Rattle.cmd_tree.specs.declared.tree.Proc.{Proc};
ghost use Rattle.cmd_tree.specs.Limits.{IsProc, places_of_proc};
ghost use Rattle.cmd_tree.specs.Meaning.{TraceOf};
ghost use Rattle.place_graph.specs.declared.leg.Leg.{Leg};
ghost use Rattle.place_graph.specs.Apart.{HasApart};
ghost use Rattle.place_graph.specs.Points.{Among, legs};
ghost use Rattle.place_graph.specs.Walks.{Here, Move, begin};
ghost use Rattle.cmd_machine.specs.Lawful.{Lawful};
ghost use Rattle.cmd_machine.specs.Mirror.Positions.{FindsLegs, SpotOf, IsAt, IsOpen, after, Stands};

use cmd_tree::{Proc, Sym};
use place_graph::{Leg, legs};
use std::alloc::{AllocError, Global};
use std::collections::BTreeMap;

/// A mark of a leg: the place of the leg, how many marks it has, the index of this one among them, and the
/// point to which it leads.
#[derive(Debug, Clone, Copy, PartialEq, Eq)]
struct Spot {
    place: u32,
    size: usize,
    index: usize,
    to: u32,
}

/// Where a process is. Legs lead from its point, one of which may be under way: then some of its symbols
/// are left, whose bits are set. The leg for a symbol and a point is found by halves.
#[derive(Drop)]
pub struct Position {
    spots: BTreeMap<(u32, u32), Spot>,
    point: u32,
    under_way: u32,
    left: usize,
    to_come: Vec<bool>,
}

impl Position {
    /// The position of a process that stands for the empty trace.
    pub fn new(alloc: Global, process: &Proc) -> Result<Position, AllocError>
        requires whole { IsProc process.now }
        requires apart { HasApart process.now }
        requires lawful { Lawful (legs process.now) }
        requires few { places_of_proc process.now + 1 < 2 ^ 32 }
        ensures { IfOk result (λ position. Stands process.now position []) }
    {
        let legs = legs(alloc, process)?;
        Position::of_legs(alloc, legs.as_slice())
    }

    /// The position at the begin of walks along these legs.
    pub(crate) fn of_legs(alloc: Global, legs: &[Leg]) -> Result<Position, AllocError>
        ensures { IfOk result (λ position. IsAt legs.now position begin) }
    {
        let mut spots = BTreeMap::new(alloc);
        let mut most = 0;
        for leg in legs {
            enter(&mut spots, leg)?;
            most = most.max(leg.marks.len());
        }
        let to_come = vec![in alloc; false; most]?;
        Ok(Position {
            spots,
            point: 1,
            under_way: 0,
            left: 0,
            to_come,
        })
    }

    /// Whether the trace so far, followed by the symbol, is a trace of the process. A symbol that is not
    /// there gives false.
    pub fn can(&self, symbol: Sym) -> bool
        ensures { (p : Proc) (t : List ℕ) → Stands p self.now t
            → (IsTrue result ↔ TraceOf p (t ++ symbol.0 ∷ [])) }
    {
        self.may(symbol)
    }

    /// Answers as `can` does. Where that is true the trace grows by the symbol, and else nothing changes.
    pub fn step(&mut self, symbol: Sym) -> bool
        ensures answer { (p : Proc) (t : List ℕ) → Stands p self.old t
            → (IsTrue result ↔ TraceOf p (t ++ symbol.0 ∷ [])) }
        ensures taken { (p : Proc) (t : List ℕ) → Stands p self.old t → IsTrue result
            → Stands p self.new (t ++ symbol.0 ∷ []) }
        ensures still { result ≡ false → self.new ≡ self.old }
    {
        self.advance(symbol)
    }

    // Whether a move by the symbol leads on.
    fn may(&self, symbol: Sym) -> bool
        ensures { (L : List Leg) (c : Here) → Lawful L → IsAt L self.now c
            → (IsTrue result ↔ ((d : Here) × Move L c symbol.0 d)) }
    {
        match self.spots.get(&(symbol.0, self.point)) {
            None => false,
            Some(spot) => self.awaits(spot),
        }
    }

    // Takes the move by the symbol where one leads on, and else changes nothing.
    fn advance(&mut self, symbol: Sym) -> bool
        ensures answer { (L : List Leg) (c : Here) → Lawful L → IsAt L self.old c
            → (IsTrue result ↔ ((d : Here) × Move L c symbol.0 d)) }
        ensures taken { (L : List Leg) (c : Here) → Lawful L → IsAt L self.old c → IsTrue result
            → (d : Here) × Move L c symbol.0 d × IsAt L self.new d }
        ensures still { result ≡ false → self.new ≡ self.old }
    {
        let Some(spot) = self.spots.get(&(symbol.0, self.point)) else {
            return false;
        };
        let spot = *spot;
        let can = self.awaits(&spot);
        if can {
            self.open(&spot);
            self.take(&spot);
        }
        can
    }

    // Whether the mark is still to come, or no leg is under way.
    fn awaits(&self, spot: &Spot) -> bool
        ensures { (L : List Leg) (c : Here) (a : ℕ) → Lawful L → IsAt L self.now c
            → SpotOf (λ l i. Among L l) (a, self.now.point) spot.now
            → (IsTrue result ↔ ((d : Here) × Move L c a d)) }
    {
        self.left == 0 || (spot.place == self.under_way && self.is_left(spot.index))
    }

    // Whether the mark of this index is left of the leg under way.
    fn is_left(&self, index: usize) -> bool
        ensures { result ≡ slice_index_or self.now.to_come.items index false }
    {
        match self.to_come.get(index) {
            None => false,
            Some(bit) => *bit,
        }
    }

    // The leg of the mark is under way from now on, if none is.
    fn open(&mut self, spot: &Spot)
        ensures { (L : List Leg) (c d : Here) (a : ℕ) → Lawful L → IsAt L self.old c
            → SpotOf (λ l i. Among L l) (a, self.old.point) spot.now → Move L c a d
            → (e : Here) × IsOpen L self.new a spot.now e × Move L c a (after a e) }
    {
        if self.left == 0 {
            self.under_way = spot.place;
            self.left = spot.size;
            raise(&mut self.to_come, spot.size);
        }
    }

    // The mark of the leg under way comes.
    fn take(&mut self, spot: &Spot)
        ensures { (L : List Leg) (e : Here) (a : ℕ) → Lawful L → IsOpen L self.old a spot.now e
            → IsAt L self.new (after a e) }
    {
        clear(&mut self.to_come, spot.index);
        // Some mark was left, since this one was.
        self.left = self.left.saturating_sub(1);
        if self.left == 0 {
            self.point = spot.to;
        }
    }
}

// Sets the first bits.
fn raise(bits: &mut Vec<bool>, count: usize)
    ensures set { (i : ℕ) → i < count → count ≤ length bits.old.items → slice_index_or bits.new.items i false ≡ true }
    ensures length { length bits.new.items ≡ length bits.old.items }
{
    let count = count.min(bits.len());
    for index in 0..count {
        bits[index] = true;
    }
}

// Clears the bit of this index.
fn clear(bits: &mut Vec<bool>, index: usize)
    ensures here { slice_index_or bits.new.items index false ≡ false }
    ensures others { (i : ℕ) → i ≢ index → slice_index_or bits.new.items i false ≡ slice_index_or bits.old.items i false }
    ensures length { length bits.new.items ≡ length bits.old.items }
{
    if index < bits.len() {
        bits[index] = false;
    }
}

// Enters the marks of a leg in the table.
fn enter(spots: &mut BTreeMap<(u32, u32), Spot>, leg: &Leg) -> Result<(), AllocError>
    ensures { (L : List Leg) → FindsLegs L spots.old → OnOk result (FindsLegs (L ++ leg.now ∷ []) spots.new) }
{
    let size = leg.marks.len();
    for (index, mark) in leg.marks.as_slice().iter().enumerate() {
        let spot = Spot {
            place: leg.place,
            size,
            index,
            to: leg.to,
        };
        spots.insert((mark.sym.0, leg.from), spot)?;
    }
    Ok(())
}
