//! Numbers of points and bursts, by first occurrence.
ghost use Rattle.std.specs.Prelude.{◌≡◌, ℕ, ◌+◌, ◌<◌, ◌^◌, nat_eq, List, [], ◌∷◌, ◌++◌, length, None, position, slice_index_or, IfOk, OnOk};
ghost use Rattle.std.specs.List.{AllByRecursion, list_any, position_or_len};
ghost use Rattle.cmd_tree.specs.declared.tree.Sym.{Sym as Symbol};
ghost use Rattle.place_graph.specs.Graph.{with_new, number_at, index_of, has_sym};
ghost use Rattle.place_graph.specs.Mirror.Numbers.{AreBurstNumbers};

use cmd_tree::Sym;
use sqlite_items::Items;
use std::alloc::{AllocError, Global};
use std::marker::Model;

/// Different points below a bound, numbered in the order in which they came.
#[derive(Drop)]
pub struct PointNumbers {
    points: Vec<u32>,
    numbers: Vec<Option<u32>>,
}

impl Model for PointNumbers {
    ghost use Rattle.std.specs.Prelude.{length};
    ghost use Rattle.place_graph.specs.Mirror.Numbers.{PointNumbers, AreNumbers};

    ghost Value = { PointNumbers };

    ghost view = { λ a. record { points = a.points.items; bound = length a.numbers.items } };

    ghost invariant = { λ a. AreNumbers a.numbers.items a.points.items };
}

impl PointNumbers {
    /// No points yet, and room for those below the bound.
    pub fn new(alloc: Global, bound: usize) -> Result<PointNumbers, AllocError>
        ensures { IfOk result (λ it. it ≡ record { points = []; bound = bound }) }
    {
        let numbers = vec![in alloc; None; bound]?;
        Ok(PointNumbers {
            points: Vec::new(alloc),
            numbers,
        })
    }

    /// How many points there are.
    pub fn count(&self) -> u32
        ensures { result ≡ length self.now.points }
    {
        self.points.len() as u32
    }

    /// The number of a point, where it has one.
    pub fn number(&self, point: u32) -> Option<u32>
        requires { point < self.now.bound }
        ensures { result ≡ number_at point self.now.points }
    {
        self.numbers[point as usize]
    }

    /// The number of a point, or how many there are.
    pub fn index(&self, point: u32) -> u32
        requires { point < self.now.bound }
        ensures { result ≡ index_of point self.now.points }
    {
        match self.number(point) {
            None => self.count(),
            Some(number) => number,
        }
    }

    /// Gives the next number to the point, where it has none.
    pub fn add(&mut self, point: u32) -> Result<(), AllocError>
        requires inside { point < self.old.bound }
        requires few { length self.old.points + 1 < 2 ^ 32 }
        ensures { OnOk result
            (self.new ≡ record self.old { points = with_new nat_eq self.old.points (point ∷ []) }) }
    {
        if self.numbers[point as usize].is_none() {
            let number = self.count();
            self.points.push(point)?;
            self.numbers[point as usize] = Some(number);
        }
        Ok(())
    }
}

/// Bursts in the order in which they came, and for each symbol the number of the first burst that has it.
#[derive(Drop)]
pub struct BurstNumbers {
    pub bursts: Items<Items<Sym>>,
    pub numbers: Vec<Option<u32>>,
}

impl BurstNumbers {
    /// No bursts yet, and room for the symbols below the bound.
    pub fn new(alloc: Global, bound: usize) -> Result<BurstNumbers, AllocError>
        ensures none { IfOk result (λ it. it.bursts ≡ []) }
        ensures sized { IfOk result (λ it. length it.numbers.items ≡ bound) }
        ensures numbers { IfOk result (λ it. AreBurstNumbers it.numbers.items it.bursts) }
    {
        let numbers = vec![in alloc; None; bound]?;
        Ok(BurstNumbers {
            bursts: Items::new(alloc),
            numbers,
        })
    }

    /// The number of the first burst that has the symbol, or how many bursts there are.
    pub fn index(&self, sym: Sym) -> u32
        requires inside { sym.0 < length self.now.numbers.items }
        requires few { length self.now.bursts < 2 ^ 32 }
        requires numbers { AreBurstNumbers self.now.numbers.items self.now.bursts }
        ensures { result ≡ position_or_len (has_sym sym) self.now.bursts }
    {
        match self.numbers[sym.0 as usize] {
            None => self.bursts.len() as u32,
            Some(number) => number,
        }
    }

    /// Whether a burst has the symbol.
    pub fn has(&self, sym: Sym) -> bool
        requires inside { sym.0 < length self.now.numbers.items }
        requires numbers { AreBurstNumbers self.now.numbers.items self.now.bursts }
        ensures { result ≡ list_any (has_sym sym) self.now.bursts }
    {
        self.numbers[sym.0 as usize].is_some()
    }

    /// Gives the burst the next number.
    pub fn add(&mut self, burst: Items<Sym>) -> Result<(), AllocError>
        requires inside { AllByRecursion (λ a. a.0 < length self.old.numbers.items) burst }
        requires few { length self.old.bursts + 1 < 2 ^ 32 }
        requires numbers { AreBurstNumbers self.old.numbers.items self.old.bursts }
        ensures more { OnOk result (self.new.bursts ≡ self.old.bursts ++ burst ∷ []) }
        ensures sized { OnOk result (length self.new.numbers.items ≡ length self.old.numbers.items) }
        ensures numbers { OnOk result (AreBurstNumbers self.new.numbers.items self.new.bursts) }
    {
        let number = self.bursts.len() as u32;
        mark_symbols(&mut self.numbers, burst.as_slice(), number);
        self.bursts.push(burst)
    }
}

// Marks each symbol of a burst that no burst before it has.
fn mark_symbols(numbers: &mut [Option<u32>], burst: &[Sym], number: u32)
    requires { AllByRecursion (λ a. a.0 < length numbers.old) burst.now }
    ensures { (bursts : List (List Symbol)) → number ≡ length bursts → AreBurstNumbers numbers.old bursts
        → AreBurstNumbers numbers.new (bursts ++ burst.now ∷ []) }
{
    for sym in burst {
        if numbers[sym.0 as usize].is_none() {
            numbers[sym.0 as usize] = Some(number);
        }
    }
}
