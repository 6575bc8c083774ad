ghost use Rattle.std.specs.Prelude.{◌≡◌, ◌<◌, [], ◌∷◌, length, slice_get, Some, IfOk, OnOk};
ghost use Rattle.std.specs.List.{AllByRecursion};
ghost use Rattle.cmd_tree.specs.Lists.{is_in};
ghost use Rattle.net_core.specs.Walk.{with_new};

use std::alloc::{AllocError, Global};
use std::marker::Model;

/// Different numbers below a bound, in the order in which they came, with a mark for each number that came.
#[derive(Drop)]
pub struct Listing {
    numbers: Vec<u32>,
    marks: Vec<bool>,
}

impl Model for Listing {
    ghost use Rattle.std.specs.Prelude.{length};
    ghost use Rattle.net_core.specs.Mirror.Walking.{Listing, AreMarks};

    ghost Value = { Listing };

    ghost view = { λ a. record { numbers = a.numbers.items; bound = length a.marks.items } };

    ghost invariant = { λ a. AreMarks a.marks.items a.numbers.items };
}

impl Listing {
    /// No numbers yet, and room for those below the bound.
    pub fn new(alloc: Global, bound: usize) -> Result<Listing, AllocError>
        ensures { IfOk result (λ listing. listing ≡ record { numbers = []; bound = bound }) }
    {
        let marks = vec![in alloc; false; bound]?;
        Ok(Listing {
            numbers: Vec::new(alloc),
            marks,
        })
    }

    pub fn numbers(&self) -> &[u32]
        ensures { result.now ≡ self.now.numbers }
    {
        &self.numbers
    }

    pub fn has(&self, number: u32) -> bool
        requires { number < self.now.bound }
        ensures { result ≡ is_in number self.now.numbers }
    {
        self.marks[number as usize]
    }

    /// Puts the number behind the others, where it has not come yet.
    pub fn add(&mut self, number: u32) -> Result<(), AllocError>
        requires { number < self.old.bound }
        ensures { OnOk result (self.new ≡ record self.old { numbers = with_new self.old.numbers (number ∷ []) }) }
    {
        if !self.marks[number as usize] {
            self.numbers.push(number)?;
            self.marks[number as usize] = true;
        }
        Ok(())
    }

    /// Puts these numbers behind the others, each that has not come yet.
    pub fn add_all(&mut self, numbers: &[u32]) -> Result<(), AllocError>
        requires { AllByRecursion (λ n. n < self.old.bound) numbers.now }
        ensures { OnOk result (self.new ≡ record self.old { numbers = with_new self.old.numbers numbers.now }) }
    {
        for number in numbers {
            self.add(*number)?;
        }
        Ok(())
    }
}
