//! The machine of a decision wait.
ghost use Rattle.std.specs.Prelude.{◌≡◌, ◌↔◌, ℕ, ◌+◌, ◌<◌, IsTrue, IfOk, false, Some, None, length};
ghost use Rattle.cmd_tree.proofs.Phases.{Grew};
ghost use Rattle.basic_kinds.specs.declared.kind.Kind.{Kind};
ghost use Rattle.basic_kinds.specs.KindCounts.{KindAt, Crosses, row_of, col_of};
ghost use Rattle.basic_kinds.specs.Mirror.Machines.{WaitCounts};

use crate::copy::copy_shape;
use crate::shape::Shape;
use std::alloc::{AllocError, Global};

/// A DW: the row and the column that have come and wait for their output.
#[derive(Drop)]
pub struct WaitMachine {
    shape: Shape,
    row: Option<u32>,
    col: Option<u32>,
}

impl WaitMachine {
    /// A DW of this shape, where nothing has come.
    pub(crate) fn new(alloc: Global, shape: &Shape) -> Result<WaitMachine, AllocError>
        ensures stands { IfOk result (λ it. WaitCounts it (λ p. 0)) }
        ensures shape { IfOk result (λ it. it.shape ≡ shape.now) }
    {
        let shape = copy_shape(alloc, shape)?;
        Ok(WaitMachine {
            shape,
            row: None,
            col: None,
        })
    }

    /// Whether the port may come.
    pub(crate) fn can(&self, port: u32) -> bool
        ensures { (c : ℕ → ℕ) → WaitCounts self.now c → (IsTrue result ↔ KindAt (Kind.Dw self.now.shape) c port) }
    {
        let rows = self.shape.rows;
        let cols = self.shape.cols;
        if port < rows {
            self.row.is_none() && self.row_meets(port)
        } else if port - rows < cols {
            self.col.is_none() && self.col_meets(port - rows)
        } else {
            self.both_wait((port - rows - cols) as usize)
        }
    }

    /// Takes the step where the port may come, and else changes nothing.
    pub(crate) fn step(&mut self, port: u32) -> bool
        ensures answer { (c : ℕ → ℕ) → WaitCounts self.old c → (IsTrue result ↔ KindAt (Kind.Dw self.old.shape) c port) }
        ensures taken { (c d : ℕ → ℕ) → WaitCounts self.old c → IsTrue result → Grew c port d → WaitCounts self.new d }
        ensures still { result ≡ false → self.new ≡ self.old }
        ensures kept { self.new.shape ≡ self.old.shape }
    {
        let can = self.can(port);
        if can {
            self.take(port);
        }
        can
    }

    /// Takes a port that may come.
    fn take(&mut self, port: u32)
        ensures taken { (c d : ℕ → ℕ) → WaitCounts self.old c → KindAt (Kind.Dw self.old.shape) c port → Grew c port d
            → WaitCounts self.new d }
        ensures kept { self.new.shape ≡ self.old.shape }
    {
        let rows = self.shape.rows;
        if port < rows {
            self.row = Some(port);
        } else if port - rows < self.shape.cols {
            self.col = Some(port - rows);
        } else {
            self.row = None;
            self.col = None;
        }
    }

    /// Whether the column that waits, if any, crosses the row.
    fn row_meets(&self, row: u32) -> bool
        ensures none { self.now.col ≡ None → IsTrue result }
        ensures some { (j : ℕ) → self.now.col ≡ Some j → (IsTrue result ↔ Crosses self.now.shape row j) }
    {
        match self.col {
            None => true,
            Some(col) => crosses(&self.shape, row, col),
        }
    }

    /// Whether the row that waits, if any, crosses the column.
    fn col_meets(&self, col: u32) -> bool
        ensures none { self.now.row ≡ None → IsTrue result }
        ensures some { (i : ℕ) → self.now.row ≡ Some i → (IsTrue result ↔ Crosses self.now.shape i col) }
    {
        match self.row {
            None => true,
            Some(row) => crosses(&self.shape, row, col),
        }
    }

    /// Whether the crossing at the place is that of the row and the column that wait.
    fn both_wait(&self, place: usize) -> bool
        ensures { IsTrue result ↔ ((place < length self.now.shape.cross)
            × (self.now.row ≡ Some (row_of self.now.shape place)) × (self.now.col ≡ Some (col_of self.now.shape place))) }
    {
        match self.shape.cross.get(place) {
            None => false,
            Some((row, col)) => self.row == Some(*row) && self.col == Some(*col),
        }
    }
}

/// Whether the row and the column cross: a search by halves.
fn crosses(shape: &Shape, row: u32, col: u32) -> bool
    ensures { IsTrue result ↔ Crosses shape.now row col }
{
    shape.cross.as_slice().binary_search(&(row, col)).is_ok()
}
