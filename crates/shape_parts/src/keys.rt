//! The number of its part for each row, column and crossing of a shape.
ghost use Rattle.std.specs.Prelude.{◌≡◌, ℕ, ◌+◌, ◌<◌, ◌≤◌, ◌^◌, true, false, length, map, get_or, slice_index, IsTrue, IfOk};
ghost use Rattle.std.specs.List.{range_with_len, list_all};
ghost use Rattle.basic_kinds.specs.Shapes.{is_within};
ghost use Rattle.shape_parts.specs.Mirror.Cuts.{line_key, AreKeys};

use crate::marks::{counts, gather, marked, marks};
use crate::union_find::labels;
use std::alloc::{AllocError, Global};

/// The number of its part for each row, column and crossing. A row or a column without a crossing has the
/// number behind those of all parts.
#[derive(Drop)]
pub struct ShapeKeys {
    pub rows: Vec<u32>,
    pub columns: Vec<u32>,
    pub crossings: Vec<u32>,
    /// The line by which each part is known, by the numbers of parts.
    pub names: Vec<u32>,
}

fn crossed_rows(alloc: Global, cross: &[(u32, u32)]) -> Result<Vec<u32>, AllocError>
    ensures { IfOk result (λ it. it.items ≡ map (λ p. p.0) cross.now) }
{
    cross.iter().map(|crossing| crossing.0).collect(alloc)
}

pub fn crossed_columns(alloc: Global, cross: &[(u32, u32)]) -> Result<Vec<u32>, AllocError>
    ensures { IfOk result (λ it. it.items ≡ map (λ p. p.1) cross.now) }
{
    cross.iter().map(|crossing| crossing.1).collect(alloc)
}

/// The numbers of the parts of lines, of which the first has its label at `first`.
fn line_keys(
    alloc: Global,
    labels: &[u32],
    first: u32,
    met: &[bool],
    numbers: &[u32],
    many: u32,
) -> Result<Vec<u32>, AllocError>
    requires labels { first + length met.now ≤ length labels.now }
    requires known { (i : ℕ) → i < length met.now → get_or met.now i false ≡ true → slice_index labels.now (first + i) < length numbers.now }
    ensures { IfOk result (λ it. it.items ≡ map (line_key labels.now first met.now numbers.now many) (range_with_len 0 (length met.now))) }
{
    let mut keys = Vec::new(alloc);
    for line in 0..met.len() {
        if met[line] {
            keys.push(numbers[labels[first as usize + line] as usize])?;
        } else {
            keys.push(many)?;
        }
    }
    Ok(keys)
}

impl ShapeKeys {
    /// The keys of a shape.
    pub fn new(
        alloc: Global,
        rows: u32,
        cols: u32,
        cross: &[(u32, u32)],
    ) -> Result<ShapeKeys, AllocError>
        requires few { rows + cols < 2 ^ 32 }
        requires within { IsTrue (list_all (is_within rows cols) cross.now) }
        ensures { IfOk result (λ it. AreKeys rows cols cross.now it) }
    {
        let labels = labels(alloc, rows, cols, cross)?;
        let crossed_rows = crossed_rows(alloc, cross)?;
        let crossing_labels = gather(alloc, labels.as_slice(), crossed_rows.as_slice())?;
        let met_names = marks(alloc, crossing_labels.as_slice(), rows)?;
        let numbers = counts(alloc, met_names.as_slice())?;
        let many = numbers[rows as usize];
        let met_rows = marks(alloc, crossed_rows.as_slice(), rows)?;
        let met_columns = marks(alloc, crossed_columns(alloc, cross)?.as_slice(), cols)?;
        let of_rows = line_keys(
            alloc,
            labels.as_slice(),
            0,
            met_rows.as_slice(),
            numbers.as_slice(),
            many,
        )?;
        let columns = line_keys(
            alloc,
            labels.as_slice(),
            rows,
            met_columns.as_slice(),
            numbers.as_slice(),
            many,
        )?;
        let crossings = gather(alloc, of_rows.as_slice(), crossed_rows.as_slice())?;
        let names = marked(alloc, met_names.as_slice())?;
        Ok(ShapeKeys {
            rows: of_rows,
            columns,
            crossings,
            names,
        })
    }
}
