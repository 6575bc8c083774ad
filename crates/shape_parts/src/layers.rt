//! The shapes of one layer of the split of a shape.
ghost use Rattle.std.specs.Prelude.{◌≡◌, ◌+◌, ◌<◌, ◌≤◌, ◌^◌, ◌++◌, filter, length, map, get_or, IsTrue, IfOk, OnOk};
ghost use Rattle.std.specs.List.{list_all, range_with_len, AllByRecursion};
ghost use Rattle.basic_kinds.specs.Shapes.{is_within};
ghost use Rattle.basic_kinds.specs.ShapeParts.{half, first_rows, last_rows, has_column, met, exchanged};
ghost use Rattle.shape_parts.specs.Layers.{layer_of, swapped};

use crate::by_key::Buckets;
use crate::keys::crossed_columns;
use crate::marks::{marked, marks};
use sqlite_items::Items;
use std::alloc::{AllocError, Global};

/// The shapes of one layer by rows.
#[derive(Drop)]
pub struct Layer {
    /// How many rows the first group has: half of them, rounded up.
    pub half: u32,
    /// A row for each of the two groups, with a crossing where some row of the group meets the column.
    pub outer: Items<(u32, u32)>,
    /// The crossings of the first group.
    pub first: Items<(u32, u32)>,
    /// The crossings of the second group, with its rows from 0.
    pub last: Items<(u32, u32)>,
}

fn first_rows(
    alloc: Global,
    half: u32,
    cross: &[(u32, u32)],
) -> Result<Items<(u32, u32)>, AllocError>
    ensures { IfOk result (λ it. it ≡ first_rows half cross.now) }
{
    let mut found = Items::new(alloc);
    for (row, column) in cross {
        if *row < half {
            found.push((*row, *column))?;
        }
    }
    Ok(found)
}

fn last_rows(
    alloc: Global,
    half: u32,
    cross: &[(u32, u32)],
) -> Result<Items<(u32, u32)>, AllocError>
    ensures { IfOk result (λ it. it ≡ last_rows half cross.now) }
{
    let mut found = Items::new(alloc);
    for (row, column) in cross {
        if *row >= half {
            found.push((*row - half, *column))?;
        }
    }
    Ok(found)
}

/// The columns that a group meets, rising.
fn met_columns(alloc: Global, cols: u32, group: &[(u32, u32)]) -> Result<Vec<u32>, AllocError>
    requires { AllByRecursion (λ p. p.1 < cols) group.now }
    ensures { IfOk result (λ it. it.items ≡ filter (has_column group.now) (range_with_len 0 cols)) }
{
    let crossed = crossed_columns(alloc, group)?;
    let marks = marks(alloc, crossed.as_slice(), cols)?;
    marked(alloc, marks.as_slice())
}

/// Appends the columns that a group meets, as crossings of the row.
fn push_met(
    alloc: Global,
    outer: &mut Items<(u32, u32)>,
    row: u32,
    cols: u32,
    group: &[(u32, u32)],
) -> Result<(), AllocError>
    requires { AllByRecursion (λ p. p.1 < cols) group.now }
    ensures { OnOk result (outer.new ≡ outer.old ++ met row cols group.now) }
{
    let columns = met_columns(alloc, cols, group)?;
    for column in &columns {
        outer.push((row, *column))?;
    }
    Ok(())
}

impl Layer {
    /// One layer of a shape by its rows. The time is linear in columns and crossings.
    pub fn new(
        alloc: Global,
        rows: u32,
        cols: u32,
        cross: &[(u32, u32)],
    ) -> Result<Layer, AllocError>
        requires { IsTrue (list_all (is_within rows cols) cross.now) }
        ensures { IfOk result (λ it. it ≡ layer_of rows cols cross.now) }
    {
        let half = rows - rows / 2;
        let first = first_rows(alloc, half, cross)?;
        let last = last_rows(alloc, half, cross)?;
        let mut outer = Items::new(alloc);
        push_met(alloc, &mut outer, 0, cols, first.as_slice())?;
        push_met(alloc, &mut outer, 1, cols, last.as_slice())?;
        Ok(Layer {
            half,
            outer,
            first,
            last,
        })
    }
}

/// Appends the crossings at these places with rows and columns exchanged.
fn push_exchanged(
    crossings: &mut Items<(u32, u32)>,
    cross: &[(u32, u32)],
    places: &[u32],
) -> Result<(), AllocError>
    requires { AllByRecursion (λ n. n < length cross.now) places.now }
    ensures { OnOk result (crossings.new ≡ crossings.old ++ map (λ n. swapped (get_or cross.now n (0, 0))) places.now) }
{
    for place in places {
        let (row, column) = cross[*place as usize];
        crossings.push((column, row))?;
    }
    Ok(())
}

/// The crossings of a shape with rows and columns exchanged, column by column. The time is linear in columns and
/// crossings.
pub fn exchanged(
    alloc: Global,
    cols: u32,
    cross: &[(u32, u32)],
) -> Result<Items<(u32, u32)>, AllocError>
    requires few { length cross.now < 2 ^ 32 }
    requires within { AllByRecursion (λ p. p.1 < cols) cross.now }
    ensures { IfOk result (λ it. it ≡ exchanged cols cross.now) }
{
    let columns = crossed_columns(alloc, cross)?;
    let buckets = Buckets::new(alloc, columns.as_slice(), cols)?;
    let mut crossings = Items::new(alloc);
    for places in &buckets.numbers {
        push_exchanged(&mut crossings, cross, places.as_slice())?;
    }
    Ok(crossings)
}
