//! A shape cut into its connected parts.
ghost use Rattle.std.specs.Prelude.{◌≡◌, ◌+◌, ◌<◌, ◌^◌, [], length, map, get_or, IsTrue, IfOk};
ghost use Rattle.std.specs.List.{list_all, AllByRecursion};
ghost use Rattle.basic_kinds.specs.Shapes.{is_within};
ghost use Rattle.shape_parts.specs.Cut.{parts_of};
ghost use Rattle.shape_parts.specs.Mirror.Cuts.{local_by, part_by, IsCut};

use crate::by_key::Buckets;
use crate::keys::ShapeKeys;
use sqlite_items::Items;
use std::alloc::{AllocError, Global};

/// A connected part of a shape.
#[derive(Drop)]
pub struct ShapePart {
    /// Its least row, by which it is known.
    pub name: u32,
    /// Its rows and its columns by their numbers in the whole, rising.
    pub rows: Items<u32>,
    pub columns: Items<u32>,
    /// The places of its crossings among those of the whole, rising.
    pub places: Items<u32>,
    /// Its crossings by its own rows and columns, counted from 0, in the order of `places`.
    pub cross: Items<(u32, u32)>,
}

/// The rows, the columns and the crossings of each part. Behind the parts are the lines without a crossing.
#[derive(Drop)]
struct Cut {
    names: Vec<u32>,
    rows: Buckets,
    columns: Buckets,
    crossings: Buckets,
}

impl Cut {
    fn new(alloc: Global, rows: u32, cols: u32, cross: &[(u32, u32)]) -> Result<Cut, AllocError>
        requires lines { rows + cols + 1 < 2 ^ 32 }
        requires crossings { length cross.now < 2 ^ 32 }
        requires within { IsTrue (list_all (is_within rows cols) cross.now) }
        ensures { IfOk result (λ it. IsCut rows cols cross.now it) }
    {
        let ShapeKeys {
            rows: of_rows,
            columns,
            crossings,
            names,
        } = ShapeKeys::new(alloc, rows, cols, cross)?;
        let many = names.len() as u32 + 1;
        Ok(Cut {
            names,
            rows: Buckets::new(alloc, of_rows.as_slice(), many)?,
            columns: Buckets::new(alloc, columns.as_slice(), many)?,
            crossings: Buckets::new(alloc, crossings.as_slice(), many)?,
        })
    }

    /// The crossings at these places by the rows and columns of their parts.
    fn local(
        &self,
        alloc: Global,
        cross: &[(u32, u32)],
        places: &[u32],
    ) -> Result<Items<(u32, u32)>, AllocError>
        requires places { AllByRecursion (λ n. n < length cross.now) places.now }
        requires rows { AllByRecursion (λ p. p.0 < length self.now.rows.ranks.items) cross.now }
        requires columns { AllByRecursion (λ p. p.1 < length self.now.columns.ranks.items) cross.now }
        ensures { IfOk result (λ it. it ≡ map (local_by self.now cross.now) places.now) }
    {
        let mut crossings = Items::new(alloc);
        for place in places {
            let (row, column) = cross[*place as usize];
            crossings.push((
                self.rows.ranks[row as usize],
                self.columns.ranks[column as usize],
            ))?;
        }
        Ok(crossings)
    }

    /// The part with this number.
    fn part(
        &self,
        alloc: Global,
        cross: &[(u32, u32)],
        number: u32,
    ) -> Result<ShapePart, AllocError>
        requires known { number < length self.now.names.items }
        requires some_rows { number < length self.now.rows.numbers.items }
        requires some_columns { number < length self.now.columns.numbers.items }
        requires some_crossings { number < length self.now.crossings.numbers.items }
        requires places { AllByRecursion (λ n. n < length cross.now) (get_or self.now.crossings.numbers.items number []) }
        requires rows { AllByRecursion (λ p. p.0 < length self.now.rows.ranks.items) cross.now }
        requires columns { AllByRecursion (λ p. p.1 < length self.now.columns.ranks.items) cross.now }
        ensures { IfOk result (λ it. it ≡ part_by self.now cross.now number) }
    {
        let places = self.crossings.numbers[number as usize].as_slice();
        Ok(ShapePart {
            name: self.names[number as usize],
            rows: Items::from_slice(alloc, self.rows.numbers[number as usize].as_slice())?,
            columns: Items::from_slice(alloc, self.columns.numbers[number as usize].as_slice())?,
            places: Items::from_slice(alloc, places)?,
            cross: self.local(alloc, cross, places)?,
        })
    }
}

/// The connected parts of a shape, in the order of their least rows. The time is nearly linear in lines and
/// crossings.
pub fn parts(
    alloc: Global,
    rows: u32,
    cols: u32,
    cross: &[(u32, u32)],
) -> Result<Vec<ShapePart>, AllocError>
    requires lines { rows + cols + 1 < 2 ^ 32 }
    requires crossings { length cross.now < 2 ^ 32 }
    requires within { IsTrue (list_all (is_within rows cols) cross.now) }
    ensures { IfOk result (λ it. it.items ≡ parts_of rows cols cross.now) }
{
    let cut = Cut::new(alloc, rows, cols, cross)?;
    let mut parts = Vec::new(alloc);
    for number in 0..cut.names.len() as u32 {
        let part = cut.part(alloc, cross, number)?;
        parts.push(part)?;
    }
    Ok(parts)
}
