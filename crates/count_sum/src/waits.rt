//! The components of a DW in the basis two.
ghost use Rattle.std.specs.Prelude.{◌≡◌, ◌<◌, OnOk};
ghost use Rattle.count_sum.specs.Mirror.Adding.{Adds, HasRoom};
ghost use Rattle.count_sum.specs.Mirror.Waits.{IsInRange, of_wait, of_part, of_layer, of_group};

use crate::counts::{Counts, Sort};
use shape_parts::{Layer, exchanged, parts};
use std::alloc::{AllocError, Global};

/// What stands for a DW: for each of its connected parts.
#[cycle(split_waits)]
pub fn add_wait(
    alloc: Global,
    counts: &mut Counts,
    rows: u32,
    cols: u32,
    cross: &[(u32, u32)],
) -> Result<(), AllocError>
    requires shape { IsInRange rows cols cross.now }
    requires room { HasRoom counts.old (of_wait rows cols cross.now) }
    ensures { OnOk result (Adds counts.old counts.new (of_wait rows cols cross.now)) }
{
    let found = parts(alloc, rows, cols, cross)?;
    for part in &found {
        let part_rows = part.rows.len() as u32;
        let part_cols = part.columns.len() as u32;
        add_part(alloc, counts, part_rows, part_cols, part.cross.as_slice())?;
    }
    Ok(())
}

/// What stands for a connected part: one component where it is small, else a layer, by its rows where these are more than
/// two, else by its columns.
#[cycle(split_waits)]
fn add_part(
    alloc: Global,
    counts: &mut Counts,
    rows: u32,
    cols: u32,
    part: &[(u32, u32)],
) -> Result<(), AllocError>
    requires shape { IsInRange rows cols part.now }
    requires room { HasRoom counts.old (of_part rows cols part.now) }
    ensures { OnOk result (Adds counts.old counts.new (of_part rows cols part.now)) }
{
    if part.len() < 2 {
        counts.add(Sort::C, 1);
        Ok(())
    } else if rows > 2 {
        add_layer(alloc, counts, rows, cols, part)
    } else if cols > 2 {
        let turned = exchanged(alloc, cols, part)?;
        add_layer(alloc, counts, cols, rows, turned.as_slice())
    } else {
        counts.add(Sort::Dw, 1);
        Ok(())
    }
}

/// What stands for a layer by rows: the outer DW and the two groups.
#[cycle(split_waits)]
fn add_layer(
    alloc: Global,
    counts: &mut Counts,
    rows: u32,
    cols: u32,
    cross: &[(u32, u32)],
) -> Result<(), AllocError>
    requires wide { 2 < rows }
    requires shape { IsInRange rows cols cross.now }
    requires room { HasRoom counts.old (of_layer rows cols cross.now) }
    ensures { OnOk result (Adds counts.old counts.new (of_layer rows cols cross.now)) }
{
    let layer = Layer::new(alloc, rows, cols, cross)?;
    let rest = rows - layer.half;
    add_wait(alloc, counts, 2, cols, layer.outer.as_slice())?;
    add_group(alloc, counts, layer.half, cols, layer.first.as_slice())?;
    add_group(alloc, counts, rest, cols, layer.last.as_slice())
}

/// What stands for a group of rows. A group of one row has no component of its own.
#[cycle(split_waits)]
fn add_group(
    alloc: Global,
    counts: &mut Counts,
    rows: u32,
    cols: u32,
    group: &[(u32, u32)],
) -> Result<(), AllocError>
    requires shape { IsInRange rows cols group.now }
    requires room { HasRoom counts.old (of_group rows cols group.now) }
    ensures { OnOk result (Adds counts.old counts.new (of_group rows cols group.now)) }
{
    if rows < 2 {
        return Ok(());
    }
    counts.add(Sort::Fork, rows as u64);
    counts.add(Sort::Merge, rows as u64 - 1);
    add_wait(alloc, counts, rows, cols, group)
}
