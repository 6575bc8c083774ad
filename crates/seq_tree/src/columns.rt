ghost use Rattle.std.specs.Prelude.{◌≡◌, ◌<◌, IfOk};
ghost use Rattle.basic_kinds.specs.ShapeParts.{one_column};
ghost use Rattle.seq_tree.specs.SequencerLayer.{column_wait};

use basic_kinds::{Kind, Shape};
use sqlite_items::Items;
use std::alloc::{AllocError, Global};

/// Each of so many rows with one column.
fn one_column(alloc: Global, rows: u32) -> Result<Vec<(u32, u32)>, AllocError>
    ensures { IfOk result (λ it. it.items ≡ one_column rows) }
{
    let mut cross = Vec::new(alloc);
    for row in 0..rows {
        cross.push((row, 0))?;
    }
    Ok(cross)
}

/// A DW of so many rows and one column, with all crossings.
pub fn column_wait(alloc: Global, rows: u32) -> Result<Kind, AllocError>
    requires { 0 < rows }
    ensures { IfOk result (λ it. it ≡ column_wait rows) }
{
    let cross = Items::from_vec(one_column(alloc, rows)?);
    Ok(Kind::Dw(Shape {
        rows,
        cols: 1,
        cross,
    }))
}
