//! The parts of a shape by union-find.
ghost use Rattle.std.specs.Prelude.{◌≡◌, ℕ, ◌+◌, ◌<◌, ◌^◌, length, map, slice_index, IsTrue, IfOk};
ghost use Rattle.std.specs.List.{range_with_len, list_all};
ghost use Rattle.basic_kinds.specs.Shapes.{is_within};
ghost use Rattle.basic_kinds.specs.ShapeParts.{label, merged};
ghost use Rattle.shape_parts.specs.Mirror.Links.{IsFalling, Leads};

use std::alloc::{AllocError, Global};

/// The line at the end of the links from this one. Each line on the way is linked past the next one.
fn find(up: &mut [u32], line: u32) -> u32
    requires inside { line < length up.old }
    requires falling { IsFalling up.old }
    ensures falling { IsFalling up.new }
    ensures end { (result < length up.new) × (slice_index up.new result ≡ result) }
    ensures leads { (f : ℕ → ℕ) → Leads f up.old → Leads f up.new × (result ≡ f line) }
{
    let mut at = line;
    while up[at as usize] != at {
        let next = up[up[at as usize] as usize];
        up[at as usize] = next;
        at = next;
    }
    at
}

/// Links the parts of two lines. The greater end is linked under the lesser.
fn join(up: &mut [u32], first: u32, second: u32)
    requires first { first < length up.old }
    requires second { second < length up.old }
    requires falling { IsFalling up.old }
    ensures falling { IsFalling up.new }
    ensures leads { (f : ℕ → ℕ) → Leads f up.old → Leads (merged f first second) up.new }
{
    let one = find(up, first);
    let other = find(up, second);
    if other < one {
        up[one as usize] = other;
    } else {
        up[other as usize] = one;
    }
}

/// Links each line to the end of its links.
fn flatten(up: &mut [u32])
    requires { IsFalling up.old }
    ensures { (f : ℕ → ℕ) → Leads f up.old → up.new ≡ map f (range_with_len 0 (length up.old)) }
{
    for line in 0..up.len() {
        up[line] = up[up[line] as usize];
    }
}

/// Links the row and the column of each crossing, the last crossing first.
fn join_all(up: &mut [u32], rows: u32, cols: u32, cross: &[(u32, u32)])
    requires alone { up.old ≡ range_with_len 0 (rows + cols) }
    requires few { rows + cols < 2 ^ 32 }
    requires within { IsTrue (list_all (is_within rows cols) cross.now) }
    ensures falling { IsFalling up.new }
    ensures leads { Leads (label rows cross.now) up.new }
{
    for count in 0..cross.len() {
        let (row, col) = cross[cross.len() - 1 - count];
        join(up, row, rows + col);
    }
}

/// Gives each line its label, where each was linked to itself.
fn label_lines(up: &mut [u32], rows: u32, cols: u32, cross: &[(u32, u32)])
    requires alone { up.old ≡ range_with_len 0 (rows + cols) }
    requires few { rows + cols < 2 ^ 32 }
    requires within { IsTrue (list_all (is_within rows cols) cross.now) }
    ensures { up.new ≡ map (label rows cross.now) (range_with_len 0 (rows + cols)) }
{
    join_all(up, rows, cols, cross);
    flatten(up);
}

/// The label of each line, which is the least line that it is joined to by the crossings: of each row, and
/// then of each column. A crossing takes nearly constant time, by path halving (Tarjan and van Leeuwen 1984).
pub fn labels(
    alloc: Global,
    rows: u32,
    cols: u32,
    cross: &[(u32, u32)],
) -> Result<Vec<u32>, AllocError>
    requires few { rows + cols < 2 ^ 32 }
    requires within { IsTrue (list_all (is_within rows cols) cross.now) }
    ensures { IfOk result (λ it. it.items ≡ map (label rows cross.now) (range_with_len 0 (rows + cols))) }
{
    let mut up = lines(alloc, rows + cols)?;
    label_lines(up.as_mut_slice(), rows, cols, cross);
    Ok(up)
}

/// So many lines, each linked to itself.
fn lines(alloc: Global, many: u32) -> Result<Vec<u32>, AllocError>
    ensures { IfOk result (λ it. it.items ≡ range_with_len 0 many) }
{
    let mut up = Vec::new(alloc);
    for line in 0..many {
        up.push(line)?;
    }
    Ok(up)
}
