//! The line of a decision wait.
ghost use Rattle.std.specs.Prelude.{◌≡◌, ◌↔◌, ℕ, ◌+◌, ◌<◌, ◌≤◌, ◌^◌, Bool, true, false, IsTrue, Some, None, List, ◌∷◌, length, nat_eq, IfOk, IfSome, IsNone};
ghost use Rattle.std.specs.List.{list_all, list_any};
ghost use Rattle.std.specs.Option.{option_copied};
ghost use Rattle.basic_kinds.specs.Shapes.{IsShape, is_before, is_rising, is_within};
ghost use Rattle.net_text.specs.Mirror.PartWords.{crossing_of, crossings_in, wait_in};
ghost use Rattle.text_lines.specs.Pieces.{pieces, pieces_left, left_size};
ghost use Rattle.net_text.specs.Mirror.Crossings.{is_chain, is_placed, side};

use crate::wires::{Wires, first_number, read_number, read_wires};
use std::alloc::{AllocError, Global};
use text_lines::first_piece;

/// A decision wait as it is written: whether the crossings are those of a shape is not known.
#[derive(Drop)]
pub(crate) struct Wait {
    pub rows: u32,
    pub cols: u32,
    pub cross: Vec<(u32, u32)>,
    pub wires: Wires,
}

/// A row and a column with a dot between them.
fn read_crossing(word: &[u8]) -> Option<(u32, u32)>
    ensures { result ≡ crossing_of word.now }
{
    let (row, behind) = first_piece(word, b'.');
    let (col, rest) = first_piece(behind?, b'.');
    if let Some(_more) = rest {
        return None;
    }
    let row = read_number(row, 1 << 32)?;
    let col = read_number(col, 1 << 32)?;
    Some((row, col))
}

/// Adds the crossings up to the sign `:`, and gives what is left behind it; none where a word is no crossing, or no such
/// sign stands there.
fn add_crossings<'a>(
    text: Option<&'a [u8]>,
    cross: &mut Vec<(u32, u32)>,
) -> Result<Option<Option<&'a [u8]>>, AllocError>
    ensures some { IfOk result (λ it. IfSome it (λ rest. crossings_in cross.old.items (pieces_left 32 (option_copied text.entry))
        ≡ Some (cross.new.items, pieces_left 32 (option_copied rest)))) }
    ensures none { IfOk result (λ it. IsNone it → crossings_in cross.old.items (pieces_left 32 (option_copied text.entry)) ≡ None) }
    ensures few { IfOk result (λ it. IfSome it (λ rest. left_size (option_copied rest) ≤ left_size (option_copied text.entry))) }
{
    let mut rest = text;
    while let Some(words) = rest {
        let (word, more) = first_piece(words, b' ');
        if word == b":".as_slice() {
            return Ok(Some(more));
        }
        let Some(crossing) = read_crossing(word) else {
            return Ok(None);
        };
        cross.push(crossing)?;
        rest = more;
    }
    Ok(None)
}

/// What stands behind the name of a decision wait.
pub(crate) fn read_wait(alloc: Global, text: Option<&[u8]>) -> Result<Option<Wait>, AllocError>
    ensures some { IfOk result (λ it. IfSome it (λ wait. wait_in (pieces_left 32 (option_copied text.entry))
        ≡ Some (record {
          rows = wait.rows;
          cols = wait.cols;
          cross = wait.cross.items;
          ends = record { inputs = wait.wires.inputs; ends = wait.wires.ends.items };
        }))) }
    ensures none { IfOk result (λ it. IsNone it → wait_in (pieces_left 32 (option_copied text.entry)) ≡ None) }
    ensures few { IfOk result (λ it. IfSome it (λ wait. length wait.wires.ends.items ≤ left_size (option_copied text.entry))) }
    ensures front { IfOk result (λ it. IfSome it (λ wait. wait.wires.inputs ≤ length wait.wires.ends.items)) }
{
    let Some((rows, behind_rows)) = first_number(text) else {
        return Ok(None);
    };
    let Some((cols, behind_cols)) = first_number(behind_rows) else {
        return Ok(None);
    };
    let mut cross = Vec::new(alloc);
    let Some(rest) = add_crossings(behind_cols, &mut cross)? else {
        return Ok(None);
    };
    let Some(wires) = read_wires(alloc, rest)? else {
        return Ok(None);
    };
    Ok(Some(Wait {
        rows,
        cols,
        cross,
        wires,
    }))
}

fn precedes(first: (u32, u32), second: (u32, u32)) -> bool
    ensures { result ≡ is_before first second }
{
    first.0 < second.0 || (first.0 == second.0 && first.1 < second.1)
}

fn is_chain(first: (u32, u32), others: &[(u32, u32)]) -> bool
    ensures { result ≡ is_chain first others.now }
{
    let mut last = first;
    for crossing in others {
        if !precedes(last, *crossing) {
            return false;
        }
        last = *crossing;
    }
    true
}

fn lie_within(rows: u32, cols: u32, cross: &[(u32, u32)]) -> bool
    ensures { result ≡ list_all (is_within rows cols) cross.now }
{
    for (row, col) in cross {
        if *row >= rows || *col >= cols {
            return false;
        }
    }
    true
}

fn all_true(met: &[bool]) -> bool
    ensures { result ≡ list_all (λ m. m) met.now }
{
    for one in met {
        if !*one {
            return false;
        }
    }
    true
}

/// The row of a crossing, or its column.
fn side(by_row: bool, crossing: (u32, u32)) -> u32
    ensures { result ≡ side by_row crossing }
{
    if by_row { crossing.0 } else { crossing.1 }
}

/// Whether each row has a crossing, or each column.
fn are_met(alloc: Global, many: u32, by_row: bool, cross: &[(u32, u32)]) -> Result<bool, AllocError>
    ensures { IfOk result (λ met. IsTrue met ↔ ((i : ℕ) → i < many → IsTrue (list_any (λ p. nat_eq (side by_row p) i) cross.now))) }
{
    let mut met = vec![in alloc; false; many as usize]?;
    for crossing in cross {
        let place = side(by_row, *crossing);
        if place < many {
            met[place as usize] = true;
        }
    }
    Ok(all_true(met.as_slice()))
}

/// Whether each crossing stands before all that follow it.
fn rises(cross: &[(u32, u32)]) -> bool
    ensures { result ≡ is_rising cross.now }
{
    match cross {
        [] => true,
        [first, others @ ..] => is_chain(*first, others),
    }
}

fn is_placed(rows: u32, cols: u32, cross: &[(u32, u32)]) -> bool
    ensures { result ≡ is_placed rows cols cross.now }
{
    rows > 0 && cols > 0 && rises(cross) && lie_within(rows, cols, cross)
}

/// Whether these are the crossings of a shape.
pub(crate) fn is_shape(
    alloc: Global,
    rows: u32,
    cols: u32,
    cross: &[(u32, u32)],
) -> Result<bool, AllocError>
    ensures { IfOk result (λ whole. IsTrue whole ↔ IsShape rows cols cross.now) }
{
    if !is_placed(rows, cols, cross) {
        return Ok(false);
    }
    let by_rows = are_met(alloc, rows, true, cross)?;
    let by_cols = are_met(alloc, cols, false, cross)?;
    Ok(by_rows && by_cols)
}
