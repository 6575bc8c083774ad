//! The faults that a listed trace shows, place by place.
ghost use Rattle.std.specs.Prelude.{◌≡◌, ◌≢◌, ◌↔◌, ◌+◌, ◌<◌, ℕ, List, [], ◌∷◌, ◌++◌, length, get_or, IfOk, IsTrue};
ghost use Rattle.std.specs.List.{Contains};
ghost use Rattle.trace_laws.specs.Listed.{output_by};
ghost use Rattle.trace_laws.specs.Mirror.Faults.{SwapAt, SwapsOf, CarryAt, CarriesOf};
ghost use Rattle.trace_laws.specs.Mirror.Improved.{Improved, Below};
ghost use Rattle.trace_laws.specs.Mirror.Links.{Closed, IsLinks, RowOf};

use crate::least::offer;
use crate::links::{Links, is_listed};
use crate::words::{Word, WordSet};
use cmd_tree::Dir;
use std::alloc::{AllocError, Global};

/// Whether the symbol is an output.
pub(crate) fn is_output(dirs: &[Dir], symbol: u32) -> bool
    ensures { result ≡ output_by dirs.now symbol }
{
    match dirs.get(symbol as usize) {
        Some(Dir::Output) => true,
        _ => false,
    }
}

/// The least so far, and what is missing since neighbours of one direction may come in the other order.
pub(crate) fn offer_swaps(
    alloc: Global,
    words: &WordSet,
    links: &Links,
    dirs: &[Dir],
    word: &Word,
    least: Option<Word>,
) -> Result<Option<Word>, AllocError>
    requires closed { Closed words.now }
    requires links { IsLinks words.now links.now }
    ensures { IfOk result (λ now. Improved (SwapsOf (output_by dirs.now) words.now word.now) least now) }
{
    let row = links.row_of(alloc, words, word)?;
    let mut least = least;
    for place in 0..word.symbols().len() {
        least = offer_swap(alloc, dirs, row.as_slice(), word, place, least)?;
    }
    Ok(least)
}

fn offer_swap(
    alloc: Global,
    dirs: &[Dir],
    row: &[Option<usize>],
    word: &Word,
    place: usize,
    least: Option<Word>,
) -> Result<Option<Word>, AllocError>
    requires { place < length word.now }
    ensures { (W : List (List ℕ)) → RowOf W word.now row.now
        → IfOk result (λ now. Improved (SwapAt (output_by dirs.now) W word.now place) least now) }
{
    let symbols = word.symbols();
    if symbols.len() - place < 2 {
        return Ok(least);
    }
    if is_output(dirs, symbols[place]) != is_output(dirs, symbols[place + 1]) {
        return Ok(least);
    }
    if is_listed(row, place) {
        return Ok(least);
    }
    let other = word.exchanged(alloc, place)?;
    Ok(offer(least, other))
}

/// The least so far, and what is missing since a symbol may follow neighbours of different directions in one order.
pub(crate) fn offer_carries(
    alloc: Global,
    words: &WordSet,
    links: &Links,
    dirs: &[Dir],
    word: &Word,
    least: Option<Word>,
) -> Result<Option<Word>, AllocError>
    requires closed { Closed words.now }
    requires links { IsLinks words.now links.now }
    ensures { IfOk result (λ now. Improved (CarriesOf (output_by dirs.now) words.now word.now) least now) }
{
    let symbols = word.symbols();
    if symbols.is_empty() {
        return Ok(least);
    }
    let last = symbols[symbols.len() - 1];
    let front = word.front(alloc, symbols.len() - 1)?;
    let before = links.row_of(alloc, words, &front)?;
    let after = links.row_of(alloc, words, word)?;
    let rows = FrontRows { before, after };
    offer_followed(alloc, dirs, &rows, &front, last, least)
}

// The rows of a trace, and of the trace with one more symbol.
#[derive(Drop)]
struct FrontRows {
    before: Vec<Option<usize>>,
    after: Vec<Option<usize>>,
}

fn offer_followed(
    alloc: Global,
    dirs: &[Dir],
    rows: &FrontRows,
    front: &Word,
    last: u32,
    least: Option<Word>,
) -> Result<Option<Word>, AllocError>
    ensures { (W : List (List ℕ)) → RowOf W front.now rows.now.before.items → RowOf W (front.now ++ last ∷ []) rows.now.after.items
        → IfOk result (λ now. Improved (Below (CarryAt (output_by dirs.now) W front.now last) (length front.now)) least now) }
{
    let mut least = least;
    for place in 0..front.symbols().len() {
        least = offer_carry(alloc, dirs, rows, front, last, place, least)?;
    }
    Ok(least)
}

fn offer_carry(
    alloc: Global,
    dirs: &[Dir],
    rows: &FrontRows,
    front: &Word,
    last: u32,
    place: usize,
    least: Option<Word>,
) -> Result<Option<Word>, AllocError>
    requires { place < length front.now }
    ensures { (W : List (List ℕ)) → RowOf W front.now rows.now.before.items → RowOf W (front.now ++ last ∷ []) rows.now.after.items
        → IfOk result (λ now. Improved (CarryAt (output_by dirs.now) W front.now last place) least now) }
{
    if !are_opposite(dirs, front, place) {
        return Ok(least);
    }
    if is_output(dirs, front.symbols()[place]) != is_output(dirs, last) {
        return Ok(least);
    }
    if !is_listed(rows.before.as_slice(), place) {
        return Ok(least);
    }
    if is_listed(rows.after.as_slice(), place) {
        return Ok(least);
    }
    let other = front.exchanged(alloc, place)?;
    let longer = other.followed(alloc, last)?;
    Ok(offer(least, longer))
}

// Whether the symbol at this place and the next are there, and differ in direction.
fn are_opposite(dirs: &[Dir], word: &Word, place: usize) -> bool
    requires { place < length word.now }
    ensures { IsTrue result ↔ ((place + 1 < length word.now)
        × (output_by dirs.now (get_or word.now place 0) ≢ output_by dirs.now (get_or word.now (place + 1) 0))) }
{
    let symbols = word.symbols();
    if symbols.len() - place < 2 {
        return false;
    }
    is_output(dirs, symbols[place]) != is_output(dirs, symbols[place + 1])
}

// The trace is offered where it is missing.
pub(crate) fn offer_missing(words: &WordSet, word: Word, least: Option<Word>) -> Option<Word>
    ensures { Improved (λ t. (t ≡ word) × (Contains words.now t → ⊥)) least result }
{
    if words.has(&word) {
        return least;
    }
    offer(least, word)
}
