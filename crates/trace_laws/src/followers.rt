//! The symbols that may follow each listed trace, by direction: so that a trace meets only the siblings that matter.
ghost use Rattle.std.specs.Prelude.{◌≡◌, ◌↔◌, ◌++◌, ◌∷◌, [], ℕ, length, IfOk, OnOk, IsTrue};
ghost use Rattle.std.specs.List.{Contains};
ghost use Rattle.std.specs.Str.{bytes_eq};
ghost use Rattle.indexmap.specs.IndexMap.{get};
ghost use Rattle.trace_laws.specs.Listed.{output_by};
ghost use Rattle.trace_laws.specs.Mirror.Faults.{OfEach};
ghost use Rattle.trace_laws.specs.Mirror.Followers.{RowHas, Added, Entered, FollowUpTo, LacksOf, LacksOneOf};
ghost use Rattle.trace_laws.specs.Mirror.Improved.{Improved};

use crate::least::offer;
use crate::places::is_output;
use crate::words::{Word, WordSet};
use cmd_tree::Dir;
use indexmap::IndexMap;
use std::alloc::{AllocError, Global};

// For each trace the symbols of one direction that may follow it.
fn followers(
    alloc: Global,
    words: &WordSet,
    dirs: &[Dir],
    side: bool,
) -> Result<IndexMap<Word, Word>, AllocError>
    ensures { IfOk result (λ rows. FollowUpTo (output_by dirs.now) side words.now (length words.now) (get bytes_eq rows)) }
{
    let mut rows = IndexMap::new(alloc);
    for word in words.as_slice() {
        enter(alloc, dirs, side, &mut rows, word)?;
    }
    Ok(rows)
}

fn enter(
    alloc: Global,
    dirs: &[Dir],
    side: bool,
    rows: &mut IndexMap<Word, Word>,
    word: &Word,
) -> Result<(), AllocError>
    ensures { OnOk result (Entered (output_by dirs.now) side word.now (get bytes_eq rows.old) (get bytes_eq rows.new)) }
{
    let symbols = word.symbols();
    if symbols.is_empty() {
        return Ok(());
    }
    let last = symbols[symbols.len() - 1];
    if is_output(dirs, last) != side {
        return Ok(());
    }
    let front = word.front(alloc, symbols.len() - 1)?;
    add(alloc, rows, front, last)?;
    Ok(())
}

fn add(
    alloc: Global,
    rows: &mut IndexMap<Word, Word>,
    front: Word,
    last: u32,
) -> Result<(), AllocError>
    ensures { OnOk result (Added (get bytes_eq rows.old) (get bytes_eq rows.new) front last) }
{
    let found = rows.swap_remove(&front);
    let mut row = row_or_none(alloc, found)?;
    row.push(last)?;
    rows.insert(front, row)?;
    Ok(())
}

fn row_or_none(alloc: Global, row: Option<Word>) -> Result<Word, AllocError>
    ensures { IfOk result (λ now. (b : ℕ) → Contains now b ↔ RowHas row b) }
{
    match row {
        Some(row) => Ok(row),
        None => Word::of(alloc, &[]),
    }
}

/// Each trace is offered for which a symbol of the other direction `side` may come in place of its last one, and not
/// behind it.
pub(crate) fn offer_lacking(
    alloc: Global,
    words: &WordSet,
    dirs: &[Dir],
    side: bool,
    least: Option<Word>,
) -> Result<Option<Word>, AllocError>
    ensures { IfOk result (λ now.
        Improved (OfEach (LacksOf (output_by dirs.now) side words.now) words.now (length words.now)) least now) }
{
    let rows = followers(alloc, words, dirs, side)?;
    let mut now = least;
    for word in words.as_slice() {
        now = offer_if_lacking(alloc, words, dirs, side, &rows, word, now)?;
    }
    Ok(now)
}

fn offer_if_lacking(
    alloc: Global,
    words: &WordSet,
    dirs: &[Dir],
    side: bool,
    rows: &IndexMap<Word, Word>,
    word: &Word,
    least: Option<Word>,
) -> Result<Option<Word>, AllocError>
    requires { FollowUpTo (output_by dirs.now) side words.now (length words.now) (get bytes_eq rows.now) }
    ensures { IfOk result (λ now. Improved (LacksOf (output_by dirs.now) side words.now word.now) least now) }
{
    let symbols = word.symbols();
    if symbols.is_empty() {
        return Ok(least);
    }
    if is_output(dirs, symbols[symbols.len() - 1]) == side {
        return Ok(least);
    }
    let front = word.front(alloc, symbols.len() - 1)?;
    let Some(row) = rows.get(&front) else {
        return Ok(least);
    };
    let missing = lacks_one_of(alloc, words, row, word)?;
    if !missing {
        return Ok(least);
    }
    let copy = word.front(alloc, symbols.len())?;
    Ok(offer(least, copy))
}

fn lacks_one_of(alloc: Global, words: &WordSet, row: &Word, word: &Word) -> Result<bool, AllocError>
    ensures { IfOk result (λ missing. IsTrue missing ↔ LacksOneOf words.now row.now word.now) }
{
    for symbol in row.symbols() {
        let longer = word.followed(alloc, *symbol)?;
        if !words.has(&longer) {
            return Ok(true);
        }
    }
    Ok(false)
}
