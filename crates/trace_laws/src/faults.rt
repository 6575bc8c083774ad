//! The least trace at which each of the rules is broken.
ghost use Rattle.std.specs.Prelude.{◌≡◌, ◌≢◌, ◌↔◌, ◌<◌, ℕ, List, [], Some, length, IfOk, IsTrue};
ghost use Rattle.std.specs.BTreeMap.{get};
ghost use Rattle.std.specs.List.{Contains};
ghost use Rattle.trace_laws.specs.Breaks.{MissingBeginning, TwiceInARow, MissingSwap, MissingCarry, MissingBoth};
ghost use Rattle.trace_laws.specs.Listed.{output_by};
ghost use Rattle.trace_laws.specs.Mirror.Faults.{BeginsAt, EndsTwice, TwiceOf, BothAt, BothOf, front, last_of};
ghost use Rattle.trace_laws.specs.Mirror.Improved.{Improved, LeastOf};
ghost use Rattle.trace_laws.specs.Mirror.Links.{find, key_cmp, Closed, Follow};

use crate::followers::offer_lacking;
use crate::least::offer;
use crate::links::{Links, listed_size, longer_traces};
use crate::places::{is_output, offer_carries, offer_missing, offer_swaps};
use crate::words::{Word, WordSet};
use cmd_tree::Dir;
use std::alloc::{AllocError, Global};
use std::collections::BTreeMap;

/// The least missing beginning of a listed trace.
pub(crate) fn least_beginning(alloc: Global, words: &WordSet) -> Result<Option<Word>, AllocError>
    ensures { IfOk result (λ least. LeastOf (MissingBeginning (Contains words.now)) least) }
{
    let empty = Word::of(alloc, &[])?;
    let Some(root) = words.place(&empty) else {
        return Ok(Some(empty));
    };
    let longer = longer_traces(alloc, words)?;
    let mut least = None;
    for word in words.as_slice() {
        least = offer_beginning(alloc, &longer, root, word, least)?;
    }
    Ok(least)
}

// The shortest missing beginning of a trace is offered: the others of that trace are longer.
fn offer_beginning(
    alloc: Global,
    longer: &BTreeMap<(usize, u32), usize>,
    root: usize,
    word: &Word,
    least: Option<Word>,
) -> Result<Option<Word>, AllocError>
    ensures { (W : List (List ℕ)) → Follow W (length W) (get key_cmp longer.now) → find W [] ≡ Some root
        → IfOk result (λ now. Improved (BeginsAt W word.now) least now) }
{
    let size = listed_size(longer, root, word);
    if size < word.symbols().len() {
        let front = word.front(alloc, size)?;
        return Ok(offer(least, front));
    }
    Ok(least)
}

/// The least listed trace that ends with one symbol twice.
pub(crate) fn least_twice(alloc: Global, words: &WordSet) -> Result<Option<Word>, AllocError>
    ensures { IfOk result (λ least. LeastOf (TwiceInARow (Contains words.now)) least) }
{
    let mut least = None;
    for word in words.as_slice() {
        least = offer_twice(alloc, word, least)?;
    }
    Ok(least)
}

fn offer_twice(alloc: Global, word: &Word, least: Option<Word>) -> Result<Option<Word>, AllocError>
    ensures { IfOk result (λ now. Improved (TwiceOf word.now) least now) }
{
    if !ends_twice(word) {
        return Ok(least);
    }
    let copy = word.front(alloc, word.symbols().len())?;
    Ok(offer(least, copy))
}

fn ends_twice(word: &Word) -> bool
    ensures { IsTrue result ↔ EndsTwice word.now }
{
    let symbols = word.symbols();
    if symbols.len() < 2 {
        return false;
    }
    symbols[symbols.len() - 2] == symbols[symbols.len() - 1]
}

/// The least trace that is missing, while neighbours of one direction come in the other order.
pub(crate) fn least_swap(
    alloc: Global,
    words: &WordSet,
    dirs: &[Dir],
) -> Result<Option<Word>, AllocError>
    requires { Closed words.now }
    ensures { IfOk result (λ least. LeastOf (MissingSwap (output_by dirs.now) (Contains words.now)) least) }
{
    let links = Links::of(alloc, words)?;
    let mut least = None;
    for word in words.as_slice() {
        least = offer_swaps(alloc, words, &links, dirs, word, least)?;
    }
    Ok(least)
}

/// The least trace that is missing, while its last symbol follows neighbours of different directions in the other order.
pub(crate) fn least_carry(
    alloc: Global,
    words: &WordSet,
    dirs: &[Dir],
) -> Result<Option<Word>, AllocError>
    requires { Closed words.now }
    ensures { IfOk result (λ least. LeastOf (MissingCarry (output_by dirs.now) (Contains words.now)) least) }
{
    let links = Links::of(alloc, words)?;
    let mut least = None;
    for word in words.as_slice() {
        least = offer_carries(alloc, words, &links, dirs, word, least)?;
    }
    Ok(least)
}

/// The least trace that is missing, while each of its two last symbols, which differ in direction, may come.
pub(crate) fn least_both(
    alloc: Global,
    words: &WordSet,
    dirs: &[Dir],
) -> Result<Option<Word>, AllocError>
    ensures { IfOk result (λ least. LeastOf (MissingBoth (output_by dirs.now) (Contains words.now)) least) }
{
    let after_outputs = offer_lacking(alloc, words, dirs, false, None)?;
    let lacking = offer_lacking(alloc, words, dirs, true, after_outputs)?;
    let Some(word) = lacking else {
        return Ok(None);
    };
    let least = offer_boths(alloc, words, dirs, &word, None)?;
    Ok(least)
}

fn offer_boths(
    alloc: Global,
    words: &WordSet,
    dirs: &[Dir],
    word: &Word,
    least: Option<Word>,
) -> Result<Option<Word>, AllocError>
    ensures { IfOk result (λ now. Improved (BothOf (output_by dirs.now) words.now word.now) least now) }
{
    let mut now = least;
    for other in words.as_slice() {
        now = offer_both(alloc, words, dirs, word, other, now)?;
    }
    Ok(now)
}

fn offer_both(
    alloc: Global,
    words: &WordSet,
    dirs: &[Dir],
    word: &Word,
    other: &Word,
    least: Option<Word>,
) -> Result<Option<Word>, AllocError>
    ensures { IfOk result (λ now. Improved (BothAt (output_by dirs.now) words.now word.now other.now) least now) }
{
    let symbols = other.symbols();
    if symbols.is_empty() || !are_siblings(dirs, word, other) {
        return Ok(least);
    }
    let longer = word.followed(alloc, symbols[symbols.len() - 1])?;
    Ok(offer_missing(words, longer, least))
}

// Whether two traces differ in their last symbols alone, and these in direction.
fn are_siblings(dirs: &[Dir], word: &Word, other: &Word) -> bool
    ensures { IsTrue result ↔ ((0 < length word.now) × (length word.now ≡ length other.now) × (front word.now ≡ front other.now)
        × (output_by dirs.now (last_of word.now) ≢ output_by dirs.now (last_of other.now))) }
{
    let (own, others) = (word.symbols(), other.symbols());
    if own.is_empty() || own.len() != others.len() {
        return false;
    }
    let last = own.len() - 1;
    if is_output(dirs, own[last]) == is_output(dirs, others[last]) {
        return false;
    }
    own[..last] == others[..last]
}
