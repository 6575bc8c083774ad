//! Which listed trace is another with a symbol more, and which is another with neighbours exchanged. Each is found from the
//! one before it, so that a trace of n symbols costs n look-ups and not n traces.
ghost use Rattle.std.specs.Prelude.{◌≡◌, ◌↔◌, ◌+◌, ◌<◌, ℕ, List, [], Some, length, get_or, take, IfOk, OnOk, IsTrue};
ghost use Rattle.std.specs.BTreeMap.{get};
ghost use Rattle.std.specs.List.{Contains};
ghost use Rattle.trace_laws.specs.Mirror.Faults.{exchanged, front, last_of};
ghost use Rattle.trace_laws.specs.Mirror.Links.{find, key_cmp, Closed, Follow, Known, AllKnown, RowOf, IsLinks};

use crate::words::{Word, WordSet};
use std::alloc::{AllocError, Global};
use std::collections::BTreeMap;

/// For the place of a listed trace and a symbol, the place of the trace with the symbol behind it.
pub(crate) fn longer_traces(
    alloc: Global,
    words: &WordSet,
) -> Result<BTreeMap<(usize, u32), usize>, AllocError>
    ensures { IfOk result (λ longer. Follow words.now (length words.now) (get key_cmp longer)) }
{
    let mut longer = BTreeMap::new(alloc);
    for word in words.as_slice() {
        link(alloc, words, &mut longer, word)?;
    }
    Ok(longer)
}

fn link(
    alloc: Global,
    words: &WordSet,
    longer: &mut BTreeMap<(usize, u32), usize>,
    word: &Word,
) -> Result<(), AllocError>
    ensures { (n : ℕ) → n < length words.now → get_or words.now n [] ≡ word.now → Follow words.now n (get key_cmp longer.old)
        → OnOk result (Follow words.now (n + 1) (get key_cmp longer.new)) }
{
    let symbols = word.symbols();
    if symbols.is_empty() {
        return Ok(());
    }
    let front = word.front(alloc, symbols.len() - 1)?;
    let Some(before) = words.place(&front) else {
        return Ok(());
    };
    let Some(place) = words.place(word) else {
        return Ok(());
    };
    longer.insert((before, symbols[symbols.len() - 1]), place)?;
    Ok(())
}

/// The size of the shortest front of the trace that is not listed, or of the trace where all are. The empty trace has the place `root`.
pub(crate) fn listed_size(longer: &BTreeMap<(usize, u32), usize>, root: usize, word: &Word) -> usize
    ensures shorter { (W : List (List ℕ)) → Follow W (length W) (get key_cmp longer.now) → find W [] ≡ Some root
        → (k : ℕ) → k < result → Contains W (take k word.now) }
    ensures missing { (W : List (List ℕ)) → Follow W (length W) (get key_cmp longer.now) → find W [] ≡ Some root
        → result < length word.now → Contains W (take result word.now) → ⊥ }
{
    let symbols = word.symbols();
    let mut place = root;
    for index in 0..symbols.len() {
        let symbol = symbols[index];
        let Some(next) = longer.get(&(place, symbol)) else {
            return index + 1;
        };
        place = *next;
    }
    symbols.len()
}

/// The traces with neighbours exchanged: for each listed trace the places of those that are listed, in a row by the place of
/// the first neighbour. A row that is not yet filled is empty.
#[derive(Drop)]
pub(crate) struct Links {
    longer: BTreeMap<(usize, u32), usize>,
    rows: Vec<Vec<Option<usize>>>,
}

impl Links {
    /// The links of a set that has the front of each of its traces. Rows are filled from short traces to long ones.
    pub(crate) fn of(alloc: Global, words: &WordSet) -> Result<Links, AllocError>
        requires { Closed words.now }
        ensures { IfOk result (λ links. IsLinks words.now links) }
    {
        let longer = longer_traces(alloc, words)?;
        let rows = empty_rows(alloc, words.as_slice().len())?;
        let mut links = Links { longer, rows };
        let places = by_length(alloc, words)?;
        for place in places {
            links.fill(alloc, words, place)?;
        }
        Ok(links)
    }

    fn fill(&mut self, alloc: Global, words: &WordSet, place: usize) -> Result<(), AllocError>
        requires closed { Closed words.now }
        requires links { IsLinks words.now self.now }
        ensures { OnOk result (IsLinks words.now self.new) }
    {
        let Some(word) = words.as_slice().get(place) else {
            return Ok(());
        };
        let row = self.row_of(alloc, words, word)?;
        if place < self.rows.len() {
            self.rows[place] = row;
        }
        Ok(())
    }

    /// The places of the traces that are this one with neighbours exchanged, in a row by the place of the first of the two.
    pub(crate) fn row_of(
        &self,
        alloc: Global,
        words: &WordSet,
        word: &Word,
    ) -> Result<Vec<Option<usize>>, AllocError>
        requires closed { Closed words.now }
        requires links { IsLinks words.now self.now }
        ensures { IfOk result (λ row. RowOf words.now word.now row.items) }
    {
        let symbols = word.symbols();
        let mut row = Vec::new(alloc);
        if symbols.len() < 2 {
            return Ok(row);
        }
        let last = symbols[symbols.len() - 1];
        let front = word.front(alloc, symbols.len() - 1)?;
        let known = row_at(self.rows.as_slice(), words.place(&front));
        for index in 0..symbols.len() - 1 {
            let place = self.exchanged_at(alloc, words, known, word, last, index)?;
            row.push(place)?;
        }
        Ok(row)
    }

    // Where the trace with these neighbours exchanged is listed. `known` is the row of its front, or empty.
    fn exchanged_at(
        &self,
        alloc: Global,
        words: &WordSet,
        known: &[Option<usize>],
        word: &Word,
        last: u32,
        index: usize,
    ) -> Result<Option<usize>, AllocError>
        requires closed { Closed words.now }
        requires links { IsLinks words.now self.now }
        requires known { Known words.now (front word.now) known.now }
        requires within { index + 1 < length word.now }
        requires last { last ≡ last_of word.now }
        ensures { IfOk result (λ place. place ≡ find words.now (exchanged word.now index)) }
    {
        match known.get(index) {
            Some(Some(place)) => Ok(self.longer.get(&(*place, last)).copied()),
            Some(None) => Ok(None),
            None => {
                let other = word.exchanged(alloc, index)?;
                Ok(words.place(&other))
            }
        }
    }
}

fn empty_rows(alloc: Global, count: usize) -> Result<Vec<Vec<Option<usize>>>, AllocError>
    ensures { (W : List (List ℕ)) → IfOk result (λ rows. AllKnown W rows.items) }
{
    let mut rows = Vec::new(alloc);
    for _ in 0..count {
        rows.push(Vec::new(alloc))?;
    }
    Ok(rows)
}

// The places of the traces, from short ones to long ones.
fn by_length(alloc: Global, words: &WordSet) -> Result<Vec<usize>, AllocError> {
    let mut sizes = Vec::new(alloc);
    for (place, word) in words.as_slice().iter().enumerate() {
        sizes.push((word.symbols().len(), place))?;
    }
    sizes.sort()?;
    sizes.into_iter().map(|pair| pair.1).collect(alloc)
}

fn row_at(rows: &[Vec<Option<usize>>], place: Option<usize>) -> &[Option<usize>]
    ensures { (W : List (List ℕ)) (x : List ℕ) → AllKnown W rows.now → place ≡ find W x → Known W x result.now }
{
    match place {
        Some(place) if place < rows.len() => rows[place].as_slice(),
        _ => &[],
    }
}

/// Whether the row has a place for the trace with these neighbours exchanged.
pub(crate) fn is_listed(row: &[Option<usize>], index: usize) -> bool
    ensures { (W : List (List ℕ)) (x : List ℕ) → RowOf W x row.now → index + 1 < length x
        → (IsTrue result ↔ Contains W (exchanged x index)) }
{
    match row.get(index) {
        Some(Some(_)) => true,
        Some(None) => false,
        None => false,
    }
}
