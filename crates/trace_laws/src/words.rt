//! Traces as lists of numbers, and sets of them.
ghost use Rattle.std.specs.Prelude.{◌≡◌, ◌↔◌, ◌+◌, ◌-◌, ◌<◌, ◌≤◌, ℕ, List, [], ◌∷◌, ◌++◌, length, map, take, get_or, IsTrue, IfOk, OnOk, position};
ghost use Rattle.std.specs.List.{Contains};
ghost use Rattle.std.specs.Str.{bytes_eq};
ghost use Rattle.std.specs.Hash as fed;
ghost use Rattle.std.specs.Cmp.{partial_equiv_from_equiv};
ghost use Rattle.std.specs.Cmp.Lexicographic.{nat_list_eq_equiv};
ghost use Rattle.std.specs.Cmp.Rules.{hashing};
ghost use Rattle.std.proofs.Common.{rules};
ghost use Rattle.trace_laws.specs.Breaks.{Precedes};
ghost use Rattle.trace_laws.specs.Listed.{Listed, numbers, symbol};
ghost use Rattle.trace_laws.specs.Mirror.Faults.{exchanged};
ghost use Rattle.trace_laws.specs.Mirror.Links.{find};

use cmd_tree::Sym;
use indexmap::IndexSet;
use std::alloc::{AllocError, Global};
use std::cmp::Ordering;
use std::hash::{Hash, Hasher};
use std::marker::Model;

/// A trace as the numbers of its symbols. Contracts see it as the list of them.
#[derive(Drop)]
pub(crate) struct Word {
    symbols: Vec<u32>,
}

impl Model for Word {
    ghost use Rattle.std.specs.Prelude.{List, ℕ};

    ghost Value = { List ℕ };

    ghost view = { λ w. w.symbols.items };
}

impl PartialEq for Word {
    ghost eq = { bytes_eq };

    ghost laws = { partial_equiv_from_equiv nat_list_eq_equiv };

    fn eq(&self, other: &Word) -> bool {
        self.symbols() == other.symbols()
    }
}

impl Eq for Word {
    ghost laws = { nat_list_eq_equiv };
}

impl Hash for Word {
    ghost hash_input = { fed.slice fed.u32 };

    ghost respects_eq = { Prim.search (hashing, rules) };

    fn hash<H: Hasher>(&self, state: &mut H) {
        self.symbols().hash(state);
    }
}

impl Word {
    pub(crate) fn of(alloc: Global, trace: &[Sym]) -> Result<Word, AllocError>
        ensures { IfOk result (λ word. word ≡ numbers trace.now) }
    {
        let symbols = trace.iter().map(|sym| sym.0).collect(alloc)?;
        Ok(Word { symbols })
    }

    pub(crate) fn trace(&self, alloc: Global) -> Result<Vec<Sym>, AllocError>
        ensures { IfOk result (λ trace. numbers trace.items ≡ self.now) }
    {
        let trace = symbols_of(alloc, self.symbols())?;
        Ok(trace)
    }

    pub(crate) fn front(&self, alloc: Global, size: usize) -> Result<Word, AllocError>
        requires { size ≤ length self.now }
        ensures { IfOk result (λ word. word ≡ take size self.now) }
    {
        let symbols = Vec::from_slice(alloc, &self.symbols()[..size])?;
        Ok(Word { symbols })
    }

    pub(crate) fn symbols(&self) -> &[u32]
        ensures { result.now ≡ self.now }
    {
        self.symbols.as_slice()
    }

    /// The symbols at this place and the next in the other order.
    pub(crate) fn exchanged(&self, alloc: Global, place: usize) -> Result<Word, AllocError>
        requires { place + 1 < length self.now }
        ensures { IfOk result (λ word. word ≡ exchanged self.now place) }
    {
        let was = self.symbols();
        let mut symbols = Vec::from_slice(alloc, &was[..place])?;
        symbols.push(was[place + 1])?;
        symbols.push(was[place])?;
        symbols.extend_from_slice(&was[place + 2..])?;
        Ok(Word { symbols })
    }

    pub(crate) fn followed(&self, alloc: Global, symbol: u32) -> Result<Word, AllocError>
        ensures { IfOk result (λ word. word ≡ self.now ++ symbol ∷ []) }
    {
        let mut symbols = Vec::from_slice(alloc, self.symbols())?;
        symbols.push(symbol)?;
        Ok(Word { symbols })
    }

    pub(crate) fn push(&mut self, symbol: u32) -> Result<(), AllocError>
        ensures { OnOk result (self.new ≡ self.old ++ symbol ∷ []) }
    {
        self.symbols.push(symbol)?;
        Ok(())
    }

    pub(crate) fn precedes(&self, other: &Word) -> bool
        ensures { IsTrue result ↔ Precedes self.now other.now }
    {
        let (own, others) = (self.symbols(), other.symbols());
        if own.len() != others.len() {
            return own.len() < others.len();
        }
        matches!(own.cmp(others), Ordering::Less)
    }
}

fn symbols_of(alloc: Global, numbers: &[u32]) -> Result<Vec<Sym>, AllocError>
    ensures { IfOk result (λ trace. trace.items ≡ map symbol numbers.now) }
{
    numbers.iter().map(|number| Sym(*number)).collect(alloc)
}

/// Different traces in order of first occurrence, found by hash. Contracts see it as the list of them.
#[derive(Drop)]
pub(crate) struct WordSet {
    set: IndexSet<Word>,
}

impl Model for WordSet {
    ghost use Rattle.std.specs.Prelude.{List, ℕ};

    ghost Value = { List (List ℕ) };

    ghost view = { λ a. a.set.keys };
}

impl WordSet {
    /// The traces of a list.
    pub(crate) fn of(alloc: Global, traces: &[Vec<Sym>]) -> Result<WordSet, AllocError>
        ensures { IfOk result (λ set. (t : List ℕ) → Contains set t ↔ Listed traces.now t) }
    {
        let mut set = IndexSet::new(alloc);
        for trace in traces {
            let word = Word::of(alloc, trace)?;
            set.insert_full(word)?;
        }
        Ok(WordSet { set })
    }

    pub(crate) fn has(&self, word: &Word) -> bool
        ensures { IsTrue result ↔ Contains self.now word.now }
    {
        self.set.contains(word)
    }

    /// Where the trace is listed.
    pub(crate) fn place(&self, word: &Word) -> Option<usize>
        ensures { result ≡ find self.now word.now }
    {
        self.set.get_index_of(word)
    }

    pub(crate) fn as_slice(&self) -> &[Word]
        ensures { result.now ≡ self.now }
    {
        self.set.as_slice()
    }
}
