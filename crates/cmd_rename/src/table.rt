//! A number for some of the symbols, which is forgotten for all of them at once.
ghost use Rattle.std.specs.Prelude.{◌≡◌, ◌≢◌, ℕ, ◌<◌, Some, None, OnOk, OnErr, map, length};
ghost use Rattle.cmd_rename.specs.Table.{entry};
ghost use Rattle.cmd_rename.specs.Mirror.Rounds.{shown, AreOld};

use std::alloc::{AllocError, Global};
use std::marker::Model;

/// A number and the round in which it was put.
#[derive(Debug, Clone, Copy, PartialEq, Eq)]
struct Entry {
    round: u32,
    number: u32,
}

/// A number for some of the symbols. It has memory for each symbol up to the greatest that had one. Contracts see
/// it as the list of what each symbol has, which goes on without end.
#[derive(Drop)]
pub struct Table {
    entries: Vec<Entry>,
    round: u32,
}

impl Model for Table {
    ghost use Rattle.std.specs.Prelude.{List, ℕ, Option, map};
    ghost use Rattle.cmd_rename.specs.Mirror.Rounds.{shown, IsRound};

    ghost Value = { List (Option ℕ) };

    ghost view = { λ t. map (shown t.round) t.entries.items };

    ghost invariant = { λ t. IsRound t.round t.entries.items };
}

impl Table {
    /// No symbol has a number.
    pub fn new(alloc: Global) -> Table
        ensures { (a : ℕ) → entry result a ≡ None }
    {
        Table {
            entries: Vec::new(alloc),
            round: 1,
        }
    }

    /// The number of a symbol, where it has one.
    pub fn get(&self, symbol: u32) -> Option<u32>
        ensures { result ≡ entry self.now symbol }
    {
        match self.entries.get(symbol as usize) {
            Some(entry) if entry.round == self.round => Some(entry.number),
            _ => None,
        }
    }

    /// From now on this is the number of the symbol. After an error the numbers are as before.
    pub fn put(&mut self, symbol: u32, number: u32) -> Result<(), AllocError>
        ensures here { OnOk result (entry self.new symbol ≡ Some number) }
        ensures others { OnOk result ((a : ℕ) → a ≢ symbol → entry self.new a ≡ entry self.old a) }
        ensures err { OnErr result ((a : ℕ) → entry self.new a ≡ entry self.old a) }
    {
        let index = symbol as usize;
        grow(&mut self.entries, index)?;
        self.entries[index] = Entry {
            round: self.round,
            number,
        };
        Ok(())
    }

    /// No symbol has a number any more. This takes no longer for many symbols than for few.
    pub fn clear(&mut self)
        ensures { (a : ℕ) → entry self.new a ≡ None }
    {
        if self.round == u32::MAX {
            self.entries.clear();
            self.round = 1;
        } else {
            self.round += 1;
        }
    }
}

/// Makes memory for the entry of this index, by entries that do not count.
fn grow(entries: &mut Vec<Entry>, index: usize) -> Result<(), AllocError>
    ensures room { OnOk result (index < length entries.new.items) }
    ensures same { (round a : ℕ) → 0 < round →
        entry (map (shown round) entries.new.items) a ≡ entry (map (shown round) entries.old.items) a }
    ensures old { (round : ℕ) → AreOld round entries.old.items → AreOld round entries.new.items }
{
    while entries.len() <= index {
        entries.push(Entry {
            round: 0,
            number: 0,
        })?;
    }
    Ok(())
}
