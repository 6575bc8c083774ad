//! A number for each symbol of a command.
ghost use Rattle.std.specs.Prelude.{◌≡◌, ◌≢◌, ℕ, ◌<◌};
ghost use Rattle.cmd_tree.specs.declared.limits.TheConstants.{MAX_SYMBOLS};
ghost use Rattle.tree_walk.specs.Mirror.Table.{entry_of};

use cmd_tree::{MAX_SYMBOLS, Sym};

/// A number for each symbol of a command, 0 at first.
#[derive(Drop)]
pub struct Table {
    numbers: [u32; MAX_SYMBOLS],
}

impl Table {
    /// The number of each symbol is 0.
    pub fn none() -> Table
        ensures { (a : ℕ) → entry_of result a ≡ 0 }
    {
        Table {
            numbers: [0; MAX_SYMBOLS],
        }
    }

    /// The number of a symbol.
    pub fn of(&self, sym: Sym) -> u32
        ensures { result ≡ entry_of self.now sym.0 }
    {
        match self.numbers.get(sym.0 as usize) {
            Some(number) => *number,
            None => 0,
        }
    }

    /// From now on this is the number of the symbol.
    pub fn put(&mut self, sym: Sym, number: u32)
        ensures others { (a : ℕ) → a ≢ sym.0 → entry_of self.new a ≡ entry_of self.old a }
        ensures here { sym.0 < MAX_SYMBOLS → entry_of self.new sym.0 ≡ number }
    {
        let index = sym.0 as usize;
        if index < MAX_SYMBOLS {
            self.numbers[index] = number;
        }
    }
}
