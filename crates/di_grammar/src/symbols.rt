//! The symbols of bursts.
ghost use Rattle.std.specs.Prelude.{◌≡◌, ◌↔◌, ◌<◌, ℕ, IsTrue};
ghost use Rattle.std.specs.List.{list_all};
ghost use Rattle.cmd_tree.specs.declared.limits.TheConstants.{MAX_SYMBOLS};
ghost use Rattle.di_grammar.specs.Lists.{Each};
ghost use Rattle.di_grammar.specs.Mirror.Symbols.{SameSymbols, is_of, HasNew, IsEntered};
ghost use Rattle.tree_walk.specs.Mirror.Table.{entry_of};

use cmd_tree::{MAX_SYMBOLS, Mark};
use tree_walk::Table;

/// Whether two bursts have the same symbols.
pub fn same_symbols(marks: &[Mark], others: &[Mark]) -> bool
    ensures { IsTrue result ↔ SameSymbols marks.now others.now }
{
    are_of(others, marks) && are_of(marks, others)
}

// Whether the symbols of `others` are all among those of `marks`.
fn are_of(marks: &[Mark], others: &[Mark]) -> bool
    ensures { result ≡ list_all (is_of marks.now) others.now }
{
    others.iter().all(|other| is_of(marks, *other))
}

fn is_of(marks: &[Mark], other: Mark) -> bool
    ensures { result ≡ is_of marks.now other }
{
    marks.iter().any(|mark| other.sym.0 == mark.sym.0)
}

/// Whether a symbol of a burst is not in the table.
pub fn has_new(marks: &[Mark], entered: &Table) -> bool
    ensures { IsTrue result → HasNew (entry_of entered.now) marks.now }
{
    for mark in marks {
        if (mark.sym.0 as usize) < MAX_SYMBOLS && entered.of(mark.sym) == 0 {
            return true;
        }
    }
    false
}

/// Enters the symbols of a burst into the table.
pub fn enter(marks: &[Mark], entered: &mut Table)
    ensures here { Each (IsEntered (entry_of entered.new)) marks.now }
    ensures kept { (a : ℕ) → a < MAX_SYMBOLS → entry_of entered.old a ≡ 1 → entry_of entered.new a ≡ 1 }
{
    for mark in marks {
        entered.put(mark.sym, 1);
    }
}
