//! The first rule: the symbols of a burst differ, and have one direction.
ghost use Rattle.std.specs.Prelude.{◌≡◌, ℕ, ◌+◌, ◌<◌, ◌^◌, List, [], ◌∷◌, ◌++◌, length};
ghost use Rattle.cmd_tree.specs.declared.limits.TheConstants.{MAX_SYMBOLS};
ghost use Rattle.cmd_tree.specs.declared.tree.Mark.{Mark};
ghost use Rattle.cmd_tree.specs.Limits.{places_of_proc, marks_of_proc};
ghost use Rattle.tree_walk.specs.Bursts.{dir_of};
ghost use Rattle.di_grammar.specs.Lists.{Each};
ghost use Rattle.di_grammar.specs.Clashes.{First};
ghost use Rattle.di_grammar.specs.EvenBursts.{IsUneven, BreaksBursts};
ghost use Rattle.di_grammar.specs.Mirror.Laid.{Laid, AreSmall, IsSmall};
ghost use Rattle.tree_walk.specs.Mirror.Table.{entry_of};
ghost use Rattle.di_grammar.specs.Mirror.Uneven.{burst_of, TellsAll, MarkUneven, KnowsUneven};

use crate::clash::{Clash, lesser};
use cmd_tree::{Dir, Mark, Proc, Seq};
use tree_walk::{Edges, Table, Visit, dir_of, walk};

/// The first place where a process breaks the first rule.
pub fn uneven_bursts(process: &Proc) -> Option<Clash>
    requires few { places_of_proc process.now + 1 < 2 ^ 32 }
    requires small { Each (λ m. m.sym.0 < MAX_SYMBOLS) (marks_of_proc process.now) }
    ensures { First (BreaksBursts process.now) result }
{
    let mut bursts = Bursts {
        first: Table::none(),
        found: None,
    };
    walk(1, process, &mut bursts);
    bursts.found
}

// Of each symbol the place where it stood first in the last burst that has it, and the first clash.
#[derive(Drop)]
struct Bursts {
    first: Table,
    found: Option<Clash>,
}

impl Visit for Bursts {
    ghost knows = { λ v ps w. (end : ℕ) → Laid 1 w.bursts end → Each IsSmall w.bursts
        → KnowsUneven w.bursts (entry_of v.first) v.found end };

    fn burst(&mut self, _number: u32, place: u32, marks: &[Mark]) {
        let clash = uneven_burst(place, marks, &mut self.first);
        self.found = lesser(self.found, clash);
    }

    fn neighbours(&mut self, _number: u32, _edges: Edges) {}

    fn choice(&mut self, _number: u32, _place: u32, _seqs: &[Seq], _edges: Edges) {}
}

// The first clash of a burst.
fn uneven_burst(place: u32, marks: &[Mark], first: &mut Table) -> Option<Clash>
    requires { place + length marks.now < 2 ^ 32 }
    ensures told { AreSmall marks.now → ((a : ℕ) → entry_of first.old a < place)
        → First (IsUneven (burst_of place marks.now)) result }
    ensures before { AreSmall marks.now → ((a : ℕ) → entry_of first.old a < place)
        → (a : ℕ) → entry_of first.new a < place + length marks.now }
{
    let dir = dir_of(marks);
    let mut found = None;
    for (index, mark) in marks.iter().enumerate() {
        let clash = uneven_mark(*mark, place + index as u32, place, dir, first);
        found = lesser(found, clash);
    }
    found
}

// The first clash of a mark at the place `here` of a burst that begins at `place`.
fn uneven_mark(mark: Mark, here: u32, place: u32, dir: Dir, first: &mut Table) -> Option<Clash>
    ensures told { (ms : List Mark) → here ≡ place + length ms → dir ≡ dir_of (ms ++ mark ∷ [])
        → TellsAll (burst_of place ms) (entry_of first.old)
        → First (MarkUneven (burst_of place ms) mark) result }
    ensures first { (ms : List Mark) → here ≡ place + length ms → mark.sym.0 < MAX_SYMBOLS
        → TellsAll (burst_of place ms) (entry_of first.old)
        → TellsAll (burst_of place (ms ++ mark ∷ [])) (entry_of first.new) }
{
    let earlier = first.of(mark.sym);
    if earlier >= place {
        return Some(Clash {
            place: here,
            case: 0,
            other: earlier,
        });
    }
    first.put(mark.sym, here);
    if mark.dir != dir {
        return Some(Clash {
            place: here,
            case: 1,
            other: place,
        });
    }
    None
}
