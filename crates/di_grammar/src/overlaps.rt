//! The sixth rule: two input bursts of one process are equal or disjoint as sets.
ghost use Rattle.std.specs.Prelude.{◌≡◌, ◌↔◌, ℕ, ◌+◌, ◌<◌, ◌^◌, IsTrue, List, [], ◌∷◌, ◌++◌, length, min};
ghost use Rattle.cmd_tree.specs.declared.limits.TheConstants.{MAX_SYMBOLS};
ghost use Rattle.cmd_tree.specs.Limits.{places_of_proc, marks_of_proc};
ghost use Rattle.tree_walk.specs.Bursts.{Burst};
ghost use Rattle.di_grammar.specs.Lists.{Each, EachTwo};
ghost use Rattle.di_grammar.specs.Clashes.{First};
ghost use Rattle.di_grammar.specs.Bursts.{inputs};
ghost use Rattle.di_grammar.specs.Grants.{IsGrant};
ghost use Rattle.di_grammar.specs.EvenBursts.{KeepsBursts};
ghost use Rattle.di_grammar.specs.Overlaps.{EqualOrDisjoint, BreaksOverlaps};
ghost use Rattle.di_grammar.specs.Mirror.Laid.{AreSmall, IsSmall, Laid};
ghost use Rattle.tree_walk.specs.Mirror.Table.{entry_of};
ghost use Rattle.di_grammar.specs.Mirror.Uneven.{burst_of};
ghost use Rattle.di_grammar.specs.Mirror.Overlapping.{Distinct, StoodAll, Sound, Met, Lowest, StoodAt, Enters, KnowsOverlaps};

use crate::clash::Clash;
use cmd_tree::{Dir, Mark, Proc, Seq};
use tree_walk::{Edges, Table, Visit, dir_of, walk};

/// The first place where a process that keeps the first rule breaks the sixth. `grant` says whether it is a
/// grant.
pub fn overlapping_bursts(process: &Proc, grant: bool) -> Option<Clash>
    requires few { places_of_proc process.now + 1 < 2 ^ 32 }
    requires small { Each (λ m. m.sym.0 < MAX_SYMBOLS) (marks_of_proc process.now) }
    requires even { KeepsBursts process.now }
    requires told { IsTrue grant ↔ IsGrant process.now }
    ensures { First (BreaksOverlaps process.now) result }
{
    if grant {
        return None;
    }
    let mut bursts = InputBursts {
        firsts: Firsts {
            places: Table::none(),
            sizes: Table::none(),
        },
        found: None,
    };
    walk(1, process, &mut bursts);
    bursts.found
}

// Of each symbol the place and the size of the first input burst that has it.
#[derive(Drop)]
struct Firsts {
    places: Table,
    sizes: Table,
}

#[derive(Drop)]
struct InputBursts {
    firsts: Firsts,
    found: Option<Clash>,
}

impl Visit for InputBursts {
    ghost knows = { λ v ps w. (end : ℕ) → Laid 1 w.bursts end → Each IsSmall w.bursts → Each Distinct w.bursts
        → KnowsOverlaps (inputs w.bursts) (entry_of v.firsts.places) (entry_of v.firsts.sizes) v.found };

    fn burst(&mut self, _number: u32, place: u32, marks: &[Mark]) {
        match dir_of(marks) {
            Dir::Input => self.meet(place, marks),
            Dir::Output => {}
        }
    }

    fn neighbours(&mut self, _number: u32, _edges: Edges) {}

    fn choice(&mut self, _number: u32, _place: u32, _seqs: &[Seq], _edges: Edges) {}
}

impl InputBursts {
    // One more input burst.
    fn meet(&mut self, place: u32, marks: &[Mark])
        requires { place + length marks.now < 2 ^ 32 }
        ensures { (bs : List Burst) → Sound bs (burst_of place marks.now)
            → KnowsOverlaps bs (entry_of self.old.firsts.places) (entry_of self.old.firsts.sizes)
            self.old.found
            → KnowsOverlaps (bs ++ burst_of place marks.now ∷ [])
            (entry_of self.new.firsts.places) (entry_of self.new.firsts.sizes) self.new.found }
    {
        if self.found.is_some() {
            return;
        }
        self.found = self.firsts.meet(place, marks);
    }
}

impl Firsts {
    // One more input burst, where no two so far overlap.
    fn meet(&mut self, place: u32, marks: &[Mark]) -> Option<Clash>
        requires { place + length marks.now < 2 ^ 32 }
        ensures { (bs : List Burst) → Sound bs (burst_of place marks.now) → EachTwo EqualOrDisjoint bs
            → StoodAll bs (entry_of self.old.places) (entry_of self.old.sizes)
            → Met bs (burst_of place marks.now) (entry_of self.new.places) (entry_of self.new.sizes) result }
    {
        let low = self.lowest(marks);
        if low == 0 {
            self.enter(place, marks);
            return None;
        }
        if self.stood_at(low, marks) {
            return None;
        }
        Some(Clash {
            place,
            case: 0,
            other: low,
        })
    }

    // The least place of a symbol of these; 0 where none has a place.
    fn lowest(&self, marks: &[Mark]) -> u32
        ensures { Lowest (entry_of self.now.places) marks.now result }
    {
        let mut low = 0;
        for mark in marks {
            low = lower(low, self.places.of(mark.sym));
        }
        low
    }

    // Whether each of the symbols stood first in the burst at this place, which has as many marks.
    fn stood_at(&self, place: u32, marks: &[Mark]) -> bool
        ensures { IsTrue result
            ↔ Each (StoodAt (entry_of self.now.places) (entry_of self.now.sizes) place (length marks.now)) marks.now }
    {
        for mark in marks {
            if !self.mark_stood_at(place, marks.len(), *mark) {
                return false;
            }
        }
        true
    }

    fn mark_stood_at(&self, place: u32, size: usize, mark: Mark) -> bool
        ensures { IsTrue result
            ↔ StoodAt (entry_of self.now.places) (entry_of self.now.sizes) place size mark }
    {
        self.places.of(mark.sym) == place && self.sizes.of(mark.sym) as usize == size
    }

    // The burst is the first that has these symbols.
    fn enter(&mut self, place: u32, marks: &[Mark])
        requires { place + length marks.now < 2 ^ 32 }
        ensures places { AreSmall marks.now
            → Enters (entry_of self.old.places) (entry_of self.new.places) place marks.now }
        ensures sizes { AreSmall marks.now
            → Enters (entry_of self.old.sizes) (entry_of self.new.sizes) (length marks.now) marks.now }
    {
        for mark in marks {
            self.places.put(mark.sym, place);
            self.sizes.put(mark.sym, marks.len() as u32);
        }
    }
}

// The lesser of two places, where 0 is none.
fn lower(low: u32, place: u32) -> u32
    ensures none { place ≡ 0 → result ≡ low }
    ensures first { low ≡ 0 → result ≡ place }
    ensures less { 0 < low → 0 < place → result ≡ min low place }
{
    if place == 0 {
        return low;
    }
    if low == 0 {
        return place;
    }
    low.min(place)
}
