//! The fifth rule: the first bursts of different alternatives of one choice differ as sets.
ghost use Rattle.std.specs.Prelude.{◌≡◌, ◌↔◌, ◌+◌, ◌<◌, ◌^◌, List, [], ◌∷◌, ◌++◌, IsTrue};
ghost use Rattle.cmd_tree.specs.declared.tree.Mark.{Mark};
ghost use Rattle.cmd_tree.specs.Limits.{places_of_proc, IsProc};
ghost use Rattle.tree_walk.specs.Bursts.{Burst};
ghost use Rattle.di_grammar.specs.Clashes.{First};
ghost use Rattle.di_grammar.specs.Grants.{IsGrant};
ghost use Rattle.di_grammar.specs.Lists.{Each};
ghost use Rattle.di_grammar.specs.Twins.{BreaksTwins};
ghost use Rattle.di_grammar.specs.Mirror.Stops.{Among};
ghost use Rattle.tree_walk.specs.Mirror.Table.{entry_of};
ghost use Rattle.di_grammar.specs.Mirror.Twins.{Climbs, IsClimbing, HasTwins, TwinsIn, Against, EqualAt, Nearest, AreEntered, Told, firsts, burst_at};

use crate::clash::{Clash, lesser};
use crate::symbols::{enter, has_new, same_symbols};
use cmd_tree::{Mark, Proc, Seq};
use tree_walk::{Choice, Edges, Table, Visit, VisitFirst, walk, walk_firsts};

/// The first place where two alternatives of a choice may begin with the same symbols. A grant has no such place.
pub fn twins(process: &Proc, grant: bool) -> Option<Clash>
    requires small { places_of_proc process.now + 1 < 2 ^ 32 }
    requires whole { IsProc process.now }
    requires told { IsTrue grant ↔ IsGrant process.now }
    ensures { First (BreaksTwins process.now) result }
{
    if grant {
        return None;
    }
    let mut choices = Choices { found: None };
    walk(1, process, &mut choices);
    choices.found
}

#[derive(Drop)]
struct Choices {
    found: Option<Clash>,
}

impl Visit for Choices {
    ghost knows = { λ v ps w. Each IsClimbing w.choices → First (Among HasTwins w.choices) v.found };

    fn burst(&mut self, _number: u32, _place: u32, _marks: &[Mark]) {}

    fn neighbours(&mut self, _number: u32, _edges: Edges) {}

    fn choice(&mut self, _number: u32, place: u32, seqs: &[Seq], _edges: Edges) {
        self.found = lesser(self.found, twins_among(Choice { place, seqs }));
    }
}

fn twins_among(choice: Choice) -> Option<Clash>
    ensures { Climbs 0 (firsts choice.entry) → First (TwinsIn (firsts choice.entry)) result }
{
    let mut search = Search {
        choice,
        entered: Table::none(),
        found: None,
    };
    walk_firsts(choice, &mut search);
    search.found
}

// A search through the first bursts of a choice. The symbols of those that are passed are entered.
#[derive(Drop)]
struct Search<'a> {
    choice: Choice<'a>,
    entered: Table,
    found: Option<Clash>,
}

impl VisitFirst for Search<'_> {
    ghost Aim = { List Burst };

    ghost knows = { λ all v bs. (firsts v.choice ≡ all) × AreEntered (entry_of v.entered) bs × Told all bs v.found };

    fn first_burst(&mut self, place: u32, marks: &[Mark]) {
        self.found = self.found_with(place, marks);
        enter(marks, &mut self.entered);
    }
}

impl Search<'_> {
    // What is found once one more burst is passed. A burst with a new symbol equals none before it.
    fn found_with(&self, place: u32, marks: &[Mark]) -> Option<Clash>
        ensures { (bs : List Burst) → AreEntered (entry_of self.now.entered) bs → Told (firsts self.now.choice) bs self.now.found
            → Told (firsts self.now.choice) (bs ++ burst_at place marks.now ∷ []) result }
    {
        if self.found.is_some() {
            return self.found;
        }
        if has_new(marks, &self.entered) {
            return None;
        }
        twin(place, marks, self.choice)
    }
}

// A burst against the first one of the choice that has its symbols, if that is another.
fn twin(place: u32, marks: &[Mark], choice: Choice) -> Option<Clash>
    ensures { Climbs 0 (firsts choice.entry) → First (Against (firsts choice.entry) (burst_at place marks.now)) result }
{
    let mut equal = Equal { marks, place: None };
    walk_firsts(choice, &mut equal);
    match equal.place {
        None => None,
        Some(other) => twin_at(place, other),
    }
}

fn twin_at(place: u32, other: u32) -> Option<Clash>
    ensures { (all : List Burst) (ms : List Mark) → EqualAt ms all other → First (Against all (burst_at place ms)) result }
{
    if other < place {
        Some(Clash {
            place,
            case: 0,
            other,
        })
    } else {
        None
    }
}

// A search for the first burst that has the symbols of `marks`.
#[derive(Drop)]
struct Equal<'a> {
    marks: &'a [Mark],
    place: Option<u32>,
}

impl VisitFirst for Equal<'_> {
    ghost Aim = { List Mark };

    ghost knows = { λ ms v bs. (v.marks.now ≡ ms) × (Climbs 0 bs → Nearest ms bs v.place) };

    fn first_burst(&mut self, place: u32, marks: &[Mark]) {
        self.place = self.place_with(place, marks);
    }
}

impl Equal<'_> {
    fn place_with(&self, place: u32, marks: &[Mark]) -> Option<u32>
        ensures { (bs : List Burst) → (Climbs 0 bs → Nearest self.now.marks.now bs self.now.place)
            → Climbs 0 (bs ++ burst_at place marks.now ∷ []) → Nearest self.now.marks.now (bs ++ burst_at place marks.now ∷ []) result }
    {
        if self.place.is_some() {
            return self.place;
        }
        if same_symbols(marks, self.marks) {
            Some(place)
        } else {
            None
        }
    }
}
