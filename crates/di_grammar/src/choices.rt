//! The fourth rule: each alternative of a choice begins with inputs, and all end with one direction.
ghost use Rattle.std.specs.Prelude.{◌≡◌, ◌↔◌, ◌+◌, ◌<◌, ◌^◌, List, IsTrue};
ghost use Rattle.cmd_tree.specs.Limits.{places_of_proc};
ghost use Rattle.tree_walk.specs.Bursts.{Burst};
ghost use Rattle.tree_walk.specs.Edges.{by_direction};
ghost use Rattle.tree_walk.specs.Meetings.{Alternative};
ghost use Rattle.di_grammar.specs.Clashes.{First};
ghost use Rattle.di_grammar.specs.Grants.{IsGrant};
ghost use Rattle.di_grammar.specs.Choices.{BreaksChoices, all_firsts, all_lasts};
ghost use Rattle.di_grammar.specs.Mirror.Stops.{Among, Apart, IsBroken, Rises};

use crate::alternation::both;
use crate::clash::{Clash, lesser};
use cmd_tree::{Mark, Proc, Seq};
use tree_walk::{ByDirection, Edges, Visit, walk};

/// The first place where a choice may begin with an output, or may end with both directions. A grant has no such place.
pub fn broken_choices(process: &Proc, grant: bool) -> Option<Clash>
    requires small { places_of_proc process.now + 1 < 2 ^ 32 }
    requires told { IsTrue grant ↔ IsGrant process.now }
    ensures { First (BreaksChoices process.now) result }
{
    if grant {
        return None;
    }
    let mut choices = Choices { found: None };
    walk(1, process, &mut choices);
    choices.found
}

// Of a choice, by the first bursts and the last bursts of all its alternatives.
fn broken_choice(edges: Edges) -> Option<Clash>
    ensures { (choice : List Alternative) → edges.firsts ≡ by_direction (all_firsts choice) → edges.lasts ≡ by_direction (all_lasts choice)
        → Rises 0 (all_firsts choice) → Rises 0 (all_lasts choice) → First (IsBroken choice) result }
{
    let begins = both(edges.firsts.output, edges.firsts.output);
    let ends = apart(edges.lasts);
    lesser(begins, ends)
}

// The later of two places with different directions, against the earlier one.
fn apart(lasts: ByDirection) -> Option<Clash>
    ensures { First (Apart lasts.input lasts.output) result }
{
    match (lasts.input, lasts.output) {
        (Some(input), Some(output)) => Some(Clash {
            place: input.max(output),
            case: 1,
            other: input.min(output),
        }),
        _ => None,
    }
}

#[derive(Drop)]
struct Choices {
    found: Option<Clash>,
}

impl Visit for Choices {
    ghost knows = { λ v ps w. First (Among IsBroken w.choices) v.found };

    fn burst(&mut self, _number: u32, _place: u32, _marks: &[Mark]) {}

    fn neighbours(&mut self, _number: u32, _edges: Edges) {}

    fn choice(&mut self, _number: u32, _place: u32, _seqs: &[Seq], edges: Edges) {
        self.found = lesser(self.found, broken_choice(edges));
    }
}
