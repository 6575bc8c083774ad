//! The second and the third rule: where one burst comes after another, their directions differ.
ghost use Rattle.std.specs.Prelude.{◌≡◌, ◌+◌, ◌<◌, ◌^◌, List, ⊤};
ghost use Rattle.cmd_tree.specs.Limits.{places_of_proc};
ghost use Rattle.tree_walk.specs.Bursts.{Burst};
ghost use Rattle.tree_walk.specs.Edges.{by_direction};
ghost use Rattle.di_grammar.specs.Clashes.{First};
ghost use Rattle.di_grammar.specs.Lists.{Each};
ghost use Rattle.di_grammar.specs.Alternation.{BreaksNeighbours, BreaksRounds};
ghost use Rattle.di_grammar.specs.Mirror.Stops.{Among, Rises, IsOrdered, Both, SameWay, Meets};

use crate::clash::{Clash, lesser};
use cmd_tree::{Mark, Proc, Seq};
use tree_walk::{ByDirection, Edges, Visit, walk};

/// The first place where two neighbours have a last burst and a first burst of one direction.
pub fn one_way_neighbours(process: &Proc) -> Option<Clash>
    requires { places_of_proc process.now + 1 < 2 ^ 32 }
    ensures { First (BreaksNeighbours process.now) result }
{
    let mut meetings = Meetings { found: None };
    walk(1, process, &mut meetings);
    meetings.found
}

/// The first place where a turn of the body ends with the direction with which the next may begin.
pub fn one_way_rounds(process: &Proc) -> Option<Clash>
    requires { places_of_proc process.now + 1 < 2 ^ 32 }
    ensures { First (BreaksRounds process.now) result }
{
    let turn = walk(1, process, &mut Passing {});
    same_way(turn.lasts, turn.firsts)
}

// Of bursts whose places do not fall the first that has the direction of one of the others.
fn same_way(bursts: ByDirection, others: ByDirection) -> Option<Clash>
    ensures { (bs : List Burst) (cs : List Burst) → bursts ≡ by_direction bs → others ≡ by_direction cs
        → Rises 0 bs → Rises 0 cs → First (SameWay bs cs) result }
{
    let inputs = both(bursts.input, others.input);
    let outputs = both(bursts.output, others.output);
    lesser(inputs, outputs)
}

/// Both places, where they are there.
pub fn both(place: Option<u32>, other: Option<u32>) -> Option<Clash>
    ensures { First (Both place other) result }
{
    match (place, other) {
        (Some(place), Some(other)) => Some(Clash {
            place,
            case: 0,
            other,
        }),
        _ => None,
    }
}

#[derive(Drop)]
struct Meetings {
    found: Option<Clash>,
}

impl Visit for Meetings {
    ghost knows = { λ v ps w. Each IsOrdered w.neighbours → First (Among Meets w.neighbours) v.found };

    fn burst(&mut self, _number: u32, _place: u32, _marks: &[Mark]) {}

    fn neighbours(&mut self, _number: u32, edges: Edges) {
        self.found = lesser(self.found, same_way(edges.firsts, edges.lasts));
    }

    fn choice(&mut self, _number: u32, _place: u32, _seqs: &[Seq], _edges: Edges) {}
}

#[derive(Drop)]
struct Passing {}

impl Visit for Passing {
    ghost knows = { λ v ps w. ⊤ };

    fn burst(&mut self, _number: u32, _place: u32, _marks: &[Mark]) {}

    fn neighbours(&mut self, _number: u32, _edges: Edges) {}

    fn choice(&mut self, _number: u32, _place: u32, _seqs: &[Seq], _edges: Edges) {}
}
