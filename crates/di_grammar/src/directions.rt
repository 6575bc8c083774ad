//! The seventh rule: a symbol has one direction in the whole command.
ghost use Rattle.std.specs.Prelude.{◌≡◌, ◌+◌, ◌<◌, ◌^◌, List, [], ◌∷◌, ◌++◌, length};
ghost use Rattle.cmd_tree.specs.Limits.{places_of_all, marks_of_all};
ghost use Rattle.di_grammar.specs.declared.spots.Spot.{Spot};
ghost use Rattle.di_grammar.specs.Breaches.{FirstOf};
ghost use Rattle.di_grammar.specs.Directions.{BreaksDirections};
ghost use Rattle.di_grammar.specs.Mirror.Laid.{AreSmall};
ghost use Rattle.di_grammar.specs.Mirror.Seen.{Knows};

use crate::breach::{Breach, earlier_of};
use crate::grants::same_dir;
use crate::spots::Spot;
use cmd_tree::{MAX_SYMBOLS, Mark, Proc, Seq};
use tree_walk::{Edges, Visit, walk};

/// The first mark that has not the direction of the first mark of its symbol.
pub fn turned(procs: &[Proc]) -> Option<Breach>
    requires count { length procs.now + 1 < 2 ^ 32 }
    requires places { places_of_all procs.now + 1 < 2 ^ 32 }
    requires small { AreSmall (marks_of_all procs.now) }
    ensures { FirstOf (BreaksDirections procs.now) result }
{
    let mut directions = Directions {
        first: [None; MAX_SYMBOLS],
        found: None,
    };
    for (index, process) in procs.iter().enumerate() {
        walk(index as u32 + 1, process, &mut directions);
    }
    directions.found
}

// Of each symbol the first mark, and the first breach so far.
#[derive(Drop)]
struct Directions {
    first: [Option<Spot>; MAX_SYMBOLS],
    found: Option<Breach>,
}

impl Directions {
    fn see(&mut self, spot: Spot)
        ensures { (ss : List Spot) → Knows self.old.first self.old.found ss → Knows self.new.first self.new.found (ss ++ spot ∷ []) }
    {
        let symbol = spot.mark.sym.0 as usize;
        if symbol >= MAX_SYMBOLS {
            return;
        }
        let known = self.first[symbol];
        match known {
            None => self.first[symbol] = Some(spot),
            Some(first) => {
                if !same_dir(spot.mark.dir, first.mark.dir) {
                    self.found = earlier_of(self.found, Some(spot.against(0, first)));
                }
            }
        }
    }
}

impl Visit for Directions {
    ghost use Rattle.di_grammar.specs.Mirror.Seen.{spots_after, Knows};

    ghost knows = { λ v ps w. Knows v.first v.found (spots_after ps w.bursts) };

    fn burst(&mut self, number: u32, place: u32, marks: &[Mark]) {
        for (index, mark) in marks.iter().enumerate() {
            self.see(Spot {
                process: number,
                place: place + index as u32,
                mark: *mark,
            });
        }
    }

    fn neighbours(&mut self, _number: u32, _edges: Edges) {}

    fn choice(&mut self, _number: u32, _place: u32, _seqs: &[Seq], _edges: Edges) {}
}
