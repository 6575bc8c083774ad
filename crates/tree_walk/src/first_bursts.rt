//! A walk over the first bursts of a choice.
ghost use Rattle.std.specs.Prelude.{◌≡◌, ◌+◌, ◌<◌, ◌^◌, List, [], ◌∷◌, ◌++◌};
ghost use Rattle.cmd_tree.specs.Tree.{places_of, places_in, places_among};
ghost use Rattle.cmd_tree.specs.View.{item_of, seq_of, seqs_of};
ghost use Rattle.tree_walk.specs.Bursts.{Burst, firsts_of, firsts_in, firsts_among};
ghost use Rattle.std.specs.Coded.{le_prop};

use cmd_tree::{Item, Mark, Seq, item_places};

/// A choice that begins at a place.
#[derive(Clone, Copy)]
pub struct Choice<'a> {
    pub place: u32,
    pub seqs: &'a [Seq],
    pub ghost few: { place + places_among (seqs_of seqs.now) < 2 ^ 32 } by { le_prop },
}

/// What is done at each first burst.
pub trait VisitFirst {
    // What is looked for, and does not change.
    ghost Aim: { Type 0 };

    // What is known after these first bursts.
    ghost knows: { Aim → Self → List Burst → Type 0 };

    fn first_burst(&mut self, place: u32, marks: &[Mark])
        ensures { (aim : Aim) (bs : List Burst) → knows aim self.old bs → knows aim self.new (bs ++ record { place = place; marks = marks.now } ∷ []) };
}

/// Takes the visitor past the first bursts of a choice.
pub fn walk_firsts<V: VisitFirst>(choice: Choice, visitor: &mut V)
    ensures { (aim : V.Aim) (bs : List Burst) → V.knows aim visitor.old bs → V.knows aim visitor.new (bs ++ firsts_among choice.entry.place (seqs_of choice.entry.seqs.now)) }
{
    let mut here = choice.place;
    for seq in choice.seqs {
        here = walk_seq(here, seq, visitor);
    }
}

// The place after the sequence is given, so that each place is counted once.
#[cycle(firsts)]
fn walk_seq<V: VisitFirst>(place: u32, seq: &Seq, visitor: &mut V) -> u32
    requires { place + places_of seq.now < 2 ^ 32 }
    ensures after { result ≡ place + places_of seq.now }
    ensures knows { (aim : V.Aim) (bs : List Burst) → V.knows aim visitor.old bs → V.knows aim visitor.new (bs ++ firsts_of place seq.now) }
{
    match seq.items.as_slice() {
        [] => place,
        [item, rest @ ..] => {
            let after = walk_item(place, item, visitor);
            after + items_places(rest)
        }
    }
}

fn items_places(items: &[Item]) -> u32
    requires { places_of (seq_of items.now) < 2 ^ 32 }
    ensures { result ≡ places_of (seq_of items.now) }
{
    let mut count: u32 = 0;
    for item in items {
        count += item_places(item);
    }
    count
}

#[cycle(firsts)]
fn walk_item<V: VisitFirst>(place: u32, item: &Item, visitor: &mut V) -> u32
    requires { place + places_in (item_of item.now) < 2 ^ 32 }
    ensures after { result ≡ place + places_in (item_of item.now) }
    ensures knows { (aim : V.Aim) (bs : List Burst) → V.knows aim visitor.old bs → V.knows aim visitor.new (bs ++ firsts_in place (item_of item.now)) }
{
    match item {
        Item::Burst(marks) => {
            visitor.first_burst(place, marks.as_slice());
            place + marks.len() as u32
        }
        Item::Alt(seqs) => {
            let mut here = place;
            for seq in seqs.as_slice() {
                here = walk_seq(here, seq, visitor);
            }
            here
        }
    }
}
