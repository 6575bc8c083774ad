//! The walk.
ghost use Rattle.std.specs.Prelude.{◌≡◌, ◌+◌, ◌<◌, ◌^◌, length, List, [], ◌++◌, nat_eq, if◌then◌else◌};
ghost use Rattle.cmd_tree.specs.declared.tree.Proc.{Proc};
ghost use Rattle.cmd_tree.specs.Tree.{places_of, places_in};
ghost use Rattle.cmd_tree.specs.View.{item_of};
ghost use Rattle.cmd_tree.specs.Limits.{places_of_proc};
ghost use Rattle.tree_walk.specs.Bursts.{Burst, part, firsts_of, firsts_in, lasts_of, lasts_in};
ghost use Rattle.tree_walk.specs.Meetings.{turn};
ghost use Rattle.tree_walk.specs.Edges.{by_direction, edges_of};
ghost use Rattle.tree_walk.specs.Passed.{Passed, nothing, and_then, all_of};
ghost use Rattle.tree_walk.specs.Mirror.Walked.{seq_passed, item_passed};

use crate::edges::{ByDirection, Edges};
use crate::visit::Visit;
use cmd_tree::{Item, Proc, Seq};

/// Where a walk stands after a piece of a tree: at which place, and with which edges of that piece.
#[derive(Clone, Copy)]
struct Walked {
    after: u32,
    edges: Edges,
}

impl Walked {
    // No piece, at this place.
    fn at(place: u32) -> Walked
        ensures after { result.after ≡ place }
        ensures edges { result.edges ≡ edges_of (record { lasts = []; firsts = [] }) }
    {
        Walked {
            after: place,
            edges: Edges {
                lasts: ByDirection::none(),
                firsts: ByDirection::none(),
            },
        }
    }

    // Some items of a sequence and one more, which is the first where the index is 0.
    fn and(self, item: Walked, index: usize) -> Walked
        ensures after { result.after ≡ item.after }
        ensures lasts { result.edges.lasts ≡ item.edges.lasts }
        ensures firsts { result.edges.firsts ≡ (if nat_eq index 0 then item.edges.firsts else self.edges.firsts) }
    {
        if index == 0 {
            return item;
        }
        Walked {
            after: item.after,
            edges: Edges {
                lasts: item.edges.lasts,
                firsts: self.edges.firsts,
            },
        }
    }

    // Some alternatives of a choice and one more.
    fn or(self, alternative: Walked) -> Walked
        ensures after { result.after ≡ alternative.after }
        ensures lasts { (bs : List Burst) (cs : List Burst) → self.edges.lasts ≡ by_direction bs → alternative.edges.lasts ≡ by_direction cs
            → result.edges.lasts ≡ by_direction (bs ++ cs) }
        ensures firsts { (bs : List Burst) (cs : List Burst) → self.edges.firsts ≡ by_direction bs → alternative.edges.firsts ≡ by_direction cs
            → result.edges.firsts ≡ by_direction (bs ++ cs) }
    {
        Walked {
            after: alternative.after,
            edges: Edges {
                lasts: self.edges.lasts.or(alternative.edges.lasts),
                firsts: self.edges.firsts.or(alternative.edges.firsts),
            },
        }
    }
}

/// Takes the visitor past a process, and gives the last bursts and the first bursts of its body.
/// `number` is that of the process.
pub fn walk<V: Visit>(number: u32, process: &Proc, visitor: &mut V) -> Edges
    requires { places_of_proc process.now + 1 < 2 ^ 32 }
    ensures knows { (ps : List Proc) → number ≡ length ps + 1 → V.knows visitor.old ps nothing
        → V.knows visitor.new ps (all_of process.now) }
    ensures turn { result ≡ edges_of (turn process.now) }
{
    let lead = walk_part(number, 1, ByDirection::none(), &process.lead, visitor);
    let body = walk_part(number, lead.after, lead.edges.lasts, &process.body, visitor);
    body.edges
}

fn walk_part<V: Visit>(
    number: u32,
    first: u32,
    before: ByDirection,
    piece: &Option<Seq>,
    visitor: &mut V,
) -> Walked
    requires { first + places_of (part piece.now) < 2 ^ 32 }
    ensures after { result.after ≡ first + places_of (part piece.now) }
    ensures edges { result.edges ≡ edges_of (record { lasts = lasts_of first (part piece.now); firsts = firsts_of first (part piece.now) }) }
    ensures knows { (ps : List Proc) (w : Passed) (bs : List Burst) → number ≡ length ps + 1 → before ≡ by_direction bs
        → V.knows visitor.old ps w → V.knows visitor.new ps (and_then w (seq_passed bs first (part piece.now))) }
{
    match piece {
        None => Walked::at(first),
        Some(seq) => walk_seq(number, first, before, seq, visitor),
    }
}

// A sequence that comes after bursts of which `before` are the first of each direction.
#[cycle(walk)]
fn walk_seq<V: Visit>(
    number: u32,
    first: u32,
    before: ByDirection,
    seq: &Seq,
    visitor: &mut V,
) -> Walked
    requires { first + places_of seq.now < 2 ^ 32 }
    ensures after { result.after ≡ first + places_of seq.now }
    ensures edges { result.edges ≡ edges_of (record { lasts = lasts_of first seq.now; firsts = firsts_of first seq.now }) }
    ensures knows { (ps : List Proc) (w : Passed) (bs : List Burst) → number ≡ length ps + 1 → before ≡ by_direction bs
        → V.knows visitor.old ps w → V.knows visitor.new ps (and_then w (seq_passed bs first seq.now)) }
{
    let items = seq.items.as_slice();
    let mut walked = Walked::at(first);
    let mut before = before;
    for (index, item) in items.iter().enumerate() {
        let passed = walk_item(number, walked.after, item, visitor);
        visitor.neighbours(
            number,
            Edges {
                lasts: before,
                firsts: passed.edges.firsts,
            },
        );
        before = passed.edges.lasts;
        walked = walked.and(passed, index);
    }
    walked
}

#[cycle(walk)]
fn walk_item<V: Visit>(number: u32, first: u32, item: &Item, visitor: &mut V) -> Walked
    requires { first + places_in (item_of item.now) < 2 ^ 32 }
    ensures after { result.after ≡ first + places_in (item_of item.now) }
    ensures edges { result.edges ≡ edges_of (record { lasts = lasts_in first (item_of item.now); firsts = firsts_in first (item_of item.now) }) }
    ensures knows { (ps : List Proc) (w : Passed) → number ≡ length ps + 1
        → V.knows visitor.old ps w → V.knows visitor.new ps (and_then w (item_passed first (item_of item.now))) }
{
    match item {
        Item::Burst(marks) => {
            let marks = marks.as_slice();
            visitor.burst(number, first, marks);
            let edges = ByDirection::of_burst(first, marks);
            Walked {
                after: first + marks.len() as u32,
                edges: Edges {
                    lasts: edges,
                    firsts: edges,
                },
            }
        }
        Item::Alt(seqs) => {
            let mut walked = Walked::at(first);
            for seq in seqs.as_slice() {
                let passed = walk_seq(number, walked.after, ByDirection::none(), seq, visitor);
                walked = walked.or(passed);
            }
            visitor.choice(number, first, seqs.as_slice(), walked.edges);
            walked
        }
    }
}
