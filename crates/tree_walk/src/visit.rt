//! What is done at each stop of a walk.
ghost use Rattle.std.specs.Prelude.{◌≡◌, ◌+◌, ◌<◌, ◌^◌, length, List};
ghost use Rattle.cmd_tree.specs.declared.tree.Proc.{Proc};
ghost use Rattle.cmd_tree.specs.Tree.{places_among};
ghost use Rattle.cmd_tree.specs.View.{seqs_of};
ghost use Rattle.tree_walk.specs.Bursts.{firsts_among, lasts_among};
ghost use Rattle.tree_walk.specs.Meetings.{Neighbours, alternatives};
ghost use Rattle.tree_walk.specs.Edges.{edges_of};
ghost use Rattle.tree_walk.specs.Passed.{Passed, a_burst, a_meeting, a_choice, and_then};

use crate::edges::Edges;
use cmd_tree::{Mark, Seq};

/// What is done at each stop of a walk. `number` is that of the process.
pub trait Visit {
    // What is known after these processes and this part of the next one.
    ghost knows: { Self → List Proc → Passed → Type 0 };

    /// A burst whose first mark stands at `place`.
    fn burst(&mut self, number: u32, place: u32, marks: &[Mark])
        requires { place + length marks.now < 2 ^ 32 }
        ensures { (ps : List Proc) (w : Passed) → number ≡ length ps + 1 → knows self.old ps w
            → knows self.new ps (and_then w (a_burst place marks.now)) };

    /// Neighbours, by the last bursts of the one and the first bursts of the other.
    fn neighbours(&mut self, number: u32, edges: Edges)
        ensures { (ps : List Proc) (w : Passed) (n : Neighbours) → number ≡ length ps + 1 → edges ≡ edges_of n → knows self.old ps w
            → knows self.new ps (and_then w (a_meeting n)) };

    /// A choice that begins at `place`, with the last bursts and the first bursts of its alternatives.
    fn choice(&mut self, number: u32, place: u32, seqs: &[Seq], edges: Edges)
        requires { place + places_among (seqs_of seqs.now) < 2 ^ 32 }
        ensures { (ps : List Proc) (w : Passed) → number ≡ length ps + 1
            → edges ≡ edges_of (record { lasts = lasts_among place (seqs_of seqs.now); firsts = firsts_among place (seqs_of seqs.now) })
            → knows self.old ps w → knows self.new ps (and_then w (a_choice (alternatives place (seqs_of seqs.now)))) };
}
