//! The trees of commands: marks, items, sequences, processes.
use sqlite_items::Items;
use std::marker::Model;

/// The direction of a symbol, seen from the component that the command specifies.
#[derive(Debug, Clone, Copy, PartialEq, Eq)]
pub enum Dir {
    Input,
    Output,
}

/// A symbol: its number in the command's list of names, from 0.
#[derive(Debug, Clone, Copy, PartialEq, Eq)]
pub struct Sym(pub u32);

/// One occurrence of a symbol with its direction, `a?` or `b!`.
#[derive(Debug, Clone, Copy, PartialEq, Eq)]
pub struct Mark {
    pub sym: Sym,
    pub dir: Dir,
}

/// A burst of marks in any order, or a choice of sequences.
#[cycle(tree)]
#[derive(Drop)]
pub enum Item {
    Burst(Items<Mark>),
    Alt(Items<Seq>),
}

/// Items one after the other. Contracts see it as a tree of `specs/Tree.antt`.
#[cycle(tree)]
#[derive(Drop)]
pub struct Seq {
    pub items: Items<Item>,
}

impl Model for Seq {
    ghost use Rattle.cmd_tree.specs.Tree.{TSeq};
    ghost use Rattle.cmd_tree.specs.Mirror.Size.{size_of};
    ghost use Rattle.cmd_tree.specs.Mirror.Stored.{coded_seq};

    ghost Value = { TSeq };

    ghost coded = { coded_seq };

    ghost use Rattle.cmd_tree.specs.View.{seq_of};

    ghost view = { λ a. seq_of a.items };

    ghost size = { size_of };

    ghost use Rattle.cmd_tree.specs.Mirror.Falls.{most-seq};
    ghost use Rattle.std.proofs.Common.{arith};

    ghost size_decreases = { λ a h. Prim.omega (arith, most-seq a.items) };
}

/// A process: the lead happens once, and then the body again and again.
#[derive(Drop)]
pub struct Proc {
    pub lead: Option<Seq>,
    pub body: Option<Seq>,
}
