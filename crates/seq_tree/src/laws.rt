//! Laws of the definitions in `specs/`: each function here does nothing, and its contract is the law.
ghost use Rattle.basic_kinds.specs.declared.kind.Kind.{Kind};
ghost use Rattle.basic_kinds.specs.Kinds.{IsWellFormed};
ghost use Rattle.two_way.specs.Layers.{IsSplitOf};
ghost use Rattle.seq_tree.specs.SequencerLayer.{IsSequencer, sequencer_layer};

/// The layer of a SEQ is a split of it: there is none exactly where the SEQ is two-way, and else it is correct for the SEQ, its
/// components are lighter, and in the end the same two-way components stand for it.
pub fn sequencer_law()
    ensures { (kind : Kind) → IsSequencer kind → IsWellFormed kind → IsSplitOf kind (sequencer_layer kind) }
{}
