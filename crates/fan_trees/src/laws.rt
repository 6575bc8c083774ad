//! Laws of the definitions in `specs/`: each function here does nothing, and its contract is the law.
ghost use Rattle.basic_kinds.specs.declared.kind.Kind.{Kind};
ghost use Rattle.basic_kinds.specs.Kinds.{IsWellFormed};
ghost use Rattle.two_way.specs.Layers.{IsSplitOf};
ghost use Rattle.fan_trees.specs.FanLayers.{IsFan, fan_layer};

/// The layer of a FORK, a C or a MERGE is a split of it: there is none exactly where the kind is two-way, and else it is correct
/// for the kind, its components are lighter, and in the end the same two-way components stand for it.
pub fn fan_law()
    ensures { (kind : Kind) → IsFan kind → IsWellFormed kind → IsSplitOf kind (fan_layer kind) }
{}
