//! Laws of the definitions in `specs/`: each function here does nothing, and its contract is the law.
ghost use Rattle.std.specs.Prelude.{◌≡◌, true};
ghost use Rattle.basic_kinds.specs.declared.shape.Shape.{Shape};
ghost use Rattle.basic_kinds.specs.declared.kind.Kind.TheVariants.{Dw};
ghost use Rattle.basic_kinds.specs.Kinds.{IsWellFormed};
ghost use Rattle.two_way.specs.Layers.{IsLayerOf};
ghost use Rattle.wait_parts.specs.PartsNet.{is_cut, parts_circuit};

/// The parts of a DW that is not connected, or has one crossing, are a layer of it: they are correct for the
/// DW, lighter, and in the end the same two-way components stand for them.
pub fn wait_parts_law()
    ensures { (s : Shape) → IsWellFormed (Dw s) → is_cut s ≡ true → IsLayerOf (Dw s) (parts_circuit s) }
{}
