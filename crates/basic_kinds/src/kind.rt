ghost use Rattle.std.specs.Prelude.{◌≡◌};
ghost use Rattle.basic_kinds.specs.Kinds.{IsWellFormed, inputs_of, outputs_of};

use crate::shape::Shape;

/// A basic component. The numbers are the widths of its wide side.
///
/// WIRE, FORK, C, MERGE and TOGGLE are the components of Ebergen's book; the others are ours.
#[derive(Drop)]
pub enum Kind {
    /// Hands each transition on.
    Wire,
    /// A wire that begins with a transition of its own.
    Iwire,
    /// One transition, once.
    Source,
    /// Takes one transition, once.
    Sink,
    /// One input to all outputs.
    Fork(u32),
    /// All inputs, and then the output.
    C(u32),
    /// Any one input, and then the output.
    Merge(u32),
    /// One input to two outputs in turn.
    Toggle,
    /// A row and a column that cross, and then the output of their crossing.
    Dw(Shape),
    /// Grants one request for each token.
    Seq(u32),
}

/// The numbers of inputs and outputs.
pub fn ports(kind: &Kind) -> (u32, u32)
    requires { IsWellFormed kind.now }
    ensures inputs { result.0 ≡ inputs_of kind.now }
    ensures outputs { result.1 ≡ outputs_of kind.now }
{
    match kind {
        Kind::Wire | Kind::Iwire => (1, 1),
        Kind::Source => (0, 1),
        Kind::Sink => (1, 0),
        Kind::Fork(width) => (1, *width),
        Kind::C(width) | Kind::Merge(width) => (*width, 1),
        Kind::Toggle => (1, 2),
        Kind::Dw(shape) => (shape.rows + shape.cols, shape.cross.len() as u32),
        Kind::Seq(requests) => (*requests + 1, *requests),
    }
}
