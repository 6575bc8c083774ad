ghost use Rattle.std.specs.Prelude.{◌≡◌, ◌↔◌, IfOk, IsTrue};

use crate::kind::Kind;
use crate::shape::Shape;
use sqlite_items::Items;
use std::alloc::{AllocError, Global};

/// An equal kind with memory of its own.
pub fn copy_kind(alloc: Global, kind: &Kind) -> Result<Kind, AllocError>
    ensures { IfOk result (λ copy. copy ≡ kind.now) }
{
    match kind {
        Kind::Wire => Ok(Kind::Wire),
        Kind::Iwire => Ok(Kind::Iwire),
        Kind::Source => Ok(Kind::Source),
        Kind::Sink => Ok(Kind::Sink),
        Kind::Fork(width) => Ok(Kind::Fork(*width)),
        Kind::C(width) => Ok(Kind::C(*width)),
        Kind::Merge(width) => Ok(Kind::Merge(*width)),
        Kind::Toggle => Ok(Kind::Toggle),
        Kind::Dw(shape) => {
            let copy = copy_shape(alloc, shape)?;
            Ok(Kind::Dw(copy))
        }
        Kind::Seq(requests) => Ok(Kind::Seq(*requests)),
    }
}

pub(crate) fn copy_shape(alloc: Global, shape: &Shape) -> Result<Shape, AllocError>
    ensures { IfOk result (λ copy. copy ≡ shape.now) }
{
    let cross = Items::from_slice(alloc, shape.cross.as_slice())?;
    Ok(Shape {
        rows: shape.rows,
        cols: shape.cols,
        cross,
    })
}

/// Whether both kinds are equal.
pub fn same_kind(a: &Kind, b: &Kind) -> bool
    ensures { IsTrue result ↔ (a.now ≡ b.now) }
{
    match (a, b) {
        (Kind::Wire, Kind::Wire)
        | (Kind::Iwire, Kind::Iwire)
        | (Kind::Source, Kind::Source)
        | (Kind::Sink, Kind::Sink)
        | (Kind::Toggle, Kind::Toggle) => true,
        (Kind::Fork(first), Kind::Fork(second))
        | (Kind::C(first), Kind::C(second))
        | (Kind::Merge(first), Kind::Merge(second))
        | (Kind::Seq(first), Kind::Seq(second)) => *first == *second,
        (Kind::Dw(first), Kind::Dw(second)) => same_shape(first, second),
        _ => false,
    }
}

fn same_shape(a: &Shape, b: &Shape) -> bool
    ensures { IsTrue result ↔ (a.now ≡ b.now) }
{
    let crossings = same_crossings(a.cross.as_slice(), b.cross.as_slice());
    crossings && a.rows == b.rows && a.cols == b.cols
}

fn same_crossings(a: &[(u32, u32)], b: &[(u32, u32)]) -> bool
    ensures { IsTrue result ↔ (a.now ≡ b.now) }
{
    a == b
}
