//! The line of a component, read.
ghost use Rattle.std.specs.Prelude.{◌≡◌, ◌↔◌, ◌+◌, ◌<◌, ◌≤◌, ◌^◌, IsTrue, length, IfOk, IfSome, IsNone};
ghost use Rattle.basic_kinds.specs.Kinds.{inputs_of, outputs_of, IsWide};
ghost use Rattle.net_text.specs.Mirror.PartWords.{kind_named, IsPlain, IsPlainPart, IsNoPlainPart, IsWaitPart, IsNoWaitPart};
ghost use Rattle.text_lines.specs.Pieces.{pieces};
ghost use Rattle.net_text.specs.NetFault.{IsPartLine, IsNoPartLine};

use crate::wait::{Wait, is_shape, read_wait};
use crate::wires::{Wires, read_wires};
use basic_kinds::{Kind, Shape};
use net_core::{Node, NodeSpec};
use sqlite_items::Items;
use std::alloc::{AllocError, Global};
use text_lines::first_piece;

/// The component whose line this is; none where it is that of none.
pub(crate) fn read_part(alloc: Global, line: &[u8]) -> Result<Option<Node>, AllocError>
    requires { length line.now ≤ 2 ^ 24 }
    ensures some { IfOk result (λ it. IfSome it (λ node. IsPartLine line.now node)) }
    ensures none { IfOk result (λ it. IsNone it → IsNoPartLine line.now) }
{
    let (name, rest) = first_piece(line, b' ');
    if name == b"DW".as_slice() {
        let Some(wait) = read_wait(alloc, rest)? else {
            return Ok(None);
        };
        return wait_part(alloc, wait);
    }
    let Some(wires) = read_wires(alloc, rest)? else {
        return Ok(None);
    };
    Ok(plain_part(name, wires))
}

/// The component of this name with these wires; none where none has such a name and so many wires.
fn plain_part(name: &[u8], wires: Wires) -> Option<Node>
    requires few { length wires.ends.items < 2 ^ 25 }
    requires front { wires.inputs ≤ length wires.ends.items }
    ensures some { IfSome result (λ node. IsPlainPart name.now wires.inputs wires.ends.items node) }
    ensures none { IsNone result → IsNoPlainPart name.now wires.inputs wires.ends.items }
{
    let inputs = wires.inputs as u32;
    let outputs = (wires.ends.len() - wires.inputs) as u32;
    let kind = kind_named(name, inputs, outputs)?;
    if !has_ports(&kind, inputs, outputs) {
        return None;
    }
    Some(Node {
        spec: NodeSpec::Kind(kind),
        wires: wires.ends,
    })
}

/// The kind of this name whose widths are told by these numbers.
fn kind_named(name: &[u8], inputs: u32, outputs: u32) -> Option<Kind>
    ensures { result ≡ kind_named name.now inputs outputs }
{
    if name == b"WIRE".as_slice() {
        Some(Kind::Wire)
    } else if name == b"IWIRE".as_slice() {
        Some(Kind::Iwire)
    } else if name == b"SOURCE".as_slice() {
        Some(Kind::Source)
    } else if name == b"SINK".as_slice() {
        Some(Kind::Sink)
    } else if name == b"FORK".as_slice() {
        Some(Kind::Fork(outputs))
    } else if name == b"C".as_slice() {
        Some(Kind::C(inputs))
    } else if name == b"MERGE".as_slice() {
        Some(Kind::Merge(inputs))
    } else if name == b"TOGGLE".as_slice() {
        Some(Kind::Toggle)
    } else if name == b"SEQ".as_slice() {
        Some(Kind::Seq(outputs))
    } else {
        None
    }
}

/// Whether a kind without a shape is wide enough, and has so many ports.
fn has_ports(kind: &Kind, inputs: u32, outputs: u32) -> bool
    requires { outputs < 2 ^ 25 }
    ensures { IsTrue result ↔ (IsPlain kind.now × IsWide kind.now × (inputs_of kind.now ≡ inputs) × (outputs_of kind.now ≡ outputs)) }
{
    match kind {
        Kind::Wire | Kind::Iwire => inputs == 1 && outputs == 1,
        Kind::Source => inputs == 0 && outputs == 1,
        Kind::Sink => inputs == 1 && outputs == 0,
        Kind::Fork(width) => inputs == 1 && outputs == *width && *width >= 2,
        Kind::C(width) | Kind::Merge(width) => inputs == *width && outputs == 1 && *width >= 2,
        Kind::Toggle => inputs == 1 && outputs == 2,
        Kind::Dw(_) => false,
        Kind::Seq(requests) => inputs == outputs + 1 && outputs == *requests && *requests >= 2,
    }
}

/// The decision wait that is written so; none where the crossings are those of no shape with so many wires.
fn wait_part(alloc: Global, wait: Wait) -> Result<Option<Node>, AllocError>
    requires few { length wait.wires.ends.items < 2 ^ 25 }
    requires front { wait.wires.inputs ≤ length wait.wires.ends.items }
    ensures some { IfOk result (λ it. IfSome it (λ node. IsWaitPart (record {
      rows = wait.rows;
      cols = wait.cols;
      cross = wait.cross.items;
      ends = record { inputs = wait.wires.inputs; ends = wait.wires.ends.items };
    }) node)) }
    ensures none { IfOk result (λ it. IsNone it → IsNoWaitPart (record {
      rows = wait.rows;
      cols = wait.cols;
      cross = wait.cross.items;
      ends = record { inputs = wait.wires.inputs; ends = wait.wires.ends.items };
    })) }
{
    let Wait {
        rows,
        cols,
        cross,
        wires,
    } = wait;
    if rows as usize + cols as usize != wires.inputs {
        return Ok(None);
    }
    if cross.len() != wires.ends.len() - wires.inputs {
        return Ok(None);
    }
    if !is_shape(alloc, rows, cols, cross.as_slice())? {
        return Ok(None);
    }
    let cross = Items::from_vec(cross);
    let shape = Shape { rows, cols, cross };
    Ok(Some(Node {
        spec: NodeSpec::Kind(Kind::Dw(shape)),
        wires: wires.ends,
    }))
}
