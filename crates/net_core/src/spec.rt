ghost use Rattle.std.specs.Prelude.{◌≡◌, ℕ, ◌<◌, ◌++◌, map, length, replicate, true, false, IfOk, IsTrue, ◌↔◌};
ghost use Rattle.std.specs.List.{range_with_len};
ghost use Rattle.cmd_tree.specs.Limits.{marks_of_all};
ghost use Rattle.basic_kinds.specs.Kinds.{inputs_of, outputs_of};
ghost use Rattle.net_core.specs.Specs.{outs_of, IsFormed, gives_symbol, sides};

use basic_kinds::{Kind, copy_kind, ports, same_kind};
use cmd_tree::{Command, Dir, all_marks, copy_command, same_command};
use std::alloc::{AllocError, Global};

/// What a node does: a basic kind, whose ports are its inputs and then its outputs, or a command, whose
/// ports are its symbols in order.
#[derive(Drop)]
pub enum NodeSpec {
    Kind(Kind),
    Cmd(Command),
}

/// For each port, in order, whether it is an output.
pub fn directions(alloc: Global, spec: &NodeSpec) -> Result<Vec<bool>, AllocError>
    requires { IsFormed spec.now }
    ensures { IfOk result (λ outs. outs.items ≡ outs_of spec.now) }
{
    match spec {
        NodeSpec::Kind(kind) => {
            let (inputs, outputs) = ports(kind);
            kind_directions(alloc, inputs, outputs)
        }
        NodeSpec::Cmd(command) => command_directions(alloc, command),
    }
}

/// An equal specification with memory of its own.
pub fn copy_spec(alloc: Global, spec: &NodeSpec) -> Result<NodeSpec, AllocError>
    ensures { IfOk result (λ copy. copy ≡ spec.now) }
{
    match spec {
        NodeSpec::Kind(kind) => {
            let copy = copy_kind(alloc, kind)?;
            Ok(NodeSpec::Kind(copy))
        }
        NodeSpec::Cmd(command) => {
            let copy = copy_command(alloc, command)?;
            Ok(NodeSpec::Cmd(copy))
        }
    }
}

/// Whether both specifications are equal: the same kind, or equal commands. It takes no memory.
pub fn same_spec(a: &NodeSpec, b: &NodeSpec) -> bool
    ensures { IsTrue result ↔ (a.now ≡ b.now) }
{
    match (a, b) {
        (NodeSpec::Kind(first), NodeSpec::Kind(second)) => same_kind(first, second),
        (NodeSpec::Cmd(first), NodeSpec::Cmd(second)) => same_command(first, second),
        _ => false,
    }
}

fn kind_directions(alloc: Global, inputs: u32, outputs: u32) -> Result<Vec<bool>, AllocError>
    ensures { IfOk result (λ outs. outs.items ≡ sides inputs outputs) }
{
    let mut outs = vec![in alloc; false; inputs as usize]?;
    outs.resize(inputs as usize + outputs as usize, true)?;
    Ok(outs)
}

/// Symbols are numbered by first occurrence, so the next new symbol is the number of those met.
fn command_directions(alloc: Global, command: &Command) -> Result<Vec<bool>, AllocError>
    ensures { IfOk result (λ outs. outs.items ≡ map (gives_symbol (marks_of_all command.now.procs)) (range_with_len 0 (length command.now.names))) }
{
    let marks = all_marks(alloc, command)?;
    let mut outs = Vec::new(alloc);
    for mark in &marks {
        if mark.sym.0 as usize == outs.len() {
            outs.push(mark.dir == Dir::Output)?;
        }
    }
    Ok(outs)
}
