//! A netlist, read in one pass.
ghost use Rattle.std.specs.Prelude.{◌≡◌, ◌⊎◌, ℕ, ◌+◌, ◌<◌, ◌≤◌, ◌^◌, List, [], ◌∷◌, ◌++◌, length, IfOk, IfErr, OnOk};
ghost use Rattle.std.specs.List.{AllByRecursion, range_with_len};
ghost use Rattle.cmd_tree.specs.declared.command.Command.{Command};
ghost use Rattle.cmd_tree.specs.declared.limits.TheConstants.{MAX_COMPONENTS, MAX_NETLIST_BYTES, MAX_NETLIST_WIRES};
ghost use Rattle.net_core.specs.declared.spec.NodeSpec.TheVariants.{Cmd};
ghost use Rattle.net_core.specs.Specs.{outs_of, IsFormed};
ghost use Rattle.net_text.specs.NetFault.{Version, Spec, Parts, IsPart, NetFault, IsNetlist, port_lines, behind_spec, with_wires};
ghost use Rattle.net_text.specs.Mirror.Stages.{text_of, Refuses, ArePartsRead, IsNetOf, IsNetFromSpec};

use crate::header::{read_ports, read_spec};
use crate::part::read_part;
use crate::pieces::first_line;
use crate::refusal::NetRefusal;
use cmd_tree::{Command, MAX_COMPONENTS};
use net_core::{Net, NetBuilder, Node, NodeSpec, closed, directions, network_law};
use std::alloc::{AllocError, Global};

/// Reads a netlist of at most 16,777,216 bytes. A refusal is of the first faulty line, or where all lines are right of
/// the least open wire, or of want of memory.
pub fn read_net(alloc: Global, bytes: &[u8]) -> Result<Net, NetRefusal>
    requires { length bytes.now ≤ MAX_NETLIST_BYTES }
    ensures ok { IfOk result (IsNetlist bytes.now) }
    ensures refused { IfErr result (λ r. (r ≡ NetRefusal.NoMemory) ⊎ NetFault bytes.now r) }
{
    let Some((line, rest)) = first_line(bytes) else {
        return Err(NetRefusal::Truncated { line: 1 });
    };
    if line != b"dinet 1".as_slice() {
        return Err(NetRefusal::BadLine { line: 1 });
    }
    let net = match read_from_spec(alloc, rest) {
        Ok(net) => net,
        Err(refusal) => return Err(refusal),
    };
    network_law(&net);
    Ok(net)
}

/// Reads on from the line of the command.
fn read_from_spec(alloc: Global, text: &[u8]) -> Result<Net, NetRefusal>
    requires { length text.now ≤ 2 ^ 24 }
    ensures ok { IfOk result (IsNetFromSpec text.now) }
    ensures refused { IfErr result (Refuses Spec 2 text.now) }
{
    let Some((line, rest)) = first_line(text) else {
        return Err(NetRefusal::Truncated { line: 2 });
    };
    match read_spec(alloc, line) {
        Ok(command) => read_from_ports(alloc, command, rest),
        Err(refusal) => Err(refusal),
    }
}

/// Reads on from the lines of the symbols.
fn read_from_ports(alloc: Global, command: Command, text: &[u8]) -> Result<Net, NetRefusal>
    requires { length text.now ≤ 2 ^ 24 }
    ensures ok { IfOk result (IsNetOf command (text_of (port_lines command)) text.now) }
    ensures refused { IfErr result (Refuses (behind_spec command (port_lines command)) 3 text.now) }
{
    let symbols = command.names.len() as u32;
    let spec = NodeSpec::Cmd(command);
    let outs = directions(alloc, &spec)?;
    let NodeSpec::Cmd(command) = &spec else {
        unreachable!();
    };
    let rest = match read_ports(alloc, command, outs.as_slice(), text) {
        Ok(rest) => rest,
        Err(refusal) => return Err(refusal),
    };
    read_from_parts(alloc, spec, symbols, rest)
}

/// Reads on from the lines of the components.
fn read_from_parts(
    alloc: Global,
    spec: NodeSpec,
    symbols: u32,
    text: &[u8],
) -> Result<Net, NetRefusal>
    requires short { length text.now ≤ 2 ^ 24 }
    requires formed { IsFormed spec }
    requires sized { length (outs_of spec) ≡ symbols }
    requires few { symbols ≤ 1024 }
    ensures ok { (c : Command) → spec ≡ Cmd c → symbols ≡ length c.names → IfOk result (IsNetOf c [] text.now) }
    ensures refused { (c : Command) → spec ≡ Cmd c → symbols ≡ length c.names
        → IfErr result (Refuses (Parts c []) (3 + symbols) text.now) }
{
    let mut builder = NetBuilder::new(alloc, spec)?;
    builder.wires(symbols)?;
    let builder = match read_parts(alloc, text, 3 + symbols, symbols, builder) {
        Ok(builder) => builder,
        Err(refusal) => return Err(refusal),
    };
    let ends = first_numbers(alloc, symbols)?;
    let net = builder.finish(ends)?;
    match closed(&net) {
        None => Ok(net),
        Some(open) => Err(NetRefusal::OpenPort { wire: open.wire }),
    }
}

fn first_numbers(alloc: Global, many: u32) -> Result<Vec<u32>, AllocError>
    ensures { IfOk result (λ all. all.items ≡ range_with_len 0 many) }
{
    let mut all = Vec::new(alloc);
    for number in 0..many {
        all.push(number)?;
    }
    Ok(all)
}

/// Adds the components up to the last line; `first` is the number of the first line, and so many wires are known.
fn read_parts(
    alloc: Global,
    text: &[u8],
    first: u32,
    known: u32,
    builder: NetBuilder,
) -> Result<NetBuilder, NetRefusal>
    requires none { builder.parts ≡ [] }
    requires known { known ≡ builder.wires }
    requires small { builder.wires ≤ MAX_NETLIST_WIRES }
    requires short { length text.now ≤ 2 ^ 24 }
    requires room { first ≤ 2 ^ 20 }
    ensures ok { IfOk result (ArePartsRead first text.now builder) }
    ensures refused { (c : Command) → IfErr result (Refuses (Parts c []) first text.now) }
{
    let mut builder = builder;
    let mut wires = known;
    let mut rest = text;
    let mut number = first;
    let mut count = 0usize;
    loop {
        let Some((line, more)) = first_line(rest) else {
            return Err(NetRefusal::Truncated { line: number });
        };
        if line == b"end".as_slice() {
            if !more.is_empty() {
                return Err(NetRefusal::BadLine { line: number + 1 });
            }
            return Ok(builder);
        }
        let Some(node) = read_part(alloc, line)? else {
            return Err(NetRefusal::BadLine { line: number });
        };
        if count >= MAX_COMPONENTS {
            return Err(NetRefusal::TooManyComponents { line: number });
        }
        wires = add_part(&mut builder, wires, node)?;
        rest = more;
        number += 1;
        count += 1;
    }
}

/// Adds a component, and the wires that it names first; so many are known, and so many then.
fn add_part(builder: &mut NetBuilder, known: u32, node: Node) -> Result<u32, AllocError>
    requires part { IsPart node }
    requires known { known ≡ builder.old.wires }
    requires small { builder.old.wires ≤ MAX_NETLIST_WIRES }
    requires few { length builder.old.parts ≤ MAX_COMPONENTS }
    ensures wires { IfOk result (λ now. now ≡ builder.new.wires) }
    ensures added { OnOk result (builder.new ≡ record builder.old { parts = builder.old.parts ++ node ∷ []; wires = with_wires builder.old.wires node.ends }) }
{
    let past = past_wires(known, node.wires.as_slice()) as u32;
    let Node { spec, wires } = node;
    builder.wires(past - known)?;
    builder.node(spec, wires)?;
    Ok(past)
}

fn past_wires(known: u32, ends: &[u32]) -> u64
    ensures { result ≡ with_wires known ends.now }
{
    let mut past = known as u64;
    for wire in ends {
        past = past.max(*wire as u64 + 1);
    }
    past
}
