//! The ports and the kind of each component of the network of a weave, by names.
ghost use Rattle.std.specs.Prelude.{◌≡◌, ◌<◌, false, not, [], ◌∷◌, ◌++◌, map, filter, length, IfOk};
ghost use Rattle.net_core.specs.declared.spec.NodeSpec.{NodeSpec as Spec};
ghost use Rattle.weave_split.specs.WeaveChart as web;
ghost use Rattle.weave_split.specs.WeaveChart.{copy_for, inner_port, inputs, outer_port, outputs, ports, spec_at};
ghost use Rattle.weave_split.specs.Mirror.TieTables.{ties_by, wire_of, name_of, spec_of, IsReady};

use crate::paths::{Part, Wire, copy_for};
use crate::tables::TieTables;
use basic_kinds::Kind;
use net_core::{NodeSpec, copy_spec};
use std::alloc::{AllocError, Global};

/// The copies of inputs for a process, where these are its symbols.
fn copies_to(
    alloc: Global,
    tables: &TieTables,
    process: u32,
    symbols: &[u32],
) -> Result<Vec<Wire>, AllocError>
    ensures { IfOk result (λ it. map wire_of it.items
        ≡ map (λ s. web.Copy s process) (filter (λ s. not ((ties_by tables.now).out s)) symbols.now)) }
{
    let mut wires = Vec::new(alloc);
    for symbol in symbols {
        if !tables.is_out(*symbol) {
            wires.push(Wire::Copy(*symbol, process))?;
        }
    }
    Ok(wires)
}

/// The outputs that a process makes, where these are its symbols.
fn makes(
    alloc: Global,
    tables: &TieTables,
    process: u32,
    symbols: &[u32],
) -> Result<Vec<Wire>, AllocError>
    ensures { IfOk result (λ it. map wire_of it.items
        ≡ map (λ s. web.Made s process) (filter (ties_by tables.now).out symbols.now)) }
{
    let mut wires = Vec::new(alloc);
    for symbol in symbols {
        if tables.is_out(*symbol) {
            wires.push(Wire::Made(*symbol, process))?;
        }
    }
    Ok(wires)
}

/// An output from the processes that make it.
fn made_by(alloc: Global, symbol: u32, processes: &[u32]) -> Result<Vec<Wire>, AllocError>
    ensures { IfOk result (λ it. map wire_of it.items ≡ map (λ p. web.Made symbol p) processes.now) }
{
    let mut wires = Vec::new(alloc);
    for process in processes {
        wires.push(Wire::Made(symbol, *process))?;
    }
    Ok(wires)
}

/// The inputs that come to a grant.
fn backs(alloc: Global, process: u32, symbols: &[u32]) -> Result<Vec<Wire>, AllocError>
    ensures { IfOk result (λ it. map wire_of it.items ≡ map (λ s. web.Back s process) symbols.now) }
{
    let mut wires = Vec::new(alloc);
    for symbol in symbols {
        wires.push(Wire::Back(*symbol, process))?;
    }
    Ok(wires)
}

/// The copies of an input for processes.
fn copies_of(
    alloc: Global,
    tables: &TieTables,
    symbol: u32,
    processes: &[u32],
) -> Result<Vec<Wire>, AllocError>
    ensures { IfOk result (λ it. map wire_of it.items ≡ map (copy_for (ties_by tables.now) symbol) processes.now) }
{
    let mut wires = Vec::new(alloc);
    for process in processes {
        wires.push(copy_for(tables, symbol, *process))?;
    }
    Ok(wires)
}

/// The outputs that a grant is asked for.
fn asks(alloc: Global, symbols: &[u32]) -> Result<Vec<Wire>, AllocError>
    ensures { IfOk result (λ it. map wire_of it.items ≡ map web.Ask symbols.now) }
{
    let mut wires = Vec::new(alloc);
    for symbol in symbols {
        wires.push(Wire::Ask(*symbol))?;
    }
    Ok(wires)
}

/// The outputs that a grant gives.
fn gives(alloc: Global, symbols: &[u32]) -> Result<Vec<Wire>, AllocError>
    ensures { IfOk result (λ it. map wire_of it.items ≡ map web.Give symbols.now) }
{
    let mut wires = Vec::new(alloc);
    for symbol in symbols {
        wires.push(Wire::Give(*symbol))?;
    }
    Ok(wires)
}

fn single(alloc: Global, wire: Wire) -> Result<Vec<Wire>, AllocError>
    ensures { IfOk result (λ it. it.items ≡ wire ∷ []) }
{
    let wires = vec![in alloc; wire]?;
    Ok(wires)
}

/// The requests of a grant, and its token.
fn asked(alloc: Global, tables: &TieTables, process: u32) -> Result<Vec<Wire>, AllocError>
    ensures { IfOk result (λ it. map wire_of it.items ≡ map web.Ask ((ties_by tables.now).requests process) ++ web.Token process ∷ []) }
{
    let mut wires = asks(alloc, tables.requests(process))?;
    wires.append(&mut single(alloc, Wire::Token(process))?)?;
    Ok(wires)
}

/// The wires at the inputs of a component.
pub fn inputs(alloc: Global, tables: &TieTables, part: Part) -> Result<Vec<Wire>, AllocError>
    ensures { IfOk result (λ it. map wire_of it.items ≡ inputs (ties_by tables.now) (name_of part)) }
{
    match part {
        Part::Process(process) => copies_to(alloc, tables, process, tables.symbols(process)),
        Part::Spread(symbol) => single(alloc, Wire::Take(symbol)),
        Part::Join(symbol) => made_by(alloc, symbol, tables.givers(symbol)),
        Part::Returns(process) => backs(alloc, process, tables.returns(process)),
        Part::Gate(process) => single(alloc, Wire::Return(process)),
        Part::Sequencer(process) => asked(alloc, tables, process),
    }
}

/// The wires at the outputs of a component.
fn outputs(alloc: Global, tables: &TieTables, part: Part) -> Result<Vec<Wire>, AllocError>
    ensures { IfOk result (λ it. map wire_of it.items ≡ outputs (ties_by tables.now) (name_of part)) }
{
    match part {
        Part::Process(process) => makes(alloc, tables, process, tables.symbols(process)),
        Part::Spread(symbol) => copies_of(alloc, tables, symbol, tables.takers(symbol)),
        Part::Join(symbol) => single(alloc, Wire::Ask(symbol)),
        Part::Returns(process) => single(alloc, Wire::Return(process)),
        Part::Gate(process) => single(alloc, Wire::Token(process)),
        Part::Sequencer(process) => gives(alloc, tables.requests(process)),
    }
}

/// The wire of a symbol at a process.
fn inner_port(tables: &TieTables, process: u32, symbol: u32) -> Wire
    ensures { wire_of result ≡ inner_port (ties_by tables.now) process symbol }
{
    if tables.is_out(symbol) {
        Wire::Made(symbol, process)
    } else {
        Wire::Copy(symbol, process)
    }
}

/// The wires at the ports of a process, where these are its symbols.
fn inner_ports(
    alloc: Global,
    tables: &TieTables,
    process: u32,
    symbols: &[u32],
) -> Result<Vec<Wire>, AllocError>
    ensures { IfOk result (λ it. map wire_of it.items ≡ map (inner_port (ties_by tables.now) process) symbols.now) }
{
    let mut wires = Vec::new(alloc);
    for symbol in symbols {
        wires.push(inner_port(tables, process, *symbol))?;
    }
    Ok(wires)
}

/// The wires at the inputs of a component, and then those at its outputs.
fn both_sides(alloc: Global, tables: &TieTables, part: Part) -> Result<Vec<Wire>, AllocError>
    ensures { IfOk result (λ it. map wire_of it.items
        ≡ inputs (ties_by tables.now) (name_of part) ++ outputs (ties_by tables.now) (name_of part)) }
{
    let mut wires = inputs(alloc, tables, part)?;
    wires.append(&mut outputs(alloc, tables, part)?)?;
    Ok(wires)
}

/// The wires at the ports of a component.
pub fn ports(alloc: Global, tables: &TieTables, part: Part) -> Result<Vec<Wire>, AllocError>
    ensures { IfOk result (λ it. map wire_of it.items ≡ ports (ties_by tables.now) (name_of part)) }
{
    match part {
        Part::Process(process) => inner_ports(alloc, tables, process, tables.symbols(process)),
        Part::Spread(_) | Part::Join(_) | Part::Returns(_) | Part::Gate(_) | Part::Sequencer(_) => {
            both_sides(alloc, tables, part)
        }
    }
}

/// The wire of a symbol at the environment.
fn outer_port(tables: &TieTables, symbol: u32) -> Wire
    ensures { wire_of result ≡ outer_port (ties_by tables.now) symbol }
{
    if tables.is_out(symbol) {
        Wire::Give(symbol)
    } else {
        Wire::Take(symbol)
    }
}

/// The wires at the ports of the environment.
pub fn outer_ports(alloc: Global, tables: &TieTables) -> Result<Vec<Wire>, AllocError>
    requires { IsReady tables.now }
    ensures { IfOk result (λ it. map wire_of it.items ≡ ports (ties_by tables.now) web.Env) }
{
    let mut wires = Vec::new(alloc);
    for symbol in 0..tables.names() as u32 {
        wires.push(outer_port(tables, symbol))?;
    }
    Ok(wires)
}

/// The specification of a process among those of all.
fn spec_among(alloc: Global, specs: &[NodeSpec], process: u32) -> Result<NodeSpec, AllocError>
    ensures { IfOk result (λ it. it ≡ spec_of specs.now process) }
{
    match specs.get(process as usize) {
        Some(spec) => copy_spec(alloc, spec),
        None => Ok(NodeSpec::Kind(Kind::Wire)),
    }
}

/// The specification of a component, where these are those of the processes.
pub fn spec(
    alloc: Global,
    tables: &TieTables,
    specs: &[NodeSpec],
    part: Part,
) -> Result<NodeSpec, AllocError>
    requires { IsReady tables.now }
    ensures { IfOk result (λ it. (s : Spec) → it ≡ spec_at s (spec_of specs.now) (ties_by tables.now) (name_of part)) }
{
    let kind = match part {
        Part::Process(process) => return spec_among(alloc, specs, process),
        Part::Spread(symbol) => Kind::Fork(tables.takers(symbol).len() as u32),
        Part::Join(symbol) => Kind::C(tables.givers(symbol).len() as u32),
        Part::Returns(process) => Kind::Merge(tables.returns(process).len() as u32),
        Part::Gate(_) => Kind::Iwire,
        Part::Sequencer(process) => Kind::Seq(tables.requests(process).len() as u32),
    };
    Ok(NodeSpec::Kind(kind))
}
