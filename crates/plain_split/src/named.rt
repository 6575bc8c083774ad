//! The ports of each component of a network of one wait, by names.
ghost use Rattle.std.specs.Prelude.{◌≡◌, ℕ, ◌<◌, ◌^◌, [], ◌∷◌, map, length, IfOk};
ghost use Rattle.net_core.specs.declared.spec.NodeSpec.{NodeSpec};
ghost use Rattle.net_core.specs.declared.spec.NodeSpec.TheVariants.{Kind as Basic};
ghost use Rattle.plain_split.specs.OneWait as web;
ghost use Rattle.plain_split.specs.OneWait.{inputs, outputs, ports, port, called, spec_at};
ghost use Rattle.plain_split.specs.Mirror.OneWaitTables.{links_by, wire_of, name_of, IsSmall};

use crate::joined::LinkTables;
use crate::paths::{Part, Wire};
use basic_kinds::Kind;
use std::alloc::{AllocError, Global};

/// The symbols that are taken.
fn takes(alloc: Global, symbols: &[u32]) -> Result<Vec<Wire>, AllocError>
    ensures { IfOk result (λ it. map wire_of it.items ≡ map web.Take symbols.now) }
{
    let mut wires = Vec::new(alloc);
    for symbol in symbols {
        wires.push(Wire::Take(*symbol))?;
    }
    Ok(wires)
}

/// The bursts that lead to an act.
fn bursts_to(alloc: Global, bursts: &[u32], act: u32) -> Result<Vec<Wire>, AllocError>
    ensures { IfOk result (λ it. map wire_of it.items ≡ map (λ b. web.Burst b act) bursts.now) }
{
    let mut wires = Vec::new(alloc);
    for burst in bursts {
        wires.push(Wire::Burst(*burst, act))?;
    }
    Ok(wires)
}

/// A burst to each of its acts.
fn bursts_from(alloc: Global, burst: u32, acts: &[u32]) -> Result<Vec<Wire>, AllocError>
    ensures { IfOk result (λ it. map wire_of it.items ≡ map (web.Burst burst) acts.now) }
{
    let mut wires = Vec::new(alloc);
    for act in acts {
        wires.push(Wire::Burst(burst, *act))?;
    }
    Ok(wires)
}

/// The outputs of an act.
fn puts_from(alloc: Global, act: u32, symbols: &[u32]) -> Result<Vec<Wire>, AllocError>
    ensures { IfOk result (λ it. map wire_of it.items ≡ map (web.Put act) symbols.now) }
{
    let mut wires = Vec::new(alloc);
    for symbol in symbols {
        wires.push(Wire::Put(act, *symbol))?;
    }
    Ok(wires)
}

/// A symbol from each act that gives it.
fn puts_to(alloc: Global, acts: &[u32], symbol: u32) -> Result<Vec<Wire>, AllocError>
    ensures { IfOk result (λ it. map wire_of it.items ≡ map (λ n. web.Put n symbol) acts.now) }
{
    let mut wires = Vec::new(alloc);
    for act in acts {
        wires.push(Wire::Put(*act, symbol))?;
    }
    Ok(wires)
}

fn single(alloc: Global, wire: Wire) -> Result<Vec<Wire>, AllocError>
    ensures { IfOk result (λ it. it.items ≡ wire ∷ []) }
{
    let wires = vec![in alloc; wire]?;
    Ok(wires)
}

/// The call of an act that some burst leads to.
fn called(alloc: Global, entries: &[u32], act: u32) -> Result<Vec<Wire>, AllocError>
    ensures { IfOk result (λ it. map wire_of it.items ≡ called entries.now act) }
{
    match entries {
        [] => Ok(Vec::new(alloc)),
        [_, ..] => single(alloc, Wire::Call(act)),
    }
}

/// The wires at the inputs of a component.
pub fn inputs(alloc: Global, tables: &LinkTables, part: Part) -> Result<Vec<Wire>, AllocError>
    ensures { IfOk result (λ it. map wire_of it.items ≡ inputs (links_by tables.now) (name_of part)) }
{
    match part {
        Part::Join(burst) => takes(alloc, tables.symbols(burst)),
        Part::Calls(act) => bursts_to(alloc, tables.entries(act), act),
        Part::Gate(act) => called(alloc, tables.entries(act), act),
        Part::Spread(act) => single(alloc, Wire::Begin(act)),
        Part::Shows(symbol) => puts_to(alloc, tables.givers(symbol), symbol),
    }
}

/// The wires at the outputs of a component.
fn outputs(alloc: Global, tables: &LinkTables, part: Part) -> Result<Vec<Wire>, AllocError>
    ensures { IfOk result (λ it. map wire_of it.items ≡ outputs (links_by tables.now) (name_of part)) }
{
    match part {
        Part::Join(burst) => bursts_from(alloc, burst, tables.leads(burst)),
        Part::Calls(act) => single(alloc, Wire::Call(act)),
        Part::Gate(act) => single(alloc, Wire::Begin(act)),
        Part::Spread(act) => puts_from(alloc, act, tables.outs(act)),
        Part::Shows(symbol) => single(alloc, Wire::Give(symbol)),
    }
}

/// The wires at the ports of a component.
pub fn ports(alloc: Global, tables: &LinkTables, part: Part) -> Result<Vec<Wire>, AllocError>
    ensures { IfOk result (λ it. map wire_of it.items ≡ ports (links_by tables.now) (name_of part)) }
{
    let mut wires = inputs(alloc, tables, part)?;
    wires.append(&mut outputs(alloc, tables, part)?)?;
    Ok(wires)
}

/// The wire at the port of the environment for a symbol.
fn port(tables: &LinkTables, symbol: u32) -> Wire
    ensures { wire_of result ≡ port (links_by tables.now) symbol }
{
    match tables.givers(symbol) {
        [] => Wire::Take(symbol),
        [_, ..] => Wire::Give(symbol),
    }
}

/// The wires at the ports of the environment.
pub fn outer_ports(alloc: Global, tables: &LinkTables) -> Result<Vec<Wire>, AllocError>
    requires { IsSmall (links_by tables.now) }
    ensures { IfOk result (λ it. map wire_of it.items ≡ ports (links_by tables.now) web.Env) }
{
    let mut wires = Vec::new(alloc);
    for symbol in 0..tables.names() as u32 {
        wires.push(port(tables, symbol))?;
    }
    Ok(wires)
}

/// The kind of a component.
pub fn kind(tables: &LinkTables, part: Part) -> Kind
    requires { IsSmall (links_by tables.now) }
    ensures { (s : NodeSpec) → Basic result ≡ spec_at s (links_by tables.now) (name_of part) }
{
    match part {
        Part::Join(burst) => Kind::C(tables.symbols(burst).len() as u32),
        Part::Calls(act) => Kind::Merge(tables.entries(act).len() as u32),
        Part::Gate(act) => match tables.entries(act) {
            [] => Kind::Source,
            [_, ..] => Kind::Iwire,
        },
        Part::Spread(act) => Kind::Fork(tables.outs(act).len() as u32),
        Part::Shows(symbol) => show_kind(tables.givers(symbol)),
    }
}

/// The kind of the component that gives a symbol of these acts.
fn show_kind(acts: &[u32]) -> Kind
    requires { length acts.now < 2 ^ 32 }
    ensures { result ≡ web.show_kind acts.now }
{
    match acts {
        [] => Kind::Wire,
        [_] => Kind::Wire,
        [_, _, ..] => Kind::Merge(acts.len() as u32),
    }
}
