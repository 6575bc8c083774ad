//! The ports and the kind of each component of a network by a token, by names.
ghost use Rattle.std.specs.Prelude.{◌≡◌, ◌<◌, ◌≤◌, true, [], ◌∷◌, ◌++◌, map, length, IfOk, if◌then◌else◌};
ghost use Rattle.net_core.specs.declared.spec.NodeSpec.{NodeSpec};
ghost use Rattle.net_core.specs.declared.spec.NodeSpec.TheVariants.{Kind as Basic};
ghost use Rattle.basic_kinds.specs.declared.kind.Kind.TheVariants as kind;
ghost use Rattle.token_split.specs.PartKind.{dw_of, is_shape, part_kind};
ghost use Rattle.token_split.specs.TokenChart as web;
ghost use Rattle.token_split.specs.TokenChart.{cross_wire, inputs, one_wire, outputs, ports, port, spec_at};
ghost use Rattle.token_split.specs.Mirror.TokenTables.{links_by, wire_of, name_of, IsReady};

use crate::links::LinkTables;
use crate::paths::{Part, Wire};
use basic_kinds::{Kind, Shape};
use place_graph::Cross;
use sqlite_items::Items;
use std::alloc::{AllocError, Global};

/// The symbols that are taken.
fn takes(alloc: Global, symbols: &[u32]) -> Result<Vec<Wire>, AllocError>
    ensures { IfOk result (λ it. map wire_of it.items ≡ map web.Take symbols.now) }
{
    let mut wires = Vec::new(alloc);
    for symbol in symbols {
        wires.push(Wire::Take(*symbol))?;
    }
    Ok(wires)
}

/// The rows of waits, and then the bursts.
fn lines_of(alloc: Global, waits: &[u32], bursts: &[u32]) -> Result<Vec<Wire>, AllocError>
    ensures { IfOk result (λ it. map wire_of it.items ≡ map web.Row waits.now ++ map web.Burst bursts.now) }
{
    let mut wires = rows(alloc, waits)?;
    wires.append(&mut bursts_of(alloc, bursts)?)?;
    Ok(wires)
}

fn rows(alloc: Global, waits: &[u32]) -> Result<Vec<Wire>, AllocError>
    ensures { IfOk result (λ it. map wire_of it.items ≡ map web.Row waits.now) }
{
    let mut wires = Vec::new(alloc);
    for wait in waits {
        wires.push(Wire::Row(*wait))?;
    }
    Ok(wires)
}

fn bursts_of(alloc: Global, bursts: &[u32]) -> Result<Vec<Wire>, AllocError>
    ensures { IfOk result (λ it. map wire_of it.items ≡ map web.Burst bursts.now) }
{
    let mut wires = Vec::new(alloc);
    for burst in bursts {
        wires.push(Wire::Burst(*burst))?;
    }
    Ok(wires)
}

/// The crossings.
fn crossings(alloc: Global, crosses: &[Cross]) -> Result<Vec<Wire>, AllocError>
    ensures { IfOk result (λ it. map wire_of it.items ≡ map cross_wire crosses.now) }
{
    let mut wires = Vec::new(alloc);
    for cross in crosses {
        wires.push(Wire::Cross(cross.wait, cross.burst, cross.act))?;
    }
    Ok(wires)
}

/// A symbol from each act that gives it.
fn puts_to(alloc: Global, acts: &[u32], symbol: u32) -> Result<Vec<Wire>, AllocError>
    ensures { IfOk result (λ it. map wire_of it.items ≡ map (λ n. web.Put n symbol) acts.now) }
{
    let mut wires = Vec::new(alloc);
    for act in acts {
        wires.push(Wire::Put(*act, symbol))?;
    }
    Ok(wires)
}

/// The exits of acts to a wait.
fn exits_to(alloc: Global, acts: &[u32], wait: u32) -> Result<Vec<Wire>, AllocError>
    ensures { IfOk result (λ it. map wire_of it.items ≡ map (λ n. web.Exit n wait) acts.now) }
{
    let mut wires = Vec::new(alloc);
    for act in acts {
        wires.push(Wire::Exit(*act, wait))?;
    }
    Ok(wires)
}

/// The outputs of an act.
fn puts_from(alloc: Global, act: u32, symbols: &[u32]) -> Result<Vec<Wire>, AllocError>
    ensures { IfOk result (λ it. map wire_of it.items ≡ map (web.Put act) symbols.now) }
{
    let mut wires = Vec::new(alloc);
    for symbol in symbols {
        wires.push(Wire::Put(act, *symbol))?;
    }
    Ok(wires)
}

/// The exits of an act.
fn exits_from(alloc: Global, act: u32, waits: &[u32]) -> Result<Vec<Wire>, AllocError>
    ensures { IfOk result (λ it. map wire_of it.items ≡ map (web.Exit act) waits.now) }
{
    let mut wires = Vec::new(alloc);
    for wait in waits {
        wires.push(Wire::Exit(act, *wait))?;
    }
    Ok(wires)
}

/// The outputs of an act, and then its exit.
fn ends_from(
    alloc: Global,
    act: u32,
    symbols: &[u32],
    waits: &[u32],
) -> Result<Vec<Wire>, AllocError>
    ensures { IfOk result (λ it. map wire_of it.items ≡ map (web.Put act) symbols.now ++ map (web.Exit act) waits.now) }
{
    let mut wires = puts_from(alloc, act, symbols)?;
    wires.append(&mut exits_from(alloc, act, waits)?)?;
    Ok(wires)
}

fn single(alloc: Global, wire: Wire) -> Result<Vec<Wire>, AllocError>
    ensures { IfOk result (λ it. it.items ≡ wire ∷ []) }
{
    let wires = vec![in alloc; wire]?;
    Ok(wires)
}

/// The call of an act that some crossing leads to.
fn called(alloc: Global, entries: &[Cross], act: u32) -> Result<Vec<Wire>, AllocError>
    ensures { IfOk result (λ it. map wire_of it.items ≡ one_wire entries.now (web.Call act)) }
{
    match entries {
        [] => Ok(Vec::new(alloc)),
        [_, ..] => single(alloc, Wire::Call(act)),
    }
}

/// The return to a wait that some act leads to.
fn returned(alloc: Global, returns: &[u32], wait: u32) -> Result<Vec<Wire>, AllocError>
    ensures { IfOk result (λ it. map wire_of it.items ≡ one_wire returns.now (web.Return wait)) }
{
    match returns {
        [] => Ok(Vec::new(alloc)),
        [_, ..] => single(alloc, Wire::Return(wait)),
    }
}

/// The wires at the inputs of a component.
pub fn inputs(alloc: Global, tables: &LinkTables, part: Part) -> Result<Vec<Wire>, AllocError>
    ensures { IfOk result (λ it. map wire_of it.items ≡ inputs (links_by tables.now) (name_of part)) }
{
    match part {
        Part::Join(burst) => takes(alloc, tables.symbols(burst)),
        Part::Meet(part) => lines_of(alloc, tables.rows(part), tables.columns(part)),
        Part::Calls(act) => crossings(alloc, tables.entries(act)),
        Part::Gate(act) => called(alloc, tables.entries(act), act),
        Part::Spread(act) => single(alloc, Wire::Begin(act)),
        Part::Returns(wait) => exits_to(alloc, tables.returns(wait), wait),
        Part::Entry(wait) => returned(alloc, tables.returns(wait), wait),
        Part::Shows(symbol) => puts_to(alloc, tables.givers(symbol), symbol),
    }
}

/// The wires at the outputs of a component.
fn outputs(alloc: Global, tables: &LinkTables, part: Part) -> Result<Vec<Wire>, AllocError>
    ensures { IfOk result (λ it. map wire_of it.items ≡ outputs (links_by tables.now) (name_of part)) }
{
    match part {
        Part::Join(burst) => single(alloc, Wire::Burst(burst)),
        Part::Meet(part) => crossings(alloc, tables.meets(part)),
        Part::Calls(act) => single(alloc, Wire::Call(act)),
        Part::Gate(act) => single(alloc, Wire::Begin(act)),
        Part::Spread(act) => ends_from(alloc, act, tables.outs(act), tables.exits(act)),
        Part::Returns(wait) => single(alloc, Wire::Return(wait)),
        Part::Entry(wait) => single(alloc, Wire::Row(wait)),
        Part::Shows(symbol) => single(alloc, Wire::Give(symbol)),
    }
}

/// The wires at the ports of a component.
pub fn ports(alloc: Global, tables: &LinkTables, part: Part) -> Result<Vec<Wire>, AllocError>
    ensures { IfOk result (λ it. map wire_of it.items ≡ ports (links_by tables.now) (name_of part)) }
{
    let mut wires = inputs(alloc, tables, part)?;
    wires.append(&mut outputs(alloc, tables, part)?)?;
    Ok(wires)
}

/// The wire at the port of the environment for a symbol.
fn port(tables: &LinkTables, symbol: u32) -> Wire
    ensures { wire_of result ≡ port (links_by tables.now) symbol }
{
    match tables.givers(symbol) {
        [] => Wire::Take(symbol),
        [_, ..] => Wire::Give(symbol),
    }
}

/// The wires at the ports of the environment.
pub fn outer_ports(alloc: Global, tables: &LinkTables) -> Result<Vec<Wire>, AllocError>
    requires { IsReady tables.now }
    ensures { IfOk result (λ it. map wire_of it.items ≡ ports (links_by tables.now) web.Env) }
{
    let mut wires = Vec::new(alloc);
    for symbol in 0..tables.names() as u32 {
        wires.push(port(tables, symbol))?;
    }
    Ok(wires)
}

/// The DW of a part of the crossings.
fn wait_kind(alloc: Global, rows: u32, cols: u32, cross: &[(u32, u32)]) -> Result<Kind, AllocError>
    requires { is_shape rows cols cross.now ≡ true }
    ensures { IfOk result (λ it. it ≡ dw_of rows cols cross.now) }
{
    let cross = Items::from_slice(alloc, cross)?;
    Ok(Kind::Dw(Shape { rows, cols, cross }))
}

/// What stands for a part of the crossings.
fn meet_kind(alloc: Global, rows: u32, cols: u32, cross: &[(u32, u32)]) -> Result<Kind, AllocError>
    requires { 2 ≤ length cross.now → is_shape rows cols cross.now ≡ true }
    ensures { IfOk result (λ it. it ≡ part_kind rows cols cross.now) }
{
    match cross {
        [] => Ok(Kind::Wire),
        [_] => Ok(Kind::C(2)),
        [_, _, ..] => wait_kind(alloc, rows, cols, cross),
    }
}

/// What stands where the process begins, by whether something leads there.
fn gate_kind(led: bool) -> Kind
    ensures { result ≡ (if led then kind.Iwire else kind.Source) }
{
    if led { Kind::Iwire } else { Kind::Source }
}

/// The kind of a component.
pub fn kind(alloc: Global, tables: &LinkTables, part: Part) -> Result<Kind, AllocError>
    requires { IsReady tables.now }
    ensures { IfOk result (λ it. (s : NodeSpec) → Basic it ≡ spec_at s (links_by tables.now) (name_of part)) }
{
    match part {
        Part::Join(burst) => Ok(Kind::C(tables.symbols(burst).len() as u32)),
        Part::Meet(part) => {
            let rows = tables.rows(part).len() as u32;
            let cols = tables.columns(part).len() as u32;
            meet_kind(alloc, rows, cols, tables.local(part))
        }
        Part::Calls(act) => Ok(Kind::Merge(tables.entries(act).len() as u32)),
        Part::Gate(act) => Ok(gate_kind(!tables.entries(act).is_empty())),
        Part::Spread(act) => Ok(Kind::Fork(
            (tables.outs(act).len() + tables.exits(act).len()) as u32,
        )),
        Part::Returns(wait) => Ok(Kind::Merge(tables.returns(wait).len() as u32)),
        Part::Entry(wait) => Ok(gate_kind(!tables.returns(wait).is_empty())),
        Part::Shows(symbol) => Ok(Kind::Merge(tables.givers(symbol).len() as u32)),
    }
}
