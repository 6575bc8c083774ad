//! The components and wires of a network by a token in the order of their numbers.
ghost use Rattle.std.specs.Prelude.{◌≡◌, ◌<◌, [], ◌∷◌, map, filter, IfOk};
ghost use Rattle.std.specs.List.{range_with_len};
ghost use Rattle.plain_split.specs.SharedPaths.{joined};
ghost use Rattle.token_split.specs.TokenChart as web;
ghost use Rattle.token_split.specs.TokenChart.{inputs, is_kept, is_given};
ghost use Rattle.token_split.specs.Mirror.TokenTables.{links_by, wire_of, name_of, IsReady};

use crate::links::LinkTables;
use crate::named::inputs;
use crate::paths::{Part, Wire, is_kept, some};
use std::alloc::{AllocError, Global};

/// The C of each burst.
fn joins(alloc: Global, tables: &LinkTables) -> Result<Vec<Part>, AllocError>
    requires { IsReady tables.now }
    ensures { IfOk result (λ it. map name_of it.items ≡ map web.Join (range_with_len 0 (links_by tables.now).bursts)) }
{
    let mut parts = Vec::new(alloc);
    for burst in 0..tables.bursts() as u32 {
        parts.push(Part::Join(burst))?;
    }
    Ok(parts)
}

/// The parts of the crossings.
fn meets(alloc: Global, tables: &LinkTables) -> Result<Vec<Part>, AllocError>
    requires { IsReady tables.now }
    ensures { IfOk result (λ it. map name_of it.items ≡ map web.Meet (links_by tables.now).parts) }
{
    let mut parts = Vec::new(alloc);
    for part in 0..tables.parts() as u32 {
        parts.push(Part::Meet(part))?;
    }
    Ok(parts)
}

/// Of each act its MERGE, its gate and its FORK.
fn act_parts(alloc: Global, tables: &LinkTables) -> Result<Vec<Part>, AllocError>
    requires { IsReady tables.now }
    ensures { IfOk result (λ it. map name_of it.items
        ≡ joined (λ n. web.Calls n ∷ web.Gate n ∷ web.Spread n ∷ []) (range_with_len 0 (links_by tables.now).acts)) }
{
    let mut parts = Vec::new(alloc);
    for act in 0..tables.acts() as u32 {
        parts.push(Part::Calls(act))?;
        parts.push(Part::Gate(act))?;
        parts.push(Part::Spread(act))?;
    }
    Ok(parts)
}

/// Of each wait its MERGE and its gate.
fn wait_parts(alloc: Global, tables: &LinkTables) -> Result<Vec<Part>, AllocError>
    requires { IsReady tables.now }
    ensures { IfOk result (λ it. map name_of it.items
        ≡ joined (λ w. web.Returns w ∷ web.Entry w ∷ []) (range_with_len 0 (links_by tables.now).waits)) }
{
    let mut parts = Vec::new(alloc);
    for wait in 0..tables.waits() as u32 {
        parts.push(Part::Returns(wait))?;
        parts.push(Part::Entry(wait))?;
    }
    Ok(parts)
}

/// The MERGE of each symbol.
fn shows(alloc: Global, tables: &LinkTables) -> Result<Vec<Part>, AllocError>
    requires { IsReady tables.now }
    ensures { IfOk result (λ it. map name_of it.items ≡ map web.Shows (range_with_len 0 (links_by tables.now).names)) }
{
    let mut parts = Vec::new(alloc);
    for symbol in 0..tables.names() as u32 {
        parts.push(Part::Shows(symbol))?;
    }
    Ok(parts)
}

/// Those of the components that are not left out.
fn kept(alloc: Global, tables: &LinkTables, all: &[Part]) -> Result<Vec<Part>, AllocError>
    ensures { IfOk result (λ it. map name_of it.items ≡ filter (is_kept (links_by tables.now)) (map name_of all.now)) }
{
    let mut parts = Vec::new(alloc);
    for part in all {
        if is_kept(tables, *part) {
            parts.push(*part)?;
        }
    }
    Ok(parts)
}

/// All components, those of width 1 too.
fn all_parts(alloc: Global, tables: &LinkTables) -> Result<Vec<Part>, AllocError>
    requires { IsReady tables.now }
    ensures { IfOk result (λ it. map name_of it.items ≡ web.all_names (links_by tables.now)) }
{
    let mut waits = wait_parts(alloc, tables)?;
    waits.append(&mut shows(alloc, tables)?)?;
    let mut acts = act_parts(alloc, tables)?;
    acts.append(&mut waits)?;
    let mut meets = meets(alloc, tables)?;
    meets.append(&mut acts)?;
    let mut all = joins(alloc, tables)?;
    all.append(&mut meets)?;
    Ok(all)
}

/// The components, in the order of their numbers.
pub fn components(alloc: Global, tables: &LinkTables) -> Result<Vec<Part>, AllocError>
    requires { IsReady tables.now }
    ensures { IfOk result (λ it. map name_of it.items ≡ web.components (links_by tables.now)) }
{
    let all = all_parts(alloc, tables)?;
    kept(alloc, tables, all.as_slice())
}

/// The symbols that are given, as wires.
fn gives(alloc: Global, tables: &LinkTables) -> Result<Vec<Wire>, AllocError>
    requires { IsReady tables.now }
    ensures { IfOk result (λ it. map wire_of it.items ≡ map web.Give (filter (is_given (links_by tables.now)) (range_with_len 0 (links_by tables.now).names))) }
{
    let mut wires = Vec::new(alloc);
    for symbol in 0..tables.names() as u32 {
        if some(tables.givers(symbol)) {
            wires.push(Wire::Give(symbol))?;
        }
    }
    Ok(wires)
}

/// The wires at the inputs of components.
fn all_inputs(alloc: Global, tables: &LinkTables, parts: &[Part]) -> Result<Vec<Wire>, AllocError>
    ensures { IfOk result (λ it. map wire_of it.items ≡ joined (inputs (links_by tables.now)) (map name_of parts.now)) }
{
    let mut wires = Vec::new(alloc);
    for part in parts {
        let mut more = inputs(alloc, tables, *part)?;
        wires.append(&mut more)?;
    }
    Ok(wires)
}

/// The wires of the network, in the order of their numbers, where these are its components.
pub fn lines(alloc: Global, tables: &LinkTables, parts: &[Part]) -> Result<Vec<Wire>, AllocError>
    requires ready { IsReady tables.now }
    requires parts { map name_of parts.now ≡ web.components (links_by tables.now) }
    ensures { IfOk result (λ it. map wire_of it.items ≡ web.lines (links_by tables.now)) }
{
    let mut wires = gives(alloc, tables)?;
    let mut inner = all_inputs(alloc, tables, parts)?;
    wires.append(&mut inner)?;
    Ok(wires)
}
