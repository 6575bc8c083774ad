//! The components and wires of the network of a weave in the order of their numbers.
ghost use Rattle.std.specs.Prelude.{◌≡◌, ◌++◌, not, [], ◌∷◌, map, filter, IfOk};
ghost use Rattle.std.specs.List.{range_with_len};
ghost use Rattle.plain_split.specs.SharedPaths.{joined};
ghost use Rattle.weave_split.specs.WeaveChart as web;
ghost use Rattle.weave_split.specs.WeaveChart.{granting, inputs, is_kept, meeting, woven};
ghost use Rattle.weave_split.specs.Mirror.TieTables.{ties_by, wire_of, name_of, IsReady};

use crate::named::inputs;
use crate::paths::{Part, Wire, is_kept};
use crate::tables::TieTables;
use std::alloc::{AllocError, Global};

/// The processes that are no grants.
fn processes(alloc: Global, tables: &TieTables) -> Result<Vec<Part>, AllocError>
    requires { IsReady tables.now }
    ensures { IfOk result (λ it. map name_of it.items ≡ map web.Process (woven (ties_by tables.now))) }
{
    let mut parts = Vec::new(alloc);
    for process in 0..tables.processes() as u32 {
        if !tables.is_grant(process) {
            parts.push(Part::Process(process))?;
        }
    }
    Ok(parts)
}

/// The C of an output, or the FORK of an input.
fn meeting(tables: &TieTables, symbol: u32) -> Part
    ensures { name_of result ≡ meeting (ties_by tables.now) symbol }
{
    if tables.is_out(symbol) {
        Part::Join(symbol)
    } else {
        Part::Spread(symbol)
    }
}

/// The C or the FORK of each symbol.
fn meetings(alloc: Global, tables: &TieTables) -> Result<Vec<Part>, AllocError>
    requires { IsReady tables.now }
    ensures { IfOk result (λ it. map name_of it.items ≡ map (meeting (ties_by tables.now)) (range_with_len 0 (ties_by tables.now).names)) }
{
    let mut parts = Vec::new(alloc);
    for symbol in 0..tables.names() as u32 {
        parts.push(meeting(tables, symbol))?;
    }
    Ok(parts)
}

/// The places of the grants.
fn grants(alloc: Global, tables: &TieTables) -> Result<Vec<u32>, AllocError>
    requires { IsReady tables.now }
    ensures { IfOk result (λ it. it.items ≡ granting (ties_by tables.now)) }
{
    let mut grants = Vec::new(alloc);
    for process in 0..tables.processes() as u32 {
        if tables.is_grant(process) {
            grants.push(process)?;
        }
    }
    Ok(grants)
}

/// Of each of these grants its MERGE, its gate and its SEQ.
fn rings(alloc: Global, grants: &[u32]) -> Result<Vec<Part>, AllocError>
    ensures { IfOk result (λ it. map name_of it.items
        ≡ joined (λ p. web.Returns p ∷ web.Gate p ∷ web.Sequencer p ∷ []) grants.now) }
{
    let mut parts = Vec::new(alloc);
    for grant in grants {
        parts.push(Part::Returns(*grant))?;
        parts.push(Part::Gate(*grant))?;
        parts.push(Part::Sequencer(*grant))?;
    }
    Ok(parts)
}

/// Those of the components that are not left out.
fn kept(alloc: Global, tables: &TieTables, all: &[Part]) -> Result<Vec<Part>, AllocError>
    ensures { IfOk result (λ it. map name_of it.items ≡ filter (is_kept (ties_by tables.now)) (map name_of all.now)) }
{
    let mut parts = Vec::new(alloc);
    for part in all {
        if is_kept(tables, *part) {
            parts.push(*part)?;
        }
    }
    Ok(parts)
}

/// All components, those of width 1 too.
fn all_parts(alloc: Global, tables: &TieTables) -> Result<Vec<Part>, AllocError>
    requires { IsReady tables.now }
    ensures { IfOk result (λ it. map name_of it.items ≡ web.all_names (ties_by tables.now)) }
{
    let grants = grants(alloc, tables)?;
    let mut meetings = meetings(alloc, tables)?;
    meetings.append(&mut rings(alloc, grants.as_slice())?)?;
    let mut all = processes(alloc, tables)?;
    all.append(&mut meetings)?;
    Ok(all)
}

/// The components, in the order of their numbers.
pub fn components(alloc: Global, tables: &TieTables) -> Result<Vec<Part>, AllocError>
    requires { IsReady tables.now }
    ensures { IfOk result (λ it. map name_of it.items ≡ web.components (ties_by tables.now)) }
{
    let all = all_parts(alloc, tables)?;
    kept(alloc, tables, all.as_slice())
}

/// The outputs, as wires.
fn gives(alloc: Global, tables: &TieTables) -> Result<Vec<Wire>, AllocError>
    requires { IsReady tables.now }
    ensures { IfOk result (λ it. map wire_of it.items
        ≡ map web.Give (filter (ties_by tables.now).out (range_with_len 0 (ties_by tables.now).names))) }
{
    let mut wires = Vec::new(alloc);
    for symbol in 0..tables.names() as u32 {
        if tables.is_out(symbol) {
            wires.push(Wire::Give(symbol))?;
        }
    }
    Ok(wires)
}

/// The wires at the inputs of components.
fn all_inputs(alloc: Global, tables: &TieTables, parts: &[Part]) -> Result<Vec<Wire>, AllocError>
    ensures { IfOk result (λ it. map wire_of it.items ≡ joined (inputs (ties_by tables.now)) (map name_of parts.now)) }
{
    let mut wires = Vec::new(alloc);
    for part in parts {
        let mut more = inputs(alloc, tables, *part)?;
        wires.append(&mut more)?;
    }
    Ok(wires)
}

/// The wires of the network, in the order of their numbers, where these are its components.
pub fn lines(alloc: Global, tables: &TieTables, parts: &[Part]) -> Result<Vec<Wire>, AllocError>
    requires ready { IsReady tables.now }
    requires parts { map name_of parts.now ≡ web.components (ties_by tables.now) }
    ensures { IfOk result (λ it. map wire_of it.items ≡ web.lines (ties_by tables.now)) }
{
    let mut wires = gives(alloc, tables)?;
    let mut inner = all_inputs(alloc, tables, parts)?;
    wires.append(&mut inner)?;
    Ok(wires)
}
