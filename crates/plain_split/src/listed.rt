//! The components and wires of a network of one wait in the order of their numbers.
ghost use Rattle.std.specs.Prelude.{◌≡◌, ◌<◌, ◌^◌, [], ◌∷◌, ◌++◌, map, filter, length, IfOk};
ghost use Rattle.std.specs.List.{range_with_len};
ghost use Rattle.plain_split.specs.SharedPaths.{joined};
ghost use Rattle.plain_split.specs.OneWait as web;
ghost use Rattle.plain_split.specs.OneWait.{inputs, is_kept, is_given};
ghost use Rattle.plain_split.specs.Mirror.OneWaitTables.{links_by, wire_of, name_of, number_by, IsSmall};

use crate::joined::LinkTables;
use crate::lines::Lines;
use crate::named::inputs;
use crate::paths::{Part, Wire, is_kept, last};
use std::alloc::{AllocError, Global};

/// The C of each burst.
fn joins(alloc: Global, tables: &LinkTables) -> Result<Vec<Part>, AllocError>
    requires { IsSmall (links_by tables.now) }
    ensures { IfOk result (λ it. map name_of it.items ≡ map web.Join (range_with_len 0 (links_by tables.now).bursts)) }
{
    let mut parts = Vec::new(alloc);
    for burst in 0..tables.bursts() as u32 {
        parts.push(Part::Join(burst))?;
    }
    Ok(parts)
}

/// Of each act its MERGE, its gate and its FORK.
fn act_parts(alloc: Global, tables: &LinkTables) -> Result<Vec<Part>, AllocError>
    requires { IsSmall (links_by tables.now) }
    ensures { IfOk result (λ it. map name_of it.items
        ≡ joined (λ n. web.Calls n ∷ web.Gate n ∷ web.Spread n ∷ []) (range_with_len 0 (links_by tables.now).acts)) }
{
    let mut parts = Vec::new(alloc);
    for act in 0..tables.acts() as u32 {
        parts.push(Part::Calls(act))?;
        parts.push(Part::Gate(act))?;
        parts.push(Part::Spread(act))?;
    }
    Ok(parts)
}

/// The MERGE of each symbol.
fn shows(alloc: Global, tables: &LinkTables) -> Result<Vec<Part>, AllocError>
    requires { IsSmall (links_by tables.now) }
    ensures { IfOk result (λ it. map name_of it.items ≡ map web.Shows (range_with_len 0 (links_by tables.now).names)) }
{
    let mut parts = Vec::new(alloc);
    for symbol in 0..tables.names() as u32 {
        parts.push(Part::Shows(symbol))?;
    }
    Ok(parts)
}

/// Those of the components that are not left out.
fn kept(alloc: Global, tables: &LinkTables, all: &[Part]) -> Result<Vec<Part>, AllocError>
    ensures { IfOk result (λ it. map name_of it.items ≡ filter (is_kept (links_by tables.now)) (map name_of all.now)) }
{
    let mut parts = Vec::new(alloc);
    for part in all {
        if is_kept(tables, *part) {
            parts.push(*part)?;
        }
    }
    Ok(parts)
}

/// The components, in the order of their numbers.
pub fn parts(alloc: Global, tables: &LinkTables) -> Result<Vec<Part>, AllocError>
    requires { IsSmall (links_by tables.now) }
    ensures { IfOk result (λ it. map name_of it.items ≡ web.parts (links_by tables.now)) }
{
    let mut all = joins(alloc, tables)?;
    let mut later = act_parts(alloc, tables)?;
    later.append(&mut shows(alloc, tables)?)?;
    all.append(&mut later)?;
    kept(alloc, tables, all.as_slice())
}

/// Whether some act gives the symbol.
fn is_given(tables: &LinkTables, symbol: u32) -> bool
    ensures { result ≡ is_given (links_by tables.now) symbol }
{
    match tables.givers(symbol) {
        [] => false,
        [_, ..] => true,
    }
}

/// The symbols that some act gives.
fn given(alloc: Global, tables: &LinkTables) -> Result<Vec<u32>, AllocError>
    requires { IsSmall (links_by tables.now) }
    ensures { IfOk result (λ it. it.items ≡ filter (is_given (links_by tables.now)) (range_with_len 0 (links_by tables.now).names)) }
{
    let mut symbols = Vec::new(alloc);
    for symbol in 0..tables.names() as u32 {
        if is_given(tables, symbol) {
            symbols.push(symbol)?;
        }
    }
    Ok(symbols)
}

/// The symbols that are given.
fn gives(alloc: Global, symbols: &[u32]) -> Result<Vec<Wire>, AllocError>
    ensures { IfOk result (λ it. map wire_of it.items ≡ map web.Give symbols.now) }
{
    let mut wires = Vec::new(alloc);
    for symbol in symbols {
        wires.push(Wire::Give(*symbol))?;
    }
    Ok(wires)
}

/// The wires at the inputs of components.
fn all_inputs(alloc: Global, tables: &LinkTables, parts: &[Part]) -> Result<Vec<Wire>, AllocError>
    ensures { IfOk result (λ it. map wire_of it.items ≡ joined (inputs (links_by tables.now)) (map name_of parts.now)) }
{
    let mut wires = Vec::new(alloc);
    for part in parts {
        let mut more = inputs(alloc, tables, *part)?;
        wires.append(&mut more)?;
    }
    Ok(wires)
}

/// The wires of the network, in the order of their numbers, where these are its components.
pub fn lines(alloc: Global, tables: &LinkTables, parts: &[Part]) -> Result<Vec<Wire>, AllocError>
    requires small { IsSmall (links_by tables.now) }
    requires parts { map name_of parts.now ≡ web.parts (links_by tables.now) }
    ensures { IfOk result (λ it. map wire_of it.items ≡ web.lines (links_by tables.now)) }
{
    let shown = given(alloc, tables)?;
    let mut wires = gives(alloc, shown.as_slice())?;
    let mut inner = all_inputs(alloc, tables, parts)?;
    wires.append(&mut inner)?;
    Ok(wires)
}

/// The numbers of wires.
pub fn ends(
    alloc: Global,
    tables: &LinkTables,
    lines: &Lines,
    wires: &[Wire],
) -> Result<Vec<u32>, AllocError>
    requires small { IsSmall (links_by tables.now) }
    requires few { length lines.now < 2 ^ 32 }
    ensures { IfOk result (λ it. it.items ≡ map (number_by (links_by tables.now) (map wire_of lines.now)) (map wire_of wires.now)) }
{
    let mut ends = Vec::new(alloc);
    for wire in wires {
        ends.push(lines.place(last(tables, *wire)))?;
    }
    Ok(ends)
}
