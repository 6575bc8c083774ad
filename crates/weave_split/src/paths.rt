//! The wires and components of the network of a weave by their names, and where a path of wires ends.
ghost use Rattle.std.specs.Prelude.{◌≡◌};
ghost use Rattle.plain_split.specs.OneWait.{first};
ghost use Rattle.weave_split.specs.WeaveChart as web;
ghost use Rattle.weave_split.specs.WeaveChart.{copy_for, is_kept, last};
ghost use Rattle.weave_split.specs.Mirror.TieTables.{ties_by, wire_of, name_of};

use crate::tables::TieTables;
use plain_split::many;

/// A wire by its name: first the symbol, then the process.
#[derive(Debug, Clone, Copy, PartialEq, Eq, Hash)]
pub enum Wire {
    /// An input, from the environment.
    Take(u32),
    /// An input, to a process.
    Copy(u32, u32),
    /// An input, to a grant.
    Back(u32, u32),
    /// An output, from a process.
    Made(u32, u32),
    /// An output, as all processes have made it.
    Ask(u32),
    /// What comes to a grant.
    Return(u32),
    /// The token of a grant.
    Token(u32),
    /// An output, to the environment.
    Give(u32),
}

/// A component by its name.
#[derive(Debug, Clone, Copy, PartialEq, Eq)]
pub enum Part {
    /// A process that is no grant.
    Process(u32),
    /// The FORK of an input.
    Spread(u32),
    /// The C of an output.
    Join(u32),
    /// The MERGE of a grant.
    Returns(u32),
    /// The gate of a grant.
    Gate(u32),
    /// The SEQ of a grant.
    Sequencer(u32),
}

/// The first number, or 0.
fn first(numbers: &[u32]) -> u32
    ensures { result ≡ first numbers.now }
{
    match numbers {
        [] => 0,
        [number, ..] => *number,
    }
}

/// Whether the component is none of width 1, which is left out.
pub fn is_kept(tables: &TieTables, part: Part) -> bool
    ensures { result ≡ is_kept (ties_by tables.now) (name_of part) }
{
    match part {
        Part::Process(_) => true,
        Part::Spread(symbol) => many(tables.takers(symbol)),
        Part::Join(symbol) => many(tables.givers(symbol)),
        Part::Returns(process) => many(tables.returns(process)),
        Part::Gate(process) => tables.lends(process),
        Part::Sequencer(_) => true,
    }
}

/// The copy of an input for a process.
pub fn copy_for(tables: &TieTables, symbol: u32, process: u32) -> Wire
    ensures { wire_of result ≡ copy_for (ties_by tables.now) symbol process }
{
    if tables.is_grant(process) {
        Wire::Back(symbol, process)
    } else {
        Wire::Copy(symbol, process)
    }
}

fn last_return(tables: &TieTables, process: u32) -> Wire
    ensures { wire_of result ≡ last (ties_by tables.now) (web.Return process) }
{
    if is_kept(tables, Part::Gate(process)) {
        Wire::Return(process)
    } else {
        Wire::Token(process)
    }
}

fn last_back(tables: &TieTables, symbol: u32, process: u32) -> Wire
    ensures { wire_of result ≡ last (ties_by tables.now) (web.Back symbol process) }
{
    if is_kept(tables, Part::Returns(process)) {
        Wire::Back(symbol, process)
    } else {
        last_return(tables, process)
    }
}

fn last_copy(tables: &TieTables, symbol: u32, process: u32) -> Wire
    ensures { wire_of result ≡ last (ties_by tables.now) (copy_for (ties_by tables.now) symbol process) }
{
    if tables.is_grant(process) {
        last_back(tables, symbol, process)
    } else {
        Wire::Copy(symbol, process)
    }
}

fn last_take(tables: &TieTables, symbol: u32) -> Wire
    ensures { wire_of result ≡ last (ties_by tables.now) (web.Take symbol) }
{
    if is_kept(tables, Part::Spread(symbol)) {
        Wire::Take(symbol)
    } else {
        last_copy(tables, symbol, first(tables.takers(symbol)))
    }
}

fn last_ask(tables: &TieTables, symbol: u32) -> Wire
    ensures { wire_of result ≡ last (ties_by tables.now) (web.Ask symbol) }
{
    match tables.owner(symbol) {
        None => Wire::Give(symbol),
        Some(_) => Wire::Ask(symbol),
    }
}

fn last_made(tables: &TieTables, symbol: u32, process: u32) -> Wire
    ensures { wire_of result ≡ last (ties_by tables.now) (web.Made symbol process) }
{
    if is_kept(tables, Part::Join(symbol)) {
        Wire::Made(symbol, process)
    } else {
        last_ask(tables, symbol)
    }
}

/// The last wire of the path that a wire is on.
pub fn last(tables: &TieTables, wire: Wire) -> Wire
    ensures { wire_of result ≡ last (ties_by tables.now) (wire_of wire) }
{
    match wire {
        Wire::Take(symbol) => last_take(tables, symbol),
        Wire::Copy(symbol, process) => Wire::Copy(symbol, process),
        Wire::Back(symbol, process) => last_back(tables, symbol, process),
        Wire::Made(symbol, process) => last_made(tables, symbol, process),
        Wire::Ask(symbol) => last_ask(tables, symbol),
        Wire::Return(process) => last_return(tables, process),
        Wire::Token(process) => Wire::Token(process),
        Wire::Give(symbol) => Wire::Give(symbol),
    }
}
