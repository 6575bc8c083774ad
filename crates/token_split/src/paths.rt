//! The wires and components of a network by a token by their names, and where a path of wires ends.
ghost use Rattle.std.specs.Prelude.{◌≡◌, ◌<◌, ◌^◌, ◌++◌, map, length};
ghost use Rattle.plain_split.specs.OneWait.{many, first, is_some};
ghost use Rattle.token_split.specs.TokenChart as web;
ghost use Rattle.token_split.specs.TokenChart.{is_kept, last};
ghost use Rattle.token_split.specs.Mirror.TokenTables.{links_by, wire_of, name_of};

use crate::links::LinkTables;
use place_graph::Cross;
use plain_split::many;

/// A wire by its name.
#[derive(Debug, Clone, Copy, PartialEq, Eq, Hash)]
pub enum Wire {
    /// A symbol that is taken.
    Take(u32),
    /// A burst.
    Burst(u32),
    /// The return to a wait.
    Return(u32),
    /// The row of a wait.
    Row(u32),
    /// A crossing of a wait and a burst, to an act.
    Cross(u32, u32, u32),
    /// The call of an act.
    Call(u32),
    /// What the gate of an act lets through.
    Begin(u32),
    /// An output of an act.
    Put(u32, u32),
    /// The exit of an act, to a wait.
    Exit(u32, u32),
    /// A symbol that is given.
    Give(u32),
}

/// A component by its name.
#[derive(Debug, Clone, Copy, PartialEq, Eq)]
pub enum Part {
    /// The C of a burst.
    Join(u32),
    /// A part of the crossings.
    Meet(u32),
    /// The MERGE of the crossings that call an act.
    Calls(u32),
    /// The gate of an act.
    Gate(u32),
    /// The FORK of an act.
    Spread(u32),
    /// The MERGE of the acts that lead to a wait.
    Returns(u32),
    /// The gate of a wait.
    Entry(u32),
    /// The MERGE of the acts that give a symbol.
    Shows(u32),
}

/// The first number, or 0.
fn first(numbers: &[u32]) -> u32
    ensures { result ≡ first numbers.now }
{
    match numbers {
        [] => 0,
        [number, ..] => *number,
    }
}

/// Whether there are two crossings or more.
fn many_crossings(crossings: &[Cross]) -> bool
    ensures { result ≡ many (map (λ c. c.burst) crossings.now) }
{
    match crossings {
        [] => false,
        [_] => false,
        [_, _, ..] => true,
    }
}

/// Whether an act has two outputs and exits or more.
fn many_ends(outs: &[u32], exits: &[u32]) -> bool
    ensures { result ≡ many (outs.now ++ exits.now) }
{
    match outs {
        [] => many(exits),
        [_] => some(exits),
        [_, _, ..] => true,
    }
}

/// Whether there is one or more.
pub fn some(numbers: &[u32]) -> bool
    ensures { result ≡ is_some numbers.now }
{
    match numbers {
        [] => false,
        [_, ..] => true,
    }
}

/// Whether the component is none of width 1, which is left out.
pub fn is_kept(tables: &LinkTables, part: Part) -> bool
    ensures { result ≡ is_kept (links_by tables.now) (name_of part) }
{
    match part {
        Part::Join(burst) => many(tables.symbols(burst)),
        Part::Meet(_) => true,
        Part::Calls(act) => many_crossings(tables.entries(act)),
        Part::Gate(act) => tables.begins(act),
        Part::Spread(act) => many_ends(tables.outs(act), tables.exits(act)),
        Part::Returns(wait) => many(tables.returns(wait)),
        Part::Entry(wait) => tables.opens(wait),
        Part::Shows(symbol) => many(tables.givers(symbol)),
    }
}

fn last_put(tables: &LinkTables, act: u32, symbol: u32) -> Wire
    ensures { wire_of result ≡ last (links_by tables.now) (web.Put act symbol) }
{
    if is_kept(tables, Part::Shows(symbol)) {
        Wire::Put(act, symbol)
    } else {
        Wire::Give(symbol)
    }
}

fn last_begin(tables: &LinkTables, act: u32) -> Wire
    ensures { wire_of result ≡ last (links_by tables.now) (web.Begin act) }
{
    if is_kept(tables, Part::Spread(act)) {
        Wire::Begin(act)
    } else {
        last_put(tables, act, first(tables.outs(act)))
    }
}

fn last_call(tables: &LinkTables, act: u32) -> Wire
    ensures { wire_of result ≡ last (links_by tables.now) (web.Call act) }
{
    if is_kept(tables, Part::Gate(act)) {
        Wire::Call(act)
    } else {
        last_begin(tables, act)
    }
}

fn last_cross(tables: &LinkTables, wait: u32, burst: u32, act: u32) -> Wire
    ensures { wire_of result ≡ last (links_by tables.now) (web.Cross wait burst act) }
{
    if is_kept(tables, Part::Calls(act)) {
        Wire::Cross(wait, burst, act)
    } else {
        last_call(tables, act)
    }
}

fn last_return(tables: &LinkTables, wait: u32) -> Wire
    ensures { wire_of result ≡ last (links_by tables.now) (web.Return wait) }
{
    if is_kept(tables, Part::Entry(wait)) {
        Wire::Return(wait)
    } else {
        Wire::Row(wait)
    }
}

fn last_exit(tables: &LinkTables, act: u32, wait: u32) -> Wire
    ensures { wire_of result ≡ last (links_by tables.now) (web.Exit act wait) }
{
    if is_kept(tables, Part::Returns(wait)) {
        Wire::Exit(act, wait)
    } else {
        last_return(tables, wait)
    }
}

fn last_take(tables: &LinkTables, symbol: u32) -> Wire
    requires { length tables.now.symbols < 2 ^ 32 }
    ensures { wire_of result ≡ last (links_by tables.now) (web.Take symbol) }
{
    let burst = tables.home(symbol);
    if is_kept(tables, Part::Join(burst)) {
        Wire::Take(symbol)
    } else {
        Wire::Burst(burst)
    }
}

/// The last wire of the path that a wire is on.
pub fn last(tables: &LinkTables, wire: Wire) -> Wire
    requires { length tables.now.symbols < 2 ^ 32 }
    ensures { wire_of result ≡ last (links_by tables.now) (wire_of wire) }
{
    match wire {
        Wire::Take(symbol) => last_take(tables, symbol),
        Wire::Burst(burst) => Wire::Burst(burst),
        Wire::Return(wait) => last_return(tables, wait),
        Wire::Row(wait) => Wire::Row(wait),
        Wire::Cross(wait, burst, act) => last_cross(tables, wait, burst, act),
        Wire::Call(act) => last_call(tables, act),
        Wire::Begin(act) => last_begin(tables, act),
        Wire::Put(act, symbol) => last_put(tables, act, symbol),
        Wire::Exit(act, wait) => last_exit(tables, act, wait),
        Wire::Give(symbol) => Wire::Give(symbol),
    }
}
