//! The wires and components of a network of one wait by their names, and where a path of wires ends.
ghost use Rattle.std.specs.Prelude.{◌≡◌, ◌<◌, ◌^◌, length};
ghost use Rattle.plain_split.specs.OneWait as web;
ghost use Rattle.plain_split.specs.OneWait.{many, first, is_direct, is_kept, last};
ghost use Rattle.plain_split.specs.Mirror.OneWaitTables.{links_by, wire_of, name_of};

use crate::joined::LinkTables;

/// A wire by its name.
#[derive(Debug, Clone, Copy, PartialEq, Eq, Hash)]
pub enum Wire {
    /// A symbol that is taken.
    Take(u32),
    /// A burst, to an act.
    Burst(u32, u32),
    /// The call of an act.
    Call(u32),
    /// What the gate of an act lets through.
    Begin(u32),
    /// An output of an act.
    Put(u32, u32),
    /// A symbol that is given.
    Give(u32),
}

/// A component by its name.
#[derive(Debug, Clone, Copy, PartialEq, Eq)]
pub enum Part {
    /// The C of a burst.
    Join(u32),
    /// The MERGE of the bursts that lead to an act.
    Calls(u32),
    /// The gate of an act.
    Gate(u32),
    /// The FORK of an act.
    Spread(u32),
    /// The MERGE of the acts that give a symbol.
    Shows(u32),
}

/// Whether there are two or more.
pub fn many(numbers: &[u32]) -> bool
    ensures { result ≡ many numbers.now }
{
    match numbers {
        [] => false,
        [_] => false,
        [_, _, ..] => true,
    }
}

/// The first number, or 0.
fn first(numbers: &[u32]) -> u32
    ensures { result ≡ first numbers.now }
{
    match numbers {
        [] => 0,
        [number, ..] => *number,
    }
}

/// Whether a WIRE stands for all components from a symbol to the one that these acts give.
fn is_direct(tables: &LinkTables, acts: &[u32]) -> bool
    ensures { result ≡ is_direct (links_by tables.now) acts.now }
{
    match acts {
        [] => false,
        [act] => {
            let entries = tables.entries(*act);
            !many(tables.outs(*act))
                && (!tables.begins(*act)
                    && (!many(entries) && !many(tables.symbols(first(entries)))))
        }
        [_, _, ..] => false,
    }
}

/// Whether the component is none of width 1, which is left out.
pub fn is_kept(tables: &LinkTables, part: Part) -> bool
    ensures { result ≡ is_kept (links_by tables.now) (name_of part) }
{
    match part {
        Part::Join(burst) => many(tables.symbols(burst)),
        Part::Calls(act) => many(tables.entries(act)),
        Part::Gate(act) => tables.begins(act),
        Part::Spread(act) => many(tables.outs(act)),
        Part::Shows(symbol) => {
            let acts = tables.givers(symbol);
            many(acts) || is_direct(tables, acts)
        }
    }
}

fn last_put(tables: &LinkTables, act: u32, symbol: u32) -> Wire
    ensures { wire_of result ≡ last (links_by tables.now) (web.Put act symbol) }
{
    if is_kept(tables, Part::Shows(symbol)) {
        Wire::Put(act, symbol)
    } else {
        Wire::Give(symbol)
    }
}

fn last_begin(tables: &LinkTables, act: u32) -> Wire
    ensures { wire_of result ≡ last (links_by tables.now) (web.Begin act) }
{
    if is_kept(tables, Part::Spread(act)) {
        Wire::Begin(act)
    } else {
        last_put(tables, act, first(tables.outs(act)))
    }
}

fn last_call(tables: &LinkTables, act: u32) -> Wire
    ensures { wire_of result ≡ last (links_by tables.now) (web.Call act) }
{
    if is_kept(tables, Part::Gate(act)) {
        Wire::Call(act)
    } else {
        last_begin(tables, act)
    }
}

fn last_burst(tables: &LinkTables, burst: u32, act: u32) -> Wire
    ensures { wire_of result ≡ last (links_by tables.now) (web.Burst burst act) }
{
    if is_kept(tables, Part::Calls(act)) {
        Wire::Burst(burst, act)
    } else {
        last_call(tables, act)
    }
}

fn last_take(tables: &LinkTables, symbol: u32) -> Wire
    requires { length tables.now.symbols < 2 ^ 32 }
    ensures { wire_of result ≡ last (links_by tables.now) (web.Take symbol) }
{
    let burst = tables.home(symbol);
    if is_kept(tables, Part::Join(burst)) {
        Wire::Take(symbol)
    } else {
        last_burst(tables, burst, first(tables.leads(burst)))
    }
}

/// The last wire of the path that a wire is on.
pub fn last(tables: &LinkTables, wire: Wire) -> Wire
    requires { length tables.now.symbols < 2 ^ 32 }
    ensures { wire_of result ≡ last (links_by tables.now) (wire_of wire) }
{
    match wire {
        Wire::Take(symbol) => last_take(tables, symbol),
        Wire::Burst(burst, act) => last_burst(tables, burst, act),
        Wire::Call(act) => last_call(tables, act),
        Wire::Begin(act) => last_begin(tables, act),
        Wire::Put(act, symbol) => last_put(tables, act, symbol),
        Wire::Give(symbol) => Wire::Give(symbol),
    }
}
