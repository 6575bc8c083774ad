//! What is worked out of a network before it is driven.
ghost use Rattle.std.specs.Prelude.{◌≡◌, ℕ, ◌+◌, ◌*◌, ◌<◌, ◌≤◌, ◌^◌, List, ◌++◌, length, map, drop, slice_get, Some, IfOk, OnOk};
ghost use Rattle.std.specs.List.{range_with_len};
ghost use Rattle.cmd_tree.specs.declared.command.Command.{Command};
ghost use Rattle.cmd_tree.specs.declared.tree.Proc.{Proc};
ghost use Rattle.cmd_machine.specs.Mirror.Walkers.{row_at, users_from};
ghost use Rattle.net_core.specs.Specs.{IsFormed};
ghost use Rattle.net_core.specs.Networks.{IsSpecified};
ghost use Rattle.net_core.specs.declared.spec.NodeSpec.TheVariants.{Cmd};
ghost use Rattle.place_graph.specs.Points.{OneOf};
ghost use Rattle.replay.specs.Answers.{IsPlayable};
ghost use Rattle.net_drive.specs.Drawn.{possible, gives_of, outputs_in, fires_from};
ghost use Rattle.net_drive.specs.Mirror.Plans.{starts_from, HasGives, IsPlan};

use basic_kinds::ports;
use cmd_machine::users::{grow, row_of, users_by_symbol};
use cmd_tree::Sym;
use net_core::{Net, NodeSpec, directions};
use replay::Event;
use std::alloc::{AllocError, Global};

/// For each symbol the processes that have it, and for each process the numbers of its gives.
#[derive(Drop)]
pub struct Sharing {
    pub users: Vec<Vec<usize>>,
    pub gives: Vec<Vec<usize>>,
}

/// All events that a network could ever have, by their numbers: gives by symbol, a pass for each wire, fires by component
/// and output. The fires of component n begin at place n - 1 of `fires`, and end before place n.
#[derive(Drop)]
pub struct Plan {
    pub events: Vec<Event>,
    pub gives: usize,
    pub fires: Vec<usize>,
    pub sharing: Sharing,
}

impl Plan {
    /// The plan of a network.
    pub fn new(alloc: Global, net: &Net) -> Result<Plan, AllocError>
        requires { IsPlayable net.now }
        ensures plan { IfOk result (λ plan. (k : Command) → IsSpecified net.now (Cmd k) → IsPlan net.now k.procs plan) }
        ensures many { IfOk result (λ plan. length plan.events.items ≤ 2 * net.now.wires) }
        ensures few { IfOk result (λ plan. length plan.events.items < 2 ^ 33) }
    {
        let mut events = list_gives(alloc, net)?;
        let gives = events.len();
        push_passes(&mut events, net.wires)?;
        let fires = push_fires(alloc, &mut events, net)?;
        let sharing = sharing_of(alloc, net, &events)?;
        Ok(Plan {
            events,
            gives,
            fires,
            sharing,
        })
    }
}

fn list_gives(alloc: Global, net: &Net) -> Result<Vec<Event>, AllocError>
    requires { IsPlayable net.now }
    ensures { IfOk result (λ events. events.items ≡ gives_of net.now) }
{
    let outs = directions(alloc, &net.nodes[0].spec)?;
    let mut events = Vec::new(alloc);
    for symbol in 0..outs.len() {
        if !outs[symbol] {
            events.push(Event::Give(Sym(symbol as u32)))?;
        }
    }
    Ok(events)
}

fn push_passes(events: &mut Vec<Event>, wires: u32) -> Result<(), AllocError>
    ensures { OnOk result (events.new.items ≡ events.old.items ++ map Event.Pass (range_with_len 0 wires)) }
{
    for wire in 0..wires {
        events.push(Event::Pass(wire))?;
    }
    Ok(())
}

// Where the fires of each component begin, and where the last ones end.
fn push_fires(alloc: Global, events: &mut Vec<Event>, net: &Net) -> Result<Vec<usize>, AllocError>
    requires { IsPlayable net.now }
    ensures events { OnOk result (events.new.items ≡ events.old.items ++ fires_from 1 (drop 1 net.now.nodes)) }
    ensures starts { IfOk result (λ starts. starts.items ≡ starts_from (length events.old.items) (drop 1 net.now.nodes)) }
{
    let mut starts = Vec::new(alloc);
    for component in 1..net.nodes.len() {
        starts.push(events.len())?;
        push_outputs(events, component as u32, &net.nodes[component].spec)?;
    }
    starts.push(events.len())?;
    Ok(starts)
}

fn push_outputs(events: &mut Vec<Event>, component: u32, spec: &NodeSpec) -> Result<(), AllocError>
    requires { IsFormed spec.now }
    ensures { OnOk result (events.new.items
        ≡ events.old.items ++ map (Event.Fire component) (range_with_len 1 (outputs_in spec.now))) }
{
    let NodeSpec::Kind(kind) = spec else {
        return Ok(());
    };
    let (_, outputs) = ports(kind);
    for output in 0..outputs {
        events.push(Event::Fire(component, output + 1))?;
    }
    Ok(())
}

fn sharing_of(alloc: Global, net: &Net, events: &[Event]) -> Result<Sharing, AllocError>
    requires { IsPlayable net.now }
    ensures users { IfOk result (λ sharing. (k : Command) → IsSpecified net.now (Cmd k) → (a : ℕ)
        → row_at (map (λ row. row.items) sharing.users.items) a ≡ users_from 0 k.procs a) }
    ensures gives { IfOk result (λ sharing. (k : Command) → IsSpecified net.now (Cmd k)
        → HasGives k.procs events.now (map (λ row. row.items) sharing.gives.items)) }
{
    let NodeSpec::Cmd(command) = &net.nodes[0].spec else {
        unreachable!();
    };
    let users = users_by_symbol(alloc, command.procs.as_slice())?;
    let gives = gives_by_process(alloc, &users, events)?;
    Ok(Sharing { users, gives })
}

fn gives_by_process(
    alloc: Global,
    users: &[Vec<usize>],
    events: &[Event],
) -> Result<Vec<Vec<usize>>, AllocError>
    ensures { IfOk result (λ gives. (ps : List Proc)
        → ((a : ℕ) → row_at (map (λ row. row.items) users.now) a ≡ users_from 0 ps a)
        → HasGives ps events.now (map (λ row. row.items) gives.items)) }
{
    let mut gives = Vec::new(alloc);
    for (number, event) in events.iter().enumerate() {
        if let Event::Give(symbol) = event {
            push_to_rows(alloc, &mut gives, row_of(users, symbol.0 as usize), number)?;
        }
    }
    Ok(gives)
}

fn push_to_rows(
    alloc: Global,
    rows: &mut Vec<Vec<usize>>,
    indices: &[usize],
    number: usize,
) -> Result<(), AllocError>
    ensures pushed { OnOk result ((i : ℕ) → OneOf indices.now i → OneOf (row_at (map (λ row. row.items) rows.new.items) i) number) }
    ensures kept { OnOk result ((i n : ℕ) → OneOf (row_at (map (λ row. row.items) rows.old.items) i) n
        → OneOf (row_at (map (λ row. row.items) rows.new.items) i) n) }
{
    for index in indices {
        grow(alloc, rows, *index)?;
        rows[*index].push(number)?;
    }
    Ok(())
}
