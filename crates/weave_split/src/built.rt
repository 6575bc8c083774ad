//! The network of a weave.
ghost use Rattle.std.specs.Prelude.{◌≡◌, ℕ, ◌<◌, ◌^◌, false, List, ◌∷◌, map, drop, length, IfOk};
ghost use Rattle.basic_kinds.specs.Sorts.{Sort};
ghost use Rattle.basic_kinds.specs.Sums.{wide_sum};
ghost use Rattle.di_grammar.specs.Admitted.{Admitted};
ghost use Rattle.place_graph.specs.Sums.{command_sum};
ghost use Rattle.cmd_tree.specs.declared.command.Command.{Command as Whole};
ghost use Rattle.cmd_alone.specs.Alone.{IsAlone};
ghost use Rattle.net_core.specs.declared.spec.NodeSpec.{NodeSpec as Spec};
ghost use Rattle.net_core.specs.declared.spec.NodeSpec.TheVariants.{Cmd};
ghost use Rattle.net_core.specs.Wiring.{IsNetwork, IsClosed};
ghost use Rattle.net_core.specs.Networks.{IsClean, Correct};
ghost use Rattle.net_core.specs.Renumbering.{sum_of_parts};
ghost use Rattle.net_laws.specs.Charts.{charted};
ghost use Rattle.weave_split.specs.declared.paths.Wire.{Wire as WireName};
ghost use Rattle.weave_split.specs.WeaveChart as web;
ghost use Rattle.weave_split.specs.WeaveChart.{grants_at, weave_chart};
ghost use Rattle.weave_split.specs.WeaveNet.{AreAlone, IsWeaveNet, ties_of, weave_circuit};
ghost use Rattle.weave_split.specs.WeaveParts.{AreParts, part_sum};
ghost use Rattle.weave_split.specs.Mirror.TieTables.{ties_by, wire_of, spec_of, node_by, part_by, IsReady};
ghost use Rattle.weave_split.specs.Mirror.WirePlaces.{ArePlaces};

use crate::listed::{components, lines};
use crate::named::{outer_ports, ports, spec};
use crate::numbered::WirePlaces;
use crate::paths::Part;
use crate::tables::TieTables;
use basic_kinds::Kind;
use cmd_alone::alone;
use cmd_tree::{Command, copy_command};
use net_core::{Net, Node, NodeSpec, directions};
use std::alloc::{AllocError, Global};

fn node(
    alloc: Global,
    tables: &TieTables,
    places: &WirePlaces,
    specs: &[NodeSpec],
    part: Part,
) -> Result<Node, AllocError>
    requires { IsReady tables.now }
    ensures { (lines : List WireName) → ArePlaces places.now lines → IfOk result (λ it. it ≡ part_by specs.now (ties_by tables.now) (map wire_of lines) part) }
{
    let wires = ports(alloc, tables, part)?;
    let ends = places.ends(alloc, tables, wires.as_slice())?;
    Ok(Node {
        spec: spec(alloc, tables, specs, part)?,
        wires: ends,
    })
}

fn inner_nodes(
    alloc: Global,
    tables: &TieTables,
    places: &WirePlaces,
    specs: &[NodeSpec],
    parts: &[Part],
) -> Result<Vec<Node>, AllocError>
    requires { IsReady tables.now }
    ensures { (lines : List WireName) → ArePlaces places.now lines → IfOk result (λ it. it.items ≡ map (part_by specs.now (ties_by tables.now) (map wire_of lines)) parts.now) }
{
    let mut nodes = Vec::new(alloc);
    for part in parts {
        let next = node(alloc, tables, places, specs, *part)?;
        nodes.push(next)?;
    }
    Ok(nodes)
}

/// The environment and the components.
fn nodes(
    alloc: Global,
    tables: &TieTables,
    places: &WirePlaces,
    specs: &[NodeSpec],
    parts: &[Part],
    whole: NodeSpec,
) -> Result<Vec<Node>, AllocError>
    requires { IsReady tables.now }
    ensures { (lines : List WireName) → ArePlaces places.now lines → IfOk result (λ it. it.items
        ≡ node_by whole specs.now (ties_by tables.now) (map wire_of lines) web.Env
        ∷ map (part_by specs.now (ties_by tables.now) (map wire_of lines)) parts.now) }
{
    let wires = outer_ports(alloc, tables)?;
    let ends = places.ends(alloc, tables, wires.as_slice())?;
    let mut nodes = inner_nodes(alloc, tables, places, specs, parts)?;
    let outside = Node {
        spec: whole,
        wires: ends,
    };
    nodes.insert(0, outside)?;
    Ok(nodes)
}

/// The network that these tables say, where `specs` has the specifications of the processes.
fn net_of(
    alloc: Global,
    tables: &TieTables,
    specs: &[NodeSpec],
    whole: NodeSpec,
) -> Result<Net, AllocError>
    requires ready { IsReady tables.now }
    requires few { length (web.lines (ties_by tables.now)) < 2 ^ 20 }
    requires wired { IsNetwork (charted (weave_chart whole (spec_of specs.now) (ties_by tables.now))) }
    requires closed { IsClosed (charted (weave_chart whole (spec_of specs.now) (ties_by tables.now))) }
    ensures { IfOk result (λ net. net ≡ charted (weave_chart whole (spec_of specs.now) (ties_by tables.now))) }
{
    let parts = components(alloc, tables)?;
    let lines = lines(alloc, tables, parts.as_slice())?;
    let places = WirePlaces::new(alloc, lines.as_slice())?;
    let nodes = nodes(alloc, tables, &places, specs, parts.as_slice(), whole)?;
    Net::of_nodes(alloc, nodes, lines.len() as u32)
}

/// A process as a command of its own; for a grant there is none, and a WIRE stands for it.
fn process_spec(
    alloc: Global,
    command: &Command,
    process: usize,
    grant: bool,
) -> Result<NodeSpec, AllocError>
    requires { process < length command.now.procs }
    ensures { grant ≡ false → IfOk result (λ it. (d : Whole) × IsAlone command.now process d × (it ≡ Cmd d)) }
{
    if grant {
        return Ok(NodeSpec::Kind(Kind::Wire));
    }
    let own = alone(alloc, command, process)?;
    Ok(NodeSpec::Cmd(own))
}

/// The processes of a command, each as a command of its own.
fn process_specs(
    alloc: Global,
    command: &Command,
    tables: &TieTables,
) -> Result<Vec<NodeSpec>, AllocError>
    requires { (p : ℕ) → (ties_by tables.now).grants p ≡ grants_at command.now.procs p }
    ensures { IfOk result (λ it. AreAlone command.now (spec_of it.items)) }
{
    let mut specs = Vec::new(alloc);
    for process in 0..command.procs.len() {
        let grant = tables.is_grant(process as u32);
        let spec = process_spec(alloc, command, process, grant)?;
        specs.push(spec)?;
    }
    Ok(specs)
}

/// The network of an admitted command that is a weave, where it is a network that has few wires.
fn woven_net(alloc: Global, command: &Command) -> Result<Net, AllocError>
    requires admitted { Admitted command.now.procs }
    requires few { length (web.lines (ties_of command.now)) < 2 ^ 20 }
    requires right { (alone : ℕ → Spec) → AreAlone command.now alone
        → IsNetwork (weave_circuit command.now alone) × IsClosed (weave_circuit command.now alone) }
    ensures { IfOk result (IsWeaveNet command.now) }
{
    let copy = copy_command(alloc, command)?;
    let whole = NodeSpec::Cmd(copy);
    let outs = directions(alloc, &whole)?;
    let tables = TieTables::new(alloc, command.procs.as_slice(), outs)?;
    let specs = process_specs(alloc, command, &tables)?;
    net_of(alloc, &tables, specs.as_slice(), whole)
}

/// The network of an admitted command: a node for each process that is no grant, with that process alone as its
/// specification, and basic components that lead the symbols to and from them. An input that several processes have
/// goes through a FORK to each, an output that several make is shown through a C, and an output that a grant gives asks
/// the SEQ of the grant first; what is taken by a grant comes to its SEQ through a MERGE, and an IWIRE where the grant
/// may give one at the start.
///
/// The network is correct for the command and clean, and has fewer than 2^20 wires. Of its components and of its
/// processes as many of each sort are counted as the sums of the command say. Time and memory are near linear in the
/// places of the command.
pub fn weave_net(alloc: Global, command: &Command) -> Result<Net, AllocError>
    requires { Admitted command.now.procs }
    ensures net { IfOk result (IsWeaveNet command.now) }
    ensures correct { IfOk result (λ net. Correct net (Cmd command.now)) }
    ensures clean { IfOk result IsClean }
    ensures few { IfOk result (λ net. net.wires < 2 ^ 20) }
    ensures parts { IfOk result (λ net. AreParts (drop 1 net.nodes)) }
    ensures sums { (s : Sort) → IfOk result (λ net. sum_of_parts (part_sum s) net
        ≡ command_sum wide_sum command.now.procs (length command.now.names) s) }
{
    woven_net(alloc, command)
}
