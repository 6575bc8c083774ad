//! The network of a process with one wait.
ghost use Rattle.std.specs.Prelude.{◌≡◌, ◌+◌, ◌<◌, ◌^◌, ◌∷◌, map, length, IfOk};
ghost use Rattle.cmd_tree.specs.declared.tree.Proc.{Proc};
ghost use Rattle.place_graph.specs.Graph.{graph_of};
ghost use Rattle.net_core.specs.declared.spec.NodeSpec.TheVariants.{Cmd};
ghost use Rattle.net_laws.proofs.Among.{Distinct};
ghost use Rattle.net_laws.specs.Charts.{charted};
ghost use Rattle.net_laws.specs.Implementing.{Implements};
ghost use Rattle.plain_split.specs.OneWait as web;
ghost use Rattle.plain_split.specs.OneWait.{one_chart};
ghost use Rattle.plain_split.specs.OneWaitCommands.{HasOneWait, one_wait_net};
ghost use Rattle.plain_split.specs.Mirror.OneWaitTables.{links_by, wire_of, node_by, part_by, IsSmall};

use crate::joined::LinkTables;
use crate::lines::Lines;
use crate::listed::{ends, lines, parts};
use crate::named::{kind, outer_ports, ports};
use crate::paths::Part;
use cmd_tree::Command;
use net_core::{Net, Node, NodeSpec};
use place_graph::WaitGraph;
use std::alloc::{AllocError, Global};

fn node(alloc: Global, tables: &LinkTables, lines: &Lines, part: Part) -> Result<Node, AllocError>
    requires small { IsSmall (links_by tables.now) }
    requires few { length lines.now < 2 ^ 32 }
    ensures { IfOk result (λ it. it ≡ part_by (links_by tables.now) (map wire_of lines.now) part) }
{
    let wires = ports(alloc, tables, part)?;
    let ends = ends(alloc, tables, lines, wires.as_slice())?;
    Ok(Node {
        spec: NodeSpec::Kind(kind(tables, part)),
        wires: ends,
    })
}

fn inner_nodes(
    alloc: Global,
    tables: &LinkTables,
    lines: &Lines,
    parts: &[Part],
) -> Result<Vec<Node>, AllocError>
    requires small { IsSmall (links_by tables.now) }
    requires few { length lines.now < 2 ^ 32 }
    ensures { IfOk result (λ it. it.items ≡ map (part_by (links_by tables.now) (map wire_of lines.now)) parts.now) }
{
    let mut nodes = Vec::new(alloc);
    for part in parts {
        let next = node(alloc, tables, lines, *part)?;
        nodes.push(next)?;
    }
    Ok(nodes)
}

/// The environment and the components.
fn nodes(
    alloc: Global,
    tables: &LinkTables,
    lines: &Lines,
    parts: &[Part],
    spec: Command,
) -> Result<Vec<Node>, AllocError>
    requires small { IsSmall (links_by tables.now) }
    requires few { length lines.now < 2 ^ 32 }
    ensures { IfOk result (λ it. it.items
        ≡ node_by (Cmd spec) (links_by tables.now) (map wire_of lines.now) web.Env
        ∷ map (part_by (links_by tables.now) (map wire_of lines.now)) parts.now) }
{
    let wires = outer_ports(alloc, tables)?;
    let ends = ends(alloc, tables, lines, wires.as_slice())?;
    let mut nodes = inner_nodes(alloc, tables, lines, parts)?;
    let outside = Node {
        spec: NodeSpec::Cmd(spec),
        wires: ends,
    };
    nodes.insert(0, outside)?;
    Ok(nodes)
}

/// The network that these tables say.
fn net_of(alloc: Global, tables: &LinkTables, spec: Command) -> Result<Net, AllocError>
    requires small { IsSmall (links_by tables.now) }
    requires few { length (web.lines (links_by tables.now)) < 2 ^ 20 }
    requires once { Distinct (web.lines (links_by tables.now)) }
    requires right { Implements (charted (one_chart (Cmd spec) (links_by tables.now))) (Cmd spec) }
    ensures { IfOk result (λ net. net ≡ charted (one_chart (Cmd spec) (links_by tables.now))) }
{
    let parts = parts(alloc, tables)?;
    let wires = lines(alloc, tables, parts.as_slice())?;
    let lines = Lines::of(alloc, wires.as_slice())?;
    let nodes = nodes(alloc, tables, &lines, parts.as_slice(), spec)?;
    Net::of_nodes(alloc, nodes, wires.len() as u32)
}

/// The network of a command of one process with one wait, whose graph this is.
pub fn one_wait(alloc: Global, spec: Command, graph: &WaitGraph) -> Result<Net, AllocError>
    requires { (p : Proc) × HasOneWait spec p × (graph.now ≡ graph_of p) }
    ensures { (p : Proc) → HasOneWait spec p → IfOk result (λ net. net ≡ one_wait_net spec p) }
{
    let tables = LinkTables::new(alloc, graph, spec.names.len() as u32)?;
    net_of(alloc, &tables, spec)
}
