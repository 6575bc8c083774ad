//! The network of a process by a token.
ghost use Rattle.std.specs.Prelude.{◌≡◌, ◌<◌, ◌^◌, List, ◌∷◌, map, length, IfOk};
ghost use Rattle.cmd_tree.specs.declared.tree.Proc.{Proc};
ghost use Rattle.place_graph.specs.Graph.{graph_of};
ghost use Rattle.net_core.specs.declared.spec.NodeSpec.TheVariants.{Cmd};
ghost use Rattle.net_laws.specs.Charts.{charted};
ghost use Rattle.net_laws.specs.Implementing.{Implements};
ghost use Rattle.plain_split.specs.PlainNet.{HasCounted};
ghost use Rattle.token_split.specs.declared.paths.Wire.{Wire as WireName};
ghost use Rattle.token_split.specs.TokenChart as web;
ghost use Rattle.token_split.specs.TokenChart.{token_chart};
ghost use Rattle.token_split.specs.TokenNet.{HasToken, IsTokenNet, token_circuit};
ghost use Rattle.token_split.specs.Mirror.TokenTables.{links_by, wire_of, node_by, part_by, IsReady};
ghost use Rattle.token_split.specs.Mirror.WirePlaces.{ArePlaces};

use crate::links::LinkTables;
use crate::listed::{components, lines};
use crate::named::{kind, outer_ports, ports};
use crate::numbered::WirePlaces;
use crate::paths::Part;
use cmd_tree::{Command, copy_command};
use net_core::{Net, Node, NodeSpec};
use place_graph::WaitGraph;
use std::alloc::{AllocError, Global};

fn node(
    alloc: Global,
    tables: &LinkTables,
    places: &WirePlaces,
    part: Part,
) -> Result<Node, AllocError>
    requires { IsReady tables.now }
    ensures { (lines : List WireName) → ArePlaces places.now lines → IfOk result (λ it. it ≡ part_by (links_by tables.now) (map wire_of lines) part) }
{
    let wires = ports(alloc, tables, part)?;
    let ends = places.ends(alloc, tables, wires.as_slice())?;
    let kind = kind(alloc, tables, part)?;
    Ok(Node {
        spec: NodeSpec::Kind(kind),
        wires: ends,
    })
}

fn inner_nodes(
    alloc: Global,
    tables: &LinkTables,
    places: &WirePlaces,
    parts: &[Part],
) -> Result<Vec<Node>, AllocError>
    requires { IsReady tables.now }
    ensures { (lines : List WireName) → ArePlaces places.now lines → IfOk result (λ it. it.items ≡ map (part_by (links_by tables.now) (map wire_of lines)) parts.now) }
{
    let mut nodes = Vec::new(alloc);
    for part in parts {
        let next = node(alloc, tables, places, *part)?;
        nodes.push(next)?;
    }
    Ok(nodes)
}

/// The environment and the components.
fn nodes(
    alloc: Global,
    tables: &LinkTables,
    places: &WirePlaces,
    parts: &[Part],
    spec: Command,
) -> Result<Vec<Node>, AllocError>
    requires { IsReady tables.now }
    ensures { (lines : List WireName) → ArePlaces places.now lines → IfOk result (λ it. it.items
        ≡ node_by (Cmd spec) (links_by tables.now) (map wire_of lines) web.Env
        ∷ map (part_by (links_by tables.now) (map wire_of lines)) parts.now) }
{
    let wires = outer_ports(alloc, tables)?;
    let ends = places.ends(alloc, tables, wires.as_slice())?;
    let mut nodes = inner_nodes(alloc, tables, places, parts)?;
    let outside = Node {
        spec: NodeSpec::Cmd(spec),
        wires: ends,
    };
    nodes.insert(0, outside)?;
    Ok(nodes)
}

/// The network that these tables say.
fn net_of(alloc: Global, tables: &LinkTables, spec: Command) -> Result<Net, AllocError>
    requires ready { IsReady tables.now }
    requires few { length (web.lines (links_by tables.now)) < 2 ^ 20 }
    requires right { Implements (charted (token_chart (Cmd spec) (links_by tables.now))) (Cmd spec) }
    ensures { IfOk result (λ net. net ≡ charted (token_chart (Cmd spec) (links_by tables.now))) }
{
    let parts = components(alloc, tables)?;
    let lines = lines(alloc, tables, parts.as_slice())?;
    let places = WirePlaces::new(alloc, lines.as_slice())?;
    let nodes = nodes(alloc, tables, &places, parts.as_slice(), spec)?;
    Net::of_nodes(alloc, nodes, lines.len() as u32)
}

/// The network of a command of one process by a token, whose graph this is.
fn by_token(alloc: Global, spec: Command, graph: &WaitGraph) -> Result<Net, AllocError>
    requires { (p : Proc) × HasToken spec p × (graph.now ≡ graph_of p) }
    ensures { (p : Proc) → HasToken spec p → IfOk result (λ net. net ≡ token_circuit spec p) }
{
    let tables = LinkTables::new(alloc, graph, spec.names.len() as u32)?;
    net_of(alloc, &tables, spec)
}

/// The network of an admitted command of one process that needs a token, whose graph this is. It consists of
/// basic components, is correct for the command and clean, has fewer than 2^20 wires, and of each kind as
/// many as are counted of the graph.
pub fn token_net(alloc: Global, spec: &Command, graph: &WaitGraph) -> Result<Net, AllocError>
    requires { (p : Proc) × HasToken spec.now p × (graph.now ≡ graph_of p) }
    ensures net { (p : Proc) → HasToken spec.now p → IfOk result (IsTokenNet spec.now p) }
    ensures right { IfOk result (λ net. Implements net (Cmd spec.now)) }
    ensures few { IfOk result (λ net. net.wires < 2 ^ 20) }
    ensures kinds { (p : Proc) → HasToken spec.now p → IfOk result (HasCounted spec.now p) }
{
    let copy = copy_command(alloc, spec)?;
    by_token(alloc, copy, graph)
}
