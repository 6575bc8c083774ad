//! The network of a process in rounds.
ghost use Rattle.std.specs.Prelude.{◌≡◌, ℕ, ◌<◌, ◌^◌, ◌∷◌, map, length, IfOk};
ghost use Rattle.std.specs.List.{range_with_len};
ghost use Rattle.cmd_tree.specs.declared.tree.Proc.{Proc};
ghost use Rattle.place_graph.specs.Graph.{graph_of};
ghost use Rattle.net_laws.specs.Charts.{charted};
ghost use Rattle.net_laws.specs.Implementing.{Implements};
ghost use Rattle.plain_split.specs.RoundsNet as web;
ghost use Rattle.plain_split.specs.RoundsChart as chart;
ghost use Rattle.plain_split.specs.RoundsChart.{rounds_chart};
ghost use Rattle.plain_split.specs.RoundsCommands.{HasRounds, rounds_net};
ghost use Rattle.plain_split.specs.Mirror.RoundsTables.{parts_by, part_of, IsTabled, IsNumbered};

use crate::round_nodes::components;
use crate::round_numbers::RoundNumbers;
use crate::round_parts::RoundParts;
use cmd_tree::Command;
use net_core::{Net, Node};
use place_graph::WaitGraph;
use std::alloc::{AllocError, Global};

/// The wires of the symbols have the numbers of these.
fn outer_wires(alloc: Global, names: u32) -> Result<Vec<u32>, AllocError>
    ensures { IfOk result (λ it. it.items ≡ range_with_len 0 names) }
{
    let mut wires = Vec::new(alloc);
    for symbol in 0..names {
        wires.push(symbol)?;
    }
    Ok(wires)
}

/// The environment and the components.
fn nodes(alloc: Global, parts: RoundParts, numbers: &RoundNumbers) -> Result<Vec<Node>, AllocError>
    requires tabled { IsTabled parts }
    requires numbered { IsNumbered (parts_by parts) numbers.now }
    ensures { IfOk result (λ it. it.items ≡ part_of (parts_by parts) web.Env ∷ map (part_of (parts_by parts)) (chart.parts (parts_by parts))) }
{
    let wires = outer_wires(alloc, parts.sides.len() as u32)?;
    let mut nodes = components(alloc, &parts, numbers)?;
    let RoundParts { spec, .. } = parts;
    nodes.insert(0, Node { spec, wires })?;
    Ok(nodes)
}

/// The network of these parts.
fn net_of(alloc: Global, parts: RoundParts) -> Result<Net, AllocError>
    requires tabled { IsTabled parts }
    requires right { Implements (charted (rounds_chart (parts_by parts))) parts.spec }
    ensures { IfOk result (λ net. net ≡ charted (rounds_chart (parts_by parts))) }
{
    let numbers = RoundNumbers::new(alloc, &parts)?;
    let nodes = nodes(alloc, parts, &numbers)?;
    Net::of_nodes(alloc, nodes, numbers.wires)
}

/// The network of a command of one process in rounds, whose graph this is.
pub fn rounds(alloc: Global, spec: Command, graph: &WaitGraph) -> Result<Net, AllocError>
    requires { (p : Proc) × (e : ℕ) × HasRounds spec p e × (graph.now ≡ graph_of p) }
    ensures { (p : Proc) (e : ℕ) → HasRounds spec p e → IfOk result (λ net. net ≡ rounds_net spec p e) }
{
    let parts = RoundParts::new(alloc, spec, graph)?;
    net_of(alloc, parts)
}
