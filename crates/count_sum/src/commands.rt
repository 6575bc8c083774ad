//! The components of a command.
ghost use Rattle.std.specs.Prelude.{◌≡◌, [], map, length, if◌then◌else◌, IfOk};
ghost use Rattle.std.specs.List.{AllByRecursion};
ghost use Rattle.di_grammar.specs.Admitted.{Admitted};
ghost use Rattle.di_grammar.specs.Sums.{grants};
ghost use Rattle.place_graph.specs.Graph.{graph_of};
ghost use Rattle.place_graph.specs.Sums.{counted, processes, of_command};
ghost use Rattle.count_sum.specs.Counts.{AreCounts};
ghost use Rattle.count_sum.specs.Mirror.Parts.{counted_of};
ghost use Rattle.count_sum.specs.Mirror.Graphs.{IsReadableProcess};

use crate::counts::{Basis, Counts};
use crate::graphs::graph_parts;
use crate::parts::Part;
use crate::sums::{two_way_counts, wide_counts};
use crate::weaves::weave_parts;
use cmd_tree::{Command, Proc};
use di_grammar::is_grant;
use place_graph::graph;
use std::alloc::{AllocError, Global};

/// What is counted of a process: nothing of a grant, which is of the weave.
fn process_parts(alloc: Global, process: &Proc, names: usize) -> Result<Vec<Part>, AllocError>
    requires { IsReadableProcess process.now }
    ensures { IfOk result (λ it. map counted_of it.items ≡ (if grants process.now then [] else counted (graph_of process.now) names)) }
{
    if is_grant(process) {
        return Ok(Vec::new(alloc));
    }
    let graph = graph(alloc, process)?;
    graph_parts(alloc, &graph, names)
}

fn processes(alloc: Global, procs: &[Proc], names: usize) -> Result<Vec<Part>, AllocError>
    requires { AllByRecursion IsReadableProcess procs.now }
    ensures { IfOk result (λ it. map counted_of it.items ≡ processes procs.now names) }
{
    let mut parts = Vec::new(alloc);
    for process in procs {
        parts.append(&mut process_parts(alloc, process, names)?)?;
    }
    Ok(parts)
}

/// What is counted of a command.
pub fn command_parts(alloc: Global, command: &Command) -> Result<Vec<Part>, AllocError>
    requires { Admitted command.now.procs }
    ensures { IfOk result (λ it. map counted_of it.items ≡ of_command command.now.procs (length command.now.names)) }
{
    let mut parts = weave_parts(alloc, command)?;
    let names = command.names.len();
    parts.append(&mut processes(alloc, command.procs.as_slice(), names)?)?;
    Ok(parts)
}

/// How many components of each sort a network of an admitted command has in the basis. They are read off the command,
/// and no network is built. The time is near linear in its places, in its symbols for each process, and for the basis
/// two in the crossings of each layer of a DW.
pub fn count(alloc: Global, command: &Command, basis: Basis) -> Result<Counts, AllocError>
    requires { Admitted command.now.procs }
    ensures { IfOk result (AreCounts command.now basis) }
{
    let parts = command_parts(alloc, command)?;
    match basis {
        Basis::Wide => Ok(wide_counts(parts.as_slice())),
        Basis::Two => two_way_counts(alloc, parts.as_slice()),
    }
}
