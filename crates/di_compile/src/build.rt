//! The network of a command.
ghost use Rattle.std.specs.Prelude.{◌↔◌, drop, IsTrue, IfOk, IfErr};
ghost use Rattle.di_grammar.specs.Admitted.{Admitted};
ghost use Rattle.net_core.specs.Wiring.{IsClosed};
ghost use Rattle.weave_split.specs.WeaveParts.{IsProcess, IsKindOrProcess, AreParts};
ghost use Rattle.di_compile.specs.Compiling.{IsOfForm, IsBuilt, IsInOrderOf, IsNetworkOf, IsRefused};
ghost use Rattle.di_compile.specs.Mirror.InPlaces.{IsProcessNet, IsInPlace, AreInPlaces, IsWideNet, IsWholeNet};

use crate::refusal::CompileRefusal;
use cmd_tree::{Command, MAX_COMPONENTS};
use count_sum::{Basis, count, is_narrow};
use di_grammar::check;
use net_core::{Net, NodeSpec, order};
use net_layers::split_all;
use place_graph::{SplitStyle, graph, style};
use plain_split::plain_net;
use std::alloc::{AllocError, Global};
use substitute::splice_all;
use token_split::token_net;
use weave_split::weave_net;

/// The network of a command, in walk order: closed, of basic components, in the basis two of two-way ones, correct for the
/// command, with as many components of each kind as the sums of the command say, and with symbol i on wire i.
///
/// A command that breaks a rule is refused with the answer of `check`. In the basis two an admitted command is
/// `NotThisForm` where some decision-wait has more than two rows or columns, or some sequencer more than two requests: no
/// network of it is built today. And a command whose network would have more than 65,536 components is refused
/// with their number, before anything is built. Time and memory grow with the places of the command and the wires of its
/// network; in the basis two the time is theirs times the logarithm of the greatest width.
pub fn compile(alloc: Global, command: &Command, basis: Basis) -> Result<Net, CompileRefusal>
    ensures ok { IfOk result (λ net. IsBuilt basis command.now.procs × IsNetworkOf basis command.now net) }
    ensures refused { IfErr result (IsRefused basis command.now.procs) }
{
    if let Some(broken) = check(command) {
        return Err(CompileRefusal::Broken(broken));
    }
    if !is_of_form(alloc, command, basis)? {
        return Err(CompileRefusal::NotThisForm);
    }
    compile_within(alloc, command, basis)
}

/// Whether a network is built today in this basis.
fn is_of_form(alloc: Global, command: &Command, basis: Basis) -> Result<bool, AllocError>
    requires { Admitted command.now.procs }
    ensures { IfOk result (λ it. IsTrue it ↔ IsOfForm basis command.now.procs) }
{
    match basis {
        Basis::Wide => Ok(true),
        Basis::Two => is_narrow(alloc, command),
    }
}

/// The components are counted before anything is built.
fn compile_within(alloc: Global, command: &Command, basis: Basis) -> Result<Net, CompileRefusal>
    requires admitted { Admitted command.now.procs }
    requires form { IsOfForm basis command.now.procs }
    ensures ok { IfOk result (λ net. IsBuilt basis command.now.procs × IsNetworkOf basis command.now net) }
    ensures refused { IfErr result (IsRefused basis command.now.procs) }
{
    let count = count(alloc, command, basis)?.total();
    if count > MAX_COMPONENTS as u64 {
        return Err(CompileRefusal::TooManyComponents { count });
    }
    let whole = whole_net(alloc, command, basis)?;
    Ok(in_order(alloc, whole)?)
}

/// The network in the basis, in the order in which it is built.
fn whole_net(alloc: Global, command: &Command, basis: Basis) -> Result<Net, AllocError>
    requires { IsBuilt basis command.now.procs }
    ensures { IfOk result (IsWholeNet basis command.now) }
{
    let wide = wide_net(alloc, command)?;
    match basis {
        Basis::Wide => Ok(wide),
        Basis::Two => split_all(alloc, wide),
    }
}

/// The network of the weave, with the network of each process in its place.
fn wide_net(alloc: Global, command: &Command) -> Result<Net, AllocError>
    requires { Admitted command.now.procs }
    ensures { IfOk result (IsWideNet command.now) }
{
    let weave = weave_net(alloc, command)?;
    let parts = part_nets(alloc, &weave)?;
    let whole = splice_all(alloc, &weave, parts.as_slice())?;
    Ok(whole)
}

/// What takes the places of the components: of a process its network, and of a kind nothing.
fn part_nets(alloc: Global, weave: &Net) -> Result<Vec<Option<Net>>, AllocError>
    requires { AreParts (drop 1 weave.now.nodes) }
    ensures { IfOk result (λ it. AreInPlaces (drop 1 weave.now.nodes) it.items) }
{
    let mut parts = Vec::new(alloc);
    for node in 1..weave.nodes.len() {
        parts.push(part_net(alloc, &weave.nodes[node].spec)?)?;
    }
    Ok(parts)
}

fn part_net(alloc: Global, spec: &NodeSpec) -> Result<Option<Net>, AllocError>
    requires { IsKindOrProcess spec.now }
    ensures { IfOk result (λ it. IsInPlace spec.now it) }
{
    match spec {
        NodeSpec::Kind(_) => Ok(None),
        NodeSpec::Cmd(process) => {
            let net = process_net(alloc, process)?;
            Ok(Some(net))
        }
    }
}

/// The network of one process, with a token where it needs one.
fn process_net(alloc: Global, command: &Command) -> Result<Net, AllocError>
    requires { IsProcess command.now }
    ensures { IfOk result (IsProcessNet command.now) }
{
    let graph = graph(alloc, &command.procs.as_slice()[0])?;
    match style(&graph) {
        SplitStyle::Token => token_net(alloc, command, &graph),
        SplitStyle::OneWait | SplitStyle::Rounds(_) => plain_net(alloc, command, &graph),
    }
}

fn in_order(alloc: Global, net: Net) -> Result<Net, AllocError>
    requires { IsClosed net }
    ensures { IfOk result (λ ordered. IsInOrderOf net ordered) }
{
    match order(alloc, net) {
        Ok(ordered) => Ok(ordered),
        Err((_, error)) => Err(error),
    }
}
