//! Networks of one process that needs no token.
ghost use Rattle.std.specs.Prelude.{◌≡◌, ◌<◌, ◌^◌, [], ◌∷◌, length, Some, None, IfOk};
ghost use Rattle.cmd_tree.specs.declared.tree.Proc.{Proc};
ghost use Rattle.cmd_tree.specs.Tree.{TBurst};
ghost use Rattle.cmd_tree.specs.View.{item_of, seq_of};
ghost use Rattle.di_grammar.specs.Grants.{IsGrant};

use basic_kinds::{Kind, same_kind};
use cmd_tree::{Command, Dir, Item, Mark, Name, NameSet, Proc, Seq, Sym};
use di_grammar::check;
use net_core::{Net, NodeSpec, closed, order};
use place_graph::{SplitStyle, graph, style};
use plain_split::{one_wait_law, plain_law, plain_net, rounds_law};
use sqlite_items::Items;
use std::alloc::{AllocError, Global};
use std::process::Abort;
use std::test::Fail;

fn single(alloc: Global, symbol: u32, dir: Dir) -> Result<Item, AllocError>
    ensures { IfOk result (λ item. item_of item ≡ TBurst (record { sym = record { 0 = symbol }; dir = dir } ∷ [])) }
{
    let mark = Mark {
        sym: Sym(symbol),
        dir,
    };
    Ok(Item::Burst(Items::from_slice(alloc, &[mark])?))
}

fn take(alloc: Global, symbol: u32) -> Result<Item, AllocError>
    ensures { IfOk result (λ item. item_of item ≡ TBurst (record { sym = record { 0 = symbol }; dir = Dir.Input } ∷ [])) }
{
    single(alloc, symbol, Dir::Input)
}

fn give(alloc: Global, symbol: u32) -> Result<Item, AllocError>
    ensures { IfOk result (λ item. item_of item ≡ TBurst (record { sym = record { 0 = symbol }; dir = Dir.Output } ∷ [])) }
{
    single(alloc, symbol, Dir::Output)
}

fn repeated(items: Vec<Item>) -> Proc
    ensures { result ≡ record { lead = None; body = Some (seq_of items.items) } }
{
    let body = Seq {
        items: Items::from_vec(items),
    };
    Proc {
        lead: None,
        body: Some(body),
    }
}

/// `pref*[a?;b!]`, or `pref*[a!;b?]`.
fn two_in_turn(alloc: Global, first: Dir, second: Dir) -> Result<Command, AllocError>
    ensures { IfOk result (λ command. (p : Proc) × (command.procs ≡ p ∷ []) × (IsGrant p → ⊥)) }
{
    let items = vec![in alloc; single(alloc, 0, first)?, single(alloc, 1, second)?]?;
    let procs = Items::from_vec(vec![in alloc; repeated(items)]?);
    let mut names = NameSet::new(alloc);
    names.insert(Name::new(alloc, b"a")?)?;
    names.insert(Name::new(alloc, b"b")?)?;
    Ok(Command { names, procs })
}

/// `pref*[a?;b!;a?;b!;a?;b!;a?;b!]`.
fn four_rounds(alloc: Global) -> Result<Command, AllocError>
    ensures { IfOk result (λ command. (p : Proc) × (command.procs ≡ p ∷ []) × (IsGrant p → ⊥)) }
{
    let items = vec![in alloc;
        take(alloc, 0)?,
        give(alloc, 1)?,
        take(alloc, 0)?,
        give(alloc, 1)?,
        take(alloc, 0)?,
        give(alloc, 1)?,
        take(alloc, 0)?,
        give(alloc, 1)?,
    ]?;
    let procs = Items::from_vec(vec![in alloc; repeated(items)]?);
    let mut names = NameSet::new(alloc);
    names.insert(Name::new(alloc, b"a")?)?;
    names.insert(Name::new(alloc, b"b")?)?;
    Ok(Command { names, procs })
}

/// The network of the command, if it is admitted and needs no token.
fn built(alloc: Global, command: &Command) -> Result<Option<Net>, AllocError>
    requires { (p : Proc) × (command.now.procs ≡ p ∷ []) × (IsGrant p → ⊥) }
{
    if check(command).is_some() {
        return Ok(None);
    }
    let drawn = graph(alloc, &command.procs.as_slice()[0])?;
    match style(&drawn) {
        SplitStyle::Token => Ok(None),
        SplitStyle::OneWait => Ok(Some(plain_net(alloc, command, &drawn)?)),
        SplitStyle::Rounds(_) => Ok(Some(plain_net(alloc, command, &drawn)?)),
    }
}

fn ordered(rt: &impl Abort, alloc: Global, net: Net) -> Result<Net, Fail> {
    assert!(rt; closed(&net).is_none());
    match order(alloc, net) {
        Ok(net) => Ok(net),
        Err((_, error)) => Err(error.into()),
    }
}

/// In walk order the network of the command has these components with these wires; those of the environment
/// come first.
fn has_parts(
    rt: &impl Abort,
    alloc: Global,
    command: Command,
    kinds: &[Kind],
    ends: &[&[u32]],
) -> Result<(), Fail>
    requires { (p : Proc) × (command.procs ≡ p ∷ []) × (IsGrant p → ⊥) }
{
    let net = built(alloc, &command)?.expect(rt, "it has a network");
    let net = ordered(rt, alloc, net)?;
    assert_eq!(rt; net.nodes.len(), ends.len());
    for (node, wires) in net.nodes.iter().zip(ends.iter()) {
        assert_eq!(rt; node.wires.as_slice(), *wires);
    }
    for (node, kind) in net.nodes.iter().skip(1).zip(kinds.iter()) {
        match &node.spec {
            NodeSpec::Kind(found) => assert!(rt; same_kind(found, kind)),
            NodeSpec::Cmd(_) => assert!(rt; false),
        }
    }
    Ok(())
}

#[test]
fn a_direct_path_is_a_wire(rt: HostRuntime) -> Result<(), Fail> {
    let command = two_in_turn(rt.alloc(), Dir::Input, Dir::Output)?;
    let ends: [&[u32]; 2] = [&[0, 1], &[0, 1]];
    has_parts(&rt, rt.alloc(), command, &[Kind::Wire], &ends)
}

#[test]
fn an_act_at_the_start_is_let_through_once_more(rt: HostRuntime) -> Result<(), Fail> {
    let command = two_in_turn(rt.alloc(), Dir::Output, Dir::Input)?;
    let ends: [&[u32]; 2] = [&[0, 1], &[1, 0]];
    has_parts(&rt, rt.alloc(), command, &[Kind::Iwire], &ends)
}

#[test]
fn four_rounds_have_three_toggles(rt: HostRuntime) -> Result<(), Fail> {
    let command = four_rounds(rt.alloc())?;
    let ends: [&[u32]; 5] = [
        &[0, 1],
        &[0, 2, 3],
        &[2, 4, 5],
        &[3, 6, 7],
        &[4, 6, 5, 7, 1],
    ];
    let kinds = [Kind::Toggle, Kind::Toggle, Kind::Toggle, Kind::Merge(4)];
    has_parts(&rt, rt.alloc(), command, &kinds, &ends)
}

// The laws have nothing to run: this says that they may be called.
#[test]
fn laws_are_callable() {
    one_wait_law();
    rounds_law();
    plain_law();
}
