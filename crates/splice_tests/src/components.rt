//! Kinds of components, and components replaced by networks.
ghost use Rattle.std.specs.Prelude.{◌≡◌, ◌+◌, ◌<◌, ◌^◌, [], ◌∷◌, length, IfOk};
ghost use Rattle.cmd_tree.specs.Tree.{TBurst};
ghost use Rattle.cmd_tree.specs.View.{item_of};
ghost use Rattle.net_core.specs.Specs.{outs_of, IsFormed};

use basic_kinds::{Kind, Shape, kinds_by_counts, ports, rounds_law};
use cmd_tree::{Command, Dir, Item, Mark, Name, NameSet, Proc, Seq, Sym};
use net_core::{Net, NetBuilder, NodeSpec, closed};
use sqlite_items::Items;
use std::alloc::{AllocError, Global};
use std::process::Abort;
use std::test::Fail;
use substitute::{SpliceRefusal, fits_each, splice, splice_all, splice_law, splices_law};

// The laws have nothing to run: this says that they may be called.
#[test]
fn laws_of_components_are_callable() {
    rounds_law();
    kinds_by_counts();
    splice_law();
    splices_law();
}

#[test]
fn ports_of_kinds(rt: HostRuntime) -> Result<(), Fail> {
    let rows = [
        (Kind::Wire, (1, 1)),
        (Kind::Iwire, (1, 1)),
        (Kind::Source, (0, 1)),
        (Kind::Sink, (1, 0)),
        (Kind::Fork(3), (1, 3)),
        (Kind::C(2), (2, 1)),
        (Kind::Merge(5), (5, 1)),
        (Kind::Toggle, (1, 2)),
        (Kind::Seq(2), (3, 2)),
    ];
    for (kind, numbers) in &rows {
        assert_eq!(rt; ports(kind), *numbers);
    }
    Ok(())
}

#[test]
fn ports_of_a_decision_wait(rt: HostRuntime) -> Result<(), Fail> {
    let cross = Items::from_vec(vec![in rt.alloc(); (0, 0), (1, 0), (2, 0)]?);
    let shape = Shape {
        rows: 3,
        cols: 1,
        cross,
    };
    assert_eq!(rt; ports(&Kind::Dw(shape)), (4, 3));
    Ok(())
}

fn single(alloc: Global, symbol: u32, dir: Dir) -> Result<Item, AllocError>
    ensures { IfOk result (λ item. item_of item ≡ TBurst (record { sym = record { 0 = symbol }; dir = dir } ∷ [])) }
{
    let mark = Mark {
        sym: Sym(symbol),
        dir,
    };
    Ok(Item::Burst(Items::from_slice(alloc, &[mark])?))
}

/// `pref*[a?;b!]`, or `pref*[a!;b?]`.
fn two_in_turn(alloc: Global, first: Dir, second: Dir) -> Result<Command, AllocError>
    ensures { IfOk result (λ command. length command.names ≡ 2) }
{
    let mut names = NameSet::new(alloc);
    names.insert(Name::new(alloc, b"a")?)?;
    names.insert(Name::new(alloc, b"b")?)?;
    let items = vec![in alloc; single(alloc, 0, first)?, single(alloc, 1, second)?]?;
    let body = Seq {
        items: Items::from_vec(items),
    };
    let process = Proc {
        lead: None,
        body: Some(body),
    };
    let procs = Items::from_vec(vec![in alloc; process]?);
    Ok(Command { names, procs })
}

/// The command `pref*[a?;b!]` as a specification.
fn command(alloc: Global) -> Result<NodeSpec, AllocError>
    ensures { IfOk result (λ spec. (length (outs_of spec) ≡ 2) × IsFormed spec) }
{
    Ok(NodeSpec::Cmd(two_in_turn(alloc, Dir::Input, Dir::Output)?))
}

/// A network of one component: port p of the environment and port p of the component are at the wire p.
fn one_component(alloc: Global, outside: NodeSpec, inside: NodeSpec) -> Result<Net, AllocError>
    requires outside { (length (outs_of outside) ≡ 2) × IsFormed outside }
    requires inside { (length (outs_of inside) ≡ 2) × IsFormed inside }
{
    let mut builder = NetBuilder::new(alloc, outside)?;
    builder.wires(2)?;
    builder.node(inside, vec![in alloc; 0, 1]?)?;
    builder.finish(vec![in alloc; 0, 1]?)
}

/// An environment of `pref*[a!;b?]`, and an IWIRE from b to a.
fn one_turned(alloc: Global) -> Result<Net, AllocError> {
    let outside = NodeSpec::Cmd(two_in_turn(alloc, Dir::Output, Dir::Input)?);
    let mut builder = NetBuilder::new(alloc, outside)?;
    builder.wires(2)?;
    builder.node(NodeSpec::Kind(Kind::Iwire), vec![in alloc; 1, 0]?)?;
    builder.finish(vec![in alloc; 0, 1]?)
}

/// So many WIREs in a row between the ports of an environment of a WIRE, and the wires between them in order.
fn wires_in_a_row(alloc: Global, many: u32) -> Result<Net, AllocError>
    requires { many + 2 < 2 ^ 32 }
{
    let mut builder = NetBuilder::new(alloc, NodeSpec::Kind(Kind::Wire))?;
    builder.wires(many + 1)?;
    for from in 0..many {
        builder.node(NodeSpec::Kind(Kind::Wire), vec![in alloc; from, from + 1]?)?;
    }
    builder.finish(vec![in alloc; 0, many]?)
}

/// A WIRE from wire 0 to wire 1, and a component with both ports at wire 2.
fn with_a_loop(alloc: Global, around: NodeSpec) -> Result<Net, AllocError>
    requires { (length (outs_of around) ≡ 2) × IsFormed around }
{
    let mut builder = NetBuilder::new(alloc, NodeSpec::Kind(Kind::Wire))?;
    builder.wires(3)?;
    builder.node(NodeSpec::Kind(Kind::Wire), vec![in alloc; 0, 1]?)?;
    builder.node(around, vec![in alloc; 2, 2]?)?;
    builder.finish(vec![in alloc; 0, 1]?)
}

/// An environment with one wire for both ports.
fn straight(alloc: Global, outside: NodeSpec) -> Result<Net, AllocError>
    requires { (length (outs_of outside) ≡ 2) × IsFormed outside }
{
    let mut builder = NetBuilder::new(alloc, outside)?;
    builder.wires(1)?;
    builder.finish(vec![in alloc; 0, 0]?)
}

/// What the splice gives, or how it is refused; a refused network comes back with its wires.
fn spliced(
    rt: &impl Abort,
    alloc: Global,
    net: Net,
    at: u32,
    sub: &Net,
) -> Result<Net, SpliceRefusal> {
    let wires = net.wires;
    assert!(rt; closed(&net).is_none());
    assert!(rt; closed(sub).is_none());
    assert!(rt; 0 < at && (at as usize) < net.nodes.len());
    assert!(rt; net.wires < 100 && sub.wires < 100);
    match splice(alloc, net, at, sub) {
        Ok(whole) => Ok(whole),
        Err((net, refusal)) => {
            assert_eq!(rt; net.wires, wires);
            Err(refusal)
        }
    }
}

fn refuses(rt: &impl Abort, alloc: Global, net: Net, at: u32, sub: Net, refusal: SpliceRefusal) {
    assert_eq!(rt; spliced(rt, alloc, net, at, &sub).err(), Some(refusal));
}

fn has_ends(rt: &impl Abort, net: &Net, node: usize, ends: [u32; 2]) {
    assert!(rt; node < net.nodes.len());
    assert_eq!(rt; net.nodes[node].wires.as_slice(), ends.as_slice());
}

/// A network of one component with the command `pref*[a?;b!]`.
fn one_command(alloc: Global) -> Result<Net, AllocError> {
    let inside = command(alloc)?;
    one_component(alloc, NodeSpec::Kind(Kind::Wire), inside)
}

/// A WIRE in an environment of the command `pref*[a?;b!]`.
fn wire_for_a_command(alloc: Global) -> Result<Net, AllocError> {
    let outside = command(alloc)?;
    one_component(alloc, outside, NodeSpec::Kind(Kind::Wire))
}

#[test]
fn another_kind_is_refused(rt: HostRuntime) -> Result<(), Fail> {
    let alloc = rt.alloc();
    let sub = wires_in_a_row(alloc, 1)?;
    let net = one_component(
        alloc,
        NodeSpec::Kind(Kind::Wire),
        NodeSpec::Kind(Kind::Iwire),
    )?;
    refuses(&rt, alloc, net, 1, sub, SpliceRefusal::SpecDiffers);
    Ok(())
}

#[test]
fn a_through_wire_is_refused(rt: HostRuntime) -> Result<(), Fail> {
    let alloc = rt.alloc();
    let sub = straight(alloc, NodeSpec::Kind(Kind::Wire))?;
    let net = wires_in_a_row(alloc, 1)?;
    refuses(
        &rt,
        alloc,
        net,
        1,
        sub,
        SpliceRefusal::ThroughWire { wire: 0 },
    );
    Ok(())
}

#[test]
fn a_self_wire_is_refused(rt: HostRuntime) -> Result<(), Fail> {
    let alloc = rt.alloc();
    let sub = wires_in_a_row(alloc, 1)?;
    let net = with_a_loop(alloc, NodeSpec::Kind(Kind::Wire))?;
    refuses(&rt, alloc, net, 2, sub, SpliceRefusal::SelfWire { wire: 2 });
    Ok(())
}

#[test]
fn another_command_is_refused(rt: HostRuntime) -> Result<(), Fail> {
    let alloc = rt.alloc();
    let sub = one_turned(alloc)?;
    let net = one_command(alloc)?;
    refuses(&rt, alloc, net, 1, sub, SpliceRefusal::SpecDiffers);
    Ok(())
}

#[test]
fn a_kind_is_refused_for_a_command(rt: HostRuntime) -> Result<(), Fail> {
    let alloc = rt.alloc();
    let sub = wires_in_a_row(alloc, 1)?;
    let net = one_command(alloc)?;
    refuses(&rt, alloc, net, 1, sub, SpliceRefusal::SpecDiffers);
    Ok(())
}

#[test]
fn a_through_wire_is_refused_at_a_command(rt: HostRuntime) -> Result<(), Fail> {
    let alloc = rt.alloc();
    let outside = command(alloc)?;
    let sub = straight(alloc, outside)?;
    let net = one_command(alloc)?;
    refuses(
        &rt,
        alloc,
        net,
        1,
        sub,
        SpliceRefusal::ThroughWire { wire: 0 },
    );
    Ok(())
}

#[test]
fn a_self_wire_is_refused_at_a_command(rt: HostRuntime) -> Result<(), Fail> {
    let alloc = rt.alloc();
    let sub = wire_for_a_command(alloc)?;
    let around = command(alloc)?;
    let net = with_a_loop(alloc, around)?;
    refuses(&rt, alloc, net, 2, sub, SpliceRefusal::SelfWire { wire: 2 });
    Ok(())
}

#[test]
fn splices_at_a_command(rt: HostRuntime) -> Result<(), Fail> {
    let alloc = rt.alloc();
    let sub = wire_for_a_command(alloc)?;
    let net = one_command(alloc)?;
    let Ok(whole) = spliced(&rt, alloc, net, 1, &sub) else {
        panic!(rt; "refused");
    };
    has_ends(&rt, &whole, 1, [0, 1]);
    assert_eq!(rt; whole.nodes.len(), 2);
    Ok(())
}

#[test]
fn splices_into_a_spliced_network(rt: HostRuntime) -> Result<(), Fail> {
    let alloc = rt.alloc();
    let two = wires_in_a_row(alloc, 2)?;
    let one = wires_in_a_row(alloc, 1)?;
    let Ok(once) = spliced(&rt, alloc, one, 1, &two) else {
        panic!(rt; "refused");
    };
    assert_eq!(rt; once.wires, 3);
    let Ok(twice) = spliced(&rt, alloc, once, 2, &two) else {
        panic!(rt; "refused");
    };
    assert_eq!(rt; twice.wires, 4);
    assert_eq!(rt; twice.nodes.len(), 4);
    has_ends(&rt, &twice, 1, [0, 2]);
    has_ends(&rt, &twice, 2, [2, 3]);
    has_ends(&rt, &twice, 3, [3, 1]);
    Ok(())
}

fn with_parts(
    rt: &impl Abort,
    alloc: Global,
    net: &Net,
    parts: &[Option<Net>],
) -> Result<Net, AllocError> {
    assert!(rt; closed(net).is_none());
    assert_eq!(rt; parts.len() + 1, net.nodes.len());
    assert!(rt; fits_each(net, parts));
    splice_all(alloc, net, parts)
}

#[test]
fn parts_take_the_places_of_their_own_nodes(rt: HostRuntime) -> Result<(), Fail> {
    let alloc = rt.alloc();
    let net = wires_in_a_row(alloc, 4)?;
    let mut parts = Vec::new(alloc);
    parts.push(None)?;
    parts.push(Some(wires_in_a_row(alloc, 2)?))?;
    parts.push(None)?;
    parts.push(Some(wires_in_a_row(alloc, 3)?))?;
    let whole = with_parts(&rt, alloc, &net, &parts)?;
    assert_eq!(rt; whole.wires, 8);
    assert_eq!(rt; whole.nodes.len(), 8);
    has_ends(&rt, &whole, 1, [0, 1]);
    has_ends(&rt, &whole, 2, [1, 5]);
    has_ends(&rt, &whole, 3, [5, 2]);
    has_ends(&rt, &whole, 4, [2, 3]);
    has_ends(&rt, &whole, 5, [3, 6]);
    has_ends(&rt, &whole, 6, [6, 7]);
    has_ends(&rt, &whole, 7, [7, 4]);
    Ok(())
}

/// Whether the part fits at the WIRE of `with_a_loop`, or at its loop.
fn fits_beside_a_loop(
    rt: &impl Abort,
    alloc: Global,
    part: Net,
    at_loop: bool,
) -> Result<bool, AllocError> {
    let net = with_a_loop(alloc, NodeSpec::Kind(Kind::Wire))?;
    assert!(rt; closed(&net).is_none());
    assert_eq!(rt; net.nodes.len(), 3);
    let parts = if at_loop {
        [None, Some(part)]
    } else {
        [Some(part), None]
    };
    Ok(fits_each(&net, &parts))
}

#[test]
fn a_part_fits_at_a_wire_and_not_at_a_loop(rt: HostRuntime) -> Result<(), Fail> {
    let alloc = rt.alloc();
    let two = wires_in_a_row(alloc, 2)?;
    let fits = fits_beside_a_loop(&rt, alloc, two, false)?;
    assert!(rt; fits);
    let two = wires_in_a_row(alloc, 2)?;
    let fits = fits_beside_a_loop(&rt, alloc, two, true)?;
    assert!(rt; !fits);
    Ok(())
}

#[test]
fn a_part_with_a_through_wire_does_not_fit(rt: HostRuntime) -> Result<(), Fail> {
    let alloc = rt.alloc();
    let through = straight(alloc, NodeSpec::Kind(Kind::Wire))?;
    let fits = fits_beside_a_loop(&rt, alloc, through, false)?;
    assert!(rt; !fits);
    Ok(())
}

#[test]
fn a_part_of_another_kind_does_not_fit(rt: HostRuntime) -> Result<(), Fail> {
    let alloc = rt.alloc();
    let other = one_component(
        alloc,
        NodeSpec::Kind(Kind::Iwire),
        NodeSpec::Kind(Kind::Iwire),
    )?;
    let fits = fits_beside_a_loop(&rt, alloc, other, false)?;
    assert!(rt; !fits);
    Ok(())
}

/// A chain of three for each WIRE.
fn chains(alloc: Global, many: u32) -> Result<Vec<Option<Net>>, AllocError> {
    let mut parts = Vec::new(alloc);
    for _ in 0..many {
        let chain = wires_in_a_row(alloc, 3)?;
        parts.push(Some(chain))?;
    }
    Ok(parts)
}

#[test]
fn many_parts_in_time(rt: HostRuntime) -> Result<(), Fail> {
    let alloc = rt.alloc();
    let net = wires_in_a_row(alloc, 20_000)?;
    let parts = chains(alloc, 20_000)?;
    let whole = with_parts(&rt, alloc, &net, &parts)?;
    assert_eq!(rt; whole.wires, 60_001);
    assert_eq!(rt; whole.nodes.len(), 60_001);
    has_ends(&rt, &whole, 1, [0, 20_001]);
    has_ends(&rt, &whole, 2, [20_001, 20_002]);
    has_ends(&rt, &whole, 3, [20_002, 1]);
    has_ends(&rt, &whole, 4, [1, 20_003]);
    has_ends(&rt, &whole, 60_000, [60_000, 20_000]);
    Ok(())
}
