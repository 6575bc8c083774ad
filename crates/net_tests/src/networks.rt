//! Networks, their builder and their walk order.
ghost use Rattle.std.specs.Prelude.{◌+◌, ◌<◌, ◌^◌};

use basic_kinds::Kind;
use net_core::{Net, NetBuilder, NodeSpec, OpenPort, closed, copy_spec, order, same_spec};
use net_laws::forks;
use std::alloc::{AllocError, Global};
use std::process::Abort;
use std::test::Fail;

/// A FORK that is listed before the C that feeds it. The environment has three inputs and two outputs.
fn fork_before_join(alloc: Global) -> Result<Net, AllocError> {
    let mut builder = NetBuilder::new(alloc, NodeSpec::Kind(Kind::Seq(2)))?;
    builder.wires(6)?;
    builder.node(NodeSpec::Kind(Kind::Fork(2)), vec![in alloc; 5, 3, 4]?)?;
    builder.node(NodeSpec::Kind(Kind::C(3)), vec![in alloc; 0, 1, 2, 5]?)?;
    builder.finish(vec![in alloc; 0, 1, 2, 3, 4]?)
}

/// So many WIREs in a row between the ports of the environment, the last of them listed first.
fn chain(alloc: Global, many: u32) -> Result<Net, AllocError>
    requires { many + 2 < 2 ^ 32 }
{
    let mut builder = NetBuilder::new(alloc, NodeSpec::Kind(Kind::Wire))?;
    builder.wires(many + 1)?;
    for behind in 0..many {
        let to = many - behind;
        builder.node(NodeSpec::Kind(Kind::Wire), vec![in alloc; to - 1, to]?)?;
    }
    builder.finish(vec![in alloc; 0, many]?)
}

fn ordered(rt: &impl Abort, alloc: Global, net: Net) -> Result<Net, Fail> {
    assert!(rt; closed(&net).is_none());
    match order(alloc, net) {
        Ok(net) => Ok(net),
        Err((_, error)) => Err(error.into()),
    }
}

#[test]
fn lists_the_join_before_the_fork(rt: HostRuntime) -> Result<(), Fail> {
    let alloc = rt.alloc();
    let net = ordered(&rt, alloc, fork_before_join(alloc)?)?;
    let ends: [&[u32]; 3] = [&[0, 1, 2, 3, 4], &[0, 1, 2, 5], &[5, 3, 4]];
    assert_eq!(rt; net.nodes.len(), ends.len());
    for (node, wires) in net.nodes.iter().zip(ends.iter()) {
        assert_eq!(rt; node.wires.as_slice(), *wires);
    }
    Ok(())
}

#[test]
fn tells_the_two_ends_of_each_wire(rt: HostRuntime) -> Result<(), Fail> {
    let net = fork_before_join(rt.alloc())?;
    assert_eq!(rt; net.wires, 6);
    let drivers = [(0, 0), (0, 1), (0, 2), (1, 1), (1, 2), (2, 3)];
    let receivers = [(2, 0), (2, 1), (2, 2), (0, 3), (0, 4), (1, 0)];
    for wire in 0..6 {
        assert_eq!(rt; net.driver(wire), drivers[wire as usize]);
        assert_eq!(rt; net.receiver(wire), receivers[wire as usize]);
    }
    Ok(())
}

#[test]
fn orders_a_long_chain_in_time(rt: HostRuntime) -> Result<(), Fail> {
    let alloc = rt.alloc();
    let net = ordered(&rt, alloc, chain(alloc, 60_000)?)?;
    assert_eq!(rt; net.nodes.len(), 60_001);
    assert_eq!(rt; net.nodes[1].wires.as_slice(), [0, 2].as_slice());
    assert_eq!(rt; net.nodes[2].wires.as_slice(), [2, 3].as_slice());
    assert_eq!(rt; net.nodes[60_000].wires.as_slice(), [60_000, 1].as_slice());
    Ok(())
}

// Wire 1 has no receiver, and wire 2 has no driver.
#[test]
fn an_open_network_names_its_least_open_wire(rt: HostRuntime) -> Result<(), Fail> {
    let alloc = rt.alloc();
    let mut builder = NetBuilder::new(alloc, NodeSpec::Kind(Kind::Wire))?;
    assert_eq!(rt; builder.wires(3)?, 0);
    assert_eq!(rt;
        builder.node(NodeSpec::Kind(Kind::Wire), vec![in alloc; 0, 1]?)?,
        1
    );
    let net = builder.finish(vec![in alloc; 0, 2]?)?;
    assert_eq!(rt; closed(&net), Some(OpenPort { wire: 1 }));
    assert_eq!(rt; net.wires, 3);
    assert_eq!(rt; net.driver(1), (1, 1));
    assert_eq!(rt; net.receiver(1), (0, 0));
    Ok(())
}

#[test]
fn a_copy_is_the_same_specification(rt: HostRuntime) -> Result<(), Fail> {
    let alloc = rt.alloc();
    let spec = NodeSpec::Kind(Kind::Fork(3));
    let copy = copy_spec(alloc, &spec)?;
    assert!(rt; same_spec(&spec, &copy));
    assert!(rt; !same_spec(&copy, &NodeSpec::Kind(Kind::Fork(2))));
    Ok(())
}

#[test]
fn a_fork_stands_by_itself(rt: HostRuntime) -> Result<(), Fail> {
    let alloc = rt.alloc();
    let net = forks(alloc, NodeSpec::Kind(Kind::Fork(2)), 1, 2)?;
    assert!(rt; closed(&net).is_none());
    assert_eq!(rt; net.wires, 3);
    assert_eq!(rt; net.nodes.len(), 2);
    assert_eq!(rt; net.nodes[0].wires.as_slice(), [0, 1, 2].as_slice());
    assert_eq!(rt; net.nodes[1].wires.as_slice(), [0, 1, 2].as_slice());
    Ok(())
}
