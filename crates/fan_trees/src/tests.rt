use crate::split;
use basic_kinds::Kind;
use net_core::{Net, closed};
use std::process::Abort;
use std::test::Fail;

/// The network has nodes with these wires, and each wire leads from one node to one.
fn check(rt: &impl Abort, net: Option<Net>, ends: &[&[u32]]) -> Result<(), Fail> {
    assert!(rt; net.is_some());
    if let Some(net) = net {
        assert!(rt; closed(&net).is_none());
        assert_eq!(rt; net.nodes.len(), ends.len());
        for (node, wires) in net.nodes.iter().zip(ends.iter()) {
            assert_eq!(rt; node.wires.as_slice(), *wires);
        }
    }
    Ok(())
}

#[test]
fn of_three_ports_one_stands_alone(rt: HostRuntime) -> Result<(), Fail> {
    let fork = split(rt.alloc(), &Kind::Fork(3))?;
    check(&rt, fork, &[&[0, 1, 2, 3], &[0, 4, 3], &[4, 1, 2]])?;
    let join = split(rt.alloc(), &Kind::C(3))?;
    check(&rt, join, &[&[0, 1, 2, 3], &[0, 1, 4], &[4, 2, 3]])
}

#[test]
fn of_five_ports_three_come_first(rt: HostRuntime) -> Result<(), Fail> {
    let fork = split(rt.alloc(), &Kind::Fork(5))?;
    let outward: [&[u32]; 4] = [&[0, 1, 2, 3, 4, 5], &[0, 6, 7], &[6, 1, 2, 3], &[7, 4, 5]];
    check(&rt, fork, &outward)?;
    let merge = split(rt.alloc(), &Kind::Merge(5))?;
    let inward: [&[u32]; 4] = [&[0, 1, 2, 3, 4, 5], &[0, 1, 2, 6], &[3, 4, 7], &[6, 7, 5]];
    check(&rt, merge, &inward)
}

#[test]
fn of_two_ports_nothing_is_split(rt: HostRuntime) -> Result<(), Fail> {
    assert!(rt; split(rt.alloc(), &Kind::Merge(2))?.is_none());
    Ok(())
}
