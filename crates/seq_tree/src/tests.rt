use crate::{sequencer_law, split};
use basic_kinds::{Kind, Shape, same_kind};
use net_core::{Net, NodeSpec, closed};
use sqlite_items::Items;
use std::process::Abort;
use std::test::Fail;

/// The network has nodes with these wires, and each wire leads from one node to one.
fn check(rt: &impl Abort, net: Option<Net>, ends: &[&[u32]]) -> Result<(), Fail> {
    assert!(rt; net.is_some());
    if let Some(net) = net {
        assert!(rt; closed(&net).is_none());
        assert_eq!(rt; net.nodes.len(), ends.len());
        for (node, wires) in net.nodes.iter().zip(ends.iter()) {
            assert_eq!(rt; node.wires.as_slice(), *wires);
        }
    }
    Ok(())
}

/// The network has nodes of these kinds.
fn check_kinds(rt: &impl Abort, net: Option<Net>, kinds: &[Kind]) -> Result<(), Fail> {
    assert!(rt; net.is_some());
    if let Some(net) = net {
        assert_eq!(rt; net.nodes.len(), kinds.len());
        for (node, kind) in net.nodes.iter().zip(kinds.iter()) {
            match &node.spec {
                NodeSpec::Kind(found) => assert!(rt; same_kind(found, kind)),
                NodeSpec::Cmd(_) => assert!(rt; false),
            }
        }
    }
    Ok(())
}

// The law has nothing to run: this says that it may be called.
#[test]
fn the_law_is_callable() {
    sequencer_law();
}

#[test]
fn of_three_requests_one_stands_alone(rt: HostRuntime) -> Result<(), Fail> {
    let net = split(rt.alloc(), &Kind::Seq(3))?;
    let ends: [&[u32]; 11] = [
        &[0, 1, 2, 3, 4, 5, 6],
        &[17, 2, 3, 18, 6],
        &[0, 1, 20, 7, 8],
        &[9, 10, 17],
        &[11, 12, 18, 13, 14],
        &[15, 16, 19],
        &[19, 20],
        &[7, 9, 11],
        &[8, 10, 12],
        &[13, 4, 15],
        &[14, 5, 16],
    ];
    check(&rt, net, &ends)
}

#[test]
fn a_group_has_these_kinds(rt: HostRuntime) -> Result<(), Fail> {
    let net = split(rt.alloc(), &Kind::Seq(3))?;
    let cross = Items::from_vec(vec![in rt.alloc(); (0, 0), (1, 0)]?);
    let column = Shape {
        rows: 2,
        cols: 1,
        cross,
    };
    let kinds = [
        Kind::Seq(3),
        Kind::Seq(2),
        Kind::Seq(2),
        Kind::Merge(2),
        Kind::Dw(column),
        Kind::Merge(2),
        Kind::Iwire,
        Kind::Fork(2),
        Kind::Fork(2),
        Kind::Fork(2),
        Kind::Fork(2),
    ];
    check_kinds(&rt, net, &kinds)
}

#[test]
fn of_five_requests_three_come_first(rt: HostRuntime) -> Result<(), Fail> {
    let net = split(rt.alloc(), &Kind::Seq(5))?;
    let ends: [&[u32]; 22] = [
        &[0, 1, 2, 3, 4, 5, 6, 7, 8, 9, 10],
        &[26, 40, 5, 27, 41],
        &[0, 1, 2, 29, 11, 12, 13],
        &[14, 15, 16, 26],
        &[17, 18, 19, 27, 20, 21, 22],
        &[23, 24, 25, 28],
        &[28, 29],
        &[11, 14, 17],
        &[12, 15, 18],
        &[13, 16, 19],
        &[20, 6, 23],
        &[21, 7, 24],
        &[22, 8, 25],
        &[3, 4, 43, 30, 31],
        &[32, 33, 40],
        &[34, 35, 41, 36, 37],
        &[38, 39, 42],
        &[42, 43],
        &[30, 32, 34],
        &[31, 33, 35],
        &[36, 9, 38],
        &[37, 10, 39],
    ];
    check(&rt, net, &ends)
}

#[test]
fn of_two_requests_nothing_is_split(rt: HostRuntime) -> Result<(), Fail> {
    assert!(rt; split(rt.alloc(), &Kind::Seq(2))?.is_none());
    Ok(())
}
