use crate::{parts_net, wait_parts_law};
use basic_kinds::{Kind, Shape};
use net_core::{Node, NodeSpec, closed};
use sqlite_items::Items;
use std::process::Abort;
use std::test::Fail;

/// How many rows, columns and crossings a DW has; a C has none.
fn size(node: &Node) -> (u32, u32, usize) {
    match &node.spec {
        NodeSpec::Kind(Kind::Dw(shape)) => (shape.rows, shape.cols, shape.cross.len()),
        _ => (0, 0, 0),
    }
}

#[test]
fn parts_stand_in_the_order_of_their_least_rows(rt: HostRuntime) -> Result<(), Fail> {
    // Rows 0 and 2 share column 1, and row 1 has columns 0 and 2.
    let cross = Items::from_slice(rt.alloc(), &[(0, 1), (1, 0), (1, 2), (2, 1)])?;
    let shape = Shape {
        rows: 3,
        cols: 3,
        cross,
    };
    let net = parts_net(rt.alloc(), &shape)?;
    assert!(rt; closed(&net).is_none());
    assert_eq!(rt; net.nodes.len(), 3);
    assert_eq!(rt; net.nodes[1].wires.as_slice(), [0, 2, 4, 6, 9].as_slice());
    assert_eq!(rt; size(&net.nodes[1]), (2, 1, 2));
    assert_eq!(rt; net.nodes[2].wires.as_slice(), [1, 3, 5, 7, 8].as_slice());
    assert_eq!(rt; size(&net.nodes[2]), (1, 2, 2));
    wait_parts_law();
    Ok(())
}

#[test]
fn one_crossing_is_a_c(rt: HostRuntime) -> Result<(), Fail> {
    let cross = Items::from_slice(rt.alloc(), &[(0, 0)])?;
    let shape = Shape {
        rows: 1,
        cols: 1,
        cross,
    };
    let net = parts_net(rt.alloc(), &shape)?;
    assert_eq!(rt; net.nodes.len(), 2);
    assert_eq!(rt; net.nodes[1].wires.as_slice(), [0, 1, 2].as_slice());
    assert!(rt; matches!(net.nodes[1].spec, NodeSpec::Kind(Kind::C(2))));
    Ok(())
}
