//! Machines of each kind: ports that may come, and ports that are refused.
ghost use Rattle.basic_kinds.specs.Kinds.{IsWellFormed};

use basic_kinds::{Kind, Machine, Shape};
use sqlite_items::Items;
use std::alloc::Global;
use std::process::Abort;
use std::test::Fail;

/// Offers the ports in order to a machine of the kind, each with the answer that is wanted.
fn offers(rt: &impl Abort, alloc: Global, kind: &Kind, ports: &[(u32, bool)]) -> Result<(), Fail>
    requires { IsWellFormed kind.now }
{
    let mut machine = Machine::new(alloc, kind)?;
    for (port, answer) in ports {
        assert_eq!(rt; machine.can(*port), *answer);
        assert_eq!(rt; machine.step(*port), *answer);
    }
    Ok(())
}

// A refused port changes nothing: what may come after it is what could come before it.
#[test]
fn machines_of_one_port_at_a_time(rt: HostRuntime) -> Result<(), Fail> {
    let rows: [(Kind, &[(u32, bool)]); 6] = [
        (
            Kind::Wire,
            &[
                (1, false),
                (0, true),
                (0, false),
                (1, true),
                (2, false),
                (0, true),
            ],
        ),
        (
            Kind::Iwire,
            &[
                (0, false),
                (1, true),
                (1, false),
                (0, true),
                (2, false),
                (1, true),
            ],
        ),
        (Kind::Source, &[(1, false), (0, true), (0, false)]),
        (Kind::Sink, &[(1, false), (0, true), (0, false)]),
        (
            Kind::Merge(3),
            &[
                (3, false),
                (2, true),
                (0, false),
                (3, true),
                (4, false),
                (0, true),
            ],
        ),
        (
            Kind::Toggle,
            &[
                (1, false),
                (0, true),
                (2, false),
                (1, true),
                (0, true),
                (1, false),
                (2, true),
            ],
        ),
    ];
    for (kind, ports) in &rows {
        offers(&rt, rt.alloc(), kind, ports)?;
    }
    Ok(())
}

#[test]
fn machines_of_rounds_and_requests(rt: HostRuntime) -> Result<(), Fail> {
    let rows: [(Kind, &[(u32, bool)]); 3] = [
        (
            Kind::Fork(2),
            &[
                (1, false),
                (0, true),
                (2, true),
                (2, false),
                (0, false),
                (1, true),
                (0, true),
                (2, true),
            ],
        ),
        (
            Kind::C(2),
            &[
                (2, false),
                (1, true),
                (1, false),
                (2, false),
                (0, true),
                (2, true),
                (3, false),
                (0, true),
            ],
        ),
        (
            Kind::Seq(2),
            &[
                (3, false),
                (0, true),
                (3, false),
                (2, true),
                (2, false),
                (4, false),
                (3, true),
                (5, false),
                (1, true),
            ],
        ),
    ];
    for (kind, ports) in &rows {
        offers(&rt, rt.alloc(), kind, ports)?;
    }
    Ok(())
}

// Rows are the ports 0 and 1, columns 2 and 3; row 0 crosses column 0 alone. Outputs are from 4 on.
#[test]
fn machine_of_a_decision_wait(rt: HostRuntime) -> Result<(), Fail> {
    let cross = Items::from_vec(vec![in rt.alloc(); (0, 0), (1, 0), (1, 1)]?);
    let shape = Shape {
        rows: 2,
        cols: 2,
        cross,
    };
    let ports = [
        (4, false),
        (3, true),
        (2, false),
        (0, false),
        (1, true),
        (5, false),
        (7, false),
        (6, true),
        (0, true),
        (3, false),
        (2, true),
        (4, true),
    ];
    offers(&rt, rt.alloc(), &Kind::Dw(shape), &ports)
}
