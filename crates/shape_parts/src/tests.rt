use crate::{labels, parts};
use std::process::Abort;
use std::test::Fail;

#[test]
fn labels_of_lines(rt: HostRuntime) -> Result<(), Fail> {
    // Two rows that share the column 0, a row that shares none, and a column without a crossing.
    let found = labels(rt.alloc(), 3, 3, &[(0, 0), (1, 0), (2, 2)])?;
    assert_eq!(rt; found.as_slice(), [0, 0, 2, 0, 4, 2].as_slice());
    Ok(())
}

#[test]
fn labels_by_columns_alone(rt: HostRuntime) -> Result<(), Fail> {
    // The rows 1 and 2 are joined first, and then through the row 3 to the row 0.
    let found = labels(
        rt.alloc(),
        4,
        3,
        &[(0, 2), (1, 0), (2, 0), (2, 1), (3, 1), (3, 2)],
    )?;
    assert_eq!(rt; found.as_slice(), [0, 0, 0, 0, 0, 0, 0].as_slice());
    Ok(())
}

#[test]
fn parts_of_a_shape(rt: HostRuntime) -> Result<(), Fail> {
    let found = parts(rt.alloc(), 4, 4, &[(0, 1), (1, 3), (2, 1), (2, 2), (3, 3)])?;
    assert_eq!(rt; found.len(), 2);
    let first = &found[0];
    assert_eq!(rt; first.name, 0);
    assert_eq!(rt; first.rows.as_slice(), [0, 2].as_slice());
    assert_eq!(rt; first.columns.as_slice(), [1, 2].as_slice());
    assert_eq!(rt; first.places.as_slice(), [0, 2, 3].as_slice());
    assert_eq!(rt; first.cross.as_slice(), [(0, 0), (1, 0), (1, 1)].as_slice());
    let second = &found[1];
    assert_eq!(rt; second.name, 1);
    assert_eq!(rt; second.rows.as_slice(), [1, 3].as_slice());
    assert_eq!(rt; second.columns.as_slice(), [3].as_slice());
    assert_eq!(rt; second.places.as_slice(), [1, 4].as_slice());
    assert_eq!(rt; second.cross.as_slice(), [(0, 0), (1, 0)].as_slice());
    Ok(())
}

#[test]
fn parts_of_no_crossings(rt: HostRuntime) -> Result<(), Fail> {
    let found = parts(rt.alloc(), 2, 1, &[])?;
    assert_eq!(rt; found.len(), 0);
    Ok(())
}
