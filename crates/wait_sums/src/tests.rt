use crate::{columns_law, connected_law, crossings_law, parts_law, shape_law, small_law};
use std::test::Fail;

#[test]
fn the_laws_do_nothing() -> Result<(), Fail> {
    parts_law();
    crossings_law();
    connected_law();
    columns_law();
    small_law();
    shape_law();
    Ok(())
}
