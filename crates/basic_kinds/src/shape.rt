ghost use Rattle.basic_kinds.specs.Shapes.{IsShape, IsShape-prop};

use sqlite_items::Items;

/// Rows, columns and the crossings `(row, column)` of a decision wait, both counted from 0.
/// The ghost field says what every shape keeps: the crossings rise, row first, lie in range, and each
/// row and each column has one.
#[derive(Drop)]
pub struct Shape {
    pub rows: u32,
    pub cols: u32,
    pub cross: Items<(u32, u32)>,
    ghost whole: { IsShape rows cols cross } by { IsShape-prop rows cols cross },
}
