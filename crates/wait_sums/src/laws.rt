//! Each function here does nothing, and its contract is the law.
ghost use Rattle.std.specs.Prelude.{◌≡◌, ℕ, ◌<◌, ◌≤◌, List, length, IsTrue};
ghost use Rattle.basic_kinds.specs.Shapes.{IsShape, is_rising};
ghost use Rattle.basic_kinds.specs.ShapeParts.{exchanged, local_part, part_at, part_columns, part_names, part_rows};
ghost use Rattle.basic_kinds.specs.Sorts.{Sort, Waits};
ghost use Rattle.basic_kinds.specs.Sums.{layer_sum, so_many, sum_over, wait_sum};
ghost use Rattle.wait_sums.specs.WaitSums.{IsConnected, IsWithin, own_sum, part_alone};

/// The sum of a DW is that of its parts, each by itself.
pub fn parts_law()
    ensures { (rows cols : ℕ) (cross : List (ℕ × ℕ)) (s : Sort) → IsWithin rows cols cross
        → wait_sum rows cols cross s
        ≡ sum_over (λ i. part_alone rows cols (part_at rows cross i) s) (part_names rows cross) }
{}

/// Lines without a crossing do not count.
pub fn crossings_law()
    ensures { (rows cols : ℕ) (cross : List (ℕ × ℕ)) (s : Sort) → IsWithin rows cols cross
        → wait_sum rows cols cross s ≡ own_sum rows cols cross s }
{}

/// The sum of a connected DW of more than two rows is that of its layer by rows.
pub fn connected_law()
    ensures { (rows cols : ℕ) (cross : List (ℕ × ℕ)) (s : Sort) → IsShape rows cols cross → IsConnected rows cross → 2 < rows
        → wait_sum rows cols cross s ≡ layer_sum wait_sum rows cols cross s }
{}

/// The sum of a connected DW of at most two rows and more than two columns is that of its layer by columns.
pub fn columns_law()
    ensures { (rows cols : ℕ) (cross : List (ℕ × ℕ)) (s : Sort) → IsShape rows cols cross → IsConnected rows cross
        → rows ≤ 2 → 2 < cols → wait_sum rows cols cross s ≡ layer_sum wait_sum cols rows (exchanged cols cross) s }
{}

/// A connected DW of at most two rows and two columns, and of more than one crossing, stands for itself.
pub fn small_law()
    ensures { (rows cols : ℕ) (cross : List (ℕ × ℕ)) (s : Sort) → IsShape rows cols cross → IsConnected rows cross
        → rows ≤ 2 → cols ≤ 2 → 2 ≤ length cross → wait_sum rows cols cross s ≡ so_many 1 Waits s }
{}

/// Rising crossings with only the lines that they meet, numbered anew in their order, are a shape.
pub fn shape_law()
    ensures { (rows cols : ℕ) (cross : List (ℕ × ℕ)) → IsWithin rows cols cross → IsTrue (is_rising cross) → 0 < length cross
        → IsShape (length (part_rows rows cross)) (length (part_columns cols cross)) (local_part cross) }
{}
