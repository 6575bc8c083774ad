//! Laws of the sums: each function here does nothing, and its contract is the law.
ghost use Rattle.std.specs.Prelude.{ℕ, ◌*◌, ◌<◌, ◌≤◌, ◌^◌, List, length};
ghost use Rattle.basic_kinds.specs.Shapes.{IsShape};
ghost use Rattle.basic_kinds.specs.Sums.{two_way_sum, wait_sum};
ghost use Rattle.cmd_tree.specs.declared.command.Command.{Command};
ghost use Rattle.di_grammar.specs.Admitted.{Admitted};
ghost use Rattle.place_graph.specs.Sums.{command_sum};
ghost use Rattle.count_sum.specs.Counts.{all_sorts};

/// A DW of n rows, m columns and c crossings is at most 8 * c * n * m components in the basis two.
pub fn wait_law()
    ensures { (n m : ℕ) (cross : List (ℕ × ℕ)) → IsShape n m cross
        → all_sorts (wait_sum n m cross) ≤ 8 * length cross * n * m }
{}

/// 64 bits count the components of all sorts of an admitted command in the basis two.
pub fn command_law()
    ensures { (c : Command) → Admitted c.procs → all_sorts (command_sum two_way_sum c.procs (length c.names)) < 2 ^ 64 }
{}
