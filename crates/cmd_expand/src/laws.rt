//! A law of what files mean: the function does nothing, and its contract is the law.
ghost use Rattle.std.specs.Prelude.{◌≡◌, ℕ, List, [], ◌∷◌, map};
ghost use Rattle.cmd_tree.specs.declared.tree.Proc.{Proc};
ghost use Rattle.cmd_text.specs.declared.file.Sentence.{Sentence};
ghost use Rattle.cmd_text.specs.declared.file.Factor.TheVariants.{Own};
ghost use Rattle.cmd_expand.specs.Files.{IsFile};
ghost use Rattle.cmd_expand.specs.Expansion.{expansion};
ghost use Rattle.cmd_expand.specs.Alone.{as_written};

/// A file without definitions means its own command: the processes and the names as they were read, where they keep
/// the limits of commands.
pub fn own_command_law()
    ensures { (names : List (List ℕ)) (main : Sentence) (procs : List Proc) → IsFile names (main ∷ [])
        → main.factors ≡ map Own procs → expansion names (main ∷ []) ≡ as_written names procs }
{}
