//! Laws of the definitions in `specs/`: each function here does nothing, and its contract is the law.
ghost use Rattle.std.specs.Prelude.{List};
ghost use Rattle.std.specs.List.{AllByRecursion};
ghost use Rattle.cmd_tree.specs.declared.tree.Proc.{Proc};
ghost use Rattle.cmd_tree.specs.Limits.{IsProc};
ghost use Rattle.di_grammar.specs.Lists.{Each};
ghost use Rattle.di_grammar.specs.Admitted.{Admitted};
ghost use Rattle.place_graph.specs.Points.{legs};
ghost use Rattle.cmd_machine.specs.Lawful.{Lawful};

/// Along the legs of each process of an admitted command, grants too, a trace tells where it leads.
pub fn admitted_is_lawful()
    ensures { (ps : List Proc) → AllByRecursion IsProc ps → Admitted ps → Each (λ p. Lawful (legs p)) ps }
{}
