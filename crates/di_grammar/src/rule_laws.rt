//! Laws of the rules: each function here does nothing, and its contract is the law.
ghost use Rattle.std.specs.Prelude.{◌≡◌, ◌↔◌, List};
ghost use Rattle.cmd_tree.specs.declared.tree.Proc.{Proc};
ghost use Rattle.di_grammar.specs.declared.answer.Broken.{Broken};
ghost use Rattle.di_grammar.specs.declared.answer.Rule.{Rule};
ghost use Rattle.di_grammar.specs.declared.breach.Breach.{Breach};
ghost use Rattle.di_grammar.specs.declared.clash.Clash.{Clash};
ghost use Rattle.di_grammar.specs.EvenBursts.{KeepsBursts, BreaksBursts};
ghost use Rattle.di_grammar.specs.Alternation.{KeepsNeighbours, BreaksNeighbours, KeepsRounds, BreaksRounds};
ghost use Rattle.di_grammar.specs.Choices.{KeepsChoices, BreaksChoices};
ghost use Rattle.di_grammar.specs.Twins.{KeepsTwins, BreaksTwins};
ghost use Rattle.di_grammar.specs.Overlaps.{KeepsOverlaps, BreaksOverlaps};
ghost use Rattle.di_grammar.specs.Directions.{KeepsDirections, BreaksDirections};
ghost use Rattle.di_grammar.specs.Granted.{KeepsGranted, BreaksGranted};
ghost use Rattle.di_grammar.specs.Homes.{KeepsHomes, BreaksHomes};
ghost use Rattle.di_grammar.specs.Admitted.{Admitted, IsBroken, Keeps};

/// A rule holds exactly where no place breaks it.
pub fn rules_law()
    ensures bursts { (p : Proc) → KeepsBursts p ↔ ((c : Clash) → BreaksBursts p c → ⊥) }
    ensures neighbours { (p : Proc) → KeepsNeighbours p ↔ ((c : Clash) → BreaksNeighbours p c → ⊥) }
    ensures rounds { (p : Proc) → KeepsRounds p ↔ ((c : Clash) → BreaksRounds p c → ⊥) }
    ensures choices { (p : Proc) → KeepsChoices p ↔ ((c : Clash) → BreaksChoices p c → ⊥) }
    ensures twins { (p : Proc) → KeepsTwins p ↔ ((c : Clash) → BreaksTwins p c → ⊥) }
    ensures overlaps { (p : Proc) → KeepsOverlaps p ↔ ((c : Clash) → BreaksOverlaps p c → ⊥) }
    ensures directions { (ps : List Proc) → KeepsDirections ps ↔ ((b : Breach) → BreaksDirections ps b → ⊥) }
    ensures granted { (p : Proc) → KeepsGranted p ↔ ((c : Clash) → BreaksGranted p c → ⊥) }
    ensures homes { (ps : List Proc) → KeepsHomes ps ↔ ((b : Breach) → BreaksHomes ps b → ⊥) }
{}

/// A command is admitted exactly where no mark breaks a rule, and of a command that is not admitted one thing is told.
pub fn answers_law()
    ensures admitted { (ps : List Proc) → Admitted ps ↔ ((r : Rule) → Keeps r ps) }
    ensures broken { (ps : List Proc) (a : Broken) → IsBroken ps a → Admitted ps → ⊥ }
    ensures one { (ps : List Proc) (a : Broken) (b : Broken) → IsBroken ps a → IsBroken ps b → a ≡ b }
{}
