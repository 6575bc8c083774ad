//! Laws of the definitions in `specs/`: each function here does nothing, and its contract is the law.
ghost use Rattle.std.specs.Prelude.{◌≡◌, ◌↔◌, ℕ, List, Some};
ghost use Rattle.rand_pcg.specs.Lcg.{Lcg};
ghost use Rattle.cmd_tree.specs.declared.command.Command.{Command};
ghost use Rattle.net_core.specs.declared.spec.NodeSpec.TheVariants.{Cmd};
ghost use Rattle.net_core.specs.Runs.{State};
ghost use Rattle.net_core.specs.Wiring.{Circuit};
ghost use Rattle.net_core.specs.Networks.{IsSpecified};
ghost use Rattle.replay.specs.declared.event.Event.{Event};
ghost use Rattle.replay.specs.declared.event.Answer.{Answer};
ghost use Rattle.replay.specs.declared.step.Step.{Step};
ghost use Rattle.replay.specs.Answers.{IsAnswer, IsEnabled, event_of, left_by};
ghost use Rattle.replay.specs.Mirror.Steps.{step_for};
ghost use Rattle.net_drive.specs.declared.driving.Stop.{Stop};
ghost use Rattle.net_drive.specs.Changes.{Concerns};
ghost use Rattle.place_graph.specs.Points.{OneOf};
ghost use Rattle.net_drive.specs.Drawn.{Drawn, possible};

/// An event that may happen in some state is one of those that are looked through.
pub fn listed_law()
    ensures { (c : Circuit) (s : State) (e : Event) → IsEnabled c s e → OneOf (possible c) e }
{}

/// From a state and a generator one schedule is drawn.
pub fn one_drawn()
    ensures { (c : Circuit) (n : ℕ) (g : Lcg) (s : State) (es fs : List Event) (a b : Stop) → Drawn c n g s es a
        → Drawn c n g s fs b → (es ≡ fs) × (a ≡ b) }
{}

/// An event that is applied changes whether another may happen only where it concerns that one: a pass of its wire, a fire
/// of the component that took part, or, where the environment took part, a give that shares a process with its symbol.
pub fn changes_law()
    ensures { (c : Circuit) (k : Command) (s : State) (e f : Event) (p : Step) → IsSpecified c (Cmd k)
        → step_for c e ≡ Some p → IsAnswer c s e Answer.Done → (Concerns k.procs p f → ⊥)
        → (IsEnabled c s f ↔ IsEnabled c (left_by c s (event_of c e)) f) }
{}
