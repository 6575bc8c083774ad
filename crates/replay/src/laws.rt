//! Laws of the definitions in `specs/`: each function here does nothing, and its contract is the law.
ghost use Rattle.std.specs.Prelude.{◌≡◌, ℕ, List};
ghost use Rattle.net_core.specs.Runs.{State, start, Run, after_all};
ghost use Rattle.net_core.specs.Runs as runs;
ghost use Rattle.net_core.specs.Networks.{fabric};
ghost use Rattle.net_core.specs.Wiring.{Circuit};
ghost use Rattle.replay.specs.declared.event.Answer.{Answer};
ghost use Rattle.replay.specs.declared.event.Event.{Event};
ghost use Rattle.replay.specs.Answers.{IsAnswer, AreDone, AreNamed, state_after};
ghost use Rattle.replay.specs.ScheduleText.{IsSchedule, IsFaultyLine};

/// In each state of a network an event has one answer.
pub fn one_answer()
    ensures { (c : Circuit) (s : State) (e : Event) (a b : Answer) → IsAnswer c s e a → IsAnswer c s e b → a ≡ b }
{}

/// A schedule whose events are all done is a run of the events that it names, to the same state; and a run of these is such
/// a schedule.
pub fn replays_are_runs()
    ensures run { (c : Circuit) (es : List Event) → AreDone c start es → (evs : List runs.Event) × AreNamed c es evs
        × Run (fabric c) start evs × (after_all (fabric c) start evs ≡ state_after c start es) }
    ensures done { (c : Circuit) (es : List Event) (evs : List runs.Event) → AreNamed c es evs → Run (fabric c) start evs
        → AreDone c start es }
{}

/// A text is that of one schedule, or has one first faulty line.
pub fn one_schedule()
    ensures events { (names : List (List ℕ)) (bytes : List ℕ) (es fs : List Event) → IsSchedule names es bytes
        → IsSchedule names fs bytes → es ≡ fs }
    ensures line { (names : List (List ℕ)) (bytes : List ℕ) (n m : ℕ) → IsFaultyLine names bytes n
        → IsFaultyLine names bytes m → n ≡ m }
    ensures either { (names : List (List ℕ)) (bytes : List ℕ) (es : List Event) (n : ℕ) → IsSchedule names es bytes
        → IsFaultyLine names bytes n → ⊥ }
{}
