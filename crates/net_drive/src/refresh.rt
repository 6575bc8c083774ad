//! Events that are tested again: whether they may happen.
ghost use Rattle.std.specs.Prelude.{◌≡◌, ◌≢◌, ◌⊎◌, ℕ, ◌+◌, ◌-◌, ◌<◌, ◌≤◌, false, List, length, slice_index_or, map};
ghost use Rattle.cmd_tree.specs.declared.command.Command.{Command};
ghost use Rattle.net_core.specs.Runs.{State};
ghost use Rattle.net_core.specs.Networks.{IsSpecified};
ghost use Rattle.net_core.specs.declared.spec.NodeSpec.TheVariants.{Cmd};
ghost use Rattle.cmd_machine.specs.Mirror.Walkers.{row_at};
ghost use Rattle.place_graph.specs.Points.{OneOf};
ghost use Rattle.replay.specs.Answers.{IsPlayable, IsAnswer, event_of, left_by, state_of};
ghost use Rattle.replay.specs.declared.event.Answer.{Answer};
ghost use Rattle.net_drive.specs.Drawn.{widest};
ghost use Rattle.net_drive.specs.Mirror.Plans.{IsPlan};
ghost use Rattle.net_drive.specs.Mirror.Refreshing.{IsRight, AllRight, fresh, AreTested};

use crate::index::BitIndex;
use crate::plan::{Plan, Sharing};
use cmd_machine::users::row_of;
use replay::{Event, Probe, Replaying};

/// What is known of the events: a bit for each says whether it may happen, and for each give there is the step after which
/// it was tested last.
#[derive(Drop)]
pub struct Known {
    pub index: BitIndex,
    pub tested: Vec<u32>,
}

/// Tests the event of this number again.
fn refresh<P: Probe>(
    replay: &mut Replaying<P>,
    events: &[Event],
    index: &mut BitIndex,
    number: usize,
)
    requires { length index.old ≡ length events.now }
    ensures right { IsRight replay.old.course.net (state_of replay.old.course) events.now index.new number }
    ensures others { (i : ℕ) → i ≢ number → slice_index_or index.new i false ≡ slice_index_or index.old i false }
    ensures length { length index.new ≡ length index.old }
    ensures course { replay.new.course ≡ replay.old.course }
    ensures probes { replay.new.probes ≡ replay.old.probes }
    ensures asked { replay.new.asked ≤ replay.old.asked + 1 }
{
    if number < events.len() {
        let on = replay.enabled(events[number]);
        index.set(number, on);
    }
}

/// Tests the events of these numbers again.
pub fn refresh_range<P: Probe>(
    replay: &mut Replaying<P>,
    events: &[Event],
    index: &mut BitIndex,
    from: usize,
    to: usize,
)
    requires { length index.old ≡ length events.now }
    ensures right { (i : ℕ) → from ≤ i → i < to → IsRight replay.old.course.net (state_of replay.old.course) events.now index.new i }
    ensures others { (i : ℕ) → (i < from) ⊎ (to ≤ i) → slice_index_or index.new i false ≡ slice_index_or index.old i false }
    ensures length { length index.new ≡ length index.old }
    ensures course { replay.new.course ≡ replay.old.course }
    ensures probes { replay.new.probes ≡ replay.old.probes }
    ensures asked { replay.new.asked ≤ replay.old.asked + (to - from) }
{
    for number in from..to {
        refresh(replay, events, index, number);
    }
}

// Tests the give of this number again, if it was not yet tested after this step.
fn refresh_give<P: Probe>(
    replay: &mut Replaying<P>,
    events: &[Event],
    known: &mut Known,
    step: u32,
    number: usize,
)
    requires { length known.old.index ≡ length events.now }
    ensures tested { AreTested replay.old.course.net (state_of replay.old.course) events.now known.old.index known.new.index
        known.old.tested.items known.new.tested.items step }
    ensures done { number < length known.old.tested.items → slice_index_or known.new.tested.items number 0 ≡ step }
    ensures course { replay.new.course ≡ replay.old.course }
    ensures probes { replay.new.probes ≡ replay.old.probes }
    ensures asked { replay.new.asked + fresh step known.new.tested.items ≤ replay.old.asked + fresh step known.old.tested.items }
{
    if number < known.tested.len() && known.tested[number] != step {
        known.tested[number] = step;
        refresh(replay, events, &mut known.index, number);
    }
}

fn refresh_gives<P: Probe>(
    replay: &mut Replaying<P>,
    events: &[Event],
    known: &mut Known,
    step: u32,
    numbers: &[usize],
)
    requires { length known.old.index ≡ length events.now }
    ensures tested { AreTested replay.old.course.net (state_of replay.old.course) events.now known.old.index known.new.index
        known.old.tested.items known.new.tested.items step }
    ensures done { (i : ℕ) → OneOf numbers.now i → i < length known.old.tested.items → slice_index_or known.new.tested.items i 0 ≡ step }
    ensures course { replay.new.course ≡ replay.old.course }
    ensures probes { replay.new.probes ≡ replay.old.probes }
    ensures asked { replay.new.asked + fresh step known.new.tested.items ≤ replay.old.asked + fresh step known.old.tested.items }
{
    for number in numbers {
        refresh_give(replay, events, known, step, *number);
    }
}

// Tests the gives of the processes that have the symbol again, each once.
fn refresh_sharing<P: Probe>(
    replay: &mut Replaying<P>,
    plan: &Plan,
    known: &mut Known,
    step: u32,
    symbol: u32,
)
    requires { length known.old.index ≡ length plan.now.events.items }
    ensures tested { AreTested replay.old.course.net (state_of replay.old.course) plan.now.events.items known.old.index
        known.new.index known.old.tested.items known.new.tested.items step }
    ensures done { (u i : ℕ) → OneOf (row_at (map (λ row. row.items) plan.now.sharing.users.items) symbol) u
        → OneOf (row_at (map (λ row. row.items) plan.now.sharing.gives.items) u) i → i < length known.old.tested.items
        → slice_index_or known.new.tested.items i 0 ≡ step }
    ensures course { replay.new.course ≡ replay.old.course }
    ensures probes { replay.new.probes ≡ replay.old.probes }
    ensures asked { replay.new.asked + fresh step known.new.tested.items ≤ replay.old.asked + fresh step known.old.tested.items }
{
    for user in row_of(&plan.sharing.users, symbol as usize) {
        let numbers = row_of(&plan.sharing.gives, *user);
        refresh_gives(replay, &plan.events, known, step, numbers);
    }
}

/// Tests the events again that may have come to happen, or ceased to, by the event that was applied at this step.
pub fn update<P: Probe>(
    replay: &mut Replaying<P>,
    plan: &Plan,
    known: &mut Known,
    step: u32,
    event: Event,
)
    requires playable { IsPlayable replay.old.course.net }
    requires plan { (k : Command) → IsSpecified replay.old.course.net (Cmd k) → IsPlan replay.old.course.net k.procs plan.now }
    requires index { length known.old.index ≡ length plan.now.events.items }
    requires tested { length known.old.tested.items ≡ plan.now.gives }
    ensures right { (s : State) → AllRight replay.old.course.net s plan.now.events.items known.old.index
        → IsAnswer replay.old.course.net s event Answer.Done
        → state_of replay.old.course ≡ left_by replay.old.course.net s (event_of replay.old.course.net event)
        → ((i : ℕ) → slice_index_or known.old.tested.items i 0 < step)
        → AllRight replay.old.course.net (state_of replay.old.course) plan.now.events.items known.new.index }
    ensures tested { length known.new.tested.items ≡ plan.now.gives }
    ensures low { ((i : ℕ) → slice_index_or known.old.tested.items i 0 < step)
        → (i : ℕ) → slice_index_or known.new.tested.items i 0 ≤ step }
    ensures length { length known.new.index ≡ length known.old.index }
    ensures course { replay.new.course ≡ replay.old.course }
    ensures probes { replay.new.probes ≡ replay.old.probes }
    ensures asked { replay.new.asked ≤ replay.old.asked + (1 + widest replay.old.course.net) }
{
    let Some(done) = replay.step(event) else {
        return;
    };
    let pass = plan.gives + done.wire as usize;
    refresh(replay, &plan.events, &mut known.index, pass);
    if done.node == 0 {
        refresh_sharing(replay, plan, known, step, done.port);
    } else {
        refresh_fires(replay, plan, &mut known.index, done.node as usize);
    }
}

// Tests the fires of the component again.
fn refresh_fires<P: Probe>(
    replay: &mut Replaying<P>,
    plan: &Plan,
    index: &mut BitIndex,
    component: usize,
)
    requires length { length index.old ≡ length plan.now.events.items }
    requires some { 0 < component }
    ensures right { (i : ℕ) → slice_index_or plan.now.fires.items (component - 1) 0 ≤ i
        → i < slice_index_or plan.now.fires.items component 0
        → IsRight replay.old.course.net (state_of replay.old.course) plan.now.events.items index.new i }
    ensures others { (i : ℕ) → (i < slice_index_or plan.now.fires.items (component - 1) 0)
        ⊎ (slice_index_or plan.now.fires.items component 0 ≤ i)
        → slice_index_or index.new i false ≡ slice_index_or index.old i false }
    ensures length { length index.new ≡ length index.old }
    ensures course { replay.new.course ≡ replay.old.course }
    ensures probes { replay.new.probes ≡ replay.old.probes }
    ensures asked { replay.new.asked ≤ replay.old.asked
        + (slice_index_or plan.now.fires.items component 0 - slice_index_or plan.now.fires.items (component - 1) 0) }
{
    if component < plan.fires.len() {
        let from = plan.fires[component - 1];
        refresh_range(replay, &plan.events, index, from, plan.fires[component]);
    }
}
