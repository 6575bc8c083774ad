//! In which style the network of a process is built.
ghost use Rattle.std.specs.Prelude.{◌≡◌, ◌<◌, true};
ghost use Rattle.std.specs.List.{list_any};
ghost use Rattle.place_graph.specs.Style.{entries, is_exit, has_entry, one_entry_each, in_rounds, style_of};
ghost use Rattle.place_graph.specs.Mirror.InTurn.{act_after, are_in_turn};

use crate::wait_graph::{Act, Cross, Start, WaitGraph};

/// How the network of a process keeps track of where the process is.
#[derive(Debug, Clone, Copy, PartialEq, Eq)]
pub enum SplitStyle {
    /// There is one wait, and nothing to keep track of.
    OneWait,
    /// One burst is taken at this many waits in turn.
    Rounds(u32),
    /// A token stands at the wait.
    Token,
}

/// The style of a graph. It takes no memory.
pub fn style(g: &WaitGraph) -> SplitStyle
    ensures { result ≡ style_of g.now }
{
    if g.waits == 1 {
        SplitStyle::OneWait
    } else if in_rounds(g) {
        SplitStyle::Rounds(g.waits)
    } else {
        SplitStyle::Token
    }
}

fn in_rounds(g: &WaitGraph) -> bool
    ensures { result ≡ in_rounds g.now }
{
    g.bursts.len() == 1
        && g.waits.is_power_of_two()
        && g.crosses.len() == g.waits as usize
        && one_entry_each(g.acts.len(), g.crosses.as_slice())
        && has_entry(g.start, g.acts.as_slice(), g.crosses.as_slice())
}

// Where a process runs in rounds, its crossings lead to the acts in turn, and one pass sees it.
fn one_entry_each(acts: usize, crosses: &[Cross]) -> bool
    ensures { result ≡ one_entry_each acts crosses.now }
{
    in_turn(acts, crosses) || each_has_one_entry(acts, crosses)
}

/// Whether the crossings lead to all acts in turn, from any one on.
fn in_turn(acts: usize, crosses: &[Cross]) -> bool
    ensures { result ≡ true → one_entry_each acts crosses.now ≡ true }
{
    let [first, ..] = crosses else {
        return false;
    };
    let first = first.act as usize;
    if crosses.len() != acts {
        return false;
    }
    if first >= acts {
        return false;
    }
    are_in_turn(acts, first, crosses)
}

/// Whether the crossings lead to the acts in turn, from this one on.
fn are_in_turn(acts: usize, first: usize, crosses: &[Cross]) -> bool
    requires { first < acts }
    ensures { result ≡ are_in_turn acts first crosses.now }
{
    let mut next = first;
    for cross in crosses {
        if cross.act as usize != next {
            return false;
        }
        next = act_after(acts, next);
    }
    true
}

fn act_after(acts: usize, act: usize) -> usize
    requires { act < acts }
    ensures is { result ≡ act_after acts act }
    ensures there { result < acts }
{
    if act + 1 == acts { 0 } else { act + 1 }
}

fn each_has_one_entry(acts: usize, crosses: &[Cross]) -> bool
    ensures { result ≡ one_entry_each acts crosses.now }
{
    for act in 0..acts {
        if entries(act, crosses) != 1 {
            return false;
        }
    }
    true
}

fn entries(act: usize, crosses: &[Cross]) -> usize
    ensures { result ≡ entries act crosses.now }
{
    let mut count = 0;
    for cross in crosses {
        if cross.act as usize == act {
            count += 1;
        }
    }
    count
}

fn has_entry(start: Start, acts: &[Act], crosses: &[Cross]) -> bool
    ensures { result ≡ has_entry start acts.now crosses.now }
{
    match start {
        Start::Wait(wait) => is_left_for(wait, acts),
        Start::Act(act) => entries(act as usize, crosses) > 0,
    }
}

fn is_left_for(wait: u32, acts: &[Act]) -> bool
    ensures { result ≡ list_any (λ y. is_exit wait y.exit) acts.now }
{
    for act in acts {
        if is_exit(wait, act.exit) {
            return true;
        }
    }
    false
}

fn is_exit(wait: u32, exit: Option<u32>) -> bool
    ensures { result ≡ is_exit wait exit }
{
    match exit {
        None => false,
        Some(exit) => exit == wait,
    }
}
