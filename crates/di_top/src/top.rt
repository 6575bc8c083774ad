ghost use Rattle.std.specs.Prelude.{◌≡◌, ◌≤◌, ℕ, List};
ghost use Rattle.replay.specs.Probes.{views_of};
ghost use Rattle.di_top.specs.Requests.{asked};
ghost use Rattle.di_top.specs.Calls.{reading, change};
ghost use Rattle.di_top.specs.Promised.{Promise};
ghost use Rattle.di_top.specs.Ends.{Spoke};
ghost use Rattle.di_top.specs.Plans.{counting};

use crate::outcome::{Numbered, Outcome};
use crate::plan::{decide, put_plan};
use crate::say::say_outcome;
use crate::words::read_words;
use cmd_text::canonical_texts_are_read;
use cmd_tree::Name;
use di_io::{Shelf, Sink};
use replay::Probe;
use std::alloc::Global;

/// Does what the words after the program's name ask for: `compile wide F` puts the netlist of the command in the file F on
/// `out`, `check F` what it counts, `count wide F` and `count two F` how many components of each sort a network of it has,
/// `rules F` whether the list of traces in the file F keeps the rules of
/// delay-insensitivity, `run N S` what is seen where the schedule S is replayed on the netlist N, and `drive N SEED STEPS`
/// the schedule that is drawn on it.
///
/// `run N S count` and `run N S peak` also put the numbers of a probe: the first of those handed in with the rule 1, or 2.
/// Every other probe is dropped before the first event, and in every other form all are dropped at once. With `Done` the
/// probe is handed back alone, with the numbers that were put. With any other outcome, and in every other form, none is.
///
/// All memory is taken before the first put. With `Done`, `out` gained the whole text and `say`
/// nothing. With `WriteFault`, `out` gained a front of the text. With any other outcome `out`
/// gained nothing, and `say` the line of the outcome. After any outcome the next call may succeed.
pub fn run<F: Shelf, O: Sink, E: Sink>(
    alloc: Global,
    words: &[String],
    shelf: &mut F,
    out: &mut O,
    say: &mut E,
    probes: Vec<Box<dyn Probe>>,
) -> (Outcome, Vec<Box<dyn Probe>>)
    ensures promise { Promise (asked words.now (views_of rule numbers steady probes.items)) (reading F.content F.faults shelf.old shelf.new)
        (change O.written O.faults out.old out.new) (change E.written E.faults say.old say.new)
        (views_of rule numbers steady result.1.items) result.0 }
    ensures kept { (other : List ℕ) → F.content shelf.new other ≡ F.content shelf.old other }
    ensures later { (other : List ℕ) → F.faults shelf.old other ≤ F.faults shelf.new other }
    ensures out_later { O.faults out.old ≤ O.faults out.new }
    ensures say_later { E.faults say.old ≤ E.faults say.new }
{
    answer(alloc, words, shelf, out, say, probes)
}

/// The same with probes of any type.
fn answer<P: Probe, F: Shelf, O: Sink, E: Sink>(
    alloc: Global,
    words: &[String],
    shelf: &mut F,
    out: &mut O,
    say: &mut E,
    probes: Vec<P>,
) -> (Outcome, Vec<P>)
    ensures promise { Promise (asked words.now (views_of P.rule P.numbers P.steady probes.items)) (reading F.content F.faults shelf.old shelf.new)
        (change O.written O.faults out.old out.new) (change E.written E.faults say.old say.new)
        (views_of P.rule P.numbers P.steady result.1.items) result.0 }
    ensures kept { (other : List ℕ) → F.content shelf.new other ≡ F.content shelf.old other }
    ensures later { (other : List ℕ) → F.faults shelf.old other ≤ F.faults shelf.new other }
    ensures out_later { O.faults out.old ≤ O.faults out.new }
    ensures say_later { E.faults say.old ≤ E.faults say.new }
{
    // A law, for the proof alone.
    canonical_texts_are_read();
    let mut probes = probes;
    let Some(task) = read_words(words, &mut probes) else {
        return (
            end(Outcome::Usage, Numbered::Lines, &[], say),
            Vec::new(alloc),
        );
    };
    match decide(alloc, task, shelf, probes) {
        Err(stop) => (
            end(stop.outcome, stop.numbered, stop.names(), say),
            Vec::new(alloc),
        ),
        Ok((plan, kept)) => match put_plan(&plan, out) {
            Ok(()) => (Outcome::Done, kept),
            Err(_) => (
                end(Outcome::WriteFault, Numbered::Lines, &[], say),
                Vec::new(alloc),
            ),
        },
    }
}

/// Says the line of this outcome, by what its number counts and with these names of symbols. It is the outcome of the call, unless its line is not said.
fn end<E: Sink>(stop: Outcome, numbered: Numbered, names: &[Name], say: &mut E) -> Outcome
    ensures spoke { Spoke stop (counting numbered names.now) (change E.written E.faults say.old say.new) result }
    ensures later { E.faults say.old ≤ E.faults say.new }
{
    match say_outcome(stop, numbered, names, say) {
        Ok(()) => stop,
        Err(_) => Outcome::WriteFault,
    }
}
