//! The forms `run N S` and `run N S P`.
#![tactic(auto, using(di_io::proofs::Prints::printing))]

ghost use Rattle.std.specs.Prelude.{◌≡◌, ◌⊎◌, ◌≤◌, ◌<◌, ◌^◌, ℕ, List, [], length, flat_map, false, slice_index_or, Some, IfOk, IfErr, OnOk, OnErr};
ghost use Rattle.di_io.specs.Faults.{Rose};
ghost use Rattle.di_io.specs.Written.{Gains, GainsFront};
ghost use Rattle.di_io.specs.Printing.{prints};
ghost use Rattle.net_core.specs.Runs.{start};
ghost use Rattle.net_text.specs.NetText.{mark_sign};
ghost use Rattle.replay.specs.Answers.{IsPlayable, AreDone};
ghost use Rattle.replay.specs.Probes.{views_of};
ghost use Rattle.di_top.specs.Requests.{Run as Asked};
ghost use Rattle.di_top.specs.Calls.{reading};
ghost use Rattle.di_top.specs.Ends.{Finishes, Halts};
ghost use Rattle.di_top.specs.Plans.{ran_text, figures_text, wording_of};
ghost use Rattle.di_top.specs.RunForm.{AreLoaded, IsUnread, told_of_answer, seen_text, watched};
ghost use Rattle.di_top.specs.Mirror.Replayed.{EndsReplay, IsRan, IsHalted};

use crate::keep::figures_of;
use crate::load::load_file;
use crate::names::{name_bytes, names_of};
use crate::outcome::{Numbered, Outcome, Stop};
use crate::texts::read_texts;
use cmd_tree::{MAX_NETLIST_BYTES, Name, Sym};
use di_io::{Printer, PutFault, Shelf, Sink};
use net_core::{Net, directions};
use replay::{Answer, Event, Probe, Replaying};
use std::alloc::Global;
use text_lines::print_numbered;

/// What is printed of a replay: the number of its events, the symbols that the environment saw, and the numbers of the
/// kept probe. `net` has the names of the symbols, and `outs` tells which are outputs.
#[derive(Drop)]
pub struct Ran {
    pub net: Net,
    pub outs: Vec<bool>,
    pub events: u64,
    pub seen: Vec<Sym>,
    pub figures: Option<Figures>,
}

/// The numbers of a probe by the names that its rule has for them.
#[derive(Debug, Clone, Copy, PartialEq, Eq)]
pub enum Figures {
    Count { gives: u64, passes: u64, fires: u64 },
    Peak { busy: u64, peak: u64 },
}

/// From the names of a netlist and a schedule to what is printed of the replay, and the probes that watched it. One byte
/// more than a file may have is loaded, so that a longer one is seen to be longer.
pub fn plan_run<P: Probe, F: Shelf>(
    alloc: Global,
    netlist: &str,
    schedule: &str,
    shelf: &mut F,
    probes: Vec<P>,
) -> Result<(Ran, Vec<P>), Stop>
    ensures ok { IfOk result (λ done. Finishes (Some (Asked netlist.now schedule.now (views_of P.rule P.numbers P.steady probes.items)))
        (reading F.content F.faults shelf.old shelf.new) (ran_text done.0) (views_of P.rule P.numbers P.steady done.1.items)) }
    ensures stop { IfErr result (λ stop. Halts (Some (Asked netlist.now schedule.now (views_of P.rule P.numbers P.steady probes.items)))
        (reading F.content F.faults shelf.old shelf.new) stop.outcome (wording_of stop)) }
    ensures kept { (other : List ℕ) → F.content shelf.new other ≡ F.content shelf.old other }
    ensures later { (other : List ℕ) → F.faults shelf.old other ≤ F.faults shelf.new other }
{
    let (bytes, more) = load_files(alloc, netlist, schedule, shelf)?;
    let (net, events) = read_texts(alloc, &bytes, &more)?;
    replay_events(alloc, net, &events, probes)
}

/// The first bytes of both files.
fn load_files<F: Shelf>(
    alloc: Global,
    netlist: &str,
    schedule: &str,
    shelf: &mut F,
) -> Result<(Vec<u8>, Vec<u8>), Outcome>
    ensures ok { IfOk result (λ bytes. AreLoaded (reading F.content F.faults shelf.old shelf.new) netlist.now schedule.now bytes.0.items bytes.1.items) }
    ensures stop { IfErr result (λ stop. (stop ≡ Outcome.NoMemory)
        ⊎ IsUnread (reading F.content F.faults shelf.old shelf.new) netlist.now schedule.now stop) }
    ensures kept { (other : List ℕ) → F.content shelf.new other ≡ F.content shelf.old other }
    ensures later { (other : List ℕ) → F.faults shelf.old other ≤ F.faults shelf.new other }
{
    let bytes = load_file(alloc, netlist, 1, MAX_NETLIST_BYTES + 1, shelf)?;
    let more = load_file(alloc, schedule, 2, MAX_NETLIST_BYTES + 1, shelf)?;
    Ok((bytes, more))
}

/// Replays the events under the eyes of the probes.
fn replay_events<P: Probe>(
    alloc: Global,
    net: Net,
    events: &[Event],
    probes: Vec<P>,
) -> Result<(Ran, Vec<P>), Stop>
    requires playable { IsPlayable net }
    requires few { length events.now < 2 ^ 32 }
    ensures ok { IfOk result (λ done. IsRan net events.now (views_of P.rule P.numbers P.steady probes.items) (ran_text done.0)
        (views_of P.rule P.numbers P.steady done.1.items)) }
    ensures stop { IfErr result (λ stop. (stop.outcome ≡ Outcome.NoMemory) ⊎ IsHalted net events.now stop) }
{
    let outs = directions(alloc, &net.nodes[0].spec)?;
    let mut replay = Replaying::start(alloc, net, probes, events.len() as u32)?;
    let played = play_all(&mut replay, events);
    let seen = Vec::from_slice(alloc, replay.seen())?;
    let (net, probes) = replay.finish();
    match played {
        Ok(()) => {
            let ran = Ran {
                net,
                outs,
                events: events.len() as u64,
                seen,
                figures: figures_of(&probes),
            };
            Ok((ran, probes))
        }
        Err(outcome) => Err(Stop {
            outcome,
            numbered: Numbered::Lines,
            net: Some(net),
        }),
    }
}

/// Plays the events up to the first that is not applied, whose outcome is answered.
fn play_all<P: Probe>(replay: &mut Replaying<P>, events: &[Event]) -> Result<(), Outcome>
    requires fresh { replay.old.course.events ≡ [] }
    requires room { length events.now ≤ replay.old.course.room }
    requires few { length events.now < 2 ^ 32 }
    ensures net { replay.new.course.net ≡ replay.old.course.net }
    ensures done { IfOk result (λ _. AreDone replay.old.course.net start events.now) }
    ensures applied { IfOk result (λ _. replay.new.course.events ≡ events.now) }
    ensures watched { IfOk result (λ _. views_of P.rule P.numbers P.steady replay.new.probes.items
        ≡ watched replay.old.course.net events.now (views_of P.rule P.numbers P.steady replay.old.probes.items)) }
    ensures stop { IfErr result (λ stop. (stop ≡ Outcome.NoMemory) ⊎ EndsReplay replay.old.course.net events.now stop) }
{
    for (index, event) in events.iter().enumerate() {
        match replay.play(*event) {
            Answer::Done => {}
            answer => return Err(outcome_of(index as u32 + 1, answer)),
        }
    }
    Ok(())
}

/// The outcome where the event in this line had this answer.
fn outcome_of(line: u32, answer: Answer) -> Outcome
    ensures { result ≡ told_of_answer line answer }
{
    match answer {
        Answer::Done => Outcome::Done,
        Answer::Clash { .. } | Answer::Forbidden { .. } | Answer::WrongOutput { .. } => {
            Outcome::Hazard { line, what: answer }
        }
        Answer::CannotFire { .. }
        | Answer::EmptyWire { .. }
        | Answer::NotAllowed { .. }
        | Answer::NoSuch => Outcome::NotRun { line, what: answer },
        Answer::NoMemory => Outcome::NoMemory,
    }
}

/// Puts the lines of a replay. It takes no memory. After an error a front of them was put.
#[tactic(auto, using(di_io::proofs::Prints::front_at), unfolding(di_io::specs::Printing::prints))]
pub fn put_ran<S: Sink>(ran: &Ran, sink: &mut S) -> Result<(), PutFault>
    ensures later { S.faults sink.old ≤ S.faults sink.new }
    ensures ok { OnOk result (Gains (S.written sink.old) (S.written sink.new) (ran_text ran.now)) }
    ensures failed { OnErr result (Rose (S.faults sink.old) (S.faults sink.new)) }
    ensures front { OnErr result (GainsFront (S.written sink.old) (S.written sink.new) (ran_text ran.now)) }
{
    let mut printer = Printer::new(sink);
    print_ran(ran, &mut printer);
    let (result, _sink) = printer.finish();
    result
}

fn print_ran<S: Sink>(ran: &Ran, printer: &mut Printer<'_, S>)
    ensures { printer.new ≡ prints printer.old (ran_text ran.now) }
{
    print_numbered(b"events ", ran.events, printer);
    printer.print(b"seen");
    print_seen(names_of(&ran.net), &ran.outs, &ran.seen, printer);
    printer.print(b"\n");
    print_figures(ran.figures, printer);
}

#[tactic(auto, using(di_io::proofs::Prints::prints_none, di_io::proofs::Each::each_none))]
fn print_seen<S: Sink>(names: &[Name], outs: &[bool], seen: &[Sym], printer: &mut Printer<'_, S>)
    ensures { printer.new ≡ prints printer.old (flat_map (seen_text names.now outs.now) seen.now) }
{
    for symbol in seen {
        print_symbol(names, outs, *symbol, printer);
    }
}

fn print_symbol<S: Sink>(names: &[Name], outs: &[bool], symbol: Sym, printer: &mut Printer<'_, S>)
    ensures { printer.new ≡ prints printer.old (seen_text names.now outs.now symbol) }
{
    printer.print(b" ");
    printer.print(name_bytes(names, symbol));
    printer.print(mark_sign(outs, symbol));
}

fn mark_sign(outs: &[bool], symbol: Sym) -> &'static [u8]
    ensures { result.now ≡ mark_sign (slice_index_or outs.now symbol.0 false) }
{
    match outs.get(symbol.0 as usize) {
        Some(true) => b"!",
        _ => b"?",
    }
}

fn print_figures<S: Sink>(figures: Option<Figures>, printer: &mut Printer<'_, S>)
    ensures { printer.new ≡ prints printer.old (figures_text figures) }
{
    match figures {
        None => {}
        Some(
            Figures::Count {
                gives,
                passes,
                fires,
            },
        ) => {
            print_numbered(b"gives ", gives, printer);
            print_numbered(b"passes ", passes, printer);
            print_numbered(b"fires ", fires, printer);
        }
        Some(Figures::Peak { busy, peak }) => {
            print_numbered(b"busy ", busy, printer);
            print_numbered(b"peak ", peak, printer);
        }
    }
}
