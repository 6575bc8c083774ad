//! The form `drive N SEED STEPS`.
#![tactic(auto, using(di_io::proofs::Prints::printing))]

ghost use Rattle.std.specs.Prelude.{◌≡◌, ◌≤◌, ◌⊎◌, ◌<◌, ℕ, List, IfOk, IfErr, OnOk, OnErr, Some};
ghost use Rattle.di_io.specs.Faults.{Rose};
ghost use Rattle.di_io.specs.Written.{Gains, GainsFront};
ghost use Rattle.di_io.specs.Printing.{prints};
ghost use Rattle.cmd_tree.specs.declared.limits.TheConstants.{MAX_DRIVEN_STEPS};
ghost use Rattle.replay.specs.Answers.{IsPlayable};
ghost use Rattle.di_top.specs.Requests.{Drive as Asked};
ghost use Rattle.di_top.specs.Calls.{reading};
ghost use Rattle.di_top.specs.DriveForm.{DriveGives, DrivePrints, event_line, schedule_text};
ghost use Rattle.di_top.specs.Ends.{Halts};
ghost use Rattle.di_top.specs.Plans.{wording_of};
ghost use Rattle.di_top.specs.RunForm.{names_of};
ghost use Rattle.di_top.specs.Mirror.Drives.{IsDriven, StopsDrive};

use crate::load::load_file;
use crate::names::{name_bytes, names_of};
use crate::outcome::{Numbered, Outcome, Stop};
use crate::texts::read_netlist;
use cmd_tree::{MAX_DRIVEN_STEPS, MAX_NETLIST_BYTES, Name};
use di_io::{Printer, PutFault, Shelf, Sink};
use net_core::Net;
use net_drive::{Driven, Stop as End, drive};
use replay::Event;
use std::alloc::Global;
use text_lines::{print_numbered, print_worded};

/// What is printed of a drive: its events, with the names of the symbols, which the network has.
#[derive(Drop)]
pub struct Drawn {
    pub net: Net,
    pub events: Vec<Event>,
}

/// From the name of a netlist to the schedule that is drawn on it. One byte more than a file may have is loaded, so that a
/// longer one is seen to be longer.
pub fn plan_drive<F: Shelf>(
    alloc: Global,
    netlist: &str,
    seed: u64,
    steps: u64,
    shelf: &mut F,
) -> Result<Drawn, Stop>
    ensures ok { IfOk result (λ drawn. DriveGives (reading F.content F.faults shelf.old shelf.new) netlist.now seed steps Outcome.Done
        × DrivePrints (reading F.content F.faults shelf.old shelf.new) netlist.now seed steps (schedule_text (names_of drawn.net) drawn.events.items)) }
    ensures stop { IfErr result (λ stop. Halts (Some (Asked netlist.now seed steps)) (reading F.content F.faults shelf.old shelf.new)
        stop.outcome (wording_of stop)) }
    ensures kept { (other : List ℕ) → F.content shelf.new other ≡ F.content shelf.old other }
    ensures later { (other : List ℕ) → F.faults shelf.old other ≤ F.faults shelf.new other }
{
    let steps = few_steps(steps)?;
    let bytes = load_file(alloc, netlist, 1, MAX_NETLIST_BYTES + 1, shelf)?;
    let net = read_netlist(alloc, &bytes)?;
    drive_net(alloc, net, seed, steps)
}

fn few_steps(steps: u64) -> Result<u32, Outcome>
    ensures ok { IfOk result (λ it. (it ≡ steps) × (steps ≤ MAX_DRIVEN_STEPS)) }
    ensures stop { IfErr result (λ stop. (MAX_DRIVEN_STEPS < steps) × (stop ≡ Outcome.Limit 8 steps)) }
{
    if steps > MAX_DRIVEN_STEPS as u64 {
        return Err(Outcome::Limit {
            limit: 8,
            value: steps,
        });
    }
    Ok(steps as u32)
}

/// Drives the network, and ends with the first hazard.
fn drive_net(alloc: Global, net: Net, seed: u64, steps: u32) -> Result<Drawn, Stop>
    requires playable { IsPlayable net }
    requires few { steps ≤ MAX_DRIVEN_STEPS }
    ensures ok { IfOk result (λ drawn. IsDriven net seed steps drawn) }
    ensures stop { IfErr result (λ stop. (stop.outcome ≡ Outcome.NoMemory) ⊎ StopsDrive net seed steps stop) }
{
    let Driven {
        events,
        seen: _,
        stop,
        replay,
    } = drive(alloc, net, seed, steps)?;
    let (net, _) = replay.finish();
    match stop {
        End::All | End::Quiet => Ok(Drawn { net, events }),
        End::Hazard(what) => Err(Stop {
            outcome: Outcome::Hazard {
                line: events.len() as u32 + 1,
                what,
            },
            numbered: Numbered::Steps,
            net: Some(net),
        }),
    }
}

/// Puts the lines of a drawn schedule. It takes no memory. After an error a front of them was put.
#[tactic(auto, using(di_io::proofs::Prints::front_at), unfolding(di_io::specs::Printing::prints))]
pub fn put_drawn<S: Sink>(drawn: &Drawn, sink: &mut S) -> Result<(), PutFault>
    ensures later { S.faults sink.old ≤ S.faults sink.new }
    ensures ok { OnOk result (Gains (S.written sink.old) (S.written sink.new) (schedule_text (names_of drawn.now.net) drawn.now.events.items)) }
    ensures failed { OnErr result (Rose (S.faults sink.old) (S.faults sink.new)) }
    ensures front { OnErr result (GainsFront (S.written sink.old) (S.written sink.new) (schedule_text (names_of drawn.now.net) drawn.now.events.items)) }
{
    let mut printer = Printer::new(sink);
    print_drawn(drawn, &mut printer);
    let (result, _sink) = printer.finish();
    result
}

fn print_drawn<S: Sink>(drawn: &Drawn, printer: &mut Printer<'_, S>)
    ensures { printer.new ≡ prints printer.old (schedule_text (names_of drawn.now.net) drawn.now.events.items) }
{
    print_events(names_of(&drawn.net), &drawn.events, printer);
}

#[tactic(auto, using(di_io::proofs::Prints::prints_none, di_io::proofs::Each::each_none))]
fn print_events<S: Sink>(names: &[Name], events: &[Event], printer: &mut Printer<'_, S>)
    ensures { printer.new ≡ prints printer.old (schedule_text names.now events.now) }
{
    for event in events {
        print_event(names, *event, printer);
    }
}

fn print_event<S: Sink>(names: &[Name], event: Event, printer: &mut Printer<'_, S>)
    ensures { printer.new ≡ prints printer.old (event_line names.now event) }
{
    match event {
        Event::Give(symbol) => {
            printer.print(b"give ");
            printer.print(name_bytes(names, symbol));
            printer.print(b"\n");
        }
        Event::Pass(wire) => print_numbered(b"pass ", wire as u64, printer),
        Event::Fire(component, output) => {
            print_worded(b"fire ", component as u64, printer);
            print_numbered(b" ", output as u64, printer);
        }
        Event::Unknown => {}
    }
}
