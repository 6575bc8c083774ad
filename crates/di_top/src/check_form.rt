//! The form `check F`.
#![tactic(auto, using(di_io::proofs::Prints::printing))]

ghost use Rattle.std.specs.Prelude.{◌≡◌, ◌≤◌, ℕ, List, IfOk, IfErr, OnOk, OnErr, Some};
ghost use Rattle.di_io.specs.Faults.{Rose};
ghost use Rattle.di_io.specs.Written.{Gains, GainsFront};
ghost use Rattle.di_io.specs.Printing.{prints};
ghost use Rattle.di_top.specs.Requests.{Check as Asked};
ghost use Rattle.di_top.specs.Calls.{reading};
ghost use Rattle.di_top.specs.CheckForm.{counts_of, counts_text};
ghost use Rattle.di_top.specs.Outcomes.{Gives, Prints};
ghost use Rattle.di_top.specs.Plans.{text_of, IsStop};

use crate::command::load_command;
use crate::outcome::Outcome;
use crate::plan::Plan;
use cmd_tree::{Command, places_in_all};
use di_io::{Printer, PutFault, Shelf, Sink};
use std::alloc::Global;
use text_lines::print_numbered;

/// How many processes, symbols and symbol places a command has.
#[derive(Debug, Clone, Copy, PartialEq, Eq)]
pub struct Counts {
    pub processes: u64,
    pub symbols: u64,
    pub places: u64,
}

impl Counts {
    pub fn of(command: &Command) -> Counts
        ensures { result ≡ counts_of command.now.names command.now.procs }
    {
        Counts {
            processes: command.procs.len() as u64,
            symbols: command.names.len() as u64,
            places: places_in_all(command.procs.as_slice()) as u64,
        }
    }
}

/// From the name of a command file to what its command counts, where it is admitted.
pub fn plan_check<F: Shelf>(alloc: Global, file: &str, shelf: &mut F) -> Result<Plan, Outcome>
    ensures ok { IfOk result (λ plan. Gives (Some (Asked file.now)) (reading F.content F.faults shelf.old shelf.new) Outcome.Done
        × Prints (Some (Asked file.now)) (reading F.content F.faults shelf.old shelf.new) (text_of plan)) }
    ensures stop { IfErr result (λ stop. IsStop stop
        × Gives (Some (Asked file.now)) (reading F.content F.faults shelf.old shelf.new) stop) }
    ensures kept { (other : List ℕ) → F.content shelf.new other ≡ F.content shelf.old other }
    ensures later { (other : List ℕ) → F.faults shelf.old other ≤ F.faults shelf.new other }
{
    let command = load_command(alloc, file, shelf)?;
    Ok(Plan::Check(Counts::of(&command)))
}

/// Puts the lines of an admitted command. It takes no memory. After an error a front of them was put.
#[tactic(auto, using(di_io::proofs::Prints::front_at), unfolding(di_io::specs::Printing::prints))]
pub fn put_counts<S: Sink>(counts: Counts, sink: &mut S) -> Result<(), PutFault>
    ensures later { S.faults sink.old ≤ S.faults sink.new }
    ensures ok { OnOk result (Gains (S.written sink.old) (S.written sink.new) (counts_text counts)) }
    ensures failed { OnErr result (Rose (S.faults sink.old) (S.faults sink.new)) }
    ensures front { OnErr result (GainsFront (S.written sink.old) (S.written sink.new) (counts_text counts)) }
{
    let mut printer = Printer::new(sink);
    print_counts(counts, &mut printer);
    let (result, _sink) = printer.finish();
    result
}

fn print_counts<S: Sink>(counts: Counts, printer: &mut Printer<'_, S>)
    ensures { printer.new ≡ prints printer.old (counts_text counts) }
{
    printer.print(b"admitted\n");
    print_numbered(b"processes ", counts.processes, printer);
    print_numbered(b"symbols ", counts.symbols, printer);
    print_numbered(b"places ", counts.places, printer);
}
