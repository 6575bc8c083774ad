//! The forms `count wide F` and `count two F`.
#![tactic(auto, using(di_io::proofs::Prints::printing))]

ghost use Rattle.std.specs.Prelude.{◌≡◌, ◌≤◌, ℕ, List, IfOk, IfErr, OnOk, OnErr, Some};
ghost use Rattle.di_io.specs.Faults.{Rose};
ghost use Rattle.di_io.specs.Written.{Gains, GainsFront};
ghost use Rattle.di_io.specs.Printing.{prints};
ghost use Rattle.count_sum.specs.Counts.{of_sort};
ghost use Rattle.di_top.specs.Requests.{Count as Asked};
ghost use Rattle.di_top.specs.Calls.{reading};
ghost use Rattle.di_top.specs.CountForm.{sums_text};
ghost use Rattle.di_top.specs.Outcomes.{Gives, Prints};
ghost use Rattle.di_top.specs.Plans.{text_of, IsStop};

use crate::command::load_command;
use crate::outcome::Outcome;
use crate::plan::Plan;
use count_sum::{Basis, Counts, count};
use di_io::{Printer, PutFault, Shelf, Sink};
use std::alloc::Global;
use text_lines::print_numbered;

/// How many components of each sort a network has, and how many in all.
#[derive(Debug, Clone, Copy, PartialEq, Eq)]
pub struct Sums {
    pub sorts: Counts,
    pub total: u64,
}

/// From the name of a command file to the sums of its command in the basis, where it is admitted.
pub fn plan_count<F: Shelf>(
    alloc: Global,
    basis: Basis,
    file: &str,
    shelf: &mut F,
) -> Result<Plan, Outcome>
    ensures ok { IfOk result (λ plan. Gives (Some (Asked basis file.now)) (reading F.content F.faults shelf.old shelf.new) Outcome.Done
        × Prints (Some (Asked basis file.now)) (reading F.content F.faults shelf.old shelf.new) (text_of plan)) }
    ensures stop { IfErr result (λ stop. IsStop stop
        × Gives (Some (Asked basis file.now)) (reading F.content F.faults shelf.old shelf.new) stop) }
    ensures kept { (other : List ℕ) → F.content shelf.new other ≡ F.content shelf.old other }
    ensures later { (other : List ℕ) → F.faults shelf.old other ≤ F.faults shelf.new other }
{
    let command = load_command(alloc, file, shelf)?;
    let sorts = count(alloc, &command, basis)?;
    let total = sorts.total();
    Ok(Plan::Count(Sums { sorts, total }))
}

/// Puts a line for each sort, and one for all. It takes no memory. After an error a front of them was put.
#[tactic(auto, using(di_io::proofs::Prints::front_at), unfolding(di_io::specs::Printing::prints))]
pub fn put_sums<S: Sink>(sums: &Sums, sink: &mut S) -> Result<(), PutFault>
    ensures later { S.faults sink.old ≤ S.faults sink.new }
    ensures ok { OnOk result (Gains (S.written sink.old) (S.written sink.new) (sums_text (of_sort sums.now.sorts) sums.now.total)) }
    ensures failed { OnErr result (Rose (S.faults sink.old) (S.faults sink.new)) }
    ensures front { OnErr result (GainsFront (S.written sink.old) (S.written sink.new) (sums_text (of_sort sums.now.sorts) sums.now.total)) }
{
    let mut printer = Printer::new(sink);
    print_sums(sums, &mut printer);
    let (result, _sink) = printer.finish();
    result
}

fn print_sums<S: Sink>(sums: &Sums, printer: &mut Printer<'_, S>)
    ensures { printer.new ≡ prints printer.old (sums_text (of_sort sums.now.sorts) sums.now.total) }
{
    print_numbered(b"WIRE ", sums.sorts.wire, printer);
    print_numbered(b"IWIRE ", sums.sorts.iwire, printer);
    print_numbered(b"SOURCE ", sums.sorts.source, printer);
    print_numbered(b"SINK ", sums.sorts.sink, printer);
    print_numbered(b"FORK ", sums.sorts.fork, printer);
    print_numbered(b"C ", sums.sorts.c, printer);
    print_numbered(b"MERGE ", sums.sorts.merge, printer);
    print_numbered(b"TOGGLE ", sums.sorts.toggle, printer);
    print_numbered(b"DW ", sums.sorts.dw, printer);
    print_numbered(b"SEQ ", sums.sorts.seq, printer);
    print_numbered(b"total ", sums.total, printer);
}
