//! The form `rules F`.
#![tactic(auto, using(di_io::proofs::Prints::printing))]

ghost use Rattle.std.specs.Prelude.{◌≡◌, ◌≤◌, ◌⊎◌, ℕ, List, flat_map, IfOk, IfErr, OnOk, OnErr, Some};
ghost use Rattle.di_io.specs.Faults.{Rose};
ghost use Rattle.di_io.specs.Written.{Gains, GainsFront};
ghost use Rattle.di_io.specs.Printing.{prints};
ghost use Rattle.di_top.specs.Requests.{Rules as Asked};
ghost use Rattle.di_top.specs.Calls.{reading};
ghost use Rattle.di_top.specs.RulesForm.{ListStops, IsJudged, symbol_text, present_text, broken_line, verdict_text};
ghost use Rattle.di_top.specs.Outcomes.{Gives, Prints};
ghost use Rattle.di_top.specs.Plans.{text_of, IsStop};

use crate::load::load_file;
use crate::names::name_bytes;
use crate::outcome::Outcome;
use crate::plan::Plan;
use cmd_text::NameTable;
use cmd_tree::{MAX_FILE_BYTES, Sym};
use di_io::{Printer, PutFault, Shelf, Sink};
use std::alloc::Global;
use text_lines::print_worded;
use trace_laws::{BrokenRule, TraceList, check_rules, read_traces};

/// Where a list of traces breaks the rules of delay-insensitivity, if it does, and the names of its symbols.
#[derive(Drop)]
pub struct Verdict {
    pub names: NameTable,
    pub broken: Option<BrokenRule>,
}

/// From the name of a file to what is said of its list of traces. One byte more than a file may have is loaded,
/// so that a longer one is seen to be longer.
pub fn plan_rules<F: Shelf>(alloc: Global, file: &str, shelf: &mut F) -> Result<Plan, Outcome>
    ensures ok { IfOk result (λ plan. Gives (Some (Asked file.now)) (reading F.content F.faults shelf.old shelf.new) Outcome.Done
        × Prints (Some (Asked file.now)) (reading F.content F.faults shelf.old shelf.new) (text_of plan)) }
    ensures stop { IfErr result (λ stop. IsStop stop
        × Gives (Some (Asked file.now)) (reading F.content F.faults shelf.old shelf.new) stop) }
    ensures kept { (other : List ℕ) → F.content shelf.new other ≡ F.content shelf.old other }
    ensures later { (other : List ℕ) → F.faults shelf.old other ≤ F.faults shelf.new other }
{
    let bytes = load_file(alloc, file, 1, MAX_FILE_BYTES + 1, shelf)?;
    let verdict = judge(alloc, &bytes)?;
    Ok(Plan::Rules(verdict))
}

/// Reads a list of traces, and checks its rules. Too many bytes stop it first, then the first faulty line.
fn judge(alloc: Global, bytes: &[u8]) -> Result<Verdict, Outcome>
    ensures ok { IfOk result (λ verdict. IsJudged bytes.now (verdict_text verdict.names verdict.broken)) }
    ensures stop { IfErr result (λ stop. (stop ≡ Outcome.NoMemory) ⊎ ListStops bytes.now stop) }
{
    if bytes.len() > MAX_FILE_BYTES {
        return Err(Outcome::Limit {
            limit: 1,
            value: bytes.len() as u64,
        });
    }
    let TraceList {
        names,
        dirs,
        traces,
    } = read_traces(alloc, bytes)?;
    let broken = check_rules(alloc, traces.as_slice(), dirs.as_slice())?;
    Ok(Verdict { names, broken })
}

/// Puts the line of a verdict. It takes no memory. After an error a front of it was put.
#[tactic(auto, using(di_io::proofs::Prints::front_at), unfolding(di_io::specs::Printing::prints))]
pub fn put_verdict<S: Sink>(verdict: &Verdict, sink: &mut S) -> Result<(), PutFault>
    ensures later { S.faults sink.old ≤ S.faults sink.new }
    ensures ok { OnOk result (Gains (S.written sink.old) (S.written sink.new) (verdict_text verdict.now.names verdict.now.broken)) }
    ensures failed { OnErr result (Rose (S.faults sink.old) (S.faults sink.new)) }
    ensures front { OnErr result (GainsFront (S.written sink.old) (S.written sink.new) (verdict_text verdict.now.names verdict.now.broken)) }
{
    let mut printer = Printer::new(sink);
    print_verdict(verdict, &mut printer);
    let (result, _sink) = printer.finish();
    result
}

fn print_verdict<S: Sink>(verdict: &Verdict, printer: &mut Printer<'_, S>)
    ensures { printer.new ≡ prints printer.old (verdict_text verdict.now.names verdict.now.broken) }
{
    match &verdict.broken {
        None => printer.print(b"rules hold\n"),
        Some(broken) => print_broken(&verdict.names, broken, printer),
    }
}

fn print_broken<S: Sink>(names: &NameTable, broken: &BrokenRule, printer: &mut Printer<'_, S>)
    ensures { printer.new ≡ prints printer.old (broken_line names.now broken.now.rule broken.now.present broken.now.trace.items) }
{
    print_worded(b"broken U", broken.rule as u64, printer);
    printer.print(presence(broken.present));
    print_symbols(names, broken.trace.as_slice(), printer);
    printer.print(b"\n");
}

fn presence(present: bool) -> &'static [u8]
    ensures { result.now ≡ present_text present }
{
    if present { b" present" } else { b" missing" }
}

#[tactic(auto, using(di_io::proofs::Prints::prints_none, di_io::proofs::Each::each_none))]
fn print_symbols<S: Sink>(names: &NameTable, symbols: &[Sym], printer: &mut Printer<'_, S>)
    ensures { printer.new ≡ prints printer.old (flat_map (symbol_text names.now) symbols.now) }
{
    for symbol in symbols {
        print_symbol(names, *symbol, printer);
    }
}

fn print_symbol<S: Sink>(names: &NameTable, symbol: Sym, printer: &mut Printer<'_, S>)
    ensures { printer.new ≡ prints printer.old (symbol_text names.now symbol) }
{
    printer.print(b" ");
    printer.print(name_bytes(names.as_slice(), symbol));
}
