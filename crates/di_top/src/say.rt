//! The line that is said of an outcome.
#![tactic(auto, using(di_io::proofs::Prints::printing))]

ghost use Rattle.std.specs.Prelude.{◌≡◌, ◌≤◌, ◌++◌, ℕ, List, codes, OnOk, OnErr};
ghost use Rattle.di_io.specs.Faults.{Rose};
ghost use Rattle.di_io.specs.Written.{Gains, GainsFront};
ghost use Rattle.di_io.specs.Printing.{prints};
ghost use Rattle.di_top.specs.Say.{say_line, why_line, text_line, expand_line, grammar_line, traces_line, net_line, schedule_line, answer_line, name_at, limit_line, allowed};
ghost use Rattle.di_top.specs.Plans.{counting};

use crate::names::name_bytes;
use crate::outcome::{Numbered, Outcome, Why};
use cmd_expand::ExpandRefusal;
use cmd_text::Refusal;
use cmd_tree::{
    MAX_BIG, MAX_COMPONENTS, MAX_DRIVEN_STEPS, MAX_FILE_BYTES, MAX_NETLIST_BYTES,
    MAX_OPEN_BRACKETS, MAX_PLACES, MAX_PROCESSES, MAX_SYMBOLS, Name, Sym,
};
use di_grammar::Broken;
use di_io::{Printer, PutFault, Sink};
use net_text::NetRefusal;
use replay::{Answer, ScheduleRefusal};
use text_lines::{print_numbered, print_worded};
use trace_laws::TraceRefusal;

/// Puts the line of an outcome, by what its number counts and with these names of symbols; `Done` has none. After an error a front of it was put.
#[tactic(auto, using(di_io::proofs::Prints::front_at), unfolding(di_io::specs::Printing::prints))]
pub fn say_outcome<S: Sink>(
    outcome: Outcome,
    numbered: Numbered,
    names: &[Name],
    sink: &mut S,
) -> Result<(), PutFault>
    ensures later { S.faults sink.old ≤ S.faults sink.new }
    ensures ok { OnOk result (Gains (S.written sink.old) (S.written sink.new) (say_line (counting numbered names.now) outcome)) }
    ensures failed { OnErr result (Rose (S.faults sink.old) (S.faults sink.new)) }
    ensures front { OnErr result (GainsFront (S.written sink.old) (S.written sink.new) (say_line (counting numbered names.now) outcome)) }
{
    let mut printer = Printer::new(sink);
    print_outcome(outcome, numbered, names, &mut printer);
    let (result, _sink) = printer.finish();
    result
}

fn print_outcome<S: Sink>(
    outcome: Outcome,
    numbered: Numbered,
    names: &[Name],
    printer: &mut Printer<'_, S>,
)
    ensures { printer.new ≡ prints printer.old (say_line (counting numbered names.now) outcome) }
{
    match outcome {
        Outcome::Done => {}
        Outcome::Refused(why) => print_why(why, printer),
        Outcome::Usage => printer.print(
            b"usage: dic compile wide|two F, check F, count wide|two F, run N S [count|peak], drive N SEED STEPS, rules F, big N\n",
        ),
        Outcome::ReadFault { file } => print_numbered(b"read fault ", file as u64, printer),
        Outcome::WriteFault => printer.print(b"write fault\n"),
        Outcome::NoMemory => printer.print(b"no memory\n"),
        Outcome::Limit { limit, value } => print_limit(limit, value, printer),
        Outcome::Hazard { line, what } => {
            printer.print(b"hazard ");
            print_worded(word_of(numbered), line as u64, printer);
            print_answer(what, names, printer);
        }
        Outcome::NotRun { line, what } => {
            printer.print(b"no run ");
            print_worded(word_of(numbered), line as u64, printer);
            print_answer(what, names, printer);
        }
    }
}

/// The word for what the number of an event counts.
fn word_of(numbered: Numbered) -> &'static [u8]
    ensures { (names : List (List ℕ)) → result.now ≡ (counting numbered names).counts }
{
    match numbered {
        Numbered::Lines => b"line ",
        Numbered::Steps => b"step ",
    }
}

// What is printed of an event that was not applied. A port is counted from 0 in the answer, and from 1 in the line.
fn print_answer<S: Sink>(answer: Answer, names: &[Name], printer: &mut Printer<'_, S>)
    ensures { printer.new ≡ prints printer.old (answer_line names.now answer) }
{
    match answer {
        Answer::Clash { wire } => print_numbered(b" clash wire ", wire as u64, printer),
        Answer::Forbidden { component, port } => {
            print_worded(b" forbidden component ", component as u64, printer);
            print_numbered(b" port ", port as u64 + 1, printer);
        }
        Answer::WrongOutput { sym } => print_named(b" wrong output ", names, sym, printer),
        Answer::CannotFire { component } => {
            print_numbered(b" cannot fire ", component as u64, printer)
        }
        Answer::EmptyWire { wire } => print_numbered(b" empty wire ", wire as u64, printer),
        Answer::NotAllowed { sym } => print_named(b" not allowed ", names, sym, printer),
        Answer::NoSuch => printer.print(b" no such\n"),
        Answer::Done | Answer::NoMemory => printer.print(b"\n"),
    }
}

fn print_named<S: Sink>(words: &[u8], names: &[Name], symbol: Sym, printer: &mut Printer<'_, S>)
    ensures { printer.new ≡ prints printer.old (words.now ++ name_at names.now symbol ++ codes "\n") }
{
    printer.print(words);
    printer.print(name_bytes(names, symbol));
    printer.print(b"\n");
}

fn print_why<S: Sink>(why: Why, printer: &mut Printer<'_, S>)
    ensures { printer.new ≡ prints printer.old (why_line why) }
{
    match why {
        Why::Text(refusal) => print_refusal(refusal, printer),
        Why::Expand(refusal) => print_expand(refusal, printer),
        Why::NotThisForm => printer.print(b"refused form\n"),
        Why::Grammar(broken) => print_broken(broken, printer),
        Why::Traces(refusal) => print_traces(refusal, printer),
        Why::Net(refusal) => print_net(refusal, printer),
        Why::Schedule(refusal) => print_schedule(refusal, printer),
    }
}

fn print_refusal<S: Sink>(refusal: Refusal, printer: &mut Printer<'_, S>)
    ensures { printer.new ≡ prints printer.old (text_line refusal) }
{
    match refusal {
        Refusal::BadByte { at } => print_numbered(b"refused byte at ", at as u64, printer),
        Refusal::BadToken { at } => print_numbered(b"refused token at ", at as u64, printer),
        Refusal::Unexpected { at } => print_numbered(b"refused text at ", at as u64, printer),
        Refusal::NameTooLong { at } => print_numbered(b"refused name at ", at as u64, printer),
        Refusal::TooDeep { at } => print_numbered(b"refused depth at ", at as u64, printer),
        Refusal::NoMemory => printer.print(b"no memory\n"),
    }
}

// What is past a limit has a line of its own, and comes here no more than want of memory.
fn print_expand<S: Sink>(refusal: ExpandRefusal, printer: &mut Printer<'_, S>)
    ensures { printer.new ≡ prints printer.old (expand_line refusal) }
{
    match refusal {
        ExpandRefusal::UnknownName { at } => {
            print_numbered(b"refused unknown name at ", at as u64, printer)
        }
        ExpandRefusal::DefinedTwice { at } => {
            print_numbered(b"refused second definition at ", at as u64, printer)
        }
        ExpandRefusal::UsedBeforeDefined { at } => {
            print_numbered(b"refused early use at ", at as u64, printer)
        }
        ExpandRefusal::RenamedTwice { at } => {
            print_numbered(b"refused second renaming at ", at as u64, printer)
        }
        ExpandRefusal::RenameUnknown { at } => {
            print_numbered(b"refused renaming of no symbol at ", at as u64, printer)
        }
        ExpandRefusal::RenameMerges { at } => {
            print_numbered(b"refused merging at ", at as u64, printer)
        }
        ExpandRefusal::TooManySymbols { .. }
        | ExpandRefusal::TooManyProcs { .. }
        | ExpandRefusal::TooManyPlaces { .. }
        | ExpandRefusal::NoMemory => {}
    }
}

fn print_broken<S: Sink>(broken: Broken, printer: &mut Printer<'_, S>)
    ensures { printer.new ≡ prints printer.old (grammar_line broken) }
{
    print_worded(b"refused G", broken.rule as u64, printer);
    print_worded(b" process ", broken.process as u64, printer);
    print_worded(b" place ", broken.place as u64, printer);
    print_worded(b" against process ", broken.other_process as u64, printer);
    print_numbered(b" place ", broken.other as u64, printer);
}

fn print_traces<S: Sink>(refusal: TraceRefusal, printer: &mut Printer<'_, S>)
    ensures { printer.new ≡ prints printer.old (traces_line refusal) }
{
    match refusal {
        TraceRefusal::BadLine { line } => {
            print_numbered(b"refused traces line ", line as u64, printer)
        }
        TraceRefusal::NoMemory => printer.print(b"no memory\n"),
    }
}

fn print_net<S: Sink>(refusal: NetRefusal, printer: &mut Printer<'_, S>)
    ensures { printer.new ≡ prints printer.old (net_line refusal) }
{
    match refusal {
        NetRefusal::BadLine { line } => print_numbered(b"refused net line ", line as u64, printer),
        NetRefusal::SpecRefused { rule } => {
            print_numbered(b"refused net spec G", rule as u64, printer)
        }
        NetRefusal::TooManyComponents { line } => {
            print_numbered(b"refused net components line ", line as u64, printer)
        }
        NetRefusal::Truncated { line } => {
            print_numbered(b"refused net cut line ", line as u64, printer)
        }
        NetRefusal::OpenPort { wire } => print_numbered(b"refused net wire ", wire as u64, printer),
        NetRefusal::NoMemory => printer.print(b"no memory\n"),
    }
}

fn print_schedule<S: Sink>(refusal: ScheduleRefusal, printer: &mut Printer<'_, S>)
    ensures { printer.new ≡ prints printer.old (schedule_line refusal) }
{
    match refusal {
        ScheduleRefusal::BadLine { line } => {
            print_numbered(b"refused schedule line ", line as u64, printer)
        }
        ScheduleRefusal::NoMemory => printer.print(b"no memory\n"),
    }
}

fn print_limit<S: Sink>(limit: u8, value: u64, printer: &mut Printer<'_, S>)
    ensures { printer.new ≡ prints printer.old (limit_line limit value) }
{
    print_worded(b"limit L", limit as u64, printer);
    print_worded(b": found ", value, printer);
    print_numbered(b", allowed ", allowed(limit), printer);
}

/// What each limit allows, from the first on.
const LIMITS: [u64; 9] = [
    MAX_FILE_BYTES as u64,
    MAX_OPEN_BRACKETS as u64,
    MAX_SYMBOLS as u64,
    MAX_PROCESSES as u64,
    MAX_PLACES as u64,
    MAX_COMPONENTS as u64,
    MAX_NETLIST_BYTES as u64,
    MAX_DRIVEN_STEPS as u64,
    MAX_BIG as u64,
];

/// What a limit allows; 0 of a number that no limit has.
#[tactic(auto, unfolding(crate::specs::Say::allowed))]
fn allowed(limit: u8) -> u64
    ensures { result ≡ allowed limit }
{
    let index = (limit as usize).saturating_sub(1);
    match LIMITS.get(index) {
        Some(most) => *most,
        None => 0,
    }
}
