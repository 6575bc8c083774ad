//! The canonical text of a command, printed and put.
#![tactic(auto, using(di_io::proofs::Prints::printing))]

ghost use Rattle.std.specs.Prelude.{◌≡◌, ◌≤◌, ◌++◌, [], Some, codes, slice_index_or, IfOk, OnOk, OnErr};
ghost use Rattle.cmd_tree.specs.View.{item_of, seqs_of};
ghost use Rattle.di_io.specs.Faults.{Rose};
ghost use Rattle.di_io.specs.Written.{Gains, GainsFront};
ghost use Rattle.di_io.specs.Printing.{prints};
ghost use Rattle.cmd_text.specs.Canonical.{sign, mark_text, marks_led, burst_text, seq_text, item_text, seqs_text, bare_text, body_text, star_text, parts_text, proc_text, procs_text};

use cmd_tree::{Command, Dir, Item, Mark, NameSet, Proc, Seq, Sym};
use di_io::{NoMemory, Printer, PutFault, Sink};
use std::alloc::{AllocError, Global};

/// Puts the canonical text of a command: one line without blanks. It takes no memory.
///
/// `Failed` where the sink failed: then a front of the text was put.
#[tactic(auto, using(di_io::proofs::Prints::front_at), unfolding(di_io::specs::Printing::prints))]
pub fn put_command<S: Sink>(command: &Command, sink: &mut S) -> Result<(), PutFault>
    ensures later { S.faults sink.old ≤ S.faults sink.new }
    ensures ok { OnOk result (Gains (S.written sink.old) (S.written sink.new)
        (procs_text command.now.names command.now.procs)) }
    ensures failed { OnErr result (Rose (S.faults sink.old) (S.faults sink.new)) }
    ensures front { OnErr result (GainsFront (S.written sink.old) (S.written sink.new)
        (procs_text command.now.names command.now.procs)) }
{
    let mut printer = Printer::new(sink);
    print_command(command, &mut printer);
    let (result, _sink) = printer.finish();
    result
}

/// Prints the canonical text of a command: one line without blanks.
pub fn print_command<S: Sink>(command: &Command, printer: &mut Printer<'_, S>)
    ensures { printer.new ≡ prints printer.old (procs_text command.now.names command.now.procs) }
{
    print_procs(&command.names, command.procs.as_slice(), printer);
}

#[tactic(auto, using(di_io::proofs::Prints::printing, crate::proofs::Joined::joined))]
fn print_procs<S: Sink>(names: &NameSet, procs: &[Proc], printer: &mut Printer<'_, S>)
    ensures { printer.new ≡ prints printer.old (procs_text names.now procs.now) }
{
    let mut led: &[u8] = b"";
    for process in procs {
        printer.print(led);
        print_proc(names, process, printer);
        led = b"||";
    }
}

fn print_proc<S: Sink>(names: &NameSet, process: &Proc, printer: &mut Printer<'_, S>)
    ensures { printer.new ≡ prints printer.old (proc_text names.now process.now) }
{
    printer.print(b"pref");
    match (&process.lead, &process.body) {
        (None, None) => {}
        (None, Some(body)) => print_star(names, body, printer),
        (Some(lead), None) => print_lead(names, lead, printer),
        (Some(lead), Some(body)) => print_lead_and_star(names, lead, body, printer),
    }
}

fn print_lead<S: Sink>(names: &NameSet, lead: &Seq, printer: &mut Printer<'_, S>)
    ensures { printer.new ≡ prints printer.old (codes "[" ++ seq_text names.now lead.now ++ codes "]") }
{
    printer.print(b"[");
    print_seq(names, lead, printer);
    printer.print(b"]");
}

fn print_lead_and_star<S: Sink>(
    names: &NameSet,
    lead: &Seq,
    body: &Seq,
    printer: &mut Printer<'_, S>,
)
    ensures { printer.new ≡ prints printer.old
        (codes "[" ++ seq_text names.now lead.now ++ codes ";" ++ star_text names.now body.now ++ codes "]") }
{
    printer.print(b"[");
    print_seq(names, lead, printer);
    printer.print(b";");
    print_star(names, body, printer);
    printer.print(b"]");
}

fn print_star<S: Sink>(names: &NameSet, body: &Seq, printer: &mut Printer<'_, S>)
    ensures { printer.new ≡ prints printer.old (star_text names.now body.now) }
{
    printer.print(b"*[");
    print_body(names, body, printer);
    printer.print(b"]");
}

// A body that is one choice alone has no round brackets.
fn print_body<S: Sink>(names: &NameSet, body: &Seq, printer: &mut Printer<'_, S>)
    ensures { printer.new ≡ prints printer.old (body_text names.now body.now) }
{
    match body.items.as_slice() {
        [] => {}
        [item] => print_bare(names, item, printer),
        _ => print_seq(names, body, printer),
    }
}

fn print_bare<S: Sink>(names: &NameSet, item: &Item, printer: &mut Printer<'_, S>)
    ensures { printer.new ≡ prints printer.old (bare_text names.now (item_of item.now)) }
{
    match item {
        Item::Burst(marks) => print_burst(names, marks.as_slice(), printer),
        Item::Alt(seqs) => print_seqs(names, seqs.as_slice(), printer),
    }
}

#[tactic(auto, using(di_io::proofs::Prints::printing, crate::proofs::Joined::joined))]
fn print_seqs<S: Sink>(names: &NameSet, seqs: &[Seq], printer: &mut Printer<'_, S>)
    ensures { printer.new ≡ prints printer.old (seqs_text names.now (seqs_of seqs.now)) }
{
    let mut led: &[u8] = b"";
    for seq in seqs {
        printer.print(led);
        print_seq(names, seq, printer);
        led = b"|";
    }
}

#[cycle(print)]
#[tactic(auto, using(di_io::proofs::Prints::printing, crate::proofs::Joined::joined))]
fn print_seq<S: Sink>(names: &NameSet, seq: &Seq, printer: &mut Printer<'_, S>)
    ensures { printer.new ≡ prints printer.old (seq_text names.now seq.now) }
{
    let mut led: &[u8] = b"";
    for item in seq.items.as_slice() {
        printer.print(led);
        print_item(names, item, printer);
        led = b";";
    }
}

#[cycle(print)]
#[tactic(auto, using(di_io::proofs::Prints::printing, crate::proofs::Joined::joined))]
fn print_item<S: Sink>(names: &NameSet, item: &Item, printer: &mut Printer<'_, S>)
    ensures { printer.new ≡ prints printer.old (item_text names.now (item_of item.now)) }
{
    match item {
        Item::Burst(marks) => print_burst(names, marks.as_slice(), printer),
        Item::Alt(seqs) => {
            printer.print(b"(");
            let mut led: &[u8] = b"";
            for seq in seqs.as_slice() {
                printer.print(led);
                print_seq(names, seq, printer);
                led = b"|";
            }
            printer.print(b")");
        }
    }
}

fn print_burst<S: Sink>(names: &NameSet, marks: &[Mark], printer: &mut Printer<'_, S>)
    ensures { printer.new ≡ prints printer.old (burst_text names.now marks.now) }
{
    match marks {
        [] => {}
        [mark] => print_mark(names, mark, printer),
        _ => {
            printer.print(b"(");
            print_marks(names, marks, printer);
            printer.print(b")");
        }
    }
}

#[tactic(auto, using(di_io::proofs::Prints::printing, crate::proofs::Joined::joined))]
fn print_marks<S: Sink>(names: &NameSet, marks: &[Mark], printer: &mut Printer<'_, S>)
    ensures { printer.new ≡ prints printer.old (marks_led names.now [] marks.now) }
{
    let mut led: &[u8] = b"";
    for mark in marks {
        printer.print(led);
        print_mark(names, mark, printer);
        led = b"||";
    }
}

/// Prints a mark: the name of its symbol and its sign.
pub fn print_mark<S: Sink>(names: &NameSet, mark: &Mark, printer: &mut Printer<'_, S>)
    ensures { printer.new ≡ prints printer.old (mark_text names.now mark.now) }
{
    printer.print(name_bytes(names, mark.sym));
    printer.print(sign_bytes(mark.dir));
}

fn name_bytes(names: &NameSet, sym: Sym) -> &[u8]
    ensures { result.now ≡ slice_index_or names.now sym.0 [] }
{
    match names.get(sym.0 as usize) {
        Some(name) => name.bytes(),
        None => &[],
    }
}

fn sign_bytes(dir: Dir) -> &'static [u8]
    ensures { result.now ≡ sign dir }
{
    match dir {
        Dir::Input => b"?",
        Dir::Output => b"!",
    }
}

/// The canonical text of a command: one line without blanks.
pub fn write_command(alloc: Global, command: &Command) -> Result<Vec<u8>, NoMemory>
    ensures { IfOk result (λ text. text.items ≡ procs_text command.now.names command.now.procs) }
{
    let mut sink = VecSink {
        bytes: Vec::new(alloc),
        refusals: 0,
    };
    match put_command(command, &mut sink) {
        Ok(()) => Ok(sink.bytes),
        Err(PutFault::Failed) => Err(AllocError),
    }
}

// Bytes in memory, as a sink. A put fails exactly where memory is refused.
#[derive(Drop)]
struct VecSink {
    bytes: Vec<u8>,
    refusals: u64,
}

impl Sink for VecSink {
    ghost written = { λ sink. Some sink.bytes.items };

    ghost faults = { λ sink. sink.refusals };

    fn put(&mut self, bytes: &[u8]) -> Result<(), PutFault> {
        match self.bytes.extend_from_slice(bytes) {
            Ok(()) => Ok(()),
            Err(_) => {
                self.refusals = self.refusals.saturating_add(1);
                Err(PutFault::Failed)
            }
        }
    }
}
