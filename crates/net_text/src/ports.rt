//! The lines of a command's symbols. The symbols are numbered by first occurrence, so a line is printed
//! at the first mark of each, and no memory is needed.
#![tactic(auto, using(crate::proofs::Walks::walk_append, crate::proofs::Walks::walk_none))]

ghost use Rattle.std.specs.Prelude.{◌≡◌, []};
ghost use Rattle.cmd_tree.specs.Tree.{marks_of, marks_in};
ghost use Rattle.cmd_tree.specs.View.{item_of};
ghost use Rattle.cmd_tree.specs.Limits.{of_part, marks_of_proc, marks_of_all};
ghost use Rattle.net_core.specs.Specs.{gives_symbol};
ghost use Rattle.di_io.specs.Printing.{prints};
ghost use Rattle.net_text.specs.NetText.{ports_text};
ghost use Rattle.net_text.specs.Mirror.Ports.{mark_line, walk_mark, walk_marks};

use cmd_text::print_mark;
use cmd_tree::{Command, Item, Mark, NameSet, Proc, Seq};
use di_io::{Printer, Sink};
use text_lines::print_numbered;

/// Prints a line for each symbol of a command.
pub fn print_ports<S: Sink>(command: &Command, printer: &mut Printer<'_, S>)
    ensures { printer.new ≡ prints printer.old
        (ports_text (gives_symbol (marks_of_all command.now.procs)) 0 command.now.names) }
{
    let mut met = 0;
    for process in command.procs.as_slice() {
        met = print_proc_ports(&command.names, process, met, printer);
    }
}

// Prints the lines of the symbols that a process has first, and answers how many were met by then.
fn print_proc_ports<S: Sink>(
    names: &NameSet,
    process: &Proc,
    met: usize,
    printer: &mut Printer<'_, S>,
) -> usize
    ensures { (printer.new, result) ≡ walk_marks names.now (printer.old, met) (marks_of_proc process.now) }
{
    let met = print_part_ports(names, &process.lead, met, printer);
    print_part_ports(names, &process.body, met, printer)
}

fn print_part_ports<S: Sink>(
    names: &NameSet,
    part: &Option<Seq>,
    met: usize,
    printer: &mut Printer<'_, S>,
) -> usize
    ensures { (printer.new, result) ≡ walk_marks names.now (printer.old, met) (of_part [] marks_of part.now) }
{
    match part {
        None => met,
        Some(seq) => print_seq_ports(names, seq, met, printer),
    }
}

#[cycle(ports)]
fn print_seq_ports<S: Sink>(
    names: &NameSet,
    seq: &Seq,
    met: usize,
    printer: &mut Printer<'_, S>,
) -> usize
    ensures { (printer.new, result) ≡ walk_marks names.now (printer.old, met) (marks_of seq.now) }
{
    let mut met = met;
    for item in seq.items.as_slice() {
        met = print_item_ports(names, item, met, printer);
    }
    met
}

#[cycle(ports)]
fn print_item_ports<S: Sink>(
    names: &NameSet,
    item: &Item,
    met: usize,
    printer: &mut Printer<'_, S>,
) -> usize
    ensures { (printer.new, result) ≡ walk_marks names.now (printer.old, met) (marks_in (item_of item.now)) }
{
    match item {
        Item::Burst(marks) => print_burst_ports(names, marks.as_slice(), met, printer),
        Item::Alt(seqs) => {
            let mut met = met;
            for seq in seqs.as_slice() {
                met = print_seq_ports(names, seq, met, printer);
            }
            met
        }
    }
}

fn print_burst_ports<S: Sink>(
    names: &NameSet,
    marks: &[Mark],
    met: usize,
    printer: &mut Printer<'_, S>,
) -> usize
    ensures { (printer.new, result) ≡ walk_marks names.now (printer.old, met) marks.now }
{
    let mut met = met;
    for mark in marks {
        met = print_mark_port(names, *mark, met, printer);
    }
    met
}

fn print_mark_port<S: Sink>(
    names: &NameSet,
    mark: Mark,
    met: usize,
    printer: &mut Printer<'_, S>,
) -> usize
    ensures { (printer.new, result) ≡ walk_mark names.now (printer.old, met) mark }
{
    if mark.sym.0 as usize != met {
        return met;
    }
    print_port(names, mark, printer);
    met + 1
}

#[tactic(auto, using(di_io::proofs::Prints::prints_twice), unfolding(crate::specs::Mirror::Ports::mark_line))]
fn print_port<S: Sink>(names: &NameSet, mark: Mark, printer: &mut Printer<'_, S>)
    ensures { printer.new ≡ prints printer.old (mark_line names.now mark) }
{
    printer.print(b"port ");
    print_mark(names, &mark, printer);
    print_numbered(b" ", mark.sym.0 as u64, printer);
}
