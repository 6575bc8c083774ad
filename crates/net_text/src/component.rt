//! The line of a component.
#![tactic(auto, using(di_io::proofs::Prints::printing))]

ghost use Rattle.std.specs.Prelude.{◌≡◌, flat_map};
ghost use Rattle.di_io.specs.Printing.{prints};
ghost use Rattle.net_text.specs.NetText.{number_text, crossing_text, shape_text, kind_text, component_line, node_line};
ghost use Rattle.net_text.specs.Mirror.Printable.{IsPrintable};

use basic_kinds::{Kind, Shape, ports};
use di_io::{Printer, Sink};
use net_core::{Node, NodeSpec};
use text_lines::print_worded;

/// Prints the line of a node; a command has none.
pub fn print_node<S: Sink>(node: &Node, printer: &mut Printer<'_, S>)
    requires { IsPrintable node.now }
    ensures { printer.new ≡ prints printer.old (node_line node.now) }
{
    if let NodeSpec::Kind(kind) = &node.spec {
        let (inputs, _) = ports(kind);
        let (inputs, outputs) = node.wires.as_slice().split_at(inputs as usize);
        print_component(kind, inputs, outputs, printer);
    }
}

fn print_component<S: Sink>(
    kind: &Kind,
    inputs: &[u32],
    outputs: &[u32],
    printer: &mut Printer<'_, S>,
)
    ensures { printer.new ≡ prints printer.old (component_line kind.now inputs.now outputs.now) }
{
    print_kind(kind, printer);
    print_numbers(inputs, printer);
    printer.print(b" >");
    print_numbers(outputs, printer);
    printer.print(b"\n");
}

fn print_kind<S: Sink>(kind: &Kind, printer: &mut Printer<'_, S>)
    ensures { printer.new ≡ prints printer.old (kind_text kind.now) }
{
    match kind {
        Kind::Wire => printer.print(b"WIRE"),
        Kind::Iwire => printer.print(b"IWIRE"),
        Kind::Source => printer.print(b"SOURCE"),
        Kind::Sink => printer.print(b"SINK"),
        Kind::Fork(_) => printer.print(b"FORK"),
        Kind::C(_) => printer.print(b"C"),
        Kind::Merge(_) => printer.print(b"MERGE"),
        Kind::Toggle => printer.print(b"TOGGLE"),
        Kind::Dw(shape) => print_shape(shape, printer),
        Kind::Seq(_) => printer.print(b"SEQ"),
    }
}

fn print_shape<S: Sink>(shape: &Shape, printer: &mut Printer<'_, S>)
    ensures { printer.new ≡ prints printer.old (shape_text shape.now) }
{
    print_worded(b"DW ", shape.rows as u64, printer);
    print_worded(b" ", shape.cols as u64, printer);
    print_crossings(shape.cross.as_slice(), printer);
    printer.print(b" :");
}

#[tactic(auto, using(di_io::proofs::Prints::prints_none, di_io::proofs::Each::each_none))]
fn print_crossings<S: Sink>(crossings: &[(u32, u32)], printer: &mut Printer<'_, S>)
    ensures { printer.new ≡ prints printer.old (flat_map crossing_text crossings.now) }
{
    for (row, column) in crossings {
        print_crossing(*row, *column, printer);
    }
}

fn print_crossing<S: Sink>(row: u32, column: u32, printer: &mut Printer<'_, S>)
    ensures { printer.new ≡ prints printer.old (crossing_text (row, column)) }
{
    print_worded(b" ", row as u64, printer);
    print_worded(b".", column as u64, printer);
}

#[tactic(auto, using(di_io::proofs::Prints::printing, di_io::proofs::Each::each_number, di_io::proofs::Each::each_none))]
fn print_numbers<S: Sink>(numbers: &[u32], printer: &mut Printer<'_, S>)
    ensures { printer.new ≡ prints printer.old (flat_map number_text numbers.now) }
{
    for number in numbers {
        print_worded(b" ", *number as u64, printer);
    }
}
