//! The text of a whole network.
#![tactic(auto, using(di_io::proofs::Prints::printing))]

ghost use Rattle.std.specs.Prelude.{◌≡◌, ◌≤◌, flat_map, OnOk, OnErr};
ghost use Rattle.std.specs.List.{AllByRecursion};
ghost use Rattle.di_io.specs.Faults.{Rose};
ghost use Rattle.di_io.specs.Written.{Gains, GainsFront};
ghost use Rattle.di_io.specs.Printing.{prints};
ghost use Rattle.net_text.specs.NetText.{node_line, command_net_text, net_text};
ghost use Rattle.net_text.specs.Mirror.Printable.{IsPrintable};

use crate::component::print_node;
use crate::ports::print_ports;
use cmd_text::print_command;
use cmd_tree::Command;
use di_io::{Printer, PutFault, Sink};
use net_core::{Net, Node, NodeSpec};

/// Puts the text of a network whose environment is a command; of another it puts nothing. It takes no
/// memory. `Failed` where the sink failed: then a front of the text was put.
#[tactic(auto, using(di_io::proofs::Prints::front_at), unfolding(di_io::specs::Printing::prints))]
pub fn write_net<S: Sink>(net: &Net, sink: &mut S) -> Result<(), PutFault>
    ensures later { S.faults sink.old ≤ S.faults sink.new }
    ensures ok { OnOk result (Gains (S.written sink.old) (S.written sink.new) (net_text net.now)) }
    ensures failed { OnErr result (Rose (S.faults sink.old) (S.faults sink.new)) }
    ensures front { OnErr result (GainsFront (S.written sink.old) (S.written sink.new) (net_text net.now)) }
{
    let mut printer = Printer::new(sink);
    print_net(net, &mut printer);
    let (result, _sink) = printer.finish();
    result
}

fn print_net<S: Sink>(net: &Net, printer: &mut Printer<'_, S>)
    ensures { printer.new ≡ prints printer.old (net_text net.now) }
{
    if let [environment, parts @ ..] = net.nodes.as_slice() {
        if let NodeSpec::Cmd(command) = &environment.spec {
            print_command_net(command, parts, printer);
        }
    }
}

fn print_command_net<S: Sink>(command: &Command, parts: &[Node], printer: &mut Printer<'_, S>)
    requires { AllByRecursion IsPrintable parts.now }
    ensures { printer.new ≡ prints printer.old (command_net_text command.now parts.now) }
{
    printer.print(b"dinet 1\nspec ");
    print_command(command, printer);
    printer.print(b"\n");
    print_ports(command, printer);
    print_nodes(parts, printer);
    printer.print(b"end\n");
}

#[tactic(auto, using(di_io::proofs::Prints::prints_none, di_io::proofs::Each::each_none))]
fn print_nodes<S: Sink>(nodes: &[Node], printer: &mut Printer<'_, S>)
    requires { AllByRecursion IsPrintable nodes.now }
    ensures { printer.new ≡ prints printer.old (flat_map node_line nodes.now) }
{
    for node in nodes {
        print_node(node, printer);
    }
}
