//! Prints numbers, and words with a number.
#![tactic(auto, using(di_io::proofs::Prints::printing), unfolding(crate::specs::Lines::worded, crate::specs::Lines::numbered_line))]

ghost use Rattle.std.specs.Prelude.{◌≡◌, decimal};
ghost use Rattle.di_io.specs.Printing.{prints};
ghost use Rattle.text_lines.specs.Lines.{worded, numbered_line};

use di_io::{Printer, Sink};
use itoa::Buffer;

/// Prints a number in decimal.
pub fn print_decimal<S: Sink>(number: u64, printer: &mut Printer<'_, S>)
    ensures { printer.new ≡ prints printer.old (decimal number) }
{
    let mut buffer = Buffer::new();
    printer.print(buffer.format(number).as_bytes());
}

/// Prints words and a number.
pub fn print_worded<S: Sink>(words: &[u8], number: u64, printer: &mut Printer<'_, S>)
    ensures { printer.new ≡ prints printer.old (worded words.now number) }
{
    printer.print(words);
    print_decimal(number, printer);
}

/// Prints words and a number to the end of the line.
pub fn print_numbered<S: Sink>(words: &[u8], number: u64, printer: &mut Printer<'_, S>)
    ensures { printer.new ≡ prints printer.old (numbered_line words.now number) }
{
    printer.print(words);
    print_decimal(number, printer);
    printer.print(b"\n");
}
