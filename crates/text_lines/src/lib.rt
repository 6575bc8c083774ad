//! Numbers and lines of text formats: decimal numbers both ways, lines of words with a number, and texts that are cut
//! at each byte of one value.
//!
//! A number is written in decimal without sign or leading zero, and `read_decimal` reads exactly these texts.
//! A printing function adds its text to what a `di_io::Printer` has to print, and cannot fail: the printer
//! keeps a fault until it is finished. `decimals_are_numbers` is the law that writing and reading are inverse.
#![tactic(auto)]

mod laws;
mod pieces;
mod print;
mod read;

pub use laws::{decimals_are_numbers, pieces_law};
pub use pieces::first_piece;
pub use print::{print_decimal, print_numbered, print_worded};
pub use read::{DecimalFault, read_decimal};
