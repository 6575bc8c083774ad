//! Command files: their text, the reader and the writer.
#![tactic(auto)]

mod draft;
mod file;
mod laws;
mod name;
mod names;
mod process;
mod read;
mod scan;
mod spot;
mod state;
mod token;
mod writer;

pub use file::{Factor, File, Named, Refusal, Rename, Sentence};
pub use laws::{canonical_texts_are_read, text_or_fault, tokens_are_longest};
pub use name::is_name;
pub use names::NameTable;
pub use read::read_file;
pub use writer::{print_command, print_mark, put_command, write_command};
