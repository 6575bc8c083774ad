//! A command file as it is written, and why bytes are none.
use crate::names::NameTable;
use cmd_tree::{Name, Proc};
use sqlite_items::Items;

/// A command file as it is written: sentences, of which the last is `main`. `names` are the names of the
/// symbols of its processes in order of first occurrence, so symbol k has the k-th name.
#[derive(Drop)]
pub struct File {
    pub names: NameTable,
    pub sentences: Items<Sentence>,
}

/// `let NAME := FACTORS.`, or `main := FACTORS.`, which has no name. `at` is the place of the first byte
/// of the name, or of the word `main`.
#[derive(Drop)]
pub struct Sentence {
    pub name: Option<Name>,
    pub at: u32,
    pub factors: Items<Factor>,
}

/// A process that is written out, or the use of a definition.
#[derive(Drop)]
pub enum Factor {
    Own(Proc),
    Named(Named),
}

/// The use of a definition, whose symbols it renames. `at` is the place of the name.
#[derive(Drop)]
pub struct Named {
    pub name: Name,
    pub at: u32,
    pub renames: Items<Rename>,
}

/// The symbol `was` gets the name `fresh`, which is written in front of it.
#[derive(Drop)]
pub struct Rename {
    pub fresh: Name,
    pub fresh_at: u32,
    pub was: Name,
    pub was_at: u32,
}

/// Why bytes are no command file. `at` is the place of a byte from 0: of the first byte of the refused
/// token, or of the byte that may not stand there; the end of the text is the place after the last byte.
#[derive(Debug, Clone, Copy, PartialEq, Eq)]
pub enum Refusal {
    /// No token begins with the byte, or it may not stand in a comment.
    BadByte { at: u32 },
    /// A `:` without `=`, or a digit or `_` where a token begins.
    BadToken { at: u32 },
    /// The tokens so far begin a text, and with this one no longer.
    Unexpected { at: u32 },
    /// The name has more than 32 bytes.
    NameTooLong { at: u32 },
    /// The round bracket would be the 65th that is open.
    TooDeep { at: u32 },
    NoMemory,
}
