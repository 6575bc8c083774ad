//! What may come next, at each step of a trace.
use cmd_expand::expand;
use cmd_machine::Walker;
use cmd_text::read_file;
use cmd_tree::{Command, MAX_FILE_BYTES, Sym};
use di_grammar::check;
use std::alloc::{AllocError, Global};
use std::test::Fail;

// The names of the symbols that may come, in order of first occurrence in the command, and the symbol that
// comes.
type Step = (&'static [u8], &'static [u8]);

const ROUND: [Step; 5] = [
    (b"ab", b"b"),
    (b"a", b"a"),
    (b"c", b"c"),
    (b"ab", b"a"),
    (b"b", b"b"),
];

const CHOICE: [Step; 7] = [
    (b"abd", b"d"),
    (b"e", b"e"),
    (b"abd", b"b"),
    (b"a", b"a"),
    (b"c", b"c"),
    (b"abd", b"a"),
    (b"b", b"b"),
];

const LEAD: [Step; 6] = [
    (b"a", b"a"),
    (b"b", b"b"),
    (b"c", b"c"),
    (b"d", b"d"),
    (b"c", b"c"),
    (b"d", b"d"),
];

const TOGGLE: [Step; 5] = [
    (b"a", b"a"),
    (b"b", b"b"),
    (b"a", b"a"),
    (b"c", b"c"),
    (b"a", b"a"),
];

const WEAVE: [Step; 5] = [
    (b"a", b"a"),
    (b"b", b"b"),
    (b"ac", b"a"),
    (b"c", b"c"),
    (b"b", b"b"),
];

const RELEASED: [Step; 9] = [
    (b"ab", b"a"),
    (b"pb", b"b"),
    (b"pq", b"p"),
    (b"c", b"c"),
    (b"eq", b"q"),
    (b"ed", b"e"),
    (b"ad", b"a"),
    (b"d", b"d"),
    (b"pf", b"f"),
];

const GRANTED: [Step; 6] = [
    (b"abn", b"n"),
    (b"ab", b"a"),
    (b"pb", b"b"),
    (b"pq", b"q"),
    (b"bn", b"n"),
    (b"pb", b"p"),
];

fn command_of(alloc: Global, text: &[u8]) -> Result<Command, Fail> {
    if text.len() > MAX_FILE_BYTES {
        return Err(Fail::new("the file is too long"));
    }
    let Ok(file) = read_file(alloc, text) else {
        return Err(Fail::new("the file is refused"));
    };
    let Ok(command) = expand(alloc, &file) else {
        return Err(Fail::new("the file is refused"));
    };
    Ok(command)
}

fn able(alloc: Global, command: &Command, walker: &Walker) -> Result<Vec<u8>, AllocError> {
    let mut names = Vec::new(alloc);
    let mut symbol: u32 = 0;
    for name in command.names.as_slice() {
        if walker.can(Sym(symbol)) {
            names.extend_from_slice(name.bytes())?;
        }
        symbol = symbol.saturating_add(1);
    }
    Ok(names)
}

fn step(command: &Command, walker: &mut Walker, wanted: &[u8]) -> bool {
    let mut symbol: u32 = 0;
    for name in command.names.as_slice() {
        if name.bytes() == wanted {
            return walker.step(Sym(symbol));
        }
        symbol = symbol.saturating_add(1);
    }
    false
}

fn walk(alloc: Global, text: &[u8], steps: &[Step]) -> Result<(), Fail> {
    let command = command_of(alloc, text)?;
    if let Some(_) = check(&command) {
        return Err(Fail::new("the command is not admitted"));
    }
    let mut walker = Walker::new(alloc, &command)?;
    for (names, next) in steps {
        let able = able(alloc, &command, &walker)?;
        if able.as_slice() != *names {
            return Err(Fail::new("other symbols may come"));
        }
        if walker.step(Sym(u32::MAX)) {
            return Err(Fail::new("a symbol came that is not there"));
        }
        if !step(&command, &mut walker, next) {
            return Err(Fail::new("the symbol may not come"));
        }
    }
    Ok(())
}

#[test]
fn walks_along_commands(rt: HostRuntime) -> Result<(), Fail> {
    let alloc = rt.alloc();
    walk(alloc, b"main := pref*[(a?||b?);c!].", &ROUND)?;
    walk(alloc, b"main := pref*[(a?||b?);c!|d?;e!].", &CHOICE)?;
    walk(alloc, b"main := pref[a?;b!;*[c?;d!]].", &LEAD)?;
    walk(alloc, b"main := pref*[a?;b!;a?;c!].", &TOGGLE)?;
    walk(alloc, b"main := pref*[a?;b!]||pref*[b!;c?].", &WEAVE)?;
    Ok(())
}

#[test]
fn walks_along_arbiters(rt: HostRuntime) -> Result<(), Fail> {
    let alloc = rt.alloc();
    walk(
        alloc,
        b"main := pref*[a?;p!;c?;e!]||pref*[b?;q!;d?;f!]||pref*[p!;c?|q!;d?].",
        &RELEASED,
    )?;
    walk(
        alloc,
        b"main := pref*[a?;p!]||pref*[b?;q!]||pref*[n?;(p!|q!)].",
        &GRANTED,
    )?;
    Ok(())
}
