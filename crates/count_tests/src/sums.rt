//! Sums that are known from elsewhere.
use cmd_expand::expand;
use cmd_text::read_file;
use cmd_tree::{Command, MAX_FILE_BYTES};
use count_sum::{Basis, Counts, count};
use di_grammar::check;
use std::alloc::Global;
use std::test::Fail;

const NONE: Counts = Counts {
    wire: 0,
    iwire: 0,
    source: 0,
    sink: 0,
    fork: 0,
    c: 0,
    merge: 0,
    toggle: 0,
    dw: 0,
    seq: 0,
};

fn command_of(alloc: Global, text: &[u8]) -> Result<Command, Fail> {
    if text.len() > MAX_FILE_BYTES {
        return Err(Fail::new("the file is too long"));
    }
    let Ok(file) = read_file(alloc, text) else {
        return Err(Fail::new("the file is refused"));
    };
    let Ok(command) = expand(alloc, &file) else {
        return Err(Fail::new("the file is refused"));
    };
    Ok(command)
}

fn counted(
    alloc: Global,
    text: &[u8],
    basis: Basis,
    wanted: Counts,
    total: u64,
) -> Result<(), Fail> {
    let command = command_of(alloc, text)?;
    if let Some(_) = check(&command) {
        return Err(Fail::new("the command is not admitted"));
    }
    let counts = count(alloc, &command, basis)?;
    if counts != wanted {
        return Err(Fail::new("another sum"));
    }
    if counts.total() != total {
        return Err(Fail::new("another sum of all sorts"));
    }
    Ok(())
}

/// `pref*[a?;b!;..;a?;b!].` with so many rounds.
fn rounds(alloc: Global, many: usize) -> Result<Vec<u8>, Fail> {
    let mut text = Vec::new(alloc);
    text.extend_from_slice(b"main := pref*[a?;b!")?;
    for _ in 1..many {
        text.extend_from_slice(b";a?;b!")?;
    }
    text.extend_from_slice(b"].")?;
    Ok(text)
}

const ARBITER: &[u8] = b"main := pref*[a?;p!;c?;e!]||pref*[b?;q!;d?;f!]||pref*[p!;c?|q!;d?].";

const OF_THREE: &[u8] =
    b"main := pref*[a1?;p1!;c1?;e1!]||pref*[a2?;p2!;c2?;e2!]||pref*[a3?;p3!;c3?;e3!]||pref*[p1!;c1?|p2!;c2?|p3!;c3?].";

const CHOICE: &[u8] = b"main := pref*[a?;b!;(c?;d!|e?;f!|g?;h!)].";

const THREE_ROUNDS: &[u8] = b"main := pref*[a?;b!;a?;b!;a?;c!].";

#[test]
fn sums_in_the_basis_wide(rt: HostRuntime) -> Result<(), Fail> {
    let alloc = rt.alloc();
    let arbiter = Counts {
        iwire: 3,
        fork: 6,
        c: 4,
        merge: 1,
        seq: 1,
        ..NONE
    };
    counted(alloc, ARBITER, Basis::Wide, arbiter, 15)?;
    let wire = Counts { wire: 1, ..NONE };
    counted(alloc, b"main := pref*[a?;b!].", Basis::Wide, wire, 1)?;
    let lead = Counts { iwire: 1, ..NONE };
    counted(alloc, b"main := pref*[b!;a?].", Basis::Wide, lead, 1)?;
    let source = Counts {
        wire: 1,
        source: 1,
        ..NONE
    };
    counted(alloc, b"main := pref[b!;*[a?;c!]].", Basis::Wide, source, 2)?;
    let toggle = Counts { toggle: 1, ..NONE };
    counted(
        alloc,
        b"main := pref*[a?;b!;a?;c!].",
        Basis::Wide,
        toggle,
        1,
    )?;
    let waits = Counts {
        iwire: 1,
        fork: 3,
        merge: 1,
        dw: 1,
        ..NONE
    };
    counted(alloc, THREE_ROUNDS, Basis::Wide, waits, 6)
}

#[test]
fn sums_in_the_basis_two(rt: HostRuntime) -> Result<(), Fail> {
    let alloc = rt.alloc();
    let arbiter = Counts {
        iwire: 3,
        fork: 6,
        c: 4,
        merge: 1,
        seq: 1,
        ..NONE
    };
    counted(alloc, ARBITER, Basis::Two, arbiter, 15)?;
    let rounds = Counts {
        iwire: 1,
        fork: 5,
        merge: 2,
        dw: 2,
        ..NONE
    };
    counted(alloc, THREE_ROUNDS, Basis::Two, rounds, 10)?;
    let choice = Counts {
        iwire: 1,
        fork: 6,
        c: 1,
        merge: 3,
        dw: 2,
        ..NONE
    };
    counted(alloc, CHOICE, Basis::Two, choice, 13)?;
    let three = Counts {
        iwire: 5,
        fork: 13,
        c: 6,
        merge: 4,
        dw: 1,
        seq: 2,
        ..NONE
    };
    counted(alloc, OF_THREE, Basis::Two, three, 31)
}

#[test]
fn sums_of_the_most_rounds(rt: HostRuntime) -> Result<(), Fail> {
    let alloc = rt.alloc();
    let text = rounds(alloc, 4096)?;
    let toggles = Counts {
        merge: 1,
        toggle: 4095,
        ..NONE
    };
    counted(alloc, text.as_slice(), Basis::Wide, toggles, 4096)
}

#[test]
fn sums_of_a_large_wait(rt: HostRuntime) -> Result<(), Fail> {
    let alloc = rt.alloc();
    let text = rounds(alloc, 4095)?;
    let waits = Counts {
        iwire: 1,
        fork: 49139,
        merge: 45045,
        dw: 4094,
        ..NONE
    };
    counted(alloc, text.as_slice(), Basis::Two, waits, 98279)
}
