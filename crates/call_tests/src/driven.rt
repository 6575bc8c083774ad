//! Whole calls that draw a schedule on a netlist.
use crate::calls::{Ran, call, call_on, shelf_of};
use di_io::{MemShelf, MemSink};
use di_top::Outcome;
use std::alloc::Global;
use std::test::Fail;

const WIRE: &str = "dinet 1\nspec pref*[a?;b!]\nport a? 0\nport b! 1\nWIRE 0 > 1\nend\n";

// A call where the file N has this netlist.
fn drive(alloc: Global, words: &str, netlist: &str) -> Result<Ran, Fail> {
    let shelf = shelf_of(alloc, &[("N", netlist)], Vec::new(alloc))?;
    call_on(alloc, words, shelf, Vec::new(alloc))
}

// One event may happen at each step, whatever the seed.
#[test]
fn draws_schedules(rt: HostRuntime) -> Result<(), Fail> {
    let rows = [
        ("drive N 7 5", "give a\npass 0\nfire 1 1\npass 1\ngive a\n"),
        ("drive N 0 3", "give a\npass 0\nfire 1 1\n"),
        ("drive N 18446744073709551615 2", "give a\npass 0\n"),
        ("drive N 1 0", ""),
    ];
    for (words, out) in rows {
        let ran = drive(rt.alloc(), words, WIRE)?;
        assert!(rt; ran.out.bytes() == out.as_bytes(), "{words}");
        assert!(rt; ran.say.bytes().is_empty(), "{words}");
        assert_eq!(rt; ran.outcome, Outcome::Done);
        assert_eq!(rt; ran.back, 0);
    }
    Ok(())
}

// Where no event may happen, the schedule ends.
#[test]
fn ends_where_all_is_quiet(rt: HostRuntime) -> Result<(), Fail> {
    let netlist = "dinet 1\nspec pref*[b!;a?]\nport b! 0\nport a? 1\nSINK 1 >\nFORK 2 > 2 0\nend\n";
    let ran = drive(rt.alloc(), "drive N 1 5", netlist)?;
    assert!(rt; ran.out.bytes().is_empty());
    assert!(rt; ran.say.bytes().is_empty());
    assert_eq!(rt; ran.outcome, Outcome::Done);
    Ok(())
}

// Words, the netlist, what is said, and the status. Nothing is put on out.
#[test]
fn draws_nothing_else(rt: HostRuntime) -> Result<(), Fail> {
    let rows = [
        (
            "drive N 1 5",
            "dinet 1\nspec pref*[b!;a?;c!;a?]\nport b! 0\nport a? 1\nport c! 2\nSINK 1 >\nSOURCE > 2\nFORK 3 > 3 0\nend\n",
            "hazard step 2 wrong output c\n",
            7,
        ),
        (
            "drive N 7 262145",
            WIRE,
            "limit L8: found 262145, allowed 262144\n",
            6,
        ),
        (
            "drive M 7 262145",
            WIRE,
            "limit L8: found 262145, allowed 262144\n",
            6,
        ),
        ("drive M 7 5", WIRE, "read fault 1\n", 3),
        (
            "drive N 1 1",
            "dinet 1\nspec pref*[a?;b!]\nport a? 0\nport b! 1\nWIRE 0 > 1\n",
            "refused net cut line 6\n",
            1,
        ),
        (
            "drive N 1 1",
            "dinet 1\nspec pref*[a?;b!]\nport a? 0\nport b! 1\nWIRE 00 > 1\nend\n",
            "refused net line 5\n",
            1,
        ),
        (
            "drive N 1 1",
            "dinet 1\nspec pref*[a?;b!]\nport a? 0\nport b! 1\nWIRE 0 > 2\nend\n",
            "refused net wire 1\n",
            1,
        ),
        (
            "drive N 1 1",
            "dinet 1\nspec pref*[a?;b?]\nport a? 0\nport b? 1\nend\n",
            "refused net spec G2\n",
            1,
        ),
    ];
    for (words, netlist, say, status) in rows {
        let ran = drive(rt.alloc(), words, netlist)?;
        assert!(rt; ran.out.bytes().is_empty(), "{say}");
        assert!(rt; ran.say.bytes() == say.as_bytes(), "{say}");
        assert_eq!(rt; ran.outcome.status(), status);
    }
    Ok(())
}

// Numbers are decimals below 2^64.
#[test]
fn numbers_are_decimals(rt: HostRuntime) -> Result<(), Fail> {
    for words in [
        "drive N 07 5",
        "drive N +7 5",
        "drive N 7 5.",
        "drive N 18446744073709551616 5",
        "drive N 7",
        "drive N 7 5 5",
    ] {
        let ran = drive(rt.alloc(), words, WIRE)?;
        assert!(rt; ran.out.bytes().is_empty(), "{words}");
        assert_eq!(rt; ran.outcome, Outcome::Usage);
    }
    Ok(())
}

// Clients that ask, are granted and give the resource back, and a grant of all of them.
fn arbiter(alloc: Global, clients: u32) -> Result<String, Fail> {
    let mut text = String::from_str(alloc, "main := ")?;
    let mut grant = String::from_str(alloc, "pref*[")?;
    for client in 0..clients {
        write!(text, "pref*[a{client}?;p{client}!;c{client}?;e{client}!]||")?;
        let bar = if client > 0 { "|" } else { "" };
        write!(grant, "{bar}p{client}!;c{client}?")?;
    }
    write!(text, "{grant}].")?;
    Ok(text)
}

// A shelf with what calls put on out, under N and S.
fn shelf_with(alloc: Global, netlist: &MemSink, schedule: &[u8]) -> Result<MemShelf, Fail> {
    let mut files = Vec::new(alloc);
    for (name, content) in [("N", netlist.bytes()), ("S", schedule)] {
        files.push((
            String::from_str(alloc, name)?,
            Vec::from_slice(alloc, content)?,
        ))?;
    }
    Ok(MemShelf::new(files, Vec::new(alloc)))
}

// Many events on a compiled arbiter have no hazard, and are a run of it.
#[test]
fn replays_what_it_drew(rt: HostRuntime) -> Result<(), Fail> {
    let alloc = rt.alloc();
    let text = arbiter(alloc, 64)?;
    let netlist = call(
        alloc,
        "compile wide F",
        Some(text.as_str()),
        Vec::new(alloc),
    )?;
    assert_eq!(rt; netlist.outcome, Outcome::Done);
    let shelf = shelf_with(alloc, &netlist.out, b"")?;
    let drawn = call_on(alloc, "drive N 1 100000", shelf, Vec::new(alloc))?;
    assert_eq!(rt; drawn.outcome, Outcome::Done);
    let shelf = shelf_with(alloc, &netlist.out, drawn.out.bytes())?;
    let ran = call_on(alloc, "run N S", shelf, Vec::new(alloc))?;
    assert_eq!(rt; ran.outcome, Outcome::Done);
    assert!(rt; ran.out.bytes().starts_with(b"events 100000\n"));
    Ok(())
}
