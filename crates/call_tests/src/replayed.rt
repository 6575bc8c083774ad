//! Whole calls that replay a schedule on a netlist.
use crate::calls::{Ran, call_on, repeated, shelf_of};
use di_top::Outcome;
use std::alloc::Global;
use std::process::Abort;
use std::test::Fail;

// Calls where the file N has this netlist, and the file S this schedule.
pub fn replay(alloc: Global, words: &str, netlist: &str, schedule: &str) -> Result<Ran, Fail> {
    let shelf = shelf_of(alloc, &[("N", netlist), ("S", schedule)], Vec::new(alloc))?;
    call_on(alloc, words, shelf, Vec::new(alloc))
}

const JOIN: &str =
    "dinet 1\nspec pref*[(a?||b?);(c!||d!)]\nport a? 0\nport b? 1\nport c! 2\nport d! 3\nC 0 1 > 4\nFORK 4 > 2 3\nend\n";

const WHOLE: &str = "give a\npass 0\ngive b\npass 1\nfire 1 1\npass 4\nfire 2 1\npass 2\n";

// Schedules that are runs of JOIN: the words, the schedule, what is put on out, and how many probes are handed back.
#[test]
fn replays_runs(rt: HostRuntime) -> Result<(), Fail> {
    let rows = [
        (
            "run N S count",
            WHOLE,
            "events 8\nseen a? b? c!\ngives 2\npasses 4\nfires 2\n",
            1,
        ),
        (
            "run N S peak",
            WHOLE,
            "events 8\nseen a? b? c!\nbusy 0\npeak 1\n",
            1,
        ),
        ("run N S", WHOLE, "events 8\nseen a? b? c!\n", 0),
        (
            "run N S",
            "give a\npass 0\ngive b\npass 1\nfire 1 1\npass 4\nfire 2 1\n",
            "events 7\nseen a? b?\n",
            0,
        ),
        ("run N S", "", "events 0\nseen\n", 0),
        (
            "run N S peak",
            "give a\ngive b\npass 0\n",
            "events 3\nseen a? b?\nbusy 1\npeak 2\n",
            1,
        ),
    ];
    for (words, schedule, out, back) in rows {
        let ran = replay(rt.alloc(), words, JOIN, schedule)?;
        assert!(rt; ran.out.bytes() == out.as_bytes(), "{words}");
        assert!(rt; ran.say.bytes().is_empty(), "{words}");
        assert_eq!(rt; ran.outcome, Outcome::Done);
        assert_eq!(rt; ran.back, back);
    }
    Ok(())
}

// Netlists with schedules, what is said of them, and the status. Nothing is put on out, and no probe is handed back.
fn stop_each(rt: &impl Abort, alloc: Global, rows: &[(&str, &str, &str, u8)]) -> Result<(), Fail> {
    for (netlist, schedule, say, status) in rows {
        let ran = replay(alloc, "run N S count", netlist, schedule)?;
        assert!(rt; ran.out.bytes().is_empty(), "{say}");
        assert!(rt; ran.say.bytes() == say.as_bytes(), "{say}");
        assert_eq!(rt; ran.outcome.status(), *status);
        assert_eq!(rt; ran.back, 0);
    }
    Ok(())
}

const MERGED: &str =
    "dinet 1\nspec pref*[(a?||b?);c!]\nport a? 0\nport b? 1\nport c! 2\nMERGE 0 1 > 2\nend\n";

const MIXED: &str =
    "dinet 1\nspec pref*[a?;b!]||pref*[c?;d!]\nport a? 0\nport b! 1\nport c? 2\nport d! 3\nMERGE 0 2 > 4\nTOGGLE 4 > 1 3\nend\n";

#[test]
fn stops_at_events(rt: HostRuntime) -> Result<(), Fail> {
    let rows = [
        (
            MERGED,
            "give a\npass 0\nfire 1 1\npass 2\n",
            "hazard line 4 wrong output c\n",
            7,
        ),
        (
            MERGED,
            "give a\ngive a\n",
            "no run line 2 not allowed a\n",
            8,
        ),
        (
            MIXED,
            "give a\npass 0\ngive c\npass 2\n",
            "hazard line 4 forbidden component 1 port 2\n",
            7,
        ),
        (
            MIXED,
            "give a\npass 0\nfire 1 1\ngive c\npass 2\nfire 1 1\n",
            "hazard line 6 clash wire 4\n",
            7,
        ),
        // the hazard in line 4 comes before the event in line 5 that may not happen
        (
            MERGED,
            "give a\npass 0\nfire 1 1\npass 2\nfire 1 1\n",
            "hazard line 4 wrong output c\n",
            7,
        ),
        (MERGED, "give e\n", "no run line 1 no such\n", 8),
        (MERGED, "give c\n", "no run line 1 no such\n", 8),
        (MERGED, "pass 3\n", "no run line 1 no such\n", 8),
        (MERGED, "fire 2 1\n", "no run line 1 no such\n", 8),
        (MERGED, "fire 1 2\n", "no run line 1 no such\n", 8),
        (MERGED, "fire 1 0\n", "no run line 1 no such\n", 8),
        (MERGED, "fire 0 1\n", "no run line 1 no such\n", 8),
        (MERGED, "fire 1 1\n", "no run line 1 cannot fire 1\n", 8),
        (
            MERGED,
            "give b\npass 0\n",
            "no run line 2 empty wire 0\n",
            8,
        ),
    ];
    stop_each(&rt, rt.alloc(), &rows)
}

#[test]
fn refuses_texts(rt: HostRuntime) -> Result<(), Fail> {
    let rows = [
        (
            "dinet 1\nspec pref*[a?;b!]\nport a? 0\nport b! 1\nWIRE 0 > 1\n",
            "",
            "refused net cut line 6\n",
            1,
        ),
        (
            "dinet 1\nspec pref*[a?;b!]\nport a? 0\nport b! 1\nWIRE 00 > 1\nend\n",
            "",
            "refused net line 5\n",
            1,
        ),
        (
            "dinet 1\nspec pref*[a?;b!]\nport a? 0\nport b! 1\nWIRE 0  > 1\nend\n",
            "",
            "refused net line 5\n",
            1,
        ),
        (
            "dinet 1\nspec pref*[a?;b!]\nport a? 0\nport b! 1\nWIRE 0 > 2\nend\n",
            "",
            "refused net wire 1\n",
            1,
        ),
        (
            "dinet 1\nspec pref*[a?;b?]\nport a? 0\nport b? 1\nWIRE 0 > 1\nend\n",
            "",
            "refused net spec G2\n",
            1,
        ),
        (JOIN, "give a\npass 00\n", "refused schedule line 2\n", 1),
        (JOIN, "give a\npass 0", "refused schedule line 2\n", 1),
        // the netlist is read first
        ("dinet 2\n", "give  a\n", "refused net line 1\n", 1),
    ];
    stop_each(&rt, rt.alloc(), &rows)
}

// A file of one byte more than a netlist or a schedule may have: the netlist is looked at first.
#[test]
fn refuses_long_files(rt: HostRuntime) -> Result<(), Fail> {
    let alloc = rt.alloc();
    let piece = repeated(alloc, "", "................", 4096, "")?;
    let long = repeated(alloc, "", piece.as_str(), 256, ".")?;
    let line = "limit L7: found 16777217, allowed 16777216\n";
    for (netlist, schedule) in [(long.as_str(), ""), ("", long.as_str())] {
        let ran = replay(alloc, "run N S", netlist, schedule)?;
        assert!(rt; ran.out.bytes().is_empty());
        assert!(rt; ran.say.bytes() == line.as_bytes());
        assert_eq!(rt; ran.outcome.status(), 6);
    }
    Ok(())
}

// The shelf's second load fails, or its first.
#[test]
fn answers_a_failed_load(rt: HostRuntime) -> Result<(), Fail> {
    let alloc = rt.alloc();
    for (load, say) in [(1, "read fault 1\n"), (2, "read fault 2\n")] {
        let files = [("N", JOIN), ("S", WHOLE)];
        let shelf = shelf_of(alloc, &files, vec![in alloc; load]?)?;
        let ran = call_on(alloc, "run N S count", shelf, Vec::new(alloc))?;
        assert!(rt; ran.out.bytes().is_empty());
        assert!(rt; ran.say.bytes() == say.as_bytes());
        assert_eq!(rt; ran.outcome.status(), 3);
        assert_eq!(rt; ran.back, 0);
    }
    Ok(())
}

// One word for both files: it is loaded twice.
#[test]
fn loads_one_name_twice(rt: HostRuntime) -> Result<(), Fail> {
    let alloc = rt.alloc();
    let shelf = shelf_of(alloc, &[("N", JOIN)], vec![in alloc; 2]?)?;
    let ran = call_on(alloc, "run N N", shelf, Vec::new(alloc))?;
    assert!(rt; ran.say.bytes() == b"read fault 2\n".as_slice());
    let ran = replay(alloc, "run N N", JOIN, "")?;
    assert!(rt; ran.say.bytes() == b"refused schedule line 1\n".as_slice());
    Ok(())
}

// Out fails at its first put: no probe is handed back.
#[test]
fn answers_a_failed_put(rt: HostRuntime) -> Result<(), Fail> {
    let alloc = rt.alloc();
    let shelf = shelf_of(alloc, &[("N", JOIN), ("S", WHOLE)], Vec::new(alloc))?;
    let ran = call_on(alloc, "run N S peak", shelf, vec![in alloc; (1, 9)]?)?;
    assert_eq!(rt; ran.outcome, Outcome::WriteFault);
    assert!(rt; ran.out.bytes() == b"events 8\n".as_slice());
    assert!(rt; ran.say.bytes() == b"write fault\n".as_slice());
    assert_eq!(rt; ran.back, 0);
    Ok(())
}
