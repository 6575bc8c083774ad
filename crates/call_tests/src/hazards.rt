//! Whole calls that meet a hazard at each kind of component, on netlists by hand.
use crate::replayed::replay;
use std::alloc::Global;
use std::process::Abort;
use std::test::Fail;

// Two processes share a MERGE, which hands on what each of them is given to the components behind it.
const HEAD: &str =
    "dinet 1\nspec pref*[a?;b!]||pref*[c?;d!]\nport a? 0\nport b! 1\nport c? 2\nport d! 3\nMERGE 0 2 > 4\n";

// The lines of the components, the events, and what is said.
fn meet_each(rt: &impl Abort, alloc: Global, rows: &[(&str, &str, &str)]) -> Result<(), Fail> {
    for (lines, schedule, say) in rows {
        let netlist = format!(in alloc; "{HEAD}{lines}end\n")?;
        let ran = replay(alloc, "run N S peak", netlist.as_str(), schedule)?;
        assert!(rt; ran.out.bytes().is_empty(), "{lines}");
        assert!(rt; ran.say.bytes() == say.as_bytes(), "{lines}");
        assert_eq!(rt; ran.outcome.status(), 7);
    }
    Ok(())
}

// Two transitions reach the component behind the MERGE, one after the other.
const TWICE: &str = "give a\npass 0\nfire 1 1\npass 4\ngive c\npass 2\nfire 1 1\npass 4\n";

const SECOND: &str = "hazard line 8 forbidden component 2 port 1\n";

#[test]
fn inputs_are_forbidden(rt: HostRuntime) -> Result<(), Fail> {
    let rows = [
        ("WIRE 4 > 5\nFORK 5 > 1 3\n", TWICE, SECOND),
        ("SINK 4 >\nSOURCE > 1\nSOURCE > 3\n", TWICE, SECOND),
        ("FORK 4 > 1 3\n", TWICE, SECOND),
        ("C 4 5 > 6\nSOURCE > 5\nFORK 6 > 1 3\n", TWICE, SECOND),
        ("MERGE 4 5 > 6\nSOURCE > 5\nFORK 6 > 1 3\n", TWICE, SECOND),
        ("TOGGLE 4 > 1 3\n", TWICE, SECOND),
        (
            "DW 1 1 0.0 : 4 5 > 6\nSOURCE > 5\nFORK 6 > 1 3\n",
            TWICE,
            SECOND,
        ),
        ("SEQ 4 5 6 > 1 3\nSOURCE > 5\nSOURCE > 6\n", TWICE, SECOND),
        (
            "IWIRE 4 > 5\nFORK 5 > 1 3\n",
            "give a\npass 0\nfire 1 1\npass 4\n",
            "hazard line 4 forbidden component 2 port 1\n",
        ),
    ];
    meet_each(&rt, rt.alloc(), &rows)
}

// Both transitions reach a FORK, and both times a component that waits for two.
const BOTH_TWICE: &str =
    "give a\npass 0\nfire 1 1\npass 4\nfire 2 1\nfire 2 2\npass 5\npass 6\nfire 3 1\ngive c\npass 2\nfire 1 1\npass 4\nfire 2 1\nfire 2 2\npass 5\npass 6\nfire 3 1\n";

#[test]
fn wires_are_busy(rt: HostRuntime) -> Result<(), Fail> {
    let rows = [
        (
            "WIRE 4 > 5\nFORK 5 > 1 3\n",
            "give a\npass 0\nfire 1 1\npass 4\nfire 2 1\ngive c\npass 2\nfire 1 1\npass 4\nfire 2 1\n",
            "hazard line 10 clash wire 5\n",
        ),
        (
            "IWIRE 4 > 5\nFORK 5 > 1 3\n",
            "fire 2 1\ngive a\npass 0\nfire 1 1\npass 4\nfire 2 1\n",
            "hazard line 6 clash wire 5\n",
        ),
        (
            "FORK 4 > 1 3\n",
            "give a\npass 0\nfire 1 1\npass 4\nfire 2 1\nfire 2 2\ngive c\npass 2\nfire 1 1\npass 4\nfire 2 1\n",
            "hazard line 11 clash wire 1\n",
        ),
        (
            "TOGGLE 4 > 1 3\n",
            "give a\npass 0\nfire 1 1\npass 4\nfire 2 1\ngive c\npass 2\nfire 1 1\npass 4\nfire 2 2\npass 3\ngive c\npass 2\nfire 1 1\npass 4\nfire 2 1\n",
            "hazard line 16 clash wire 1\n",
        ),
        (
            "FORK 4 > 5 6\nC 5 6 > 7\nFORK 7 > 1 3\n",
            BOTH_TWICE,
            "hazard line 18 clash wire 7\n",
        ),
        (
            "FORK 4 > 5 6\nDW 1 1 0.0 : 5 6 > 7\nFORK 7 > 1 3\n",
            BOTH_TWICE,
            "hazard line 18 clash wire 7\n",
        ),
        (
            "FORK 4 > 5 6\nSEQ 5 7 6 > 8 9\nSOURCE > 7\nWIRE 8 > 1\nWIRE 9 > 3\n",
            BOTH_TWICE,
            "hazard line 18 clash wire 8\n",
        ),
    ];
    meet_each(&rt, rt.alloc(), &rows)
}
