//! Whole calls that count components.
use crate::calls::{call, repeated};
use di_top::Outcome;
use std::alloc::Global;
use std::process::Abort;
use std::test::Fail;

// The lines of sums: WIRE, IWIRE, SOURCE, SINK, FORK, C, MERGE, TOGGLE, DW, SEQ and the total.
fn lines(alloc: Global, sums: [u64; 11]) -> Result<String, Fail> {
    let [
        wire,
        iwire,
        source,
        sink,
        fork,
        c,
        merge,
        toggle,
        dw,
        seq,
        total,
    ] = sums;
    let first = format!(in alloc;
        "WIRE {wire}\nIWIRE {iwire}\nSOURCE {source}\nSINK {sink}\nFORK {fork}\n"
    )?;
    let second = format!(in alloc;
        "C {c}\nMERGE {merge}\nTOGGLE {toggle}\nDW {dw}\nSEQ {seq}\ntotal {total}\n"
    )?;
    Ok(format!(in alloc; "{first}{second}")?)
}

const ARBITER: &str = "pref*[a?;p!;c?;e!]||pref*[b?;q!;d?;f!]||pref*[p!;c?|q!;d?]";

const OF_THREE: &str =
    "pref*[a1?;p1!;c1?;e1!]||pref*[a2?;p2!;c2?;e2!]||pref*[a3?;p3!;c3?;e3!]||pref*[p1!;c1?|p2!;c2?|p3!;c3?]";

// Words, the command in F, and its sums.
const SUMS: [(&str, &str, [u64; 11]); 6] = [
    ("count wide F", ARBITER, [0, 3, 0, 0, 6, 4, 1, 0, 0, 1, 15]),
    ("count two F", ARBITER, [0, 3, 0, 0, 6, 4, 1, 0, 0, 1, 15]),
    ("count two F", OF_THREE, [0, 5, 0, 0, 13, 6, 4, 0, 1, 2, 31]),
    (
        "count wide F",
        "pref*[a?;b!;a?;b!;a?;c!]",
        [0, 1, 0, 0, 3, 0, 1, 0, 1, 0, 6],
    ),
    (
        "count two F",
        "pref*[a?;b!;a?;b!;a?;c!]",
        [0, 1, 0, 0, 5, 0, 2, 0, 2, 0, 10],
    ),
    (
        "count two F",
        "pref*[a?;b!;(c?;d!|e?;f!|g?;h!)]",
        [0, 1, 0, 0, 6, 1, 3, 0, 2, 0, 13],
    ),
];

#[test]
fn counts_components(rt: HostRuntime) -> Result<(), Fail> {
    let alloc = rt.alloc();
    for (words, command, sums) in SUMS {
        let text = format!(in alloc; "main := {command}.")?;
        let ran = call(alloc, words, Some(text.as_str()), Vec::new(alloc))?;
        let wanted = lines(alloc, sums)?;
        assert!(rt; ran.out.bytes() == wanted.as_bytes(), "{words}: {command}");
        assert!(rt; ran.say.bytes().is_empty());
        assert_eq!(rt; ran.outcome, Outcome::Done);
    }
    Ok(())
}

// At the limit of places, and one round less, where one DW has a row for each round.
#[test]
fn counts_many_rounds(rt: HostRuntime) -> Result<(), Fail> {
    let alloc = rt.alloc();
    let text = repeated(alloc, "main := pref*[a?;b!", ";a?;b!", 4095, "].")?;
    let ran = call(alloc, "count wide F", Some(text.as_str()), Vec::new(alloc))?;
    let wanted = lines(alloc, [0, 0, 0, 0, 0, 0, 1, 4095, 0, 0, 4096])?;
    assert!(rt; ran.out.bytes() == wanted.as_bytes());
    let text = repeated(alloc, "main := pref*[a?;b!", ";a?;b!", 4094, "].")?;
    let ran = call(alloc, "count two F", Some(text.as_str()), Vec::new(alloc))?;
    let wanted = lines(alloc, [0, 1, 0, 0, 49139, 0, 45045, 0, 4094, 0, 98279])?;
    assert!(rt; ran.out.bytes() == wanted.as_bytes());
    Ok(())
}

// No sums of what is not admitted, and of words that name no basis.
#[test]
fn counts_admitted_commands_alone(rt: HostRuntime) -> Result<(), Fail> {
    let alloc = rt.alloc();
    let rows = [
        (
            "count wide F",
            Some("main := pref*[a?;a!]."),
            "refused G7 process 1 place 2 against process 1 place 1\n",
            1,
        ),
        (
            "count two F",
            Some("main := pref*[a?;b!]"),
            "refused text at 20\n",
            1,
        ),
        ("count two F", None, "read fault 1\n", 3),
    ];
    for (words, content, said, status) in rows {
        let ran = call(alloc, words, content, Vec::new(alloc))?;
        assert!(rt; ran.out.bytes().is_empty(), "{words}");
        assert!(rt; ran.say.bytes() == said.as_bytes(), "{words}");
        assert_eq!(rt; ran.outcome.status(), status);
    }
    for words in ["count F", "count three F", "count wide F F", "Count two F"] {
        let ran = call(alloc, words, Some("main := pref*[a?;b!]."), Vec::new(alloc))?;
        assert_eq!(rt; ran.outcome, Outcome::Usage);
    }
    Ok(())
}
