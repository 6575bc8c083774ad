//! Whole calls that compile to two-way components.
use crate::calls::{Ran, call, repeated};
use crate::compiled::{is_put_again, lines_of};
use di_top::{Outcome, Why};
use std::alloc::Global;
use std::process::Abort;
use std::test::Fail;

fn compile(alloc: Global, text: &str) -> Result<Ran, Fail> {
    call(alloc, "compile two F", Some(text), Vec::new(alloc))
}

// Layers of FORKs, Cs and MERGEs, and what is two-way as it is.
#[test]
fn compiles_to_two_way_components(rt: HostRuntime) -> Result<(), Fail> {
    let alloc = rt.alloc();
    let rows = [
        (
            "pref*[(a?||b?||c?);d!]",
            "port a? 0\nport b? 1\nport c? 2\nport d! 3\nC 0 1 > 4\nC 4 2 > 3\nend\n",
        ),
        (
            "pref*[a?;(b!||c!||d!)]",
            "port a? 0\nport b! 1\nport c! 2\nport d! 3\nFORK 0 > 4 3\nFORK 4 > 1 2\nend\n",
        ),
        (
            "pref*[(a?|b?|c?|d?|e?);f!]",
            "port a? 0\nport b? 1\nport c? 2\nport d? 3\nport e? 4\nport f! 5\nMERGE 0 1 > 6\nMERGE 6 2 > 7\nMERGE 3 4 > 8\nMERGE 7 8 > 5\nend\n",
        ),
        ("pref*[a?;b!]", "port a? 0\nport b! 1\nWIRE 0 > 1\nend\n"),
    ];
    for (command, lines) in rows {
        let text = format!(in alloc; "main := {command}.")?;
        let ran = compile(alloc, text.as_str())?;
        let netlist = format!(in alloc; "dinet 1\nspec {command}\n{lines}")?;
        assert!(rt; ran.out.bytes() == netlist.as_bytes(), "{command}");
        assert!(rt; is_put_again(alloc, ran.out.bytes())?, "{command}");
        assert_eq!(rt; ran.outcome, Outcome::Done);
    }
    Ok(())
}

// Where all is two-way, both bases give the same bytes: an arbiter of two clients.
#[test]
fn keeps_what_is_two_way(rt: HostRuntime) -> Result<(), Fail> {
    let alloc = rt.alloc();
    let text = "main := pref*[a?;p!;c?;e!]||pref*[b?;q!;d?;f!]||pref*[p!;c?|q!;d?].";
    let two = compile(alloc, text)?;
    let wide = call(alloc, "compile wide F", Some(text), Vec::new(alloc))?;
    assert_eq!(rt; two.outcome, Outcome::Done);
    assert!(rt; is_put_again(alloc, two.out.bytes())?);
    assert!(rt; two.out.bytes() == wide.out.bytes());
    Ok(())
}

// Layers of decision-waits and of sequencers are not built yet.
#[test]
fn refuses_wide_decision_waits_and_sequencers(rt: HostRuntime) -> Result<(), Fail> {
    let alloc = rt.alloc();
    let rounds = repeated(alloc, "main := pref*[a?;b!", ";a?;b!", 4094, "].")?;
    let rows = [
        "main := pref*[a?;b!;a?;b!;a?;c!].",
        rounds.as_str(),
        "main := pref*[a?;p!]||pref*[b?;q!]||pref*[c?;r!]||pref*[n?;(p!|q!|r!)].",
    ];
    for text in rows {
        let ran = compile(alloc, text)?;
        assert_eq!(rt; ran.outcome, Outcome::Refused(Why::NotThisForm));
        assert!(rt; ran.out.bytes().is_empty());
        assert!(rt; ran.say.bytes() == b"refused form\n".as_slice());
    }
    Ok(())
}

// A FORK of 1,023 outputs is 1,022 FORKs of two.
#[test]
fn splits_a_fork_of_many(rt: HostRuntime) -> Result<(), Fail> {
    let alloc = rt.alloc();
    let mut text = String::from_str(alloc, "main := pref*[a?;(b0!")?;
    for output in 1..1023 {
        write!(text, "||b{output}!")?;
    }
    text.push_str(")].")?;
    let ran = compile(alloc, text.as_str())?;
    assert_eq!(rt; ran.outcome, Outcome::Done);
    assert_eq!(rt; lines_of(ran.out.bytes(), b"FORK "), 1022);
    assert!(rt; is_put_again(alloc, ran.out.bytes())?);
    Ok(())
}
