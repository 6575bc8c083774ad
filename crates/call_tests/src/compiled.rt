//! Whole calls that compile: one process, and weaves of several.
use crate::calls::{Ran, call, many_processes, repeated};
use cmd_tree::MAX_NETLIST_BYTES;
use di_io::MemSink;
use di_top::Outcome;
use net_text::{read_net, write_net};
use std::alloc::Global;
use std::process::Abort;
use std::test::Fail;

fn compile(alloc: Global, text: &str) -> Result<Ran, Fail> {
    call(alloc, "compile wide F", Some(text), Vec::new(alloc))
}

// Whether the netlist is read, and its network put again gives the same bytes.
pub fn is_put_again(alloc: Global, bytes: &[u8]) -> Result<bool, Fail> {
    if bytes.len() > MAX_NETLIST_BYTES {
        return Ok(false);
    }
    let Ok(net) = read_net(alloc, bytes) else {
        return Ok(false);
    };
    let mut sink = MemSink::new(alloc, bytes.len(), Vec::new(alloc))?;
    let result = write_net(&net, &mut sink);
    Ok(result.is_ok() && sink.bytes() == bytes)
}

// Commands, and what their netlists have behind the line of the command.
fn compile_each(rt: &impl Abort, alloc: Global, rows: &[(&str, &str)]) -> Result<(), Fail> {
    for (command, lines) in rows {
        let text = format!(in alloc; "main := {command}.")?;
        let ran = compile(alloc, text.as_str())?;
        let netlist = format!(in alloc; "dinet 1\nspec {command}\n{lines}")?;
        assert!(rt; ran.out.bytes() == netlist.as_bytes(), "{command}");
        assert!(rt; ran.say.bytes().is_empty(), "{command}");
        assert!(rt; is_put_again(alloc, ran.out.bytes())?, "{command}");
        assert_eq!(rt; ran.outcome, Outcome::Done);
    }
    Ok(())
}

#[test]
fn compiles_processes(rt: HostRuntime) -> Result<(), Fail> {
    let rows = [
        (
            "pref*[a?;b!;a?;c!]",
            "port a? 0\nport b! 1\nport c! 2\nTOGGLE 0 > 1 2\nend\n",
        ),
        (
            "pref*[a?;b!;a?;b!;a?;b!;a?;b!]",
            "port a? 0\nport b! 1\nTOGGLE 0 > 2 3\nTOGGLE 2 > 4 5\nTOGGLE 3 > 6 7\nMERGE 4 6 5 7 > 1\nend\n",
        ),
        ("pref*[b!;a?]", "port b! 0\nport a? 1\nIWIRE 1 > 0\nend\n"),
        (
            "pref*[(a?|b?);c!]",
            "port a? 0\nport b? 1\nport c! 2\nMERGE 0 1 > 2\nend\n",
        ),
        (
            "pref[b!;*[a?;c!]]",
            "port b! 0\nport a? 1\nport c! 2\nWIRE 1 > 2\nSOURCE > 0\nend\n",
        ),
        (
            "pref*[a?;b!;c?;d!]",
            "port a? 0\nport b! 1\nport c? 2\nport d! 3\nC 8 0 > 4\nC 6 2 > 5\nFORK 4 > 1 6\nFORK 5 > 3 7\nIWIRE 7 > 8\nend\n",
        ),
        (
            "pref[a?;b!;*[a?;c!]]",
            "port a? 0\nport b! 1\nport c! 2\nDW 2 1 0.0 1.0 : 8 7 0 > 3 4\nFORK 3 > 1 5\nFORK 4 > 2 6\nMERGE 5 6 > 7\nSOURCE > 8\nend\n",
        ),
        (
            "pref*[a?;b!;a?;b!;a?;c!]",
            "port a? 0\nport b! 1\nport c! 2\nDW 3 1 0.0 1.0 2.0 : 11 7 9 0 > 3 4 5\nFORK 3 > 6 7\nFORK 4 > 8 9\nFORK 5 > 2 10\nMERGE 6 8 > 1\nIWIRE 10 > 11\nend\n",
        ),
        (
            "pref*[coin?;ok!;(tea?;cup!|coffee?;mug!)]",
            "port coin? 0\nport ok! 1\nport tea? 2\nport cup! 3\nport coffee? 4\nport mug! 5\nC 13 0 > 6\nDW 1 2 0.0 0.1 : 9 2 4 > 7 8\nFORK 6 > 1 9\nFORK 7 > 3 10\nFORK 8 > 5 11\nMERGE 10 11 > 12\nIWIRE 12 > 13\nend\n",
        ),
    ];
    compile_each(&rt, rt.alloc(), &rows)
}

#[test]
fn compiles_weaves(rt: HostRuntime) -> Result<(), Fail> {
    let rows = [
        (
            "pref*[a?;c!]||pref*[b?;c!]",
            "port a? 0\nport c! 1\nport b? 2\nWIRE 0 > 3\nWIRE 2 > 4\nC 3 4 > 1\nend\n",
        ),
        (
            "pref*[a?;b!]||pref*[a?;c!]",
            "port a? 0\nport b! 1\nport c! 2\nFORK 0 > 3 4\nWIRE 3 > 1\nWIRE 4 > 2\nend\n",
        ),
        (
            "pref*[a?;b!;a?;d!]||pref*[c?;d!]",
            "port a? 0\nport b! 1\nport d! 2\nport c? 3\nTOGGLE 0 > 1 4\nWIRE 3 > 5\nC 4 5 > 2\nend\n",
        ),
        (
            "pref*[a?;p!]||pref*[b?;q!]||pref*[n?;(p!|q!)]",
            "port a? 0\nport p! 1\nport b? 2\nport q! 3\nport n? 4\nWIRE 0 > 5\nWIRE 2 > 6\nSEQ 5 6 4 > 1 3\nend\n",
        ),
        (
            "pref*[a?;p!;c?;e!]||pref*[b?;q!;d?;f!]||pref*[p!;c?|q!;d?]",
            "port a? 0\nport p! 1\nport c? 2\nport e! 3\nport b? 4\nport q! 5\nport d? 6\nport f! 7\nC 24 0 > 8\nFORK 2 > 9 10\nC 25 4 > 11\nFORK 6 > 12 13\nFORK 8 > 14 15\nC 15 9 > 16\nMERGE 10 13 > 17\nFORK 11 > 18 19\nC 19 12 > 20\nSEQ 14 18 22 > 1 5\nFORK 16 > 3 21\nIWIRE 17 > 22\nFORK 20 > 7 23\nIWIRE 21 > 24\nIWIRE 23 > 25\nend\n",
        ),
    ];
    compile_each(&rt, rt.alloc(), &rows)
}

// As many processes as there may be: a WIRE for each.
#[test]
fn compiles_many_processes(rt: HostRuntime) -> Result<(), Fail> {
    let alloc = rt.alloc();
    let text = many_processes(alloc, 256, 0)?;
    let ran = compile(alloc, text.as_str())?;
    assert_eq!(rt; ran.outcome, Outcome::Done);
    assert_eq!(rt; lines_of(ran.out.bytes(), b"WIRE "), 256);
    assert!(rt; is_put_again(alloc, ran.out.bytes())?);
    Ok(())
}

// A choice of two inputs in brackets, beside one more in further brackets, and so on; then an output.
fn nested_choice(alloc: Global, depth: u32) -> Result<String, Fail> {
    let mut text = repeated(alloc, "main := pref*[", "(", depth, "b?")?;
    for level in 0..depth {
        write!(text, "|a{level}?)")?;
    }
    text.push_str(";z!].")?;
    Ok(text)
}

// As deep as brackets may be: one MERGE of 65 inputs; and one deeper.
#[test]
fn compiles_nested_choices(rt: HostRuntime) -> Result<(), Fail> {
    let alloc = rt.alloc();
    let text = nested_choice(alloc, 64)?;
    let ran = compile(alloc, text.as_str())?;
    assert_eq!(rt; ran.outcome, Outcome::Done);
    assert!(rt; ran.out.bytes().ends_with(b" 61 62 63 64 > 65\nend\n"));
    assert!(rt; is_put_again(alloc, ran.out.bytes())?);
    let text = nested_choice(alloc, 65)?;
    let ran = compile(alloc, text.as_str())?;
    assert!(rt; ran.say.bytes() == b"refused depth at 78\n".as_slice());
    Ok(())
}

pub fn lines_of(bytes: &[u8], kind: &[u8]) -> usize {
    let mut count: usize = 0;
    for line in bytes.split(|byte| *byte == b'\n') {
        if line.starts_with(kind) {
            count = count.saturating_add(1);
        }
    }
    count
}

// 4,096 rounds have 4,095 TOGGLEs and one MERGE.
#[test]
fn compiles_many_rounds(rt: HostRuntime) -> Result<(), Fail> {
    let alloc = rt.alloc();
    let text = repeated(alloc, "main := pref*[a?;b!", ";a?;b!", 4095, "].")?;
    let ran = compile(alloc, text.as_str())?;
    assert_eq!(rt; ran.outcome, Outcome::Done);
    assert_eq!(rt; lines_of(ran.out.bytes(), b"TOGGLE "), 4095);
    assert_eq!(rt; lines_of(ran.out.bytes(), b"MERGE "), 1);
    assert_eq!(rt; lines_of(ran.out.bytes(), b""), 4102);
    assert!(rt; is_put_again(alloc, ran.out.bytes())?);
    Ok(())
}

// 4,095 rounds need a token: a DW with a row for each, a FORK for each, the MERGE of b and the IWIRE of the begin.
#[test]
fn compiles_many_rounds_with_a_token(rt: HostRuntime) -> Result<(), Fail> {
    let alloc = rt.alloc();
    let text = repeated(alloc, "main := pref*[a?;b!", ";a?;b!", 4094, "].")?;
    let ran = compile(alloc, text.as_str())?;
    assert_eq!(rt; ran.outcome, Outcome::Done);
    assert_eq!(rt; lines_of(ran.out.bytes(), b"DW 4095 1 "), 1);
    assert_eq!(rt; lines_of(ran.out.bytes(), b"FORK "), 4095);
    assert_eq!(rt; lines_of(ran.out.bytes(), b""), 4104);
    assert!(rt; is_put_again(alloc, ran.out.bytes())?);
    Ok(())
}
