//! Whole calls: words in, bytes out.
use di_io::{MemShelf, MemSink};
use di_top::{Outcome, run};
use replay::{CountProbe, PeakProbe, Probe};
use std::alloc::Global;
use std::test::Fail;

/// What a call did, and how many probes it handed back.
#[derive(Drop)]
pub struct Ran {
    pub outcome: Outcome,
    pub out: MemSink,
    pub say: MemSink,
    pub back: usize,
}

pub fn split_words(alloc: Global, text: &str) -> Result<Vec<String>, Fail> {
    let mut words = Vec::new(alloc);
    for word in text.split(' ') {
        words.push(String::from_str(alloc, word)?)?;
    }
    Ok(words)
}

// A shelf with these names and contents, whose loads of these numbers fail.
pub fn shelf_of(
    alloc: Global,
    contents: &[(&str, &str)],
    fails: Vec<u64>,
) -> Result<MemShelf, Fail> {
    let mut files = Vec::new(alloc);
    for (name, content) in contents {
        let name = String::from_str(alloc, name)?;
        files.push((name, Vec::from_slice(alloc, content.as_bytes())?))?;
    }
    Ok(MemShelf::new(files, fails))
}

// Calls with these words and two probes, as the program does. Puts on out fail as told.
pub fn call_on(
    alloc: Global,
    words: &str,
    shelf: MemShelf,
    fails: Vec<(u64, usize)>,
) -> Result<Ran, Fail> {
    let words = split_words(alloc, words)?;
    let mut shelf = shelf;
    let mut out = MemSink::new(alloc, 2_000_000, fails)?;
    let mut say = MemSink::new(alloc, 1000, Vec::new(alloc))?;
    let count = Box::new(alloc, CountProbe::new())?;
    let peak = Box::new(alloc, PeakProbe::new())?;
    let mut probes: Vec<Box<dyn Probe>> = Vec::new(alloc);
    if probes.push(count).is_err() || probes.push(peak).is_err() {
        return Err(Fail::new("no memory"));
    }
    let (outcome, back) = run(alloc, &words, &mut shelf, &mut out, &mut say, probes);
    Ok(Ran {
        outcome,
        out,
        say,
        back: back.len(),
    })
}

// Calls with these words. The file F has this content, or there is none. Puts on out fail as told.
pub fn call(
    alloc: Global,
    words: &str,
    content: Option<&str>,
    fails: Vec<(u64, usize)>,
) -> Result<Ran, Fail> {
    let shelf = match content {
        None => shelf_of(alloc, &[], Vec::new(alloc))?,
        Some(content) => shelf_of(alloc, &[("F", content)], Vec::new(alloc))?,
    };
    call_on(alloc, words, shelf, fails)
}

const USAGE: &str =
    "usage: dic compile wide|two F, check F, count wide|two F, run N S [count|peak], drive N SEED STEPS, rules F, big N\n";

// Words, the content of F, what a call with them puts on out and says, and the status.
const CALLS: [(&str, Option<&str>, &str, &str, u8); 13] = [
    (
        "compile wide F",
        Some("main := pref*[a?;b!]."),
        "dinet 1\nspec pref*[a?;b!]\nport a? 0\nport b! 1\nWIRE 0 > 1\nend\n",
        "",
        0,
    ),
    (
        "compile wide F",
        Some("main := pref*[(a?||b?);(c!||d!)].\n"),
        "dinet 1\nspec pref*[(a?||b?);(c!||d!)]\nport a? 0\nport b? 1\nport c! 2\nport d! 3\nC 0 1 > 4\nFORK 4 > 2 3\nend\n",
        "",
        0,
    ),
    (
        "compile wide F",
        Some("main := pref*[a?;(b!||c!)]."),
        "dinet 1\nspec pref*[a?;(b!||c!)]\nport a? 0\nport b! 1\nport c! 2\nFORK 0 > 1 2\nend\n",
        "",
        0,
    ),
    (
        "compile wide F",
        Some("main := pref*[(a?||b?);c!]."),
        "dinet 1\nspec pref*[(a?||b?);c!]\nport a? 0\nport b? 1\nport c! 2\nC 0 1 > 2\nend\n",
        "",
        0,
    ),
    (
        "compile wide F",
        Some("# one in, one out\nmain := pref*[a?;b!]."),
        "dinet 1\nspec pref*[a?;b!]\nport a? 0\nport b! 1\nWIRE 0 > 1\nend\n",
        "",
        0,
    ),
    (
        "compile wide F",
        Some("let w := pref*[a?;b!]. main := w[a/b,b/a]."),
        "dinet 1\nspec pref*[b?;a!]\nport b? 0\nport a! 1\nWIRE 0 > 1\nend\n",
        "",
        0,
    ),
    (
        "compile wide F",
        Some("main := pref*[a?;a!]."),
        "",
        "refused G7 process 1 place 2 against process 1 place 1\n",
        1,
    ),
    (
        "compile wide F",
        Some("let w := pref*[a?;b!]. main := w[x/a]||w[z/a]."),
        "dinet 1\nspec pref*[x?;b!]||pref*[z?;b!]\nport x? 0\nport b! 1\nport z? 2\nWIRE 0 > 3\nWIRE 2 > 4\nC 3 4 > 1\nend\n",
        "",
        0,
    ),
    ("compile wide F", None, "", "read fault 1\n", 3),
    (
        "compile three F",
        Some("main := pref*[a?;b!]."),
        "",
        USAGE,
        2,
    ),
    ("compile wide", Some("main := pref*[a?;b!]."), "", USAGE, 2),
    ("check F F", Some("main := pref*[a?;b!]."), "", USAGE, 2),
    ("Check F", Some("main := pref*[a?;b!]."), "", USAGE, 2),
];

#[test]
fn answers(rt: HostRuntime) -> Result<(), Fail> {
    let alloc = rt.alloc();
    for (words, content, out, say, status) in CALLS {
        let ran = call(alloc, words, content, Vec::new(alloc))?;
        assert!(rt; ran.out.bytes() == out.as_bytes(), "{words}");
        assert!(rt; ran.say.bytes() == say.as_bytes(), "{words}");
        assert_eq!(rt; ran.outcome.status(), status);
        assert_eq!(rt; ran.back, 0);
    }
    Ok(())
}

#[test]
fn answers_a_failed_put(rt: HostRuntime) -> Result<(), Fail> {
    let alloc = rt.alloc();
    let fails = vec![in alloc; (1, 0)]?;
    let ran = call(
        alloc,
        "compile wide F",
        Some("main := pref*[a?;b!]."),
        fails,
    )?;
    assert_eq!(rt; ran.outcome, Outcome::WriteFault);
    assert_eq!(rt; ran.outcome.status(), 4);
    assert!(rt; ran.out.bytes().is_empty());
    assert!(rt; ran.say.bytes() == b"write fault\n".as_slice());
    Ok(())
}

// Symbols with the mark, joined by two bars.
fn push_burst(text: &mut String, first: u16, mark: char) -> Result<(), Fail> {
    let first = u32::from(first);
    text.push('(')?;
    for symbol in first..first + 512 {
        if symbol > first {
            text.push_str("||")?;
        }
        write!(text, "s{symbol}{mark}")?;
    }
    text.push(')')?;
    Ok(())
}

// As many symbols as a command may have; the netlist takes so few puts that the eighth never comes.
#[test]
fn compiles_many_symbols_in_few_puts(rt: HostRuntime) -> Result<(), Fail> {
    let alloc = rt.alloc();
    let mut text = String::from_str(alloc, "main := pref*[")?;
    push_burst(&mut text, 0, '?')?;
    text.push(';')?;
    push_burst(&mut text, 512, '!')?;
    text.push_str("].")?;
    let ran = call(
        alloc,
        "compile wide F",
        Some(text.as_str()),
        vec![in alloc; (8, 0)]?,
    )?;
    assert_eq!(rt; ran.outcome, Outcome::Done);
    assert!(rt; ran.out.bytes().ends_with(b"\nend\n"));
    assert!(rt; ran.say.bytes().is_empty());
    Ok(())
}

// Calls `check F` where the file has this one command.
fn check_command(alloc: Global, command: &str) -> Result<Ran, Fail> {
    let text = format!(in alloc; "main := {command}.")?;
    call(alloc, "check F", Some(text.as_str()), Vec::new(alloc))
}

const ARBITER: &str = "pref*[a?;p!;c?;e!]||pref*[b?;q!;d?;f!]||pref*[p!;c?|q!;d?]";

// Admitted commands, and the lines about them.
#[test]
fn admits_commands(rt: HostRuntime) -> Result<(), Fail> {
    let alloc = rt.alloc();
    let rows = [
        (
            "pref*[a?;b!;a?;c!]",
            "admitted\nprocesses 1\nsymbols 3\nplaces 4\n",
        ),
        (ARBITER, "admitted\nprocesses 3\nsymbols 8\nplaces 12\n"),
    ];
    for (command, out) in rows {
        let ran = check_command(alloc, command)?;
        assert!(rt; ran.out.bytes() == out.as_bytes(), "{command}");
        assert!(rt; ran.say.bytes().is_empty(), "{command}");
        assert_eq!(rt; ran.outcome.status(), 0);
    }
    Ok(())
}

// A command for each rule, and the line about it.
const REFUSED: [(&str, &str); 11] = [
    (
        "pref*[(a?||a?);b!]",
        "refused G1 process 1 place 2 against process 1 place 1\n",
    ),
    (
        "pref*[a?;b!;(a?||a?);c!]",
        "refused G1 process 1 place 4 against process 1 place 3\n",
    ),
    (
        "pref*[a?;b?;c!]",
        "refused G2 process 1 place 2 against process 1 place 1\n",
    ),
    (
        "pref*[a?;b!;c?]",
        "refused G3 process 1 place 3 against process 1 place 1\n",
    ),
    (
        "pref*[a?;(b!;c?;d!|e!)]",
        "refused G4 process 1 place 2 against process 1 place 2\n",
    ),
    (
        "pref*[a?;b!|a?;c!]",
        "refused G5 process 1 place 3 against process 1 place 1\n",
    ),
    (
        "pref*[a?;b!;(a?||c?);d!]",
        "refused G6 process 1 place 3 against process 1 place 1\n",
    ),
    (
        "pref*[a?;a!]",
        "refused G7 process 1 place 2 against process 1 place 1\n",
    ),
    (
        "pref*[a?;b!]||pref*[b?;c!]",
        "refused G7 process 2 place 1 against process 1 place 2\n",
    ),
    (
        "pref*[n?;(p!|p!)]",
        "refused G8 process 1 place 3 against process 1 place 2\n",
    ),
    (
        "pref*[n?;(p!|q!)]",
        "refused G9 process 1 place 2 against process 1 place 2\n",
    ),
];

#[test]
fn refuses_commands(rt: HostRuntime) -> Result<(), Fail> {
    let alloc = rt.alloc();
    for (command, say) in REFUSED {
        let ran = check_command(alloc, command)?;
        assert!(rt; ran.out.bytes().is_empty(), "{command}");
        assert!(rt; ran.say.bytes() == say.as_bytes(), "{command}");
        assert_eq!(rt; ran.outcome.status(), 1);
    }
    Ok(())
}

// What `check F` prints and says of files that are no text of the grammar, or have definitions, and the
// status.
#[test]
fn refuses_texts(rt: HostRuntime) -> Result<(), Fail> {
    let alloc = rt.alloc();
    let rows = [
        ("", "", "refused text at 0\n", 1),
        ("main := pref*[a?;", "", "refused text at 17\n", 1),
        ("main := v.", "", "refused unknown name at 8\n", 1),
        ("let v := v. main := v.", "", "refused early use at 9\n", 1),
        (
            "let v := pref*[a?;b!]. let v := pref*[a?;b!]. main := v.",
            "",
            "refused second definition at 27\n",
            1,
        ),
        (
            "let w := pref*[a?;b!]. main := w[x/a,y/a].",
            "",
            "refused second renaming at 39\n",
            1,
        ),
        (
            "let w := pref*[a?;b!]. main := w[x/c].",
            "",
            "refused renaming of no symbol at 35\n",
            1,
        ),
        (
            "let w := pref*[a?;b!]. main := w[b/a].",
            "",
            "refused merging at 33\n",
            1,
        ),
        (
            "let w := pref*[a?;b!]. main := w[x/a,y/b]||w[y/a,z/b].",
            "",
            "refused G7 process 2 place 1 against process 1 place 2\n",
            1,
        ),
        (
            "let w := pref*[a?;b!]. main := w[x/a]||w[z/a].",
            "admitted\nprocesses 2\nsymbols 3\nplaces 4\n",
            "",
            0,
        ),
        (
            "let w := pref*[a?;b!]. let v := pref*[c?;d!]. main := v.",
            "admitted\nprocesses 1\nsymbols 2\nplaces 2\n",
            "",
            0,
        ),
        ("main := pref*[a?;b%!].", "", "refused byte at 18\n", 1),
        ("main := pref*[a?;_!].", "", "refused token at 17\n", 1),
        (
            "main := pref*[a?;abcdefghijklmnopqrstuvwxyzabcdefg!].",
            "",
            "refused name at 17\n",
            1,
        ),
        ("main := pref*[(a?)].", "", "refused text at 17\n", 1),
    ];
    for (content, out, say, status) in rows {
        let ran = call(alloc, "check F", Some(content), Vec::new(alloc))?;
        assert!(rt; ran.out.bytes() == out.as_bytes(), "{content}");
        assert!(rt; ran.say.bytes() == say.as_bytes(), "{content}");
        assert_eq!(rt; ran.outcome.status(), status);
    }
    Ok(())
}

// A text, a piece so many times, and an end.
pub fn repeated(
    alloc: Global,
    start: &str,
    piece: &str,
    times: u32,
    end: &str,
) -> Result<String, Fail> {
    let mut text = String::from_str(alloc, start)?;
    for _ in 0..times {
        text.push_str(piece)?;
    }
    text.push_str(end)?;
    Ok(text)
}

// Processes that take a symbol of their own and give another, woven.
pub fn many_processes(alloc: Global, many: u32, inputs: u32) -> Result<String, Fail> {
    let mut text = String::from_str(alloc, "main := ")?;
    for process in 0..many {
        if process > 0 {
            text.push_str("||")?;
        }
        text.push_str("pref*[")?;
        for input in 0..inputs {
            write!(text, "a{process}_{input}?;b{process}_{input}!;")?;
        }
        write!(text, "c{process}?;d{process}!]")?;
    }
    text.push('.')?;
    Ok(text)
}

// A weave of 257 processes, and a command of 1,026 symbols.
#[test]
fn refuses_many_processes_and_symbols(rt: HostRuntime) -> Result<(), Fail> {
    let alloc = rt.alloc();
    let rows = [
        (257, 0, "limit L4: found 257, allowed 256\n"),
        (27, 18, "limit L3: found 1026, allowed 1024\n"),
    ];
    for (many, inputs, say) in rows {
        let text = many_processes(alloc, many, inputs)?;
        let ran = call(alloc, "check F", Some(text.as_str()), Vec::new(alloc))?;
        assert!(rt; ran.out.bytes().is_empty());
        assert!(rt; ran.say.bytes() == say.as_bytes(), "{many}");
        assert_eq!(rt; ran.outcome.status(), 6);
    }
    Ok(())
}

// Files past a limit: too many brackets, bytes and symbol places.
#[test]
fn refuses_what_is_past_a_limit(rt: HostRuntime) -> Result<(), Fail> {
    let alloc = rt.alloc();
    let rows = [
        ("main := pref*[", "(", 65, "", "refused depth at 78\n", 1),
        (
            "",
            "# ..............",
            65_536,
            "#",
            "limit L1: found 1048577, allowed 1048576\n",
            6,
        ),
        (
            "main := pref*[",
            "a?;b!;",
            4096,
            "a?].",
            "limit L5: found 8193, allowed 8192\n",
            6,
        ),
    ];
    for (start, piece, times, end, say, status) in rows {
        let text = repeated(alloc, start, piece, times, end)?;
        let ran = call(alloc, "check F", Some(text.as_str()), Vec::new(alloc))?;
        assert!(rt; ran.out.bytes().is_empty());
        assert!(rt; ran.say.bytes() == say.as_bytes(), "{piece}");
        assert_eq!(rt; ran.outcome.status(), status);
    }
    Ok(())
}
