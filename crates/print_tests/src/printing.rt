//! Shelves, sinks, printers and the texts of commands.
use cmd_text::{put_command, write_command};
use cmd_tree::{Command, Dir, Item, Mark, Name, NameSet, Proc, Seq, Sym};
use di_io::{HostShelf, HostSink, LoadFault, MemShelf, MemSink, Printer, Shelf, Sink};
use sqlite_items::Items;
use std::alloc::{AllocError, Global};
use std::io::Write;
use std::test::Fail;
use std::{env, fs, io, process};

// Takes two bytes, and then none.
#[derive(Drop)]
struct TwoBytes {
    taken: Vec<u8>,
}

impl Write for TwoBytes {
    fn write(&mut self, buf: &[u8]) -> io::Result<usize> {
        match buf {
            [first, ..] if self.taken.len() < 2 => {
                self.taken.push(*first)?;
                Ok(1)
            }
            _ => Ok(0),
        }
    }

    fn flush(&mut self) -> io::Result<()> {
        Ok(())
    }
}

#[test]
fn loads_files(rt: HostRuntime) -> Result<(), Fail> {
    let alloc = rt.alloc();
    let folder = env::temp_dir(&rt)?;
    let mut path = folder.clone()?;
    let name = format!(in alloc; "di_io_{}", process::id(rt.process()))?;
    path.push(name.as_str())?;
    fs::write(&rt, path.as_str(), "abcdef")?;
    let mut shelf = HostShelf::new(rt.clone()?);
    let rows = [
        (path.as_str(), 4, Some("abcd")),
        (path.as_str(), 9, Some("abcdef")),
        (folder.as_str(), 9, None),
        ("/no such file", 9, None),
    ];
    for (name, cap, wanted) in rows {
        match (shelf.load(alloc, name, cap), wanted) {
            (Ok(bytes), Some(text)) => assert!(rt; bytes.as_slice() == text.as_bytes()),
            (Err(fault), None) => assert_eq!(rt; fault, LoadFault::Failed),
            _ => assert!(rt; false, "{name} with {cap}"),
        }
    }
    fs::remove_file(&rt, path.as_str())?;
    Ok(())
}

#[test]
fn puts_to_a_stream(rt: HostRuntime) -> Result<(), Fail> {
    let mut stream = TwoBytes {
        taken: Vec::new(rt.alloc()),
    };
    let mut sink = HostSink::new(&mut stream);
    assert!(rt; sink.put(b"").is_ok());
    assert!(rt; sink.put(b"ab").is_ok());
    assert!(rt; sink.put(b"c").is_err());
    drop(sink);
    assert!(rt; stream.taken.as_slice() == b"ab".as_slice());
    Ok(())
}

fn file(alloc: Global, name: &str, content: &str) -> Result<(String, Vec<u8>), Fail> {
    let name = String::from_str(alloc, name)?;
    let content = Vec::from_slice(alloc, content.as_bytes())?;
    Ok((name, content))
}

// Loads in turn, each with what it answers.
#[test]
fn loads_from_memory(rt: HostRuntime) -> Result<(), Fail> {
    let alloc = rt.alloc();
    let files = vec![in alloc;
        file(alloc, "a", "abcdef")?,
        file(alloc, "b", "")?,
        file(alloc, "a", "no")?,
    ]?;
    let fails = vec![in alloc; 2, 9, 2]?;
    let rows = [
        ("a", 6, Some("abcdef")),
        ("a", 6, None),
        ("a", 4, Some("abcd")),
        ("c", 4, None),
        ("b", 4, Some("")),
        ("a", 9, Some("abcdef")),
        ("a", 0, Some("")),
    ];
    let mut shelf = MemShelf::new(files, fails);
    for (name, cap, wanted) in rows {
        match (shelf.load(alloc, name, cap), wanted) {
            (Ok(bytes), Some(text)) => assert!(rt; bytes.as_slice() == text.as_bytes()),
            (Err(fault), None) => assert_eq!(rt; fault, LoadFault::Failed),
            _ => assert!(rt; false, "{name} with {cap}"),
        }
    }
    Ok(())
}

// Puts in turn, each with whether it succeeds and what is written after it.
#[test]
fn puts_into_memory(rt: HostRuntime) -> Result<(), Fail> {
    let alloc = rt.alloc();
    let fails = vec![in alloc; (2, 1), (4, 9), (2, 3), (7, 0)]?;
    let rows = [
        ("abc", true, "abc"),
        ("def", false, "abcd"),
        ("1234567", false, "abcd"),
        ("xy", false, "abcdxy"),
        ("1234", true, "abcdxy1234"),
        ("5", false, "abcdxy1234"),
        ("", false, "abcdxy1234"),
        ("", true, "abcdxy1234"),
    ];
    let mut sink = MemSink::new(alloc, 10, fails)?;
    for (text, succeeds, written) in rows {
        assert_eq!(rt; sink.put(text.as_bytes()).is_ok(), succeeds, "{text}");
        assert!(rt; sink.bytes() == written.as_bytes(), "{text}");
    }
    Ok(())
}

// Prints so many times a text, and then another once. The puts of these numbers fail. Says whether all was
// put, and what was.
fn print(
    alloc: Global,
    text: &[u8],
    times: usize,
    last: &[u8],
    fails: Vec<(u64, usize)>,
) -> Result<(bool, MemSink), Fail> {
    let mut sink = MemSink::new(alloc, 20_000, fails)?;
    let mut printer = Printer::new(&mut sink);
    for _ in 0..times {
        printer.print(text);
    }
    printer.print(last);
    let (result, _) = printer.finish();
    Ok((result.is_ok(), sink))
}

// A printer of 5000 texts of two bytes puts 4096 bytes, 4096 bytes and the rest.
#[test]
fn prints_in_blocks(rt: HostRuntime) -> Result<(), Fail> {
    let alloc = rt.alloc();
    let rows = [
        (b"ab".as_slice(), 0, b"".as_slice(), 1, true, 0),
        (b"ab", 5000, b"", 4, true, 10_000),
        (b"ab", 5000, b"", 3, false, 8199),
        (b"ab", 5000, b"", 1, false, 7),
        (b"a", 4096, b"", 2, true, 4096),
        (b"a", 4095, b"bc", 1, false, 7),
        (b"a", 4095, b"bc", 2, false, 4097),
        (&[65; 5000], 2, b"", 3, true, 10_000),
        (&[65; 5000], 2, b"", 2, false, 5007),
        (&[65; 5000], 2, b"c", 1, false, 7),
    ];
    for (text, times, last, failing, whole, length) in rows {
        let fails = vec![in alloc; (failing, 7)]?;
        let (done, sink) = print(alloc, text, times, last, fails)?;
        assert_eq!(rt; done, whole);
        assert_eq!(rt; sink.bytes().len(), length);
    }
    Ok(())
}

fn command(alloc: Global) -> Result<Command, AllocError> {
    let mut names = NameSet::new(alloc);
    names.insert(Name::new(alloc, b"a7")?)?;
    let burst = Items::from_slice(
        alloc,
        &[Mark {
            sym: Sym(0),
            dir: Dir::Input,
        }],
    )?;
    let body = vec![in alloc; Item::Burst(burst)]?;
    let procs = vec![in alloc;
        Proc {
            lead: None,
            body: Some(Seq {
                items: Items::from_vec(body)
            })
        },
    ]?;
    Ok(Command {
        names,
        procs: Items::from_vec(procs),
    })
}

#[test]
fn writes_a_command(rt: HostRuntime) -> Result<(), Fail> {
    let command = command(rt.alloc())?;
    let text = write_command(rt.alloc(), &command)?;
    assert_eq!(rt; text.as_slice(), b"pref*[a7?]".as_slice());
    let mut sink = MemSink::new(rt.alloc(), 20, Vec::new(rt.alloc()))?;
    assert!(rt; put_command(&command, &mut sink).is_ok());
    assert_eq!(rt; sink.bytes(), b"pref*[a7?]".as_slice());
    Ok(())
}
