//! Texts of lists, with what is read of them and which rule they break, and texts with a faulty line.
use crate::check::check_rules;
use crate::list::{TraceList, TraceRefusal};
use crate::read::read_traces;
use cmd_tree::{Dir, MAX_FILE_BYTES, Sym};
use std::alloc::Global;
use std::test::Fail;

// A text of a few lines, which is within the limit.
fn read(alloc: Global, bytes: &[u8]) -> Result<TraceList, TraceRefusal> {
    if bytes.len() > MAX_FILE_BYTES {
        return Err(TraceRefusal::NoMemory);
    }
    read_traces(alloc, bytes)
}

fn refused_line(alloc: Global, bytes: &[u8]) -> Option<u32> {
    match read(alloc, bytes) {
        Ok(_) => None,
        Err(TraceRefusal::BadLine { line }) => Some(line),
        Err(TraceRefusal::NoMemory) => Some(0),
    }
}

fn is_trace(trace: &[Sym], symbols: &[u32]) -> bool {
    if trace.len() != symbols.len() {
        return false;
    }
    trace
        .iter()
        .zip(symbols)
        .all(|(sym, number)| sym.0 == *number)
}

// The list's broken rule, and its trace, which is to be this one; 9 where there is none.
fn broken_rule(alloc: Global, bytes: &[u8], symbols: &[u32]) -> Option<u8> {
    let Ok(list) = read(alloc, bytes) else {
        return None;
    };
    let Ok(broken) = check_rules(alloc, list.traces.as_slice(), list.dirs.as_slice()) else {
        return None;
    };
    match broken {
        None => Some(9),
        Some(broken) if is_trace(broken.trace.as_slice(), symbols) => Some(broken.rule),
        Some(_) => None,
    }
}

#[test]
fn reads_a_list(rt: HostRuntime) -> Result<(), Fail> {
    let Ok(list) = read(rt.alloc(), b"in a b\nout c\n\na\nb a\n") else {
        return Err(Fail::new("the list is refused"));
    };
    let names = list.names.as_slice();
    assert_eq!(rt; names.len(), 3);
    assert_eq!(rt; names[0].bytes(), b"a".as_slice());
    assert_eq!(rt; names[2].bytes(), b"c".as_slice());
    let dirs = [Dir::Input, Dir::Input, Dir::Output];
    assert_eq!(rt; list.dirs.as_slice(), dirs.as_slice());
    assert_eq!(rt; list.traces.len(), 3);
    assert!(rt; is_trace(list.traces[0].as_slice(), &[]));
    assert!(rt; is_trace(list.traces[1].as_slice(), &[0]));
    assert!(rt; is_trace(list.traces[2].as_slice(), &[1, 0]));
    Ok(())
}

#[test]
fn tells_rules(rt: HostRuntime) -> Result<(), Fail> {
    let rows: [(&[u8], u8, &[u32]); 4] = [
        (b"in a b\nout c\n\na\nb\na b\n", 2, &[1, 0]),
        (b"in a\nout\n\na\na a\n", 1, &[0, 0]),
        (b"in a\nout b\n\na\na b\n", 9, &[]),
        (b"in a\nout b\n", 0, &[]),
    ];
    for (bytes, rule, symbols) in rows {
        assert_eq!(rt;
            broken_rule(rt.alloc(), bytes, symbols),
            Some(rule),
            "at {}",
            bytes.len()
        );
    }
    Ok(())
}

#[test]
fn tells_faulty_lines(rt: HostRuntime) -> Result<(), Fail> {
    let rows: [(&[u8], Option<u32>); 22] = [
        (b"", Some(1)),
        (b"\n", Some(1)),
        (b"in a", Some(1)),
        (b"in a\n", Some(2)),
        (b"in\nout\n", None),
        (b"in a\nout b", Some(2)),
        (b"in a\nout b\na", Some(3)),
        (b"in a\nout b\n\n\na b\n", None),
        (b"out a\nin b\n", Some(1)),
        (b"in \nout b\n", Some(1)),
        (b"in  a\nout b\n", Some(1)),
        (b"in a \nout b\n", Some(1)),
        (b"in a a\nout b\n", Some(1)),
        (b"in a\nout a\n", Some(2)),
        (b"in let\nout b\n", Some(1)),
        (b"in 1a\nout b\n", Some(1)),
        (b"in aaaaaaaaaabbbbbbbbbbccccccccccdd\nout b\n", None),
        (b"in aaaaaaaaaabbbbbbbbbbccccccccccddd\nout b\n", Some(1)),
        (b"in a\nout b\na  b\n", Some(3)),
        (b"in a\nout b\na\nc\nb b b\n", Some(4)),
        (b"in a\nout b\na\r\n", Some(3)),
        (b"in a\nout b\na b \n", Some(3)),
    ];
    for (bytes, line) in rows {
        assert_eq!(rt; refused_line(rt.alloc(), bytes), line, "at {}", bytes.len());
    }
    Ok(())
}
