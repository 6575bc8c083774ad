//! Command files, read and written.
use cmd_text::{NameTable, Refusal, read_file};
use cmd_tree::{MAX_FILE_BYTES, MAX_OPEN_BRACKETS};
use std::alloc::Global;
use std::test::Fail;

fn refusal(alloc: Global, bytes: &[u8]) -> Option<Refusal> {
    if bytes.len() > MAX_FILE_BYTES {
        return Some(Refusal::NoMemory);
    }
    match read_file(alloc, bytes) {
        Ok(_) => None,
        Err(refusal) => Some(refusal),
    }
}

#[test]
fn answers_files(rt: HostRuntime) -> Result<(), Fail> {
    let rows: [(&[u8], Option<Refusal>); 13] = [
        (b"", Some(Refusal::Unexpected { at: 0 })),
        (b"main := pref*[a?;", Some(Refusal::Unexpected { at: 17 })),
        (
            b"main := pref*[(a?)].",
            Some(Refusal::Unexpected { at: 17 }),
        ),
        (b"# a line\nmain := pref*[a?].\n", None),
        (b"# a line\x01", Some(Refusal::BadByte { at: 8 })),
        (b"main : pref", Some(Refusal::BadToken { at: 5 })),
        (b"main := 9.", Some(Refusal::BadToken { at: 8 })),
        (
            b"let aaaaaaaaaabbbbbbbbbbccccccccccddd",
            Some(Refusal::NameTooLong { at: 4 }),
        ),
        (
            b"let aaaaaaaaaabbbbbbbbbbccccccccccdd",
            Some(Refusal::Unexpected { at: 36 }),
        ),
        (b"main \xc8", Some(Refusal::BadByte { at: 5 })),
        (
            b"main := v.\nmain := v.",
            Some(Refusal::Unexpected { at: 11 }),
        ),
        (b"main := v[x/a y/b].", Some(Refusal::Unexpected { at: 14 })),
        (
            b"let w := pref[c?;*[(a?||b?);c!]].\nmain := w[x/a,y/b]||w||pref*[a?|b!].",
            None,
        ),
    ];
    for (bytes, wanted) in rows {
        assert_eq!(rt; refusal(rt.alloc(), bytes), wanted, "at {}", bytes.len());
    }
    Ok(())
}

#[test]
fn refuses_the_65th_bracket(rt: HostRuntime) -> Result<(), Fail> {
    let mut text = Vec::new(rt.alloc());
    text.extend_from_slice(b"main := pref*[")?;
    for _ in 0..MAX_OPEN_BRACKETS {
        text.push(b'(')?;
    }
    assert_eq!(rt;
        refusal(rt.alloc(), text.as_slice()),
        Some(Refusal::Unexpected { at: 78 })
    );
    text.push(b'(')?;
    assert_eq!(rt;
        refusal(rt.alloc(), text.as_slice()),
        Some(Refusal::TooDeep { at: 78 })
    );
    Ok(())
}

#[test]
fn keeps_names_and_sentences(rt: HostRuntime) -> Result<(), Fail> {
    let text = b"let w := pref*[b?;a!;b?].\nmain := w[x/a,y/b]||w.";
    let Ok(file) = read_file(rt.alloc(), text.as_slice()) else {
        return Err(Fail::new("the file is refused"));
    };
    assert_eq!(rt; file.names.len(), 2);
    assert_eq!(rt; file.sentences.len(), 2);
    let last = file.sentences.get(1).expect(&rt, "two sentences");
    assert!(rt; last.name.is_none());
    assert_eq!(rt; last.at, 26);
    assert_eq!(rt; last.factors.len(), 2);
    Ok(())
}

#[test]
fn numbers_names_by_first_occurrence_in_a_table(rt: HostRuntime) -> Result<(), Fail> {
    let mut names = NameTable::new(rt.alloc());
    assert!(rt; names.is_empty());
    for (text, index) in [("b", 0), ("a", 1), ("b", 0), ("c7_x", 2), ("a", 1)] {
        assert_eq!(rt;
            names.insert(rt.alloc(), text.as_bytes())?,
            index,
            "at {text}"
        );
    }
    assert_eq!(rt; names.len(), 3);
    assert_eq!(rt; names.as_slice().len(), 3);
    let set = names.into_set(rt.alloc())?;
    assert_eq!(rt; set.len(), 3);
    let last = set.get(2).expect(&rt, "three names");
    assert_eq!(rt; last.bytes(), b"c7_x".as_slice());
    Ok(())
}

#[test]
fn tells_names_apart_that_end_alike(rt: HostRuntime) -> Result<(), Fail> {
    let mut names = NameTable::new(rt.alloc());
    let texts = ["aaaa_abcdefgh", "bbbb_abcdefgh", "a_abcdefgh", "_abcdefgh"];
    for (index, text) in texts.iter().enumerate() {
        assert_eq!(rt;
            names.insert(rt.alloc(), text.as_bytes())?,
            index,
            "at {text}"
        );
    }
    assert_eq!(rt; names.insert(rt.alloc(), b"bbbb_abcdefgh")?, 1);
    assert_eq!(rt; names.len(), 4);
    Ok(())
}
