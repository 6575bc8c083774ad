//! What files with definitions mean.
use cmd_expand::{ExpandRefusal, expand};
use cmd_text::{read_file, write_command};
use cmd_tree::{Command, MAX_FILE_BYTES, places};
use std::alloc::Global;
use std::test::Fail;

fn meaning(alloc: Global, text: &[u8]) -> Result<Command, ExpandRefusal> {
    if text.len() > MAX_FILE_BYTES {
        return Err(ExpandRefusal::NoMemory);
    }
    let Ok(file) = read_file(alloc, text) else {
        return Err(ExpandRefusal::NoMemory);
    };
    expand(alloc, &file)
}

#[test]
fn replaces_definitions(rt: HostRuntime) -> Result<(), Fail> {
    let rows: [(&[u8], &[u8]); 9] = [
        (b"main := pref*[a?;b!].", b"pref*[a?;b!]"),
        (
            b"let w := pref*[a?;b!]. main := w[x/a,y/b]||w[y/a,z/b].",
            b"pref*[x?;y!]||pref*[y?;z!]",
        ),
        (
            b"let w := pref*[a?;b!]. main := w[x/a]||w[z/a].",
            b"pref*[x?;b!]||pref*[z?;b!]",
        ),
        (
            b"let w := pref*[a?;b!]. main := w[a/b,b/a].",
            b"pref*[b?;a!]",
        ),
        (
            b"let w := pref*[a?;b!]. let v := w[c/a]||pref*[b?;d!]. main := pref*[d?;e!]||v[f/b].",
            b"pref*[d?;e!]||pref*[c?;f!]||pref*[f?;d!]",
        ),
        (
            b"let a := pref*[a?;b!]. let b := a[c/a]. let c := b[a/b]. main := c[b/c,c/a].",
            b"pref*[b?;c!]",
        ),
        (
            b"let a := pref*[a?;b!]. let b := a[c/a]||a. main := b[b/c,c/b].",
            b"pref*[b?;c!]||pref*[a?;c!]",
        ),
        (
            b"let w := pref[c?;*[(a?||b?);c!]]. main := w[a/a]||w||pref*[a?|b!].",
            b"pref[c?;*[(a?||b?);c!]]||pref[c?;*[(a?||b?);c!]]||pref*[a?|b!]",
        ),
        (
            b"let unused := pref*[z?]. main := pref*[a?;b!].",
            b"pref*[a?;b!]",
        ),
    ];
    for (text, wanted) in rows {
        let Ok(command) = meaning(rt.alloc(), text) else {
            return Err(Fail::new("the file is refused"));
        };
        let written = write_command(rt.alloc(), &command)?;
        assert_eq!(rt; written.as_slice(), wanted);
    }
    Ok(())
}

#[test]
fn counts_names_processes_and_places(rt: HostRuntime) -> Result<(), Fail> {
    let Ok(command) = meaning(
        rt.alloc(),
        b"let w := pref*[a?;b!]. main := w[x/a]||w[z/a].",
    ) else {
        return Err(Fail::new("the file is refused"));
    };
    assert_eq!(rt; command.procs.len(), 2);
    assert_eq!(rt; places(&command), 4);
    let wanted: [&[u8]; 3] = [b"x", b"b", b"z"];
    assert_eq!(rt; command.names.len(), wanted.len());
    for (name, wanted) in command.names.as_slice().iter().zip(wanted) {
        assert_eq!(rt; name.bytes(), wanted);
    }
    Ok(())
}

#[test]
fn refuses_at_the_first_place(rt: HostRuntime) -> Result<(), Fail> {
    let rows: [(&[u8], ExpandRefusal); 12] = [
        (b"main := v.", ExpandRefusal::UnknownName { at: 8 }),
        (
            b"let v := v. main := v.",
            ExpandRefusal::UsedBeforeDefined { at: 9 },
        ),
        (
            b"let v := w. let w := pref*[a?]. main := v.",
            ExpandRefusal::UsedBeforeDefined { at: 9 },
        ),
        (
            b"let v := pref*[a?]. let v := x. main := v.",
            ExpandRefusal::DefinedTwice { at: 24 },
        ),
        (
            b"let w := pref*[a?;b!]. main := w[b/a].",
            ExpandRefusal::RenameMerges { at: 33 },
        ),
        (
            b"let w := pref*[a?;b!]. main := w[x/a,x/b].",
            ExpandRefusal::RenameMerges { at: 33 },
        ),
        (
            b"let w := pref*[a?;b!]. main := w[x/a,y/a].",
            ExpandRefusal::RenamedTwice { at: 39 },
        ),
        (
            b"let w := pref*[a?;b!]. main := w[x/c].",
            ExpandRefusal::RenameUnknown { at: 35 },
        ),
        (
            b"let w := pref*[a?;b!]. main := w[x/c,y/c].",
            ExpandRefusal::RenameUnknown { at: 35 },
        ),
        (
            b"let w := pref*[a?;b!]. main := w[b/a,x/b,y/b].",
            ExpandRefusal::RenamedTwice { at: 43 },
        ),
        (
            b"let w := pref*[a?;b!]. main := w[x/a]||v||w[b/a].",
            ExpandRefusal::UnknownName { at: 39 },
        ),
        (
            b"let w := v[a/b]. main := u.",
            ExpandRefusal::UnknownName { at: 9 },
        ),
    ];
    for (text, wanted) in rows {
        let Err(refusal) = meaning(rt.alloc(), text) else {
            return Err(Fail::new("the file is taken"));
        };
        assert_eq!(rt; refusal, wanted);
    }
    Ok(())
}

/// `head`, then `count` times `part` with `||` in between, then `tail`.
fn woven(
    alloc: Global,
    head: &[u8],
    part: &[u8],
    count: usize,
    tail: &[u8],
) -> Result<Vec<u8>, Fail> {
    let mut text = Vec::from_slice(alloc, head)?;
    for index in 0..count {
        if index > 0 {
            text.extend_from_slice(b"||")?;
        }
        text.extend_from_slice(part)?;
    }
    text.extend_from_slice(tail)?;
    Ok(text)
}

#[test]
fn counts_what_is_too_much(rt: HostRuntime) -> Result<(), Fail> {
    let text = woven(
        rt.alloc(),
        b"let w := ",
        b"pref*[a?]",
        257,
        b". main := pref*[a?].",
    )?;
    assert_eq!(rt;
        meaning(rt.alloc(), text.as_slice()).err(),
        Some(ExpandRefusal::TooManyProcs { count: 257 })
    );
    let mut text = woven(rt.alloc(), b"let a := pref*[", b"", 0, b"")?;
    for index in 0..100 {
        if index > 0 {
            text.push(b';')?;
        }
        text.extend_from_slice(b"a?;b!")?;
    }
    text.extend_from_slice(b"]. ")?;
    for letter in b'b'..b'g' {
        text.extend_from_slice(b"let ")?;
        text.push(letter)?;
        text.extend_from_slice(b" := ")?;
        text.push(letter - 1)?;
        text.extend_from_slice(b"||")?;
        text.push(letter - 1)?;
        text.extend_from_slice(b". ")?;
    }
    text.extend_from_slice(b"let g := f||a||f. main := pref*[a?].")?;
    assert_eq!(rt;
        meaning(rt.alloc(), text.as_slice()).err(),
        Some(ExpandRefusal::TooManyPlaces { count: 13_000 })
    );
    Ok(())
}
