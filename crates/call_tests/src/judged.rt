//! Whole calls that check a list of traces against the rules of delay-insensitivity.
use crate::calls::call;
use std::test::Fail;

// Contents of F, with what `rules F` puts on out and says of them, and the status.
const LISTS: [(&str, &str, &str, u8); 10] = [
    (
        "in a b\nout c\n\na\nb\na b\n",
        "broken U2 missing b a\n",
        "",
        0,
    ),
    ("in a\nout\n\na\na a\n", "broken U1 present a a\n", "", 0),
    ("in a\nout b\n\na\na b\n", "rules hold\n", "", 0),
    ("in a\nout b\n", "broken U0 missing\n", "", 0),
    ("in a\nout b\n\na\nb\n", "broken U4 missing a b\n", "", 0),
    ("in a\nout b\n\na\na b", "", "refused traces line 5\n", 1),
    ("", "", "refused traces line 1\n", 1),
    ("in a\n", "", "refused traces line 2\n", 1),
    ("in a\nout a\n\n", "", "refused traces line 2\n", 1),
    ("in a\nout b\n\nc\n", "", "refused traces line 4\n", 1),
];

#[test]
fn checks_lists_of_traces(rt: HostRuntime) -> Result<(), Fail> {
    let alloc = rt.alloc();
    for (content, out, say, status) in LISTS {
        let ran = call(alloc, "rules F", Some(content), Vec::new(alloc))?;
        assert!(rt; ran.out.bytes() == out.as_bytes(), "{content}");
        assert!(rt; ran.say.bytes() == say.as_bytes(), "{content}");
        assert_eq!(rt; ran.outcome.status(), status);
    }
    Ok(())
}
