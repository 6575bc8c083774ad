//! The texts of small arbiters, and the sizes of the greatest.
use crate::arbiter::big;
use cmd_text::put_command;
use di_io::MemSink;
use std::test::Fail;

#[test]
fn two_clients(rt: HostRuntime) -> Result<(), Fail> {
    let alloc = rt.alloc();
    let command = big(alloc, 2)?;
    let mut sink = MemSink::new(alloc, 200, Vec::new(alloc))?;
    let put = put_command(&command, &mut sink);
    assert!(rt; put.is_ok());
    let text = "pref*[a1?;p1!;c1?;e1!]||pref*[a2?;p2!;c2?;e2!]||pref*[p1!;c1?|p2!;c2?]";
    assert!(rt; sink.bytes() == text.as_bytes());
    Ok(())
}

#[test]
fn most_clients(rt: HostRuntime) -> Result<(), Fail> {
    let alloc = rt.alloc();
    let command = big(alloc, 255)?;
    assert!(rt; command.procs.as_slice().len() == 256);
    assert!(rt; command.names.len() == 1020);
    let names = command.names.as_slice();
    assert!(rt; names[1016].bytes() == b"a255".as_slice());
    assert!(rt; names[1019].bytes() == b"e255".as_slice());
    Ok(())
}
