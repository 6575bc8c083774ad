//! A netlist that reads back and prints the same, and netlists with one fault each.
use crate::net::write_net;
use crate::read::read_net;
use crate::refusal::NetRefusal;
use cmd_tree::MAX_NETLIST_BYTES;
use di_io::MemSink;
use std::alloc::Global;
use std::test::Fail;

// The refusal of a text of a few lines, which is within the limit; none where it is read.
fn refusal(alloc: Global, bytes: &[u8]) -> Option<NetRefusal> {
    if bytes.len() > MAX_NETLIST_BYTES {
        return None;
    }
    match read_net(alloc, bytes) {
        Ok(_) => None,
        Err(refusal) => Some(refusal),
    }
}

// Whether the text is read, and its network put again gives the text.
fn is_put_again(alloc: Global, bytes: &[u8]) -> Result<bool, Fail> {
    if bytes.len() > MAX_NETLIST_BYTES {
        return Ok(false);
    }
    let Ok(net) = read_net(alloc, bytes) else {
        return Ok(false);
    };
    let mut sink = MemSink::new(alloc, 1000, Vec::new(alloc))?;
    let result = write_net(&net, &mut sink);
    Ok(result.is_ok() && sink.bytes() == bytes)
}

#[test]
fn netlists_are_read(rt: HostRuntime) -> Result<(), Fail> {
    let rows = [
        "dinet 1\nspec pref*[a?;b!]\nport a? 0\nport b! 1\nWIRE 0 > 1\nend\n",
        "dinet 1\nspec pref*[(a?||b?);c!]\nport a? 0\nport b? 1\nport c! 2\nDW 1 1 0.0 : 0 1 > 2\nend\n",
    ];
    for text in rows {
        assert!(rt; is_put_again(rt.alloc(), text.as_bytes())?, "{text}");
    }
    Ok(())
}

#[test]
fn faults_are_told(rt: HostRuntime) -> Result<(), Fail> {
    let rows = [
        (
            "dinet 1\nspec pref*[a?;b!]\nport a? 0\nport b! 1\nWIRE 0 > 1\n",
            NetRefusal::Truncated { line: 6 },
        ),
        (
            "dinet 1\nspec pref*[a?;b!]\nport a? 0\nport b! 1\nWIRE 00 > 1\nend\n",
            NetRefusal::BadLine { line: 5 },
        ),
        (
            "dinet 1\nspec pref*[a?;b!]\nport a? 0\nport b! 1\nWIRE 0  > 1\nend\n",
            NetRefusal::BadLine { line: 5 },
        ),
        (
            "dinet 1\nspec pref*[a?;b!]\nport a? 0\nport b! 1\nWIRE 0 > 2\nend\n",
            NetRefusal::OpenPort { wire: 1 },
        ),
        (
            "dinet 1\nspec pref*[a?;b?]\nport a? 0\nport b? 1\nend\n",
            NetRefusal::SpecRefused { rule: 2 },
        ),
        (
            "dinet 1\nspec pref*[a?;b!]\nport a? 0\nport b! 1\nWIRE 0 > 1\nend\nx\n",
            NetRefusal::BadLine { line: 7 },
        ),
        ("dinet 1", NetRefusal::Truncated { line: 1 }),
    ];
    for (text, expected) in rows {
        assert!(rt;
            refusal(rt.alloc(), text.as_bytes()) == Some(expected),
            "{text}"
        );
    }
    Ok(())
}
