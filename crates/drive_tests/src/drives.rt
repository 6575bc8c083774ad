//! Small networks, driven: one that has one event at each step, one with a hazard, one in which nothing may happen.
ghost use Rattle.std.specs.Prelude.{IfOk};
ghost use Rattle.replay.specs.Answers.{IsPlayable};

use cmd_tree::{MAX_NETLIST_BYTES, Sym};
use net_core::Net;
use net_drive::{Driven, Stop, drive};
use net_text::read_net;
use replay::{Answer, Event, Probe, Replaying};
use std::alloc::Global;
use std::test::Fail;

const BUFFER: &[u8] = b"dinet 1\nspec pref*[a?;b!]\nport a? 0\nport b! 1\nWIRE 0 > 1\nend\n";

const EARLY: &[u8] =
    b"dinet 1\nspec pref*[b!;a?;c!;a?]\nport b! 0\nport a? 1\nport c! 2\nSINK 1 >\nSOURCE > 2\nFORK 3 > 3 0\nend\n";

const STILL: &[u8] =
    b"dinet 1\nspec pref*[b!;a?]\nport b! 0\nport a? 1\nSINK 1 >\nFORK 2 > 2 0\nend\n";

fn net_of(alloc: Global, text: &[u8]) -> Result<Net, Fail>
    ensures { IfOk result (λ net. IsPlayable net) }
{
    if text.len() > MAX_NETLIST_BYTES {
        return Err(Fail::new("the netlist is too long"));
    }
    match read_net(alloc, text) {
        Ok(net) => Ok(net),
        Err(_) => Err(Fail::new("the netlist is refused")),
    }
}

fn driven(alloc: Global, text: &[u8], seed: u64, steps: u32) -> Result<Driven, Fail> {
    let net = net_of(alloc, text)?;
    Ok(drive(alloc, net, seed, steps)?)
}

// Whether each of the events may happen.
fn all_enabled<P: Probe>(replay: &mut Replaying<P>, events: &[Event]) -> bool {
    for event in events {
        if !replay.enabled(*event) {
            return false;
        }
    }
    true
}

#[test]
fn each_seed_draws_the_one_event(rt: HostRuntime) -> Result<(), Fail> {
    let alloc = rt.alloc();
    let wanted = [
        Event::Give(Sym(0)),
        Event::Pass(0),
        Event::Fire(1, 1),
        Event::Pass(1),
        Event::Give(Sym(0)),
    ];
    for seed in [0, 1, 7, u64::MAX] {
        let driven = driven(alloc, BUFFER, seed, 5)?;
        assert_eq!(rt; driven.events.as_slice(), wanted.as_slice());
        assert_eq!(rt; driven.stop, Stop::All);
        assert_eq!(rt; driven.seen, 3);
        assert!(rt; driven.replay.asked() <= 19);
    }
    Ok(())
}

#[test]
fn a_hazard_stops_before_its_event(rt: HostRuntime) -> Result<(), Fail> {
    let alloc = rt.alloc();
    let driven = driven(alloc, EARLY, 1, 5)?;
    let stop = Stop::Hazard(Answer::WrongOutput { sym: Sym(2) });
    assert_eq!(rt; driven.stop, stop);
    assert_eq!(rt; driven.events.as_slice(), [Event::Fire(2, 1)].as_slice());
    assert_eq!(rt; driven.seen, 0);
    Ok(())
}

#[test]
fn nothing_may_happen(rt: HostRuntime) -> Result<(), Fail> {
    let alloc = rt.alloc();
    let driven = driven(alloc, STILL, 1, 5)?;
    assert_eq!(rt; driven.stop, Stop::Quiet);
    assert!(rt; driven.events.is_empty());
    Ok(())
}

#[test]
fn asked_counts_the_tests(rt: HostRuntime) -> Result<(), Fail> {
    let alloc = rt.alloc();
    let mut replay = driven(alloc, BUFFER, 3, 2)?.replay;
    let before = replay.asked();
    assert!(rt; all_enabled(&mut replay, &[Event::Fire(1, 1)]));
    let others = [
        Event::Give(Sym(0)),
        Event::Give(Sym(1)),
        Event::Pass(0),
        Event::Pass(2),
        Event::Fire(0, 1),
        Event::Fire(1, 2),
        Event::Unknown,
    ];
    for event in &others {
        assert!(rt; !all_enabled(&mut replay, &[*event]));
    }
    assert_eq!(rt; replay.asked(), before.saturating_add(8));
    Ok(())
}
