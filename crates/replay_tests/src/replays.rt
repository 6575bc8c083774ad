//! A MERGE in the environment of a command that asks for a C: its first output comes too early.
ghost use Rattle.std.specs.Prelude.{◌≡◌, ◌≤◌, length, IfOk};
ghost use Rattle.di_grammar.specs.Admitted.{Admitted};
ghost use Rattle.replay.specs.Answers.{IsPlayable};

use basic_kinds::Kind;
use cmd_expand::expand;
use cmd_text::read_file;
use cmd_tree::{Command, MAX_FILE_BYTES, MAX_NETLIST_BYTES, Sym};
use di_grammar::check;
use net_core::{Net, NetBuilder, NodeSpec, closed};
use replay::{
    Answer, CountProbe, Event, PeakProbe, Probe, ProbeFault, Replay, Replaying, ScheduleRefusal,
    Seen, read_schedule,
};
use std::alloc::Global;
use std::test::Fail;

/// Counts as a `CountProbe` does.
#[derive(Drop)]
struct LaterProbe {
    gives: u64,
    passes: u64,
    fires: u64,
}

impl Probe for LaterProbe {
    ghost use Rattle.std.specs.Prelude.{[], ◌∷◌, true};

    ghost rule = { λ _. 1 };

    ghost numbers = { λ p. p.gives ∷ p.passes ∷ p.fires ∷ [] };

    ghost room = { λ _. 1 };

    ghost steady = { λ _. true };

    fn rule(&self) -> u32 {
        1
    }

    fn ready(&mut self) -> Result<(), ProbeFault> {
        Ok(())
    }

    fn see(&mut self, e: Seen) {
        match e {
            Seen::Gave { .. } => self.gives = self.gives.saturating_add(1),
            Seen::Passed { .. } => self.passes = self.passes.saturating_add(1),
            Seen::Fired { .. } => self.fires = self.fires.saturating_add(1),
        }
    }

    fn line(&self, k: u32) -> Option<u64> {
        match k {
            0 => Some(self.gives),
            1 => Some(self.passes),
            2 => Some(self.fires),
            _ => None,
        }
    }
}

fn command_of(alloc: Global, text: &[u8]) -> Result<Command, Fail> {
    if text.len() > MAX_FILE_BYTES {
        return Err(Fail::new("the file is too long"));
    }
    let Ok(file) = read_file(alloc, text) else {
        return Err(Fail::new("the file is refused"));
    };
    let Ok(command) = expand(alloc, &file) else {
        return Err(Fail::new("the file is refused"));
    };
    Ok(command)
}

fn merge_command(alloc: Global) -> Result<Command, Fail>
    ensures admitted { IfOk result (λ command. Admitted command.procs) }
    ensures names { IfOk result (λ command. length command.names ≡ 3) }
{
    let command = command_of(alloc, b"main := pref*[(a?||b?);c!].")?;
    if command.names.len() != 3 {
        return Err(Fail::new("the command has other symbols"));
    }
    match check(&command) {
        None => Ok(command),
        Some(_) => Err(Fail::new("the command is not admitted")),
    }
}

fn merge_net(alloc: Global) -> Result<Net, Fail>
    ensures { IfOk result (λ net. IsPlayable net) }
{
    let command = merge_command(alloc)?;
    let mut builder = NetBuilder::new(alloc, NodeSpec::Cmd(command))?;
    builder.wires(3)?;
    builder.node(NodeSpec::Kind(Kind::Merge(2)), vec![in alloc; 0, 1, 2]?)?;
    let net = builder.finish(vec![in alloc; 0, 1, 2]?)?;
    match closed(&net) {
        None => Ok(net),
        Some(_) => Err(Fail::new("the network is open")),
    }
}

// The first answer that is not `Done`, if there is one.
fn play_all<P: Probe>(replay: &mut Replaying<P>, events: &[Event]) -> Answer
    requires { length events.now ≤ replay.old.course.room }
{
    for event in events {
        match replay.play(*event) {
            Answer::Done => {}
            answer => return answer,
        }
    }
    Answer::Done
}

fn lines(probe: &impl Probe) -> [Option<u64>; 4] {
    [probe.line(0), probe.line(1), probe.line(2), probe.line(3)]
}

#[test]
fn a_merge_gives_an_output_too_early(rt: HostRuntime) -> Result<(), Fail> {
    let alloc = rt.alloc();
    let mut probes: Vec<Box<dyn Probe>> = Vec::new(alloc);
    probes.push(Box::new(alloc, CountProbe::new())?)?;
    probes.push(Box::new(alloc, PeakProbe::new())?)?;
    let mut replay = Replay::start(alloc, merge_net(alloc)?, probes, 4)?;
    let events = [
        Event::Give(Sym(0)),
        Event::Pass(0),
        Event::Fire(1, 1),
        Event::Pass(2),
    ];
    let answer = play_all(&mut replay, &events);
    assert_eq!(rt; answer, Answer::WrongOutput { sym: Sym(2) });
    assert_eq!(rt; replay.seen(), [Sym(0)].as_slice());
    let (net, probes) = replay.finish();
    assert_eq!(rt; net.nodes.len(), 2);
    let [count, peak] = probes.as_slice() else {
        return Err(Fail::new("the probes are lost"));
    };
    assert_eq!(rt; lines(count), [Some(1), Some(1), Some(1), None]);
    assert_eq!(rt; lines(peak), [Some(1), Some(1), None, None]);
    Ok(())
}

#[test]
fn a_symbol_is_not_given_twice(rt: HostRuntime) -> Result<(), Fail> {
    let alloc = rt.alloc();
    let mut probes = Vec::new(alloc);
    probes.push(LaterProbe {
        gives: 5,
        passes: 0,
        fires: 0,
    })?;
    let mut replay = Replaying::start(alloc, merge_net(alloc)?, probes, 2)?;
    let events = [Event::Give(Sym(0)), Event::Give(Sym(0))];
    let answer = play_all(&mut replay, &events);
    assert_eq!(rt; answer, Answer::NotAllowed { sym: Sym(0) });
    let (_net, probes) = replay.finish();
    let [later] = probes.as_slice() else {
        return Err(Fail::new("the probe is lost"));
    };
    assert_eq!(rt; lines(later), [Some(6), Some(0), Some(0), None]);
    Ok(())
}

#[test]
fn reads_schedules(rt: HostRuntime) -> Result<(), Fail> {
    let alloc = rt.alloc();
    let command = command_of(alloc, b"main := pref*[(a?||b?);c!].")?;
    let events = read_schedule(
        alloc,
        b"give b\npass 4294967295\nfire 0 10\ngive x\n",
        &command,
    )?;
    let wanted = [
        Event::Give(Sym(1)),
        Event::Pass(u32::MAX),
        Event::Fire(0, 10),
        Event::Unknown,
    ];
    assert_eq!(rt; events.as_slice(), wanted.as_slice());
    let faults: [(&[u8], u32); 4] = [
        (b"give a", 1),
        (b"give a\npass 02\n", 2),
        (b"pass 1\nfire 1\n", 2),
        (b"give main\n", 1),
    ];
    for (text, line) in &faults {
        let Err(refusal) = read_schedule(alloc, text, &command) else {
            return Err(Fail::new("a faulty line is read"));
        };
        assert_eq!(rt; refusal, ScheduleRefusal::BadLine { line: *line });
    }
    Ok(())
}
