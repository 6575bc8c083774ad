//! Which probes a call keeps, drops and hands back.
use crate::calls::{shelf_of, split_words};
use cmd_tree::Sym;
use di_io::MemSink;
use di_top::{Outcome, run};
use replay::{CountProbe, PeakProbe, Probe, ProbeFault, Seen};
use std::alloc::Global;
use std::cell::Cell;
use std::rc::Rc;
use std::test::Fail;

const JOIN: &str =
    "dinet 1\nspec pref*[(a?||b?);(c!||d!)]\nport a? 0\nport b? 1\nport c! 2\nport d! 3\nC 0 1 > 4\nFORK 4 > 2 3\nend\n";

const WHOLE: &str = "give a\npass 0\ngive b\npass 1\nfire 1 1\npass 4\nfire 2 1\npass 2\n";

/// No clock shows this.
const NEVER: u64 = u64::MAX;

/// A probe that counts, whose clock ticks at each event that it sees, and that notes what it shows as it is dropped.
struct NotingProbe {
    inner: CountProbe,
    clock: Rc<Cell<u64>>,
    dropped: Rc<Cell<u64>>,
}

impl Drop for NotingProbe {
    fn drop(self) {
        self.dropped.set(self.clock.get());
        let NotingProbe {
            inner: _,
            clock: _,
            dropped: _,
        } = self;
    }
}

impl Probe for NotingProbe {
    ghost rule = { λ p. ⟦<CountProbe as Probe>⟧.rule p.inner };

    ghost numbers = { λ p. ⟦<CountProbe as Probe>⟧.numbers p.inner };

    ghost room = { λ p. ⟦<CountProbe as Probe>⟧.room p.inner };

    ghost steady = { λ p. ⟦<CountProbe as Probe>⟧.steady p.inner };

    fn rule(&self) -> u32 {
        self.inner.rule()
    }

    fn ready(&mut self) -> Result<(), ProbeFault> {
        self.inner.ready()
    }

    fn see(&mut self, e: Seen) {
        self.clock.set(self.clock.get().saturating_add(1));
        self.inner.see(e)
    }

    fn line(&self, k: u32) -> Option<u64> {
        self.inner.line(k)
    }
}

/// A probe that counts, is ready for two events, and then finds no memory.
#[derive(Drop)]
struct PoorProbe {
    inner: CountProbe,
    left: u64,
}

impl Probe for PoorProbe {
    ghost use Rattle.std.specs.Prelude.{false};

    ghost rule = { λ p. ⟦<CountProbe as Probe>⟧.rule p.inner };

    ghost numbers = { λ p. ⟦<CountProbe as Probe>⟧.numbers p.inner };

    ghost room = { λ p. ⟦<CountProbe as Probe>⟧.room p.inner };

    ghost steady = { λ _. false };

    fn rule(&self) -> u32 {
        self.inner.rule()
    }

    fn ready(&mut self) -> Result<(), ProbeFault> {
        if self.left == 0 {
            return Err(ProbeFault::NoMemory);
        }
        self.left -= 1;
        self.inner.ready()
    }

    fn see(&mut self, e: Seen) {
        self.inner.see(e)
    }

    fn line(&self, k: u32) -> Option<u64> {
        self.inner.line(k)
    }
}

/// What a call puts and says, its outcome, and the first number of each probe that it hands back.
#[derive(Drop)]
struct Handed {
    out: MemSink,
    say: MemSink,
    outcome: Outcome,
    back: Vec<Option<u64>>,
}

// Replays WHOLE on JOIN under the eyes of these probes.
fn replay_with(alloc: Global, words: &str, probes: Vec<Box<dyn Probe>>) -> Result<Handed, Fail> {
    let words = split_words(alloc, words)?;
    let mut shelf = shelf_of(alloc, &[("N", JOIN), ("S", WHOLE)], Vec::new(alloc))?;
    let mut out = MemSink::new(alloc, 1000, Vec::new(alloc))?;
    let mut say = MemSink::new(alloc, 1000, Vec::new(alloc))?;
    let (outcome, probes) = run(alloc, &words, &mut shelf, &mut out, &mut say, probes);
    let mut back = Vec::new(alloc);
    for probe in &probes {
        back.push(probe.line(0))?;
    }
    Ok(Handed {
        out,
        say,
        outcome,
        back,
    })
}

const USAGE: &str =
    "usage: dic compile wide|two F, check F, count wide|two F, run N S [count|peak], drive N SEED STEPS, rules F, big N\n";

// A probe that is wanted and not handed in: the words are of no form.
#[test]
fn wants_a_probe(rt: HostRuntime) -> Result<(), Fail> {
    let alloc = rt.alloc();
    for words in ["run N S peak", "run N S wave"] {
        let count = Box::new(alloc, CountProbe::new())?;
        let mut probes: Vec<Box<dyn Probe>> = Vec::new(alloc);
        if probes.push(count).is_err() {
            return Err(Fail::new("no memory"));
        }
        let ran = replay_with(alloc, words, probes)?;
        assert!(rt; ran.out.bytes().is_empty());
        assert!(rt; ran.say.bytes() == USAGE.as_bytes());
        assert_eq!(rt; ran.outcome, Outcome::Usage);
        assert!(rt; ran.back.is_empty());
    }
    Ok(())
}

// A probe that has seen events before goes on from its numbers.
#[test]
fn goes_on_from_the_numbers_of_a_probe(rt: HostRuntime) -> Result<(), Fail> {
    let alloc = rt.alloc();
    let mut count = CountProbe::new();
    for _ in 0..5 {
        count.see(Seen::Gave {
            sym: Sym(0),
            wire: 0,
        });
    }
    let peak = Box::new(alloc, PeakProbe::new())?;
    let count = Box::new(alloc, count)?;
    let mut probes: Vec<Box<dyn Probe>> = Vec::new(alloc);
    if probes.push(peak).is_err() || probes.push(count).is_err() {
        return Err(Fail::new("no memory"));
    }
    let ran = replay_with(alloc, "run N S count", probes)?;
    let out = "events 8\nseen a? b? c!\ngives 7\npasses 4\nfires 2\n";
    assert!(rt; ran.out.bytes() == out.as_bytes());
    assert_eq!(rt; ran.outcome, Outcome::Done);
    assert!(rt; ran.back.as_slice() == [Some(7)].as_slice());
    Ok(())
}

// Of two probes with the rule the first is kept, and the second is dropped before the first event.
#[test]
fn keeps_the_first_probe(rt: HostRuntime) -> Result<(), Fail> {
    let alloc = rt.alloc();
    let clock = Rc::new(alloc, Cell::new(0))?;
    let first_dropped = Rc::new(alloc, Cell::new(NEVER))?;
    let second_dropped = Rc::new(alloc, Cell::new(NEVER))?;
    let first = Box::new(
        alloc,
        NotingProbe {
            inner: CountProbe::new(),
            clock: clock.clone()?,
            dropped: first_dropped.clone()?,
        },
    )?;
    let second = Box::new(
        alloc,
        NotingProbe {
            inner: CountProbe::new(),
            clock: clock.clone()?,
            dropped: second_dropped.clone()?,
        },
    )?;
    let mut probes: Vec<Box<dyn Probe>> = Vec::new(alloc);
    if probes.push(first).is_err() || probes.push(second).is_err() {
        return Err(Fail::new("no memory"));
    }
    let ran = replay_with(alloc, "run N S count", probes)?;
    assert_eq!(rt; ran.outcome, Outcome::Done);
    assert!(rt; ran.back.as_slice() == [Some(2)].as_slice());
    assert_eq!(rt; clock.get(), 8);
    assert_eq!(rt; second_dropped.get(), 0);
    assert_eq!(rt; first_dropped.get(), 8);
    Ok(())
}

// Where no probe is wanted, each is dropped before the first event; no clock ticks.
#[test]
fn drops_all_probes(rt: HostRuntime) -> Result<(), Fail> {
    let alloc = rt.alloc();
    for words in ["run N S", "check N", "run N"] {
        let clock = Rc::new(alloc, Cell::new(0))?;
        let dropped = Rc::new(alloc, Cell::new(NEVER))?;
        let probe = Box::new(
            alloc,
            NotingProbe {
                inner: CountProbe::new(),
                clock: clock.clone()?,
                dropped: dropped.clone()?,
            },
        )?;
        let mut probes: Vec<Box<dyn Probe>> = Vec::new(alloc);
        if probes.push(probe).is_err() {
            return Err(Fail::new("no memory"));
        }
        let ran = replay_with(alloc, words, probes)?;
        assert!(rt; ran.back.is_empty(), "{words}");
        assert_eq!(rt; dropped.get(), 0);
        assert_eq!(rt; clock.get(), 0);
    }
    Ok(())
}

// A probe that finds no memory for the third event: nothing is put on out.
#[test]
fn answers_a_probe_without_memory(rt: HostRuntime) -> Result<(), Fail> {
    let alloc = rt.alloc();
    let poor = Box::new(
        alloc,
        PoorProbe {
            inner: CountProbe::new(),
            left: 2,
        },
    )?;
    let mut probes: Vec<Box<dyn Probe>> = Vec::new(alloc);
    if probes.push(poor).is_err() {
        return Err(Fail::new("no memory"));
    }
    let ran = replay_with(alloc, "run N S count", probes)?;
    assert!(rt; ran.out.bytes().is_empty());
    assert!(rt; ran.say.bytes() == b"no memory\n".as_slice());
    assert_eq!(rt; ran.outcome.status(), 5);
    assert!(rt; ran.back.is_empty());
    Ok(())
}
