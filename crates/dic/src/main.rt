//! The program `dic`: its words, its streams and two probes, handed to the top call.
#![tactic(auto)]

mod words;

use crate::words::{NO_MEMORY, read_words};
use di_io::{HostShelf, HostSink};
use di_top::run;
use replay::{CountProbe, PeakProbe, Probe};
use std::process::ExitCode;

fn main(rt: HostRuntime) -> ExitCode {
    let words = match read_words(&rt) {
        Ok(words) => words,
        Err(status) => return ExitCode::from(status),
    };
    let Ok(files) = rt.clone() else {
        return ExitCode::from(NO_MEMORY);
    };
    let Ok(count) = Box::new(rt.alloc(), CountProbe::new()) else {
        return ExitCode::from(NO_MEMORY);
    };
    let Ok(peak) = Box::new(rt.alloc(), PeakProbe::new()) else {
        return ExitCode::from(NO_MEMORY);
    };
    let mut probes: Vec<Box<dyn Probe>> = Vec::new(rt.alloc());
    if probes.push(count).is_err() || probes.push(peak).is_err() {
        return ExitCode::from(NO_MEMORY);
    }
    let mut shelf = HostShelf::new(files);
    let mut out = HostSink::new(rt.stdout());
    let mut say = HostSink::new(rt.stderr());
    let (outcome, _probes) = run(rt.alloc(), &words, &mut shelf, &mut out, &mut say, probes);
    ExitCode::from(outcome.status())
}
