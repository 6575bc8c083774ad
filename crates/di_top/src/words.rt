ghost use Rattle.std.specs.Prelude.{◌≡◌, List, option_map, string_bytes};
ghost use Rattle.replay.specs.Probes.{View, views_of};
ghost use Rattle.di_top.specs.Requests.{asked, drive_by, number_of, of_two, of_three, of_four, basis_of, compile_in, count_in, rule_of, first_with, run_by};
ghost use Rattle.di_top.specs.Asked.{meant, asked_by, wanted_by};

use crate::keep::{COUNT_RULE, PEAK_RULE, keep};
use di_compile::Basis;
use replay::Probe;
use text_lines::{decimals_are_numbers, read_decimal};

/// What the words after the program's name ask for. Files are named as the words name them.
#[derive(Clone, Copy)]
pub enum Task<'a> {
    /// The netlist of the command in this file, in this basis.
    Compile {
        basis: Basis,
        file: &'a str,
    },
    /// Whether the command in this file is admitted.
    Check {
        file: &'a str,
    },
    /// How many components a network of the command in this file has, in this basis.
    Count {
        basis: Basis,
        file: &'a str,
    },
    /// Whether the list of traces in this file keeps the rules of delay-insensitivity.
    Rules {
        file: &'a str,
    },
    /// Whether the schedule in the second file is a run of the netlist in the first, watched by the probe with the rule
    /// that is wanted.
    Run {
        netlist: &'a str,
        schedule: &'a str,
        wanted: Option<u32>,
    },
    /// The schedule that is drawn from the seed, in so many steps, on the netlist in this file.
    Drive {
        netlist: &'a str,
        seed: u64,
        steps: u64,
    },
}

/// What the words ask for where these probes are handed in, or None where they are of no form, or want a probe that is not
/// there. The probes that are left are the wanted one, or none: all others are dropped.
pub fn read_words<'a, P: Probe>(words: &'a [String], probes: &mut Vec<P>) -> Option<Task<'a>>
    ensures { option_map (meant (views_of P.rule P.numbers P.steady probes.new.items)) result
        ≡ asked words.now (views_of P.rule P.numbers P.steady probes.old.items) }
{
    let Some(task) = read_task(words) else {
        return None;
    };
    if keep(probes, task.wanted()) {
        Some(task)
    } else {
        None
    }
}

impl Task<'_> {
    /// The rule of the probe that the task wants.
    fn wanted(&self) -> Option<u32>
        ensures { result ≡ wanted_by self.now }
    {
        match self {
            Task::Run { wanted, .. } => *wanted,
            Task::Compile { .. }
            | Task::Check { .. }
            | Task::Count { .. }
            | Task::Rules { .. }
            | Task::Drive { .. } => None,
        }
    }
}

/// What the words ask for, whichever probes are handed in.
fn read_task(words: &[String]) -> Option<Task<'_>>
    ensures { (vs : List View) → asked_by result vs ≡ asked words.now vs }
{
    match words {
        [verb, file] => task_of_two(verb, file),
        [verb, first, second] => task_of_three(verb, first, second),
        [verb, netlist, schedule, probe] => task_of_four(verb, netlist, schedule, probe),
        _ => None,
    }
}

fn task_of_two<'a>(verb: &String, file: &'a String) -> Option<Task<'a>>
    ensures { (vs : List View) → asked_by result vs ≡ of_two (string_bytes verb.now) (string_bytes file.now) }
{
    match verb.as_str() {
        "check" => Some(Task::Check {
            file: file.as_str(),
        }),
        "rules" => Some(Task::Rules {
            file: file.as_str(),
        }),
        _ => None,
    }
}

fn task_of_three<'a>(verb: &String, first: &'a String, second: &'a String) -> Option<Task<'a>>
    ensures { (vs : List View) → asked_by result vs ≡ of_three (string_bytes verb.now) (string_bytes first.now) (string_bytes second.now) }
{
    match verb.as_str() {
        "compile" => compile_task(first, second),
        "count" => count_task(first, second),
        "run" => Some(Task::Run {
            netlist: first.as_str(),
            schedule: second.as_str(),
            wanted: None,
        }),
        _ => None,
    }
}

fn task_of_four<'a>(
    verb: &String,
    netlist: &'a String,
    schedule: &'a String,
    probe: &String,
) -> Option<Task<'a>>
    ensures { (vs : List View) → asked_by result vs
        ≡ of_four (string_bytes verb.now) (string_bytes netlist.now) (string_bytes schedule.now) (string_bytes probe.now) vs }
{
    match verb.as_str() {
        "run" => watched_run(netlist, schedule, probe),
        "drive" => drive_by(netlist, schedule, probe),
        _ => None,
    }
}

fn compile_task<'a>(basis: &String, file: &'a String) -> Option<Task<'a>>
    ensures { (vs : List View) → asked_by result vs ≡ compile_in (basis_of (string_bytes basis.now)) (string_bytes file.now) }
{
    match basis_of(basis.as_str()) {
        Some(basis) => Some(Task::Compile {
            basis,
            file: file.as_str(),
        }),
        None => None,
    }
}

fn count_task<'a>(basis: &String, file: &'a String) -> Option<Task<'a>>
    ensures { (vs : List View) → asked_by result vs ≡ count_in (basis_of (string_bytes basis.now)) (string_bytes file.now) }
{
    match basis_of(basis.as_str()) {
        Some(basis) => Some(Task::Count {
            basis,
            file: file.as_str(),
        }),
        None => None,
    }
}

/// The basis of this name.
fn basis_of(name: &str) -> Option<Basis>
    ensures { result ≡ basis_of name.now }
{
    match name {
        "wide" => Some(Basis::Wide),
        "two" => Some(Basis::Two),
        _ => None,
    }
}

fn watched_run<'a>(netlist: &'a String, schedule: &'a String, probe: &String) -> Option<Task<'a>>
    ensures { (vs : List View) → asked_by result vs
        ≡ run_by (string_bytes netlist.now) (string_bytes schedule.now) (first_with (rule_of (string_bytes probe.now)) vs) }
{
    match rule_of(probe.as_str()) {
        Some(rule) => Some(Task::Run {
            netlist: netlist.as_str(),
            schedule: schedule.as_str(),
            wanted: Some(rule),
        }),
        None => None,
    }
}

fn drive_by<'a>(netlist: &'a String, seed: &String, steps: &String) -> Option<Task<'a>>
    ensures { (vs : List View) → asked_by result vs
        ≡ drive_by (string_bytes netlist.now) (number_of (string_bytes seed.now)) (number_of (string_bytes steps.now)) }
{
    match (number_of(seed.as_str()), number_of(steps.as_str())) {
        (Some(seed), Some(steps)) => Some(Task::Drive {
            netlist: netlist.as_str(),
            seed,
            steps,
        }),
        _ => None,
    }
}

/// The number that the word writes in decimal.
fn number_of(word: &str) -> Option<u64>
    ensures { result ≡ number_of word.now }
{
    decimals_are_numbers();
    match read_decimal(word.as_bytes()) {
        Ok(number) => Some(number),
        Err(_) => None,
    }
}

/// The rule of the probe of this name.
fn rule_of(name: &str) -> Option<u32>
    ensures { result ≡ rule_of name.now }
{
    match name {
        "count" => Some(COUNT_RULE),
        "peak" => Some(PEAK_RULE),
        _ => None,
    }
}
