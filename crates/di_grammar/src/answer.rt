//! Whether a command is admitted.
ghost use Rattle.std.specs.Prelude.{◌≡◌, ◌↔◌, ℕ, ◌+◌, ◌<◌, ◌≤◌, ◌^◌, IsTrue, List, length, None, slice_index_or, false};
ghost use Rattle.cmd_tree.specs.declared.limits.TheConstants.{MAX_PLACES, MAX_PROCESSES, MAX_SYMBOLS};
ghost use Rattle.cmd_tree.specs.declared.tree.Proc.{Proc};
ghost use Rattle.cmd_tree.specs.Limits.{IsProc, places_of_all, places_of_proc, marks_of_all, marks_of_proc};
ghost use Rattle.cmd_tree.specs.Meaning.{Trace};
ghost use Rattle.process_laws.specs.Insensitive.{Insensitive};
ghost use Rattle.di_grammar.specs.Admitted.{Admitted, Answer, Breaks, BreaksLocally, InProcess, number_of};
ghost use Rattle.di_grammar.specs.Breaches.{FirstOf};
ghost use Rattle.di_grammar.specs.Clashes.{First};
ghost use Rattle.di_grammar.specs.EvenBursts.{KeepsBursts};
ghost use Rattle.di_grammar.specs.Grants.{IsGrant};
ghost use Rattle.di_grammar.specs.Mirror.Answering.{AreFew, GrantsTold, EarlierKept};
ghost use Rattle.di_grammar.specs.Mirror.Laid.{AreSmall};
ghost use Rattle.di_grammar.specs.Outputs.{out_of};

use crate::alternation::{one_way_neighbours, one_way_rounds};
use crate::breach::Breach;
use crate::choices::broken_choices;
use crate::clash::Clash;
use crate::directions::turned;
use crate::even_bursts::uneven_bursts;
use crate::granted::given_twice;
use crate::grants::is_grant;
use crate::homes::unhoused;
use crate::overlaps::overlapping_bursts;
use crate::twins::twins;
use cmd_tree::{Command, MAX_PROCESSES, Proc};

/// The least broken rule of a command, with the least process and place that break it, and the
/// other place of the rule. Processes and places are counted from 1.
#[derive(Debug, Clone, Copy, PartialEq, Eq)]
pub struct Broken {
    pub rule: u8,
    pub process: u32,
    pub place: u32,
    pub other_process: u32,
    pub other: u32,
}

/// The rules, by what they are about.
#[derive(Clone, Copy)]
pub enum Rule {
    Bursts,
    Neighbours,
    Rounds,
    Choices,
    Twins,
    Overlaps,
    Directions,
    Granted,
    Homes,
}

// In the order in which they are reported.
const RULES: [Rule; 9] = [
    Rule::Bursts,
    Rule::Neighbours,
    Rule::Rounds,
    Rule::Choices,
    Rule::Twins,
    Rule::Overlaps,
    Rule::Directions,
    Rule::Granted,
    Rule::Homes,
];

impl Rule {
    fn number(self) -> u8
        ensures { result ≡ number_of self }
    {
        match self {
            Rule::Bursts => 1,
            Rule::Neighbours => 2,
            Rule::Rounds => 3,
            Rule::Choices => 4,
            Rule::Twins => 5,
            Rule::Overlaps => 6,
            Rule::Directions => 7,
            Rule::Granted => 8,
            Rule::Homes => 9,
        }
    }
}

/// Whether a command is admitted: `None` where it is, else the least rule that it breaks, in the least
/// process and there at the least place. The traces of an admitted command keep the rules of
/// delay-insensitivity.
///
/// It takes no memory. Its time grows with the places of the command, but where a choice has first bursts that
/// share a symbol, which is refused in any case.
pub fn check(command: &Command) -> Option<Broken>
    ensures answer { Answer command.now.procs result }
    ensures none { result ≡ None ↔ Admitted command.now.procs }
    ensures rules { result ≡ None → Insensitive (Trace command.now.procs) (out_of command.now.procs) }
{
    first_broken(command.procs.as_slice())
}

/// Of processes that keep the limits, what `check` answers of a command.
pub fn first_broken(procs: &[Proc]) -> Option<Broken>
    requires { AreFew procs.now }
    ensures { Answer procs.now result }
{
    let grants = grants_of(procs);
    for rule in RULES {
        if let Some(breach) = first_breach(rule, procs, &grants) {
            return Some(Broken {
                rule: rule.number(),
                process: breach.process,
                place: breach.place,
                other_process: breach.other_process,
                other: breach.other,
            });
        }
    }
    None
}

// Which processes are grants.
fn grants_of(procs: &[Proc]) -> [bool; MAX_PROCESSES]
    requires { AreFew procs.now }
    ensures { GrantsTold result procs.now }
{
    let mut grants = [false; MAX_PROCESSES];
    for (index, process) in procs.iter().enumerate() {
        grants[index] = is_grant(process);
    }
    grants
}

fn first_breach(rule: Rule, procs: &[Proc], grants: &[bool; MAX_PROCESSES]) -> Option<Breach>
    requires few { AreFew procs.now }
    requires grants { GrantsTold grants.now procs.now }
    requires kept { EarlierKept rule procs.now }
    ensures { FirstOf (Breaks rule procs.now) result }
{
    match rule {
        Rule::Directions => turned(procs),
        Rule::Homes => unhoused(procs),
        _ => first_in_process(rule, procs, grants),
    }
}

// Of a rule that speaks of single processes.
fn first_in_process(rule: Rule, procs: &[Proc], grants: &[bool; MAX_PROCESSES]) -> Option<Breach>
    requires few { AreFew procs.now }
    requires grants { GrantsTold grants.now procs.now }
    requires kept { EarlierKept rule procs.now }
    ensures { FirstOf (InProcess (BreaksLocally rule) procs.now) result }
{
    for (index, process) in procs.iter().enumerate() {
        if let Some(clash) = first_clash(rule, process, grants[index]) {
            let number = index as u32 + 1;
            return Some(Breach {
                process: number,
                place: clash.place,
                case: clash.case,
                other_process: number,
                other: clash.other,
            });
        }
    }
    None
}

fn first_clash(rule: Rule, process: &Proc, grant: bool) -> Option<Clash>
    requires few { places_of_proc process.now + 1 < 2 ^ 32 }
    requires small { AreSmall (marks_of_proc process.now) }
    requires formed { IsProc process.now }
    requires told { IsTrue grant ↔ IsGrant process.now }
    requires even { 1 < number_of rule → KeepsBursts process.now }
    ensures { First (BreaksLocally rule process.now) result }
{
    match rule {
        Rule::Bursts => uneven_bursts(process),
        Rule::Neighbours => one_way_neighbours(process),
        Rule::Rounds => one_way_rounds(process),
        Rule::Choices => broken_choices(process, grant),
        Rule::Twins => twins(process, grant),
        Rule::Overlaps => overlapping_bursts(process, grant),
        Rule::Granted => given_twice(process),
        Rule::Directions | Rule::Homes => None,
    }
}
