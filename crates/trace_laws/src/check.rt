//! The check of a list of traces against the five rules.
ghost use Rattle.std.specs.Prelude.{◌≡◌, ◌↔◌, ◌<◌, ℕ, List, None, map, IfOk, IsTrue, MatchOption};
ghost use Rattle.std.specs.Option.{IfSome};
ghost use Rattle.std.specs.List.{Contains};
ghost use Rattle.process_laws.specs.Insensitive.{Insensitive};
ghost use Rattle.trace_laws.specs.Breaks.{Breaks, LeastBroken};
ghost use Rattle.trace_laws.specs.Listed.{Listed, numbers, output_by};
ghost use Rattle.trace_laws.specs.Mirror.Improved.{LeastOf};
ghost use Rattle.trace_laws.specs.Mirror.Links.{Closed};

use crate::faults::{least_beginning, least_both, least_carry, least_swap, least_twice};
use crate::words::{Word, WordSet};
use cmd_tree::{Dir, Sym};
use std::alloc::{AllocError, Global};

/// The least rule that a list of traces breaks, and the least trace at which it does: the listed trace where a symbol comes
/// twice in a row, and else the trace that the rule demands and the list lacks.
#[derive(Drop)]
pub struct BrokenRule {
    pub rule: u8,
    pub trace: Vec<Sym>,
    pub present: bool,
}

/// Whether the set of the listed traces keeps the five rules of delay-insensitivity, and where it does not.
/// A symbol that `dirs` has no direction for counts as an input.
pub fn check_rules(
    alloc: Global,
    traces: &[Vec<Sym>],
    dirs: &[Dir],
) -> Result<Option<BrokenRule>, AllocError>
    ensures holds { IfOk result (λ broken. (broken ≡ None) ↔ Insensitive (Listed traces.now) (output_by dirs.now)) }
    ensures least { IfOk result (λ broken. IfSome broken (λ b.
        LeastBroken (output_by dirs.now) (Listed traces.now) b.rule (numbers b.trace.items))) }
    ensures present { IfOk result (λ broken. IfSome broken (λ b. IsTrue b.present ↔ (b.rule ≡ 1))) }
{
    let words = WordSet::of(alloc, traces)?;
    let broken = first_broken(alloc, &words, dirs)?;
    Ok(broken)
}

fn first_broken(
    alloc: Global,
    words: &WordSet,
    dirs: &[Dir],
) -> Result<Option<BrokenRule>, AllocError>
    ensures least { IfOk result (λ broken. MatchOption broken
        ((j : ℕ) (u : List ℕ) → Breaks (output_by dirs.now) (Contains words.now) j u → ⊥)
        (λ b. LeastBroken (output_by dirs.now) (Contains words.now) b.rule (numbers b.trace.items))) }
    ensures present { IfOk result (λ broken. IfSome broken (λ b. IsTrue b.present ↔ (b.rule ≡ 1))) }
{
    for rule in 0..5 {
        if let Some(word) = least_fault(alloc, words, dirs, rule)? {
            let trace = word.trace(alloc)?;
            let present = rule == 1;
            return Ok(Some(BrokenRule {
                rule,
                trace,
                present,
            }));
        }
    }
    Ok(None)
}

fn least_fault(
    alloc: Global,
    words: &WordSet,
    dirs: &[Dir],
    rule: u8,
) -> Result<Option<Word>, AllocError>
    requires rule { rule < 5 }
    requires closed { 0 < rule → Closed words.now }
    ensures { IfOk result (λ least. LeastOf (Breaks (output_by dirs.now) (Contains words.now) rule) least) }
{
    match rule {
        0 => least_beginning(alloc, words),
        1 => least_twice(alloc, words),
        2 => least_swap(alloc, words, dirs),
        3 => least_carry(alloc, words, dirs),
        _ => least_both(alloc, words, dirs),
    }
}
