//! Sums over what is counted.
ghost use Rattle.std.specs.Prelude.{◌≡◌, ℕ, ◌<◌, ◌≤◌, ◌^◌, length, map, IfOk, OnOk};
ghost use Rattle.std.specs.List.{AllByRecursion};
ghost use Rattle.basic_kinds.specs.Sorts.{Sort as Sorts};
ghost use Rattle.basic_kinds.specs.Sums.{wide_sum, two_way_sum, wait_sort, total_of};
ghost use Rattle.count_sum.specs.Counts.{of_sort, all_sorts};
ghost use Rattle.count_sum.specs.Mirror.Adding.{Adds, HasRoom};
ghost use Rattle.count_sum.specs.Mirror.Waits.{IsCountable};
ghost use Rattle.count_sum.specs.Mirror.Parts.{sort_of, counted_of, one_of};

use crate::counts::{Counts, Sort};
use crate::parts::Part;
use crate::sequencers::add_sequencer;
use crate::waits::add_wait;
use std::alloc::{AllocError, Global};

/// A DW of one crossing is a C of its row and its column.
fn wait_sort(crossings: &[(u32, u32)]) -> Sort
    ensures { sort_of result ≡ wait_sort crossings.now }
{
    match crossings {
        [_] => Sort::C,
        _ => Sort::Dw,
    }
}

/// The component that stands for it in the basis wide, if there is one.
fn wide_sort(part: &Part) -> Option<Sort>
    ensures { (t : Sorts) → wide_sum (counted_of part.now) t ≡ one_of result t }
{
    match part {
        Part::One(sort) => Some(*sort),
        Part::Wide(sort, width) => { if *width > 1 { Some(*sort) } else { None } }
        Part::Wait(_, _, cross) => Some(wait_sort(cross.as_slice())),
        Part::Sequencer(_) => Some(Sort::Seq),
    }
}

/// The components in the basis wide. There is one at most for each.
pub fn wide_counts(parts: &[Part]) -> Counts
    ensures each { (t : Sorts) → of_sort result t ≡ total_of wide_sum (map counted_of parts.now) t }
    ensures few { all_sorts (of_sort result) ≤ length parts.now }
{
    let mut counts = Counts::none();
    for part in parts {
        if let Some(sort) = wide_sort(part) {
            counts.add(sort, 1);
        }
    }
    counts
}

/// Counts what stands for it in the basis two.
fn add_two_way(alloc: Global, counts: &mut Counts, part: &Part) -> Result<(), AllocError>
    requires countable { IsCountable (counted_of part.now) }
    requires room { HasRoom counts.old (two_way_sum (counted_of part.now)) }
    ensures { OnOk result (Adds counts.old counts.new (two_way_sum (counted_of part.now))) }
{
    match part {
        Part::One(sort) => {
            counts.add(*sort, 1);
            Ok(())
        }
        Part::Wide(sort, width) => {
            counts.add(*sort, width.saturating_sub(1) as u64);
            Ok(())
        }
        Part::Wait(rows, cols, cross) => {
            add_wait(alloc, counts, *rows as u32, *cols as u32, cross.as_slice())
        }
        Part::Sequencer(requests) => add_sequencer(alloc, counts, *requests as u32),
    }
}

/// The components in the basis two.
pub fn two_way_counts(alloc: Global, parts: &[Part]) -> Result<Counts, AllocError>
    requires countable { AllByRecursion IsCountable (map counted_of parts.now) }
    requires few { all_sorts (total_of two_way_sum (map counted_of parts.now)) < 2 ^ 64 }
    ensures { IfOk result (λ it. (t : Sorts) → of_sort it t ≡ total_of two_way_sum (map counted_of parts.now) t) }
{
    let mut counts = Counts::none();
    for part in parts {
        add_two_way(alloc, &mut counts, part)?;
    }
    Ok(counts)
}
