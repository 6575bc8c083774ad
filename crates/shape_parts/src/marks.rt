//! Tables over numbers: which are marked, how many marks stand before each, and what a table has at them.
ghost use Rattle.std.specs.Prelude.{◌≡◌, ◌+◌, ◌<◌, ◌^◌, false, filter, length, map, get_or, slice_index, IfOk};
ghost use Rattle.std.specs.List.{range_with_len, AllByRecursion};
ghost use Rattle.basic_kinds.specs.Sorts.{how_many_below};
ghost use Rattle.shape_parts.specs.Keys.{is_among};

use std::alloc::{AllocError, Global};

/// Whether each number below a bound is one of these.
pub fn marks(alloc: Global, numbers: &[u32], bound: u32) -> Result<Vec<bool>, AllocError>
    requires { AllByRecursion (λ n. n < bound) numbers.now }
    ensures { IfOk result (λ it. it.items ≡ map (is_among numbers.now) (range_with_len 0 bound)) }
{
    let mut marks = vec![in alloc; false; bound as usize]?;
    for number in numbers {
        marks[*number as usize] = true;
    }
    Ok(marks)
}

/// How many marks stand before each, and before the end.
pub fn counts(alloc: Global, marks: &[bool]) -> Result<Vec<u32>, AllocError>
    requires { length marks.now < 2 ^ 32 }
    ensures { IfOk result (λ it. it.items ≡ map (λ i. how_many_below i (λ j. get_or marks.now j false)) (range_with_len 0 (length marks.now + 1))) }
{
    let mut counts = vec![in alloc; 0]?;
    let mut count = 0;
    for mark in marks {
        if *mark {
            count += 1;
        }
        counts.push(count)?;
    }
    Ok(counts)
}

/// The numbers that are marked, rising.
pub fn marked(alloc: Global, marks: &[bool]) -> Result<Vec<u32>, AllocError>
    requires { length marks.now < 2 ^ 32 }
    ensures { IfOk result (λ it. it.items ≡ filter (λ i. get_or marks.now i false) (range_with_len 0 (length marks.now))) }
{
    let mut numbers = Vec::new(alloc);
    for (number, mark) in marks.iter().enumerate() {
        if *mark {
            numbers.push(number as u32)?;
        }
    }
    Ok(numbers)
}

/// What the table has at each of these numbers.
pub fn gather(alloc: Global, table: &[u32], numbers: &[u32]) -> Result<Vec<u32>, AllocError>
    requires { AllByRecursion (λ n. n < length table.now) numbers.now }
    ensures { IfOk result (λ it. it.items ≡ map (slice_index table.now) numbers.now) }
{
    let mut found = Vec::new(alloc);
    for number in numbers {
        found.push(table[*number as usize])?;
    }
    Ok(found)
}
