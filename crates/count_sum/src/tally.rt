//! How often numbers stand in lists.
ghost use Rattle.std.specs.Prelude.{◌≡◌, nat_eq, map, IfOk};
ghost use Rattle.std.specs.List.{range_with_len};
ghost use Rattle.count_sum.specs.Mirror.Lists.{times};

use std::alloc::{AllocError, Global};

/// How often each number below `many` stands among these.
pub fn tally(alloc: Global, numbers: &[u32], many: usize) -> Result<Vec<usize>, AllocError>
    ensures { IfOk result (λ it. it.items ≡ map (times numbers.now) (range_with_len 0 many)) }
{
    let mut counts = vec![in alloc; 0; many]?;
    for number in numbers {
        let place = *number as usize;
        if place < many {
            counts[place] += 1;
        }
    }
    Ok(counts)
}
