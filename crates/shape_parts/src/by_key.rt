//! Numbers by their keys.
ghost use Rattle.std.specs.Prelude.{◌≡◌, ◌<◌, ◌^◌, [], length, map, replicate, IfOk};
ghost use Rattle.std.specs.List.{range_with_len, AllByRecursion};
ghost use Rattle.shape_parts.specs.Keys.{with_key, rank};

use sqlite_items::Items;
use std::alloc::{AllocError, Global};

/// The numbers below a bound by their keys.
#[derive(Drop)]
pub struct Buckets {
    /// Of each key the numbers that have it, rising.
    pub numbers: Vec<Items<u32>>,
    /// Of each number its place among those with its key.
    pub ranks: Vec<u32>,
}

impl Buckets {
    /// The numbers `0..keys.len()` by these keys, which are below `many`.
    pub fn new(alloc: Global, keys: &[u32], many: u32) -> Result<Buckets, AllocError>
        requires known { AllByRecursion (λ k. k < many) keys.now }
        requires few { length keys.now < 2 ^ 32 }
        ensures { IfOk result (λ it. (it.numbers.items ≡ map (with_key keys.now) (range_with_len 0 many))
            × (it.ranks.items ≡ map (rank keys.now) (range_with_len 0 (length keys.now)))) }
    {
        let mut numbers = none(alloc, many)?;
        let mut ranks = Vec::new(alloc);
        for (number, key) in keys.iter().enumerate() {
            let bucket = &mut numbers[*key as usize];
            ranks.push(bucket.len() as u32)?;
            bucket.push(number as u32)?;
        }
        Ok(Buckets { numbers, ranks })
    }
}

/// So many buckets with nothing in them.
fn none(alloc: Global, many: u32) -> Result<Vec<Items<u32>>, AllocError>
    ensures { IfOk result (λ it. it.items ≡ replicate many []) }
{
    let mut buckets = Vec::new(alloc);
    for _ in 0..many {
        buckets.push(Items::new(alloc))?;
    }
    Ok(buckets)
}
