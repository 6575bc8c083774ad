//! The components of a SEQ in the basis two.
ghost use Rattle.std.specs.Prelude.{◌≡◌, ◌+◌, ◌<◌, ◌^◌, IfOk, OnOk};
ghost use Rattle.basic_kinds.specs.ShapeParts.{one_column};
ghost use Rattle.count_sum.specs.Mirror.Adding.{Adds, HasRoom};
ghost use Rattle.count_sum.specs.Mirror.Waits.{of_sequencer, of_requests};

use crate::counts::{Counts, Sort};
use crate::waits::add_wait;
use std::alloc::{AllocError, Global};

/// Each of so many rows with one column.
fn one_column(alloc: Global, rows: u32) -> Result<Vec<(u32, u32)>, AllocError>
    ensures { IfOk result (λ it. it.items ≡ one_column rows) }
{
    let mut cross = Vec::new(alloc);
    for row in 0..rows {
        cross.push((row, 0))?;
    }
    Ok(cross)
}

/// What stands for a SEQ: one of two requests, and where there are more, one for each half of them.
#[cycle(split_sequencers)]
pub fn add_sequencer(alloc: Global, counts: &mut Counts, requests: u32) -> Result<(), AllocError>
    requires some { 0 < requests }
    requires few { requests + 2 < 2 ^ 32 }
    requires room { HasRoom counts.old (of_sequencer requests) }
    ensures { OnOk result (Adds counts.old counts.new (of_sequencer requests)) }
{
    counts.add(Sort::Seq, 1);
    if requests > 2 {
        let half = requests - requests / 2;
        add_requests(alloc, counts, half)?;
        add_requests(alloc, counts, requests - half)?;
    }
    Ok(())
}

/// What stands for a group of requests. A group of one request has no component of its own.
#[cycle(split_sequencers)]
fn add_requests(alloc: Global, counts: &mut Counts, requests: u32) -> Result<(), AllocError>
    requires few { requests + 2 < 2 ^ 32 }
    requires room { HasRoom counts.old (of_requests requests) }
    ensures { OnOk result (Adds counts.old counts.new (of_requests requests)) }
{
    if requests < 2 {
        return Ok(());
    }
    let many = requests as u64;
    add_sequencer(alloc, counts, requests)?;
    counts.add(Sort::Fork, 2 * many);
    counts.add(Sort::Merge, 2 * (many - 1));
    counts.add(Sort::Iwire, 1);
    let column = one_column(alloc, requests)?;
    add_wait(alloc, counts, requests, 1, column.as_slice())
}
