//! Which outputs of acts give each symbol.
ghost use Rattle.std.specs.Prelude.{◌≡◌, ℕ, ◌<◌, ◌^◌, [], map, length, replicate, IfOk, OnOk};
ghost use Rattle.std.specs.List.{AllByRecursion};
ghost use Rattle.plain_split.specs.Mirror.RoundsGives.{with_outs, with_acts};

use crate::rows::no_rows;
use std::alloc::{AllocError, Global};

/// An output of an act, by its place among the outputs of this act.
#[derive(Debug, Clone, Copy, PartialEq, Eq)]
pub struct Give {
    pub act: u32,
    pub port: u32,
}

/// Adds the outputs of an act to those of their symbols.
fn add_gives(gives: &mut [Vec<Give>], act: u32, outs: &[u32]) -> Result<(), AllocError>
    requires known { AllByRecursion (λ a. a < length gives.old) outs.now }
    requires few { length outs.now < 2 ^ 32 }
    ensures len { length gives.new ≡ length gives.old }
    ensures table { OnOk result (map (λ v. v.items) gives.new ≡ with_outs act 0 outs.now (map (λ v. v.items) gives.old)) }
{
    for (port, symbol) in outs.iter().enumerate() {
        let give = Give {
            act,
            port: port as u32,
        };
        gives[*symbol as usize].push(give)?;
    }
    Ok(())
}

/// The outputs that give each symbol, in the order of their acts.
pub fn all_gives(alloc: Global, acts: &[Vec<u32>], names: u32) -> Result<Vec<Vec<Give>>, AllocError>
    requires known { AllByRecursion (λ v. AllByRecursion (λ a. a < names) v.items) acts.now }
    requires few_outs { AllByRecursion (λ v. length v.items < 2 ^ 32) acts.now }
    requires few_acts { length acts.now < 2 ^ 32 }
    ensures { IfOk result (λ it. map (λ v. v.items) it.items ≡ with_acts 0 (map (λ v. v.items) acts.now) (replicate names [])) }
{
    let mut gives = no_rows(alloc, names as usize)?;
    for (act, outs) in acts.iter().enumerate() {
        add_gives(gives.as_mut_slice(), act as u32, outs.as_slice())?;
    }
    Ok(gives)
}
