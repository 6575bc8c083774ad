//! An index of bits: how many are set, and the place of each in order.
ghost use Rattle.std.specs.Prelude.{◌≡◌, ℕ, Bool, List, ◌+◌, ◌<◌, ◌≤◌, ◌^◌, false, length, replicate, slice_set, IfOk};
ghost use Rattle.net_drive.specs.Bits.{trues, IsNth};
ghost use Rattle.net_drive.specs.Mirror.SumTrees.{two, IsTree};

use std::alloc::{AllocError, Global};
use std::marker::Model;

/// Bits, and a full binary tree of sums over them: node 1 is the root, node j has the children 2j and 2j + 1, and the
/// leaves come last. So a change of a bit and the search of one cost the logarithm of their number.
#[derive(Drop)]
pub struct BitIndex {
    bits: Vec<bool>,
    sums: Vec<usize>,
}

impl Model for BitIndex {
    ghost use Rattle.std.specs.Prelude.{ℕ, Bool, List};
    ghost use Rattle.net_drive.specs.Mirror.SumTrees.{IsTree};

    ghost Value = { List Bool };

    ghost view = { λ a. a.bits.items };

    ghost invariant = { λ a. (height : ℕ) × IsTree height a.sums.items a.bits.items };
}

impl BitIndex {
    /// So many bits, none of which is set.
    pub fn new(alloc: Global, size: usize) -> Result<BitIndex, AllocError>
        requires { size ≤ 2 ^ 40 }
        ensures { IfOk result (λ index. index ≡ replicate size false) }
    {
        let leaves = leaves_for(size);
        Ok(BitIndex {
            bits: vec![in alloc; false; size]?,
            sums: vec![in alloc; 0; 2 * leaves]?,
        })
    }

    /// How many bits are set.
    pub fn count(&self) -> usize
        ensures { result ≡ trues self.now }
    {
        self.sums[1]
    }

    /// The place of the set bit before which so many are set.
    pub fn at(&self, before: usize) -> usize
        requires { before < trues self.now }
        ensures { IsNth self.now before result }
    {
        find(&self.sums, before)
    }

    /// Sets the bit, or clears it.
    pub fn set(&mut self, index: usize, on: bool)
        requires { index < length self.old }
        ensures { self.new ≡ slice_set self.old index on }
    {
        put(&mut self.bits, &mut self.sums, index, on);
    }
}

// A power of two that is not below the size.
fn leaves_for(size: usize) -> usize
    requires { size ≤ 2 ^ 40 }
    ensures power { (height : ℕ) × (result ≡ two height) }
    ensures fits { size ≤ result }
    ensures low { result ≤ 2 ^ 41 }
{
    let mut leaves = 1;
    while leaves < size {
        leaves *= 2;
    }
    leaves
}

// Goes down the tree to the leaf of the set bit before which so many are set.
fn find(sums: &[usize], before: usize) -> usize
    requires { (height : ℕ) × (bits : List Bool) × IsTree height sums.now bits × (before < trues bits) }
    ensures { (height : ℕ) (bits : List Bool) → IsTree height sums.now bits → before < trues bits → IsNth bits before result }
{
    let leaves = sums.len() / 2;
    let mut node = 1;
    let mut left = before;
    while node < leaves {
        node *= 2;
        if left >= sums[node] {
            left -= sums[node];
            node += 1;
        }
    }
    node - leaves
}

// Puts the bit, and adds it to the sums above it or takes it away.
fn put(bits: &mut [bool], sums: &mut [usize], index: usize, on: bool)
    requires tree { (height : ℕ) × IsTree height sums.old bits.old }
    requires within { index < length bits.old }
    ensures bits { bits.new ≡ slice_set bits.old index on }
    ensures tree { (height : ℕ) × IsTree height sums.new bits.new }
{
    if bits[index] == on {
        return;
    }
    bits[index] = on;
    let mut node = sums.len() / 2 + index;
    sums[node] = usize::from(on);
    while node > 1 {
        node /= 2;
        if on {
            sums[node] += 1;
        } else {
            sums[node] -= 1;
        }
    }
}
