//! What is wrong with a renaming.
ghost use Rattle.std.specs.Prelude.{◌≡◌, ℕ, suc, List, map, Some, None, OnOk, IfErr};
ghost use Rattle.std.specs.Option.{IfSome};
ghost use Rattle.cmd_rename.specs.Table.{IsListed};
ghost use Rattle.cmd_expand.specs.Pairs.{renamed, fault_of_pair, first_fault, first_fault_from};
ghost use Rattle.cmd_expand.specs.Expansion.{refused_of};
ghost use Rattle.cmd_expand.specs.Mirror.Tables.{tally, Tallies};
ghost use Rattle.cmd_expand.specs.declared.pairs.Pair.{Pair};

use crate::pairs::Pair;
use crate::refusal::ExpandRefusal;
use cmd_rename::Table;
use std::alloc::AllocError;

/// The table tells of each number whether it stands in the list once or more often.
pub fn tally_all(table: &mut Table, numbers: &[u32]) -> Result<(), AllocError>
    ensures { OnOk result (Tallies table.new numbers.now) }
{
    table.clear();
    for number in numbers {
        let found = one_more(table.get(*number));
        table.put(*number, found)?;
    }
    Ok(())
}

/// What a table tells of a number after one more place of it.
fn one_more(told: Option<u32>) -> u32
    ensures { (n : ℕ) → told ≡ tally n → tally (suc n) ≡ Some result }
{
    match told {
        None => 1,
        Some(_) => 2,
    }
}

/// The table has a number for each of these symbols, and for no other.
pub fn list_all(table: &mut Table, symbols: &[u32]) -> Result<(), AllocError>
    ensures { OnOk result (IsListed table.new symbols.now) }
{
    table.clear();
    for symbol in symbols {
        table.put(*symbol, 0)?;
    }
    Ok(())
}

/// Whether the pair is right, behind those whose old names are in `earlier`.
fn check_pair(
    pair: Pair,
    symbols: &Table,
    owners: &Table,
    earlier: &Table,
) -> Result<(), ExpandRefusal>
    ensures ok { OnOk result ((xs es : List ℕ) (pairs : List Pair) → IsListed symbols.now xs → IsListed earlier.now es →
        Tallies owners.now (map (renamed pairs) xs) → fault_of_pair xs pairs es pair ≡ None) }
    ensures err { IfErr result (λ e. (xs es : List ℕ) (pairs : List Pair) → IsListed symbols.now xs → IsListed earlier.now es →
        Tallies owners.now (map (renamed pairs) xs) → fault_of_pair xs pairs es pair ≡ refused_of e) }
{
    if earlier.get(pair.was).is_some() {
        return Err(ExpandRefusal::RenamedTwice { at: pair.was_at });
    }
    if symbols.get(pair.was).is_none() {
        return Err(ExpandRefusal::RenameUnknown { at: pair.was_at });
    }
    if owners.get(pair.fresh) == Some(2) {
        return Err(ExpandRefusal::RenameMerges { at: pair.fresh_at });
    }
    Ok(())
}

/// Whether all pairs of a renaming are right. `symbols` has the symbols of the definition, and `owners` tells which
/// names they have after the renaming.
pub fn check_pairs(
    pairs: &[Pair],
    symbols: &Table,
    owners: &Table,
    earlier: &mut Table,
) -> Result<(), ExpandRefusal>
    ensures ok { OnOk result ((xs : List ℕ) → IsListed symbols.now xs → Tallies owners.now (map (renamed pairs.now) xs) →
        first_fault xs pairs.now ≡ None) }
    ensures err { IfErr result (λ e. (xs : List ℕ) → IsListed symbols.now xs → Tallies owners.now (map (renamed pairs.now) xs) →
        IfSome (refused_of e) (λ r. first_fault xs pairs.now ≡ Some r)) }
{
    earlier.clear();
    for pair in pairs {
        match check_pair(*pair, symbols, owners, earlier) {
            Ok(()) => {}
            Err(refusal) => return Err(refusal),
        }
        earlier.put(pair.was, 0)?;
    }
    Ok(())
}
