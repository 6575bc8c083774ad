ghost use Rattle.std.specs.Prelude.{◌≡◌, ◌≤◌, ◌⊎◌, ℕ, List, IfOk, IfErr};
ghost use Rattle.di_top.specs.Calls.{Loaded, Unread, reading};

use crate::outcome::Outcome;
use di_io::{LoadFault, Shelf};
use std::alloc::Global;

/// The first bytes of a file, at most `cap` of them. A fault is answered with the file's number.
pub fn load_file<F: Shelf>(
    alloc: Global,
    name: &str,
    file: u8,
    cap: usize,
    shelf: &mut F,
) -> Result<Vec<u8>, Outcome>
    ensures ok { IfOk result (λ bytes. Loaded (reading F.content F.faults shelf.old shelf.new) name.now cap bytes.items) }
    ensures stop { IfErr result (λ stop. (stop ≡ Outcome.NoMemory)
        ⊎ ((stop ≡ Outcome.ReadFault file) × Unread (reading F.content F.faults shelf.old shelf.new) name.now)) }
    ensures kept { (other : List ℕ) → F.content shelf.new other ≡ F.content shelf.old other }
    ensures later { (other : List ℕ) → F.faults shelf.old other ≤ F.faults shelf.new other }
{
    match shelf.load(alloc, name, cap) {
        Ok(bytes) => Ok(bytes),
        Err(LoadFault::Failed) => Err(Outcome::ReadFault { file }),
        Err(LoadFault::NoMemory) => Err(Outcome::NoMemory),
    }
}
