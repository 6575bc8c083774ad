ghost use Rattle.std.specs.Prelude.{◌≡◌, ◌≤◌, ◌⊎◌, ℕ, List, IfOk, IfErr};
ghost use Rattle.di_top.specs.Calls.{reading};
ghost use Rattle.di_top.specs.CommandFiles.{StopsWith, IsAdmittedText, FileStops, FileHolds};
ghost use Rattle.di_top.specs.Plans.{IsStop};

use crate::load::load_file;
use crate::outcome::{Outcome, Why};
use cmd_expand::expand;
use cmd_text::read_file;
use cmd_tree::{Command, MAX_FILE_BYTES};
use di_grammar::check;
use di_io::Shelf;
use std::alloc::Global;

/// The admitted command in a file. One byte more than a file may have is loaded, so that a longer one is
/// seen to be longer.
pub fn load_command<F: Shelf>(alloc: Global, file: &str, shelf: &mut F) -> Result<Command, Outcome>
    ensures ok { IfOk result (λ command. FileHolds (reading F.content F.faults shelf.old shelf.new) file.now command.names command.procs) }
    ensures stop { IfErr result (λ stop. IsStop stop
        × ((stop ≡ Outcome.NoMemory) ⊎ FileStops (reading F.content F.faults shelf.old shelf.new) file.now stop)) }
    ensures kept { (other : List ℕ) → F.content shelf.new other ≡ F.content shelf.old other }
    ensures later { (other : List ℕ) → F.faults shelf.old other ≤ F.faults shelf.new other }
{
    let bytes = load_file(alloc, file, 1, MAX_FILE_BYTES + 1, shelf)?;
    read_command(alloc, &bytes)
}

/// Reads the command of `main`, which is admitted. What stops it first is answered: too many bytes, a fault
/// of the text, what is wrong with a definition or its use, a limit of commands, or a broken rule.
pub fn read_command(alloc: Global, bytes: &[u8]) -> Result<Command, Outcome>
    ensures ok { IfOk result (λ command. IsAdmittedText bytes.now command.names command.procs) }
    ensures stop { IfErr result (λ stop. (stop ≡ Outcome.NoMemory) ⊎ StopsWith bytes.now stop) }
{
    if bytes.len() > MAX_FILE_BYTES {
        return Err(Outcome::Limit {
            limit: 1,
            value: bytes.len() as u64,
        });
    }
    let file = read_file(alloc, bytes)?;
    let command = expand(alloc, &file)?;
    match check(&command) {
        None => Ok(command),
        Some(broken) => Err(Outcome::Refused(Why::Grammar(broken))),
    }
}
