//! Whether the decision-waits and the sequencers of a command are narrow.
ghost use Rattle.std.specs.Prelude.{◌≡◌, length, IfOk};
ghost use Rattle.std.specs.List.{list_all};
ghost use Rattle.di_grammar.specs.Admitted.{Admitted};
ghost use Rattle.place_graph.specs.Sums.{of_command};
ghost use Rattle.count_sum.specs.Narrow as narrow;
ghost use Rattle.count_sum.specs.Mirror.Parts.{counted_of};

use crate::commands::command_parts;
use crate::parts::Part;
use cmd_tree::Command;
use std::alloc::{AllocError, Global};

fn is_narrow_part(part: &Part) -> bool
    ensures { result ≡ narrow.is_narrow (counted_of part.now) }
{
    match part {
        Part::One(_) | Part::Wide(_, _) => true,
        Part::Wait(rows, columns, _) => *rows < 3 && *columns < 3,
        Part::Sequencer(requests) => *requests < 3,
    }
}

fn are_narrow(parts: &[Part]) -> bool
    ensures { result ≡ list_all (λ p. narrow.is_narrow (counted_of p)) parts.now }
{
    for part in parts {
        if !is_narrow_part(part) {
            return false;
        }
    }
    true
}

/// Whether each DW of the network of an admitted command has at most two rows and two columns, and each SEQ at most two
/// requests. No network is built.
pub fn is_narrow(alloc: Global, command: &Command) -> Result<bool, AllocError>
    requires { Admitted command.now.procs }
    ensures { IfOk result (λ it. it ≡ list_all narrow.is_narrow (of_command command.now.procs (length command.now.names))) }
{
    let parts = command_parts(alloc, command)?;
    Ok(are_narrow(parts.as_slice()))
}
