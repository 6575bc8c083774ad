//! The command of an arbiter.
ghost use Rattle.std.specs.Prelude.{◌≡◌, ◌+◌, ◌*◌, ◌<◌, ◌≤◌, length, IfOk};
ghost use Rattle.di_grammar.specs.Admitted.{Admitted};
ghost use Rattle.arbiters.specs.Arbiter.{IsArbiter};

use crate::names::names;
use crate::processes::processes;
use cmd_tree::Command;
use std::alloc::{AllocError, Global};

/// The command of so many clients that share one resource: the weave of the processes `pref*[ai?;pi!;ci?;ei!]` for
/// each i from 1 on, and of the grant `pref*[p1!;c1?|..|pn!;cn?]`. Client i asks by `ai`, has the resource from `pi`
/// to `ci`, and `ei` tells it that it gave it back. The time is near linear in the number of clients.
pub fn big(alloc: Global, clients: u32) -> Result<Command, AllocError>
    requires some { 2 ≤ clients }
    requires few { clients ≤ 255 }
    ensures arbiter { IfOk result (IsArbiter clients) }
    ensures admitted { IfOk result (λ command. Admitted command.procs) }
    ensures processes { IfOk result (λ command. length command.procs ≡ clients + 1) }
    ensures symbols { IfOk result (λ command. length command.names ≡ 4 * clients) }
{
    let names = names(alloc, clients)?;
    let procs = processes(alloc, clients)?;
    Ok(Command { names, procs })
}
