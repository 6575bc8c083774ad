//! The forms `compile wide F` and `compile two F`.
ghost use Rattle.std.specs.Prelude.{◌≡◌, ◌≤◌, ◌<◌, ◌⊎◌, ℕ, List, IfOk, IfErr, Some};
ghost use Rattle.di_grammar.specs.Admitted.{Admitted};
ghost use Rattle.cmd_tree.specs.declared.limits.TheConstants.{MAX_COMPONENTS};
ghost use Rattle.di_compile.specs.Compiling.{total, IsOfForm, IsNetworkOf};
ghost use Rattle.di_top.specs.Requests.{Compile as Asked};
ghost use Rattle.di_top.specs.Calls.{reading};
ghost use Rattle.di_top.specs.declared.outcome.Why.TheVariants.{NotThisForm};
ghost use Rattle.di_top.specs.CompileForm.{Compiles};
ghost use Rattle.di_top.specs.Outcomes.{Gives, Prints};
ghost use Rattle.di_top.specs.Plans.{text_of, IsStop};

use crate::command::load_command;
use crate::outcome::{Outcome, Why};
use crate::plan::Plan;
use cmd_tree::Command;
use di_compile::{Basis, CompileRefusal, compile};
use di_io::Shelf;
use net_core::Net;
use std::alloc::Global;

/// From the name of a command file to the network of its command: the file is loaded and read, its
/// command is admitted, and its network is built in the basis.
pub fn plan_compile<F: Shelf>(
    alloc: Global,
    basis: Basis,
    file: &str,
    shelf: &mut F,
) -> Result<Plan, Outcome>
    ensures ok { IfOk result (λ plan. Gives (Some (Asked basis file.now)) (reading F.content F.faults shelf.old shelf.new) Outcome.Done
        × Prints (Some (Asked basis file.now)) (reading F.content F.faults shelf.old shelf.new) (text_of plan)) }
    ensures stop { IfErr result (λ stop. IsStop stop
        × Gives (Some (Asked basis file.now)) (reading F.content F.faults shelf.old shelf.new) stop) }
    ensures kept { (other : List ℕ) → F.content shelf.new other ≡ F.content shelf.old other }
    ensures later { (other : List ℕ) → F.faults shelf.old other ≤ F.faults shelf.new other }
{
    let command = load_command(alloc, file, shelf)?;
    let net = network(alloc, &command, basis)?;
    Ok(Plan::Compile(net))
}

// The network of an admitted command.
fn network(alloc: Global, command: &Command, basis: Basis) -> Result<Net, Outcome>
    requires { Admitted command.now.procs }
    ensures ok { IfOk result (λ net. Compiles basis command.now.procs × IsNetworkOf basis command.now net) }
    ensures stop { IfErr result (λ stop. (stop ≡ Outcome.NoMemory)
        ⊎ (((IsOfForm basis command.now.procs → ⊥) × (stop ≡ Outcome.Refused NotThisForm))
        ⊎ (IsOfForm basis command.now.procs × (MAX_COMPONENTS < total basis command.now.procs)
        × (stop ≡ Outcome.Limit 6 (total basis command.now.procs))))) }
{
    match compile(alloc, command, basis) {
        Ok(net) => Ok(net),
        Err(CompileRefusal::NotThisForm) => Err(Outcome::Refused(Why::NotThisForm)),
        Err(CompileRefusal::TooManyComponents { count }) => Err(Outcome::Limit {
            limit: 6,
            value: count,
        }),
        Err(_) => Err(Outcome::NoMemory),
    }
}
