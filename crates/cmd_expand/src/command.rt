//! From a command file that was read to the command of `main`.
ghost use Rattle.std.specs.Prelude.{◌≡◌, ◌<◌, ◌^◌, List, [], length, get_or, Ok, Err, IfOk, IfErr};
ghost use Rattle.cmd_tree.specs.declared.tree.Proc.{Proc};
ghost use Rattle.std.specs.Option.{IfSome};
ghost use Rattle.cmd_rename.specs.Symbols.{counted};
ghost use Rattle.cmd_expand.specs.Files.{IsFile};
ghost use Rattle.cmd_expand.specs.Expansion.{expansion, refused_of};
ghost use Rattle.cmd_expand.specs.Mirror.Plan.{AreLines};
ghost use Rattle.cmd_expand.specs.Mirror.Main.{IsMain, IsMeant};

use crate::names::list_names;
use crate::plan::{Plan, Tables, define, resolve};
use crate::refusal::ExpandRefusal;
use crate::unfolding::unfold;
use cmd_rename::symbol_names;
use cmd_text::{File, NameTable};
use cmd_tree::Command;
use sqlite_items::Items;
use std::alloc::{AllocError, Global};

/// The command of `main`, in which each use of a definition is replaced by its processes with their symbols renamed.
/// The file must be one that was read. The first sentence with something wrong decides; in a sentence the least place
/// comes first, and behind all places the numbers of symbols, of processes and of symbol places, which are exact.
pub fn expand(alloc: Global, file: &File) -> Result<Command, ExpandRefusal>
    requires read { IsFile file.now.names file.now.sentences }
    ensures ok { IfOk result (λ command. expansion file.now.names file.now.sentences
        ≡ Ok (record { names = command.names; procs = command.procs })) }
    ensures refused { IfErr result (λ e. IfSome (refused_of e) (λ r. expansion file.now.names file.now.sentences ≡ Err r)) }
{
    let sentences = file.sentences.as_slice();
    let Some((main, definitions)) = sentences.split_last() else {
        unreachable!();
    };
    let mut plan = Plan {
        sentences,
        names: list_names(alloc, file)?,
        defined: NameTable::new(alloc),
        lines: Vec::new(alloc),
        tables: Tables::new(alloc),
    };
    for sentence in definitions {
        match define(alloc, &mut plan, sentence) {
            Ok(()) => {}
            Err(refusal) => return Err(refusal),
        }
    }
    let line = match resolve(alloc, &mut plan, main.factors.as_slice()) {
        Ok(line) => line,
        Err(refusal) => return Err(refusal),
    };
    let last = plan.lines.len();
    plan.lines.push(line)?;
    let command = command_of(alloc, &mut plan, last)?;
    Ok(command)
}

/// The command of a line.
fn command_of(alloc: Global, plan: &mut Plan, of: usize) -> Result<Command, AllocError>
    requires inside { of < length plan.old.lines.items }
    requires main { IsMain plan.old of }
    ensures { IfOk result (λ command. (ms : List (List Proc)) → AreLines ms plan.old.lines.items → IsMeant plan.old.names (get_or ms of []) command) }
{
    let line = &plan.lines[of];
    let numbers = first_numbers(alloc, line.symbols.len())?;
    let names = symbol_names(alloc, plan.names.as_slice(), line.symbols.as_slice())?;
    let shape = line.shape;
    let mut procs = Items::new(alloc);
    unfold(
        alloc,
        plan.lines.as_slice(),
        shape,
        numbers.as_slice(),
        &mut plan.tables,
        &mut procs,
    )?;
    Ok(Command { names, procs })
}

/// The first numbers, as many as are asked for.
fn first_numbers(alloc: Global, count: usize) -> Result<Vec<u32>, AllocError>
    requires { count < 2 ^ 32 }
    ensures { IfOk result (λ numbers. numbers.items ≡ counted count) }
{
    let mut numbers = Vec::new(alloc);
    for index in 0..count {
        numbers.push(index as u32)?;
    }
    Ok(numbers)
}
