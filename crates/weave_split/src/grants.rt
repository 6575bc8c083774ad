//! Which processes of a command are grants.
ghost use Rattle.std.specs.Prelude.{◌≡◌, map, IfOk};
ghost use Rattle.di_grammar.specs.Sums.{grants};

use cmd_tree::Proc;
use di_grammar::is_grant;
use std::alloc::{AllocError, Global};

/// Of each process whether it is a grant.
pub fn all_grants(alloc: Global, procs: &[Proc]) -> Result<Vec<bool>, AllocError>
    ensures { IfOk result (λ it. it.items ≡ map grants procs.now) }
{
    let mut all = Vec::new(alloc);
    for process in procs {
        all.push(is_grant(process))?;
    }
    Ok(all)
}
