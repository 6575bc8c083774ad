//! The names of symbols.
ghost use Rattle.std.specs.Prelude.{◌≡◌, [], IfOk, get_or};
ghost use Rattle.std.specs.List.{IsDistinct};
ghost use Rattle.std.specs.Str.{bytes_eq};
ghost use Rattle.cmd_rename.specs.Symbols.{names_in};

use cmd_tree::{Name, NameSet};
use std::alloc::{AllocError, Global};

/// The names of these symbols, which are different, in their order.
pub fn symbol_names(alloc: Global, names: &[Name], symbols: &[u32]) -> Result<NameSet, AllocError>
    requires { IsDistinct bytes_eq (names_in names.now symbols.now) }
    ensures { IfOk result (λ set. set ≡ names_in names.now symbols.now) }
{
    let mut set = NameSet::new(alloc);
    for symbol in symbols {
        let name = copy_name(alloc, names, *symbol)?;
        set.insert(name)?;
    }
    Ok(set)
}

fn copy_name(alloc: Global, names: &[Name], symbol: u32) -> Result<Name, AllocError>
    ensures { IfOk result (λ name. name ≡ get_or names.now symbol []) }
{
    match names.get(symbol as usize) {
        Some(name) => {
            let copy = name.clone()?;
            Ok(copy)
        }
        None => Name::new(alloc, &[]),
    }
}
