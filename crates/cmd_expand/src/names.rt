//! The names of all symbols of a file.
ghost use Rattle.std.specs.Prelude.{◌≡◌, IfOk, OnOk};
ghost use Rattle.std.specs.List.{IsDistinct};
ghost use Rattle.std.specs.Str.{bytes_eq};
ghost use Rattle.cmd_expand.specs.Names.{all_names, with_pairs, with_factors, with_sentences};

use cmd_text::{Factor, File, NameTable, Rename, Sentence};
use cmd_tree::Name;
use std::alloc::{AllocError, Global};

/// The names of the symbols of the file's processes, and behind them those that only renamings have.
pub fn list_names(alloc: Global, file: &File) -> Result<NameTable, AllocError>
    requires { IsDistinct bytes_eq file.now.names }
    ensures { IfOk result (λ names. names ≡ all_names file.now.names file.now.sentences) }
{
    let mut names = copy_names(alloc, file.names.as_slice())?;
    add_sentences(alloc, &mut names, file.sentences.as_slice())?;
    Ok(names)
}

/// A table of these names, which are different.
fn copy_names(alloc: Global, names: &[Name]) -> Result<NameTable, AllocError>
    requires { IsDistinct bytes_eq names.now }
    ensures { IfOk result (λ table. table ≡ names.now) }
{
    let mut table = NameTable::new(alloc);
    for name in names {
        table.insert(alloc, name.bytes())?;
    }
    Ok(table)
}

fn add_sentences(
    alloc: Global,
    names: &mut NameTable,
    sentences: &[Sentence],
) -> Result<(), AllocError>
    ensures { OnOk result (names.new ≡ with_sentences names.old sentences.now) }
{
    for sentence in sentences {
        add_factors(alloc, names, sentence.factors.as_slice())?;
    }
    Ok(())
}

fn add_factors(alloc: Global, names: &mut NameTable, factors: &[Factor]) -> Result<(), AllocError>
    ensures { OnOk result (names.new ≡ with_factors names.old factors.now) }
{
    for factor in factors {
        if let Factor::Named(named) = factor {
            add_pairs(alloc, names, named.renames.as_slice())?;
        }
    }
    Ok(())
}

fn add_pairs(alloc: Global, names: &mut NameTable, renames: &[Rename]) -> Result<(), AllocError>
    ensures { OnOk result (names.new ≡ with_pairs names.old renames.now) }
{
    for rename in renames {
        names.insert(alloc, rename.fresh.bytes())?;
        names.insert(alloc, rename.was.bytes())?;
    }
    Ok(())
}
