//! The names of an arbiter's symbols.
ghost use Rattle.std.specs.Prelude.{◌≡◌, ◌+◌, ◌<◌, ◌≤◌, ◌∷◌, decimal, flat_map, IfOk, OnOk};
ghost use Rattle.arbiters.specs.Arbiter.{arbiter_names};

use cmd_tree::{Name, NameSet};
use itoa::Buffer;
use std::alloc::{AllocError, Global};

/// The names of the symbols of so many clients.
pub fn names(alloc: Global, clients: u32) -> Result<NameSet, AllocError>
    requires { clients ≤ 255 }
    ensures { IfOk result (λ names. names ≡ arbiter_names clients) }
{
    let mut names = NameSet::new(alloc);
    for index in 0..clients {
        put_names(alloc, index, &mut names)?;
    }
    Ok(names)
}

// Puts the names of the next client behind those of the clients before it.
fn put_names(alloc: Global, before: u32, names: &mut NameSet) -> Result<(), AllocError>
    requires few { before < 255 }
    requires names { names.old ≡ arbiter_names before }
    ensures { OnOk result (names.new ≡ arbiter_names (before + 1)) }
{
    let number = before + 1;
    names.insert(name(alloc, b'a', number)?)?;
    names.insert(name(alloc, b'p', number)?)?;
    names.insert(name(alloc, b'c', number)?)?;
    names.insert(name(alloc, b'e', number)?)?;
    Ok(())
}

// The name of a letter and of the digits of a number.
fn name(alloc: Global, letter: u8, number: u32) -> Result<Name, AllocError>
    ensures { IfOk result (λ name. name ≡ letter ∷ decimal number) }
{
    let mut digits = Buffer::new();
    let mut bytes = Vec::from_slice(alloc, &[letter])?;
    bytes.extend_from_slice(digits.format(number).as_bytes())?;
    Name::new(alloc, bytes.as_slice())
}
