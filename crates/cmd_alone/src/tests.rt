ghost use Rattle.std.specs.Prelude.{◌≡◌, [], ◌∷◌, length, Some, None, IfOk};
ghost use Rattle.cmd_tree.specs.Marks.{input, output};
ghost use Rattle.cmd_tree.specs.Tree.{TBurst, Then};
ghost use Rattle.cmd_tree.specs.View.{item_of};
ghost use Rattle.process_laws.specs.GrantForms.{single, lone};

use crate::single::alone;
use cmd_tree::{Command, Dir, Item, Mark, Name, NameSet, Proc, Seq, Sym, same_command};
use sqlite_items::Items;
use std::alloc::{AllocError, Global};
use std::test::Fail;

fn burst(alloc: Global, symbol: u32, dir: Dir) -> Result<Item, AllocError>
    ensures { IfOk result (λ item. item_of item ≡ TBurst (record { sym = record { 0 = symbol }; dir = dir } ∷ [])) }
{
    let mark = Mark {
        sym: Sym(symbol),
        dir,
    };
    Ok(Item::Burst(Items::from_slice(alloc, &[mark])?))
}

// pref*[a?;b!] for these symbols
fn turns(alloc: Global, taken: u32, given: u32) -> Result<Proc, AllocError>
    ensures { IfOk result (λ process. process
        ≡ record { lead = None; body = Some (Then (single (input taken)) (lone (single (output given)))) }) }
{
    let items = vec![in alloc;
        burst(alloc, taken, Dir::Input)?,
        burst(alloc, given, Dir::Output)?,
    ]?;
    let body = Seq {
        items: Items::from_vec(items),
    };
    Ok(Proc {
        lead: None,
        body: Some(body),
    })
}

// pref*[a?;b!]||pref*[c?;b!]
fn two_givers(alloc: Global) -> Result<Command, AllocError>
    ensures { IfOk result (λ command. length command.procs ≡ 2) }
{
    let procs = Items::from_vec(vec![in alloc; turns(alloc, 0, 1)?, turns(alloc, 2, 1)?]?);
    let mut names = NameSet::new(alloc);
    names.insert(Name::new(alloc, b"a")?)?;
    names.insert(Name::new(alloc, b"b")?)?;
    names.insert(Name::new(alloc, b"c")?)?;
    Ok(Command { names, procs })
}

// pref*[c?;b!]
fn second(alloc: Global) -> Result<Command, AllocError> {
    let procs = Items::from_vec(vec![in alloc; turns(alloc, 0, 1)?]?);
    let mut names = NameSet::new(alloc);
    names.insert(Name::new(alloc, b"c")?)?;
    names.insert(Name::new(alloc, b"b")?)?;
    Ok(Command { names, procs })
}

#[test]
fn symbols_are_numbered_anew(rt: HostRuntime) -> Result<(), Fail> {
    let command = two_givers(rt.alloc())?;
    let found = alone(rt.alloc(), &command, 1)?;
    let wanted = second(rt.alloc())?;
    assert!(rt; same_command(&found, &wanted));
    Ok(())
}
