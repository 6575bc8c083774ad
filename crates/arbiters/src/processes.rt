//! The processes of an arbiter.
ghost use Rattle.std.specs.Prelude.{◌≡◌, ◌+◌, ◌<◌, ◌≤◌, IfOk};
ghost use Rattle.cmd_tree.specs.Marks.{input, output};
ghost use Rattle.cmd_tree.specs.Tree.{Then};
ghost use Rattle.cmd_tree.specs.View.{item_of};
ghost use Rattle.process_laws.specs.GrantForms.{single};
ghost use Rattle.arbiters.specs.Arbiter.{turn, client, grant, arbiter};
ghost use Rattle.arbiters.specs.Mirror.Loans.{loan};

use cmd_tree::{Dir, Item, Mark, Proc, Seq, Sym};
use sqlite_items::Items;
use std::alloc::{AllocError, Global};

/// So many clients, and the grant of all of them.
pub fn processes(alloc: Global, clients: u32) -> Result<Items<Proc>, AllocError>
    requires { clients ≤ 255 }
    ensures { IfOk result (λ processes. processes ≡ arbiter clients) }
{
    let mut processes = Items::new(alloc);
    for index in 0..clients {
        let process = client(alloc, index + 1)?;
        processes.push(process)?;
    }
    let grant = grant(alloc, clients)?;
    processes.push(grant)?;
    Ok(processes)
}

// What one client does.
fn client(alloc: Global, number: u32) -> Result<Proc, AllocError>
    requires some { 0 < number }
    requires few { number ≤ 255 }
    ensures { IfOk result (λ process. process ≡ client number) }
{
    let asks = 4 * (number - 1);
    let items = vec![in alloc;
        burst(alloc, input(asks))?,
        burst(alloc, output(asks + 1))?,
        burst(alloc, input(asks + 2))?,
        burst(alloc, output(asks + 3))?,
    ]?;
    Ok(process(Seq {
        items: Items::from_vec(items),
    }))
}

// Lends to one client at a time.
fn grant(alloc: Global, clients: u32) -> Result<Proc, AllocError>
    requires { clients ≤ 255 }
    ensures { IfOk result (λ process. process ≡ grant clients) }
{
    let mut loans = Items::new(alloc);
    for index in 0..clients {
        let loan = loan(alloc, index + 1)?;
        loans.push(loan)?;
    }
    let items = vec![in alloc; Item::Alt(loans)]?;
    Ok(process(Seq {
        items: Items::from_vec(items),
    }))
}

// An alternative of the grant: it lends to this client, and has back what it lent.
fn loan(alloc: Global, number: u32) -> Result<Seq, AllocError>
    requires some { 0 < number }
    requires few { number ≤ 255 }
    ensures { IfOk result (λ seq. seq ≡ loan number) }
{
    let granted = 4 * number - 3;
    let items = vec![in alloc;
        burst(alloc, output(granted))?,
        burst(alloc, input(granted + 1))?,
    ]?;
    Ok(Seq {
        items: Items::from_vec(items),
    })
}

// The process that does this again and again.
fn process(body: Seq) -> Proc
    ensures { result ≡ record { lead = None; body = Some body } }
{
    Proc {
        lead: None,
        body: Some(body),
    }
}

// A burst of one mark.
fn burst(alloc: Global, mark: Mark) -> Result<Item, AllocError>
    ensures { IfOk result (λ item. item_of item ≡ single mark) }
{
    let marks = Items::from_slice(alloc, &[mark])?;
    Ok(Item::Burst(marks))
}

fn input(symbol: u32) -> Mark
    ensures { result ≡ input symbol }
{
    Mark {
        sym: Sym(symbol),
        dir: Dir::Input,
    }
}

fn output(symbol: u32) -> Mark
    ensures { result ≡ output symbol }
{
    Mark {
        sym: Sym(symbol),
        dir: Dir::Output,
    }
}
