ghost use Rattle.std.specs.Prelude.{◌≡◌, [], ◌∷◌, IfOk};
ghost use Rattle.cmd_tree.specs.declared.tree.Item.TheVariants.{Burst};
ghost use Rattle.cmd_tree.specs.Marks.{input, output};
ghost use Rattle.cmd_tree.specs.View.{seq_of};
ghost use Rattle.place_graph.specs.Drawable.{IsDrawable};

use crate::draw::graph;
use crate::styles::{SplitStyle, style};
use crate::wait_graph::{Act, Cross, Start};
use cmd_tree::{Dir, Item, Mark, Proc, Seq, Sym};
use sqlite_items::Items;
use std::alloc::{AllocError, Global};
use std::test::Fail;

fn take(alloc: Global, symbol: u32) -> Result<Item, AllocError>
    ensures { IfOk result (λ item. item ≡ Burst (input symbol ∷ [])) }
{
    let mark = Mark {
        sym: Sym(symbol),
        dir: Dir::Input,
    };
    let marks = Items::from_slice(alloc, &[mark])?;
    Ok(Item::Burst(marks))
}

fn give(alloc: Global, symbol: u32) -> Result<Item, AllocError>
    ensures { IfOk result (λ item. item ≡ Burst (output symbol ∷ [])) }
{
    let mark = Mark {
        sym: Sym(symbol),
        dir: Dir::Output,
    };
    let marks = Items::from_slice(alloc, &[mark])?;
    Ok(Item::Burst(marks))
}

fn cross(wait: u32, burst: u32, act: u32) -> Cross {
    Cross { wait, burst, act }
}

fn exits(alloc: Global, acts: &[Act]) -> Result<Vec<Option<u32>>, AllocError> {
    let mut exits = Vec::new(alloc);
    for act in acts {
        exits.push(act.exit)?;
    }
    Ok(exits)
}

fn sequence(items: Vec<Item>) -> Seq
    ensures { result ≡ seq_of items.items }
{
    Seq {
        items: Items::from_vec(items),
    }
}

// pref*[a?;b!;a?;c!]
fn toggle(alloc: Global) -> Result<Proc, AllocError>
    ensures { IfOk result IsDrawable }
{
    let items = vec![in alloc;
        take(alloc, 0)?,
        give(alloc, 1)?,
        take(alloc, 0)?,
        give(alloc, 2)?,
    ]?;
    Ok(Proc {
        lead: None,
        body: Some(sequence(items)),
    })
}

// pref*[a?;x!;b?;y!|c?;z!]
fn choice(alloc: Global) -> Result<Proc, AllocError>
    ensures { IfOk result IsDrawable }
{
    let long = vec![in alloc;
        take(alloc, 0)?,
        give(alloc, 1)?,
        take(alloc, 2)?,
        give(alloc, 3)?,
    ]?;
    let short = vec![in alloc; take(alloc, 4)?, give(alloc, 5)?]?;
    let alternatives = vec![in alloc; sequence(long), sequence(short)]?;
    let items = vec![in alloc; Item::Alt(Items::from_vec(alternatives))]?;
    Ok(Proc {
        lead: None,
        body: Some(sequence(items)),
    })
}

#[test]
fn draws_a_toggle(rt: HostRuntime) -> Result<(), Fail> {
    let process = toggle(rt.alloc())?;
    let drawn = graph(rt.alloc(), &process)?;
    assert_eq!(rt; drawn.waits, 2);
    assert_eq!(rt; drawn.bursts.len(), 1);
    let crosses = [cross(0, 0, 0), cross(1, 0, 1)];
    assert_eq!(rt; drawn.crosses.as_slice(), crosses.as_slice());
    let exits: Vec<Option<u32>> = exits(rt.alloc(), drawn.acts.as_slice())?;
    assert_eq!(rt; exits.as_slice(), [Some(1), Some(0)].as_slice());
    assert_eq!(rt; drawn.start, Start::Wait(0));
    assert_eq!(rt; style(&drawn), SplitStyle::Rounds(2));
    Ok(())
}

// The crossing of c stands before that of b, since a and c are taken at the first wait.
#[test]
fn draws_a_choice(rt: HostRuntime) -> Result<(), Fail> {
    let process = choice(rt.alloc())?;
    let drawn = graph(rt.alloc(), &process)?;
    assert_eq!(rt; drawn.waits, 2);
    assert_eq!(rt; drawn.bursts.len(), 3);
    let crosses = [cross(0, 0, 0), cross(0, 2, 2), cross(1, 1, 1)];
    assert_eq!(rt; drawn.crosses.as_slice(), crosses.as_slice());
    let exits: Vec<Option<u32>> = exits(rt.alloc(), drawn.acts.as_slice())?;
    assert_eq!(rt; exits.as_slice(), [Some(1), Some(0), Some(0)].as_slice());
    assert_eq!(rt; drawn.start, Start::Wait(0));
    assert_eq!(rt; style(&drawn), SplitStyle::Token);
    Ok(())
}
