//! Trees of commands and their rules.
ghost use Rattle.std.specs.Prelude.{◌≡◌, ◌∷◌, [], IfOk, codes};
ghost use Rattle.cmd_tree.specs.Tree.{TBurst, TAlt, Or, Stop, Then, Done};
ghost use Rattle.cmd_tree.specs.Marks.{input, output};
ghost use Rattle.cmd_tree.specs.View.{item_of, seq_of};

use cmd_tree::{
    Command, Dir, Item, Mark, Name, NameSet, Proc, Seq, Sym, all_marks, copy_command, depth,
    places, places_in_all, same_command,
};
use sqlite_items::Items;
use std::alloc::{AllocError, Global};
use std::test::Fail;

fn single(alloc: Global, symbol: u32, dir: Dir) -> Result<Item, AllocError>
    ensures { IfOk result (λ item. item_of item ≡ TBurst (record { sym = record { 0 = symbol }; dir = dir } ∷ [])) }
{
    let mark = Mark {
        sym: Sym(symbol),
        dir,
    };
    Ok(Item::Burst(Items::from_slice(alloc, &[mark])?))
}

fn sequence(items: Vec<Item>) -> Seq
    ensures { result ≡ seq_of items.items }
{
    Seq {
        items: Items::from_vec(items),
    }
}

fn choice(alloc: Global, first: Seq, second: Seq) -> Result<Item, AllocError>
    ensures { IfOk result (λ item. item_of item ≡ TAlt (Or first (Or second Stop))) }
{
    let alternatives = vec![in alloc; first, second]?;
    Ok(Item::Alt(Items::from_vec(alternatives)))
}

fn three_names(alloc: Global) -> Result<NameSet, AllocError>
    ensures { IfOk result (λ names. names ≡ codes "a" ∷ codes "b" ∷ codes "c" ∷ []) }
{
    let mut names = NameSet::new(alloc);
    names.insert(Name::new(alloc, b"a")?)?;
    names.insert(Name::new(alloc, b"b")?)?;
    names.insert(Name::new(alloc, b"c")?)?;
    Ok(names)
}

// `b!|c!;(a?|b?)`
fn nested_choice(alloc: Global) -> Result<Item, AllocError>
    ensures { let inner = TAlt (Or (Then (TBurst (input 0 ∷ [])) Done) (Or (Then (TBurst (input 1 ∷ [])) Done) Stop)) in
        let second = Then (TBurst (output 2 ∷ [])) (Then inner Done) in
        IfOk result (λ item. item_of item ≡ TAlt (Or (Then (TBurst (output 1 ∷ [])) Done) (Or second Stop))) }
{
    let input_a = sequence(vec![in alloc; single(alloc, 0, Dir::Input)?]?);
    let input_b = sequence(vec![in alloc; single(alloc, 1, Dir::Input)?]?);
    let inner = choice(alloc, input_a, input_b)?;
    let first = sequence(vec![in alloc; single(alloc, 1, Dir::Output)?]?);
    let second = sequence(vec![in alloc; single(alloc, 2, Dir::Output)?, inner]?);
    choice(alloc, first, second)
}

// `pref[a?;*[b!|c!;(a?|b?)]]`
fn led_choice(alloc: Global) -> Result<Command, AllocError> {
    let names = three_names(alloc)?;
    let lead = sequence(vec![in alloc; single(alloc, 0, Dir::Input)?]?);
    let body = sequence(vec![in alloc; nested_choice(alloc)?]?);
    let process = Proc {
        lead: Some(lead),
        body: Some(body),
    };
    let procs = Items::from_vec(vec![in alloc; process]?);
    Ok(Command { names, procs })
}

// `pref*[a?;b!;c?]`
fn three_in_turn(alloc: Global) -> Result<Command, AllocError> {
    let names = three_names(alloc)?;
    let first = single(alloc, 0, Dir::Input)?;
    let second = single(alloc, 1, Dir::Output)?;
    let third = single(alloc, 2, Dir::Input)?;
    let body = sequence(vec![in alloc; first, second, third]?);
    let process = Proc {
        lead: None,
        body: Some(body),
    };
    let procs = Items::from_vec(vec![in alloc; process]?);
    Ok(Command { names, procs })
}

#[test]
fn counts_places_and_depth(rt: HostRuntime) -> Result<(), Fail> {
    let nested = led_choice(rt.alloc())?;
    assert_eq!(rt; places(&nested), 5);
    assert_eq!(rt; depth(&nested), 2);
    assert_eq!(rt; places_in_all(nested.procs.as_slice()), 5);
    let flat = three_in_turn(rt.alloc())?;
    assert_eq!(rt; places(&flat), 3);
    assert_eq!(rt; depth(&flat), 0);
    Ok(())
}

#[test]
fn copies_a_command(rt: HostRuntime) -> Result<(), Fail> {
    let nested = led_choice(rt.alloc())?;
    let copy = copy_command(rt.alloc(), &nested)?;
    assert_eq!(rt; copy.names.len(), 3);
    assert_eq!(rt; copy.procs.len(), 1);
    assert_eq!(rt; places(&copy), 5);
    assert_eq!(rt; depth(&copy), 2);
    assert!(rt; same_command(&copy, &nested));
    Ok(())
}

#[test]
fn tells_commands_apart(rt: HostRuntime) -> Result<(), Fail> {
    let nested = led_choice(rt.alloc())?;
    let flat = three_in_turn(rt.alloc())?;
    assert!(rt; same_command(&flat, &flat));
    assert!(rt; !same_command(&flat, &nested));
    assert!(rt; !same_command(&nested, &flat));
    Ok(())
}

#[test]
fn lists_marks_in_text_order(rt: HostRuntime) -> Result<(), Fail> {
    let marks = all_marks(rt.alloc(), &led_choice(rt.alloc())?)?;
    let wanted = [
        (0, Dir::Input),
        (1, Dir::Output),
        (2, Dir::Output),
        (0, Dir::Input),
        (1, Dir::Input),
    ];
    assert_eq!(rt; marks.len(), wanted.len());
    for (mark, (symbol, dir)) in marks.iter().zip(wanted) {
        assert_eq!(rt; mark.sym, Sym(symbol));
        assert_eq!(rt; mark.dir, dir);
    }
    Ok(())
}

#[test]
fn numbers_names_by_first_occurrence(rt: HostRuntime) -> Result<(), Fail> {
    let mut names = NameSet::new(rt.alloc());
    assert!(rt; names.is_empty());
    for (text, index) in [("a", 0), ("b", 1), ("a", 0), ("c7_x", 2), ("b", 1)] {
        let name = Name::new(rt.alloc(), text.as_bytes())?;
        assert_eq!(rt; names.insert(name)?, index, "at {text}");
    }
    let copy = names.clone()?;
    for (text, index) in [
        ("a", Some(0)),
        ("b", Some(1)),
        ("c7_x", Some(2)),
        ("c", None),
    ] {
        let name = Name::new(rt.alloc(), text.as_bytes())?;
        assert_eq!(rt; copy.index_of(&name), index, "at {text}");
    }
    assert_eq!(rt; copy.len(), 3);
    assert_eq!(rt; copy.as_slice().len(), 3);
    let last = copy.get(2).expect(&rt, "three names");
    assert_eq!(rt; last.bytes(), b"c7_x".as_slice());
    assert!(rt; copy.get(3).is_none());
    Ok(())
}
