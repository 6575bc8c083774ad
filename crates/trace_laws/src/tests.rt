//! Lists of traces with what they break. The symbols are a, b and c, numbered from 0.
use crate::check::{BrokenRule, check_rules};
use crate::projection::{in_projection, project};
use cmd_tree::{Dir, Sym};
use std::alloc::{AllocError, Global};
use std::test::Fail;

fn trace(alloc: Global, symbols: &[u32]) -> Result<Vec<Sym>, AllocError> {
    symbols.iter().map(|symbol| Sym(*symbol)).collect(alloc)
}

fn traces(alloc: Global, rows: &[&[u32]]) -> Result<Vec<Vec<Sym>>, AllocError> {
    let mut traces = Vec::new(alloc);
    for row in rows {
        traces.push(trace(alloc, row)?)?;
    }
    Ok(traces)
}

fn is_broken(broken: &Option<BrokenRule>, rule: u8, symbols: &[u32], present: bool) -> bool {
    let Some(broken) = broken else {
        return false;
    };
    if broken.rule != rule || broken.present != present {
        return false;
    }
    if broken.trace.len() != symbols.len() {
        return false;
    }
    broken
        .trace
        .iter()
        .zip(symbols)
        .all(|(sym, number)| sym.0 == *number)
}

#[test]
fn swaps_neighbours(rt: HostRuntime) -> Result<(), Fail> {
    let rows = traces(rt.alloc(), &[&[], &[0], &[1], &[0, 1]])?;
    let broken = check_rules(
        rt.alloc(),
        rows.as_slice(),
        &[Dir::Input, Dir::Input, Dir::Output],
    )?;
    assert!(rt; is_broken(&broken, 2, &[1, 0], false));
    Ok(())
}

#[test]
fn refuses_a_symbol_twice(rt: HostRuntime) -> Result<(), Fail> {
    let rows = traces(rt.alloc(), &[&[], &[0], &[0, 0]])?;
    let broken = check_rules(rt.alloc(), rows.as_slice(), &[Dir::Input])?;
    assert!(rt; is_broken(&broken, 1, &[0, 0], true));
    Ok(())
}

#[test]
fn takes_a_wire(rt: HostRuntime) -> Result<(), Fail> {
    let rows = traces(rt.alloc(), &[&[], &[0], &[0, 1]])?;
    let broken = check_rules(rt.alloc(), rows.as_slice(), &[Dir::Input, Dir::Output])?;
    assert!(rt; broken.is_none());
    Ok(())
}

#[test]
fn misses_the_empty_trace(rt: HostRuntime) -> Result<(), Fail> {
    let rows = traces(rt.alloc(), &[])?;
    let broken = check_rules(rt.alloc(), rows.as_slice(), &[Dir::Input, Dir::Output])?;
    assert!(rt; is_broken(&broken, 0, &[], false));
    Ok(())
}

#[test]
fn carries_a_symbol(rt: HostRuntime) -> Result<(), Fail> {
    let rows = traces(rt.alloc(), &[&[], &[0], &[1], &[0, 1], &[1, 0], &[0, 1, 2]])?;
    let dirs = [Dir::Input, Dir::Output, Dir::Input];
    let broken = check_rules(rt.alloc(), rows.as_slice(), &dirs)?;
    assert!(rt; is_broken(&broken, 3, &[1, 0, 2], false));
    Ok(())
}

#[test]
fn lets_both_come(rt: HostRuntime) -> Result<(), Fail> {
    let rows = traces(rt.alloc(), &[&[], &[1], &[0]])?;
    let broken = check_rules(rt.alloc(), rows.as_slice(), &[Dir::Input, Dir::Output])?;
    assert!(rt; is_broken(&broken, 4, &[0, 1], false));
    Ok(())
}

// Of a b a the symbols of a alone.
#[test]
fn projects(rt: HostRuntime) -> Result<(), Fail> {
    let left = project(rt.alloc(), &[Sym(0), Sym(1), Sym(0)], &[Sym(0)])?;
    assert_eq!(rt; left.as_slice(), [Sym(0), Sym(0)].as_slice());
    assert!(rt; in_projection(&[Sym(0), Sym(1), Sym(0)], &[Sym(0)], left.as_slice()));
    assert!(rt; !in_projection(&[Sym(0), Sym(1), Sym(0)], &[Sym(1)], left.as_slice()));
    Ok(())
}
