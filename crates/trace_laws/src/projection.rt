//! What is left of a trace where only some symbols are looked at.
ghost use Rattle.std.specs.Prelude.{◌≡◌, ◌↔◌, IsTrue, IfOk, filter, nat_eq};
ghost use Rattle.std.specs.List.{list_any};
ghost use Rattle.cmd_tree.specs.Lists.{is_in};
ghost use Rattle.trace_laws.specs.Listed.{numbers, projected};

use cmd_tree::Sym;
use std::alloc::{AllocError, Global};

/// The symbols of `trace` that are among those of `kept`, in their order.
pub fn project(alloc: Global, trace: &[Sym], kept: &[Sym]) -> Result<Vec<Sym>, AllocError>
    ensures { IfOk result (λ left. numbers left.items ≡ projected trace.now kept.now) }
{
    let left = symbols_among(alloc, trace, kept)?;
    Ok(left)
}

fn symbols_among(alloc: Global, trace: &[Sym], kept: &[Sym]) -> Result<Vec<Sym>, AllocError>
    ensures { IfOk result (λ left. left.items ≡ filter (λ s. is_in s.0 (numbers kept.now)) trace.now) }
{
    trace
        .iter()
        .filter(|sym| is_among(kept, **sym))
        .copied()
        .collect(alloc)
}

/// Whether `left` is the projection of `trace` on the symbols of `kept`.
pub fn in_projection(trace: &[Sym], kept: &[Sym], left: &[Sym]) -> bool
    ensures { IsTrue result ↔ (numbers left.now ≡ projected trace.now kept.now) }
{
    let mut rest = left;
    for sym in trace {
        if !is_among(kept, *sym) {
            continue;
        }
        let [next, more @ ..] = rest else {
            return false;
        };
        if next.0 != sym.0 {
            return false;
        }
        rest = more;
    }
    rest.is_empty()
}

fn is_among(kept: &[Sym], sym: Sym) -> bool
    ensures { result ≡ is_in sym.0 (numbers kept.now) }
{
    is_any(kept, sym)
}

fn is_any(kept: &[Sym], sym: Sym) -> bool
    ensures { result ≡ list_any (λ one. nat_eq sym.0 one.0) kept.now }
{
    kept.iter().any(|one| sym.0 == one.0)
}
