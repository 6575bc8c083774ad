//! What is counted of a weave: what leads the symbols to and from its processes, and what stands for its grants.
ghost use Rattle.std.specs.Prelude.{◌≡◌, ◌++◌, false, [], map, length, get_or, is_some, if◌then◌else◌, IfOk, OnOk};
ghost use Rattle.std.specs.List.{range_with_len};
ghost use Rattle.cmd_tree.specs.Limits.{marks_of_proc};
ghost use Rattle.cmd_rename.specs.Symbols.{put_each, symbols_in};
ghost use Rattle.di_grammar.specs.Sums as sums;
ghost use Rattle.count_sum.specs.Mirror.Parts.{counted_of};
ghost use Rattle.count_sum.specs.Mirror.Lists.{joined, times};
ghost use Rattle.count_sum.specs.Mirror.Rings.{ring_of, ring_parts};
ghost use Rattle.count_sum.specs.Mirror.Weaves.{own, own_made, meeting_by};

use crate::counts::Sort;
use crate::parts::Part;
use crate::rings::{Ring, ring_for};
use crate::tally::tally;
use cmd_rename::{Table, list_symbol, proc_symbols};
use cmd_tree::{Command, Proc, copy_command};
use di_grammar::is_grant;
use net_core::{NodeSpec, directions};
use std::alloc::{AllocError, Global};

/// The numbers, each once, in order of first occurrence. `listed` is used for the search alone.
fn once(alloc: Global, numbers: &[u32], listed: &mut Table) -> Result<Vec<u32>, AllocError>
    ensures { IfOk result (λ it. it.items ≡ put_each [] numbers.now) }
{
    listed.clear();
    let mut found = Vec::new(alloc);
    for number in numbers {
        list_symbol(&mut found, listed, *number)?;
    }
    Ok(found)
}

/// The symbols of a process, each once.
fn own(alloc: Global, process: &Proc, listed: &mut Table) -> Result<Vec<u32>, AllocError>
    ensures { IfOk result (λ it. it.items ≡ own process.now) }
{
    let places = proc_symbols(alloc, process)?;
    once(alloc, places.as_slice(), listed)
}

/// Those of its symbols that it makes: a grant makes none.
fn made_by<'a>(process: &Proc, own: &'a [u32]) -> &'a [u32]
    ensures { result.now ≡ (if sums.grants process.now then [] else own.now) }
{
    if is_grant(process) { &[] } else { own }
}

/// The symbols of all processes, one process after the other.
#[derive(Drop)]
struct Symbols {
    /// Of each process, each once.
    own: Vec<u32>,
    /// Of those that are no grants.
    made: Vec<u32>,
}

impl Symbols {
    fn of(alloc: Global, procs: &[Proc]) -> Result<Symbols, AllocError>
        ensures { IfOk result (λ it. (it.own.items ≡ joined own procs.now) × (it.made.items ≡ joined own_made procs.now)) }
    {
        let mut listed = Table::new(alloc);
        let mut all = Vec::new(alloc);
        let mut made = Vec::new(alloc);
        for process in procs {
            let mut numbers = own(alloc, process, &mut listed)?;
            made.extend_from_slice(made_by(process, numbers.as_slice()))?;
            all.append(&mut numbers)?;
        }
        Ok(Symbols { own: all, made })
    }
}

/// A FORK for an input, to each process that has it; a C for an output, from each that makes it.
fn meeting(out: bool, made: usize, standing: usize) -> Part
    ensures { counted_of result ≡ meeting_by out made standing }
{
    if out {
        Part::Wide(Sort::C, made)
    } else {
        Part::Wide(Sort::Fork, standing)
    }
}

fn meetings(
    alloc: Global,
    outs: &[bool],
    made: &[usize],
    standing: &[usize],
) -> Result<Vec<Part>, AllocError>
    requires made { length made.now ≡ length outs.now }
    requires standing { length standing.now ≡ length outs.now }
    ensures { IfOk result (λ it. map counted_of it.items
        ≡ map (λ a. meeting_by (get_or outs.now a false) (get_or made.now a 0) (get_or standing.now a 0)) (range_with_len 0 (length outs.now))) }
{
    let mut parts = Vec::new(alloc);
    for symbol in 0..outs.len() {
        parts.push(meeting(outs[symbol], made[symbol], standing[symbol]))?;
    }
    Ok(parts)
}

/// What leads the symbols to and from the processes.
fn symbol_parts(alloc: Global, command: &Command) -> Result<Vec<Part>, AllocError>
    ensures { IfOk result (λ it. map counted_of it.items
        ≡ map (sums.meeting command.now.procs) (range_with_len 0 (length command.now.names))) }
{
    let procs = command.procs.as_slice();
    let names = command.names.len();
    let copy = copy_command(alloc, command)?;
    let outs = directions(alloc, &NodeSpec::Cmd(copy))?;
    let symbols = Symbols::of(alloc, procs)?;
    let made = tally(alloc, symbols.made.as_slice(), names)?;
    let standing = tally(alloc, symbols.own.as_slice(), names)?;
    meetings(alloc, outs.as_slice(), made.as_slice(), standing.as_slice())
}

/// What stands for a grant.
fn push_ring(parts: &mut Vec<Part>, ring: Ring) -> Result<(), AllocError>
    ensures { OnOk result (map counted_of parts.new.items ≡ map counted_of parts.old.items ++ ring_parts ring) }
{
    match ring {
        Ring::Plain(requests) => parts.push(Part::Sequencer(requests))?,
        Ring::Release(requests, returns) => {
            parts.push(Part::Sequencer(requests))?;
            parts.push(Part::One(Sort::Iwire))?;
            parts.push(Part::Wide(Sort::Merge, returns))?;
        }
    }
    Ok(())
}

/// What stands for the grants.
fn rings(alloc: Global, procs: &[Proc]) -> Result<Vec<Part>, AllocError>
    ensures { IfOk result (λ it. map counted_of it.items ≡ sums.rings procs.now) }
{
    let mut parts = Vec::new(alloc);
    for process in procs {
        if let Some(ring) = ring_for(alloc, process)? {
            push_ring(&mut parts, ring)?;
        }
    }
    Ok(parts)
}

/// What is counted of the weave.
pub fn weave_parts(alloc: Global, command: &Command) -> Result<Vec<Part>, AllocError>
    ensures { IfOk result (λ it. map counted_of it.items ≡ sums.woven command.now.procs (length command.now.names)) }
{
    let mut parts = symbol_parts(alloc, command)?;
    parts.append(&mut rings(alloc, command.procs.as_slice())?)?;
    Ok(parts)
}
