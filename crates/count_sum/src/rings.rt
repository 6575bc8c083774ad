//! What stands for a grant.
ghost use Rattle.std.specs.Prelude.{◌≡◌, ◌++◌, length, is_some, None, Some, IfOk, if◌then◌else◌};
ghost use Rattle.cmd_tree.specs.Tree.{Then, Done};
ghost use Rattle.cmd_tree.specs.View.{item_of, seqs_of, seq_of};
ghost use Rattle.cmd_tree.specs.Marks.{is_output};
ghost use Rattle.di_grammar.specs.Sums as sums;
ghost use Rattle.count_sum.specs.Mirror.Rings.{giving_of, ring_of, are_gifts, are_loans, returned_by};

use cmd_rename::Table;
use cmd_tree::{Dir, Item, Mark, Proc, Seq};
use std::alloc::{AllocError, Global};

/// What stands for a grant.
#[derive(Debug, Clone, Copy, PartialEq, Eq)]
pub enum Ring {
    /// A SEQ of so many requests.
    Plain(usize),
    /// A SEQ of so many requests, an IWIRE, and a MERGE of so many returns.
    Release(usize, usize),
}

fn output_of(mark: Mark) -> Option<u32>
    ensures { result ≡ (if is_output mark.dir then Some mark.sym.0 else None) }
{
    match mark.dir {
        Dir::Output => Some(mark.sym.0),
        Dir::Input => None,
    }
}

fn input_of(mark: Mark) -> Option<u32>
    ensures { result ≡ (if is_output mark.dir then None else Some mark.sym.0) }
{
    match mark.dir {
        Dir::Output => None,
        Dir::Input => Some(mark.sym.0),
    }
}

/// The symbol of a burst of one output.
fn one_output(item: &Item) -> Option<u32>
    ensures { result ≡ sums.one_output (item_of item.now) }
{
    match item {
        Item::Burst(marks) => match marks.as_slice() {
            [mark] => output_of(*mark),
            _ => None,
        },
        Item::Alt(_) => None,
    }
}

/// The symbol of a burst of one input.
fn one_input(item: &Item) -> Option<u32>
    ensures { result ≡ sums.one_input (item_of item.now) }
{
    match item {
        Item::Burst(marks) => match marks.as_slice() {
            [mark] => input_of(*mark),
            _ => None,
        },
        Item::Alt(_) => None,
    }
}

/// The alternative `p!`.
fn gift(items: &[Item]) -> Option<u32>
    ensures { result ≡ sums.gift (seq_of items.now) }
{
    match items {
        [gives] => one_output(gives),
        _ => None,
    }
}

fn pair(granted: Option<u32>, returned: Option<u32>) -> Option<(u32, u32)>
    ensures { giving_of result ≡ sums.pair granted returned }
{
    match (granted, returned) {
        (Some(granted), Some(returned)) => Some((granted, returned)),
        _ => None,
    }
}

/// The alternative `p!;d?`.
fn loan(items: &[Item]) -> Option<(u32, u32)>
    ensures { giving_of result ≡ sums.loan (seq_of items.now) }
{
    match items {
        [gives, returns] => pair(one_output(gives), one_input(returns)),
        _ => None,
    }
}

fn are_gifts(seqs: &[Seq]) -> bool
    ensures { result ≡ are_gifts (seqs_of seqs.now) }
{
    for seq in seqs {
        if gift(seq.items.as_slice()).is_none() {
            return false;
        }
    }
    true
}

fn are_loans(seqs: &[Seq]) -> bool
    ensures { result ≡ are_loans (seqs_of seqs.now) }
{
    for seq in seqs {
        if loan(seq.items.as_slice()).is_none() {
            return false;
        }
    }
    true
}

/// The symbols by which loans are returned.
fn returned(alloc: Global, seqs: &[Seq]) -> Result<Vec<u32>, AllocError>
    ensures { IfOk result (λ it. it.items ≡ returned_by (seqs_of seqs.now)) }
{
    let mut symbols = Vec::new(alloc);
    for seq in seqs {
        if let Some((_, symbol)) = loan(seq.items.as_slice()) {
            symbols.push(symbol)?;
        }
    }
    Ok(symbols)
}

/// How many numbers are different, from the last on.
fn different(alloc: Global, numbers: &[u32]) -> Result<usize, AllocError>
    ensures { IfOk result (λ it. it ≡ length (sums.each_once numbers.now)) }
{
    let mut listed = Table::new(alloc);
    let mut count = 0;
    for index in 0..numbers.len() {
        let number = numbers[numbers.len() - 1 - index];
        match listed.get(number) {
            None => {
                listed.put(number, 0)?;
                count += 1;
            }
            Some(_) => {}
        }
    }
    Ok(count)
}

fn plain_ring(seqs: &[Seq]) -> Option<Ring>
    ensures { ring_of result ≡ sums.of_several sums.plain_ring (sums.all_of sums.gift (seqs_of seqs.now)) }
{
    if seqs.len() > 1 && are_gifts(seqs) {
        Some(Ring::Plain(seqs.len()))
    } else {
        None
    }
}

fn release_ring(alloc: Global, seqs: &[Seq]) -> Result<Option<Ring>, AllocError>
    ensures { IfOk result (λ it. ring_of it ≡ sums.of_several sums.release_ring (sums.all_of sums.loan (seqs_of seqs.now))) }
{
    if seqs.len() > 1 && are_loans(seqs) {
        let symbols = returned(alloc, seqs)?;
        let returns = different(alloc, symbols.as_slice())?;
        Ok(Some(Ring::Release(seqs.len(), returns)))
    } else {
        Ok(None)
    }
}

fn lends(alloc: Global, choice: &Item) -> Result<Option<Ring>, AllocError>
    ensures { IfOk result (λ it. ring_of it ≡ sums.body_ring (Then (item_of choice.now) Done)) }
{
    match choice {
        Item::Burst(_) => Ok(None),
        Item::Alt(seqs) => release_ring(alloc, seqs.as_slice()),
    }
}

fn gives(asks: &Item, choice: &Item) -> Option<Ring>
    ensures { ring_of result ≡ sums.body_ring (Then (item_of asks.now) (Then (item_of choice.now) Done)) }
{
    match (one_input(asks), choice) {
        (Some(_), Item::Alt(seqs)) => plain_ring(seqs.as_slice()),
        _ => None,
    }
}

fn body_ring(alloc: Global, items: &[Item]) -> Result<Option<Ring>, AllocError>
    ensures { IfOk result (λ it. ring_of it ≡ sums.body_ring (seq_of items.now)) }
{
    match items {
        [choice] => lends(alloc, choice),
        [asks, choice] => Ok(gives(asks, choice)),
        _ => Ok(None),
    }
}

/// What stands for a process, where it is a grant.
pub fn ring_for(alloc: Global, process: &Proc) -> Result<Option<Ring>, AllocError>
    ensures { IfOk result (λ it. ring_of it ≡ sums.ring process.now) }
{
    match (&process.lead, &process.body) {
        (None, Some(body)) => body_ring(alloc, body.items.as_slice()),
        _ => Ok(None),
    }
}
