//! The words of a component line: numbers, and signs between them.
ghost use Rattle.std.specs.Prelude.{◌≡◌, ◌+◌, ◌≤◌, ◌^◌, true, false, Some, None, length, IfOk, IfSome, IsNone, OnOk};
ghost use Rattle.std.specs.Option.{option_copied};
ghost use Rattle.cmd_tree.specs.declared.limits.TheConstants.{MAX_NETLIST_WIRES};
ghost use Rattle.net_text.specs.Mirror.PartWords.{number_of, inputs_in, numbers_in, ends_in, number_in};
ghost use Rattle.text_lines.specs.Pieces.{pieces, pieces_left, left_size};

use cmd_tree::MAX_NETLIST_WIRES;
use std::alloc::{AllocError, Global};
use text_lines::{DecimalFault, decimals_are_numbers, first_piece, read_decimal};

/// The wires of a component, of which the first are its inputs.
#[derive(Drop)]
pub(crate) struct Wires {
    pub inputs: usize,
    pub ends: Vec<u32>,
}

/// The number that is written as this word, where it is below the bound.
pub(crate) fn read_number(word: &[u8], bound: u64) -> Option<u32>
    requires { bound ≤ 2 ^ 32 }
    ensures { result ≡ number_of bound word.now }
{
    decimals_are_numbers();
    match read_decimal(word) {
        Ok(number) => {
            if number < bound {
                Some(number as u32)
            } else {
                None
            }
        }
        Err(DecimalFault::NotDecimal) => None,
        Err(DecimalFault::TooLarge) => None,
    }
}

/// The number that is the first word, and what is left behind it.
pub(crate) fn first_number(text: Option<&[u8]>) -> Option<(u32, Option<&[u8]>)>
    ensures some { IfSome result (λ first. number_in (pieces_left 32 (option_copied text.entry))
        ≡ Some (first.0, pieces_left 32 (option_copied first.1))) }
    ensures none { IsNone result → number_in (pieces_left 32 (option_copied text.entry)) ≡ None }
    ensures few { IfSome result (λ first. left_size (option_copied first.1) ≤ left_size (option_copied text.entry)) }
{
    let words = text?;
    let (word, rest) = first_piece(words, b' ');
    let number = read_number(word, 1 << 32)?;
    Some((number, rest))
}

/// Adds the numbers up to the sign `>`, and gives what is left behind it; none where a word is no wire's number, or no
/// such sign stands there.
fn add_inputs<'a>(
    text: Option<&'a [u8]>,
    ends: &mut Vec<u32>,
) -> Result<Option<Option<&'a [u8]>>, AllocError>
    ensures some { IfOk result (λ it. IfSome it (λ rest. inputs_in ends.old.items (pieces_left 32 (option_copied text.entry))
        ≡ Some (ends.new.items, pieces_left 32 (option_copied rest)))) }
    ensures none { IfOk result (λ it. IsNone it → inputs_in ends.old.items (pieces_left 32 (option_copied text.entry)) ≡ None) }
    ensures few { IfOk result (λ it. IfSome it (λ rest. length ends.new.items + left_size (option_copied rest)
        ≤ length ends.old.items + left_size (option_copied text.entry))) }
{
    let mut rest = text;
    while let Some(words) = rest {
        let (word, more) = first_piece(words, b' ');
        if word == b">".as_slice() {
            return Ok(Some(more));
        }
        let Some(number) = read_number(word, MAX_NETLIST_WIRES as u64) else {
            return Ok(None);
        };
        ends.push(number)?;
        rest = more;
    }
    Ok(None)
}

/// Adds the numbers of all words; false where one is no wire's number.
fn add_numbers(text: Option<&[u8]>, ends: &mut Vec<u32>) -> Result<bool, AllocError>
    ensures all { IfOk result (λ it. it ≡ true → numbers_in ends.old.items (pieces_left 32 (option_copied text.entry)) ≡ Some ends.new.items) }
    ensures none { IfOk result (λ it. it ≡ false → numbers_in ends.old.items (pieces_left 32 (option_copied text.entry)) ≡ None) }
    ensures few { IfOk result (λ it. it ≡ true → length ends.new.items ≤ length ends.old.items + left_size (option_copied text.entry)) }
    ensures more { IfOk result (λ it. it ≡ true → length ends.old.items ≤ length ends.new.items) }
{
    let mut rest = text;
    while let Some(words) = rest {
        let (word, more) = first_piece(words, b' ');
        let Some(number) = read_number(word, MAX_NETLIST_WIRES as u64) else {
            return Ok(false);
        };
        ends.push(number)?;
        rest = more;
    }
    Ok(true)
}

/// The input wires, the sign `>` and the output wires.
pub(crate) fn read_wires(alloc: Global, text: Option<&[u8]>) -> Result<Option<Wires>, AllocError>
    ensures some { IfOk result (λ it. IfSome it (λ wires. ends_in (pieces_left 32 (option_copied text.entry))
        ≡ Some (record { inputs = wires.inputs; ends = wires.ends.items }))) }
    ensures none { IfOk result (λ it. IsNone it → ends_in (pieces_left 32 (option_copied text.entry)) ≡ None) }
    ensures few { IfOk result (λ it. IfSome it (λ wires. length wires.ends.items ≤ left_size (option_copied text.entry))) }
    ensures front { IfOk result (λ it. IfSome it (λ wires. wires.inputs ≤ length wires.ends.items)) }
{
    let mut ends = Vec::new(alloc);
    let Some(rest) = add_inputs(text, &mut ends)? else {
        return Ok(None);
    };
    let inputs = ends.len();
    if !add_numbers(rest, &mut ends)? {
        return Ok(None);
    }
    Ok(Some(Wires { inputs, ends }))
}
