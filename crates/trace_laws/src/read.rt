//! Reads a list of traces.
ghost use Rattle.std.specs.Prelude.{◌≡◌, ◌+◌, ◌-◌, ◌≤◌, ◌++◌, ℕ, List, [], ◌∷◌, length, replicate, IfOk, IfErr, IfSome, OnOk, MatchResult};
ghost use Rattle.std.specs.Option.{option_copied};
ghost use Rattle.cmd_tree.specs.declared.limits.TheConstants.{MAX_FILE_BYTES};
ghost use Rattle.cmd_tree.specs.declared.tree.Dir.{Dir};
ghost use Rattle.cmd_tree.specs.declared.tree.Dir.TheVariants.{Input, Output};
ghost use Rattle.trace_laws.specs.declared.list.TraceRefusal.TheVariants as told;
ghost use Rattle.trace_laws.specs.Listed.{numbers, rows};
ghost use Rattle.trace_laws.specs.ListText.{IsListText, IsFaultyLine, line_told};
ghost use Rattle.trace_laws.specs.Mirror.Reading.{with_names, with_header, headed, symbol_of, trace_of, with_traces, Listing, listing, dirs_of, Tells};
ghost use Rattle.text_lines.specs.Pieces.{pieces, pieces_left, left_size};

use crate::list::{TraceList, TraceRefusal};
use cmd_text::{NameTable, is_name};
use cmd_tree::{Dir, Sym};
use std::alloc::{AllocError, Global};
use text_lines::first_piece;

fn add_name(
    alloc: Global,
    line: u32,
    word: &[u8],
    names: &mut NameTable,
) -> Result<(), TraceRefusal>
    ensures ok { (ws : List (List ℕ)) → OnOk result (with_names line names.old (word.now ∷ ws) ≡ with_names line names.new ws) }
    ensures err { (ws : List (List ℕ)) → IfErr result (Tells (with_names line names.old (word.now ∷ ws))) }
    ensures more { OnOk result (length names.new ≤ length names.old + 1) }
{
    if !is_name(word) {
        return Err(TraceRefusal::BadLine { line });
    }
    let known = names.len();
    let place = names.insert(alloc, word)?;
    if place < known {
        return Err(TraceRefusal::BadLine { line });
    }
    Ok(())
}

// Each piece of the text is to be a name that is not yet there.
fn add_names(
    alloc: Global,
    line: u32,
    text: Option<&[u8]>,
    names: &mut NameTable,
) -> Result<(), TraceRefusal>
    ensures ok { OnOk result (with_names line names.old (pieces_left 32 (option_copied text.entry)) ≡ Ok names.new) }
    ensures err { IfErr result (Tells (with_names line names.old (pieces_left 32 (option_copied text.entry)))) }
    ensures more { OnOk result (length names.new ≤ length names.old + left_size (option_copied text.entry)) }
{
    let mut rest = text;
    while let Some(words) = rest {
        let (word, more) = first_piece(words, b' ');
        add_name(alloc, line, word, names)?;
        rest = more;
    }
    Ok(())
}

// The words of the header are to be this word and then names.
fn read_words(
    alloc: Global,
    line: u32,
    word: &[u8],
    header: &[u8],
    names: &mut NameTable,
) -> Result<(), TraceRefusal>
    ensures ok { OnOk result (with_header line word.now names.old (pieces 32 header.now) ≡ Ok names.new) }
    ensures err { IfErr result (Tells (with_header line word.now names.old (pieces 32 header.now))) }
    ensures more { OnOk result (length names.new ≤ length names.old + length header.now) }
{
    let (first, listed) = first_piece(header, b' ');
    if first != word {
        return Err(TraceRefusal::BadLine { line });
    }
    add_names(alloc, line, listed, names)
}

// The first line of the text is to be this word and names. What is behind the line is handed back.
fn read_header<'a>(
    alloc: Global,
    line: u32,
    word: &[u8],
    text: &'a [u8],
    names: &mut NameTable,
) -> Result<&'a [u8], TraceRefusal>
    ensures ok { IfOk result (λ rest. headed line word.now names.old (pieces 10 text.now)
        ≡ Ok (record { names = names.new; lines = pieces 10 rest.now })) }
    ensures err { IfErr result (Tells (headed line word.now names.old (pieces 10 text.now))) }
    ensures more { IfOk result (λ rest. length names.new + length rest.now ≤ length names.old + length text.now) }
{
    match first_piece(text, b'\n') {
        (_, None) => Err(TraceRefusal::BadLine { line }),
        (header, Some(rest)) => {
            read_words(alloc, line, word, header, names)?;
            Ok(rest)
        }
    }
}

// A word that is no name is put behind the names, and then the list is refused.
fn symbol(alloc: Global, line: u32, word: &[u8], names: &mut NameTable) -> Result<Sym, TraceRefusal>
    requires { length names.old ≤ MAX_FILE_BYTES }
    ensures ok { IfOk result (λ sym. symbol_of line names.old word.now ≡ Ok sym.0) }
    ensures err { IfErr result (Tells (symbol_of line names.old word.now)) }
    ensures same { OnOk result (names.new ≡ names.old) }
{
    let count = names.len();
    let place = names.insert(alloc, word)?;
    if place < count {
        Ok(Sym(place as u32))
    } else {
        Err(TraceRefusal::BadLine { line })
    }
}

fn read_trace(
    alloc: Global,
    line: u32,
    row: &[u8],
    names: &mut NameTable,
) -> Result<Vec<Sym>, TraceRefusal>
    requires { length names.old ≤ MAX_FILE_BYTES }
    ensures ok { IfOk result (λ trace. trace_of line names.old row.now ≡ Ok (numbers trace.items)) }
    ensures err { IfErr result (Tells (trace_of line names.old row.now)) }
    ensures same { OnOk result (names.new ≡ names.old) }
{
    let mut trace = Vec::new(alloc);
    if row.is_empty() {
        return Ok(trace);
    }
    let mut rest = Some(row);
    while let Some(words) = rest {
        let (word, more) = first_piece(words, b' ');
        trace.push(symbol(alloc, line, word, names)?)?;
        rest = more;
    }
    Ok(trace)
}

fn read_rows(
    alloc: Global,
    text: &[u8],
    names: &mut NameTable,
) -> Result<Vec<Vec<Sym>>, TraceRefusal>
    requires few { length names.old ≤ MAX_FILE_BYTES }
    requires short { length text.now ≤ MAX_FILE_BYTES }
    ensures ok { IfOk result (λ traces. with_traces 3 names.old [] (pieces 10 text.now) ≡ Ok (rows traces.items)) }
    ensures err { IfErr result (Tells (with_traces 3 names.old [] (pieces 10 text.now))) }
    ensures same { OnOk result (names.new ≡ names.old) }
{
    let mut traces = Vec::new(alloc);
    let mut line = 3;
    let mut rest = text;
    loop {
        let (row, behind) = first_piece(rest, b'\n');
        let Some(more) = behind else {
            if !row.is_empty() {
                return Err(TraceRefusal::BadLine { line });
            }
            return Ok(traces);
        };
        traces.push(read_trace(alloc, line, row, names)?)?;
        rest = more;
        line += 1;
    }
}

fn directions(alloc: Global, inputs: usize, count: usize) -> Result<Vec<Dir>, AllocError>
    requires { inputs ≤ count }
    ensures { IfOk result (λ dirs. dirs.items ≡ replicate inputs Input ++ replicate (count - inputs) Output) }
{
    let mut dirs = Vec::from_elem(alloc, Dir::Input, inputs)?;
    dirs.resize(count, Dir::Output)?;
    Ok(dirs)
}

fn read_list(alloc: Global, bytes: &[u8]) -> Result<TraceList, TraceRefusal>
    requires { length bytes.now ≤ MAX_FILE_BYTES }
    ensures ok { IfOk result (λ list. (r : Listing) × (listing bytes.now ≡ Ok r) × (list.names ≡ r.names)
        × (list.dirs.items ≡ dirs_of r) × (rows list.traces.items ≡ r.traces)) }
    ensures err { IfErr result (Tells (listing bytes.now)) }
{
    let mut names = NameTable::new(alloc);
    let rest = read_header(alloc, 1, b"in", bytes, &mut names)?;
    let inputs = names.len();
    let rest = read_header(alloc, 2, b"out", rest, &mut names)?;
    let dirs = directions(alloc, inputs, names.len())?;
    let traces = read_rows(alloc, rest, &mut names)?;
    Ok(TraceList {
        names,
        dirs,
        traces,
    })
}

/// Reads the text of a list of traces, of at most 1,048,576 bytes: a line `in` with the names of the inputs, a line `out`
/// with those of the outputs, and a line for each trace. One blank stands before each name but the first of a trace, and a
/// line feed behind each line. A refusal is of the first faulty line, or of want of memory.
pub fn read_traces(alloc: Global, bytes: &[u8]) -> Result<TraceList, TraceRefusal>
    requires { length bytes.now ≤ MAX_FILE_BYTES }
    ensures ok { IfOk result (λ list. IsListText bytes.now list.names list.dirs.items (rows list.traces.items)) }
    ensures refused { IfErr result (λ e. IfSome (line_told e) (IsFaultyLine bytes.now)) }
    ensures text_read { (names : List (List ℕ)) (dirs : List Dir) (traces : List (List ℕ)) → IsListText bytes.now names dirs traces →
        MatchResult result (λ list. (list.names ≡ names) × (list.dirs.items ≡ dirs) × (rows list.traces.items ≡ traces)) (λ e. e ≡ told.NoMemory) }
    ensures line_refused { (n : ℕ) → IsFaultyLine bytes.now n → MatchResult result (λ _. ⊥) (λ e. IfSome (line_told e) (λ m. m ≡ n)) }
{
    read_list(alloc, bytes)
}
