//! The reader of a file.
ghost use Rattle.std.specs.Prelude.{◌≡◌, ℕ, ◌<◌, ◌≤◌, List, [], length, IfOk, IfErr, IsOk, Ok, Err, true};
ghost use Rattle.std.specs.Prelude.{false};
ghost use Rattle.std.specs.Option.{IfSome};
ghost use Rattle.cmd_tree.specs.declared.limits.TheConstants.{MAX_FILE_BYTES};
ghost use Rattle.cmd_text.specs.Source.{fault_of, IsTextOfBytes, IsShallowText, IsFaultOfBytes};
ghost use Rattle.cmd_text.specs.declared.file.Sentence.{Sentence};
ghost use Rattle.cmd_text.specs.declared.file.Refusal.TheVariants as told;
ghost use Rattle.cmd_text.specs.Fault.{Fault};
ghost use Rattle.cmd_text.specs.Mirror.Machine.{AtForm};
ghost use Rattle.cmd_text.specs.Mirror.Reader.{InProcess, Finished, IsWithin};
ghost use Rattle.cmd_text.specs.Mirror.Reading.{answer};
ghost use Rattle.cmd_text.specs.Mirror.ReaderView.{partly_of, spot_of, answer_from, answer_behind, Refuses};

use crate::file::{Factor, File, Refusal, Sentence};
use crate::names::NameTable;
use crate::process::read_process;
use crate::scan::{lexeme_of, next_token};
use crate::spot::{Partly, Spot, push_factor, spot_step};
use crate::token::Token;
use sqlite_items::Items;
use std::alloc::Global;

/// The place of the reader behind a token, or behind a process.
#[derive(Drop)]
struct Advanced {
    spot: Spot,
    next: usize,
    ended: bool,
}

/// Reads one token, outside of processes.
#[tactic(none)]
fn pass_token(
    alloc: Global,
    bytes: &[u8],
    from: usize,
    sentences: &mut Items<Sentence>,
    spot: Spot,
) -> Result<Advanced, Refusal>
    requires few { length bytes.now ≤ MAX_FILE_BYTES }
    requires from_in { from ≤ length bytes.now }
    requires outside { IsWithin (spot_of sentences.old spot) → ⊥ }
    ensures ok { IfOk result (λ a. (ns : List (List ℕ)) →
        answer_from ns (spot_of sentences.old spot) from bytes.now
        ≡ answer_behind a.ended ns (spot_of sentences.new a.spot) a.next bytes.now) }
    ensures range { IfOk result (λ a. a.next ≤ length bytes.now) }
    ensures past { IfOk result (λ a. a.ended ≡ false → from < a.next) }
    ensures err { IfErr result (λ e. (ns : List (List ℕ)) →
        Refuses ns (spot_of sentences.old spot) from bytes.now e) }
{
    let found = match next_token(bytes, from) {
        Ok(found) => found,
        Err(refusal) => return Err(refusal),
    };
    let lexeme = lexeme_of(bytes, found);
    let Ok(stepped) = spot_step(alloc, sentences, spot, &lexeme) else {
        return Err(Refusal::NoMemory);
    };
    let Some(spot) = stepped else {
        return Err(Refusal::Unexpected { at: lexeme.at });
    };
    let ended = found.token == Token::End;
    Ok(Advanced {
        spot,
        next: found.next,
        ended,
    })
}

/// Reads a process, which is a factor of the sentence.
fn pass_process(
    alloc: Global,
    bytes: &[u8],
    from: usize,
    partly: Partly,
    names: &mut NameTable,
) -> Result<Advanced, Refusal>
    requires few { length bytes.now ≤ MAX_FILE_BYTES }
    requires from_in { from ≤ length bytes.now }
    requires few_names { length names.old ≤ from }
    ensures ok { IfOk result (λ a. (ss : List Sentence) →
        answer_from names.old (InProcess (partly_of ss partly) AtForm) from bytes.now
        ≡ answer_behind a.ended names.new (spot_of ss a.spot) a.next bytes.now) }
    ensures range { IfOk result (λ a. (from < a.next) × (a.next ≤ length bytes.now) × (length names.new ≤ a.next)) }
    ensures err { IfErr result (λ e. (ss : List Sentence) →
        Refuses names.old (InProcess (partly_of ss partly) AtForm) from bytes.now e) }
{
    let behind = match read_process(alloc, bytes, from, names) {
        Ok(behind) => behind,
        Err(refusal) => return Err(refusal),
    };
    let Ok(partly) = push_factor(partly, Factor::Own(behind.process)) else {
        return Err(Refusal::NoMemory);
    };
    Ok(Advanced {
        spot: Spot::AfterFactor(partly),
        next: behind.next,
        ended: false,
    })
}

/// Reads one token, or a process.
fn advance(
    alloc: Global,
    bytes: &[u8],
    from: usize,
    sentences: &mut Items<Sentence>,
    spot: Spot,
    names: &mut NameTable,
) -> Result<Advanced, Refusal>
    requires few { length bytes.now ≤ MAX_FILE_BYTES }
    requires from_in { from ≤ length bytes.now }
    requires few_names { length names.old ≤ from }
    ensures ok { IfOk result (λ a.
        answer_from names.old (spot_of sentences.old spot) from bytes.now
        ≡ answer_behind a.ended names.new (spot_of sentences.new a.spot) a.next bytes.now) }
    ensures range { IfOk result (λ a. a.next ≤ length bytes.now) }
    ensures past { IfOk result (λ a. a.ended ≡ false → (from < a.next) × (length names.new ≤ a.next)) }
    ensures err { IfErr result (Refuses names.old (spot_of sentences.old spot) from bytes.now) }
{
    match spot {
        Spot::Process(partly) => pass_process(alloc, bytes, from, partly, names),
        spot => pass_token(alloc, bytes, from, sentences, spot),
    }
}

/// Reads the tokens of the whole file.
#[tactic(none)]
fn read_tokens(
    alloc: Global,
    bytes: &[u8],
    sentences: &mut Items<Sentence>,
    names: &mut NameTable,
) -> Result<(), Refusal>
    requires few { length bytes.now ≤ MAX_FILE_BYTES }
    requires no_sentences { sentences.old ≡ [] }
    requires no_names { names.old ≡ [] }
    ensures ok { IfOk result (λ _. answer bytes.now
        ≡ Ok (record { names = names.new; spot = Finished sentences.new })) }
    ensures err { IfErr result (λ e. IfSome (fault_of e) (λ f. answer bytes.now ≡ Err f)) }
{
    let mut spot = Spot::Sentence;
    let mut from = 0;
    loop {
        let advanced = match advance(alloc, bytes, from, sentences, spot, names) {
            Ok(advanced) => advanced,
            Err(refusal) => return Err(refusal),
        };
        if advanced.ended {
            return Ok(());
        }
        spot = advanced.spot;
        from = advanced.next;
    }
}

/// Reads a command file of at most 1,048,576 bytes. A refusal is of the first fault of the bytes, or of want
/// of memory.
#[tactic(none)]
pub fn read_file(alloc: Global, bytes: &[u8]) -> Result<File, Refusal>
    requires { length bytes.now ≤ MAX_FILE_BYTES }
    ensures ok { IfOk result (λ f. IsTextOfBytes bytes.now f.names f.sentences × IsShallowText bytes.now) }
    ensures refused { IfErr result (λ e. IfSome (fault_of e) (λ f. IsFaultOfBytes bytes.now f)) }
    ensures same_text { (names : List (List ℕ)) (ss : List Sentence) → IsTextOfBytes bytes.now names ss → IfOk result
        (λ f. (f.names ≡ names) × (f.sentences ≡ ss)) }
    ensures text_read { (names : List (List ℕ)) (ss : List Sentence) → IsTextOfBytes bytes.now names ss →
        IsShallowText bytes.now → IfErr result (λ e. e ≡ told.NoMemory) }
    ensures fault_refused { (f : Fault) → IsFaultOfBytes bytes.now f → IsOk result → ⊥ }
    ensures same_fault { (f : Fault) → IsFaultOfBytes bytes.now f → IfErr result (λ e. IfSome (fault_of e) (λ g. g ≡ f)) }
{
    let mut sentences = Items::new(alloc);
    let mut names = NameTable::new(alloc);
    match read_tokens(alloc, bytes, &mut sentences, &mut names) {
        Ok(()) => Ok(File { names, sentences }),
        Err(refusal) => Err(refusal),
    }
}
