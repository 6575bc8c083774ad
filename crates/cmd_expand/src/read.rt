//! A command from its canonical text.
ghost use Rattle.std.specs.Prelude.{◌≡◌, ◌+◌, ◌++◌, ℕ, ◌≤◌, List, length, codes, Ok, IfOk, IfSome, IsNone};
ghost use Rattle.cmd_tree.specs.declared.tree.Proc.{Proc};
ghost use Rattle.cmd_tree.specs.declared.limits.TheConstants.{MAX_FILE_BYTES};
ghost use Rattle.cmd_tree.specs.Limits.{IsCommand};
ghost use Rattle.cmd_text.specs.declared.file.Sentence.{Sentence};
ghost use Rattle.cmd_text.specs.Canonical.{procs_text};
ghost use Rattle.cmd_text.specs.Source.{IsTextOfBytes, IsShallowText};
ghost use Rattle.cmd_expand.specs.Files.{IsFile};
ghost use Rattle.cmd_expand.specs.Expansion.{Meant, expansion};

use crate::command::expand;
use crate::laws::own_command_law;
use crate::refusal::ExpandRefusal;
use cmd_text::{File, Refusal, canonical_texts_are_read, read_file, write_command};
use cmd_tree::{Command, MAX_FILE_BYTES};
use std::alloc::{AllocError, Global};

/// The command whose canonical text this is; none where it is that of no command.
pub fn read_command(alloc: Global, text: &[u8]) -> Result<Option<Command>, AllocError>
    ensures some { IfOk result (λ read. IfSome read (λ command. text.now ≡ procs_text command.names command.procs)) }
    ensures none { IfOk result (λ read. IsNone read →
        (names : List (List ℕ)) (procs : List Proc) → IsCommand names procs → text.now ≡ procs_text names procs → ⊥) }
{
    canonical_texts_are_read();
    own_command_law();
    if text.len() > MAX_FILE_BYTES - 9 {
        return Ok(None);
    }
    let source = source_of(alloc, text)?;
    let Some(file) = file_of(alloc, &source)? else {
        return Ok(None);
    };
    let Some(command) = command_of_file(alloc, &file)? else {
        return Ok(None);
    };
    let canonical = write_command(alloc, &command)?;
    if canonical.as_slice() != text {
        return Ok(None);
    }
    Ok(Some(command))
}

/// A file of `main` alone with this text.
fn source_of(alloc: Global, text: &[u8]) -> Result<Vec<u8>, AllocError>
    requires { length text.now + 9 ≤ MAX_FILE_BYTES }
    ensures { IfOk result (λ source. source.items ≡ codes "main := " ++ text.now ++ codes ".") }
{
    let mut source = Vec::from_slice(alloc, b"main := ")?;
    source.extend_from_slice(text)?;
    source.extend_from_slice(b".")?;
    Ok(source)
}

/// The file whose text this is; none where it is that of no file.
fn file_of(alloc: Global, source: &[u8]) -> Result<Option<File>, AllocError>
    requires { length source.now ≤ MAX_FILE_BYTES }
    ensures some { IfOk result (λ read. IfSome read (λ file. IsFile file.names file.sentences)) }
    ensures same { (names : List (List ℕ)) (sentences : List Sentence) → IsTextOfBytes source.now names sentences
        → IfOk result (λ read. IfSome read (λ file. (file.names ≡ names) × (file.sentences ≡ sentences))) }
    ensures none { (names : List (List ℕ)) (sentences : List Sentence) → IsTextOfBytes source.now names sentences
        → IsShallowText source.now → IfOk result (λ read. IsNone read → ⊥) }
{
    match read_file(alloc, source) {
        Ok(file) => Ok(Some(file)),
        Err(refusal) => match refusal {
            Refusal::NoMemory => Err(AllocError),
            _ => Ok(None),
        },
    }
}

/// The command that the file means; none where it means none.
fn command_of_file(alloc: Global, file: &File) -> Result<Option<Command>, AllocError>
    requires { IsFile file.now.names file.now.sentences }
    ensures some { IfOk result (λ read. IfSome read (λ command. expansion file.now.names file.now.sentences
        ≡ Ok (record { names = command.names; procs = command.procs }))) }
    ensures none { (meant : Meant) → expansion file.now.names file.now.sentences ≡ Ok meant
        → IfOk result (λ read. IsNone read → ⊥) }
{
    match expand(alloc, file) {
        Ok(command) => Ok(Some(command)),
        Err(refusal) => match refusal {
            ExpandRefusal::NoMemory => Err(AllocError),
            _ => Ok(None),
        },
    }
}
