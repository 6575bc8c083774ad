//! The lines before those of the components: the version, the command and its symbols.
ghost use Rattle.std.specs.Prelude.{◌≡◌, ℕ, ◌+◌, ◌<◌, ◌≤◌, ◌^◌, ◌∷◌, ◌++◌, [], length, slice_index_or, false, IfOk, IfErr};
ghost use Rattle.cmd_tree.specs.Limits.{marks_of_all};
ghost use Rattle.di_grammar.specs.Admitted.{Admitted};
ghost use Rattle.net_core.specs.declared.spec.NodeSpec.TheVariants.{Cmd};
ghost use Rattle.net_core.specs.Specs.{outs_of, gives_symbol};
ghost use Rattle.net_text.specs.NetFault.{Spec, Parts, IsLine, IsFirstFault, spec_line, symbol_line, port_lines, behind_spec};
ghost use Rattle.net_text.specs.Mirror.Stages.{text_of, Refuses, RefusesLine};

use crate::pieces::first_line;
use crate::refusal::NetRefusal;
use cmd_expand::read_command;
use cmd_tree::{Command, Name};
use di_grammar::check;
use itoa::Buffer;
use std::alloc::{AllocError, Global};
use text_lines::first_piece;

/// The admitted command whose line this is.
pub(crate) fn read_spec(alloc: Global, line: &[u8]) -> Result<Command, NetRefusal>
    ensures ok { IfOk result (λ command. (line.now ≡ spec_line command) × Admitted command.procs) }
    ensures refused { IfErr result (RefusesLine Spec 2 line.now) }
{
    let (word, rest) = first_piece(line, b' ');
    if word != b"spec".as_slice() {
        return Err(NetRefusal::BadLine { line: 2 });
    }
    let Some(text) = rest else {
        return Err(NetRefusal::BadLine { line: 2 });
    };
    let Some(command) = read_command(alloc, text)? else {
        return Err(NetRefusal::BadLine { line: 2 });
    };
    match check(&command) {
        None => Ok(command),
        Some(broken) => Err(NetRefusal::SpecRefused { rule: broken.rule }),
    }
}

/// The line of a symbol.
fn port_line(alloc: Global, name: &Name, output: bool, number: u32) -> Result<Vec<u8>, AllocError>
    ensures { IfOk result (λ line. line.items ≡ symbol_line name.now output number) }
{
    let mut line = Vec::from_slice(alloc, b"port ")?;
    line.extend_from_slice(name.bytes())?;
    line.push(if output { b'!' } else { b'?' })?;
    line.push(b' ')?;
    let mut buffer = Buffer::new();
    line.extend_from_slice(buffer.format(number as u64).as_bytes())?;
    Ok(line)
}

/// Reads the line of each symbol of the command, and gives what is left; `outs` says which symbols are outputs.
pub(crate) fn read_ports<'a>(
    alloc: Global,
    command: &Command,
    outs: &[bool],
    text: &'a [u8],
) -> Result<&'a [u8], NetRefusal>
    requires { outs.now ≡ outs_of (Cmd command.now) }
    ensures ok { IfOk result (λ rest. text.now ≡ text_of (port_lines command.now) ++ rest.now) }
    ensures faults { IfOk result (λ rest. (r : NetRefusal) → IsFirstFault (Parts command.now []) (3 + length command.now.names) rest.now r
        → IsFirstFault (behind_spec command.now (port_lines command.now)) 3 text.now r) }
    ensures shorter { IfOk result (λ rest. length rest.now ≤ length text.now) }
    ensures refused { IfErr result (Refuses (behind_spec command.now (port_lines command.now)) 3 text.now) }
{
    let names = command.names.as_slice();
    let mut rest = text;
    for index in 0..names.len() {
        let number = 3 + index as u32;
        let Some((line, more)) = first_line(rest) else {
            return Err(NetRefusal::Truncated { line: number });
        };
        let expected = port_line(alloc, &names[index], outs[index], index as u32)?;
        if line != expected.as_slice() {
            return Err(NetRefusal::BadLine { line: number });
        }
        rest = more;
    }
    Ok(rest)
}
