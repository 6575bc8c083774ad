//! The names of symbols.
ghost use Rattle.std.specs.Prelude.{◌≡◌, [], slice_index_or, Some};
ghost use Rattle.di_top.specs.RunForm.{names_of, names_of_spec};

use cmd_tree::{Name, Sym};
use net_core::{Net, NodeSpec};

/// The names of the symbols of a network's environment.
pub fn names_of(net: &Net) -> &[Name]
    ensures { result.now ≡ names_of net.now }
{
    match net.nodes.as_slice() {
        [] => &[],
        [environment, ..] => names_of_spec(&environment.spec),
    }
}

fn names_of_spec(spec: &NodeSpec) -> &[Name]
    ensures { result.now ≡ names_of_spec (Some spec.now) }
{
    match spec {
        NodeSpec::Cmd(command) => command.names.as_slice(),
        NodeSpec::Kind(_) => &[],
    }
}

/// The bytes of the name of a symbol, or none where there is no such symbol.
pub fn name_bytes(names: &[Name], symbol: Sym) -> &[u8]
    ensures { result.now ≡ slice_index_or names.now symbol.0 [] }
{
    match names.get(symbol.0 as usize) {
        Some(name) => name.bytes(),
        None => &[],
    }
}
