ghost use Rattle.std.specs.Prelude.{◌≡◌, ◌+◌, ◌*◌, ◌<◌, ◌≤◌, ◌^◌, ◌++◌, length, IfOk, OnOk};
ghost use Rattle.std.specs.List.{range_with_len};
ghost use Rattle.net_core.specs.Specs.{IsFormed, outs_of, sides};
ghost use Rattle.net_laws.specs.ForksNets.{fork_part, fork_parts, forks_net};

use basic_kinds::Kind;
use net_core::{Net, NetBuilder, NodeSpec};
use std::alloc::{AllocError, Global};

/// So many FORKs side by side, in the order of their inputs: the inputs of the environment are the first ports, and the
/// outputs of each FORK follow those of the FORKs before it.
pub fn forks(alloc: Global, spec: NodeSpec, many: u32, outputs: u32) -> Result<Net, AllocError>
    requires formed { IsFormed spec }
    requires ports { outs_of spec ≡ sides many (many * outputs) }
    requires wide { 2 ≤ outputs }
    requires few { many + many * outputs < 2 ^ 27 }
    ensures { IfOk result (λ net. net ≡ forks_net spec many outputs) }
{
    let wires = many + many * outputs;
    let mut builder = NetBuilder::new(alloc, spec)?;
    builder.wires(wires)?;
    add_forks(alloc, &mut builder, many, outputs)?;
    builder.finish(numbers(alloc, 0, wires)?)
}

fn add_forks(
    alloc: Global,
    builder: &mut NetBuilder,
    many: u32,
    outputs: u32,
) -> Result<(), AllocError>
    requires wires { builder.old.wires ≡ many + many * outputs }
    requires wide { 2 ≤ outputs }
    requires few { many + many * outputs < 2 ^ 27 }
    requires room { length builder.old.parts + many + 1 < 2 ^ 32 }
    ensures { OnOk result (builder.new ≡ record builder.old { parts = builder.old.parts ++ fork_parts many outputs }) }
{
    for input in 0..many {
        let ends = fork_ends(alloc, many, outputs, input)?;
        builder.node(NodeSpec::Kind(Kind::Fork(outputs)), ends)?;
    }
    Ok(())
}

/// The wires at the ports of the FORK of an input.
fn fork_ends(alloc: Global, many: u32, outputs: u32, input: u32) -> Result<Vec<u32>, AllocError>
    requires inside { input < many }
    requires few { many + many * outputs < 2 ^ 27 }
    ensures { IfOk result (λ ends. ends.items ≡ (fork_part many outputs input).ends) }
{
    let mut ends = vec![in alloc; input]?;
    ends.append(&mut numbers(alloc, many + input * outputs, outputs)?)?;
    Ok(ends)
}

/// So many numbers from one on.
pub fn numbers(alloc: Global, from: u32, many: u32) -> Result<Vec<u32>, AllocError>
    requires { from + many < 2 ^ 32 }
    ensures { IfOk result (λ all. all.items ≡ range_with_len from many) }
{
    let mut all = Vec::new(alloc);
    for count in 0..many {
        all.push(from + count)?;
    }
    Ok(all)
}
