//! The components of one group of requests.
ghost use Rattle.std.specs.Prelude.{◌≡◌, ◌+◌, ◌*◌, ◌<◌, ◌≤◌, ◌^◌, [], ◌∷◌, ◌++◌, IfOk};
ghost use Rattle.seq_tree.specs.Mirror.GroupNodes.{IsLow, call_wire, component_node, end_wire, fork_nodes, give_wire, group_nodes, in_and_out, into_one, single_nodes};

use crate::columns::column_wait;
use basic_kinds::Kind;
use net_core::{Node, NodeSpec};
use net_laws::numbers;
use std::alloc::{AllocError, Global};

/// Some of the requests, one after the other, and the wires that are numbered for them.
#[derive(Clone, Copy)]
pub struct Group {
    /// The wires of the first request and of its grant at the environment.
    pub request: u32,
    pub grant: u32,
    /// How many requests there are.
    pub size: u32,
    /// The first wire inside the group. Five wires for each request stand there, and then those that the group has once.
    pub base: u32,
}

pub fn component(kind: Kind, wires: Vec<u32>) -> Node
    ensures { result ≡ component_node kind wires.items }
{
    Node {
        spec: NodeSpec::Kind(kind),
        wires,
    }
}

/// The wires of so many inputs, and of one output.
fn into_one(alloc: Global, many: u32, inputs: u32, output: u32) -> Result<Vec<u32>, AllocError>
    requires { inputs + many < 2 ^ 32 }
    ensures { IfOk result (λ it. it.items ≡ into_one many inputs output) }
{
    let mut wires = numbers(alloc, inputs, many)?;
    wires.push(output)?;
    Ok(wires)
}

/// The wires of so many inputs, of one more, and of as many outputs.
fn in_and_out(
    alloc: Global,
    many: u32,
    inputs: u32,
    one: u32,
    outputs: u32,
) -> Result<Vec<u32>, AllocError>
    requires taken { inputs + many < 2 ^ 32 }
    requires given { outputs + many < 2 ^ 32 }
    ensures { IfOk result (λ it. it.items ≡ in_and_out many inputs one outputs) }
{
    let mut wires = into_one(alloc, many, inputs, one)?;
    wires.append(&mut numbers(alloc, outputs, many)?)?;
    Ok(wires)
}

/// So many FORKs of two side by side, from the wires that they take and those of their first and second outputs.
fn forks(
    alloc: Global,
    many: u32,
    taken: u32,
    first: u32,
    second: u32,
) -> Result<Vec<Node>, AllocError>
    requires taken { taken + many < 2 ^ 32 }
    requires first { first + many < 2 ^ 32 }
    requires second { second + many < 2 ^ 32 }
    ensures { IfOk result (λ it. it.items ≡ fork_nodes many taken first second) }
{
    let mut nodes = Vec::new(alloc);
    for count in 0..many {
        let wires = vec![in alloc; taken + count, first + count, second + count]?;
        nodes.push(component(Kind::Fork(2), wires))?;
    }
    Ok(nodes)
}

/// The components that a group has once: its SEQ, the MERGE of what it asks, its DW, the MERGE of what goes back, and its
/// IWIRE.
fn single_nodes(alloc: Global, group: Group) -> Result<Vec<Node>, AllocError>
    requires some { 0 < group.size }
    requires low { IsLow group }
    ensures { IfOk result (λ it. it.items ≡ single_nodes group) }
{
    let Group {
        request,
        size,
        base,
        ..
    } = group;
    let once = base + 5 * size;
    let inner = in_and_out(alloc, size, request, once + 3, base)?;
    let calls = into_one(alloc, size, base + size, once)?;
    let kind = column_wait(alloc, size)?;
    let wait = in_and_out(alloc, size, base + 2 * size, once + 1, base + 3 * size)?;
    let returns = into_one(alloc, size, base + 4 * size, once + 2)?;
    let gate = vec![in alloc; once + 2, once + 3]?;
    Ok(vec![in alloc;
        component(Kind::Seq(size), inner),
        component(Kind::Merge(size), calls),
        component(kind, wait),
        component(Kind::Merge(size), returns),
        component(Kind::Iwire, gate),
    ]?)
}

impl Group {
    /// The components of the group: none where it is one request.
    pub fn nodes(self, alloc: Global) -> Result<Vec<Node>, AllocError>
        requires { IsLow self }
        ensures { IfOk result (λ it. it.items ≡ group_nodes self) }
    {
        if self.size < 2 {
            return Ok(Vec::new(alloc));
        }
        let Group {
            grant,
            size,
            base,
            ..
        } = self;
        let mut nodes = single_nodes(alloc, self)?;
        let mut chosen = forks(alloc, size, base, base + size, base + 2 * size)?;
        let mut granted = forks(alloc, size, base + 3 * size, grant, base + 4 * size)?;
        nodes.append(&mut chosen)?;
        nodes.append(&mut granted)?;
        Ok(nodes)
    }

    /// The wire by which the group asks the outer SEQ.
    pub fn call(self) -> u32
        requires { IsLow self }
        ensures { result ≡ call_wire self }
    {
        if self.size < 2 {
            self.request
        } else {
            self.base + 5 * self.size
        }
    }

    /// The wire by which the outer SEQ answers the group.
    pub fn give(self) -> u32
        requires { IsLow self }
        ensures { result ≡ give_wire self }
    {
        if self.size < 2 {
            self.grant
        } else {
            self.base + 5 * self.size + 1
        }
    }

    /// The number of wires that stand before this group and inside it.
    pub fn end(self) -> u32
        requires { IsLow self }
        ensures { result ≡ end_wire self }
    {
        if self.size < 2 {
            self.base
        } else {
            self.base + (5 * self.size + 4)
        }
    }
}
