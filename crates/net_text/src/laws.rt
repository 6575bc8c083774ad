//! Laws of the definitions in `specs/`: the function changes nothing, and its contract is the law.
ghost use Rattle.std.specs.Prelude.{◌≡◌, ℕ, ◌<◌, ◌≤◌, ◌^◌, List, length};
ghost use Rattle.cmd_tree.specs.declared.command.Command.{Command};
ghost use Rattle.basic_kinds.specs.declared.kind.Kind.{Kind};
ghost use Rattle.net_core.specs.declared.spec.NodeSpec.TheVariants.{Cmd};
ghost use Rattle.net_core.specs.Wiring.{Circuit};
ghost use Rattle.net_core.specs.Networks.{Correct, IsBasic, end_at};
ghost use Rattle.net_text.specs.NetText.{component_line, net_text};
ghost use Rattle.net_text.specs.Told.{AreWiresOf, HasText};
ghost use Rattle.net_text.specs.declared.refusal.NetRefusal.{NetRefusal};
ghost use Rattle.net_text.specs.NetFault.{NetFault, IsNetlist};

use cmd_text::canonical_texts_are_read;

/// Different networks have different texts: the text of a closed network of basic components, on whose wire i the
/// environment has its symbol i, tells its command, its components with their wires, and how many wires there are,
/// of which there are at most 2^64. Different components have different lines. A basic network that is correct for a
/// command, symbol i on wire i, has such a text.
pub fn texts_tell_networks()
    ensures networks { (c d : Circuit) → HasText c → HasText d → net_text c ≡ net_text d → c ≡ d }
    ensures components { (kind other : Kind) (inputs outputs ins outs : List ℕ) → AreWiresOf kind inputs outputs
        → AreWiresOf other ins outs → component_line kind inputs outputs ≡ component_line other ins outs
        → (kind ≡ other) × (inputs ≡ ins) × (outputs ≡ outs) }
    ensures correct { (command : Command) (c : Circuit) → Correct c (Cmd command) → IsBasic c
        → ((i : ℕ) → i < length command.names → end_at c 0 i ≡ i) → c.wires ≤ 2 ^ 64 → HasText c }
{
    canonical_texts_are_read();
}

/// Bytes are the text of one network, with an admitted command, few components and few wires, or they have one first
/// fault, and never both. So `read_net` gives the network exactly where they are such a text, and each refusal exactly
/// where it is the fault.
pub fn netlist_or_fault()
    ensures not_both { (bytes : List ℕ) (net : Circuit) (r : NetRefusal) → IsNetlist bytes net → NetFault bytes r → ⊥ }
    ensures one_net { (bytes : List ℕ) (c d : Circuit) → IsNetlist bytes c → IsNetlist bytes d → c ≡ d }
    ensures one_fault { (bytes : List ℕ) (r s : NetRefusal) → NetFault bytes r → NetFault bytes s → r ≡ s }
{
    canonical_texts_are_read();
}
