//! Whether networks may take the places of several nodes of another, by looking.
ghost use Rattle.std.specs.Prelude.{◌≡◌, ◌↔◌, ◌+◌, ◌<◌, ◌^◌, length, IsTrue};
ghost use Rattle.net_core.specs.Wiring.{IsClosed};
ghost use Rattle.substitute.specs.Splice.{Fitting};
ghost use Rattle.substitute.specs.Splices.{FitEach, wires_in};

use crate::whole::{around, has_around, is_same};
use net_core::{Net, closed, network_law};

/// Whether each part may take the place of its node, an entry for each component, and the result has few
/// enough wires: then `splice_all` may be called. It takes no memory, and time linear in the network and the parts.
pub fn fits_each(net: &Net, parts: &[Option<Net>]) -> bool
    requires closed { IsClosed net.now }
    requires sized { length parts.now + 1 ≡ length net.now.nodes }
    ensures { IsTrue result ↔ (FitEach net.now 1 parts.now × (net.now.wires + wires_in parts.now < 2 ^ 31)) }
{
    if net.wires >= MANY {
        return false;
    }
    let mut room = MANY - net.wires;
    for (place, part) in parts.iter().enumerate() {
        if let Some(sub) = part {
            if !fits_at(net, place as u32 + 1, sub) || sub.wires >= room {
                return false;
            }
            room -= sub.wires;
        }
    }
    true
}

/// The result has fewer wires.
const MANY: u32 = 0x8000_0000;

/// Whether the network may take the place of the node.
fn fits_at(net: &Net, at: u32, sub: &Net) -> bool
    requires closed { IsClosed net.now }
    requires component { 0 < at }
    requires inside { at < length net.now.nodes }
    ensures { IsTrue result ↔ Fitting net.now at sub.now }
{
    network_law(net);
    network_law(sub);
    if has_around(net, at) || !is_same(net, at, sub) || closed(sub).is_some() {
        return false;
    }
    around(sub, 0).is_none()
}
