//! The two texts of a replay: a netlist and a schedule.
ghost use Rattle.std.specs.Prelude.{◌≡◌, ◌≤◌, ◌<◌, ◌⊎◌, length, IfOk, IfErr, IfSome};
ghost use Rattle.cmd_tree.specs.declared.limits.TheConstants.{MAX_NETLIST_BYTES};
ghost use Rattle.cmd_tree.specs.declared.command.Command.{Command};
ghost use Rattle.net_core.specs.declared.spec.NodeSpec.TheVariants.{Cmd};
ghost use Rattle.net_core.specs.Networks.{IsSpecified};
ghost use Rattle.replay.specs.ScheduleText.{IsSchedule, IsFaultyLine, line_told};
ghost use Rattle.di_top.specs.DriveForm.{IsNetText, NetStops};
ghost use Rattle.di_top.specs.RunForm.{AreTexts, TextsStop, names_of};

use crate::outcome::Outcome;
use cmd_tree::MAX_NETLIST_BYTES;
use net_core::{Net, NodeSpec};
use net_text::read_net;
use replay::{Event, ScheduleRefusal, read_schedule};
use std::alloc::Global;

/// Reads a netlist, and a schedule on it. What stops it first is answered: too many bytes of the one or of the other, a
/// fault of the netlist, or the first faulty line of the schedule.
pub fn read_texts(
    alloc: Global,
    netlist: &[u8],
    schedule: &[u8],
) -> Result<(Net, Vec<Event>), Outcome>
    ensures ok { IfOk result (λ texts. AreTexts netlist.now schedule.now texts.0 texts.1.items) }
    ensures stop { IfErr result (λ stop. (stop ≡ Outcome.NoMemory) ⊎ TextsStop netlist.now schedule.now stop) }
{
    within_limit(netlist)?;
    within_limit(schedule)?;
    let net = read_net(alloc, netlist)?;
    let events = read_events(alloc, schedule, &net)?;
    Ok((net, events))
}

/// Reads a netlist alone.
pub fn read_netlist(alloc: Global, bytes: &[u8]) -> Result<Net, Outcome>
    ensures ok { IfOk result (λ net. IsNetText bytes.now net) }
    ensures stop { IfErr result (λ stop. (stop ≡ Outcome.NoMemory) ⊎ NetStops bytes.now stop) }
{
    within_limit(bytes)?;
    let net = read_net(alloc, bytes)?;
    Ok(net)
}

fn within_limit(bytes: &[u8]) -> Result<(), Outcome>
    ensures ok { IfOk result (λ _. length bytes.now ≤ MAX_NETLIST_BYTES) }
    ensures stop { IfErr result (λ stop. (MAX_NETLIST_BYTES < length bytes.now) × (stop ≡ Outcome.Limit 7 (length bytes.now))) }
{
    if bytes.len() > MAX_NETLIST_BYTES {
        return Err(Outcome::Limit {
            limit: 7,
            value: bytes.len() as u64,
        });
    }
    Ok(())
}

fn read_events(alloc: Global, bytes: &[u8], net: &Net) -> Result<Vec<Event>, ScheduleRefusal>
    requires few { length bytes.now ≤ MAX_NETLIST_BYTES }
    requires command { (k : Command) × IsSpecified net.now (Cmd k) }
    ensures ok { IfOk result (λ events. IsSchedule (names_of net.now) events.items bytes.now) }
    ensures refused { IfErr result (λ refusal. IfSome (line_told refusal) (IsFaultyLine (names_of net.now) bytes.now)) }
{
    let NodeSpec::Cmd(command) = &net.nodes[0].spec else {
        unreachable!();
    };
    read_schedule(alloc, bytes, command)
}
