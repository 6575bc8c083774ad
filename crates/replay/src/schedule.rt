//! Reads schedules.
ghost use Rattle.std.specs.Prelude.{◌≡◌, ◌≤◌, ℕ, List, ◌++◌, length, codes, IfOk, IfErr, IfSome, IsNone, MatchResult};
ghost use Rattle.replay.specs.declared.schedule.ScheduleRefusal.{ScheduleRefusal};
ghost use Rattle.cmd_tree.specs.declared.limits.TheConstants.{MAX_NETLIST_BYTES, MAX_SYMBOLS};
ghost use Rattle.replay.specs.declared.event.Event.{Event};
ghost use Rattle.replay.specs.ScheduleText.{IsLineOf, IsSchedule, IsFaultyLine, line_told};
ghost use Rattle.replay.specs.Mirror.Schedules.{Reads, given, IsNumber, AreNumbers};

use crate::event::Event;
use crate::pieces::{behind, cut_at};
use cmd_text::is_name;
use cmd_tree::{Command, Name, NameSet, Sym};
use std::alloc::{AllocError, AllocFailed, Global};
use text_lines::read_decimal;

/// Why bytes are no text of a schedule.
#[derive(Debug, Clone, Copy, PartialEq, Eq)]
pub enum ScheduleRefusal {
    /// This line, counted from 1, is the first that is no line of an event, or has no line feed behind it.
    BadLine { line: u32 },
    NoMemory,
}

impl From<AllocError> for ScheduleRefusal {
    ghost use Rattle.std.specs.Prelude.{◌≡◌};
    ghost use Rattle.replay.specs.declared.schedule.ScheduleRefusal.{ScheduleRefusal};

    ghost from_gives = { λ _ refusal. refusal ≡ ScheduleRefusal.NoMemory };

    fn from(_error: AllocError) -> ScheduleRefusal {
        ScheduleRefusal::NoMemory
    }
}

impl<T: Drop> From<AllocFailed<T>> for ScheduleRefusal {
    ghost use Rattle.std.specs.Prelude.{◌≡◌};
    ghost use Rattle.replay.specs.declared.schedule.ScheduleRefusal.{ScheduleRefusal};

    ghost from_gives = { λ _ refusal. refusal ≡ ScheduleRefusal.NoMemory };

    fn from(_failed: AllocFailed<T>) -> ScheduleRefusal {
        ScheduleRefusal::NoMemory
    }
}

/// Reads a schedule on a network in the environment of this command, of at most 16,777,216 bytes: lines `give NAME`,
/// `pass W` and `fire N P` of decimals below 2^32. A name that is no symbol of the command gives `Unknown`. A refusal is
/// of the first faulty line, or of want of memory.
pub fn read_schedule(
    alloc: Global,
    bytes: &[u8],
    spec: &Command,
) -> Result<Vec<Event>, ScheduleRefusal>
    requires { length bytes.now ≤ MAX_NETLIST_BYTES }
    ensures ok { IfOk result (λ events. IsSchedule spec.now.names events.items bytes.now) }
    ensures refused { IfErr result (λ refusal. IfSome (line_told refusal) (IsFaultyLine spec.now.names bytes.now)) }
    ensures text_read { (es : List Event) → IsSchedule spec.now.names es bytes.now
        → MatchResult result (λ events. events.items ≡ es) (λ refusal. refusal ≡ ScheduleRefusal.NoMemory) }
    ensures line_refused { (n : ℕ) → IsFaultyLine spec.now.names bytes.now n
        → MatchResult result (λ _. ⊥) (λ refusal. IfSome (line_told refusal) (λ m. m ≡ n)) }
{
    read_events(alloc, bytes, &spec.names)
}

fn read_events(alloc: Global, bytes: &[u8], names: &NameSet) -> Result<Vec<Event>, ScheduleRefusal>
    requires short { length bytes.now ≤ MAX_NETLIST_BYTES }
    requires few { length names.now ≤ MAX_SYMBOLS }
    ensures ok { IfOk result (λ events. IsSchedule names.now events.items bytes.now) }
    ensures refused { IfErr result (λ refusal. IfSome (line_told refusal) (IsFaultyLine names.now bytes.now)) }
{
    let mut events = Vec::new(alloc);
    let mut line = 1;
    let mut rest = bytes;
    while let Some((text, more)) = cut_at(rest, b'\n') {
        let Some(event) = read_line(alloc, names, text)? else {
            return Err(ScheduleRefusal::BadLine { line });
        };
        events.push(event)?;
        rest = more;
        line += 1;
    }
    if !rest.is_empty() {
        return Err(ScheduleRefusal::BadLine { line });
    }
    Ok(events)
}

fn read_line(alloc: Global, names: &NameSet, line: &[u8]) -> Result<Option<Event>, AllocError>
    requires { length names.now ≤ MAX_SYMBOLS }
    ensures { IfOk result (λ event. Reads names.now line.now event) }
{
    if let Some(name) = behind(b"give ", line) {
        return read_give(alloc, names, name);
    }
    if let Some(wire) = behind(b"pass ", line) {
        return Ok(read_pass(wire));
    }
    if let Some(numbers) = behind(b"fire ", line) {
        return Ok(read_fire(numbers));
    }
    Ok(None)
}

fn read_give(alloc: Global, names: &NameSet, name: &[u8]) -> Result<Option<Event>, AllocError>
    requires { length names.now ≤ MAX_SYMBOLS }
    ensures { IfOk result (λ event. event ≡ given names.now name.now) }
{
    if !is_name(name) {
        return Ok(None);
    }
    let name = Name::new(alloc, name)?;
    match names.index_of(&name) {
        None => Ok(Some(Event::Unknown)),
        Some(place) => Ok(Some(Event::Give(Sym(place as u32)))),
    }
}

fn read_pass(wire: &[u8]) -> Option<Event>
    ensures { (names : List (List ℕ)) → Reads names (codes "pass " ++ wire.now) result }
{
    match read_number(wire) {
        None => None,
        Some(wire) => Some(Event::Pass(wire)),
    }
}

fn read_fire(numbers: &[u8]) -> Option<Event>
    ensures { (names : List (List ℕ)) → Reads names (codes "fire " ++ numbers.now) result }
{
    match read_numbers(numbers) {
        None => None,
        Some((component, output)) => Some(Event::Fire(component, output)),
    }
}

// Reads two numbers with a blank between them.
fn read_numbers(bytes: &[u8]) -> Option<(u32, u32)>
    ensures some { IfSome result (λ numbers. AreNumbers bytes.now numbers.0 numbers.1) }
    ensures none { IsNone result → (n k : ℕ) → AreNumbers bytes.now n k → ⊥ }
{
    let (first, second) = cut_at(bytes, b' ')?;
    let first = read_number(first)?;
    let second = read_number(second)?;
    Some((first, second))
}

// Reads a number below 2^32.
fn read_number(bytes: &[u8]) -> Option<u32>
    ensures some { IfSome result (λ number. IsNumber bytes.now number) }
    ensures none { IsNone result → (n : ℕ) → IsNumber bytes.now n → ⊥ }
{
    match read_decimal(bytes) {
        Ok(number) if number <= u32::MAX as u64 => Some(number as u32),
        _ => None,
    }
}
