//! Why bytes are no netlist.
use std::alloc::{AllocError, AllocFailed};

/// Why bytes are no netlist: their first faulty line, counted from 1, or an open wire.
#[derive(Debug, Clone, Copy, PartialEq, Eq)]
pub enum NetRefusal {
    /// The line is not of the form that is due there, or has a wire's number of `MAX_NETLIST_WIRES` or more.
    BadLine { line: u32 },
    /// The command of line 2 is not admitted: it breaks this rule first.
    SpecRefused { rule: u8 },
    /// There are `MAX_COMPONENTS` components before this one.
    TooManyComponents { line: u32 },
    /// The text ends in this line, before a line feed, and no `end` came before.
    Truncated { line: u32 },
    /// All lines are right, and this is the least wire without one driver and one receiver.
    OpenPort { wire: u32 },
    NoMemory,
}

impl From<AllocError> for NetRefusal {
    ghost use Rattle.std.specs.Prelude.{◌≡◌};
    ghost use Rattle.net_text.specs.declared.refusal.NetRefusal.{NetRefusal};

    ghost from_gives = { λ _ refusal. refusal ≡ NetRefusal.NoMemory };

    fn from(_error: AllocError) -> NetRefusal {
        NetRefusal::NoMemory
    }
}

impl<T: Drop> From<AllocFailed<T>> for NetRefusal {
    ghost use Rattle.std.specs.Prelude.{◌≡◌};
    ghost use Rattle.net_text.specs.declared.refusal.NetRefusal.{NetRefusal};

    ghost from_gives = { λ _ refusal. refusal ≡ NetRefusal.NoMemory };

    fn from(_failed: AllocFailed<T>) -> NetRefusal {
        NetRefusal::NoMemory
    }
}
