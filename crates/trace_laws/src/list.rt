//! A list of traces as it was read, and why bytes are none.
use cmd_text::NameTable;
use cmd_tree::{Dir, Sym};
use std::alloc::{AllocError, AllocFailed};

/// The names and directions of symbols, and traces of these symbols. Symbol k has the k-th name and the k-th direction:
/// first come the inputs, in the order in which they were written, and then the outputs.
#[derive(Drop)]
pub struct TraceList {
    pub names: NameTable,
    pub dirs: Vec<Dir>,
    pub traces: Vec<Vec<Sym>>,
}

/// Why bytes are no text of a list of traces.
#[derive(Debug, Clone, Copy, PartialEq, Eq)]
pub enum TraceRefusal {
    /// The lines before this one, which are counted from 1, begin a text, and with it no longer; or the text ends there
    /// and is none.
    BadLine { line: u32 },
    NoMemory,
}

impl From<AllocError> for TraceRefusal {
    ghost use Rattle.std.specs.Prelude.{◌≡◌};
    ghost use Rattle.trace_laws.specs.declared.list.TraceRefusal.{TraceRefusal};

    ghost from_gives = { λ _ refusal. refusal ≡ TraceRefusal.NoMemory };

    fn from(_error: AllocError) -> TraceRefusal {
        TraceRefusal::NoMemory
    }
}

impl<T: Drop> From<AllocFailed<T>> for TraceRefusal {
    ghost use Rattle.std.specs.Prelude.{◌≡◌};
    ghost use Rattle.trace_laws.specs.declared.list.TraceRefusal.{TraceRefusal};

    ghost from_gives = { λ _ refusal. refusal ≡ TraceRefusal.NoMemory };

    fn from(_failed: AllocFailed<T>) -> TraceRefusal {
        TraceRefusal::NoMemory
    }
}
