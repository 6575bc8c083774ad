//! Why a command file gives no command.
use std::alloc::{AllocError, AllocFailed};

/// Why a command file gives no command. `at` is the place of a byte of the file, from 0. `count` is how many there
/// are in the sentence with its definitions replaced.
#[derive(Debug, Clone, Copy, PartialEq, Eq)]
pub enum ExpandRefusal {
    /// No sentence defines the name that is used at this place.
    UnknownName { at: u32 },
    /// An earlier sentence defines the name that is defined at this place.
    DefinedTwice { at: u32 },
    /// Only this sentence or a later one defines the name that is used at this place.
    UsedBeforeDefined { at: u32 },
    /// An earlier pair of the list renames the symbol whose old name is at this place.
    RenamedTwice { at: u32 },
    /// The old name at this place is no symbol of the definition.
    RenameUnknown { at: u32 },
    /// The new name at this place would be that of two symbols of the definition.
    RenameMerges { at: u32 },
    /// There are more than `MAX_SYMBOLS` symbols.
    TooManySymbols { count: u64 },
    /// There are more than `MAX_PROCESSES` processes.
    TooManyProcs { count: u64 },
    /// There are more than `MAX_PLACES` symbol places.
    TooManyPlaces { count: u64 },
    NoMemory,
}

impl From<AllocError> for ExpandRefusal {
    ghost use Rattle.std.specs.Prelude.{◌≡◌};
    ghost use Rattle.cmd_expand.specs.declared.refusal.ExpandRefusal.{ExpandRefusal};

    ghost from_gives = { λ _ refusal. refusal ≡ ExpandRefusal.NoMemory };

    fn from(_error: AllocError) -> ExpandRefusal {
        ExpandRefusal::NoMemory
    }
}

impl<T: Drop> From<AllocFailed<T>> for ExpandRefusal {
    ghost use Rattle.std.specs.Prelude.{◌≡◌};
    ghost use Rattle.cmd_expand.specs.declared.refusal.ExpandRefusal.{ExpandRefusal};

    ghost from_gives = { λ _ refusal. refusal ≡ ExpandRefusal.NoMemory };

    fn from(_failed: AllocFailed<T>) -> ExpandRefusal {
        ExpandRefusal::NoMemory
    }
}
