//! Where bytes come from and go to.
//!
//! A **shelf** has files by name: `load` reads the first bytes of one. A **sink** takes bytes one
//! piece after another: `put` appends a piece. Both may fail at any call, and both count their
//! faults, so that a caller can say that a fault was answered only where one happened. A shelf
//! may tell the content of a name, and a sink the bytes that were written: what a contract says
//! of bytes holds where they are told.
//!
//! A **printer** holds the texts that are to be put into a sink and puts them in blocks of up to 4096 bytes,
//! without memory: `print` says by an equation what was printed next, and `finish` whether all of it was put.
//!
//!     let mut printer = Printer::new(sink);
//!     printer.print(b"end\n");
//!     let (result, _sink) = printer.finish();
//!
//! Counts of faults are 64-bit numbers that stop at the largest: a clause says "rose, or stands at 2^64 - 1".
//!
//! `MemShelf` and `MemSink` are in memory, tell all, and fail exactly where they are asked to.
//! `HostShelf` and `HostSink` adapt the runtime's files and one of its streams, and tell nothing.
#![tactic(auto)]

ghost use Rattle.std.specs.Prelude.{◌≡◌, ℕ, ◌≤◌, List, Option, Some, IfOk, IfErr, OnOk, OnErr, length, take};
ghost use Rattle.di_io.specs.Faults.{Rose};
ghost use Rattle.di_io.specs.Written.{Gains, GainsFront};

mod host;
mod mem_shelf;
mod mem_sink;
mod printer;
mod said;

pub use host::{HostShelf, HostSink};
pub use mem_shelf::MemShelf;
pub use mem_sink::MemSink;
pub use printer::Printer;
use std::alloc::{AllocError, Global};

/// Memory was refused.
pub type NoMemory = AllocError;

/// Why a load gave no bytes.
#[derive(Clone, Copy, Debug, PartialEq, Eq)]
pub enum LoadFault {
    /// There is no such file, or reading it failed.
    Failed,
    /// Memory for the bytes was refused.
    NoMemory,
}

impl From<AllocError> for LoadFault {
    ghost use Rattle.di_io.specs.declared.LoadFault.TheVariants.{NoMemory};

    ghost from_gives = { λ _ fault. fault ≡ NoMemory };

    fn from(_error: AllocError) -> LoadFault {
        LoadFault::NoMemory
    }
}

/// Why a put did not append all of its bytes.
#[derive(Clone, Copy, Debug, PartialEq, Eq)]
pub enum PutFault {
    /// Writing failed.
    Failed,
}

/// Files by name.
pub trait Shelf {
    // The content of each name, where it is told.
    ghost content: { Self → List ℕ → Option (List ℕ) };

    // For each name the count of faults.
    ghost faults: { Self → List ℕ → ℕ };

    /// The first bytes of the file `name`, at most `cap` of them.
    ///
    /// `Failed` where there is no such file or it could not be read: then the count of the name
    /// rose. `NoMemory` where memory for the bytes was refused. After either, as after bytes, the
    /// content of each name is as before, and the next call may succeed.
    fn load(&mut self, alloc: Global, name: &str, cap: usize) -> Result<Vec<u8>, LoadFault>
        ensures kept { (other : List ℕ) → content self.new other ≡ content self.old other }
        ensures later { (other : List ℕ) → faults self.old other ≤ faults self.new other }
        ensures failed { IfErr result (λ fault.
            fault ≡ LoadFault.Failed → Rose (faults self.old name.now) (faults self.new name.now)) }
        ensures most { IfOk result (λ bytes. length bytes.items ≤ cap) }
        ensures bytes { IfOk result (λ bytes. (all : List ℕ) →
            content self.old name.now ≡ Some all → bytes.items ≡ take cap all) };
}

/// A place that takes bytes, one piece after another.
pub trait Sink {
    // The bytes written, where they are told.
    ghost written: { Self → Option (List ℕ) };

    // The count of faults.
    ghost faults: { Self → ℕ };

    /// Appends `bytes`. It takes no memory.
    ///
    /// `Failed` where not all could be written: then the count rose, and a front of `bytes`, none
    /// or more of them, was appended. The next call may succeed.
    fn put(&mut self, bytes: &[u8]) -> Result<(), PutFault>
        ensures later { faults self.old ≤ faults self.new }
        ensures ok { OnOk result (Gains (written self.old) (written self.new) bytes.now) }
        ensures failed { OnErr result (Rose (faults self.old) (faults self.new)) }
        ensures front { OnErr result (GainsFront (written self.old) (written self.new) bytes.now) };
}
