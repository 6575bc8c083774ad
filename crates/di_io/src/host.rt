//! The runtime's files and one of its streams. Only the program's `main` makes these.
ghost use Rattle.std.specs.Prelude.{◌≡◌, ◌≢◌, ◌≤◌, Err, IfOk, IfErr, OnOk, OnErr, length};
ghost use Rattle.di_io.specs.Faults.{Rose, counted};

use crate::{LoadFault, PutFault, Shelf, Sink};
use std::alloc::Global;
use std::fs;
use std::fs::OpenFile;
use std::io::{Read, Write};
use std::marker::Model;
use std::rt::Files;

/// The runtime's files. It tells no content, and has one count of faults for all names.
#[derive(Drop)]
pub struct HostShelf<R: Files + Drop> {
    files: R,
    faults: u64,
}

impl<R: Files + Drop> Model for HostShelf<R> {
    ghost use Rattle.std.specs.Prelude.{ℕ};

    ghost Value = { ℕ };

    ghost view = { λ shelf. shelf.faults };
}

impl<R: Files + Drop> HostShelf<R> {
    /// The shelf of a runtime's files, with no faults so far.
    pub fn new(files: R) -> HostShelf<R>
        ensures { result ≡ 0 }
    {
        HostShelf { files, faults: 0 }
    }
}

// The first bytes of a file, at most `cap` of them.
fn read_front(
    files: &impl Files,
    alloc: Global,
    name: &str,
    cap: usize,
) -> Result<Vec<u8>, LoadFault>
    ensures { IfOk result (λ bytes. length bytes.items ≤ cap) }
{
    let mut file = fs::open(files, name).map_err(|_| LoadFault::Failed)?;
    let about = file.metadata().map_err(|_| LoadFault::Failed)?;
    if about.is_dir() {
        return Err(LoadFault::Failed);
    }
    let mut bytes = Vec::new(alloc);
    let mut piece = [0u8; 4096];
    while bytes.len() < cap {
        let wanted = piece.len().min(cap - bytes.len());
        let count = file
            .read(&mut piece[..wanted])
            .map_err(|_| LoadFault::Failed)?;
        if count == 0 {
            break;
        }
        bytes.extend_from_slice(&piece[..count])?;
    }
    Ok(bytes)
}

impl<R: Files + Drop> Shelf for HostShelf<R> {
    ghost use Rattle.std.specs.Prelude.{None};

    ghost content = { λ _ _. None };

    ghost faults = { λ faults _. faults };

    /// The first bytes of the file `name`, at most `cap` of them. It ends where a read gives no
    /// byte or `cap` bytes were read. A folder, a name without a file and a read that the system
    /// refuses are faults.
    fn load(&mut self, alloc: Global, name: &str, cap: usize) -> Result<Vec<u8>, LoadFault>
        ensures later { self.old ≤ self.new }
        ensures failed { IfErr result (λ fault. fault ≡ LoadFault.Failed → Rose self.old self.new) }
        ensures most { IfOk result (λ bytes. length bytes.items ≤ cap) }

        ensures rises { result ≡ Err LoadFault.Failed → self.new ≡ counted self.old }
        ensures stands { result ≢ Err LoadFault.Failed → self.new ≡ self.old }
    {
        let loaded = read_front(&self.files, alloc, name, cap);
        if matches!(loaded, Err(LoadFault::Failed)) {
            self.faults = self.faults.saturating_add(1);
        }
        loaded
    }
}

/// One of the runtime's streams. It tells nothing of what was written.
#[derive(Drop)]
pub struct HostSink<W: Write + Drop> {
    stream: W,
    faults: u64,
}

impl<W: Write + Drop> Model for HostSink<W> {
    ghost use Rattle.std.specs.Prelude.{ℕ};

    ghost Value = { ℕ };

    ghost view = { λ sink. sink.faults };
}

impl<W: Write + Drop> HostSink<W> {
    /// The sink of a stream, with no faults so far.
    pub fn new(stream: W) -> HostSink<W>
        ensures { result ≡ 0 }
    {
        HostSink { stream, faults: 0 }
    }
}

impl<W: Write + Drop> Sink for HostSink<W> {
    ghost use Rattle.std.specs.Prelude.{None};

    ghost written = { λ _. None };

    ghost faults = { λ faults. faults };

    /// Writes all of `bytes` to the stream, in as many pieces as it takes, and flushes it. A write
    /// that takes no byte of a nonempty piece is a fault, as is one that the system refuses.
    fn put(&mut self, bytes: &[u8]) -> Result<(), PutFault>
        ensures later { self.old ≤ self.new }
        ensures failed { OnErr result (Rose self.old self.new) }

        ensures rises { OnErr result (self.new ≡ counted self.old) }
        ensures stands { OnOk result (self.new ≡ self.old) }
    {
        let written = self.stream.write_all(bytes);
        match written.and_then(|()| self.stream.flush()) {
            Ok(()) => Ok(()),
            Err(_) => {
                self.faults = self.faults.saturating_add(1);
                Err(PutFault::Failed)
            }
        }
    }
}
