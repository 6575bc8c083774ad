//! A sink in memory, for tests and proofs about callers.
ghost use Rattle.std.specs.Prelude.{◌≡◌, ◌+◌, ◌≤◌, [], ◌++◌, Some, Err, IfOk, OnOk, OnErr, is_some, is_err, length, nat_le};
ghost use Rattle.di_io.specs.Faults.{Rose, counted};
ghost use Rattle.di_io.specs.Written.{Gains, GainsFront};
ghost use Rattle.di_io.specs.MemSink.{cut_of, asked_cut, next_cut, after_put};

use crate::{NoMemory, PutFault, Sink};
use std::alloc::Global;
use std::marker::Model;

/// Bytes in memory. It tells what was written, and fails where it was asked to.
///
/// Puts are counted from 1. The put of number k is decided in this order. Where the room left
/// does not hold its bytes, it fails and appends none. Else, where a pair of `fails` begins with
/// k, it fails after as many bytes as the first such pair says, or after all of them. Else it
/// appends all. The numbers of puts and of faults stop at 2^64 - 1, and a put after that many
/// fails only for its room.
#[derive(Drop)]
pub struct MemSink {
    written: Vec<u8>,
    room: usize,
    fails: Vec<(u64, usize)>,
    puts: u64,
    faults: u64,
}

impl Model for MemSink {
    ghost use Rattle.std.specs.Prelude.{◌≤◌, vec_len, vec_capacity};
    ghost use Rattle.di_io.specs.MemSink.{SinkState};

    ghost Value = { SinkState };

    ghost view = { λ sink. record {
      written = sink.written.items;
      room = sink.room;
      fails = sink.fails.items;
      puts = sink.puts;
      faults = sink.faults;
    } };

    ghost invariant = { λ sink. (vec_len sink.written ≤ sink.room) × (sink.room ≤ vec_capacity sink.written) };
}

impl MemSink {
    /// An empty sink with room for `room` bytes in all. Each pair of `fails` is the number of a
    /// put that is to fail, and the number of bytes after which it does. `NoMemory` where memory
    /// for the room was refused: no later put takes any.
    pub fn new(alloc: Global, room: usize, fails: Vec<(u64, usize)>) -> Result<MemSink, NoMemory>
        ensures written { IfOk result (λ sink. sink.written ≡ []) }
        ensures room { IfOk result (λ sink. sink.room ≡ room) }
        ensures fails { IfOk result (λ sink. sink.fails ≡ fails.items) }
        ensures puts { IfOk result (λ sink. sink.puts ≡ 0) }
        ensures faults { IfOk result (λ sink. sink.faults ≡ 0) }
    {
        let written = Vec::with_capacity(alloc, room)?;
        Ok(MemSink {
            written,
            room,
            fails,
            puts: 0,
            faults: 0,
        })
    }

    // Counts a put, and says after how many bytes it is asked to fail.
    fn count_put(&mut self) -> Option<usize>
        ensures cut { result ≡ asked_cut self.old }
        ensures counted { self.new ≡ record self.old { puts = counted self.old.puts } }
    {
        if self.puts == u64::MAX {
            return None;
        }
        self.puts += 1;
        find_cut(&self.fails, self.puts)
    }

    // Appends a text for which there is room.
    fn append(&mut self, text: &[u8])
        requires { length self.old.written + length text.now ≤ self.old.room }
        ensures { self.new ≡ record self.old { written = self.old.written ++ text.now } }
    {
        // There is room for it, so this is not refused.
        let _ = self.written.extend_from_slice(text);
    }

    // Counts a fault.
    fn fail(&mut self) -> Result<(), PutFault>
        ensures failed { result ≡ Err PutFault.Failed }
        ensures counted { self.new ≡ record self.old { faults = counted self.old.faults } }
        ensures later { self.old.faults ≤ self.new.faults }
    {
        self.faults = self.faults.saturating_add(1);
        Err(PutFault::Failed)
    }

    // Whether the room left holds so many bytes.
    fn holds(&self, count: usize) -> bool
        ensures { result ≡ nat_le (length self.now.written + count) self.now.room }
    {
        count <= self.room - self.written.len()
    }

    /// All bytes written so far, in order.
    pub fn bytes(&self) -> &[u8]
        ensures { result.now ≡ self.now.written }
    {
        self.written.as_slice()
    }
}

// The second number of the first pair that begins with this number.
fn find_cut(fails: &[(u64, usize)], put: u64) -> Option<usize>
    ensures { result ≡ cut_of fails.now put }
{
    for fail in fails {
        if fail.0 == put {
            return Some(fail.1);
        }
    }
    None
}

impl Sink for MemSink {
    ghost use Rattle.std.specs.Prelude.{Some};

    ghost written = { λ sink. Some sink.written };

    ghost faults = { λ sink. sink.faults };

    /// Appends `bytes`, or fails as the type says. The put counts either way.
    fn put(&mut self, bytes: &[u8]) -> Result<(), PutFault>
        ensures later { self.old.faults ≤ self.new.faults }
        ensures ok { OnOk result (Gains (Some self.old.written) (Some self.new.written) bytes.now) }
        ensures failed { OnErr result (Rose self.old.faults self.new.faults) }
        ensures front { OnErr result (GainsFront (Some self.old.written) (Some self.new.written) bytes.now) }

        ensures fails { is_err result ≡ is_some (next_cut self.old bytes.now) }
        ensures after { self.new ≡ after_put self.old bytes.now }
    {
        let cut = self.count_put();
        if !self.holds(bytes.len()) {
            return self.fail();
        }
        match cut {
            None => {
                self.append(bytes);
                Ok(())
            }
            Some(cut) => {
                self.append(&bytes[..cut.min(bytes.len())]);
                self.fail()
            }
        }
    }
}
