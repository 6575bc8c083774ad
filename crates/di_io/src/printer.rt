//! A printer: texts are held and put in blocks. The first fault is kept, and told at the end.
ghost use Rattle.std.specs.Prelude.{◌≡◌, ◌≤◌, [], OnOk, OnErr};
ghost use Rattle.di_io.specs.Faults.{Rose};
ghost use Rattle.di_io.specs.Written.{Gains, GainsFront};
ghost use Rattle.di_io.specs.Printing.{Printing, prints};
ghost use Rattle.di_io.specs.Mirror.Printer.{Has};

use crate::said::Said;
use crate::{PutFault, Sink};
use std::marker::Model;
use std::snapshot::Snapshot;

/// How many bytes a printer holds at most.
const BLOCK: usize = 4096;

/// Prints texts into a sink, in blocks of up to 4096 bytes. It takes no memory: the block lies in the
/// struct. After a put that failed it puts nothing more. `finish` puts what is held and tells whether
/// all was put; a printer cannot be dropped without it.
pub struct Printer<'a, S: Sink> {
    sink: &'a mut S,
    buffer: [u8; BLOCK],
    held: usize,
    failed: bool,
    first: Snapshot<S>,
    said: Said,
}

impl<'a, S: Sink> Model for Printer<'a, S> {
    ghost use Rattle.std.specs.Prelude.{◌≤◌, take};
    ghost use Rattle.di_io.specs.Printing.{Printing};
    ghost use Rattle.di_io.specs.Mirror.Printer.{Has};

    ghost Value = { Printing };

    ghost view = { λ p. record {
      written = S.written p.first.value;
      faults = S.faults p.first.value;
      sink = p.sink.ghost_name;
      said = p.said.text;
    } };

    ghost invariant = { λ p. (p.held ≤ 4096) × Has (record {
      written = S.written p.first.value;
      faults = S.faults p.first.value;
      sink = p.sink.ghost_name;
      said = p.said.text;
    }) (S.written p.sink.now) (S.faults p.sink.now) (take p.held p.buffer) p.failed };
}

// Puts a piece, unless a put failed before; of no bytes it makes no put. Says whether one has failed now.
fn put_piece<S: Sink>(piece: &[u8], failed: bool, sink: &mut S) -> bool
    ensures { (printing : Printing) → Has printing (S.written sink.old) (S.faults sink.old) piece.now failed
        → Has printing (S.written sink.new) (S.faults sink.new) [] result }
{
    if failed || piece.is_empty() {
        return failed;
    }
    sink.put(piece).is_err()
}

impl<'a, S: Sink> Printer<'a, S> {
    /// A printer into a sink. Nothing is printed yet.
    pub fn new(sink: &'a mut S) -> Printer<'a, S>
        ensures { result ≡ record {
          written = S.written sink.old;
          faults = S.faults sink.old;
          sink = sink.entry.ghost_name;
          said = [];
        } }
    {
        let first = Snapshot::of(sink);
        Printer {
            sink,
            buffer: [0; BLOCK],
            held: 0,
            failed: false,
            first,
            said: Said::new(),
        }
    }

    /// Prints a text.
    pub fn print(&mut self, bytes: &[u8])
        ensures { self.new ≡ prints self.old bytes.now }
    {
        self.said.add(bytes);
        if bytes.len() <= BLOCK - self.held {
            let end = self.held + bytes.len();
            self.buffer[self.held..end].copy_from_slice(bytes);
            self.held = end;
            return;
        }
        self.failed = put_piece(&self.buffer[..self.held], self.failed, self.sink);
        if bytes.len() <= BLOCK {
            self.buffer[..bytes.len()].copy_from_slice(bytes);
            self.held = bytes.len();
        } else {
            self.failed = put_piece(bytes, self.failed, self.sink);
            self.held = 0;
        }
    }

    /// Puts what is held, unless a put failed. `Failed` where one did: then the count of the sink rose,
    /// and a front of what was printed, none or more of it, was appended; else all was. A printer of
    /// nothing makes no put. Bind the sink that it gives back, so that a contract can speak of it.
    pub fn finish(self) -> (Result<(), PutFault>, &'a mut S)
        ensures same_reference { result.1.ghost_name ≡ self.entry.sink }
        ensures later { self.entry.faults ≤ S.faults result.1.now }
        ensures ok { OnOk result.0 (Gains self.entry.written (S.written result.1.now) self.entry.said) }
        ensures failed { OnErr result.0 (Rose self.entry.faults (S.faults result.1.now)) }
        ensures front { OnErr result.0
            (GainsFront self.entry.written (S.written result.1.now) self.entry.said) }
    {
        let Printer {
            sink,
            buffer,
            held,
            failed,
            first: _,
            said: _,
        } = self;
        let failed = put_piece(&buffer[..held], failed, sink);
        if failed {
            (Err(PutFault::Failed), sink)
        } else {
            (Ok(()), sink)
        }
    }
}
