//! The machine of a SEQ.
ghost use Rattle.std.specs.Prelude.{◌≡◌, ◌↔◌, ℕ, ◌+◌, ◌<◌, IsTrue, IfOk, false, length, slice_index_or};
ghost use Rattle.cmd_tree.proofs.Phases.{Grew};
ghost use Rattle.basic_kinds.specs.declared.kind.Kind.{Kind};
ghost use Rattle.basic_kinds.specs.KindCounts.{KindAt};
ghost use Rattle.basic_kinds.specs.Mirror.Machines.{SeqCounts};

use std::alloc::{AllocError, Global};

/// A SEQ: which requests wait for their grant, and whether a token is there.
#[derive(Drop)]
pub struct SeqMachine {
    asked: Vec<bool>,
    token: bool,
}

impl SeqMachine {
    /// A SEQ of so many requests, none of which has come, and without a token.
    pub(crate) fn new(alloc: Global, requests: u32) -> Result<SeqMachine, AllocError>
        ensures stands { IfOk result (λ it. SeqCounts it (λ p. 0)) }
        ensures width { IfOk result (λ it. length it.asked.items ≡ requests) }
    {
        let asked = vec![in alloc; false; requests as usize]?;
        Ok(SeqMachine {
            asked,
            token: false,
        })
    }

    /// Whether the port may come.
    pub(crate) fn can(&self, port: u32) -> bool
        ensures answer { (c : ℕ → ℕ) → SeqCounts self.now c
            → (IsTrue result ↔ KindAt (Kind.Seq (length self.now.asked.items)) c port) }
        ensures within { IsTrue result → port < length self.now.asked.items + 1 + length self.now.asked.items }
    {
        let place = port as usize;
        let requests = self.asked.len();
        if place < requests {
            !self.asked[place]
        } else if place == requests {
            !self.token
        } else {
            self.token && self.waits(place - requests - 1)
        }
    }

    /// Whether the request waits for its grant.
    fn waits(&self, request: usize) -> bool
        ensures { IsTrue result ↔ ((request < length self.now.asked.items) × IsTrue (slice_index_or self.now.asked.items request false)) }
    {
        request < self.asked.len() && self.asked[request]
    }

    /// Takes the step where the port may come, and else changes nothing.
    pub(crate) fn step(&mut self, port: u32) -> bool
        ensures answer { (c : ℕ → ℕ) → SeqCounts self.old c
            → (IsTrue result ↔ KindAt (Kind.Seq (length self.old.asked.items)) c port) }
        ensures taken { (c d : ℕ → ℕ) → SeqCounts self.old c → IsTrue result → Grew c port d → SeqCounts self.new d }
        ensures still { result ≡ false → self.new ≡ self.old }
        ensures kept { length self.new.asked.items ≡ length self.old.asked.items }
    {
        let can = self.can(port);
        if can {
            self.take(port as usize);
        }
        can
    }

    /// Takes a port that may come.
    fn take(&mut self, place: usize)
        requires { place < length self.old.asked.items + 1 + length self.old.asked.items }
        ensures taken { (c d : ℕ → ℕ) → SeqCounts self.old c → KindAt (Kind.Seq (length self.old.asked.items)) c place
            → Grew c place d → SeqCounts self.new d }
        ensures kept { length self.new.asked.items ≡ length self.old.asked.items }
    {
        let requests = self.asked.len();
        if place < requests {
            self.asked[place] = true;
        } else if place == requests {
            self.token = true;
        } else {
            self.asked[place - requests - 1] = false;
            self.token = false;
        }
    }
}
