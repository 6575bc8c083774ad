//! Machines of the kinds that take one port and then give one: a bit or two say which comes next.
ghost use Rattle.std.specs.Prelude.{◌≡◌, ◌↔◌, ℕ, IsTrue, false, true};
ghost use Rattle.cmd_tree.proofs.Phases.{Grew};
ghost use Rattle.basic_kinds.specs.declared.kind.Kind.{Kind};
ghost use Rattle.basic_kinds.specs.KindCounts.{KindAt};
ghost use Rattle.basic_kinds.specs.Mirror.Machines.{WireCounts, IwireCounts, OnceCounts, MergeCounts, ToggleCounts};

/// A WIRE, full where it has taken a transition that it has not handed on. An IWIRE is one that begins full.
#[derive(Drop)]
pub struct WireMachine {
    full: bool,
}

impl WireMachine {
    /// A WIRE, or where it is full an IWIRE, before any port has come.
    pub(crate) fn new(full: bool) -> WireMachine
        ensures wire { full ≡ false → WireCounts result (λ p. 0) }
        ensures iwire { full ≡ true → IwireCounts result (λ p. 0) }
    {
        WireMachine { full }
    }

    /// Whether the port may come.
    pub(crate) fn can(&self, port: u32) -> bool
        ensures wire { (c : ℕ → ℕ) → WireCounts self.now c → (IsTrue result ↔ KindAt Kind.Wire c port) }
        ensures iwire { (c : ℕ → ℕ) → IwireCounts self.now c → (IsTrue result ↔ KindAt Kind.Iwire c port) }
    {
        if self.full { port == 1 } else { port == 0 }
    }

    /// Takes the step where the port may come, and else changes nothing.
    pub(crate) fn step(&mut self, port: u32) -> bool
        ensures wire { (c : ℕ → ℕ) → WireCounts self.old c → (IsTrue result ↔ KindAt Kind.Wire c port) }
        ensures iwire { (c : ℕ → ℕ) → IwireCounts self.old c → (IsTrue result ↔ KindAt Kind.Iwire c port) }
        ensures wire_taken { (c d : ℕ → ℕ) → WireCounts self.old c → IsTrue result → Grew c port d
            → WireCounts self.new d }
        ensures iwire_taken { (c d : ℕ → ℕ) → IwireCounts self.old c → IsTrue result → Grew c port d
            → IwireCounts self.new d }
        ensures still { result ≡ false → self.new ≡ self.old }
    {
        let can = self.can(port);
        if can {
            self.full = !self.full;
        }
        can
    }
}

/// A SOURCE or a SINK, spent where its one port has come.
#[derive(Drop)]
pub struct OnceMachine {
    spent: bool,
}

impl OnceMachine {
    /// One whose port has not come.
    pub(crate) fn new() -> OnceMachine
        ensures { OnceCounts result (λ p. 0) }
    {
        OnceMachine { spent: false }
    }

    /// Whether the port may come.
    pub(crate) fn can(&self, port: u32) -> bool
        ensures { (c : ℕ → ℕ) → OnceCounts self.now c → (IsTrue result ↔ KindAt Kind.Source c port) }
    {
        !self.spent && port == 0
    }

    /// Takes the step where the port may come, and else changes nothing.
    pub(crate) fn step(&mut self, port: u32) -> bool
        ensures answer { (c : ℕ → ℕ) → OnceCounts self.old c → (IsTrue result ↔ KindAt Kind.Source c port) }
        ensures taken { (c d : ℕ → ℕ) → OnceCounts self.old c → IsTrue result → Grew c port d
            → OnceCounts self.new d }
        ensures still { result ≡ false → self.new ≡ self.old }
    {
        let can = self.can(port);
        if can {
            self.spent = true;
        }
        can
    }
}

/// A MERGE, full where it has taken an input and not given its output.
#[derive(Drop)]
pub struct MergeMachine {
    width: u32,
    full: bool,
}

impl MergeMachine {
    /// An empty MERGE with so many inputs.
    pub(crate) fn new(width: u32) -> MergeMachine
        ensures stands { MergeCounts result (λ p. 0) }
        ensures width { result.width ≡ width }
    {
        MergeMachine { width, full: false }
    }

    /// Whether the port may come.
    pub(crate) fn can(&self, port: u32) -> bool
        ensures { (c : ℕ → ℕ) → MergeCounts self.now c → (IsTrue result ↔ KindAt (Kind.Merge self.now.width) c port) }
    {
        if self.full {
            port == self.width
        } else {
            port < self.width
        }
    }

    /// Takes the step where the port may come, and else changes nothing.
    pub(crate) fn step(&mut self, port: u32) -> bool
        ensures answer { (c : ℕ → ℕ) → MergeCounts self.old c → (IsTrue result ↔ KindAt (Kind.Merge self.old.width) c port) }
        ensures taken { (c d : ℕ → ℕ) → MergeCounts self.old c → IsTrue result → Grew c port d
            → MergeCounts self.new d }
        ensures still { result ≡ false → self.new ≡ self.old }
        ensures kept { self.new.width ≡ self.old.width }
    {
        let can = self.can(port);
        if can {
            self.full = !self.full;
        }
        can
    }
}

/// A TOGGLE, full where it owes an output: the first, or the second where it gave the first last.
#[derive(Drop)]
pub struct ToggleMachine {
    full: bool,
    second: bool,
}

impl ToggleMachine {
    /// An empty TOGGLE that gives its first output first.
    pub(crate) fn new() -> ToggleMachine
        ensures { ToggleCounts result (λ p. 0) }
    {
        ToggleMachine {
            full: false,
            second: false,
        }
    }

    /// Whether the port may come.
    pub(crate) fn can(&self, port: u32) -> bool
        ensures { (c : ℕ → ℕ) → ToggleCounts self.now c → (IsTrue result ↔ KindAt Kind.Toggle c port) }
    {
        if !self.full {
            port == 0
        } else if self.second {
            port == 2
        } else {
            port == 1
        }
    }

    /// Takes the step where the port may come, and else changes nothing.
    pub(crate) fn step(&mut self, port: u32) -> bool
        ensures answer { (c : ℕ → ℕ) → ToggleCounts self.old c → (IsTrue result ↔ KindAt Kind.Toggle c port) }
        ensures taken { (c d : ℕ → ℕ) → ToggleCounts self.old c → IsTrue result → Grew c port d
            → ToggleCounts self.new d }
        ensures still { result ≡ false → self.new ≡ self.old }
    {
        let can = self.can(port);
        if can {
            if self.full {
                self.second = !self.second;
            }
            self.full = !self.full;
        }
        can
    }
}
