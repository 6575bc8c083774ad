//! The events of a schedule, the answers to them, and what is seen of them.
use cmd_tree::Sym;

/// An event as a schedule names it.
#[derive(Debug, Clone, Copy, PartialEq, Eq)]
pub enum Event {
    /// The environment gives a symbol, an input of its specification.
    Give(Sym),
    /// A wire hands its transition to its receiver.
    Pass(u32),
    /// A component fires one of its outputs, which are counted from 1.
    Fire(u32, u32),
    /// The environment gives a name that is no symbol.
    Unknown,
}

/// What became of an event. All but `Done` leave everything as it was.
#[derive(Debug, Clone, Copy, PartialEq, Eq)]
pub enum Answer {
    /// It was applied.
    Done,
    /// The wire is busy on which the output would fire.
    Clash { wire: u32 },
    /// The component to which the wire leads may not take its transition at this port. Ports are counted from 0, inputs first.
    Forbidden { component: u32, port: u32 },
    /// The environment may not take the transition of the wire, this output of its specification.
    WrongOutput { sym: Sym },
    /// The component may not fire this output.
    CannotFire { component: u32 },
    /// The wire is free.
    EmptyWire { wire: u32 },
    /// The environment may not give this symbol.
    NotAllowed { sym: Sym },
    /// There is no such event in the network.
    NoSuch,
    /// A probe was not ready: it had no memory for what it would see.
    NoMemory,
}

/// What an observer sees of an event that was applied.
#[derive(Debug, Clone, Copy, PartialEq, Eq)]
pub enum Seen {
    /// The environment put a transition of this symbol on its wire.
    Gave { sym: Sym, wire: u32 },
    /// The wire handed its transition on, and is free.
    Passed { wire: u32 },
    /// The component put a transition on this wire.
    Fired { component: u32, wire: u32 },
}
