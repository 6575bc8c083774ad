//! The wires of a network of one wait in the order of their numbers, each found by its name.
ghost use Rattle.std.specs.Prelude.{◌≡◌, ◌<◌, ◌^◌, map, length, IfOk};
ghost use Rattle.net_laws.proofs.Among.{Distinct};
ghost use Rattle.plain_split.specs.SharedPaths.{place};
ghost use Rattle.plain_split.specs.OneWait.{same_wire};
ghost use Rattle.plain_split.specs.Mirror.OneWaitTables.{wire_of};

use crate::paths::Wire;
use indexmap::IndexSet;
use std::alloc::{AllocError, Global};
use std::marker::Model;

/// Different wires in order. Contracts see them as the list.
#[derive(Drop)]
pub struct Lines {
    set: IndexSet<Wire>,
}

impl Model for Lines {
    ghost use Rattle.std.specs.Prelude.{List};
    ghost use Rattle.plain_split.specs.declared.paths.Wire.{Wire};

    ghost Value = { List Wire };

    ghost view = { λ l. l.set.keys };
}

impl Lines {
    /// These wires, of which no two are the same.
    pub fn of(alloc: Global, wires: &[Wire]) -> Result<Lines, AllocError>
        requires { Distinct (map wire_of wires.now) }
        ensures { IfOk result (λ it. it ≡ wires.now) }
    {
        let mut set = IndexSet::new(alloc);
        for wire in wires {
            set.insert_full(*wire)?;
        }
        Ok(Lines { set })
    }

    /// How many wires stand before this one; all, where it is none of them.
    pub fn place(&self, wire: Wire) -> u32
        requires { length self.now < 2 ^ 32 }
        ensures { result ≡ place same_wire (map wire_of self.now) (wire_of wire) }
    {
        match self.set.get_index_of(&wire) {
            Some(place) => place as u32,
            None => self.set.len() as u32,
        }
    }
}
