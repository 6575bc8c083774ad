//! The numbers of the wires of the network of a weave.
ghost use Rattle.std.specs.Prelude.{◌≡◌, ◌<◌, ◌^◌, List, map, length, unwrap_or, IfOk};
ghost use Rattle.std.specs.HashMap.{get};
ghost use Rattle.weave_split.specs.declared.paths.Wire.{Wire};
ghost use Rattle.weave_split.specs.Mirror.TieTables.{ties_by, wire_of, number_by};
ghost use Rattle.weave_split.specs.Mirror.WirePlaces.{wire_eq, ArePlaces};

use crate::paths::{Wire, last};
use crate::tables::TieTables;
use std::alloc::{AllocError, Global};
use std::collections::HashMap;

/// The place of each wire among those of a network. The others have the place behind all.
#[derive(Drop)]
pub struct WirePlaces {
    places: HashMap<Wire, u32>,
    many: u32,
}

impl WirePlaces {
    /// The places of these wires.
    pub fn new(alloc: Global, lines: &[Wire]) -> Result<WirePlaces, AllocError>
        requires { length lines.now < 2 ^ 32 }
        ensures { IfOk result (λ it. ArePlaces it lines.now) }
    {
        let mut places = HashMap::new(alloc);
        for (place, line) in lines.iter().enumerate() {
            if places.get(line).is_none() {
                places.insert(*line, place as u32)?;
            }
        }
        Ok(WirePlaces {
            places,
            many: lines.len() as u32,
        })
    }

    /// The place of a wire.
    fn place(&self, wire: Wire) -> u32
        ensures { result ≡ unwrap_or (get wire_eq self.now.places wire) self.now.many }
    {
        match self.places.get(&wire) {
            Some(place) => *place,
            None => self.many,
        }
    }

    /// The numbers of wires.
    pub fn ends(
        &self,
        alloc: Global,
        tables: &TieTables,
        wires: &[Wire],
    ) -> Result<Vec<u32>, AllocError>
        ensures { (lines : List Wire) → ArePlaces self.now lines → IfOk result (λ it. it.items ≡ map (number_by (ties_by tables.now) (map wire_of lines)) (map wire_of wires.now)) }
    {
        let mut ends = Vec::new(alloc);
        for wire in wires {
            ends.push(self.place(last(tables, *wire)))?;
        }
        Ok(ends)
    }
}
