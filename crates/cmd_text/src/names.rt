//! The names of a file, found in order whatever they are.
ghost use Rattle.std.specs.Prelude.{◌≡◌, ◌↔◌, ℕ, [], length, IsTrue, IfOk, OnOk, OnErr};
ghost use Rattle.std.specs.List.{position_or_len, IsDistinct};
ghost use Rattle.std.specs.Str.{bytes_eq};
ghost use Rattle.std.specs.Ordering.{as_partial_cmp};
ghost use Rattle.std.specs.Cmp.{partial_equiv_from_equiv};
ghost use Rattle.std.specs.Cmp.Lexicographic.{nat_list_eq_equiv};
ghost use Rattle.indexmap.specs.IndexSet.{insert_key};
ghost use Rattle.cmd_text.specs.Mirror.Tables.{number_of, key_cmp};

use cmd_tree::{Name, NameSet};
use std::alloc::{AllocError, Global};
use std::cmp::Ordering;
use std::collections::BTreeMap;
use std::marker::Model;

/// The bytes as one number, of which the last 64 bits are kept.
fn number(name: &[u8]) -> u64
    ensures { result ≡ number_of name.now }
{
    let mut number: u64 = 0;
    for byte in name {
        number = number.wrapping_mul(256).wrapping_add(u64::from(*byte));
    }
    number
}

/// A name with its number in front, so that most comparisons are of two numbers. Contracts see it as the
/// list of the bytes.
#[derive(Drop)]
struct Key {
    number: u64,
    bytes: Vec<u8>,
}

impl Model for Key {
    ghost use Rattle.std.specs.Prelude.{◌≡◌, List, ℕ};
    ghost use Rattle.cmd_text.specs.Mirror.Tables.{number_of};

    ghost Value = { List ℕ };

    ghost view = { λ k. k.bytes.items };

    ghost invariant = { λ k. k.number ≡ number_of k.bytes.items };
}

impl PartialEq for Key {
    ghost eq = { bytes_eq };

    ghost laws = { partial_equiv_from_equiv nat_list_eq_equiv };

    fn eq(&self, other: &Key) -> bool {
        self.bytes.as_slice() == other.bytes.as_slice()
    }
}

impl Eq for Key {
    ghost laws = { nat_list_eq_equiv };
}

impl Ord for Key {
    ghost use Rattle.cmd_text.specs.Mirror.Keys.{key_total, key_agrees, key_eq};

    ghost cmp = { key_cmp };

    ghost total = { key_total };

    ghost matches_partial_cmp = { key_agrees };

    ghost matches_eq = { key_eq };

    fn cmp(&self, other: &Key) -> Ordering {
        match self.number.cmp(&other.number) {
            Ordering::Equal => self.bytes.as_slice().cmp(&other.bytes.as_slice()),
            apart => apart,
        }
    }
}

impl PartialOrd for Key {
    ghost use Rattle.cmd_text.specs.Mirror.Keys.{key_laws};

    ghost partial_cmp = { as_partial_cmp key_cmp };

    ghost laws = { key_laws };

    fn partial_cmp(&self, other: &Key) -> Option<Ordering> {
        Some(self.cmp(other))
    }
}

impl Key {
    /// After an error the key is no name.
    fn set(&mut self, name: &[u8]) -> Result<(), AllocError>
        ensures { OnOk result (self.new ≡ name.now) }
    {
        self.bytes.clear();
        self.number = number(&[]);
        self.bytes.extend_from_slice(name)?;
        self.number = number(name);
        Ok(())
    }
}

fn make_key(alloc: Global, name: &[u8]) -> Result<Key, AllocError>
    ensures { IfOk result (λ key. key ≡ name.now) }
{
    let bytes = Vec::from_slice(alloc, name)?;
    Ok(Key {
        number: number(name),
        bytes,
    })
}

/// Different names in order of first occurrence. A name is found in a number of steps that grows with the
/// logarithm of their number, whatever the names are. Contracts see it as the list of the names.
#[derive(Drop)]
pub struct NameTable {
    names: Vec<Name>,
    places: BTreeMap<Key, usize>,
    probe: Key,
}

impl Model for NameTable {
    ghost use Rattle.std.specs.Prelude.{List, ℕ};
    ghost use Rattle.std.specs.List.{IsDistinct};
    ghost use Rattle.std.specs.Str.{bytes_eq};
    ghost use Rattle.cmd_text.specs.Mirror.Tables.{Finds};

    ghost Value = { List (List ℕ) };

    ghost view = { λ t. t.names.items };

    ghost invariant = { λ t. IsDistinct bytes_eq t.names.items × Finds t.places t.names.items };
}

impl NameTable {
    pub fn new(alloc: Global) -> NameTable
        ensures { result ≡ [] }
    {
        let bytes = Vec::new(alloc);
        NameTable {
            names: Vec::new(alloc),
            places: BTreeMap::new(alloc),
            probe: Key {
                number: number(bytes.as_slice()),
                bytes,
            },
        }
    }

    pub fn len(&self) -> usize
        ensures len { result ≡ length self.now }
        ensures distinct { IsDistinct bytes_eq self.now }
    {
        self.names.len()
    }

    pub fn is_empty(&self) -> bool
        ensures { IsTrue result ↔ (self.now ≡ []) }
    {
        self.names.is_empty()
    }

    pub fn as_slice(&self) -> &[Name]
        ensures { result.now ≡ self.now }
    {
        self.names.as_slice()
    }

    /// Puts the name at the end where no equal one is there, and gives its place in the list.
    /// After an error the list is as before.
    pub fn insert(&mut self, alloc: Global, name: &[u8]) -> Result<usize, AllocError>
        ensures index { IfOk result (λ k. k ≡ position_or_len (bytes_eq name.now) self.old) }
        ensures names { IfOk result (λ _. self.new ≡ insert_key bytes_eq self.old name.now) }
        ensures err { OnErr result (self.new ≡ self.old) }
    {
        self.probe.set(name)?;
        if let Some(place) = self.places.get(&self.probe) {
            return Ok(*place);
        }
        let place = self.names.len();
        let key = make_key(alloc, name)?;
        let name = Name::new(alloc, name)?;
        self.names.push(name)?;
        let Ok(_) = self.places.insert(key, place) else {
            let _name = self.names.pop();
            return Err(AllocError);
        };
        Ok(place)
    }

    /// The same names as a set.
    pub fn into_set(self, alloc: Global) -> Result<NameSet, AllocError>
        ensures { IfOk result (λ set. set ≡ self) }
    {
        let NameTable {
            names,
            places: _,
            probe: _,
        } = self;
        let mut set = NameSet::new(alloc);
        for name in names {
            set.insert(name)?;
        }
        Ok(set)
    }
}
