//! Names, and sets of names in order of first occurrence.
ghost use Rattle.std.specs.Prelude.{◌≡◌, ◌↔◌, ℕ, [], ◌∷◌, ◌++◌, length, IsTrue, IfOk, OnErr, slice_get, position};
ghost use Rattle.std.specs.Option.{option_copied};
ghost use Rattle.std.specs.List.{position_or_len, IsDistinct};
ghost use Rattle.std.specs.Str.{bytes_eq};
ghost use Rattle.std.specs.Hash as fed;
ghost use Rattle.std.specs.Cmp.{partial_equiv_from_equiv};
ghost use Rattle.std.specs.Cmp.Lexicographic.{nat_list_eq_equiv};
ghost use Rattle.std.specs.Cmp.Rules.{hashing};
ghost use Rattle.std.proofs.Common.{rules};
ghost use Rattle.indexmap.specs.IndexSet.{insert_key};

use indexmap::IndexSet;
use std::alloc::{AllocError, Global};
use std::hash::{Hash, Hasher};
use std::marker::Model;

/// A byte text, such as the name of a symbol. Contracts see it as the list of its bytes.
#[derive(Debug, Drop)]
pub struct Name {
    bytes: Vec<u8>,
}

impl Model for Name {
    ghost use Rattle.std.specs.Prelude.{List, ℕ};

    ghost Value = { List ℕ };

    ghost view = { λ n. n.bytes.items };
}

impl Name {
    /// The name of these bytes.
    pub fn new(alloc: Global, bytes: &[u8]) -> Result<Name, AllocError>
        ensures { IfOk result (λ name. name ≡ bytes.now) }
    {
        let bytes = Vec::from_slice(alloc, bytes)?;
        Ok(Name { bytes })
    }

    pub fn bytes(&self) -> &[u8]
        ensures { result.now ≡ self.now }
    {
        self.bytes.as_slice()
    }
}

impl PartialEq for Name {
    ghost eq = { bytes_eq };

    ghost laws = { partial_equiv_from_equiv nat_list_eq_equiv };

    fn eq(&self, other: &Name) -> bool {
        self.bytes() == other.bytes()
    }
}

impl Eq for Name {
    ghost laws = { nat_list_eq_equiv };
}

impl Hash for Name {
    ghost hash_input = { fed.slice fed.u8 };

    ghost respects_eq = { Prim.search (hashing, rules) };

    fn hash<H: Hasher>(&self, state: &mut H) {
        self.bytes().hash(state);
    }
}

impl Clone for Name {
    ghost is_clone = { λ name copy. copy ≡ name };

    fn clone(&self) -> Result<Name, AllocError> {
        let bytes = self.bytes.clone()?;
        Ok(Name { bytes })
    }
}

/// Different names in order of first occurrence, found by hash.
/// Contracts see it as the list of the names.
#[derive(Debug, Drop)]
pub struct NameSet {
    set: IndexSet<Name>,
}

impl Model for NameSet {
    ghost use Rattle.std.specs.Prelude.{List, ℕ};
    ghost use Rattle.std.specs.List.{IsDistinct};
    ghost use Rattle.std.specs.Str.{bytes_eq};

    ghost Value = { List (List ℕ) };

    ghost view = { λ a. a.set.keys };

    ghost invariant = { λ a. IsDistinct bytes_eq a.set.keys };
}

impl NameSet {
    pub fn new(alloc: Global) -> NameSet
        ensures { result ≡ [] }
    {
        NameSet {
            set: IndexSet::new(alloc),
        }
    }

    pub fn len(&self) -> usize
        ensures len { result ≡ length self.now }
        ensures distinct { IsDistinct bytes_eq self.now }
    {
        self.set.len()
    }

    pub fn is_empty(&self) -> bool
        ensures { IsTrue result ↔ (self.now ≡ []) }
    {
        self.set.is_empty()
    }

    /// Puts the name at the end where no equal one is there, and gives its place in the list.
    /// After an error the list is as before.
    pub fn insert(&mut self, name: Name) -> Result<usize, AllocError>
        ensures index { IfOk result (λ k. k ≡ position_or_len (bytes_eq name) self.old) }
        ensures names { IfOk result (λ _. self.new ≡ insert_key bytes_eq self.old name) }
        ensures distinct { IsDistinct bytes_eq self.new }
        ensures err { OnErr result (self.new ≡ self.old) }
    {
        let (index, _) = self.set.insert_full(name)?;
        Ok(index)
    }

    /// The place of the name in the list.
    pub fn index_of(&self, name: &Name) -> Option<usize>
        ensures { result ≡ position (bytes_eq name.now) self.now }
    {
        self.set.get_index_of(name)
    }

    pub fn get(&self, index: usize) -> Option<&Name>
        ensures { option_copied result ≡ slice_get self.now index }
    {
        self.set.get_index(index)
    }

    pub fn as_slice(&self) -> &[Name]
        ensures { result.now ≡ self.now }
    {
        self.set.as_slice()
    }
}

impl Clone for NameSet {
    ghost is_clone = { λ names copy. copy ≡ names };

    fn clone(&self) -> Result<NameSet, AllocError> {
        let set = self.set.clone()?;
        Ok(NameSet { set })
    }
}
