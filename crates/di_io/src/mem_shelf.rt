//! A shelf in memory, for tests and proofs about callers.
ghost use Rattle.std.specs.Prelude.{◌≡◌, ℕ, ◌≤◌, ◌↔◌, List, Some, Err, IfOk, IfErr, IsTrue, length, take, map, option_map};
ghost use Rattle.di_io.specs.Faults.{Rose, counted};
ghost use Rattle.di_io.specs.MemShelf.{file_bytes, content_of, faults_of, next_fails, load_fails};

use crate::{LoadFault, Shelf};
use std::alloc::Global;
use std::marker::Model;

/// Files in memory. It tells the content of each name, and fails where it was asked to.
///
/// Loads are counted from 1. The load of number k fails exactly where k is in `fails` or no file
/// has the name. The first file with a name gives its content. The number of loads stops at
/// 2^64 - 1, and a later load fails only for its name.
#[derive(Drop)]
pub struct MemShelf {
    files: Vec<(String, Vec<u8>)>,
    fails: Vec<u64>,
    loads: u64,
}

impl Model for MemShelf {
    ghost use Rattle.std.specs.Prelude.{map};
    ghost use Rattle.di_io.specs.MemShelf.{ShelfState, file_bytes};

    ghost Value = { ShelfState };

    ghost view = { λ shelf. record {
      files = map file_bytes shelf.files.items;
      fails = shelf.fails.items;
      loads = shelf.loads;
    } };
}

impl MemShelf {
    /// A shelf of these pairs of a name and a content, with no loads so far. The loads of the
    /// numbers in `fails` are to fail. It takes no memory.
    pub fn new(files: Vec<(String, Vec<u8>)>, fails: Vec<u64>) -> MemShelf
        ensures files { result.files ≡ map file_bytes files.items }
        ensures fails { result.fails ≡ fails.items }
        ensures loads { result.loads ≡ 0 }
        ensures no_faults { (name : List ℕ) → faults_of result name ≡ 0 }
    {
        MemShelf {
            files,
            fails,
            loads: 0,
        }
    }

    // Counts a load, and says whether it is among those that fail.
    fn count_load(&mut self) -> bool
        ensures fails { result ≡ next_fails self.old }
        ensures counted { self.new ≡ record self.old { loads = counted self.old.loads } }
        ensures later { (name : List ℕ) → faults_of self.old name ≤ faults_of self.new name }
        ensures failed { IsTrue result → (name : List ℕ) → Rose (faults_of self.old name) (faults_of self.new name) }
    {
        if self.loads == u64::MAX {
            return false;
        }
        self.loads += 1;
        self.fails.contains(&self.loads)
    }
}

// The content of the first file with this name.
fn find_content<'a>(files: &'a [(String, Vec<u8>)], name: &str) -> Option<&'a Vec<u8>>
    ensures { option_map (λ content. content.now.items) result ≡ content_of (map file_bytes files.now) name.now }
{
    for file in files {
        if file.0.as_str() == name {
            return Some(&file.1);
        }
    }
    None
}

impl Shelf for MemShelf {
    ghost content = { λ shelf. content_of shelf.files };

    ghost faults = { faults_of };

    /// The first bytes of the first file of this name, at most `cap` of them.
    ///
    /// `Failed` comes exactly where the type says so, also where memory is short. The load counts
    /// whatever it answers.
    fn load(&mut self, alloc: Global, name: &str, cap: usize) -> Result<Vec<u8>, LoadFault>
        ensures kept { (other : List ℕ) → content_of self.new.files other ≡ content_of self.old.files other }
        ensures later { (other : List ℕ) → faults_of self.old other ≤ faults_of self.new other }
        ensures failed { IfErr result (λ fault.
            fault ≡ LoadFault.Failed → Rose (faults_of self.old name.now) (faults_of self.new name.now)) }
        ensures most { IfOk result (λ bytes. length bytes.items ≤ cap) }
        ensures bytes { IfOk result (λ bytes. (all : List ℕ) →
            content_of self.old.files name.now ≡ Some all → bytes.items ≡ take cap all) }

        ensures fails { (result ≡ Err LoadFault.Failed) ↔ IsTrue (load_fails self.old name.now) }
        ensures counted { self.new ≡ record self.old { loads = counted self.old.loads } }
    {
        let fails = self.count_load();
        match find_content(&self.files, name) {
            Some(content) if !fails => {
                let length = cap.min(content.len());
                Ok(Vec::from_slice(alloc, &content[..length])?)
            }
            _ => Err(LoadFault::Failed),
        }
    }
}
