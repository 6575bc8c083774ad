//! Numbers of components by their sorts.
ghost use Rattle.std.specs.Prelude.{◌≡◌, ℕ, ◌+◌, ◌<◌, ◌^◌};
ghost use Rattle.basic_kinds.specs.Sorts.{Sort as Sorts};
ghost use Rattle.count_sum.specs.Counts.{of_sort, all_sorts};
ghost use Rattle.count_sum.specs.Mirror.Parts.{sort_of, added};

/// Of which components a network is made.
#[derive(Debug, Clone, Copy, PartialEq, Eq)]
pub enum Basis {
    /// Of any widths.
    Wide,
    /// Of two inputs or outputs that are alike, at most.
    Two,
}

/// A kind of component without its width.
#[derive(Debug, Clone, Copy, PartialEq, Eq)]
pub enum Sort {
    Wire,
    Iwire,
    Source,
    Sink,
    Fork,
    C,
    Merge,
    Toggle,
    Dw,
    Seq,
}

/// How many components there are of each sort.
#[derive(Debug, Clone, Copy, PartialEq, Eq)]
pub struct Counts {
    pub wire: u64,
    pub iwire: u64,
    pub source: u64,
    pub sink: u64,
    pub fork: u64,
    pub c: u64,
    pub merge: u64,
    pub toggle: u64,
    pub dw: u64,
    pub seq: u64,
}

impl Counts {
    /// Nothing is counted yet.
    pub fn none() -> Counts
        ensures each { (s : Sorts) → of_sort result s ≡ 0 }
        ensures all { all_sorts (of_sort result) ≡ 0 }
    {
        Counts {
            wire: 0,
            iwire: 0,
            source: 0,
            sink: 0,
            fork: 0,
            c: 0,
            merge: 0,
            toggle: 0,
            dw: 0,
            seq: 0,
        }
    }

    /// How many there are of all sorts.
    pub fn total(&self) -> u64
        requires { all_sorts (of_sort self.now) < 2 ^ 64 }
        ensures { result ≡ all_sorts (of_sort self.now) }
    {
        let wires = self.wire + self.iwire + self.source + self.sink;
        let groups = self.fork + self.c + self.merge;
        wires + groups + self.toggle + self.dw + self.seq
    }

    /// Counts so many more of one sort.
    pub fn add(&mut self, sort: Sort, many: u64)
        requires { of_sort self.old (sort_of sort) + many < 2 ^ 64 }
        ensures { self.new ≡ added (sort_of sort) many self.old }
    {
        match sort {
            Sort::Wire => self.wire += many,
            Sort::Iwire => self.iwire += many,
            Sort::Source => self.source += many,
            Sort::Sink => self.sink += many,
            Sort::Fork => self.fork += many,
            Sort::C => self.c += many,
            Sort::Merge => self.merge += many,
            Sort::Toggle => self.toggle += many,
            Sort::Dw => self.dw += many,
            Sort::Seq => self.seq += many,
        }
    }
}
