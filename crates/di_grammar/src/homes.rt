//! The ninth rule: a symbol that a grant gives stands in a process that is no grant, and in no other grant.
ghost use Rattle.std.specs.Prelude.{◌≡◌, ◌+◌, ◌<◌, ◌≤◌, ◌^◌, ℕ, true, false, List, [], ◌∷◌, ◌++◌, length};
ghost use Rattle.cmd_tree.specs.declared.limits.TheConstants.{MAX_SYMBOLS, MAX_PLACES, MAX_PROCESSES};
ghost use Rattle.cmd_tree.specs.declared.tree.Proc.{Proc};
ghost use Rattle.cmd_tree.specs.Limits.{places_of_all, places_of_proc, marks_of_all};
ghost use Rattle.cmd_tree.specs.View.{seqs_of};
ghost use Rattle.di_grammar.specs.declared.spots.Spot.{Spot};
ghost use Rattle.di_grammar.specs.Breaches.{FirstOf};
ghost use Rattle.di_grammar.specs.Lists.{Each};
ghost use Rattle.di_grammar.specs.Directions.{KeepsDirections};
ghost use Rattle.di_grammar.specs.Granted.{KeepsGranted};
ghost use Rattle.di_grammar.specs.Homes.{BreaksHomes};
ghost use Rattle.di_grammar.specs.Mirror.Laid.{AreSmall};
ghost use Rattle.di_grammar.specs.Mirror.Found.{gifts_of};
ghost use Rattle.di_grammar.specs.Mirror.Seen.{InTable};
ghost use Rattle.di_grammar.specs.Mirror.Homes.{GrantsSeen, HomesSeen, KnowsKinds, other_mark, stands_in};
ghost use Rattle.di_grammar.specs.Mirror.Homes.{BreaksAt, BreaksGifts, BreaksGrant};

use crate::breach::{Breach, earlier_of};
use crate::grants::{Grant, given_symbol, grant_of, is_grant};
use crate::spots::Spot;
use cmd_tree::{MAX_SYMBOLS, Mark, Proc, Seq};
use tree_walk::{Edges, Visit, walk};

/// The first mark of a granted symbol that stands in another grant too, or in no process that is no grant.
/// The symbols of a grant differ, and each symbol has one direction: so a granted symbol stands first where it is
/// granted.
pub fn unhoused(procs: &[Proc]) -> Option<Breach>
    requires count { length procs.now ≤ MAX_PROCESSES }
    requires places { places_of_all procs.now ≤ MAX_PLACES }
    requires small { AreSmall (marks_of_all procs.now) }
    requires directions { KeepsDirections procs.now }
    requires granted { Each KeepsGranted procs.now }
    ensures { FirstOf (BreaksHomes procs.now) result }
{
    let homes = homes_of(procs);
    let mut found = None;
    for (index, process) in procs.iter().enumerate() {
        found = earlier_of(found, homes.of_process(index as u32 + 1, process));
    }
    found
}

#[derive(Drop)]
struct Homes {
    grants: GrantMarks,
    others: OtherMarks,
}

// Of each symbol its first mark in a grant, and its first mark in another grant than that.
#[derive(Drop)]
struct GrantMarks {
    first: [Option<Spot>; MAX_SYMBOLS],
    second: [Option<Spot>; MAX_SYMBOLS],
}

// Of each symbol whether it stands in a process that is no grant.
#[derive(Drop)]
struct OtherMarks {
    stands: [bool; MAX_SYMBOLS],
}

fn homes_of(procs: &[Proc]) -> Homes
    requires count { length procs.now ≤ MAX_PROCESSES }
    requires places { places_of_all procs.now ≤ MAX_PLACES }
    ensures { KnowsKinds result.grants.first result.grants.second result.others.stands procs.now }
{
    let mut homes = Homes {
        grants: GrantMarks {
            first: [None; MAX_SYMBOLS],
            second: [None; MAX_SYMBOLS],
        },
        others: OtherMarks {
            stands: [false; MAX_SYMBOLS],
        },
    };
    for (index, process) in procs.iter().enumerate() {
        homes.see(index as u32 + 1, process);
    }
    homes
}

impl GrantMarks {
    fn see(&mut self, spot: Spot)
        ensures { (ss : List Spot) → GrantsSeen self.old.first self.old.second ss
            → GrantsSeen self.new.first self.new.second (ss ++ spot ∷ []) }
    {
        let symbol = spot.mark.sym.0 as usize;
        if symbol >= MAX_SYMBOLS {
            return;
        }
        let first = self.first[symbol];
        let second = self.second[symbol];
        match (first, second) {
            (None, _) => self.first[symbol] = Some(spot),
            (Some(known), None) => {
                if known.process != spot.process {
                    self.second[symbol] = Some(spot);
                }
            }
            (Some(_), Some(_)) => {}
        }
    }

    // The first mark of the symbol in a grant other than process `number`.
    fn elsewhere(&self, number: u32, symbol: u32) -> Option<Spot>
        ensures { (ss : List Spot) → GrantsSeen self.now.first self.now.second ss → Each InTable ss
            → result ≡ other_mark symbol number ss }
    {
        let symbol = symbol as usize;
        if symbol >= MAX_SYMBOLS {
            return None;
        }
        let first = self.first[symbol];
        match first {
            None => None,
            Some(known) => {
                if known.process == number {
                    self.second[symbol]
                } else {
                    Some(known)
                }
            }
        }
    }
}

impl Visit for GrantMarks {
    ghost use Rattle.std.specs.Prelude.{true};
    ghost use Rattle.di_grammar.specs.Mirror.Homes.{kind_after, GrantsSeen};

    ghost knows = { λ v ps w. GrantsSeen v.first v.second (kind_after true ps w.bursts) };

    fn burst(&mut self, number: u32, place: u32, marks: &[Mark]) {
        for (index, mark) in marks.iter().enumerate() {
            self.see(Spot {
                process: number,
                place: place + index as u32,
                mark: *mark,
            });
        }
    }

    fn neighbours(&mut self, _number: u32, _edges: Edges) {}

    fn choice(&mut self, _number: u32, _place: u32, _seqs: &[Seq], _edges: Edges) {}
}

impl OtherMarks {
    fn see(&mut self, spot: Spot)
        ensures { (ss : List Spot) → HomesSeen self.old.stands ss
            → HomesSeen self.new.stands (ss ++ spot ∷ []) }
    {
        let symbol = spot.mark.sym.0 as usize;
        if symbol < MAX_SYMBOLS {
            self.stands[symbol] = true;
        }
    }

    fn has(&self, symbol: u32) -> bool
        ensures { (ss : List Spot) → HomesSeen self.now.stands ss → Each InTable ss
            → result ≡ stands_in symbol ss }
    {
        let symbol = symbol as usize;
        if symbol >= MAX_SYMBOLS {
            return false;
        }
        self.stands[symbol]
    }
}

impl Visit for OtherMarks {
    ghost use Rattle.std.specs.Prelude.{false};
    ghost use Rattle.di_grammar.specs.Mirror.Homes.{kind_after, HomesSeen};

    ghost knows = { λ v ps w. HomesSeen v.stands (kind_after false ps w.bursts) };

    fn burst(&mut self, number: u32, place: u32, marks: &[Mark]) {
        for (index, mark) in marks.iter().enumerate() {
            self.see(Spot {
                process: number,
                place: place + index as u32,
                mark: *mark,
            });
        }
    }

    fn neighbours(&mut self, _number: u32, _edges: Edges) {}

    fn choice(&mut self, _number: u32, _place: u32, _seqs: &[Seq], _edges: Edges) {}
}

impl Homes {
    fn see(&mut self, number: u32, process: &Proc)
        requires { places_of_proc process.now + 1 < 2 ^ 32 }
        ensures { (ps : List Proc) → number ≡ length ps + 1
            → KnowsKinds self.old.grants.first self.old.grants.second self.old.others.stands ps
            → KnowsKinds self.new.grants.first self.new.grants.second self.new.others.stands (ps ++ process.now ∷ []) }
    {
        if is_grant(process) {
            walk(number, process, &mut self.grants);
        } else {
            walk(number, process, &mut self.others);
        }
    }

    // The first breach by what the process grants, if it is a grant.
    fn of_process(&self, number: u32, process: &Proc) -> Option<Breach>
        requires { places_of_proc process.now ≤ MAX_PLACES }
        ensures { (ps : List Proc) → AreSmall (marks_of_all ps)
            → KnowsKinds self.now.grants.first self.now.grants.second self.now.others.stands ps
            → FirstOf (BreaksGrant ps number process.now) result }
    {
        match grant_of(process) {
            None => None,
            Some(grant) => self.of_grant(number, grant),
        }
    }

    // The first breach by what a grant gives.
    fn of_grant(&self, number: u32, grant: Grant<'_>) -> Option<Breach>
        requires { length grant.choice.now ≤ MAX_PLACES }
        ensures { (ps : List Proc) → AreSmall (marks_of_all ps)
            → KnowsKinds self.now.grants.first self.now.grants.second self.now.others.stands ps
            → FirstOf (BreaksGifts ps number (gifts_of grant.entry.form (seqs_of grant.entry.choice.now))) result }
    {
        let step = grant.form.step();
        let mut place = grant.form.first_place();
        let mut found = None;
        for seq in grant.choice {
            found = earlier_of(found, self.of_symbol(number, place, given_symbol(seq)));
            place += step;
        }
        found
    }

    // The first breach by a symbol that is granted at this place.
    fn of_symbol(&self, number: u32, place: u32, symbol: u32) -> Option<Breach>
        ensures { (ps : List Proc) → AreSmall (marks_of_all ps)
            → KnowsKinds self.now.grants.first self.now.grants.second self.now.others.stands ps
            → FirstOf (BreaksAt ps number place symbol) result }
    {
        match self.grants.elsewhere(number, symbol) {
            Some(other) => Some(Breach {
                process: number,
                place,
                case: 0,
                other_process: other.process,
                other: other.place,
            }),
            None => {
                if self.others.has(symbol) {
                    return None;
                }
                Some(Breach {
                    process: number,
                    place,
                    case: 1,
                    other_process: number,
                    other: place,
                })
            }
        }
    }
}
