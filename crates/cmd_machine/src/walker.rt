//! Walkers: the positions of all processes of a command.
ghost use Rattle.std.specs.Prelude.{◌≡◌, ◌≢◌, ◌↔◌, ℕ, IsTrue, false, List, [], ◌∷◌, ◌++◌, length, slice_get, Some, IfOk};
ghost use Rattle.cmd_tree.specs.declared.tree.Proc.{Proc};
ghost use Rattle.cmd_tree.specs.Meaning.{Trace, TraceOf};
ghost use Rattle.di_grammar.specs.Admitted.{Admitted};
ghost use Rattle.cmd_machine.specs.declared.position.Position.{Position};
ghost use Rattle.cmd_machine.specs.Mirror.Positions as position;
ghost use Rattle.cmd_machine.specs.Mirror.Walkers.{users_from, AllGoOn, StandEach, Stands};

use crate::position::Position;
use crate::users::{row_of, users_by_symbol};
use cmd_tree::{Command, Sym};
use std::alloc::{AllocError, Global};

/// A command that runs: it stands for a trace of the command, and keeps where each process is in place of
/// the trace. A symbol concerns the processes that have it alone.
#[derive(Drop)]
pub struct Walker {
    positions: Vec<Position>,
    users: Vec<Vec<usize>>,
}

impl Walker {
    /// A walker that stands for the empty trace of an admitted command.
    pub fn new(alloc: Global, command: &Command) -> Result<Walker, AllocError>
        requires { Admitted command.now.procs }
        ensures { IfOk result (λ walker. Stands command.now.procs walker []) }
    {
        Ok(Walker {
            positions: positions_of(alloc, command)?,
            users: users_by_symbol(alloc, command.procs.as_slice())?,
        })
    }

    /// Whether the trace so far, followed by the symbol, is a trace of the command. A symbol that is not
    /// there gives false.
    pub fn can(&self, symbol: Sym) -> bool
        ensures { (ps : List Proc) (t : List ℕ) → Stands ps self.now t
            → (IsTrue result ↔ Trace ps (t ++ symbol.0 ∷ [])) }
    {
        let users = row_of(self.users.as_slice(), symbol.0 as usize);
        !users.is_empty() && all_can(self.positions.as_slice(), users, symbol)
    }

    /// Answers as `can` does. Where that is true the trace grows by the symbol, and else nothing changes.
    pub fn step(&mut self, symbol: Sym) -> bool
        ensures answer { (ps : List Proc) (t : List ℕ) → Stands ps self.old t
            → (IsTrue result ↔ Trace ps (t ++ symbol.0 ∷ [])) }
        ensures taken { (ps : List Proc) (t : List ℕ) → Stands ps self.old t → IsTrue result
            → Stands ps self.new (t ++ symbol.0 ∷ []) }
        ensures still { result ≡ false → self.new ≡ self.old }
    {
        let can = self.can(symbol);
        if can {
            let users = row_of(self.users.as_slice(), symbol.0 as usize);
            step_all(self.positions.as_mut_slice(), users, symbol);
        }
        can
    }
}

// The position of each process at the start.
fn positions_of(alloc: Global, command: &Command) -> Result<Vec<Position>, AllocError>
    requires { Admitted command.now.procs }
    ensures { IfOk result (λ positions. StandEach command.now.procs positions.items []) }
{
    let mut positions = Vec::new(alloc);
    for process in command.procs.as_slice() {
        let position = Position::new(alloc, process)?;
        positions.push(position)?;
    }
    Ok(positions)
}

// Whether all of these processes go on by the symbol.
fn all_can(positions: &[Position], users: &[usize], symbol: Sym) -> bool
    ensures { (ps : List Proc) (t : List ℕ) → StandEach ps positions.now t → users.now ≡ users_from 0 ps symbol.0
        → (IsTrue result ↔ AllGoOn ps t symbol.0 users.now) }
{
    for user in users {
        if !can_at(positions, *user, symbol) {
            return false;
        }
    }
    true
}

fn can_at(positions: &[Position], user: usize, symbol: Sym) -> bool
    ensures { (p : Proc) (t : List ℕ) (m : Position) → slice_get positions.now user ≡ Some m
        → position.Stands p m t → (IsTrue result ↔ TraceOf p (t ++ symbol.0 ∷ [])) }
{
    user < positions.len() && positions[user].can(symbol)
}

// All of these processes go on by the symbol.
fn step_all(positions: &mut [Position], users: &[usize], symbol: Sym)
    ensures { (ps : List Proc) (t : List ℕ) → StandEach ps positions.old t → users.now ≡ users_from 0 ps symbol.0
        → AllGoOn ps t symbol.0 users.now → StandEach ps positions.new (t ++ symbol.0 ∷ []) }
{
    for user in users {
        step_at(positions, *user, symbol);
    }
}

fn step_at(positions: &mut [Position], user: usize, symbol: Sym)
    ensures here { (p : Proc) (t : List ℕ) (m n : Position) → slice_get positions.old user ≡ Some m
        → position.Stands p m t → TraceOf p (t ++ symbol.0 ∷ []) → slice_get positions.new user ≡ Some n
        → position.Stands p n (t ++ symbol.0 ∷ []) }
    ensures others { (i : ℕ) → i ≢ user → slice_get positions.new i ≡ slice_get positions.old i }
    ensures length { length positions.new ≡ length positions.old }
{
    if user < positions.len() {
        let _taken = positions[user].step(symbol);
    }
}
