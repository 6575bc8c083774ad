//! Marks with their places.
ghost use Rattle.std.specs.Prelude.{◌≡◌};

use crate::breach::Breach;
use cmd_tree::Mark;

/// A mark at its place in its process.
#[derive(Debug, Clone, Copy, PartialEq, Eq)]
pub struct Spot {
    pub process: u32,
    pub place: u32,
    pub mark: Mark,
}

impl Spot {
    /// This mark breaks a rule, in this case of it, against the other.
    pub fn against(self, case: u8, other: Spot) -> Breach
        ensures { result ≡ record { process = self.process; place = self.place; case = case; other_process = other.process; other = other.place } }
    {
        Breach {
            process: self.process,
            place: self.place,
            case,
            other_process: other.process,
            other: other.place,
        }
    }
}
