//! Of some bursts the place of the first of each direction.
ghost use Rattle.std.specs.Prelude.{◌≡◌, List, [], ◌∷◌, ◌++◌};
ghost use Rattle.tree_walk.specs.Bursts.{Burst, dir_of};
ghost use Rattle.tree_walk.specs.Edges.{by_direction};

use cmd_tree::{Dir, Mark};

/// Of some bursts the place of the first input burst and that of the first output burst.
#[derive(Debug, Clone, Copy, PartialEq, Eq)]
pub struct ByDirection {
    pub input: Option<u32>,
    pub output: Option<u32>,
}

/// Of the last bursts and of the first bursts of something, the first of each direction.
#[derive(Debug, Clone, Copy, PartialEq, Eq)]
pub struct Edges {
    pub lasts: ByDirection,
    pub firsts: ByDirection,
}

/// The direction of a burst is that of its first mark.
pub fn dir_of(marks: &[Mark]) -> Dir
    ensures { result ≡ dir_of marks.now }
{
    match marks {
        [] => Dir::Input,
        [first, ..] => first.dir,
    }
}

impl ByDirection {
    /// Of no bursts.
    pub fn none() -> ByDirection
        ensures { result ≡ by_direction [] }
    {
        ByDirection {
            input: None,
            output: None,
        }
    }

    /// Of one burst at this place.
    pub fn of_burst(place: u32, marks: &[Mark]) -> ByDirection
        ensures { result ≡ by_direction (record { place = place; marks = marks.now } ∷ []) }
    {
        match dir_of(marks) {
            Dir::Input => ByDirection {
                input: Some(place),
                output: None,
            },
            Dir::Output => ByDirection {
                input: None,
                output: Some(place),
            },
        }
    }

    /// Of these bursts and of more after them.
    pub fn or(self, more: ByDirection) -> ByDirection
        ensures { (bs : List Burst) (cs : List Burst) → self ≡ by_direction bs → more ≡ by_direction cs → result ≡ by_direction (bs ++ cs) }
    {
        ByDirection {
            input: self.input.or(more.input),
            output: self.output.or(more.output),
        }
    }
}
