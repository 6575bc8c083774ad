//! Where a process breaks a rule.
ghost use Rattle.std.specs.Prelude.{◌≡◌};
ghost use Rattle.di_grammar.specs.Mirror.Lesser.{precedes, lesser};

/// Where a process breaks a rule, in which case of the rule, and against which other place of the process.
#[derive(Debug, Clone, Copy, PartialEq, Eq)]
pub struct Clash {
    pub place: u32,
    pub case: u8,
    pub other: u32,
}

fn precedes(first: Clash, second: Clash) -> bool
    ensures { result ≡ precedes first second }
{
    first.place < second.place
        || (first.place == second.place
            && (first.case < second.case
                || (first.case == second.case && first.other < second.other)))
}

/// The lesser of two clashes; the first where neither precedes the other.
pub fn lesser(first: Option<Clash>, second: Option<Clash>) -> Option<Clash>
    ensures { result ≡ lesser first second }
{
    match (first, second) {
        (None, _) => second,
        (_, None) => first,
        (Some(one), Some(other)) => { if precedes(other, one) { second } else { first } }
    }
}
