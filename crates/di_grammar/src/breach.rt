//! Where a command breaks a rule.
ghost use Rattle.std.specs.Prelude.{◌≡◌};
ghost use Rattle.di_grammar.specs.Mirror.Lesser.{is_earlier, earlier_of};

/// A mark of a process breaks a rule, in which case of the rule, and against which other mark.
#[derive(Debug, Clone, Copy, PartialEq, Eq)]
pub struct Breach {
    pub process: u32,
    pub place: u32,
    pub case: u8,
    pub other_process: u32,
    pub other: u32,
}

fn is_earlier(first: Breach, second: Breach) -> bool
    ensures { result ≡ is_earlier first second }
{
    if first.process != second.process {
        return first.process < second.process;
    }
    if first.place != second.place {
        return first.place < second.place;
    }
    if first.case != second.case {
        return first.case < second.case;
    }
    if first.other_process != second.other_process {
        return first.other_process < second.other_process;
    }
    first.other < second.other
}

/// The earlier of two breaches; the first where neither is.
pub fn earlier_of(first: Option<Breach>, second: Option<Breach>) -> Option<Breach>
    ensures { result ≡ earlier_of first second }
{
    match (first, second) {
        (None, _) => second,
        (_, None) => first,
        (Some(one), Some(other)) => {
            if is_earlier(other, one) {
                second
            } else {
                first
            }
        }
    }
}
