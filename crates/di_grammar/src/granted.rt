//! The eighth rule: the symbols that a grant gives differ.
ghost use Rattle.std.specs.Prelude.{◌≡◌, ◌+◌, ◌<◌, ◌^◌};
ghost use Rattle.cmd_tree.specs.declared.limits.TheConstants.{MAX_SYMBOLS};
ghost use Rattle.cmd_tree.specs.Limits.{places_of_proc, marks_of_proc};
ghost use Rattle.di_grammar.specs.Lists.{Each};
ghost use Rattle.di_grammar.specs.Clashes.{First};
ghost use Rattle.di_grammar.specs.Granted.{BreaksGranted};
ghost use Rattle.di_grammar.specs.Mirror.Given.{gift_place, gifts_in, GivenTwice};

use crate::clash::Clash;
use crate::grants::{Form, given_symbol, grant_of};
use cmd_tree::{Proc, Seq, Sym};
use tree_walk::Table;

/// The first place where a process breaks the eighth rule.
pub fn given_twice(process: &Proc) -> Option<Clash>
    requires few { places_of_proc process.now + 1 < 2 ^ 32 }
    requires small { Each (λ m. m.sym.0 < MAX_SYMBOLS) (marks_of_proc process.now) }
    ensures { First (BreaksGranted process.now) result }
{
    match grant_of(process) {
        None => None,
        Some(grant) => twice_among(grant.form, grant.choice),
    }
}

fn twice_among(form: Form, choice: &[Seq]) -> Option<Clash>
    requires few { Each (λ g. g.place < 2 ^ 32) (gifts_in form choice.now) }
    requires small { Each (λ g. g.symbol < MAX_SYMBOLS) (gifts_in form choice.now) }
    ensures { First (GivenTwice (gifts_in form choice.now)) result }
{
    let mut places = Table::none();
    for (index, seq) in choice.iter().enumerate() {
        let symbol = Sym(given_symbol(seq));
        let place = gift_place(form, index);
        let earlier = places.of(symbol);
        if earlier != 0 {
            return Some(Clash {
                place,
                case: 0,
                other: earlier,
            });
        }
        places.put(symbol, place);
    }
    None
}

// The place of the symbol that the alternative with this index gives.
fn gift_place(form: Form, index: usize) -> u32
    requires { gift_place form index < 2 ^ 32 }
    ensures { result ≡ gift_place form index }
{
    match form {
        Form::Plain => 2 + index as u32,
        Form::Release => 1 + 2 * index as u32,
    }
}
