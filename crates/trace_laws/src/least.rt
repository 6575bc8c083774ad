//! The least of the traces that are offered.
#![tactic(auto, using(crate::proofs::Offers::offered_first, crate::proofs::Offers::offered_lesser, crate::proofs::Offers::offered_other))]

ghost use Rattle.std.specs.Prelude.{◌≡◌};
ghost use Rattle.trace_laws.specs.Mirror.Improved.{Improved};

use crate::words::Word;

/// The lesser of the least so far and a trace more.
pub(crate) fn offer(least: Option<Word>, word: Word) -> Option<Word>
    ensures { Improved (λ t. t ≡ word) least result }
{
    let Some(found) = least else {
        return Some(word);
    };
    if word.precedes(&found) {
        return Some(word);
    }
    Some(found)
}
