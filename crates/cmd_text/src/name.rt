//! The form of a name.
ghost use Rattle.std.specs.Prelude.{◌≡◌};
ghost use Rattle.std.specs.List.{list_all};
ghost use Rattle.cmd_tree.specs.Limits.{is_tail, is_word};
ghost use Rattle.cmd_tree.specs.Limits as form;

use crate::token::{letter, tail};
use cmd_tree::MAX_NAME_BYTES;

/// Whether the word has the form of a name: a letter, then letters, digits and `_`, no more bytes than a name
/// may have, and no word of the grammar.
pub fn is_name(word: &[u8]) -> bool
    ensures { result ≡ form.is_name word.now }
{
    let [first, rest @ ..] = word else {
        return false;
    };
    word.len() <= MAX_NAME_BYTES && letter(*first) && all_tail(rest) && !keyword(word)
}

fn all_tail(bytes: &[u8]) -> bool
    ensures { result ≡ list_all is_tail bytes.now }
{
    bytes.iter().all(|byte| tail(*byte))
}

fn keyword(word: &[u8]) -> bool
    ensures { result ≡ is_word word.now }
{
    word == b"let".as_slice() || word == b"main".as_slice() || word == b"pref".as_slice()
}
