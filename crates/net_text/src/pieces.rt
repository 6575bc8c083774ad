//! The first line of a text.
ghost use Rattle.std.specs.Prelude.{◌≡◌, ◌∷◌, ◌++◌, IfSome, IsNone};
ghost use Rattle.net_text.specs.NetFault.{IsLine};

use text_lines::first_piece;

/// The first line of the text, and what stands behind its line feed; none where there is no line feed.
pub(crate) fn first_line(text: &[u8]) -> Option<(&[u8], &[u8])>
    ensures some { IfSome result (λ it. (text.now ≡ it.0.now ++ 10 ∷ it.1.now) × IsLine it.0.now) }
    ensures none { IsNone result → IsLine text.now }
{
    let (line, behind) = first_piece(text, b'\n');
    match behind {
        Some(rest) => Some((line, rest)),
        None => None,
    }
}
