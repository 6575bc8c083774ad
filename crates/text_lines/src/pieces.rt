//! Texts that are cut at each byte of one value.
ghost use Rattle.std.specs.Prelude.{◌≡◌, ◌==◌, ◌+◌, ◌∷◌, length, position, IfSome};
ghost use Rattle.std.specs.Option.{option_copied};
ghost use Rattle.text_lines.specs.Pieces.{pieces, pieces_left};

fn place_of(text: &[u8], separator: u8) -> Option<usize>
    ensures { result ≡ position (λ b. b == separator) text.now }
{
    text.iter().position(|byte| *byte == separator)
}

/// What stands before the first byte of this value, or the whole text where none is in it; and what stands behind that
/// byte, if there is one. Time grows with the first piece alone.
pub fn first_piece(text: &[u8], separator: u8) -> (&[u8], Option<&[u8]>)
    ensures cut { pieces separator text.now ≡ result.0.now ∷ pieces_left separator (option_copied result.1) }
    ensures sizes { IfSome result.1 (λ rest. length result.0.now + length rest.now + 1 ≡ length text.now) }
{
    match place_of(text, separator) {
        Some(at) => (&text[..at], Some(&text[at + 1..])),
        None => (text, None),
    }
}
