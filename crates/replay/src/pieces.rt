//! Pieces of a text.
ghost use Rattle.std.specs.Prelude.{◌≡◌, ◌+◌, ◌∷◌, ◌++◌, ℕ, List, length, IfSome, IsNone};
ghost use Rattle.replay.specs.ScheduleText.{Lacks};

/// What stands before the first byte of this value, and what stands behind it.
pub fn cut_at(text: &[u8], separator: u8) -> Option<(&[u8], &[u8])>
    ensures cut { IfSome result (λ pieces. text.now ≡ pieces.0.now ++ separator ∷ pieces.1.now) }
    ensures first { IfSome result (λ pieces. Lacks separator pieces.0.now) }
    ensures none { IsNone result → Lacks separator text.now }
{
    for index in 0..text.len() {
        if text[index] == separator {
            return Some((&text[..index], &text[index + 1..]));
        }
    }
    None
}

/// What stands behind the word with which the text begins.
pub fn behind<'a>(word: &[u8], text: &'a [u8]) -> Option<&'a [u8]>
    ensures some { IfSome result (λ rest. text.now ≡ word.now ++ rest.now) }
    ensures none { IsNone result → (rest : List ℕ) → text.now ≡ word.now ++ rest → ⊥ }
{
    if text.len() < word.len() {
        return None;
    }
    let (front, rest) = text.split_at(word.len());
    if front == word { Some(rest) } else { None }
}
