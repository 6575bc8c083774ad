//! Laws of decimals and of pieces: each function here does nothing, and its contract is the law.
ghost use Rattle.std.specs.Prelude.{◌≡◌, ℕ, ◌<◌, ◌∷◌, ◌++◌, ◌^◌, List, decimal};
ghost use Rattle.std.specs.List.{AllByRecursion};
ghost use Rattle.text_lines.specs.Decimals.{value_of, IsDecimal};
ghost use Rattle.text_lines.specs.Pieces.{pieces, line_of, IsPiece};

/// What a number is written as is a decimal that writes this number, and each decimal below 2^64 is what its
/// number is written as.
pub fn decimals_are_numbers()
    ensures written { (n : ℕ) → n < 2 ^ 64 → IsDecimal (decimal n) × (value_of (decimal n) ≡ n) }
    ensures read { (bytes : List ℕ) → IsDecimal bytes → value_of bytes < 2 ^ 64
        → bytes ≡ decimal (value_of bytes) }
{}

/// No piece has the byte at which it was cut; what is put together of such pieces is cut into them again, and what is cut
/// is its pieces put together.
pub fn pieces_law()
    ensures clean { (c : ℕ) (text : List ℕ) → AllByRecursion (IsPiece c) (pieces c text) }
    ensures first { (c : ℕ) (piece rest : List ℕ) → IsPiece c piece → pieces c (piece ++ c ∷ rest) ≡ piece ∷ pieces c rest }
    ensures words { (word : List ℕ) (words : List (List ℕ)) → AllByRecursion (IsPiece 32) (word ∷ words)
        → pieces 32 (line_of (word ∷ words)) ≡ word ∷ words }
    ensures line { (line : List ℕ) → line_of (pieces 32 line) ≡ line }
{}
