//! Laws of the definitions in `specs/`: each function here does nothing, and its contract is the law.
ghost use Rattle.std.specs.Prelude.{◌≡◌, ◌⊎◌, ℕ, ◌≤◌, List, [], ◌∷◌, length};
ghost use Rattle.cmd_tree.specs.declared.tree.Proc.{Proc};
ghost use Rattle.cmd_tree.specs.declared.limits.TheConstants.{MAX_FILE_BYTES};
ghost use Rattle.cmd_tree.specs.Limits.{IsCommand};
ghost use Rattle.cmd_text.specs.declared.file.Sentence.{Sentence};
ghost use Rattle.cmd_text.specs.Fault.{Fault};
ghost use Rattle.cmd_text.specs.Source.{IsTextOfBytes, IsShallowText, IsFaultOfBytes};
ghost use Rattle.cmd_text.specs.Scan.{scan, Between};
ghost use Rattle.cmd_text.specs.Tokens.{AreTokens};
ghost use Rattle.cmd_text.specs.Printed.{main_text, main_sentence};

/// Bytes are a text of one file, with no more round brackets open than may be, or they have one first fault.
pub fn text_or_fault()
    ensures either { (bytes : List ℕ) →
        ((names : List (List ℕ)) × (ss : List Sentence) × IsTextOfBytes bytes names ss × IsShallowText bytes)
        ⊎ ((f : Fault) × IsFaultOfBytes bytes f) }
    ensures not_both { (bytes : List ℕ) (names : List (List ℕ)) (ss : List Sentence) (f : Fault) →
        IsTextOfBytes bytes names ss → IsShallowText bytes → IsFaultOfBytes bytes f → ⊥ }
    ensures one_file { (bytes : List ℕ) (names ns : List (List ℕ)) (ss ts : List Sentence) →
        IsTextOfBytes bytes names ss → IsShallowText bytes → IsTextOfBytes bytes ns ts →
        (names ≡ ns) × (ss ≡ ts) }
    ensures one_fault { (bytes : List ℕ) (f g : Fault) → IsFaultOfBytes bytes f → IsFaultOfBytes bytes g → f ≡ g }
{}

/// The canonical text of a command, after `main := ` and before a dot, is short enough for a command file, and a
/// text of that command alone: it reads as the command.
pub fn canonical_texts_are_read()
    ensures { (names : List (List ℕ)) (procs : List Proc) → IsCommand names procs →
        IsTextOfBytes (main_text names procs) names (main_sentence procs ∷ [])
        × IsShallowText (main_text names procs) × (length (main_text names procs) ≤ MAX_FILE_BYTES) }
{}

/// The scan of bytes gives their tokens: gaps and tokens in order, each as long as it can be, up to the end of the
/// text or the first fault, where no token goes on.
pub fn tokens_are_longest()
    ensures { (bytes : List ℕ) → AreTokens 0 bytes (scan Between 0 bytes).toks (scan Between 0 bytes).fault }
{}
