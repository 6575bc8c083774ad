//! A law of arbiters: the function here does nothing, and its contract is the law.
ghost use Rattle.std.specs.Prelude.{◌≡◌, ℕ, ◌+◌, ◌*◌, ◌<◌, ◌≤◌, length};
ghost use Rattle.cmd_tree.specs.Limits.{IsCommand, places_of_all};
ghost use Rattle.di_grammar.specs.Admitted.{Admitted};
ghost use Rattle.arbiters.specs.Arbiter.{arbiter, arbiter_names};

/// For each number of clients from 2 to 255 the arbiter keeps the limits of commands, and is admitted.
pub fn arbiter_law()
    ensures command { (n : ℕ) → 2 ≤ n → n ≤ 255 → IsCommand (arbiter_names n) (arbiter n) }
    ensures admitted { (n : ℕ) → 2 ≤ n → n ≤ 255 → Admitted (arbiter n) }
    ensures processes { (n : ℕ) → length (arbiter n) ≡ n + 1 }
    ensures symbols { (n : ℕ) → length (arbiter_names n) ≡ 4 * n }
    ensures places { (n : ℕ) → places_of_all (arbiter n) ≡ 6 * n }
{}
