//! Laws of what a call promises: each function here changes nothing, and its contract is the law.
ghost use Rattle.std.specs.Prelude.{◌≡◌, ◌⊎◌, ℕ, List, Option};
ghost use Rattle.count_sum.specs.declared.counts.Basis.{Basis};
ghost use Rattle.replay.specs.Probes.{View};
ghost use Rattle.di_top.specs.declared.outcome.Outcome.{Outcome};
ghost use Rattle.di_top.specs.Requests.{Request, files_of};
ghost use Rattle.di_top.specs.Calls.{Reading, Change, Quiet, Tells, Failed};
ghost use Rattle.di_top.specs.Outcomes.{FormGives, Gives, Prints, Admits};
ghost use Rattle.di_top.specs.Promised.{Promise};
ghost use Rattle.di_top.specs.Headline.{Faultless, Headline};

use cmd_text::canonical_texts_are_read;

/// What the forms of words give, print and admit, where the contents of the files are told. No two outcomes are given of
/// the same contents. A form is done, and prints, only of contents that it admits; and of these a call is done or finds no
/// memory, where no count rose.
pub fn forms_law()
    ensures one_answer { (request : Option Request) (r : Reading) → Tells r (files_of request) → Quiet r (files_of request)
        → (a b : Outcome) → FormGives request r a → FormGives request r b → a ≡ b }
    ensures only_admitted { (request : Option Request) (r : Reading) → Gives request r Outcome.Done → Tells r (files_of request)
        → Admits request r }
    ensures only_printed { (request : Option Request) (r : Reading) (text : List ℕ) → Prints request r text
        → Tells r (files_of request) → Admits request r }
    ensures complete { (request : Option Request) (r : Reading) (out say : Change) (back : List View) (outcome : Outcome)
        → Promise request r out say back outcome → Admits request r → Quiet r (files_of request) → (Failed out → ⊥) → (Failed say → ⊥)
        → (outcome ≡ Outcome.NoMemory) ⊎ (outcome ≡ Outcome.Done) }
{
    canonical_texts_are_read();
}

/// What `run` promises of the words `compile wide F` and `compile two F`, where nothing failed: the file compiles exactly
/// where its content is admitted, and then its netlist is appended to out, which is of a closed network
/// of basic components, in the basis two of two-way ones, that is correct for the command.
pub fn compile_law()
    ensures { (basis : Basis) (r : Reading) (file content before : List ℕ) (out say : Change) (back : List View) (outcome : Outcome)
        → Faultless basis r file content before out say back outcome → Headline basis content before out outcome }
{}
