//! The processes that grant.
ghost use Rattle.std.specs.Prelude.{◌≡◌, ◌↔◌, IsTrue, is_some};
ghost use Rattle.cmd_tree.specs.View.{item_of, seqs_of, seq_of};
ghost use Rattle.di_grammar.specs.declared.grants.Form.TheVariants.{Plain, Release};
ghost use Rattle.di_grammar.specs.Grants.{IsGrant};
ghost use Rattle.di_grammar.specs.Sums.{grants};
ghost use Rattle.di_grammar.specs.Mirror.Found.{same_dir, is_mark, is_single, is_gift, are_gifts, offers, found_in, found_after, found_body, found, told, item_symbol, seq_symbol, first_place, step_of};

use cmd_tree::{Dir, Item, Mark, Proc, Seq};

/// The two forms of a grant: `pref*[n?;(p1!|..|pk!)]`, and `pref*[p1!;d1?|..|pk!;dk?]`.
#[derive(Clone, Copy)]
pub enum Form {
    Plain,
    Release,
}

/// A grant: its form and its alternatives, each of which gives one symbol.
#[derive(Clone, Copy)]
pub struct Grant<'a> {
    pub form: Form,
    pub choice: &'a [Seq],
}

/// Whether a process is a grant: `pref*[n?;(p1!|..|pk!)]` or `pref*[p1!;d1?|..|pk!;dk?]`. What the sums take for a
/// grant is the same. It looks at each alternative once and takes no memory.
pub fn is_grant(process: &Proc) -> bool
    ensures is { IsTrue result ↔ IsGrant process.now }
    ensures counted { result ≡ grants process.now }
{
    grant_of(process).is_some()
}

/// A process as a grant, where it is one.
pub fn grant_of(process: &Proc) -> Option<Grant<'_>>
    ensures { told result ≡ found process.now.lead process.now.body }
{
    match (&process.lead, &process.body) {
        (None, Some(body)) => body_grant(body.items.as_slice()),
        _ => None,
    }
}

fn body_grant(items: &[Item]) -> Option<Grant<'_>>
    ensures { told result ≡ found_body (seq_of items.now) }
{
    match items {
        [] => None,
        [choice] => grant_in(Form::Release, choice),
        [asks, choice] => grant_after(asks, choice),
        _ => None,
    }
}

fn grant_after<'a>(asks: &Item, choice: &'a Item) -> Option<Grant<'a>>
    ensures { told result ≡ found_after (item_of asks.now) (item_of choice.now) }
{
    if is_single(Dir::Input, asks) {
        grant_in(Form::Plain, choice)
    } else {
        None
    }
}

fn grant_in(form: Form, item: &Item) -> Option<Grant<'_>>
    ensures { told result ≡ found_in form (item_of item.now) }
{
    match item {
        Item::Burst(_) => None,
        Item::Alt(seqs) => {
            let choice = seqs.as_slice();
            if offers(form, choice) {
                Some(Grant { form, choice })
            } else {
                None
            }
        }
    }
}

// Two alternatives or more, each of which gives a symbol.
#[tactic(auto, using(crate::proofs::Forms::count_seqs))]
fn offers(form: Form, choice: &[Seq]) -> bool
    ensures { result ≡ offers form (seqs_of choice.now) }
{
    choice.len() > 1 && are_gifts(form, choice)
}

fn are_gifts(form: Form, choice: &[Seq]) -> bool
    ensures { result ≡ are_gifts form (seqs_of choice.now) }
{
    for seq in choice {
        if !is_gift(form, seq) {
            return false;
        }
    }
    true
}

fn is_gift(form: Form, seq: &Seq) -> bool
    ensures { result ≡ is_gift form seq.now }
{
    match form {
        Form::Plain => is_given(seq.items.as_slice()),
        Form::Release => is_lent(seq.items.as_slice()),
    }
}

fn is_given(items: &[Item]) -> bool
    ensures { result ≡ is_gift Plain (seq_of items.now) }
{
    match items {
        [gives] => is_single(Dir::Output, gives),
        _ => false,
    }
}

fn is_lent(items: &[Item]) -> bool
    ensures { result ≡ is_gift Release (seq_of items.now) }
{
    match items {
        [gives, returns] => is_single(Dir::Output, gives) && is_single(Dir::Input, returns),
        _ => false,
    }
}

fn is_single(dir: Dir, item: &Item) -> bool
    ensures { result ≡ is_single dir (item_of item.now) }
{
    match item {
        Item::Burst(marks) => match marks.as_slice() {
            [mark] => same_dir(mark.dir, dir),
            _ => false,
        },
        Item::Alt(_) => false,
    }
}

/// Whether both directions are the same.
pub fn same_dir(first: Dir, second: Dir) -> bool
    ensures { result ≡ same_dir first second }
{
    match (first, second) {
        (Dir::Input, Dir::Input) | (Dir::Output, Dir::Output) => true,
        (Dir::Input, Dir::Output) | (Dir::Output, Dir::Input) => false,
    }
}

impl Form {
    /// The place of the first symbol that is granted.
    pub fn first_place(self) -> u32
        ensures { result ≡ first_place self }
    {
        match self {
            Form::Plain => 2,
            Form::Release => 1,
        }
    }

    /// How many places an alternative has.
    pub fn step(self) -> u32
        ensures { result ≡ step_of self }
    {
        match self {
            Form::Plain => 1,
            Form::Release => 2,
        }
    }
}

/// The symbol that an alternative of a grant gives: that of its first mark.
pub fn given_symbol(seq: &Seq) -> u32
    ensures { result ≡ seq_symbol seq.now }
{
    match seq.items.as_slice() {
        [] => 0,
        [gives, ..] => item_symbol(gives),
    }
}

fn item_symbol(item: &Item) -> u32
    ensures { result ≡ item_symbol (item_of item.now) }
{
    match item {
        Item::Burst(marks) => match marks.as_slice() {
            [] => 0,
            [mark, ..] => mark.sym.0,
        },
        Item::Alt(_) => 0,
    }
}
