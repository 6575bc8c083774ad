//! The steps of a process, each by one token.
ghost use Rattle.std.specs.Prelude.{◌≡◌, ℕ, ◌≤◌, nat_lt, List, [], ◌∷◌, ◌++◌, length, IfOk};
ghost use Rattle.std.specs.Str.{bytes_eq};
ghost use Rattle.indexmap.specs.IndexSet.{insert_key};
ghost use Rattle.cmd_tree.specs.declared.limits.TheConstants.{MAX_FILE_BYTES};
ghost use Rattle.cmd_tree.specs.Tree.{TBurst};
ghost use Rattle.cmd_text.specs.Names.{number_in};
ghost use Rattle.cmd_text.specs.Mirror.Reading.{with_heard};
ghost use Rattle.cmd_text.specs.Mirror.Machine.{heard, open_brackets, AtForm, AtBody, AfterItem};
ghost use Rattle.cmd_text.specs.Mirror.Machine.{AfterBurst, mark_of, step, add};
ghost use Rattle.cmd_text.specs.Mirror.ScanView.{token_of, lexeme_token};
ghost use Rattle.cmd_text.specs.Mirror.Drafts.{ctx_of, alts_of, items_of, at_item, at_mark, after_item};
ghost use Rattle.cmd_text.specs.Mirror.Drafts.{at_burst, at_burst_mark, after_burst, at_second, lead_of};
ghost use Rattle.cmd_text.specs.Mirror.Drafts.{state_of, only_if, Takes};

use crate::draft::{
    Draft, Mode, begin, begin_burst, close_body, close_choice, close_lead, next_alternative,
    open_round, push_item,
};
use crate::names::NameTable;
use crate::scan::Lexeme;
use crate::token::Token;
use cmd_tree::{Dir, Item, MAX_OPEN_BRACKETS, Mark, Sym};
use sqlite_items::Items;
use std::alloc::{AllocError, Global};
use std::mem;

#[tactic(auto, using(std::proofs::lemmas::Grind::common_steps, crate::proofs::Refusals::refusals))]
fn form_step(alloc: Global, draft: &mut Draft, token: Token) -> bool
    ensures { (word : List ℕ) → Takes AtForm (token_of token word) result draft.new }
{
    match token {
        Token::Star => {
            draft.led = false;
            draft.mode = Mode::Body;
            true
        }
        Token::LeftSq => {
            begin(alloc, draft, true);
            true
        }
        _ => false,
    }
}

#[tactic(auto, using(std::proofs::lemmas::Grind::common_steps, crate::proofs::Refusals::refusals))]
fn body_step(alloc: Global, draft: &mut Draft, token: Token) -> bool
    ensures { (word : List ℕ) → Takes (AtBody (lead_of draft.old)) (token_of token word) result draft.new }
{
    match token {
        Token::LeftSq => {
            begin(alloc, draft, false);
            true
        }
        _ => false,
    }
}

#[tactic(auto, using(std::proofs::lemmas::Grind::common_steps, crate::proofs::Refusals::refusals))]
fn second_step(draft: &mut Draft, token: Token) -> bool
    ensures { (word : List ℕ) → Takes (at_second draft.old) (token_of token word) result draft.new }
{
    match token {
        // Only a body behind a lead has a second bracket.
        Token::RightSq => {
            draft.led = true;
            draft.mode = Mode::Closed;
            true
        }
        _ => false,
    }
}

#[tactic(auto, using(std::proofs::lemmas::Grind::common_steps, crate::proofs::Refusals::refusals))]
fn item_step(alloc: Global, draft: &mut Draft, lexeme: &Lexeme<'_>) -> Result<bool, AllocError>
    ensures { IfOk result (λ b. Takes (at_item draft.old) (lexeme_token lexeme.now) b draft.new) }
{
    match lexeme.token {
        Token::Word => {
            draft.name.clear();
            draft.name.extend_from_slice(lexeme.word)?;
            draft.mode = Mode::Mark;
            Ok(true)
        }
        Token::Open => {
            open_round(alloc, draft)?;
            Ok(true)
        }
        Token::Star => Ok(close_lead(alloc, draft)),
        _ => Ok(false),
    }
}

#[tactic(auto, using(std::proofs::lemmas::Grind::common_steps, crate::proofs::Refusals::refusals))]
fn burst_step(draft: &mut Draft, lexeme: &Lexeme<'_>) -> Result<bool, AllocError>
    ensures { IfOk result (λ b. Takes (at_burst draft.old) (lexeme_token lexeme.now) b draft.new) }
{
    match lexeme.token {
        Token::Word => {
            draft.name.clear();
            draft.name.extend_from_slice(lexeme.word)?;
            draft.mode = Mode::BurstMark;
            Ok(true)
        }
        _ => Ok(false),
    }
}

#[tactic(auto, using(std::proofs::lemmas::Grind::common_steps, crate::proofs::Refusals::refusals))]
fn after_step(alloc: Global, draft: &mut Draft, token: Token) -> Result<bool, AllocError>
    ensures { IfOk result (λ b. (word : List ℕ) →
        Takes (after_item draft.old) (token_of token word) b draft.new) }
{
    match token {
        Token::Semi => {
            draft.mode = Mode::Item;
            Ok(true)
        }
        Token::Bar => next_alternative(alloc, draft),
        Token::Close => close_choice(draft),
        Token::RightSq => close_body(alloc, draft),
        Token::Par => Ok(begin_burst(draft)),
        _ => Ok(false),
    }
}

#[tactic(auto, using(std::proofs::lemmas::Grind::common_steps, crate::proofs::Refusals::refusals))]
fn after_burst_step(alloc: Global, draft: &mut Draft, token: Token) -> Result<bool, AllocError>
    ensures { IfOk result (λ b. (word : List ℕ) →
        Takes (after_burst draft.old) (token_of token word) b draft.new) }
{
    match token {
        Token::Par => {
            draft.mode = Mode::Burst;
            Ok(true)
        }
        Token::Close => {
            let marks = mem::replace(&mut draft.marks, Items::new(alloc));
            push_item(draft, Item::Burst(marks))?;
            Ok(true)
        }
        _ => Ok(false),
    }
}

/// The mark of a name, which is numbered by first occurrence.
#[tactic(auto, using(std::proofs::lemmas::Grind::common_steps, crate::proofs::Numbers::inserted_number))]
fn mark(alloc: Global, names: &mut NameTable, name: &[u8], dir: Dir) -> Result<Mark, AllocError>
    requires { length names.old ≤ MAX_FILE_BYTES }
    ensures ok { IfOk result (λ m. m ≡ mark_of (number_in names.new name.now) dir) }
    ensures names { IfOk result (λ _. names.new ≡ insert_key bytes_eq names.old name.now) }
{
    let index = names.insert(alloc, name)?;
    Ok(Mark {
        sym: Sym(index as u32),
        dir,
    })
}

fn push_mark(
    alloc: Global,
    draft: &mut Draft,
    dir: Dir,
    names: &mut NameTable,
) -> Result<(), AllocError>
    requires { length names.old ≤ MAX_FILE_BYTES }
    ensures ok { IfOk result (λ _. state_of draft.new ≡ AfterItem (ctx_of draft.old) (alts_of draft.old)
        (add (items_of draft.old) (TBurst (mark_of (number_in names.new draft.old.name.items) dir ∷ [])))) }
    ensures names { IfOk result (λ _. names.new ≡ insert_key bytes_eq names.old draft.old.name.items) }
{
    let mark = mark(alloc, names, draft.name.as_slice(), dir)?;
    let marks = Items::from_slice(alloc, &[mark])?;
    push_item(draft, Item::Burst(marks))
}

fn push_burst_mark(
    alloc: Global,
    draft: &mut Draft,
    dir: Dir,
    names: &mut NameTable,
) -> Result<(), AllocError>
    requires { length names.old ≤ MAX_FILE_BYTES }
    ensures ok { IfOk result (λ _. state_of draft.new
        ≡ AfterBurst (ctx_of draft.old) (alts_of draft.old) (items_of draft.old) (draft.old.marks ++ mark_of (number_in names.new draft.old.name.items) dir ∷ [])) }
    ensures names { IfOk result (λ _. names.new ≡ insert_key bytes_eq names.old draft.old.name.items) }
{
    let mark = mark(alloc, names, draft.name.as_slice(), dir)?;
    draft.marks.push(mark)?;
    draft.mode = Mode::AfterBurst;
    Ok(())
}

#[tactic(auto, using(std::proofs::lemmas::Grind::common_steps, crate::proofs::Refusals::refusals))]
fn mark_step(
    alloc: Global,
    draft: &mut Draft,
    token: Token,
    names: &mut NameTable,
) -> Result<bool, AllocError>
    requires { length names.old ≤ MAX_FILE_BYTES }
    ensures ok { IfOk result (λ b. (word : List ℕ) →
        step (number_in names.new) (at_mark draft.old) (token_of token word)
        ≡ only_if b (state_of draft.new)) }
    ensures names { IfOk result (λ _. (word : List ℕ) → names.new
        ≡ with_heard names.old (heard (at_mark draft.old) (token_of token word))) }
{
    match token {
        Token::Ask => push_mark(alloc, draft, Dir::Input, names)?,
        Token::Bang => push_mark(alloc, draft, Dir::Output, names)?,
        _ => return Ok(false),
    }
    Ok(true)
}

#[tactic(auto, using(std::proofs::lemmas::Grind::common_steps, crate::proofs::Refusals::refusals))]
fn burst_mark_step(
    alloc: Global,
    draft: &mut Draft,
    token: Token,
    names: &mut NameTable,
) -> Result<bool, AllocError>
    requires { length names.old ≤ MAX_FILE_BYTES }
    ensures ok { IfOk result (λ b. (word : List ℕ) →
        step (number_in names.new) (at_burst_mark draft.old) (token_of token word)
        ≡ only_if b (state_of draft.new)) }
    ensures names { IfOk result (λ _. (word : List ℕ) → names.new
        ≡ with_heard names.old (heard (at_burst_mark draft.old) (token_of token word))) }
{
    match token {
        Token::Ask => push_burst_mark(alloc, draft, Dir::Input, names)?,
        Token::Bang => push_burst_mark(alloc, draft, Dir::Output, names)?,
        _ => return Ok(false),
    }
    Ok(true)
}

/// Takes the token, where a process has it there. A name that is heard is put among `names`. After an
/// error `names` may be larger.
pub(crate) fn process_step(
    alloc: Global,
    draft: &mut Draft,
    lexeme: &Lexeme<'_>,
    names: &mut NameTable,
) -> Result<bool, AllocError>
    requires { length names.old ≤ MAX_FILE_BYTES }
    ensures ok { IfOk result (λ b. step (number_in names.new) (state_of draft.old) (lexeme_token lexeme.now)
        ≡ only_if b (state_of draft.new)) }
    ensures names { IfOk result (λ _. names.new
        ≡ with_heard names.old (heard (state_of draft.old) (lexeme_token lexeme.now))) }
{
    match draft.mode {
        Mode::Form => Ok(form_step(alloc, draft, lexeme.token)),
        Mode::Body => Ok(body_step(alloc, draft, lexeme.token)),
        Mode::Item => item_step(alloc, draft, lexeme),
        Mode::Mark => mark_step(alloc, draft, lexeme.token, names),
        Mode::After => after_step(alloc, draft, lexeme.token),
        Mode::Burst => burst_step(draft, lexeme),
        Mode::BurstMark => burst_mark_step(alloc, draft, lexeme.token, names),
        Mode::AfterBurst => after_burst_step(alloc, draft, lexeme.token),
        Mode::Second => Ok(second_step(draft, lexeme.token)),
        Mode::Closed => Ok(false),
    }
}

/// Whether more round brackets are open than may be.
#[tactic(auto, using(std::proofs::lemmas::Grind::common_steps, crate::proofs::Depths::depths))]
pub(crate) fn is_deep(draft: &Draft) -> bool
    ensures { result ≡ nat_lt MAX_OPEN_BRACKETS (open_brackets (state_of draft.now)) }
{
    match draft.mode {
        Mode::Item | Mode::Mark | Mode::After => draft.outer.len() > MAX_OPEN_BRACKETS,
        Mode::Burst | Mode::BurstMark | Mode::AfterBurst => draft.outer.len() >= MAX_OPEN_BRACKETS,
        _ => false,
    }
}
