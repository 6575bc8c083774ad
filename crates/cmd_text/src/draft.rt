//! What has been read of a process, changed in place: the brackets, alternatives and items of the code.
ghost use Rattle.std.specs.Prelude.{◌≡◌, ◌↔◌, ◌∷◌, ◌++◌, IfOk, IsTrue, true, false, None};
ghost use Rattle.cmd_tree.specs.Tree.{Done, Stop};
ghost use Rattle.cmd_tree.specs.View.{item_of, seqs_of};
ghost use Rattle.cmd_text.specs.Process.{body_of, proc_of};
ghost use Rattle.cmd_text.specs.Mirror.Machine.{InLead, Inside, AtForm, AtItem, AfterItem, add};
ghost use Rattle.cmd_text.specs.Mirror.Machine.{close_square, next_choice, close_round, widen, lone};
ghost use Rattle.cmd_text.specs.Mirror.Machine.{end_lead};
ghost use Rattle.cmd_text.specs.Mirror.Drafts.{base_of, lead_of, ctx_of, alts_of, items_of, state_of};
ghost use Rattle.cmd_text.specs.Mirror.Drafts.{only_if};

use cmd_tree::{Item, Mark, Proc, Seq};
use sqlite_items::Items;
use std::alloc::{AllocError, Global};
use std::mem;

/// Where the reader is within a process.
#[derive(Clone, Copy)]
pub(crate) enum Mode {
    /// Behind `pref`.
    Form,
    /// At the square bracket of the body.
    Body,
    Item,
    /// Behind a name.
    Mark,
    After,
    Burst,
    BurstMark,
    AfterBurst,
    /// One square bracket more closes the process.
    Second,
    Closed,
}

/// What stood in front of an open round bracket.
#[derive(Drop)]
pub(crate) struct Level {
    pub alts: Items<Seq>,
    pub items: Items<Item>,
}

/// Where the reader is, and what it has read: the lead of the body, and whether there is one, the open round brackets with the
/// outermost first, the alternatives and the items before, the marks of the burst, and the last name.
#[derive(Drop)]
pub(crate) struct Draft {
    pub mode: Mode,
    pub lead: Items<Item>,
    pub led: bool,
    pub in_lead: bool,
    pub outer: Items<Level>,
    pub alts: Items<Seq>,
    pub items: Items<Item>,
    pub marks: Items<Mark>,
    pub name: Vec<u8>,
}

/// Behind `pref`.
pub(crate) fn new_draft(alloc: Global) -> Draft
    ensures { state_of result ≡ AtForm }
{
    Draft {
        mode: Mode::Form,
        lead: Items::new(alloc),
        led: false,
        in_lead: false,
        outer: Items::new(alloc),
        alts: Items::new(alloc),
        items: Items::new(alloc),
        marks: Items::new(alloc),
        name: Vec::new(alloc),
    }
}

/// Behind the `[` of a lead, or of a body.
pub(crate) fn begin(alloc: Global, draft: &mut Draft, in_lead: bool)
    ensures { state_of draft.new ≡ AtItem (base_of in_lead (lead_of draft.old)) Stop Done }
{
    draft.in_lead = in_lead;
    draft.outer = Items::new(alloc);
    draft.alts = Items::new(alloc);
    draft.items = Items::new(alloc);
    draft.mode = Mode::Item;
}

/// Behind `(`.
#[tactic(auto, using(std::proofs::lemmas::Grind::common_steps, crate::proofs::Places::places))]
pub(crate) fn open_round(alloc: Global, draft: &mut Draft) -> Result<(), AllocError>
    ensures { IfOk result (λ _. state_of draft.new
        ≡ AtItem (Inside (ctx_of draft.old) (alts_of draft.old) (items_of draft.old)) Stop Done) }
{
    let row = Items::from_vec(Vec::with_capacity(alloc, 1)?);
    let items = mem::replace(&mut draft.items, row);
    let alts = mem::replace(&mut draft.alts, Items::new(alloc));
    draft.outer.push(Level { alts, items })?;
    draft.mode = Mode::Item;
    Ok(())
}

/// Behind one item more.
#[tactic(auto, using(std::proofs::lemmas::Grind::common_steps, crate::proofs::Places::places))]
pub(crate) fn push_item(draft: &mut Draft, item: Item) -> Result<(), AllocError>
    ensures { IfOk result (λ _. state_of draft.new ≡ AfterItem (ctx_of draft.old) (alts_of draft.old)
        (add (items_of draft.old) (item_of item))) }
{
    draft.items.push(item)?;
    draft.mode = Mode::After;
    Ok(())
}

/// Whether the place is in a lead, outside of round brackets.
#[tactic(auto, using(std::proofs::lemmas::Grind::common_steps, crate::proofs::Places::leads))]
pub(crate) fn is_in_lead(draft: &Draft) -> bool
    ensures { IsTrue result ↔ (ctx_of draft.now ≡ InLead) }
{
    if !draft.outer.is_empty() {
        return false;
    }
    draft.in_lead
}

/// Behind `*` after a lead; nothing elsewhere.
#[tactic(auto, using(std::proofs::lemmas::Grind::common_steps, crate::proofs::Places::lead_ends))]
pub(crate) fn close_lead(alloc: Global, draft: &mut Draft) -> bool
    ensures { end_lead (ctx_of draft.old) (items_of draft.old) ≡ only_if result (state_of draft.new) }
{
    if !is_in_lead(draft) {
        return false;
    }
    if draft.items.is_empty() {
        return false;
    }
    draft.lead = mem::replace(&mut draft.items, Items::new(alloc));
    draft.led = true;
    draft.mode = Mode::Body;
    true
}

/// Behind `|`; nothing in a lead, which has no alternatives.
#[tactic(auto, using(std::proofs::lemmas::Grind::common_steps, crate::proofs::Places::choices))]
pub(crate) fn next_alternative(alloc: Global, draft: &mut Draft) -> Result<bool, AllocError>
    ensures { IfOk result (λ b. next_choice (ctx_of draft.old) (alts_of draft.old) (items_of draft.old)
        ≡ only_if b (state_of draft.new)) }
{
    if is_in_lead(draft) {
        return Ok(false);
    }
    let row = Items::from_vec(Vec::with_capacity(alloc, 1)?);
    let items = mem::replace(&mut draft.items, row);
    draft.alts.push(Seq { items })?;
    draft.mode = Mode::Item;
    Ok(true)
}

/// Behind `)`; nothing where no bracket is open, or it has one alternative.
#[tactic(auto, using(std::proofs::lemmas::Grind::common_steps, crate::proofs::Places::closes))]
pub(crate) fn close_choice(draft: &mut Draft) -> Result<bool, AllocError>
    ensures { IfOk result (λ b. close_round (ctx_of draft.old) (alts_of draft.old) (items_of draft.old)
        ≡ only_if b (state_of draft.new)) }
{
    let Some(level) = draft.outer.pop() else {
        return Ok(false);
    };
    if draft.alts.is_empty() {
        return Ok(false);
    }
    let Level { alts, items } = level;
    let last = mem::replace(&mut draft.items, items);
    let mut choice = mem::replace(&mut draft.alts, alts);
    choice.push(Seq { items: last })?;
    draft.items.push(Item::Alt(choice))?;
    draft.mode = Mode::After;
    Ok(true)
}

/// Behind `]`; nothing in a round bracket or a lead.
#[tactic(auto, using(std::proofs::lemmas::Grind::common_steps, crate::proofs::Places::squares))]
pub(crate) fn close_body(alloc: Global, draft: &mut Draft) -> Result<bool, AllocError>
    ensures { IfOk result (λ b. close_square (ctx_of draft.old) (alts_of draft.old) (items_of draft.old)
        ≡ only_if b (state_of draft.new)) }
{
    if !draft.outer.is_empty() {
        return Ok(false);
    }
    if draft.in_lead {
        return Ok(false);
    }
    let items = mem::replace(&mut draft.items, Items::new(alloc));
    draft.alts.push(Seq { items })?;
    draft.mode = if draft.led {
        Mode::Second
    } else {
        Mode::Closed
    };
    Ok(true)
}

/// Behind `||`, where a bracket holds one symbol so far; nothing elsewhere.
#[tactic(auto, using(std::proofs::lemmas::Grind::common_steps, crate::proofs::Places::widens))]
pub(crate) fn begin_burst(draft: &mut Draft) -> bool
    ensures { widen (ctx_of draft.old) (alts_of draft.old) (lone (items_of draft.old))
        ≡ only_if result (state_of draft.new) }
{
    let Some(level) = draft.outer.pop() else {
        return false;
    };
    if !draft.alts.is_empty() {
        return false;
    }
    let Some(item) = draft.items.pop() else {
        return false;
    };
    if !draft.items.is_empty() {
        return false;
    }
    let Item::Burst(marks) = item else {
        return false;
    };
    if marks.len() != 1 {
        return false;
    }
    let Level { alts, items } = level;
    draft.alts = alts;
    draft.items = items;
    draft.marks = marks;
    draft.mode = Mode::Burst;
    true
}

/// Whether the process is read.
pub(crate) fn is_closed(draft: &Draft) -> bool
    ensures { IsTrue result ↔ (draft.now.mode ≡ Mode.Closed) }
{
    matches!(draft.mode, Mode::Closed)
}

/// The process that is read.
#[tactic(auto, using(std::proofs::lemmas::Grind::common_steps, crate::proofs::Places::bodies))]
pub(crate) fn into_process(alloc: Global, draft: Draft) -> Result<Proc, AllocError>
    ensures { IfOk result (λ p. p ≡ proc_of (record { lead = lead_of draft; body = alts_of draft })) }
{
    let body = into_body(alloc, draft.alts)?;
    let lead = if draft.led {
        Some(Seq { items: draft.lead })
    } else {
        None
    };
    Ok(Proc {
        lead,
        body: Some(body),
    })
}

/// The body of these alternatives.
#[tactic(auto, using(std::proofs::lemmas::Grind::common_steps, crate::proofs::Places::bodies))]
fn into_body(alloc: Global, mut alts: Items<Seq>) -> Result<Seq, AllocError>
    ensures { IfOk result (λ body. body ≡ body_of (seqs_of alts)) }
{
    let mut items = Items::new(alloc);
    let Some(last) = alts.pop() else {
        return Ok(Seq { items });
    };
    if alts.is_empty() {
        return Ok(last);
    }
    alts.push(last)?;
    items.push(Item::Alt(alts))?;
    Ok(Seq { items })
}
