//! The steps of a file outside of processes, each by one token.
ghost use Rattle.std.specs.Prelude.{◌≡◌, ℕ, List, Option, Some, IfOk};
ghost use Rattle.cmd_text.specs.declared.file.Sentence.{Sentence};
ghost use Rattle.cmd_text.specs.Mirror.ScanView.{token_of, lexeme_token};
ghost use Rattle.cmd_text.specs.Mirror.Reader.{AtSentence, AtName, AtDefine, AtFactor, AfterName, AtFresh};
ghost use Rattle.cmd_text.specs.Mirror.Reader.{AtSlash, AtWas, AfterPair, AfterFactor, AtEnd, IsWithin};
ghost use Rattle.cmd_text.specs.Mirror.Reader.{ended, with_factor};
ghost use Rattle.cmd_text.specs.Mirror.ReaderView.{head_of_code, partly_of, spot_of, Leads, LeadsBehind};

use crate::file::{Factor, Named, Rename, Sentence};
use crate::scan::Lexeme;
use crate::token::Token;
use cmd_tree::Name;
use sqlite_items::Items;
use std::alloc::{AllocError, Global};

/// The name of a sentence, which `main` has not, and its place.
#[derive(Drop)]
pub(crate) struct Head {
    pub name: Option<Name>,
    pub at: u32,
}

/// A sentence of which these factors are read.
#[derive(Drop)]
pub(crate) struct Partly {
    pub head: Head,
    pub factors: Items<Factor>,
}

/// Where the reader is within a file, and what it has read of the sentence.
#[derive(Drop)]
pub(crate) enum Spot {
    Sentence,
    Name,
    Define(Head),
    Factor(Partly),
    /// Behind `pref`.
    Process(Partly),
    AfterName(Partly, Named),
    Fresh(Partly, Named),
    Slash(Partly, Named, Name, u32),
    Was(Partly, Named, Name, u32),
    AfterPair(Partly, Named),
    AfterFactor(Partly),
    End,
    Finished,
}

pub(crate) fn push_factor(partly: Partly, factor: Factor) -> Result<Partly, AllocError>
    ensures { IfOk result (λ q. (ss : List Sentence) → partly_of ss q
        ≡ with_factor (partly_of ss partly) factor) }
{
    let Partly { head, mut factors } = partly;
    factors.push(factor)?;
    Ok(Partly { head, factors })
}

#[tactic(auto, using(std::proofs::lemmas::Grind::common_steps, crate::proofs::RefusedSpots::refused_spots))]
fn sentence_step(lexeme: &Lexeme<'_>) -> Option<Spot>
    ensures { Leads (λ ss. AtSentence ss) (lexeme_token lexeme.now) (Some lexeme.now.at) result }
{
    match lexeme.token {
        Token::Let => Some(Spot::Name),
        Token::Main => Some(Spot::Define(Head {
            name: None,
            at: lexeme.at,
        })),
        _ => None,
    }
}

#[tactic(auto, using(std::proofs::lemmas::Grind::common_steps, crate::proofs::RefusedSpots::refused_spots))]
fn name_step(alloc: Global, lexeme: &Lexeme<'_>) -> Result<Option<Spot>, AllocError>
    ensures { IfOk result (Leads (λ ss. AtName ss) (lexeme_token lexeme.now) (Some lexeme.now.at)) }
{
    match lexeme.token {
        Token::Word => {
            let name = Name::new(alloc, lexeme.word)?;
            Ok(Some(Spot::Define(Head {
                name: Some(name),
                at: lexeme.at,
            })))
        }
        _ => Ok(None),
    }
}

#[tactic(auto, using(std::proofs::lemmas::Grind::common_steps, crate::proofs::RefusedSpots::refused_spots))]
fn define_step(alloc: Global, head: Head, token: Token) -> Option<Spot>
    ensures { (word : List ℕ) (p : Option ℕ) → Leads
        (λ ss. AtDefine ss (head_of_code head)) (token_of token word) p result }
{
    match token {
        Token::Define => Some(Spot::Factor(Partly {
            head,
            factors: Items::new(alloc),
        })),
        _ => None,
    }
}

#[tactic(auto, using(std::proofs::lemmas::Grind::common_steps, crate::proofs::RefusedSpots::refused_spots))]
fn factor_step(
    alloc: Global,
    partly: Partly,
    lexeme: &Lexeme<'_>,
) -> Result<Option<Spot>, AllocError>
    ensures { IfOk result (Leads (λ ss.
        AtFactor (partly_of ss partly)) (lexeme_token lexeme.now) (Some lexeme.now.at)) }
{
    match lexeme.token {
        Token::Pref => Ok(Some(Spot::Process(partly))),
        Token::Word => {
            let named = Named {
                name: Name::new(alloc, lexeme.word)?,
                at: lexeme.at,
                renames: Items::new(alloc),
            };
            Ok(Some(Spot::AfterName(partly, named)))
        }
        _ => Ok(None),
    }
}

#[tactic(auto, using(std::proofs::lemmas::Grind::common_steps, crate::proofs::RefusedSpots::refused_spots))]
fn fresh_step(
    alloc: Global,
    partly: Partly,
    named: Named,
    lexeme: &Lexeme<'_>,
) -> Result<Option<Spot>, AllocError>
    ensures { IfOk result (Leads (λ ss.
        AtFresh (partly_of ss partly) named) (lexeme_token lexeme.now) (Some lexeme.now.at)) }
{
    match lexeme.token {
        Token::Word => {
            let name = Name::new(alloc, lexeme.word)?;
            Ok(Some(Spot::Slash(partly, named, name, lexeme.at)))
        }
        _ => Ok(None),
    }
}

#[tactic(auto, using(std::proofs::lemmas::Grind::common_steps, crate::proofs::RefusedSpots::refused_spots))]
fn slash_step(
    partly: Partly,
    named: Named,
    fresh: Name,
    fresh_at: u32,
    token: Token,
) -> Option<Spot>
    ensures { (word : List ℕ) (p : Option ℕ) → Leads
        (λ ss. AtSlash (partly_of ss partly) named fresh fresh_at) (token_of token word) p result }
{
    match token {
        Token::Slash => Some(Spot::Was(partly, named, fresh, fresh_at)),
        _ => None,
    }
}

#[tactic(auto, using(std::proofs::lemmas::Grind::common_steps, crate::proofs::RefusedSpots::refused_spots))]
fn was_step(
    alloc: Global,
    partly: Partly,
    mut named: Named,
    fresh: Name,
    fresh_at: u32,
    lexeme: &Lexeme<'_>,
) -> Result<Option<Spot>, AllocError>
    ensures { IfOk result (Leads (λ ss.
        AtWas (partly_of ss partly) named fresh fresh_at) (lexeme_token lexeme.now) (Some lexeme.now.at)) }
{
    match lexeme.token {
        Token::Word => {
            let was = Name::new(alloc, lexeme.word)?;
            named.renames.push(Rename {
                fresh,
                fresh_at,
                was,
                was_at: lexeme.at,
            })?;
            Ok(Some(Spot::AfterPair(partly, named)))
        }
        _ => Ok(None),
    }
}

#[tactic(auto, using(std::proofs::lemmas::Grind::common_steps, crate::proofs::RefusedSpots::refused_spots))]
fn after_pair_step(partly: Partly, named: Named, token: Token) -> Result<Option<Spot>, AllocError>
    ensures { IfOk result (λ o. (word : List ℕ) (p : Option ℕ) → Leads
        (λ ss. AfterPair (partly_of ss partly) named) (token_of token word) p o) }
{
    match token {
        Token::Comma => Ok(Some(Spot::Fresh(partly, named))),
        Token::RightSq => {
            let partly = push_factor(partly, Factor::Named(named))?;
            Ok(Some(Spot::AfterFactor(partly)))
        }
        _ => Ok(None),
    }
}

#[tactic(auto, using(std::proofs::lemmas::Grind::common_steps, crate::proofs::RefusedSpots::refused_spots))]
fn end_step(token: Token) -> Option<Spot>
    ensures { (word : List ℕ) (p : Option ℕ) → Leads (λ ss. AtEnd ss) (token_of token word) p result }
{
    match token {
        Token::End => Some(Spot::Finished),
        _ => None,
    }
}

/// The place behind the dot of a sentence, which is put among `sentences`.
fn end_sentence(sentences: &mut Items<Sentence>, partly: Partly) -> Result<Spot, AllocError>
    ensures { IfOk result (λ t. spot_of sentences.new t ≡ ended (partly_of sentences.old partly)) }
{
    let Partly { head, factors } = partly;
    let Head { name, at } = head;
    match name {
        None => {
            sentences.push(Sentence {
                name: None,
                at,
                factors,
            })?;
            Ok(Spot::End)
        }
        Some(name) => {
            sentences.push(Sentence {
                name: Some(name),
                at,
                factors,
            })?;
            Ok(Spot::Sentence)
        }
    }
}

#[tactic(auto, using(std::proofs::lemmas::Grind::common_steps, crate::proofs::RefusedSpots::refused_spots))]
fn after_factor_step(
    sentences: &mut Items<Sentence>,
    partly: Partly,
    token: Token,
) -> Result<Option<Spot>, AllocError>
    ensures { IfOk result (λ o. (word : List ℕ) (p : Option ℕ) →
        LeadsBehind (AfterFactor (partly_of sentences.old partly)) (token_of token word) p sentences.new o) }
{
    match token {
        Token::Par => Ok(Some(Spot::Factor(partly))),
        Token::Dot => {
            let spot = end_sentence(sentences, partly)?;
            Ok(Some(spot))
        }
        _ => Ok(None),
    }
}

#[tactic(auto, using(std::proofs::lemmas::Grind::common_steps, crate::proofs::RefusedSpots::refused_spots))]
fn after_name_step(
    sentences: &mut Items<Sentence>,
    partly: Partly,
    named: Named,
    token: Token,
) -> Result<Option<Spot>, AllocError>
    ensures { IfOk result (λ o. (word : List ℕ) (p : Option ℕ) →
        LeadsBehind (AfterName (partly_of sentences.old partly) named) (token_of token word) p sentences.new o) }
{
    match token {
        Token::LeftSq => Ok(Some(Spot::Fresh(partly, named))),
        Token::Par => {
            let partly = push_factor(partly, Factor::Named(named))?;
            Ok(Some(Spot::Factor(partly)))
        }
        Token::Dot => {
            let partly = push_factor(partly, Factor::Named(named))?;
            let spot = end_sentence(sentences, partly)?;
            Ok(Some(spot))
        }
        _ => Ok(None),
    }
}

/// The place behind the token; nothing where no text has it there. A sentence that ends is put among
/// `sentences`, which may be longer after an error.
pub(crate) fn spot_step(
    alloc: Global,
    sentences: &mut Items<Sentence>,
    spot: Spot,
    lexeme: &Lexeme<'_>,
) -> Result<Option<Spot>, AllocError>
    requires { IsWithin (spot_of sentences.old spot) → ⊥ }
    ensures { IfOk result (LeadsBehind (spot_of sentences.old spot) (lexeme_token lexeme.now) (Some lexeme.now.at) sentences.new) }
{
    match spot {
        Spot::Sentence => Ok(sentence_step(lexeme)),
        Spot::Name => name_step(alloc, lexeme),
        Spot::Define(head) => Ok(define_step(alloc, head, lexeme.token)),
        Spot::Factor(partly) => factor_step(alloc, partly, lexeme),
        Spot::Process(_) => unreachable!(),
        Spot::Fresh(partly, named) => fresh_step(alloc, partly, named, lexeme),
        Spot::Slash(partly, named, fresh, fresh_at) => {
            Ok(slash_step(partly, named, fresh, fresh_at, lexeme.token))
        }
        Spot::Was(partly, named, fresh, fresh_at) => {
            was_step(alloc, partly, named, fresh, fresh_at, lexeme)
        }
        Spot::AfterPair(partly, named) => after_pair_step(partly, named, lexeme.token),
        Spot::End => Ok(end_step(lexeme.token)),
        Spot::AfterName(partly, named) => after_name_step(sentences, partly, named, lexeme.token),
        Spot::AfterFactor(partly) => after_factor_step(sentences, partly, lexeme.token),
        Spot::Finished => Ok(None),
    }
}
