//! The scanner: the next token of the bytes from a place on.
ghost use Rattle.std.specs.Prelude.{◌≡◌, ℕ, ◌+◌, ◌<◌, ◌≤◌, length, drop, slice_range, slice_index, []};
ghost use Rattle.std.specs.Prelude.{◌∷◌, IfOk, IfErr, IsOk};
ghost use Rattle.cmd_tree.specs.declared.limits.TheConstants.{MAX_FILE_BYTES};
ghost use Rattle.cmd_text.specs.Scan.{scan, Between, InComment, InWord, AfterColon, AfterBar, then_word};
ghost use Rattle.cmd_text.specs.Mirror.ScanView.{begun, with_found, with_refusal, token_of, lexeme_token};
ghost use Rattle.cmd_text.specs.Mirror.ScanView.{IsPlainFirst, IsPast};

use crate::file::Refusal;
use crate::token::{First, Start, Token, comment, starts, tail, word_kind};
use cmd_tree::MAX_NAME_BYTES;

/// A token, the place of its first byte, and the place behind it.
#[derive(Clone, Copy)]
pub(crate) struct Found {
    pub token: Token,
    pub at: usize,
    pub next: usize,
}

/// A token with its bytes and the place of the first.
#[derive(Clone, Copy)]
pub(crate) struct Lexeme<'a> {
    pub token: Token,
    pub word: &'a [u8],
    pub at: u32,
}

/// The place behind a comment whose `#` is before `from`.
#[tactic(auto, using(std::proofs::lemmas::Grind::common_steps, crate::proofs::Cuts::cuts))]
fn comment_end(bytes: &[u8], from: usize) -> Result<usize, Refusal>
    requires from_in { from ≤ length bytes.now }
    requires few { length bytes.now ≤ MAX_FILE_BYTES }
    ensures ok { IfOk result (λ to. scan InComment from (drop from bytes.now)
        ≡ scan Between to (drop to bytes.now)) }
    ensures range { IfOk result (λ to. (from ≤ to) × (to ≤ length bytes.now)) }
    ensures err { IfErr result (λ e. scan InComment from (drop from bytes.now) ≡ with_refusal e) }
{
    for i in from..bytes.len() {
        let b = bytes[i];
        if b == b'\n' {
            return Ok(i + 1);
        }
        if !comment(b) {
            return Err(Refusal::BadByte { at: i as u32 });
        }
    }
    Ok(bytes.len())
}

/// The place behind a word that begins at `at`.
#[tactic(auto, using(std::proofs::lemmas::Grind::common_steps, crate::proofs::Cuts::cuts))]
fn word_end(bytes: &[u8], at: usize) -> usize
    requires at_in { at < length bytes.now }
    ensures scanned { scan (InWord at (slice_range bytes.now at (at + 1))) (at + 1) (drop (at + 1) bytes.now)
        ≡ then_word at (slice_range bytes.now at result) (scan Between result (drop result bytes.now)) }
    ensures range { (at < result) × (result ≤ length bytes.now) }
{
    for i in at + 1..bytes.len() {
        if !tail(bytes[i]) {
            return i;
        }
    }
    bytes.len()
}

#[tactic(auto, using(std::proofs::lemmas::Grind::common_steps, crate::proofs::Cuts::cuts))]
fn word_at(bytes: &[u8], at: usize) -> Result<Found, Refusal>
    requires at_in { at < length bytes.now }
    requires few { length bytes.now ≤ MAX_FILE_BYTES }
    ensures ok { IfOk result (λ f. begun First.Letter at (slice_index bytes.now at)
        (λ m. scan m (at + 1) (drop (at + 1) bytes.now)) ≡ with_found f bytes.now) }
    ensures range { IfOk result (λ f. (at < f.next) × (f.next ≤ length bytes.now) × (f.at ≡ at)) }
    ensures err { IfErr result (λ e. begun First.Letter at (slice_index bytes.now at)
        (λ m. scan m (at + 1) (drop (at + 1) bytes.now)) ≡ with_refusal e) }
{
    let next = word_end(bytes, at);
    let token = word_kind(&bytes[at..next]);
    if next - at > MAX_NAME_BYTES {
        return Err(Refusal::NameTooLong { at: at as u32 });
    }
    Ok(Found { token, at, next })
}

/// The token that begins at `at`.
#[tactic(auto, using(std::proofs::lemmas::Grind::common_steps, crate::proofs::Cuts::cuts))]
fn token_at(bytes: &[u8], at: usize, first: First) -> Result<Found, Refusal>
    requires at_in { at < length bytes.now }
    requires few { length bytes.now ≤ MAX_FILE_BYTES }
    requires plain { IsPlainFirst first }
    ensures ok { IfOk result (λ f. begun first at (slice_index bytes.now at)
        (λ m. scan m (at + 1) (drop (at + 1) bytes.now)) ≡ with_found f bytes.now) }
    ensures range { IfOk result (λ f. (at < f.next) × (f.next ≤ length bytes.now) × (f.at ≡ at)) }
    ensures err { IfErr result (λ e. begun first at (slice_index bytes.now at)
        (λ m. scan m (at + 1) (drop (at + 1) bytes.now)) ≡ with_refusal e) }
{
    match first {
        First::Letter => word_at(bytes, at),
        First::Colon => colon_at(bytes, at),
        First::Pipe => pipe_at(bytes, at),
        First::Bad => Err(Refusal::BadToken { at: at as u32 }),
        First::Stray => Err(Refusal::BadByte { at: at as u32 }),
        First::Sign(token) => Ok(Found {
            token,
            at,
            next: at + 1,
        }),
    }
}

#[tactic(auto, using(std::proofs::lemmas::Grind::common_steps, crate::proofs::Cuts::cuts))]
fn colon_at(bytes: &[u8], at: usize) -> Result<Found, Refusal>
    requires at_in { at < length bytes.now }
    requires few { length bytes.now ≤ MAX_FILE_BYTES }
    ensures ok { IfOk result (λ f. scan (AfterColon at) (at + 1) (drop (at + 1) bytes.now)
        ≡ with_found f bytes.now) }
    ensures range { IfOk result (λ f. (at < f.next) × (f.next ≤ length bytes.now) × (f.at ≡ at)) }
    ensures err { IfErr result (λ e. scan (AfterColon at) (at + 1) (drop (at + 1) bytes.now) ≡ with_refusal e) }
{
    if at + 1 < bytes.len() {
        if bytes[at + 1] == b'=' {
            return Ok(Found {
                token: Token::Define,
                at,
                next: at + 2,
            });
        }
    }
    Err(Refusal::BadToken { at: at as u32 })
}

#[tactic(auto, using(std::proofs::lemmas::Grind::common_steps, crate::proofs::Cuts::cuts))]
fn pipe_at(bytes: &[u8], at: usize) -> Result<Found, Refusal>
    requires at_in { at < length bytes.now }
    ensures ok { IfOk result (λ f. scan (AfterBar at) (at + 1) (drop (at + 1) bytes.now)
        ≡ with_found f bytes.now) }
    ensures range { IfOk result (λ f. (at < f.next) × (f.next ≤ length bytes.now) × (f.at ≡ at)) }
    ensures never { IsOk result }
{
    if at + 1 < bytes.len() {
        if bytes[at + 1] == b'|' {
            return Ok(Found {
                token: Token::Par,
                at,
                next: at + 2,
            });
        }
    }
    Ok(Found {
        token: Token::Bar,
        at,
        next: at + 1,
    })
}

/// The first token at or behind `from`. Behind the last one comes the end of the text, at the place
/// after the last byte.
#[tactic(auto, using(std::proofs::lemmas::Grind::common_steps, crate::proofs::Cuts::cuts))]
pub(crate) fn next_token(bytes: &[u8], from: usize) -> Result<Found, Refusal>
    requires from_in { from ≤ length bytes.now }
    requires few { length bytes.now ≤ MAX_FILE_BYTES }
    ensures ok { IfOk result (λ f. scan Between from (drop from bytes.now) ≡ with_found f bytes.now) }
    ensures range { IfOk result (λ f. (f.at ≤ f.next) × (f.next ≤ length bytes.now) × IsPast f from) }
    ensures err { IfErr result (λ e. scan Between from (drop from bytes.now) ≡ with_refusal e) }
{
    let mut at = from;
    while at < bytes.len() {
        match starts(bytes[at]) {
            Start::Blank => at += 1,
            Start::Hash => match comment_end(bytes, at + 1) {
                Ok(end) => at = end,
                Err(refusal) => return Err(refusal),
            },
            Start::Begin(first) => return token_at(bytes, at, first),
        }
    }
    Ok(Found {
        token: Token::End,
        at,
        next: at,
    })
}

/// The token that was found, with its bytes.
pub(crate) fn lexeme_of(bytes: &[u8], found: Found) -> Lexeme<'_>
    requires in_text { (found.at ≤ found.next) × (found.next ≤ length bytes.now) }
    requires few { length bytes.now ≤ MAX_FILE_BYTES }
    ensures token { lexeme_token result ≡ token_of found.token (slice_range bytes.now found.at found.next) }
    ensures kind { result.token ≡ found.token }
    ensures at { result.at ≡ found.at }
{
    Lexeme {
        token: found.token,
        word: &bytes[found.at..found.next],
        at: found.at as u32,
    }
}
