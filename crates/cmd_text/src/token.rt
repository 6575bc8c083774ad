//! The kinds of tokens, and what their first bytes begin.
ghost use Rattle.std.specs.Prelude.{◌≡◌, ◌↔◌, ℕ, [], IsTrue, Some, length};
ghost use Rattle.cmd_text.specs.Scan.{is_blank, is_digit, is_comment, Mode, Scanned, start, word};
ghost use Rattle.cmd_tree.specs.Limits.{is_letter, is_tail};
ghost use Rattle.cmd_text.specs.Mirror.ScanView.{token_of, started, IsPlainStart};

/// A token of a command file. The bytes of a word are kept apart.
#[derive(Clone, Copy, PartialEq, Eq)]
pub(crate) enum Token {
    Let,
    Main,
    Pref,
    Define,
    Dot,
    Semi,
    Bar,
    Par,
    Open,
    Close,
    LeftSq,
    RightSq,
    Star,
    Ask,
    Bang,
    Comma,
    Slash,
    End,
    Word,
}

/// What a byte is, where a token may begin.
#[derive(Clone, Copy)]
pub(crate) enum Start {
    Blank,
    Hash,
    Begin(First),
}

/// What a byte begins.
#[derive(Clone, Copy)]
pub(crate) enum First {
    Letter,
    Colon,
    Pipe,
    /// A digit or `_`.
    Bad,
    /// A byte that begins nothing.
    Stray,
    Sign(Token),
}

pub(crate) fn letter(b: u8) -> bool
    ensures { result ≡ is_letter b }
{
    (b'A' <= b && b <= b'Z') || (b'a' <= b && b <= b'z')
}

pub(crate) fn tail(b: u8) -> bool
    ensures { result ≡ is_tail b }
{
    letter(b) || (b'0' <= b && b <= b'9') || b == b'_'
}

pub(crate) fn comment(b: u8) -> bool
    ensures { result ≡ is_comment b }
{
    (b' ' <= b && b <= b'~') || b == b'\t' || b == b'\r'
}

fn blank(b: u8) -> bool
    ensures { result ≡ is_blank b }
{
    b == b' ' || b == b'\t' || b == b'\n' || b == b'\r'
}

pub(crate) fn starts(b: u8) -> Start
    ensures scanned { (at : ℕ) (next : (Mode → Scanned)) → start at b next ≡ started result at b next }
    ensures plain { IsPlainStart result }
{
    if blank(b) {
        return Start::Blank;
    }
    if b == b'#' {
        return Start::Hash;
    }
    if letter(b) {
        return Start::Begin(First::Letter);
    }
    Start::Begin(match b {
        b':' => First::Colon,
        b'|' => First::Pipe,
        b'0'..=b'9' | b'_' => First::Bad,
        b'.' => First::Sign(Token::Dot),
        b';' => First::Sign(Token::Semi),
        b'(' => First::Sign(Token::Open),
        b')' => First::Sign(Token::Close),
        b'[' => First::Sign(Token::LeftSq),
        b']' => First::Sign(Token::RightSq),
        b'*' => First::Sign(Token::Star),
        b'?' => First::Sign(Token::Ask),
        b'!' => First::Sign(Token::Bang),
        b',' => First::Sign(Token::Comma),
        b'/' => First::Sign(Token::Slash),
        _ => First::Stray,
    })
}

/// A word of the grammar, or a name.
pub(crate) fn word_kind(bytes: &[u8]) -> Token
    ensures { token_of result bytes.now ≡ word bytes.now }
{
    if bytes == b"let".as_slice() {
        Token::Let
    } else if bytes == b"main".as_slice() {
        Token::Main
    } else if bytes == b"pref".as_slice() {
        Token::Pref
    } else {
        Token::Word
    }
}
