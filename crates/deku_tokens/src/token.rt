//! The tokens of Rust that descriptions are made of.

ghost use Rattle.std.specs.Prelude.{◌≤◌, length, map, IfOk};
ghost use Rattle.deku_tokens.specs.Spans.{LieBetween};

use crate::lexing::first_token;
use crate::place::{Complaint, Span};
use std::alloc::{AllocError, Global};

/// What a token is.
#[derive(Clone, Copy, Debug, PartialEq, Eq)]
pub enum Kind {
    /// A name or a word of Rust.
    Name,
    /// A name with an apostrophe in front.
    Lifetime,
    /// A whole number, with its base, underscores and suffix.
    Integer,
    /// A number with a point.
    Float,
    /// A byte between apostrophes.
    Byte,
    /// A character between apostrophes.
    Character,
    /// A text between quotes.
    Text,
    /// Bytes between quotes.
    Bytes,
    /// A comment on what follows it.
    Doc,
    /// A comment on what it is in.
    InnerDoc,
    /// An operator or another mark of punctuation.
    Mark,
    /// Spaces, newlines, or a comment that documents nothing.
    Blank,
    /// A text or a comment without its end.
    Open,
    /// Characters that begin no token.
    Foreign,
}

/// A token, and where it is.
#[derive(Clone, Copy)]
pub struct Token<'a> {
    /// What it is.
    pub kind: Kind,
    /// Its text, without the `r#` of a raw name.
    pub text: &'a str,
    /// Where it is in the whole text.
    pub span: Span,
}

impl Token<'_> {
    /// Whether it is this mark.
    pub fn is_mark(&self, mark: &str) -> bool {
        self.kind == Kind::Mark && self.text == mark
    }

    /// Whether it is this name.
    pub fn is_name(&self, name: &str) -> bool {
        self.kind == Kind::Name && self.text == name
    }
}

/// The tokens of a part of a text, in their order and without blanks.
///
/// # Errors
///
/// `AllocError` if there is no memory.
///
/// ```text
/// tokens(alloc, "bits = 4 // of eight", Span { start: 0, end: 20 })?    // bits, = and 4
/// ```
pub fn tokens<'a>(alloc: Global, text: &'a str, part: Span) -> Result<Vec<Token<'a>>, AllocError>
    requires ordered { part.start ≤ part.end }
    requires within { part.end ≤ length text.now }
    ensures { IfOk result (λ v. LieBetween part.start (map (λ t. t.span) v.items) part.end) }
{
    let bytes = text.as_bytes();
    let mut tokens = Vec::new(alloc);
    let mut at = part.start;
    while at < part.end {
        let (kind, len) = first_token(&bytes[at..part.end]);
        let span = Span {
            start: at,
            end: at + len,
        };
        if kind != Kind::Blank {
            let text = text_of(text, span);
            tokens.push(Token { kind, text, span })?;
        }
        at += len;
    }
    Ok(tokens)
}

// The text of a token without the `r#` of a raw name.
fn text_of(text: &str, span: Span) -> &str {
    let text = text.get(span.start..span.end).unwrap_or("");
    text.strip_prefix("r#").unwrap_or(text)
}

/// A complaint about each token that has no end or begins none.
///
/// # Errors
///
/// `AllocError` if there is no memory.
///
/// ```text
/// broken_tokens(alloc, &tokens(alloc, "a § b", part)?)?    // one, at the §
/// ```
pub fn broken_tokens<'a>(
    alloc: Global,
    tokens: &[Token<'a>],
) -> Result<Vec<Complaint<'a>>, AllocError> {
    let mut complaints = Vec::new(alloc);
    for token in tokens {
        let (message, help) = match token.kind {
            Kind::Open => (
                "a text or a comment that has no end",
                "end a text with `\"`, and a comment with `*/`",
            ),
            Kind::Foreign => (
                "a character that is no part of a description",
                "names are of ASCII letters, digits and `_`",
            ),
            _ => continue,
        };
        let span = token.span;
        complaints.push(Complaint {
            span,
            message,
            help,
        })?;
    }
    Ok(complaints)
}
