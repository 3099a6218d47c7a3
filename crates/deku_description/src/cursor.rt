//! A place among tokens, and what a parser asks there.

ghost use Rattle.std.specs.Prelude.{◌≡◌, ◌<◌, ◌≤◌};

use deku_tokens::arena::Arena;
use deku_tokens::place::{Complaint, Span};
use deku_tokens::token::{Kind, Token};
use std::alloc::{AllocError, AllocFailed};

/// Why a part of a description was not parsed.
#[derive(Clone, Copy, Debug)]
pub enum Stop<'a> {
    /// What is wrong with it.
    Wrong(Complaint<'a>),
    /// There is no memory.
    Memory,
}

impl<'a> Stop<'a> {
    /// What is wrong, and what to write in its place.
    pub(crate) fn wrong<T>(span: Span, message: &'a str, help: &'a str) -> Result<T, Stop<'a>> {
        Err(Stop::Wrong(Complaint {
            span,
            message,
            help,
        }))
    }
}

impl<'a> From<AllocError> for Stop<'a> {
    fn from(_error: AllocError) -> Stop<'a> {
        Stop::Memory
    }
}

impl<'a, T: Drop> From<AllocFailed<T>> for Stop<'a> {
    fn from(_error: AllocFailed<T>) -> Stop<'a> {
        Stop::Memory
    }
}

/// Tokens, of which those before a place are parsed.
#[derive(Drop)]
pub(crate) struct Cursor<'a> {
    arena: &'a Arena,
    tokens: &'a [Token<'a>],
    at: usize,
    end: Span,
}

impl<'a> Cursor<'a> {
    /// All tokens; the span is where they end.
    pub(crate) fn new(arena: &'a Arena, tokens: &'a [Token<'a>], end: Span) -> Self {
        Cursor {
            arena,
            tokens,
            at: 0,
            end,
        }
    }

    pub(crate) fn arena(&self) -> &'a Arena {
        self.arena
    }

    /// How many tokens are left.
    pub(crate) fn left(&self) -> usize {
        self.tokens.len().saturating_sub(self.at)
    }

    pub(crate) fn peek(&self) -> Option<Token<'a>> {
        self.tokens.get(self.at).copied()
    }

    /// The token after the next one.
    pub(crate) fn peek_second(&self) -> Option<Token<'a>> {
        self.tokens.get(self.at.saturating_add(1)).copied()
    }

    pub(crate) fn next(&mut self) -> Option<Token<'a>> {
        let token = self.peek()?;
        self.at = self.at.saturating_add(1);
        Some(token)
    }

    /// Where the next token is, or the end.
    pub(crate) fn here(&self) -> Span {
        match self.peek() {
            Some(token) => token.span,
            None => self.end,
        }
    }

    /// Where the last token was, or the end.
    pub(crate) fn last(&self) -> Span {
        match self.tokens.get(self.at.saturating_sub(1)) {
            Some(token) => token.span,
            None => self.end,
        }
    }

    pub(crate) fn is_mark(&self, mark: &str) -> bool {
        match self.peek() {
            Some(token) => token.is_mark(mark),
            None => false,
        }
    }

    pub(crate) fn is_name(&self, name: &str) -> bool {
        match self.peek() {
            Some(token) => token.is_name(name),
            None => false,
        }
    }

    /// Takes a mark if it is next.
    pub(crate) fn take_mark(&mut self, mark: &str) -> bool {
        let is_next = self.is_mark(mark);
        if is_next {
            self.next();
        }
        is_next
    }

    /// Takes a name if it is next.
    pub(crate) fn take_name(&mut self, name: &str) -> bool {
        let is_next = self.is_name(name);
        if is_next {
            self.next();
        }
        is_next
    }

    /// Takes a mark.
    pub(crate) fn mark(&mut self, mark: &str) -> Result<(), Stop<'a>> {
        if self.take_mark(mark) {
            return Ok(());
        }
        self.expected(self.arena.print(format_args!("`{mark}`"))?)
    }

    /// Takes a token of a kind.
    pub(crate) fn token(&mut self, kind: Kind, what: &str) -> Result<Token<'a>, Stop<'a>> {
        match self.peek() {
            Some(token) if token.kind == kind => {
                self.next();
                Ok(token)
            }
            _ => self.expected(what),
        }
    }

    /// Complains that something else is expected.
    pub(crate) fn expected<T>(&self, what: &str) -> Result<T, Stop<'a>> {
        let message = match self.peek() {
            Some(token) => {
                let text = token.text;
                self.arena
                    .print(format_args!("expected {what}, found `{text}`"))?
            }
            None => self
                .arena
                .print(format_args!("expected {what}, found the end"))?,
        };
        Stop::wrong(self.here(), message, "")
    }

    /// Skips a group in brackets, or one other token.
    pub(crate) fn skip_tree(&mut self) {
        let mut depth = 0usize;
        for _ in 0..self.left() {
            let Some(token) = self.next() else {
                return;
            };
            if opens(token) {
                depth = depth.saturating_add(1);
            } else if closes(token) {
                depth = depth.saturating_sub(1);
            }
            if depth == 0 {
                return;
            }
        }
    }
}

/// Whether a token begins a group.
pub(crate) fn opens(token: Token<'_>) -> bool {
    token.is_mark("(") || token.is_mark("[") || token.is_mark("{")
}

/// Whether a token ends a group.
pub(crate) fn closes(token: Token<'_>) -> bool {
    token.is_mark(")") || token.is_mark("]") || token.is_mark("}")
}
