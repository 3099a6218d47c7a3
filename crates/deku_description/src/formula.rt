//! What counts and conditions compute, from the texts that say it.

ghost use Rattle.std.specs.Prelude.{◌≤◌, length};

use crate::cursor::{Cursor, Stop};
use crate::syntax::{Closure, Expression, Operator};
use deku_tokens::arena::Arena;
use deku_tokens::literal::integer;
use deku_tokens::place::{Complaint, Span};
use deku_tokens::token::{Kind, Token, broken_tokens, tokens};
use std::alloc::AllocError;

// How deep expressions may be in one another.
const DEPTH: usize = 32;

/// What the expression in a text of an attribute computes, or what is wrong with it.
///
/// # Errors
///
/// `AllocError` if there is no memory.
///
/// ```text
/// formula(arena, text, token)?    // of "*length * 2": the field `length` times 2
/// ```
pub fn formula<'a>(
    arena: &'a Arena,
    text: &'a str,
    token: Token<'a>,
) -> Result<Result<Expression<'a>, Complaint<'a>>, AllocError> {
    match parsed(arena, text, token) {
        Ok(expression) => Ok(Ok(expression)),
        Err(Stop::Wrong(complaint)) => Ok(Err(complaint)),
        Err(Stop::Memory) => Err(AllocError),
    }
}

/// The closure in a text of an attribute that says which item is the last, or what is wrong with
/// it.
///
/// # Errors
///
/// `AllocError` if there is no memory.
///
/// ```text
/// closure(arena, text, token)?    // of "|item: &u8| *item == 0": an item that is 0
/// ```
pub fn closure<'a>(
    arena: &'a Arena,
    text: &'a str,
    token: Token<'a>,
) -> Result<Result<Closure<'a>, Complaint<'a>>, AllocError> {
    match of_item(arena, text, token) {
        Ok(closure) => Ok(Ok(closure)),
        Err(Stop::Wrong(complaint)) => Ok(Err(complaint)),
        Err(Stop::Memory) => Err(AllocError),
    }
}

fn parsed<'a>(
    arena: &'a Arena,
    text: &'a str,
    token: Token<'a>,
) -> Result<Expression<'a>, Stop<'a>> {
    parser_of(arena, text, token)?.whole()
}

fn of_item<'a>(arena: &'a Arena, text: &'a str, token: Token<'a>) -> Result<Closure<'a>, Stop<'a>> {
    let mut parser = parser_of(arena, text, token)?;
    let Some((name, kind)) = parser.parameter() else {
        return Stop::wrong(
            token.span,
            "an end that is no closure of one item",
            "write `until = \"|item: &u8| *item == 0\"`",
        );
    };
    let last = parser.whole()?;
    Ok(Closure { name, kind, last })
}

// A parser of what is in a text of an attribute.
fn parser_of<'a>(
    arena: &'a Arena,
    text: &'a str,
    token: Token<'a>,
) -> Result<Parser<'a>, Stop<'a>> {
    let part = inside(text, token);
    let tokens = arena.list(tokens(arena.alloc(), text, part)?.as_slice())?;
    if let Some(complaint) = broken_tokens(arena.alloc(), tokens)?.pop() {
        return Err(Stop::Wrong(complaint));
    }
    let end = Span {
        start: part.end,
        end: part.end,
    };
    Ok(Parser {
        cursor: Cursor::new(arena, tokens, end),
        value: Expression::Number(0, end),
    })
}

// The part of a text between a token's quotes, or all of a number.
fn inside(text: &str, token: Token<'_>) -> Span
    ensures ordered { result.start ≤ result.end }
    ensures within { result.end ≤ length text.now }
{
    let (start, end) = if token.kind == Kind::Text {
        (
            token.span.start.saturating_add(1),
            token.span.end.saturating_sub(1),
        )
    } else {
        (token.span.start, token.span.end)
    };
    let end = end.min(text.len());
    Span {
        start: start.min(end),
        end,
    }
}

#[derive(Drop)]
struct Parser<'a> {
    cursor: Cursor<'a>,
    // What is parsed of the innermost expression.
    value: Expression<'a>,
}

impl<'a> Parser<'a> {
    // An expression up to the end.
    fn whole(&mut self) -> Result<Expression<'a>, Stop<'a>> {
        let expression = self.expression(DEPTH, 1)?;
        if self.cursor.peek().is_some() {
            return self.cursor.expected("an operator");
        }
        Ok(expression)
    }

    // The one parameter of a closure, and the type that it borrows.
    fn parameter(&mut self) -> Option<(Token<'a>, Token<'a>)> {
        let is_open = self.cursor.take_mark("|");
        let name = self.cursor.next()?;
        let is_borrowed = self.cursor.take_mark(":") && self.cursor.take_mark("&");
        let kind = self.cursor.next()?;
        let is_closed = self.cursor.take_mark("|");
        let are_names = name.kind == Kind::Name && kind.kind == Kind::Name;
        if is_open && is_borrowed && is_closed && are_names {
            Some((name, kind))
        } else {
            None
        }
    }

    // Operands and the operators between them that bind at least as tightly as is said.
    #[cycle(expression)]
    fn expression(&mut self, depth: usize, least: u8) -> Result<Expression<'a>, Stop<'a>> {
        if depth == 0 {
            return Stop::wrong(
                self.cursor.here(),
                "an expression in more than 32 others",
                "write it with fewer parentheses",
            );
        }
        self.value = self.operand(depth - 1)?;
        for _ in 0..self.cursor.left() {
            if !self.joined(depth - 1, least)? {
                break;
            }
        }
        Ok(self.value)
    }

    // Makes one of the value and of what follows it after an operator that binds at least as
    // tightly as is said. Whether there is one.
    #[cycle(expression)]
    fn joined(&mut self, depth: usize, least: u8) -> Result<bool, Stop<'a>> {
        let Some(operator) = self.operator(least) else {
            return Ok(false);
        };
        let arena = self.cursor.arena();
        let left = arena.one(self.value)?;
        let right = self.expression(depth, operator.strength() + 1)?;
        self.value = Expression::Both(operator, left, arena.one(right)?);
        Ok(true)
    }

    // A value, with what is in front of it and the types that follow it.
    #[cycle(expression)]
    fn operand(&mut self, depth: usize) -> Result<Expression<'a>, Stop<'a>> {
        self.value = self.prefixed(depth)?;
        for _ in 0..self.cursor.left() {
            if !self.cast()? {
                break;
            }
        }
        Ok(self.value)
    }

    // A value, with what is in front of it.
    #[cycle(expression)]
    fn prefixed(&mut self, depth: usize) -> Result<Expression<'a>, Stop<'a>> {
        if self.cursor.take_mark("(") {
            let value = self.expression(depth, 1)?;
            self.cursor.mark(")")?;
            Ok(value)
        } else if self.cursor.take_mark("!") {
            let value = self.expression(depth, 10)?;
            Ok(Expression::Not(self.cursor.arena().one(value)?))
        } else if self.cursor.take_mark("*") || self.cursor.take_mark("&") {
            self.expression(depth, 10)
        } else {
            self.simple()
        }
    }

    // Makes the value another type, if one follows it. Whether one does.
    fn cast(&mut self) -> Result<bool, Stop<'a>> {
        if !self.cursor.take_name("as") {
            return Ok(false);
        }
        let kind = self.cursor.token(Kind::Name, "a type of numbers")?;
        self.value = Expression::Cast(self.cursor.arena().one(self.value)?, kind);
        Ok(true)
    }

    // A number, a truth value, or a name.
    fn simple(&mut self) -> Result<Expression<'a>, Stop<'a>> {
        let Some(token) = self.cursor.peek() else {
            return self.cursor.expected("a field, a constant or a number");
        };
        match token.kind {
            Kind::Integer => self.number(token),
            Kind::Name if token.text == "true" || token.text == "false" => {
                self.cursor.next();
                Ok(Expression::Truth(token.text == "true", token.span))
            }
            Kind::Name => self.name(token),
            _ => self.cursor.expected("a field, a constant or a number"),
        }
    }

    fn number(&mut self, token: Token<'a>) -> Result<Expression<'a>, Stop<'a>> {
        self.cursor.next();
        match integer(token.text) {
            Some(value) => Ok(Expression::Number(value, token.span)),
            None => Stop::wrong(
                token.span,
                "a number that does not fit 64 bits",
                "write a number of at most 64 bits",
            ),
        }
    }

    // A field or a constant, or a field of a field.
    fn name(&mut self, token: Token<'a>) -> Result<Expression<'a>, Stop<'a>> {
        self.cursor.next();
        let value = if self.cursor.take_mark(".") {
            let part = self.cursor.token(Kind::Name, "the name of a field")?;
            Expression::Part(token, part)
        } else {
            Expression::Name(token)
        };
        if self.cursor.is_mark("(") || self.cursor.is_mark("::") {
            return Stop::wrong(
                token.span,
                "a call or a path in an expression",
                "write it with fields, constants and operators alone",
            );
        }
        Ok(value)
    }

    // Takes an operator if it binds at least as tightly as is said.
    fn operator(&mut self, least: u8) -> Option<Operator> {
        let (operator, len) = self.next_operator()?;
        if operator.strength() < least {
            return None;
        }
        self.cursor.next();
        if len > 1 {
            self.cursor.next();
        }
        Some(operator)
    }

    // The operator that is next, and how many tokens it has.
    fn next_operator(&self) -> Option<(Operator, usize)> {
        let token = self.cursor.peek()?;
        if token.kind != Kind::Mark {
            return None;
        }
        if token.text == "<" && self.is_doubled(token, "<") {
            return Some((Operator::Left, 2));
        }
        if token.text == ">" && self.is_doubled(token, ">") {
            return Some((Operator::Right, 2));
        }
        Some((operator_of(token.text)?, 1))
    }

    // Whether the same mark follows at once.
    fn is_doubled(&self, token: Token<'a>, mark: &str) -> bool {
        match self.cursor.peek_second() {
            Some(second) => second.is_mark(mark) && second.span.start == token.span.end,
            None => false,
        }
    }
}

fn operator_of(mark: &str) -> Option<Operator> {
    match mark {
        "||" => Some(Operator::Or),
        "&&" => Some(Operator::And),
        "==" => Some(Operator::Equal),
        "!=" => Some(Operator::Unequal),
        "<" => Some(Operator::Below),
        "<=" => Some(Operator::AtMost),
        ">" => Some(Operator::Above),
        ">=" => Some(Operator::AtLeast),
        "|" => Some(Operator::BitOr),
        "^" => Some(Operator::BitXor),
        "&" => Some(Operator::BitAnd),
        "+" => Some(Operator::Plus),
        "-" => Some(Operator::Minus),
        "*" => Some(Operator::Times),
        "/" => Some(Operator::Divided),
        "%" => Some(Operator::Remainder),
        _ => None,
    }
}
