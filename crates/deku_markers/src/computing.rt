//! What counts and conditions compute, as code and as ghost text.

use deku_attributes::reading::{bits_of, span_of};
use deku_description::syntax::{Constant, Expression, Operator};
use deku_record_parts::part::Place;
use deku_texts::refusal::Stop;
use deku_tokens::arena::Arena;
use deku_tokens::place::Span;
use deku_tokens::token::Token;
use std::alloc::AllocError;

/// How tightly a name or a number binds.
const ATOM: u8 = 10;

/// A value that is computed.
#[derive(Clone, Copy)]
pub struct Computed<'a> {
    /// It as code, where each field is a local of its name.
    pub code: &'a str,
    /// It as ghost text, where the parts are `p`.
    pub term: &'a str,
    // How tightly both bind.
    strength: u8,
    // The most that it can be, if it is a number.
    most: Option<u64>,
    // Its type, if it is one field.
    kind: Option<u64>,
}

/// What has to be known to compute a value.
#[derive(Drop)]
pub struct Computer<'c, 'a> {
    pub arena: &'a Arena,
    /// The fields in front.
    pub places: &'a [Place<'a>],
    /// The constants of the file.
    pub constants: &'c [Constant<'a>],
    /// Which fields are used.
    pub used: Vec<usize>,
    /// When there is no value, as ghost text and as code.
    pub guards: Vec<(&'a str, &'a str)>,
    /// Whether the fields have to be of one type.
    pub is_mixed: bool,
    /// What the code that reaches the fields begins with.
    pub from: &'static str,
    /// What the value is called that has the fields, if they are not named alone.
    pub owner: Option<&'a str>,
}

impl<'c, 'a> Computer<'c, 'a> {
    pub fn new(
        arena: &'a Arena,
        places: &'a [Place<'a>],
        constants: &'c [Constant<'a>],
    ) -> Computer<'c, 'a> {
        Computer {
            arena,
            places,
            constants,
            used: Vec::new(arena.alloc()),
            guards: Vec::new(arena.alloc()),
            is_mixed: false,
            from: "parts",
            owner: None,
        }
    }

    /// What an expression computes.
    pub fn value(&mut self, expression: &Expression<'a>) -> Result<Computed<'a>, Stop<'a>> {
        match expression {
            Expression::Number(number, _) => self.number(*number),
            Expression::Truth(truth, _) => {
                let text = if *truth { "true" } else { "false" };
                Ok(truth_value(text, text, ATOM))
            }
            Expression::Name(name) if self.owner == Some(name.text) => Stop::wrong(
                name.span,
                "a record in an expression",
                "compare one of its fields",
            ),
            Expression::Name(name) => self.name(name.text, name.span),
            Expression::Part(name, field) if self.owner == Some(name.text) => {
                self.name(field.text, field.span)
            }
            Expression::Part(name, _) => Stop::wrong(
                name.span,
                "a field of a field in an expression",
                "move the field into this record, or this field into that one",
            ),
            Expression::Not(value) => {
                let value = self.value(value)?;
                self.not(value, expression)
            }
            Expression::Cast(value, kind) => {
                let value = self.value(value)?;
                self.cast(value, *kind)
            }
            Expression::Both(operator, left, right) => {
                let span = span_of(right);
                let left = self.value(left)?;
                let right = self.value(right)?;
                self.both(*operator, left, right, span)
            }
        }
    }

    /// A number.
    pub fn number(&self, number: u64) -> Result<Computed<'a>, Stop<'a>> {
        let text = self.arena.print(format_args!("{number}"))?;
        Ok(Computed {
            code: text,
            term: text,
            strength: ATOM,
            most: Some(number),
            kind: None,
        })
    }

    /// A field in front, or a constant.
    pub fn name(&mut self, name: &str, span: Span) -> Result<Computed<'a>, Stop<'a>> {
        for constant in self.constants {
            if constant.name.text == name {
                return self.number(constant.value);
            }
        }
        let place = self.places.iter().position(|place| place.name == name);
        let Some(index) = place else {
            return Stop::wrong(
                span,
                "a name that is no field in front of this one",
                "move the field in front, and into this record",
            );
        };
        self.field(index, span)
    }

    fn field(&mut self, index: usize, span: Span) -> Result<Computed<'a>, Stop<'a>> {
        let Some(place) = self.places.get(index) else {
            return Err(Stop::Memory);
        };
        let bits = match place.number {
            Some(kind) if !kind.starts_with('i') && kind != "u128" => bits_of(kind),
            _ => None,
        };
        let Some(bits) = bits else {
            return Stop::wrong(
                span,
                "a field in an expression that is no number from 0 and no truth value",
                "use a field of `u8`, `u16`, `u32`, `u64` or `bool`",
            );
        };
        if !self.used.contains(&index) {
            self.used.push(index)?;
        }
        let path = place.path;
        let term = self.arena.print(format_args!("p{path}"))?;
        if place.number == Some("bool") {
            return Ok(truth_value(place.name, term, ATOM));
        }
        Ok(Computed {
            code: place.name,
            term,
            strength: ATOM,
            most: Some(most_of(bits)),
            kind: Some(bits),
        })
    }

    fn not(
        &self,
        value: Computed<'a>,
        expression: &Expression<'a>,
    ) -> Result<Computed<'a>, Stop<'a>> {
        if value.most.is_some() {
            return Stop::wrong(
                span_of(expression),
                "`!` of a number",
                "compare the number with another one",
            );
        }
        self.negated(value)
    }

    // A truth value with `!` in front.
    fn negated(&self, value: Computed<'a>) -> Result<Computed<'a>, Stop<'a>> {
        let code = argument(self.arena, value.code, value.strength)?;
        let term = argument(self.arena, value.term, value.strength)?;
        let code = self.arena.print(format_args!("!{code}"))?;
        let term = self.arena.print(format_args!("not {term}"))?;
        Ok(truth_value(code, term, 9))
    }

    // A number as another type, which has to hold it.
    fn cast(&mut self, value: Computed<'a>, kind: Token<'a>) -> Result<Computed<'a>, Stop<'a>> {
        let held = match bits_of(kind.text) {
            Some(bits) if !kind.text.starts_with('i') && kind.text != "bool" => most_of(bits),
            _ => 0,
        };
        match value.most {
            Some(most) if most <= held => {
                self.is_mixed = true;
                Ok(value)
            }
            _ => Stop::wrong(
                kind.span,
                "a type that does not hold the number",
                "write `as usize`",
            ),
        }
    }

    /// What an operator makes of two values.
    pub fn both(
        &mut self,
        operator: Operator,
        left: Computed<'a>,
        right: Computed<'a>,
        span: Span,
    ) -> Result<Computed<'a>, Stop<'a>> {
        match operator {
            Operator::Or => self.logical(("||", 1), left, right, span),
            Operator::And => self.logical(("&&", 2), left, right, span),
            Operator::Equal | Operator::Unequal if right.most.is_none() => {
                self.same_truth(operator == Operator::Equal, left, right, span)
            }
            Operator::Equal
            | Operator::Unequal
            | Operator::Below
            | Operator::AtMost
            | Operator::Above
            | Operator::AtLeast => self.compared(operator, left, right, span),
            Operator::Plus
            | Operator::Minus
            | Operator::Times
            | Operator::Divided
            | Operator::Remainder => self.reckoned(operator, left, right, span),
            Operator::BitOr
            | Operator::BitXor
            | Operator::BitAnd
            | Operator::Left
            | Operator::Right => Stop::wrong(
                span,
                "an operator on the bits of a number is not supported",
                "describe these bits as fields of their own, with `bits`",
            ),
        }
    }

    fn logical(
        &self,
        (mark, strength): (&str, u8),
        left: Computed<'a>,
        right: Computed<'a>,
        span: Span,
    ) -> Result<Computed<'a>, Stop<'a>> {
        if left.most.is_some() || right.most.is_some() {
            return Stop::wrong(
                span,
                "a number where a truth value is needed",
                "compare it with another number",
            );
        }
        let code = self.infix(
            mark,
            strength,
            (left.code, left.strength),
            (right.code, right.strength),
        )?;
        let term = self.infix(
            mark,
            strength,
            (left.term, left.strength),
            (right.term, right.strength),
        )?;
        Ok(truth_value(code, term, strength))
    }

    // Two texts and an operator between them.
    fn infix(
        &self,
        mark: &str,
        strength: u8,
        (left, left_strength): (&'a str, u8),
        (right, right_strength): (&'a str, u8),
    ) -> Result<&'a str, Stop<'a>> {
        let left = inside(self.arena, left, left_strength < strength)?;
        let right = inside(self.arena, right, right_strength <= strength)?;
        Ok(self.arena.print(format_args!("{left} {mark} {right}"))?)
    }

    // A truth value that is or is not another one.
    fn same_truth(
        &self,
        is_same: bool,
        left: Computed<'a>,
        right: Computed<'a>,
        span: Span,
    ) -> Result<Computed<'a>, Stop<'a>> {
        let is_true = right.code == "true";
        if left.most.is_some() || !is_true && right.code != "false" {
            return Stop::wrong(
                span,
                "truth values that are compared with one another",
                "write the truth value alone, or with `!` in front",
            );
        }
        if is_true == is_same {
            return Ok(truth_value(left.code, left.term, left.strength));
        }
        self.negated(left)
    }

    fn compared(
        &mut self,
        operator: Operator,
        left: Computed<'a>,
        right: Computed<'a>,
        span: Span,
    ) -> Result<Computed<'a>, Stop<'a>> {
        let (Some(_), Some(most)) = (left.most, right.most) else {
            return Stop::wrong(
                span,
                "a truth value where a number is needed",
                "write the truth value alone, or with `!` in front",
            );
        };
        self.is_mixed = self.is_mixed
            || left.kind.is_none()
            || right.kind.is_some() && left.kind != right.kind
            || right.strength < ATOM
            || right.kind.is_none() && most > most_of(left.kind.unwrap_or(64));
        let mark = mark_of(operator);
        let code = self.infix(
            mark,
            3,
            (left.code, left.strength),
            (right.code, right.strength),
        )?;
        let term = self.comparison(operator, left, right)?;
        Ok(truth_value(code, term, 3))
    }

    // A comparison in ghost text.
    fn comparison(
        &self,
        operator: Operator,
        left: Computed<'a>,
        right: Computed<'a>,
    ) -> Result<&'a str, Stop<'a>> {
        let one = argument(self.arena, left.term, left.strength)?;
        let other = argument(self.arena, right.term, right.strength)?;
        let (front, first, second, end) = match operator {
            Operator::Equal => ("nat_eq", one, other, ""),
            Operator::Unequal => ("not (nat_eq", one, other, ")"),
            Operator::Below => ("nat_lt", one, other, ""),
            Operator::AtMost => ("nat_le", one, other, ""),
            Operator::Above => ("nat_lt", other, one, ""),
            _ => ("nat_le", other, one, ""),
        };
        Ok(
            self.arena
                .print(format_args!("{front} {first} {second}{end}"))?,
        )
    }

    fn reckoned(
        &mut self,
        operator: Operator,
        left: Computed<'a>,
        right: Computed<'a>,
        span: Span,
    ) -> Result<Computed<'a>, Stop<'a>> {
        let most = match (left.most, right.most) {
            (Some(one), Some(other)) => most_made(operator, one, other),
            _ => None,
        };
        let Some(most) = most else {
            return Stop::wrong(
                span,
                "a number that may be larger than 64 bits hold, or none",
                "use fields of fewer bits",
            );
        };
        self.is_mixed = true;
        self.guard(operator, left, right)?;
        let (mark, strength) = (mark_of(operator), operator.strength());
        let (one, other) = (left.strength, right.strength);
        let code = self.infix(mark, strength, (left.code, one), (right.code, other))?;
        let term = self.infix(mark, strength, (left.term, one), (right.term, other))?;
        Ok(Computed {
            code,
            term,
            strength,
            most: Some(most),
            kind: None,
        })
    }

    // Notes when there is no difference, no quotient and no remainder.
    fn guard(
        &mut self,
        operator: Operator,
        left: Computed<'a>,
        right: Computed<'a>,
    ) -> Result<(), Stop<'a>> {
        let is_literal = right.kind.is_none() && right.strength == ATOM;
        let guard = match operator {
            Operator::Minus => self.is_below(left, right)?,
            Operator::Divided | Operator::Remainder if !is_literal => self.is_zero(right)?,
            _ => return Ok(()),
        };
        self.guards.push(guard)?;
        Ok(())
    }

    // That a number is below another one, as ghost text and as code.
    fn is_below(
        &self,
        left: Computed<'a>,
        right: Computed<'a>,
    ) -> Result<(&'a str, &'a str), Stop<'a>> {
        let (one, other) = (left.strength, right.strength);
        let code = self.infix("<", 3, (left.code, one), (right.code, other))?;
        Ok((self.comparison(Operator::Below, left, right)?, code))
    }

    // That a number is 0, as ghost text and as code.
    fn is_zero(&self, number: Computed<'a>) -> Result<(&'a str, &'a str), Stop<'a>> {
        let term = argument(self.arena, number.term, number.strength)?;
        let code = inside(self.arena, number.code, number.strength <= 3)?;
        let term = self.arena.print(format_args!("nat_eq {term} 0"))?;
        Ok((term, self.arena.print(format_args!("{code} == 0"))?))
    }
}

impl<'a> Computed<'a> {
    /// Whether it is a number.
    pub fn is_number(&self) -> bool {
        self.most.is_some()
    }
}

// A truth value.
fn truth_value<'a>(code: &'a str, term: &'a str, strength: u8) -> Computed<'a> {
    Computed {
        code,
        term,
        strength,
        most: None,
        kind: None,
    }
}

// The most that a number of so many bits can be. More than 64 bits hold is taken as that.
fn most_of(bits: u64) -> u64 {
    if bits < 64 {
        (1u64 << bits) - 1
    } else {
        u64::MAX
    }
}

// The most that an operator makes of numbers up to these, unless it may be more than 64 bits hold.
fn most_made(operator: Operator, one: u64, other: u64) -> Option<u64> {
    match operator {
        Operator::Plus => one.checked_add(other),
        Operator::Times => one.checked_mul(other),
        Operator::Divided | Operator::Remainder if other == 0 => None,
        _ => Some(one),
    }
}

fn mark_of(operator: Operator) -> &'static str {
    match operator {
        Operator::Equal => "==",
        Operator::Unequal => "!=",
        Operator::Below => "<",
        Operator::AtMost => "<=",
        Operator::Above => ">",
        Operator::AtLeast => ">=",
        Operator::Plus => "+",
        Operator::Minus => "-",
        Operator::Times => "*",
        Operator::Divided => "/",
        _ => "%",
    }
}

// A text in parentheses, if it has to be.
fn inside<'a>(arena: &'a Arena, text: &'a str, is_inside: bool) -> Result<&'a str, AllocError> {
    if is_inside {
        return arena.print(format_args!("({text})"));
    }
    Ok(text)
}

// A text as the argument of a function.
fn argument<'a>(arena: &'a Arena, text: &'a str, strength: u8) -> Result<&'a str, AllocError> {
    inside(arena, text, strength < ATOM)
}
