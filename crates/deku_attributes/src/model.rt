//! Descriptions after they are checked.

use deku_description::syntax::{Closure, Constant, Expression, Shape, Type};
use deku_tokens::place::Span;
use deku_tokens::token::Token;

/// A file of records that can be printed.
#[derive(Clone, Copy)]
pub struct Module<'a> {
    /// The lines of its comment.
    pub docs: &'a [&'a str],
    /// The paths of its `use` items.
    pub uses: &'a [&'a str],
    /// Its constants.
    pub constants: &'a [Constant<'a>],
    /// Its records, in their order.
    pub records: &'a [Record<'a>],
}

/// A record.
#[derive(Clone, Copy)]
pub struct Record<'a> {
    /// Its name.
    pub name: Token<'a>,
    /// The lines of its comment.
    pub docs: &'a [&'a str],
    /// The endian and the bit order that it gives to its fields.
    pub layout: Layout<'a>,
    /// The bytes that it begins with.
    pub magic: Option<&'a [u8]>,
    /// The text of its context, with its quotes.
    pub context: Option<Token<'a>>,
    /// What it holds.
    pub form: Form<'a>,
    /// Whether nothing was left out of it, since something was wrong with its form.
    pub is_whole: bool,
}

/// What a record holds.
#[derive(Clone, Copy)]
pub enum Form<'a> {
    /// Fields, and how they are written.
    Struct(Shape, &'a [Field<'a>]),
    /// Kinds under an id.
    Enum(Ids<'a>, &'a [Case<'a>]),
}

/// How the id of an enum is laid out.
#[derive(Clone, Copy)]
pub struct Ids<'a> {
    /// Where it comes from.
    pub source: IdSource<'a>,
    /// Its endian and bit order.
    pub layout: Layout<'a>,
    /// Its bits.
    pub bits: u64,
}

/// Where the id of an enum comes from.
#[derive(Clone, Copy)]
pub enum IdSource<'a> {
    /// It is in front, of this type of numbers.
    Front(&'a str),
    /// It is this value of the context.
    Context(Token<'a>),
}

/// A kind of an enum.
#[derive(Clone, Copy)]
pub struct Case<'a> {
    /// Its name.
    pub name: Token<'a>,
    /// The lines of its comment.
    pub docs: &'a [&'a str],
    /// The id that it is under.
    pub id: Id,
    /// How its fields are written.
    pub shape: Shape,
    /// Its fields.
    pub fields: &'a [Field<'a>],
}

/// The ids of a kind.
#[derive(Clone, Copy, PartialEq, Eq)]
pub enum Id {
    /// One.
    Number(u64),
    /// Those from one up to another.
    Range(u64, u64),
    /// Those of a pattern that has no part: no module is printed then.
    Pattern,
    /// All that no other kind is under.
    Rest,
}

/// How the bits of numbers are laid out.
#[derive(Clone, Copy)]
pub struct Layout<'a> {
    /// Their byte order.
    pub endian: Endian<'a>,
    /// Their bit order.
    pub order: Order,
}

/// A byte order.
#[derive(Clone, Copy)]
pub enum Endian<'a> {
    /// None is said.
    Unsaid,
    /// The lowest byte first.
    Little,
    /// The highest byte first.
    Big,
    /// What a value of the context or a former field says.
    Named(Token<'a>),
}

/// A bit order.
#[derive(Clone, Copy, PartialEq, Eq)]
pub enum Order {
    /// The highest bit first.
    Msb,
    /// The lowest bit first.
    Lsb,
}

/// A field.
#[derive(Clone, Copy)]
pub struct Field<'a> {
    /// Its name, unless it is of a tuple.
    pub name: Option<Token<'a>>,
    /// The lines of its comment.
    pub docs: &'a [&'a str],
    /// Its type.
    pub kind: Type<'a>,
    /// Where its type is.
    pub span: Span,
    /// Its endian and bit order.
    pub layout: Layout<'a>,
    /// The bits of each of its numbers, if they are fewer than those of the type.
    pub bits: Option<u64>,
    /// What else is said of it, in the order of the description.
    pub attributes: &'a [Attribute<'a>],
    /// Whether nothing is wrong with it.
    pub is_sound: bool,
}

/// What is said of a field besides its endian, its bit order and a width that is a number.
#[derive(Clone, Copy)]
pub enum Attribute<'a> {
    /// `bits` by an expression.
    Bits(Expression<'a>),
    /// `bytes` by an expression.
    Bytes(Expression<'a>),
    /// `magic`
    Magic(&'a [u8]),
    /// `ctx`, as its text with quotes.
    Context(Token<'a>),
    /// `assert`
    Assert(Expression<'a>),
    /// `assert_eq`
    AssertEq(Expression<'a>),
    /// `count`
    Count(Expression<'a>),
    /// `bits_read`
    BitsRead(Expression<'a>),
    /// `bytes_read`
    BytesRead(Expression<'a>),
    /// `until`
    Until(Closure<'a>),
    /// `read_all`
    ReadAll,
    /// `cond`
    Cond(Expression<'a>),
    /// `pad_bits_before`, or `pad_bytes_before` in bits.
    PadBefore(u64),
    /// `pad_bits_after`, or `pad_bytes_after` in bits.
    PadAfter(u64),
    /// `temp`
    Temp,
    /// `temp_value`
    TempValue(Token<'a>),
    /// `update`
    Update(Token<'a>),
}
