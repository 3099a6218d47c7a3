//! Descriptions as they are written.

ghost use Rattle.std.specs.Prelude.{◌<◌};

use deku_tokens::place::Span;
use deku_tokens::token::Token;

/// A file of descriptions.
#[derive(Clone, Copy)]
pub struct File<'a> {
    /// The lines of the file's own comment.
    pub docs: &'a [&'a str],
    /// The paths of its `use` items, as they are written.
    pub uses: &'a [&'a str],
    /// Its constants.
    pub constants: &'a [Constant<'a>],
    /// Its structs and enums.
    pub records: &'a [Record<'a>],
}

/// A whole number with a name.
#[derive(Clone, Copy)]
pub struct Constant<'a> {
    /// Its name.
    pub name: Token<'a>,
    /// The name of its type.
    pub kind: Token<'a>,
    /// Its value.
    pub value: u64,
}

/// The comments and attributes in front of something.
#[derive(Clone, Copy)]
pub struct Head<'a> {
    /// The lines of its comment, without their slashes.
    pub docs: &'a [&'a str],
    /// What its `deku` attributes say, in their order.
    pub attributes: &'a [Attribute<'a>],
}

/// One word of a `deku` attribute, as `bits = 4`.
#[derive(Clone, Copy)]
pub struct Attribute<'a> {
    /// The word.
    pub name: Token<'a>,
    /// What follows its `=`.
    pub value: Option<Value<'a>>,
}

/// A literal after the `=` of an attribute.
#[derive(Clone, Copy)]
pub struct Value<'a> {
    /// Whether a minus is in front.
    pub is_negative: bool,
    /// The literal.
    pub token: Token<'a>,
}

/// A struct or an enum.
#[derive(Clone, Copy)]
pub struct Record<'a> {
    /// Its comments and attributes.
    pub head: Head<'a>,
    /// Its name.
    pub name: Token<'a>,
    /// What it holds.
    pub body: Body<'a>,
    /// Whether nothing was left out of it.
    pub is_whole: bool,
}

/// What a record holds.
#[derive(Clone, Copy)]
pub enum Body<'a> {
    /// A struct's fields.
    Fields(Fields<'a>),
    /// An enum's kinds.
    Kinds(&'a [Variant<'a>]),
}

/// How fields are written.
#[derive(Clone, Copy, PartialEq, Eq)]
pub enum Shape {
    /// In braces, with names.
    Named,
    /// In parentheses, without names.
    Tuple,
    /// Not at all.
    Unit,
}

/// Fields in their order.
#[derive(Clone, Copy)]
pub struct Fields<'a> {
    /// How they are written.
    pub shape: Shape,
    /// The fields.
    pub list: &'a [Field<'a>],
}

/// A field.
#[derive(Clone, Copy)]
pub struct Field<'a> {
    /// Its comments and attributes.
    pub head: Head<'a>,
    /// Its name, unless it is of a tuple.
    pub name: Option<Token<'a>>,
    /// Its type.
    pub kind: Type<'a>,
    /// Where its type is.
    pub span: Span,
}

/// A kind of an enum.
#[derive(Clone, Copy)]
pub struct Variant<'a> {
    /// Its comments and attributes.
    pub head: Head<'a>,
    /// Its name.
    pub name: Token<'a>,
    /// Its fields.
    pub fields: Fields<'a>,
    /// The number after its `=`.
    pub discriminant: Option<Value<'a>>,
}

/// A type.
#[derive(Clone, Copy)]
pub enum Type<'a> {
    /// A type by the last name of its path.
    Name(Token<'a>),
    /// `Vec`, `Option` or `Box`, by this name, of a type.
    Of(Token<'a>, &'a Type<'a>),
    /// An array, with its length.
    Array(&'a Type<'a>, Length<'a>),
    /// A tuple.
    Tuple(&'a [Type<'a>]),
}

/// The length of an array.
#[derive(Clone, Copy)]
pub enum Length<'a> {
    /// A number.
    Number(u64),
    /// A constant.
    Name(Token<'a>),
}

/// What a count or a condition computes.
#[derive(Clone, Copy)]
pub enum Expression<'a> {
    /// A whole number.
    Number(u64, Span),
    /// `true` or `false`.
    Truth(bool, Span),
    /// A field or a constant, with or without `*` or `&` in front.
    Name(Token<'a>),
    /// A field of a field.
    Part(Token<'a>, Token<'a>),
    /// What is not so.
    Not(&'a Expression<'a>),
    /// A value as another type.
    Cast(&'a Expression<'a>, Token<'a>),
    /// Two values and what is made of them.
    Both(Operator, &'a Expression<'a>, &'a Expression<'a>),
}

/// Which item is the last of its list, as `|item: &u8| *item == 0` says.
#[derive(Clone, Copy)]
pub struct Closure<'a> {
    /// What the item is called.
    pub name: Token<'a>,
    /// The name of its type.
    pub kind: Token<'a>,
    /// Whether it is the last.
    pub last: Expression<'a>,
}

/// What is made of two values.
#[derive(Clone, Copy, PartialEq, Eq)]
pub enum Operator {
    /// `||`
    Or,
    /// `&&`
    And,
    /// `==`
    Equal,
    /// `!=`
    Unequal,
    /// `<`
    Below,
    /// `<=`
    AtMost,
    /// `>`
    Above,
    /// `>=`
    AtLeast,
    /// `|`
    BitOr,
    /// `^`
    BitXor,
    /// `&`
    BitAnd,
    /// `<<`
    Left,
    /// `>>`
    Right,
    /// `+`
    Plus,
    /// `-`
    Minus,
    /// `*`
    Times,
    /// `/`
    Divided,
    /// `%`
    Remainder,
}

impl Operator {
    /// How tightly it binds, from 1.
    pub fn strength(self) -> u8
        ensures { result < 11 }
    {
        match self {
            Operator::Or => 1,
            Operator::And => 2,
            Operator::Equal
            | Operator::Unequal
            | Operator::Below
            | Operator::AtMost
            | Operator::Above
            | Operator::AtLeast => 3,
            Operator::BitOr => 4,
            Operator::BitXor => 5,
            Operator::BitAnd => 6,
            Operator::Left | Operator::Right => 7,
            Operator::Plus | Operator::Minus => 8,
            Operator::Times | Operator::Divided | Operator::Remainder => 9,
        }
    }
}
