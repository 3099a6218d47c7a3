//! Descriptions from their tokens.

ghost use Rattle.std.specs.Prelude.{◌≤◌};

use crate::cursor::{Cursor, Stop};
use crate::syntax::{
    Attribute, Body, Constant, Field, Fields, File, Head, Length, Record, Shape, Type, Value,
    Variant,
};
use deku_tokens::arena::Arena;
use deku_tokens::literal::integer;
use deku_tokens::place::{Complaint, Span};
use deku_tokens::token::{Kind, Token, broken_tokens, tokens};
use std::alloc::AllocError;

// How deep types may be in one another.
const DEPTH: usize = 32;
// The first words of items and statements that describe nothing.
const OTHERS: [&str; 9] = [
    "extern", "fn", "impl", "let", "mod", "static", "trait", "type", "unsafe",
];

/// The description that a text holds, with what is wrong with its form. A part that is wrong is
/// left out, and what follows it is parsed.
///
/// # Errors
///
/// `AllocError` if there is no memory.
///
/// ```text
/// parse(&arena, "struct Point { x: i16, y: i16 }")?    // one record, no complaint
/// ```
pub fn parse<'a>(
    arena: &'a Arena,
    text: &'a str,
) -> Result<(File<'a>, Vec<Complaint<'a>>), AllocError> {
    let alloc = arena.alloc();
    let whole = Span {
        start: 0,
        end: text.len(),
    };
    let tokens = arena.list(tokens(alloc, text, whole)?.as_slice())?;
    let complaints = broken_tokens(alloc, tokens)?;
    if complaints.is_empty() {
        return parsed(arena, text, tokens);
    }
    let nothing = File {
        docs: &[],
        uses: &[],
        constants: &[],
        records: &[],
    };
    Ok((nothing, complaints))
}

// The description that the tokens of a text are.
fn parsed<'a>(
    arena: &'a Arena,
    text: &'a str,
    tokens: &'a [Token<'a>],
) -> Result<(File<'a>, Vec<Complaint<'a>>), AllocError> {
    let end = Span {
        start: text.len(),
        end: text.len(),
    };
    let alloc = arena.alloc();
    let mut parser = Parser {
        text,
        cursor: Cursor::new(arena, tokens, end),
        docs: Vec::new(alloc),
        uses: Vec::new(alloc),
        constants: Vec::new(alloc),
        records: Vec::new(alloc),
        complaints: Vec::new(alloc),
    };
    let file = parser.file()?;
    let Parser { complaints, .. } = parser;
    Ok((file, complaints))
}

#[derive(Drop)]
struct Parser<'a> {
    text: &'a str,
    cursor: Cursor<'a>,
    // What is parsed of the file.
    docs: Vec<&'a str>,
    uses: Vec<&'a str>,
    constants: Vec<Constant<'a>>,
    records: Vec<Record<'a>>,
    complaints: Vec<Complaint<'a>>,
}

impl<'a> Parser<'a> {
    fn file(&mut self) -> Result<File<'a>, AllocError> {
        self.items()?;
        let arena = self.cursor.arena();
        Ok(File {
            docs: arena.list(self.docs.as_slice())?,
            uses: arena.list(self.uses.as_slice())?,
            constants: arena.list(self.constants.as_slice())?,
            records: arena.list(self.records.as_slice())?,
        })
    }

    // All items, which are kept.
    fn items(&mut self) -> Result<(), AllocError> {
        for _ in 0..self.cursor.left() {
            if self.cursor.peek().is_none() {
                break;
            }
            let item = self.item();
            if self.noted(item)?.is_none() {
                self.skip_item();
            }
        }
        Ok(())
    }

    // What was parsed, or `None` after its complaint is noted.
    fn noted<T: Copy>(&mut self, parsed: Result<T, Stop<'a>>) -> Result<Option<T>, AllocError> {
        match parsed {
            Ok(value) => Ok(Some(value)),
            Err(Stop::Wrong(complaint)) => {
                self.complaints.push(complaint)?;
                Ok(None)
            }
            Err(Stop::Memory) => Err(AllocError),
        }
    }

    // Skips up to the end of an item.
    fn skip_item(&mut self) {
        for _ in 0..self.cursor.left() {
            let is_last = self.cursor.is_mark("{")
                || self.cursor.is_mark(";")
                || self.cursor.is_mark("}");
            self.cursor.skip_tree();
            if is_last {
                break;
            }
        }
    }

    fn item(&mut self) -> Result<(), Stop<'a>> {
        if let Some(token) = self.cursor.peek() {
            if token.kind == Kind::InnerDoc {
                self.cursor.next();
                self.docs.push(after(token.text, "//!"))?;
                return Ok(());
            }
        }
        let head = self.head()?;
        self.visibility();
        if self.cursor.take_name("use") {
            self.path()
        } else if self.cursor.take_name("const") {
            self.constant()
        } else if self.cursor.take_name("struct") {
            self.structure(head)
        } else if self.cursor.take_name("enum") {
            self.enumeration(head)
        } else if self.is_other_item() {
            self.skip_item();
            Ok(())
        } else {
            self.cursor.expected("`use`, `const`, `struct` or `enum`")
        }
    }

    // Whether an item or a statement of Rust is next that describes nothing.
    fn is_other_item(&self) -> bool {
        let is_macro = match self.cursor.peek_second() {
            Some(token) => token.is_mark("!"),
            None => false,
        };
        is_macro || OTHERS.iter().any(|word| self.cursor.is_name(word))
    }

    // The path of a `use`: the text up to a semicolon.
    fn path(&mut self) -> Result<(), Stop<'a>> {
        let start = self.cursor.here().start;
        for _ in 0..self.cursor.left() {
            let end = self.cursor.here().start;
            if self.cursor.take_mark(";") {
                self.uses.push(self.text.get(start..end).unwrap_or(""))?;
                return Ok(());
            }
            self.cursor.next();
        }
        self.cursor.expected("`;`")
    }

    fn constant(&mut self) -> Result<(), Stop<'a>> {
        let name = self.cursor.token(Kind::Name, "a name")?;
        self.cursor.mark(":")?;
        let kind = self.cursor.token(Kind::Name, "a type of numbers")?;
        self.cursor.mark("=")?;
        let token = self.cursor.token(Kind::Integer, "a whole number")?;
        self.cursor.mark(";")?;
        let value = number(token)?;
        self.constants.push(Constant { name, kind, value })?;
        Ok(())
    }

    // `pub`, with or without where.
    fn visibility(&mut self) {
        if self.cursor.take_name("pub") && self.cursor.is_mark("(") {
            self.cursor.skip_tree();
        }
    }

    // Comments and attributes.
    fn head(&mut self) -> Result<Head<'a>, Stop<'a>> {
        let arena = self.cursor.arena();
        let mut docs = Vec::new(arena.alloc());
        let mut attributes = Vec::new(arena.alloc());
        self.list_head(&mut docs, &mut attributes)?;
        Ok(Head {
            docs: arena.list(docs.as_slice())?,
            attributes: arena.list(attributes.as_slice())?,
        })
    }

    // Adds the lines of comments, and what attributes say.
    fn list_head(
        &mut self,
        docs: &mut Vec<&'a str>,
        attributes: &mut Vec<Attribute<'a>>,
    ) -> Result<(), Stop<'a>> {
        for _ in 0..self.cursor.left() {
            match self.cursor.peek() {
                Some(token) if token.kind == Kind::Doc => {
                    self.cursor.next();
                    docs.push(after(token.text, "///"))?;
                }
                Some(token) if token.is_mark("#") => self.attribute(attributes)?,
                _ => break,
            }
        }
        Ok(())
    }

    // An attribute, which says something if it is deku's.
    fn attribute(&mut self, attributes: &mut Vec<Attribute<'a>>) -> Result<(), Stop<'a>> {
        self.cursor.mark("#")?;
        self.cursor.take_mark("!");
        let is_deku = match self.cursor.peek_second() {
            Some(token) => self.cursor.is_mark("[") && token.is_name("deku"),
            None => false,
        };
        if !is_deku {
            self.cursor.skip_tree();
            return Ok(());
        }
        self.cursor.next();
        self.cursor.next();
        self.cursor.mark("(")?;
        self.words(attributes)?;
        self.cursor.mark("]")
    }

    // The words of an attribute, up to the parenthesis after them.
    fn words(&mut self, attributes: &mut Vec<Attribute<'a>>) -> Result<(), Stop<'a>> {
        for _ in 0..self.cursor.left() {
            if self.cursor.take_mark(")") {
                return Ok(());
            }
            let name = self.cursor.token(Kind::Name, "the name of an attribute")?;
            let value = if self.cursor.take_mark("=") {
                Some(self.value()?)
            } else {
                None
            };
            attributes.push(Attribute { name, value })?;
            if !self.cursor.take_mark(",") {
                return self.cursor.mark(")");
            }
        }
        self.cursor.expected("`)`")
    }

    // A literal.
    fn value(&mut self) -> Result<Value<'a>, Stop<'a>> {
        let is_negative = self.cursor.take_mark("-");
        match self.cursor.peek() {
            Some(token) if is_literal(token) => {
                self.cursor.next();
                Ok(Value { is_negative, token })
            }
            _ => self.cursor.expected("a number or a text in quotes"),
        }
    }

    fn structure(&mut self, head: Head<'a>) -> Result<(), Stop<'a>> {
        let before = self.complaints.len();
        let name = self.record_name()?;
        let fields = self.fields()?;
        if fields.shape != Shape::Named {
            self.cursor.mark(";")?;
        }
        self.record(head, name, Body::Fields(fields), before)
    }

    fn enumeration(&mut self, head: Head<'a>) -> Result<(), Stop<'a>> {
        let before = self.complaints.len();
        let name = self.record_name()?;
        self.cursor.mark("{")?;
        let kinds = self.kind_list()?;
        self.record(head, name, Body::Kinds(kinds), before)
    }

    // Adds a record, before which there were so many complaints.
    fn record(
        &mut self,
        head: Head<'a>,
        name: Token<'a>,
        body: Body<'a>,
        before: usize,
    ) -> Result<(), Stop<'a>> {
        self.records.push(Record {
            head,
            name,
            body,
            is_whole: self.complaints.len() == before,
        })?;
        Ok(())
    }

    fn kind_list(&mut self) -> Result<&'a [Variant<'a>], Stop<'a>> {
        let arena = self.cursor.arena();
        let mut kinds = Vec::new(arena.alloc());
        self.list_kinds(&mut kinds)?;
        Ok(arena.list(kinds.as_slice())?)
    }

    // Adds the kinds up to a brace.
    fn list_kinds(&mut self, kinds: &mut Vec<Variant<'a>>) -> Result<(), Stop<'a>> {
        for _ in 0..self.cursor.left() {
            if self.cursor.take_mark("}") {
                break;
            }
            let variant = self.variant();
            match self.noted(variant)? {
                Some(variant) => kinds.push(variant)?,
                None => self.skip_part("}"),
            }
            if !self.cursor.take_mark(",") {
                return self.cursor.mark("}");
            }
        }
        Ok(())
    }

    // The name of a record, which takes no types or lifetimes.
    fn record_name(&mut self) -> Result<Token<'a>, Stop<'a>> {
        let name = self.cursor.token(Kind::Name, "a name")?;
        if self.cursor.is_mark("<") {
            return Stop::wrong(
                self.cursor.here(),
                "a record with types or lifetimes of its own",
                "write a record for each type that it is used with, and own what it borrows",
            );
        }
        Ok(name)
    }

    fn variant(&mut self) -> Result<Variant<'a>, Stop<'a>> {
        let head = self.head()?;
        let name = self.cursor.token(Kind::Name, "the name of a kind")?;
        let fields = self.fields()?;
        let discriminant = if self.cursor.take_mark("=") {
            Some(self.value()?)
        } else {
            None
        };
        Ok(Variant {
            head,
            name,
            fields,
            discriminant,
        })
    }

    // Fields in braces, in parentheses, or none.
    fn fields(&mut self) -> Result<Fields<'a>, Stop<'a>> {
        if self.cursor.take_mark("{") {
            return self.field_list(Shape::Named, "}");
        }
        if self.cursor.take_mark("(") {
            return self.field_list(Shape::Tuple, ")");
        }
        Ok(Fields {
            shape: Shape::Unit,
            list: &[],
        })
    }

    fn field_list(&mut self, shape: Shape, close: &str) -> Result<Fields<'a>, Stop<'a>> {
        let arena = self.cursor.arena();
        let mut list = Vec::new(arena.alloc());
        self.list_fields(&mut list, shape, close)?;
        Ok(Fields {
            shape,
            list: arena.list(list.as_slice())?,
        })
    }

    // Adds the fields up to a mark.
    fn list_fields(
        &mut self,
        list: &mut Vec<Field<'a>>,
        shape: Shape,
        close: &str,
    ) -> Result<(), Stop<'a>> {
        for _ in 0..self.cursor.left() {
            if self.cursor.take_mark(close) {
                return Ok(());
            }
            let field = self.field(shape);
            match self.noted(field)? {
                Some(field) => list.push(field)?,
                None => self.skip_part(close),
            }
            if !self.cursor.take_mark(",") {
                return self.cursor.mark(close);
            }
        }
        self.cursor.mark(close)
    }

    // Skips up to a comma, or to the end of what the part is in.
    fn skip_part(&mut self, close: &str) {
        let mut depth = 0usize;
        for _ in 0..self.cursor.left() {
            let is_end = self.cursor.is_mark(close) || depth == 0 && self.cursor.is_mark(",");
            if is_end {
                break;
            }
            if self.cursor.is_mark("<") {
                depth = depth.saturating_add(1);
            } else if self.cursor.is_mark(">") {
                depth = depth.saturating_sub(1);
            }
            self.cursor.skip_tree();
        }
    }

    fn field(&mut self, shape: Shape) -> Result<Field<'a>, Stop<'a>> {
        let head = self.head()?;
        self.visibility();
        let name = if shape == Shape::Named {
            let name = self.cursor.token(Kind::Name, "the name of a field")?;
            self.cursor.mark(":")?;
            Some(name)
        } else {
            None
        };
        let start = self.cursor.here().start;
        let kind = self.kind(DEPTH)?;
        let span = Span {
            start,
            end: self.cursor.last().end,
        };
        Ok(Field {
            head,
            name,
            kind,
            span,
        })
    }

    // A type in at most so many others.
    #[cycle(kind)]
    fn kind(&mut self, depth: usize) -> Result<Type<'a>, Stop<'a>> {
        if depth == 0 {
            return Stop::wrong(
                self.cursor.here(),
                "a type in more than 32 others",
                "give a part of it a name, as a record of its own",
            );
        }
        if self.cursor.take_mark("[") {
            self.array(depth - 1)
        } else if self.cursor.take_mark("(") {
            self.tuple(depth - 1)
        } else {
            self.named(depth - 1)
        }
    }

    #[cycle(kind)]
    fn array(&mut self, depth: usize) -> Result<Type<'a>, Stop<'a>> {
        let item = self.kind(depth)?;
        if !self.cursor.is_mark(";") {
            return Stop::wrong(
                self.cursor.here(),
                "a list that borrows its items",
                "write `Vec` with `count`, or an array with its length",
            );
        }
        self.cursor.mark(";")?;
        let length = self.length()?;
        self.cursor.mark("]")?;
        Ok(Type::Array(self.cursor.arena().one(item)?, length))
    }

    fn length(&mut self) -> Result<Length<'a>, Stop<'a>> {
        match self.cursor.peek() {
            Some(token) if token.kind == Kind::Name => {
                self.cursor.next();
                Ok(Length::Name(token))
            }
            _ => {
                let token = self.cursor.token(Kind::Integer, "a length")?;
                Ok(Length::Number(number(token)?))
            }
        }
    }

    // A tuple, or a type in parentheses.
    #[cycle(kind)]
    fn tuple(&mut self, depth: usize) -> Result<Type<'a>, Stop<'a>> {
        let arena = self.cursor.arena();
        let mut parts = Vec::new(arena.alloc());
        let has_comma = self.list_parts(&mut parts, depth)?;
        match parts.as_slice() {
            [part] if !has_comma => Ok(*part),
            parts => Ok(Type::Tuple(arena.list(parts)?)),
        }
    }

    // Adds the types up to a parenthesis. Returns whether a comma follows the last of them.
    #[cycle(kind)]
    fn list_parts(&mut self, parts: &mut Vec<Type<'a>>, depth: usize) -> Result<bool, Stop<'a>> {
        for _ in 0..self.cursor.left() {
            if self.cursor.take_mark(")") {
                return Ok(true);
            }
            parts.push(self.kind(depth)?)?;
            if !self.cursor.take_mark(",") {
                self.cursor.mark(")")?;
                return Ok(false);
            }
        }
        self.cursor.expected("`)`")
    }

    // A type by its name, with a type in it if it is `Vec`, `Option` or `Box`.
    #[cycle(kind)]
    fn named(&mut self, depth: usize) -> Result<Type<'a>, Stop<'a>> {
        let name = self.type_name()?;
        if !self.cursor.is_mark("<") {
            return Ok(Type::Name(name));
        }
        if !(name.is_name("Vec") || name.is_name("Option") || name.is_name("Box")) {
            return Stop::wrong(
                name.span,
                "a type of other types that is not supported",
                "write `Vec`, `Option`, `Box`, or a record of its own",
            );
        }
        self.cursor.mark("<")?;
        let item = self.kind(depth)?;
        self.cursor.mark(">")?;
        Ok(Type::Of(name, self.cursor.arena().one(item)?))
    }

    // The last name of a path.
    fn type_name(&mut self) -> Result<Token<'a>, Stop<'a>> {
        let mut name = self.cursor.token(Kind::Name, "a type")?;
        for _ in 0..self.cursor.left() {
            if !self.cursor.take_mark("::") {
                break;
            }
            name = self.cursor.token(Kind::Name, "a name")?;
        }
        Ok(name)
    }
}

fn number<'a>(token: Token<'a>) -> Result<u64, Stop<'a>> {
    match integer(token.text) {
        Some(value) => Ok(value),
        None => Stop::wrong(
            token.span,
            "a number that does not fit 64 bits",
            "write a number of at most 64 bits",
        ),
    }
}

// Whether a token may be the value of an attribute.
fn is_literal(token: Token<'_>) -> bool {
    match token.kind {
        Kind::Integer | Kind::Text | Kind::Bytes | Kind::Byte => true,
        Kind::Name => token.text == "true" || token.text == "false",
        _ => false,
    }
}

// A line of a comment without the marks in front.
fn after<'a>(text: &'a str, marks: &str) -> &'a str {
    text.strip_prefix(marks).unwrap_or(text)
}
