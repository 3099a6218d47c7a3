//! Texts on one line where there is room, or with a line for each item, as `rt fmt` lays them out.

use deku_tokens::arena::Arena;
use std::alloc::AllocError;

// The columns of a line.
const WIDTH: usize = 100;

// Items of an array or a tuple that have at most as many share lines.
const PACKED: usize = 10;

/// A word, which is never broken, or items in brackets.
#[derive(Clone, Copy)]
pub struct Text<'a> {
    form: Form,
    // The word, or what is in front of the items, with the bracket.
    open: &'a str,
    items: &'a [Text<'a>],
}

/// What the brackets of a text are.
#[derive(Clone, Copy, PartialEq, Eq)]
pub enum Form {
    /// It has none: it is a word.
    Word,
    /// `name(a, b)`, or a tuple.
    Round,
    /// The same in a pattern.
    Pattern,
    /// `[a, b]`
    Square,
    /// `Name<A, B>`
    Angle,
    /// `Name { a, b }`
    Brace,
    /// `Name { a: A, b: B }` of a kind.
    Variant,
    /// `(a, b)` in ghost text.
    GhostRound,
    /// `record { a; b }`
    GhostBrace,
}

impl Form {
    fn close(self) -> &'static str {
        match self {
            Form::Word => "",
            Form::Round | Form::Pattern | Form::GhostRound => ")",
            Form::Square => "]",
            Form::Angle => ">",
            Form::Brace | Form::Variant | Form::GhostBrace => "}",
        }
    }

    fn separator(self) -> &'static str {
        match self {
            Form::GhostBrace => ";",
            _ => ",",
        }
    }

    fn is_spaced(self) -> bool {
        self == Form::Brace || self == Form::Variant || self == Form::GhostBrace
    }

    // The columns of the items, if they are on one line.
    fn room(self) -> usize {
        match self {
            Form::Round | Form::Square => 60,
            Form::Brace => 18,
            Form::Variant => 35,
            _ => WIDTH,
        }
    }

    // How much further the items are indented.
    fn step(self) -> usize {
        match self {
            Form::GhostRound | Form::GhostBrace => 2,
            _ => 4,
        }
    }
}

impl<'a> Text<'a> {
    /// A word.
    pub fn of(text: &'a str) -> Text<'a> {
        Text {
            form: Form::Word,
            open: text,
            items: &[],
        }
    }

    /// Items after what is in front of them, such as `Msb(`.
    pub fn group(form: Form, open: &'a str, items: &'a [Text<'a>]) -> Text<'a> {
        Text { form, open, items }
    }

    /// One item after what is in front of it.
    pub fn one(
        arena: &'a Arena,
        form: Form,
        open: &'a str,
        item: Text<'a>,
    ) -> Result<Text<'a>, AllocError> {
        Ok(Text::group(form, open, arena.list(&[item])?))
    }

    /// It with a text in front.
    pub fn after(self, arena: &'a Arena, front: &str) -> Result<Text<'a>, AllocError> {
        let open = joined(arena, front, self.open)?;
        Ok(Text { open, ..self })
    }

    /// Its word, if it is one.
    pub fn as_word(&self) -> Option<&'a str> {
        if self.form == Form::Word {
            Some(self.open)
        } else {
            None
        }
    }

    /// How many columns it has on one line.
    pub fn columns(&self) -> usize {
        let mut columns = self.around();
        for item in self.items {
            columns = columns.saturating_add(item.columns()).saturating_add(2);
        }
        if self.items.is_empty() {
            columns
        } else {
            columns.saturating_sub(2)
        }
    }

    /// Appends it on one line.
    pub fn line(&self, out: &mut String) -> Result<(), AllocError> {
        out.push_str(self.open)?;
        for (i, item) in self.items.iter().enumerate() {
            if i > 0 {
                out.push_str(self.form.separator())?;
            }
            if i > 0 || self.form.is_spaced() {
                out.push(' ')?;
            }
            item.line(out)?;
        }
        out.push_str(self.end())
    }

    /// Appends it on one line if it and what follows it have room there; otherwise with a line for
    /// each item, indented as far as is said.
    pub fn print(
        &self,
        out: &mut String,
        indent: usize,
        after: usize,
        is_split: bool,
    ) -> Result<(), AllocError> {
        if self.items.is_empty() || !is_split && self.is_line(out.as_str(), after) {
            return self.line(out);
        }
        out.push_str(self.open)?;
        if self.is_packed() {
            return self.pack(out, indent);
        }
        let end = column(out.as_str());
        let is_wide = |it: &Text<'_>| end.saturating_add(it.open.chars().count()) > WIDTH;
        let is_call = self.is_call()
            && (self.form == Form::GhostRound || !self.items.iter().any(is_wide));
        let inside = indent.saturating_add(self.form.step());
        for item in self.items {
            if is_call {
                item.print(out, indent, after.saturating_add(1), true)?;
            } else {
                start(out, inside)?;
                item.print(out, inside, 1, false)?;
                out.push_str(if item.is_rest() {
                    ""
                } else {
                    self.form.separator()
                })?;
            }
        }
        if !is_call {
            start(out, indent)?;
        }
        out.push_str(self.form.close())
    }

    // Whether its items share lines: those of an array, and names and fields in a tuple or a call.
    fn is_packed(&self) -> bool {
        let is_round = self.form == Form::Round;
        (is_round || self.form == Form::Square)
            && self.items.iter().all(|item| {
                let is_name = item.form == Form::Word && !item.open.contains(['(', ':', '<']);
                item.columns() <= PACKED && (is_name || !is_round)
            })
    }

    // Appends its items, as many on a line as have room, and its end.
    fn pack(&self, out: &mut String, indent: usize) -> Result<(), AllocError> {
        let inside = indent.saturating_add(self.form.step());
        for (i, item) in self.items.iter().enumerate() {
            let end = column(out.as_str()).saturating_add(item.columns());
            if i == 0 || end > WIDTH - 2 {
                start(out, inside)?;
            } else {
                out.push(' ')?;
            }
            item.line(out)?;
            out.push_str(self.form.separator())?;
        }
        start(out, indent)?;
        out.push_str(self.form.close())
    }

    /// Whether it has room on the last line of a text, with this many columns after it.
    pub fn is_line(&self, out: &str, after: usize) -> bool {
        let end = column(out)
            .saturating_add(self.columns())
            .saturating_add(after);
        end <= WIDTH && self.is_short()
    }

    // Whether it and all that is in it may be on one line.
    fn is_short(&self) -> bool {
        let inner = self.columns().saturating_sub(self.around());
        if !self.is_call() && self.form != Form::Word && inner > self.form.room() {
            return false;
        }
        for item in self.items {
            if !item.is_short() {
                return false;
            }
        }
        true
    }

    /// Whether it is a value in braces.
    pub fn is_brace(&self) -> bool {
        self.form == Form::Brace
    }

    /// Whether what is in front of its items has room on the last line of a text.
    pub fn has_room(&self, out: &str) -> bool {
        column(out).saturating_add(self.open.chars().count()) < WIDTH
    }

    // Whether it is the mark for all other fields.
    fn is_rest(&self) -> bool {
        self.open == ".."
    }

    // Whether it is a call whose only item is a group, which then has no line of its own.
    fn is_call(&self) -> bool {
        let is_named = self.open.len() > 1 && matches!(self.form, Form::Round | Form::GhostRound);
        match self.items {
            [item] => is_named && item.form != Form::Angle && item.form != Form::Word,
            _ => false,
        }
    }

    // What follows the items on one line.
    fn end(&self) -> &'static str {
        let is_tuple = self.open == "(" && self.form != Form::GhostRound;
        if self.form.is_spaced() {
            return if self.items.is_empty() { "}" } else { " }" };
        }
        if is_tuple && self.items.len() == 1 {
            return ",)";
        }
        self.form.close()
    }

    // The columns of its brackets and of what is in front of them, on one line.
    fn around(&self) -> usize {
        let space = if self.form.is_spaced() && !self.items.is_empty() {
            1
        } else {
            0
        };
        let brackets = self.end().len().saturating_add(space);
        self.open.chars().count().saturating_add(brackets)
    }
}

/// Two texts, one after the other.
pub fn joined<'a>(arena: &'a Arena, front: &str, text: &str) -> Result<&'a str, AllocError> {
    arena.print(format_args!("{front}{text}"))
}

// The column after the last character of a text.
fn column(text: &str) -> usize {
    match text.rsplit_once('\n') {
        Some((_, line)) => line.chars().count(),
        None => text.chars().count(),
    }
}

/// Begins a line, indented as far.
pub fn start(out: &mut String, indent: usize) -> Result<(), AllocError> {
    out.push('\n')?;
    for _ in 0..indent {
        out.push(' ')?;
    }
    Ok(())
}
