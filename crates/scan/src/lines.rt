// Parts of a text, its lines, and their fields.
ghost use Rattle.std.specs.Prelude.{◌≡◌, ◌+◌, ◌<◌, ◌≤◌, ◌^◌, [], length, is_some, IfSome};
ghost use Rattle.rules.specs.Text.{without, end_of};
ghost use Rattle.rules.specs.Characters.{trim};
ghost use Rattle.rules.specs.Fields.{is_field, key_size};
ghost use Rattle.scan.specs.FieldLine.{is_field_line};

use crate::characters::{blanks_size, trim_end};
use crate::classes::{Class, is_text, starts_with};

/// A line's number, from 1.
#[derive(Clone, Copy, Debug, PartialEq, Eq)]
pub struct Line(pub u32);

/// An offset in the text, from 0.
#[derive(Clone, Copy, Debug, PartialEq, Eq)]
pub struct Offset(pub u32);

/// A part of a text: the offset where it starts, and its bytes.
#[derive(Clone, Copy)]
pub struct Part<'t> {
    pub start: Offset,
    pub bytes: &'t [u8],
    ghost fits: { start.0 + length bytes.now < 2 ^ 31 },
}

impl<'t> Part<'t> {
    ghost use Rattle.scan.specs.Parts.{part_of};

    /// The whole of a text.
    // Its length is asked for: the text is the caller's slice, and a part says it by its type.
    pub fn new(text: &'t [u8]) -> Part<'t>
        requires { length text.now < 2 ^ 31 }
        ensures start { result.start.0 ≡ 0 }
        ensures bytes { result.bytes.now ≡ text.entry.now }
    {
        Part {
            start: Offset(0),
            bytes: text,
        }
    }

    /// The offset behind it.
    pub fn end(self) -> Offset
        ensures { result.0 ≡ end_of (part_of self.entry) }
    {
        Offset(self.start.0 + self.bytes.len() as u32)
    }

    /// The part without its first bytes.
    pub fn without(self, size: usize) -> Part<'t>
        requires { size ≤ length self.bytes.now }
        ensures { part_of result ≡ without size (part_of self.entry) }
    {
        Part {
            start: Offset(self.start.0 + size as u32),
            bytes: &self.bytes[size..],
        }
    }

    /// The part without the blanks at its start and at its end.
    pub fn trim(self) -> Part<'t>
        ensures { part_of result ≡ trim (part_of self.entry) }
    {
        let rest = self.without(blanks_size(self.bytes));
        Part {
            start: rest.start,
            bytes: trim_end(rest.bytes),
        }
    }
}

/// A line without the blanks at its start and at its end, and its number.
#[derive(Clone, Copy)]
pub struct TextLine<'t> {
    pub number: Line,
    pub content: Part<'t>,
    ghost fits: { number.0 < 2 ^ 31 },
}

/// The lines of a text, which end at byte 10.
#[derive(Clone, Copy)]
pub struct Lines<'t> {
    rest: Part<'t>,
    number: Line,
    ghost counted: { number.0 ≤ rest.start.0 + 1 },
}

impl<'t> Lines<'t> {
    ghost use Rattle.scan.specs.Lines.{lines_left};
    ghost use Rattle.rules.specs.Fields.{lines_of};

    /// All lines.
    // Its length is asked for, as of a part.
    pub fn new(text: &'t [u8]) -> Lines<'t>
        requires { length text.now < 2 ^ 31 }
        ensures { lines_left result [] ≡ lines_of text.entry.now }
    {
        Lines {
            rest: Part::new(text),
            number: Line(1),
        }
    }
}

impl<'t> Iterator for Lines<'t> {
    ghost use Rattle.scan.specs.Lines.{GivesLine, lines_at_most};

    type Item = TextLine<'t>;

    ghost next_gives = { GivesLine };

    ghost remaining = { lines_at_most };

    fn next(&mut self) -> Option<TextLine<'t>> {
        let bytes = self.rest.bytes;
        if bytes.is_empty() {
            return None;
        }
        let size = Class::Not(10).run(bytes);
        let line = TextLine {
            number: self.number,
            content: Part {
                start: self.rest.start,
                bytes: &bytes[..size],
            }
            .trim(),
        };
        self.rest = self.rest.without((size + 1).min(bytes.len()));
        self.number = Line(self.number.0 + 1);
        Some(line)
    }
}

// Where the key of a field ends: letters behind `@`, before `:`.
fn key_end(bytes: &[u8]) -> Option<usize>
    ensures field { is_some result ≡ is_field bytes.now }
    ensures key { IfSome result (λ end. end ≡ 1 + key_size bytes.now) }
    ensures within { IfSome result (λ end. end < length bytes.now) }
{
    if !starts_with(bytes, b"@") {
        return None;
    }
    let end = 1 + Class::Letters.run(&bytes[1..]);
    if end == 1 || end == bytes.len() || bytes[end] != b':' {
        return None;
    }
    Some(end)
}

/// Whether a line that is trimmed is a field: `@`, letters, `:`.
pub fn is_field(line: &[u8]) -> bool
    ensures { result ≡ is_field line.now }
{
    key_end(line).is_some()
}

/// Whether a line is a field, without the blanks at its start and at its end.
pub fn is_field_line(line: &[u8]) -> bool
    ensures { result ≡ is_field_line line.now }
{
    is_field(trim_end(&line[blanks_size(line)..]))
}

/// A field of a line: its key, and its value.
#[derive(Clone, Copy)]
pub struct Field<'t> {
    pub key: &'t [u8],
    pub value: Part<'t>,
}

impl<'t> TextLine<'t> {
    ghost use Rattle.scan.specs.Lines.{line_of, ReadsField};

    /// The field that it is, if it is one: `@`, letters, `:`, and its value.
    pub fn field(self) -> Option<Field<'t>>
        ensures { ReadsField (line_of self.entry) result }
    {
        let bytes = self.content.bytes;
        let Some(end) = key_end(bytes) else {
            return None;
        };
        Some(Field {
            key: &bytes[1..end],
            value: self.content.without(end + 1).trim(),
        })
    }
}

/// The keys of fields.
#[derive(Clone, Copy, Debug, PartialEq, Eq)]
pub enum FieldKey {
    Clef,
    Keysig,
    Timesig,
    Data,
    Other,
}

impl FieldKey {
    ghost use Rattle.scan.specs.Keys.{field_key_of};

    /// Which field has this key.
    pub fn new(key: &[u8]) -> FieldKey
        ensures { result ≡ field_key_of key.now }
    {
        if is_text(key, b"clef") {
            FieldKey::Clef
        } else if is_text(key, b"keysig") {
            FieldKey::Keysig
        } else if is_text(key, b"timesig") {
            FieldKey::Timesig
        } else if is_text(key, b"data") {
            FieldKey::Data
        } else {
            FieldKey::Other
        }
    }
}
