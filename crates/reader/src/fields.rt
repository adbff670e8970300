// The fields of a text: the attributes and the data that they set, and what they diagnose.
ghost use Rattle.std.specs.Prelude.{◌≡◌, ◌≤◌, ◌<◌, length};
ghost use Rattle.rules.specs.Limits.{text_limit};
ghost use Rattle.rules.specs.Fields.{lines_of, in_field_form, no_fields, part_value, line_diagnosed, fields_after, lines_diagnosed, fields_of, fields_diagnosed};
ghost use Rattle.scan.specs.Parts.{part_of};
ghost use Rattle.scan.specs.Lines.{line_of};
ghost use Rattle.stores.specs.Cells.{word_limit};
ghost use Rattle.stores.specs.Diagnostics.{value_in, ValueFits, list_after_all, count_after_all};
ghost use Rattle.tokens.specs.Steps.{edge_number};
ghost use Rattle.reader.specs.Fields.{fields_in, field_set, field_remarks, line_next};

use super::state::Attributes;
use scan::lines::{FieldKey, Line, Lines, Part, TextLine, is_field_line};
use stores::diagnostic::{At, Diagnostics, Remark, Value};
use tokens::attributes::{ClefValue, Key, Meter};
use tokens::rhythm::Edge;

/// What the fields of a text set: the attributes that the data starts with, and the data, if there
/// is one.
#[derive(Clone, Copy)]
pub struct Fields<'t> {
    pub attributes: Attributes,
    pub data: Option<Part<'t>>,
}

/// A part of the text, by its offsets.
fn value_of(part: Part) -> Value
    ensures value { value_in result ≡ part_value (part_of part.entry) }
    ensures fits { ValueFits result }
{
    Value::Part(part.start, part.end())
}

impl<'t> Fields<'t> {
    /// Nothing is set.
    fn new() -> Fields<'t>
        ensures fields { fields_in result ≡ no_fields }
        ensures left { edge_number result.attributes.left ≡ 0 }
    {
        Fields {
            attributes: Attributes {
                clef: None,
                fifths: None,
                meter: None,
                left: Edge::Plain,
                alters: [0; 7],
            },
            data: None,
        }
    }

    /// A field sets an attribute or the data, by its key; another key is remarked.
    fn set(&mut self, number: Line, key: FieldKey, value: Part<'t>, diagnostics: &mut Diagnostics)
        requires { number.0 < word_limit }
        ensures fields { fields_in self.new ≡
            field_set key (part_of value.entry) (fields_in self.old) }
        ensures left { self.new.attributes.left ≡ self.old.attributes.left }
        ensures same { diagnostics.new.list.ghost_name ≡ diagnostics.old.list.ghost_name }
        ensures list { diagnostics.new.list.now ≡
            list_after_all diagnostics.old.list.now diagnostics.old.count
            (field_remarks key number.0 (part_of value.entry)) }
        ensures count { diagnostics.new.count ≡ count_after_all diagnostics.old.count
            (field_remarks key number.0 (part_of value.entry)) }
    {
        let at = At::Line(number);
        let part = value_of(value);
        match key {
            FieldKey::Clef => {
                let clef = ClefValue::new(value.bytes);
                diagnostics.push_clef(at, part, clef);
                self.attributes.clef = clef.clef.or(self.attributes.clef);
            }
            FieldKey::Keysig => {
                let key = Key::new(value.bytes);
                diagnostics.push_unless(key.standard, Remark::UnusualKey, at, part);
                self.attributes.fifths = Some(key.fifths);
                // In two steps: an array of another struct's is covered only as a variable (tried).
                let alters = key.alters;
                self.attributes.alters = alters;
            }
            FieldKey::Timesig => {
                let meter = Meter::new(value.bytes);
                diagnostics.push_unless(meter.is_some(), Remark::NoMeter, at, part);
                self.attributes.meter = meter.or(self.attributes.meter);
            }
            FieldKey::Data => self.data = Some(value),
            FieldKey::Other => diagnostics.push(Remark::UnknownKey, At::Field(number), part),
        }
    }

    /// A line that is no field is remarked, unless it is empty.
    #[tactic(auto, using(crate::proofs::FieldLaws::field_laws))]
    fn read_line(&mut self, line: TextLine<'t>, diagnostics: &mut Diagnostics)
        ensures fields { fields_in self.new ≡ line_next (line_of line.entry) (fields_in self.old) }
        ensures left { self.new.attributes.left ≡ self.old.attributes.left }
        ensures same { diagnostics.new.list.ghost_name ≡ diagnostics.old.list.ghost_name }
        ensures list { diagnostics.new.list.now ≡
            list_after_all diagnostics.old.list.now diagnostics.old.count
            (line_diagnosed (line_of line.entry)) }
        ensures count { diagnostics.new.count ≡ count_after_all diagnostics.old.count
            (line_diagnosed (line_of line.entry)) }
    {
        match line.field() {
            Some(field) => self.set(
                line.number,
                FieldKey::new(field.key),
                field.value,
                diagnostics,
            ),
            None if line.content.bytes.is_empty() => {}
            None => diagnostics.push(
                Remark::NoField,
                At::Line(line.number),
                value_of(line.content),
            ),
        }
    }
}

/// Whether any line of the text is a field.
// By bytes: a text of any length has the answer, and `Lines` has offsets below 2 ^ 31.
pub fn in_field_form(text: &[u8]) -> bool
    ensures { result ≡ in_field_form text.now }
{
    text.split(|byte| *byte == b'\n').any(is_field_line)
}

// That the text isn't too long is asked, here and below: it is the caller's slice, checked at the
// entry.

/// What the lines of a text in field form set, their diagnostics stored.
#[tactic(auto, using(crate::proofs::FieldLaws::line_laws))]
fn read_lines<'t>(text: &'t [u8], diagnostics: &mut Diagnostics) -> Fields<'t>
    requires { length text.now ≤ text_limit }
    ensures fields { fields_in result ≡ fields_after (lines_of text.entry.now) }
    ensures left { edge_number result.attributes.left ≡ 0 }
    ensures same { diagnostics.new.list.ghost_name ≡ diagnostics.old.list.ghost_name }
    ensures list { diagnostics.new.list.now ≡
        list_after_all diagnostics.old.list.now diagnostics.old.count
        (lines_diagnosed (lines_of text.entry.now)) }
    ensures count { diagnostics.new.count ≡ count_after_all diagnostics.old.count
        (lines_diagnosed (lines_of text.entry.now)) }
{
    let mut fields = Fields::new();
    for line in Lines::new(text) {
        fields.read_line(line, diagnostics);
    }
    fields
}

/// What a text sets, in field form or bare, its diagnostics stored.
#[tactic(auto, unfolding(rules::specs::Fields::fields_of, rules::specs::Fields::fields_diagnosed))]
pub fn fields_of<'t>(text: &'t [u8], diagnostics: &mut Diagnostics) -> Fields<'t>
    requires { length text.now ≤ text_limit }
    ensures fields { fields_in result ≡ fields_of text.entry.now }
    ensures left { edge_number result.attributes.left ≡ 0 }
    ensures same { diagnostics.new.list.ghost_name ≡ diagnostics.old.list.ghost_name }
    ensures list { diagnostics.new.list.now ≡
        list_after_all diagnostics.old.list.now diagnostics.old.count
        (fields_diagnosed text.entry.now) }
    ensures count { diagnostics.new.count ≡ count_after_all diagnostics.old.count
        (fields_diagnosed text.entry.now) }
{
    if in_field_form(text) {
        return read_lines(text, diagnostics);
    }
    let mut bare = Fields::new();
    bare.data = Some(Part::new(text));
    bare
}
