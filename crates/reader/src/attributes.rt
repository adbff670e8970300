// Clefs, keys and meters, which are taken only while the open bar has no note.
ghost use Rattle.std.specs.Prelude.{◌≡◌, List, ℤ};
ghost use Rattle.tokens.specs.Attributes.{clef_value, key_value, meter_in};
ghost use Rattle.tokens.specs.Spans.{item_of};
ghost use Rattle.reader.specs.Reader.{view_of, SameBuffers};
ghost use Rattle.view.specs.Steps.{after_clef, after_key, after_meter};

use super::remark::after_first;
use super::walk::Reader;
use stores::diagnostic::{At, Remark};
use tokens::attributes::{ClefValue, Key, Meter};
use tokens::cut::Span;

impl<'s, 't, 'n, 'b, 'l, 'd> Reader<'s, 't, 'n, 'b, 'l, 'd> {
    /// `%`
    pub fn clef(&mut self, span: Span<'d>, value: ClefValue)
        ensures same { SameBuffers self.old self.new }
        ensures clef { (figure : List ℤ) → view_of self.new figure ≡
            after_clef (item_of span.entry) (clef_value value) (view_of self.old figure) }
    {
        if self.has_note() {
            return self.remark_alone(Remark::AfterNotes, span, after_first(span));
        }
        let at = At::Data(span.place);
        self.diagnostics.push_clef(at, after_first(span), value);
        if value.clef.is_some() {
            self.state.attributes.clef = value.clef;
        }
    }

    /// `$`
    pub fn key(&mut self, span: Span<'d>, key: Key)
        ensures same { SameBuffers self.old self.new }
        ensures key { (figure : List ℤ) → view_of self.new figure ≡
            after_key (item_of span.entry) (key_value key) (view_of self.old figure) }
    {
        if self.has_note() {
            return self.remark_alone(Remark::AfterNotes, span, after_first(span));
        }
        let at = At::Data(span.place);
        self.diagnostics
            .push_unless(key.standard, Remark::UnusualKey, at, after_first(span));
        self.state.attributes.fifths = Some(key.fifths);
        // In two steps: an array of another struct's is covered only as a variable (tried).
        let alters = key.alters;
        self.state.attributes.alters = alters;
    }

    /// `@`
    pub fn meter(&mut self, span: Span<'d>, meter: Option<Meter>)
        ensures same { SameBuffers self.old self.new }
        ensures meter { (figure : List ℤ) → view_of self.new figure ≡
            after_meter (item_of span.entry) (meter_in meter) (view_of self.old figure) }
    {
        if self.has_note() {
            return self.remark_alone(Remark::AfterNotes, span, after_first(span));
        }
        let at = At::Data(span.place);
        match meter {
            Some(_) => self.state.attributes.meter = meter,
            None => self
                .diagnostics
                .push(Remark::NoMeter, at, after_first(span)),
        }
    }
}
