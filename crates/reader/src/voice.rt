// Octaves, lengths, and what waits for the next letter.
ghost use Rattle.std.specs.Prelude.{◌≡◌, List, ℤ};
ghost use Rattle.tokens.specs.Rhythm.{octave_in, alter_of, lengths_of};
ghost use Rattle.tokens.specs.Kinds.{is_slashed};
ghost use Rattle.tokens.specs.Spans.{item_of};
ghost use Rattle.reader.specs.Reader.{view_of, SameBuffers};
ghost use Rattle.view.specs.Steps.{after_octave, after_duration, after_accidental, after_chord, after_grace, after_grace_group};

use super::remark::all_of_it;
use super::walk::Reader;
use stores::diagnostic::{At, Remark};
use tokens::cut::Span;
use tokens::kinds::Grace;
use tokens::rhythm::{Accidental, Octave, Pattern};

impl<'s, 't, 'n, 'b, 'l, 'd> Reader<'s, 't, 'n, 'b, 'l, 'd> {
    /// A run of `'` or of `,`.
    pub fn octave(&mut self, span: Span<'d>, octave: Option<Octave>)
        ensures same { SameBuffers self.old self.new }
        ensures octave { (figure : List ℤ) → view_of self.new figure ≡
            after_octave (item_of span.entry) (octave_in octave) (view_of self.old figure) }
    {
        match octave {
            Some(octave) => self.state.voice.octave = octave,
            None => self
                .diagnostics
                .push(Remark::OctaveRange, At::Data(span.place), all_of_it(span)),
        }
    }

    /// Digits and dots: notes take their lengths in turn.
    pub fn duration(&mut self, pattern: Pattern<'d>)
        ensures same { SameBuffers self.old self.new }
        ensures lengths { (figure : List ℤ) → view_of self.new figure ≡
            after_duration (lengths_of pattern.entry) (view_of self.old figure) }
    {
        self.state.lengths.begin(pattern);
    }

    /// `x`, `xx`, `b`, `bb`, `n`: it waits for the next letter.
    pub fn accidental(&mut self, accidental: Accidental)
        ensures same { SameBuffers self.old self.new }
        ensures waits { (figure : List ℤ) → view_of self.new figure ≡
            after_accidental (alter_of accidental) (view_of self.old figure) }
    {
        self.state.voice.accidental = Some(accidental);
    }

    /// `^`: the next letter joins the last note.
    pub fn chord(&mut self)
        ensures same { SameBuffers self.old self.new }
        ensures waits { (figure : List ℤ) → view_of self.new figure ≡
            after_chord (view_of self.old figure) }
    {
        self.state.voice.chord = true;
    }

    /// `g`, `q`: the next note is a grace.
    pub fn grace(&mut self, grace: Grace)
        ensures same { SameBuffers self.old self.new }
        ensures waits { (figure : List ℤ) → view_of self.new figure ≡
            after_grace (is_slashed grace) (view_of self.old figure) }
    {
        self.state.voice.grace = Some(grace);
    }

    /// `qq` begins a group of graces, `r` ends it.
    pub fn grace_group(&mut self, span: Span<'d>, begins: bool)
        ensures same { SameBuffers self.old self.new }
        ensures group { (figure : List ℤ) → view_of self.new figure ≡
            after_grace_group (item_of span.entry) begins (view_of self.old figure) }
    {
        self.diagnostics.push_unless(
            begins || self.state.voice.group,
            Remark::NoRule,
            At::Data(span.place),
            all_of_it(span),
        );
        self.state.voice.group = begins;
    }
}
