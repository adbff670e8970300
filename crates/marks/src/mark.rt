// A mark: a token of the data, and the record that it stored.
ghost use Rattle.std.specs.Prelude.{◌≡◌, ◌∷◌, ◌≤◌, length, is_some, ◌&&◌, IsTrue};
ghost use Rattle.rules.specs.Tokens.{token_of, accidental_in, letter_in, duration_in, clef_in, key_in, grace_in, grace_group_in};
ghost use Rattle.rules.specs.Tokens as rules;
ghost use Rattle.tokens.specs.Kinds.{token_in, is_slashed};
ghost use Rattle.tokens.specs.Attributes.{clef_value, key_value};
ghost use Rattle.tokens.specs.Rhythm.{octave_in, alter_of, lengths_of};
ghost use Rattle.tokens.specs.Steps.{step_number};
ghost use Rattle.marks.specs.Kinds.{is_letter, is_octave, is_sign, is_chord, is_whole_bars, is_barline, is_pattern, is_clef, is_key, is_grace, is_grace_group, is_rest, is_figure_mark, opens_beam, closes_beam, opens_group, closes_group};
ghost use Rattle.marks.specs.Short.{is_token, token_at, short, kind_in};

use crate::kind::Kind;
use crate::records::{Notes, last_of, took_length};
use rows::terms::Term;
use rows::text::Excerpt;
use scan::lines::Offset;
use std::fmt;
use tokens::attributes::{ClefValue, Key};
use tokens::cut::{Place, Span};
use tokens::kinds::{Figure, Grace, Marking, Token};
use tokens::rhythm::{Accidental, Octave, Pattern, Step};

/// A token's span, and all its bytes.
#[derive(Clone, Copy)]
pub struct Cut<'d> {
    pub span: Span<'d>,
    pub text: &'d [u8],
    ghost its: { text.now ≡ span.first ∷ span.value.now },
}

/// A mark: a token of the data, with its number from 0, its place, its offset in the text, its
/// bytes and its kind, and with the number of the last record that it stored, where it stored one.
#[derive(Clone, Copy)]
pub struct Mark<'d> {
    pub number: usize,
    pub place: Place,
    pub start: Offset,
    pub text: &'d [u8],
    pub kind: Kind,
    pub stored: Option<usize>,
    /// Whether it took a length of the pattern: a rest, or a letter that opened a note and no
    /// grace.
    pub took_length: bool,
    ghost whole: { IsTrue (is_token text.now) },
    ghost kept: { kind_in kind ≡ short (token_at text.now) },
}

impl<'d> Mark<'d> {
    ghost use Rattle.marks.specs.Marks.{IsMark, token_of_mark};
    ghost use Rattle.marks.specs.Values.{said};

    /// The mark of a token, by its number and its bytes; it stored those of the records from
    /// `first` on that have its place.
    pub fn new(number: usize, cut: Cut<'d>, notes: Notes<'_>, first: usize) -> Mark<'d>
        requires { first ≤ length notes.0.now }
        ensures mark { IsMark notes.entry.0.now number first result }
        ensures place { result.place ≡ cut.entry.span.place }
        ensures start { result.start ≡ cut.entry.span.offset }
        ensures text { result.text ≡ cut.entry.text }
        ensures token { token_of_mark result
            ≡ token_of cut.entry.span.first cut.entry.span.value.now }
    {
        let Cut { span, text } = cut;
        let stored = last_of(first, notes.end_at(first, span.place));
        let token = span.decode();
        Mark {
            number,
            place: span.place,
            start: span.offset,
            text,
            kind: Kind::new(token),
            stored,
            took_length: took_length(token, notes, stored),
        }
    }

    /// The mark of a text that is a token, as `new` makes it of a `Cut`, but without a span, whose
    /// place and offset are below 2^31.
    pub(crate) fn of_text(
        number: usize,
        place: Place,
        start: Offset,
        text: &'d [u8],
        notes: Notes<'_>,
        first: usize,
    ) -> Mark<'d>
        requires whole { IsTrue (is_token text.now) }
        requires first { first ≤ length notes.0.now }
        ensures mark { IsMark notes.entry.0.now number first result }
        ensures place { result.place ≡ place }
        ensures start { result.start ≡ start }
        ensures text { result.text.now ≡ text.now }
    {
        let (byte, value) = text.split_first().unwrap();
        let token = Token::new(*byte, value).unwrap();
        let stored = last_of(first, notes.end_at(first, place));
        Mark {
            number,
            place,
            start,
            text,
            kind: Kind::new(token),
            stored,
            took_length: took_length(token, notes, stored),
        }
    }

    /// What its token is, from its bytes.
    pub fn token(&self) -> Token<'d>
        ensures { token_in result ≡ token_of_mark self.now }
    {
        let (first, value) = self.text.split_first().unwrap();
        Token::new(*first, value).unwrap()
    }

    // A method for each kind that is asked for: no generic function takes a pattern.

    /// The octave that it sets; one out of range is none.
    pub fn octave(&self) -> Option<Octave>
        ensures { octave_in result ≡ rules.octave_in (token_of_mark self.now) }
    {
        match self.kind {
            Kind::Octave(octave) => octave,
            _ => None,
        }
    }

    /// The accidental that it is.
    pub fn accidental(&self) -> Option<Accidental>
        ensures { said alter_of result ≡ accidental_in (token_of_mark self.now) }
    {
        match self.kind {
            Kind::Accidental(accidental) => Some(accidental),
            _ => None,
        }
    }

    /// The step of a letter.
    pub fn step(&self) -> Option<Step>
        ensures { said step_number result ≡ letter_in (token_of_mark self.now) }
    {
        match self.kind {
            Kind::Letter(step) => Some(step),
            _ => None,
        }
    }

    /// The pattern of lengths that it sets.
    pub fn pattern(&self) -> Option<Pattern<'d>>
        ensures { said lengths_of result ≡ duration_in (token_of_mark self.now) }
    {
        match self.token() {
            Token::Duration(pattern) => Some(pattern),
            _ => None,
        }
    }

    /// The clef that it is, known or not.
    pub fn clef(&self) -> Option<ClefValue>
        ensures { said clef_value result ≡ clef_in (token_of_mark self.now) }
    {
        match self.token() {
            Token::Clef(clef) => Some(clef),
            _ => None,
        }
    }

    /// The key that it is.
    pub fn key(&self) -> Option<Key>
        ensures { said key_value result ≡ key_in (token_of_mark self.now) }
    {
        match self.token() {
            Token::Key(key) => Some(key),
            _ => None,
        }
    }

    /// `g` or `q`.
    pub fn grace(&self) -> Option<Grace>
        ensures { said is_slashed result ≡ grace_in (token_of_mark self.now) }
    {
        match self.kind {
            Kind::Grace(grace) => Some(grace),
            _ => None,
        }
    }

    /// Whether it begins a grace group (`qq`) or ends one (`r`).
    pub fn grace_group(&self) -> Option<bool>
        ensures { said (λ begins. begins) result ≡ grace_group_in (token_of_mark self.now) }
    {
        match self.kind {
            Kind::GraceGroup(begins) => Some(begins),
            _ => None,
        }
    }

    /// The letter of a step.
    pub fn is_letter(&self) -> bool
        ensures { result ≡ is_letter (token_of_mark self.now) }
    {
        matches!(self.kind, Kind::Letter(_))
    }

    /// An octave that is in range.
    pub fn is_octave(&self) -> bool
        ensures { result ≡ is_octave (token_of_mark self.now) }
    {
        matches!(self.kind, Kind::Octave(Some(_)))
    }

    /// `x`, `b`, `n` and longer runs.
    pub fn is_sign(&self) -> bool
        ensures { result ≡ is_sign (token_of_mark self.now) }
    {
        matches!(self.kind, Kind::Accidental(_))
    }

    /// `^`.
    pub fn is_chord(&self) -> bool
        ensures { result ≡ is_chord (token_of_mark self.now) }
    {
        matches!(self.kind, Kind::Chord)
    }

    /// An `=` of two or more bars: a barline stands in it.
    pub fn is_whole_bars(&self) -> bool
        ensures { result ≡ is_whole_bars (token_of_mark self.now) }
    {
        matches!(self.kind, Kind::WholeBars(Some(2..)))
    }

    /// A barline, or an `=` in which one stands.
    pub fn is_barline(&self) -> bool
        ensures { result ≡ is_barline (token_of_mark self.now) }
    {
        matches!(self.kind, Kind::Barline) || self.is_whole_bars()
    }

    /// A pattern of lengths.
    pub fn is_pattern(&self) -> bool
        ensures { result ≡ is_pattern (token_of_mark self.now) }
    {
        matches!(self.kind, Kind::Duration)
    }

    /// A clef, known or not.
    pub fn is_clef(&self) -> bool
        ensures { result ≡ is_clef (token_of_mark self.now) }
    {
        matches!(self.kind, Kind::Clef)
    }

    /// A key.
    pub fn is_key(&self) -> bool
        ensures { result ≡ is_key (token_of_mark self.now) }
    {
        matches!(self.kind, Kind::Key)
    }

    /// `g` or `q`.
    pub fn is_grace(&self) -> bool
        ensures { result ≡ is_grace (token_of_mark self.now) }
    {
        matches!(self.kind, Kind::Grace(_))
    }

    /// `qq` or `r`.
    pub fn is_grace_group(&self) -> bool
        ensures { result ≡ is_grace_group (token_of_mark self.now) }
    {
        matches!(self.kind, Kind::GraceGroup(_))
    }

    /// `-`.
    pub fn is_rest(&self) -> bool
        ensures { result ≡ is_rest (token_of_mark self.now) }
    {
        matches!(self.kind, Kind::Rest)
    }

    /// `!`.
    pub fn is_figure_mark(&self) -> bool
        ensures { result ≡ is_figure_mark (token_of_mark self.now) }
    {
        matches!(self.kind, Kind::Figure(Figure::Mark))
    }

    /// `{`.
    pub fn opens_beam(&self) -> bool
        ensures { result ≡ opens_beam (token_of_mark self.now) }
    {
        matches!(self.kind, Kind::Marking(Marking::BeamOpen))
    }

    /// `}`.
    pub fn closes_beam(&self) -> bool
        ensures { result ≡ closes_beam (token_of_mark self.now) }
    {
        matches!(self.kind, Kind::Marking(Marking::BeamClose))
    }

    /// `(`.
    pub fn opens_group(&self) -> bool
        ensures { result ≡ opens_group (token_of_mark self.now) }
    {
        matches!(self.kind, Kind::Marking(Marking::GroupOpen))
    }

    /// `)`.
    pub fn closes_group(&self) -> bool
        ensures { result ≡ closes_group (token_of_mark self.now) }
    {
        matches!(self.kind, Kind::Marking(Marking::GroupClose))
    }

    /// Whether it stored a record.
    pub fn stores(&self) -> bool
        ensures { result ≡ is_some self.now.stored }
    {
        self.stored.is_some()
    }

    /// Whether it is a letter that opened a record.
    pub fn opens_note(&self) -> bool
        ensures { result ≡ (is_letter (token_of_mark self.now) && is_some self.now.stored) }
    {
        self.is_letter() && self.stores()
    }
}

/// A mark's text and its place.
impl<'d> fmt::Display for Mark<'d> {
    fn fmt<W: fmt::Write>(&self, f: &mut fmt::Formatter<W>) -> fmt::Result {
        let text = Excerpt(self.text);
        let place = Term(self.place);
        write!(f, "{text} at {place}")
    }
}
