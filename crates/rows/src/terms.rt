// The field's terms, as they are shown.
use std::fmt;
use stores::note::{NoteKind, Pitch};
use tokens::attributes::{Clef, Meter, Symbol};
use tokens::cut::Place;
use tokens::rhythm::{Duration, Edge, Length, Step};

/// A value by the field's term for it.
// A struct of its own: `Display` of another crate's type can only stand in that crate.
#[derive(Clone, Copy)]
pub struct Term<T>(pub T);

impl fmt::Display for Term<Place> {
    fn fmt<W: fmt::Write>(&self, f: &mut fmt::Formatter<W>) -> fmt::Result {
        let place = self.0.0;
        write!(f, "place {place}")
    }
}

impl fmt::Display for Term<Step> {
    fn fmt<W: fmt::Write>(&self, f: &mut fmt::Formatter<W>) -> fmt::Result {
        f.pad(match self.0 {
            Step::C => "C",
            Step::D => "D",
            Step::E => "E",
            Step::F => "F",
            Step::G => "G",
            Step::A => "A",
            Step::B => "B",
        })
    }
}

impl fmt::Display for Term<Duration> {
    fn fmt<W: fmt::Write>(&self, f: &mut fmt::Formatter<W>) -> fmt::Result {
        f.pad(match self.0 {
            Duration::Longa => "longa",
            Duration::Breve => "breve",
            Duration::Whole => "whole",
            Duration::Half => "half",
            Duration::Quarter => "quarter",
            Duration::Eighth => "eighth",
            Duration::Sixteenth => "16th",
            Duration::ThirtySecond => "32nd",
            Duration::SixtyFourth => "64th",
            Duration::HundredTwentyEighth => "128th",
        })
    }
}

/// A length with its dots before it, in words.
impl fmt::Display for Term<Length> {
    fn fmt<W: fmt::Write>(&self, f: &mut fmt::Formatter<W>) -> fmt::Result {
        f.write_str(match self.0.dots {
            0 => "",
            1 => "dotted ",
            2 => "double-dotted ",
            _ => "triple-dotted ",
        })?;
        let duration = Term(self.0.duration);
        write!(f, "{duration}")
    }
}

impl fmt::Display for Term<NoteKind> {
    fn fmt<W: fmt::Write>(&self, f: &mut fmt::Formatter<W>) -> fmt::Result {
        f.pad(match self.0 {
            NoteKind::Note => "note",
            NoteKind::Rest => "rest",
            NoteKind::Grace => "grace",
            NoteKind::SlashedGrace => "slashed grace",
            NoteKind::WholeBarRest => "whole-bar rest",
        })
    }
}

impl fmt::Display for Term<Clef> {
    fn fmt<W: fmt::Write>(&self, f: &mut fmt::Formatter<W>) -> fmt::Result {
        f.pad(match self.0 {
            Clef::Treble => "treble",
            Clef::Treble8vb => "treble 8vb",
            Clef::Bass => "bass",
            Clef::Soprano => "soprano",
            Clef::MezzoSoprano => "mezzosoprano",
            Clef::Alto => "alto",
            Clef::Tenor => "tenor",
            Clef::Baritone => "baritone",
        })
    }
}

impl fmt::Display for Term<Edge> {
    fn fmt<W: fmt::Write>(&self, f: &mut fmt::Formatter<W>) -> fmt::Result {
        f.pad(match self.0 {
            Edge::Plain => "plain",
            Edge::Double => "double",
            Edge::RepeatStart => "repeat starts",
            Edge::RepeatEnd => "repeat ends",
        })
    }
}

/// A meter, with its symbol.
impl fmt::Display for Term<Meter> {
    fn fmt<W: fmt::Write>(&self, f: &mut fmt::Formatter<W>) -> fmt::Result {
        let numerator = self.0.numerator;
        let denominator = self.0.denominator;
        write!(f, "{numerator}/{denominator}")?;
        f.write_str(match self.0.symbol {
            None => "",
            Some(Symbol::Common) => " common",
            Some(Symbol::Cut) => " cut",
        })
    }
}

/// An alteration, -2 to 2, as the sign behind its letter.
#[derive(Clone, Copy)]
pub struct Sign(pub i8);

impl fmt::Display for Sign {
    fn fmt<W: fmt::Write>(&self, f: &mut fmt::Formatter<W>) -> fmt::Result {
        f.write_str(match self.0 {
            2 => "##",
            1 => "#",
            -1 => "b",
            -2 => "bb",
            _ => "",
        })
    }
}

/// An alteration, -2 to 2, in words.
#[derive(Clone, Copy)]
pub struct Alteration(pub i8);

impl fmt::Display for Alteration {
    fn fmt<W: fmt::Write>(&self, f: &mut fmt::Formatter<W>) -> fmt::Result {
        f.write_str(match self.0 {
            2 => "double sharp",
            1 => "sharp",
            -1 => "flat",
            -2 => "double flat",
            _ => "natural",
        })
    }
}

/// A pitch: letter, sign, octave.
impl fmt::Display for Term<Pitch> {
    fn fmt<W: fmt::Write>(&self, f: &mut fmt::Formatter<W>) -> fmt::Result {
        let step = Term(self.0.step);
        let sign = Sign(self.0.alter);
        let octave = self.0.octave.number;
        write!(f, "{step}{sign}{octave}")
    }
}

/// The dots of a length, a space before them.
#[derive(Clone, Copy)]
pub struct Dots(pub u8);

impl fmt::Display for Dots {
    fn fmt<W: fmt::Write>(&self, f: &mut fmt::Formatter<W>) -> fmt::Result {
        f.pad(match self.0 {
            0 => "",
            1 => " .",
            2 => " ..",
            _ => " ...",
        })
    }
}

/// A key signature, by its fifths.
#[derive(Clone, Copy)]
pub struct Signature(pub i8);

impl fmt::Display for Signature {
    fn fmt<W: fmt::Write>(&self, f: &mut fmt::Formatter<W>) -> fmt::Result {
        f.pad(match self.0 {
            0 => "no signs",
            1 => "1 sharp",
            2 => "2 sharps",
            3 => "3 sharps",
            4 => "4 sharps",
            5 => "5 sharps",
            6 => "6 sharps",
            7 => "7 sharps",
            -1 => "1 flat",
            -2 => "2 flats",
            -3 => "3 flats",
            -4 => "4 flats",
            -5 => "5 flats",
            -6 => "6 flats",
            _ => "7 flats",
        })
    }
}

/// So many of what a word names in the singular.
#[derive(Clone, Copy)]
pub struct Counted<'w>(pub u32, pub &'w str);

impl<'w> fmt::Display for Counted<'w> {
    fn fmt<W: fmt::Write>(&self, f: &mut fmt::Formatter<W>) -> fmt::Result {
        let count = self.0;
        let word = self.1;
        let plural = if count == 1 { "" } else { "s" };
        write!(f, "{count} {word}{plural}")
    }
}
