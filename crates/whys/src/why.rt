// A why for each letter, rest and copy.
use crate::before::Before;
use crate::copies::show_copies;
use crate::length::show_pattern_length;
use crate::letter::Letter;
use marks::lookback::{Mark, Marks};
use marks::records::Notes;
use rows::headings::show_heading;
use rows::terms::{Counted, Term};
use scan::lines::Line;
use std::io;
use std::io::Write;
use tokens::cut::Place;
use tokens::kinds::{Figure, Token};

/// The key that the fields set: an alteration for each step from C, and the line of the last keysig
/// field, if there is one.
#[derive(Clone, Copy)]
pub struct KeyField {
    pub alters: [i8; 7],
    pub line: Option<Line>,
}

/// What the whys are read from.
#[derive(Clone, Copy)]
pub struct Whys<'a, 'd> {
    pub marks: &'a Marks<'d>,
    pub notes: Notes<'a>,
    pub key: KeyField,
}

impl<'a, 'd> Whys<'a, 'd> {
    /// Why each letter, rest and copy is as it is; with a place, what stands there alone.
    pub fn show<W: Write>(self, out: &mut W, place: Option<Place>) -> io::Result<()> {
        show_heading(out, "Why each letter, rest and copy is as it is")?;
        let mut any = false;
        for mark in self.marks.as_slice() {
            if place.is_none() || place == Some(mark.place) {
                self.show_mark(out, *mark)?;
                any = any || mark.is_letter() || mark.stores();
            }
        }
        if let Some(place) = place
            && !any
        {
            let place = Term(place);
            writeln!(out, "  no letter, rest or copy stands at {place}")?;
        }
        Ok(())
    }

    /// The why of a mark, where it is a letter, a rest or an `f` or `i` that copied.
    fn show_mark<W: Write>(self, out: &mut W, mark: Mark<'d>) -> io::Result<()> {
        match mark.token() {
            Token::Letter(step) => Letter::new(self.marks, mark, step, self.key).show(out),
            Token::Rest => self.show_rest(out, mark),
            Token::WholeBars(Some(count)) => self.show_whole_bars(out, mark, count),
            Token::Figure(Figure::Repeat | Figure::Bar) => {
                show_copies(out, self.marks, self.notes, mark)
            }
            _ => Ok(()),
        }
    }

    fn show_rest<W: Write>(self, out: &mut W, rest: Mark<'d>) -> io::Result<()> {
        let place = Term(rest.place);
        writeln!(out, "  rest at {place}")?;
        let before = Before::new(self.marks, rest.number);
        show_pattern_length(out, before)?;
        show_waiting(out, before)
    }

    fn show_whole_bars<W: Write>(self, out: &mut W, rest: Mark<'d>, count: u16) -> io::Result<()> {
        let place = Term(rest.place);
        let bars = Counted(u32::from(count), "bar");
        writeln!(out, "  whole-bar rest at {place}, {bars}")?;
        writeln!(
            out,
            "    length      none of its own, it lasts as long as its bar; the pattern does not step"
        )?;
        show_waiting(out, Before::new(self.marks, rest.number))
    }
}

/// A sign that waits is not used up by a rest.
fn show_waiting<W: Write>(out: &mut W, before: Before<'_, '_>) -> io::Result<()> {
    match before.sign() {
        Some(sign) => writeln!(out, "    sign        {sign} waits on for a letter"),
        None => Ok(()),
    }
}
