// The records that an `f` or `i` copied.
use marks::lookback::{Mark, Marks};
use marks::records::{Note, Notes};
use rows::terms::Term;
use std::io::Write;
use std::{fmt, io};
use tokens::cut::Place;

// So many copies are named.
const NAMED: usize = 16;

/// The pitches of a copy: each is that of the letter that stored it, and one behind the copy's
/// place joined it.
#[derive(Clone, Copy)]
struct Copied<'a> {
    note: Note<'a>,
    place: Place,
}

impl<'a> fmt::Display for Copied<'a> {
    fn fmt<W: fmt::Write>(&self, f: &mut fmt::Formatter<W>) -> fmt::Result {
        let count = self.note.pitch_count();
        if count == 0 {
            return f.write_str("a rest");
        }
        let mut comma = "";
        // By number: tried over `filter_map`, and the proof that `comma` is text didn't close.
        for which in 0..count {
            if let Some(pitch) = self.note.pitch(which) {
                let by = if self.place.0 < pitch.place.0 {
                    "joined by"
                } else {
                    "as"
                };
                let place = Term(pitch.place);
                let pitch = Term(pitch);
                write!(f, "{comma}{pitch} {by} the letter at {place}")?;
                comma = ", ";
            }
        }
        Ok(())
    }
}

/// The records that an `f` or `i` stored, the first of them at most; none where it stored none.
pub(crate) fn show_copies<W: Write>(
    out: &mut W,
    marks: &Marks<'_>,
    notes: Notes<'_>,
    mark: Mark<'_>,
) -> io::Result<()> {
    let Some(last) = mark.stored else {
        return Ok(());
    };
    writeln!(
        out,
        "  copied by {mark}: signs, octave and pattern here change nothing, and ties are not copied"
    )?;
    let first = match marks.latest(mark.number, |other| other.stores()) {
        Some(other) => other.stored.map_or(0, |number| number.saturating_add(1)),
        None => 0,
    };
    // The number is shown.
    for number in (first..=last).take(NAMED) {
        if let Some(note) = notes.get(number) {
            let number = number.saturating_add(1);
            let copied = Copied {
                note,
                place: mark.place,
            };
            writeln!(out, "    note {number:<7}{copied}")?;
        }
    }
    if NAMED <= last.saturating_sub(first) {
        writeln!(out, "    ..")?;
    }
    Ok(())
}
