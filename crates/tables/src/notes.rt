// The third layer: the notes, a row for each record; whole-bar rests that follow each other alike
// share one.
use crate::table::{Table, show_rows};
use marks::kind::Kind;
use marks::lookback::{Mark, Marks};
use marks::records::{Beam, Note, NoteMark, Notes};
use rows::columns::Columns;
use rows::headings::show_heading;
use rows::terms::{Dots, Term};
use std::alloc::Global;
use std::io::Write;
use std::{fmt, io};
use stores::note::{BAR_NUMBER, NoteKind};
use tokens::cut::Place;
use tokens::kinds::Figure;
use tokens::rhythm::Length;

// Lengths and pitches take so many columns.
const LENGTHS: usize = 13;

const PITCHES: usize = 15;

/// A duration and its dots; none of a whole-bar rest.
#[derive(Clone, Copy)]
struct NoteLength(Option<Length>);

impl fmt::Display for NoteLength {
    fn fmt<W: fmt::Write>(&self, f: &mut fmt::Formatter<W>) -> fmt::Result {
        let Some(length) = self.0 else {
            return Ok(());
        };
        let duration = Term(length.duration);
        let dots = Dots(length.dots);
        write!(f, "{duration:<7}{dots}")
    }
}

/// The pitches of a note, a space between two.
#[derive(Clone, Copy)]
struct Pitches<'a>(Note<'a>);

impl<'a> fmt::Display for Pitches<'a> {
    fn fmt<W: fmt::Write>(&self, f: &mut fmt::Formatter<W>) -> fmt::Result {
        let mut space = "";
        // By number: tried over `filter_map`, and the proof that `space` is text didn't close.
        for which in 0..self.0.pitch_count() {
            if let Some(pitch) = self.0.pitch(which) {
                let pitch = Term(pitch);
                write!(f, "{space}{pitch}")?;
                space = " ";
            }
        }
        Ok(())
    }
}

// ---- notations

fn tie(note: Note<'_>) -> Option<&'static str> {
    match (note.tie_ends(), note.tie_starts()) {
        (true, true) => Some("tie ends and starts"),
        (true, false) => Some("tie ends"),
        (false, true) => Some("tie starts"),
        (false, false) => None,
    }
}

fn beam(note: Note<'_>) -> Option<&'static str> {
    match note.beam()? {
        Beam::Start => Some("beam starts"),
        Beam::Inside => Some("beam"),
        Beam::End => Some("beam ends"),
    }
}

fn mark(mark: NoteMark) -> &'static str {
    match mark {
        NoteMark::Fermata => "fermata",
        NoteMark::Trill => "trill",
    }
}

/// The notations of a note, and whether it was copied, a comma between two.
#[derive(Clone, Copy)]
struct Notations<'a> {
    note: Note<'a>,
    copied: bool,
}

impl<'a> fmt::Display for Notations<'a> {
    fn fmt<W: fmt::Write>(&self, f: &mut fmt::Formatter<W>) -> fmt::Result {
        let mut comma = "";
        if let Some(tie) = tie(self.note) {
            f.write_str(tie)?;
            comma = ", ";
        }
        if let Some(beam) = beam(self.note) {
            write!(f, "{comma}{beam}")?;
            comma = ", ";
        }
        if let Some(tuplet) = self.note.tuplet() {
            let actual = tuplet.actual;
            let normal = tuplet.normal;
            write!(f, "{comma}tuplet {actual}:{normal}")?;
            comma = ", ";
        }
        // By number: a mark is a bit of a word.
        for which in 0..self.note.mark_count() {
            let mark = mark(self.note.mark(which));
            write!(f, "{comma}{mark}")?;
            comma = ", ";
        }
        if self.copied {
            write!(f, "{comma}copy")?;
        }
        Ok(())
    }
}

// ---- rows

/// The number of the first mark from one number on that has this place or a later one.
fn mark_at(marks: &[Mark<'_>], from: usize, place: Place) -> usize {
    match marks.get(from..) {
        Some(left) => from.saturating_add(
            left.iter()
                .take_while(|mark| mark.place.0 < place.0)
                .count(),
        ),
        None => from,
    }
}

/// The notes with the marks that stored them, and the number of the mark that stored the note
/// before, since each mark is passed once for all notes.
#[derive(Clone, Copy)]
struct NoteTable<'a, 'd> {
    alloc: Global,
    notes: Notes<'a>,
    marks: &'a Marks<'d>,
    mark: usize,
}

impl<'a, 'd> NoteTable<'a, 'd> {
    /// Whether an `f` or an `i` copied the note.
    fn is_copied(&mut self, note: Note<'a>) -> bool {
        let marks = self.marks.as_slice();
        self.mark = mark_at(marks, self.mark, note.place());
        match marks.get(self.mark) {
            Some(mark) => matches!(mark.kind, Kind::Figure(Figure::Repeat | Figure::Bar)),
            None => false,
        }
    }
}

impl<'a, 'd> Table for NoteTable<'a, 'd> {
    fn len(&self) -> usize {
        self.notes.len()
    }

    fn show<W: Write>(&mut self, out: &mut W, number: usize) -> io::Result<()> {
        let Some(note) = self.notes.get(number) else {
            return Ok(());
        };
        let number = number.saturating_add(1);
        let place = note.place().0;
        let kind = Term(note.kind());
        let length = Columns(NoteLength(note.length()), LENGTHS);
        let pitches = Columns(Pitches(note), PITCHES);
        let copied = self.is_copied(note);
        let notations = Notations { note, copied };
        let alloc = self.alloc;
        let row = format!(in alloc;
            "{number:>6}{place:>8}  {kind:<16}{length}{pitches} {notations}"
        )?;
        let row = row.trim_end();
        writeln!(out, "{row}")
    }

    /// Whole-bar rests are alike, where all that they have but their bar is the same.
    fn are_alike(&self, number: usize, other: usize) -> bool {
        if let Some(note) = self.notes.get(number)
            && let Some(other) = self.notes.get(other)
        {
            let words = note.0;
            let others = other.0;
            note.kind() == NoteKind::WholeBarRest && words[..BAR_NUMBER] == others[..BAR_NUMBER]
        } else {
            false
        }
    }
}

/// The third layer. Records and marks stand in the order of their places.
pub fn show_notes<W: Write>(
    out: &mut W,
    alloc: Global,
    notes: Notes<'_>,
    marks: &Marks<'_>,
) -> io::Result<()> {
    show_heading(out, "3. The notes")?;
    writeln!(
        out,
        "   no.   place  kind            length       pitches         notations"
    )?;
    let mut table = NoteTable {
        alloc,
        notes,
        marks,
        mark: 0,
    };
    show_rows(out, &mut table, "the same")
}
