// The first layer: the typed line, with a ruler of places, and the remarks under it.
use crate::pieces::{Piece, Pieces};
use crate::refusals::{last_line, show_refusal};
use crate::shown::{MARGIN, Shown};
use rows::headings::show_heading;
use rows::text::Text;
use scan::characters::count_characters;
use scan::lines::{Line, Lines, Offset, Part};
use std::io;
use std::io::Write;

/// So many line ends are named.
const NAMED: usize = 8;

/// So many tens of places fit the longest text, and a few places more, above which the next ten's
/// number is cut.
const TENS: usize = 6553;

/// The ruler above a piece of the data: the first place, and each tenth by its number.
fn show_ruler<W: Write>(out: &mut W, piece: Piece<'_>) -> io::Result<()> {
    let label = "  place";
    write!(out, "{label:MARGIN$}")?;
    // By number: tens of places are shown, and no list has them.
    for before in piece.before / 10..piece.end.div_ceil(10) {
        let first = if before == 0 { '1' } else { '.' };
        let tens = before + 1;
        if tens <= TENS {
            write!(out, "{first}...:{tens:.>4}0")?;
        } else {
            out.write_all(b"....:6....")?;
        }
    }
    writeln!(out)
}

/// What the line of an offset has before it.
fn beginning_of_line(text: &[u8], offset: Offset) -> &[u8] {
    last_line(text.get(..offset.0 as usize).unwrap_or(text))
}

/// A line in pieces, the first with its number.
fn show_pieces<W: Write>(out: &mut W, line: &[u8], number: Line) -> io::Result<()> {
    for piece in Pieces::new(line) {
        let text = Text(piece.bytes);
        if piece.before == 0 {
            let number = number.0;
            writeln!(out, "  line {number:<2} {text}")?;
        } else {
            let margin = "";
            writeln!(out, "{margin:MARGIN$}{text}")?;
        }
    }
    Ok(())
}

/// The place of an offset in the data: one more than the characters before it. Of text that is not
/// well-formed, a byte that can only continue a character counts for none.
fn place_at(data: Part<'_>, offset: Offset) -> usize {
    let size = offset.0.saturating_sub(data.start.0) as usize;
    let before = data.bytes.get(..size).unwrap_or(data.bytes);
    count_characters(before).saturating_add(1)
}

/// Whether an offset stands in a part or at its end.
fn reaches(part: Part<'_>, offset: Offset) -> bool {
    part.start.0 <= offset.0 && offset.0 <= part.end().0
}

impl<'a, 'd> Shown<'a, 'd> {
    // ---- the lines of the field form

    /// The lines, with what was found in each; of that which has the data only the beginning, since
    /// the data is shown on its own.
    fn show_lines<W: Write>(&self, out: &mut W) -> io::Result<()> {
        let whole = self.text.split(|byte| *byte == b'\n');
        for (line, bytes) in Lines::new(self.text).zip(whole) {
            match self.data {
                Some(data) if reaches(line.content, data.start) => {
                    show_pieces(out, beginning_of_line(self.text, data.start), line.number)?;
                }
                _ => {
                    show_pieces(out, bytes, line.number)?;
                    self.show_findings(out, |finding| finding.line() == Some(line.number))?;
                }
            }
        }
        Ok(())
    }

    // ---- the data

    /// Whether a caret stands under a place: something was found or refused there.
    fn is_remarked(&self, place: usize) -> bool {
        let refused = self.refusal.and_then(|stop| stop.place);
        self.findings
            .iter()
            .filter_map(|finding| finding.place())
            .chain(refused)
            .any(|at| at.0 as usize == place)
    }

    /// The last place of a piece that has a caret, from 0, if one has.
    fn last_remarked(&self, piece: Piece<'_>) -> Option<usize> {
        (piece.before..piece.end)
            .rev()
            .find(|before| self.is_remarked(before.saturating_add(1)))
    }

    /// A row of carets under a piece of the data, where something is remarked there.
    fn show_carets<W: Write>(&self, out: &mut W, piece: Piece<'_>) -> io::Result<()> {
        let Some(last) = self.last_remarked(piece) else {
            return Ok(());
        };
        let margin = "";
        write!(out, "{margin:MARGIN$}")?;
        // A place is no item of a list.
        for before in piece.before..=last {
            out.write_all(if self.is_remarked(before.saturating_add(1)) {
                b"^"
            } else {
                b" "
            })?;
        }
        writeln!(out)
    }

    /// The data in pieces, each with its ruler and what is remarked there.
    fn show_data<W: Write>(&self, out: &mut W, data: &[u8]) -> io::Result<()> {
        for piece in Pieces::new(data) {
            show_ruler(out, piece)?;
            let label = "  data";
            let text = Text(piece.bytes);
            writeln!(out, "{label:MARGIN$}{text}")?;
            self.show_carets(out, piece)?;
            self.show_findings(out, |finding| match finding.place() {
                Some(place) => piece.before < place.0 as usize && place.0 as usize <= piece.end,
                None => false,
            })?;
        }
        Ok(())
    }

    /// The places of the line ends that were read as blanks, the first of them.
    fn show_line_ends<W: Write>(&self, out: &mut W) -> io::Result<()> {
        let Some(data) = self.data else {
            return Ok(());
        };
        let ends = self
            .marks
            .as_slice()
            .iter()
            .filter(|mark| matches!(mark.text, [b'\n', ..]));
        let mut any = false;
        for (named, end) in ends.enumerate() {
            if named == NAMED {
                return writeln!(out, " ..");
            }
            let place = place_at(data, end.start);
            if any {
                write!(out, ", {place}")?;
            } else {
                let margin = "";
                write!(
                    out,
                    "{margin:MARGIN$}line ends that are read as blanks, by place: {place}"
                )?;
            }
            any = true;
        }
        if any {
            writeln!(out, " (--lines reads each line as a text of its own)")?;
        }
        Ok(())
    }

    /// The first layer.
    pub fn show_typed<W: Write>(&self, out: &mut W) -> io::Result<()> {
        show_heading(out, "1. The typed line")?;
        if Lines::new(self.text).any(|line| line.field().is_some()) {
            self.show_lines(out)?;
            writeln!(out)?;
        }
        if let Some(data) = self.data {
            self.show_data(out, data.bytes)?;
        }
        self.show_line_ends(out)?;
        match self.refusal {
            Some(stop) => show_refusal(out, self.text, stop),
            None => Ok(()),
        }
    }
}
