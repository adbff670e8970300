// Reads each line of standard input and prints its records, a row each; of a refused line the
// number and the place. Its standard input is the thirteen lines of crates/rules/proofs/Lines.antt,
// in fourteen texts.
#![tactic(auto)]

ghost use Rattle.std.specs.Prelude.{OnOk};
ghost use Rattle.std.specs.Io.KnownBytes.{Appends};
ghost use Rattle.lines.specs.Rows.{words_row, record_row};

use reader::read::{Counts, read};
use std::io;
use std::io::{Read, Write};
use stores::cells::{BAR, FIRST_PITCH, NOTE, PITCH, natural};
use stores::diagnostic::{Diagnostic, MAX_DIAGNOSTICS};
use stores::note::PITCH_COUNT;
use view::refusal::Stop;

// Lent for every line, since a reading has no heap: 16 notes, 16 bars, 16 notes of a figure, 1,024
// diagnostics.
const NOTES: usize = 16 * NOTE;

const BARS: usize = 16 * BAR;

const FIGURE: usize = 16 * NOTE;

// Standard input has at most so many bytes.
const INPUT: usize = 4096;

// ---- rows

// Words, a space before each.
fn print_words<W: Write>(out: &mut W, words: &[i32]) -> io::Result<()>
    ensures { OnOk result (Appends (W.contents out.old) (W.contents out.new)
        (words_row words.now)) }
{
    for word in words {
        write!(out, " {word}")?;
    }
    Ok(())
}

fn print_note<W: Write>(out: &mut W, note: &[i32; NOTE]) -> io::Result<()> {
    out.write_all(b"note")?;
    print_words(out, &note[..FIRST_PITCH])?;
    let (pitches, _) = note[FIRST_PITCH..].as_chunks::<PITCH>();
    for pitch in pitches.iter().take(natural(note[PITCH_COUNT]) as usize) {
        out.write_all(b", pitch")?;
        print_words(out, pitch)?;
    }
    out.write_all(b"\n")
}

// A record behind its name.
fn print_record<W: Write>(out: &mut W, name: &[u8], words: &[i32]) -> io::Result<()>
    ensures { OnOk result (Appends (W.contents out.old) (W.contents out.new)
        (record_row name.now words.now)) }
{
    out.write_all(name)?;
    print_words(out, words)?;
    out.write_all(b"\n")
}

fn print_reading<W: Write>(
    out: &mut W,
    reading: Result<Counts, Stop>,
    notes: &[i32],
    bars: &[i32],
    diagnostics: &[Diagnostic],
) -> io::Result<()> {
    let counts = match reading {
        Ok(counts) => counts,
        Err(stop) => {
            let number = u32::from(stop.refusal);
            let place = stop.place.map_or(0, |place| place.0);
            return writeln!(out, "refused {number} at {place}");
        }
    };
    let (notes, _) = notes.as_chunks::<NOTE>();
    for note in notes.iter().take(counts.notes as usize) {
        print_note(out, note)?;
    }
    let (bars, _) = bars.as_chunks::<BAR>();
    for bar in bars.iter().take(counts.bars as usize) {
        print_record(out, b"bar", bar)?;
    }
    for diagnostic in diagnostics.iter().take(counts.diagnostics as usize) {
        let Diagnostic {
            number,
            place_kind,
            place,
            value_kind,
            start,
            end,
        } = *diagnostic;
        let words = [number, place_kind, place, value_kind, start, end];
        print_record(out, b"diagnostic", &words)?;
    }
    Ok(())
}

// ---- lines

// Each line, and what came of it.
fn read_lines<W: Write>(out: &mut W, input: &[u8]) -> io::Result<()> {
    let mut notes = [0i32; NOTES];
    let mut bars = [0i32; BARS];
    let mut figure = [0i32; FIGURE];
    let mut diagnostics = [Diagnostic::default(); MAX_DIAGNOSTICS];
    for line in input.split_inclusive(|byte| *byte == b'\n') {
        let text = line.strip_suffix(b"\n").unwrap_or(line);
        out.write_all(text)?;
        out.write_all(b"\n")?;
        let reading = read(text, &mut notes, &mut bars, &mut figure, &mut diagnostics);
        print_reading(out, reading, &notes, &bars, &diagnostics)?;
    }
    Ok(())
}

fn main(rt: HostRuntime) -> io::Result<()> {
    let mut input = Vec::new(rt.alloc());
    rt.reader().take(INPUT as u64).read_to_end(&mut input)?;
    let mut out = io::writer(&rt);
    read_lines(&mut out, input.as_slice())
}
