// Shows incipits in four layers: the typed line with a ruler of places, its marks, the notes, the
// bars; and apart from them why each letter, rest and copy is as it is. A text is an argument or
// comes from standard input, where a line that is exactly `---` stands between two, or, with
// `--lines`, each line is one. The line end behind a text is no part of it.
#![tactic(auto)]

ghost use Rattle.std.specs.Prelude.{◌≤◌, IfOk, length};
ghost use Rattle.rules.specs.Limits.{text_limit};

mod arguments; // arguments.rt: what the program is asked for
mod texts; // texts.rt: the texts of an input

use arguments::{Layer, Options, argument, options_given};
use marks::findings::read_all;
use marks::lookback::Marks;
use marks::records::{Bars, Notes};
use meanings::refusals::show_refusal;
use meanings::shown::Shown;
use reader::fields::fields_of;
use reader::read::{Counts, read};
use reader::state::State;
use rows::headings::show_heading;
use rows::terms::Counted;
use rows::text::Text;
use scan::lines::Part;
use std::alloc::Global;
use std::env::Env;
use std::io;
use std::io::{Read, Write};
use stores::cells::{BAR, NOTE};
use stores::diagnostic::{Diagnostic, Diagnostics, MAX_DIAGNOSTICS};
use tables::bars::{Defaults, show_bars};
use tables::notes::show_notes;
use texts::{is_separator, keysig_line, without_line_end};
use view::refusal::{Refusal, Stop};
use whys::why::{KeyField, Whys};

/// The input is shorter than this.
const INPUT: usize = 131072;

/// Lent for a reading, which has no heap: 4,000 notes, as many in the figure, 4,000 bars, 1,024
/// diagnostics.
const NOTE_WORDS: usize = 4000 * NOTE;

const BAR_WORDS: usize = 4000 * BAR;

// ---- a reading

/// What the fields of a text set: its data, where it has any, the key, and which attributes they
/// leave unset.
#[derive(Clone, Copy)]
struct Settings<'t> {
    data: Option<Part<'t>>,
    key: KeyField,
    unset: Defaults,
}

fn settings_of<'t>(text: &'t [u8], diagnostics: &mut [Diagnostic]) -> Settings<'t>
    requires { length text.now ≤ text_limit }
{
    let fields = fields_of(text, &mut Diagnostics::new(diagnostics));
    let attributes = fields.attributes;
    Settings {
        data: fields.data,
        key: KeyField {
            alters: attributes.alters,
            line: keysig_line(text),
        },
        unset: Defaults {
            clef: attributes.clef.is_none(),
            key: attributes.fifths.is_none(),
        },
    }
}

// ---- a text

/// Whether the data of a text was looked at.
// Refusals are in the order of the checks.
fn is_looked_at(refusal: Option<Stop>) -> bool {
    match refusal {
        Some(stop) => Refusal::NoData < stop.refusal,
        None => true,
    }
}

/// The layers that are asked for; of a refused text the first, and its marks, if its data was
/// looked at.
fn show_layers<'a, 'd, W: Write>(
    out: &mut W,
    alloc: Global,
    shown: Shown<'a, 'd>,
    bars: Bars<'a>,
    settings: Settings<'a>,
    options: Options,
) -> io::Result<()> {
    if options.has(Layer::Line) || shown.refusal.is_some() {
        shown.show_typed(out)?;
    }
    if options.has(Layer::Marks) && is_looked_at(shown.refusal) {
        shown.show_marks(out)?;
    }
    if shown.refusal.is_some() {
        return Ok(());
    }
    if options.has(Layer::Notes) {
        show_notes(out, alloc, shown.notes, shown.marks)?;
    }
    if options.has(Layer::Bars) {
        show_bars(out, bars, shown.notes, shown.marks, settings.unset)?;
    }
    if options.has(Layer::Why) {
        let whys = Whys {
            marks: shown.marks,
            notes: shown.notes,
            key: settings.key,
        };
        whys.show(out, options.letter)?;
    }
    Ok(())
}

/// What came of a text, in the last row.
fn show_outcome<W: Write>(out: &mut W, outcome: Result<Counts, Stop>) -> io::Result<()> {
    writeln!(out)?;
    match outcome {
        Ok(counts) => {
            let notes = Counted(counts.notes, "note");
            let bars = Counted(counts.bars, "bar");
            let diagnostics = Counted(counts.diagnostics, "diagnostic");
            let more = if counts.diagnostics as usize == MAX_DIAGNOSTICS {
                " or more"
            } else {
                ""
            };
            writeln!(out, "accepted: {notes}, {bars}, {diagnostics}{more}")
        }
        Err(stop) => {
            let number = u32::from(stop.refusal);
            writeln!(out, "refused {number}")
        }
    }
}

/// A text that is longer than a reading takes.
fn refuse_long<W: Write>(out: &mut W, text: &[u8]) -> io::Result<()> {
    let stop = Stop::from(Refusal::TooLong);
    show_heading(out, "1. The typed line")?;
    show_refusal(out, text, stop)?;
    show_outcome(out, Err(stop))
}

/// Reads a text and shows it.
fn show_one<W: Write>(out: &mut W, alloc: Global, text: &[u8], options: Options) -> io::Result<()> {
    if State::MAX_INPUT_BYTES < text.len() {
        return refuse_long(out, text);
    }
    let mut notes = [0i32; NOTE_WORDS];
    let mut bars = [0i32; BAR_WORDS];
    let mut figure = [0i32; NOTE_WORDS];
    let mut diagnostics = [Diagnostic::default(); MAX_DIAGNOSTICS];
    let settings = settings_of(text, &mut diagnostics);
    let outcome = read(text, &mut notes, &mut bars, &mut figure, &mut diagnostics);
    let counts = outcome.unwrap_or(Counts {
        notes: 0,
        bars: 0,
        diagnostics: 0,
    });
    let notes = Notes::new(&notes, counts.notes as usize);
    let bars = Bars::new(&bars, counts.bars as usize);
    // By `get`: that the count is no larger would need a clause of `read`.
    let stored = diagnostics
        .get(..counts.diagnostics as usize)
        .unwrap_or(&diagnostics);
    let findings = read_all(alloc, stored)?;
    let data = settings.data.unwrap_or(Part::new(b""));
    let marks = Marks::new(alloc, data, notes)?;
    let shown = Shown {
        text,
        data: settings.data,
        marks: &marks,
        notes,
        findings: findings.as_slice(),
        refusal: outcome.err(),
    };
    show_layers(out, alloc, shown, bars, settings, options)?;
    show_outcome(out, outcome)
}

// ---- the texts of an input

/// A row between two texts.
fn show_rule<W: Write>(out: &mut W) -> io::Result<()> {
    writeln!(out, "\n{:=<80}", "")
}

/// The texts of the input, a line that separates between two.
// Parameters, here and below: a struct of them would be taken apart at the next call.
fn show_all<W: Write>(
    out: &mut W,
    alloc: Global,
    input: &[u8],
    options: Options,
) -> io::Result<()> {
    // By offsets: a text is the slice between two separators, of many lines, which no split gives.
    let mut start = 0usize;
    let mut end = 0usize;
    for line in input.split_inclusive(|byte| *byte == b'\n') {
        let next = end.saturating_add(line.len());
        if is_separator(line) {
            let text = input.get(start..end).unwrap_or(b"");
            show_one(out, alloc, without_line_end(text), options)?;
            if next < input.len() {
                show_rule(out)?;
            }
            start = next;
        }
        end = next;
    }
    match input.get(start..) {
        None | Some([]) => Ok(()),
        Some(text) => show_one(out, alloc, without_line_end(text), options),
    }
}

/// Each line of the input as a text, with its number; an empty line is none.
fn show_lines<W: Write>(
    out: &mut W,
    alloc: Global,
    input: &[u8],
    options: Options,
) -> io::Result<()> {
    let mut any = false;
    for (before, line) in input.split_inclusive(|byte| *byte == b'\n').enumerate() {
        let text = without_line_end(line);
        if !text.is_empty() {
            show_rule(out)?;
            let number = before.saturating_add(1);
            writeln!(out, "Line {number}")?;
            show_one(out, alloc, text, options)?;
            any = true;
        }
    }
    if any {
        Ok(())
    } else {
        out.write_all(b"No line of the input has a text.\n")
    }
}

fn show_input<W: Write>(
    out: &mut W,
    alloc: Global,
    input: &[u8],
    options: Options,
) -> io::Result<()> {
    if input.is_empty() {
        show_one(out, alloc, input, options)
    } else if options.lines {
        show_lines(out, alloc, input, options)
    } else {
        show_all(out, alloc, input, options)
    }
}

// ---- the program

fn show_help<W: Write>(out: &mut W) -> io::Result<()> {
    out.write_all(
        b"Shows Plaine & Easie lines in four layers, and says why each letter, rest and copy is as it is.\n",
    )?;
    out.write_all(b"\n")?;
    out.write_all(
        b"  layers [OPTIONS]          texts from standard input; a line that is exactly --- stands between two\n",
    )?;
    out.write_all(b"  layers [OPTIONS] LINE     this text\n")?;
    out.write_all(b"\n")?;
    out.write_all(b"  --lines                   each line of the input is a text of its own\n")?;
    out.write_all(
        b"  --layer NAME              one layer alone: line, marks, notes, bars or why\n",
    )?;
    out.write_all(
        b"  --letter N                only why the letter, rest or copy at place N is as it is; places count characters\n",
    )?;
    out.write_all(b"  --help                    this\n")?;
    out.write_all(
        b"  --                        what follows is a text, even if it looks like an option\n",
    )
}

// An argument that is not understood.
fn refuse_argument<W: Write>(
    rt: &impl Env,
    out: &mut W,
    input: &mut [u8],
    i: usize,
) -> io::Result<()> {
    out.write_all(b"layers: ")?;
    match argument(rt, i, input) {
        None => out.write_all(b"a value is missing after the last option (layers --help)\n"),
        Some(0) => out.write_all(b"not understood: an empty argument (layers --help)\n"),
        Some(size) => {
            out.write_all(b"not understood: ")?;
            let text = Text(&input[..size]);
            write!(out, "{text}")?;
            out.write_all(b" (a text with blanks needs quotes; layers --help)\n")
        }
    }
}

// The text that is an argument, or the input.
fn input_of<R: Env + Input>(rt: &R, alloc: Global, text: Option<usize>) -> io::Result<Vec<u8>>
    ensures within { IfOk result (λ input. length input.items ≤ 131072) }
{
    let Some(number) = text else {
        let mut input = Vec::new(alloc);
        rt.reader().take(INPUT as u64).read_to_end(&mut input)?;
        // Nothing goes: std's `take` says so of no reader whose bytes aren't known.
        input.truncate(INPUT);
        return Ok(input);
    };
    // std's `arg` fills a slice.
    let mut buffer = [0u8; INPUT];
    let size = argument(rt, number, &mut buffer).unwrap_or(0);
    Ok(Vec::from_slice(alloc, &buffer[..size])?)
}

fn main(rt: HostRuntime) -> io::Result<()> {
    let mut out = io::writer(&rt);
    let alloc = rt.alloc();
    let options = options_given(&rt);
    if options.help {
        return show_help(&mut out);
    }
    if let Some(number) = options.bad {
        // std's `arg` fills a slice.
        let mut buffer = [0u8; INPUT];
        return refuse_argument(&rt, &mut out, &mut buffer, number);
    }
    let input = input_of(&rt, alloc, options.text)?;
    if input.len() == INPUT {
        return out.write_all(b"The input is too long: 131,072 bytes or more.\n");
    }
    show_input(&mut out, alloc, input.as_slice(), options)
}
