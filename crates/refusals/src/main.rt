// Runs the cases of a table, on standard input, through `pae_read` itself, and holds what comes,
// and every lent cell, against it. README.md has the table's format.
#![tactic(auto)]

mod cells; // cells.rt: what is lent, before and after a call
mod table; // table.rt: the lines of the table

use cells::{
    RUBBISH, are_bars_right, are_diagnostics_right, are_notes_right, filled, is_figure_right,
};
use pae::answers::Reading;
use pae::pae_read;
use std::alloc::Global;
use std::io;
use std::io::{Read, Write};
use stores::cells::{BAR, NOTE};
use stores::diagnostic::Diagnostic;
use table::{Case, Lent};

/// The table has at most so many bytes.
const TABLE: usize = 65536;

/// Lent at most, since a reading has no heap: 40,000 notes, 1,000 bars, 1,000 notes of a figure,
/// 2,000 diagnostics. Many more notes don't fit a program's stack.
const NOTES: usize = 40000 * NOTE;

const BARS: usize = 1000 * BAR;

const FIGURE: usize = 1000 * NOTE;

const CELLS: usize = 2000;

/// What came of a case, and whether every cell is as it must be.
#[derive(Clone, Copy)]
struct Told {
    reading: Reading,
    is_right: bool,
}

/// The call that a case asks for, and a look at every cell afterwards.
fn call(
    lent: Lent,
    text: &[u8],
    notes: &mut [i32; NOTES],
    bars: &mut [i32; BARS],
    figure: &mut [i32; FIGURE],
    list: &mut [Diagnostic; CELLS],
) -> Told {
    let note_words = lent.notes.min(NOTES);
    let bar_words = lent.bars.min(BARS);
    let figure_words = lent.figure.min(FIGURE);
    let cells = lent.cells.min(CELLS);
    let reading = pae_read(
        text,
        &mut notes[..note_words],
        &mut bars[..bar_words],
        &mut figure[..figure_words],
        &mut list[..cells],
    );
    Told {
        reading,
        is_right: are_notes_right(&notes[..], reading.notes, note_words)
            && are_bars_right(&bars[..], reading.bars, bar_words)
            && is_figure_right(&figure[..], figure_words)
            && are_diagnostics_right(&list[..], reading.diagnostics, cells),
    }
}

/// The same, with rubbish in every cell.
fn call_lent(lent: Lent, text: &[u8]) -> Told {
    let mut notes = [RUBBISH; NOTES];
    let mut bars = [RUBBISH; BARS];
    let mut figure = [RUBBISH; FIGURE];
    let mut list = [filled(RUBBISH); CELLS];
    call(lent, text, &mut notes, &mut bars, &mut figure, &mut list)
}

/// The case as the table has it, what came, whether the cells are as they must be, and whether all
/// is as the table says.
fn print_row<W: Write>(out: &mut W, case: Case<'_>, told: Told) -> io::Result<()> {
    out.write_all(case.shown)?;
    let Reading {
        number,
        place,
        notes,
        bars,
        diagnostics,
    } = told.reading;
    let cells = if told.is_right { "right" } else { "WRONG" };
    let end = if told.reading == case.expected() {
        ""
    } else {
        ", NOT AS THE TABLE SAYS"
    };
    writeln!(
        out,
        "| {number} at {place}, counts {notes} {bars} {diagnostics}, cells {cells}{end}"
    )
}

/// A line of the table: a heading, which is empty or has a `#` or a byte 0 before it, or a case.
fn run_line<W: Write>(out: &mut W, alloc: Global, line: &[u8]) -> io::Result<()> {
    if matches!(line, [] | [b'#' | 0, ..]) {
        out.write_all(line)?;
        return out.write_all(b"\n");
    }
    let case = Case::new(line);
    let text = case.text(alloc)?;
    print_row(out, case, call_lent(case.lent(), text.as_slice()))
}

fn main(rt: HostRuntime) -> io::Result<()> {
    let alloc = rt.alloc();
    let mut table = Vec::new(alloc);
    rt.reader().take(TABLE as u64).read_to_end(&mut table)?;
    let mut out = io::writer(&rt);
    for line in table.as_slice().split_inclusive(|byte| *byte == b'\n') {
        run_line(&mut out, alloc, line.strip_suffix(b"\n").unwrap_or(line))?;
    }
    Ok(())
}
