// The fourth layer: the bars; those of whole-bar rests that follow each other alike share a row.
use crate::table::{Table, show_rows};
use marks::lookback::Marks;
use marks::records::{Bars, Notes};
use rows::columns::Columns;
use rows::headings::show_heading;
use rows::terms::{Signature, Term};
use std::io::Write;
use std::{fmt, io};
use stores::bar::Bar;
use stores::note::NoteKind;

// Spans, clefs, keys and meters take so many columns, with the space behind them.
const SPANS: usize = 10;

const CLEFS: usize = 13;

const KEYS: usize = 10;

const METERS: usize = 12;

/// Whether no field sets a clef or key; and then, whether nobody sets one for the first bar.
#[derive(Clone, Copy)]
pub struct Defaults {
    pub clef: bool,
    pub key: bool,
}

impl Defaults {
    /// What nobody sets before the first record.
    fn before_notes(self, marks: &Marks<'_>) -> Defaults {
        let list = marks.as_slice();
        let first = list.iter().position(|mark| mark.stores()).unwrap_or(0);
        let clef = marks.latest(first, |mark| match mark.clef() {
            Some(value) => value.clef.is_some(),
            None => false,
        });
        let key = marks.latest(first, |mark| mark.is_key());
        Defaults {
            clef: self.clef && clef.is_none(),
            key: self.key && key.is_none(),
        }
    }
}

/// The numbers from 1 of a bar's first and last note.
#[derive(Clone, Copy)]
struct Span {
    first: u32,
    count: u32,
}

impl fmt::Display for Span {
    fn fmt<W: fmt::Write>(&self, f: &mut fmt::Formatter<W>) -> fmt::Result {
        let first = self.first.saturating_add(1);
        write!(f, "{first}")?;
        if self.count != 1 {
            let last = self.first.saturating_add(self.count);
            write!(f, " to {last}")?;
        }
        Ok(())
    }
}

/// What a bar sets, if it sets it; with a star where nobody set it, so that it holds by default.
// The flag is no part of the value: the fields and the marks tell it, not the bar's record.
#[derive(Clone, Copy)]
struct Setting<T> {
    value: Option<T>,
    by_default: bool,
}

impl<T: fmt::Display> fmt::Display for Setting<T> {
    fn fmt<W: fmt::Write>(&self, f: &mut fmt::Formatter<W>) -> fmt::Result {
        match &self.value {
            Some(value) => {
                let star = if self.by_default { "*" } else { "" };
                write!(f, "{value}{star}")
            }
            None => f.write_str("-"),
        }
    }
}

/// The bars with their notes, and what holds by default in the first one.
#[derive(Clone, Copy)]
struct BarTable<'a> {
    bars: Bars<'a>,
    notes: Notes<'a>,
    defaults: Defaults,
}

impl<'a> BarTable<'a> {
    /// Whether all that a bar has is a whole-bar rest.
    fn is_rest(&self, bar: Bar) -> bool {
        match self.notes.get(bar.first as usize) {
            Some(note) => bar.count == 1 && note.kind() == NoteKind::WholeBarRest,
            None => false,
        }
    }
}

impl<'a> Table for BarTable<'a> {
    fn len(&self) -> usize {
        self.bars.len()
    }

    fn show<W: Write>(&mut self, out: &mut W, number: usize) -> io::Result<()> {
        let Some(bar) = self.bars.get(number) else {
            return Ok(());
        };
        let is_first = number == 0;
        let number = number.saturating_add(1);
        let span = Span {
            first: bar.first,
            count: bar.count,
        };
        let clef = Setting {
            value: bar.clef.map(|clef| Term(clef)),
            by_default: is_first && self.defaults.clef,
        };
        let key = Setting {
            value: bar.fifths.map(|fifths| Signature(fifths)),
            by_default: is_first && self.defaults.key,
        };
        let meter = Setting {
            value: bar.meter.map(|meter| Term(meter)),
            by_default: false,
        };
        let span = Columns(span, SPANS);
        let clef = Columns(clef, CLEFS);
        let key = Columns(key, KEYS);
        let meter = Columns(meter, METERS);
        let left = Term(bar.left);
        let right = Term(bar.right);
        writeln!(
            out,
            "{number:>6}  {span} {clef} {key} {meter} {left:<15}{right}"
        )
    }

    /// Bars of a whole-bar rest are alike, where nothing but the rest is another.
    fn are_alike(&self, number: usize, other: usize) -> bool {
        if let Some(bar) = self.bars.get(number)
            && let Some(other) = self.bars.get(other)
        {
            let alike = Bar {
                first: bar.first,
                ..other
            };
            self.is_rest(bar) && self.is_rest(other) && bar == alike
        } else {
            false
        }
    }
}

/// The fourth layer.
pub fn show_bars<W: Write>(
    out: &mut W,
    bars: Bars<'_>,
    notes: Notes<'_>,
    marks: &Marks<'_>,
    unset: Defaults,
) -> io::Result<()> {
    show_heading(
        out,
        "4. The bars (-: nothing set here, *: set by nobody, so by default)",
    )?;
    writeln!(
        out,
        "   bar  notes      clef          key        meter        left           right"
    )?;
    let mut table = BarTable {
        bars,
        notes,
        defaults: unset.before_notes(marks),
    };
    show_rows(out, &mut table, "the same, a whole-bar rest each")
}
