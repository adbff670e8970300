// What was found, and what it means.
use crate::shown::{MARGIN, Shown};
use marks::findings::Finding;
use marks::lookback::Mark;
use rows::terms::Term;
use rows::text::Excerpt;
use std::io::Write;
use std::{fmt, io};
use stores::diagnostic::{At, Remark, Value};

/// Where a finding stands, and what it names.
#[derive(Clone, Copy)]
struct Heading<'a> {
    text: &'a [u8],
    finding: Finding,
}

impl<'a> fmt::Display for Heading<'a> {
    fn fmt<W: fmt::Write>(&self, f: &mut fmt::Formatter<W>) -> fmt::Result {
        let number = i32::from(self.finding.remark);
        write!(f, "d{number}")?;
        match self.finding.at {
            At::Data(place) => {
                let place = Term(place);
                write!(f, " at {place}")?;
            }
            At::Line(line) | At::Field(line) => {
                let line = line.0;
                write!(f, " in line {line}")?;
            }
        }
        f.write_str(", `")?;
        match self.finding.value {
            Value::Part(start, end) => {
                let range = start.0 as usize..end.0 as usize;
                let part = Excerpt(self.text.get(range).unwrap_or(b""));
                write!(f, "{part}")?;
            }
            Value::Parentheses => f.write_str("()")?,
            Value::Number(number) => write!(f, "{number}")?,
        }
        f.write_str("`")
    }
}

/// What a finding means.
#[derive(Clone, Copy)]
struct Explanation<'a, 'd> {
    shown: Shown<'a, 'd>,
    finding: Finding,
}

/// What a remark on a line means.
fn meaning_in_line(remark: Remark) -> &'static str {
    match remark {
        Remark::NoField => "this line is no field, it is not read",
        Remark::UnknownKey => "no field with this name is read",
        Remark::Mensural => "a mensural clef, read as the modern one",
        Remark::UnknownClef => "no clef has this name; the line sets none",
        Remark::UnusualKey => {
            "no standard key; what follows an x or b in it is altered all the same"
        }
        _ => "no meter has this form; the line sets none",
    }
}

/// What a sign that no rule reads looks like.
fn likeness(sign: &[u8]) -> &'static str {
    let Ok(sign) = std::str::from_utf8(sign) else {
        return "";
    };
    match sign.chars().next() {
        Some('‘' | '’' | '“' | '”' | '′' | '´' | '`') => {
            "; the octave sign is the straight quote '"
        }
        Some('–' | '—') => "; the rest is the hyphen -",
        Some('a' | 'c' | 'd' | 'e' | 'h' | 'H') => "; the letters are the capitals A to G",
        _ => "",
    }
}

impl<'a, 'd> Explanation<'a, 'd> {
    /// What stands in the way at the mark: the last record of its bar.
    fn explain_filled<W: fmt::Write>(
        &self,
        f: &mut fmt::Formatter<W>,
        mark: Mark<'d>,
    ) -> fmt::Result {
        match self.shown.last_of_bar(mark) {
            Some(last) => write!(f, "not taken: the bar has {last} already"),
            None => f.write_str("not taken"),
        }
    }

    /// What is closed at a mark was opened in an earlier bar.
    fn explain_later_bar<W: fmt::Write>(
        &self,
        f: &mut fmt::Formatter<W>,
        mark: Mark<'d>,
        word: &str,
        opener: Option<Mark<'d>>,
    ) -> fmt::Result {
        let Some(opener) = opener else {
            return Ok(());
        };
        let first = self.shown.bar_at(opener);
        let bar = self.shown.bar_at(mark);
        write!(
            f,
            "this closes the {word} that {opener} opened in bar {first}; this is bar {bar}, so nothing is made of it"
        )
    }

    /// A tie needs a note of the open bar right before it.
    fn explain_tie<W: fmt::Write>(&self, f: &mut fmt::Formatter<W>, mark: Mark<'d>) -> fmt::Result {
        f.write_str(if self.shown.last_of_bar(mark).is_some() {
            "a rest stands before it, which can't be tied"
        } else {
            "this bar has no note before it; a + stands right after its note, before the barline"
        })
    }

    fn explain_figure<W: fmt::Write>(
        &self,
        f: &mut fmt::Formatter<W>,
        mark: Mark<'d>,
    ) -> fmt::Result {
        match self.shown.figure_opener(mark) {
            Some(opener) => write!(f, "the figure that {opener} opened is not closed yet"),
            None => f.write_str("there is no figure to repeat"),
        }
    }

    fn explain_repeat<W: fmt::Write>(
        &self,
        f: &mut fmt::Formatter<W>,
        mark: Mark<'d>,
    ) -> fmt::Result {
        match self.shown.last_of_bar(mark) {
            Some(last) => write!(
                f,
                "i repeats the last bar at a bar's start only, and this bar has {last} already"
            ),
            None => f.write_str("there is no bar before it to repeat"),
        }
    }

    fn explain_sign<W: fmt::Write>(
        &self,
        f: &mut fmt::Formatter<W>,
        mark: Mark<'d>,
    ) -> fmt::Result {
        if mark.is_grace_group() {
            return f.write_str("r ends a grace group, and none is open");
        }
        f.write_str("no rule for this sign")?;
        f.write_str(likeness(mark.text))
    }

    /// What it means at a mark of the data.
    fn explain_mark<W: fmt::Write>(
        &self,
        f: &mut fmt::Formatter<W>,
        mark: Mark<'d>,
    ) -> fmt::Result {
        match self.finding.remark {
            Remark::AfterNotes => self.explain_filled(f, mark),
            Remark::UnknownClef => f.write_str(
                "no clef has this name; it sets none, and one that was set before it stays",
            ),
            Remark::NoMeter => f.write_str(
                "no meter has this form; it sets none, and one that was set before it stays",
            ),
            Remark::OctaveRange => f.write_str("outside octaves 0 to 9; the old octave stays"),
            Remark::LoneColon => f.write_str("a colon alone is no barline"),
            Remark::GroupInLaterBar => {
                self.explain_later_bar(f, mark, "group", self.shown.group_opener(mark))
            }
            Remark::TooFew => {
                f.write_str("a tuplet has three or more; the group is left as it is")
            }
            Remark::GroupCount => f.write_str("a count needs an open ( and digits for 0 to 255"),
            Remark::NoGroup => f.write_str("no ( is open"),
            Remark::TrillAlone => f.write_str("the bar has no note or rest for it yet"),
            Remark::NoRule => self.explain_sign(f, mark),
            Remark::TieAlone => self.explain_tie(f, mark),
            Remark::FigureInLaterBar => {
                self.explain_later_bar(f, mark, "figure", self.shown.figure_opener(mark))
            }
            Remark::NoFigure => self.explain_figure(f, mark),
            Remark::NoBarToRepeat => self.explain_repeat(f, mark),
            Remark::WholeBarCount => {
                f.write_str("the count of bars must be 1 to 1,000; no rest is stored")
            }
            Remark::NoField | Remark::UnknownKey | Remark::Mensural | Remark::UnusualKey => {
                f.write_str(meaning_in_line(self.finding.remark))
            }
        }
    }

    /// Whether a clef or a meter has no value.
    fn is_bare(&self) -> bool {
        match self.finding.value {
            Value::Part(start, end) => {
                matches!(self.finding.remark, Remark::UnknownClef | Remark::NoMeter)
                    && start.0 == end.0
            }
            _ => false,
        }
    }
}

impl<'a, 'd> fmt::Display for Explanation<'a, 'd> {
    fn fmt<W: fmt::Write>(&self, f: &mut fmt::Formatter<W>) -> fmt::Result {
        if self.is_bare() {
            return f.write_str("it has no value, so nothing is set");
        }
        let Some(place) = self.finding.place() else {
            return f.write_str(meaning_in_line(self.finding.remark));
        };
        match self.shown.marks.at(place) {
            Some(mark) => self.explain_mark(f, mark),
            None => Ok(()),
        }
    }
}

impl<'a, 'd> Shown<'a, 'd> {
    /// The findings that are asked for, each in two rows.
    pub(crate) fn show_findings<W: Write, P: Fn(Finding) -> bool>(
        &self,
        out: &mut W,
        is_asked: P,
    ) -> io::Result<()>
        requires { P.IsAlwaysCallable is_asked }
    {
        for finding in self.findings {
            let finding = *finding;
            if is_asked(finding) {
                let heading = Heading {
                    text: self.text,
                    finding,
                };
                let explanation = Explanation {
                    shown: *self,
                    finding,
                };
                let margin = "";
                writeln!(out, "{margin:MARGIN$}{heading}:")?;
                writeln!(out, "{margin:MARGIN$}  {explanation}")?;
            }
        }
        Ok(())
    }
}
