// The second layer: the marks of the data, what each is and what became of it.
use crate::shown::Shown;
use marks::findings::Finding;
use marks::kind::Kind;
use marks::lookback::{Mark, Marks};
use marks::signs::{
    BarlineSign, ClefSign, CountSign, KeySign, MeterSign, OctaveSign, PatternSign, WholeBarsSign,
};
use marks::waiting::Fate;
use rows::headings::show_heading;
use rows::terms::{Alteration, Signature, Term};
use rows::text::Excerpt;
use std::io::Write;
use std::{fmt, io};
use stores::diagnostic::Remark;
use tokens::attributes::Key;
use tokens::cut::Place;
use tokens::kinds::{Figure, Grace, Marking, Token};
use tokens::rhythm::{Edge, Step};

/// What a mark is and what became of it; the records and the findings tell that where `told` says
/// so.
#[derive(Clone, Copy)]
struct Meaning<'a, 'd> {
    shown: Shown<'a, 'd>,
    mark: Mark<'d>,
    remark: Option<Remark>,
    told: bool,
}

impl<'a, 'd> Meaning<'a, 'd> {
    // ---- what is set for a bar

    /// What is set at the start of a bar is lost where no bar follows.
    fn say_lost<W: fmt::Write>(&self, f: &mut fmt::Formatter<W>) -> fmt::Result {
        if !self.told {
            return Ok(());
        }
        let next = self
            .shown
            .marks
            .first_after(self.mark.number, |mark| mark.stores());
        f.write_str(if next.is_none() {
            "; no bar follows, so it is lost"
        } else {
            ""
        })
    }

    /// What became of a clef, a key or a meter.
    fn say_set<W: fmt::Write>(&self, f: &mut fmt::Formatter<W>) -> fmt::Result {
        match self.remark {
            Some(Remark::AfterNotes) => f.write_str(", not taken"),
            Some(Remark::UnknownClef | Remark::NoMeter) => f.write_str(": nothing is set"),
            _ => self.say_lost(f),
        }
    }

    fn say_barline<W: fmt::Write>(&self, f: &mut fmt::Formatter<W>, left: Edge) -> fmt::Result {
        if left == Edge::RepeatStart {
            self.say_lost(f)?;
        }
        f.write_str(if self.told && self.shown.last_of_bar(self.mark).is_none() {
            "; the bar is empty and goes on"
        } else {
            ""
        })
    }

    // ---- groups, beams, figures

    /// What ends here; the mark that opened it, where something is made of it: it was opened in
    /// this bar.
    fn say_end<W: fmt::Write>(
        &self,
        f: &mut fmt::Formatter<W>,
        word: &str,
        opener: Option<Mark<'d>>,
    ) -> Result<Option<Mark<'d>>, fmt::Error> {
        if !self.told {
            write!(f, "end of a {word}")?;
            return Ok(None);
        }
        let Some(opener) = opener else {
            write!(f, "no {word} to end")?;
            return Ok(None);
        };
        write!(f, "{word} ends, opened by {opener}")?;
        if self.shown.bar_at(opener) != self.shown.bar_at(self.mark) {
            f.write_str(" in an earlier bar: nothing is made of it")?;
            return Ok(None);
        }
        Ok(Some(opener))
    }

    fn say_figure<W: fmt::Write>(&self, f: &mut fmt::Formatter<W>) -> fmt::Result {
        let opener = self.shown.figure_opener(self.mark);
        if opener.is_none() {
            let end = self
                .shown
                .marks
                .first_after(self.mark.number, |mark| mark.is_figure_mark());
            f.write_str("figure starts")?;
            return f.write_str(if end.is_none() {
                ", and no ! follows"
            } else {
                ""
            });
        }
        match self.say_end(f, "figure", opener)? {
            Some(opener) if self.shown.notes_between(opener, self.mark).len() == 0 => {
                f.write_str(": of no note")
            }
            _ => Ok(()),
        }
    }

    fn say_beam_end<W: fmt::Write>(&self, f: &mut fmt::Formatter<W>) -> fmt::Result {
        let opener = self.shown.beam_opener(self.mark);
        match self.say_end(f, "beam", opener)? {
            Some(opener) if self.shown.timed_between(opener, self.mark) < 2 => {
                f.write_str(": of fewer than two no beam is made")
            }
            _ => Ok(()),
        }
    }

    fn say_group_end<W: fmt::Write>(&self, f: &mut fmt::Formatter<W>) -> fmt::Result {
        let opener = self.shown.group_opener(self.mark);
        match self.say_end(f, "group", opener)? {
            Some(opener) => self.say_grouped(f, opener),
            None => Ok(()),
        }
    }

    /// What is made of a group of the open bar.
    fn say_grouped<W: fmt::Write>(
        &self,
        f: &mut fmt::Formatter<W>,
        opener: Mark<'d>,
    ) -> fmt::Result {
        if self.remark == Some(Remark::TooFew) {
            return f.write_str(": of fewer than three no tuplet is made");
        }
        match self.shown.timed_between(opener, self.mark) {
            0 => f.write_str(": without a note or rest, graces apart, nothing is made of it"),
            1 if !self.shown.has_count(self.mark) => f.write_str(": a fermata"),
            _ => match self.shown.tuplet_between(opener, self.mark) {
                Some(tuplet) => {
                    let actual = tuplet.actual;
                    write!(f, ": a tuplet of {actual}")
                }
                None => Ok(()),
            },
        }
    }

    // ---- what it did, and what takes it

    /// Its words where nothing tells what it did, where it was remarked on, and where it was done.
    fn outcome(
        &self,
        untold: &'static str,
        remark: Remark,
        failed: &'static str,
        done: &'static str,
    ) -> &'static str {
        if !self.told {
            untold
        } else if self.remark == Some(remark) {
            failed
        } else {
            done
        }
    }

    /// What became of it, where the records tell that; a fate is looked for only then.
    fn say_fate<W: fmt::Write, S: Fn(&Marks<'d>, Mark<'d>) -> Fate<'d>>(
        &self,
        f: &mut fmt::Formatter<W>,
        fate: S,
    ) -> fmt::Result
        requires { S.IsAlwaysCallable fate }
    {
        if self.told {
            let fate = fate(self.shown.marks, self.mark);
            write!(f, "{fate}")?;
        }
        Ok(())
    }

    fn say_letter<W: fmt::Write>(&self, f: &mut fmt::Formatter<W>, step: Step) -> fmt::Result {
        let step = Term(step);
        write!(f, "letter {step}")?;
        f.write_str(if self.told && !self.mark.stores() {
            ", joins a chord"
        } else {
            ""
        })
    }

    fn say_tie<W: fmt::Write>(&self, f: &mut fmt::Formatter<W>) -> fmt::Result {
        f.write_str("tie")?;
        if self.remark == Some(Remark::TieAlone) {
            return f.write_str(", no note right before it in this bar");
        }
        self.say_fate(f, |marks, mark| Fate::of_tie(marks, mark))
    }

    fn say_trill<W: fmt::Write>(&self, f: &mut fmt::Formatter<W>) -> fmt::Result {
        f.write_str("trill")?;
        f.write_str(if self.remark == Some(Remark::TrillAlone) {
            ", no note or rest before it in this bar"
        } else if self.told {
            " on the last note or rest"
        } else {
            ""
        })
    }

    // ---- by the kind of the mark

    fn say_marking<W: fmt::Write>(
        &self,
        f: &mut fmt::Formatter<W>,
        marking: Marking,
    ) -> fmt::Result {
        let marks = self.shown.marks;
        match marking {
            Marking::BeamOpen => {
                let fate = Fate::of_beam(marks, self.mark);
                write!(f, "beam starts{fate}")
            }
            Marking::BeamClose => self.say_beam_end(f),
            Marking::GroupOpen => {
                let fate = Fate::of_group(marks, self.mark);
                write!(f, "group starts{fate}")
            }
            Marking::GroupCount(count) => {
                let sign = CountSign(count);
                write!(f, "{sign}")?;
                f.write_str(if self.remark == Some(Remark::GroupCount) {
                    ", not taken"
                } else {
                    ""
                })
            }
            Marking::GroupClose => self.say_group_end(f),
            Marking::Tie => self.say_tie(f),
            Marking::Trill => self.say_trill(f),
        }
    }

    fn say_key<W: fmt::Write>(&self, f: &mut fmt::Formatter<W>, key: Key) -> fmt::Result {
        let sign = KeySign(key);
        write!(f, "{sign}")?;
        if self.remark == Some(Remark::UnusualKey) {
            let signature = Signature(key.fifths);
            write!(f, ", not standard: its signature is {signature}")?;
        }
        self.say_set(f)
    }
}

impl<'a, 'd> fmt::Display for Meaning<'a, 'd> {
    fn fmt<W: fmt::Write>(&self, f: &mut fmt::Formatter<W>) -> fmt::Result {
        let marks = self.shown.marks;
        match self.mark.token() {
            Token::Clef(clef) => {
                let sign = ClefSign(clef);
                write!(f, "{sign}")?;
                self.say_set(f)
            }
            Token::Key(key) => self.say_key(f, key),
            Token::Meter(meter) => {
                let sign = MeterSign(meter);
                write!(f, "{sign}")?;
                self.say_set(f)
            }
            Token::Octave(octave) => {
                let sign = OctaveSign(octave);
                write!(f, "{sign}")
            }
            Token::Duration(_) => {
                let sign = PatternSign(self.mark.text);
                write!(f, "{sign}")
            }
            Token::Accidental(accidental) => {
                let alteration = Alteration(accidental.alter());
                let fate = Fate::of_sign(marks, self.mark);
                write!(f, "{alteration}{fate}")
            }
            Token::Letter(step) => self.say_letter(f, step),
            Token::Chord => {
                f.write_str("chord")?;
                self.say_fate(f, |marks, mark| Fate::of_chord(marks, mark))
            }
            Token::Rest => f.write_str("rest"),
            Token::WholeBars(count) => {
                let sign = WholeBarsSign(count);
                write!(f, "{sign}")
            }
            Token::Barline(barline) => {
                let sign = BarlineSign(barline);
                write!(f, "{sign}")?;
                self.say_barline(f, barline.left)
            }
            Token::Grace(grace) => {
                f.write_str(match grace {
                    Grace::Acciaccatura => "slashed grace",
                    Grace::Appoggiatura => "grace",
                })?;
                self.say_fate(f, |marks, mark| Fate::of_grace(marks, mark))
            }
            Token::GraceGroup(true) => f.write_str("grace group starts"),
            Token::GraceGroup(false) => f.write_str(self.outcome(
                "end of a grace group",
                Remark::NoRule,
                "no grace group to end",
                "grace group ends",
            )),
            Token::Figure(Figure::Mark) => self.say_figure(f),
            Token::Figure(Figure::Repeat) => f.write_str(self.outcome(
                "repeat of a figure",
                Remark::NoFigure,
                "no figure to repeat",
                "repeats the figure",
            )),
            Token::Figure(Figure::Bar) => f.write_str(self.outcome(
                "repeat of a bar",
                Remark::NoBarToRepeat,
                "no bar to repeat here",
                "repeats the last bar",
            )),
            Token::Marking(marking) => self.say_marking(f, marking),
            Token::Blank => f.write_str("blank"),
            Token::Colon => f.write_str("a colon alone is no barline"),
            Token::Unknown => f.write_str("no rule for it"),
        }
    }
}

/// The numbers of what was found at a place, in brackets.
#[derive(Clone, Copy)]
struct Numbers<'a> {
    findings: &'a [Finding],
    place: Place,
}

impl<'a> fmt::Display for Numbers<'a> {
    fn fmt<W: fmt::Write>(&self, f: &mut fmt::Formatter<W>) -> fmt::Result {
        let mut before = " (";
        for finding in self.findings {
            if finding.place() == Some(self.place) {
                let number = i32::from(finding.remark);
                write!(f, "{before}d{number}")?;
                before = ", ";
            }
        }
        f.write_str(if before == ", " { ")" } else { "" })
    }
}

impl<'a, 'd> Shown<'a, 'd> {
    /// The second layer: a row for each mark but blanks, which do nothing.
    pub fn show_marks<W: Write>(&self, out: &mut W) -> io::Result<()> {
        show_heading(out, "2. Its marks")?;
        writeln!(out, "   place  mark        what it is")?;
        let told = self.tells_all();
        for mark in self.marks.as_slice() {
            if !matches!(mark.kind, Kind::Blank) {
                let number = mark.place.0;
                let text = Excerpt(mark.text);
                let meaning = Meaning {
                    shown: *self,
                    mark: *mark,
                    remark: self.remark_at(mark.place),
                    told,
                };
                let numbers = Numbers {
                    findings: self.findings,
                    place: mark.place,
                };
                writeln!(out, "{number:>8}  {text:<10}  {meaning}{numbers}")?;
            }
        }
        Ok(())
    }
}
