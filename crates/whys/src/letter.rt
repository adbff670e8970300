// Where a letter's octave and alteration come from, and why not from the nearest sign on its step.
use crate::before::{Before, Signed};
use crate::length::show_length;
use crate::why::KeyField;
use marks::lookback::{Mark, Marks};
use rows::terms::{Alteration, Term};
use scan::lines::Line;
use std::io::Write;
use std::{fmt, io};
use stores::note::Pitch;
use tokens::rhythm::{Octave, Step};

/// Where a letter's alteration comes from.
// No `Option`: `Nothing` is a cause as the others are, with words of its own.
#[derive(Clone, Copy)]
enum Cause<'d> {
    /// Its own sign.
    Sign(Mark<'d>),
    /// The sign of another letter in its bar.
    Letter(Signed<'d>),
    /// A key that was taken.
    Key(Mark<'d>),
    /// The keysig field in a line.
    Field(Line),
    /// No sign reaches it and no key was taken.
    Nothing,
}

/// The alteration of a sign.
fn alter_of(sign: Mark<'_>) -> i8 {
    match sign.accidental() {
        Some(accidental) => accidental.alter(),
        None => 0,
    }
}

/// A step's alteration by a key.
fn alter_by(key: Mark<'_>, step: Step) -> i8 {
    match key.key() {
        Some(key) => key.alters[step as usize],
        None => 0,
    }
}

impl<'d> Cause<'d> {
    fn new(before: Before<'_, 'd>, step: Step, octave: Octave, field: KeyField) -> Cause<'d> {
        if let Some(sign) = before.sign() {
            return Cause::Sign(sign);
        }
        if let Some(letter) = before.signed_in_bar(step, octave) {
            return Cause::Letter(letter);
        }
        if let Some(key) = before.key_taken() {
            return Cause::Key(key);
        }
        match field.line {
            Some(line) => Cause::Field(line),
            None => Cause::Nothing,
        }
    }

    /// A step's alteration.
    fn alter(self, step: Step, field: KeyField) -> i8 {
        match self {
            Cause::Sign(sign) => alter_of(sign),
            Cause::Letter(letter) => alter_of(letter.sign),
            Cause::Key(key) => alter_by(key, step),
            Cause::Field(_) | Cause::Nothing => field.alters[step as usize],
        }
    }

    /// Whether it is a key, by a mark or by a field.
    fn is_key(self) -> bool {
        matches!(self, Cause::Key(_) | Cause::Field(_))
    }
}

impl<'d> fmt::Display for Cause<'d> {
    fn fmt<W: fmt::Write>(&self, f: &mut fmt::Formatter<W>) -> fmt::Result {
        match self {
            Cause::Sign(sign) => write!(f, "from its own sign {sign}"),
            Cause::Letter(signed) => {
                let letter = signed.letter;
                let sign = signed.sign;
                write!(f, "from {letter} in this bar ({sign})")
            }
            Cause::Key(key) => write!(f, "from the key {key}"),
            Cause::Field(line) => {
                let line = line.0;
                write!(f, "from the keysig field in line {line}")
            }
            Cause::Nothing => f.write_str("since no sign reaches it and no key was taken"),
        }
    }
}

/// A letter with its pitch, and where its alteration comes from.
#[derive(Clone, Copy)]
pub(crate) struct Letter<'m, 'd> {
    before: Before<'m, 'd>,
    mark: Mark<'d>,
    pitch: Pitch,
    cause: Cause<'d>,
}

impl<'m, 'd> Letter<'m, 'd> {
    /// The letter at a mark.
    pub(crate) fn new(
        marks: &'m Marks<'d>,
        mark: Mark<'d>,
        step: Step,
        field: KeyField,
    ) -> Letter<'m, 'd> {
        let before = Before::new(marks, mark.number);
        let octave = before.octave();
        let cause = Cause::new(before, step, octave, field);
        let pitch = Pitch {
            place: mark.place,
            step,
            octave,
            alter: cause.alter(step, field),
        };
        Letter {
            before,
            mark,
            pitch,
            cause,
        }
    }

    pub(crate) fn show<W: Write>(self, out: &mut W) -> io::Result<()> {
        let pitch = Term(self.pitch);
        let place = Term(self.mark.place);
        writeln!(out, "  {pitch}, the letter at {place}")?;
        self.show_octave(out)?;
        self.show_alteration(out)?;
        self.show_why_not(out)?;
        show_length(out, self.before, self.mark)
    }

    fn show_octave<W: Write>(self, out: &mut W) -> io::Result<()> {
        let octave = self.pitch.octave.number;
        match self.before.octave_mark() {
            Some(mark) => writeln!(out, "    octave      {octave}, from {mark}"),
            None => writeln!(out, "    octave      {octave}, as at the start"),
        }
    }

    /// The alteration and its cause; a key may not name the step.
    fn show_alteration<W: Write>(self, out: &mut W) -> io::Result<()> {
        let alteration = Alteration(self.pitch.alter);
        let cause = self.cause;
        let alone = if cause.is_key() && self.pitch.alter == 0 {
            ", which leaves it alone"
        } else {
            ""
        };
        writeln!(out, "    alteration  {alteration}, {cause}{alone}")
    }

    /// The nearest key and the nearest sign on the same step, where they do not reach the letter
    /// and would alter it otherwise.
    fn show_why_not<W: Write>(self, out: &mut W) -> io::Result<()> {
        if matches!(self.cause, Cause::Sign(_)) {
            return Ok(());
        }
        if let Some(key) = self.untaken_key() {
            writeln!(out, "    not from    the key {key}, which was not taken")?;
        }
        match self.unreached() {
            Some(other) => self.show_unreached(out, other),
            None => Ok(()),
        }
    }

    /// The last key, where it was not taken, no sign comes before it, and it would alter the letter
    /// otherwise.
    fn untaken_key(self) -> Option<Mark<'d>> {
        let key = self.before.key()?;
        let is_passed = match self.cause {
            Cause::Key(taken) => taken.number != key.number,
            Cause::Field(_) | Cause::Nothing => true,
            Cause::Sign(_) | Cause::Letter(_) => false,
        };
        if is_passed && alter_by(key, self.pitch.step) != self.pitch.alter {
            Some(key)
        } else {
            None
        }
    }

    /// The last letter on the same step that has a sign, where it is not the cause and the sign
    /// would alter this one otherwise.
    fn unreached(self) -> Option<Signed<'d>> {
        let other = self.before.signed(self.pitch.step)?;
        if let Cause::Letter(cause) = self.cause
            && cause.letter.number == other.letter.number
        {
            return None;
        }
        if alter_of(other.sign) == self.pitch.alter {
            None
        } else {
            Some(other)
        }
    }

    /// A sign does not reach a letter in another octave, or behind a barline.
    fn show_unreached<W: Write>(self, out: &mut W, other: Signed<'d>) -> io::Result<()> {
        let sign = other.sign;
        write!(out, "    not from    {sign}, which")?;
        let held = Before::new(self.before.marks, other.letter.number).octave();
        let is_elsewhere = held != self.pitch.octave;
        if is_elsewhere {
            let held = held.number;
            write!(out, " holds in octave {held} only")?;
        }
        let end = self.before.end;
        let barline = self.before.marks.first_after(other.letter.number, |mark| {
            mark.is_barline() || end <= mark.number
        });
        if let Some(barline) = barline
            && barline.number < end
        {
            if is_elsewhere {
                out.write_all(b" and")?;
            }
            let barline = End(barline);
            write!(out, " ended at {barline}")?;
        }
        writeln!(out)
    }
}

/// Where a sign ended: at a barline, or at one inside an `=`.
#[derive(Clone, Copy)]
struct End<'d>(Mark<'d>);

impl<'d> fmt::Display for End<'d> {
    fn fmt<W: fmt::Write>(&self, f: &mut fmt::Formatter<W>) -> fmt::Result {
        let barline = self.0;
        if barline.is_whole_bars() {
            write!(f, "the first barline inside {barline}")
        } else {
            let place = Term(barline.place);
            write!(f, "the barline at {place}")
        }
    }
}
