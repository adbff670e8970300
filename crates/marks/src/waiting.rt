// What became of a sign, a tie, a grace or a chord, each of which waits for a letter, and of what
// is opened and waits for its end.
ghost use Rattle.std.specs.Prelude.{◌≡◌};
ghost use Rattle.marks.specs.Fates.{if_before, of_two, opening_fate, sign_fate, tie_fate, grace_fate, chord_fate, beam_fate, group_fate};

use crate::lookback::{Mark, Marks};
use std::fmt;

/// What became of a mark that waited.
#[derive(Clone, Copy)]
pub enum Fate<'d> {
    /// It went to this letter.
    Taken(Mark<'d>),
    /// One like it came first.
    Replaced(Mark<'d>),
    /// A rest came first.
    Cancelled(Mark<'d>),
    /// This letter joined the last note.
    Joined(Mark<'d>),
    /// This letter found no note to join.
    Opened(Mark<'d>),
    /// It was closed.
    Closed,
    /// No such sign closes it.
    NoEnd(char),
    NoLetter,
    NoNote,
}

/// The first of two marks, where the other is none or stands behind it.
fn if_before<'d>(mark: Option<Mark<'d>>, other: Option<Mark<'d>>) -> Option<Mark<'d>>
    ensures { result ≡ if_before mark.entry other.entry }
{
    match (mark, other) {
        (Some(mark), Some(other)) if other.number <= mark.number => None,
        (mark, _) => mark,
    }
}

impl<'d> Fate<'d> {
    /// What took it, where nothing replaced it before.
    fn of_two(taker: Option<Mark<'d>>, other: Option<Mark<'d>>, missing: Fate<'d>) -> Fate<'d>
        ensures { result ≡ of_two taker.entry other.entry missing.entry }
    {
        if let Some(other) = if_before(other, taker) {
            return Fate::Replaced(other);
        }
        match taker {
            Some(letter) => Fate::Taken(letter),
            None => missing,
        }
    }

    /// An accidental alters the first letter behind it.
    pub fn of_sign(marks: &Marks<'d>, sign: Mark<'d>) -> Fate<'d>
        ensures { result ≡ sign_fate marks.now.list.items sign.entry.number }
    {
        let letter = marks.first_after(sign.number, |mark| mark.is_letter());
        let other = marks.first_after(sign.number, |mark| mark.is_sign());
        Fate::of_two(letter, other, Fate::NoLetter)
    }

    /// A tie ends at the next note that a letter opens, unless a rest cancels it.
    pub fn of_tie(marks: &Marks<'d>, tie: Mark<'d>) -> Fate<'d>
        ensures { result ≡ tie_fate marks.now.list.items tie.entry.number }
    {
        let letter = marks.first_after(tie.number, |mark| mark.opens_note());
        let taking = marks.first_after(tie.number, |mark| mark.took_length);
        if let Some(taking) = if_before(taking, letter) {
            return Fate::Cancelled(taking);
        }
        Fate::of_two(letter, None, Fate::NoNote)
    }

    /// A grace marks the next note that a letter opens.
    pub fn of_grace(marks: &Marks<'d>, grace: Mark<'d>) -> Fate<'d>
        ensures { result ≡ grace_fate marks.now.list.items grace.entry.number }
    {
        let letter = marks.first_after(grace.number, |mark| mark.opens_note());
        let other = marks.first_after(grace.number, |mark| mark.is_grace());
        Fate::of_two(letter, other, Fate::NoNote)
    }

    /// The letter behind a `^` joins a note or, where it finds none, opens one.
    pub fn of_chord(marks: &Marks<'d>, chord: Mark<'d>) -> Fate<'d>
        ensures { result ≡ chord_fate marks.now.list.items chord.entry.number }
    {
        match marks.first_after(chord.number, |mark| mark.is_letter()) {
            Some(letter) if letter.stores() => Fate::Opened(letter),
            Some(letter) => Fate::Joined(letter),
            None => Fate::NoLetter,
        }
    }

    /// What was opened: replaced by another opening before it is closed, or never closed.
    fn of_opening(close: Option<Mark<'d>>, other: Option<Mark<'d>>, end: char) -> Fate<'d>
        ensures { result ≡ opening_fate close.entry other.entry end }
    {
        match Fate::of_two(close, other, Fate::NoEnd(end)) {
            Fate::Taken(_) => Fate::Closed,
            fate => fate,
        }
    }

    /// `}` closes a beam, unless another is opened before.
    pub fn of_beam(marks: &Marks<'d>, open: Mark<'d>) -> Fate<'d>
        ensures { result ≡ beam_fate marks.now.list.items «open».entry.number }
    {
        let close = marks.first_after(open.number, |mark| mark.closes_beam());
        let other = marks.first_after(open.number, |mark| mark.opens_beam());
        Fate::of_opening(close, other, '}')
    }

    /// `)` closes a group, unless another is opened before.
    pub fn of_group(marks: &Marks<'d>, open: Mark<'d>) -> Fate<'d>
        ensures { result ≡ group_fate marks.now.list.items «open».entry.number }
    {
        let close = marks.first_after(open.number, |mark| mark.closes_group());
        let other = marks.first_after(open.number, |mark| mark.opens_group());
        Fate::of_opening(close, other, ')')
    }
}

impl<'d> fmt::Display for Fate<'d> {
    fn fmt<W: fmt::Write>(&self, f: &mut fmt::Formatter<W>) -> fmt::Result {
        match self {
            Fate::Taken(mark) => write!(f, ", for {mark}"),
            Fate::Replaced(mark) => write!(f, ", replaced by {mark}"),
            Fate::Cancelled(mark) => write!(f, ", cancelled by {mark}"),
            Fate::Joined(mark) => write!(f, ": {mark} joins the last note"),
            Fate::Opened(mark) => write!(f, " finds no note to join: {mark} opens one"),
            Fate::Closed => Ok(()),
            Fate::NoEnd(end) => write!(f, ", and no {end} follows"),
            Fate::NoLetter => f.write_str(", and no letter follows"),
            Fate::NoNote => f.write_str(", and no note is opened after it"),
        }
    }
}
