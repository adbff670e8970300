// What holds behind the marks before a letter or rest.
use marks::lookback::{Mark, Marks};
use tokens::kinds::Grace;
use tokens::rhythm::{Octave, Step};

/// A letter and its sign.
#[derive(Clone, Copy)]
pub(crate) struct Signed<'d> {
    pub(crate) letter: Mark<'d>,
    pub(crate) sign: Mark<'d>,
}

/// The marks before a number.
#[derive(Clone, Copy)]
pub(crate) struct Before<'m, 'd> {
    pub(crate) marks: &'m Marks<'d>,
    pub(crate) end: usize,
}

impl<'m, 'd> Before<'m, 'd> {
    pub(crate) fn new(marks: &'m Marks<'d>, end: usize) -> Before<'m, 'd> {
        Before { marks, end }
    }

    /// The octave mark that rules.
    pub(crate) fn octave_mark(self) -> Option<Mark<'d>> {
        self.marks.latest(self.end, |mark| mark.is_octave())
    }

    /// The octave; at the start, 4.
    pub(crate) fn octave(self) -> Octave {
        match self.octave_mark() {
            Some(mark) => mark.octave().unwrap_or(Octave::START),
            None => Octave::START,
        }
    }

    /// The sign that waits for a letter.
    pub(crate) fn sign(self) -> Option<Mark<'d>> {
        self.marks
            .latest_since(self.end, |mark| mark.is_sign(), |mark| mark.is_letter())
    }

    /// Whether a mark is a letter on a step and has a sign.
    fn is_signed(self, mark: &Mark<'d>, step: Step) -> bool {
        mark.step() == Some(step) && Before::new(self.marks, mark.number).sign().is_some()
    }

    /// A letter with its sign, if it has one.
    fn with_sign(self, letter: Mark<'d>) -> Option<Signed<'d>> {
        let sign = Before::new(self.marks, letter.number).sign()?;
        Some(Signed { letter, sign })
    }

    /// The last letter on a step that has a sign.
    pub(crate) fn signed(self, step: Step) -> Option<Signed<'d>> {
        let letter = self
            .marks
            .latest(self.end, |mark| self.is_signed(mark, step))?;
        self.with_sign(letter)
    }

    /// The last letter on a step and in an octave that has a sign, since the last barline.
    pub(crate) fn signed_in_bar(self, step: Step, octave: Octave) -> Option<Signed<'d>> {
        let letter = self.marks.latest_since(
            self.end,
            |mark| {
                self.is_signed(mark, step)
                    && Before::new(self.marks, mark.number).octave() == octave
            },
            |mark| mark.is_barline(),
        )?;
        self.with_sign(letter)
    }

    pub(crate) fn key(self) -> Option<Mark<'d>> {
        self.marks.latest(self.end, |mark| mark.is_key())
    }

    /// Whether no mark since the last barline stored a record: a key is taken here.
    fn takes_key(self) -> bool {
        self.marks
            .latest_since(self.end, |mark| mark.stores(), |mark| mark.is_barline())
            .is_none()
    }

    /// The last key that was taken.
    pub(crate) fn key_taken(self) -> Option<Mark<'d>> {
        self.marks.latest(self.end, |mark| {
            mark.is_key() && Before::new(self.marks, mark.number).takes_key()
        })
    }

    /// The last mark that stored a record.
    pub(crate) fn last_stored(self) -> Option<Mark<'d>> {
        self.marks.latest(self.end, |mark| mark.stores())
    }

    /// The `^` that waits for a letter.
    pub(crate) fn chord(self) -> Option<Mark<'d>> {
        self.marks
            .latest_since(self.end, |mark| mark.is_chord(), |mark| mark.is_letter())
    }

    /// The `g` or `q` that waits for a note.
    pub(crate) fn grace(self) -> Option<Mark<'d>> {
        self.marks
            .latest_since(self.end, |mark| mark.is_grace(), |mark| mark.opens_note())
    }

    /// The same, where it is a `g`.
    pub(crate) fn slashed_grace(self) -> Option<Mark<'d>> {
        self.grace()
            .filter(|mark| mark.grace() == Some(Grace::Acciaccatura))
    }

    /// The mark that began the grace group, if one goes on.
    pub(crate) fn grace_group(self) -> Option<Mark<'d>> {
        self.marks
            .latest(self.end, |mark| mark.is_grace_group())
            .filter(|mark| mark.grace_group() == Some(true))
    }

    /// The digits that set the pattern.
    pub(crate) fn pattern_mark(self) -> Option<Mark<'d>> {
        self.marks.latest(self.end, |mark| mark.is_pattern())
    }

    /// The last mark that took a length of the pattern.
    pub(crate) fn taker(self) -> Option<Mark<'d>> {
        self.marks.latest_since(self.end, |mark| mark.took_length, |mark| mark.is_pattern())
    }

    /// How many lengths of the pattern were taken.
    pub(crate) fn taken(self) -> usize {
        self.marks.count_since(self.end, |mark| mark.took_length, |mark| mark.is_pattern())
    }
}
