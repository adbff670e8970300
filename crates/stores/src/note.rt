// Note records: opened, one more pitch, a tie's start, one more mark.
ghost use Rattle.std.specs.Prelude.{◌≡◌, ◌+◌, ◌-◌, ◌*◌, ◌≤◌, ◌<◌, ◌↔◌, false, [], ◌∷◌};
ghost use Rattle.std.specs.Prelude.{length, take, slice_index_or, pos, if◌then◌else◌};
ghost use Rattle.std.specs.Prelude.{OnOk, OnErr, IsErr};
ghost use Rattle.rules.specs.Limits.{first_pitch, pitch_size, pitch_capacity, mark_capacity};
ghost use Rattle.rules.specs.Words.{note_words, pitch_words, power_of_two};
ghost use Rattle.rules.specs.Stored.{natural};
ghost use Rattle.stores.specs.Cells.{word_limit, record_at, with_record, changed};
ghost use Rattle.stores.specs.Cells.{BlankFrom, BlankRecord};
ghost use Rattle.stores.specs.Notes.{kind_number, length_numbers, heading_of, pitch_of, opened};
ghost use Rattle.stores.specs.Notes.{number_at, pitched, tie_started, marked, mark_limit};

use super::cells::{FIRST_PITCH, MAX_MARKS, MAX_PITCHES, NOTE, NoRoom, PITCH, Records, natural};
use tokens::cut::Place;
use tokens::numbers::UnknownWord;
use tokens::rhythm::{Length, Octave, Step};

/// Where a note's words stand.
pub const PLACE: usize = 0;

/// What it is, by its number.
pub const KIND: usize = 1;

/// The duration's number.
pub const DURATION: usize = 2;

/// How many dots.
pub const DOTS: usize = 3;

/// 1 where a tie starts, 2 where one ends, 3 for both.
pub const TIES: usize = 4;

/// 1 where a beam begins, 2 where it goes on, 3 where it ends.
pub const BEAM: usize = 5;

/// A tuplet's count, 0 for none.
pub const ACTUAL: usize = 6;

/// A tuplet's normal count.
pub const NORMAL: usize = 7;

/// How many marks.
pub const MARK_COUNT: usize = 8;

/// A bit a mark, the first one lowest: 1 for a trill, 0 for a fermata.
pub const MARKS: usize = 9;

/// How many pitches.
pub const PITCH_COUNT: usize = 10;

/// The number of its bar, from 1.
pub const BAR_NUMBER: usize = 11;

/// What a record is.
#[derive(Clone, Copy, Debug, PartialEq, Eq)]
pub enum NoteKind {
    Note,
    Rest,
    Grace,
    SlashedGrace,
    WholeBarRest,
}

// An impl of its own, as those in tokens: what a macro or a derive writes has no `from_gives`.
impl From<NoteKind> for i32 {
    ghost use Rattle.tokens.specs.Words.{WritesBy};

    ghost from_gives = { WritesBy kind_number };

    fn from(kind: NoteKind) -> i32 {
        kind as i32
    }
}

impl TryFrom<i32> for NoteKind {
    ghost use Rattle.tokens.specs.Words.{ReadsBy};

    type Error = UnknownWord;

    ghost try_from_gives = { ReadsBy kind_number };

    fn try_from(word: i32) -> Result<NoteKind, UnknownWord> {
        match word {
            0 => Ok(NoteKind::Note),
            1 => Ok(NoteKind::Rest),
            2 => Ok(NoteKind::Grace),
            3 => Ok(NoteKind::SlashedGrace),
            4 => Ok(NoteKind::WholeBarRest),
            _ => Err(UnknownWord(word)),
        }
    }
}

/// The place of the storing token, what is stored, and its length; a whole-bar rest has none.
#[derive(Clone, Copy, Debug, PartialEq, Eq)]
pub struct Heading {
    pub place: Place,
    pub kind: NoteKind,
    pub length: Option<Length>,
}

/// The letter's place, step and octave, and the alteration, -2 to 2.
#[derive(Clone, Copy, Debug, PartialEq, Eq)]
pub struct Pitch {
    pub place: Place,
    pub step: Step,
    pub octave: Octave,
    pub alter: i8,
}

impl Pitch {
    fn words(self) -> [i32; PITCH]
        requires { self.place.0 < word_limit }
        ensures { result ≡ pitch_words (pitch_of self) }
    {
        [
            self.place.0 as i32,
            self.step.into(),
            self.octave.into(),
            i32::from(self.alter),
        ]
    }
}

impl Heading {
    // Its duration's number and its dots, 0 and 0 where it has no length.
    fn length_words(self) -> [i32; 2]
        ensures { result ≡ length_numbers self.length }
    {
        match self.length {
            Some(length) => [length.duration.into(), i32::from(length.dots)],
            None => [0, 0],
        }
    }

    // The words of a new record without pitches, up to where these would begin; a tie may end at
    // it.
    fn words(self, ends: bool, bar: u32) -> [i32; FIRST_PITCH]
        requires place { self.place.0 < word_limit }
        requires bar { bar < word_limit }
        ensures { result ≡ take first_pitch (note_words (opened bar (heading_of self) ends [])) }
    {
        let [duration, dots] = self.length_words();
        [
            self.place.0 as i32,
            self.kind.into(),
            duration,
            dots,
            if ends { 2 } else { 0 },
            0,
            0,
            0,
            0,
            0,
            0,
            bar as i32,
        ]
    }

    // The same with one pitch, up to the end of that.
    fn words_with(self, ends: bool, bar: u32, pitch: Pitch) -> [i32; FIRST_PITCH + PITCH]
        requires place { self.place.0 < word_limit }
        requires bar { bar < word_limit }
        requires pitch_place { pitch.place.0 < word_limit }
        ensures { result ≡ take (first_pitch + pitch_size)
            (note_words (opened bar (heading_of self) ends (pitch_of pitch ∷ []))) }
    {
        let mut words = [0; FIRST_PITCH + PITCH];
        words[..FIRST_PITCH].copy_from_slice(&self.words(ends, bar));
        words[PITCH_COUNT] = 1;
        words[FIRST_PITCH..].copy_from_slice(&pitch.words());
        words
    }
}

// ---- the words of one record, lent: a slice, since `first_chunk_mut` gives an `Option`, whose
// `None` can't be

// One more pitch.
fn add_pitch(words: &mut [i32], pitch: Pitch)
    requires whole { length words.old ≡ NOTE }
    requires place { pitch.place.0 < word_limit }
    requires room { number_at PITCH_COUNT words.old < pitch_capacity }
    ensures { words.new ≡ pitched (pitch_of pitch) words.old }
{
    let count = natural(words[PITCH_COUNT]);
    words[PITCH_COUNT] = count as i32 + 1;
    let at = FIRST_PITCH + count as usize * PITCH;
    words[at..at + PITCH].copy_from_slice(&pitch.words());
}

// A tie starts at it.
fn start_tie(words: &mut [i32])
    requires { length words.old ≡ NOTE }
    ensures { words.new ≡ tie_started words.old }
{
    words[TIES] = if 2 <= natural(words[TIES]) { 3 } else { 1 };
}

// The bit of the mark that comes after `count` others.
fn mark_bit(trill: bool, count: u32) -> u32
    requires { count < mark_capacity }
    ensures value { result ≡ (if trill then power_of_two count else 0) }
    ensures fits { result < mark_limit }
{
    if trill { 1 << count } else { 0 }
}

// One more mark. A flag, as the rules have it and as its bit in the word of marks.
pub(crate) fn add_mark(words: &mut [i32], trill: bool)
    requires whole { length words.old ≡ NOTE }
    requires room { number_at MARK_COUNT words.old < mark_capacity }
    requires fits { number_at MARKS words.old < mark_limit }
    ensures { words.new ≡ marked trill words.old }
{
    let count = natural(words[MARK_COUNT]);
    let marks = natural(words[MARKS]);
    words[MARK_COUNT] = count as i32 + 1;
    words[MARKS] = (marks + mark_bit(trill, count)) as i32;
}

// ---- records in the cells

impl<'a> Records<'a, NOTE> {
    // Parameters, here and below: the reader has each of them apart.
    /// Opens a record with one pitch; a tie may end at it. Only 16 words are written.
    pub fn open_note(
        &mut self,
        heading: Heading,
        ends: bool,
        bar: u32,
        pitch: Pitch,
    ) -> Result<(), NoRoom>
        requires place { heading.place.0 < word_limit }
        requires bar { bar < word_limit }
        requires pitch_place { pitch.place.0 < word_limit }
        requires blank { BlankRecord NOTE self.old.cells.now self.old.count }
        ensures same_cells { self.new.cells.ghost_name ≡ self.old.cells.ghost_name }
        ensures full { IsErr result ↔ (length self.old.cells.now < self.old.count * NOTE + NOTE) }
        ensures err { OnErr result (self.new.cells ≡ self.old.cells) }
        ensures err_count { OnErr result (self.new.count ≡ self.old.count) }
        ensures stored { OnOk result (self.new.cells.now ≡
            with_record NOTE self.old.cells.now self.old.count
            (note_words (opened bar (heading_of heading) ends (pitch_of pitch ∷ [])))) }
        ensures counted { OnOk result (self.new.count ≡ self.old.count + 1) }
        ensures blank { BlankFrom (self.old.count * NOTE) self.old.cells.now →
            BlankFrom (self.new.count * NOTE) self.new.cells.now }
    {
        self.begin(&heading.words_with(ends, bar, pitch))?;
        Ok(())
    }

    /// Opens a record without pitches, a rest of either kind. Only 12 words are written.
    pub fn open_rest(&mut self, heading: Heading, bar: u32) -> Result<(), NoRoom>
        requires place { heading.place.0 < word_limit }
        requires bar { bar < word_limit }
        requires blank { BlankRecord NOTE self.old.cells.now self.old.count }
        ensures same_cells { self.new.cells.ghost_name ≡ self.old.cells.ghost_name }
        ensures full { IsErr result ↔ (length self.old.cells.now < self.old.count * NOTE + NOTE) }
        ensures err { OnErr result (self.new.cells ≡ self.old.cells) }
        ensures err_count { OnErr result (self.new.count ≡ self.old.count) }
        ensures stored { OnOk result (self.new.cells.now ≡
            with_record NOTE self.old.cells.now self.old.count
            (note_words (opened bar (heading_of heading) false []))) }
        ensures counted { OnOk result (self.new.count ≡ self.old.count + 1) }
        ensures blank { BlankFrom (self.old.count * NOTE) self.old.cells.now →
            BlankFrom (self.new.count * NOTE) self.new.cells.now }
    {
        self.begin(&heading.words(false, bar))?;
        Ok(())
    }

    // That there is a last record is asked, here and below: who calls knows of the open bar's note.
    /// One more pitch in the last record.
    pub fn add_pitch(&mut self, pitch: Pitch) -> Result<(), NoRoom>
        requires some { 0 < self.old.count }
        requires place { pitch.place.0 < word_limit }
        ensures same_cells { self.new.cells.ghost_name ≡ self.old.cells.ghost_name }
        ensures full { IsErr result ↔ (pitch_capacity ≤ natural (slice_index_or
            self.old.cells.now ((self.old.count - 1) * NOTE + PITCH_COUNT) (pos 0))) }
        ensures err { OnErr result (self.new.cells ≡ self.old.cells) }
        ensures pitched { OnOk result (self.new.cells.now ≡
            changed NOTE (pitched (pitch_of pitch)) self.old.cells.now (self.old.count - 1)) }
        ensures count { self.new.count ≡ self.old.count }
    {
        let at = (self.count - 1) * NOTE;
        if natural(self.cells[at + PITCH_COUNT]) as usize >= MAX_PITCHES {
            return Err(NoRoom);
        }
        add_pitch(&mut self.cells[at..at + NOTE], pitch);
        Ok(())
    }

    /// A tie starts at the last record.
    pub fn start_tie(&mut self)
        requires { 0 < self.old.count }
        ensures same_cells { self.new.cells.ghost_name ≡ self.old.cells.ghost_name }
        ensures started { self.new.cells.now ≡
            changed NOTE tie_started self.old.cells.now (self.old.count - 1) }
        ensures count { self.new.count ≡ self.old.count }
    {
        let at = (self.count - 1) * NOTE;
        start_tie(&mut self.cells[at..at + NOTE]);
    }

    /// One more mark at the last record.
    pub fn add_mark(&mut self, trill: bool) -> Result<(), NoRoom>
        requires some { 0 < self.old.count }
        requires fits { number_at MARKS (record_at NOTE self.old.cells.now (self.old.count - 1))
            < mark_limit }
        ensures same_cells { self.new.cells.ghost_name ≡ self.old.cells.ghost_name }
        ensures full { IsErr result ↔ (mark_capacity ≤ natural (slice_index_or
            self.old.cells.now ((self.old.count - 1) * NOTE + MARK_COUNT) (pos 0))) }
        ensures err { OnErr result (self.new.cells ≡ self.old.cells) }
        ensures marked { OnOk result (self.new.cells.now ≡
            changed NOTE (marked trill) self.old.cells.now (self.old.count - 1)) }
        ensures count { self.new.count ≡ self.old.count }
    {
        let at = (self.count - 1) * NOTE;
        if natural(self.cells[at + MARK_COUNT]) as usize >= MAX_MARKS {
            return Err(NoRoom);
        }
        add_mark(&mut self.cells[at..at + NOTE], trill);
        Ok(())
    }
}
