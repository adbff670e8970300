// Notes, pitches and heads as the words of records.
ghost use Rattle.std.specs.Prelude.{◌≡◌, ◌≤◌, true, false, length, MatchResult};
ghost use Rattle.rules.specs.Limits.{note_size, bar_size};
ghost use Rattle.cards.specs.Card.{such_pitch};
ghost use Rattle.cards.specs.Judged.{all_zero, pitch_of, note_of, head_of, such_words};
ghost use Rattle.cards.specs.Judged.{such_head_words, key_of, such_key};
ghost use Rattle.cards.specs.Values.{card_pitch, card_note, card_head, key_numbered};
ghost use Rattle.cards.specs.Places.{Judges, JudgesAs};
ghost use Rattle.cards.specs.WordPitches.{JudgesPitches};

use super::error::CardError;
use super::heads::{Head, HeadNumbers};
use super::notes::{Note, Numbers, Pitch, Pitches};
use super::numbers::{natural, up_to};
use super::width::PlaceWidth;
use stores::cells::{FIRST_PITCH, MAX_PITCHES, PITCH};
use stores::note::{
    ACTUAL, BAR_NUMBER, BEAM, DOTS, DURATION, KIND, MARK_COUNT, MARKS, NORMAL, PITCH_COUNT, PLACE,
    TIES,
};

impl Pitch {
    /// The pitch of the first four words.
    #[inline(always)]
    pub fn of_words<W: PlaceWidth>(words: &[i32]) -> Result<Pitch, CardError>
        requires { 4 ≤ length words.now }
        ensures { Judges (such_pitch W.form) card_pitch (pitch_of words.now) result }
    {
        Pitch::new::<W>(natural(words[0]), words[1], words[2], words[3])
    }
}

impl Note {
    // The pitches in a note's words, and none behind them.
    #[inline(always)]
    fn pitches_of_words<W: PlaceWidth>(words: &[i32]) -> Result<Pitches, CardError>
        requires { length words.now ≡ note_size }
        ensures { JudgesPitches W.form words.now result }
    {
        let count = usize::from(up_to(words[PITCH_COUNT], MAX_PITCHES as u8)?);
        let mut pitches = Pitches::new();
        for own in words[FIRST_PITCH..FIRST_PITCH + count * PITCH].chunks_exact(PITCH) {
            let pitch = Pitch::of_words::<W>(own)?;
            pitches.push(pitch);
        }
        Ok(pitches)
    }

    /// The note of a record's words in bar `bar`.
    #[inline(always)]
    pub fn of_words<W: PlaceWidth>(words: &[i32], bar: u32) -> Result<Note, CardError>
        requires { length words.now ≡ note_size }
        ensures { JudgesAs (such_words W.form bar words.now) card_note (note_of words.now) result }
    {
        let pitches = Note::pitches_of_words::<W>(words)?;
        if !are_zero(&words[FIRST_PITCH + PITCH * pitches.count..]) {
            return Err(CardError::Invalid);
        }
        let numbers = Numbers {
            place: natural(words[PLACE]),
            kind: words[KIND],
            duration: words[DURATION],
            dots: words[DOTS],
            ties: words[TIES],
            beam: words[BEAM],
            actual: words[ACTUAL],
            mark_count: words[MARK_COUNT],
            marks: words[MARKS],
        };
        let note = Note::new::<W>(numbers, pitches)?;
        if natural(words[NORMAL]) != u32::from(note.normal()) {
            return Err(CardError::Invalid);
        }
        if natural(words[BAR_NUMBER]) != bar {
            return Err(CardError::Invalid);
        }
        Ok(note)
    }
}

// Whether all words are 0.
fn are_zero(words: &[i32]) -> bool
    ensures { result ≡ all_zero words.now }
{
    words.iter().all(|word| *word == 0)
}

impl Head {
    /// The head of a record's words, whose first note is `first`.
    pub fn of_words(words: &[i32], first: u32) -> Result<Head, CardError>
        requires { length words.now ≡ bar_size }
        ensures { JudgesAs (such_head_words first words.now) card_head (head_of words.now) result }
    {
        if natural(words[0]) != first {
            return Err(CardError::Invalid);
        }
        let fifths = fifths_of(words[3], words[4])?;
        Head::new(HeadNumbers {
            clef: words[2],
            fifths,
            numerator: words[5],
            denominator: words[6],
            symbol: words[7],
            left: words[8],
            right: words[9],
        })
    }
}

// The fifths of a key's two words: whether it is set, and they, 0 where it isn't.
fn fifths_of(set: i32, fifths: i32) -> Result<Option<i32>, CardError>
    ensures { MatchResult result
        (λ f. (key_numbered f ≡ key_of set fifths) × (such_key set fifths ≡ true))
        (λ _. such_key set fifths ≡ false) }
{
    if set == 0 {
        if fifths != 0 {
            return Err(CardError::Invalid);
        }
        return Ok(None);
    }
    if set != 1 {
        return Err(CardError::Invalid);
    }
    Ok(Some(fifths))
}
