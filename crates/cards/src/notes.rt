// A note and its pitches.
ghost use Rattle.std.specs.Prelude.{◌≡◌, ◌≤◌, ◌||◌, false, cond, eqb, ltb, length, MatchResult};
ghost use Rattle.rules.specs.Limits.{count_limit, mark_capacity};
ghost use Rattle.rules.specs.Words.{power_of_two};
ghost use Rattle.cards.specs.Fields.{between};
ghost use Rattle.rules.specs.Records.{is_rest_kind};
ghost use Rattle.stores.specs.Notes.{kind_number};
ghost use Rattle.tokens.specs.Steps.{duration_number, step_number};

use super::error::CardError;
use super::numbers::{bit, raised, up_to};
use super::width::PlaceWidth;
use stores::cells::{MAX_MARKS, MAX_PITCHES};
use stores::note::NoteKind;
use tokens::rhythm::{Duration, Length, Octave, Step, normal_of};

/// A pitch of a note; its alteration plus 2.
// Not stores' pitch: its alteration counts from 0, as in the card's byte.
#[derive(Clone, Copy, Debug, PartialEq, Eq)]
pub struct Pitch {
    pub place: u32,
    pub step: Step,
    pub octave: Octave,
    pub alter: u8,
    ghost altered: { alter ≤ 4 },
}

/// The pitches of a note, 8 at most.
// An array and a count: no heap, and `ArrayVec` fills its empty places with a default, which no
// pitch is. Facts of a width are no ghost fields: the pitches are of none.
#[derive(Clone, Copy)]
pub struct Pitches {
    pub list: [Pitch; 8],
    pub count: usize,
    ghost few: { count ≤ 8 },
    ghost whole: { length list ≡ 8 },
}

/// A note.
// Ties, beam and marks stay numbers: a card copies them, and only their ranges are tested.
#[derive(Clone, Copy)]
pub struct Note {
    pub place: u32,
    pub kind: NoteKind,
    pub length: Length,
    pub ties: u8,
    pub beam: u8,
    pub actual: u8,
    pub mark_count: u8,
    pub marks: u8,
    pub pitches: Pitches,
}

/// A note's numbers, which may be in no range of its.
#[derive(Clone, Copy)]
pub struct Numbers {
    pub place: u32,
    pub kind: i32,
    pub duration: i32,
    pub dots: i32,
    pub ties: i32,
    pub beam: i32,
    pub actual: i32,
    pub mark_count: i32,
    pub marks: i32,
}

impl Pitch {
    ghost use Rattle.cards.specs.Card.{such_pitch};
    ghost use Rattle.cards.specs.Values.{card_pitch, pitch_numbered};
    ghost use Rattle.cards.specs.Places.{Judges};

    /// The pitch of these numbers.
    // Numbers, as in `Numbers`: a card's or a record's, in no range yet.
    #[inline(always)]
    pub fn new<W: PlaceWidth>(
        place: u32,
        step: i32,
        octave: i32,
        alter: i32,
    ) -> Result<Pitch, CardError>
        ensures { Judges (such_pitch W.form) card_pitch
            (pitch_numbered place step octave alter) result }
    {
        let place = placed::<W>(place)?;
        let step = Step::try_from(step)?;
        let octave = Octave::try_from(octave)?;
        let alter = raised(alter, 2, 4)?;
        Ok(Pitch {
            place,
            step,
            octave,
            alter,
        })
    }
}

impl Pitches {
    ghost use Rattle.std.specs.Prelude.{[], ◌∷◌, ◌++◌, ◌+◌, ◌<◌};
    ghost use Rattle.cards.specs.Values.{card_pitch, card_pitches};

    /// No pitch yet.
    pub fn new() -> Pitches
        ensures empty { card_pitches result ≡ [] }
        ensures none { result.count ≡ 0 }
    {
        let none = Pitch {
            place: 0,
            step: Step::C,
            octave: Octave { number: 0 },
            alter: 0,
        };
        Pitches {
            list: [none; MAX_PITCHES],
            count: 0,
        }
    }

    /// One more pitch.
    #[inline(always)]
    pub fn push(&mut self, pitch: Pitch)
        requires { self.old.count < 8 }
        ensures pushed { card_pitches self.new ≡ card_pitches self.old ++ card_pitch pitch ∷ [] }
        ensures counted { self.new.count ≡ self.old.count + 1 }
    {
        self.list[self.count] = pitch;
        self.count += 1;
    }

    // A rest of either kind has no pitch, and other notes have one or more.
    #[tactic(auto, using(crate::proofs::ValueLaws::lengths))]
    fn are_of(self, kind: NoteKind) -> bool
        ensures { result ≡ cond (is_rest_kind (kind_number kind))
            (eqb (length (card_pitches self)) 0) (ltb 0 (length (card_pitches self))) }
    {
        match kind {
            NoteKind::Rest | NoteKind::WholeBarRest => self.count == 0,
            _ => 0 < self.count,
        }
    }
}

impl Note {
    ghost use Rattle.std.specs.Prelude.{true};
    ghost use Rattle.cards.specs.Fields.{every};
    ghost use Rattle.cards.specs.Card.{such_pitch, such_note};
    ghost use Rattle.cards.specs.Values.{card_pitches, card_note, numbered};
    ghost use Rattle.cards.specs.Places.{Judges};

    /// The note of these numbers and pitches.
    #[inline(always)]
    pub fn new<W: PlaceWidth>(numbers: Numbers, pitches: Pitches) -> Result<Note, CardError>
        requires { every (such_pitch W.form) (card_pitches pitches) ≡ true }
        ensures { Judges (such_note W.form) card_note
            (numbered numbers (card_pitches pitches)) result }
    {
        let place = placed::<W>(numbers.place)?;
        let kind = NoteKind::try_from(numbers.kind)?;
        let duration = Duration::try_from(numbers.duration)?;
        let dots = up_to(numbers.dots, Length::MAX_DOTS as u8)?;
        let ties = up_to(numbers.ties, 3)?;
        let beam = up_to(numbers.beam, 3)?;
        let actual = up_to(numbers.actual, u8::MAX)?;
        let mark_count = up_to(numbers.mark_count, MAX_MARKS as u8)?;
        let marks = up_to(numbers.marks, u8::MAX)?;
        if !is_tuplet(actual) {
            return Err(CardError::Invalid);
        }
        if !are_marks(mark_count, marks) {
            return Err(CardError::Invalid);
        }
        if !pitches.are_of(kind) {
            return Err(CardError::Invalid);
        }
        Ok(Note {
            place,
            kind,
            length: Length { duration, dots },
            ties,
            beam,
            actual,
            mark_count,
            marks,
            pitches,
        })
    }
}

impl Note {
    ghost use Rattle.cards.specs.Fields.{bit_map};
    ghost use Rattle.cards.specs.Card.{note_bits};
    ghost use Rattle.cards.specs.Words.{normal_word};
    ghost use Rattle.cards.specs.Values.{card_note};

    /// Its bit map: kind, ties, beam, tuplet, marks, pitches.
    // Nested, as its definition: a fold over the bits, from behind, is no plainer.
    pub fn map(&self) -> u8
        ensures { result ≡ bit_map (note_bits (card_note self.now)) }
    {
        bit(kind_number(self.kind))
            + 2 * (bit(self.ties)
                + 2 * (bit(self.beam)
                    + 2 * (bit(self.actual)
                        + 2 * (bit(self.mark_count) + 2 * bit(self.pitches.count as u8)))))
    }

    /// Its tuplet's normal count, which follows from the actual one; 0 for none.
    pub fn normal(&self) -> u8
        ensures { result ≡ normal_word self.now.actual }
    {
        if self.actual < 3 {
            return 0;
        }
        normal_of(self.actual)
    }
}

// A place that such a card takes.
fn placed<W: PlaceWidth>(place: u32) -> Result<u32, CardError>
    ensures { MatchResult result (λ p. (p ≡ place) × (1 ≤ place) × (place ≤ W.form.greatest))
        (λ _. between 1 W.form.greatest place ≡ false) }
{
    if place < 1 || W::greatest() < place {
        return Err(CardError::Invalid);
    }
    Ok(place)
}

// None, or 3 or more.
fn is_tuplet(actual: u8) -> bool
    ensures { result ≡ (eqb actual 0 || between 3 count_limit actual) }
{
    actual == 0 || 3 <= actual
}

// Mark bits at and beyond the count are 0.
#[tactic(auto, using(crate::proofs::JudgeLaws::shifted))]
fn are_marks(count: u8, marks: u8) -> bool
    requires { count ≤ mark_capacity }
    ensures { result ≡ ltb marks (power_of_two count) }
{
    u32::from(marks) < 1 << count
}

// Functions, here and below: `From<NoteKind> for u8` would stand in stores, and only a card has
// it as a byte.

/// The number of a kind.
pub fn kind_number(kind: NoteKind) -> u8
    ensures { result ≡ kind_number kind }
{
    kind as u8
}

/// The number of a duration.
pub fn duration_number(duration: Duration) -> u8
    ensures value { result ≡ duration_number duration }
    ensures most { result ≤ 9 }
{
    duration as u8
}

/// The number of a step.
pub fn step_number(step: Step) -> u8
    ensures value { result ≡ step_number step }
    ensures most { result ≤ 6 }
{
    step as u8
}
