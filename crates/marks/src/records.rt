// Records by their fields.
ghost use Rattle.std.specs.Prelude.{◌≡◌, ◌+◌, ◌<◌, ◌≤◌, length, take, not, IfSome};
ghost use Rattle.std.specs.List.{prefix_len};
ghost use Rattle.rules.specs.Records.{is_grace_kind};
ghost use Rattle.tokens.specs.Kinds.{token_in};
ghost use Rattle.marks.specs.Marks.{record_place, end_at, has_place, last_of, took_length};
ghost use Rattle.marks.specs.Records.{word_of, number_of, records_in, TheOne, IsRecordAt, kind_of, IsLengthOf, tie_starts, tie_ends, beam_of, tuplet_of, mark_of, IsPitch, IsPitchAt};
ghost use Rattle.marks.specs.Bars.{IsClef, IsKey, IsSymbol, IsMeter, IsBar, IsBarAt};

use stores::bar::Bar;
use stores::cells::{BAR, FIRST_PITCH, NOTE, PITCH, natural};
use stores::note::{
    ACTUAL, BAR_NUMBER, BEAM, DOTS, DURATION, KIND, MARK_COUNT, MARKS, NORMAL, NoteKind,
    PITCH_COUNT, PLACE, Pitch, TIES,
};
use tokens::attributes::{Clef, Meter, Symbol};
use tokens::cut::Place;
use tokens::kinds::Token;
use tokens::rhythm::{Duration, Edge, Length, Octave, Step};

/// Where a note stands in its beam.
#[derive(Clone, Copy, Debug, PartialEq, Eq)]
pub enum Beam {
    Start,
    Inside,
    End,
}

/// A tuplet: so many in the time of so many.
#[derive(Clone, Copy, Debug, PartialEq, Eq)]
pub struct Tuplet {
    pub actual: u32,
    pub normal: u32,
}

/// A mark of a note.
#[derive(Clone, Copy, Debug, PartialEq, Eq)]
pub enum NoteMark {
    Fermata,
    Trill,
}

/// A note's record.
#[derive(Clone, Copy)]
pub struct Note<'a>(pub &'a [i32; NOTE]);

impl<'a> Note<'a> {
    /// The place of the token that stored it.
    pub fn place(self) -> Place
        ensures { result.0 ≡ record_place self.entry.0.now }
    {
        Place(natural(self.0[PLACE]))
    }

    /// Its kind; a word that is no kind's number stands for a whole-bar rest.
    #[tactic(auto, using(crate::proofs::RecordLaws::kind_read))]
    pub fn kind(self) -> NoteKind
        ensures { result ≡ kind_of (word_of self.entry.0.now KIND) }
    {
        NoteKind::try_from(self.0[KIND]).unwrap_or(NoteKind::WholeBarRest)
    }

    /// Whether it takes time of its bar: it is no grace.
    pub fn is_timed(self) -> bool
        ensures { result ≡ not (is_grace_kind (number_of self.entry.0.now KIND)) }
    {
        !matches!(self.kind(), NoteKind::Grace | NoteKind::SlashedGrace)
    }

    /// Its length; a whole-bar rest has none.
    pub fn length(self) -> Option<Length>
        ensures { TheOne (IsLengthOf self.entry.0.now) result }
    {
        if self.kind() == NoteKind::WholeBarRest {
            return None;
        }
        let duration = Duration::try_from(self.0[DURATION]).ok()?;
        let dots = self.0[DOTS];
        if !(0..=3).contains(&dots) {
            return None;
        }
        Some(Length {
            duration,
            dots: dots as u8,
        })
    }

    /// Whether a tie starts at it.
    pub fn tie_starts(self) -> bool
        ensures { result ≡ tie_starts (number_of self.entry.0.now TIES) }
    {
        matches!(natural(self.0[TIES]), 1 | 3)
    }

    /// Whether a tie ends at it.
    pub fn tie_ends(self) -> bool
        ensures { result ≡ tie_ends (number_of self.entry.0.now TIES) }
    {
        matches!(natural(self.0[TIES]), 2 | 3)
    }

    /// Where it stands in its beam, if it is in one.
    pub fn beam(self) -> Option<Beam>
        ensures { result ≡ beam_of (number_of self.entry.0.now BEAM) }
    {
        match natural(self.0[BEAM]) {
            1 => Some(Beam::Start),
            2 => Some(Beam::Inside),
            3 => Some(Beam::End),
            _ => None,
        }
    }

    /// Its tuplet, if it is in one.
    pub fn tuplet(self) -> Option<Tuplet>
        ensures { result ≡
            tuplet_of (number_of self.entry.0.now ACTUAL) (number_of self.entry.0.now NORMAL) }
    {
        let actual = natural(self.0[ACTUAL]);
        let normal = natural(self.0[NORMAL]);
        if actual == 0 {
            None
        } else {
            Some(Tuplet { actual, normal })
        }
    }

    /// How many marks it has.
    pub fn mark_count(self) -> u32
        ensures { result ≡ number_of self.entry.0.now MARK_COUNT }
    {
        natural(self.0[MARK_COUNT])
    }

    /// Its mark number `which` from 0, in order of arrival.
    pub fn mark(self, which: u32) -> NoteMark
        ensures { result ≡ mark_of (number_of self.entry.0.now MARKS) which }
    {
        if which < 32 && (natural(self.0[MARKS]) >> which) % 2 == 1 {
            NoteMark::Trill
        } else {
            NoteMark::Fermata
        }
    }

    /// The number of its bar, from 1.
    pub fn bar(self) -> u32
        ensures { result ≡ number_of self.entry.0.now BAR_NUMBER }
    {
        natural(self.0[BAR_NUMBER])
    }

    /// How many pitches it has; a rest has none.
    pub fn pitch_count(self) -> usize
        ensures { result ≡ number_of self.entry.0.now PITCH_COUNT }
    {
        natural(self.0[PITCH_COUNT]) as usize
    }

    /// Its pitch number `which` from 0, in the order of the letters.
    pub fn pitch(self, which: usize) -> Option<Pitch>
        ensures { TheOne (IsPitchAt self.entry.0.now which) result }
    {
        let record = self.0;
        let words = &record[..];
        let (pitches, _) = words[FIRST_PITCH..].as_chunks::<PITCH>();
        pitch_of(pitches.get(which)?)
    }
}

/// The pitch that has these words, if there is one.
fn pitch_of(words: &[i32; PITCH]) -> Option<Pitch>
    ensures { TheOne (IsPitch words.now) result }
{
    let [place, step, octave, alter] = *words;
    Some(Pitch {
        place: Place(u32::try_from(place).ok()?),
        step: Step::try_from(step).ok()?,
        octave: Octave::try_from(octave).ok()?,
        alter: i8::try_from(alter).ok()?,
    })
}

/// Whether a note was stored by the token at a place.
fn has_place(words: &[i32; NOTE], place: Place) -> bool
    ensures { result ≡ has_place place.0 words.now }
{
    natural(words[PLACE]) == place.0
}

/// How many records, from the first one on, were stored by the token at a place.
fn count_at(records: &[[i32; NOTE]], place: Place) -> usize
    ensures count { result ≡ prefix_len (has_place place.0) records.now }
    ensures within { result ≤ length records.now }
{
    records
        .iter()
        .take_while(|record| has_place(*record, place))
        .count()
}

/// The records of notes, in order.
// Not one type of a const parameter with `Bars`: tried, and its `new` has to require that the
// parameter isn't 0 and that a record of so many words fits memory.
#[derive(Clone, Copy)]
pub struct Notes<'a>(pub &'a [[i32; NOTE]]);

impl<'a> Notes<'a> {
    /// The first records of lent words, so many.
    pub fn new(words: &'a [i32], count: usize) -> Notes<'a>
        ensures { result.0.now ≡ take count (records_in NOTE words.entry.now) }
    {
        let (records, _) = words.as_chunks::<NOTE>();
        Notes(&records[..count.min(records.len())])
    }

    /// How many notes there are.
    pub fn len(self) -> usize
        ensures { result ≡ length self.entry.0.now }
    {
        self.0.len()
    }

    /// The record of a note, by its number from 0.
    pub fn get(self, number: usize) -> Option<Note<'a>>
        ensures { TheOne (λ note. IsRecordAt self.entry.0.now number note.0.now) result }
    {
        let record = self.0.get(number)?;
        Some(Note(record))
    }

    /// The end of the records from one number on that have this place.
    pub(crate) fn end_at(self, first: usize, place: Place) -> usize
        requires { first ≤ length self.0.now }
        ensures end { result ≡ end_at self.entry.0.now first place.0 }
        ensures within { result ≤ length self.entry.0.now }
    {
        first + count_at(&self.0[first..], place)
    }
}

/// The number of the last of the records from one number on and below another, if there are any.
pub(crate) fn last_of(first: usize, end: usize) -> Option<usize>
    ensures { result ≡ last_of first end }
{
    if first < end { Some(end - 1) } else { None }
}

/// Whether a token took a length of the pattern: a rest, or a letter that opened a note and no
/// grace; it stored this record.
pub(crate) fn took_length(token: Token<'_>, notes: Notes<'_>, stored: Option<usize>) -> bool
    requires { IfSome stored (λ number. number < length notes.0.now) }
    ensures { result ≡ took_length notes.entry.0.now (token_in token.entry) stored }
{
    let Some(number) = stored else {
        return false;
    };
    match token {
        Token::Rest => true,
        // By the word: one below 0 counts as 0 here, and is no kind for `Note::kind`.
        Token::Letter(_) => notes.0[number][KIND] <= 0,
        _ => false,
    }
}

/// The records of bars, in order.
#[derive(Clone, Copy)]
pub struct Bars<'a>(pub &'a [[i32; BAR]]);

impl<'a> Bars<'a> {
    /// The first records of lent words, so many.
    pub fn new(words: &'a [i32], count: usize) -> Bars<'a>
        ensures { result.0.now ≡ take count (records_in BAR words.entry.now) }
    {
        let (records, _) = words.as_chunks::<BAR>();
        Bars(&records[..count.min(records.len())])
    }

    /// How many bars there are.
    pub fn len(self) -> usize
        ensures { result ≡ length self.entry.0.now }
    {
        self.0.len()
    }

    /// What the record of a bar says, by its number from 0.
    pub fn get(self, number: usize) -> Option<Bar>
        ensures { TheOne (IsBarAt self.entry.0.now number) result }
    {
        bar_of(self.0.get(number)?)
    }
}

/// The clef of a word, none for 0, if the word is one.
// Here and below a record's words say what is set; cards' functions of these names refuse by error.
fn clef_of(word: i32) -> Option<Option<Clef>>
    ensures { TheOne (IsClef word) result }
{
    if word == 0 {
        return Some(None);
    }
    let clef = Clef::try_from(word).ok()?;
    Some(Some(clef))
}

/// The key of its words, none for twice 0, if they are one.
fn key_of(keyed: i32, fifths: i32) -> Option<Option<i8>>
    ensures { TheOne (IsKey keyed fifths) result }
{
    match (keyed, fifths) {
        (0, 0) => Some(None),
        (1, fifths) => {
            let fifths = i8::try_from(fifths).ok()?;
            Some(Some(fifths))
        }
        _ => None,
    }
}

/// The symbol of a word, none for 0, if the word is one.
fn symbol_of(word: i32) -> Option<Option<Symbol>>
    ensures { TheOne (IsSymbol word) result }
{
    if word == 0 {
        return Some(None);
    }
    let symbol = Symbol::try_from(word).ok()?;
    Some(Some(symbol))
}

/// The meter of its words, none for three times 0, if they are one.
fn meter_of(numerator: i32, denominator: i32, symbol: i32) -> Option<Option<Meter>>
    ensures { TheOne (IsMeter numerator denominator symbol) result }
{
    if numerator == 0 && denominator == 0 && symbol == 0 {
        return Some(None);
    }
    Some(Some(Meter {
        numerator: u8::try_from(numerator).ok()?,
        denominator: u8::try_from(denominator).ok()?,
        symbol: symbol_of(symbol)?,
    }))
}

/// The bar that has these words, if there is one.
fn bar_of(words: &[i32; BAR]) -> Option<Bar>
    ensures { TheOne (IsBar words.now) result }
{
    let [
        first,
        count,
        clef,
        keyed,
        fifths,
        numerator,
        denominator,
        symbol,
        left,
        right,
    ] = *words;
    Some(Bar {
        first: u32::try_from(first).ok()?,
        count: u32::try_from(count).ok()?,
        clef: clef_of(clef)?,
        fifths: key_of(keyed, fifths)?,
        meter: meter_of(numerator, denominator, symbol)?,
        left: Edge::try_from(left).ok()?,
        right: Edge::try_from(right).ok()?,
    })
}
