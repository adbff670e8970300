// A card read back into lent records.
ghost use Rattle.std.specs.Prelude.{◌≡◌, ◌≤◌, ◌<◌, ◌*◌, true, length, take, MatchResult};
ghost use Rattle.std.proofs.Math.Option.{none, get_or};
ghost use Rattle.rules.specs.Limits.{note_limit, first_pitch};
ghost use Rattle.rules.specs.Words.{key_words};
ghost use Rattle.stores.specs.Cells.{word_limit};
ghost use Rattle.stores.specs.Bars.{fifths_in, numbers_of, bar_numbers};
ghost use Rattle.cards.specs.Card.{such_note};
ghost use Rattle.cards.specs.Words.{pitch_words, note_words, head_words};
ghost use Rattle.cards.specs.Values.{key_value, card_pitch, card_note, card_head};
ghost use Rattle.cards.specs.Words as card;
ghost use Rattle.cards.specs.Answers.{ReadBack};
ghost use Rattle.cards.specs.Taken.{notes_taken, bar_behind, bars_taken, card_taken};
ghost use Rattle.cards.specs.ReadBack.{read_back, SameCells, IsCleared};
ghost use Rattle.cards.specs.ReadBack.{NotesRead, BarRead, BarsRead, CardRead, ReadsCard};

use super::error::CardError;
use super::heads::Head;
use super::notes::{Note, Pitch};
use super::reading::CardReader;
use super::width::PlaceWidth;
use stores::bar::Bar;
use stores::cells::{BAR, Bars, FIRST_PITCH, MAX_NOTES, NOTE, Notes, PITCH};

/// How many notes and bars a card has.
#[derive(Clone, Copy, Debug, PartialEq, Eq)]
pub struct CardCounts {
    pub notes: u32,
    pub bars: u32,
}

impl Pitch {
    // Its words.
    fn words(self) -> [i32; PITCH]
        requires { self.place < word_limit }
        ensures { result ≡ pitch_words (card_pitch self) }
    {
        [
            self.place as i32,
            self.step.into(),
            self.octave.into(),
            i32::from(self.alter) - 2,
        ]
    }
}

impl Note {
    // Its words before its pitches, in bar `bar`.
    #[tactic(auto, using(crate::proofs::ValueLaws::lengths), unfolding(crate::specs::Words::note_words))]
    fn first_words(&self, bar: u32) -> [i32; FIRST_PITCH]
        requires { (self.now.place < word_limit) × (bar < word_limit) }
        ensures { result ≡ take first_pitch (note_words bar (card_note self.now)) }
    {
        [
            self.place as i32,
            self.kind.into(),
            self.length.duration.into(),
            i32::from(self.length.dots),
            i32::from(self.ties),
            i32::from(self.beam),
            i32::from(self.actual),
            i32::from(self.normal()),
            i32::from(self.mark_count),
            i32::from(self.marks),
            self.pitches.count as i32,
            bar as i32,
        ]
    }

    // Its words in bar `bar`.
    fn words<W: PlaceWidth>(&self, bar: u32) -> [i32; NOTE]
        requires { (such_note W.form (card_note self.now) ≡ true) × (bar < word_limit) }
        ensures { result ≡ note_words bar (card_note self.now) }
    {
        let mut words = [0; NOTE];
        words[..FIRST_PITCH].copy_from_slice(&self.first_words(bar));
        // By number: std doesn't say what is in the cells after `chunks_exact_mut`.
        for i in 0..self.pitches.count {
            let at = FIRST_PITCH + i * PITCH;
            words[at..at + PITCH].copy_from_slice(&self.pitches.list[i].words());
        }
        words
    }
}

impl Head {
    // The fifths of its key, if it is set.
    fn fifths(self) -> Option<i8>
        requires { get_or (key_value self.key) 0 ≤ 14 }
        ensures { key_words (fifths_in result) ≡ card.key_words (key_value self.key) }
    {
        let key = self.key?;
        Some(key as i8 - 7)
    }

    // The record of a bar with this head.
    #[tactic(auto, using(crate::proofs::ReadLaws::bar_same))]
    fn bar(self, first: u32, count: u32) -> Bar
        requires { get_or (key_value self.key) 0 ≤ 14 }
        ensures numbers { bar_numbers (numbers_of result) ≡
            head_words first count (card_head self) }
        ensures first { result.first ≡ first }
        ensures count { result.count ≡ count }
    {
        Bar {
            first,
            count,
            clef: self.clef,
            fifths: self.fifths(),
            meter: self.meter,
            left: self.left,
            right: self.right,
        }
    }
}

impl<'a> CardReader<'a> {
    // So many notes, stored as those of bar `number` as far as there is room.
    #[tactic(auto, unfolding(crate::specs::Taken::notes_taken, crate::specs::Taken::repeated))]
    fn notes<W: PlaceWidth>(
        &mut self,
        count: u32,
        number: u32,
        notes: &mut Notes<'_>,
    ) -> Result<(), CardError>
        requires { number < word_limit }
        ensures same_notes { SameCells notes.old notes.new }
        ensures read { MatchResult result
            (λ _. NotesRead W.form count number
            self.old.left.now notes.old self.new.left.now notes.new)
            (λ _. notes_taken W.form count self.old.left.now ≡ none) }
    {
        for _ in 0..count {
            let note = self.note::<W>()?;
            notes.begin(&note.words::<W>(number)).ok();
        }
        Ok(())
    }

    // The next bar, stored as far as there is room; the counts with it.
    #[tactic(auto, unfolding(crate::specs::Taken::bar_behind))]
    fn bar<W: PlaceWidth>(
        &mut self,
        counts: CardCounts,
        notes: &mut Notes<'_>,
        bars: &mut Bars<'_>,
    ) -> Result<CardCounts, CardError>
        requires { (counts.bars ≤ counts.notes) × (counts.notes ≤ note_limit) }
        ensures same_notes { SameCells notes.old notes.new }
        ensures same_bars { SameCells bars.old bars.new }
        ensures read { MatchResult result
            (λ after. BarRead W.form counts
            self.old.left.now notes.old bars.old after self.new.left.now notes.new bars.new)
            (λ _. bar_behind W.form counts.notes self.old.left.now ≡ none) }
    {
        let (count, head) = self.head()?;
        if count < 1 {
            return Err(CardError::Invalid);
        }
        if MAX_NOTES as u32 - counts.notes < count {
            return Err(CardError::Invalid);
        }
        bars.store(head.bar(counts.notes, count)).ok();
        let number = counts.bars + 1;
        self.notes::<W>(count, number, notes)?;
        Ok(CardCounts {
            notes: counts.notes + count,
            bars: number,
        })
    }

    // So many bars, stored as far as there is room; their counts.
    #[tactic(auto, unfolding(crate::specs::Taken::bars_taken, crate::specs::Taken::repeated))]
    fn bars<W: PlaceWidth>(
        &mut self,
        count: u32,
        notes: &mut Notes<'_>,
        bars: &mut Bars<'_>,
    ) -> Result<CardCounts, CardError>
        ensures same_notes { SameCells notes.old notes.new }
        ensures same_bars { SameCells bars.old bars.new }
        ensures read { MatchResult result
            (λ counts. BarsRead W.form count
            self.old.left.now notes.old bars.old counts self.new.left.now notes.new bars.new)
            (λ _. bars_taken W.form count self.old.left.now ≡ none) }
    {
        let mut counts = CardCounts { notes: 0, bars: 0 };
        for _ in 0..count {
            counts = self.bar::<W>(counts, notes, bars)?;
        }
        Ok(counts)
    }

    // The first byte, the bar count, the bars, and nothing behind them; the counts.
    #[tactic(auto, unfolding(crate::specs::Taken::card_taken, crate::specs::Taken::front_taken))]
    fn records<W: PlaceWidth>(
        &mut self,
        notes: &mut Notes<'_>,
        bars: &mut Bars<'_>,
    ) -> Result<CardCounts, CardError>
        ensures same_notes { SameCells notes.old notes.new }
        ensures same_bars { SameCells bars.old bars.new }
        ensures read { MatchResult result
            (λ counts. CardRead W.form
            self.old.left.now notes.old bars.old counts notes.new bars.new)
            (λ _. card_taken W.form self.old.left.now ≡ none) }
    {
        if self.byte()? != W::first() {
            return Err(CardError::Invalid);
        }
        let count = self.four()?;
        if count == 0 {
            return Err(CardError::Invalid);
        }
        let counts = self.bars::<W>(count, notes, bars)?;
        if !self.is_done() {
            return Err(CardError::Invalid);
        }
        Ok(counts)
    }

    // The whole card, stored in cleared records if there is room.
    #[tactic(auto, using(crate::proofs::ReadLaws::answers))]
    fn card<W: PlaceWidth>(
        &mut self,
        notes: &mut Notes<'_>,
        bars: &mut Bars<'_>,
    ) -> Result<CardCounts, CardError>
        requires notes { IsCleared notes.old }
        requires bars { IsCleared bars.old }
        ensures same_notes { SameCells notes.old notes.new }
        ensures same_bars { SameCells bars.old bars.new }
        ensures read { ReadsCard W.form self.old.left.now result
            notes.new.cells.now bars.new.cells.now }
    {
        // The steps don't say which refusal theirs is.
        let Ok(counts) = self.records::<W>(notes, bars) else {
            return Err(CardError::Invalid);
        };
        if notes.cells.len() < counts.notes as usize * NOTE {
            return Err(CardError::NoRoom);
        }
        if bars.cells.len() < counts.bars as usize * BAR {
            return Err(CardError::NoRoom);
        }
        Ok(counts)
    }
}

/// Reads a card back into lent words, 44 a note and 10 a bar; its counts.
///
/// `Invalid` where it is no such card, and else `NoRoom` where its records don't fit. The words
/// behind the records are 0, after a refusal all of them.
pub fn read_card<W: PlaceWidth>(
    card: &[u8],
    notes: &mut [i32],
    bars: &mut [i32],
) -> Result<CardCounts, CardError>
    ensures { ReadBack W.form card.now (length notes.old) (length bars.old)
        (read_back result notes.new bars.new) }
{
    let mut notes = Notes::new(notes);
    let mut bars = Bars::new(bars);
    let read = CardReader::new(card).card::<W>(&mut notes, &mut bars);
    if read.is_err() {
        notes.clear();
        bars.clear();
    }
    read
}
