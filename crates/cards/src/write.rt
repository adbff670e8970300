// A card written from the words of its records.
ghost use Rattle.std.specs.Prelude.{◌≡◌, ◌≤◌, ◌*◌, false, length};
ghost use Rattle.rules.specs.Limits.{bar_size, note_size, note_limit};
ghost use Rattle.cards.specs.Answers.{Written};
ghost use Rattle.cards.specs.Written.{WritesBar, WritesBars, WritesRecords, Puts, written};

use super::error::CardError;
use super::heads::Head;
use super::numbers::natural;
use super::width::PlaceWidth;
use super::writing::CardWriter;
use stores::cells::{BAR, MAX_NOTES, NOTE};

impl<'a> CardWriter<'a> {
    // A bar of these words, its notes at the front of `notes`; how many they are.
    fn bar<W: PlaceWidth>(
        &mut self,
        words: &[i32],
        notes: &[i32],
        number: u32,
        first: u32,
    ) -> Result<u32, CardError>
        requires { length words.now ≡ bar_size }
        ensures { WritesBar W.form number first notes.now words.now self.old result self.new }
    {
        let head = Head::of_words(words, first)?;
        let count = natural(words[1]);
        if count == 0 {
            return Err(CardError::Invalid);
        }
        let size = count as usize * NOTE;
        if notes.len() < size {
            return Err(CardError::Invalid);
        }
        self.head(head, count);
        self.notes::<W>(&notes[..size], number)?;
        Ok(count)
    }

    // Bar by bar: numbers and first notes run on, and no note stands behind the last bar.
    fn bars<W: PlaceWidth>(&mut self, notes: &[i32], bars: &[i32]) -> Result<(), CardError>
        requires { length notes.now ≤ note_limit * note_size }
        ensures { WritesBars W.form 1 0 notes.now bars.now self.old result self.new }
    {
        let mut number = 1;
        let mut first = 0;
        let mut rest = notes;
        for words in bars.chunks_exact(BAR) {
            let count = self.bar::<W>(words, rest, number, first)?;
            rest = &rest[count as usize * NOTE..];
            // Not by `zip(1..)`: a `1..` ends, and would have to be shown to end behind the bars.
            number += 1;
            first += count;
        }
        if !rest.is_empty() {
            return Err(CardError::Invalid);
        }
        Ok(())
    }

    // The first byte, the bar count and the bars, each of which has a note.
    fn records<W: PlaceWidth>(&mut self, notes: &[i32], bars: &[i32]) -> Result<(), CardError>
        ensures { WritesRecords W.form notes.now bars.now self.old result self.new }
    {
        let count = bars.len() / BAR;
        if count == 0 || bars.len() != count * BAR {
            return Err(CardError::Invalid);
        }
        if MAX_NOTES * NOTE < notes.len() || notes.len() < count * NOTE {
            return Err(CardError::Invalid);
        }
        self.append(&[W::first()]);
        self.four(count as u32);
        self.bars::<W>(notes, bars)
    }

    // A whole card; its length.
    fn card<W: PlaceWidth>(&mut self, notes: &[i32], bars: &[i32]) -> Result<u32, CardError>
        requires front { self.old.at ≡ 0 }
        requires room { self.old.full ≡ false }
        ensures same_card { self.new.card.ghost_name ≡ self.old.card.ghost_name }
        ensures puts { Puts W.form notes.now bars.now self.old.card.now result self.new.card.now }
    {
        // The steps don't say which refusal theirs is.
        let Ok(()) = self.records::<W>(notes, bars) else {
            return Err(CardError::Invalid);
        };
        if self.full {
            return Err(CardError::NoRoom);
        }
        Ok(self.at as u32)
    }
}

// The card at the front of the lent bytes; its length.
fn put_card<W: PlaceWidth>(notes: &[i32], bars: &[i32], card: &mut [u8]) -> Result<u32, CardError>
    ensures { Puts W.form notes.now bars.now card.old result card.new }
{
    let mut writer = CardWriter {
        card,
        at: 0,
        full: false,
    };
    writer.card::<W>(notes, bars)
}

/// Writes the card of the records that these words are; its length in bytes.
///
/// 44 words a note, 10 a bar. `Invalid` where they are no such records, and else `NoRoom` where
/// the card doesn't fit. The bytes behind the card are 0, after a refusal all of them.
pub fn write_card<W: PlaceWidth>(
    notes: &[i32],
    bars: &[i32],
    card: &mut [u8],
) -> Result<u32, CardError>
    ensures { Written W.form notes.now bars.now (length card.old) (written result card.new) }
{
    let result = put_card::<W>(notes, bars, card);
    card[result.unwrap_or(0) as usize..].fill(0);
    result
}
