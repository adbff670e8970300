// A card written front to back, a byte string at a time.
ghost use Rattle.std.specs.Prelude.{◌≡◌, ◌≤◌, ◌∷◌, [], true, length};
ghost use Rattle.std.proofs.Math.Option.{get_or};
ghost use Rattle.rules.specs.Records.{is_some};
ghost use Rattle.cards.specs.Fields.{number, stands, under, each, every};
ghost use Rattle.cards.specs.Card.{such_pitch, such_note, pitch_bytes, note_bytes, head_bytes};

use super::error::CardError;
use super::heads::{Head, edge_number};
use super::notes::{Note, Pitch, Pitches, duration_number, kind_number, step_number};
use super::width::PlaceWidth;
use stores::cells::NOTE;

/// A lent card and an offset in it; full once something didn't fit.
// A flag, and no `?`: that the card doesn't fit is said only where the records are right.
#[derive(Drop)]
pub struct CardWriter<'a> {
    pub card: &'a mut [u8],
    pub at: usize,
    pub full: bool,
    ghost within: { at ≤ length card.now },
}

impl<'a> CardWriter<'a> {
    ghost use Rattle.cards.specs.Writer.{Wrote, counted_bytes};
    ghost use Rattle.cards.specs.Written.{WritesNotes};
    ghost use Rattle.cards.specs.Values.{key_value, card_pitch, card_pitches, card_note, card_head};

    /// Appends a byte string, if it fits.
    #[inline(always)]
    pub fn append(&mut self, bytes: &[u8])
        ensures { Wrote bytes.now self.old self.new }
    {
        if self.full {
            return;
        }
        if self.card.len() - self.at < bytes.len() {
            self.full = true;
            return;
        }
        let end = self.at + bytes.len();
        self.card[self.at..end].copy_from_slice(bytes);
        self.at = end;
    }

    // Bytes under a bit.
    #[inline(always)]
    fn under(&mut self, bit: bool, bytes: &[u8])
        ensures { Wrote (under bit bytes.now) self.old self.new }
    {
        if bit {
            self.append(bytes);
        }
    }

    // A byte whose bit stands where it isn't 0.
    #[inline(always)]
    fn field(&mut self, byte: u8)
        ensures { Wrote (under (stands byte) (byte ∷ [])) self.old self.new }
    {
        self.under(byte != 0, &[byte]);
    }

    /// A pitch.
    #[inline(always)]
    pub fn pitch<W: PlaceWidth>(&mut self, pitch: Pitch)
        requires { such_pitch W.form (card_pitch pitch) ≡ true }
        ensures { Wrote (pitch_bytes W.form (card_pitch pitch)) self.old self.new }
    {
        W::put(pitch.place, self);
        self.append(&[
            step_number(pitch.step) + 7 * pitch.octave.number,
            pitch.alter,
        ]);
    }

    // The pitches of a note.
    #[inline(always)]
    fn pitches<W: PlaceWidth>(&mut self, pitches: &Pitches)
        requires { every (such_pitch W.form) (card_pitches pitches.now) ≡ true }
        ensures { Wrote (each (pitch_bytes W.form) (card_pitches pitches.now)) self.old self.new }
    {
        for pitch in &pitches.list[..pitches.count] {
            self.pitch::<W>(*pitch);
        }
    }

    // Their count and they, under a bit that stands where there are some.
    fn counted_pitches<W: PlaceWidth>(&mut self, pitches: &Pitches)
        requires { every (such_pitch W.form) (card_pitches pitches.now) ≡ true }
        ensures { Wrote (counted_bytes W.form (card_pitches pitches.now)) self.old self.new }
    {
        if pitches.count != 0 {
            self.append(&[pitches.count as u8]);
            self.pitches::<W>(pitches);
        }
    }

    /// A note.
    pub fn note<W: PlaceWidth>(&mut self, note: &Note)
        requires { such_note W.form (card_note note.now) ≡ true }
        ensures { Wrote (note_bytes W.form (card_note note.now)) self.old self.new }
    {
        self.append(&[note.map()]);
        W::put(note.place, self);
        self.append(&[duration_number(note.length.duration) * 4 + note.length.dots]);
        self.field(kind_number(note.kind));
        self.field(note.ties);
        self.field(note.beam);
        self.field(note.actual);
        self.under(note.mark_count != 0, &[note.mark_count, note.marks]);
        self.counted_pitches::<W>(&note.pitches);
    }

    /// The notes of these words, all of them of bar `number`.
    pub fn notes<W: PlaceWidth>(&mut self, words: &[i32], number: u32) -> Result<(), CardError>
        ensures { WritesNotes W.form number words.now self.old result self.new }
    {
        for own in words.chunks_exact(NOTE) {
            let note = Note::of_words::<W>(own, number)?;
            self.note::<W>(&note);
        }
        Ok(())
    }

    /// The head of a bar of so many notes.
    pub fn head(&mut self, head: Head, count: u32)
        ensures { Wrote (head_bytes count (card_head head)) self.old self.new }
    {
        let (numerator, denominator, symbol) = head.meter_numbers();
        self.append(&[head.map()]);
        self.four(count);
        self.field(head.clef_number());
        self.key(head.key);
        self.under(numerator != 0, &[numerator, denominator, symbol]);
        self.field(edge_number(head.left));
        self.field(edge_number(head.right));
    }

    // A key under its bit.
    fn key(&mut self, key: Option<u8>)
        ensures { Wrote (under (is_some (key_value key)) (get_or (key_value key) 0 ∷ []))
            self.old self.new }
    {
        match key {
            Some(key) => self.append(&[key]),
            None => {}
        }
    }

    // A number in four bytes, the low one first.
    #[tactic(auto, unfolding(crate::specs::Fields::number))]
    pub(crate) fn four(&mut self, count: u32)
        ensures { Wrote (number 4 count) self.old self.new }
    {
        self.append(&count.to_le_bytes());
    }
}
