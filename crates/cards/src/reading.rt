// A card read front to back, a field at a time.
ghost use Rattle.std.specs.Prelude.{◌≡◌, ◌<◌, length, eqb};
ghost use Rattle.cards.specs.Pieces.{bit_in};
ghost use Rattle.cards.specs.Taken.{byte_taken, number_taken, field_taken, key_taken};
ghost use Rattle.cards.specs.Taken.{pitch_taken, pitches_taken, note_taken, head_taken};
ghost use Rattle.cards.specs.Places.{Takes};
ghost use Rattle.cards.specs.Values.{key_value, key_numbered};

use super::error::CardError;
use super::heads::{Head, HeadNumbers};
use super::notes::{Note, Numbers, Pitch, Pitches};
use super::width::PlaceWidth;
use stores::cells::MAX_PITCHES;

/// The bytes of a card that are left.
// Clauses name the field: with a lifetime and a model it couldn't be `Copy` (tried).
#[derive(Clone, Copy)]
pub struct CardReader<'a> {
    pub(crate) left: &'a [u8],
}

impl<'a> CardReader<'a> {
    ghost use Rattle.cards.specs.Values.{card_pitch, card_pitches, card_note, card_head};

    /// At the front of a card.
    pub fn new(card: &'a [u8]) -> CardReader<'a>
        ensures { result.left.now ≡ card.entry.now }
    {
        CardReader { left: card }
    }

    /// The next byte.
    #[inline(always)]
    pub fn byte(&mut self) -> Result<u8, CardError>
        ensures { Takes byte_taken (λ b. b) self.old.left.now result self.new.left.now }
    {
        let Some((byte, left)) = self.left.split_first() else {
            return Err(CardError::Invalid);
        };
        self.left = left;
        Ok(*byte)
    }

    /// The number in the next two bytes, the low one first.
    pub fn two(&mut self) -> Result<u16, CardError>
        ensures { Takes (number_taken 2) (λ n. n) self.old.left.now result self.new.left.now }
    {
        let low = self.byte()?;
        let high = self.byte()?;
        Ok(u16::from_le_bytes([low, high]))
    }

    /// The number in the next four bytes, the low one first.
    pub fn four(&mut self) -> Result<u32, CardError>
        ensures { Takes (number_taken 4) (λ n. n) self.old.left.now result self.new.left.now }
    {
        let bytes = [self.byte()?, self.byte()?, self.byte()?, self.byte()?];
        Ok(u32::from_le_bytes(bytes))
    }

    /// The next byte, if its bit stands in the map, else 0.
    #[inline(always)]
    fn field(&mut self, bit: bool) -> Result<u8, CardError>
        ensures { Takes (field_taken bit) (λ b. b) self.old.left.now result self.new.left.now }
    {
        if bit { self.byte() } else { Ok(0) }
    }

    // A key under its bit.
    fn key(&mut self, bit: bool) -> Result<Option<u8>, CardError>
        ensures { Takes (key_taken bit) key_value self.old.left.now result self.new.left.now }
    {
        if !bit {
            return Ok(None);
        }
        Ok(Some(self.byte()?))
    }

    /// The next pitch.
    #[tactic(auto, unfolding(crate::specs::Taken::pitch_taken))]
    #[inline(always)]
    pub fn pitch<W: PlaceWidth>(&mut self) -> Result<Pitch, CardError>
        ensures { Takes (pitch_taken W.form) card_pitch self.old.left.now result self.new.left.now }
    {
        let place = W::take(self)?;
        let tone = self.byte()?;
        let alter = self.byte()?;
        Pitch::new::<W>(
            place,
            i32::from(tone % 7),
            i32::from(tone / 7),
            i32::from(alter) - 2,
        )
    }

    /// So many pitches.
    #[tactic(auto, unfolding(crate::specs::Taken::pitches_taken, crate::specs::Taken::repeated))]
    #[inline(always)]
    pub fn pitches<W: PlaceWidth>(&mut self, count: u8) -> Result<Pitches, CardError>
        ensures { Takes (pitches_taken W.form count) card_pitches
            self.old.left.now result self.new.left.now }
    {
        if usize::from(count) > MAX_PITCHES {
            return Err(CardError::Invalid);
        }
        let mut pitches = Pitches::new();
        for _ in 0..count {
            let pitch = self.pitch::<W>()?;
            pitches.push(pitch);
        }
        Ok(pitches)
    }

    /// The next note.
    // Field by field, in the card's order, here and in `head`.
    #[tactic(auto, unfolding(crate::specs::Taken::note_taken))]
    pub fn note<W: PlaceWidth>(&mut self) -> Result<Note, CardError>
        ensures { Takes (note_taken W.form) card_note self.old.left.now result self.new.left.now }
    {
        let map = self.byte()?;
        let place = W::take(self)?;
        let size = self.byte()?;
        let kind = self.field(has_bit(map, 0))?;
        let ties = self.field(has_bit(map, 1))?;
        let beam = self.field(has_bit(map, 2))?;
        let actual = self.field(has_bit(map, 3))?;
        let mark_count = self.field(has_bit(map, 4))?;
        let marks = self.field(has_bit(map, 4))?;
        let count = self.field(has_bit(map, 5))?;
        let pitches = self.pitches::<W>(count)?;
        let numbers = Numbers {
            place,
            kind: i32::from(kind),
            duration: i32::from(size / 4),
            dots: i32::from(size % 4),
            ties: i32::from(ties),
            beam: i32::from(beam),
            actual: i32::from(actual),
            mark_count: i32::from(mark_count),
            marks: i32::from(marks),
        };
        let note = Note::new::<W>(numbers, pitches)?;
        if note.map() != map {
            return Err(CardError::Invalid);
        }
        Ok(note)
    }

    /// The next bar's note count and head.
    #[tactic(auto, unfolding(crate::specs::Taken::head_taken))]
    pub fn head(&mut self) -> Result<(u32, Head), CardError>
        ensures { Takes head_taken (λ p. (p.0, card_head p.1))
            self.old.left.now result self.new.left.now }
    {
        let map = self.byte()?;
        let count = self.four()?;
        let clef = self.field(has_bit(map, 0))?;
        let key = self.key(has_bit(map, 1))?;
        let numerator = self.field(has_bit(map, 2))?;
        let denominator = self.field(has_bit(map, 2))?;
        let symbol = self.field(has_bit(map, 2))?;
        let left = self.field(has_bit(map, 3))?;
        let right = self.field(has_bit(map, 4))?;
        let numbers = HeadNumbers {
            clef: i32::from(clef),
            fifths: fifths_of(key),
            numerator: i32::from(numerator),
            denominator: i32::from(denominator),
            symbol: i32::from(symbol),
            left: i32::from(left),
            right: i32::from(right),
        };
        let head = Head::new(numbers)?;
        if head.map() != map {
            return Err(CardError::Invalid);
        }
        Ok((count, head))
    }

    // Whether nothing is left.
    pub(crate) fn is_done(&self) -> bool
        ensures { result ≡ eqb (length self.now.left.now) 0 }
    {
        self.left.is_empty()
    }
}

// The fifths of a key that counts them from -7.
#[tactic(auto, using(crate::proofs::ValueLaws::keys))]
fn fifths_of(key: Option<u8>) -> Option<i32>
    ensures { key_numbered result ≡ key_value key }
{
    let key = key?;
    Some(i32::from(key) - 7)
}

// Whether a bit stands in a map.
#[tactic(auto, using(crate::proofs::BitLaws::shifts))]
fn has_bit(map: u8, bit: u32) -> bool
    requires { bit < 8 }
    ensures { result ≡ bit_in bit map }
{
    (map >> bit) % 2 == 1
}
