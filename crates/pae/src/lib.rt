// The public surface: reads a text into lent records and a lent list of diagnostics; writes records
// as a catalogue card, and reads it back; says which reader this is.
#![tactic(auto)]

pub mod answers;

ghost use Rattle.std.specs.Prelude.{◌≡◌, length};
ghost use Rattle.cards.specs.Card.{form1};
ghost use Rattle.cards.specs.Answers.{Written, ReadBack};
ghost use Rattle.reader.specs.Answer.{lent_words};
ghost use Rattle.pae.specs.Promise.{Promise};
ghost use Rattle.pae.specs.Version.{version};

use answers::{CardRead, CardWritten, Reading};
use cards::read::read_card;
use cards::width::TwoBytes;
use cards::write::write_card;
use reader::read::read;
use stores::diagnostic::Diagnostic;

/// The number that `pae_version` gives.
const VERSION: u32 = 4;

/// Reads a text of any bytes and any length into lent buffers of any length: a finished reading, or
/// one refusal, after which every lent cell is 0.
#[tactic(auto, using(crate::proofs::PromiseLaws::promise))]
pub fn pae_read(
    text: &[u8],
    notes: &mut [i32],
    bars: &mut [i32],
    figure: &mut [i32],
    diagnostics: &mut [Diagnostic],
) -> Reading
    ensures { Promise text.now (lent_words notes.old bars.old figure.old diagnostics.old)
        result notes.new bars.new figure.new diagnostics.new }
{
    read(text, notes, bars, figure, diagnostics).into()
}

/// Writes the card of note and bar records that are exactly the lent slices: the card's bytes, or
/// one refusal, after which every lent byte is 0.
#[tactic(auto, using(crate::proofs::PromiseLaws::written_promise))]
pub fn pae_write_card(notes: &[i32], bars: &[i32], card: &mut [u8]) -> CardWritten
    ensures { Written form1 notes.now bars.now (length card.old)
        (record { number = result.number; length = result.length; card = card.new }) }
{
    write_card::<TwoBytes>(notes, bars, card).into()
}

/// Reads a card of any bytes and any length into lent records: the records whose card it is, or
/// one refusal, after which every lent cell is 0.
#[tactic(auto, using(crate::proofs::PromiseLaws::read_promise))]
pub fn pae_read_card(card: &[u8], notes: &mut [i32], bars: &mut [i32]) -> CardRead
    ensures { ReadBack form1 card.now (length notes.old) (length bars.old)
        (record {
          number = result.number;
          notes = result.notes;
          bars = result.bars;
          note_cells = notes.new;
          bar_cells = bars.new;
        }) }
{
    read_card::<TwoBytes>(card, notes, bars).into()
}

/// The reader's number.
pub fn pae_version() -> u32
    ensures { result ≡ version }
{
    VERSION
}
