// What C and other languages call: the functions of `pae`, each with its clauses again. The library
// is libpae.a, its header include/pae.h.
#![tactic(auto)]

ghost use Rattle.std.specs.Prelude.{◌≡◌, length};
ghost use Rattle.cards.specs.Card.{form1};
ghost use Rattle.cards.specs.Answers.{Written, ReadBack};
ghost use Rattle.reader.specs.Answer.{lent_words};
ghost use Rattle.pae.specs.Promise.{Promise};
ghost use Rattle.pae.specs.Version.{version};

use pae::answers::{CardRead, CardWritten, Reading};
use stores::diagnostic::Diagnostic;

/// Reads a text of any bytes and any length into lent buffers of any length: a finished reading, or
/// one refusal, after which every lent cell is 0.
#[unsafe(no_mangle)]
pub extern "C" fn pae_read(
    text: &[u8],
    notes: &mut [i32],
    bars: &mut [i32],
    figure: &mut [i32],
    diagnostics: &mut [Diagnostic],
) -> Reading
    ensures { Promise text.now (lent_words notes.old bars.old figure.old diagnostics.old)
        result notes.new bars.new figure.new diagnostics.new }
{
    pae::pae_read(text, notes, bars, figure, diagnostics)
}

/// Writes the card of note and bar records that are exactly the lent slices: the card's bytes, or
/// one refusal, after which every lent byte is 0.
#[unsafe(no_mangle)]
pub extern "C" fn pae_write_card(notes: &[i32], bars: &[i32], card: &mut [u8]) -> CardWritten
    ensures { Written form1 notes.now bars.now (length card.old)
        (record { number = result.number; length = result.length; card = card.new }) }
{
    pae::pae_write_card(notes, bars, card)
}

/// Reads a card of any bytes and any length into lent records: the records whose card it is, or
/// one refusal, after which every lent cell is 0.
#[unsafe(no_mangle)]
pub extern "C" fn pae_read_card(card: &[u8], notes: &mut [i32], bars: &mut [i32]) -> CardRead
    ensures { ReadBack form1 card.now (length notes.old) (length bars.old)
        (record {
          number = result.number;
          notes = result.notes;
          bars = result.bars;
          note_cells = notes.new;
          bar_cells = bars.new;
        }) }
{
    pae::pae_read_card(card, notes, bars)
}

/// The reader's number.
#[unsafe(no_mangle)]
pub extern "C" fn pae_version() -> u32
    ensures { result ≡ version }
{
    pae::pae_version()
}
