// The width of a place in a card.
ghost use Rattle.std.specs.Prelude.{◌≡◌, ◌≤◌, ◌<◌, ◌^◌};
ghost use Rattle.std.proofs.Common.{rules};
ghost use Rattle.stores.specs.Cells.{word_limit};
ghost use Rattle.cards.specs.Fields.{number};
ghost use Rattle.cards.specs.Card.{Form, form1};
ghost use Rattle.cards.specs.Places.{TakesPlace};
ghost use Rattle.cards.specs.Writer.{Wrote};

use super::error::CardError;
use super::reading::CardReader;
use super::writing::CardWriter;

/// How wide a place is in a card of some form, and what else differs in that form.
pub trait PlaceWidth {
    ghost form: { Form };

    /// The card's first byte.
    fn first() -> u8
        ensures { result ≡ form.first };

    /// The greatest place.
    fn greatest() -> u32
        ensures { result ≡ form.greatest };

    /// Writes a place.
    fn put(place: u32, writer: &mut CardWriter<'_>)
        requires { place ≤ form.greatest }
        ensures { Wrote (number form.width place) writer.old writer.new };

    /// Reads the next place.
    fn take(reader: &mut CardReader<'_>) -> Result<u32, CardError>
        ensures { TakesPlace form.width reader.old.left.now result reader.new.left.now };

    ghost fits: { form.greatest < 256 ^ form.width };

    ghost narrow: { form.width ≤ 4 };

    ghost worded: { form.greatest < word_limit };
}

/// Places in two bytes: cards of form 1.
pub struct TwoBytes;

impl PlaceWidth for TwoBytes {
    ghost form = { form1 };

    ghost fits = { Prim.search rules };

    ghost narrow = { Prim.search rules };

    ghost worded = { Prim.search rules };

    fn first() -> u8 {
        1
    }

    fn greatest() -> u32 {
        65_535
    }

    #[tactic(auto, unfolding(crate::specs::Fields::number))]
    fn put(place: u32, writer: &mut CardWriter<'_>) {
        writer.append(&(place as u16).to_le_bytes());
    }

    fn take(reader: &mut CardReader<'_>) -> Result<u32, CardError> {
        let place = reader.two()?;
        Ok(u32::from(place))
    }
}
