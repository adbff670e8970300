// Why a card is not written or read.
ghost use Rattle.std.specs.Prelude.{◌≡◌};
ghost use Rattle.cards.specs.Errors.{Numbered};
ghost use Rattle.cards.specs.declared.error.CardError.TheVariants.{Invalid};

use tokens::numbers::UnknownWord;

/// Why a card is not written or read: 14, then 15.
#[derive(Clone, Copy, Debug, PartialEq, Eq)]
pub enum CardError {
    /// They are no such records, or it is no such card.
    Invalid,
    /// The card, or its records, don't fit into the lent cells.
    NoRoom,
}

impl From<CardError> for u32 {
    ghost from_gives = { Numbered };

    fn from(error: CardError) -> u32 {
        match error {
            CardError::Invalid => 14,
            CardError::NoRoom => 15,
        }
    }
}

impl From<UnknownWord> for CardError {
    ghost from_gives = { λ _ error. error ≡ Invalid };

    fn from(_word: UnknownWord) -> CardError {
        CardError::Invalid
    }
}
