// Why a text is refused, and where.
ghost use Rattle.std.specs.Prelude.{◌≡◌};
ghost use Rattle.view.specs.Refusals.{refusal_number, HasNoPlace};

use tokens::cut::Place;

/// Why a text is refused, in the order of the numbers 1 to 13; a number is the variant's.
#[derive(Clone, Copy, Debug, PartialEq, Eq, PartialOrd)]
pub enum Refusal {
    /// Over 65,535 bytes.
    TooLong = 1,
    /// Fewer than 1,024 diagnostic cells are lent.
    FewCells = 2,
    /// Malformed UTF-8.
    Malformed = 3,
    /// Blank throughout.
    Blank = 4,
    /// In field form without a data field.
    NoData = 5,
    /// Over 100,000 notes.
    TooManyNotes = 7,
    /// No room for a note.
    NoNote = 8,
    /// No room for a pitch.
    NoPitch = 9,
    /// No room for a mark.
    NoMark = 10,
    /// No room for a figure.
    NoFigure = 11,
    /// No room for a bar.
    NoBar = 12,
    /// Nothing is stored.
    NoRecord = 13,
}

impl From<Refusal> for u32 {
    ghost from_gives = { λ refusal number. number ≡ refusal_number refusal };

    fn from(refusal: Refusal) -> u32 {
        refusal as u32
    }
}

/// Why a text is refused, and the place in the data, if it has one.
#[derive(Clone, Copy, Debug, PartialEq, Eq)]
pub struct Stop {
    pub refusal: Refusal,
    pub place: Option<Place>,
}

impl From<Refusal> for Stop {
    ghost from_gives = { HasNoPlace };

    fn from(refusal: Refusal) -> Stop {
        Stop {
            refusal,
            place: None,
        }
    }
}
