// What the functions answer, in the form that C has: a number, 0 or a refusal's, and counts.

use cards::error::CardError;
use cards::read::CardCounts;
use reader::read::Counts;
use view::refusal::Stop;

/// Of a reading: 0 or the refusal's number; the place in the data, 0 where it has none; how many
/// notes, bars and diagnostics are stored.
#[repr(C)]
#[derive(Clone, Copy, Debug, PartialEq, Eq)]
pub struct Reading {
    pub number: u32,
    pub place: u32,
    pub notes: u32,
    pub bars: u32,
    pub diagnostics: u32,
}

impl From<Result<Counts, Stop>> for Reading {
    ghost use Rattle.pae.specs.Numbers.{Says};

    ghost from_gives = { Says };

    fn from(answer: Result<Counts, Stop>) -> Reading {
        match answer {
            Ok(counts) => Reading {
                number: 0,
                place: 0,
                notes: counts.notes,
                bars: counts.bars,
                diagnostics: counts.diagnostics,
            },
            Err(stop) => Reading {
                number: stop.refusal.into(),
                place: stop.place.map_or(0, |place| place.0),
                notes: 0,
                bars: 0,
                diagnostics: 0,
            },
        }
    }
}

/// Of a card that is written: 0 or the refusal's number; how many bytes it has.
#[repr(C)]
#[derive(Clone, Copy, Debug, PartialEq, Eq)]
pub struct CardWritten {
    pub number: u32,
    pub length: u32,
}

impl From<Result<u32, CardError>> for CardWritten {
    ghost use Rattle.pae.specs.Numbers.{SaysWritten};

    ghost from_gives = { SaysWritten };

    fn from(answer: Result<u32, CardError>) -> CardWritten {
        match answer {
            Ok(length) => CardWritten { number: 0, length },
            Err(error) => CardWritten {
                number: error.into(),
                length: 0,
            },
        }
    }
}

/// Of a card that is read: 0 or the refusal's number; how many notes and bars are stored.
#[repr(C)]
#[derive(Clone, Copy, Debug, PartialEq, Eq)]
pub struct CardRead {
    pub number: u32,
    pub notes: u32,
    pub bars: u32,
}

impl From<Result<CardCounts, CardError>> for CardRead {
    ghost use Rattle.pae.specs.Numbers.{SaysRead};

    ghost from_gives = { SaysRead };

    fn from(answer: Result<CardCounts, CardError>) -> CardRead {
        match answer {
            Ok(counts) => CardRead {
                number: 0,
                notes: counts.notes,
                bars: counts.bars,
            },
            Err(error) => CardRead {
                number: error.into(),
                notes: 0,
                bars: 0,
            },
        }
    }
}
