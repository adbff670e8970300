// A bar's record.
ghost use Rattle.std.specs.Prelude.{◌≡◌, ◌+◌, ◌*◌, ◌<◌, ◌↔◌, length, OnOk, OnErr, IsErr};
ghost use Rattle.stores.specs.Cells.{with_record, word_limit};
ghost use Rattle.rules.specs.Words.{meter_words};
ghost use Rattle.tokens.specs.Attributes.{meter_in};
ghost use Rattle.stores.specs.Bars.{numbers_of, bar_numbers};

use super::cells::{BAR, NoRoom, Records};
use tokens::attributes::{Clef, Meter};
use tokens::rhythm::Edge;

/// First note from 0, note count; clef, fifths and meter where set; how it begins and ends.
#[derive(Clone, Copy, Debug, PartialEq, Eq)]
pub struct Bar {
    pub first: u32,
    pub count: u32,
    pub clef: Option<Clef>,
    pub fifths: Option<i8>,
    pub meter: Option<Meter>,
    pub left: Edge,
    pub right: Edge,
}

// Numerator, denominator, symbol: 0 where there is none.
fn meter_words(meter: Option<Meter>) -> [i32; 3]
    ensures { result ≡ meter_words (meter_in meter) }
{
    let Some(meter) = meter else {
        return [0, 0, 0];
    };
    let symbol = match meter.symbol {
        Some(symbol) => symbol.into(),
        None => 0,
    };
    [
        i32::from(meter.numerator),
        i32::from(meter.denominator),
        symbol,
    ]
}

impl Bar {
    fn words(self) -> [i32; BAR]
        requires first { self.first < word_limit }
        requires count { self.count < word_limit }
        ensures { result ≡ bar_numbers (numbers_of self) }
    {
        let clef = match self.clef {
            Some(clef) => clef.into(),
            None => 0,
        };
        let (keyed, fifths) = match self.fifths {
            Some(fifths) => (1, i32::from(fifths)),
            None => (0, 0),
        };
        let [numerator, denominator, symbol] = meter_words(self.meter);
        [
            self.first as i32,
            self.count as i32,
            clef,
            keyed,
            fifths,
            numerator,
            denominator,
            symbol,
            self.left.into(),
            self.right.into(),
        ]
    }
}

impl<'a> Records<'a, BAR> {
    /// One more bar.
    pub fn store(&mut self, bar: Bar) -> Result<(), NoRoom>
        requires first { bar.first < word_limit }
        requires bar_count { bar.count < word_limit }
        ensures same_cells { self.new.cells.ghost_name ≡ self.old.cells.ghost_name }
        ensures full { IsErr result ↔ (length self.old.cells.now < self.old.count * BAR + BAR) }
        ensures err { OnErr result (self.new.cells ≡ self.old.cells) }
        ensures err_count { OnErr result (self.new.count ≡ self.old.count) }
        ensures stored { OnOk result (self.new.cells.now ≡
            with_record BAR self.old.cells.now self.old.count (bar_numbers (numbers_of bar))) }
        ensures counted { OnOk result (self.new.count ≡ self.old.count + 1) }
    {
        self.begin(&bar.words())
    }
}
