// The accidentals of the open bar: an alteration for each of 7 steps in each of 10 octaves.
ghost use Rattle.std.specs.Prelude.{◌≡◌};
ghost use Rattle.stores.specs.Bars.{fifths_in};
ghost use Rattle.tokens.specs.Steps.{step_number};
ghost use Rattle.rules.specs.Records.{given};
ghost use Rattle.reader.specs.Parts.{accidental_in};
ghost use Rattle.view.specs.Accidentals.{no_entries, entry, entered};

use tokens::rhythm::{Accidental, Octave, Step};

/// An alteration for each of 7 steps in each of 10 octaves, an extra value meaning none.
// Not `Option`s: they made short bars, each of which clears the table, a third slower (tried).
#[derive(Clone, Copy)]
pub struct Accidentals {
    pub table: [[i8; 10]; 7],
}

impl Accidentals {
    /// No alteration.
    const NONE: i8 = 3;

    /// Barlines clear them.
    pub fn new() -> Accidentals
        ensures { result.table ≡ no_entries }
    {
        Accidentals {
            table: [[Accidentals::NONE; 10]; 7],
        }
    }

    // A step and an octave, here and below: a struct of them would be made for one call.

    /// The alteration at a step and octave, if one is entered.
    pub fn get(&self, step: Step, octave: Octave) -> Option<i8>
        ensures { fifths_in result ≡ entry self.now.table (step_number step) octave.number }
    {
        let alter = self.table[step as usize][octave.number as usize];
        if alter == Accidentals::NONE {
            None
        } else {
            Some(alter)
        }
    }

    /// A letter's accidental, if it has one, is entered at its step and octave.
    pub fn enter(&mut self, step: Step, octave: Octave, accidental: Option<Accidental>)
        ensures { self.new.table ≡ given (accidental_in accidental) self.old.table
            (λ alter. entered self.old.table (step_number step) octave.number alter) }
    {
        if let Some(accidental) = accidental {
            self.table[step as usize][octave.number as usize] = accidental.alter();
        }
    }
}
