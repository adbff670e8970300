// What the reader holds between two tokens, but for the records.
ghost use Rattle.std.specs.Prelude.{◌≡◌, ◌∷◌, []};
ghost use Rattle.rules.specs.Values.{quarter};
ghost use Rattle.tokens.specs.Rhythm.{all_lengths, lengths_left};
ghost use Rattle.rules.specs.Rules.{is_grace};
ghost use Rattle.reader.specs.Parts.{grace_in, IsFresh, no_groups};

use stores::cells::{MAX_MARKS, MAX_NOTES, MAX_PITCHES};
use stores::diagnostic::MAX_DIAGNOSTICS;
use tokens::attributes::{Clef, Key, Meter};
use tokens::kinds::Grace;
use tokens::numbers::{MAX_COUNT, MAX_WHOLE_BARS};
use tokens::rhythm::{Accidental, Cycle, Edge, Length, Octave, Pattern};

/// What the open bar has, and the alterations of the key last taken.
#[derive(Clone, Copy)]
pub struct Attributes {
    pub clef: Option<Clef>,
    pub fifths: Option<i8>,
    pub meter: Option<Meter>,
    pub left: Edge,
    pub alters: [i8; 7],
}

/// The octave, and what waits for the next letter or opened note.
#[derive(Clone, Copy)]
pub struct Voice {
    pub octave: Octave,
    pub accidental: Option<Accidental>,
    /// A `^` waits.
    pub chord: bool,
    pub grace: Option<Grace>,
    /// A `qq` group is open.
    pub group: bool,
    /// A tie waits for its end.
    pub tie: bool,
}

impl Voice {
    /// Whether the next opened note is a grace.
    pub fn is_grace(&self) -> bool
        ensures { result ≡ is_grace (grace_in self.now.grace) self.now.group }
    {
        self.grace.is_some() || self.group
    }
}

/// Where a group, beam or figure starts: how many bars are stored, and the open bar's length.
#[derive(Clone, Copy)]
pub struct Start {
    pub bar: usize,
    pub from: usize,
}

/// An open `(`: its start, and the count that `;` set.
#[derive(Clone, Copy)]
pub struct Group {
    pub start: Start,
    pub count: Option<u8>,
}

/// The starts that `!`, `{` and `(` noted.
#[derive(Clone, Copy)]
pub struct Groups {
    pub figure: Option<Start>,
    pub beam: Option<Start>,
    pub group: Option<Group>,
}

/// The reading state: attributes, voice, the lengths in turn, starts; the first record of the open
/// bar and of the last stored one; records of the figure.
#[derive(Clone, Copy)]
pub struct State<'d> {
    pub attributes: Attributes,
    pub voice: Voice,
    pub lengths: Cycle<'d>,
    pub groups: Groups,
    pub first: usize,
    pub last: usize,
    pub figure: usize,
}

impl<'d> State<'d> {
    // The orders and limits stand here too, under their published names (D-112).

    /// The order of sharps in a key.
    pub const SHARPS: [u8; 7] = Key::SHARPS;

    /// The order of flats in a key.
    pub const FLATS: [u8; 7] = Key::FLATS;

    /// A text has at most so many bytes.
    pub const MAX_INPUT_BYTES: usize = 65_535;

    /// A reading has at most so many notes.
    pub const MAX_NOTES: usize = MAX_NOTES;

    /// So many diagnostics are stored, and at least as many cells lent.
    pub const MAX_DIAGNOSTICS: usize = MAX_DIAGNOSTICS;

    /// A note has at most so many pitches.
    pub const MAX_PITCHES: usize = MAX_PITCHES;

    /// A note has at most so many marks.
    pub const MAX_MARKS: usize = MAX_MARKS;

    /// A length has at most so many dots.
    pub const MAX_DOTS: usize = Length::MAX_DOTS;

    /// A group counts at most so far.
    pub const MAX_COUNT: u16 = MAX_COUNT;

    /// `=` counts at most so far.
    pub const MAX_WHOLE_BARS: u16 = MAX_WHOLE_BARS;

    /// The highest octave.
    pub const MAX_OCTAVE: usize = Octave::MAX;

    /// A fresh reading starts in octave 4 with a quarter, and with these attributes.
    pub fn new(attributes: Attributes) -> State<'d>
        ensures attributes { result.attributes ≡ attributes }
        ensures voice { IsFresh result.voice }
        ensures all { all_lengths result.lengths ≡ quarter ∷ [] }
        ensures left { lengths_left result.lengths ≡ quarter ∷ [] }
        ensures groups { result.groups ≡ no_groups }
        ensures first { result.first ≡ 0 }
        ensures last { result.last ≡ 0 }
        ensures figure { result.figure ≡ 0 }
    {
        State {
            attributes,
            voice: Voice {
                octave: Octave::START,
                accidental: None,
                chord: false,
                grace: None,
                group: false,
                tie: false,
            },
            lengths: Cycle::new(Pattern::new()),
            groups: Groups {
                figure: None,
                beam: None,
                group: None,
            },
            first: 0,
            last: 0,
            figure: 0,
        }
    }
}
