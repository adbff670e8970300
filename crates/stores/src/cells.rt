// Records of so many words in lent cells: notes and bars alike.
ghost use Rattle.std.specs.Prelude.{◌≡◌, ◌+◌, ◌*◌, ◌<◌, ◌≤◌, ◌↔◌, length, slice_index_or, pos};
ghost use Rattle.std.specs.Prelude.{OnOk, OnErr, IsErr};
ghost use Rattle.rules.specs.Words.{zeros};
ghost use Rattle.rules.specs.Stored.{natural};
ghost use Rattle.stores.specs.Cells.{with_record, BlankFrom};

/// A reading or a card has at most so many notes.
pub const MAX_NOTES: usize = 100_000;

/// A note has at most so many pitches.
pub const MAX_PITCHES: usize = 8;

/// A note has at most so many marks.
pub const MAX_MARKS: usize = 8;

/// Words of a pitch.
pub const PITCH: usize = 4;

/// Words of a note before its pitches.
pub const FIRST_PITCH: usize = 12;

/// Words of a note.
pub const NOTE: usize = FIRST_PITCH + PITCH * MAX_PITCHES;

/// Words of a bar.
pub const BAR: usize = 10;

/// There is no room for one more.
#[derive(Clone, Copy, Debug, PartialEq, Eq)]
pub struct NoRoom;

/// The number that a word holds, 0 where it is below 0.
pub fn natural(word: i32) -> u32
    ensures { result ≡ natural word }
{
    u32::try_from(word).unwrap_or(0)
}

/// Records of `N` words in lent cells, the first ones stored.
#[derive(Drop)]
pub struct Records<'a, const N: usize> {
    pub cells: &'a mut [i32],
    pub count: usize,
    ghost within: { count * N ≤ length cells.now },
    ghost some_words: { 0 < N },
}

/// Note records.
pub type Notes<'a> = Records<'a, NOTE>;

/// Bar records.
pub type Bars<'a> = Records<'a, BAR>;

impl<'a, const N: usize> Records<'a, N> {
    /// No record yet, in cleared cells.
    #[tactic(auto, using(crate::proofs::Blank::blank))]
    pub fn new(cells: &'a mut [i32]) -> Records<'a, N>
        requires { 0 < N }
        ensures same_cells { result.cells.ghost_name ≡ cells.entry.ghost_name }
        ensures cleared { result.cells.now ≡ zeros (length cells.old) }
        ensures empty { result.count ≡ 0 }
        ensures blank { BlankFrom (result.count * N) result.cells.now }
    {
        cells.fill(0);
        Records { cells, count: 0 }
    }

    /// Clears all cells and forgets the records.
    #[tactic(auto, using(crate::proofs::Blank::blank))]
    pub fn clear(&mut self)
        ensures same_cells { self.new.cells.ghost_name ≡ self.old.cells.ghost_name }
        ensures cleared { self.new.cells.now ≡ zeros (length self.old.cells.now) }
        ensures empty { self.new.count ≡ 0 }
        ensures blank { BlankFrom (self.new.count * N) self.new.cells.now }
    {
        self.count = 0;
        self.cells.fill(0);
    }

    /// Stores the first words of one more record; the cells of its other words stay.
    #[tactic(auto, using(crate::proofs::Counted::counted))]
    pub fn begin(&mut self, words: &[i32]) -> Result<(), NoRoom>
        requires { length words.now ≤ N }
        ensures same_cells { self.new.cells.ghost_name ≡ self.old.cells.ghost_name }
        ensures full { IsErr result ↔ (length self.old.cells.now < self.old.count * N + N) }
        ensures room { OnOk result (self.old.count * N + N ≤ length self.old.cells.now) }
        ensures err { OnErr result (self.new.cells ≡ self.old.cells) }
        ensures err_count { OnErr result (self.new.count ≡ self.old.count) }
        ensures stored { OnOk result (self.new.cells.now ≡
            with_record N self.old.cells.now self.old.count words.now) }
        ensures counted { OnOk result (self.new.count ≡ self.old.count + 1) }
    {
        let at = self.count * N;
        if self.cells.len() - at < N {
            return Err(NoRoom);
        }
        self.cells[at..at + words.len()].copy_from_slice(words);
        self.count += 1;
        Ok(())
    }

    /// The number in a word of a record.
    pub fn number(&self, number: usize, at: usize) -> u32
        requires { number * N + at < length self.now.cells.now }
        ensures { result ≡ natural (slice_index_or self.now.cells.now (number * N + at) (pos 0)) }
    {
        natural(self.cells[number * N + at])
    }
}
