// The open bar: its number and notes, room for more, and where a group, beam or figure starts.
ghost use Rattle.std.specs.Prelude.{◌≡◌, ◌+◌, ◌≤◌, ◌<◌, [], MatchResult};
ghost use Rattle.rules.specs.Limits.{note_limit};
ghost use Rattle.stores.specs.Cells.{word_limit};
ghost use Rattle.reader.specs.Parts.{start_of};
ghost use Rattle.reader.specs.Reader.{view_of};
ghost use Rattle.view.specs.declared.refusal.Refusal.TheVariants.{TooManyNotes};
ghost use Rattle.view.specs.View.{has_note, ends_in_note, open_length, start_here, in_its_bar};

use super::state::{Start, State};
use super::walk::Reader;
use stores::note::{KIND, NoteKind};
use view::refusal::Refusal;

impl<'s, 't, 'n, 'b, 'l, 'd> Reader<'s, 't, 'n, 'b, 'l, 'd> {
    /// Whether the open bar has a note.
    pub fn has_note(&self) -> bool
        ensures { result ≡ has_note (view_of self.now []) }
    {
        self.state.first < self.notes.count
    }

    /// Whether the open bar ends in a note that is no rest, of either kind.
    pub fn ends_in_note(&self) -> bool
        ensures { result ≡ ends_in_note (view_of self.now []) }
    {
        if !self.has_note() {
            return false;
        }
        // By the word: `NoteKind::try_from` would bring a case for words that no record has.
        let kind = self.notes.number(self.notes.count - 1, KIND);
        kind != NoteKind::Rest as u32 && kind != NoteKind::WholeBarRest as u32
    }

    /// How many notes the open bar has.
    pub fn open_length(&self) -> usize
        requires { self.now.state.first ≤ self.now.notes.now.count }
        ensures { result ≡ open_length (view_of self.now []) }
    {
        self.notes.count - self.state.first
    }

    /// The number of the open bar, from 1.
    pub fn open_bar(&self) -> u32
        requires { self.now.bars.now.count + 1 < word_limit }
        ensures { result ≡ self.now.bars.now.count + 1 }
    {
        self.bars.count as u32 + 1
    }

    /// So many notes more are refused where a reading would have too many.
    pub fn room_for(&self, count: usize) -> Result<(), Refusal>
        requires { self.now.notes.now.count ≤ note_limit }
        ensures { MatchResult result
            (λ _. self.now.notes.now.count + count ≤ note_limit)
            (λ e. (note_limit < self.now.notes.now.count + count) × (e ≡ TooManyNotes)) }
    {
        if State::MAX_NOTES - self.notes.count < count {
            return Err(Refusal::TooManyNotes);
        }
        Ok(())
    }

    /// A start here.
    pub fn start_here(&self) -> Start
        requires { self.now.state.first ≤ self.now.notes.now.count }
        ensures { start_of result ≡ start_here (view_of self.now []) }
    {
        Start {
            bar: self.bars.count,
            from: self.open_length(),
        }
    }

    /// Whether the open bar is the start's own.
    pub fn in_its_bar(&self, start: Start) -> bool
        ensures { result ≡ in_its_bar (start_of start) (view_of self.now []) }
    {
        start.bar == self.bars.count
    }
}
