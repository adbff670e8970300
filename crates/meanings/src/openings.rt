// Where a group, a beam or a figure was opened, and in which bar, told at the mark that closes it.
ghost use Rattle.std.specs.Prelude.{◌≤◌, length};

use crate::shown::Shown;
use marks::kind::Kind;
use marks::lookback::Mark;
use marks::records::{Note, Notes, Tuplet};
use tokens::kinds::Marking;

/// Whether it is a `;` with a count.
fn is_count(mark: &Mark<'_>) -> bool {
    matches!(mark.kind, Kind::Marking(Marking::GroupCount(Some(_))))
}

impl<'a, 'd> Shown<'a, 'd> {
    /// The mark that opened the group that is open at a mark.
    pub(crate) fn group_opener(&self, mark: Mark<'d>) -> Option<Mark<'d>> {
        self.marks.latest_since(
            mark.number,
            |mark| mark.opens_group(),
            |mark| mark.closes_group(),
        )
    }

    /// The mark that opened the beam that is open at a mark.
    pub(crate) fn beam_opener(&self, mark: Mark<'d>) -> Option<Mark<'d>> {
        self.marks.latest_since(
            mark.number,
            |mark| mark.opens_beam(),
            |mark| mark.closes_beam(),
        )
    }

    /// The `!` that opened the figure that is open at a mark; every second one closes.
    pub(crate) fn figure_opener(&self, mark: Mark<'d>) -> Option<Mark<'d>> {
        let before = self
            .marks
            .count_since(mark.number, |mark| mark.is_figure_mark(), |_| false);
        if before % 2 == 0 {
            return None;
        }
        self.marks.latest(mark.number, |mark| mark.is_figure_mark())
    }

    /// The mark that stored the last record of the bar that is open at a mark.
    pub(crate) fn last_of_bar(&self, mark: Mark<'d>) -> Option<Mark<'d>> {
        self.marks.latest_since(mark.number, |mark| mark.stores(), |mark| mark.is_barline())
    }

    /// How many records are stored before a mark.
    fn records_before(&self, mark: Mark<'d>) -> usize
        ensures { result ≤ length self.now.notes.0.now }
    {
        let number = match self.marks.latest(mark.number, |mark| mark.stores()) {
            Some(last) => last.stored,
            None => None,
        };
        match number {
            Some(number) => number.saturating_add(1).min(self.notes.len()),
            None => 0,
        }
    }

    /// The number of the bar that is open at a mark, from 1: that of the last record, or the next
    /// one where a barline follows that record.
    pub(crate) fn bar_at(&self, mark: Mark<'d>) -> u64 {
        let records = self.records_before(mark);
        if records == 0 {
            return 1;
        }
        let bar = match self.notes.get(records - 1) {
            Some(note) => u64::from(note.bar()),
            None => return 1,
        };
        if self.last_of_bar(mark).is_some() {
            bar
        } else {
            bar + 1
        }
    }

    /// The records that were stored from one mark on, before another.
    // Two marks, here and below: a struct of them would be made for one call and taken apart in it.
    pub(crate) fn notes_between(&self, from: Mark<'d>, to: Mark<'d>) -> Notes<'a> {
        let end = self.records_before(to);
        let start = self.records_before(from).min(end);
        Notes(&self.notes.0[start..end])
    }

    /// How many records between two marks are no graces.
    pub(crate) fn timed_between(&self, from: Mark<'d>, to: Mark<'d>) -> usize {
        let notes = self.notes_between(from, to).0;
        notes
            .iter()
            .filter(|record| Note(*record).is_timed())
            .count()
    }

    /// The tuplet of the first record between two marks that is no grace.
    pub(crate) fn tuplet_between(&self, from: Mark<'d>, to: Mark<'d>) -> Option<Tuplet> {
        let notes = self.notes_between(from, to).0;
        let timed = notes.iter().find(|record| Note(*record).is_timed())?;
        Note(timed).tuplet()
    }

    /// Whether a count stands in the group that is open at a mark.
    pub(crate) fn has_count(&self, mark: Mark<'d>) -> bool {
        self.marks
            .latest_since(
                mark.number,
                |mark| is_count(mark),
                |mark| mark.opens_group(),
            )
            .is_some()
    }
}
