// Copies of note records: into the figure, from the figure, and of a bar.
ghost use Rattle.std.specs.Prelude.{◌≡◌, ◌+◌, ◌*◌, ◌/◌, ◌≤◌, ◌<◌, ◌↔◌, length, take, drop};
ghost use Rattle.std.specs.Prelude.{OnOk, OnErr, IsErr};
ghost use Rattle.stores.specs.Cells.{written, word_limit};
ghost use Rattle.stores.specs.Copies.{copy_of, copies};

use super::cells::{NOTE, NoRoom, Records};
use super::note::{BAR_NUMBER, PLACE, TIES};
use tokens::cut::Place;

// Words, copied.
// A loop: std's `copy_from_slice` would have the archive for C ask for `memmove`.
fn copy_words(target: &mut [i32], source: &[i32])
    requires { length target.old ≡ length source.now }
    ensures { target.new ≡ source.now }
{
    for k in 0..source.len() {
        target[k] = source[k];
    }
}

// A record's words copied into others, with another place and bar, and no ties.
// That place and bar fit words is asked for: a tuple struct has no ghost field, nor has a number.
// Slices, of `NOTE` words: `first_chunk_mut` gives an `Option`, whose `None` can't be.
fn copy_record(target: &mut [i32], source: &[i32], place: Place, bar: u32)
    requires target { length target.old ≡ NOTE }
    requires source { length source.now ≡ NOTE }
    requires place { place.0 < word_limit }
    requires bar { bar < word_limit }
    ensures { target.new ≡ copy_of place.0 bar source.now }
{
    copy_words(target, source);
    target[PLACE] = place.0 as i32;
    target[TIES] = 0;
    target[BAR_NUMBER] = bar as i32;
}

// Records, copied into the first of others.
fn copy_records(target: &mut [i32], source: &[i32], place: Place, bar: u32)
    requires room { length source.now ≤ length target.old }
    requires place { place.0 < word_limit }
    requires bar { bar < word_limit }
    ensures { target.new ≡ written target.old 0
        (copies place.0 bar source.now (length source.now / NOTE)) }
{
    // By number: std doesn't say what is in the cells after `chunks_exact_mut`.
    for k in 0..source.len() / NOTE {
        let at = k * NOTE;
        copy_record(
            &mut target[at..at + NOTE],
            &source[at..at + NOTE],
            place,
            bar,
        );
    }
}

// The `count` records from record `from` on, copied to record `to` on. Numbers, and no slices: both
// are in the same cells.
fn copy_behind(cells: &mut [i32], from: usize, to: usize, count: usize, place: Place, bar: u32)
    requires later { from + count ≤ to }
    requires room { to * NOTE + count * NOTE ≤ length cells.old }
    requires place { place.0 < word_limit }
    requires bar { bar < word_limit }
    ensures { cells.new ≡
        written cells.old (to * NOTE) (copies place.0 bar (drop (from * NOTE) cells.old) count) }
{
    let (front, back) = cells.split_at_mut(to * NOTE);
    copy_records(back, &front[from * NOTE..(from + count) * NOTE], place, bar);
}

impl<'a> Records<'a, NOTE> {
    /// The records from one up to another are the figure, which is lent beside these.
    pub fn take_figure(&self, figure: &mut [i32], from: usize, count: usize)
        requires from { from + count ≤ self.now.count }
        requires room { count * NOTE ≤ length figure.old }
        ensures { figure.new ≡
            written figure.old 0 (take (count * NOTE) (drop (from * NOTE) self.now.cells.now)) }
    {
        let start = from * NOTE;
        let size = count * NOTE;
        copy_words(&mut figure[..size], &self.cells[start..start + size]);
    }

    // Parameters, here and below: the reader has each of them apart.

    /// The figure's records, appended as copies.
    pub fn repeat_figure(
        &mut self,
        figure: &[i32],
        count: usize,
        place: Place,
        bar: u32,
    ) -> Result<(), NoRoom>
        requires figure { count * NOTE ≤ length figure.now }
        requires place { place.0 < word_limit }
        requires bar { bar < word_limit }
        ensures same_cells { self.new.cells.ghost_name ≡ self.old.cells.ghost_name }
        ensures full { IsErr result ↔
            (length self.old.cells.now < self.old.count * NOTE + count * NOTE) }
        ensures err { OnErr result (self.new.cells ≡ self.old.cells) }
        ensures err_count { OnErr result (self.new.count ≡ self.old.count) }
        ensures copied { OnOk result (self.new.cells.now ≡
            written self.old.cells.now (self.old.count * NOTE)
            (copies place.0 bar figure.now count)) }
        ensures counted { OnOk result (self.new.count ≡ self.old.count + count) }
    {
        if self.cells.len() - self.count * NOTE < count * NOTE {
            return Err(NoRoom);
        }
        let at = self.count * NOTE;
        copy_records(&mut self.cells[at..], &figure[..count * NOTE], place, bar);
        self.count += count;
        Ok(())
    }

    // Not by `repeat_figure`: the records stand in the cells themselves, lent for writing.
    /// `count` records from one on, appended as copies.
    pub fn repeat(
        &mut self,
        from: usize,
        count: usize,
        place: Place,
        bar: u32,
    ) -> Result<(), NoRoom>
        requires from { from + count ≤ self.old.count }
        requires place { place.0 < word_limit }
        requires bar { bar < word_limit }
        ensures same_cells { self.new.cells.ghost_name ≡ self.old.cells.ghost_name }
        ensures full { IsErr result ↔
            (length self.old.cells.now < self.old.count * NOTE + count * NOTE) }
        ensures err { OnErr result (self.new.cells ≡ self.old.cells) }
        ensures err_count { OnErr result (self.new.count ≡ self.old.count) }
        ensures copied { OnOk result (self.new.cells.now ≡
            written self.old.cells.now (self.old.count * NOTE)
            (copies place.0 bar (drop (from * NOTE) self.old.cells.now) count)) }
        ensures counted { OnOk result (self.new.count ≡ self.old.count + count) }
    {
        if self.cells.len() - self.count * NOTE < count * NOTE {
            return Err(NoRoom);
        }
        copy_behind(self.cells, from, self.count, count, place, bar);
        self.count += count;
        Ok(())
    }
}
