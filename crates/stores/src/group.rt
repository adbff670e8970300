// Groups over a part of the notes: beams, tuplets, fermatas. The step is lent the notes from a
// record on, so those before are untouched.
ghost use Rattle.std.specs.Prelude.{◌≡◌, ◌+◌, ◌-◌, ◌*◌, ◌≤◌, ◌<◌, ◌↔◌, length, drop, pos};
ghost use Rattle.std.specs.Prelude.{OnOk, OnErr, IsErr};
ghost use Rattle.rules.specs.Limits.{mark_capacity};
ghost use Rattle.rules.specs.Rules.{closing, tuplet_of};
ghost use Rattle.tokens.specs.Numbers.{number_in};
ghost use Rattle.stores.specs.Cells.{on_part, word_limit};
ghost use Rattle.stores.specs.Notes.{number_at, mark_limit};
ghost use Rattle.stores.specs.Groups.{timed_at, timed_count, last_non_grace, last_timed};
ghost use Rattle.stores.specs.Groups.{beam_number, beamed_words, tupled_words, walked, beamed};
ghost use Rattle.stores.specs.Groups.{tupled, fermata_in, closing_of, ThreeAtLeast};

use super::cells::{MAX_MARKS, NOTE, NoRoom, Records, natural};
use super::note::{ACTUAL, BEAM, KIND, MARK_COUNT, MARKS, NORMAL, NoteKind, add_mark};

// No `Option` of the last: who asks for it has a record, and would have to unwrap it.
/// The non-grace records of a part: how many, and the number of the last, 0 where there is none.
#[derive(Clone, Copy, Debug, PartialEq, Eq)]
pub struct Timed {
    pub count: usize,
    pub last: usize,
}

/// What a `)` makes of its group: nothing, a fermata, a tuplet of so many, or d11 with the number.
/// `Nothing` is a case of its own, as in the rules: what a `)` makes, not the lack of a `)`.
#[derive(Clone, Copy, Debug, PartialEq, Eq)]
pub enum Closing {
    Nothing,
    Fermata,
    Tuplet(u8),
    TooFew(u8),
}

// Whether a record is non-grace. By the word: `matches!` of `NoteKind::try_from` was tried, and the
// proof didn't close.
fn is_timed(words: &[i32]) -> bool
    requires { length words.now ≡ NOTE }
    ensures { result ≡ timed_at words.now 0 }
{
    let kind = natural(words[KIND]);
    kind != NoteKind::Grace as u32 && kind != NoteKind::SlashedGrace as u32
}

// The non-grace records of the part's first `count`. A `count`, here and below: the part goes on to
// the end of the cells, as the methods promise it; cut off, it would have to be divided by `NOTE`.
fn timed_in(part: &[i32], count: usize) -> Timed
    requires { count * NOTE ≤ length part.now }
    ensures count { result.count ≡ timed_count part.now count }
    ensures within { result.count ≤ count }
    ensures last { result.last ≡ last_non_grace part.now count }
    ensures last_within { result.last ≤ count - 1 }
{
    let mut timed = Timed { count: 0, last: 0 };
    // By number, which is a part of the answer; chunks would have to be counted, and cut off, too.
    for k in 0..count {
        let at = k * NOTE;
        if is_timed(&part[at..at + NOTE]) {
            timed.count += 1;
            timed.last = k;
        }
    }
    timed
}

// The word of a beam: a number, since a record has words, and nothing here looks at it again.
fn beam_number(earlier: usize, total: usize) -> i32
    requires { earlier < word_limit }
    ensures { result ≡ pos (beam_number earlier total) }
{
    if earlier == 0 {
        1
    } else if earlier + 1 == total {
        3
    } else {
        2
    }
}

// One record's words with a beam.
fn set_beam(words: &mut [i32], earlier: usize, total: usize)
    requires whole { length words.old ≡ NOTE }
    requires fits { earlier < word_limit }
    ensures { words.new ≡ beamed_words total earlier words.old }
{
    words[BEAM] = beam_number(earlier, total);
}

// One record's words with a tuplet.
fn set_tuplet(words: &mut [i32], actual: u8, normal: u8)
    requires { length words.old ≡ NOTE }
    ensures { words.new ≡ tupled_words actual normal 0 words.old }
{
    words[ACTUAL] = i32::from(actual);
    words[NORMAL] = i32::from(normal);
}

// The non-grace ones of the part's first `count` records, beamed.
fn beam_each(part: &mut [i32], count: usize, total: usize)
    requires room { count * NOTE ≤ length part.old }
    requires fits { count < word_limit }
    ensures { part.new ≡ (walked (beamed_words total) part.old count).0 }
{
    let mut earlier = 0;
    // By number: std doesn't say what is in the cells after `chunks_exact_mut`.
    for k in 0..count {
        let at = k * NOTE;
        if is_timed(&part[at..at + NOTE]) {
            set_beam(&mut part[at..at + NOTE], earlier, total);
            earlier += 1;
        }
    }
}

// The part's first `count` records, beamed if two or more are non-grace.
fn beam(part: &mut [i32], count: usize)
    requires room { count * NOTE ≤ length part.old }
    requires fits { count < word_limit }
    ensures { part.new ≡ beamed part.old count }
{
    let total = timed_in(part, count).count;
    if total > 1 {
        beam_each(part, count, total);
    }
}

// The non-grace ones of the part's first `count` records, in a tuplet.
// `normal` beside `actual`: by `normal_of` this would ask that `actual` is 3 or more.
fn tuplet(part: &mut [i32], count: usize, actual: u8, normal: u8)
    requires room { count * NOTE ≤ length part.old }
    ensures { part.new ≡ tupled actual normal part.old count }
{
    // By number, as above.
    for k in 0..count {
        let at = k * NOTE;
        if is_timed(&part[at..at + NOTE]) {
            set_tuplet(&mut part[at..at + NOTE], actual, normal);
        }
    }
}

// A fermata at the last non-grace one of the part's first `count` records.
fn fermata(part: &mut [i32], count: usize) -> Result<(), NoRoom>
    requires room { count * NOTE ≤ length part.old }
    requires some { 0 < count }
    requires fits { number_at MARKS (last_timed part.old count) < mark_limit }
    ensures full { IsErr result ↔
        (mark_capacity ≤ number_at MARK_COUNT (last_timed part.old count)) }
    ensures err { OnErr result (part.new ≡ part.old) }
    ensures marked { OnOk result (part.new ≡ fermata_in part.old count) }
{
    let at = timed_in(part, count).last * NOTE;
    if natural(part[at + MARK_COUNT]) as usize >= MAX_MARKS {
        return Err(NoRoom);
    }
    add_mark(&mut part[at..at + NOTE], false);
    Ok(())
}

impl<'a> Records<'a, NOTE> {
    // That `from` is not past the count is asked, here and below: who calls has it of the start.

    /// The non-grace records from one on.
    pub fn timed_from(&self, from: usize) -> Timed
        requires { from ≤ self.now.count }
        ensures count { result.count ≡
            timed_count (drop (from * NOTE) self.now.cells.now) (self.now.count - from) }
        ensures last { result.last ≡
            last_non_grace (drop (from * NOTE) self.now.cells.now) (self.now.count - from) }
    {
        timed_in(&self.cells[from * NOTE..], self.count - from)
    }

    /// `}`: the records from one on, beamed.
    pub fn beam_from(&mut self, from: usize)
        requires from { from ≤ self.old.count }
        requires fits { self.old.count - from < word_limit }
        ensures same_cells { self.new.cells.ghost_name ≡ self.old.cells.ghost_name }
        ensures beamed { self.new.cells.now ≡
            on_part NOTE from (λ part. beamed part (self.old.count - from)) self.old.cells.now }
        ensures count { self.new.count ≡ self.old.count }
    {
        beam(&mut self.cells[from * NOTE..], self.count - from);
    }

    /// `)` that makes a tuplet of the records from one on.
    pub fn tuplet_from(&mut self, from: usize, actual: u8, normal: u8)
        requires { from ≤ self.old.count }
        ensures same_cells { self.new.cells.ghost_name ≡ self.old.cells.ghost_name }
        ensures tupled { self.new.cells.now ≡
            on_part NOTE from (λ part. tupled actual normal part (self.old.count - from))
            self.old.cells.now }
        ensures count { self.new.count ≡ self.old.count }
    {
        tuplet(
            &mut self.cells[from * NOTE..],
            self.count - from,
            actual,
            normal,
        );
    }

    /// `)` that makes a fermata, at the last non-grace one of the records from one on.
    pub fn fermata_from(&mut self, from: usize) -> Result<(), NoRoom>
        requires from { from < self.old.count }
        requires fits { number_at MARKS (last_timed (drop (from * NOTE) self.old.cells.now)
            (self.old.count - from)) < mark_limit }
        ensures same_cells { self.new.cells.ghost_name ≡ self.old.cells.ghost_name }
        ensures full { IsErr result ↔ (mark_capacity ≤ number_at MARK_COUNT
            (last_timed (drop (from * NOTE) self.old.cells.now) (self.old.count - from))) }
        ensures err { OnErr result (self.new.cells.now ≡ self.old.cells.now) }
        ensures marked { OnOk result (self.new.cells.now ≡
            on_part NOTE from (λ part. fermata_in part (self.old.count - from))
            self.old.cells.now) }
        ensures count { self.new.count ≡ self.old.count }
    {
        fermata(&mut self.cells[from * NOTE..], self.count - from)
    }
}

fn tuplet_of(actual: u8) -> Closing
    ensures closing { closing_of result ≡ tuplet_of actual }
    ensures three { ThreeAtLeast result }
{
    if actual < 3 {
        Closing::TooFew(actual)
    } else {
        Closing::Tuplet(actual)
    }
}

/// What a `)` makes of a group of so many non-grace records, and the count that `;` set, if any.
pub fn closing_of(timed: usize, count: Option<u8>) -> Closing
    ensures closing { closing_of result ≡ closing timed (number_in count) }
    ensures three { ThreeAtLeast result }
{
    if timed == 0 {
        return Closing::Nothing;
    }
    match count {
        Some(actual) => tuplet_of(actual),
        None => if timed == 1 {
            Closing::Fermata
        } else {
            tuplet_of(3)
        },
    }
}
