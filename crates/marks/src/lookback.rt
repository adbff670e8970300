// The look-back over the marks of the data: over the marks before a letter, the latest first.
ghost use Rattle.std.specs.Prelude.{◌≡◌, ◌+◌, ◌^◌, ◌<◌, ◌≤◌, false, length, take, drop, IfOk};
ghost use Rattle.rules.specs.Tokens.{items_of};
ghost use Rattle.scan.specs.Parts.{part_of};
ghost use Rattle.marks.specs.Marks.{items_in, bytes_in, AreMarks, AreAll, Enters};
ghost use Rattle.marks.specs.Marks.{whole, capped, AreAllCapped, EntersCapped};
ghost use Rattle.marks.specs.LookBack.{Answers, latest_of, count_of, first_of, stands_at};

use crate::mark::Cut;
pub use crate::mark::Mark;
use crate::records::Notes;
use scan::characters::count_characters;
use scan::lines::{Offset, Part};
use std::alloc::{AllocError, Global};
use tokens::cut::{Place, Tokens, token_size};

/// A number that a `u32` may not hold: the greatest one in place of a greater one.
fn capped(number: usize) -> u32
    ensures { result ≡ capped number }
{
    u32::try_from(number).unwrap_or(u32::MAX)
}

/// Enters the marks of the data into a list that is lent, in order, as many as it has room for; how
/// many there are. It allocates nothing, and takes data of any length: a place or an offset that no
/// `u32` holds is entered as the greatest one, `u32::MAX`.
pub fn enter_marks<'d>(list: &mut [Mark<'d>], data: &'d [u8], notes: Notes<'_>) -> usize
    ensures count { result ≡ length (items_of (whole «data».entry.now)) }
    ensures within { result ≤ length «data».entry.now }
    ensures marks { EntersCapped notes.entry.0.now (whole «data».entry.now) list.old list.new }
    ensures all { result ≤ length list.old →
        AreAllCapped notes.entry.0.now (whole «data».entry.now) (take result list.new) }
    ensures marks_held { length «data».entry.now < 2 ^ 32 →
        Enters notes.entry.0.now (whole «data».entry.now) list.old list.new }
    ensures all_held { length «data».entry.now < 2 ^ 32 → result ≤ length list.old →
        AreAll notes.entry.0.now (whole «data».entry.now) (take result list.new) }
{
    let mut rest = data;
    let mut characters = 0;
    let mut next = 0;
    let mut count = 0;
    while let Some((first, behind)) = rest.split_first() {
        let size = token_size(*first, behind);
        let (text, left) = rest.split_at(size);
        let place = Place(capped(characters + 1));
        let start = Offset(capped(data.len() - rest.len()));
        let mark = Mark::of_text(count, place, start, text, notes, next);
        if count < list.len() {
            list[count] = mark;
        }
        count += 1;
        characters += 1 + count_characters(&behind[..size - 1]);
        next = notes.end_at(next, place);
        rest = left;
    }
    count
}

/// The first mark that is sought.
fn first<'d, S: Fn(&Mark<'d>) -> bool>(marks: &[Mark<'d>], sought: S) -> Option<Mark<'d>>
    requires { S.IsAlwaysCallable sought }
    ensures { (p : _) → Answers S.Fn sought p → result ≡ first_of p marks.now }
{
    // A loop: tried as `find`, which asks of the caller that every closure of the type may be called.
    for mark in marks {
        if sought(mark) {
            return Some(*mark);
        }
    }
    None
}

/// The marks of the data, in order.
#[derive(Drop)]
pub struct Marks<'d> {
    list: Vec<Mark<'d>>,
}

impl<'d> Marks<'d> {
    /// The tokens of the data, each with the last of the records that has its place; both stand in
    /// order.
    pub fn new(alloc: Global, data: Part<'d>, notes: Notes<'_>) -> Result<Marks<'d>, AllocError>
        ensures tokens { IfOk result (λ marks.
            items_in marks.list.items ≡ items_of (part_of «data».entry)) }
        ensures bytes { IfOk result (λ marks. bytes_in marks.list.items ≡ «data».entry.bytes.now) }
        ensures records { IfOk result (λ marks. AreMarks notes.entry.0.now 0 0 marks.list.items) }
    {
        let mut list = Vec::new(alloc);
        let mut rest = data.bytes;
        let mut next = 0;
        for span in Tokens::new(data) {
            let (text, behind) = rest.split_at(1 + span.value.len());
            list.push(Mark::new(list.len(), Cut { span, text }, notes, next))?;
            next = notes.end_at(next, span.place);
            rest = behind;
        }
        Ok(Marks { list })
    }

    /// All marks, in order.
    pub fn as_slice(&self) -> &[Mark<'d>]
        ensures { result.now ≡ self.now.list.items }
    {
        self.list.as_slice()
    }

    /// The first mark that has this place or a later one.
    pub fn at(&self, place: Place) -> Option<Mark<'d>>
        ensures { result ≡ first_of (stands_at place.0) self.now.list.items }
    {
        first(self.list.as_slice(), |mark| place.0 <= mark.place.0)
    }

    /// The latest mark before a number that is sought, since the last one that stops the search. A
    /// mark may be both: it is found.
    pub fn latest_since<S: Fn(&Mark<'d>) -> bool, T: Fn(&Mark<'d>) -> bool>(
        &self,
        end: usize,
        sought: S,
        stop: T,
    ) -> Option<Mark<'d>>
        requires sought { S.IsAlwaysCallable sought }
        requires stop { T.IsAlwaysCallable stop }
        ensures { (p q : _) → Answers S.Fn sought p → Answers T.Fn stop q →
            result ≡ latest_of p q (take end self.now.list.items) }
    {
        for mark in self.list[..end.min(self.list.len())].iter().rev() {
            let here = sought(mark);
            if here {
                return Some(*mark);
            }
            if stop(mark) {
                return None;
            }
        }
        None
    }

    /// The latest mark before a number that is sought.
    pub fn latest<S: Fn(&Mark<'d>) -> bool>(&self, end: usize, sought: S) -> Option<Mark<'d>>
        requires sought { S.IsAlwaysCallable sought }
        ensures { (p : _) → Answers S.Fn sought p →
            result ≡ latest_of p (λ _. false) (take end self.now.list.items) }
    {
        self.latest_since(end, sought, |_| false)
    }

    /// How many marks before a number are sought, since the last one that stops the search.
    pub fn count_since<S: Fn(&Mark<'d>) -> bool, T: Fn(&Mark<'d>) -> bool>(
        &self,
        end: usize,
        sought: S,
        stop: T,
    ) -> usize
        requires sought { S.IsAlwaysCallable sought }
        requires stop { T.IsAlwaysCallable stop }
        ensures { (p q : _) → Answers S.Fn sought p → Answers T.Fn stop q →
            result ≡ count_of p q (take end self.now.list.items) }
    {
        let mut count = 0;
        // A loop: tried as `take_while`, `filter` and `count`, where a closure that calls `stop`
        // has to have a clause of its own.
        for mark in self.list[..end.min(self.list.len())].iter().rev() {
            if stop(mark) {
                break;
            }
            if sought(mark) {
                count += 1;
            }
        }
        count
    }

    /// The first mark behind a number that is sought.
    pub fn first_after<S: Fn(&Mark<'d>) -> bool>(
        &self,
        number: usize,
        sought: S,
    ) -> Option<Mark<'d>>
        requires sought { S.IsAlwaysCallable sought }
        ensures { (p : _) → Answers S.Fn sought p →
            result ≡ first_of p (drop (number + 1) self.now.list.items) }
    {
        let behind = number.saturating_add(1).min(self.list.len());
        first(&self.list[behind..], sought)
    }
}
