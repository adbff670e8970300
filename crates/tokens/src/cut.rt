// Tokens are cut from the left, each with its place and its offset.
ghost use Rattle.std.specs.Prelude.{◌≡◌, ◌+◌, ◌^◌, ◌<◌, ◌≤◌, ◌∷◌, [], length, IsTrue};
ghost use Rattle.rules.specs.Cut.{token_size};
ghost use Rattle.tokens.specs.Whole.{is_whole, first_of};

use scan::characters::{count_characters, non_blanks_size};
use scan::classes::{Class, starts_with};
use scan::lines::{Offset, Part};

/// A place in the data, from 1.
// It says no bound: a tuple struct has no ghost field, and each maker would be asked for one.
#[derive(Clone, Copy, Debug, PartialEq, Eq)]
pub struct Place(pub u32);

/// The size of the first of two texts that `rest` begins with, else 0.
#[tactic(auto, using(crate::proofs::CutLaws::begins_within))]
fn longest(rest: &[u8], long: &[u8], short: &[u8]) -> usize
    ensures size { result ≡ first_of (long.now ∷ short.now ∷ []) rest.now }
    ensures within { result ≤ length rest.now }
{
    if starts_with(rest, long) {
        long.len()
    } else if starts_with(rest, short) {
        short.len()
    } else {
        0
    }
}

/// The size of the token that begins with a byte, and goes on with some of those behind it.
#[tactic(auto, unfolding(rules::specs::Cut::token_size, rules::specs::Characters::character_size))]
pub fn token_size(first: u8, rest: &[u8]) -> usize
    ensures size { result ≡ token_size (first ∷ rest.now) }
    ensures some { 0 < result }
    ensures within { result ≤ 1 + length rest.now }
{
    match first {
        b'\'' | b',' | b'x' | b'b' => 1 + Class::Is(first).run(rest),
        b'0'..=b'9' => 1 + Class::Durations.run(rest),
        b';' | b'=' => 1 + Class::Digits.run(rest),
        b'%' => 1 + non_blanks_size(rest, 3),
        b'$' => 1 + Class::KeyBytes.run(rest),
        b'@' => 1 + Class::MeterBytes.run(rest),
        b':' => 1 + longest(rest, b"//:", b"//"),
        b'/' => 1 + longest(rest, b"/:", b"/"),
        b'q' => 1 + longest(rest, b"q", b"q"),
        0..=127 => 1,
        _ => 1 + Class::Continuations.run(rest),
    }
}

/// A token's place, its offset in the text, its first byte, and those behind it.
#[derive(Clone, Copy)]
pub struct Span<'d> {
    pub place: Place,
    pub offset: Offset,
    pub first: u8,
    pub value: &'d [u8],
    // digits and dots follow a digit
    ghost whole: { IsTrue (is_whole first value.now) },
    ghost placed: { place.0 < 2 ^ 31 },
    ghost fits: { offset.0 + 1 + length value.now < 2 ^ 31 },
}

/// The tokens of the data, in order.
#[derive(Clone, Copy)]
pub struct Tokens<'d> {
    place: Place,
    rest: Part<'d>,
    ghost counted: { place.0 ≤ rest.start.0 + 1 },
}

impl<'d> Tokens<'d> {
    ghost use Rattle.tokens.specs.Spans.{items_left};
    ghost use Rattle.rules.specs.Tokens.{items_of};
    ghost use Rattle.scan.specs.Parts.{part_of};

    /// All tokens.
    pub fn new(data: Part<'d>) -> Tokens<'d>
        ensures items { items_left result [] ≡ items_of (part_of «data».entry) }
        ensures bytes { result.rest.bytes.now ≡ «data».entry.bytes.now }
    {
        Tokens {
            place: Place(1),
            rest: data,
        }
    }
}

impl<'d> Iterator for Tokens<'d> {
    ghost use Rattle.tokens.specs.Spans.{GivesSpan, tokens_at_most};

    type Item = Span<'d>;

    ghost next_gives = { GivesSpan };

    ghost remaining = { tokens_at_most };

    #[inline(always)]
    fn next(&mut self) -> Option<Span<'d>> {
        let Some((first, rest)) = self.rest.bytes.split_first() else {
            return None;
        };
        let size = token_size(*first, rest);
        let span = Span {
            place: self.place,
            offset: self.rest.start,
            first: *first,
            value: &rest[..size - 1],
        };
        self.rest = self.rest.without(size);
        self.place = Place(self.place.0 + 1 + count_characters(span.value) as u32);
        Some(span)
    }
}
