// Characters of a text as they are shown: a byte that is part of no well-formed character stands
// for one.
ghost use Rattle.std.specs.Prelude.{◌≡◌, ◌<◌, ◌≤◌, length, take};
ghost use Rattle.rows.specs.Shown.{formed_in, shown_size, beginning_size};

use scan::characters::is_utf8;

/// Whether the first `n` bytes are there and well-formed.
fn is_formed_in(rest: &[u8], n: usize) -> bool
    ensures { result ≡ formed_in n rest.now }
{
    n <= rest.len() && is_utf8(&rest[..n])
}

/// The size of the character that `rest` begins with.
fn shown_size(rest: &[u8]) -> usize
    requires { 0 < length rest.now }
    ensures size { result ≡ shown_size rest.now }
    ensures some { 0 < result }
    ensures within { result ≤ length rest.now }
{
    if is_formed_in(rest, 1) {
        1
    } else if is_formed_in(rest, 2) {
        2
    } else if is_formed_in(rest, 3) {
        3
    } else if is_formed_in(rest, 4) {
        4
    } else {
        1
    }
}

/// The characters of a text, in order.
#[derive(Clone, Copy)]
pub struct Characters<'t> {
    rest: &'t [u8],
}

impl<'t> Characters<'t> {
    /// The characters of this text.
    pub fn new(text: &'t [u8]) -> Characters<'t>
        ensures { result.rest.now ≡ text.entry.now }
    {
        Characters { rest: text }
    }
}

impl<'t> Iterator for Characters<'t> {
    ghost use Rattle.rows.specs.Shown.{GivesCharacter, characters_at_most};

    type Item = &'t [u8];

    ghost next_gives = { GivesCharacter };

    ghost remaining = { characters_at_most };

    fn next(&mut self) -> Option<&'t [u8]> {
        if self.rest.is_empty() {
            return None;
        }
        let (character, rest) = self.rest.split_at(shown_size(self.rest));
        self.rest = rest;
        Some(character)
    }
}

/// The first characters of a text, so many at most.
pub fn beginning(text: &[u8], most: usize) -> &[u8]
    ensures { result.now ≡ take (beginning_size most text.now) text.entry.now }
{
    let mut rest = text;
    // By what is left: of the items of `Characters` the sizes would have to be added up.
    for _ in 0..most {
        if rest.is_empty() {
            break;
        }
        rest = &rest[shown_size(rest)..];
    }
    &text[..text.len() - rest.len()]
}
