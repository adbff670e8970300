// Pieces of a text that fit a row.
ghost use Rattle.std.specs.Prelude.{◌≡◌, ◌+◌, ◌<◌, ◌≤◌, ◌^◌, length};

use rows::characters::{Characters, beginning};

/// So many characters stand in a row.
const WIDTH: usize = 70;

/// The size of the piece that `rest` begins with.
fn piece_size(rest: &[u8]) -> usize
    requires { 0 < length rest.now }
    ensures some { 0 < result }
    ensures within { result ≤ length rest.now }
{
    beginning(rest, WIDTH).len().max(1)
}

/// How many characters a piece has, at most as many as bytes.
fn count_shown(piece: &[u8]) -> usize
    ensures { result ≤ length piece.now }
{
    Characters::new(piece).count()
}

/// A piece of a text: how many of the text's characters stand before it and up to its end, and its
/// bytes.
#[derive(Clone, Copy)]
pub(crate) struct Piece<'t> {
    pub before: usize,
    pub end: usize,
    pub bytes: &'t [u8],
}

/// The pieces of a text, in order.
#[derive(Clone, Copy)]
pub(crate) struct Pieces<'t> {
    before: usize,
    rest: &'t [u8],
    ghost fits: { before + length rest.now < 2 ^ 64 },
}

impl<'t> Pieces<'t> {
    pub(crate) fn new(text: &'t [u8]) -> Pieces<'t>
        ensures before { result.before ≡ 0 }
        ensures rest { result.rest.now ≡ text.entry.now }
    {
        Pieces {
            before: 0,
            rest: text,
        }
    }
}

impl<'t> Iterator for Pieces<'t> {
    ghost use Rattle.meanings.specs.Pieces.{GivesPiece, pieces_at_most};

    type Item = Piece<'t>;

    ghost next_gives = { GivesPiece };

    ghost remaining = { pieces_at_most };

    fn next(&mut self) -> Option<Piece<'t>> {
        if self.rest.is_empty() {
            return None;
        }
        let (bytes, rest) = self.rest.split_at(piece_size(self.rest));
        let piece = Piece {
            before: self.before,
            end: self.before + count_shown(bytes),
            bytes,
        };
        self.before = piece.end;
        self.rest = rest;
        Some(piece)
    }
}
