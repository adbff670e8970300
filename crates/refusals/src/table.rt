// The lines of the table: a name, what is lent, a text, and what the specification says of it.
use pae::answers::Reading;
use std::alloc::Global;
use std::io;

/// A text has at most so many bytes: more than are read.
const TEXT: usize = 65600;

/// How many words of notes, bars and figure are lent, and how many diagnostic cells.
#[derive(Clone, Copy)]
pub(crate) struct Lent {
    pub(crate) notes: usize,
    pub(crate) bars: usize,
    pub(crate) figure: usize,
    pub(crate) cells: usize,
}

/// A case, by its line: up to what the specification gives, and from the `|` before each of the last
/// three parts on, which is empty where there is none.
#[derive(Clone, Copy)]
pub(crate) struct Case<'l> {
    pub(crate) shown: &'l [u8],
    lent: &'l [u8],
    text: &'l [u8],
    expected: &'l [u8],
}

/// What a text has next: a byte, so many times, and behind it the rest of the line.
#[derive(Clone, Copy)]
struct Piece<'l> {
    byte: u8,
    times: u32,
    rest: &'l [u8],
}

/// A part of a line from such a byte on; empty where it has none.
fn from_byte(part: &[u8], byte: u8) -> &[u8] {
    match part.iter().position(|other| *other == byte) {
        Some(at) => part.get(at..).unwrap_or(b""),
        None => b"",
    }
}

/// A part of a line behind its first bytes, so many.
fn behind(part: &[u8], bytes: usize) -> &[u8] {
    part.get(bytes..).unwrap_or(b"")
}

/// A number with one decimal digit more; one with more than eight digits stays.
fn with_digit(value: u32, digit: u8) -> u32 {
    if value > 99999999 {
        value
    } else {
        value * 10 + u32::from(digit.saturating_sub(b'0'))
    }
}

/// The number in a part of a line behind so many bytes that are no digits; 0 where it has none.
fn number_at(part: &[u8], which: usize) -> u32 {
    part.split(|byte| !byte.is_ascii_digit())
        .nth(which)
        .unwrap_or(b"")
        .iter()
        .fold(0, |value, digit| with_digit(value, *digit))
}

impl<'l> Piece<'l> {
    /// What a line begins with: itself, or what a mark stands for, `<128>` for the byte 128, `<9 C>`
    /// for nine times `C`.
    fn new(line: &'l [u8]) -> Piece<'l> {
        match line {
            [b'<', ..] => {
                let end = from_byte(line, b'>');
                let blank = from_byte(line, b' ');
                let number = number_at(line, 1);
                let rest = behind(end, 1);
                if end.len() < blank.len() {
                    Piece {
                        byte: blank.get(1).copied().unwrap_or(0),
                        times: number,
                        rest,
                    }
                } else {
                    Piece {
                        byte: u8::try_from(number).unwrap_or(0),
                        times: 1,
                        rest,
                    }
                }
            }
            [byte, rest @ ..] => Piece {
                byte: *byte,
                times: 1,
                rest,
            },
            [] => Piece {
                byte: 0,
                times: 1,
                rest: line,
            },
        }
    }
}

impl<'l> Case<'l> {
    /// The case of a line, whose parts have a `|` between them.
    pub(crate) fn new(line: &'l [u8]) -> Case<'l> {
        let lent = from_byte(line, b'|');
        let text = from_byte(behind(lent, 1), b'|');
        let expected = from_byte(behind(text, 1), b'|');
        let shown = line.len().saturating_sub(expected.len());
        Case {
            shown: line.get(..shown).unwrap_or(line),
            lent,
            text,
            expected,
        }
    }

    pub(crate) fn lent(self) -> Lent {
        Lent {
            notes: number_at(self.lent, 2) as usize,
            bars: number_at(self.lent, 3) as usize,
            figure: number_at(self.lent, 4) as usize,
            cells: number_at(self.lent, 5) as usize,
        }
    }

    /// What the specification gives.
    pub(crate) fn expected(self) -> Reading {
        Reading {
            number: number_at(self.expected, 2),
            place: number_at(self.expected, 3),
            notes: number_at(self.expected, 4),
            bars: number_at(self.expected, 5),
            diagnostics: number_at(self.expected, 6),
        }
    }

    /// Its text, without the byte before it and the one behind it; of one that is too long the first
    /// bytes.
    pub(crate) fn text(self, alloc: Global) -> io::Result<Vec<u8>> {
        let mut text = Vec::new(alloc);
        let end = self.expected.len().saturating_add(1);
        let mut rest = behind(self.text, 2);
        // Each turn takes a byte or more of the line.
        for _ in 0..self.text.len() {
            if rest.len() <= end {
                break;
            }
            let piece = Piece::new(rest);
            let room = TEXT.saturating_sub(text.len());
            // The byte is put so often.
            for _ in 0..room.min(piece.times as usize) {
                text.push(piece.byte)?;
            }
            rest = piece.rest;
        }
        Ok(text)
    }
}
