// What is left of the list, taken byte by byte; behind its end every byte is 0.
use reader::state::State;
use std::alloc::{AllocError, Global};
use stores::cells::{BAR, FIRST_PITCH, NOTE, PITCH, natural};
use stores::diagnostic::Diagnostic;
use stores::note::PITCH_COUNT;
use view::refusal::Refusal;

/// The answer is another one.
#[derive(Clone, Copy)]
pub(crate) struct Differs;

/// What is left of the list.
#[derive(Clone, Copy)]
pub(crate) struct List<'l> {
    pub(crate) rest: &'l [u8],
}

/// The byte of three octal digits.
fn octal(first: u8, second: u8, third: u8) -> u8 {
    ((first & 7) << 6) | ((second & 7) << 3) | (third & 7)
}

/// A number with one decimal digit more; one with more than eight digits stays, and a byte below the
/// digits makes none.
fn with_digit(value: u32, digit: u8) -> u32 {
    if value > 99999999 {
        value
    } else {
        match digit.checked_sub(b'0') {
            Some(digit) => value * 10 + u32::from(digit),
            None => u32::MAX,
        }
    }
}

impl<'l> List<'l> {
    pub(crate) fn new(rest: &'l [u8]) -> List<'l> {
        List { rest }
    }

    fn byte(&mut self) -> u8 {
        match self.rest {
            [first, rest @ ..] => {
                self.rest = rest;
                *first
            }
            [] => 0,
        }
    }

    /// A byte of a text: itself, or a `\` and three octal digits.
    fn escaped(&mut self) -> u8 {
        match self.byte() {
            b'\\' => octal(self.byte(), self.byte(), self.byte()),
            byte => byte,
        }
    }

    /// A text without its escapes, which is no longer than is read, and the tab behind it.
    pub(crate) fn text(&mut self, alloc: Global) -> Result<Vec<u8>, AllocError> {
        let mut text = Vec::new(alloc);
        for _ in 0..State::MAX_INPUT_BYTES {
            if matches!(self.rest, [b'\t', ..]) {
                break;
            }
            text.push(self.escaped())?;
        }
        self.byte();
        Ok(text)
    }

    /// A digit, or more of them between `<` and `>`.
    fn number(&mut self) -> u32 {
        match self.byte() {
            b'<' => {
                let mut digits = self.rest.splitn(2, |byte| *byte == b'>');
                let number = digits.next().unwrap_or(b"");
                self.rest = digits.next().unwrap_or(b"");
                number
                    .iter()
                    .fold(0, |value, digit| with_digit(value, *digit))
            }
            digit => with_digit(0, digit),
        }
    }

    fn take_byte(&mut self, byte: u8) -> Result<(), Differs> {
        if self.byte() == byte {
            Ok(())
        } else {
            Err(Differs)
        }
    }

    fn take_number(&mut self, number: u32) -> Result<(), Differs> {
        if self.number() == number {
            Ok(())
        } else {
            Err(Differs)
        }
    }

    /// A word below 0 has a `-` before it.
    fn take_words(&mut self, words: &[i32]) -> Result<(), Differs> {
        for word in words {
            if *word < 0 {
                self.take_byte(b'-')?;
            }
            self.take_number(word.unsigned_abs())?;
        }
        Ok(())
    }

    /// A part of a text, by its bytes, and the tab behind it.
    fn take_part(&mut self, part: &[u8]) -> Result<(), Differs> {
        for byte in part {
            if self.escaped() != *byte {
                return Err(Differs);
            }
        }
        self.take_byte(b'\t')
    }

    /// Notes and their pitches, without their places.
    pub(crate) fn take_notes(&mut self, notes: &[[i32; NOTE]]) -> Result<(), Differs> {
        for note in notes {
            self.take_byte(b'N')?;
            self.take_words(&note[1..FIRST_PITCH])?;
            let (pitches, _) = note[FIRST_PITCH..].as_chunks::<PITCH>();
            for pitch in pitches.iter().take(natural(note[PITCH_COUNT]) as usize) {
                self.take_words(&pitch[1..])?;
            }
        }
        Ok(())
    }

    pub(crate) fn take_bars(&mut self, bars: &[[i32; BAR]]) -> Result<(), Differs> {
        for bar in bars {
            self.take_byte(b'B')?;
            self.take_words(bar)?;
        }
        Ok(())
    }

    /// Diagnostics of a text; a value that is a part of it (kind 1) stands there by its bytes, a tab
    /// behind them.
    pub(crate) fn take_diagnostics(
        &mut self,
        diagnostics: &[Diagnostic],
        text: &[u8],
    ) -> Result<(), Differs> {
        for diagnostic in diagnostics {
            let Diagnostic {
                number,
                place_kind,
                place,
                value_kind,
                start,
                end,
            } = *diagnostic;
            self.take_byte(b'D')?;
            self.take_words(&[number, place_kind, place, value_kind])?;
            // By its number: the list has the words that C reads.
            if value_kind == 1 {
                let range = natural(start) as usize..natural(end) as usize;
                self.take_part(text.get(range).ok_or(Differs)?)?;
            } else {
                self.take_words(&[start, end])?;
            }
        }
        Ok(())
    }

    /// A refusal, by its number.
    pub(crate) fn take_refusal(&mut self, refusal: Refusal) -> Result<(), Differs> {
        self.take_byte(b'R')?;
        self.take_number(refusal.into())
    }

    /// The line ends, and with it the answer.
    pub(crate) fn take_line_end(&mut self) -> Result<(), Differs> {
        self.take_byte(b'\n')
    }
}
