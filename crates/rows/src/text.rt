// Parts of a text as they are shown.
use crate::characters::{Characters, beginning};
use scan::characters::count_characters;
use std::fmt;

/// A longer part of a text is shown by so many characters.
const SHOWN: usize = 32;

/// The character of one character's bytes; none where they are not well-formed.
fn char_of(character: &[u8]) -> Option<char> {
    match std::str::from_utf8(character) {
        Ok(text) => text.chars().next(),
        Err(_) => None,
    }
}

/// What stands for a character that is not shown as it is: a space for a blank, `?` for a control
/// character or a byte that is part of none.
fn stand_in(character: &[u8]) -> Option<char> {
    match char_of(character) {
        Some(c) if c.is_whitespace() => Some(' '),
        Some(c) if !c.is_control() => None,
        _ => Some('?'),
    }
}

/// The characters that a text begins with and that are shown as they are.
fn plain(text: &[u8]) -> &[u8] {
    let mut rest = text;
    for character in Characters::new(text) {
        if stand_in(character).is_some() {
            break;
        }
        rest = rest.get(character.len()..).unwrap_or(b"");
    }
    text.get(..text.len().saturating_sub(rest.len()))
        .unwrap_or(text)
}

/// A text, shown character by character: a space for a blank, `?` for a control character or a byte
/// that is part of none. Characters that are shown as they are go out together.
#[derive(Clone, Copy)]
pub struct Text<'t>(pub &'t [u8]);

impl<'t> fmt::Display for Text<'t> {
    fn fmt<W: fmt::Write>(&self, f: &mut fmt::Formatter<W>) -> fmt::Result {
        let mut rest = self.0;
        // Each turn takes a character or more.
        for _ in self.0 {
            let shown = plain(rest);
            if let Ok(text) = std::str::from_utf8(shown) {
                f.write_str(text)?;
            }
            rest = rest.get(shown.len()..).unwrap_or(b"");
            let Some(character) = Characters::new(rest).next() else {
                break;
            };
            if let Some(c) = stand_in(character) {
                f.write_char(c)?;
            }
            rest = rest.get(character.len()..).unwrap_or(b"");
        }
        Ok(())
    }
}

/// A part of a text, by its first 32 characters and `...` where it is longer. A width counts its
/// characters.
#[derive(Clone, Copy)]
pub struct Excerpt<'t>(pub &'t [u8]);

impl<'t> fmt::Display for Excerpt<'t> {
    fn fmt<W: fmt::Write>(&self, f: &mut fmt::Formatter<W>) -> fmt::Result {
        let width = f.width().unwrap_or(0);
        let shown = beginning(self.0, SHOWN);
        let text = Text(shown);
        write!(f, "{text}")?;
        if shown.len() < self.0.len() {
            f.write_str("...")?;
        }
        let blank = "";
        let columns = width.saturating_sub(count_characters(self.0));
        write!(f, "{blank:columns$}")
    }
}
