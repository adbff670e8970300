// The texts of an input, and the keysig field of a text.
ghost use Rattle.std.specs.Prelude.{◌≡◌, ◌<◌, ◌≤◌, ◌^◌, length, take};

use scan::classes::is_text;
use scan::lines::{FieldKey, Line, Lines, TextLine};

/// A line or a text without the line end behind it: a carriage return and a line feed, or one of
/// them.
pub(crate) fn without_line_end(line: &[u8]) -> &[u8]
    ensures begins { result.now ≡ take (length result.now) line.entry.now }
    ensures within { length result.now ≤ length line.entry.now }
{
    let line = line.strip_suffix(b"\n").unwrap_or(line);
    line.strip_suffix(b"\r").unwrap_or(line)
}

/// Whether a line of the input stands between two texts.
pub(crate) fn is_separator(line: &[u8]) -> bool {
    is_text(without_line_end(line), b"---")
}

fn is_keysig(line: TextLine<'_>) -> bool {
    match line.field() {
        Some(field) => FieldKey::new(field.key) == FieldKey::Keysig,
        None => false,
    }
}

/// The last line that is a keysig field, if there is one.
pub(crate) fn keysig_line(text: &[u8]) -> Option<Line>
    requires { length text.now < 2 ^ 31 }
{
    let keysig = Lines::new(text).filter(|line| is_keysig(*line)).last()?;
    Some(keysig.number)
}
