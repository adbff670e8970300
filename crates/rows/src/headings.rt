// Headings of the output.
use std::io;
use std::io::Write;

/// A heading between empty rows.
pub fn show_heading<W: Write>(out: &mut W, words: &str) -> io::Result<()> {
    writeln!(out, "\n{words}\n")
}
