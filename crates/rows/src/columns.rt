// Columns of a row; a column is a character.
use std::fmt;
use std::fmt::Write;

/// Counts the characters that are written to it.
#[derive(Drop)]
struct Width(usize);

impl fmt::Write for Width {
    fn write_str(&mut self, text: &str) -> fmt::Result {
        self.0 = self.0.saturating_add(text.chars().count());
        Ok(())
    }
}

/// A value in so many columns at least, to the left.
#[derive(Clone, Copy)]
pub struct Columns<T>(pub T, pub usize);

impl<T: fmt::Display> fmt::Display for Columns<T> {
    fn fmt<W: fmt::Write>(&self, f: &mut fmt::Formatter<W>) -> fmt::Result {
        let value = &self.0;
        let mut width = Width(0);
        write!(width, "{value}")?;
        let blank = "";
        let columns = self.1.saturating_sub(width.0);
        write!(f, "{value}{blank:columns$}")
    }
}
