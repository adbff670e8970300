// Rows of records, where one may stand for several that are alike.
ghost use Rattle.std.specs.Prelude.{◌≤◌};

use std::io;
use std::io::Write;

/// Records that are shown in rows, by their numbers from 0.
pub(crate) trait Table {
    fn len(&self) -> usize;

    /// The row of a record. Records are shown in the order of their numbers.
    fn show<W: Write>(&mut self, out: &mut W, number: usize) -> io::Result<()>;

    /// Whether two records are alike, so that a row may stand for both.
    fn are_alike(&self, number: usize, other: usize) -> bool;
}

/// The end of the records from one number on that are like another record.
fn end_of_alike<T: Table>(table: &T, number: usize, from: usize, count: usize) -> usize
    requires { from ≤ count }
    ensures begins { from ≤ result }
    ensures ends { result ≤ count }
{
    from + (from..count)
        .take_while(|other| table.are_alike(number, *other))
        .count()
}

/// A row for each record; two or more behind one that is like them share a row. Shown numbers count
/// from 1.
pub(crate) fn show_rows<T: Table, W: Write>(
    out: &mut W,
    table: &mut T,
    alike: &str,
) -> io::Result<()> {
    let count = table.len();
    let mut shown = 0;
    // By number: it is shown, and records are compared by theirs.
    for number in 0..count {
        if shown <= number {
            table.show(out, number)?;
            let next = number + 1;
            let end = end_of_alike(&*table, number, next, count);
            if 1 < end - next {
                let first = next + 1;
                writeln!(out, "{first:>6} to {end}: {alike}")?;
                shown = end;
            }
        }
    }
    Ok(())
}
