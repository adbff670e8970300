// Where a length comes from, what makes a letter a grace, and what it joins.
ghost use Rattle.std.specs.Prelude.{◌<◌};

use crate::before::Before;
use marks::lookback::Mark;
use rows::terms::Term;
use std::io;
use std::io::Write;
use tokens::rhythm::{Length, Pattern};

// So many earlier elements are named.
const NAMED: usize = 8;

// ---- patterns

/// How many lengths the text of a pattern has: its digits.
fn count_lengths(text: &[u8]) -> usize
    ensures { 0 < result }
{
    text.iter()
        .filter(|byte| byte.is_ascii_digit())
        .count()
        .max(1)
}

/// Element `index` of a pattern, from 0.
fn length_at(pattern: Pattern<'_>, index: usize) -> Length {
    let mut rest = pattern;
    // So many turns: a pattern gives its lengths one after the other.
    for _ in 0..index {
        match rest.tail() {
            Some(tail) => rest = tail,
            None => break,
        }
    }
    rest.length()
}

/// Who took the elements before `index`: the last one first.
fn show_takers<W: Write>(out: &mut W, before: Before<'_, '_>, index: usize) -> io::Result<()> {
    let mut end = before.end;
    // The number is shown.
    for element in (1..=index).rev().take(NAMED) {
        let Some(taker) = Before::new(before.marks, end).taker() else {
            return Ok(());
        };
        if element == index {
            write!(out, "; element {element} was taken by {taker}")?;
        } else {
            write!(out, ", {element} by {taker}")?;
        }
        end = taker.number;
    }
    if NAMED < index {
        out.write_all(b" ..")?;
    }
    Ok(())
}

/// The length that the pattern gives, its element, and who took the earlier ones.
pub(crate) fn show_pattern_length<W: Write>(out: &mut W, before: Before<'_, '_>) -> io::Result<()> {
    if let Some(mark) = before.pattern_mark()
        && let Some(pattern) = mark.pattern()
    {
        let size = count_lengths(mark.text);
        let taken = before.taken();
        let index = taken % size;
        let length = Term(length_at(pattern, index));
        let element = index + 1;
        let again = if index == 0 && 0 < taken && 1 < size {
            ", which starts again"
        } else {
            ""
        };
        write!(
            out,
            "    length      {length}, element {element} of the pattern {mark}{again}"
        )?;
        show_takers(out, before, index)?;
        writeln!(out)
    } else {
        let length = Term(Pattern::new().length());
        writeln!(out, "    length      {length}, as at the start")
    }
}

// ---- graces and chords

/// What makes a letter a grace that is not slashed: a `q`, or a group.
fn show_grace<W: Write>(out: &mut W, before: Before<'_, '_>) -> io::Result<()> {
    if let Some(grace) = before.grace() {
        return writeln!(out, "    grace       by {grace}; the pattern does not step");
    }
    if let Some(group) = before.grace_group() {
        return writeln!(
            out,
            "    grace       in the group of {group}; the pattern does not step"
        );
    }
    Ok(())
}

/// The length of a letter that opened a note, and what makes it a grace.
fn show_opened<W: Write>(out: &mut W, before: Before<'_, '_>) -> io::Result<()> {
    if let Some(grace) = before.slashed_grace() {
        return writeln!(
            out,
            "    length      eighth, since {grace} makes it a slashed grace; the pattern does not step"
        );
    }
    show_pattern_length(out, before)?;
    show_grace(out, before)
}

/// The length of a letter: of its own, or that of the note that it joins by a `^`.
pub(crate) fn show_length<W: Write>(
    out: &mut W,
    before: Before<'_, '_>,
    letter: Mark<'_>,
) -> io::Result<()> {
    let chord = before.chord();
    if letter.stores() {
        show_opened(out, before)?;
        if let Some(chord) = chord {
            writeln!(out, "    chord       {chord} finds no note to join")?;
        }
    } else if let Some(note) = before.last_stored()
        && let Some(chord) = chord
    {
        let place = Term(note.place);
        writeln!(
            out,
            "    length      that of the note at {place}, whose chord it joins by {chord}; the pattern does not step"
        )?;
    }
    Ok(())
}
