// What is lent, before and after a call.
use stores::cells::{BAR, NOTE};
use stores::diagnostic::Diagnostic;
use stores::note::PLACE;

/// What every cell holds before a call.
pub(crate) const RUBBISH: i32 = -77;

/// The word of a bar that counts its notes.
const NOTE_COUNT: usize = 1;

/// No rubbish is in the counted words; behind them what is lent is 0, and behind that the rubbish still stands.
// Whole lists with what is lent of them: what stands behind that is looked at too.
fn are_right(words: &[i32], counted: usize, lent: usize) -> bool {
    let (lent, behind) = words.split_at(lent.min(words.len()));
    let (counted, blank) = lent.split_at(counted.min(lent.len()));
    counted.iter().all(|word| *word != RUBBISH)
        && blank.iter().all(|word| *word == 0)
        && behind.iter().all(|word| *word == RUBBISH)
}

/// So many notes are counted, each with a place; all else that is lent is 0.
pub(crate) fn are_notes_right(words: &[i32], count: u32, lent: usize) -> bool {
    let (notes, _) = words.as_chunks::<NOTE>();
    match notes.get(..count as usize) {
        Some(counted) => {
            counted.iter().all(|note| 0 < note[PLACE])
                && are_right(words, count as usize * NOTE, lent)
        }
        None => false,
    }
}

/// So many bars are counted, each with a note; all else that is lent is 0.
pub(crate) fn are_bars_right(words: &[i32], count: u32, lent: usize) -> bool {
    let (bars, _) = words.as_chunks::<BAR>();
    match bars.get(..count as usize) {
        Some(counted) => {
            counted.iter().all(|bar| 0 < bar[NOTE_COUNT])
                && are_right(words, count as usize * BAR, lent)
        }
        None => false,
    }
}

/// All that is lent of a figure is 0.
pub(crate) fn is_figure_right(words: &[i32], lent: usize) -> bool {
    are_right(words, 0, lent)
}

// ---- diagnostics

/// A diagnostic all of whose words are this one.
pub(crate) fn filled(word: i32) -> Diagnostic {
    Diagnostic {
        number: word,
        place_kind: word,
        place: word,
        value_kind: word,
        start: word,
        end: word,
    }
}

/// d1 to d20, with the kinds of its place and value, and a place; the kind of its value decides on the last two.
fn is_diagnostic(d: &Diagnostic) -> bool {
    matches!(d.number, 1..=20)
        && 0 < d.place_kind
        && 0 < d.place
        && 0 < d.value_kind
        && 0 <= d.start
        && 0 <= d.end
}

/// The counted cells hold a diagnostic each, the further ones that are lent are 0, and behind these
/// the rubbish still stands.
pub(crate) fn are_diagnostics_right(list: &[Diagnostic], count: u32, lent: usize) -> bool {
    let (lent, behind) = list.split_at(lent.min(list.len()));
    let (counted, blank) = lent.split_at((count as usize).min(lent.len()));
    counted.iter().all(|d| is_diagnostic(d))
        && blank.iter().all(|d| *d == filled(0))
        && behind.iter().all(|d| *d == filled(RUBBISH))
}
