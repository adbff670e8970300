// Replays a list of texts with the original's answers, on standard input, and says which texts are read otherwise, and
// which readings don't come back from their cards. README.md has the list's format.
#![tactic(auto)]

ghost use Rattle.std.specs.Prelude.{◌<◌};

mod list; // list.rt: what is left of the list, texts and answers

use cards::read::{CardCounts, read_card};
use cards::width::TwoBytes;
use cards::write::write_card;
use list::{Differs, List};
use reader::read::{Counts, read};
use std::alloc::Global;
use std::io;
use std::io::{Read, Write};
use stores::cells::{BAR, NOTE};
use stores::diagnostic::{Diagnostic, MAX_DIAGNOSTICS};
use view::refusal::Stop;

/// The list has at most so many bytes.
const LIST: usize = 1048576;

/// Lent for every text, since a reading has no heap: 1,024 notes, 512 bars, 512 notes of a figure, 1,024 diagnostics.
const NOTES: usize = 1024 * NOTE;

const BARS: usize = 512 * BAR;

const FIGURE: usize = 512 * NOTE;

/// Lent for a card: more than those records take.
const CARD: usize = 65536;

/// How many texts there are, how many of them are read otherwise and are refused, how many readings
/// come back from their cards, and what the readings hold.
#[derive(Clone, Copy)]
struct Tally {
    texts: u64,
    differ: u64,
    refused: u64,
    cards: u64,
    notes: u64,
    bars: u64,
    diagnostics: u64,
}

// ---- a reading

/// The first records of words, so many.
fn first_records<const N: usize>(words: &[i32], count: u32) -> &[[i32; N]]
    requires { 0 < N }
{
    let (records, _) = words.as_chunks::<N>();
    records.get(..count as usize).unwrap_or(records)
}

/// Whether the list goes on with what came of a text.
fn compare(
    list: &[u8],
    text: &[u8],
    outcome: Result<Counts, Stop>,
    notes: &[i32],
    bars: &[i32],
    diagnostics: &[Diagnostic],
) -> Result<(), Differs> {
    let mut answer = List::new(list);
    match outcome {
        Ok(counts) => {
            answer.take_notes(first_records::<NOTE>(notes, counts.notes))?;
            answer.take_bars(first_records::<BAR>(bars, counts.bars))?;
            let stored = diagnostics
                .get(..counts.diagnostics as usize)
                .unwrap_or(diagnostics);
            answer.take_diagnostics(stored, text)?;
        }
        Err(stop) => answer.take_refusal(stop.refusal)?,
    }
    answer.take_line_end()
}

// ---- cards

/// Whether a card reads to these cells, of which the first hold so many records.
fn reads_to(card: &[u8], counts: Counts, notes: &[i32], bars: &[i32]) -> bool {
    let mut own_notes = [0i32; NOTES];
    let mut own_bars = [0i32; BARS];
    let own = CardCounts {
        notes: counts.notes,
        bars: counts.bars,
    };
    read_card::<TwoBytes>(card, &mut own_notes, &mut own_bars) == Ok(own)
        && notes[..] == own_notes[..]
        && bars[..] == own_bars[..]
}

/// Whether the records of a reading come back from their card.
fn comes_back(counts: Counts, notes: &[i32], bars: &[i32]) -> bool {
    let words = notes.get(..counts.notes as usize * NOTE);
    let bar_words = bars.get(..counts.bars as usize * BAR);
    if let Some(words) = words
        && let Some(bar_words) = bar_words
    {
        let mut card = [0u8; CARD];
        match write_card::<TwoBytes>(words, bar_words, &mut card) {
            Ok(length) => match card.get(..length as usize) {
                Some(card) => reads_to(card, counts, notes, bars),
                None => false,
            },
            Err(_) => false,
        }
    } else {
        false
    }
}

// ---- the list replayed

/// A list in two: its first text, behind which its answer begins, up to the end of the answer's
/// line, and what is behind that line.
fn split_entry<'l>(list: &'l [u8], answer: &'l [u8]) -> (&'l [u8], &'l [u8]) {
    let size = answer
        .iter()
        .position(|byte| *byte == b'\n')
        .unwrap_or(answer.len());
    let begun = list.len().saturating_sub(answer.len());
    (
        list.get(..begun.saturating_add(size)).unwrap_or(list),
        answer.get(size.saturating_add(1)..).unwrap_or(b""),
    )
}

impl Tally {
    fn new() -> Tally {
        Tally {
            texts: 0,
            differ: 0,
            refused: 0,
            cards: 0,
            notes: 0,
            bars: 0,
            diagnostics: 0,
        }
    }

    /// One more text that was read.
    fn count(&mut self, outcome: Result<Counts, Stop>, same: bool, card: bool) {
        self.texts = self.texts.saturating_add(1);
        self.differ = self.differ.saturating_add(u64::from(!same));
        self.cards = self.cards.saturating_add(u64::from(card));
        match outcome {
            Ok(counts) => {
                self.notes = self.notes.saturating_add(u64::from(counts.notes));
                self.bars = self.bars.saturating_add(u64::from(counts.bars));
                self.diagnostics = self
                    .diagnostics
                    .saturating_add(u64::from(counts.diagnostics));
            }
            Err(_) => self.refused = self.refused.saturating_add(1),
        }
    }
}

/// Replays the list: each text, and its answer up to the end of the line.
fn replay<W: Write>(
    out: &mut W,
    alloc: Global,
    list: &[u8],
    notes: &mut [i32],
    bars: &mut [i32],
    figure: &mut [i32],
    diagnostics: &mut [Diagnostic],
) -> io::Result<Tally> {
    let mut tally = Tally::new();
    let mut rest = list;
    // Each text takes a byte or more of the list.
    for _ in list {
        if rest.is_empty() {
            break;
        }
        let mut left = List::new(rest);
        let text = left.text(alloc)?;
        let text = text.as_slice();
        let outcome = read(text, notes, bars, figure, diagnostics);
        let same = compare(left.rest, text, outcome, notes, bars, diagnostics).is_ok();
        let (line, next) = split_entry(rest, left.rest);
        if !same {
            out.write_all(b"differs: ")?;
            out.write_all(line)?;
            out.write_all(b"\n")?;
        }
        let card = match outcome {
            Ok(counts) => comes_back(counts, notes, bars),
            Err(_) => false,
        };
        tally.count(outcome, same, card);
        rest = next;
    }
    Ok(tally)
}

/// The same, with what is lent.
fn replay_lent<W: Write>(out: &mut W, alloc: Global, list: &[u8]) -> io::Result<Tally> {
    let mut notes = [0i32; NOTES];
    let mut bars = [0i32; BARS];
    let mut figure = [0i32; FIGURE];
    let mut diagnostics = [Diagnostic::default(); MAX_DIAGNOSTICS];
    replay(
        out,
        alloc,
        list,
        &mut notes,
        &mut bars,
        &mut figure,
        &mut diagnostics,
    )
}

fn main(rt: HostRuntime) -> io::Result<()> {
    let alloc = rt.alloc();
    let mut list = Vec::new(alloc);
    rt.reader().take(LIST as u64).read_to_end(&mut list)?;
    let mut out = io::writer(&rt);
    let Tally {
        texts,
        differ,
        refused,
        cards,
        notes,
        bars,
        diagnostics,
    } = replay_lent(&mut out, alloc, list.as_slice())?;
    writeln!(out, "{texts} texts, {differ} differ")?;
    writeln!(out, "{refused} refused")?;
    writeln!(out, "{cards} come back from their cards")?;
    writeln!(out, "{notes} notes")?;
    writeln!(out, "{bars} bars")?;
    writeln!(out, "{diagnostics} diagnostics")
}
