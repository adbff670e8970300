// Marks in words that the records have no part in: clefs, keys, meters, octaves, patterns, counts
// and barlines.
use rows::terms::{Counted, Sign, Term};
use std::fmt;
use tokens::attributes::{ClefValue, Key, Meter};
use tokens::rhythm::{Barline, Edge, Octave, Step};

/// A clef, if its name is known, and whether it is mensural.
#[derive(Clone, Copy)]
pub struct ClefSign(pub ClefValue);

impl fmt::Display for ClefSign {
    fn fmt<W: fmt::Write>(&self, f: &mut fmt::Formatter<W>) -> fmt::Result {
        match self.0.clef {
            Some(clef) => {
                let clef = Term(clef);
                write!(f, "clef {clef}")?;
            }
            None => f.write_str("clef of no known name")?,
        }
        f.write_str(if self.0.mensural { ", mensural" } else { "" })
    }
}

/// The steps in the order of the sharps.
// Steps: `Key::SHARPS` has letters, and only tokens makes a step of a letter.
const SHARPS: [Step; 7] = [
    Step::F,
    Step::C,
    Step::G,
    Step::D,
    Step::A,
    Step::E,
    Step::B,
];

/// A key: the steps that it alters, in the order of the sharps.
#[derive(Clone, Copy)]
pub struct KeySign(pub Key);

impl fmt::Display for KeySign {
    fn fmt<W: fmt::Write>(&self, f: &mut fmt::Formatter<W>) -> fmt::Result {
        f.write_str("key")?;
        for step in SHARPS {
            let alter = self.0.alters[step as usize];
            if alter != 0 {
                let step = Term(step);
                let sign = Sign(alter);
                write!(f, " {step}{sign}")?;
            }
        }
        if self.0.fifths == 0 && self.0.standard {
            f.write_str(" without signs")?;
        }
        Ok(())
    }
}

/// A meter, if its form is known.
#[derive(Clone, Copy)]
pub struct MeterSign(pub Option<Meter>);

impl fmt::Display for MeterSign {
    fn fmt<W: fmt::Write>(&self, f: &mut fmt::Formatter<W>) -> fmt::Result {
        match self.0 {
            Some(meter) => {
                let meter = Term(meter);
                write!(f, "meter {meter}")
            }
            None => f.write_str("meter of no known form"),
        }
    }
}

/// An octave, if it is in range.
#[derive(Clone, Copy)]
pub struct OctaveSign(pub Option<Octave>);

impl fmt::Display for OctaveSign {
    fn fmt<W: fmt::Write>(&self, f: &mut fmt::Formatter<W>) -> fmt::Result {
        match self.0 {
            Some(octave) => {
                let octave = octave.number;
                write!(f, "octave {octave}")
            }
            None => f.write_str("octave out of range: the old one stays"),
        }
    }
}

/// A pattern of more bytes is shown by so many.
const LONG: usize = 32;

/// The digits and dots of a pattern, a space before each digit.
#[derive(Clone, Copy)]
pub struct PatternSign<'d>(pub &'d [u8]);

impl<'d> fmt::Display for PatternSign<'d> {
    fn fmt<W: fmt::Write>(&self, f: &mut fmt::Formatter<W>) -> fmt::Result {
        f.write_str("pattern")?;
        for byte in self.0.iter().take(LONG) {
            if byte.is_ascii_digit() {
                f.write_char(' ')?;
            }
            f.write_char(char::from(*byte))?;
        }
        f.write_str(if LONG < self.0.len() { " .." } else { "" })
    }
}

/// A whole-bar rest of so many bars, if its count is known.
#[derive(Clone, Copy)]
pub struct WholeBarsSign(pub Option<u16>);

impl fmt::Display for WholeBarsSign {
    fn fmt<W: fmt::Write>(&self, f: &mut fmt::Formatter<W>) -> fmt::Result {
        match self.0 {
            Some(count) => {
                let bars = Counted(u32::from(count), "bar");
                write!(f, "whole-bar rest, {bars}")
            }
            None => {
                f.write_str("whole-bar rest, its count is not 1 to 1,000: nothing is stored")
            }
        }
    }
}

/// A barline, and what ends and starts there.
#[derive(Clone, Copy)]
pub struct BarlineSign(pub Barline);

impl fmt::Display for BarlineSign {
    fn fmt<W: fmt::Write>(&self, f: &mut fmt::Formatter<W>) -> fmt::Result {
        f.write_str("barline")?;
        f.write_str(match self.0.right {
            Edge::Double => ", double",
            Edge::RepeatEnd => ", a repeat ends",
            _ => "",
        })?;
        f.write_str(match self.0.left {
            Edge::RepeatStart => ", a repeat starts",
            _ => "",
        })
    }
}

/// The count of a group, if it is known.
#[derive(Clone, Copy)]
pub struct CountSign(pub Option<u8>);

impl fmt::Display for CountSign {
    fn fmt<W: fmt::Write>(&self, f: &mut fmt::Formatter<W>) -> fmt::Result {
        match self.0 {
            Some(count) => write!(f, "group count {count}"),
            None => f.write_str("group count of no known number"),
        }
    }
}
