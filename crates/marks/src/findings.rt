// Diagnostics by their fields.
ghost use Rattle.std.specs.Prelude.{◌≡◌, IfOk};
ghost use Rattle.marks.specs.Records.{TheOne};
ghost use Rattle.marks.specs.Findings.{IsRemark, IsAt, IsValue, IsFinding, AreFindings, place_of, line_of};

use scan::lines::{Line, Offset};
use std::alloc::{AllocError, Global};
use stores::diagnostic::{At, Diagnostic, Remark, Value};
use tokens::cut::Place;

/// What is remarked, where, and what it names.
#[derive(Clone, Copy, Debug, PartialEq, Eq)]
pub struct Finding {
    pub remark: Remark,
    pub at: At,
    pub value: Value,
}

/// The remark of a number.
// A function: a `TryFrom` of `Remark` would stand in stores, which reads no diagnostics back.
fn remark_of(number: i32) -> Option<Remark>
    ensures { TheOne (IsRemark number) result }
{
    let remark = match number {
        1 => Remark::NoField,
        2 => Remark::UnknownKey,
        3 => Remark::AfterNotes,
        4 => Remark::Mensural,
        5 => Remark::UnknownClef,
        6 => Remark::UnusualKey,
        7 => Remark::NoMeter,
        8 => Remark::OctaveRange,
        9 => Remark::LoneColon,
        10 => Remark::GroupInLaterBar,
        11 => Remark::TooFew,
        12 => Remark::GroupCount,
        13 => Remark::NoGroup,
        14 => Remark::TrillAlone,
        15 => Remark::NoRule,
        16 => Remark::TieAlone,
        17 => Remark::FigureInLaterBar,
        18 => Remark::NoFigure,
        19 => Remark::NoBarToRepeat,
        20 => Remark::WholeBarCount,
        _ => return None,
    };
    Some(remark)
}

/// Where, by its kind and number.
fn at_of(kind: i32, place: i32) -> Option<At>
    ensures { TheOne (IsAt kind place) result }
{
    let place = u32::try_from(place).ok()?;
    match kind {
        1 => Some(At::Line(Line(place))),
        2 => Some(At::Field(Line(place))),
        3 => Some(At::Data(Place(place))),
        _ => None,
    }
}

/// A value, by its kind, start and end.
fn value_of(kind: i32, start: i32, end: i32) -> Option<Value>
    ensures { TheOne (IsValue kind start end) result }
{
    let start = u32::try_from(start).ok()?;
    let end = u32::try_from(end).ok()?;
    match (kind, start, end) {
        (1, start, end) => Some(Value::Part(Offset(start), Offset(end))),
        (2, 0, 0) => Some(Value::Parentheses),
        (3, number, 0) => Some(Value::Number(number)),
        _ => None,
    }
}

/// What the diagnostics of a reading say, in order.
pub fn read_all(alloc: Global, diagnostics: &[Diagnostic]) -> Result<Vec<Finding>, AllocError>
    ensures { IfOk result (λ findings. AreFindings diagnostics.now findings.items) }
{
    let mut findings = Vec::new(alloc);
    for diagnostic in diagnostics {
        if let Some(finding) = Finding::read(*diagnostic) {
            findings.push(finding)?;
        }
    }
    Ok(findings)
}

impl Finding {
    /// What a diagnostic says; none of one that is blank.
    pub fn read(diagnostic: Diagnostic) -> Option<Finding>
        ensures { TheOne (IsFinding diagnostic) result }
    {
        Some(Finding {
            remark: remark_of(diagnostic.number)?,
            at: at_of(diagnostic.place_kind, diagnostic.place)?,
            value: value_of(diagnostic.value_kind, diagnostic.start, diagnostic.end)?,
        })
    }

    /// The place in the data where it stands; none of one that stands in a line.
    pub fn place(self) -> Option<Place>
        ensures { result ≡ place_of self.at }
    {
        match self.at {
            At::Data(place) => Some(place),
            _ => None,
        }
    }

    /// The line where it stands; none of one that stands in the data.
    pub fn line(self) -> Option<Line>
        ensures { result ≡ line_of self.at }
    {
        match self.at {
            At::Line(line) | At::Field(line) => Some(line),
            At::Data(_) => None,
        }
    }
}
