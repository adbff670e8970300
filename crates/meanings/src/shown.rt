// A text as it was read, and what came of it.
ghost use Rattle.std.specs.Prelude.{◌≡◌, ◌<◌, ◌^◌, ◌↔◌, None, length, IsTrue};
ghost use Rattle.rules.specs.Limits.{diagnostic_limit};

use marks::findings::Finding;
use marks::lookback::Marks;
use marks::records::Notes;
use scan::lines::Part;
use stores::diagnostic::{MAX_DIAGNOSTICS, Remark};
use tokens::cut::Place;
use view::refusal::Stop;

/// Lines, and what is remarked under them, stand behind so many columns.
pub(crate) const MARGIN: usize = 10;

/// A text and its data, where it has any; the marks of the data, the records of its notes, what was
/// found, and why it is refused.
#[derive(Clone, Copy)]
pub struct Shown<'a, 'd> {
    pub text: &'a [u8],
    pub data: Option<Part<'a>>,
    pub marks: &'a Marks<'d>,
    pub notes: Notes<'a>,
    pub findings: &'a [Finding],
    pub refusal: Option<Stop>,
    ghost fits: { length text.now < 2 ^ 31 },
}

impl<'a, 'd> Shown<'a, 'd> {
    /// Whether the records and the findings tell what became of each mark: the text is accepted,
    /// and no finding was dropped.
    pub(crate) fn tells_all(&self) -> bool
        ensures { IsTrue result ↔
            ((self.now.refusal ≡ None) × (length self.now.findings.now < diagnostic_limit)) }
    {
        self.refusal.is_none() && self.findings.len() < MAX_DIAGNOSTICS
    }

    /// The last remark at a place of the data.
    pub(crate) fn remark_at(&self, place: Place) -> Option<Remark> {
        let finding = self
            .findings
            .iter()
            .rev()
            .find(|finding| finding.place() == Some(place))?;
        Some(finding.remark)
    }
}
