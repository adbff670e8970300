// The whole reading: the checks at the entry, the fields, the data's tokens, and its end.
ghost use Rattle.std.specs.Prelude.{◌≡◌, ◌≤◌, List, [], ℤ, length, Ok, Err, MatchResult, OnOk, IfOk};
ghost use Rattle.std.proofs.Math.Option.{none, some};
ghost use Rattle.rules.specs.Limits.{text_limit, diagnostic_limit};
ghost use Rattle.rules.specs.Characters.{characters_in};
ghost use Rattle.rules.specs.Agreement.{Agrees};
ghost use Rattle.rules.specs.Reading.{lent_records, reading};
ghost use Rattle.scan.specs.Parts.{part_of};
ghost use Rattle.tokens.specs.Steps.{edge_number};
ghost use Rattle.view.specs.Refusals.{refusal_number, stop_in};
ghost use Rattle.view.specs.Ready.{Sound};
ghost use Rattle.view.specs.Run.{IsFresh, attributes_in, lent_in};
ghost use Rattle.view.specs.End.{after_end};
ghost use Rattle.reader.specs.Fields as fields;
ghost use Rattle.reader.specs.Reader.{view_of, SameBuffers};
ghost use Rattle.reader.specs.Answer.{lent_words, answer, entry_refusal, Counted};
ghost use Rattle.reader.specs.Answer.{IsEmpty, IsBlank, Reads, ReadsData};

use super::accidentals::Accidentals;
use super::fields::fields_of;
use super::state::{Attributes, State};
use super::walk::Reader;
use scan::characters::{count_characters, is_all_blank, is_utf8};
use scan::lines::Part;
use stores::cells::{Bars, Notes};
use stores::diagnostic::{Diagnostic, Diagnostics};
use tokens::cut::Place;
use tokens::rhythm::Edge;
use view::refusal::{Refusal, Stop};

/// How many notes, bars and diagnostics are stored.
#[derive(Clone, Copy, Debug, PartialEq, Eq)]
pub struct Counts {
    pub notes: u32,
    pub bars: u32,
    pub diagnostics: u32,
}

/// The first of the checks at the entry that fails.
fn check_text(text: &[u8], cells: usize) -> Result<(), Refusal>
    ensures checked { MatchResult result
        (λ _. entry_refusal text.now cells ≡ none)
        (λ e. entry_refusal text.now cells ≡ some (refusal_number e)) }
    ensures short { OnOk result (length text.now ≤ text_limit) }
    ensures enough { OnOk result (diagnostic_limit ≤ cells) }
{
    if State::MAX_INPUT_BYTES < text.len() {
        return Err(Refusal::TooLong);
    }
    if cells < State::MAX_DIAGNOSTICS {
        return Err(Refusal::FewCells);
    }
    if !is_utf8(text) {
        return Err(Refusal::Malformed);
    }
    if is_all_blank(text) {
        return Err(Refusal::Blank);
    }
    Ok(())
}

impl<'s, 't, 'n, 'b, 'l, 'd> Reader<'s, 't, 'n, 'b, 'l, 'd> {
    /// The end closes a bar that is not empty.
    fn finish(&mut self, data: Part) -> Result<Counts, Stop>
        requires { Sound (view_of self.old []) }
        ensures same { SameBuffers self.old self.new }
        ensures finished { (figure : List ℤ) → MatchResult result
            (λ _. after_end (characters_in «data».entry.bytes.now) (view_of self.old figure)
            ≡ Ok (view_of self.new figure))
            (λ stop. after_end (characters_in «data».entry.bytes.now) (view_of self.old figure)
            ≡ Err (stop_in stop)) }
        ensures counts { IfOk result (λ counts. Counted counts (view_of self.new [])) }
    {
        let behind = Place(count_characters(data.bytes) as u32 + 1);
        self.store_bar(Edge::Plain)
            .map_err(|refusal: Refusal| Stop {
                refusal,
                place: Some(behind),
            })?;
        if self.notes.count == 0 {
            return Err(Refusal::NoRecord.into());
        }
        Ok(Counts {
            notes: self.notes.count as u32,
            bars: self.bars.count as u32,
            diagnostics: self.diagnostics.count as u32,
        })
    }

    /// Reads the data: its tokens in turn, and its end.
    fn read_data(&mut self, data: Part<'d>, figure: &mut [i32]) -> Result<Counts, Stop>
        requires { IsFresh (view_of self.old figure.old) }
        ensures same { SameBuffers self.old self.new }
        ensures read { ReadsData (lent_in (view_of self.old figure.old))
            (attributes_in (view_of self.old figure.old)) (part_of «data».entry)
            self.old.diagnostics.now.list.now self.old.diagnostics.now.count
            result self.new.notes.now.cells.now self.new.bars.now.cells.now
            self.new.diagnostics.now.list.now }
    {
        self.walk(data, figure)?;
        self.finish(data)
    }
}

/// Reads the data into empty stores, from these attributes on.
fn read_data(
    attributes: Attributes,
    data: Part,
    notes: &mut Notes,
    bars: &mut Bars,
    figure: &mut [i32],
    diagnostics: &mut Diagnostics,
) -> Result<Counts, Stop>
    requires left { edge_number attributes.left ≡ 0 }
    requires notes { IsEmpty notes.old.cells.now notes.old.count }
    requires bars { IsEmpty bars.old.cells.now bars.old.count }
    ensures same_notes { notes.new.cells.ghost_name ≡ notes.old.cells.ghost_name }
    ensures same_bars { bars.new.cells.ghost_name ≡ bars.old.cells.ghost_name }
    ensures same_list { diagnostics.new.list.ghost_name ≡ diagnostics.old.list.ghost_name }
    ensures read { ReadsData
        (lent_records (lent_words notes.old.cells.now bars.old.cells.now figure.old
        diagnostics.old.list.now))
        (fields.attributes_in attributes) (part_of «data».entry)
        diagnostics.old.list.now diagnostics.old.count
        result notes.new.cells.now bars.new.cells.now diagnostics.new.list.now }
{
    let mut reader = Reader {
        state: State::new(attributes),
        accidentals: Accidentals::new(),
        notes,
        bars,
        diagnostics,
    };
    reader.read_data(data, figure)
}

/// Reads a text into empty stores, and leaves in them what is stored up to a refusal.
fn read_text(
    text: &[u8],
    notes: &mut Notes,
    bars: &mut Bars,
    figure: &mut [i32],
    diagnostics: &mut Diagnostics,
) -> Result<Counts, Stop>
    requires notes { IsEmpty notes.old.cells.now notes.old.count }
    requires bars { IsEmpty bars.old.cells.now bars.old.count }
    requires diagnostics { IsBlank diagnostics.old.list.now diagnostics.old.count }
    ensures same_notes { notes.new.cells.ghost_name ≡ notes.old.cells.ghost_name }
    ensures same_bars { bars.new.cells.ghost_name ≡ bars.old.cells.ghost_name }
    ensures same_list { diagnostics.new.list.ghost_name ≡ diagnostics.old.list.ghost_name }
    ensures reads { Reads text.now
        (lent_words notes.old.cells.now bars.old.cells.now figure.old diagnostics.old.list.now)
        result notes.new.cells.now bars.new.cells.now diagnostics.new.list.now }
{
    check_text(text, diagnostics.list.len())?;
    let fields = fields_of(text, diagnostics);
    let Some(data) = fields.data else {
        return Err(Refusal::NoData.into());
    };
    read_data(fields.attributes, data, notes, bars, figure, diagnostics)
}

/// Reads a text of any bytes and any length into lent cells of any length: how much is stored, or
/// one refusal, after which every lent cell is 0.
pub fn read(
    text: &[u8],
    notes: &mut [i32],
    bars: &mut [i32],
    figure: &mut [i32],
    diagnostics: &mut [Diagnostic],
) -> Result<Counts, Stop>
    ensures answered { answer result notes.new bars.new figure.new diagnostics.new ≡
        reading text.now (lent_words notes.old bars.old figure.old diagnostics.old) }
    ensures agrees { IfOk result (λ counts. Agrees text.now counts.notes notes.new) }
{
    let mut notes = Notes::new(notes);
    let mut bars = Bars::new(bars);
    let mut diagnostics = Diagnostics::new(diagnostics);
    let result = read_text(text, &mut notes, &mut bars, figure, &mut diagnostics);
    figure.fill(0);
    if result.is_err() {
        notes.clear();
        bars.clear();
        diagnostics.clear();
    }
    result
}
