// Barlines: the open bar is stored, and the next one begins.
ghost use Rattle.std.specs.Prelude.{◌≡◌, ◌<◌, ◌≤◌, Ok, Err, MatchResult, OnOk, List, [], ℤ};
ghost use Rattle.tokens.specs.Steps.{edge_number};
ghost use Rattle.stores.specs.Cells.{word_limit};
ghost use Rattle.stores.specs.Bars.{numbers_of};
ghost use Rattle.reader.specs.Reader.{view_of, SameBuffers};
ghost use Rattle.view.specs.Ready.{Sound};
ghost use Rattle.view.specs.Steps.{finished, stored_bar, after_barline};

use super::accidentals::Accidentals;
use super::walk::Reader;
use stores::bar::Bar;
use stores::cells::NoRoom;
use tokens::attributes::Clef;
use tokens::rhythm::{Barline, Edge};
use view::refusal::Refusal;

impl<'s, 't, 'n, 'b, 'l, 'd> Reader<'s, 't, 'n, 'b, 'l, 'd> {
    // The open bar; the first one has a clef and a key, treble and 0 where none is set.
    fn finished(&self, right: Edge) -> Bar
        requires first { self.now.state.first ≤ self.now.notes.now.count }
        requires fits { self.now.notes.now.count < word_limit }
        ensures { numbers_of result ≡ finished (edge_number right) (view_of self.now []) }
    {
        let attributes = self.state.attributes;
        let mut clef = attributes.clef;
        let mut fifths = attributes.fifths;
        if self.bars.count == 0 {
            clef = clef.or(Some(Clef::Treble));
            fifths = fifths.or(Some(0));
        }
        Bar {
            first: self.state.first as u32,
            count: (self.notes.count - self.state.first) as u32,
            clef,
            fifths,
            meter: attributes.meter,
            left: attributes.left,
            right,
        }
    }

    /// Stores the open bar, unless it is empty.
    pub fn store_bar(&mut self, right: Edge) -> Result<(), Refusal>
        requires { self.old.notes.now.count < word_limit }
        ensures same { SameBuffers self.old self.new }
        ensures notes { self.new.notes.now ≡ self.old.notes.now }
        ensures few { OnOk result (Sound (view_of self.old []) →
            self.new.bars.now.count ≤ self.new.notes.now.count) }
        ensures stored { (figure : List ℤ) → MatchResult result
            (λ _. stored_bar (edge_number right) (view_of self.old figure)
            ≡ Ok (view_of self.new figure))
            (λ e. stored_bar (edge_number right) (view_of self.old figure) ≡ Err e) }
    {
        if !self.has_note() {
            return Ok(());
        }
        let bar = self.finished(right);
        self.bars.store(bar).map_err(|_: NoRoom| Refusal::NoBar)
    }

    /// A barline: the open bar is stored, and another begins; an empty one goes on, noting a
    /// repeat's start.
    pub fn barline(&mut self, barline: Barline) -> Result<(), Refusal>
        requires { Sound (view_of self.old []) }
        ensures same { SameBuffers self.old self.new }
        ensures sound { OnOk result (Sound (view_of self.new [])) }
        ensures barline { (figure : List ℤ) → MatchResult result
            (λ _. after_barline (edge_number barline.right) (edge_number barline.left)
            (view_of self.old figure) ≡ Ok (view_of self.new figure))
            (λ e. after_barline (edge_number barline.right) (edge_number barline.left)
            (view_of self.old figure) ≡ Err e) }
    {
        if !self.has_note() {
            if barline.left == Edge::RepeatStart {
                self.state.attributes.left = Edge::RepeatStart;
            }
            self.accidentals = Accidentals::new();
            return Ok(());
        }
        self.store_bar(barline.right)?;
        self.state.attributes.clef = None;
        self.state.attributes.fifths = None;
        self.state.attributes.meter = None;
        self.state.attributes.left = barline.left;
        self.accidentals = Accidentals::new();
        self.state.last = self.state.first;
        self.state.first = self.notes.count;
        Ok(())
    }
}
