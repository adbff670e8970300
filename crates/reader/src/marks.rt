// Ties and trills: `+`, `t`.
ghost use Rattle.std.specs.Prelude.{◌≡◌, [], MatchResult, Ok, Err, List, ℤ};
ghost use Rattle.tokens.specs.Spans.{item_of};
ghost use Rattle.reader.specs.Reader.{view_of, SameBuffers};
ghost use Rattle.view.specs.Ready.{IsSteady};
ghost use Rattle.view.specs.Steps.{after_tie, after_trill};

use super::remark::all_of_it;
use super::walk::Reader;
use stores::cells::NoRoom;
use stores::diagnostic::{At, Remark};
use tokens::cut::Span;
use view::refusal::Refusal;

impl<'s, 't, 'n, 'b, 'l, 'd> Reader<'s, 't, 'n, 'b, 'l, 'd> {
    /// `+` starts the tie of a last note, which ends at the next opened note.
    pub fn tie(&mut self, span: Span<'d>)
        ensures same { SameBuffers self.old self.new }
        ensures tied { (figure : List ℤ) → view_of self.new figure ≡
            after_tie (item_of span.entry) (view_of self.old figure) }
    {
        if self.ends_in_note() {
            self.notes.start_tie();
            self.state.voice.tie = true;
        } else {
            self.diagnostics
                .push(Remark::TieAlone, At::Data(span.place), all_of_it(span));
        }
    }

    /// `t` marks the last note.
    #[tactic(auto, using(crate::proofs::MarkLaws::marks))]
    pub fn trill(&mut self, span: Span<'d>) -> Result<(), Refusal>
        requires { IsSteady (view_of self.old []) }
        ensures same { SameBuffers self.old self.new }
        ensures marked { (figure : List ℤ) → MatchResult result
            (λ _. after_trill (item_of span.entry) (view_of self.old figure)
            ≡ Ok (view_of self.new figure))
            (λ e. after_trill (item_of span.entry) (view_of self.old figure) ≡ Err e) }
    {
        if !self.has_note() {
            self.diagnostics
                .push(Remark::TrillAlone, At::Data(span.place), all_of_it(span));
            return Ok(());
        }
        // `?` and `Ok`: the proof of `map_err`'s value itself didn't close (tried).
        self.notes
            .add_mark(true)
            .map_err(|_: NoRoom| Refusal::NoMark)?;
        Ok(())
    }
}
