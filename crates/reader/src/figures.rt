// Figures and repeated bars: `!`, `f`, `i`.
ghost use Rattle.std.specs.Prelude.{◌≡◌, [], MatchResult, Ok, Err, List, ℤ};
ghost use Rattle.tokens.specs.Spans.{item_of};
ghost use Rattle.reader.specs.Parts.{start_of};
ghost use Rattle.reader.specs.Reader.{view_of, SameBuffers};
ghost use Rattle.view.specs.Ready.{IsReady, IsSteady, Reached};
ghost use Rattle.std.proofs.Math.Option.{some};
ghost use Rattle.view.specs.Steps.{after_second_mark, after_mark, after_repeat, after_bar};

use super::remark::all_of_it;
use super::state::Start;
use super::walk::Reader;
use stores::cells::{NOTE, NoRoom};
use stores::diagnostic::{At, Remark};
use tokens::cut::Span;
use view::refusal::Refusal;

impl<'s, 't, 'n, 'b, 'l, 'd> Reader<'s, 't, 'n, 'b, 'l, 'd> {
    // The figure's cells are lent beside the reader, as `read` is lent them: parameters, here and
    // below.

    // The second `!`: the notes from the first on are the figure, unless it stands in a later bar.
    fn second_mark(
        &mut self,
        span: Span<'d>,
        start: Start,
        figure: &mut [i32],
    ) -> Result<(), Refusal>
        requires ready { IsReady (view_of self.old figure.old) }
        requires start { Reached (some (start_of start)) (view_of self.old figure.old) }
        ensures same { SameBuffers self.old self.new }
        ensures marked { MatchResult result
            (λ _. after_second_mark (item_of span.entry) (start_of start)
            (view_of self.old figure.old) ≡ Ok (view_of self.new figure.new))
            (λ e. after_second_mark (item_of span.entry) (start_of start)
            (view_of self.old figure.old) ≡ Err e) }
    {
        if self.in_its_bar(start) {
            let count = self.open_length() - start.from;
            if figure.len() < count * NOTE {
                return Err(Refusal::NoFigure);
            }
            self.notes
                .take_figure(figure, self.state.first + start.from, count);
            self.state.figure = count;
        } else {
            self.diagnostics.push(
                Remark::FigureInLaterBar,
                At::Data(span.place),
                all_of_it(span),
            );
        }
        self.state.groups.figure = None;
        Ok(())
    }

    /// `!`: the first notes a start.
    pub fn mark(&mut self, span: Span<'d>, figure: &mut [i32]) -> Result<(), Refusal>
        requires { IsReady (view_of self.old figure.old) }
        ensures same { SameBuffers self.old self.new }
        ensures marked { MatchResult result
            (λ _. after_mark (item_of span.entry) (view_of self.old figure.old)
            ≡ Ok (view_of self.new figure.new))
            (λ e. after_mark (item_of span.entry) (view_of self.old figure.old) ≡ Err e) }
    {
        match self.state.groups.figure {
            Some(start) => self.second_mark(span, start, figure),
            None => {
                self.state.groups.figure = Some(self.start_here());
                Ok(())
            }
        }
    }

    /// `f` copies the figure.
    pub fn repeat_figure(&mut self, span: Span<'d>, figure: &[i32]) -> Result<(), Refusal>
        requires { IsReady (view_of self.old figure.now) }
        ensures same { SameBuffers self.old self.new }
        ensures repeated { MatchResult result
            (λ _. after_repeat (item_of span.entry) (view_of self.old figure.now)
            ≡ Ok (view_of self.new figure.now))
            (λ e. after_repeat (item_of span.entry) (view_of self.old figure.now) ≡ Err e) }
    {
        let count = self.state.figure;
        self.room_for(count)?;
        let bar = self.open_bar();
        self.notes
            .repeat_figure(figure, count, span.place, bar)
            .map_err(|_: NoRoom| Refusal::NoNote)?;
        self.diagnostics.push_unless(
            count > 0,
            Remark::NoFigure,
            At::Data(span.place),
            all_of_it(span),
        );
        Ok(())
    }

    /// `i` copies the last stored bar's notes, in an empty bar after a stored one.
    pub fn repeat_bar(&mut self, span: Span<'d>) -> Result<(), Refusal>
        requires { IsSteady (view_of self.old []) }
        ensures same { SameBuffers self.old self.new }
        ensures repeated { (figure : List ℤ) → MatchResult result
            (λ _. after_bar (item_of span.entry) (view_of self.old figure)
            ≡ Ok (view_of self.new figure))
            (λ e. after_bar (item_of span.entry) (view_of self.old figure) ≡ Err e) }
    {
        let repeats = !self.has_note() && self.bars.count > 0;
        let count = if repeats {
            self.state.first - self.state.last
        } else {
            0
        };
        self.room_for(count)?;
        let bar = self.open_bar();
        self.notes
            .repeat(self.state.last, count, span.place, bar)
            .map_err(|_: NoRoom| Refusal::NoNote)?;
        self.diagnostics.push_unless(
            repeats,
            Remark::NoBarToRepeat,
            At::Data(span.place),
            all_of_it(span),
        );
        Ok(())
    }
}
