// Beams and groups: `{`, `}`, `(`, `;`, `)`.
ghost use Rattle.std.specs.Prelude.{◌≡◌, true, [], MatchResult, Ok, Err, List, ℤ};
ghost use Rattle.tokens.specs.Numbers.{number_in};
ghost use Rattle.tokens.specs.Spans.{item_of};
ghost use Rattle.stores.specs.Groups.{closing_of};
ghost use Rattle.reader.specs.Parts.{start_of, group_of};
ghost use Rattle.reader.specs.Reader.{view_of, SameBuffers};
ghost use Rattle.view.specs.Ready.{IsSteady, Sound, Reached};
ghost use Rattle.view.specs.View.{in_its_bar};
ghost use Rattle.view.specs.Steps as steps;
ghost use Rattle.std.proofs.Math.Option.{some};
ghost use Rattle.view.specs.Steps.{after_beam_open, after_beam_close, after_group_open, after_group_count, after_group_close, after_closing};

use super::remark::{after_first, all_of_it};
use super::state::Group;
use super::walk::Reader;
use stores::cells::NoRoom;
use stores::diagnostic::{At, Remark, Value};
use stores::group::{Closing, closing_of};
use tokens::cut::Span;
use tokens::rhythm::normal_of;
use view::refusal::Refusal;

impl<'s, 't, 'n, 'b, 'l, 'd> Reader<'s, 't, 'n, 'b, 'l, 'd> {
    /// `{` notes a start.
    pub fn beam_open(&mut self)
        requires { Sound (view_of self.old []) }
        ensures same { SameBuffers self.old self.new }
        ensures opened { (figure : List ℤ) → view_of self.new figure ≡
            after_beam_open (view_of self.old figure) }
    {
        self.state.groups.beam = Some(self.start_here());
    }

    /// `}` beams the open bar's notes from there on.
    pub fn beam_close(&mut self)
        requires { IsSteady (view_of self.old []) }
        ensures same { SameBuffers self.old self.new }
        ensures closed { (figure : List ℤ) → view_of self.new figure ≡
            after_beam_close (view_of self.old figure) }
    {
        if let Some(start) = self.state.groups.beam {
            if self.in_its_bar(start) {
                self.notes.beam_from(self.state.first + start.from);
            }
            self.state.groups.beam = None;
        }
    }

    /// `(` notes a start.
    pub fn group_open(&mut self)
        requires { Sound (view_of self.old []) }
        ensures same { SameBuffers self.old self.new }
        ensures opened { (figure : List ℤ) → view_of self.new figure ≡
            after_group_open (view_of self.old figure) }
    {
        self.state.groups.group = Some(Group {
            start: self.start_here(),
            count: None,
        });
    }

    /// `;` sets the open group's count.
    pub fn group_count(&mut self, span: Span<'d>, count: Option<u8>)
        ensures same { SameBuffers self.old self.new }
        ensures counted { (figure : List ℤ) → view_of self.new figure ≡
            after_group_count (item_of span.entry) (number_in count) (view_of self.old figure) }
    {
        match (self.state.groups.group, count) {
            (Some(group), Some(_)) => self.state.groups.group = Some(Group { count, ..group }),
            _ => self.diagnostics.push(Remark::GroupCount, At::Data(span.place), after_first(span)),
        }
    }

    // What a group of the open bar closes to.
    fn closing(&self, group: Group) -> Closing
        requires sound { Sound (view_of self.now []) }
        requires in_its_bar { in_its_bar (start_of group.start) (view_of self.now []) ≡ true }
        requires reached { Reached (some (start_of group.start)) (view_of self.now []) }
        ensures { closing_of result ≡ steps.closing_of (group_of group) (view_of self.now []) }
    {
        let timed = self.notes.timed_from(self.state.first + group.start.from);
        closing_of(timed.count, group.count)
    }

    // A group of the open bar is closed.
    #[tactic(auto, using(crate::proofs::MarkLaws::marks))]
    fn close(&mut self, span: Span<'d>, group: Group) -> Result<(), Refusal>
        requires ready { IsSteady (view_of self.old []) }
        requires in_its_bar { in_its_bar (start_of group.start) (view_of self.old []) ≡ true }
        requires reached { Reached (some (start_of group.start)) (view_of self.old []) }
        ensures same { SameBuffers self.old self.new }
        ensures closed { (figure : List ℤ) → MatchResult result
            (λ _. after_closing (item_of span.entry) (group_of group)
            (steps.closing_of (group_of group) (view_of self.old figure)) (view_of self.old figure)
            ≡ Ok (view_of self.new figure))
            (λ e. after_closing (item_of span.entry) (group_of group)
            (steps.closing_of (group_of group) (view_of self.old figure)) (view_of self.old figure)
            ≡ Err e) }
    {
        let from = self.state.first + group.start.from;
        match self.closing(group) {
            Closing::Nothing => (),
            Closing::Fermata => self
                .notes
                .fermata_from(from)
                .map_err(|_: NoRoom| Refusal::NoMark)?,
            Closing::Tuplet(actual) => self.notes.tuplet_from(from, actual, normal_of(actual)),
            Closing::TooFew(actual) => self.diagnostics.push(
                Remark::TooFew,
                At::Data(span.place),
                Value::Number(u32::from(actual)),
            ),
        }
        self.state.groups.group = None;
        Ok(())
    }

    /// `)` closes the group.
    pub fn group_close(&mut self, span: Span<'d>) -> Result<(), Refusal>
        requires { IsSteady (view_of self.old []) }
        ensures same { SameBuffers self.old self.new }
        ensures closed { (figure : List ℤ) → MatchResult result
            (λ _. after_group_close (item_of span.entry) (view_of self.old figure)
            ≡ Ok (view_of self.new figure))
            (λ e. after_group_close (item_of span.entry) (view_of self.old figure) ≡ Err e) }
    {
        let Some(group) = self.state.groups.group else {
            self.diagnostics
                .push(Remark::NoGroup, At::Data(span.place), all_of_it(span));
            return Ok(());
        };
        if self.in_its_bar(group.start) {
            return self.close(span, group);
        }
        self.diagnostics.push(
            Remark::GroupInLaterBar,
            At::Data(span.place),
            Value::Parentheses,
        );
        self.state.groups.group = None;
        Ok(())
    }
}
