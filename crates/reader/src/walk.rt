// The walk over the data's tokens.
ghost use Rattle.std.specs.Prelude.{◌≡◌, Ok, Err, MatchResult};
ghost use Rattle.rules.specs.Tokens.{items_of};
ghost use Rattle.scan.specs.Parts.{part_of};
ghost use Rattle.tokens.specs.Kinds.{token_in};
ghost use Rattle.tokens.specs.Spans.{item_of};
ghost use Rattle.reader.specs.Reader.{view_of, SameBuffers};
ghost use Rattle.view.specs.Ready.{IsReady};
ghost use Rattle.view.specs.Refusals.{stop_in};
ghost use Rattle.view.specs.Run.{IsFresh, run};
ghost use Rattle.view.specs.Steps.{after_token};

use super::accidentals::Accidentals;
use super::remark::all_of_it;
use super::state::State;
use scan::lines::Part;
use stores::cells::{Bars, Notes};
use stores::diagnostic::{Diagnostics, Remark};
use tokens::cut::{Span, Tokens};
use tokens::kinds::{Figure, Marking, Token};
use view::refusal::{Refusal, Stop};

/// A reading in lent cells: the state, the open bar's accidentals, the records stored so far.
// It lends its stores, for two lifetimes: of stores that it owns, or of three lent for one, its
// maker learns nothing at the end (both tried). No ghost field says `Sound`, `IsSteady` or
// `IsReady`: `store_bar` stores a bar before the next one begins, and the figure lies beside.
#[derive(Drop)]
pub struct Reader<'s, 't, 'n, 'b, 'l, 'd> {
    pub state: State<'d>,
    pub accidentals: Accidentals,
    pub notes: &'s mut Notes<'n>,
    pub bars: &'s mut Bars<'b>,
    pub diagnostics: &'t mut Diagnostics<'l>,
}

impl<'s, 't, 'n, 'b, 'l, 'd> Reader<'s, 't, 'n, 'b, 'l, 'd> {
    /// Reads one token, by its kind, in the order of the published code.
    fn step(&mut self, span: Span<'d>, token: Token<'d>, figure: &mut [i32]) -> Result<(), Refusal>
        requires { IsReady (view_of self.old figure.old) }
        ensures same { SameBuffers self.old self.new }
        ensures token { MatchResult result
            (λ _.
            after_token (item_of span.entry) (token_in token.entry) (view_of self.old figure.old)
            ≡ Ok (view_of self.new figure.new))
            (λ e.
            after_token (item_of span.entry) (token_in token.entry) (view_of self.old figure.old)
            ≡ Err e) }
    {
        match token {
            Token::Clef(value) => self.clef(span, value),
            Token::Key(key) => self.key(span, key),
            Token::Meter(meter) => self.meter(span, meter),
            Token::Octave(octave) => self.octave(span, octave),
            Token::Duration(pattern) => self.duration(pattern),
            Token::Accidental(accidental) => self.accidental(accidental),
            Token::Letter(step) => self.letter(span, step)?,
            Token::Chord => self.chord(),
            Token::Rest => self.rest(span)?,
            Token::WholeBars(count) => self.whole_bars(span, count)?,
            Token::Barline(barline) => self.barline(barline)?,
            Token::Grace(grace) => self.grace(grace),
            Token::GraceGroup(begins) => self.grace_group(span, begins),
            Token::Figure(Figure::Mark) => self.mark(span, figure)?,
            Token::Figure(Figure::Repeat) => self.repeat_figure(span, figure)?,
            Token::Figure(Figure::Bar) => self.repeat_bar(span)?,
            Token::Marking(Marking::BeamOpen) => self.beam_open(),
            Token::Marking(Marking::BeamClose) => self.beam_close(),
            Token::Marking(Marking::GroupOpen) => self.group_open(),
            Token::Marking(Marking::GroupCount(count)) => self.group_count(span, count),
            Token::Marking(Marking::GroupClose) => self.group_close(span)?,
            Token::Marking(Marking::Tie) => self.tie(span),
            Token::Marking(Marking::Trill) => self.trill(span)?,
            Token::Blank => (),
            Token::Colon => self.remark_alone(Remark::LoneColon, span, all_of_it(span)),
            Token::Unknown => self.remark_alone(Remark::NoRule, span, all_of_it(span)),
        }
        Ok(())
    }

    /// Reads the tokens of the data in turn, up to one that is refused.
    #[tactic(auto, using(view::proofs::WalkLaws::walk_laws))]
    pub fn walk(&mut self, data: Part<'d>, figure: &mut [i32]) -> Result<(), Stop>
        requires { IsFresh (view_of self.old figure.old) }
        ensures same { SameBuffers self.old self.new }
        ensures run { MatchResult result
            (λ _. run (view_of self.old figure.old) (items_of (part_of «data».entry))
            ≡ Ok (view_of self.new figure.new))
            (λ stop. run (view_of self.old figure.old) (items_of (part_of «data».entry))
            ≡ Err (stop_in stop)) }
    {
        for span in Tokens::new(data) {
            if let Err(refusal) = self.step(span, span.decode(), figure) {
                return Err(Stop {
                    refusal,
                    place: Some(span.place),
                });
            }
        }
        Ok(())
    }
}
