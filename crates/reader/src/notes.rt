// Letters and rests.
ghost use Rattle.std.specs.Prelude.{◌≡◌, ◌+◌, ◌<◌, ◌≤◌, if◌then◌else◌, Ok, Err, MatchResult, OnOk, List, [], ℤ};
ghost use Rattle.rules.specs.Limits.{note_limit};
ghost use Rattle.rules.specs.Rules.{heading, kind_of, length_of};
ghost use Rattle.tokens.specs.Numbers.{number_in};
ghost use Rattle.tokens.specs.Spans.{item_of};
ghost use Rattle.tokens.specs.Steps.{step_number};
ghost use Rattle.tokens.specs.Rhythm.{length_in, next_length, all_lengths, lengths_left, lengths_after};
ghost use Rattle.stores.specs.Cells.{word_limit, BlankRecord};
ghost use Rattle.stores.specs.Notes.{pitch_of, heading_of};
ghost use Rattle.reader.specs.Parts.{grace_in};
ghost use Rattle.reader.specs.Reader.{view_of, SameBuffers};
ghost use Rattle.view.specs.Ready.{Sound};
ghost use Rattle.view.specs.View.{joins};
ghost use Rattle.view.specs.Steps as steps;
ghost use Rattle.view.specs.Steps.{after_letter, after_rest, after_whole_bar, after_count};

use super::remark::after_first;
use super::state::Voice;
use super::walk::Reader;
use stores::cells::{NOTE, NoRoom};
use stores::diagnostic::{At, Remark};
use stores::note::{Heading, NoteKind, Pitch};
use tokens::cut::{Place, Span};
use tokens::kinds::Grace;
use tokens::rhythm::{Barline, Cycle, Length, Step};
use view::refusal::Refusal;

// The length that a note takes; a grace takes it without stepping.
fn take_length(lengths: &mut Cycle, grace: bool) -> Length
    ensures taken { length_in result ≡ next_length (lengths_left lengths.old) }
    ensures all { all_lengths lengths.new ≡ all_lengths lengths.old }
    ensures left { lengths_left lengths.new ≡
        (if grace then lengths_left lengths.old
        else lengths_after (all_lengths lengths.old) (lengths_left lengths.old)) }
{
    if grace {
        lengths.peek()
    } else {
        lengths.take()
    }
}

impl Voice {
    // An opened note's kind and length, `next` being the next one in turn.
    fn heading(&self, place: Place, next: Length) -> Heading
        ensures { heading_of result ≡
            heading place.0 (kind_of (grace_in self.now.grace) self.now.group)
            (length_of (grace_in self.now.grace) (length_in next)) }
    {
        let (kind, length) = match (self.grace, self.group) {
            (Some(Grace::Acciaccatura), _) => (NoteKind::SlashedGrace, Length::EIGHTH),
            (Some(Grace::Appoggiatura), _) | (None, true) => (NoteKind::Grace, next),
            (None, false) => (NoteKind::Note, next),
        };
        Heading {
            place,
            kind,
            length: Some(length),
        }
    }
}

impl<'s, 't, 'n, 'b, 'l, 'd> Reader<'s, 't, 'n, 'b, 'l, 'd> {
    // A letter's pitch: the accidental that waits, else that of the bar, else that of the key.
    fn pitch(&self, place: Place, step: Step) -> Pitch
        ensures { pitch_of result ≡
            steps.pitch_of place.0 (step_number step) (view_of self.now []) }
    {
        let octave = self.state.voice.octave;
        let alter = match self.state.voice.accidental {
            Some(accidental) => accidental.alter(),
            None => match self.accidentals.get(step, octave) {
                Some(alter) => alter,
                None => self.state.attributes.alters[step as usize],
            },
        };
        Pitch {
            place,
            step,
            octave,
            alter,
        }
    }

    // Whether the next letter joins the last note.
    fn joins(&self) -> bool
        ensures { result ≡ joins (view_of self.now []) }
    {
        self.state.voice.chord && self.ends_in_note()
    }

    /// A letter joins the last note behind a `^`, else it opens one.
    pub fn letter(&mut self, span: Span<'d>, step: Step) -> Result<(), Refusal>
        requires { Sound (view_of self.old []) }
        ensures same { SameBuffers self.old self.new }
        ensures letter { (figure : List ℤ) → MatchResult result
            (λ _. after_letter span.entry.place.0 (step_number step) (view_of self.old figure) ≡
            Ok (view_of self.new figure))
            (λ e. after_letter span.entry.place.0 (step_number step) (view_of self.old figure) ≡
            Err e) }
    {
        let voice = self.state.voice;
        let joins = self.joins();
        let pitch = self.pitch(span.place, step);
        self.accidentals.enter(step, voice.octave, voice.accidental);
        self.state.voice.accidental = None;
        self.state.voice.chord = false;
        if joins {
            return self
                .notes
                .add_pitch(pitch)
                .map_err(|_: NoRoom| Refusal::NoPitch);
        }
        self.room_for(1)?;
        let length = take_length(&mut self.state.lengths, voice.is_grace());
        let heading = voice.heading(span.place, length);
        let bar = self.open_bar();
        self.notes
            .open_note(heading, voice.tie, bar, pitch)
            .map_err(|_: NoRoom| Refusal::NoNote)?;
        self.state.voice.grace = None;
        self.state.voice.tie = false;
        Ok(())
    }

    /// `-`: a rest.
    pub fn rest(&mut self, span: Span<'d>) -> Result<(), Refusal>
        requires few { self.old.notes.now.count ≤ note_limit }
        requires bars { self.old.bars.now.count + 1 < word_limit }
        requires blank { BlankRecord NOTE self.old.notes.now.cells.now self.old.notes.now.count }
        ensures same { SameBuffers self.old self.new }
        ensures rest { (figure : List ℤ) → MatchResult result
            (λ _. after_rest span.entry.place.0 (view_of self.old figure)
            ≡ Ok (view_of self.new figure))
            (λ e. after_rest span.entry.place.0 (view_of self.old figure) ≡ Err e) }
    {
        self.room_for(1)?;
        let heading = Heading {
            place: span.place,
            kind: NoteKind::Rest,
            length: Some(self.state.lengths.take()),
        };
        let bar = self.open_bar();
        self.notes
            .open_rest(heading, bar)
            .map_err(|_: NoRoom| Refusal::NoNote)?;
        self.state.voice.tie = false; // no tie ends at a rest
        Ok(())
    }

    // A whole-bar rest, which takes no length and leaves a tie waiting.
    fn whole_bar(&mut self, place: Place) -> Result<(), Refusal>
        requires few { self.old.notes.now.count ≤ note_limit }
        requires bars { self.old.bars.now.count + 1 < word_limit }
        requires blank { BlankRecord NOTE self.old.notes.now.cells.now self.old.notes.now.count }
        requires fits { place.0 < word_limit }
        ensures same { SameBuffers self.old self.new }
        ensures sound { OnOk result (Sound (view_of self.old []) → Sound (view_of self.new [])) }
        ensures whole_bar { (figure : List ℤ) → MatchResult result
            (λ _. after_whole_bar place.0 (view_of self.old figure) ≡ Ok (view_of self.new figure))
            (λ e. after_whole_bar place.0 (view_of self.old figure) ≡ Err e) }
    {
        self.room_for(1)?;
        let heading = Heading {
            place,
            kind: NoteKind::WholeBarRest,
            length: None,
        };
        let bar = self.open_bar();
        // `?` and `Ok`: the proof of `map_err`'s value itself didn't close (tried).
        self.notes
            .open_rest(heading, bar)
            .map_err(|_: NoRoom| Refusal::NoNote)?;
        Ok(())
    }

    /// `=`: whole-bar rests, each further one behind a normal barline.
    pub fn whole_bars(&mut self, span: Span<'d>, count: Option<u16>) -> Result<(), Refusal>
        requires { Sound (view_of self.old []) }
        ensures same { SameBuffers self.old self.new }
        ensures whole_bars { (figure : List ℤ) → MatchResult result
            (λ _. after_count (item_of span.entry) (number_in count) (view_of self.old figure) ≡
            Ok (view_of self.new figure))
            (λ e. after_count (item_of span.entry) (number_in count) (view_of self.old figure) ≡
            Err e) }
    {
        let Some(count) = count else {
            self.diagnostics.push(
                Remark::WholeBarCount,
                At::Data(span.place),
                after_first(span),
            );
            return Ok(());
        };
        self.whole_bar(span.place)?;
        for _ in 1..count {
            self.barline(Barline::PLAIN)?;
            self.whole_bar(span.place)?;
        }
        Ok(())
    }
}
