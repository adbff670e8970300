// What a token is.
ghost use Rattle.std.specs.Prelude.{◌≡◌, ◌∷◌, false, IsTrue, MatchOption};
ghost use Rattle.rules.specs.Tokens.{token_of, duration};
ghost use Rattle.rules.specs.Values.{pattern_of};
ghost use Rattle.tokens.specs.Whole.{is_whole};
ghost use Rattle.tokens.specs.Kinds.{token_in};

use crate::attributes::{ClefValue, Key, Meter};
use crate::cut::Span;
use crate::numbers::{count_of, whole_bars_of};
use crate::rhythm::{Accidental, Barline, Octave, Pattern, Step};
use scan::characters::is_blank;
use scan::classes::Class;

/// `g`, slashed, or `q`.
#[derive(Clone, Copy, Debug, PartialEq, Eq)]
pub enum Grace {
    Acciaccatura,
    Appoggiatura,
}

/// `!`, `f`, `i`.
#[derive(Clone, Copy, Debug, PartialEq, Eq)]
pub enum Figure {
    Mark,
    Repeat,
    Bar,
}

/// `{`, `}`, `(`, `;` with its count, `)`, `+`, `t`.
#[derive(Clone, Copy, Debug, PartialEq, Eq)]
pub enum Marking {
    BeamOpen,
    BeamClose,
    GroupOpen,
    GroupCount(Option<u8>),
    GroupClose,
    Tie,
    Trill,
}

/// A token, in the order of the published code, with what its value says.
#[derive(Clone, Copy)]
pub enum Token<'d> {
    Clef(ClefValue),
    Key(Key),
    Meter(Option<Meter>),
    Octave(Option<Octave>),
    Duration(Pattern<'d>),
    Accidental(Accidental),
    Letter(Step),
    Chord,
    Rest,
    WholeBars(Option<u16>),
    Barline(Barline),
    Grace(Grace),
    /// Whether it begins, `qq`, or ends, `r`.
    // A `bool`, as in the rules' token: what it is, not what is to be done.
    GraceGroup(bool),
    Figure(Figure),
    Marking(Marking),
    Blank,
    Colon,
    Unknown,
}

/// What the token is that has this first byte and then these bytes.
#[tactic(auto, unfolding(rules::specs::Tokens::token_of), using(crate::proofs::KindLaws::blanks))]
#[inline(always)]
fn decode<'d>(first: u8, value: &'d [u8]) -> Token<'d>
    requires { IsTrue (is_whole first value.now) }
    ensures { token_in result ≡ token_of first value.entry.now }
{
    let size = 1 + value.len();
    match first {
        b'%' => Token::Clef(ClefValue::new(value)),
        b'$' => Token::Key(Key::new(value)),
        b'@' => Token::Meter(Meter::new(value)),
        b'\'' => Token::Octave(Octave::raised(size)),
        b',' => Token::Octave(Octave::lowered(size)),
        b'0'..=b'9' => Token::Duration(Pattern::of_token(first, value)),
        b'x' => Token::Accidental(Accidental::sharpened(size)),
        b'b' => Token::Accidental(Accidental::flattened(size)),
        b'n' => Token::Accidental(Accidental::Natural),
        b'A'..=b'G' => Token::Letter(Step::of_letter(first)),
        b'^' => Token::Chord,
        b'-' => Token::Rest,
        b'=' => Token::WholeBars(whole_bars_of(value)),
        b'/' => Token::Barline(Barline::slashes(size)),
        b':' => match Barline::colons(size) {
            Some(barline) => Token::Barline(barline),
            None => Token::Colon,
        },
        b'g' => Token::Grace(Grace::Acciaccatura),
        b'q' => {
            if value.is_empty() {
                Token::Grace(Grace::Appoggiatura)
            } else {
                Token::GraceGroup(true)
            }
        }
        b'r' => Token::GraceGroup(false),
        b'!' => Token::Figure(Figure::Mark),
        b'f' => Token::Figure(Figure::Repeat),
        b'i' => Token::Figure(Figure::Bar),
        b'{' => Token::Marking(Marking::BeamOpen),
        b'}' => Token::Marking(Marking::BeamClose),
        b'(' => Token::Marking(Marking::GroupOpen),
        b';' => Token::Marking(Marking::GroupCount(count_of(value))),
        b')' => Token::Marking(Marking::GroupClose),
        b'+' => Token::Marking(Marking::Tie),
        b't' => Token::Marking(Marking::Trill),
        b' ' | b'\n' => Token::Blank,
        b'\t' => Token::Blank,
        _ if is_blank(first, value) => Token::Blank,
        _ => Token::Unknown,
    }
}

impl<'d> Token<'d> {
    /// What the token is that has this first byte and then these bytes, whatever they are. None is a
    /// digit token with another byte than digits and dots, which has no `Pattern`, and is never cut.
    #[tactic(auto, using(crate::proofs::KindLaws::wholes))]
    pub fn new(first: u8, value: &'d [u8]) -> Option<Token<'d>>
        ensures whole { MatchOption result (is_whole first value.entry.now ≡ false)
            (λ t. token_in t ≡ token_of first value.entry.now) }
        ensures digits { MatchOption result
            (token_of first value.entry.now ≡ duration (pattern_of (first ∷ value.entry.now)))
            (λ t. IsTrue (is_whole first value.entry.now)) }
    {
        if first.is_ascii_digit() && Class::Durations.run(value) < value.len() {
            return None;
        }
        Some(decode(first, value))
    }
}

impl<'d> Span<'d> {
    /// What the token is.
    #[inline(always)]
    pub fn decode(self) -> Token<'d>
        ensures { token_in result ≡ token_of self.entry.first self.entry.value.now }
    {
        decode(self.first, self.value)
    }
}
