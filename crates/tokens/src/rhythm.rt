// What tokens say of pitch and time: steps, octaves, accidentals, barlines, lengths and patterns.
ghost use Rattle.std.specs.Prelude.{◌≡◌, ◌+◌, ◌<◌, ◌≤◌, ◌∷◌, [], length, take, drop, IsTrue, MatchOption};
ghost use Rattle.rules.specs.Text.{is_digit, is_note_letter, every};
ghost use Rattle.rules.specs.Cut.{is_duration};
ghost use Rattle.rules.specs.Tokens.{slashes, colons};
ghost use Rattle.tokens.specs.Whole.{is_rest};
ghost use Rattle.rules.specs.Values.{step_of, duration_of, raised_octave, lowered_octave};
ghost use Rattle.rules.specs.Values.{sharpened, flattened, normal_of, quarter};
ghost use Rattle.rules.specs.Values.{capped, dots_at, pattern_of};

use crate::numbers::UnknownWord;
use scan::classes::Class;

/// A step of the scale, from C.
#[derive(Clone, Copy, Debug, PartialEq, Eq)]
pub enum Step {
    C,
    D,
    E,
    F,
    G,
    A,
    B,
}

impl Step {
    ghost use Rattle.tokens.specs.Steps.{step_number};

    /// The step of a letter.
    pub fn of_letter(letter: u8) -> Step
        requires { IsTrue (is_note_letter letter) }
        ensures { step_number result ≡ step_of letter }
    {
        match letter {
            b'C' => Step::C,
            b'D' => Step::D,
            b'E' => Step::E,
            b'F' => Step::F,
            b'G' => Step::G,
            b'A' => Step::A,
            _ => Step::B,
        }
    }
}

// An impl for each type here and below: what a macro or a derive writes has no `from_gives`, and
// callers would not learn the numbers.
impl From<Step> for i32 {
    ghost use Rattle.tokens.specs.Words.{WritesBy};
    ghost use Rattle.tokens.specs.Steps.{step_number};

    ghost from_gives = { WritesBy step_number };

    fn from(step: Step) -> i32 {
        step as i32
    }
}

impl TryFrom<i32> for Step {
    ghost use Rattle.tokens.specs.Words.{ReadsBy};
    ghost use Rattle.tokens.specs.Steps.{step_number};

    type Error = UnknownWord;

    ghost try_from_gives = { ReadsBy step_number };

    fn try_from(word: i32) -> Result<Step, UnknownWord> {
        match word {
            0 => Ok(Step::C),
            1 => Ok(Step::D),
            2 => Ok(Step::E),
            3 => Ok(Step::F),
            4 => Ok(Step::G),
            5 => Ok(Step::A),
            6 => Ok(Step::B),
            _ => Err(UnknownWord(word)),
        }
    }
}

/// An octave, 0 to 9.
#[derive(Clone, Copy, Debug, PartialEq, Eq)]
pub struct Octave {
    pub number: u8,
    ghost in_range: { number < 10 },
}

impl Octave {
    ghost use Rattle.tokens.specs.Rhythm.{octave_in};

    /// The highest octave.
    pub const MAX: usize = 9;

    /// The octave at the start of a reading.
    pub const START: Octave = Octave { number: 4 };

    /// A run of `'` sets octave 3 and its size.
    pub fn raised(size: usize) -> Option<Octave>
        ensures { octave_in result ≡ raised_octave size }
    {
        if size <= Octave::MAX - 3 {
            Some(Octave {
                number: 3 + size as u8,
            })
        } else {
            None
        }
    }

    /// A run of `,` sets octave 4 less its size.
    pub fn lowered(size: usize) -> Option<Octave>
        ensures { octave_in result ≡ lowered_octave size }
    {
        if size <= 4 {
            Some(Octave {
                number: 4 - size as u8,
            })
        } else {
            None
        }
    }
}

impl From<Octave> for i32 {
    ghost use Rattle.tokens.specs.Words.{WritesBy};

    ghost from_gives = { WritesBy (λ o. o.number) };

    fn from(octave: Octave) -> i32 {
        i32::from(octave.number)
    }
}

impl TryFrom<i32> for Octave {
    ghost use Rattle.tokens.specs.Words.{ReadsBy};

    type Error = UnknownWord;

    ghost try_from_gives = { ReadsBy (λ o. o.number) };

    fn try_from(word: i32) -> Result<Octave, UnknownWord> {
        if (0..=9).contains(&word) {
            Ok(Octave { number: word as u8 })
        } else {
            Err(UnknownWord(word))
        }
    }
}

/// `x`, a longer run of it, `b`, a longer run of it, `n`.
#[derive(Clone, Copy, Debug, PartialEq, Eq)]
pub enum Accidental {
    DoubleFlat,
    Flat,
    Natural,
    Sharp,
    DoubleSharp,
}

impl Accidental {
    ghost use Rattle.tokens.specs.Rhythm.{alter_of};

    /// Its alteration, -2 to 2.
    pub fn alter(self) -> i8
        ensures { result ≡ alter_of self }
    {
        match self {
            Accidental::DoubleFlat => -2,
            Accidental::Flat => -1,
            Accidental::Natural => 0,
            Accidental::Sharp => 1,
            Accidental::DoubleSharp => 2,
        }
    }

    /// A run of `x`.
    pub fn sharpened(size: usize) -> Accidental
        ensures { alter_of result ≡ sharpened size }
    {
        match size {
            1 => Accidental::Sharp,
            _ => Accidental::DoubleSharp,
        }
    }

    /// A run of `b`.
    pub fn flattened(size: usize) -> Accidental
        ensures { alter_of result ≡ flattened size }
    {
        match size {
            1 => Accidental::Flat,
            _ => Accidental::DoubleFlat,
        }
    }
}

/// An edge of a bar.
#[derive(Clone, Copy, Debug, PartialEq, Eq)]
pub enum Edge {
    Plain,
    Double,
    RepeatStart,
    RepeatEnd,
}

impl From<Edge> for i32 {
    ghost use Rattle.tokens.specs.Words.{WritesBy};
    ghost use Rattle.tokens.specs.Steps.{edge_number};

    ghost from_gives = { WritesBy edge_number };

    fn from(edge: Edge) -> i32 {
        edge as i32
    }
}

impl TryFrom<i32> for Edge {
    ghost use Rattle.tokens.specs.Words.{ReadsBy};
    ghost use Rattle.tokens.specs.Steps.{edge_number};

    type Error = UnknownWord;

    ghost try_from_gives = { ReadsBy edge_number };

    fn try_from(word: i32) -> Result<Edge, UnknownWord> {
        match word {
            0 => Ok(Edge::Plain),
            1 => Ok(Edge::Double),
            2 => Ok(Edge::RepeatStart),
            3 => Ok(Edge::RepeatEnd),
            _ => Err(UnknownWord(word)),
        }
    }
}

/// A barline's right and left: how the bar before it ends, and how the one behind it begins.
#[derive(Clone, Copy, Debug, PartialEq, Eq)]
pub struct Barline {
    pub right: Edge,
    pub left: Edge,
}

impl Barline {
    ghost use Rattle.tokens.specs.Rhythm.{barline_in};

    /// `/`
    pub const PLAIN: Barline = Barline {
        right: Edge::Plain,
        left: Edge::Plain,
    };

    /// `/`, `//` and `//:`, by their sizes.
    pub fn slashes(size: usize) -> Barline
        ensures { barline_in result ≡ slashes size }
    {
        let (right, left) = match size {
            1 => (Edge::Plain, Edge::Plain),
            2 => (Edge::Double, Edge::Plain),
            _ => (Edge::Plain, Edge::RepeatStart),
        };
        Barline { right, left }
    }

    /// `://` and `://:`, by their sizes; a lone `:` is none.
    pub fn colons(size: usize) -> Option<Barline>
        ensures { MatchOption result (size ≡ 1) (λ b. barline_in b ≡ colons size) }
    {
        let left = match size {
            1 => return None,
            3 => Edge::Plain,
            _ => Edge::RepeatStart,
        };
        Some(Barline {
            right: Edge::RepeatEnd,
            left,
        })
    }
}

/// A tuplet's normal count: the largest power of two not above `actual` less one.
pub fn normal_of(actual: u8) -> u8
    requires { 3 ≤ actual }
    ensures { result ≡ normal_of actual }
{
    1 << (7 - u8::leading_zeros(actual - 1))
}

/// A duration.
#[derive(Clone, Copy, Debug, PartialEq, Eq)]
pub enum Duration {
    Longa,
    Breve,
    Whole,
    Half,
    Quarter,
    Eighth,
    Sixteenth,
    ThirtySecond,
    SixtyFourth,
    HundredTwentyEighth,
}

impl Duration {
    ghost use Rattle.tokens.specs.Steps.{duration_number, number_in};

    /// The duration of a byte, if it is a digit.
    #[tactic(auto, using(crate::proofs::PatternLaws::no_duration))]
    pub fn of_byte(byte: u8) -> Option<Duration>
        ensures { MatchOption result (duration_of byte ≡ 10)
            (λ d. duration_number d ≡ duration_of byte) }
    {
        if byte.is_ascii_digit() {
            Some(Duration::of_digit(byte))
        } else {
            None
        }
    }

    /// The first length of a text of any bytes, and what stands behind it: its duration, if its byte
    /// is a digit, and its dots. Dots before it say nothing; a text of dots alone has no length.
    // Digit tokens have a `Pattern`; this stands beside it for what is never cut.
    #[tactic(auto, using(crate::proofs::PatternLaws::no_length))]
    pub fn split_length(text: &[u8]) -> Option<(Option<Duration>, u8, &[u8])>
        ensures { MatchOption result (pattern_of text.entry.now ≡ [])
            (λ l. pattern_of text.entry.now
            ≡ record { duration = number_in l.0; dots = l.1 } ∷ pattern_of l.2.now) }
    {
        let Some((byte, rest)) = behind_dots(text).split_first() else {
            return None;
        };
        let behind = behind_dots(rest);
        let dots = rest.len() - behind.len();
        let most = dots.min(Length::MAX_DOTS) as u8;
        Some((Duration::of_byte(*byte), most, behind))
    }

    /// The duration of a digit.
    pub fn of_digit(digit: u8) -> Duration
        requires { IsTrue (is_digit digit) }
        ensures { duration_number result ≡ duration_of digit }
    {
        match digit {
            b'0' => Duration::Longa,
            b'9' => Duration::Breve,
            b'1' => Duration::Whole,
            b'2' => Duration::Half,
            b'4' => Duration::Quarter,
            b'8' => Duration::Eighth,
            b'6' => Duration::Sixteenth,
            b'3' => Duration::ThirtySecond,
            b'5' => Duration::SixtyFourth,
            _ => Duration::HundredTwentyEighth,
        }
    }
}

impl From<Duration> for i32 {
    ghost use Rattle.tokens.specs.Words.{WritesBy};
    ghost use Rattle.tokens.specs.Steps.{duration_number};

    ghost from_gives = { WritesBy duration_number };

    fn from(duration: Duration) -> i32 {
        duration as i32
    }
}

impl TryFrom<i32> for Duration {
    ghost use Rattle.tokens.specs.Words.{ReadsBy};
    ghost use Rattle.tokens.specs.Steps.{duration_number};

    type Error = UnknownWord;

    ghost try_from_gives = { ReadsBy duration_number };

    fn try_from(word: i32) -> Result<Duration, UnknownWord> {
        match word {
            0 => Ok(Duration::Longa),
            1 => Ok(Duration::Breve),
            2 => Ok(Duration::Whole),
            3 => Ok(Duration::Half),
            4 => Ok(Duration::Quarter),
            5 => Ok(Duration::Eighth),
            6 => Ok(Duration::Sixteenth),
            7 => Ok(Duration::ThirtySecond),
            8 => Ok(Duration::SixtyFourth),
            9 => Ok(Duration::HundredTwentyEighth),
            _ => Err(UnknownWord(word)),
        }
    }
}

/// A length: a duration and its dots, 3 at most.
#[derive(Clone, Copy, Debug, PartialEq, Eq)]
pub struct Length {
    pub duration: Duration,
    pub dots: u8,
    ghost few: { dots ≤ 3 },
}

impl Length {
    /// A length has at most so many dots.
    pub const MAX_DOTS: usize = 3;

    /// A quarter.
    pub const QUARTER: Length = Length {
        duration: Duration::Quarter,
        dots: 0,
    };

    /// An eighth.
    pub const EIGHTH: Length = Length {
        duration: Duration::Eighth,
        dots: 0,
    };
}

// What stands behind the dots at the start of a text.
#[tactic(auto, using(scan::proofs::Trims::part_to_end))]
fn behind_dots(text: &[u8]) -> &[u8]
    ensures behind { result.now ≡ drop (dots_at text.now) text.now }
    ensures size { length result.now + dots_at text.now ≡ length text.now }
{
    &text[Class::Is(b'.').run(text)..]
}

/// So many dots at the end of a digit token are cut at once.
const DOTS: usize = 96;

// Digits and dots without whole chunks of dots at their end.
fn fewer_dots(rest: &[u8]) -> &[u8]
    requires { IsTrue (every is_duration rest.now) }
    ensures whole { IsTrue (every is_duration result.now) }
    ensures dots { capped (dots_at result.now) ≡ capped (dots_at rest.entry.now) }
    ensures lengths { pattern_of result.now ≡ pattern_of rest.entry.now }
{
    let mut fewer = rest;
    while DOTS <= fewer.len() && Class::Is(b'.').run(&fewer[fewer.len() - DOTS..]) == DOTS {
        fewer = &fewer[..fewer.len() - (DOTS - Length::MAX_DOTS)];
    }
    fewer
}

// Digits and dots with three dots at most at their end. It stands apart: few tokens end in more, and
// the others are the quicker for it.
#[inline(never)]
fn three_dots(rest: &[u8]) -> &[u8]
    requires { IsTrue (every is_duration rest.now) }
    ensures whole { IsTrue (every is_duration result.now) }
    ensures dots { capped (dots_at result.now) ≡ capped (dots_at rest.entry.now) }
    ensures lengths { pattern_of result.now ≡ pattern_of rest.entry.now }
{
    let mut few = fewer_dots(rest);
    // By what is left: std takes a suffix from a slice only once.
    while few.ends_with(b"....") {
        few = &few[..few.len() - 1];
    }
    few
}

// Digits and dots without the dots at their end that say nothing: three count, and each turn of a
// long pattern would pass them all.
fn few_dots(rest: &[u8]) -> &[u8]
    requires { IsTrue (every is_duration rest.now) }
    ensures whole { IsTrue (every is_duration result.now) }
    ensures dots { capped (dots_at result.now) ≡ capped (dots_at rest.entry.now) }
    ensures lengths { pattern_of result.now ≡ pattern_of rest.entry.now }
{
    if rest.ends_with(b"....") {
        three_dots(rest)
    } else {
        rest
    }
}

/// The lengths of a digit token, one at least: its first digit's duration, and the digits and dots
/// behind it.
#[derive(Clone, Copy)]
pub struct Pattern<'d> {
    first: Duration,
    rest: &'d [u8],
    ghost whole: { IsTrue (every is_duration rest.now) },
}

impl<'d> Pattern<'d> {
    ghost use Rattle.tokens.specs.Rhythm.{lengths_of, length_in, lengths_in, first_of, rest_of};

    /// Before any digit token: a quarter.
    pub fn new() -> Pattern<'d>
        ensures { lengths_of result ≡ quarter ∷ [] }
    {
        Pattern {
            first: Duration::Quarter,
            rest: &[],
        }
    }

    /// The pattern of a digit token.
    pub fn of_token(digit: u8, rest: &'d [u8]) -> Pattern<'d>
        requires digit { IsTrue (is_digit digit) }
        requires whole { IsTrue (every is_duration rest.now) }
        ensures { lengths_of result ≡ pattern_of (digit ∷ rest.entry.now) }
    {
        Pattern {
            first: Duration::of_digit(digit),
            rest: few_dots(rest),
        }
    }

    /// Its first length.
    pub fn length(self) -> Length
        ensures { length_in result ≡ first_of self.entry }
    {
        let most = self.rest.len().min(Length::MAX_DOTS);
        Length {
            duration: self.first,
            dots: Class::Is(b'.').run(&self.rest[..most]) as u8,
        }
    }

    // What stands behind its first length.
    fn behind(self) -> Rest<'d>
        ensures { lengths_in result ≡ rest_of self.entry }
    {
        let dots = Class::Is(b'.').run(self.rest);
        Rest {
            bytes: &self.rest[dots..],
        }
    }

    /// The lengths behind the first one, if there are any.
    pub fn tail(self) -> Option<Pattern<'d>>
        ensures { MatchOption result (rest_of self.entry ≡ [])
            (λ p. lengths_of p ≡ rest_of self.entry) }
    {
        self.behind().pattern()
    }
}

/// What stands behind a length of a digit token, from the next digit on, or nothing.
#[derive(Clone, Copy)]
struct Rest<'d> {
    bytes: &'d [u8],
    ghost whole: { IsTrue (is_rest bytes.now) },
}

impl<'d> Rest<'d> {
    ghost use Rattle.tokens.specs.Rhythm.{lengths_of, lengths_in};

    // Its lengths, if there are any.
    #[tactic(auto, using(crate::proofs::PatternLaws::pattern_nil))]
    fn pattern(self) -> Option<Pattern<'d>>
        ensures { MatchOption result (lengths_in self.entry ≡ [])
            (λ p. lengths_of p ≡ lengths_in self.entry) }
    {
        let Some((digit, rest)) = self.bytes.split_first() else {
            return None;
        };
        Some(Pattern::of_token(*digit, rest))
    }
}

/// So many lengths of a pattern are kept, so that their dots are counted once.
const KEPT: usize = 256;

/// How many lengths are kept, and what stands behind them.
// The lengths are lent beside it: a cycle that begins anew writes them where they stand.
#[derive(Clone, Copy)]
struct Kept<'d> {
    count: usize,
    rest: Rest<'d>,
    ghost some: { 0 < count },
    ghost within: { count ≤ 256 },
}

impl<'d> Kept<'d> {
    ghost use Rattle.tokens.specs.Rhythm.{lengths_of, lengths_with};

    /// Keeps the first lengths of a pattern.
    #[inline(always)]
    fn of(pattern: Pattern<'d>, lengths: &mut [Length; KEPT]) -> Kept<'d>
        ensures { lengths_with (take result.count lengths.new) result.rest
            ≡ lengths_of pattern.entry }
    {
        // Most digit tokens are one digit.
        if pattern.rest.is_empty() {
            lengths[0] = Length {
                duration: pattern.first,
                dots: 0,
            };
            return Kept {
                count: 1,
                rest: Rest { bytes: &[] },
            };
        }
        Kept::of_more(pattern, lengths)
    }

    /// The same of any pattern. It stands apart, so that `of` is short where it is called.
    #[inline(never)]
    fn of_more(pattern: Pattern<'d>, lengths: &mut [Length; KEPT]) -> Kept<'d>
        ensures { lengths_with (take result.count lengths.new) result.rest
            ≡ lengths_of pattern.entry }
    {
        lengths[0] = pattern.length();
        let mut rest = pattern.behind();
        // By number: where the pattern ends, it is how many are kept.
        for count in 1..KEPT {
            let Some(next) = rest.pattern() else {
                return Kept { count, rest };
            };
            lengths[count] = next.length();
            rest = next.behind();
        }
        Kept { count: KEPT, rest }
    }
}

/// The lengths that notes take in turn: behind the last one a pattern begins anew. The next one is
/// a kept one, else it stands in the text.
// An array and a count, no `ArrayVec` of the kit: that is not `Copy`, which this and the reading's
// state are.
#[derive(Clone, Copy)]
pub struct Cycle<'d> {
    lengths: [Length; KEPT],
    kept: Kept<'d>,
    index: usize,
    next: Rest<'d>,
}

impl<'d> Cycle<'d> {
    ghost use Rattle.tokens.specs.Rhythm.{lengths_of, length_in, next_length};
    ghost use Rattle.tokens.specs.Rhythm.{all_lengths, lengths_left, lengths_after};

    /// From a pattern's first length on.
    #[tactic(auto, using(crate::proofs::CycleLaws::anew_all))]
    pub fn new(pattern: Pattern<'d>) -> Cycle<'d>
        ensures all { all_lengths result ≡ lengths_of pattern.entry }
        ensures left { lengths_left result ≡ lengths_of pattern.entry }
    {
        let mut lengths = [Length::QUARTER; KEPT];
        let kept = Kept::of(pattern, &mut lengths);
        Cycle {
            lengths,
            kept,
            index: 0,
            next: kept.rest,
        }
    }

    /// Goes on with another pattern, from its first length on.
    #[tactic(auto, using(crate::proofs::CycleLaws::anew_all))]
    pub fn begin(&mut self, pattern: Pattern<'d>)
        ensures all { all_lengths self.new ≡ lengths_of pattern.entry }
        ensures left { lengths_left self.new ≡ lengths_of pattern.entry }
    {
        let kept = Kept::of(pattern, &mut self.lengths);
        self.kept = kept;
        self.index = 0;
        self.next = kept.rest;
    }

    /// The next length, which is not taken.
    pub fn peek(&self) -> Length
        ensures { length_in result ≡ next_length (lengths_left self.now) }
    {
        if self.index < self.kept.count {
            return self.lengths[self.index];
        }
        match self.next.pattern() {
            Some(next) => next.length(),
            None => self.lengths[0],
        }
    }

    /// The next length.
    #[inline(always)]
    pub fn take(&mut self) -> Length
        ensures taken { length_in result ≡ next_length (lengths_left self.old) }
        ensures all { all_lengths self.new ≡ all_lengths self.old }
        ensures left { lengths_left self.new
            ≡ lengths_after (all_lengths self.old) (lengths_left self.old) }
    {
        if self.index < self.kept.count {
            let length = self.lengths[self.index];
            self.index += 1;
            return length;
        }
        self.take_behind()
    }

    /// The next length where it is none of those kept. It stands apart: few patterns are so long.
    #[inline(never)]
    fn take_behind(&mut self) -> Length
        requires { self.old.kept.count ≤ self.old.index }
        ensures taken { length_in result ≡ next_length (lengths_left self.old) }
        ensures all { all_lengths self.new ≡ all_lengths self.old }
        ensures left { lengths_left self.new
            ≡ lengths_after (all_lengths self.old) (lengths_left self.old) }
    {
        let length = self.peek();
        match self.next.pattern() {
            Some(next) => self.next = next.behind(),
            None => {
                self.index = 1;
                self.next = self.kept.rest;
            }
        }
        length
    }
}
