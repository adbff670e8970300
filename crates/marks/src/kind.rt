// What the look-backs ask of a token.
ghost use Rattle.std.specs.Prelude.{◌≡◌};
ghost use Rattle.tokens.specs.Kinds.{token_in};
ghost use Rattle.marks.specs.Short.{kind_in, short};

use tokens::kinds::{Figure, Grace, Marking, Token};
use tokens::rhythm::{Accidental, Octave, Step};

/// What a token is, in the order of the published code, without what is long: of a clef, a key, a
/// meter, a pattern and a barline no more than that.
#[derive(Clone, Copy)]
pub enum Kind {
    Clef,
    Key,
    Meter,
    Octave(Option<Octave>),
    Duration,
    Accidental(Accidental),
    Letter(Step),
    Chord,
    Rest,
    WholeBars(Option<u16>),
    Barline,
    Grace(Grace),
    /// Whether it begins, `qq`, or ends, `r`.
    GraceGroup(bool),
    Figure(Figure),
    Marking(Marking),
    Blank,
    Colon,
    Unknown,
}

impl Kind {
    /// The kind of a token.
    pub fn new(token: Token<'_>) -> Kind
        ensures { kind_in result ≡ short (token_in token.entry) }
    {
        match token {
            Token::Clef(_) => Kind::Clef,
            Token::Key(_) => Kind::Key,
            Token::Meter(_) => Kind::Meter,
            Token::Octave(octave) => Kind::Octave(octave),
            Token::Duration(_) => Kind::Duration,
            Token::Accidental(accidental) => Kind::Accidental(accidental),
            Token::Letter(step) => Kind::Letter(step),
            Token::Chord => Kind::Chord,
            Token::Rest => Kind::Rest,
            Token::WholeBars(count) => Kind::WholeBars(count),
            Token::Barline(_) => Kind::Barline,
            Token::Grace(grace) => Kind::Grace(grace),
            Token::GraceGroup(begins) => Kind::GraceGroup(begins),
            Token::Figure(figure) => Kind::Figure(figure),
            Token::Marking(marking) => Kind::Marking(marking),
            Token::Blank => Kind::Blank,
            Token::Colon => Kind::Colon,
            Token::Unknown => Kind::Unknown,
        }
    }
}
