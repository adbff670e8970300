// What the values of clefs, keys and meters say.
ghost use Rattle.std.specs.Prelude.{◌≡◌, not, ◌&&◌, [], ◌∷◌, length, eqb};
ghost use Rattle.std.proofs.Math.Option.{none};
ghost use Rattle.rules.specs.Text.{begins, has};
ghost use Rattle.rules.specs.Values.{clef_named, is_mensural, clef_of, is_power_of_two};
ghost use Rattle.rules.specs.Values.{alters_from, no_alters, letters_from, all_expected};
ghost use Rattle.rules.specs.Values.{key_with, key_of};
ghost use Rattle.rules.specs.Values.{sign_after, is_named, is_expected, named};
ghost use Rattle.rules.specs.Values.{after_plus, count_of, plain_meter, meter_of};
ghost use Rattle.tokens.specs.Numbers.{number_in};
ghost use Rattle.tokens.specs.Signs.{sign_in};

use crate::numbers::{UnknownWord, count_of};
use crate::rhythm::Step;
use scan::characters::{character_size, count_characters};
use scan::classes::{Class, is_note_letter, is_text};

/// A clef.
#[derive(Clone, Copy, Debug, PartialEq, Eq)]
pub enum Clef {
    Treble,
    Treble8vb,
    Bass,
    Soprano,
    MezzoSoprano,
    Alto,
    Tenor,
    Baritone,
}

impl Clef {
    ghost use Rattle.tokens.specs.Attributes.{clef_in};

    /// The clef of a shape on a line.
    pub(crate) fn named(shape: u8, line: u8) -> Option<Clef>
        ensures { clef_in result ≡ clef_named (shape ∷ 45 ∷ line ∷ []) }
    {
        match (shape, line) {
            (b'G', b'2') => Some(Clef::Treble),
            (b'g', b'2') => Some(Clef::Treble8vb),
            (b'F', b'4') => Some(Clef::Bass),
            (b'C', b'1') => Some(Clef::Soprano),
            (b'C', b'2') => Some(Clef::MezzoSoprano),
            (b'C', b'3') => Some(Clef::Alto),
            (b'C', b'4') => Some(Clef::Tenor),
            (b'C', b'5') => Some(Clef::Baritone),
            _ => None,
        }
    }
}

// An impl for each type here and below: what a macro or a derive writes has no `from_gives`, and
// callers would not learn the numbers.
impl From<Clef> for i32 {
    ghost use Rattle.tokens.specs.Words.{WritesBy};
    ghost use Rattle.tokens.specs.Clefs.{clef_number};

    ghost from_gives = { WritesBy clef_number };

    fn from(clef: Clef) -> i32 {
        clef as i32 + 1
    }
}

impl TryFrom<i32> for Clef {
    ghost use Rattle.tokens.specs.Words.{ReadsBy};
    ghost use Rattle.tokens.specs.Clefs.{clef_number};

    type Error = UnknownWord;

    ghost try_from_gives = { ReadsBy clef_number };

    fn try_from(word: i32) -> Result<Clef, UnknownWord> {
        match word {
            1 => Ok(Clef::Treble),
            2 => Ok(Clef::Treble8vb),
            3 => Ok(Clef::Bass),
            4 => Ok(Clef::Soprano),
            5 => Ok(Clef::MezzoSoprano),
            6 => Ok(Clef::Alto),
            7 => Ok(Clef::Tenor),
            8 => Ok(Clef::Baritone),
            _ => Err(UnknownWord(word)),
        }
    }
}

/// What a clef's value says: its clef, if it names one, and whether a `+` makes it mensural.
#[derive(Clone, Copy, Debug, PartialEq, Eq)]
pub struct ClefValue {
    pub clef: Option<Clef>,
    pub mensural: bool,
}

/// Whether the value is three characters with `+` in the middle.
#[tactic(auto, using(crate::proofs::ClefLaws::mensural_laws))]
fn is_mensural(value: &[u8]) -> bool
    ensures { result ≡ is_mensural value.now }
{
    let [first, rest @ ..] = value else {
        return false;
    };
    let middle = character_size(*first, rest);
    middle < value.len() && value[middle] == b'+' && count_characters(value) == 3
}

impl ClefValue {
    ghost use Rattle.tokens.specs.Attributes.{clef_value};

    /// What a clef's value says.
    #[tactic(auto, using(crate::proofs::ClefLaws::clef_laws))]
    pub fn new(value: &[u8]) -> ClefValue
        ensures { clef_value result ≡ clef_of value.now }
    {
        let mensural = is_mensural(value);
        let clef = match value {
            [shape, middle, line] if mensural || *middle == b'-' => Clef::named(*shape, *line),
            _ => None,
        };
        ClefValue { clef, mensural }
    }
}

/// A sign before the letters of a key.
#[derive(Clone, Copy, Debug, PartialEq, Eq)]
pub enum Sign {
    Sharp,
    Flat,
}

impl Sign {
    ghost use Rattle.tokens.specs.Signs.{sign_number};

    /// Its alteration.
    fn alter(self) -> i8
        ensures { result ≡ sign_number self }
    {
        match self {
            Sign::Sharp => 1,
            Sign::Flat => -1,
        }
    }

    // Of an `Option` of a sign, here and below, so no methods of one.

    /// The nearest sign before the next byte.
    fn after(sign: Option<Sign>, byte: u8) -> Option<Sign>
        ensures { sign_in result ≡ sign_after (sign_in sign) byte }
    {
        match byte {
            b'x' => Some(Sign::Sharp),
            b'b' => Some(Sign::Flat),
            _ => sign,
        }
    }

    /// Whether a byte is a letter after a sign.
    fn names(sign: Option<Sign>, byte: u8) -> bool
        ensures { result ≡ is_named (sign_in sign) byte }
    {
        match sign {
            Some(_) => is_note_letter(byte),
            None => false,
        }
    }

    /// Whether a byte is expected after a sign: a sign, a space, or a letter.
    fn expects(sign: Option<Sign>, byte: u8) -> bool
        ensures { result ≡ is_expected (sign_in sign) byte }
    {
        matches!(byte, b'x' | b'b' | b' ') || Sign::names(sign, byte)
    }
}

/// What a key's value says: an alteration for each step from C, the fifths, and whether it is
/// standard.
#[derive(Clone, Copy, Debug, PartialEq, Eq)]
pub struct Key {
    pub alters: [i8; 7],
    pub fifths: i8,
    pub standard: bool,
}

/// A named letter's alteration.
fn name(alters: &mut [i8; 7], sign: Option<Sign>, byte: u8)
    ensures { alters.new ≡ named alters.old (sign_in sign) byte }
{
    if let Some(sign) = sign
        && is_note_letter(byte)
    {
        alters[Step::of_letter(byte) as usize] = sign.alter();
    }
}

// Here and below a loop carries the sign: an iterator of signs and bytes would be longer than the
// three lines that it takes, and need laws of its own.
fn alters_of(value: &[u8]) -> [i8; 7]
    ensures { result ≡ alters_from no_alters none value.now }
{
    let mut alters = [0; 7];
    let mut sign = None;
    for byte in value {
        name(&mut alters, sign, *byte);
        sign = Sign::after(sign, *byte);
    }
    alters
}

#[tactic(auto, using(crate::proofs::KeyLaws::expected_laws))]
fn all_expected(value: &[u8]) -> bool
    ensures { result ≡ all_expected none value.now }
{
    let mut sign = None;
    for byte in value {
        if !Sign::expects(sign, *byte) {
            return false;
        }
        sign = Sign::after(sign, *byte);
    }
    true
}

/// How many letters a value names.
#[tactic(auto, using(crate::proofs::KeyLaws::letter_laws))]
fn count_letters(value: &[u8]) -> usize
    ensures { result ≡ length (letters_from none value.now) }
{
    let mut sign = None;
    let mut count = 0;
    for byte in value {
        if Sign::names(sign, *byte) {
            count += 1;
        }
        sign = Sign::after(sign, *byte);
    }
    count
}

/// Whether the named letters are a beginning of an order.
#[tactic(auto, using(crate::proofs::KeyLaws::order_laws))]
fn in_order(value: &[u8], order: &[u8]) -> bool
    ensures { result ≡ begins (letters_from none value.now) order.now }
{
    let mut sign = None;
    let mut left = order;
    for byte in value {
        if Sign::names(sign, *byte) {
            match left {
                [next, rest @ ..] if *next == *byte => left = rest,
                _ => return false,
            }
        }
        sign = Sign::after(sign, *byte);
    }
    true
}

/// The same, with no sign of the other kind in the value.
#[tactic(auto, using(crate::proofs::KeyLaws::run_all))]
fn is_pure(value: &[u8], order: &[u8], other: u8) -> bool
    ensures { result ≡ (begins (letters_from none value.now) order.now
        && not (has (λ b. eqb b other) value.now)) }
{
    in_order(value, order) && Class::Not(other).run(value) == value.len()
}

impl Key {
    ghost use Rattle.tokens.specs.Attributes.{key_value};

    /// The letters of sharps in a key's order.
    pub const SHARPS: [u8; 7] = *b"FCGDAEB";

    /// The letters of flats in a key's order.
    pub const FLATS: [u8; 7] = *b"BEADGCF";

    /// The alterations of a value, with these fifths.
    fn with(value: &[u8], fifths: i8, standard: bool) -> Key
        ensures { key_value result ≡ key_with value.now fifths standard }
    {
        Key {
            alters: alters_of(value),
            fifths,
            standard,
        }
    }

    /// What a key's value says.
    #[tactic(auto, using(crate::proofs::KeyLaws::key_laws))]
    pub fn new(value: &[u8]) -> Key
        ensures { key_value result ≡ key_of value.now }
    {
        let standard = all_expected(value);
        let count = count_letters(value);
        if count == 0 {
            Key::with(value, 0, standard)
        } else if is_pure(value, &Key::SHARPS, b'b') {
            Key::with(value, count as i8, standard)
        } else if is_pure(value, &Key::FLATS, b'x') {
            Key::with(value, -(count as i8), standard)
        } else {
            Key::with(value, 0, false)
        }
    }
}

/// The symbol of a meter.
#[derive(Clone, Copy, Debug, PartialEq, Eq)]
pub enum Symbol {
    Common,
    Cut,
}

impl From<Symbol> for i32 {
    ghost use Rattle.tokens.specs.Words.{WritesBy};
    ghost use Rattle.tokens.specs.Clefs.{symbol_word};

    ghost from_gives = { WritesBy symbol_word };

    fn from(symbol: Symbol) -> i32 {
        symbol as i32 + 1
    }
}

impl TryFrom<i32> for Symbol {
    ghost use Rattle.tokens.specs.Words.{ReadsBy};
    ghost use Rattle.tokens.specs.Clefs.{symbol_word};

    type Error = UnknownWord;

    ghost try_from_gives = { ReadsBy symbol_word };

    fn try_from(word: i32) -> Result<Symbol, UnknownWord> {
        match word {
            1 => Ok(Symbol::Common),
            2 => Ok(Symbol::Cut),
            _ => Err(UnknownWord(word)),
        }
    }
}

/// A meter.
#[derive(Clone, Copy, Debug, PartialEq, Eq)]
pub struct Meter {
    pub numerator: u8,
    pub denominator: u8,
    pub symbol: Option<Symbol>,
}

/// Whether it is a power of two from 1 to 128.
#[tactic(auto, using(crate::proofs::MeterLaws::ones_power))]
pub fn is_power_of_two(n: u8) -> bool
    ensures { result ≡ is_power_of_two n }
{
    u8::count_ones(n) == 1
}

/// The number of digits after an optional `+`.
fn number_of(value: &[u8]) -> Option<u8>
    ensures { number_in result ≡ count_of (after_plus value.now) }
{
    match value {
        [b'+', digits @ ..] => count_of(digits),
        digits => count_of(digits),
    }
}

impl Meter {
    ghost use Rattle.tokens.specs.Attributes.{meter_in};

    /// A meter with no symbol.
    pub(crate) fn plain(numerator: Option<u8>, denominator: Option<u8>) -> Option<Meter>
        ensures { meter_in result ≡ plain_meter (number_in numerator) (number_in denominator) }
    {
        let (Some(numerator), Some(denominator)) = (numerator, denominator) else {
            return None;
        };
        if numerator == 0 || !is_power_of_two(denominator) {
            return None;
        }
        Some(Meter {
            numerator,
            denominator,
            symbol: None,
        })
    }

    /// The meter of a value, if it is one.
    #[tactic(auto, using(crate::proofs::MeterLaws::meter_laws))]
    pub fn new(value: &[u8]) -> Option<Meter>
        ensures { meter_in result ≡ meter_of value.now }
    {
        if is_text(value, b"c") {
            return Some(Meter {
                numerator: 4,
                denominator: 4,
                symbol: Some(Symbol::Common),
            });
        }
        if is_text(value, b"c/") {
            return Some(Meter {
                numerator: 2,
                denominator: 2,
                symbol: Some(Symbol::Cut),
            });
        }
        let slash = Class::Not(b'/').run(value);
        if slash == value.len() {
            return None;
        }
        Meter::plain(number_of(&value[..slash]), number_of(&value[slash + 1..]))
    }
}
