// The head of a bar: its attributes.
ghost use Rattle.std.specs.Prelude.{◌≡◌, ◌≤◌, cond, true, false, leb, MatchResult};
ghost use Rattle.tokens.specs.Steps.{edge_number};
ghost use Rattle.cards.specs.Values.{symbol_value};

use super::error::CardError;
use super::numbers::{bit, raised, up_to};
use tokens::attributes::{Clef, Meter, Symbol, is_power_of_two};
use tokens::rhythm::Edge;

/// A bar's attributes; the key by its fifths plus 7.
#[derive(Clone, Copy, Debug, PartialEq, Eq)]
pub struct Head {
    pub clef: Option<Clef>,
    pub key: Option<u8>,
    pub meter: Option<Meter>,
    pub left: Edge,
    pub right: Edge,
}

/// A head's numbers, which may be in no range of its.
#[derive(Clone, Copy)]
pub struct HeadNumbers {
    pub clef: i32,
    pub fifths: Option<i32>,
    pub numerator: i32,
    pub denominator: i32,
    pub symbol: i32,
    pub left: i32,
    pub right: i32,
}

impl Head {
    ghost use Rattle.std.proofs.Math.Option.{get_or};
    ghost use Rattle.rules.specs.Records.{is_some};
    ghost use Rattle.cards.specs.Fields.{bit_map};
    ghost use Rattle.cards.specs.Judged.{natural};
    ghost use Rattle.cards.specs.Card.{such_head, head_bits};
    ghost use Rattle.cards.specs.Values.{such_meter, clef_value, key_value, key_numbered};
    ghost use Rattle.cards.specs.Values.{numerator_of, denominator_of, symbol_of};
    ghost use Rattle.cards.specs.Values.{card_head, head_numbered};
    ghost use Rattle.cards.specs.Places.{Judges};

    // Not marks' functions of these names, here and below: these refuse by error.

    // The clef of a number, none for 0.
    fn clef_of(number: i32) -> Result<Option<Clef>, CardError>
        ensures { MatchResult result (λ c. (clef_value c ≡ natural number) × (natural number ≤ 8))
            (λ _. leb (natural number) 8 ≡ false) }
    {
        if number == 0 {
            return Ok(None);
        }
        Ok(Some(Clef::try_from(number)?))
    }

    // The key of its fifths, if it is set.
    fn key_of(fifths: Option<i32>) -> Result<Option<u8>, CardError>
        ensures { MatchResult result
            (λ k. (key_value k ≡ key_numbered fifths) × (get_or (key_numbered fifths) 0 ≤ 14))
            (λ _. leb (get_or (key_numbered fifths) 0) 14 ≡ false) }
    {
        let Some(fifths) = fifths else {
            return Ok(None);
        };
        Ok(Some(raised(fifths, 7, 14)?))
    }

    // The symbol of a number, none for 0.
    fn symbol_of(number: i32) -> Result<Option<Symbol>, CardError>
        ensures { MatchResult result (λ s. (symbol_value s ≡ natural number) × (natural number ≤ 2))
            (λ _. leb (natural number) 2 ≡ false) }
    {
        if number == 0 {
            return Ok(None);
        }
        Ok(Some(Symbol::try_from(number)?))
    }

    // The meter of its numbers, none where all three are 0.
    fn meter_of(numerator: i32, denominator: i32, symbol: i32) -> Result<Option<Meter>, CardError>
        ensures { MatchResult result
            (λ m. (numerator_of m ≡ natural numerator) × (denominator_of m ≡ natural denominator)
            × (symbol_of m ≡ natural symbol)
            × (such_meter (natural numerator) (natural denominator) (natural symbol) ≡ true))
            (λ _. such_meter (natural numerator) (natural denominator) (natural symbol) ≡ false) }
    {
        if numerator == 0 {
            if denominator != 0 {
                return Err(CardError::Invalid);
            }
            if symbol != 0 {
                return Err(CardError::Invalid);
            }
            return Ok(None);
        }
        let numerator = up_to(numerator, u8::MAX)?;
        let denominator = up_to(denominator, u8::MAX)?;
        if !is_power_of_two(denominator) {
            return Err(CardError::Invalid);
        }
        let symbol = Head::symbol_of(symbol)?;
        Ok(Some(Meter {
            numerator,
            denominator,
            symbol,
        }))
    }

    /// The head of these numbers.
    pub fn new(numbers: HeadNumbers) -> Result<Head, CardError>
        ensures { Judges such_head card_head (head_numbered numbers) result }
    {
        let clef = Head::clef_of(numbers.clef)?;
        let key = Head::key_of(numbers.fifths)?;
        let meter = Head::meter_of(numbers.numerator, numbers.denominator, numbers.symbol)?;
        let left = Edge::try_from(numbers.left)?;
        let right = Edge::try_from(numbers.right)?;
        Ok(Head {
            clef,
            key,
            meter,
            left,
            right,
        })
    }

    /// Its bit map: clef, key, meter, left, right.
    // Nested, as its definition: a fold over the bits, from behind, is no plainer.
    pub fn map(self) -> u8
        ensures { result ≡ bit_map (head_bits (card_head self)) }
    {
        let (numerator, _, _) = self.meter_numbers();
        bit(self.clef_number())
            + 2 * (self.key_bit()
                + 2 * (bit(numerator)
                    + 2 * (bit(edge_number(self.left)) + 2 * bit(edge_number(self.right)))))
    }

    // 1 where the key is set.
    fn key_bit(self) -> u8
        ensures { result ≡ cond (is_some (key_value self.key)) 1 0 }
    {
        match self.key {
            Some(_) => 1,
            None => 0,
        }
    }

    /// The number of its clef, 0 for none.
    // A method, as the numbers below: `From<Clef> for u8` would stand in tokens.
    pub fn clef_number(self) -> u8
        ensures { result ≡ clef_value self.clef }
    {
        match self.clef {
            Some(clef) => clef as u8 + 1,
            None => 0,
        }
    }

    /// The numbers of its meter, 0, 0, 0 for none.
    pub fn meter_numbers(self) -> (u8, u8, u8)
        ensures numerator { result.0 ≡ numerator_of self.meter }
        ensures denominator { result.1 ≡ denominator_of self.meter }
        ensures symbol { result.2 ≡ symbol_of self.meter }
    {
        match self.meter {
            Some(meter) => (
                meter.numerator,
                meter.denominator,
                symbol_number(meter.symbol),
            ),
            None => (0, 0, 0),
        }
    }
}

// Functions, here and below: `From<Symbol> for u8` would stand in tokens, and only a card has it
// as a byte.

/// The number of a symbol, 0 for none.
fn symbol_number(symbol: Option<Symbol>) -> u8
    ensures { result ≡ symbol_value symbol }
{
    match symbol {
        Some(symbol) => symbol as u8 + 1,
        None => 0,
    }
}

/// The number of an edge.
pub fn edge_number(edge: Edge) -> u8
    ensures { result ≡ edge_number edge }
{
    edge as u8
}
