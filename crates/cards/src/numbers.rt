// Numbers of words.
ghost use Rattle.std.specs.Prelude.{◌≡◌, ◌≤◌, cond, false, pos, leb, MatchResult};
ghost use Rattle.cards.specs.Fields.{stands};
ghost use Rattle.cards.specs.Judged.{natural, raised};

use super::error::CardError;

/// A word as a number; one below 0 is above every range.
pub fn natural(word: i32) -> u32
    ensures { result ≡ natural word }
{
    u32::try_from(word).unwrap_or(u32::MAX)
}

/// The bit of a field, 0 where the field is 0.
pub fn bit(field: u8) -> u8
    ensures { result ≡ cond (stands field) 1 0 }
{
    u8::from(field != 0)
}

/// A number from 0 to `most`.
pub fn up_to(number: i32, most: u8) -> Result<u8, CardError>
    ensures { MatchResult result (λ n. (pos n ≡ number) × (n ≤ most))
        (λ _. leb (natural number) most ≡ false) }
{
    match u8::try_from(number) {
        Ok(number) if number <= most => Ok(number),
        _ => Err(CardError::Invalid),
    }
}

/// A number plus `k`, if that is from 0 to `most`.
// By tests: `checked_add` and `u8::try_from` would be two more refusals for the same.
pub fn raised(number: i32, k: u8, most: u8) -> Result<u8, CardError>
    requires { k ≤ most }
    ensures { MatchResult result (λ n. (n ≡ raised k number) × (n ≤ most))
        (λ _. leb (raised k number) most ≡ false) }
{
    let most = i32::from(most) - i32::from(k);
    if number < -i32::from(k) {
        return Err(CardError::Invalid);
    }
    if most < number {
        return Err(CardError::Invalid);
    }
    Ok((number + i32::from(k)) as u8)
}
