// Numbers: digits up to a limit.
ghost use Rattle.std.specs.Prelude.{◌≡◌, ◌≤◌, IfSome};
ghost use Rattle.rules.specs.Limits.{whole_bar_limit};
ghost use Rattle.rules.specs.Values.{number_to, count_of, whole_bars_of};
ghost use Rattle.tokens.specs.Numbers.{number_in};

/// A word that stands for no value of its kind.
#[derive(Clone, Copy, Debug, PartialEq, Eq)]
pub struct UnknownWord(pub i32);

/// The greatest count of `;` and in a meter.
pub const MAX_COUNT: u16 = 255;

/// The greatest count of `=`.
pub const MAX_WHOLE_BARS: u16 = 1000;

/// The number that one or more digits make, up to a limit.
#[tactic(auto, using(crate::proofs::NumberLaws::number_laws))]
fn number_to(limit: u16, digits: &[u8]) -> Option<u16>
    requires { limit ≤ whole_bar_limit }
    ensures number { number_in result ≡ number_to limit digits.now }
    ensures within { IfSome result (λ n. n ≤ limit) }
{
    if digits.is_empty() {
        return None;
    }
    let mut number = 0;
    // Digit by digit: std's `parse` takes a `+` too, and has no limit but its type's.
    for digit in digits {
        if !digit.is_ascii_digit() {
            return None;
        }
        number = number * 10 + u16::from(*digit - b'0');
        if limit < number {
            return None;
        }
    }
    Some(number)
}

/// The number that one or more digits make, 0 to 255.
#[tactic(auto, unfolding(rules::specs::Values::count_of))]
pub fn count_of(digits: &[u8]) -> Option<u8>
    ensures { number_in result ≡ count_of digits.now }
{
    let number = number_to(MAX_COUNT, digits)?;
    Some(number as u8)
}

/// The count of an `=` with these digits, 1 to 1,000; no digits mean 1.
#[tactic(auto, using(crate::proofs::NumberLaws::bar_laws))]
pub fn whole_bars_of(digits: &[u8]) -> Option<u16>
    ensures number { number_in result ≡ whole_bars_of digits.now }
    ensures some { IfSome result (λ n. 1 ≤ n) }
    ensures within { IfSome result (λ n. n ≤ whole_bar_limit) }
{
    if digits.is_empty() {
        return Some(1);
    }
    match number_to(MAX_WHOLE_BARS, digits) {
        Some(0) => None,
        number => number,
    }
}
