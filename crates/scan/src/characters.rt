// Characters of a text in UTF-8. A text is a slice of its bytes: each part of it has an offset.
ghost use Rattle.std.specs.Prelude.{◌≡◌, ◌+◌, ◌<◌, ◌≤◌, ◌%◌, ◌∷◌, length};
ghost use Rattle.rules.specs.Characters.{is_formed, continues, character_size, characters_in};
ghost use Rattle.rules.specs.Characters.{code_point, within_one, white_space, is_blank, in_blank};
ghost use Rattle.rules.specs.Characters.{blanks_size, all_blank, non_blanks_size, trim_end};
ghost use Rattle.scan.specs.Low.{is_low_blank};

use crate::classes::Class;

/// Whether a text is well-formed UTF-8.
#[tactic(auto, using(crate::proofs::Formed::formed_if_text, crate::proofs::Formed::unformed_if_none))]
pub fn is_utf8(text: &[u8]) -> bool
    ensures { result ≡ is_formed text.now }
{
    match std::str::from_utf8(text) {
        Ok(_) => true,
        Err(_) => false,
    }
}

/// Whether a byte continues a character.
fn is_continuation(byte: u8) -> bool
    ensures { result ≡ continues byte }
{
    Class::Continuations.contains(byte)
}

/// How many characters these bytes are.
#[tactic(auto, unfolding(rules::specs::Characters::characters_in))]
pub fn count_characters(part: &[u8]) -> usize
    ensures count { result ≡ characters_in part.now }
    ensures within { result ≤ length part.now }
{
    let mut count = 0;
    // A loop: std's `filter` and `count` are not compiled to one over vectors.
    for byte in part {
        if !is_continuation(*byte) {
            count += 1;
        }
    }
    count
}

// A first byte and the rest, here and below: a slice that isn't empty, without a `requires`.

/// The size of the character that begins with a byte, and goes on in those behind it.
#[tactic(auto, unfolding(rules::specs::Characters::character_size))]
pub fn character_size(first: u8, rest: &[u8]) -> usize
    ensures size { result ≡ character_size (first ∷ rest.now) }
    ensures some { 0 < result }
    ensures within { result ≤ 1 + length rest.now }
{
    if first < 128 {
        1
    } else {
        1 + Class::Continuations.run(rest)
    }
}

/// The low six bits of a byte.
fn six_bits(byte: u8) -> u32
    ensures bits { result ≡ byte % 64 }
    ensures below { result < 64 }
{
    u32::from(byte % 64)
}

/// The code point of the character that begins with a byte.
#[tactic(auto, unfolding(rules::specs::Characters::code_point))]
fn code_point(first: u8, rest: &[u8]) -> u32
    ensures { result ≡ code_point (first ∷ rest.now) }
{
    let size = character_size(first, rest);
    let first = u32::from(first);
    match size {
        1 => first,
        2 => first % 32 * 64 + six_bits(rest[0]),
        3 => (first % 16 * 64 + six_bits(rest[0])) * 64 + six_bits(rest[1]),
        _ => {
            ((first % 8 * 64 + six_bits(rest[0])) * 64 + six_bits(rest[1])) * 64 + six_bits(rest[2])
        }
    }
}

/// Whether a code point is White_Space; a number that is none is not.
#[tactic(auto, using(crate::proofs::Blank::white_agrees, crate::proofs::Blank::white_scalar))]
fn is_white_space(code: u32) -> bool
    ensures { result ≡ within_one white_space code }
{
    match char::from_u32(code) {
        Some(character) => character.is_whitespace(),
        None => false,
    }
}

/// Whether a byte is a blank below 128.
pub fn is_low_blank(byte: u8) -> bool
    ensures { result ≡ is_low_blank byte }
{
    matches!(byte, 9..=13 | 32)
}

/// Whether the character that begins with a byte is blank.
#[tactic(auto, unfolding(rules::specs::Characters::is_blank), using(crate::proofs::Sizes::blank_low))]
pub fn is_blank(first: u8, rest: &[u8]) -> bool
    ensures { result ≡ is_blank (first ∷ rest.now) }
{
    if first < 128 {
        is_low_blank(first)
    } else {
        is_white_space(code_point(first, rest))
    }
}

/// Whether the first byte begins a blank, or continues the character before it.
fn in_blank(rest: &[u8]) -> bool
    ensures { result ≡ in_blank rest.now }
{
    match rest {
        [first, rest @ ..] => is_continuation(*first) || is_blank(*first, rest),
        [] => false,
    }
}

/// The size of the blanks at the start, in bytes.
pub fn blanks_size(rest: &[u8]) -> usize
    ensures size { result ≡ blanks_size rest.now }
    ensures within { result ≤ length rest.now }
{
    let mut size = 0;
    // No iterator gives all that follows each byte, which the test looks at.
    while in_blank(&rest[size..]) {
        size += 1;
    }
    size
}

/// Whether all is blank.
#[tactic(auto, using(crate::proofs::Trims::blanks_all))]
pub fn is_all_blank(text: &[u8]) -> bool
    ensures { result ≡ all_blank text.now }
{
    blanks_size(text) == text.len()
}

/// The size of the non-blanks at the start, in bytes, `most` characters at most.
pub fn non_blanks_size(rest: &[u8], most: usize) -> usize
    ensures size { result ≡ non_blanks_size most rest.now }
    ensures within { result ≤ length rest.now }
{
    let mut left = rest;
    for _ in 0..most {
        let Some((first, more)) = left.split_first() else {
            break;
        };
        if is_blank(*first, more) {
            break;
        }
        let size = character_size(*first, more);
        left = &left[size..];
    }
    rest.len() - left.len()
}

/// The part without the blanks at its end.
#[tactic(auto, using(crate::proofs::Trims::ends))]
pub fn trim_end(part: &[u8]) -> &[u8]
    ensures trimmed { result.now ≡ trim_end part.now }
    ensures within { length result.now ≤ length part.now }
{
    let mut end = part.len();
    let mut at = part.len();
    // No iterator from the end gives all that follows each byte, which the test looks at.
    while 0 < at && in_blank(&part[at - 1..]) {
        at -= 1;
        if !is_continuation(part[at]) {
            end = at;
        }
    }
    &part[..end]
}
