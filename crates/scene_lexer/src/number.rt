// Numbers: where they end, and what they mean.
ghost use Rattle.std.specs.Prelude.{◌≡◌, ◌+◌, ◌*◌, ◌^◌, ◌≤◌, ◌<◌, length, take, drop, pos, min};
ghost use Rattle.std.specs.Prelude.{IsTrue, SomeIff};
ghost use Rattle.std.specs.List.{list_all};
ghost use Rattle.fix_math.specs.Numbers.{IsInRange};
ghost use Rattle.scene_lexer.specs.Bytes.{is_digit};
ghost use Rattle.scene_lexer.specs.Spellings.{digit_count, fraction_length, is_number, longest};
ghost use Rattle.scene_lexer.specs.Tokens.{number_of, decimal_from, scaled, whole_digits};
ghost use Rattle.scene_lexer.specs.Tokens.{size_up, size_down};
ghost use Rattle.scene_lexer.specs.Steps.{IsScalable};
ghost use Rattle.scene_lexer.specs.Alone.{value_of};

use crate::scan::{digit_count, exponent_length, fraction_length, rest_of, sign_length};
use crate::{Kind, LexFault, Place};
use fix_math::Fix;

/// The greatest number of digits before and after the dot.
const MOST_DIGITS: usize = 30;

/// From here on an exponent's size makes no difference.
const MOST_SIZE: u32 = 100;

/// How long the number is that the text begins with, or 0.
pub fn number_length(text: &[u8]) -> usize
    ensures length { result ≡ longest is_number (length text.now) text.now }
    ensures within { result ≤ length text.now }
{
    let whole = digit_count(text);
    let behind = rest_of(text, whole);
    let fraction = fraction_length(behind);
    if whole + fraction == 0 {
        return 0;
    }
    whole + fraction + exponent_length(rest_of(behind, fraction))
}

/// The number that digits spell in base ten behind those of `start`.
fn decimal_from(start: u128, digits: &[u8]) -> u128
    requires digits { IsTrue (list_all is_digit digits.now) }
    requires small { (start + 1) * 10 ^ length digits.now ≤ 10 ^ 30 }
    ensures value { result ≡ decimal_from start digits.now }
    ensures small { result + 1 ≤ (start + 1) * 10 ^ length digits.now }
{
    let mut value = start;
    for byte in digits {
        value = value * 10 + (*byte - b'0') as u128;
    }
    value
}

/// So many units divided by ten to the power of `down`, rounded once.
fn divided(units: u128, down: u32) -> Option<Fix>
    requires units { units < 10 ^ 30 }
    requires down { down ≤ 30 }
    ensures { SomeIff result (IsInRange (scaled units 0 down)) (scaled units 0 down) }
{
    let divisor = 10u128.pow(down);
    let raw = (2 * (units * 65536) + divisor) / (2 * divisor);
    if raw < 1 << 47 {
        Some(Fix(raw as i64))
    } else {
        None
    }
}

/// So many units times ten to the power of `up`.
fn multiplied(units: u128, up: u32) -> Option<Fix>
    ensures { SomeIff result (units * 10 ^ up * 65536 < 2 ^ 47) (pos (units * 10 ^ up * 65536)) }
{
    if units == 0 {
        return Some(Fix(0));
    }
    if up > 9 || units >= 1 << 31 {
        return None;
    }
    let product = units * 10u128.pow(up);
    if product < 1 << 31 {
        Some(Fix((product * 65536) as i64))
    } else {
        None
    }
}

/// So many units times ten to the power of `up - down`, rounded once; none where that power is outside
/// -30 to 30.
fn scaled(units: u128, up: u32, down: u32) -> Option<Fix>
    requires units { units < 10 ^ 30 }
    ensures { SomeIff result (IsScalable units up down) (scaled units up down) }
{
    if up > down {
        let power = up - down;
        if power > 30 {
            None
        } else {
            multiplied(units, power)
        }
    } else {
        let power = down - up;
        if power > 30 {
            None
        } else {
            divided(units, power)
        }
    }
}

/// The digits that the text begins with.
#[tactic(auto, using(crate::proofs::NumberLemmas::digits_front))]
fn leading_digits(text: &[u8]) -> &[u8]
    ensures value { result.now ≡ whole_digits text.now }
    ensures digits { IsTrue (list_all is_digit result.now) }
    ensures count { length result.now ≡ digit_count text.now }
{
    &text[..digit_count(text)]
}

/// The digits behind the dot that the text begins with; none where it begins with no dot and digits.
fn fraction_digits(text: &[u8]) -> &[u8]
    ensures value { result.now ≡ drop 1 (take (fraction_length text.now) text.now) }
    ensures digits { IsTrue (list_all is_digit result.now) }
{
    match text {
        [b'.', behind @ ..] => leading_digits(behind),
        _ => &text[..0],
    }
}

/// The number that digits spell, and `MOST_SIZE` for each greater one.
fn exponent_size(digits: &[u8]) -> u32
    requires digits { IsTrue (list_all is_digit digits.now) }
    ensures { result ≡ min 100 (decimal_from 0 digits.now) }
{
    let mut size = 0;
    for byte in digits {
        size = MOST_SIZE.min(size * 10 + (*byte - b'0') as u32);
    }
    size
}

/// The exponent of a number behind its mark: the sizes of its powers up and down.
fn exponent_of(part: &[u8]) -> (u32, u32)
    ensures up { result.0 ≡ min 100 (size_up part.now) }
    ensures down { result.1 ≡ min 100 (size_down part.now) }
{
    let digits = leading_digits(rest_of(part, sign_length(part)));
    let size = exponent_size(digits);
    match part {
        [b'-', ..] => (0, size),
        _ => (size, 0),
    }
}

/// The value of a number; none where it is out of range.
pub fn value_of(number: &[u8]) -> Option<Fix>
    ensures { result ≡ value_of number.now }
{
    let whole = leading_digits(number);
    let behind = rest_of(number, whole.len());
    let fraction = fraction_digits(behind);
    let end = rest_of(behind, fraction_length(behind));
    let part = rest_of(end, end.len().min(1));
    if whole.len() + fraction.len() > MOST_DIGITS {
        return None;
    }
    let units = decimal_from(decimal_from(0, whole), fraction);
    let (up, down) = exponent_of(part);
    match scaled(units, up, down + fraction.len() as u32) {
        Some(value) => Some(value),
        None => None,
    }
}

/// What a number means.
pub fn number_of(number: &[u8], place: Place) -> Result<Kind, LexFault>
    ensures { result ≡ number_of place number.now }
{
    match value_of(number) {
        Some(value) => Ok(Kind::Number(value)),
        None => Err(LexFault::NumberRange(place)),
    }
}
