// What the values of options mean.
ghost use Rattle.std.specs.Prelude.{◌≡◌, ◌&&◌, nat_le, min, length, true, IfSome};
ghost use Rattle.std.specs.List.{list_all};
ghost use Rattle.fix_math.specs.Numbers.{IsInRange};
ghost use Rattle.scene_lexer.specs.Alone.{number_in};
ghost use Rattle.options.specs.Values.{lower, begins, is_spelled, is_whole, whole_of, signed_in, IsUnsigned, truth_in, truth_of};

use fix_math::Fix;
use scene_lexer::number_value;

/// A number from which on none is looked at: one more than every range's greatest.
const MOST: u32 = 1_000_000;

/// The words for true and false.
static TRUTHS: [(&[u8], bool); 8] = [
    (b"on", true),
    (b"yes", true),
    (b"true", true),
    (b"1", true),
    (b"off", false),
    (b"no", false),
    (b"false", false),
    (b"0", false),
];

/// A letter without its case.
pub fn lower(byte: u8) -> u8
    ensures { result ≡ lower byte }
{
    byte.to_ascii_lowercase()
}

/// Whether the text begins with these small letters, in either case.
pub fn begins(letters: &[u8], text: &[u8]) -> bool
    ensures { result ≡ begins letters.now text.now }
{
    match letters {
        [] => true,
        [letter, letters @ ..] => match text {
            [] => false,
            [byte, text @ ..] => lower(*byte) == *letter && begins(letters, text),
        },
    }
}

/// Whether the text is these small letters, in either case.
pub fn is_spelled(letters: &[u8], text: &[u8]) -> bool
    ensures { result ≡ is_spelled letters.now text.now }
{
    letters.len() == text.len() && begins(letters, text)
}

fn all_digits(value: &[u8]) -> bool
    ensures { result ≡ list_all (λ b. nat_le 48 b && nat_le b 57) value.now }
{
    value.iter().all(|byte| byte.is_ascii_digit())
}

pub fn is_whole(value: &[u8]) -> bool
    ensures { result ≡ is_whole value.now }
{
    !value.is_empty() && all_digits(value)
}

/// The number of these digits where it is at most a million, and a million where it is more.
pub fn capped_whole(digits: &[u8]) -> u32
    requires { list_all (λ b. nat_le 48 b && nat_le b 57) digits.now ≡ true }
    ensures { result ≡ min (whole_of digits.now) 1000000 }
{
    let mut number = 0;
    for digit in digits {
        number = (10 * number + u32::from(*digit - b'0')).min(MOST);
    }
    number
}

/// A number without a sign.
#[tactic(auto, using(crate::proofs::NumberRange::number_range))]
pub fn unsigned(value: &[u8]) -> Option<Fix>
    ensures value { result ≡ number_in value.now }
    ensures range { IfSome result IsUnsigned }
{
    number_value(value)
}

/// A number with a sign or none.
#[tactic(auto, using(crate::proofs::NumberRange::ranged, crate::proofs::NumberRange::negated))]
pub fn signed(value: &[u8]) -> Option<Fix>
    ensures value { result ≡ signed_in value.now }
    ensures range { IfSome result IsInRange }
{
    match value {
        [b'+', number @ ..] => unsigned(number),
        [b'-', number @ ..] => match unsigned(number) {
            Some(Fix(raw)) => Some(Fix(-raw)),
            None => None,
        },
        _ => unsigned(value),
    }
}

fn truth_in(truths: &[(&[u8], bool)], value: &[u8]) -> Option<bool>
    ensures { result ≡ truth_in (λ entry. entry.0.now) (λ entry. entry.1) value.now truths.now }
{
    for (letters, truth) in truths {
        if is_spelled(letters, value) {
            return Some(*truth);
        }
    }
    None
}

/// What a truth word says, in letters of either case.
#[tactic(auto, unfolding(crate::specs::Values::truth_of))]
pub fn truth(value: &[u8]) -> Option<bool>
    ensures { result ≡ truth_of value.now }
{
    truth_in(&TRUTHS, value)
}
