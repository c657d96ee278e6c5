// How far the words and numbers reach that a text begins with.
ghost use Rattle.std.specs.Prelude.{◌≡◌, ◌+◌, ◌≤◌, drop, length};
ghost use Rattle.std.specs.List.{prefix_len};
ghost use Rattle.scene_lexer.specs.Bytes.{is_word_byte};
ghost use Rattle.scene_lexer.specs.Spellings.{digit_count, fraction_length, sign_length};
ghost use Rattle.scene_lexer.specs.Steps.{exponent_length};

use crate::bytes::{is_digit, is_word_byte};

/// The text from a byte on.
#[inline]
pub fn rest_of(text: &[u8], at: usize) -> &[u8]
    requires { at ≤ length text.now }
    ensures { result.now ≡ drop at text.now }
{
    &text[at..]
}

/// How many letters and digits the text begins with.
pub fn word_length(text: &[u8]) -> usize
    ensures length { result ≡ prefix_len is_word_byte text.now }
    ensures within { result ≤ length text.now }
{
    text.iter().take_while(|byte| is_word_byte(**byte)).count()
}

/// How many digits the text begins with.
pub fn digit_count(text: &[u8]) -> usize
    ensures count { result ≡ digit_count text.now }
    ensures within { result ≤ length text.now }
{
    text.iter().take_while(|byte| is_digit(**byte)).count()
}

/// How many bytes a dot and digits take at the start of the text; 0 where no digit follows a dot.
pub fn fraction_length(text: &[u8]) -> usize
    ensures length { result ≡ fraction_length text.now }
    ensures within { result ≤ length text.now }
{
    match text {
        [b'.', behind @ ..] => {
            let digits = digit_count(behind);
            if digits > 0 { 1 + digits } else { 0 }
        }
        _ => 0,
    }
}

/// How many bytes a sign takes at the start of the text: 1 or none.
pub fn sign_length(text: &[u8]) -> usize
    ensures length { result ≡ sign_length text.now }
    ensures within { result ≤ length text.now }
{
    match text {
        [b'+' | b'-', ..] => 1,
        _ => 0,
    }
}

/// How many bytes an exponent takes at the start of the text; 0 where there is none.
pub fn exponent_length(text: &[u8]) -> usize
    ensures length { result ≡ exponent_length text.now }
    ensures within { result ≤ length text.now }
{
    match text {
        [b'e' | b'E', part @ ..] => {
            let sign = sign_length(part);
            let digits = digit_count(rest_of(part, sign));
            if digits > 0 { 1 + sign + digits } else { 0 }
        }
        _ => 0,
    }
}
