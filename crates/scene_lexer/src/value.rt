// A number that stands alone, as in a command word.
ghost use Rattle.std.specs.Prelude.{◌≡◌};
ghost use Rattle.scene_lexer.specs.Alone.{number_in};

use crate::number::{number_length, value_of};
use fix_math::Fix;

/// The value of a text that is a number and nothing else, without a sign; none where it is something else, or
/// out of range as a token of a scene would be.
pub fn number_value(text: &[u8]) -> Option<Fix>
    ensures { result ≡ number_in text.now }
{
    let length = number_length(text);
    if length == 0 || length != text.len() {
        return None;
    }
    value_of(text)
}
