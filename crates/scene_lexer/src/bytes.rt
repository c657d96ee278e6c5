// The classes of bytes that words, numbers and gaps are made of.
ghost use Rattle.std.specs.Prelude.{◌≡◌, ◌==◌, if◌then◌else◌};
ghost use Rattle.std.specs.List.{list_all};
ghost use Rattle.scene_lexer.specs.Bytes.{is_white, is_digit, is_letter, is_word_byte, is_word};

#[inline]
pub fn is_white(byte: u8) -> bool
    ensures { result ≡ is_white byte }
{
    byte == b' ' || (9 <= byte && byte <= 13)
}

/// 1 for a line feed, 0 for another byte.
#[inline]
pub fn line_end(byte: u8) -> u32
    ensures { result ≡ (if byte == 10 then 1 else 0) }
{
    if byte == b'\n' { 1 } else { 0 }
}

#[inline]
pub fn is_digit(byte: u8) -> bool
    ensures { result ≡ is_digit byte }
{
    byte.is_ascii_digit()
}

#[inline]
pub fn is_letter(byte: u8) -> bool
    ensures { result ≡ is_letter byte }
{
    matches!(byte, b'A'..=b'Z' | b'a'..=b'z' | b'_')
}

#[inline]
pub fn is_word_byte(byte: u8) -> bool
    ensures { result ≡ is_word_byte byte }
{
    is_letter(byte) || is_digit(byte)
}

fn all_word_bytes(bytes: &[u8]) -> bool
    ensures { result ≡ list_all is_word_byte bytes.now }
{
    bytes.iter().all(|byte| is_word_byte(*byte))
}

/// Whether the bytes are a letter and then letters and digits.
pub fn is_word(bytes: &[u8]) -> bool
    ensures { result ≡ is_word bytes.now }
{
    match bytes {
        [] => false,
        [first, rest @ ..] => is_letter(*first) && all_word_bytes(rest),
    }
}
