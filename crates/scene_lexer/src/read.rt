// The comment or token at the start of a text, by its first byte.
ghost use Rattle.std.specs.Prelude.{◌≡◌, ◌≢◌, ◌<◌, ◌≤◌, ◌^◌, length, slice_index, IsTrue, IsFalse};
ghost use Rattle.std.specs.Prelude.{IfOk, IfErr};
ghost use Rattle.scene_lexer.specs.Bytes.{is_letter, is_white};
ghost use Rattle.scene_lexer.specs.Spellings.{is_number, is_sign_byte, longest};
ghost use Rattle.scene_lexer.specs.Spellings.{opens_line_comment, opens_comment};
ghost use Rattle.scene_lexer.specs.Tokens.{piece_tokens, front_of};
ghost use Rattle.scene_lexer.specs.Steps.{IsFound, two_byte_sign_of};

use crate::bytes::is_letter;
use crate::comment::{read_comment, read_line_comment};
use crate::found::Found;
use crate::number::{number_length, number_of};
use crate::scan::word_length;
use crate::text::read_text;
use crate::{Kind, LexFault, Name, Place, sign};
use std::alloc::Global;

fn is_sign_byte(byte: u8) -> bool
    ensures { result ≡ is_sign_byte byte }
{
    b"{}()<>[],;:?.+-*/=!&|#".iter().any(|sign| byte == *sign)
}

fn read_word(text: &[u8], place: Place) -> Result<Found, LexFault>
    requires letter { IsTrue (is_letter (slice_index text.now 0)) }
    ensures found { IfOk result (IsFound place text.now) }
    ensures fault { IfErr result (λ f. piece_tokens place (front_of text.now) ≡ Err f) }
    ensures memory { IfErr result (λ f. f ≢ LexFault.NoMemory) }
{
    let length = word_length(text);
    match Name::new(&text[..length]) {
        Some(name) => Ok(Found {
            kind: Some(Kind::Word(name)),
            length,
            lines: 0,
        }),
        None => Err(LexFault::LongName(place)),
    }
}

fn read_number(text: &[u8], bytes: usize, place: Place) -> Result<Found, LexFault>
    requires letter { IsFalse (is_letter (slice_index text.now 0)) }
    requires longest { bytes ≡ longest is_number (length text.now) text.now }
    requires some { 0 < bytes }
    ensures found { IfOk result (IsFound place text.now) }
    ensures fault { IfErr result (λ f. piece_tokens place (front_of text.now) ≡ Err f) }
    ensures memory { IfErr result (λ f. f ≢ LexFault.NoMemory) }
{
    match number_of(&text[..bytes], place) {
        Ok(kind) => Ok(Found {
            kind: Some(kind),
            length: bytes,
            lines: 0,
        }),
        Err(fault) => Err(fault),
    }
}

/// The code of the sign of two bytes that the text begins with.
fn two_byte_sign(text: &[u8]) -> Option<u8>
    ensures { result ≡ two_byte_sign_of text.now }
{
    match text {
        [b'<', b'=', ..] => Some(sign::AT_MOST),
        [b'>', b'=', ..] => Some(sign::AT_LEAST),
        [b'!', b'=', ..] => Some(sign::NOT_EQUAL),
        _ => None,
    }
}

fn read_sign(text: &[u8], place: Place) -> Result<Found, LexFault>
    requires some { 0 < length text.now }
    requires solid { IsFalse (is_white (slice_index text.now 0)) }
    requires letter { IsFalse (is_letter (slice_index text.now 0)) }
    requires quote { slice_index text.now 0 ≢ 34 }
    requires number { longest is_number (length text.now) text.now ≡ 0 }
    requires line_comment { IsFalse (opens_line_comment text.now) }
    requires comment { IsFalse (opens_comment text.now) }
    ensures found { IfOk result (IsFound place text.now) }
    ensures fault { IfErr result (λ f. piece_tokens place (front_of text.now) ≡ Err f) }
    ensures memory { IfErr result (λ f. f ≢ LexFault.NoMemory) }
{
    if let Some(code) = two_byte_sign(text) {
        return Ok(Found {
            kind: Some(Kind::Sign(code)),
            length: 2,
            lines: 0,
        });
    }
    let first = text[0];
    if is_sign_byte(first) {
        Ok(Found {
            kind: Some(Kind::Sign(first)),
            length: 1,
            lines: 0,
        })
    } else {
        Err(LexFault::BadByte(place))
    }
}

/// The comment or token that the text begins with, where it begins with no white space.
pub fn read_piece(alloc: Global, text: &[u8], place: Place) -> Result<Found, LexFault>
    requires some { 0 < length text.now }
    requires size { length text.now ≤ 2 ^ 24 }
    requires solid { IsFalse (is_white (slice_index text.now 0)) }
    ensures found { IfOk result (IsFound place text.now) }
    ensures fault { IfErr result
        (λ f. f ≢ LexFault.NoMemory → piece_tokens place (front_of text.now) ≡ Err f) }
    ensures memory { IfErr result (λ f. f ≡ LexFault.NoMemory → slice_index text.now 0 ≡ 34) }
{
    let first = text[0];
    if is_letter(first) {
        return read_word(text, place);
    }
    if first == b'"' {
        return read_text(alloc, text, place);
    }
    if text.starts_with(b"//") {
        return Ok(read_line_comment(text, place));
    }
    if text.starts_with(b"/*") {
        return read_comment(text, place);
    }
    let length = number_length(text);
    if length > 0 {
        read_number(text, length, place)
    } else {
        read_sign(text, place)
    }
}
