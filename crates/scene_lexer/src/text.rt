// Texts: the bytes between double quotes, their escapes resolved.
ghost use Rattle.std.specs.Prelude.{◌≡◌, ◌≢◌, ◌+◌, ◌≤◌, ◌<◌, ◌^◌, length, slice_index, IfOk, IfErr, unwrap_or};
ghost use Rattle.scene_lexer.specs.Spellings.{escape_of, escape, escape_tail};
ghost use Rattle.scene_lexer.specs.Tokens.{piece_tokens, front_of};
ghost use Rattle.scene_lexer.specs.Steps.{IsFound};

use crate::bytes::line_end;
use crate::found::Found;
use crate::scan::rest_of;
use crate::{Kind, LexFault, Place};
use fix_math::Str;
use std::alloc::Global;

/// What a backslash and this byte stand for together.
fn escape_of(byte: u8) -> Option<u8>
    ensures { result ≡ escape_of byte }
{
    match byte {
        b'"' => Some(34),
        b'\\' => Some(92),
        b'\'' => Some(39),
        b'a' => Some(7),
        b'b' => Some(8),
        b'f' => Some(12),
        b'n' => Some(10),
        b'r' => Some(13),
        b't' => Some(9),
        b'v' => Some(11),
        _ => None,
    }
}

/// The byte that an escape at the start of the text stands for.
#[tactic(auto, unfolding(crate::specs::Spellings::escape))]
fn escape(text: &[u8]) -> Option<u8>
    ensures { result ≡ escape text.now }
{
    match text {
        [b'\\', byte, ..] => escape_of(*byte),
        _ => None,
    }
}

/// The byte that the text begins with, or what its escape stands for, and how many bytes that takes.
fn byte_at(text: &[u8]) -> (u8, usize)
    requires { 0 < length text.now }
    ensures byte { result.0 ≡ unwrap_or (escape text.now) (slice_index text.now 0) }
    ensures length { result.1 ≡ 1 + escape_tail text.now }
{
    match escape(text) {
        Some(byte) => (byte, 2),
        None => (text[0], 1),
    }
}

/// The text between quotes that the text begins with.
pub fn read_text(alloc: Global, text: &[u8], place: Place) -> Result<Found, LexFault>
    requires quote { slice_index text.now 0 ≡ 34 }
    requires size { length text.now ≤ 2 ^ 24 }
    ensures found { IfOk result (IsFound place text.now) }
    ensures fault { IfErr result
        (λ f. f ≢ LexFault.NoMemory → piece_tokens place (front_of text.now) ≡ Err f) }
{
    let mut bytes = Vec::new(alloc);
    let mut at = 1;
    let mut lines = 0;
    'text: while at < text.len() {
        if text[at] == b'"' {
            return Ok(Found {
                kind: Some(Kind::Text(Str::new(bytes))),
                length: at + 1,
                lines,
            });
        }
        let (byte, length) = byte_at(rest_of(text, at));
        if bytes.push(byte).is_err() {
            return Err(LexFault::NoMemory);
        }
        lines += line_end(text[at]);
        at += length;
    }
    Err(LexFault::OpenString(place))
}
