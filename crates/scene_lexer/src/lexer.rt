// The tokens of a text.
ghost use Rattle.std.specs.Prelude.{◌≡◌, ◌≢◌, ◌≤◌, ◌<◌, ◌^◌, length, ◌++◌, IfOk, IfErr, OnOk, OnErr, Ok, Err, [], is_some, true};
ghost use Rattle.scene_lexer.specs.Tokens.{tokens_of, tokens_at, mark_length, Ascend};
ghost use Rattle.scene_lexer.specs.declared.token.LexFault.TheVariants.{NoMemory};

use crate::bytes::is_white;
use crate::read::read_piece;
use crate::scan::rest_of;
use crate::{Kind, LexFault, Place, Token};
use std::alloc::{AllocError, Global};

/// How long the UTF-8 mark is that the text begins with, or 0.
fn mark_length(text: &[u8]) -> usize
    ensures { result ≡ mark_length text.now }
{
    if text.starts_with(&[0xef, 0xbb, 0xbf]) {
        3
    } else {
        0
    }
}

/// Adds the token of this kind, where there is one.
fn add_token(
    tokens: &mut Vec<Token>,
    kind: Option<Kind>,
    place: Place,
    to: u32,
) -> Result<(), AllocError>
    ensures added { OnOk result (tokens.new.items ≡ tokens.old.items ++ tokens_at place to kind) }
    ensures memory { OnErr result (is_some kind ≡ true) }
{
    if let Some(kind) = kind {
        tokens.push(Token { kind, place, to })?;
    }
    Ok(())
}

/// The tokens of the text with this number, or the first fault by place.
/// Bytes are counted from 0 with a UTF-8 mark at the start, lines from 1. A text of gaps alone needs no memory.
pub fn lex(alloc: Global, file: u32, text: &[u8]) -> Result<Vec<Token>, LexFault>
    requires { length text.now ≤ 2 ^ 24 }
    ensures tokens { IfOk result (λ found. tokens_of file text.now ≡ Ok found.items) }
    ensures fault { IfErr result (λ f. f ≢ LexFault.NoMemory → tokens_of file text.now ≡ Err f) }
    ensures memory { IfErr result (λ f. f ≡ LexFault.NoMemory → tokens_of file text.now ≢ Ok []) }
    ensures spans { IfOk result (λ found. Ascend (length text.now) found.items) }
{
    let mut tokens = Vec::new(alloc);
    let mut at = mark_length(text);
    let mut line = 1;
    'bytes: while at < text.len() {
        let byte = text[at];
        if is_white(byte) {
            if byte == b'\n' {
                line += 1;
            }
            at += 1;
            continue;
        }
        let place = Place {
            file,
            at: at as u32,
            line,
        };
        match read_piece(alloc, rest_of(text, at), place) {
            Ok(found) => {
                at += found.length;
                line += found.lines;
                if add_token(&mut tokens, found.kind, place, at as u32).is_err() {
                    return Err(LexFault::NoMemory);
                }
            }
            Err(fault) => return Err(fault),
        }
    }
    Ok(tokens)
}
