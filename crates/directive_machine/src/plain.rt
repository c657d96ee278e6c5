// Texts whose tokens begin nothing.
ghost use Rattle.std.specs.Prelude.{◌≡◌, ◌≤◌, length, IsTrue, true, take};
ghost use Rattle.std.specs.List.{list_all};
ghost use Rattle.directive_machine.specs.PlainTokens.{is_defined, is_plain, is_plain_token};

use crate::machine::MOST_HANDED;
use scene_lexer::{Kind, Token, sign};
use text_structure::{Known, known_of};

fn is_defined(known: Option<Known>) -> bool
    ensures { result ≡ is_defined known }
{
    matches!(known, Some(Known::Defined))
}

/// Whether a token begins nothing where no name is bound.
#[inline(always)]
fn is_plain(kind: &Kind) -> bool
    ensures { result ≡ is_plain kind.now }
{
    match kind {
        Kind::Sign(code) => *code != sign::HASH,
        Kind::Number(_) => true,
        Kind::Word(word) => !is_defined(known_of(word.bytes())),
        Kind::Text(_) => true,
    }
}

/// Whether none of the tokens begins anything.
fn are_plain(tokens: &[Token]) -> bool
    ensures { result ≡ list_all is_plain_token tokens.now }
{
    tokens.iter().all(|token| is_plain(&token.kind))
}

/// Whether a first text of these tokens comes to just these.
pub fn is_flat(tokens: &[Token]) -> bool
    ensures plain { IsTrue result → list_all is_plain_token tokens.now ≡ true }
    ensures few { IsTrue result → length tokens.now ≤ 4194304 }
{
    tokens.len() <= MOST_HANDED && are_plain(tokens)
}
