// What a word says in a pigment, and what a pigment begins with. (Reference manual, pigment)
ghost use Rattle.std.specs.Prelude.{◌≡◌, IsSome, IsTrue};
ghost use Rattle.item_blocks.specs.Pigments.{pigment_part, is_part, is_through, is_pattern, begins_by};

use crate::tokens::{sign_at, word_at};
use crate::words::{BlockWord, PatternWord, PigmentWord, Word};
use scene_lexer::{Token, sign};

/// What may stand behind the colours of a pigment.
#[derive(Clone, Copy)]
pub enum PigmentPart {
    Map,
    Parameter(PigmentWord),
    Move,
    Other,
}

/// What a pigment begins with.
#[derive(Clone, Copy)]
pub enum Beginning {
    Pattern(PatternWord),
    Colour,
    Neither,
}

pub fn pigment_part(word: Option<Word>) -> PigmentPart
    ensures value { result ≡ pigment_part word }
    ensures some { IsTrue (is_part result) → IsSome word }
{
    match word {
        Some(Word::Block(BlockWord::ColourMap)) => PigmentPart::Map,
        Some(Word::Block(BlockWord::Transform)) => PigmentPart::Move,
        Some(Word::Step(_)) => PigmentPart::Move,
        Some(Word::Pigment(word)) => PigmentPart::Parameter(word),
        _ => PigmentPart::Other,
    }
}

pub fn is_part(part: PigmentPart) -> bool
    ensures { result ≡ is_part part }
{
    !matches!(part, PigmentPart::Other)
}

/// Whether no colour follows.
pub fn is_through(tokens: &[Token], at: usize) -> bool
    ensures { result ≡ is_through tokens.now at }
{
    sign_at(tokens, at) == sign::CLOSE_BRACE || is_part(pigment_part(word_at(tokens, at)))
}

pub fn begins_by(through: bool, word: Option<Word>) -> Beginning
    ensures value { result ≡ begins_by through word }
    ensures some { IsTrue (is_pattern result) → IsSome word }
{
    match word {
        Some(Word::Pattern(pattern)) => Beginning::Pattern(pattern),
        _ => {
            if through {
                Beginning::Neither
            } else {
                Beginning::Colour
            }
        }
    }
}
