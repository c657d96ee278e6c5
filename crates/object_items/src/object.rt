// Objects as they are said, and the words that begin them. (Reference manual, objects)
ghost use Rattle.std.specs.Prelude.{◌≡◌, IsSome, IsTrue, ◌<◌, length, None, false};
ghost use Rattle.object_items.specs.Held.{only_if};
ghost use Rattle.object_items.specs.Trees.{tree_seen};
ghost use Rattle.object_items.specs.Objects.{object_word, is_object, begins_object};

use crate::tables::Tables;
use item_blocks::{BlockWord, SolidWord, Word, word_at};
use scene_lexer::Token;
use scene_model::{Op, Shape};

/// The word of an object.
#[derive(Clone, Copy)]
pub enum ObjectWord {
    Solid(SolidWord),
    Triangle { smooth: bool },
    Mesh,
    Group(Op),
    /// `object`, which holds another object.
    Holder,
}

/// A part of an object, as it is read: its leaves and triangles stand in the object's tables.
#[derive(Drop)]
pub struct Part {
    /// None for triangles alone.
    pub shape: Option<Shape>,
    pub no_shadow: bool,
}

impl Part {
    /// Triangles alone.
    pub fn without_shape() -> Part
        ensures shape { tree_seen result.shape ≡ None }
        ensures shadow { result.no_shadow ≡ false }
    {
        Part {
            shape: None,
            no_shadow: false,
        }
    }
}

/// A top-level object as it is said, with all that it holds.
#[derive(Drop)]
pub struct ObjectDraft {
    pub tables: Tables,
    /// The leaves of the shape are numbered in the scene. None for triangles alone.
    pub shape: Option<Shape>,
    pub no_shadow: bool,
}

fn only_if(sheets: bool, word: ObjectWord) -> Option<ObjectWord>
    ensures { result ≡ only_if sheets word }
{
    if sheets { Some(word) } else { None }
}

/// The word of an object, told whether triangles may stand here; none for each other word.
pub fn object_word(word: Option<Word>, sheets: bool) -> Option<ObjectWord>
    ensures value { result ≡ object_word word sheets }
    ensures some { IsSome result → IsSome word }
{
    match word {
        Some(Word::Solid(solid)) => Some(ObjectWord::Solid(solid)),
        Some(Word::Triangle) => only_if(sheets, ObjectWord::Triangle { smooth: false }),
        Some(Word::SmoothTriangle) => only_if(sheets, ObjectWord::Triangle { smooth: true }),
        Some(Word::Block(BlockWord::Mesh)) => only_if(sheets, ObjectWord::Mesh),
        Some(Word::Group(op)) => Some(ObjectWord::Group(op)),
        Some(Word::Block(BlockWord::Object)) => Some(ObjectWord::Holder),
        _ => None,
    }
}

/// Whether the word of an object stands here.
pub fn begins_object(sheets: bool, tokens: &[Token], at: usize) -> bool
    ensures value { result ≡ begins_object sheets tokens.now at }
    ensures within { IsTrue result → at < length tokens.now }
{
    object_word(word_at(tokens, at), sheets).is_some()
}
