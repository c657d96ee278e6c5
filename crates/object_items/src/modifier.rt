// The modifiers of an object. (Reference manual, object modifiers)
ghost use Rattle.std.specs.Prelude.{◌≡◌, ◌≢◌, ◌≤◌, ◌<◌, length, IfOk, IfErr, IsSome, Some, Ok, Err};
ghost use Rattle.scene_expr.specs.Values.{AreWhole};
ghost use Rattle.item_blocks.specs.Tokens.{word_at};
ghost use Rattle.item_blocks.specs.declared.fault.ParseFault.TheVariants.{NoMemory};
ghost use Rattle.object_items.specs.Modifiers.{modifier_part, said_of, IsStep, IsModifier};

use crate::skip::{behind_truth, skipped};
use crate::tables::{Marks, Tables};
use item_blocks::{
    BlockWord, LookPart, MaterialDraft, ModifierWord, ParseFault, Wanted, Word, look_part,
    take_look, unfit_at, word_at,
};
use scene_expr::Settings;
use scene_lexer::Token;
use std::alloc::Global;

/// What is said of an object behind its parts.
#[derive(Drop)]
pub struct Modifiers {
    pub looks: MaterialDraft,
    pub inverse: bool,
    pub no_shadow: bool,
}

/// What a word says among modifiers.
#[derive(Clone, Copy)]
pub enum ModifierPart {
    Look(LookPart),
    Move,
    Inverse,
    NoShadow,
    Hollow,
    Bound,
    Hierarchy,
}

/// The kinds of statements: what a mesh takes beside the others, and what triangles don't take.
pub fn modifier_part(word: Option<Word>, mesh: bool) -> Option<ModifierPart>
    ensures value { result ≡ modifier_part word mesh }
    ensures some { IsSome result → IsSome word }
{
    if let Some(part) = look_part(word) {
        return Some(ModifierPart::Look(part));
    }
    match word {
        Some(Word::Step(_)) => Some(ModifierPart::Move),
        Some(Word::Block(BlockWord::Transform)) => Some(ModifierPart::Move),
        Some(Word::Block(BlockWord::BoundedBy)) => Some(ModifierPart::Bound),
        Some(Word::Modifier(ModifierWord::Inverse)) => {
            if mesh {
                None
            } else {
                Some(ModifierPart::Inverse)
            }
        }
        Some(Word::Modifier(ModifierWord::NoShadow)) => Some(ModifierPart::NoShadow),
        Some(Word::Modifier(ModifierWord::Hollow)) => Some(ModifierPart::Hollow),
        Some(Word::Modifier(ModifierWord::Hierarchy)) => {
            if mesh {
                Some(ModifierPart::Hierarchy)
            } else {
                None
            }
        }
        _ => None,
    }
}

/// A step moves all that stands in the statement, and then the pigment that is given before it.
fn take_move(
    alloc: Global,
    tokens: &[Token],
    set: &Settings,
    depths: usize,
    at: usize,
    marks: &Marks,
    modifiers: &mut Modifiers,
    tables: &mut Tables,
) -> Result<usize, ParseFault>
    requires within { at < length tokens.now }
    requires whole { AreWhole set.now }
    requires marks { marks.now.things ≤ length tables.now.things }
    ensures found { IfOk result (λ next. IsStep tokens.now set.now depths marks.now (said_of modifiers.old tables.old) at (Ok (record { value = said_of modifiers.new tables.new; next = next }))) }
    ensures fault { IfErr result (λ f. f ≢ NoMemory → IsStep tokens.now set.now depths marks.now (said_of modifiers.old tables.old) at (Err f)) }
    ensures within { IfOk result (λ next. (at < next) × (next ≤ length tokens.now)) }
    ensures marks { IfOk result (λ next. marks.now.things ≤ length tables.new.things) }
{
    match &mut modifiers.looks.texture.pigment {
        Some(pigment) => {
            tables.add_thing(pigment.xform)?;
            let next = tables.move_things(alloc, tokens, set, depths, at, marks.things)?;
            tables.take_thing(&mut pigment.xform);
            Ok(next)
        }
        None => {
            let next = tables.move_things(alloc, tokens, set, depths, at, marks.things)?;
            Ok(next)
        }
    }
}

/// A modifier by its word.
pub fn take_modifier(
    alloc: Global,
    tokens: &[Token],
    set: &Settings,
    depths: usize,
    mesh: bool,
    at: usize,
    marks: &Marks,
    modifiers: &mut Modifiers,
    tables: &mut Tables,
) -> Result<usize, ParseFault>
    requires few { depths ≤ 64 }
    requires within { at ≤ length tokens.now }
    requires whole { AreWhole set.now }
    requires marks { marks.now.things ≤ length tables.now.things }
    ensures found { IfOk result (λ next. IsModifier tokens.now set.now depths marks.now (modifier_part (word_at tokens.now at) mesh) (said_of modifiers.old tables.old) at (Ok (record { value = said_of modifiers.new tables.new; next = next }))) }
    ensures fault { IfErr result (λ f. f ≢ NoMemory → IsModifier tokens.now set.now depths marks.now (modifier_part (word_at tokens.now at) mesh) (said_of modifiers.old tables.old) at (Err f)) }
    ensures within { IfOk result (λ next. (at < next) × (next ≤ length tokens.now)) }
    ensures marks { IfOk result (λ next. marks.now.things ≤ length tables.new.things) }
{
    let Some(part) = modifier_part(word_at(tokens, at), mesh) else {
        return Err(unfit_at(Wanted::CloseBrace, tokens, at));
    };
    match part {
        ModifierPart::Look(part) => {
            let next = take_look(alloc, tokens, set, depths, part, at, &mut modifiers.looks)?;
            Ok(next)
        }
        ModifierPart::Move => {
            take_move(alloc, tokens, set, depths, at, marks, modifiers, tables)
        }
        ModifierPart::Inverse => {
            if tables.sheets().len() > marks.sheets {
                return Err(unfit_at(Wanted::CloseBrace, tokens, at));
            }
            modifiers.inverse = !modifiers.inverse;
            Ok(at + 1)
        }
        ModifierPart::NoShadow => {
            modifiers.no_shadow = true;
            Ok(at + 1)
        }
        ModifierPart::Hollow => Ok(behind_truth(tokens, at + 1)),
        ModifierPart::Hierarchy => Ok(behind_truth(tokens, at + 1)),
        ModifierPart::Bound => {
            let next = skipped(tokens, depths, at + 1)?;
            Ok(next)
        }
    }
}
