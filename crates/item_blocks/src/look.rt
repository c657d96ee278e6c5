// The looks of an object: what its words texture, pigment, finish, interior and material give.
// (Reference manual, object modifiers)
ghost use Rattle.std.specs.Prelude.{◌≡◌, ◌≢◌, ◌≤◌, ◌<◌, length, IfOk, IfErr, IsSome, Ok, Err};
ghost use Rattle.scene_expr.specs.Values.{AreWhole};
ghost use Rattle.item_blocks.specs.declared.fault.ParseFault.TheVariants.{NoMemory};
ghost use Rattle.item_blocks.specs.declared.texture.TexturePart.{TexturePart};
ghost use Rattle.item_blocks.specs.Looks.{look_part, with_material, IsLook, IsLookOfTexture};
ghost use Rattle.item_blocks.specs.Sound.{IsSoundMaterial};

use crate::block::braced;
use crate::fault::ParseFault;
use crate::texture::{
    MaterialDraft, no_material, take_finish, take_interior, take_pigment, take_texture,
};
use crate::words::{BlockWord, Word};
use scene_expr::Settings;
use scene_lexer::Token;
use std::alloc::Global;

/// What a word says of an object's looks.
#[derive(Clone, Copy)]
pub enum LookPart {
    Pigment,
    Finish,
    Texture,
    Interior,
    Material,
}

/// What a word says of an object's looks; none for each other word.
pub fn look_part(word: Option<Word>) -> Option<LookPart>
    ensures value { result ≡ look_part word }
    ensures some { IsSome result → IsSome word }
{
    match word {
        Some(Word::Block(BlockWord::Pigment)) => Some(LookPart::Pigment),
        Some(Word::Block(BlockWord::Finish)) => Some(LookPart::Finish),
        Some(Word::Block(BlockWord::Texture)) => Some(LookPart::Texture),
        Some(Word::Block(BlockWord::Interior)) => Some(LookPart::Interior),
        Some(Word::Block(BlockWord::Material)) => Some(LookPart::Material),
        _ => None,
    }
}

impl MaterialDraft {
    /// Sets what another material holds; what it doesn't hold stays.
    pub fn set(&mut self, inner: MaterialDraft)
        ensures { self.new ≡ with_material self.old inner }
    {
        self.texture.set(inner.texture);
        self.interior = inner.interior.or(self.interior);
    }
}

fn look_pigment(
    alloc: Global,
    tokens: &[Token],
    set: &Settings,
    depths: usize,
    at: usize,
    looks: &mut MaterialDraft,
) -> Result<usize, ParseFault>
    requires within { at < length tokens.now }
    requires whole { AreWhole set.now }
    ensures found { IfOk result (λ next. IsLookOfTexture tokens.now set.now depths TexturePart.Pigment looks.old at (Ok (record { value = looks.new; next = next }))) }
    ensures fault { IfErr result (λ f. f ≢ NoMemory → IsLookOfTexture tokens.now set.now depths TexturePart.Pigment looks.old at (Err f)) }
    ensures within { IfOk result (λ next. (at < next) × (next ≤ length tokens.now)) }
{
    let next = take_pigment(alloc, tokens, set, depths, at, &mut looks.texture)?;
    Ok(next)
}

fn look_finish(
    alloc: Global,
    tokens: &[Token],
    set: &Settings,
    depths: usize,
    at: usize,
    looks: &mut MaterialDraft,
) -> Result<usize, ParseFault>
    requires within { at < length tokens.now }
    requires whole { AreWhole set.now }
    ensures found { IfOk result (λ next. IsLookOfTexture tokens.now set.now depths TexturePart.Finish looks.old at (Ok (record { value = looks.new; next = next }))) }
    ensures fault { IfErr result (λ f. f ≢ NoMemory → IsLookOfTexture tokens.now set.now depths TexturePart.Finish looks.old at (Err f)) }
    ensures within { IfOk result (λ next. (at < next) × (next ≤ length tokens.now)) }
{
    let next = take_finish(alloc, tokens, set, depths, at, &mut looks.texture)?;
    Ok(next)
}

fn look_material(
    alloc: Global,
    tokens: &[Token],
    set: &Settings,
    depths: usize,
    at: usize,
    looks: &mut MaterialDraft,
) -> Result<usize, ParseFault>
    requires within { at < length tokens.now }
    requires whole { AreWhole set.now }
    ensures found { IfOk result (λ next. IsLook tokens.now set.now depths LookPart.Material looks.old at (Ok (record { value = looks.new; next = next }))) }
    ensures fault { IfErr result (λ f. f ≢ NoMemory → IsLook tokens.now set.now depths LookPart.Material looks.old at (Err f)) }
    ensures within { IfOk result (λ next. (at < next) × (next ≤ length tokens.now)) }
{
    let mut inner = no_material();
    let next = braced(alloc, tokens, set, depths, at + 1, &mut inner)?;
    looks.set(inner);
    Ok(next)
}

fn look(
    alloc: Global,
    tokens: &[Token],
    set: &Settings,
    depths: usize,
    part: LookPart,
    at: usize,
    looks: &mut MaterialDraft,
) -> Result<usize, ParseFault>
    requires within { at < length tokens.now }
    requires whole { AreWhole set.now }
    ensures found { IfOk result (λ next. IsLook tokens.now set.now depths part looks.old at (Ok (record { value = looks.new; next = next }))) }
    ensures fault { IfErr result (λ f. f ≢ NoMemory → IsLook tokens.now set.now depths part looks.old at (Err f)) }
    ensures within { IfOk result (λ next. (at < next) × (next ≤ length tokens.now)) }
{
    match part {
        LookPart::Pigment => look_pigment(alloc, tokens, set, depths, at, looks),
        LookPart::Finish => look_finish(alloc, tokens, set, depths, at, looks),
        LookPart::Texture => take_texture(alloc, tokens, set, depths, at, looks),
        LookPart::Interior => take_interior(alloc, tokens, set, depths, at, looks),
        LookPart::Material => look_material(alloc, tokens, set, depths, at, looks),
    }
}

/// A look, whose word stands at this token, set among those given before; and the token behind it. So
/// many further braces may be open.
pub fn take_look(
    alloc: Global,
    tokens: &[Token],
    set: &Settings,
    depths: usize,
    part: LookPart,
    at: usize,
    looks: &mut MaterialDraft,
) -> Result<usize, ParseFault>
    requires within { at < length tokens.now }
    requires whole { AreWhole set.now }
    ensures found { IfOk result (λ next. IsLook tokens.now set.now depths part looks.old at (Ok (record { value = looks.new; next = next }))) }
    ensures fault { IfErr result (λ f. f ≢ NoMemory → IsLook tokens.now set.now depths part looks.old at (Err f)) }
    ensures within { IfOk result (λ next. (at < next) × (next ≤ length tokens.now)) }
    ensures sound { IfOk result (λ next. IsSoundMaterial looks.old → IsSoundMaterial looks.new) }
{
    look(alloc, tokens, set, depths, part, at, looks)
}
