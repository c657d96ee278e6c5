// Textures, interiors and materials: the parts of them that are given. (Reference manual, textures,
// interiors and materials)
ghost use Rattle.std.specs.Prelude.{◌≡◌, ◌≢◌, ◌≤◌, ◌<◌, length, IfOk, IfErr, OnOk, IsSome, IsTrue, Some, None, true, Ok, Err};
ghost use Rattle.scene_expr.specs.Values.{AreWhole};
ghost use Rattle.item_blocks.specs.declared.fault.ParseFault.TheVariants.{NoMemory};
ghost use Rattle.item_blocks.specs.Textures.{with_texture, no_texture, texture_part, is_texture_part, IsTexturePart, IsShifted, plain_interior, interior_with, is_ior, IsInteriorPart, no_material, material_part, is_material_part, IsMaterialPart};

use crate::block::{Block, braced};
use crate::fault::{ParseFault, Wanted};
use crate::finish::plain_finish;
use crate::parameters::{UNIT, float_of};
use crate::pigment::{PigmentDraft, take_move};
use crate::steps::moved;
use crate::tokens::{expression, unfit_at, word_at};
use crate::words::{BlockWord, Word};
use fix_math::Fix;
use scene_expr::{Settings, Value, place_at};
use scene_lexer::{Place, Token};
use scene_model::Finish;
use std::alloc::Global;
use xform::Xform;

/// The parts of a texture that are given.
#[derive(Debug, Drop)]
pub struct TextureDraft {
    pub pigment: Option<PigmentDraft>,
    pub finish: Option<Finish>,
}

/// What light meets inside. (Reference manual, interior)
#[derive(Clone, Copy, Debug, PartialEq, Eq)]
pub struct Interior {
    /// The index of refraction.
    pub ior: Fix,
}

/// The parts of a material that are given.
#[derive(Debug, Drop)]
pub struct MaterialDraft {
    pub texture: TextureDraft,
    pub interior: Option<Interior>,
}

/// What a word says in a texture.
#[derive(Clone, Copy)]
pub enum TexturePart {
    Pigment,
    Finish,
    Move,
    Other,
}

/// What a word says in a material.
#[derive(Clone, Copy)]
pub enum MaterialPart {
    Texture,
    Interior,
    Other,
}

/// A texture of which nothing is given.
pub fn no_texture() -> TextureDraft
    ensures { result ≡ no_texture }
{
    TextureDraft {
        pigment: None,
        finish: None,
    }
}

/// A material of which nothing is given.
pub fn no_material() -> MaterialDraft
    ensures { result ≡ no_material }
{
    MaterialDraft {
        texture: no_texture(),
        interior: None,
    }
}

/// The interior of which nothing is said.
pub fn plain_interior() -> Interior
    ensures { result ≡ plain_interior }
{
    Interior { ior: Fix(65536) }
}

impl TextureDraft {
    /// Sets what another texture holds; what it doesn't hold stays.
    pub fn set(&mut self, inner: TextureDraft)
        ensures { self.new ≡ with_texture self.old inner }
    {
        self.pigment = inner.pigment.or(self.pigment.take());
        self.finish = inner.finish.or(self.finish.take());
    }
}

fn texture_part(word: Option<Word>) -> TexturePart
    ensures value { result ≡ texture_part word }
    ensures some { IsTrue (is_texture_part result) → IsSome word }
{
    match word {
        Some(Word::Block(BlockWord::Pigment)) => TexturePart::Pigment,
        Some(Word::Block(BlockWord::Finish)) => TexturePart::Finish,
        Some(Word::Block(BlockWord::Transform)) => TexturePart::Move,
        Some(Word::Step(_)) => TexturePart::Move,
        _ => TexturePart::Other,
    }
}

fn material_part(word: Option<Word>) -> MaterialPart
    ensures value { result ≡ material_part word }
    ensures some { IsTrue (is_material_part result) → IsSome word }
{
    match word {
        Some(Word::Block(BlockWord::Texture)) => MaterialPart::Texture,
        Some(Word::Block(BlockWord::Interior)) => MaterialPart::Interior,
        _ => MaterialPart::Other,
    }
}

fn is_ior(word: Option<Word>) -> bool
    ensures value { result ≡ is_ior word }
    ensures some { IsTrue result → IsSome word }
{
    matches!(word, Some(Word::Ior))
}

fn interior_with(value: Value, place: Place) -> Result<Interior, ParseFault>
    ensures { result ≡ interior_with value place }
{
    Ok(Interior {
        ior: float_of(UNIT / 16, 16 * UNIT, value, place)?,
    })
}

/// A pigment, in place of the one before.
pub fn take_pigment(
    alloc: Global,
    tokens: &[Token],
    set: &Settings,
    depths: usize,
    at: usize,
    texture: &mut TextureDraft,
) -> Result<usize, ParseFault>
    requires within { at < length tokens.now }
    requires whole { AreWhole set.now }
    ensures found { IfOk result (λ next. IsTexturePart tokens.now set.now depths TexturePart.Pigment texture.old at (Ok (record { value = texture.new; next = next }))) }
    ensures fault { IfErr result (λ f. f ≢ NoMemory → IsTexturePart tokens.now set.now depths TexturePart.Pigment texture.old at (Err f)) }
    ensures within { IfOk result (λ next. (at < next) × (next ≤ length tokens.now)) }
{
    let mut pigment = PigmentDraft::plain(alloc);
    let next = braced(alloc, tokens, set, depths, at + 1, &mut pigment)?;
    texture.pigment = Some(pigment);
    Ok(next)
}

/// A finish, in place of the one before.
pub fn take_finish(
    alloc: Global,
    tokens: &[Token],
    set: &Settings,
    depths: usize,
    at: usize,
    texture: &mut TextureDraft,
) -> Result<usize, ParseFault>
    requires within { at < length tokens.now }
    requires whole { AreWhole set.now }
    ensures found { IfOk result (λ next. IsTexturePart tokens.now set.now depths TexturePart.Finish texture.old at (Ok (record { value = texture.new; next = next }))) }
    ensures fault { IfErr result (λ f. f ≢ NoMemory → IsTexturePart tokens.now set.now depths TexturePart.Finish texture.old at (Err f)) }
    ensures within { IfOk result (λ next. (at < next) × (next ≤ length tokens.now)) }
{
    let mut finish = plain_finish();
    let next = braced(alloc, tokens, set, depths, at + 1, &mut finish)?;
    texture.finish = Some(finish);
    Ok(next)
}

/// A step of a texture with this pigment.
fn shift_pigment(
    alloc: Global,
    tokens: &[Token],
    set: &Settings,
    depths: usize,
    at: usize,
    pigment: PigmentDraft,
    texture: &mut TextureDraft,
) -> Result<usize, ParseFault>
    requires within { at < length tokens.now }
    requires whole { AreWhole set.now }
    ensures found { IfOk result (λ next. IsShifted tokens.now set.now depths (Some pigment) texture.old at (Ok (record { value = texture.new; next = next }))) }
    ensures fault { IfErr result (λ f. f ≢ NoMemory → IsShifted tokens.now set.now depths (Some pigment) texture.old at (Err f)) }
    ensures within { IfOk result (λ next. (at < next) × (next ≤ length tokens.now)) }
{
    let mut shifted = pigment;
    let next = take_move(alloc, tokens, set, depths, at, &mut shifted)?;
    texture.pigment = Some(shifted);
    Ok(next)
}

/// A step of a texture without a pigment.
fn shift_nothing(
    alloc: Global,
    tokens: &[Token],
    set: &Settings,
    depths: usize,
    at: usize,
    texture: &mut TextureDraft,
) -> Result<usize, ParseFault>
    requires within { at < length tokens.now }
    requires whole { AreWhole set.now }
    ensures found { IfOk result (λ next. IsShifted tokens.now set.now depths None texture.old at (Ok (record { value = texture.new; next = next }))) }
    ensures fault { IfErr result (λ f. f ≢ NoMemory → IsShifted tokens.now set.now depths None texture.old at (Err f)) }
    ensures within { IfOk result (λ next. (at < next) × (next ≤ length tokens.now)) }
{
    let mut nothing: [Xform; 0] = [];
    let next = moved(alloc, tokens, set, depths, at, &mut nothing)?;
    texture.pigment = None;
    Ok(next)
}

/// A step, which moves the pigment, if one is given before.
fn shift(
    alloc: Global,
    tokens: &[Token],
    set: &Settings,
    depths: usize,
    at: usize,
    texture: &mut TextureDraft,
) -> Result<usize, ParseFault>
    requires within { at < length tokens.now }
    requires whole { AreWhole set.now }
    ensures found { IfOk result (λ next. IsTexturePart tokens.now set.now depths TexturePart.Move texture.old at (Ok (record { value = texture.new; next = next }))) }
    ensures fault { IfErr result (λ f. f ≢ NoMemory → IsTexturePart tokens.now set.now depths TexturePart.Move texture.old at (Err f)) }
    ensures within { IfOk result (λ next. (at < next) × (next ≤ length tokens.now)) }
{
    match texture.pigment.take() {
        Some(pigment) => shift_pigment(alloc, tokens, set, depths, at, pigment, texture),
        None => shift_nothing(alloc, tokens, set, depths, at, texture),
    }
}

/// A part of a texture, by its word.
fn texture_statement(
    alloc: Global,
    tokens: &[Token],
    set: &Settings,
    depths: usize,
    part: TexturePart,
    at: usize,
    texture: &mut TextureDraft,
) -> Result<usize, ParseFault>
    requires within { at ≤ length tokens.now }
    requires some { IsTrue (is_texture_part part) → at < length tokens.now }
    requires whole { AreWhole set.now }
    ensures found { IfOk result (λ next. IsTexturePart tokens.now set.now depths part texture.old at (Ok (record { value = texture.new; next = next }))) }
    ensures fault { IfErr result (λ f. f ≢ NoMemory → IsTexturePart tokens.now set.now depths part texture.old at (Err f)) }
    ensures within { IfOk result (λ next. (at < next) × (next ≤ length tokens.now)) }
{
    match part {
        TexturePart::Pigment => take_pigment(alloc, tokens, set, depths, at, texture),
        TexturePart::Finish => take_finish(alloc, tokens, set, depths, at, texture),
        TexturePart::Move => shift(alloc, tokens, set, depths, at, texture),
        TexturePart::Other => Err(unfit_at(Wanted::CloseBrace, tokens, at)),
    }
}

/// An index of refraction.
fn take_ior(
    alloc: Global,
    tokens: &[Token],
    set: &Settings,
    at: usize,
    interior: &mut Interior,
) -> Result<usize, ParseFault>
    requires within { at < length tokens.now }
    requires whole { AreWhole set.now }
    ensures found { IfOk result (λ next. IsInteriorPart tokens.now set.now true interior.old at (Ok (record { value = interior.new; next = next }))) }
    ensures fault { IfErr result (λ f. f ≢ NoMemory → IsInteriorPart tokens.now set.now true interior.old at (Err f)) }
    ensures within { IfOk result (λ next. (at < next) × (next ≤ length tokens.now)) }
{
    let (value, next) = expression(alloc, tokens, set, at + 1)?;
    *interior = interior_with(value, place_at(tokens, at + 1))?;
    Ok(next)
}

/// A texture, whose parts are set.
pub fn take_texture(
    alloc: Global,
    tokens: &[Token],
    set: &Settings,
    depths: usize,
    at: usize,
    material: &mut MaterialDraft,
) -> Result<usize, ParseFault>
    requires within { at < length tokens.now }
    requires whole { AreWhole set.now }
    ensures found { IfOk result (λ next. IsMaterialPart tokens.now set.now depths MaterialPart.Texture material.old at (Ok (record { value = material.new; next = next }))) }
    ensures fault { IfErr result (λ f. f ≢ NoMemory → IsMaterialPart tokens.now set.now depths MaterialPart.Texture material.old at (Err f)) }
    ensures within { IfOk result (λ next. (at < next) × (next ≤ length tokens.now)) }
{
    let mut inner = no_texture();
    let next = braced(alloc, tokens, set, depths, at + 1, &mut inner)?;
    material.texture.set(inner);
    Ok(next)
}

/// An interior, in place of the one before.
pub fn take_interior(
    alloc: Global,
    tokens: &[Token],
    set: &Settings,
    depths: usize,
    at: usize,
    material: &mut MaterialDraft,
) -> Result<usize, ParseFault>
    requires within { at < length tokens.now }
    requires whole { AreWhole set.now }
    ensures found { IfOk result (λ next. IsMaterialPart tokens.now set.now depths MaterialPart.Interior material.old at (Ok (record { value = material.new; next = next }))) }
    ensures fault { IfErr result (λ f. f ≢ NoMemory → IsMaterialPart tokens.now set.now depths MaterialPart.Interior material.old at (Err f)) }
    ensures within { IfOk result (λ next. (at < next) × (next ≤ length tokens.now)) }
{
    let mut interior = plain_interior();
    let next = braced(alloc, tokens, set, depths, at + 1, &mut interior)?;
    material.interior = Some(interior);
    Ok(next)
}

/// A part of a material, by its word.
fn material_statement(
    alloc: Global,
    tokens: &[Token],
    set: &Settings,
    depths: usize,
    part: MaterialPart,
    at: usize,
    material: &mut MaterialDraft,
) -> Result<usize, ParseFault>
    requires within { at ≤ length tokens.now }
    requires some { IsTrue (is_material_part part) → at < length tokens.now }
    requires whole { AreWhole set.now }
    ensures found { IfOk result (λ next. IsMaterialPart tokens.now set.now depths part material.old at (Ok (record { value = material.new; next = next }))) }
    ensures fault { IfErr result (λ f. f ≢ NoMemory → IsMaterialPart tokens.now set.now depths part material.old at (Err f)) }
    ensures within { IfOk result (λ next. (at < next) × (next ≤ length tokens.now)) }
{
    match part {
        MaterialPart::Texture => take_texture(alloc, tokens, set, depths, at, material),
        MaterialPart::Interior => take_interior(alloc, tokens, set, depths, at, material),
        MaterialPart::Other => Err(unfit_at(Wanted::CloseBrace, tokens, at)),
    }
}

impl Block for TextureDraft {
    ghost use Rattle.item_blocks.specs.Textures.{texture_kind};

    ghost kind = { texture_kind };

    fn leads(word: Option<Word>) -> bool {
        matches!(word, Some(Word::Block(BlockWord::Texture)))
    }

    fn first(
        &mut self,
        _alloc: Global,
        _tokens: &[Token],
        _set: &Settings,
        _depths: usize,
        _led: bool,
        at: usize,
    ) -> Result<usize, ParseFault> {
        Ok(at)
    }

    fn statement(
        &mut self,
        alloc: Global,
        tokens: &[Token],
        set: &Settings,
        depths: usize,
        at: usize,
    ) -> Result<usize, ParseFault> {
        let part = texture_part(word_at(tokens, at));
        texture_statement(alloc, tokens, set, depths, part, at, self)
    }

    fn lacks(&self) -> Option<Wanted> {
        None
    }
}

impl Block for Interior {
    ghost use Rattle.item_blocks.specs.Textures.{interior_kind};

    ghost kind = { interior_kind };

    fn leads(word: Option<Word>) -> bool {
        matches!(word, Some(Word::Block(BlockWord::Interior)))
    }

    fn first(
        &mut self,
        _alloc: Global,
        _tokens: &[Token],
        _set: &Settings,
        _depths: usize,
        _led: bool,
        at: usize,
    ) -> Result<usize, ParseFault> {
        Ok(at)
    }

    fn statement(
        &mut self,
        alloc: Global,
        tokens: &[Token],
        set: &Settings,
        _depths: usize,
        at: usize,
    ) -> Result<usize, ParseFault> {
        if is_ior(word_at(tokens, at)) {
            take_ior(alloc, tokens, set, at, self)
        } else {
            Err(unfit_at(Wanted::CloseBrace, tokens, at))
        }
    }

    fn lacks(&self) -> Option<Wanted> {
        None
    }
}

impl Block for MaterialDraft {
    ghost use Rattle.item_blocks.specs.Textures.{material_kind};

    ghost kind = { material_kind };

    fn leads(word: Option<Word>) -> bool {
        matches!(word, Some(Word::Block(BlockWord::Material)))
    }

    fn first(
        &mut self,
        _alloc: Global,
        _tokens: &[Token],
        _set: &Settings,
        _depths: usize,
        _led: bool,
        at: usize,
    ) -> Result<usize, ParseFault> {
        Ok(at)
    }

    fn statement(
        &mut self,
        alloc: Global,
        tokens: &[Token],
        set: &Settings,
        depths: usize,
        at: usize,
    ) -> Result<usize, ParseFault> {
        let part = material_part(word_at(tokens, at));
        material_statement(alloc, tokens, set, depths, part, at, self)
    }

    fn lacks(&self) -> Option<Wanted> {
        None
    }
}
