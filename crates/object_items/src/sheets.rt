// Triangles, and meshes of them. (Reference manual, triangle, smooth_triangle and mesh)
ghost use Rattle.std.specs.Prelude.{◌≡◌, ◌≢◌, ◌≤◌, ◌<◌, length, IfOk, IfErr, OnOk, IsSome, IsTrue, Some, None, Ok, Err};
ghost use Rattle.scene_expr.specs.Values.{AreWhole};
ghost use Rattle.item_blocks.specs.Tokens.{word_at};
ghost use Rattle.item_blocks.specs.declared.fault.ParseFault.TheVariants.{NoMemory};
ghost use Rattle.object_items.specs.Objects.{drawn_of};
ghost use Rattle.object_items.specs.Held.{sheet_number};
ghost use Rattle.item_blocks.specs.Textures.{is_texture};
ghost use Rattle.object_items.specs.Sheets.{IsCorners, triangle_word, begins_triangle, with_triangle, with_part, IsTriangleObject, IsOwnTexture, IsMeshPart, IsMeshParts, IsMeshObject};

use crate::object::Part;
use crate::statement::{counted, ended, lacking};
use crate::tables::Tables;
use item_blocks::{
    BlockWord, ParseFault, TextureDraft, Wanted, Word, braced, no_texture, opened, passed, word_at,
};
use scene_expr::Settings;
use scene_lexer::{Token, sign};
use solid_items::{SheetDraft, sheet};
use std::alloc::Global;
use xform::start as at_rest;

/// The most triangles of a scene.
const MOST_SHEETS: usize = 131_072;

/// The corners of a triangle, whose word stands at this token and counts, behind an opening brace.
fn corners(
    alloc: Global,
    tokens: &[Token],
    set: &Settings,
    depths: usize,
    smooth: bool,
    at: usize,
    tables: &Tables,
) -> Result<(SheetDraft, usize), ParseFault>
    requires within { at < length tokens.now }
    requires whole { AreWhole set.now }
    ensures found { IfOk result (λ found. IsCorners tokens.now set.now depths smooth (sheet_number tables.now) at (Ok (record { value = found.0; next = found.1 }))) }
    ensures fault { IfErr result (λ f. f ≢ NoMemory → IsCorners tokens.now set.now depths smooth (sheet_number tables.now) at (Err f)) }
    ensures within { IfOk result (λ found. (at < found.1) × (found.1 ≤ length tokens.now)) }
    ensures depth { IfOk result (λ found. 0 < depths) }
{
    let (before, more) = (tables.sheets_before(), tables.sheets().len());
    let brace = counted(10, MOST_SHEETS, before, more, tokens, at)?;
    let start = opened(tokens, depths, brace)?;
    let (sheet, next) = sheet(alloc, tokens, set, smooth, start)?;
    Ok((sheet, next))
}

/// A triangle, whose word stands at this token, and the token behind it.
pub fn triangle(
    alloc: Global,
    tokens: &[Token],
    set: &Settings,
    depths: usize,
    smooth: bool,
    at: usize,
    tables: &mut Tables,
) -> Result<(Part, usize), ParseFault>
    requires few { depths ≤ 64 }
    requires within { at < length tokens.now }
    requires whole { AreWhole set.now }
    ensures found { IfOk result (λ found. IsTriangleObject tokens.now set.now depths smooth tables.old at (Ok (record { value = drawn_of found.0 tables.new; next = found.1 }))) }
    ensures fault { IfErr result (λ f. f ≢ NoMemory → IsTriangleObject tokens.now set.now depths smooth tables.old at (Err f)) }
    ensures within { IfOk result (λ found. (at < found.1) × (found.1 ≤ length tokens.now)) }
    ensures grown { IfOk result (λ found. length tables.old.things ≤ length tables.new.things) }
{
    let (sheet, next) = corners(alloc, tokens, set, depths, smooth, at, tables)?;
    let marks = tables.marks();
    let thing = tables.add_thing(at_rest())?;
    tables.add_sheet(sheet, thing, None)?;
    ended(
        alloc,
        tokens,
        set,
        depths - 1,
        false,
        next,
        &marks,
        Part::without_shape(),
        tables,
    )
}

/// Of the word of a triangle, whether it is a smooth one; none for each other word.
fn triangle_word(word: Option<Word>) -> Option<bool>
    ensures value { result ≡ triangle_word word }
    ensures some { IsSome result → IsSome word }
{
    match word {
        Some(Word::Triangle) => Some(false),
        Some(Word::SmoothTriangle) => Some(true),
        _ => None,
    }
}

fn begins_triangle(tokens: &[Token], at: usize) -> bool
    ensures { result ≡ begins_triangle tokens.now at }
{
    triangle_word(word_at(tokens, at)).is_some()
}

fn is_texture(word: Option<Word>) -> bool
    ensures value { result ≡ is_texture word }
    ensures some { IsTrue result → IsSome word }
{
    matches!(word, Some(Word::Block(BlockWord::Texture)))
}

/// The texture of a triangle's own, if one stands here.
fn own_texture(
    alloc: Global,
    tokens: &[Token],
    set: &Settings,
    depths: usize,
    at: usize,
) -> Result<(TextureDraft, usize), ParseFault>
    requires within { at ≤ length tokens.now }
    requires whole { AreWhole set.now }
    ensures found { IfOk result (λ found. IsOwnTexture tokens.now set.now depths (is_texture (word_at tokens.now at)) at (Ok (record { value = found.0; next = found.1 }))) }
    ensures fault { IfErr result (λ f. f ≢ NoMemory → IsOwnTexture tokens.now set.now depths (is_texture (word_at tokens.now at)) at (Err f)) }
    ensures within { IfOk result (λ found. (at ≤ found.1) × (found.1 ≤ length tokens.now)) }
{
    let mut texture = no_texture();
    if !is_texture(word_at(tokens, at)) {
        return Ok((texture, at));
    }
    let next = braced(alloc, tokens, set, depths, at + 1, &mut texture)?;
    Ok((texture, next))
}

/// A triangle of a mesh, whose word stands at this token, and the token behind it.
fn mesh_part(
    alloc: Global,
    tokens: &[Token],
    set: &Settings,
    depths: usize,
    thing: usize,
    smooth: bool,
    at: usize,
    tables: &mut Tables,
) -> Result<usize, ParseFault>
    requires within { at < length tokens.now }
    requires whole { AreWhole set.now }
    ensures found { IfOk result (λ next. IsMeshPart tokens.now set.now depths thing (Some smooth) tables.old at (Ok (record { value = tables.new; next = next }))) }
    ensures fault { IfErr result (λ f. f ≢ NoMemory → IsMeshPart tokens.now set.now depths thing (Some smooth) tables.old at (Err f)) }
    ensures within { IfOk result (λ next. (at < next) × (next ≤ length tokens.now)) }
    ensures grown { IfOk result (λ next. length tables.old.things ≤ length tables.new.things) }
{
    let (sheet, end) = corners(alloc, tokens, set, depths, smooth, at, tables)?;
    let (texture, end) = own_texture(alloc, tokens, set, depths - 1, end)?;
    let next = passed(sign::CLOSE_BRACE, Wanted::CloseBrace, tokens, end)?;
    let own = tables.add_texture(texture)?;
    tables.add_sheet(sheet, thing, own)?;
    Ok(next)
}

/// A triangle of a mesh, if its word stands here.
fn mesh_part_at(
    alloc: Global,
    tokens: &[Token],
    set: &Settings,
    depths: usize,
    thing: usize,
    at: usize,
    tables: &mut Tables,
) -> Result<usize, ParseFault>
    requires within { at ≤ length tokens.now }
    requires whole { AreWhole set.now }
    ensures found { IfOk result (λ next. IsMeshPart tokens.now set.now depths thing (triangle_word (word_at tokens.now at)) tables.old at (Ok (record { value = tables.new; next = next }))) }
    ensures fault { IfErr result (λ f. f ≢ NoMemory → IsMeshPart tokens.now set.now depths thing (triangle_word (word_at tokens.now at)) tables.old at (Err f)) }
    ensures within { IfOk result (λ next. (at < next) × (next ≤ length tokens.now)) }
    ensures grown { IfOk result (λ next. length tables.old.things ≤ length tables.new.things) }
{
    match triangle_word(word_at(tokens, at)) {
        Some(smooth) => mesh_part(alloc, tokens, set, depths, thing, smooth, at, tables),
        None => Err(lacking(Wanted::Part, true, tokens, at)),
    }
}

/// One triangle of a mesh or more.
fn mesh_parts(
    alloc: Global,
    tokens: &[Token],
    set: &Settings,
    depths: usize,
    thing: usize,
    at: usize,
    tables: &mut Tables,
) -> Result<usize, ParseFault>
    requires within { at ≤ length tokens.now }
    requires whole { AreWhole set.now }
    ensures found { IfOk result (λ next. IsMeshParts tokens.now set.now depths thing tables.old at (Ok (record { value = tables.new; next = next }))) }
    ensures fault { IfErr result (λ f. f ≢ NoMemory → IsMeshParts tokens.now set.now depths thing tables.old at (Err f)) }
    ensures within { IfOk result (λ next. (at < next) × (next ≤ length tokens.now)) }
    ensures grown { IfOk result (λ next. length tables.old.things ≤ length tables.new.things) }
{
    let mut next = mesh_part_at(alloc, tokens, set, depths, thing, at, tables)?;
    'parts: while begins_triangle(tokens, next) {
        next = mesh_part_at(alloc, tokens, set, depths, thing, next, tables)?;
    }
    Ok(next)
}

/// A mesh, whose word stands at this token, and the token behind it.
pub fn mesh(
    alloc: Global,
    tokens: &[Token],
    set: &Settings,
    depths: usize,
    at: usize,
    tables: &mut Tables,
) -> Result<(Part, usize), ParseFault>
    requires few { depths ≤ 64 }
    requires within { at < length tokens.now }
    requires whole { AreWhole set.now }
    ensures found { IfOk result (λ found. IsMeshObject tokens.now set.now depths tables.old at (Ok (record { value = drawn_of found.0 tables.new; next = found.1 }))) }
    ensures fault { IfErr result (λ f. f ≢ NoMemory → IsMeshObject tokens.now set.now depths tables.old at (Err f)) }
    ensures within { IfOk result (λ found. (at < found.1) × (found.1 ≤ length tokens.now)) }
    ensures grown { IfOk result (λ found. length tables.old.things ≤ length tables.new.things) }
{
    let start = opened(tokens, depths, at + 1)?;
    let marks = tables.marks();
    let thing = tables.add_thing(at_rest())?;
    let next = mesh_parts(alloc, tokens, set, depths - 1, thing, start, tables)?;
    ended(
        alloc,
        tokens,
        set,
        depths - 1,
        true,
        next,
        &marks,
        Part::without_shape(),
        tables,
    )
}
