// Objects in the scene: their solids and triangles at their places in the world, and their textures over
// the default in force.
ghost use Rattle.std.specs.Prelude.{◌≡◌, ◌≢◌, ◌≤◌, ◌<◌, ◌+◌, ◌^◌, ◌++◌, length, map, Some, IfOk, IfErr, IfSome, Ok, Err};
ghost use Rattle.std.specs.List.{All};
ghost use Rattle.scene_model.specs.Looks.{IsTexture};
ghost use Rattle.scene_model.specs.Solids.{IsLeaf};
ghost use Rattle.scene_model.specs.Valid.{IsSheet, Valid};
ghost use Rattle.xform.specs.Transforms.{IsPlaced};
ghost use Rattle.item_blocks.specs.declared.fault.ParseFault.TheVariants.{NoMemory};
ghost use Rattle.item_blocks.specs.Made.{texture_seen, texture_of};
ghost use Rattle.item_blocks.specs.Sound.{IsSoundTexture, IsSoundPigment};
ghost use Rattle.object_items.specs.Objects.{object_seen};
ghost use Rattle.object_items.specs.Sound.{IsSoundObject, IsSoundHeld};
ghost use Rattle.solid_items.specs.declared.draft.Misplaced.{Misplaced};
ghost use Rattle.scene_parser.specs.Placed.{Placed, parts_placed, thing_at, texture_number, leaf_placed, sheet_placed, each, appended, unless, token_of, earlier, first_of, misplaced_at, pigment_at, settled, textures_of, object_row, numbers_in, with_object};
ghost use Rattle.scene_parser.specs.Seen.{scene_seen};
ghost use Rattle.scene_parser.specs.Sound.{IsNumbered, IsReadyLeaf, IsReadySheet};

use crate::list::added;
use item_blocks::{ParseFault, PigmentDraft, TextureDraft, ior_of};
use object_items::{GivenTexture, LeafDraft, ObjectDraft, SheetPart, Tables};
use scene_expr::place_at;
use scene_lexer::Token;
use scene_model::{Leaf, Object, Scene, Shape, Sheet, Texture};
use solid_items::{LeafRole, Misplaced, leaf_place, sheet_place};
use std::alloc::Global;
use xform::{Xform, XformFault, start};

/// The numbers in a scene that the parts of an object take.
#[derive(Clone, Copy, Debug, PartialEq, Eq)]
pub struct Numbers {
    /// That of the object.
    pub object: u32,
    /// That of the default texture in force.
    pub standard: u32,
    /// That of the object's first texture.
    pub first: usize,
}

/// The transform of a thing.
fn thing_at(things: &[Xform], number: usize) -> Xform
    requires { All IsPlaced things.now }
    ensures value { result ≡ thing_at things.now number }
    ensures placed { IsPlaced result }
{
    match things.get(number) {
        Some(x) => *x,
        None => start(),
    }
}

fn texture_number(numbers: &Numbers, texture: Option<usize>) -> u32
    requires { IsNumbered numbers.now texture }
    ensures { result ≡ texture_number numbers.now texture }
{
    match texture {
        Some(number) => (numbers.first + number) as u32,
        None => numbers.standard,
    }
}

fn leaf_placed(numbers: &Numbers, things: &[Xform], leaf: &LeafDraft) -> Result<Leaf, Misplaced>
    requires placed { All IsPlaced things.now }
    requires ready { IsReadyLeaf numbers.now leaf.now }
    ensures value { result ≡ leaf_placed numbers.now things.now leaf.now }
    ensures valid { IfOk result IsLeaf }
{
    let role = LeafRole {
        inverse: leaf.inverse,
        negated: leaf.negated,
        object: numbers.object,
        texture: texture_number(numbers, leaf.texture),
        ior: ior_of(leaf.interior),
    };
    leaf_place(&leaf.solid, &thing_at(things, leaf.thing), &role)
}

fn sheet_placed(
    numbers: &Numbers,
    things: &[Xform],
    no_shadow: bool,
    part: &SheetPart,
) -> Result<Sheet, Misplaced>
    requires placed { All IsPlaced things.now }
    requires ready { IsReadySheet numbers.now part.now }
    ensures value { result ≡ sheet_placed numbers.now things.now no_shadow part.now }
    ensures valid { IfOk result IsSheet }
{
    let texture = texture_number(numbers, part.texture);
    let ior = ior_of(part.interior);
    sheet_place(
        &part.sheet,
        &thing_at(things, part.thing),
        texture,
        ior,
        no_shadow,
    )
}

/// The leaves of a scene with those of an object, up to the first that can't be placed.
fn place_leaves(
    leaves: Vec<Leaf>,
    numbers: &Numbers,
    things: &[Xform],
    drafts: &[LeafDraft],
) -> Result<(Vec<Leaf>, Option<Misplaced>), ParseFault>
    requires placed { All IsPlaced things.now }
    requires ready { All (IsReadyLeaf numbers.now) drafts.now }
    requires valid { All IsLeaf leaves.items }
    ensures found { IfOk result (λ placed. unless placed.1 placed.0.items ≡ appended leaves.items (each (leaf_placed numbers.now things.now) drafts.now)) }
    ensures memory { IfErr result (λ f. f ≡ NoMemory) }
    ensures valid { IfOk result (λ placed. All IsLeaf placed.0.items) }
{
    let mut leaves = leaves;
    for draft in drafts {
        match leaf_placed(numbers, things, draft) {
            Ok(leaf) => {
                leaves = added(leaves, leaf)?;
            }
            Err(misplaced) => return Ok((leaves, Some(misplaced))),
        }
    }
    Ok((leaves, None))
}

/// The triangles of a scene with those of an object, up to the first that can't be placed.
fn place_sheets(
    sheets: Vec<Sheet>,
    numbers: &Numbers,
    things: &[Xform],
    no_shadow: bool,
    parts: &[SheetPart],
) -> Result<(Vec<Sheet>, Option<Misplaced>), ParseFault>
    requires placed { All IsPlaced things.now }
    requires ready { All (IsReadySheet numbers.now) parts.now }
    requires valid { All IsSheet sheets.items }
    ensures found { IfOk result (λ placed. unless placed.1 placed.0.items ≡ appended sheets.items (each (sheet_placed numbers.now things.now no_shadow) parts.now)) }
    ensures memory { IfErr result (λ f. f ≡ NoMemory) }
    ensures valid { IfOk result (λ placed. All IsSheet placed.0.items) }
{
    let mut sheets = sheets;
    for part in parts {
        match sheet_placed(numbers, things, no_shadow, part) {
            Ok(sheet) => {
                sheets = added(sheets, sheet)?;
            }
            Err(misplaced) => return Ok((sheets, Some(misplaced))),
        }
    }
    Ok((sheets, None))
}

fn token_of(misplaced: Misplaced) -> usize
    ensures { result ≡ token_of misplaced }
{
    match misplaced {
        Misplaced::Outside(at) => at,
        Misplaced::NoNormal(at) => at,
    }
}

fn earlier(a: Misplaced, b: Misplaced) -> Misplaced
    ensures { result ≡ earlier a b }
{
    if token_of(a) <= token_of(b) { a } else { b }
}

/// Of what can't be placed what is written first.
fn first_of(leaf: Option<Misplaced>, sheet: Option<Misplaced>) -> Option<Misplaced>
    ensures { result ≡ first_of leaf sheet }
{
    match leaf {
        Some(a) => match sheet {
            Some(b) => Some(earlier(a, b)),
            None => Some(a),
        },
        None => sheet,
    }
}

fn misplaced_at(tokens: &[Token], misplaced: Misplaced) -> ParseFault
    ensures { result ≡ misplaced_at tokens.now misplaced }
{
    match misplaced {
        Misplaced::Outside(at) => ParseFault::Xform {
            place: place_at(tokens, at),
            fault: XformFault::AnchorRange,
        },
        Misplaced::NoNormal(at) => ParseFault::ValueRange {
            place: place_at(tokens, at),
        },
    }
}

/// A pigment where its thing was moved.
fn pigment_at(
    alloc: Global,
    things: &[Xform],
    thing: Option<usize>,
    pigment: &PigmentDraft,
) -> Result<PigmentDraft, ParseFault>
    requires placed { All IsPlaced things.now }
    ensures found { IfOk result (λ made. Some made ≡ pigment_at things.now thing (Some pigment.now)) }
    ensures memory { IfErr result (λ f. f ≡ NoMemory) }
    ensures sound { IfOk result (λ made. IsSoundPigment pigment.now → IsSoundPigment made) }
{
    let mut made = pigment.copied(alloc)?;
    if let Some(number) = thing {
        made.xform = thing_at(things, number);
    }
    Ok(made)
}

/// A texture that is given, where its pigment was moved.
fn settled(
    alloc: Global,
    things: &[Xform],
    given: &GivenTexture,
) -> Result<TextureDraft, ParseFault>
    requires placed { All IsPlaced things.now }
    ensures found { IfOk result (λ made. made ≡ settled things.now given.now) }
    ensures memory { IfErr result (λ f. f ≡ NoMemory) }
    ensures sound { IfOk result (λ made. IsSoundTexture given.now.texture → IsSoundTexture made) }
{
    let finish = given.texture.finish;
    match &given.texture.pigment {
        Some(pigment) => {
            let made = pigment_at(alloc, things, given.thing, pigment)?;
            Ok(TextureDraft {
                pigment: Some(made),
                finish,
            })
        }
        None => Ok(TextureDraft {
            pigment: None,
            finish,
        }),
    }
}

/// The textures of a scene with those of an object, over the default in force.
fn place_textures(
    alloc: Global,
    textures: Vec<Texture>,
    default: &TextureDraft,
    things: &[Xform],
    given: &[GivenTexture],
) -> Result<Vec<Texture>, ParseFault>
    requires placed { All IsPlaced things.now }
    requires sound { All (λ one. IsSoundTexture one.texture) given.now }
    requires default { IsSoundTexture default.now }
    requires valid { All IsTexture textures.items }
    ensures found { IfOk result (λ new. map texture_seen new.items ≡ map texture_seen textures.items ++ textures_of default.now things.now given.now) }
    ensures memory { IfErr result (λ f. f ≡ NoMemory) }
    ensures valid { IfOk result (λ new. All IsTexture new.items) }
{
    let mut textures = textures;
    for one in given {
        let texture = settled(alloc, things, one)?.made(alloc, default)?;
        textures = added(textures, texture)?;
    }
    Ok(textures)
}

/// The objects of a scene with one more; triangles alone make none.
fn place_shape(
    objects: Vec<Object>,
    shape: Option<Shape>,
    no_shadow: bool,
) -> Result<Vec<Object>, ParseFault>
    ensures found { IfOk result (λ new. new.items ≡ objects.items ++ object_row shape no_shadow) }
    ensures memory { IfErr result (λ f. f ≡ NoMemory) }
{
    match shape {
        Some(shape) => added(objects, Object { shape, no_shadow }),
        None => Ok(objects),
    }
}

/// A number for one of so many things of a scene. Where there are more than numbers, there is no memory
/// for them.
pub fn number_of(count: usize) -> Result<u32, ParseFault>
    ensures found { IfOk result (λ number. number ≡ count) }
    ensures memory { IfErr result (λ f. f ≡ NoMemory) }
{
    if count > 0xFFFF_FFFF {
        return Err(ParseFault::NoMemory);
    }
    Ok(count as u32)
}

/// The numbers that an object takes in a scene, which has room for so many textures more.
fn numbers_in(scene: &Scene, standard: u32, textures: usize) -> Result<Numbers, ParseFault>
    ensures found { IfOk result (λ numbers. numbers ≡ numbers_in (scene_seen scene.now) standard) }
    ensures few { IfOk result (λ numbers. numbers.first + textures < 2 ^ 32) }
    ensures memory { IfErr result (λ f. f ≡ NoMemory) }
{
    let object = number_of(scene.objects.len())?;
    let first = scene.textures.len();
    if first > 0xFFFF_FFFF || textures > 0xFFFF_FFFF - first {
        return Err(ParseFault::NoMemory);
    }
    Ok(Numbers {
        object,
        standard,
        first,
    })
}

/// The solids and the triangles of an object behind those of the scene.
fn place_parts(
    tokens: &[Token],
    leaves: Vec<Leaf>,
    sheets: Vec<Sheet>,
    numbers: &Numbers,
    tables: &Tables,
    no_shadow: bool,
) -> Result<(Vec<Leaf>, Vec<Sheet>), ParseFault>
    requires held { IsSoundHeld tables.now }
    requires few { numbers.now.first + length tables.now.textures < 2 ^ 32 }
    requires leaves { All IsLeaf leaves.items }
    requires sheets { All IsSheet sheets.items }
    ensures found { IfOk result (λ placed. (parts : Placed) × (parts_placed numbers.now tables.now no_shadow ≡ Ok parts) × (placed.0.items ≡ leaves.items ++ parts.leaves) × (placed.1.items ≡ sheets.items ++ parts.sheets)) }
    ensures fault { IfErr result (λ f. f ≢ NoMemory → (misplaced : Misplaced) × (parts_placed numbers.now tables.now no_shadow ≡ Err misplaced) × (f ≡ misplaced_at tokens.now misplaced)) }
    ensures leaves { IfOk result (λ placed. All IsLeaf placed.0.items) }
    ensures sheets { IfOk result (λ placed. All IsSheet placed.1.items) }
{
    let (leaves, leaf) = place_leaves(leaves, numbers, tables.xforms(), tables.leaves())?;
    let (sheets, sheet) = place_sheets(
        sheets,
        numbers,
        tables.xforms(),
        no_shadow,
        tables.sheets(),
    )?;
    match first_of(leaf, sheet) {
        Some(misplaced) => Err(misplaced_at(tokens, misplaced)),
        None => Ok((leaves, sheets)),
    }
}

/// An object, as it was read, in the scene: over the default texture of this number. What can't be placed
/// is at fault where it is written.
pub fn place_object(
    alloc: Global,
    tokens: &[Token],
    default: &TextureDraft,
    standard: u32,
    object: ObjectDraft,
    scene: Scene,
) -> Result<Scene, ParseFault>
    requires valid { Valid scene }
    requires default { IsSoundTexture default.now }
    requires standard { standard < length scene.textures.items }
    requires object { IsSoundObject (length scene.leaves.items) (length scene.sheets.items) object }
    ensures found { IfOk result (λ new. with_object tokens.now default.now standard (object_seen object) (scene_seen scene) ≡ Ok (scene_seen new)) }
    ensures fault { IfErr result (λ f. f ≢ NoMemory → with_object tokens.now default.now standard (object_seen object) (scene_seen scene) ≡ Err f) }
    ensures valid { IfOk result Valid }
{
    let numbers = numbers_in(&scene, standard, object.tables.textures().len())?;
    let ObjectDraft {
        tables,
        shape,
        no_shadow,
    } = object;
    let (leaves, sheets) = place_parts(
        tokens,
        scene.leaves,
        scene.sheets,
        &numbers,
        &tables,
        no_shadow,
    )?;
    let textures = place_textures(
        alloc,
        scene.textures,
        default,
        tables.xforms(),
        tables.textures(),
    )?;
    let objects = place_shape(scene.objects, shape, no_shadow)?;
    Ok(Scene {
        camera: scene.camera,
        lights: scene.lights,
        objects,
        leaves,
        sheets,
        textures,
        background: scene.background,
        ambient_light: scene.ambient_light,
        levels: scene.levels,
        adc: scene.adc,
    })
}
