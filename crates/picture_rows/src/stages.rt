// Scenes of flat boxes.
ghost use Rattle.std.specs.Prelude.{◌≡◌, ◌++◌, [], ◌∷◌, ◌≤◌, ◌<◌, ◌^◌, unsigned_abs, length, IfOk, IfSome};
ghost use Rattle.std.specs.List.{All};
ghost use Rattle.fix_math.specs.Matrices.{IsVectorWithin};
ghost use Rattle.scene_model.specs.Amounts.{AreAmounts, IsAmount, IsRgb, IsRgbft};
ghost use Rattle.scene_model.specs.Looks.{IsCamera, IsFinish, IsTexture};
ghost use Rattle.scene_model.specs.Solids.{IsLeaf};
ghost use Rattle.finish_shade.specs.Meetings.{CanShow};

use fix_math::{Fix, V3};
use scene_model::{Camera, Finish, Leaf, Object, Pattern, Pigment, Rgb, Scene, Shape, Texture};
use std::alloc::{AllocError, Global};
use written_leaves::{Written, leaf};
use xform::start;

/// A box by its lower corner, its sides and its colour, which it shows of itself. Raw numbers.
pub type Flat = ([i32; 3], [i32; 3], [u32; 3]);

/// What a picture is taken of: the boxes, the background, the camera's direction, right and up, and whether it is parallel.
#[derive(Clone, Copy)]
pub struct Stage<'a> {
    pub boxes: &'a [Flat],
    pub background: [u32; 3],
    pub camera: [[i32; 3]; 3],
    pub orthographic: bool,
}

/// A number from 0 to 16.
fn amount(raw: u32) -> Fix
    ensures { IsAmount (2 ^ 20) result }
{
    Fix(raw.min(1048576) as i64)
}

fn grey(raw: u32) -> Rgb
    ensures { AreAmounts (2 ^ 20) result }
{
    [amount(raw), amount(raw), amount(raw)]
}

fn rgb(raws: [u32; 3]) -> Rgb
    ensures { IsRgb result }
{
    [amount(raws[0]), amount(raws[1]), amount(raws[2])]
}

/// A colour that shows of itself.
fn texture(raws: [u32; 3]) -> Texture
    ensures { IsTexture result }
{
    let [red, green, blue] = rgb(raws);
    Texture {
        pigment: Pigment {
            pattern: Pattern::Plain([red, green, blue, Fix(0), Fix(0)]),
            xform: start(),
        },
        finish: Finish {
            ambient: grey(65536),
            diffuse: Fix(0),
            phong: Fix(0),
            phong_size: 40,
            specular: Fix(0),
            gloss: 20,
            reflection: [Fix(0), Fix(0), Fix(0)],
        },
    }
}

/// A leaf with a texture of this number.
fn painted(leaf: &Leaf, number: u32) -> Leaf
    requires { IsLeaf leaf.now }
    ensures leaf { IsLeaf result }
    ensures texture { result.texture ≡ number }
{
    Leaf {
        prim: leaf.prim,
        xform: leaf.xform,
        spot: leaf.spot,
        inverse: false,
        negated: false,
        object: number,
        texture: number,
        ior: Fix(65536),
    }
}

/// A list with one thing more.
fn added<T: Copy>(list: Vec<T>, one: T) -> Result<Vec<T>, AllocError>
    ensures { IfOk result (λ new. new.items ≡ list.items ++ one ∷ []) }
{
    let mut list = list;
    list.push(one)?;
    Ok(list)
}

/// The same of things that own memory.
fn appended<T: Drop>(list: Vec<T>, one: T) -> Result<Vec<T>, AllocError>
    ensures { IfOk result (λ new. new.items ≡ list.items ++ one ∷ []) }
{
    let mut list = list;
    list.push(one)?;
    Ok(list)
}

fn with_texture(textures: Vec<Texture>, flat: &Flat) -> Result<Vec<Texture>, AllocError>
    requires { All IsTexture textures.items }
    ensures { IfOk result (λ new. All IsTexture new.items) }
{
    appended(textures, texture(flat.2))
}

fn textures(alloc: Global, boxes: &[Flat]) -> Result<Vec<Texture>, AllocError>
    ensures { IfOk result (λ textures. All IsTexture textures.items) }
{
    let mut textures = Vec::new(alloc);
    for flat in boxes {
        textures = with_texture(textures, flat)?;
    }
    Ok(textures)
}

/// The leaf of a box, by its number; none where it isn't valid or its texture isn't there.
fn placed(flat: &Flat, number: u32, textures: u64) -> Option<Leaf>
    ensures leaf { IfSome result IsLeaf }
    ensures texture { IfSome result (λ leaf. leaf.texture < textures) }
{
    if number as u64 >= textures {
        return None;
    }
    match leaf(&Written::Block(flat.0, flat.1), &start()) {
        Some(leaf) => Some(painted(&leaf, number)),
        None => None,
    }
}

/// The leaves with one more; an error, too, where there is none.
fn with_leaf(leaves: Vec<Leaf>, one: Option<Leaf>, textures: u64) -> Result<Vec<Leaf>, AllocError>
    requires leaves { All IsLeaf leaves.items }
    requires textures { All (λ leaf. leaf.texture < textures) leaves.items }
    requires one { IfSome one IsLeaf }
    requires texture { IfSome one (λ leaf. leaf.texture < textures) }
    ensures leaves { IfOk result (λ new. All IsLeaf new.items) }
    ensures textures { IfOk result (λ new. All (λ leaf. leaf.texture < textures) new.items) }
{
    match one {
        Some(leaf) => added(leaves, leaf),
        None => Err(AllocError),
    }
}

fn leaves(alloc: Global, boxes: &[Flat], textures: u64) -> Result<Vec<Leaf>, AllocError>
    ensures leaves { IfOk result (λ leaves. All IsLeaf leaves.items) }
    ensures textures { IfOk result (λ leaves. All (λ leaf. leaf.texture < textures) leaves.items) }
{
    let mut leaves = Vec::new(alloc);
    let mut number: u32 = 0;
    for flat in boxes {
        leaves = with_leaf(leaves, placed(flat, number, textures), textures)?;
        number = number.saturating_add(1);
    }
    Ok(leaves)
}

fn objects(alloc: Global, boxes: &[Flat]) -> Result<Vec<Object>, AllocError> {
    let mut objects = Vec::new(alloc);
    let mut number: u32 = 0;
    for _flat in boxes {
        objects.push(Object {
            shape: Shape::Leaf(number),
            no_shadow: false,
        })?;
        number = number.saturating_add(1);
    }
    Ok(objects)
}

fn within(raw: i32) -> Fix
    ensures { unsigned_abs result ≤ 2 ^ 36 }
{
    Fix(raw as i64)
}

fn vector(raws: [i32; 3]) -> V3
    ensures { IsVectorWithin (2 ^ 36) result }
{
    V3 {
        x: within(raws[0]),
        y: within(raws[1]),
        z: within(raws[2]),
    }
}

fn camera(vectors: [[i32; 3]; 3], orthographic: bool) -> Camera
    ensures { IsCamera result }
{
    Camera {
        location: vector([0, 0, 0]),
        direction: vector(vectors[0]),
        right: vector(vectors[1]),
        up: vector(vectors[2]),
        orthographic,
    }
}

/// The scene of a stage; an error, too, where a box isn't valid.
pub fn scene(alloc: Global, stage: &Stage) -> Result<Scene, AllocError>
    ensures shows { IfOk result CanShow }
    ensures camera { IfOk result (λ scene. IsCamera scene.camera) }
{
    let textures = textures(alloc, stage.boxes)?;
    let leaves = leaves(alloc, stage.boxes, textures.len() as u64)?;
    let objects = objects(alloc, stage.boxes)?;
    Ok(Scene {
        camera: camera(stage.camera, stage.orthographic),
        lights: Vec::new(alloc),
        objects,
        leaves,
        sheets: Vec::new(alloc),
        textures,
        background: rgb(stage.background),
        ambient_light: rgb([65536, 65536, 65536]),
        levels: 5,
        adc: Fix(257),
    })
}
