// Scenes by a few whole numbers.
ghost use Rattle.std.specs.Prelude.{◌≡◌, ◌++◌, [], ◌∷◌, ◌≤◌, ◌<◌, ◌^◌, unsigned_abs, length, IfOk, IfSome};
ghost use Rattle.std.specs.List.{All};
ghost use Rattle.fix_math.specs.Matrices.{IsVectorWithin};
ghost use Rattle.scene_model.specs.Amounts.{AreAmounts, IsAmount, IsDirection, IsIor, IsRgb, IsRgbft};
ghost use Rattle.scene_model.specs.Looks.{IsFade, IsFinish, IsLight, IsSpotlight, IsTexture};
ghost use Rattle.scene_model.specs.Solids.{IsLeaf};
ghost use Rattle.finish_shade.specs.Meetings.{CanShow};

use fix_math::{Fix, V3};
use scene_model::{
    Camera, Fade, Finish, Leaf, Light, Object, Pattern, Pigment, Rgb, Rgbft, Scene, Shape,
    Spotlight, Texture,
};
use std::alloc::{AllocError, Global};
use written_leaves::{Written, leaf, vector};
use xform::start;

/// A solid, its red, green, blue, filter and transmit, and how it gives light back. Raw numbers.
#[derive(Clone, Copy)]
pub struct Thing {
    pub solid: Written,
    pub colour: [u32; 5],
    pub ambient: u32,
    pub diffuse: u32,
    /// Phong and its size, specular and its gloss.
    pub shine: [u32; 4],
    pub reflection: u32,
    pub ior: u32,
    pub no_shadow: bool,
}

/// A spotlight's axis, and its inner and its outer cosine.
#[derive(Clone, Copy)]
pub struct Cone {
    pub axis: [i32; 3],
    pub inner: u32,
    pub outer: u32,
}

/// A lamp of white light.
#[derive(Clone, Copy)]
pub struct Lamp {
    pub at: [i32; 3],
    pub strength: u32,
    pub shadowless: bool,
    pub spot: Option<Cone>,
    /// The distance and the power.
    pub fade: Option<(u32, u32)>,
}

/// A number from 0 to 1.
fn share(raw: u32) -> Fix
    ensures { IsAmount 65536 result }
{
    Fix(raw.min(65536) as i64)
}

/// A number from 0 to 16.
fn strength(raw: u32) -> Fix
    ensures { IsAmount (2 ^ 20) result }
{
    Fix(raw.min(1048576) as i64)
}

/// Three times the same.
fn grey(raw: u32) -> Rgb
    ensures { AreAmounts (2 ^ 20) result }
{
    [strength(raw), strength(raw), strength(raw)]
}

fn grey_share(raw: u32) -> Rgb
    ensures { AreAmounts 65536 result }
{
    [share(raw), share(raw), share(raw)]
}

fn colour(raws: [u32; 5]) -> Rgbft
    ensures { IsRgbft result }
{
    [
        strength(raws[0]),
        strength(raws[1]),
        strength(raws[2]),
        share(raws[3]),
        share(raws[4]),
    ]
}

/// A colour of a scene.
pub fn rgb(raws: [u32; 3]) -> Rgb
    ensures { IsRgb result }
{
    [strength(raws[0]), strength(raws[1]), strength(raws[2])]
}

fn size_of_highlight(raw: u32) -> u32
    ensures low { 1 ≤ result }
    ensures high { result ≤ 65535 }
{
    raw.clamp(1, 65535)
}

fn finish(thing: &Thing) -> Finish
    ensures { IsFinish result }
{
    Finish {
        ambient: grey(thing.ambient),
        diffuse: strength(thing.diffuse),
        phong: strength(thing.shine[0]),
        phong_size: size_of_highlight(thing.shine[1]),
        specular: strength(thing.shine[2]),
        gloss: size_of_highlight(thing.shine[3]),
        reflection: grey_share(thing.reflection),
    }
}

fn texture(thing: &Thing) -> Texture
    ensures { IsTexture result }
{
    Texture {
        pigment: Pigment {
            pattern: Pattern::Plain(colour(thing.colour)),
            xform: start(),
        },
        finish: finish(thing),
    }
}

fn index(raw: u32) -> Fix
    ensures { IsIor result }
{
    Fix(raw.clamp(4096, 1 << 20) as i64)
}

/// A leaf with a texture of this number and an index of refraction.
fn painted(leaf: &Leaf, number: u32, ior: u32) -> Leaf
    requires { IsLeaf leaf.now }
    ensures leaf { IsLeaf result }
    ensures texture { result.texture ≡ number }
{
    Leaf {
        prim: leaf.prim,
        xform: leaf.xform,
        spot: leaf.spot,
        inverse: false,
        negated: false,
        object: number,
        texture: number,
        ior: index(ior),
    }
}

/// A list with one thing more.
fn added<T: Copy>(list: Vec<T>, one: T) -> Result<Vec<T>, AllocError>
    ensures { IfOk result (λ new. new.items ≡ list.items ++ one ∷ []) }
{
    let mut list = list;
    list.push(one)?;
    Ok(list)
}

/// The same of things that own memory.
fn appended<T: Drop>(list: Vec<T>, one: T) -> Result<Vec<T>, AllocError>
    ensures { IfOk result (λ new. new.items ≡ list.items ++ one ∷ []) }
{
    let mut list = list;
    list.push(one)?;
    Ok(list)
}

fn with_texture(textures: Vec<Texture>, thing: &Thing) -> Result<Vec<Texture>, AllocError>
    requires { All IsTexture textures.items }
    ensures { IfOk result (λ new. All IsTexture new.items) }
{
    appended(textures, texture(thing))
}

fn textures(alloc: Global, things: &[Thing]) -> Result<Vec<Texture>, AllocError>
    ensures { IfOk result (λ textures. All IsTexture textures.items) }
{
    let mut textures = Vec::new(alloc);
    for thing in things {
        textures = with_texture(textures, thing)?;
    }
    Ok(textures)
}

/// The leaf of a thing, by its number; none where it isn't valid or its texture isn't there.
fn placed(thing: &Thing, number: u32, textures: u64) -> Option<Leaf>
    ensures leaf { IfSome result IsLeaf }
    ensures texture { IfSome result (λ leaf. leaf.texture < textures) }
{
    if number as u64 >= textures {
        return None;
    }
    match leaf(&thing.solid, &start()) {
        Some(leaf) => Some(painted(&leaf, number, thing.ior)),
        None => None,
    }
}

/// The leaves with one more; an error, too, where there is none.
fn with_leaf(leaves: Vec<Leaf>, one: Option<Leaf>, textures: u64) -> Result<Vec<Leaf>, AllocError>
    requires leaves { All IsLeaf leaves.items }
    requires textures { All (λ leaf. leaf.texture < textures) leaves.items }
    requires one { IfSome one IsLeaf }
    requires texture { IfSome one (λ leaf. leaf.texture < textures) }
    ensures leaves { IfOk result (λ new. All IsLeaf new.items) }
    ensures textures { IfOk result (λ new. All (λ leaf. leaf.texture < textures) new.items) }
{
    match one {
        Some(leaf) => added(leaves, leaf),
        None => Err(AllocError),
    }
}

fn leaves(alloc: Global, things: &[Thing], textures: u64) -> Result<Vec<Leaf>, AllocError>
    ensures leaves { IfOk result (λ leaves. All IsLeaf leaves.items) }
    ensures textures { IfOk result (λ leaves. All (λ leaf. leaf.texture < textures) leaves.items) }
{
    let mut leaves = Vec::new(alloc);
    let mut number: u32 = 0;
    for thing in things {
        leaves = with_leaf(leaves, placed(thing, number, textures), textures)?;
        number = number.saturating_add(1);
    }
    Ok(leaves)
}

fn objects(alloc: Global, things: &[Thing]) -> Result<Vec<Object>, AllocError> {
    let mut objects = Vec::new(alloc);
    let mut number: u32 = 0;
    for thing in things {
        objects.push(Object {
            shape: Shape::Leaf(number),
            no_shadow: thing.no_shadow,
        })?;
        number = number.saturating_add(1);
    }
    Ok(objects)
}

fn size(number: Fix) -> u64
    ensures { result ≡ unsigned_abs number }
{
    number.raw().unsigned_abs()
}

fn spotlight(cone: &Cone) -> Option<Spotlight>
    ensures { IfSome result IsSpotlight }
{
    let axis = vector(cone.axis);
    let greatest = size(axis.x).max(size(axis.y)).max(size(axis.z));
    if greatest < 32768 || greatest > 65537 {
        return None;
    }
    Some(Spotlight {
        axis,
        inner: share(cone.inner),
        outer: share(cone.outer),
        tightness: 0,
    })
}

fn spot(spot: &Option<Cone>) -> Option<Spotlight>
    ensures { IfSome result IsSpotlight }
{
    match spot {
        Some(cone) => spotlight(cone),
        None => None,
    }
}

fn fade(fade: Option<(u32, u32)>) -> Option<Fade>
    ensures { IfSome result IsFade }
{
    match fade {
        Some((distance, power)) => Some(Fade {
            distance: Fix(distance.max(1) as i64),
            power: power.clamp(1, 4),
        }),
        None => None,
    }
}

fn coordinate(raw: i32) -> Fix
    ensures { unsigned_abs result ≤ 2 ^ 36 }
{
    Fix(raw as i64)
}

fn place(at: [i32; 3]) -> V3
    ensures { IsVectorWithin (2 ^ 36) result }
{
    V3 {
        x: coordinate(at[0]),
        y: coordinate(at[1]),
        z: coordinate(at[2]),
    }
}

fn light(lamp: &Lamp) -> Light
    ensures { IsLight result }
{
    Light {
        at: place(lamp.at),
        colour: rgb([lamp.strength, lamp.strength, lamp.strength]),
        shadowless: lamp.shadowless,
        spot: spot(&lamp.spot),
        fade: fade(lamp.fade),
    }
}

fn with_light(lights: Vec<Light>, one: Light) -> Result<Vec<Light>, AllocError>
    requires lights { All IsLight lights.items }
    requires one { IsLight one }
    ensures { IfOk result (λ new. All IsLight new.items) }
{
    added(lights, one)
}

fn lights(alloc: Global, lamps: &[Lamp]) -> Result<Vec<Light>, AllocError>
    ensures { IfOk result (λ lights. All IsLight lights.items) }
{
    let mut lights = Vec::new(alloc);
    for lamp in lamps {
        lights = with_light(lights, light(lamp))?;
    }
    Ok(lights)
}

/// A scene of some things and lamps before a background of this colour; an error, too, where one isn't valid.
pub fn stage(
    alloc: Global,
    things: &[Thing],
    lamps: &[Lamp],
    background: [u32; 3],
    adc: u32,
) -> Result<Scene, AllocError>
    ensures { IfOk result CanShow }
{
    let textures = textures(alloc, things)?;
    let leaves = leaves(alloc, things, textures.len() as u64)?;
    let lights = lights(alloc, lamps)?;
    let objects = objects(alloc, things)?;
    if lights.len() > 256 {
        return Err(AllocError);
    }
    Ok(Scene {
        camera: Camera {
            location: vector([0, 0, 0]),
            direction: vector([0, 0, 1]),
            right: vector([1, 0, 0]),
            up: vector([0, 1, 0]),
            orthographic: false,
        },
        lights,
        objects,
        leaves,
        sheets: Vec::new(alloc),
        textures,
        background: rgb(background),
        ambient_light: rgb([65536, 65536, 65536]),
        levels: 5,
        adc: share(adc),
    })
}
