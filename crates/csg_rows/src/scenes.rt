// Scenes by rows of pieces.
ghost use Rattle.std.specs.Prelude.{◌≡◌, ℤ, List, [], ◌∷◌, ◌++◌, IfSome, IfOk};
ghost use Rattle.std.specs.List.{All};
ghost use Rattle.scene_model.specs.Solids.{IsFrame, IsLeaf, IsPrim, extent_of};

use fix_math::Fix;
use scene_model::{Camera, Leaf, Object, Op, Primitive, Scene, Shape};
use std::alloc::{AllocError, Global};
use written_leaves::{Move, Written, leaf, moved, vector};
use xform::start;

/// How a leaf counts.
#[derive(Clone, Copy, PartialEq, Eq)]
pub enum Kind {
    Plain,
    Inverse,
    /// With open ends.
    Open,
    InverseOpen,
}

/// A piece of a scene, each behind its parts.
#[derive(Clone, Copy)]
pub enum Piece {
    /// A leaf, and whether it is negated.
    Solid(Written, Kind, bool),
    /// A leaf of half the size, and of half the distance.
    Halved(Written),
    /// A leaf that stands somewhere already.
    Again(u32),
    /// A group of the last so many shapes.
    Group(Op, u32),
    /// The same, inverse.
    Outside(Op, u32),
    /// The last shape is an object.
    Object,
    /// The same, without shadow.
    Shadowless,
    End,
}

/// The same with open ends, where it has ends.
fn opened(prim: Primitive) -> Primitive
    ensures prim { IsPrim prim → IsPrim result }
    ensures frame { (frame : List (List ℤ)) → IsFrame prim frame → IsFrame result frame }
    ensures extent { extent_of result ≡ extent_of prim }
{
    match prim {
        Primitive::Cylinder { r, h, .. } => Primitive::Cylinder {
            r,
            h,
            uncapped: true,
        },
        Primitive::Cone {
            ra,
            rb,
            h,
            axis,
            ..
        } => Primitive::Cone {
            ra,
            rb,
            h,
            axis,
            uncapped: true,
        },
        _ => prim,
    }
}

/// A solid with open ends, where it is to have them.
fn ended(prim: Primitive, open: bool) -> Primitive
    ensures prim { IsPrim prim → IsPrim result }
    ensures frame { (frame : List (List ℤ)) → IsFrame prim frame → IsFrame result frame }
    ensures extent { extent_of result ≡ extent_of prim }
{
    if open { opened(prim) } else { prim }
}

/// A leaf as it counts.
fn counted(leaf: &Leaf, kind: Kind, negated: bool) -> Leaf
    requires { IsLeaf leaf.now }
    ensures { IsLeaf result }
{
    let open = kind == Kind::Open || kind == Kind::InverseOpen;
    Leaf {
        prim: ended(leaf.prim, open),
        xform: leaf.xform,
        spot: leaf.spot,
        inverse: kind == Kind::Inverse || kind == Kind::InverseOpen,
        negated,
        object: leaf.object,
        texture: leaf.texture,
        ior: leaf.ior,
    }
}

fn written(solid: &Written, kind: Kind, negated: bool) -> Option<Leaf>
    ensures { IfSome result IsLeaf }
{
    match leaf(solid, &start()) {
        Some(leaf) => Some(counted(&leaf, kind, negated)),
        None => None,
    }
}

fn halved(solid: &Written) -> Option<Leaf>
    ensures { IfSome result IsLeaf }
{
    match moved(Move::Halve) {
        Some(x) => leaf(solid, &x),
        None => None,
    }
}

/// A list with one thing more.
fn added<T: Copy>(list: Vec<T>, one: T) -> Result<Vec<T>, AllocError>
    ensures { IfOk result (λ new. new.items ≡ list.items ++ one ∷ []) }
{
    let mut list = list;
    list.push(one)?;
    Ok(list)
}

/// The leaves with one more; an error, too, where it isn't valid.
fn with_leaf(leaves: Vec<Leaf>, one: Option<Leaf>) -> Result<Vec<Leaf>, AllocError>
    requires leaves { All IsLeaf leaves.items }
    requires one { IfSome one IsLeaf }
    ensures { IfOk result (λ new. All IsLeaf new.items) }
{
    match one {
        Some(leaf) => added(leaves, leaf),
        None => Err(AllocError),
    }
}

/// The scene of some leaves and objects.
fn scene_of(alloc: Global, leaves: Vec<Leaf>, objects: Vec<Object>) -> Scene
    ensures { result.leaves.items ≡ leaves.items }
{
    Scene {
        camera: Camera {
            location: vector([0, 0, 0]),
            direction: vector([0, 0, 1]),
            right: vector([1, 0, 0]),
            up: vector([0, 1, 0]),
            orthographic: false,
        },
        lights: Vec::new(alloc),
        objects,
        leaves,
        sheets: Vec::new(alloc),
        textures: Vec::new(alloc),
        background: [Fix(0), Fix(0), Fix(0)],
        ambient_light: [Fix(0), Fix(0), Fix(0)],
        levels: 5,
        adc: Fix(0),
    }
}

/// The last shapes, taken from the end of a list.
fn taken(alloc: Global, shapes: &mut Vec<Shape>, count: u32) -> Result<Vec<Shape>, AllocError> {
    let mut parts = Vec::new(alloc);
    for _ in 0..count {
        if let Some(shape) = shapes.pop() {
            parts.push(shape)?;
        }
    }
    parts.reverse();
    Ok(parts)
}

fn group(
    alloc: Global,
    shapes: &mut Vec<Shape>,
    op: Op,
    count: u32,
    inverse: bool,
) -> Result<(), AllocError> {
    let parts = taken(alloc, shapes, count)?;
    shapes.push(Shape::Group { op, parts, inverse })?;
    Ok(())
}

fn object(
    objects: &mut Vec<Object>,
    shapes: &mut Vec<Shape>,
    no_shadow: bool,
) -> Result<(), AllocError> {
    if let Some(shape) = shapes.pop() {
        objects.push(Object { shape, no_shadow })?;
    }
    Ok(())
}

/// The leaves with that of a piece, if it is one.
fn with_leaf_of(leaves: Vec<Leaf>, piece: &Piece) -> Result<Vec<Leaf>, AllocError>
    requires { All IsLeaf leaves.items }
    ensures { IfOk result (λ new. All IsLeaf new.items) }
{
    match piece {
        Piece::Solid(solid, kind, negated) => with_leaf(leaves, written(solid, *kind, *negated)),
        Piece::Halved(solid) => with_leaf(leaves, halved(solid)),
        _ => Ok(leaves),
    }
}

/// How many leaves a piece has.
fn leaves_of(piece: &Piece) -> u32 {
    match piece {
        Piece::Solid(_, _, _) => 1,
        Piece::Halved(_) => 1,
        _ => 0,
    }
}

/// What a piece makes of the last shapes, and which of them are objects. A leaf of it has this number.
fn arrange(
    alloc: Global,
    shapes: &mut Vec<Shape>,
    objects: &mut Vec<Object>,
    piece: &Piece,
    number: u32,
) -> Result<(), AllocError> {
    match piece {
        Piece::Solid(_, _, _) => shapes.push(Shape::Leaf(number))?,
        Piece::Halved(_) => shapes.push(Shape::Leaf(number))?,
        Piece::Again(number) => shapes.push(Shape::Leaf(*number))?,
        Piece::Group(op, count) => group(alloc, shapes, *op, *count, false)?,
        Piece::Outside(op, count) => group(alloc, shapes, *op, *count, true)?,
        Piece::Object => object(objects, shapes, false)?,
        Piece::Shadowless => object(objects, shapes, true)?,
        Piece::End => (),
    }
    Ok(())
}

/// The scene of some pieces.
pub fn scene(alloc: Global, pieces: &[Piece]) -> Result<Scene, AllocError>
    ensures { IfOk result (λ scene. All IsLeaf scene.leaves.items) }
{
    let mut leaves = Vec::with_capacity(alloc, 8)?;
    let mut objects = Vec::new(alloc);
    let mut shapes = Vec::new(alloc);
    let mut number: u32 = 0;
    for piece in pieces {
        arrange(alloc, &mut shapes, &mut objects, piece, number)?;
        number = number.saturating_add(leaves_of(piece));
        leaves = with_leaf_of(leaves, piece)?;
    }
    Ok(scene_of(alloc, leaves, objects))
}
