// Scenes of solids.
ghost use Rattle.std.specs.Prelude.{◌≡◌, [], ◌∷◌, ◌++◌, IfSome, IfOk};
ghost use Rattle.std.specs.List.{All};
ghost use Rattle.scene_model.specs.Solids.{IsLeaf};

use fix_math::Fix;
use scene_model::{Camera, Leaf, Object, Op, Scene, Shape};
use std::alloc::{AllocError, Global};
use written_leaves::{Move, Written, leaf, moved, vector};

/// A list with one thing more.
fn added<T: Copy>(list: Vec<T>, one: T) -> Result<Vec<T>, AllocError>
    ensures { IfOk result (λ new. new.items ≡ list.items ++ one ∷ []) }
{
    let mut list = list;
    list.push(one)?;
    Ok(list)
}

/// The leaf of a solid as it is written.
fn written(solid: &Written) -> Option<Leaf>
    ensures { IfSome result IsLeaf }
{
    match moved(Move::Stay) {
        Some(x) => leaf(solid, &x),
        None => None,
    }
}

/// The leaves with one more; an error, too, where it isn't valid.
fn with_leaf(leaves: Vec<Leaf>, one: Option<Leaf>) -> Result<Vec<Leaf>, AllocError>
    requires leaves { All IsLeaf leaves.items }
    requires one { IfSome one IsLeaf }
    ensures { IfOk result (λ new. All IsLeaf new.items) }
{
    match one {
        Some(leaf) => added(leaves, leaf),
        None => Err(AllocError),
    }
}

/// The scene of some leaves and objects.
fn scene_of(alloc: Global, leaves: Vec<Leaf>, objects: Vec<Object>) -> Scene
    ensures { result.leaves.items ≡ leaves.items }
{
    Scene {
        camera: Camera {
            location: vector([0, 0, 0]),
            direction: vector([0, 0, 1]),
            right: vector([1, 0, 0]),
            up: vector([0, 1, 0]),
            orthographic: false,
        },
        lights: Vec::new(alloc),
        objects,
        leaves,
        sheets: Vec::new(alloc),
        textures: Vec::new(alloc),
        background: [Fix(0), Fix(0), Fix(0)],
        ambient_light: [Fix(0), Fix(0), Fix(0)],
        levels: 5,
        adc: Fix(0),
    }
}

/// The leaves of some solids.
fn leaves_of(alloc: Global, solids: &[Written]) -> Result<Vec<Leaf>, AllocError>
    ensures { IfOk result (λ leaves. All IsLeaf leaves.items) }
{
    let mut leaves = Vec::with_capacity(alloc, solids.len())?;
    for solid in solids {
        leaves = with_leaf(leaves, written(solid))?;
    }
    Ok(leaves)
}

/// The scene of some solids, each an object of its own.
pub fn scene(alloc: Global, solids: &[Written]) -> Result<Scene, AllocError>
    ensures { IfOk result (λ scene. All IsLeaf scene.leaves.items) }
{
    let leaves = leaves_of(alloc, solids)?;
    let mut objects = Vec::new(alloc);
    let mut number: u32 = 0;
    for _ in solids {
        objects.push(Object {
            shape: Shape::Leaf(number),
            no_shadow: false,
        })?;
        number = number.saturating_add(1);
    }
    Ok(scene_of(alloc, leaves, objects))
}

/// The scene of one object, the union of some solids.
pub fn united(alloc: Global, solids: &[Written]) -> Result<Scene, AllocError>
    ensures { IfOk result (λ scene. All IsLeaf scene.leaves.items) }
{
    let leaves = leaves_of(alloc, solids)?;
    let mut parts = Vec::new(alloc);
    let mut number: u32 = 0;
    for _ in solids {
        parts.push(Shape::Leaf(number))?;
        number = number.saturating_add(1);
    }
    let mut objects = Vec::new(alloc);
    objects.push(Object {
        shape: Shape::Group {
            op: Op::Union,
            parts,
            inverse: false,
        },
        no_shadow: false,
    })?;
    Ok(scene_of(alloc, leaves, objects))
}
