// Scenes, made ready.
ghost use Rattle.std.specs.Prelude.{◌≡◌, IfOk};
ghost use Rattle.std.specs.List.{All};
ghost use Rattle.scene_model.specs.Solids.{IsLeaf};
ghost use Rattle.csg_hits.specs.Kept.{IsBoxed, leaves_of, objects_of};

use crate::ready::{ReadyLeaf, ReadyObject};
use scene_model::{Leaf, Object};
use std::alloc::{AllocError, Global};

/// The leaves of a scene.
pub fn ready_leaves(alloc: Global, leaves: &[Leaf]) -> Result<Vec<ReadyLeaf>, AllocError>
    requires { All IsLeaf leaves.now }
    ensures { IfOk result (λ ready. leaves_of ready.items ≡ leaves.now) }
{
    let mut ready = Vec::with_capacity(alloc, leaves.len())?;
    for leaf in leaves {
        ready.push(ReadyLeaf::of(leaf))?;
    }
    Ok(ready)
}

/// The objects of a scene, by its leaves.
pub fn ready_objects(
    alloc: Global,
    objects: &[Object],
    leaves: &[ReadyLeaf],
) -> Result<Vec<ReadyObject>, AllocError>
    ensures objects { IfOk result (λ ready. objects_of ready.items ≡ objects.now) }
    ensures boxed { IfOk result (λ ready. All (IsBoxed (leaves_of leaves.now)) ready.items) }
{
    let mut ready = Vec::with_capacity(alloc, objects.len())?;
    for object in objects {
        ready.push(ReadyObject::of(object, leaves))?;
    }
    Ok(ready)
}
