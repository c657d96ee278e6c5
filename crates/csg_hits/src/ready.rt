// Leaves and objects of a scene, ready to be met by rays.
ghost use Rattle.std.specs.Prelude.{◌≡◌, ℕ, ◌<◌, Some, true, false};
ghost use Rattle.scene_model.specs.Solids.{IsLeaf};
ghost use Rattle.scene_model.specs.declared.shape.Leaf.{Leaf};
ghost use Rattle.scene_model.specs.declared.scene.Object.{Object};
ghost use Rattle.shapes.specs.Faces.{all_hold, faces_of};
ghost use Rattle.shapes.specs.Rays.{IsInWorld, Position, point_at, position_of};
ghost use Rattle.shapes.specs.Solids.{is_uncapped, solid_faces, solid_side};
ghost use Rattle.leaf_boxes.specs.Boxes.{IsInBox, box_of};
ghost use Rattle.box_probe.specs.Boxes.{IsInBounds};
ghost use Rattle.box_probe.specs.Probes.{IsProbe};
ghost use Rattle.csg_hits.specs.Rows.{IsRowOf};
ghost use Rattle.csg_hits.specs.Sides.{differ};
ghost use Rattle.csg_hits.specs.Surfaces.{face_of, first_holds, leaf_holds, solid_holds};

use crate::row::Row;
use box_probe::{Bounds, Probe};
use leaf_boxes::{Box3, Boxed, leaf_box, shape_box};
use scene_model::{Leaf, Object};
use shapes::{Path, Point, Solid, solid};
use std::snapshot::Snapshot;

/// A leaf with its solid and its box.
#[derive(Drop)]
pub struct ReadyLeaf {
    solid: Solid,
    uncapped: bool,
    inverse: bool,
    pub negated: bool,
    bounds: Box3,
    /// The same, rounded outward.
    reach: Bounds,
    /// Whether that is the whole world, so that no path misses it.
    everywhere: bool,
    /// The leaf of the scene.
    pub leaf: Snapshot<Leaf>,
    ghost faces: { (p : Position) → solid_faces solid p ≡ faces_of leaf.value p },
    ghost side: { uncapped ≡ true → (p : Position) → all_hold (solid_side solid p) ≡ first_holds (faces_of leaf.value p) },
    ghost is_uncapped: { uncapped ≡ is_uncapped leaf.value.prim },
    ghost is_inverse: { inverse ≡ leaf.value.inverse },
    ghost is_negated: { negated ≡ leaf.value.negated },
    ghost is_bounds: { bounds ≡ box_of leaf.value },
    ghost inside: { (p : Position) → IsInWorld p → leaf_holds leaf.value p ≡ true → IsInBox bounds p },
    ghost within: { (p : Position) → IsInWorld p → leaf_holds leaf.value p ≡ true → IsInBounds reach p },
}

/// An object's box.
#[derive(Drop)]
pub struct ReadyObject {
    pub bounds: Box3,
    /// The object of the scene.
    pub object: Snapshot<Object>,
}

impl ReadyObject {
    ghost use Rattle.csg_hits.specs.Kept.{IsBoxed, leaves_of};

    /// An object of a scene, by the scene's leaves.
    pub fn of(object: &Object, leaves: &[ReadyLeaf]) -> ReadyObject
        ensures object { result.object.value ≡ object.now }
        ensures boxed { IsBoxed (leaves_of leaves.now) result }
    {
        ReadyObject {
            bounds: shape_box(&object.shape, leaves),
            object: Snapshot::of(object),
        }
    }
}

impl ReadyLeaf {
    /// A leaf of a scene.
    pub fn of(leaf: &Leaf) -> ReadyLeaf
        requires { IsLeaf leaf.now }
        ensures { result.leaf.value ≡ leaf.now }
    {
        let solid = solid(leaf);
        let bounds = leaf_box(leaf);
        let reach = Bounds::around(&bounds);
        ReadyLeaf {
            solid,
            uncapped: solid.is_open(),
            inverse: leaf.inverse,
            negated: leaf.negated,
            bounds,
            reach,
            everywhere: reach.is_world(),
            leaf: Snapshot::of(leaf),
        }
    }

    /// The numbers of a path at which the leaf holds. A leaf whose box the path misses holds nowhere.
    #[inline(always)]
    pub fn row(&self, path: &Path, probe: &Probe) -> Row
        requires { IsProbe probe.now path.now.ray }
        ensures { IsRowOf self.now.leaf.value path.now.ray path.now.end result }
    {
        if self.is_missed(path, probe) {
            Row::empty()
        } else {
            self.whole_row(path)
        }
    }

    /// Whether it is known that the leaf holds nowhere on a path.
    #[inline(always)]
    fn is_missed(&self, path: &Path, probe: &Probe) -> bool
        requires { IsProbe probe.now path.now.ray }
        ensures { result ≡ true → (t : ℕ) → t < path.now.end
            → leaf_holds self.now.leaf.value (point_at path.now.ray t) ≡ false }
    {
        !self.everywhere && !probe.meets_before(&self.reach, path.end)
    }

    /// The numbers of a path at which the leaf holds, from its solid.
    #[inline(never)]
    fn whole_row(&self, path: &Path) -> Row
        ensures { IsRowOf self.now.leaf.value path.now.ray path.now.end result }
    {
        let inside = self.solid.stretches(path);
        Row {
            inside,
            side: if self.uncapped {
                Some(self.solid.side(path))
            } else {
                None
            },
            inverse: self.inverse,
        }
    }

    /// The face at which the leaf's solid is entered or left between two points, and whether it is entered.
    pub fn face_between(&self, before: &Point, here: &Point) -> (u8, bool)
        requires before { IsInWorld (position_of before.now) }
        requires here { IsInWorld (position_of here.now) }
        ensures face { differ (solid_holds self.now.leaf.value (position_of before.now))
            (solid_holds self.now.leaf.value (position_of here.now)) ≡ true
            → Some result.0 ≡ face_of (Some self.now.leaf.value) (position_of before.now) (position_of here.now) }
        ensures entered { differ (solid_holds self.now.leaf.value (position_of before.now))
            (solid_holds self.now.leaf.value (position_of here.now)) ≡ true
            → result.1 ≡ solid_holds self.now.leaf.value (position_of here.now) }
    {
        match self.solid.failing_face(before) {
            Some(face) => (face, true),
            None => (self.solid.failing_face(here).unwrap_or(0), false),
        }
    }
}

impl Boxed for ReadyLeaf {
    ghost extent = { λ leaf. leaf.bounds };

    fn bounds(&self) -> Box3 {
        self.bounds
    }
}
