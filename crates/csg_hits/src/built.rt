// A scene's solids and objects, kept for rays.
ghost use Rattle.std.specs.Prelude.{◌<◌, ◌^◌, vec_len};
ghost use Rattle.std.specs.List.{All};
ghost use Rattle.std.proofs.Props.{props};
ghost use Rattle.csg_hits.specs.Pieces.{ArePieces};
ghost use Rattle.csg_hits.specs.Kept.{IsBoxed, leaves_of, objects_of};

use crate::asking::{Found, Search};
use crate::fill::first_on_path;
use crate::making::{ready_leaves, ready_objects};
use crate::piece::{Piece, pieces_of};
use crate::point::point;
use crate::ready::{ReadyLeaf, ReadyObject};
use crate::scratch::Scratch;
use crate::world::Hit;
use leaf_boxes::{Box3, shape_box, whole_world};
use scene_model::Scene;
use shapes::Path;
use std::alloc::{AllocError, Global};

/// The leaves of a scene, the boxes of its objects and their pieces, with all computed that no ray changes. Its triangles aren't kept.
#[derive(Drop)]
pub struct Built {
    pub(crate) leaves: Vec<ReadyLeaf>,
    objects: Vec<ReadyObject>,
    pub(crate) pieces: Vec<Piece>,
    ghost few: { vec_len pieces < 2 ^ 32 },
    ghost boxed: { All (IsBoxed (leaves_of leaves.items)) objects.items } by { Prim.hlevel props },
    ghost split: { ArePieces (objects_of objects.items) pieces.items },
}

impl Built {
    ghost use Rattle.std.specs.Prelude.{◌≡◌, ◌≤◌, Bool, true, Some, IfSome, IfNone, IfOk, length};
    ghost use Rattle.scene_model.specs.Solids.{IsLeaf};
    ghost use Rattle.csg_hits.specs.Bounds.{HoldsInside, HoldsStruck, IsBounded, bounds_of, piece_bounds_of};
    ghost use Rattle.csg_hits.specs.Hits.{Fits};
    ghost use Rattle.csg_hits.specs.Outlooks.{IsFirstIn, IsQuiet};
    ghost use Rattle.csg_hits.specs.Pieces.{is_piece_struck, owner};
    ghost use Rattle.csg_hits.specs.Ready.{pieces_in, surfaces_in};
    ghost use Rattle.csg_hits.specs.Surfaces.{enters_at, face_at, is_struck, surfaces_of, without_sheets};

    /// What rays meet of a scene, but for its triangles. Err is want of memory.
    pub fn new(alloc: Global, scene: &Scene) -> Result<Built, AllocError>
        requires { All IsLeaf scene.now.leaves.items }
        ensures { IfOk result (λ built. surfaces_in built ≡ without_sheets (surfaces_of scene.now)) }
    {
        if scene.objects.len() > u32::MAX as usize {
            return Err(AllocError);
        }
        let leaves = ready_leaves(alloc, &scene.leaves)?;
        let objects = ready_objects(alloc, &scene.objects, &leaves)?;
        let pieces = pieces_of(alloc, &scene.objects)?;
        if pieces.len() > u32::MAX as usize {
            return Err(AllocError);
        }
        Ok(Built {
            leaves,
            objects,
            pieces,
        })
    }

    /// How many pieces the objects have; they are numbered from 0, in the order of the objects.
    #[inline]
    pub fn len(&self) -> u32
        ensures { result ≡ length (pieces_in self.now).pieces }
    {
        self.pieces.len() as u32
    }

    /// The box of an object, along the world's axes; of a number that no object has the world.
    pub fn bounds(&self, object: u32) -> Box3
        ensures value { result ≡ bounds_of (surfaces_in self.now) object }
        ensures inside { HoldsInside (surfaces_in self.now) object result }
        ensures struck { HoldsStruck (surfaces_in self.now) object result }
    {
        match self.objects.get(object as usize) {
            Some(object) => object.bounds,
            None => whole_world(),
        }
    }

    /// The box of a piece, along the world's axes; of a number that no piece has the world. It takes no
    /// memory, and is worked out of the leaves' boxes at each call.
    pub fn piece_bounds(&self, piece: u32) -> Box3
        ensures value { result ≡ piece_bounds_of (pieces_in self.now) piece }
        ensures struck { IsBounded (pieces_in self.now) piece result }
    {
        match self.pieces.get(piece as usize) {
            Some(piece) => shape_box(&piece.shape, &self.leaves),
            None => whole_world(),
        }
    }

    /// The first strike of a piece that a search looks for; none exactly where there is none.
    pub(crate) fn first_strike(&self, s: &mut Scratch, piece: u32, search: &Search) -> Option<Found>
        requires { Fits (surfaces_in self.now) s.old }
        ensures fits { Fits (surfaces_in self.now) s.new }
        ensures object { IfSome result (λ found. found.object ≡ owner (pieces_in self.now) piece) }
        ensures found { IfSome result (λ found. IsFirstIn
            (λ t. is_piece_struck (pieces_in self.now) search.now.path.ray search.now.shadow t piece)
            search.now.from search.now.path.end found.strike) }
        ensures none { IfNone result (IsQuiet
            (λ t. is_piece_struck (pieces_in self.now) search.now.path.ray search.now.shadow t piece)
            search.now.from search.now.path.end) }
    {
        let piece = self.pieces.get(piece as usize)?;
        if !piece.counts(search.shadow) {
            return None;
        }
        let strike = first_on_path(
            &piece.shape,
            &self.leaves,
            &search.path,
            &search.probe,
            &mut s.rows,
            search.from,
        )?;
        Some(Found {
            object: piece.object,
            strike,
        })
    }

    /// The hit of a strike on a path.
    pub(crate) fn hit(&self, path: &Path, found: &Found) -> Hit
        requires positive { 1 ≤ found.now.strike.t }
        requires within { found.now.strike.t < path.now.end }
        ensures t { result.t ≡ found.now.strike.t }
        ensures object { result.object ≡ found.now.object }
        ensures leaf { result.leaf ≡ found.now.strike.leaf }
        ensures face { (shadow : Bool) → is_struck (surfaces_in self.now) path.now.ray shadow
            found.now.strike.t found.now.object found.now.strike.leaf ≡ true
            → Some result.face ≡ face_at (surfaces_in self.now) path.now.ray found.now.strike.t found.now.strike.leaf }
        ensures entering { (shadow : Bool) → is_struck (surfaces_in self.now) path.now.ray shadow
            found.now.strike.t found.now.object found.now.strike.leaf ≡ true
            → result.entering ≡ enters_at (surfaces_in self.now) path.now.ray found.now.strike.t found.now.strike.leaf }
    {
        let object = found.object;
        let t = found.strike.t;
        let leaf = found.strike.leaf;
        let (face, entering) = match self.leaves.get(leaf as usize) {
            Some(leaf) => {
                let before = point(&path.ray, t - 1);
                let here = point(&path.ray, t);
                let (face, holds) = leaf.face_between(&before, &here);
                (face, holds != leaf.negated)
            }
            None => (0, false),
        };
        Hit {
            t,
            object,
            leaf,
            face,
            entering,
        }
    }
}
