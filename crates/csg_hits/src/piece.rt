// The pieces of objects.
ghost use Rattle.std.specs.Prelude.{◌≡◌, ◌<◌, ◌^◌, IfOk, length};
ghost use Rattle.csg_hits.specs.Pieces.{AddsPieces, ArePieces};
ghost use Rattle.csg_hits.specs.Sides.{AreAlike};
ghost use Rattle.csg_hits.specs.Surfaces.{counts};

use crate::group::takes_all;
use scene_model::{Object, Shape};
use std::alloc::{AllocError, Global};

/// A piece of an object, with a shape of its own. The shape is no union: an object that is one has a piece
/// for each of its parts, and for each of theirs where they are unions too.
#[derive(Drop)]
pub struct Piece {
    /// The number of the object.
    pub object: u32,
    pub no_shadow: bool,
    pub shape: Shape,
}

impl Piece {
    /// Whether the piece counts: all do, but in a shadow ray those without shadow.
    #[inline]
    pub fn counts(&self, shadow: bool) -> bool
        ensures { result ≡ counts shadow self.now.no_shadow }
    {
        !(shadow && self.no_shadow)
    }
}

/// A shape like another.
fn copied(alloc: Global, shape: &Shape) -> Result<Shape, AllocError>
    ensures { IfOk result (λ copy. AreAlike copy shape.now) }
{
    match shape {
        Shape::Leaf(leaf) => Ok(Shape::Leaf(*leaf)),
        Shape::Group { op, parts, inverse } => {
            let mut copies = Vec::with_capacity(alloc, parts.len())?;
            for part in parts {
                let copy = copied(alloc, part)?;
                copies.push(copy)?;
            }
            Ok(Shape::Group {
                op: *op,
                parts: copies,
                inverse: *inverse,
            })
        }
    }
}

/// Adds a piece with a copy of a shape.
fn add_piece(
    alloc: Global,
    shape: &Shape,
    object: u32,
    no_shadow: bool,
    pieces: &mut Vec<Piece>,
) -> Result<(), AllocError>
    ensures { IfOk result (λ _. AddsPieces shape.now object no_shadow pieces.old.items pieces.new.items) }
{
    let shape = copied(alloc, shape)?;
    pieces.push(Piece {
        object,
        no_shadow,
        shape,
    })?;
    Ok(())
}

/// Adds the pieces of an object with a shape.
fn add_pieces(
    alloc: Global,
    shape: &Shape,
    object: u32,
    no_shadow: bool,
    pieces: &mut Vec<Piece>,
) -> Result<(), AllocError>
    ensures { IfOk result (λ _. AddsPieces shape.now object no_shadow pieces.old.items pieces.new.items) }
{
    match shape {
        Shape::Leaf(_) => add_piece(alloc, shape, object, no_shadow, pieces),
        Shape::Group { op, parts, .. } => {
            if takes_all(*op) {
                for part in parts {
                    add_pieces(alloc, part, object, no_shadow, pieces)?;
                }
                Ok(())
            } else {
                add_piece(alloc, shape, object, no_shadow, pieces)
            }
        }
    }
}

/// The pieces of all objects, in the order of the objects.
pub fn pieces_of(alloc: Global, objects: &[Object]) -> Result<Vec<Piece>, AllocError>
    requires { length objects.now < 2 ^ 32 }
    ensures { IfOk result (λ pieces. ArePieces objects.now pieces.items) }
{
    let mut pieces = Vec::new(alloc);
    for (number, object) in objects.iter().enumerate() {
        add_pieces(
            alloc,
            &object.shape,
            number as u32,
            object.no_shadow,
            &mut pieces,
        )?;
    }
    Ok(pieces)
}
