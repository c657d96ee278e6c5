// Trees of solids by short texts, and all hits along a ray as a text.
ghost use Rattle.std.specs.Prelude.{IfSome};
ghost use Rattle.shapes.specs.Rays.{IsRayDirection};

use crate::asked::ray_of;
use crate::scenes::Kind::{Inverse, InverseOpen, Open, Plain};
use crate::scenes::{Kind, Piece, scene};
use csg_hits::{Built, Hit, ListWorld, World};
use scene_model::Op;
use shapes::Ray;
use std::alloc::{AllocError, Global};
use written_leaves::Written;
use written_leaves::Written::{Ball, Block, Bowl, Half, Horn, Tube};

/// A row: a tree, the number of a ray, and the hits along it.
///
/// A letter is a new leaf, the solid of that letter; a digit the leaf of that number once more. U, M, I
/// and D are a union, merge, intersection and difference of what stands in brackets behind them, and with
/// `!` before the letter the group is inverse. A hit is its number of the ray, the number of its leaf, the
/// face, and `+` where the ray goes in, `-` where it goes out.
pub type Row = (&'static [u8], usize, &'static str);

/// The solids by their letters; none has d.
fn solid(letter: u8) -> (Written, Kind) {
    if letter == b'a' {
        return (Ball([0, 0, 400], 200), Plain);
    }
    if letter == b'b' {
        return (Ball([0, 0, 600], 200), Plain);
    }
    if letter == b'c' {
        return (Ball([50, 20, 500], 120), Plain);
    }
    if letter == b'e' {
        return (Block([-150, -150, 300], [300, 300, 300]), Plain);
    }
    if letter == b'f' {
        return (Block([-100, -100, 400], [200, 200, 200]), Plain);
    }
    if letter == b'g' {
        return (Block([-300, -300, 500], [600, 600, 100]), Plain);
    }
    if letter == b'h' {
        return (Half([0, 0, 65536], 450), Plain);
    }
    if letter == b'i' {
        return (Half([0, 0, -65536], -350), Plain);
    }
    if letter == b'j' {
        return (Tube([0, 0, 250], [0, 0, 500], 130), Plain);
    }
    further_solid(letter)
}

fn further_solid(letter: u8) -> (Written, Kind) {
    if letter == b'k' {
        return (Tube([0, 0, 250], [0, 0, 500], 130), Open);
    }
    if letter == b'l' {
        return (Horn([0, 0, 300], [0, 0, 400], 200, 50), Plain);
    }
    if letter == b'm' {
        return (Horn([0, 0, 700], [0, 0, -400], 60, 220), Open);
    }
    if letter == b'n' {
        return (Ball([0, 0, 550], 150), Inverse);
    }
    if letter == b'o' {
        return (Tube([-250, 0, 450], [500, 0, 0], 90), InverseOpen);
    }
    if letter == b'p' {
        return (Block([-60, -60, 350], [120, 120, 300]), Inverse);
    }
    if letter == b'q' {
        let two_sheets = [65536000, 65536000, -32768000, 0, 0, 0, 0, 0, 0, -200];
        return (Bowl(two_sheets), Plain);
    }
    let ball = [65536000, 65536000, 65536000, 0, 0, 0, 0, 0, -800000, 2000];
    (Bowl(ball), Inverse)
}

/// The rays by their numbers.
fn ray(number: usize) -> Option<Ray>
    ensures { IfSome result (λ ray. IsRayDirection ray.dir) }
{
    match number {
        0 => ray_of([0, 0, 0], [0, 0, 65536]),
        1 => ray_of([9, 12, 0], [5851, -5851, 65012]),
        2 => ray_of([-25, -16, 0], [0, 0, 65536]),
        3 => ray_of([100, 100, 0], [0, 0, 65536]),
        4 => ray_of([-200, 30, 0], [26214, -3000, 60000]),
        5 => ray_of([0, 0, 1200], [0, 0, -65536]),
        6 => ray_of([-500, 10, 450], [65536, 0, 0]),
        _ => ray_of([0, 0, 420], [0, 0, 65536]),
    }
}

/// A group whose bracket isn't closed yet.
#[derive(Clone, Copy)]
struct Begun {
    op: Op,
    inverse: bool,
    /// Whether going into the object is going out of the group.
    negated: bool,
    /// How many parts it has so far.
    count: u32,
}

/// Whether going into the object is going out of what stands next.
fn is_next_negated(groups: &[Begun]) -> bool {
    match groups.last() {
        Some(group) => group.negated != (group.op == Op::Difference && group.count > 0),
        None => false,
    }
}

/// The innermost group has one part more.
fn count(groups: &mut Vec<Begun>) -> Result<(), AllocError> {
    if let Some(group) = groups.pop() {
        groups.push(Begun {
            op: group.op,
            inverse: group.inverse,
            negated: group.negated,
            count: group.count.saturating_add(1),
        })?;
    }
    Ok(())
}

fn open(groups: &mut Vec<Begun>, op: Op, inverse: bool) -> Result<(), AllocError> {
    let negated = is_next_negated(groups) != inverse;
    count(groups)?;
    groups.push(Begun {
        op,
        inverse,
        negated,
        count: 0,
    })?;
    Ok(())
}

fn close(groups: &mut Vec<Begun>, pieces: &mut Vec<Piece>) -> Result<(), AllocError> {
    if let Some(group) = groups.pop() {
        pieces.push(if group.inverse {
            Piece::Outside(group.op, group.count)
        } else {
            Piece::Group(group.op, group.count)
        })?;
    }
    Ok(())
}

/// The piece of a leaf.
fn leaf_piece(letter: u8, negated: bool) -> Piece {
    if letter <= b'9' {
        return Piece::Again(letter.saturating_sub(b'0') as u32);
    }
    let (written, kind) = solid(letter);
    let inverse = kind == Inverse || kind == InverseOpen;
    Piece::Solid(written, kind, negated != inverse)
}

fn operation(letter: u8) -> Option<Op> {
    match letter {
        b'U' => Some(Op::Union),
        b'M' => Some(Op::Merge),
        b'I' => Some(Op::Intersection),
        b'D' => Some(Op::Difference),
        _ => None,
    }
}

/// The pieces of a tree, each behind its parts, as one object.
fn pieces(alloc: Global, tree: &[u8]) -> Result<Vec<Piece>, AllocError> {
    let mut pieces = Vec::new(alloc);
    let mut groups = Vec::new(alloc);
    let mut inverse = false;
    for letter in tree {
        if *letter == b'!' {
            inverse = true;
        } else if *letter == b')' {
            close(&mut groups, &mut pieces)?;
        } else if let Some(op) = operation(*letter) {
            open(&mut groups, op, inverse)?;
            inverse = false;
        } else if *letter != b'(' {
            pieces.push(leaf_piece(*letter, is_next_negated(&groups)))?;
            count(&mut groups)?;
        }
    }
    pieces.push(Piece::Object)?;
    Ok(pieces)
}

/// A tree as a scene's only object, kept for rays.
pub fn built(alloc: Global, tree: &[u8]) -> Result<Built, AllocError> {
    Built::new(alloc, &scene(alloc, &pieces(alloc, tree)?)?)
}

/// A hit as it is written.
fn shown(alloc: Global, hit: &Hit) -> Result<String, AllocError> {
    let Hit {
        t,
        leaf,
        face,
        entering,
        ..
    } = hit;
    let way = if *entering { "+" } else { "-" };
    format!(in alloc; "{t}.{leaf}.{face}{way}")
}

/// All hits of a tree along a ray, the first dozen of them.
fn hits(alloc: Global, tree: &[u8], number: usize) -> Result<String, AllocError> {
    let mut found = String::new(alloc);
    let Some(ray) = ray(number) else {
        return Ok(found);
    };
    let world = ListWorld::new(built(alloc, tree)?);
    let mut scratch = world.scratch(alloc)?;
    let mut after = 0;
    for place in 0..12u32 {
        let Some(hit) = world.nearest(&mut scratch, &ray, after, false) else {
            return Ok(found);
        };
        if place > 0 {
            found.push_str(" ")?;
        }
        found.push_str(shown(alloc, &hit)?.as_str())?;
        after = hit.t;
    }
    Ok(found)
}

/// The first row of a table that isn't right, with what was found.
pub fn first_other(alloc: Global, rows: &[Row]) -> Result<Option<(usize, String)>, AllocError> {
    for (at, (tree, number, expected)) in rows.iter().enumerate() {
        let found = hits(alloc, tree, *number)?;
        if found.as_str() != *expected {
            return Ok(Some((at, found)));
        }
    }
    Ok(None)
}
