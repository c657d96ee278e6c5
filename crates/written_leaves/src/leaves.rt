// Leaves by what a scene says of them, in raw numbers.
ghost use Rattle.std.specs.Prelude.{◌≡◌, ◌≤ℤ◌, ◌≤◌, ◌^◌, pos, unsigned_abs, max, IfSome, IsTrue};
ghost use Rattle.fix_math.specs.Matrices.{IsMatrixWithin, component, vector, row_of, along, row_at};
ghost use Rattle.scene_model.specs.Amounts.{IsAmount};
ghost use Rattle.scene_model.specs.Solids.{IsLeaf, IsPrim, IsFrame, extent_of};
ghost use Rattle.xform.specs.Transforms.{IsPlaced};

use crate::moves::{Move, moved};
use fix_math::{Fix, V3, length, unit};
use scene_model::{Leaf, Primitive};
use shapes::{Solid, solid};
use xform::{Frame, Xform, axis_frame, identity_frame, spot};

/// A solid as it is written: what it is measured from, and its lengths.
#[derive(Clone, Copy)]
pub enum Written {
    /// The centre and the radius.
    Ball([i32; 3], i32),
    /// The lower corner and the sides.
    Block([i32; 3], [i32; 3]),
    /// A direction of any length, and the distance.
    Half([i32; 3], i32),
    /// The first end, the way to the second, and the radius.
    Tube([i32; 3], [i32; 3], i32),
    /// The same with the radius at each end.
    Horn([i32; 3], [i32; 3], i32, i32),
    /// The ten coefficients.
    Bowl([i32; 10]),
}

/// The number with this raw number.
pub fn number(raw: i32) -> Fix
    ensures { result ≡ raw }
{
    Fix::from_known(raw as i128)
}

/// The vector with these raw numbers.
pub fn vector(raws: [i32; 3]) -> V3
    ensures { result ≡ vector (component raws) }
{
    V3 {
        x: number(raws[0]),
        y: number(raws[1]),
        z: number(raws[2]),
    }
}

/// The size of a length from 0 to a greatest one.
fn amount(number: Fix, most: u64) -> Option<u64>
    ensures { IfSome result (λ size. (size ≡ unsigned_abs number) × (size ≤ most) × IsAmount most number) }
{
    let size = number.raw().unsigned_abs();
    if number.raw() < 0 || size > most {
        None
    } else {
        Some(size)
    }
}

/// The leaf of a solid, in its frame, by its transform, with what it is measured from and its extent.
fn placed(prim: Primitive, x: &Xform, frame: &Frame, c: V3, extent: u64) -> Option<Leaf>
    requires prim { IsPrim prim }
    requires frame { IsFrame prim frame.now }
    requires small { IsMatrixWithin 65537 frame.now }
    requires placed { IsPlaced x.now }
    requires extent { extent ≡ extent_of prim }
    requires few { extent ≤ 2 ^ 30 }
    ensures { IfSome result IsLeaf }
{
    match spot(x, frame, c, extent as i64) {
        Ok(spot) => Some(Leaf {
            prim,
            xform: *x,
            spot,
            inverse: false,
            negated: false,
            object: 0,
            texture: 0,
            ior: Fix(65536),
        }),
        Err(_fault) => None,
    }
}

fn ball(x: &Xform, centre: V3, r: Fix) -> Option<Leaf>
    requires { IsPlaced x.now }
    ensures { IfSome result IsLeaf }
{
    let extent = amount(r, 1 << 28)?;
    placed(
        Primitive::Sphere { r },
        x,
        &identity_frame(),
        centre,
        extent,
    )
}

fn block(x: &Xform, corner: V3, size: V3) -> Option<Leaf>
    requires { IsPlaced x.now }
    ensures { IfSome result IsLeaf }
{
    let along_x = amount(size.x, 1 << 29)?;
    let along_y = amount(size.y, 1 << 29)?;
    let along_z = amount(size.z, 1 << 29)?;
    let extent = along_x.max(along_y).max(along_z);
    placed(
        Primitive::Box { size },
        x,
        &identity_frame(),
        corner,
        extent,
    )
}

fn half(x: &Xform, direction: V3, d: Fix) -> Option<Leaf>
    requires { IsPlaced x.now }
    ensures { IfSome result IsLeaf }
{
    let size = d.raw().unsigned_abs();
    if size > 1 << 28 {
        return None;
    }
    let normal = unit(direction);
    let origin = vector([0, 0, 0]);
    placed(
        Primitive::Plane { normal, d },
        x,
        &identity_frame(),
        origin,
        size,
    )
}

/// The height along an axis, and its size.
fn height(axis: &V3) -> Option<(Fix, u64)>
    ensures { IfSome result (λ found. (pos 1 ≤ℤ found.0) × (found.1 ≡ unsigned_abs found.0) × (found.1 ≤ 2 ^ 30)) }
{
    let size = length(axis);
    if size == 0 || size > 1 << 30 {
        return None;
    }
    Some((Fix(size as i64), size))
}

fn tube(x: &Xform, end: V3, axis: V3, r: Fix) -> Option<Leaf>
    requires { IsPlaced x.now }
    ensures { IfSome result IsLeaf }
{
    let (h, long) = height(&axis)?;
    let radius = amount(r, 1 << 28)?;
    let extent = radius.max(long);
    placed(
        Primitive::Cylinder {
            r,
            h,
            uncapped: false,
        },
        x,
        &axis_frame(axis),
        end,
        extent,
    )
}

fn horn(x: &Xform, end: V3, way: V3, ra: Fix, rb: Fix) -> Option<Leaf>
    requires { IsPlaced x.now }
    ensures { IfSome result IsLeaf }
{
    let (h, long) = height(&way)?;
    let first = amount(ra, 1 << 28)?;
    let second = amount(rb, 1 << 28)?;
    let extent = first.max(second).max(long);
    let axis = unit(way);
    placed(
        Primitive::Cone {
            ra,
            rb,
            h,
            axis,
            uncapped: false,
        },
        x,
        &axis_frame(way),
        end,
        extent,
    )
}

/// A coefficient, if it is at most 4096 units in size.
fn coefficient(raw: i32) -> Fix
    ensures { unsigned_abs result ≤ 2 ^ 28 }
{
    if raw.unsigned_abs() <= 1 << 28 {
        number(raw)
    } else {
        Fix(0)
    }
}

fn bowl(x: &Xform, c: [i32; 10]) -> Option<Leaf>
    requires { IsPlaced x.now }
    ensures { IfSome result IsLeaf }
{
    let c = [
        coefficient(c[0]),
        coefficient(c[1]),
        coefficient(c[2]),
        coefficient(c[3]),
        coefficient(c[4]),
        coefficient(c[5]),
        coefficient(c[6]),
        coefficient(c[7]),
        coefficient(c[8]),
        coefficient(c[9]),
    ];
    let origin = vector([0, 0, 0]);
    placed(Primitive::Quadric { c }, x, &identity_frame(), origin, 0)
}

/// The leaf of a solid as it is written, by a transform; none where it has no place or no such lengths.
pub fn leaf(written: &Written, x: &Xform) -> Option<Leaf>
    requires { IsPlaced x.now }
    ensures { IfSome result IsLeaf }
{
    match *written {
        Written::Ball(centre, r) => ball(x, vector(centre), number(r)),
        Written::Block(corner, size) => block(x, vector(corner), vector(size)),
        Written::Half(direction, d) => half(x, vector(direction), number(d)),
        Written::Tube(end, axis, r) => tube(x, vector(end), vector(axis), number(r)),
        Written::Horn(end, axis, ra, rb) => {
            horn(x, vector(end), vector(axis), number(ra), number(rb))
        }
        Written::Bowl(c) => bowl(x, c),
    }
}

fn kept(leaf: Leaf) -> Solid
    requires { IsLeaf leaf }
{
    solid(&leaf)
}

/// The solid of a leaf that is written, by a transform.
pub fn solid_of(written: &Written, by: Move) -> Option<Solid> {
    let x = moved(by)?;
    match leaf(written, &x) {
        Some(leaf) => Some(kept(leaf)),
        None => None,
    }
}
