// The six solids. (Reference manual, finite and infinite solid primitives)
ghost use Rattle.std.specs.Prelude.{◌≡◌, ◌≢◌, ◌≤◌, ◌<◌, ◌^◌, ◌-ℤ◌, length, IfOk, IfErr, Ok, Err, pos, unsigned_abs};
ghost use Rattle.fix_math.specs.Matrices.{along, row_of, IsVectorWithin};
ghost use Rattle.scene_expr.specs.Values.{AreWhole};
ghost use Rattle.scene_model.specs.Amounts.{IsAmount, AreAmounts};
ghost use Rattle.fix_math.specs.Vectors.{dot_of, length_of};
ghost use Rattle.scene_model.specs.Solids.{IsHeight};
ghost use Rattle.item_blocks.specs.declared.fault.ParseFault.TheVariants.{NoMemory};
ghost use Rattle.solid_items.specs.Solids.{origin, way_of, lower_of, lower_corner, side_of, sides_of, height_of, sphere_of, box_of, plane_of, cylinder_of, cone_of, quadric_of, IsSphere, IsBox, IsPlane, IsCylinder, IsCone, IsQuadric, IsSolid, IsSound};

use crate::draft::SolidDraft;
use crate::parameters::{
    first_other, first_point, next_distance, next_other, next_point, next_radius, opening, origin,
};
use fix_math::{Fix, V3, dot, isqrt, unit};
use item_blocks::{ParseFault, SolidWord};
use scene_expr::Settings;
use scene_lexer::Token;
use scene_model::Primitive;
use std::alloc::Global;
use xform::{axis_frame, identity_frame};

/// How far it is from one coordinate to another.
fn gap(from: Fix, to: Fix) -> Fix
    requires from_small { unsigned_abs from ≤ 2 ^ 28 }
    requires to_small { unsigned_abs to ≤ 2 ^ 28 }
    ensures value { result ≡ to -ℤ from }
    ensures small { unsigned_abs result ≤ 2 ^ 29 }
{
    Fix::from_known(to.wide() - from.wide())
}

/// The way from one point to another.
fn way(from: &V3, to: &V3) -> V3
    requires from_small { IsVectorWithin (2 ^ 28) from.now }
    requires to_small { IsVectorWithin (2 ^ 28) to.now }
    ensures value { result ≡ way_of from.now to.now }
    ensures small { IsVectorWithin (2 ^ 29) result }
    ensures some { to.now ≢ from.now → result ≢ origin }
{
    V3 {
        x: gap(from.x, to.x),
        y: gap(from.y, to.y),
        z: gap(from.z, to.z),
    }
}

fn lower(a: Fix, b: Fix) -> Fix
    ensures { result ≡ lower_of a b }
{
    if a.raw() <= b.raw() { a } else { b }
}

fn lower_corner(a: &V3, b: &V3) -> V3
    ensures { result ≡ lower_corner a.now b.now }
{
    V3 {
        x: lower(a.x, b.x),
        y: lower(a.y, b.y),
        z: lower(a.z, b.z),
    }
}

fn side(a: Fix, b: Fix) -> Fix
    requires a_small { unsigned_abs a ≤ 2 ^ 28 }
    requires b_small { unsigned_abs b ≤ 2 ^ 28 }
    ensures value { result ≡ side_of a b }
    ensures amount { IsAmount (2 ^ 29) result }
{
    let way = gap(a, b);
    Fix(way.raw().abs())
}

fn sides(a: &V3, b: &V3) -> V3
    requires a_small { IsVectorWithin (2 ^ 28) a.now }
    requires b_small { IsVectorWithin (2 ^ 28) b.now }
    ensures value { result ≡ sides_of a.now b.now }
    ensures amounts { AreAmounts (2 ^ 29) (row_of (along result)) }
{
    V3 {
        x: side(a.x, b.x),
        y: side(a.y, b.y),
        z: side(a.z, b.z),
    }
}

/// A sphere: centre and radius.
fn sphere(
    alloc: Global,
    tokens: &[Token],
    set: &Settings,
    at: usize,
) -> Result<(SolidDraft, usize), ParseFault>
    requires within { at ≤ length tokens.now }
    requires whole { AreWhole set.now }
    ensures found { IfOk result (λ found. IsSphere tokens.now set.now at (Ok (record { value = found.0; next = found.1 }))) }
    ensures fault { IfErr result (λ f. f ≢ NoMemory → IsSphere tokens.now set.now at (Err f)) }
    ensures within { IfOk result (λ found. (at ≤ found.1) × (found.1 ≤ length tokens.now)) }
    ensures sound { IfOk result (λ found. IsSound found.0) }
{
    let (centre, comma) = first_point(alloc, tokens, set, at)?;
    let (r, next) = next_radius(alloc, tokens, set, comma)?;
    let solid = SolidDraft {
        prim: Primitive::Sphere { r },
        frame: identity_frame(),
        middle: centre,
        at,
    };
    Ok((solid, next))
}

/// A box: two corners, in any order.
fn cuboid(
    alloc: Global,
    tokens: &[Token],
    set: &Settings,
    at: usize,
) -> Result<(SolidDraft, usize), ParseFault>
    requires within { at ≤ length tokens.now }
    requires whole { AreWhole set.now }
    ensures found { IfOk result (λ found. IsBox tokens.now set.now at (Ok (record { value = found.0; next = found.1 }))) }
    ensures fault { IfErr result (λ f. f ≢ NoMemory → IsBox tokens.now set.now at (Err f)) }
    ensures within { IfOk result (λ found. (at ≤ found.1) × (found.1 ≤ length tokens.now)) }
    ensures sound { IfOk result (λ found. IsSound found.0) }
{
    let (a, comma) = first_point(alloc, tokens, set, at)?;
    let (b, next) = next_point(alloc, tokens, set, comma)?;
    let solid = SolidDraft {
        prim: Primitive::Box {
            size: sides(&a, &b),
        },
        frame: identity_frame(),
        middle: lower_corner(&a, &b),
        at,
    };
    Ok((solid, next))
}

/// A plane: its normal, and its distance from the origin.
fn plane(
    alloc: Global,
    tokens: &[Token],
    set: &Settings,
    at: usize,
) -> Result<(SolidDraft, usize), ParseFault>
    requires within { at ≤ length tokens.now }
    requires whole { AreWhole set.now }
    ensures found { IfOk result (λ found. IsPlane tokens.now set.now at (Ok (record { value = found.0; next = found.1 }))) }
    ensures fault { IfErr result (λ f. f ≢ NoMemory → IsPlane tokens.now set.now at (Err f)) }
    ensures within { IfOk result (λ found. (at ≤ found.1) × (found.1 ≤ length tokens.now)) }
    ensures sound { IfOk result (λ found. IsSound found.0) }
{
    let (normal, comma) = first_other(alloc, tokens, set, &origin(), at)?;
    let (d, next) = next_distance(alloc, tokens, set, comma)?;
    let solid = SolidDraft {
        prim: Primitive::Plane {
            normal: unit(normal),
            d,
        },
        frame: identity_frame(),
        middle: origin(),
        at,
    };
    Ok((solid, next))
}

/// The square of the length of a way that isn't <0, 0, 0>.
fn square(way: &V3) -> u128
    requires small { IsVectorWithin (2 ^ 29) way.now }
    requires some { way.now ≢ origin }
    ensures value { result ≡ unsigned_abs (dot_of way.now way.now) }
    ensures least { 1 ≤ result }
    ensures most { result ≤ 864691128455135232 }
{
    dot(way, way).unsigned_abs()
}

/// The length of a way that isn't <0, 0, 0>.
fn height(way: &V3) -> Fix
    requires small { IsVectorWithin (2 ^ 29) way.now }
    requires some { way.now ≢ origin }
    ensures value { result ≡ pos (length_of way.now) }
    ensures height { IsHeight result }
{
    Fix(isqrt(square(way)) as i64)
}

/// A cylinder: its ends and its radius, and whether it is open.
fn cylinder(
    alloc: Global,
    tokens: &[Token],
    set: &Settings,
    at: usize,
) -> Result<(SolidDraft, usize), ParseFault>
    requires within { at ≤ length tokens.now }
    requires whole { AreWhole set.now }
    ensures found { IfOk result (λ found. IsCylinder tokens.now set.now at (Ok (record { value = found.0; next = found.1 }))) }
    ensures fault { IfErr result (λ f. f ≢ NoMemory → IsCylinder tokens.now set.now at (Err f)) }
    ensures within { IfOk result (λ found. (at ≤ found.1) × (found.1 ≤ length tokens.now)) }
    ensures sound { IfOk result (λ found. IsSound found.0) }
{
    let (a, second) = first_point(alloc, tokens, set, at)?;
    let (b, third) = next_other(alloc, tokens, set, &a, second)?;
    let (r, end) = next_radius(alloc, tokens, set, third)?;
    let (uncapped, next) = opening(tokens, end);
    let way = way(&a, &b);
    let solid = SolidDraft {
        prim: Primitive::Cylinder {
            r,
            h: height(&way),
            uncapped,
        },
        frame: axis_frame(way),
        middle: a,
        at,
    };
    Ok((solid, next))
}

/// A cone: its ends, each with its radius, and whether it is open.
fn cone(
    alloc: Global,
    tokens: &[Token],
    set: &Settings,
    at: usize,
) -> Result<(SolidDraft, usize), ParseFault>
    requires within { at ≤ length tokens.now }
    requires whole { AreWhole set.now }
    ensures found { IfOk result (λ found. IsCone tokens.now set.now at (Ok (record { value = found.0; next = found.1 }))) }
    ensures fault { IfErr result (λ f. f ≢ NoMemory → IsCone tokens.now set.now at (Err f)) }
    ensures within { IfOk result (λ found. (at ≤ found.1) × (found.1 ≤ length tokens.now)) }
    ensures sound { IfOk result (λ found. IsSound found.0) }
{
    let (a, second) = first_point(alloc, tokens, set, at)?;
    let (ra, third) = next_radius(alloc, tokens, set, second)?;
    let (b, fourth) = next_other(alloc, tokens, set, &a, third)?;
    let (rb, end) = next_radius(alloc, tokens, set, fourth)?;
    let (uncapped, next) = opening(tokens, end);
    let way = way(&a, &b);
    let solid = SolidDraft {
        prim: Primitive::Cone {
            ra,
            rb,
            h: height(&way),
            axis: unit(way),
            uncapped,
        },
        frame: axis_frame(way),
        middle: a,
        at,
    };
    Ok((solid, next))
}

/// A quadric: its coefficients.
fn quadric(
    alloc: Global,
    tokens: &[Token],
    set: &Settings,
    at: usize,
) -> Result<(SolidDraft, usize), ParseFault>
    requires within { at ≤ length tokens.now }
    requires whole { AreWhole set.now }
    ensures found { IfOk result (λ found. IsQuadric tokens.now set.now at (Ok (record { value = found.0; next = found.1 }))) }
    ensures fault { IfErr result (λ f. f ≢ NoMemory → IsQuadric tokens.now set.now at (Err f)) }
    ensures within { IfOk result (λ found. (at ≤ found.1) × (found.1 ≤ length tokens.now)) }
    ensures sound { IfOk result (λ found. IsSound found.0) }
{
    let (a, second) = first_point(alloc, tokens, set, at)?;
    let (b, third) = next_point(alloc, tokens, set, second)?;
    let (c, fourth) = next_point(alloc, tokens, set, third)?;
    let (d, next) = next_distance(alloc, tokens, set, fourth)?;
    let solid = SolidDraft {
        prim: Primitive::Quadric {
            c: [a.x, a.y, a.z, b.x, b.y, b.z, c.x, c.y, c.z, d],
        },
        frame: identity_frame(),
        middle: origin(),
        at,
    };
    Ok((solid, next))
}

/// A solid by its word, from its first parameter on, and the token behind the last one, with `open`
/// where it may stand.
pub fn solid(
    alloc: Global,
    tokens: &[Token],
    set: &Settings,
    word: SolidWord,
    at: usize,
) -> Result<(SolidDraft, usize), ParseFault>
    requires within { at ≤ length tokens.now }
    requires whole { AreWhole set.now }
    ensures found { IfOk result (λ found. IsSolid word tokens.now set.now at (Ok (record { value = found.0; next = found.1 }))) }
    ensures fault { IfErr result (λ f. f ≢ NoMemory → IsSolid word tokens.now set.now at (Err f)) }
    ensures within { IfOk result (λ found. (at ≤ found.1) × (found.1 ≤ length tokens.now)) }
    ensures sound { IfOk result (λ found. IsSound found.0) }
{
    match word {
        SolidWord::Sphere => sphere(alloc, tokens, set, at),
        SolidWord::Box => cuboid(alloc, tokens, set, at),
        SolidWord::Plane => plane(alloc, tokens, set, at),
        SolidWord::Cylinder => cylinder(alloc, tokens, set, at),
        SolidWord::Cone => cone(alloc, tokens, set, at),
        SolidWord::Quadric => quadric(alloc, tokens, set, at),
    }
}
