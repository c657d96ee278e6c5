// Triangles. (Reference manual, triangle and smooth_triangle)
ghost use Rattle.std.specs.Prelude.{◌≡◌, ◌≢◌, ◌≤◌, ◌<◌, ◌^◌, length, IfOk, IfErr, IsTrue, Ok, Err, unsigned_abs, true, false};
ghost use Rattle.fix_math.specs.Matrices.{component, entry, row_of, vector, is_row_within, IsRowWithin, IsVectorWithin};
ghost use Rattle.fix_math.specs.Vectors.{dot};
ghost use Rattle.scene_expr.specs.Values.{AreWhole};
ghost use Rattle.scene_model.specs.Amounts.{IsDirection, IsIor};
ghost use Rattle.scene_model.specs.Valid.{IsSheet};
ghost use Rattle.xform.specs.Transforms.{IsPlaced};
ghost use Rattle.item_blocks.specs.declared.fault.ParseFault.TheVariants.{NoMemory};
ghost use Rattle.solid_items.specs.Solids.{origin, further};
ghost use Rattle.solid_items.specs.Sheets.{IsCorner, IsTriangle, in_world, point_in, flipped_of, moved_normal, is_nothing, normal_in, normal_where, corner_in, sheet_in};

use crate::draft::{Corner, Misplaced, PlacedCorner, SheetDraft};
use crate::parameters::{first_normal, first_point, origin};
use fix_math::{Fix, Rows, V3, raws, row_dot, unit_wide};
use item_blocks::{ParseFault, behind_comma};
use scene_expr::Settings;
use scene_lexer::Token;
use scene_model::Sheet;
use std::alloc::Global;
use xform::{Xform, point};

fn flat_corner(
    alloc: Global,
    tokens: &[Token],
    set: &Settings,
    at: usize,
) -> Result<(Corner, usize), ParseFault>
    requires within { at ≤ length tokens.now }
    requires whole { AreWhole set.now }
    ensures found { IfOk result (λ found. IsCorner false tokens.now set.now at (Ok (record { value = found.0; next = found.1 }))) }
    ensures fault { IfErr result (λ f. f ≢ NoMemory → IsCorner false tokens.now set.now at (Err f)) }
    ensures within { IfOk result (λ found. (at ≤ found.1) × (found.1 ≤ length tokens.now)) }
{
    let (point, next) = first_point(alloc, tokens, set, at)?;
    let corner = Corner {
        point,
        at,
        normal: origin(),
        normal_at: at,
    };
    Ok((corner, next))
}

fn smooth_corner(
    alloc: Global,
    tokens: &[Token],
    set: &Settings,
    at: usize,
) -> Result<(Corner, usize), ParseFault>
    requires within { at ≤ length tokens.now }
    requires whole { AreWhole set.now }
    ensures found { IfOk result (λ found. IsCorner true tokens.now set.now at (Ok (record { value = found.0; next = found.1 }))) }
    ensures fault { IfErr result (λ f. f ≢ NoMemory → IsCorner true tokens.now set.now at (Err f)) }
    ensures within { IfOk result (λ found. (at ≤ found.1) × (found.1 ≤ length tokens.now)) }
{
    let (point, comma) = first_point(alloc, tokens, set, at)?;
    let normal_at = behind_comma(tokens, comma);
    let (normal, next) = first_normal(alloc, tokens, set, normal_at)?;
    let corner = Corner {
        point,
        at,
        normal,
        normal_at,
    };
    Ok((corner, next))
}

/// A corner, with its normal in a smooth triangle.
fn corner(
    alloc: Global,
    tokens: &[Token],
    set: &Settings,
    smooth: bool,
    at: usize,
) -> Result<(Corner, usize), ParseFault>
    requires within { at ≤ length tokens.now }
    requires whole { AreWhole set.now }
    ensures found { IfOk result (λ found. IsCorner smooth tokens.now set.now at (Ok (record { value = found.0; next = found.1 }))) }
    ensures fault { IfErr result (λ f. f ≢ NoMemory → IsCorner smooth tokens.now set.now at (Err f)) }
    ensures within { IfOk result (λ found. (at ≤ found.1) × (found.1 ≤ length tokens.now)) }
{
    if smooth {
        smooth_corner(alloc, tokens, set, at)
    } else {
        flat_corner(alloc, tokens, set, at)
    }
}

/// A further corner.
fn next_corner(
    alloc: Global,
    tokens: &[Token],
    set: &Settings,
    smooth: bool,
    at: usize,
) -> Result<(Corner, usize), ParseFault>
    requires within { at ≤ length tokens.now }
    requires whole { AreWhole set.now }
    ensures found { IfOk result (λ found. further (IsCorner smooth) tokens.now set.now at (Ok (record { value = found.0; next = found.1 }))) }
    ensures fault { IfErr result (λ f. f ≢ NoMemory → further (IsCorner smooth) tokens.now set.now at (Err f)) }
    ensures within { IfOk result (λ found. (at ≤ found.1) × (found.1 ≤ length tokens.now)) }
{
    let (corner, next) = corner(alloc, tokens, set, smooth, behind_comma(tokens, at))?;
    Ok((corner, next))
}

/// A triangle, from its first corner on, and the token behind the last parameter.
pub fn sheet(
    alloc: Global,
    tokens: &[Token],
    set: &Settings,
    smooth: bool,
    at: usize,
) -> Result<(SheetDraft, usize), ParseFault>
    requires within { at ≤ length tokens.now }
    requires whole { AreWhole set.now }
    ensures found { IfOk result (λ found. IsTriangle smooth tokens.now set.now at (Ok (record { value = found.0; next = found.1 }))) }
    ensures fault { IfErr result (λ f. f ≢ NoMemory → IsTriangle smooth tokens.now set.now at (Err f)) }
    ensures within { IfOk result (λ found. (at ≤ found.1) × (found.1 ≤ length tokens.now)) }
{
    let (a, second) = corner(alloc, tokens, set, smooth, at)?;
    let (b, third) = next_corner(alloc, tokens, set, smooth, second)?;
    let (c, next) = next_corner(alloc, tokens, set, smooth, third)?;
    Ok((SheetDraft { smooth, a, b, c }, next))
}

/// The vector of three whole numbers that are known to be small.
fn known_vector(p: &[i128; 3]) -> V3
    requires { IsRowWithin (2 ^ 46) p.now }
    ensures { result ≡ vector (component p.now) }
{
    V3 {
        x: Fix::from_known(p[0]),
        y: Fix::from_known(p[1]),
        z: Fix::from_known(p[2]),
    }
}

fn is_small(p: &[i128; 3], most: u128) -> bool
    ensures test { result ≡ is_row_within most p.now }
    ensures fact { IsTrue result → IsRowWithin most p.now }
{
    p[0].unsigned_abs() <= most && p[1].unsigned_abs() <= most && p[2].unsigned_abs() <= most
}

/// A point of three whole numbers, where it lies in the world: else this token is at fault.
fn in_world(p: &[i128; 3], at: usize) -> Result<V3, Misplaced>
    ensures value { result ≡ in_world (vector (component p.now)) at }
    ensures within { IfOk result (IsVectorWithin (2 ^ 28)) }
{
    if !is_small(p, 1 << 28) {
        return Err(Misplaced::Outside(at));
    }
    Ok(known_vector(p))
}

fn point_in(x: &Xform, corner: &Corner) -> Result<V3, Misplaced>
    requires placed { IsPlaced x.now }
    ensures value { result ≡ point_in x.now corner.now }
    ensures within { IfOk result (IsVectorWithin (2 ^ 28)) }
{
    in_world(&point(x, corner.point), corner.at)
}

/// The matrix whose rows are the columns of this one.
fn flipped(m: &Rows) -> Rows
    ensures { result ≡ flipped_of m.now }
{
    [
        [m[0][0], m[1][0], m[2][0]],
        [m[0][1], m[1][1], m[2][1]],
        [m[0][2], m[1][2], m[2][2]],
    ]
}

fn row_dots(a: &[i64; 3], rows: &Rows) -> [i128; 3]
    requires { IsRowWithin (2 ^ 47) a.now }
    ensures value { result ≡ row_of (λ j. dot (component a.now) (entry rows.now j)) }
    ensures small { IsRowWithin (2 ^ 125) result }
{
    [
        row_dot(a, &rows[0]),
        row_dot(a, &rows[1]),
        row_dot(a, &rows[2]),
    ]
}

fn moved_normal(x: &Xform, normal: &V3) -> [i128; 3]
    ensures value { result ≡ moved_normal x.now normal.now }
    ensures small { IsRowWithin (2 ^ 125) result }
{
    row_dots(&raws(normal), &flipped(&x.n))
}

fn is_nothing(v: &[i128; 3]) -> bool
    ensures { result ≡ is_nothing v.now }
{
    v[0] == 0 && v[1] == 0 && v[2] == 0
}

fn normal_in(x: &Xform, corner: &Corner) -> Result<V3, Misplaced>
    requires placed { IsPlaced x.now }
    ensures value { result ≡ normal_in x.now corner.now }
    ensures direction { IfOk result IsDirection }
{
    let moved = moved_normal(x, &corner.normal);
    if is_nothing(&moved) {
        return Err(Misplaced::NoNormal(corner.normal_at));
    }
    Ok(unit_wide(moved))
}

fn normal_where(smooth: bool, x: &Xform, corner: &Corner) -> Result<V3, Misplaced>
    requires placed { IsPlaced x.now }
    ensures value { result ≡ normal_where smooth x.now corner.now }
    ensures direction { IsTrue smooth → IfOk result IsDirection }
{
    if smooth {
        normal_in(x, corner)
    } else {
        Ok(origin())
    }
}

fn corner_in(smooth: bool, x: &Xform, corner: &Corner) -> Result<PlacedCorner, Misplaced>
    requires placed { IsPlaced x.now }
    ensures value { result ≡ corner_in smooth x.now corner.now }
    ensures within { IfOk result (λ corner. IsVectorWithin (2 ^ 28) corner.point) }
    ensures direction { IsTrue smooth → IfOk result (λ corner. IsDirection corner.normal) }
{
    let point = point_in(x, corner)?;
    let normal = normal_where(smooth, x, corner)?;
    Ok(PlacedCorner { point, normal })
}

/// A triangle in the world, moved by a transform.
pub fn sheet_place(
    sheet: &SheetDraft,
    x: &Xform,
    texture: u32,
    ior: Fix,
    no_shadow: bool,
) -> Result<Sheet, Misplaced>
    requires placed { IsPlaced x.now }
    requires ior { IsIor ior }
    ensures value { result ≡ sheet_in sheet.now x.now texture ior no_shadow }
    ensures valid { IfOk result IsSheet }
{
    let a = corner_in(sheet.smooth, x, &sheet.a)?;
    let b = corner_in(sheet.smooth, x, &sheet.b)?;
    let c = corner_in(sheet.smooth, x, &sheet.c)?;
    Ok(Sheet {
        a: a.point,
        b: b.point,
        c: c.point,
        smooth: sheet.smooth,
        na: a.normal,
        nb: b.normal,
        nc: c.normal,
        texture,
        ior,
        no_shadow,
    })
}
