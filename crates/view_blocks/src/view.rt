// The view of a camera: where it stands and what its picture spans, by its angle, what it looks at,
// and its steps. (Reference manual, camera)
ghost use Rattle.std.specs.Prelude.{◌≡◌, ◌≢◌, ◌≤◌, ◌<◌, ◌^◌, pos, ◌*ℤ◌, ◌+ℤ◌, ◌≤ℤ◌, unsigned_abs, IfOk, IfErr, IfSome};
ghost use Rattle.fix_math.specs.Matrices.{component, along, vector, row_of, IsRowWithin, IsVectorWithin};
ghost use Rattle.fix_math.specs.Numbers.{rnd, shortened};
ghost use Rattle.fix_math.specs.Vectors.{dot, cross, length_of, rounded_cross_of};
ghost use Rattle.scene_model.specs.Looks.{IsCamera};
ghost use Rattle.xform.specs.Transforms.{direction_of};
ghost use Rattle.item_blocks.specs.declared.fault.ParseFault.TheVariants.{NoMemory};
ghost use Rattle.view_blocks.specs.Views.{scaled, negated, is_zero, away, by_angle, first_view, is_mirrored, turned_to, aimed, looking, placed_view, camera_of, shown, IsAngle, IsSoundCamera};

use crate::camera::{Aim, CameraDraft};
use crate::reach::{known_vector, reached, way};
use crate::span::View;
use fix_math::{
    Fix, V3, isqrt, length, raws, rounded, rounded_cross, rounded_shift, row_cross, row_dot,
    sincos, unit,
};
use item_blocks::ParseFault;
use scene_lexer::Place;
use scene_model::Camera;
use xform::{Xform, direction, point};

// ---- the angle

/// A component times a number with 16 fraction bits.
fn component_by(component: Fix, size: u64) -> i64
    requires small { unsigned_abs component ≤ 65536 }
    requires few { size ≤ 2 ^ 52 }
    ensures { result ≡ shortened (component *ℤ pos size) 16 }
{
    rounded_shift(component.wide() * size as i128, 16) as i64
}

/// The same, which is no larger than the number.
fn scaled_part(component: Fix, size: u64) -> i64
    requires small { unsigned_abs component ≤ 65536 }
    requires few { size ≤ 2 ^ 52 }
    ensures value { result ≡ shortened (component *ℤ pos size) 16 }
    ensures within { unsigned_abs result ≤ size }
{
    component_by(component, size)
}

/// A vector of at most 1 unit, times a number with 16 fraction bits.
fn scaled(v: &V3, size: u64) -> [i64; 3]
    requires small { IsVectorWithin 65536 v.now }
    requires few { size ≤ 2 ^ 52 }
    ensures value { vector (component result) ≡ scaled v.now (pos size) }
    ensures within { IsRowWithin size result }
{
    [
        scaled_part(v.x, size),
        scaled_part(v.y, size),
        scaled_part(v.z, size),
    ]
}

fn half_of(angle: Fix) -> Fix
    requires { IsAngle angle }
    ensures { result ≡ rnd angle (pos 2) }
{
    Fix::from_known(rounded(angle.wide(), 2))
}

/// A length by the tangent of an angle, whose cosine and sine these are.
fn by_tangent(length: u64, cosine: i64, sine: i64) -> i128
    requires length { length ≤ 2 ^ 29 }
    requires cosine { unsigned_abs cosine ≤ 2 ^ 32 }
    requires sine_low { pos 512 ≤ℤ sine }
    requires sine_high { unsigned_abs sine ≤ 2 ^ 32 }
    ensures { result ≡ rnd (pos length *ℤ cosine) (pos 2 *ℤ sine) }
{
    rounded(length as i128 * cosine as i128, 2 * sine as i128)
}

/// How far away the picture stands, for its right side to be seen under this angle.
fn away_by(angle: Fix, right: &V3) -> i128
    requires angle { IsAngle angle }
    requires right { IsVectorWithin (2 ^ 28) right.now }
    ensures { result ≡ away angle right.now }
{
    let (sine, cosine) = sincos(half_of(angle));
    by_tangent(length(right), cosine, sine)
}

/// The same, with its size.
fn away_within(angle: Fix, right: &V3) -> i128
    requires angle { IsAngle angle }
    requires right { IsVectorWithin (2 ^ 28) right.now }
    ensures value { result ≡ away angle right.now }
    ensures low { pos 0 ≤ℤ result }
    ensures high { unsigned_abs result ≤ 2 ^ 51 }
{
    away_by(angle, right)
}

/// The same as a natural number.
fn away(angle: Fix, right: &V3) -> u64
    requires angle { IsAngle angle }
    requires right { IsVectorWithin (2 ^ 28) right.now }
    ensures value { pos result ≡ away angle right.now }
    ensures small { result ≤ 2 ^ 51 }
{
    away_within(angle, right).unsigned_abs() as u64
}

/// The direction, as the angle makes it.
fn by_angle(camera: &CameraDraft) -> [i64; 3]
    requires sound { IsSoundCamera camera.now }
    ensures value { vector (component result) ≡ by_angle camera.now.angle camera.now.direction camera.now.right }
    ensures small { IsRowWithin (2 ^ 51) result }
{
    match camera.angle {
        Some(angle) => scaled(&unit(camera.direction), away(angle, &camera.right)),
        None => raws(&camera.direction),
    }
}

fn first_view(camera: &CameraDraft) -> View
    requires sound { IsSoundCamera camera.now }
    ensures value { shown result ≡ first_view camera.now }
    ensures direction { IsRowWithin (2 ^ 51) result.direction }
    ensures right { IsVectorWithin (2 ^ 28) result.right }
    ensures up { IsVectorWithin (2 ^ 28) result.up }
{
    View {
        location: camera.location,
        direction: by_angle(camera),
        right: camera.right,
        up: camera.up,
        orthographic: camera.orthographic,
    }
}

// ---- the aim

/// The cross product with a vector of at most 1 unit, rounded.
fn crossed(v: &V3, w: &V3) -> V3
    requires v_small { IsVectorWithin (2 ^ 28) v.now }
    requires w_small { IsVectorWithin 65536 w.now }
    ensures value { result ≡ rounded_cross_of v.now w.now }
{
    known_vector(&rounded_cross(v, w))
}

fn is_zero(v: &V3) -> bool
    ensures { result ≡ is_zero v.now }
{
    v.x.raw() == 0 && v.y.raw() == 0 && v.z.raw() == 0
}

fn negated(v: &V3) -> V3
    ensures { result ≡ negated v.now }
{
    V3 {
        x: v.x.negated(),
        y: v.y.negated(),
        z: v.z.negated(),
    }
}

/// Each number without its last 16 bits, rounded.
fn shortened_row(v: &[i128; 3]) -> [i128; 3]
    requires { IsRowWithin (2 ^ 82) v.now }
    ensures value { result ≡ row_of (λ i. shortened (component v.now i) 16) }
    ensures small { IsRowWithin (2 ^ 82) result }
{
    [
        rounded_shift(v[0], 16),
        rounded_shift(v[1], 16),
        rounded_shift(v[2], 16),
    ]
}

fn product(a: i128, b: Fix) -> i128
    requires a_small { unsigned_abs a ≤ 2 ^ 82 }
    requires b_small { unsigned_abs b ≤ 2 ^ 28 }
    ensures value { result ≡ a *ℤ b }
    ensures small { unsigned_abs result ≤ 2 ^ 110 }
{
    a * b.wide()
}

fn sum(a: i128, b: i128, c: i128) -> i128
    requires a_small { unsigned_abs a ≤ 2 ^ 110 }
    requires b_small { unsigned_abs b ≤ 2 ^ 110 }
    requires c_small { unsigned_abs c ≤ 2 ^ 110 }
    ensures value { result ≡ a +ℤ b +ℤ c }
    ensures small { unsigned_abs result ≤ 2 ^ 112 }
{
    a + b + c
}

/// The dot product of wide numbers and a vector, exactly.
fn wide_dot(a: &[i128; 3], v: &V3) -> i128
    requires a_small { IsRowWithin (2 ^ 82) a.now }
    requires v_small { IsVectorWithin (2 ^ 28) v.now }
    ensures value { result ≡ dot (component a.now) (along v.now) }
    ensures small { unsigned_abs result ≤ 2 ^ 112 }
{
    sum(product(a[0], v.x), product(a[1], v.y), product(a[2], v.z))
}

/// Whether the right side is on the left.
fn is_mirrored(view: &View) -> bool
    requires right { IsVectorWithin (2 ^ 28) view.now.right }
    requires up { IsVectorWithin (2 ^ 28) view.now.up }
    ensures { result ≡ is_mirrored (shown view.now) }
{
    let across = shortened_row(&row_cross(&raws(&view.up), &view.direction));
    rounded_shift(wide_dot(&across, &view.right), 16) < 0
}

fn length_by(direction: &[i64; 3]) -> u64
    requires { IsRowWithin (2 ^ 51) direction.now }
    ensures { result ≡ length_of (vector (component direction.now)) }
{
    isqrt(row_dot(direction, direction).unsigned_abs())
}

/// The length of a direction.
fn length_along(direction: &[i64; 3]) -> u64
    requires { IsRowWithin (2 ^ 51) direction.now }
    ensures value { result ≡ length_of (vector (component direction.now)) }
    ensures small { result ≤ 2 ^ 52 }
{
    length_by(direction)
}

/// The vector of these raw numbers, which are known to be in range.
fn narrow_vector(v: &[i64; 3]) -> V3
    requires { IsRowWithin (2 ^ 46) v.now }
    ensures { result ≡ vector (component v.now) }
{
    V3 {
        x: Fix::from_known(v[0] as i128),
        y: Fix::from_known(v[1] as i128),
        z: Fix::from_known(v[2] as i128),
    }
}

/// A side of the picture along a direction, as long as it was.
fn side(along: &V3, before: &V3) -> V3
    requires small { IsVectorWithin 65536 along.now }
    requires short { IsVectorWithin (2 ^ 28) before.now }
    ensures { result ≡ scaled along.now (pos (length_of before.now)) }
{
    narrow_vector(&scaled(along, length(before)))
}

/// The view along z, with x to the right and y upwards.
fn turned_to(view: &View, x: &V3, y: &V3, z: &V3) -> View
    requires direction { IsRowWithin (2 ^ 51) view.now.direction }
    requires right { IsVectorWithin (2 ^ 28) view.now.right }
    requires up { IsVectorWithin (2 ^ 28) view.now.up }
    requires x_small { IsVectorWithin 65536 x.now }
    requires y_small { IsVectorWithin 65536 y.now }
    requires z_small { IsVectorWithin 65536 z.now }
    ensures { shown result ≡ turned_to (shown view.now) x.now y.now z.now }
{
    let x = if is_mirrored(view) { negated(x) } else { *x };
    View {
        location: view.location,
        direction: scaled(z, length_along(&view.direction)),
        right: side(&x, &view.right),
        up: side(y, &view.up),
        orthographic: view.orthographic,
    }
}

/// The view to what is looked at.
fn aimed(sky: &V3, aim: &Aim, view: &View) -> Result<View, ParseFault>
    requires sky { IsVectorWithin (2 ^ 28) sky.now }
    requires aim { IsVectorWithin (2 ^ 28) aim.now.at }
    requires direction { IsRowWithin (2 ^ 51) view.now.direction }
    requires right { IsVectorWithin (2 ^ 28) view.now.right }
    requires up { IsVectorWithin (2 ^ 28) view.now.up }
    ensures found { IfOk result (λ made. aimed sky.now aim.now (shown view.now) ≡ Ok (shown made)) }
    ensures fault { IfErr result (λ f. aimed sky.now aim.now (shown view.now) ≡ Err f) }
    ensures memory { IfErr result (λ f. f ≢ NoMemory) }
{
    let ahead = way(&view.location, &aim.at);
    let z = unit(ahead);
    let across = crossed(sky, &z);
    let x = unit(across);
    let above = crossed(&z, &x);
    if is_zero(&ahead) || is_zero(&across) || is_zero(&above) {
        return Err(ParseFault::ValueRange { place: aim.place });
    }
    Ok(turned_to(view, &x, &unit(above), &z))
}

fn looking(camera: &CameraDraft) -> Result<View, ParseFault>
    requires sound { IsSoundCamera camera.now }
    ensures found { IfOk result (λ view. looking camera.now.sky camera.now.look_at (first_view camera.now) ≡ Ok (shown view)) }
    ensures fault { IfErr result (λ f. looking camera.now.sky camera.now.look_at (first_view camera.now) ≡ Err f) }
    ensures memory { IfErr result (λ f. f ≢ NoMemory) }
{
    let view = first_view(camera);
    match &camera.look_at {
        Some(aim) => aimed(&camera.sky, aim, &view),
        None => Ok(view),
    }
}

// ---- the steps

/// A component of the image of a direction.
fn turned_part(v: &[i64; 3], row: &[i64; 3]) -> i128
    requires { IsRowWithin (2 ^ 52) v.now }
    ensures { result ≡ shortened (dot (component row.now) (component v.now)) 32 }
{
    rounded_shift(row_dot(v, row), 32)
}

/// The image of a direction.
fn turned(x: &Xform, v: &[i64; 3]) -> [i128; 3]
    requires { IsRowWithin (2 ^ 52) v.now }
    ensures { result ≡ row_of (direction_of x.now (vector (component v.now))) }
{
    [
        turned_part(v, &x.m[0]),
        turned_part(v, &x.m[1]),
        turned_part(v, &x.m[2]),
    ]
}

fn placed_view(x: &Xform, place: Place, view: &View) -> Result<Camera, ParseFault>
    ensures value { result ≡ placed_view x.now place (shown view.now) }
    ensures valid { IfOk result IsCamera }
    ensures memory { IfErr result (λ f. f ≢ NoMemory) }
{
    let location = reached(place, &point(x, view.location))?;
    let ahead = reached(place, &turned(x, &view.direction))?;
    let right = reached(place, &direction(x, view.right))?;
    let up = reached(place, &direction(x, view.up))?;
    Ok(Camera {
        location,
        direction: ahead,
        right,
        up,
        orthographic: view.orthographic,
    })
}

/// The camera that is said; its word stands at this place. Its faults show only once all of it is
/// read: that of what it looks at, at the first token of it, and else of its range, at its word.
pub fn camera_of(place: Place, camera: &CameraDraft) -> Result<Camera, ParseFault>
    requires sound { IsSoundCamera camera.now }
    ensures value { result ≡ camera_of place camera.now }
    ensures valid { IfOk result IsCamera }
    ensures memory { IfErr result (λ f. f ≢ NoMemory) }
{
    let view = looking(camera)?;
    placed_view(&camera.xform, place, &view)
}
