// Solids from their lengths and places.
ghost use Rattle.std.specs.Prelude.{◌≡◌, ℕ, pos, ◌+◌, ◌*◌, ◌^◌, ◌<◌, ◌≤◌, ◌≤ℤ◌, ◌+ℤ◌, ◌-ℤ◌, ◌*ℤ◌, ◌-◌, List, [], ◌∷◌, ◌++◌, unsigned_abs, int_le};
ghost use Rattle.fix_math.specs.Matrices.{IsRowWithin, IsVectorWithin, component, along, entry, vector};
ghost use Rattle.fix_math.specs.Vectors.{dot, dot_of};
ghost use Rattle.fix_math.specs.declared.fix.V3.{V3 as Vector};
ghost use Rattle.std.specs.Int.{int_max};
ghost use Rattle.fix_math.specs.Numbers.{rnd};
ghost use Rattle.xform.specs.Placing.{IsSpot};
ghost use Rattle.xform.specs.Transforms.{IsPlaced};
ghost use Rattle.shapes.specs.Bodies.{globe_faces, cuboid_faces, half_space_faces, taper_faces, tube_faces, wide_form_at};
ghost use Rattle.shapes.specs.Faces.{seen_from, own, long, in_ball, in_pipe, in_taper, radius_at, slope_of, ends};
ghost use Rattle.shapes.specs.Growths.{globe_outward, cuboid_outward, wide_form_row, tube_outward, taper_outward};
ghost use Rattle.shapes.specs.Outward.{axis_of, difference, multiple, out_of_ball, out_of_box, out_of_pipe, out_of_side};
ghost use Rattle.shapes.specs.Rays.{Position};

use crate::axes::{Axes, Form, WideForm};
use crate::cuboid::Cuboid;
use crate::globe::Globe;
use crate::half_space::HalfSpace;
use crate::sphere::Sphere;
use crate::taper::Taper;
use crate::tube::Tube;
use crate::upright::Upright;
use crate::wide::{Factor, Length, Limit, WideFactor};
use fix_math::{Fix, V3, rounded};
use xform::{Spot, Xform};

/// One raw number in the measure of a spot.
fn scale(e: u32) -> i64
    requires { e ≤ 32 }
    ensures { result ≡ pos (2 ^ (e + 16)) }
{
    1 << (e + 16)
}

/// One raw number in the measure of a plane's limit.
fn wide_scale(e: u32) -> i128
    requires { e ≤ 32 }
    ensures { result ≡ pos (2 ^ (e + 32)) }
{
    1 << (e + 32)
}

impl Length {
    /// A raw length in the measure of a spot.
    pub fn of(spot: &Spot, a: Fix) -> Length
        requires e { spot.now.e ≤ 32 }
        requires low { pos 0 ≤ℤ a }
        requires room { unsigned_abs a * 2 ^ spot.now.e < 2 ^ 45 }
        ensures { result.value ≡ long spot.now a }
    {
        let one = scale(spot.e);
        Length {
            value: a.raw() * one,
        }
    }
}

impl Limit {
    /// A raw distance in the measure of a plane's limit.
    pub fn of(spot: &Spot, d: Fix) -> Limit
        requires e { spot.now.e ≤ 32 }
        requires room { unsigned_abs d * 2 ^ spot.now.e < 2 ^ 45 }
        ensures { result.value ≡ d *ℤ pos (2 ^ (spot.now.e + 32)) }
    {
        let one = wide_scale(spot.e);
        Limit {
            value: d.wide() * one,
        }
    }
}

/// An entry of a spot's way to its axes.
#[derive(Clone, Copy)]
pub struct Entry {
    pub value: i64,
    ghost small: { unsigned_abs value ≤ 2 ^ 46 },
}

/// A row of entries, or a column.
#[derive(Clone, Copy)]
pub struct Row {
    pub x: Entry,
    pub y: Entry,
    pub z: Entry,
}

/// A product of a direction's component with an entry.
#[derive(Clone, Copy)]
struct Share {
    value: i128,
    ghost small: { unsigned_abs value ≤ 65537 * 2 ^ 46 },
}

impl Row {
    pub fn of(row: &[i64; 3]) -> Row
        requires { IsRowWithin (2 ^ 46) row.now }
        ensures x { result.x.value ≡ component row.now 0 }
        ensures y { result.y.value ≡ component row.now 1 }
        ensures z { result.z.value ≡ component row.now 2 }
    {
        Row {
            x: Entry { value: row[0] },
            y: Entry { value: row[1] },
            z: Entry { value: row[2] },
        }
    }

    pub fn column(x: Entry, y: Entry, z: Entry) -> Row
        ensures x { result.x.value ≡ x.value }
        ensures y { result.y.value ≡ y.value }
        ensures z { result.z.value ≡ z.value }
    {
        Row { x, y, z }
    }
}

impl Entry {
    fn times(self, component: Fix) -> Share
        requires { unsigned_abs component ≤ 65537 }
        ensures { result.value ≡ component *ℤ self.value }
    {
        Share {
            value: component.wide() * self.value as i128,
        }
    }
}

/// The sum of the products of a direction with a column of entries.
fn mixed(normal: &V3, a: Entry, b: Entry, c: Entry) -> WideFactor
    requires { IsVectorWithin 65537 normal.now }
    ensures value { result.value ≡ normal.now.x *ℤ a.value +ℤ normal.now.y *ℤ b.value +ℤ normal.now.z *ℤ c.value }
    ensures small { (n : ℕ) → unsigned_abs a.value ≤ n → unsigned_abs b.value ≤ n → unsigned_abs c.value ≤ n
        → unsigned_abs result.value ≤ 196611 * n }
{
    let x = a.times(normal.x);
    let y = b.times(normal.y);
    let z = c.times(normal.z);
    WideFactor {
        value: x.value + y.value + z.value,
    }
}

/// What grows along a direction of a spot's axes.
fn plane_row(spot: &Spot, normal: &V3) -> WideForm
    requires spot { IsSpot spot.now }
    requires direction { IsVectorWithin 65537 normal.now }
    ensures value { (u : Vector) → wide_form_at result u ≡ dot_of normal.now (own spot.now u) }
    ensures row { wide_form_row result ≡ vector (λ j. dot (along normal.now) (λ i. entry spot.now.n i j)) }
{
    let first = Row::of(&spot.n[0]);
    let second = Row::of(&spot.n[1]);
    let third = Row::of(&spot.n[2]);
    let x = mixed(normal, first.x, second.x, third.x);
    let y = mixed(normal, first.y, second.y, third.y);
    let z = mixed(normal, first.z, second.z, third.z);
    WideForm { x, y, z }
}

/// A sphere by its spot and radius.
pub fn globe(spot: &Spot, r: Fix) -> Globe
    requires spot { IsSpot spot.now }
    requires low { pos 0 ≤ℤ r }
    requires room { unsigned_abs r * 2 ^ spot.now.e < 2 ^ 45 }
    ensures faces { (p : Position) → globe_faces result p
        ≡ in_ball (long spot.now r) (own spot.now (seen_from spot.now.anchor p)) ∷ [] }
    ensures outward { (p : Position) → globe_outward result p
        ≡ out_of_ball (own spot.now (seen_from spot.now.anchor p)) (axis_of spot.now 0) (axis_of spot.now 1) (axis_of spot.now 2) }
{
    let axes = Axes::of(spot);
    let radius = Length::of(spot, r);
    let plain = Sphere::along_axes(&axes, radius);
    Globe {
        axes,
        radius,
        plain,
    }
}

/// A box by its spot and sides.
pub fn cuboid(spot: &Spot, size: &V3) -> Cuboid
    requires spot { IsSpot spot.now }
    requires x_low { pos 0 ≤ℤ size.now.x }
    requires y_low { pos 0 ≤ℤ size.now.y }
    requires z_low { pos 0 ≤ℤ size.now.z }
    requires x_room { unsigned_abs size.now.x * 2 ^ spot.now.e < 2 ^ 45 }
    requires y_room { unsigned_abs size.now.y * 2 ^ spot.now.e < 2 ^ 45 }
    requires z_room { unsigned_abs size.now.z * 2 ^ spot.now.e < 2 ^ 45 }
    ensures faces { (p : Position) → cuboid_faces result p
        ≡ ends (long spot.now size.now.x) (own spot.now (seen_from spot.now.anchor p)).x
        ++ (ends (long spot.now size.now.y) (own spot.now (seen_from spot.now.anchor p)).y
        ++ ends (long spot.now size.now.z) (own spot.now (seen_from spot.now.anchor p)).z) }
    ensures outward { (face : ℕ) → cuboid_outward result face
        ≡ out_of_box (axis_of spot.now 0) (axis_of spot.now 1) (axis_of spot.now 2) face }
{
    let axes = Axes::of(spot);
    let x = Length::of(spot, size.x);
    let y = Length::of(spot, size.y);
    let z = Length::of(spot, size.z);
    let upright = Upright::along_axes(&axes, x, y, z);
    Cuboid {
        axes,
        x,
        y,
        z,
        upright,
    }
}

/// A plane by its spot, its direction and its distance.
pub fn half_space(spot: &Spot, normal: &V3, d: Fix) -> HalfSpace
    requires spot { IsSpot spot.now }
    requires direction { IsVectorWithin 65537 normal.now }
    requires room { unsigned_abs d * 2 ^ spot.now.e < 2 ^ 45 }
    ensures faces { (p : Position) → half_space_faces result p
        ≡ int_le (dot_of normal.now (own spot.now (seen_from spot.now.anchor p))) (d *ℤ pos (2 ^ (spot.now.e + 32))) ∷ [] }
    ensures outward { wide_form_row result.row ≡ vector (λ j. dot (along normal.now) (λ i. entry spot.now.n i j)) }
{
    let row = plane_row(spot, normal);
    let limit = Limit::of(spot, d);
    HalfSpace {
        anchor: spot.anchor,
        row,
        limit,
    }
}

/// A cylinder by its spot, radius and height.
pub fn tube(spot: &Spot, r: Fix, h: Fix) -> Tube
    requires spot { IsSpot spot.now }
    requires r_low { pos 0 ≤ℤ r }
    requires h_low { pos 0 ≤ℤ h }
    requires r_room { unsigned_abs r * 2 ^ spot.now.e < 2 ^ 45 }
    requires h_room { unsigned_abs h * 2 ^ spot.now.e < 2 ^ 45 }
    ensures faces { (p : Position) → tube_faces result p
        ≡ in_pipe (long spot.now r) (own spot.now (seen_from spot.now.anchor p))
        ∷ ends (long spot.now h) (own spot.now (seen_from spot.now.anchor p)).z }
    ensures outward { (p : Position) (face : ℕ) → tube_outward result p face
        ≡ out_of_side (out_of_pipe (own spot.now (seen_from spot.now.anchor p)) (axis_of spot.now 0) (axis_of spot.now 1)) (axis_of spot.now 2) face }
{
    let axes = Axes::of(spot);
    let radius = Length::of(spot, r);
    let height = Length::of(spot, h);
    Tube {
        axes,
        radius,
        height,
    }
}

/// How the radius of a cone grows with a coordinate.
fn slope(ra: Fix, rb: Fix, h: Fix, e: u32, along: WideFactor) -> Factor
    requires ra_low { pos 0 ≤ℤ ra }
    requires rb_low { pos 0 ≤ℤ rb }
    requires ra_small { unsigned_abs ra ≤ 2 ^ 28 }
    requires rb_small { unsigned_abs rb ≤ 2 ^ 28 }
    requires some { pos 1 ≤ℤ h }
    requires h_small { unsigned_abs h ≤ 2 ^ 30 }
    requires ra_room { unsigned_abs ra * 2 ^ e < 2 ^ 45 }
    requires rb_room { unsigned_abs rb * 2 ^ e < 2 ^ 45 }
    requires e { e ≤ 32 }
    requires along { unsigned_abs along.value ≤ 196611 * 2 ^ 44 }
    ensures { result.value ≡ rnd ((rb -ℤ ra) *ℤ along.value) (h *ℤ pos (2 ^ (48 - e))) }
{
    let growth = grown(ra, rb, along);
    let divisor = lengthened(h, e);
    let quotient = rounded(growth.value, divisor.value);
    Factor {
        value: quotient as i64,
    }
}

/// What is divided, and by what.
#[derive(Clone, Copy)]
struct Dividend {
    value: i128,
    ghost small: { unsigned_abs value ≤ 2 ^ 91 },
}

fn grown(ra: Fix, rb: Fix, along: WideFactor) -> Dividend
    requires ra_small { unsigned_abs ra ≤ 2 ^ 28 }
    requires rb_small { unsigned_abs rb ≤ 2 ^ 28 }
    requires along { unsigned_abs along.value ≤ 196611 * 2 ^ 44 }
    ensures { result.value ≡ (rb -ℤ ra) *ℤ along.value }
{
    let growth = rb.wide() - ra.wide();
    Dividend {
        value: growth * along.value,
    }
}

fn lengthened(h: Fix, e: u32) -> Dividend
    requires h_small { unsigned_abs h ≤ 2 ^ 30 }
    requires e { e ≤ 32 }
    ensures { result.value ≡ h *ℤ pos (2 ^ (48 - e)) }
{
    let one = power(48 - e);
    Dividend {
        value: h.wide() * one,
    }
}

fn power(bits: u32) -> i128
    requires { bits ≤ 48 }
    ensures { result ≡ pos (2 ^ bits) }
{
    1 << bits
}

fn greater(a: Fix, b: Fix) -> Fix
    ensures { result ≡ int_max a b }
{
    if b.raw() < a.raw() { a } else { b }
}

/// How the radius of a cone grows with each coordinate.
fn slopes(xform: &Xform, spot: &Spot, ra: Fix, rb: Fix, h: Fix, axis: &V3) -> Form
    requires e { spot.now.e ≤ 32 }
    requires placed { IsPlaced xform.now }
    requires axis { IsVectorWithin 65537 axis.now }
    requires ra_low { pos 0 ≤ℤ ra }
    requires rb_low { pos 0 ≤ℤ rb }
    requires ra_small { unsigned_abs ra ≤ 2 ^ 28 }
    requires rb_small { unsigned_abs rb ≤ 2 ^ 28 }
    requires some { pos 1 ≤ℤ h }
    requires h_small { unsigned_abs h ≤ 2 ^ 30 }
    requires ra_room { unsigned_abs ra * 2 ^ spot.now.e < 2 ^ 45 }
    requires rb_room { unsigned_abs rb * 2 ^ spot.now.e < 2 ^ 45 }
    ensures x { result.x.value ≡ slope_of ra rb h axis.now xform.now spot.now 0 }
    ensures y { result.y.value ≡ slope_of ra rb h axis.now xform.now spot.now 1 }
    ensures z { result.z.value ≡ slope_of ra rb h axis.now xform.now spot.now 2 }
{
    let first = Row::of(&xform.n[0]);
    let second = Row::of(&xform.n[1]);
    let third = Row::of(&xform.n[2]);
    let along_x = mixed(axis, first.x, second.x, third.x);
    let along_y = mixed(axis, first.y, second.y, third.y);
    let along_z = mixed(axis, first.z, second.z, third.z);
    let x = slope(ra, rb, h, spot.e, along_x);
    let y = slope(ra, rb, h, spot.e, along_y);
    let z = slope(ra, rb, h, spot.e, along_z);
    Form { x, y, z }
}

/// A cone by its place, radii, height and axis.
pub fn taper(xform: &Xform, spot: &Spot, ra: Fix, rb: Fix, h: Fix, axis: &V3) -> Taper
    requires spot { IsSpot spot.now }
    requires placed { IsPlaced xform.now }
    requires axis { IsVectorWithin 65537 axis.now }
    requires ra_low { pos 0 ≤ℤ ra }
    requires rb_low { pos 0 ≤ℤ rb }
    requires ra_small { unsigned_abs ra ≤ 2 ^ 28 }
    requires rb_small { unsigned_abs rb ≤ 2 ^ 28 }
    requires some { pos 1 ≤ℤ h }
    requires h_small { unsigned_abs h ≤ 2 ^ 30 }
    requires ra_room { unsigned_abs ra * 2 ^ spot.now.e < 2 ^ 45 }
    requires rb_room { unsigned_abs rb * 2 ^ spot.now.e < 2 ^ 45 }
    requires h_room { unsigned_abs h * 2 ^ spot.now.e < 2 ^ 45 }
    ensures faces { (p : Position) → taper_faces result p
        ≡ in_taper (long spot.now (int_max ra rb)) (radius_at ra rb h axis.now xform.now spot.now (seen_from spot.now.anchor p)) (own spot.now (seen_from spot.now.anchor p))
        ∷ ends (long spot.now h) (own spot.now (seen_from spot.now.anchor p)).z }
    ensures outward { (p : Position) (face : ℕ) → taper_outward result p face
        ≡ out_of_side
        (difference (out_of_pipe (own spot.now (seen_from spot.now.anchor p)) (axis_of spot.now 0) (axis_of spot.now 1))
        (multiple (radius_at ra rb h axis.now xform.now spot.now (seen_from spot.now.anchor p)) (vector (slope_of ra rb h axis.now xform.now spot.now))))
        (axis_of spot.now 2) face }
{
    let axes = Axes::of(spot);
    let widest = Length::of(spot, greater(ra, rb));
    let start = Length::of(spot, ra);
    let height = Length::of(spot, h);
    let slope = slopes(xform, spot, ra, rb, h, axis);
    Taper {
        axes,
        widest,
        start,
        slope,
        height,
    }
}
