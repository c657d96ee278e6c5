// Solids whose axes are those of the world.
ghost use Rattle.std.specs.Prelude.{◌≡◌, ◌↔◌, ℕ, pos, ◌+ℤ◌, ◌-ℤ◌, ◌*ℤ◌, ◌*◌, ◌<◌, ◌≤◌, ◌^◌, ◌≤ℤ◌, ◌<ℤ◌, IfSome, unsigned_abs};

use crate::axes::Axes;
use crate::path::Path;
use crate::sight::Sight;
use crate::span::{Line, Span};
use crate::sphere::Sphere;
use crate::wide::{Factor, Length};
use fix_math::{Fix, V3};

/// How much longer a solid's axis is than that of the world.
#[derive(Clone, Copy)]
pub struct Scale {
    pub value: u64,
    ghost some: { 0 < value },
}

/// The same for the three axes.
#[derive(Clone, Copy)]
pub struct Scales {
    pub x: Scale,
    pub y: Scale,
    pub z: Scale,
}

/// How long a box is along an axis of the world, in units of 2^-32.
#[derive(Clone, Copy)]
pub struct Extent {
    pub length: i64,
    ghost low: { pos 0 ≤ℤ length },
    ghost small: { unsigned_abs length ≤ 2 ^ 46 },
}

/// The sides of a box along the axes of the world. (Reference manual, box)
#[derive(Clone, Copy)]
pub struct Upright {
    pub x: Extent,
    pub y: Extent,
    pub z: Extent,
}

/// A number that doesn't fall along a ray: `at` at 0, and `step` more at each next number.
#[derive(Clone, Copy)]
pub struct Rise {
    pub at: i64,
    pub step: u64,
    ghost small: { unsigned_abs at ≤ 2 ^ 47 },
}

/// How much of one coordinate a form takes, where it takes that alone.
fn scale_along(along: Factor, second: Factor, third: Factor) -> Option<Scale>
    ensures { IfSome result (λ scale. (along.value ≡ pos scale.value) × (second.value ≡ pos 0) × (third.value ≡ pos 0)) }
{
    if along.value > 0 && second.value == 0 && third.value == 0 {
        Some(Scale {
            value: along.value as u64,
        })
    } else {
        None
    }
}

/// The quotient, where nothing is left.
fn exact(number: u64, by: u64) -> Option<u64>
    requires { 0 < by }
    ensures { IfSome result (λ quotient. number ≡ quotient * by) }
{
    if number % by == 0 {
        Some(number / by)
    } else {
        None
    }
}

impl Axes {
    ghost use Rattle.shapes.specs.Upright.{IsUpright};

    /// How much longer the axes are than those of the world, where they lie along them.
    fn scales(&self) -> Option<Scales>
        ensures { IfSome result (λ scales. IsUpright self.now scales.x.value scales.y.value scales.z.value) }
    {
        let x = scale_along(self.first.x, self.first.y, self.first.z)?;
        let y = scale_along(self.second.y, self.second.x, self.second.z)?;
        let z = scale_along(self.third.z, self.third.x, self.third.y)?;
        Some(Scales { x, y, z })
    }
}

impl Sphere {
    ghost use Rattle.shapes.specs.Upright.{IsPlainBall};

    /// The sphere of the world that has these axes and this radius along them; none where the axes aren't
    /// those of the world and as long as each other, or where the radius is no raw number.
    pub fn along_axes(axes: &Axes, radius: Length) -> Option<Sphere>
        ensures { IfSome result (λ sphere. IsPlainBall axes.now radius.value sphere) }
    {
        let scales = axes.scales()?;
        let scale = scales.x.value;
        if scales.y.value != scale || scales.z.value != scale {
            return None;
        }
        let long = exact(radius.value.unsigned_abs(), scale)?;
        let raw = exact(long, 65536)?;
        if raw > 1 << 28 {
            return None;
        }
        let sphere = Sphere::new(axes.anchor, Fix::from_known(raw as i128))?;
        Some(sphere)
    }
}

/// The number behind the last whose product with `step` is at most `room`.
#[inline(always)]
fn behind(room: u64, step: u64) -> u64
    requires some { 0 < step }
    requires small { room < 2 ^ 63 }
    ensures { (t : ℕ) → (t < result) ↔ (t * step ≤ room) }
{
    room / step + 1
}

impl Rise {
    ghost use Rattle.shapes.specs.Lines.{IsWithin};
    ghost use Rattle.shapes.specs.Upright.{IsBetween, rise_at};

    /// The first number at which it is at least 0.
    #[inline(always)]
    fn start(self) -> u64
        requires { 0 < self.step }
        ensures { (t : ℕ) → (result ≤ t) ↔ (pos 0 ≤ℤ rise_at self t) }
    {
        if self.at < 0 {
            behind((-1 - self.at) as u64, self.step)
        } else {
            0
        }
    }

    /// The number behind the last at which it is at most a length.
    #[inline(always)]
    fn end(self, extent: Extent) -> u64
        requires some { 0 < self.step }
        requires low { self.at ≤ℤ extent.length }
        ensures { (t : ℕ) → (t < result) ↔ (rise_at self t ≤ℤ extent.length) }
    {
        behind((extent.length - self.at) as u64, self.step)
    }

    /// The numbers of the span at which it is from 0 to a length.
    #[inline(always)]
    fn inside(self, extent: Extent, span: Span) -> Span
        ensures { (t : ℕ) → IsWithin result t ↔ (IsWithin span t × IsBetween extent.length (rise_at self t)) }
    {
        if self.at > extent.length {
            return Span { from: 0, end: 0 };
        }
        if self.step == 0 {
            return if self.at < 0 {
                Span { from: 0, end: 0 }
            } else {
                span
            };
        }
        span.between(self.start(), self.end(extent))
    }
}

impl Span {
    ghost use Rattle.shapes.specs.Lines.{IsWithin};

    /// The numbers of the span from a number on and below another.
    #[inline(always)]
    fn between(self, from: u64, end: u64) -> Span
        ensures { (t : ℕ) → IsWithin result t ↔ (IsWithin self t × (from ≤ t) × (t < end)) }
    {
        Span {
            from: if from > self.from { from } else { self.from },
            end: if end < self.end { end } else { self.end },
        }
    }
}

impl Line {
    ghost use Rattle.shapes.specs.Lines.{IsWithin, value_at};
    ghost use Rattle.shapes.specs.Upright.{IsBetween, rise_at};

    /// The line, where it doesn't fall.
    #[inline(always)]
    fn straight(&self) -> Rise
        requires { pos 0 ≤ℤ self.now.step }
        ensures { (t : ℕ) → rise_at result t ≡ value_at self.now t }
    {
        Rise {
            at: self.at,
            step: self.step.unsigned_abs(),
        }
    }

    /// What the line leaves of a length, where it falls.
    #[inline(always)]
    fn rest(&self, extent: Extent) -> Rise
        requires at_small { unsigned_abs self.now.at ≤ 2 ^ 45 }
        requires falls { self.now.step <ℤ pos 0 }
        ensures { (t : ℕ) → rise_at result t ≡ extent.length -ℤ value_at self.now t }
    {
        Rise {
            at: extent.length - self.at,
            step: self.step.unsigned_abs(),
        }
    }

    /// The line, or what it leaves of a length where it falls.
    #[inline(always)]
    fn rising(&self, extent: Extent) -> Rise
        requires { unsigned_abs self.now.at ≤ 2 ^ 45 }
        ensures { (t : ℕ) → IsBetween extent.length (rise_at result t) ↔ IsBetween extent.length (value_at self.now t) }
    {
        if self.step < 0 {
            self.rest(extent)
        } else {
            self.straight()
        }
    }

    /// The numbers of the span at which the line is from 0 to a length.
    #[inline(always)]
    fn inside(&self, extent: Extent, span: Span) -> Span
        requires { unsigned_abs self.now.at ≤ 2 ^ 45 }
        ensures { (t : ℕ) → IsWithin result t ↔ (IsWithin span t × IsBetween extent.length (value_at self.now t)) }
    {
        self.rising(extent).inside(extent, span)
    }
}

impl Extent {
    ghost use Rattle.std.specs.Prelude.{◌/◌};

    /// A side along an axis that is longer than that of the world; none where it is far longer than the world.
    fn of(side: Length, scale: Scale) -> Option<Extent>
        ensures { IfSome result (λ extent. extent.length ≡ pos (unsigned_abs side.value / scale.value)) }
    {
        let length = side.value.unsigned_abs() / scale.value;
        if length > 1 << 46 {
            return None;
        }
        Some(Extent {
            length: length as i64,
        })
    }
}

impl Upright {
    ghost use Rattle.fix_math.specs.Matrices.{IsVectorWithin};
    ghost use Rattle.shapes.specs.Faces.{seen_from};
    ghost use Rattle.shapes.specs.Lines.{IsWithin};
    ghost use Rattle.shapes.specs.Rays.{point_at};
    ghost use Rattle.shapes.specs.Upright.{IsInUpright, IsPlainBox};

    /// The box of the world that has these axes and these sides along them; none where the axes aren't
    /// those of the world, or where it is far longer than the world.
    pub fn along_axes(axes: &Axes, x: Length, y: Length, z: Length) -> Option<Upright>
        ensures { IfSome result (λ upright. IsPlainBox axes.now x.value y.value z.value upright) }
    {
        let scales = axes.scales()?;
        let x = Extent::of(x, scales.x)?;
        let y = Extent::of(y, scales.y)?;
        let z = Extent::of(z, scales.z)?;
        Some(Upright { x, y, z })
    }

    /// The numbers of the path in the box.
    #[inline(always)]
    pub fn span(&self, anchor: &V3, path: &Path) -> Span
        requires { IsVectorWithin (2 ^ 28) anchor.now }
        ensures { (t : ℕ) → IsWithin result t ↔ ((t < path.now.end)
            × IsInUpright self.now (seen_from anchor.now (point_at path.now.ray t))) }
    {
        let sight = Sight::of_path(anchor, path);
        let whole = Span {
            from: 0,
            end: path.end,
        };
        let along_x = sight.x.inside(self.x, whole);
        if along_x.from >= along_x.end {
            return along_x;
        }
        let along_y = sight.y.inside(self.y, along_x);
        if along_y.from >= along_y.end {
            return along_y;
        }
        sight.z.inside(self.z, along_y)
    }
}
