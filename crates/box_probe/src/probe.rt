// Whether a ray may pass a box.
ghost use Rattle.std.specs.Prelude.{◌≡◌, ℕ, ℤ, pos, ◌<◌, ◌≤◌, ◌^◌, ◌+◌, ◌+ℤ◌, ◌-ℤ◌, ◌*ℤ◌, ◌≤ℤ◌, ◌<ℤ◌, IsTrue, unsigned_abs};

use crate::bounds::Bounds;
use crate::units::fine;
use fix_math::Fix;
use shapes::{Path, Ray};

/// What tells the number at which a ray's coordinate passes a corner: the corner times `by` less
/// `from`, in 2^-15 of the ray's numbers.
#[derive(Clone, Copy)]
pub struct Share {
    pub by: i64,
    pub from: i64,
    ghost by_small: { unsigned_abs by ≤ 2 ^ 31 + 1 },
    ghost from_small: { unsigned_abs from ≤ 2 ^ 60 },
}

/// Where a ray's coordinate enters and leaves a slab.
#[derive(Clone, Copy)]
pub struct Slope {
    /// Which of a slab's two corners is passed first.
    pub first: u8,
    pub near: Share,
    pub far: Share,
    ghost place: { first < 2 },
}

/// The slopes of a ray's three coordinates.
#[derive(Clone, Copy)]
pub struct Probe {
    pub x: Slope,
    pub y: Slope,
    pub z: Slope,
}

impl Slope {
    ghost use Rattle.box_probe.specs.Probes.{IsSlope, near_of, far_of};

    /// The slope of a coordinate that moves by `step`.
    pub fn new(origin: Fix, step: Fix) -> Slope
        requires origin_near { unsigned_abs origin ≤ 2 ^ 28 }
        requires step_small { unsigned_abs step ≤ 65537 }
        ensures { IsSlope result origin step }
    {
        if step.raw() > 0 {
            Slope::rising(origin, step)
        } else if step.raw() < 0 {
            Slope::falling(origin, step)
        } else {
            Slope::still(origin)
        }
    }

    fn rising(origin: Fix, step: Fix) -> Slope
        requires origin_near { unsigned_abs origin ≤ 2 ^ 28 }
        requires step_small { unsigned_abs step ≤ 65537 }
        requires rises { pos 0 <ℤ step }
        ensures { IsSlope result origin step }
    {
        let share = share_of(step.raw());
        let at = origin.raw();
        Slope {
            first: 0,
            near: Share::new(share, at, 0),
            far: Share::new(share + 1, at, 0),
        }
    }

    fn falling(origin: Fix, step: Fix) -> Slope
        requires origin_near { unsigned_abs origin ≤ 2 ^ 28 }
        requires step_small { unsigned_abs step ≤ 65537 }
        requires falls { step <ℤ pos 0 }
        ensures { IsSlope result origin step }
    {
        let share = share_of(-step.raw());
        let at = origin.raw();
        Slope {
            first: 1,
            near: Share::new(-share, at, 0),
            far: Share::new(-share - 1, at, 0),
        }
    }

    fn still(origin: Fix) -> Slope
        requires origin_near { unsigned_abs origin ≤ 2 ^ 28 }
        ensures { IsSlope result origin (pos 0) }
    {
        let at = origin.raw();
        Slope {
            first: 0,
            near: Share::new(1 << 31, at, 0),
            far: Share::new(1 << 31, at, 1 << 46),
        }
    }

    /// Where a slab's first corner is passed.
    #[inline(always)]
    pub fn enters(&self, corners: &[i32; 2]) -> i64
        ensures { result ≡ near_of self.now corners.now }
    {
        self.near.at(corners[self.first as usize])
    }

    /// Where its other corner is passed.
    #[inline(always)]
    pub fn leaves(&self, corners: &[i32; 2]) -> i64
        ensures { result ≡ far_of self.now corners.now }
    {
        self.far.at(corners[1 - self.first as usize])
    }
}

impl Share {
    ghost use Rattle.box_probe.specs.Probes.{passed_of};

    /// Of a coordinate that begins at `at`; it passes each corner so much later.
    fn new(by: i64, at: i64, later: i64) -> Share
        requires by_small { unsigned_abs by ≤ 2 ^ 31 + 1 }
        requires at_small { unsigned_abs at ≤ 2 ^ 28 }
        requires later_small { unsigned_abs later ≤ 2 ^ 46 }
        ensures by { result.by ≡ by }
        ensures from { result.from ≡ (at *ℤ by) -ℤ later }
    {
        Share {
            by,
            from: at * by - later,
        }
    }

    /// Where a corner is passed.
    #[inline(always)]
    pub fn at(&self, corner: i32) -> i64
        ensures { result ≡ passed_of self.now corner }
    {
        corner as i64 * self.by - self.from
    }
}

/// The quotient of 2^31.
fn share_of(step: i64) -> i64
    requires some { pos 0 <ℤ step }
    requires small { unsigned_abs step ≤ 65537 }
    ensures low { (result *ℤ step) ≤ℤ pos (2 ^ 31) }
    ensures high { pos (2 ^ 31) ≤ℤ (result *ℤ step +ℤ step) }
    ensures sign { pos 0 ≤ℤ result }
    ensures within { unsigned_abs result ≤ 2 ^ 31 }
{
    (1i64 << 31).div_euclid(step)
}

#[inline]
fn later(a: i64, b: i64) -> i64
    ensures { (t : ℤ) → a ≤ℤ t → b ≤ℤ t → result ≤ℤ t }
{
    if a < b { b } else { a }
}

#[inline]
fn sooner(a: i64, b: i64) -> i64
    ensures { (t : ℤ) → t ≤ℤ a → t ≤ℤ b → t ≤ℤ result }
{
    if a < b { a } else { b }
}

impl Probe {
    ghost use Rattle.std.specs.Prelude.{false};
    ghost use Rattle.shapes.specs.Rays.{point_at};
    ghost use Rattle.box_probe.specs.Boxes.{IsInBounds};
    ghost use Rattle.box_probe.specs.Probes.{IsProbe, fine};
    ghost use Rattle.shapes.specs.declared.ray.Ray.{Ray};

    /// The slopes of a path's ray, wherever the path ends.
    pub fn new(path: &Path) -> Probe
        ensures { IsProbe result path.now.ray }
    {
        let Ray { origin, dir } = path.ray;
        Probe {
            x: Slope::new(origin.x, dir.x),
            y: Slope::new(origin.y, dir.y),
            z: Slope::new(origin.z, dir.z),
        }
    }

    /// The number of the octant to which the ray goes: the sum of the masks of the axes along which it goes down.
    pub fn octant(&self) -> usize
        ensures { result < 8 }
    {
        self.x.first as usize + 2 * self.y.first as usize + 4 * self.z.first as usize
    }

    /// Whether the ray may be in the box at a number from `from` to `end`, both counted in 2^-15 and both belonging to
    /// it. A box that is missed may be taken for one that is met where the ray comes within 2^-15 of its way to it.
    #[inline(always)]
    pub fn meets(&self, bounds: &Bounds, from: i64, end: i64) -> bool
        ensures { (ray : Ray) (t : ℕ) → IsProbe self.now ray → t < 2 ^ 31 → from ≤ℤ fine t → fine t ≤ℤ end
            → IsInBounds bounds.now (point_at ray t) → IsTrue result }
    {
        let near_x = self.x.enters(&bounds.x);
        let near_y = self.y.enters(&bounds.y);
        let near_z = self.z.enters(&bounds.z);
        let far_x = self.x.leaves(&bounds.x);
        let far_y = self.y.leaves(&bounds.y);
        let far_z = self.z.leaves(&bounds.z);
        let near = later(later(near_x, near_y), later(near_z, from));
        let far = sooner(sooner(far_x, far_y), sooner(far_z, end));
        near <= far
    }
    /// Whether the ray may be in the box at a number below `end`.
    #[inline(always)]
    pub fn meets_before(&self, bounds: &Bounds, end: u64) -> bool
        requires { end ≤ 2 ^ 31 }
        ensures { result ≡ false → (ray : Ray) (t : ℕ) → IsProbe self.now ray → t < end
            → ¬ IsInBounds bounds.now (point_at ray t) }
    {
        self.meets(bounds, 0, fine(end))
    }
}
