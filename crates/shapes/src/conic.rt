// Quadrics.
ghost use Rattle.std.specs.Prelude.{◌≡◌, ℕ, ◌≤◌, ◌^◌, ◌&&◌, ◌+ℤ◌, nat_lt, unsigned_abs};
ghost use Rattle.fix_math.specs.Matrices.{IsVectorWithin};

use crate::curve::Curve;
use crate::outward::{Component, Outward};
use crate::parts::{Stretches, parts};
use crate::path::Path;
use crate::ray::Point;
use crate::sight::Sight;
use crate::span::{Line, Span};
use fix_math::V3;

/// What a product of two coordinates is multiplied by.
#[derive(Clone, Copy)]
pub struct SquareTerm {
    pub value: i64,
    ghost small: { unsigned_abs value ≤ 2 ^ 32 },
}

/// What a coordinate is multiplied by.
#[derive(Clone, Copy)]
pub struct LinearTerm {
    pub value: i128,
    ghost small: { unsigned_abs value ≤ 2 ^ 76 },
}

/// What is added.
#[derive(Clone, Copy)]
pub struct Constant {
    pub value: i128,
    ghost small: { unsigned_abs value ≤ 2 ^ 121 },
}

/// The coefficients of a quadric.
#[derive(Clone, Copy)]
pub struct Terms {
    pub xx: SquareTerm,
    pub yy: SquareTerm,
    pub zz: SquareTerm,
    pub xy: SquareTerm,
    pub xz: SquareTerm,
    pub yz: SquareTerm,
    pub x: LinearTerm,
    pub y: LinearTerm,
    pub z: LinearTerm,
    pub one: Constant,
}

/// A quadric by its anchor and its coefficients. (Reference manual, quadric)
#[derive(Clone, Copy)]
pub struct Conic {
    pub anchor: V3,
    pub terms: Terms,
    ghost near: { IsVectorWithin (2 ^ 28) anchor },
}

/// A point's coordinate.
#[derive(Clone, Copy)]
struct Coordinate {
    value: i64,
    ghost small: { unsigned_abs value ≤ 2 ^ 45 },
}

/// A product of a coordinate.
#[derive(Clone, Copy)]
struct Share {
    value: i128,
    ghost small: { unsigned_abs value ≤ 2 ^ 77 },
}

/// A sum of such products.
#[derive(Clone, Copy)]
struct Growth {
    value: i128,
    ghost small: { unsigned_abs value ≤ 2 ^ 79 },
}

/// A product of two coordinates and a coefficient.
#[derive(Clone, Copy)]
struct Part {
    value: i128,
    ghost small: { unsigned_abs value ≤ 2 ^ 124 },
}

/// Two such products.
#[derive(Clone, Copy)]
struct Parts {
    value: i128,
    ghost small: { unsigned_abs value ≤ 2 ^ 125 },
}

/// A quadric's number at each point of a sight.
#[derive(Clone, Copy)]
pub struct Bowl {
    pub terms: Terms,
    pub sight: Sight,
}

impl Line {
    ghost use Rattle.std.specs.Prelude.{◌<◌};
    ghost use Rattle.shapes.specs.Lines.{value_at};

    #[inline]
    fn coordinate_at(&self, t: u64) -> Coordinate
        requires low { t < 2 ^ 32 }
        requires small { unsigned_abs (value_at self.now t) ≤ 2 ^ 45 }
        ensures { result.value ≡ value_at self.now t }
    {
        Coordinate {
            value: self.value(t),
        }
    }
}

impl SquareTerm {
    ghost use Rattle.std.specs.Prelude.{◌*ℤ◌};

    #[inline]
    fn times(self, u: Coordinate) -> Share
        ensures { result.value ≡ self.value *ℤ u.value }
    {
        Share {
            value: self.value as i128 * u.value as i128,
        }
    }
}

impl LinearTerm {
    #[inline]
    fn growth(self) -> Growth
        ensures value { result.value ≡ self.value }
        ensures small { unsigned_abs result.value ≤ 2 ^ 76 }
    {
        Growth { value: self.value }
    }
}

impl Growth {
    ghost use Rattle.std.specs.Prelude.{◌+◌, ◌*◌, ◌+ℤ◌, ◌*ℤ◌};

    #[inline]
    fn plus(self, a: Share) -> Growth
        requires { unsigned_abs self.value ≤ 5 * 2 ^ 76 }
        ensures value { result.value ≡ self.value +ℤ a.value }
        ensures small { unsigned_abs result.value ≤ unsigned_abs self.value + 2 ^ 77 }
    {
        Growth {
            value: self.value + a.value,
        }
    }

    #[inline]
    fn times(self, u: Coordinate) -> Part
        ensures { result.value ≡ self.value *ℤ u.value }
    {
        Part {
            value: self.value * u.value as i128,
        }
    }
}

impl Part {
    ghost use Rattle.std.specs.Prelude.{◌+ℤ◌};

    #[inline]
    fn plus(self, other: Part) -> Parts
        ensures { result.value ≡ self.value +ℤ other.value }
    {
        Parts {
            value: self.value + other.value,
        }
    }
}

impl Parts {
    ghost use Rattle.std.specs.Prelude.{◌+ℤ◌, ◌<◌};

    #[inline]
    fn plus(self, other: Part, constant: Constant) -> i128
        ensures value { result ≡ self.value +ℤ other.value +ℤ constant.value }
        ensures small { unsigned_abs result < 2 ^ 126 }
    {
        self.value + other.value + constant.value
    }
}

/// How a quadric's number grows with a coordinate: by its linear term, its square's, and two products'.
#[inline]
fn slope(linear: LinearTerm, square: Share, product: Share, other: Share) -> Component
    ensures { result.value ≡ linear.value +ℤ square.value +ℤ square.value +ℤ product.value +ℤ other.value }
{
    let growth = linear.growth().plus(square).plus(square).plus(product);
    Component {
        value: growth.value + other.value,
    }
}

impl Curve for Bowl {
    ghost use Rattle.std.specs.Prelude.{◌<◌};
    ghost use Rattle.shapes.specs.Bodies.{terms_at};
    ghost use Rattle.shapes.specs.Curves.{terms_bend, terms-bends};
    ghost use Rattle.shapes.specs.Lines.{sight_at, value_at};

    ghost value = { λ bowl t. terms_at bowl.terms (sight_at bowl.sight t) };

    ghost can_eval = { λ bowl t. (t < 2 ^ 32) × (unsigned_abs (value_at bowl.sight.x t) ≤ 2 ^ 45) × (unsigned_abs (value_at bowl.sight.y t) ≤ 2 ^ 45) × (unsigned_abs (value_at bowl.sight.z t) ≤ 2 ^ 45) };

    ghost bend = { λ bowl. terms_bend bowl.terms bowl.sight };

    ghost bends = { λ bowl. terms-bends bowl.terms bowl.sight };

    #[inline]
    fn at(&self, t: u64) -> i128 {
        let q = &self.terms;
        let x = self.sight.x.coordinate_at(t);
        let y = self.sight.y.coordinate_at(t);
        let z = self.sight.z.coordinate_at(t);
        let first = q.x.growth().plus(q.xx.times(x));
        let second = first.plus(q.xy.times(y));
        let along_x = second.plus(q.xz.times(z));
        let along_y = q.y.growth().plus(q.yy.times(y)).plus(q.yz.times(z));
        let along_z = q.z.growth().plus(q.zz.times(z));
        along_x
            .times(x)
            .plus(along_y.times(y))
            .plus(along_z.times(z), q.one)
    }
}

impl Conic {
    ghost use Rattle.shapes.specs.Growths.{conic_outward};
    ghost use Rattle.shapes.specs.Outward.{unit_towards};
    ghost use Rattle.shapes.specs.Bodies.{conic_faces};
    ghost use Rattle.shapes.specs.Faces.{all_hold, first_failing};
    ghost use Rattle.shapes.specs.Lines.{is_in_stretches};
    ghost use Rattle.shapes.specs.Rays.{IsInWorld, point_at, position_of};

    /// The numbers of the path in the quadric.
    #[inline(never)]
    pub fn stretches(&self, path: &Path) -> Stretches
        ensures { (t : ℕ) → is_in_stretches result t
            ≡ (nat_lt t path.now.end && all_hold (conic_faces self.now (point_at path.now.ray t))) }
    {
        let sight = Sight::of_path(&self.anchor, path);
        let bowl = Bowl {
            terms: self.terms,
            sight,
        };
        let whole = Span {
            from: 0,
            end: path.end,
        };
        parts(&bowl, whole)
    }

    /// The first face that doesn't hold at a point; none where the quadric holds there.
    pub fn failing_face(&self, p: &Point) -> Option<u8>
        requires { IsInWorld (position_of p.now) }
        ensures { result ≡ first_failing (conic_faces self.now (position_of p.now)) }
    {
        let sight = Sight::of_point(&self.anchor, p);
        let bowl = Bowl {
            terms: self.terms,
            sight,
        };
        if bowl.at(0) <= 0 { None } else { Some(0) }
    }

    /// The direction out of the quadric at a point.
    pub fn normal(&self, p: &Point) -> V3
        requires { IsInWorld (position_of p.now) }
        ensures { result ≡ unit_towards (conic_outward self.now (position_of p.now)) }
    {
        let sight = Sight::of_point(&self.anchor, p);
        let q = &self.terms;
        let x = sight.x.coordinate_at(0);
        let y = sight.y.coordinate_at(0);
        let z = sight.z.coordinate_at(0);
        Outward {
            x: slope(q.x, q.xx.times(x), q.xy.times(y), q.xz.times(z)),
            y: slope(q.y, q.yy.times(y), q.xy.times(x), q.yz.times(z)),
            z: slope(q.z, q.zz.times(z), q.xz.times(x), q.yz.times(y)),
        }
        .unit()
    }
}
