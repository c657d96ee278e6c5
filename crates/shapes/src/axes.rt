// The axes of a solid.
ghost use Rattle.std.specs.Prelude.{◌≡◌, ℕ, ◌≤◌, ◌^◌, unsigned_abs};
ghost use Rattle.fix_math.specs.Matrices.{IsVectorWithin};

use crate::sight::Sight;
use crate::wide::{Factor, WideFactor, WideLine};
use fix_math::V3;
use xform::Spot;

/// A number of a point: a sum of products with its coordinates.
#[derive(Clone, Copy)]
pub struct Form {
    pub x: Factor,
    pub y: Factor,
    pub z: Factor,
}

/// The same, for planes.
#[derive(Clone, Copy)]
pub struct WideForm {
    pub x: WideFactor,
    pub y: WideFactor,
    pub z: WideFactor,
}

/// Where a solid is, and the directions that its points are measured along.
#[derive(Clone, Copy)]
pub struct Axes {
    pub anchor: V3,
    pub first: Form,
    pub second: Form,
    pub third: Form,
    ghost near: { IsVectorWithin (2 ^ 28) anchor },
}

impl Form {
    ghost use Rattle.fix_math.specs.Matrices.{IsRowWithin, component};
    ghost use Rattle.shapes.specs.Bodies.{form_at};
    ghost use Rattle.shapes.specs.Lines.{sight_at, wide_at};

    /// The number of each point of a sight.
    #[inline]
    pub fn along(&self, sight: &Sight) -> WideLine
        ensures value { (t : ℕ) → wide_at result t ≡ form_at self.now (sight_at sight.now t) }
        ensures small { unsigned_abs result.at ≤ 2 ^ 111 }
    {
        WideLine::sum(
            self.x.times(&sight.x),
            self.y.times(&sight.y),
            self.z.times(&sight.z),
        )
    }

    /// The form of a row of entries.
    #[inline]
    fn of(row: &[i64; 3]) -> Form
        requires { IsRowWithin (2 ^ 46) row.now }
        ensures x { result.x.value ≡ component row.now 0 }
        ensures y { result.y.value ≡ component row.now 1 }
        ensures z { result.z.value ≡ component row.now 2 }
    {
        Form {
            x: Factor { value: row[0] },
            y: Factor { value: row[1] },
            z: Factor { value: row[2] },
        }
    }
}

impl WideForm {
    ghost use Rattle.shapes.specs.Bodies.{wide_form_at};
    ghost use Rattle.shapes.specs.Lines.{sight_at, wide_at};

    /// The number of each point of a sight.
    #[inline]
    pub fn along(&self, sight: &Sight) -> WideLine
        ensures value { (t : ℕ) → wide_at result t ≡ wide_form_at self.now (sight_at sight.now t) }
        ensures small { unsigned_abs result.at ≤ 2 ^ 111 }
    {
        WideLine::sum(
            self.x.times(&sight.x),
            self.y.times(&sight.y),
            self.z.times(&sight.z),
        )
    }
}

impl Axes {
    ghost use Rattle.fix_math.specs.declared.fix.V3.{V3 as Vector};
    ghost use Rattle.xform.specs.Placing.{IsSpot};
    ghost use Rattle.shapes.specs.Faces.{own};
    ghost use Rattle.shapes.specs.Growths.{form_row};
    ghost use Rattle.shapes.specs.Outward.{axis_of};
    ghost use Rattle.shapes.specs.Bodies.{own_of};

    /// The axes of a leaf's spot.
    pub fn of(spot: &Spot) -> Axes
        requires { IsSpot spot.now }
        ensures anchor { result.anchor ≡ spot.now.anchor }
        ensures own { (u : Vector) → own_of result u ≡ own spot.now u }
        ensures first { form_row result.first ≡ axis_of spot.now 0 }
        ensures second { form_row result.second ≡ axis_of spot.now 1 }
        ensures third { form_row result.third ≡ axis_of spot.now 2 }
    {
        Axes {
            anchor: spot.anchor,
            first: Form::of(&spot.n[0]),
            second: Form::of(&spot.n[1]),
            third: Form::of(&spot.n[2]),
        }
    }
}
