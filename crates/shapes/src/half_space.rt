// Planes.
ghost use Rattle.std.specs.Prelude.{◌≡◌, ℕ, ◌≤◌, ◌^◌, ◌&&◌, nat_lt};
ghost use Rattle.fix_math.specs.Matrices.{IsVectorWithin};

use crate::axes::WideForm;
use crate::outward::Outward;
use crate::parts::Stretches;
use crate::path::Path;
use crate::ray::Point;
use crate::sight::Sight;
use crate::span::Span;
use crate::wide::Limit;
use fix_math::V3;

/// All on one side of a plane. (Reference manual, plane)
#[derive(Clone, Copy)]
pub struct HalfSpace {
    pub anchor: V3,
    /// What grows towards the outside.
    pub row: WideForm,
    pub limit: Limit,
    ghost near: { IsVectorWithin (2 ^ 28) anchor },
}

impl HalfSpace {
    ghost use Rattle.shapes.specs.Growths.{wide_form_row};
    ghost use Rattle.shapes.specs.Outward.{unit_towards};
    ghost use Rattle.shapes.specs.Faces.{first_failing};
    ghost use Rattle.shapes.specs.Rays.{IsInWorld, position_of};
    ghost use Rattle.shapes.specs.Bodies.{half_space_faces};
    ghost use Rattle.shapes.specs.Faces.{all_hold};
    ghost use Rattle.shapes.specs.Lines.{is_in_stretches};
    ghost use Rattle.shapes.specs.Rays.{point_at};

    /// The numbers of the path on the plane's inner side.
    #[inline(never)]
    pub fn stretches(&self, path: &Path) -> Stretches
        ensures { (t : ℕ) → is_in_stretches result t
            ≡ (nat_lt t path.now.end && all_hold (half_space_faces self.now (point_at path.now.ray t))) }
    {
        let sight = Sight::of_path(&self.anchor, path);
        let whole = Span {
            from: 0,
            end: path.end,
        };
        let above = self.row.along(&sight).less_limit(self.limit);
        whole.narrow_wide(&above).alone()
    }

    /// The first face that doesn't hold at a point; none where the half holds there.
    pub fn failing_face(&self, p: &Point) -> Option<u8>
        requires { IsInWorld (position_of p.now) }
        ensures { result ≡ first_failing (half_space_faces self.now (position_of p.now)) }
    {
        let sight = Sight::of_point(&self.anchor, p);
        let above = self.row.along(&sight).value(0);
        if above <= self.limit.value {
            None
        } else {
            Some(0)
        }
    }

    /// The direction out of the plane.
    pub fn normal(&self) -> V3
        ensures { result ≡ unit_towards (wide_form_row self.now.row) }
    {
        Outward::along_wide(&self.row).unit()
    }
}
