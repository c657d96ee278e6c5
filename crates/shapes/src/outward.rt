// Directions out of solids.
ghost use Rattle.std.specs.Prelude.{◌≡◌, ℕ, pos, ◌+ℤ◌, ◌-ℤ◌, ◌*ℤ◌, ◌≤◌, ◌^◌, List, [], ◌∷◌, unsigned_abs};
ghost use Rattle.fix_math.specs.Directions.{unit_wide_of};
ghost use Rattle.shapes.specs.Growths.{form_row};
ghost use Rattle.shapes.specs.Outward.{out_of_ends, unit_towards};

use crate::axes::{Form, WideForm};
use crate::measure::Measure;
use crate::wide::Factor;
use fix_math::{V3, unit_wide};

/// A component of a direction.
#[derive(Clone, Copy)]
pub struct Component {
    pub value: i128,
    ghost small: { unsigned_abs value ≤ 2 ^ 125 },
}

/// A direction of any length.
#[derive(Clone, Copy)]
pub struct Outward {
    pub x: Component,
    pub y: Component,
    pub z: Component,
}

/// A product of a point's measure with a factor.
#[derive(Clone, Copy)]
pub struct Share {
    pub value: i128,
    ghost small: { unsigned_abs value ≤ 2 ^ 121 },
}

impl Measure {
    #[inline]
    pub fn by(self, factor: Factor) -> Share
        ensures { result.value ≡ self.value *ℤ factor.value }
    {
        Share {
            value: self.value as i128 * factor.value as i128,
        }
    }
}

impl Share {
    #[inline]
    pub fn plus(self, other: Share) -> Component
        ensures { result.value ≡ self.value +ℤ other.value }
    {
        Component {
            value: self.value + other.value,
        }
    }

    #[inline]
    pub fn plus_two(self, second: Share, third: Share) -> Component
        ensures { result.value ≡ self.value +ℤ second.value +ℤ third.value }
    {
        Component {
            value: self.value + second.value + third.value,
        }
    }

    #[inline]
    pub fn plus_less(self, second: Share, third: Share) -> Component
        ensures { result.value ≡ self.value +ℤ second.value -ℤ third.value }
    {
        Component {
            value: self.value + second.value - third.value,
        }
    }
}

impl Factor {
    #[inline]
    fn component(self) -> Component
        ensures { result.value ≡ self.value }
    {
        Component {
            value: self.value as i128,
        }
    }

    #[inline]
    fn opposite(self) -> Component
        ensures { result.value ≡ pos 0 -ℤ self.value }
    {
        Component {
            value: -(self.value as i128),
        }
    }
}

impl Outward {
    /// The direction that a form grows in.
    #[inline]
    pub fn along(form: &Form) -> Outward
        ensures x { result.x.value ≡ form.now.x.value }
        ensures y { result.y.value ≡ form.now.y.value }
        ensures z { result.z.value ≡ form.now.z.value }
    {
        Outward {
            x: form.x.component(),
            y: form.y.component(),
            z: form.z.component(),
        }
    }

    /// The direction that a form falls in.
    #[inline]
    pub fn back_along(form: &Form) -> Outward
        ensures x { result.x.value ≡ pos 0 -ℤ form.now.x.value }
        ensures y { result.y.value ≡ pos 0 -ℤ form.now.y.value }
        ensures z { result.z.value ≡ pos 0 -ℤ form.now.z.value }
    {
        Outward {
            x: form.x.opposite(),
            y: form.y.opposite(),
            z: form.z.opposite(),
        }
    }

    /// The direction that a plane's form grows in.
    #[inline]
    pub fn along_wide(form: &WideForm) -> Outward
        ensures x { result.x.value ≡ form.now.x.value }
        ensures y { result.y.value ≡ form.now.y.value }
        ensures z { result.z.value ≡ form.now.z.value }
    {
        Outward {
            x: Component {
                value: form.x.value,
            },
            y: Component {
                value: form.y.value,
            },
            z: Component {
                value: form.z.value,
            },
        }
    }

    /// The sum of two forms, each as often as a point's measure along it.
    #[inline]
    pub fn of_pipe(l: Measure, first: &Form, m: Measure, second: &Form) -> Outward
        ensures x { result.x.value ≡ l.value *ℤ first.now.x.value +ℤ m.value *ℤ second.now.x.value }
        ensures y { result.y.value ≡ l.value *ℤ first.now.y.value +ℤ m.value *ℤ second.now.y.value }
        ensures z { result.z.value ≡ l.value *ℤ first.now.z.value +ℤ m.value *ℤ second.now.z.value }
    {
        Outward {
            x: l.by(first.x).plus(m.by(second.x)),
            y: l.by(first.y).plus(m.by(second.y)),
            z: l.by(first.z).plus(m.by(second.z)),
        }
    }

    /// The sum of three forms so.
    #[inline]
    pub fn of_ball(
        l: Measure,
        first: &Form,
        m: Measure,
        second: &Form,
        n: Measure,
        third: &Form,
    ) -> Outward
        ensures x { result.x.value ≡ l.value *ℤ first.now.x.value +ℤ m.value *ℤ second.now.x.value +ℤ n.value *ℤ third.now.x.value }
        ensures y { result.y.value ≡ l.value *ℤ first.now.y.value +ℤ m.value *ℤ second.now.y.value +ℤ n.value *ℤ third.now.y.value }
        ensures z { result.z.value ≡ l.value *ℤ first.now.z.value +ℤ m.value *ℤ second.now.z.value +ℤ n.value *ℤ third.now.z.value }
    {
        Outward {
            x: l.by(first.x).plus_two(m.by(second.x), n.by(third.x)),
            y: l.by(first.y).plus_two(m.by(second.y), n.by(third.y)),
            z: l.by(first.z).plus_two(m.by(second.z), n.by(third.z)),
        }
    }

    /// The sum of two forms so, less the radius' form.
    #[inline]
    pub fn of_taper(
        l: Measure,
        first: &Form,
        m: Measure,
        second: &Form,
        radius: Measure,
        slope: &Form,
    ) -> Outward
        ensures x { result.x.value ≡ l.value *ℤ first.now.x.value +ℤ m.value *ℤ second.now.x.value -ℤ radius.value *ℤ slope.now.x.value }
        ensures y { result.y.value ≡ l.value *ℤ first.now.y.value +ℤ m.value *ℤ second.now.y.value -ℤ radius.value *ℤ slope.now.y.value }
        ensures z { result.z.value ≡ l.value *ℤ first.now.z.value +ℤ m.value *ℤ second.now.z.value -ℤ radius.value *ℤ slope.now.z.value }
    {
        Outward {
            x: l.by(first.x).plus_less(m.by(second.x), radius.by(slope.x)),
            y: l.by(first.y).plus_less(m.by(second.y), radius.by(slope.y)),
            z: l.by(first.z).plus_less(m.by(second.z), radius.by(slope.z)),
        }
    }

    /// The direction with the length of 1 unit.
    pub fn unit(&self) -> V3
        ensures { result ≡ unit_wide_of (self.now.x.value ∷ self.now.y.value ∷ self.now.z.value ∷ []) }
    {
        unit_wide([self.x.value, self.y.value, self.z.value])
    }
}

/// Out of an end along an axis: 0 is the first, and looks back along it.
pub fn unit_out_of_ends(axis: &Form, face: u8) -> V3
    ensures { result ≡ unit_towards (out_of_ends (form_row axis.now) face) }
{
    if face == 0 {
        Outward::back_along(axis).unit()
    } else {
        Outward::along(axis).unit()
    }
}
