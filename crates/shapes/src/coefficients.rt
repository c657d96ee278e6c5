// A quadric's coefficients in the coordinates of the world, from those along its own axes.
ghost use Rattle.std.specs.Prelude.{◌≡◌, ℕ, pos, ◌+ℤ◌, ◌*ℤ◌, ◌*◌, ◌<◌, ◌≤◌, ◌^◌, ◌&&◌, Bool, true, false, List, [], ◌∷◌, unsigned_abs, nat_lt, int_le};
ghost use Rattle.std.specs.List.{All};
ghost use Rattle.fix_math.specs.Matrices.{component};
ghost use Rattle.xform.specs.Placing.{IsSpot};
ghost use Rattle.xform.specs.Transforms.{IsPlaced};
ghost use Rattle.shapes.specs.Bodies.{conic_faces};
ghost use Rattle.shapes.specs.Faces.{seen_from, shifted, quadric_at, quadric_of};
ghost use Rattle.shapes.specs.Growths.{conic_outward};
ghost use Rattle.shapes.specs.Outward.{gradient};
ghost use Rattle.shapes.specs.Rays.{Position};

use crate::conic::{Conic, Constant, LinearTerm, SquareTerm, Terms};
use crate::making::{Entry, Row};
use fix_math::{Fix, rounded_shift};
use xform::{Spot, Xform};

/// A coefficient as it is written.
#[derive(Clone, Copy)]
struct Coefficient {
    value: i64,
    ghost small: { unsigned_abs value ≤ 2 ^ 28 },
}

/// The ten coefficients as they are written.
#[derive(Clone, Copy)]
struct Written {
    xx: Coefficient,
    yy: Coefficient,
    zz: Coefficient,
    xy: Coefficient,
    xz: Coefficient,
    yz: Coefficient,
    x: Coefficient,
    y: Coefficient,
    z: Coefficient,
    one: Coefficient,
}

/// A product of two entries, or the sum of two.
#[derive(Clone, Copy)]
struct Pair {
    value: i128,
    ghost small: { unsigned_abs value ≤ 2 ^ 93 },
}

/// A product of a coefficient with a pair.
#[derive(Clone, Copy)]
struct Part {
    value: i128,
    ghost small: { unsigned_abs value ≤ 2 ^ 121 },
}

/// A coefficient of which no digits are taken yet.
#[derive(Clone, Copy)]
pub struct Long {
    pub value: i128,
    ghost small: { unsigned_abs value ≤ 2 ^ 124 },
}

/// The ten coefficients of which no digits are taken yet.
#[derive(Clone, Copy)]
pub struct LongTerms {
    pub xx: Long,
    pub yy: Long,
    pub zz: Long,
    pub xy: Long,
    pub xz: Long,
    pub yz: Long,
    pub x: Long,
    pub y: Long,
    pub z: Long,
    pub one: Long,
    ghost x_small: { unsigned_abs x.value ≤ 2 ^ 90 },
    ghost y_small: { unsigned_abs y.value ≤ 2 ^ 90 },
    ghost z_small: { unsigned_abs z.value ≤ 2 ^ 90 },
    ghost one_small: { unsigned_abs one.value ≤ 2 ^ 90 },
}

impl Coefficient {
    fn of(number: Fix) -> Coefficient
        requires { unsigned_abs number ≤ 2 ^ 28 }
        ensures { result.value ≡ number }
    {
        Coefficient {
            value: number.raw(),
        }
    }

    fn times(self, pair: Pair) -> Part
        ensures { result.value ≡ self.value *ℤ pair.value }
    {
        Part {
            value: self.value as i128 * pair.value,
        }
    }

    fn times_entry(self, entry: Entry) -> Pair
        ensures value { result.value ≡ self.value *ℤ entry.value }
        ensures small { unsigned_abs result.value ≤ 2 ^ 74 }
    {
        Pair {
            value: self.value as i128 * entry.value as i128,
        }
    }

    fn long(self) -> Long
        ensures value { result.value ≡ self.value }
        ensures small { unsigned_abs result.value ≤ 2 ^ 28 }
    {
        Long {
            value: self.value as i128,
        }
    }
}

impl Entry {
    fn by(self, other: Entry) -> Pair
        ensures value { result.value ≡ self.value *ℤ other.value }
        ensures small { unsigned_abs result.value ≤ 2 ^ 92 }
    {
        Pair {
            value: self.value as i128 * other.value as i128,
        }
    }
}

impl Pair {
    fn plus(self, other: Pair) -> Pair
        requires own { unsigned_abs self.value ≤ 2 ^ 92 }
        requires other { unsigned_abs other.value ≤ 2 ^ 92 }
        ensures { result.value ≡ self.value +ℤ other.value }
    {
        Pair {
            value: self.value + other.value,
        }
    }
}

/// The sum of three products.
#[derive(Clone, Copy)]
struct Three {
    value: i128,
    ghost small: { unsigned_abs value ≤ 3 * 2 ^ 121 },
}

fn sum_of_three(a: Part, b: Part, c: Part) -> Three
    ensures { result.value ≡ a.value +ℤ b.value +ℤ c.value }
{
    Three {
        value: a.value + b.value + c.value,
    }
}

/// The sum of five products.
#[derive(Clone, Copy)]
struct Five {
    value: i128,
    ghost small: { unsigned_abs value ≤ 5 * 2 ^ 121 },
}

impl Three {
    fn plus(self, a: Part, b: Part) -> Five
        ensures { result.value ≡ self.value +ℤ a.value +ℤ b.value }
    {
        Five {
            value: self.value + a.value + b.value,
        }
    }
}

impl Five {
    fn plus(self, a: Part) -> Long
        ensures { result.value ≡ self.value +ℤ a.value }
    {
        Long {
            value: self.value + a.value,
        }
    }
}

/// The sum of three products of coefficients with entries.
fn sum_of_pairs(a: Pair, b: Pair, c: Pair) -> Long
    requires a { unsigned_abs a.value ≤ 2 ^ 74 }
    requires b { unsigned_abs b.value ≤ 2 ^ 74 }
    requires c { unsigned_abs c.value ≤ 2 ^ 74 }
    ensures value { result.value ≡ a.value +ℤ b.value +ℤ c.value }
    ensures small { unsigned_abs result.value ≤ 2 ^ 90 }
{
    Long {
        value: a.value + b.value + c.value,
    }
}

impl Written {
    fn of(c: &[Fix; 10]) -> Written
        requires { (i : ℕ) → unsigned_abs (component c.now i) ≤ 2 ^ 28 }
        ensures xx { result.xx.value ≡ component c.now 0 }
        ensures yy { result.yy.value ≡ component c.now 1 }
        ensures zz { result.zz.value ≡ component c.now 2 }
        ensures xy { result.xy.value ≡ component c.now 3 }
        ensures xz { result.xz.value ≡ component c.now 4 }
        ensures yz { result.yz.value ≡ component c.now 5 }
        ensures x { result.x.value ≡ component c.now 6 }
        ensures y { result.y.value ≡ component c.now 7 }
        ensures z { result.z.value ≡ component c.now 8 }
        ensures one { result.one.value ≡ component c.now 9 }
    {
        Written {
            xx: Coefficient::of(c[0]),
            yy: Coefficient::of(c[1]),
            zz: Coefficient::of(c[2]),
            xy: Coefficient::of(c[3]),
            xz: Coefficient::of(c[4]),
            yz: Coefficient::of(c[5]),
            x: Coefficient::of(c[6]),
            y: Coefficient::of(c[7]),
            z: Coefficient::of(c[8]),
            one: Coefficient::of(c[9]),
        }
    }

    /// The coefficient of the square of the coordinate whose entries are given.
    fn square(&self, a: &Row) -> Long
        ensures { result.value ≡ self.now.xx.value *ℤ (a.now.x.value *ℤ a.now.x.value) +ℤ self.now.yy.value *ℤ (a.now.y.value *ℤ a.now.y.value)
            +ℤ self.now.zz.value *ℤ (a.now.z.value *ℤ a.now.z.value) +ℤ self.now.xy.value *ℤ (a.now.x.value *ℤ a.now.y.value)
            +ℤ self.now.xz.value *ℤ (a.now.x.value *ℤ a.now.z.value) +ℤ self.now.yz.value *ℤ (a.now.y.value *ℤ a.now.z.value) }
    {
        let squares = sum_of_three(
            self.xx.times(a.x.by(a.x)),
            self.yy.times(a.y.by(a.y)),
            self.zz.times(a.z.by(a.z)),
        );
        let most = squares.plus(self.xy.times(a.x.by(a.y)), self.xz.times(a.x.by(a.z)));
        most.plus(self.yz.times(a.y.by(a.z)))
    }

    /// The coefficient of the product of the two coordinates whose entries are given.
    fn product(&self, a: &Row, b: &Row) -> Long
        ensures { result.value ≡ self.now.xx.value *ℤ (a.now.x.value *ℤ b.now.x.value +ℤ b.now.x.value *ℤ a.now.x.value)
            +ℤ self.now.yy.value *ℤ (a.now.y.value *ℤ b.now.y.value +ℤ b.now.y.value *ℤ a.now.y.value)
            +ℤ self.now.zz.value *ℤ (a.now.z.value *ℤ b.now.z.value +ℤ b.now.z.value *ℤ a.now.z.value)
            +ℤ self.now.xy.value *ℤ (a.now.x.value *ℤ b.now.y.value +ℤ b.now.x.value *ℤ a.now.y.value)
            +ℤ self.now.xz.value *ℤ (a.now.x.value *ℤ b.now.z.value +ℤ b.now.x.value *ℤ a.now.z.value)
            +ℤ self.now.yz.value *ℤ (a.now.y.value *ℤ b.now.z.value +ℤ b.now.y.value *ℤ a.now.z.value) }
    {
        let squares = sum_of_three(
            self.xx.times(crossed(a.x, b.x, b.x, a.x)),
            self.yy.times(crossed(a.y, b.y, b.y, a.y)),
            self.zz.times(crossed(a.z, b.z, b.z, a.z)),
        );
        let xy = self.xy.times(crossed(a.x, b.y, b.x, a.y));
        let xz = self.xz.times(crossed(a.x, b.z, b.x, a.z));
        let yz = self.yz.times(crossed(a.y, b.z, b.y, a.z));
        squares.plus(xy, xz).plus(yz)
    }

    /// The coefficient of the coordinate whose entries are given.
    fn line(&self, a: &Row) -> Long
        ensures value { result.value ≡ self.now.x.value *ℤ a.now.x.value +ℤ self.now.y.value *ℤ a.now.y.value +ℤ self.now.z.value *ℤ a.now.z.value }
        ensures small { unsigned_abs result.value ≤ 2 ^ 90 }
    {
        sum_of_pairs(
            self.x.times_entry(a.x),
            self.y.times_entry(a.y),
            self.z.times_entry(a.z),
        )
    }
}

/// a·b + c·d
fn crossed(a: Entry, b: Entry, c: Entry, d: Entry) -> Pair
    ensures { result.value ≡ a.value *ℤ b.value +ℤ c.value *ℤ d.value }
{
    a.by(b).plus(c.by(d))
}

impl LongTerms {
    ghost use Rattle.shapes.specs.Quadrics.{are_terms_small};
    ghost use Rattle.shapes.specs.Faces.{square_term, product_term, linear_term};

    fn of(xform: &Xform, c: &[Fix; 10]) -> LongTerms
        requires placed { IsPlaced xform.now }
        requires each { (i : ℕ) → unsigned_abs (component c.now i) ≤ 2 ^ 28 }
        ensures xx { result.xx.value ≡ square_term c.now xform.now 0 }
        ensures yy { result.yy.value ≡ square_term c.now xform.now 1 }
        ensures zz { result.zz.value ≡ square_term c.now xform.now 2 }
        ensures xy { result.xy.value ≡ product_term c.now xform.now 0 1 }
        ensures xz { result.xz.value ≡ product_term c.now xform.now 0 2 }
        ensures yz { result.yz.value ≡ product_term c.now xform.now 1 2 }
        ensures x { result.x.value ≡ linear_term c.now xform.now 0 }
        ensures y { result.y.value ≡ linear_term c.now xform.now 1 }
        ensures z { result.z.value ≡ linear_term c.now xform.now 2 }
        ensures one { result.one.value ≡ component c.now 9 }
    {
        let own = Written::of(c);
        let first = Row::of(&xform.n[0]);
        let second = Row::of(&xform.n[1]);
        let third = Row::of(&xform.n[2]);
        let x = Row::column(first.x, second.x, third.x);
        let y = Row::column(first.y, second.y, third.y);
        let z = Row::column(first.z, second.z, third.z);
        LongTerms {
            xx: own.square(&x),
            yy: own.square(&y),
            zz: own.square(&z),
            xy: own.product(&x, &y),
            xz: own.product(&x, &z),
            yz: own.product(&y, &z),
            x: own.line(&x),
            y: own.line(&y),
            z: own.line(&z),
            one: own.one.long(),
        }
    }

    /// Whether the coefficients are small enough without so many binary digits.
    fn fit(&self, lost: u32) -> bool
        requires { lost ≤ 100 }
        ensures { result ≡ are_terms_small self.now lost }
    {
        are_short(self.xx, self.yy, self.zz, 0, lost, 32)
            && are_short(self.xy, self.xz, self.yz, 0, lost, 32)
            && are_short(self.x, self.y, self.z, 64, lost, 76)
            && is_short(self.one, 128, lost, 121)
    }

    /// The fewest binary digits without which the coefficients are small enough.
    fn fewest(&self) -> u32
        ensures small { result ≤ 100 }
        ensures passes { are_terms_small self.now result ≡ true }
        ensures first { (j : ℕ) → j < result → are_terms_small self.now j ≡ false }
    {
        let mut lost = 0;
        while lost < 100 {
            if self.fit(lost) {
                return lost;
            }
            lost += 1;
        }
        lost
    }

    /// The coefficients without so many binary digits.
    fn shortened(&self, lost: u32) -> Terms
        requires few { lost ≤ 100 }
        requires small { are_terms_small self.now lost ≡ true }
        ensures xx { result.xx.value ≡ shifted 0 lost self.now.xx.value }
        ensures yy { result.yy.value ≡ shifted 0 lost self.now.yy.value }
        ensures zz { result.zz.value ≡ shifted 0 lost self.now.zz.value }
        ensures xy { result.xy.value ≡ shifted 0 lost self.now.xy.value }
        ensures xz { result.xz.value ≡ shifted 0 lost self.now.xz.value }
        ensures yz { result.yz.value ≡ shifted 0 lost self.now.yz.value }
        ensures x { result.x.value ≡ shifted 64 lost self.now.x.value }
        ensures y { result.y.value ≡ shifted 64 lost self.now.y.value }
        ensures z { result.z.value ≡ shifted 64 lost self.now.z.value }
        ensures one { result.one.value ≡ shifted 128 lost self.now.one.value }
    {
        Terms {
            xx: self.xx.square_term(lost),
            yy: self.yy.square_term(lost),
            zz: self.zz.square_term(lost),
            xy: self.xy.square_term(lost),
            xz: self.xz.square_term(lost),
            yz: self.yz.square_term(lost),
            x: self.x.linear_term(lost),
            y: self.y.linear_term(lost),
            z: self.z.linear_term(lost),
            one: self.one.constant(lost),
        }
    }
}

impl Long {
    ghost use Rattle.shapes.specs.Quadrics.{IsTermShort};

    fn square_term(self, lost: u32) -> SquareTerm
        requires few { lost ≤ 100 }
        requires small { IsTermShort 32 0 lost self.value }
        ensures { result.value ≡ shifted 0 lost self.value }
    {
        SquareTerm {
            value: self.shift(0, lost) as i64,
        }
    }

    fn linear_term(self, lost: u32) -> LinearTerm
        requires few { lost ≤ 100 }
        requires small { IsTermShort 76 64 lost self.value }
        ensures { result.value ≡ shifted 64 lost self.value }
    {
        LinearTerm {
            value: self.shift(64, lost),
        }
    }

    fn constant(self, lost: u32) -> Constant
        requires few { lost ≤ 100 }
        requires small { IsTermShort 121 128 lost self.value }
        ensures { result.value ≡ shifted 128 lost self.value }
    {
        Constant {
            value: self.shift(128, lost),
        }
    }

    /// The number with `up` binary digits more and `lost` less, rounded.
    fn shift(self, up: u32, lost: u32) -> i128
        requires few { lost ≤ 100 }
        requires most { up ≤ 128 }
        requires small { IsTermShort 121 up lost self.value }
        ensures { result ≡ shifted up lost self.value }
    {
        if lost > up {
            rounded_shift(self.value, lost - up)
        } else if self.value == 0 {
            0
        } else {
            self.value * power(up - lost)
        }
    }
}

fn power(bits: u32) -> i128
    requires { bits ≤ 121 }
    ensures { result ≡ pos (2 ^ bits) }
{
    1 << bits
}

fn size_of(bits: u32) -> u128
    requires { bits ≤ 121 }
    ensures { result ≡ 2 ^ bits }
{
    1 << bits
}

/// Whether a number with `up` binary digits more and `lost` less, rounded, has at most `bits`.
fn is_short(number: Long, up: u32, lost: u32, bits: u32) -> bool
    requires few { lost ≤ 100 }
    requires most { up ≤ 128 }
    requires bits { bits ≤ 121 }
    ensures { result ≡ nat_lt (unsigned_abs (shifted up lost number.value)) (2 ^ bits) }
{
    if lost > up {
        rounded_shift(number.value, lost - up).unsigned_abs() < size_of(bits)
    } else if up - lost < bits {
        number.value.unsigned_abs() < size_of(bits - (up - lost))
    } else {
        number.value.unsigned_abs() == 0
    }
}

fn are_short(a: Long, b: Long, c: Long, up: u32, lost: u32, bits: u32) -> bool
    requires few { lost ≤ 100 }
    requires most { up ≤ 128 }
    requires bits { bits ≤ 121 }
    ensures { result ≡ (nat_lt (unsigned_abs (shifted up lost a.value)) (2 ^ bits)
        && (nat_lt (unsigned_abs (shifted up lost b.value)) (2 ^ bits) && nat_lt (unsigned_abs (shifted up lost c.value)) (2 ^ bits))) }
{
    is_short(a, up, lost, bits) && is_short(b, up, lost, bits) && is_short(c, up, lost, bits)
}

/// A quadric by its place and its coefficients.
pub fn conic(xform: &Xform, spot: &Spot, c: &[Fix; 10]) -> Conic
    requires spot { IsSpot spot.now }
    requires placed { IsPlaced xform.now }
    requires each { All (λ z. unsigned_abs z ≤ 2 ^ 28) c.now }
    ensures faces { (p : Position) → conic_faces result p
        ≡ int_le (quadric_at (quadric_of c.now xform.now) (seen_from spot.now.anchor p)) (pos 0) ∷ [] }
    ensures outward { (p : Position) → conic_outward result p ≡ gradient (quadric_of c.now xform.now) (seen_from spot.now.anchor p) }
{
    let long = LongTerms::of(xform, c);
    let lost = long.fewest();
    let terms = long.shortened(lost);
    Conic {
        anchor: spot.anchor,
        terms,
    }
}
