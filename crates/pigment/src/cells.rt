// Cells of cubes and of bricks.
ghost use Rattle.std.specs.Prelude.{◌≡◌, ◌≤◌, ◌<◌, ◌^◌, pos, ◌+ℤ◌, ◌<ℤ◌, ◌≤ℤ◌, unsigned_abs};
ghost use Rattle.std.specs.Int.{int_div_euclid};
ghost use Rattle.fix_math.specs.Matrices.{IsVectorWithin};
ghost use Rattle.scene_model.specs.Looks.{IsBrickSize};
ghost use Rattle.pigment.specs.Cells.{past_edge, parity, checker_place, is_mortar, shift, is_odd_layer, shows_mortar};

use fix_math::{Fix, V3};

/// How far the cells' edges lie below multiples of their size.
const EDGE: i64 = 32;

const UNIT: i64 = 65536;

/// Which of two colours a checker shows.
pub fn checker_place(q: &V3) -> usize
    requires small { IsVectorWithin (2 ^ 43) q.now }
    ensures value { result ≡ checker_place q.now }
    ensures few { result < 2 }
{
    parity(sum(cube(q.x), cube(q.y), cube(q.z)))
}

#[inline]
fn sum(a: i64, b: i64, c: i64) -> i64
    requires a_small { unsigned_abs a ≤ 2 ^ 44 }
    requires b_small { unsigned_abs b ≤ 2 ^ 44 }
    requires c_small { unsigned_abs c ≤ 2 ^ 44 }
    ensures { result ≡ a +ℤ b +ℤ c }
{
    a + b + c
}

/// The number of the cube along an axis.
#[inline]
fn cube(along: Fix) -> i64
    requires { unsigned_abs along ≤ 2 ^ 43 }
    ensures value { result ≡ int_div_euclid (along +ℤ pos 32) (pos 65536) }
    ensures small { unsigned_abs result ≤ 2 ^ 44 }
{
    past_edge(along).div_euclid(UNIT)
}

#[inline]
fn parity(number: i64) -> usize
    ensures value { result ≡ parity number }
    ensures few { result < 2 }
{
    number.rem_euclid(2) as usize
}

/// Whether a wall of bricks shows its mortar.
pub fn shows_mortar(width: Fix, size: &V3, q: &V3) -> bool
    requires some { IsBrickSize size.now }
    requires small { IsVectorWithin (2 ^ 43) q.now }
    ensures { result ≡ shows_mortar width size.now (past_edge q.now) }
{
    let y = past_edge(q.y);
    let odd = is_odd_layer(size.y, y);
    is_mortar(width, size.y, y)
        || is_mortar(width, size.x, shifted(q.x, odd, size.x))
        || is_mortar(width, size.z, shifted(q.z, odd, size.z))
}

/// A coordinate as cells are counted.
#[inline]
fn past_edge(along: Fix) -> i64
    requires { unsigned_abs along ≤ 2 ^ 43 }
    ensures value { result ≡ along +ℤ pos 32 }
    ensures small { unsigned_abs result ≤ 2 ^ 44 }
{
    along.raw() + EDGE
}

/// A coordinate as the bricks of a layer are counted.
#[inline]
fn shifted(along: Fix, odd: bool, size: Fix) -> i64
    requires small { unsigned_abs along ≤ 2 ^ 43 }
    requires some { pos 0 <ℤ size }
    ensures { result ≡ along +ℤ pos 32 +ℤ shift odd size }
{
    past_edge(along) + shift(odd, size)
}

#[inline]
fn is_odd_layer(size: Fix, along: i64) -> bool
    requires { pos 0 <ℤ size }
    ensures { result ≡ is_odd_layer size along }
{
    parity(along.div_euclid(size.raw())) == 1
}

/// How far back a layer's bricks lie along an axis.
#[inline]
fn shift(odd: bool, size: Fix) -> i64
    requires { pos 0 <ℤ size }
    ensures value { result ≡ shift odd size }
    ensures low { pos 0 ≤ℤ result }
    ensures high { unsigned_abs result < 2 ^ 47 }
{
    if odd { size.raw().div_euclid(2) } else { 0 }
}

#[inline]
fn is_mortar(width: Fix, size: Fix, along: i64) -> bool
    requires { pos 0 <ℤ size }
    ensures { result ≡ is_mortar width size along }
{
    along.rem_euclid(size.raw()) < width.raw()
}
