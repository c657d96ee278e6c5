// The directions of rays that leave a surface.
ghost use Rattle.std.specs.Prelude.{◌≡◌, ◌+◌, ◌≤◌, ◌<◌, ◌^◌, pos, neg_ℤ, ◌-ℤ◌, ◌+ℤ◌, ◌*ℤ◌, ◌≤ℤ◌, unsigned_abs};
ghost use Rattle.std.specs.Ordering.{int_eq};
ghost use Rattle.fix_math.specs.Matrices.{IsVectorWithin};
ghost use Rattle.fix_math.specs.Numbers.{rnd, product_of};
ghost use Rattle.fix_math.specs.Roots.{root};
ghost use Rattle.fix_math.specs.Vectors.{dot_of, rounded_dot_of};
ghost use Rattle.scene_model.specs.Amounts.{IsIor};
ghost use Rattle.shapes.specs.Rays.{IsRayDirection};
ghost use Rattle.finish_shade.specs.Directions.{opposite, turned_against, thrown_back, index_ratio, cosine_before, square_behind, bent, bent_or_thrown_back, passed_on};

use crate::amounts::ONE;
use crate::products::{long_product, short_product, short_quotient, small_product};
use fix_math::{Fix, V3, dot, isqrt, rounded_dot, rounded_shift, unit};

/// The cosine between two directions.
#[inline]
pub fn cosine(v: &V3, w: &V3) -> i64
    requires v { IsVectorWithin 65537 v.now }
    requires w { IsVectorWithin 65537 w.now }
    ensures value { result ≡ rounded_dot_of v.now w.now }
    ensures small { unsigned_abs result ≤ 2 ^ 18 }
{
    rounded_dot(v, w) as i64
}

/// The cosine between a direction and the opposite of another.
#[inline]
pub fn opposite_cosine(v: &V3, w: &V3) -> i64
    requires v { IsVectorWithin 65537 v.now }
    requires w { IsVectorWithin 65537 w.now }
    ensures value { result ≡ rnd (neg_ℤ (dot_of v.now w.now)) (pos 65536) }
    ensures small { unsigned_abs result ≤ 2 ^ 18 }
{
    rounded_opposite_dot(v, w) as i64
}

#[inline]
fn rounded_opposite_dot(v: &V3, w: &V3) -> i128
    ensures { result ≡ rnd (neg_ℤ (dot_of v.now w.now)) (pos 65536) }
{
    rounded_shift(opposite_dot(v, w), 16)
}

#[inline]
fn opposite_dot(v: &V3, w: &V3) -> i128
    ensures value { result ≡ neg_ℤ (dot_of v.now w.now) }
    ensures small { unsigned_abs result < 2 ^ 96 }
{
    -dot(v, w)
}

/// A normal, on the side that a ray comes from.
#[inline]
pub fn turned_against(d: &V3, n: V3) -> V3
    requires d { IsVectorWithin 65537 d.now }
    requires n { IsVectorWithin 65536 n }
    ensures value { result ≡ turned_against d.now n }
    ensures small { IsVectorWithin 65536 result }
{
    if cosine(&n, d) > 0 { opposite(&n) } else { n }
}

#[inline]
fn opposite(n: &V3) -> V3
    requires { IsVectorWithin 65536 n.now }
    ensures value { result ≡ opposite n.now }
    ensures small { IsVectorWithin 65536 result }
{
    V3 {
        x: n.x.negated(),
        y: n.y.negated(),
        z: n.z.negated(),
    }
}

/// The direction of a ray that a surface throws back.
pub fn thrown_back(d: &V3, n: &V3) -> V3
    requires d { IsVectorWithin 65537 d.now }
    requires n { IsVectorWithin 65536 n.now }
    ensures value { result ≡ thrown_back d.now n.now }
    ensures direction { IsRayDirection result }
    ensures small { IsVectorWithin 65537 result }
{
    let dn = cosine(d, n);
    unit(V3 {
        x: less_twice(d.x, dn, n.x),
        y: less_twice(d.y, dn, n.y),
        z: less_twice(d.z, dn, n.z),
    })
}

#[inline]
fn less_twice(d: Fix, dn: i64, n: Fix) -> Fix
    requires d_small { unsigned_abs d ≤ 65537 }
    requires dn_small { unsigned_abs dn ≤ 2 ^ 18 }
    requires n_small { unsigned_abs n ≤ 65536 }
    ensures { result ≡ d -ℤ pos 2 *ℤ product_of dn n }
{
    less_raw(d, twice(small_product(dn, n.raw())))
}

#[inline]
fn twice(number: i64) -> i64
    requires { unsigned_abs number ≤ 2 ^ 24 }
    ensures value { result ≡ pos 2 *ℤ number }
    ensures small { unsigned_abs result ≤ 2 ^ 25 }
{
    2 * number
}

#[inline]
fn less_raw(d: Fix, number: i64) -> Fix
    requires d_small { unsigned_abs d ≤ 65537 }
    requires number_small { unsigned_abs number ≤ 2 ^ 25 }
    ensures { result ≡ d -ℤ number }
{
    Fix(d.raw() - number)
}

/// The direction of a ray on its way through a surface.
pub fn passed_on(d: &V3, n: &V3, entering: bool, ior: Fix) -> V3
    requires d { IsVectorWithin 65537 d.now }
    requires direction { IsRayDirection d.now }
    requires n { IsVectorWithin 65536 n.now }
    requires ior { IsIor ior }
    ensures value { result ≡ passed_on d.now n.now entering ior }
    ensures direction { IsRayDirection result }
{
    if is_one(ior) {
        *d
    } else {
        bent_or_thrown_back(d, n, index_ratio(entering, ior), cosine_before(d, n))
    }
}

#[inline]
fn is_one(ior: Fix) -> bool
    ensures { result ≡ int_eq ior (pos 65536) }
{
    ior.raw() == ONE
}

#[inline]
fn index_ratio(entering: bool, ior: Fix) -> i64
    requires { IsIor ior }
    ensures value { result ≡ index_ratio entering ior }
    ensures small { unsigned_abs result ≤ 2 ^ 20 }
{
    if entering {
        short_quotient(ONE * ONE, ior.raw())
    } else {
        short_quotient(ONE * ior.raw(), ONE)
    }
}

#[inline]
fn cosine_before(d: &V3, n: &V3) -> i64
    requires d { IsVectorWithin 65537 d.now }
    requires n { IsVectorWithin 65536 n.now }
    ensures value { result ≡ cosine_before d.now n.now }
    ensures small { unsigned_abs result ≤ 2 ^ 18 }
{
    (-cosine(d, n)).min(ONE)
}

fn bent_or_thrown_back(d: &V3, n: &V3, eta: i64, c: i64) -> V3
    requires d { IsVectorWithin 65537 d.now }
    requires n { IsVectorWithin 65536 n.now }
    requires eta_small { unsigned_abs eta ≤ 2 ^ 20 }
    requires c_small { unsigned_abs c ≤ 2 ^ 18 }
    ensures value { result ≡ bent_or_thrown_back d.now n.now eta c }
    ensures direction { IsRayDirection result }
{
    let k = square_behind(eta, c);
    if k < 0 {
        thrown_back(d, n)
    } else {
        bent(d, n, eta, c, k)
    }
}

#[inline]
fn square_behind(eta: i64, c: i64) -> i64
    requires eta_small { unsigned_abs eta ≤ 2 ^ 20 }
    requires c_small { unsigned_abs c ≤ 2 ^ 18 }
    ensures value { result ≡ square_behind eta c }
    ensures small { unsigned_abs result ≤ 2 ^ 45 }
{
    rest_of_one(short_product(small_product(eta, eta), rest_of_one(small_product(c, c))))
}

#[inline]
fn rest_of_one(number: i64) -> i64
    requires { unsigned_abs number ≤ 2 ^ 44 }
    ensures value { result ≡ pos 65536 -ℤ number }
    ensures small { unsigned_abs result ≤ unsigned_abs number + 65536 }
{
    ONE - number
}

fn bent(d: &V3, n: &V3, eta: i64, c: i64, k: i64) -> V3
    requires d { IsVectorWithin 65537 d.now }
    requires n { IsVectorWithin 65536 n.now }
    requires eta_small { unsigned_abs eta ≤ 2 ^ 20 }
    requires c_small { unsigned_abs c ≤ 2 ^ 18 }
    requires k_some { pos 0 ≤ℤ k }
    requires k_small { unsigned_abs k ≤ 2 ^ 45 }
    ensures value { result ≡ bent d.now n.now eta c k }
    ensures direction { IsRayDirection result }
{
    let side = side_of(eta, c, k);
    unit(V3 {
        x: joined(eta, d.x, side, n.x),
        y: joined(eta, d.y, side, n.y),
        z: joined(eta, d.z, side, n.z),
    })
}

/// How much of the normal a bent direction has.
#[inline]
fn side_of(eta: i64, c: i64, k: i64) -> i64
    requires eta_small { unsigned_abs eta ≤ 2 ^ 20 }
    requires c_small { unsigned_abs c ≤ 2 ^ 18 }
    requires k_some { pos 0 ≤ℤ k }
    requires k_small { unsigned_abs k ≤ 2 ^ 45 }
    ensures value { result ≡ product_of eta c -ℤ pos (root (unsigned_abs (k *ℤ pos 65536))) }
    ensures small { unsigned_abs result ≤ 2 ^ 45 }
{
    minus(small_product(eta, c), root_behind(k))
}

#[inline]
fn minus(a: i64, b: i64) -> i64
    requires a_small { unsigned_abs a ≤ 2 ^ 24 }
    requires b_small { unsigned_abs b ≤ 2 ^ 31 }
    ensures value { result ≡ a -ℤ b }
    ensures small { unsigned_abs result ≤ 2 ^ 45 }
{
    a - b
}

#[inline]
fn root_behind(k: i64) -> i64
    requires k_some { pos 0 ≤ℤ k }
    requires k_small { unsigned_abs k ≤ 2 ^ 45 }
    ensures value { result ≡ pos (root (unsigned_abs (k *ℤ pos 65536))) }
    ensures small { unsigned_abs result ≤ 2 ^ 31 }
{
    isqrt(scaled(k)) as i64
}

#[inline]
fn scaled(k: i64) -> u128
    requires k_some { pos 0 ≤ℤ k }
    requires k_small { unsigned_abs k ≤ 2 ^ 45 }
    ensures value { result ≡ unsigned_abs (k *ℤ pos 65536) }
    ensures small { result ≤ 2 ^ 61 }
{
    k as u128 * 65536
}

#[inline]
fn joined(eta: i64, d: Fix, side: i64, n: Fix) -> Fix
    requires eta_small { unsigned_abs eta ≤ 2 ^ 20 }
    requires d_small { unsigned_abs d ≤ 65537 }
    requires side_small { unsigned_abs side ≤ 2 ^ 45 }
    requires n_small { unsigned_abs n ≤ 65536 }
    ensures { result ≡ rnd (eta *ℤ d +ℤ side *ℤ n) (pos 65536) }
{
    Fix::from_known(joined_wide(eta, d, side, n))
}

#[inline]
fn joined_wide(eta: i64, d: Fix, side: i64, n: Fix) -> i128
    requires eta_small { unsigned_abs eta ≤ 2 ^ 20 }
    requires d_small { unsigned_abs d ≤ 65537 }
    requires side_small { unsigned_abs side ≤ 2 ^ 45 }
    requires n_small { unsigned_abs n ≤ 65536 }
    ensures { result ≡ rnd (eta *ℤ d +ℤ side *ℤ n) (pos 65536) }
{
    rounded_shift(
        sum(long_product(eta, d.raw()), long_product(side, n.raw())),
        16,
    )
}

#[inline]
fn sum(a: i128, b: i128) -> i128
    requires a_small { unsigned_abs a ≤ 2 ^ 82 }
    requires b_small { unsigned_abs b ≤ 2 ^ 82 }
    ensures value { result ≡ a +ℤ b }
    ensures small { unsigned_abs result ≤ 2 ^ 83 }
{
    a + b
}
