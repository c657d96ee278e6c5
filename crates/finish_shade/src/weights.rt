// What a ray counts, and what surfaces let through.
ghost use Rattle.std.specs.Prelude.{◌≡◌, ◌^◌, pos, ◌+ℤ◌};
ghost use Rattle.std.specs.Int.{int_min, int_max};
ghost use Rattle.fix_math.specs.Numbers.{product_of};
ghost use Rattle.scene_model.specs.Amounts.{IsAmount, AreAmounts, IsRgbft};
ghost use Rattle.finish_shade.specs.Amounts.{let_through, filtered, is_opaque, greatest_channel, weight_of, is_weak};

use crate::amounts::ONE;
use crate::products::share;
use fix_math::Fix;
use scene_model::{Rgb, Rgbft};

/// Whether a ray of this weight isn't followed. (Reference manual, adc_bailout)
#[inline]
pub fn is_weak(adc: Fix, weight: Fix) -> bool
    ensures { result ≡ is_weak adc weight }
{
    weight.raw() == 0 || weight.raw() < adc.raw()
}

/// The weight of a ray that goes on by a share of another.
#[inline]
pub fn weight_of(weight: Fix, part: &Rgb) -> Fix
    requires weight { IsAmount 65536 weight }
    requires part { AreAmounts (2 ^ 25) part.now }
    ensures value { result ≡ weight_of weight part.now }
    ensures amount { IsAmount 65536 result }
{
    least_one(shared(weight, greatest_channel(part)))
}

#[inline]
fn greatest_channel(c: &Rgb) -> Fix
    requires { AreAmounts (2 ^ 25) c.now }
    ensures value { result ≡ greatest_channel c.now }
    ensures amount { IsAmount (2 ^ 25) result }
{
    greater(greater(c[0], c[1]), c[2])
}

#[inline]
fn greater(a: Fix, b: Fix) -> Fix
    requires a { IsAmount (2 ^ 25) a }
    requires b { IsAmount (2 ^ 25) b }
    ensures value { result ≡ int_max a b }
    ensures amount { IsAmount (2 ^ 25) result }
{
    Fix(a.raw().max(b.raw()))
}

#[inline]
fn shared(weight: Fix, greatest: Fix) -> Fix
    requires weight { IsAmount 65536 weight }
    requires greatest { IsAmount (2 ^ 25) greatest }
    ensures value { result ≡ product_of weight greatest }
    ensures amount { IsAmount (2 ^ 25) result }
{
    share(weight, greatest)
}

/// What shines through a surface of a colour.
#[inline]
pub fn let_through(colour: &Rgbft) -> Rgb
    requires { IsRgbft colour.now }
    ensures value { result ≡ let_through colour.now }
    ensures amounts { AreAmounts (2 ^ 25) result }
{
    let [red, green, blue, filter, transmit] = *colour;
    [
        through(filter, red, transmit),
        through(filter, green, transmit),
        through(filter, blue, transmit),
    ]
}

#[inline]
fn through(filter: Fix, channel: Fix, transmit: Fix) -> Fix
    requires filter { IsAmount 65536 filter }
    requires channel { IsAmount (2 ^ 24) channel }
    requires transmit { IsAmount 65536 transmit }
    ensures value { result ≡ product_of filter channel +ℤ transmit }
    ensures amount { IsAmount (2 ^ 25) result }
{
    Fix(share(filter, channel).raw() + transmit.raw())
}

/// Light behind a surface.
#[inline]
pub fn filtered(light: &Rgb, through: &Rgb) -> Rgb
    requires light { AreAmounts 65536 light.now }
    requires through { AreAmounts (2 ^ 25) through.now }
    ensures value { result ≡ filtered light.now through.now }
    ensures amounts { AreAmounts 65536 result }
{
    [
        least_one(shared(light[0], through[0])),
        least_one(shared(light[1], through[1])),
        least_one(shared(light[2], through[2])),
    ]
}

/// The number, or 1 where it is above.
#[inline]
fn least_one(number: Fix) -> Fix
    requires { IsAmount (2 ^ 25) number }
    ensures value { result ≡ int_min (pos 65536) number }
    ensures amount { IsAmount 65536 result }
{
    Fix(number.raw().min(ONE))
}

/// Whether a surface of a colour lets nothing through.
#[inline]
pub fn is_opaque(colour: &Rgbft) -> bool
    requires { IsRgbft colour.now }
    ensures { result ≡ is_opaque colour.now }
{
    colour[3].raw() + colour[4].raw() == 0
}
