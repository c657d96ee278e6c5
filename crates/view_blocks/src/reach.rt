// Where lamps and cameras may stand, and ways between points.
ghost use Rattle.std.specs.Prelude.{◌≡◌, ◌≢◌, ◌≤◌, ◌^◌, ◌-ℤ◌, unsigned_abs, IfOk, IfErr, IsTrue};
ghost use Rattle.fix_math.specs.Matrices.{component, vector, is_row_within, IsRowWithin, IsVectorWithin};
ghost use Rattle.item_blocks.specs.declared.fault.ParseFault.TheVariants.{NoMemory};
ghost use Rattle.view_blocks.specs.Reach.{reached, way};

use fix_math::{Fix, V3};
use item_blocks::ParseFault;
use scene_lexer::Place;

/// How far from the origin a lamp or a camera may stand along each axis: 1,048,576 units.
const MOST_REACH: u128 = 1 << 36;

fn is_small(v: &[i128; 3], most: u128) -> bool
    ensures test { result ≡ is_row_within most v.now }
    ensures fact { IsTrue result → IsRowWithin most v.now }
{
    v[0].unsigned_abs() <= most && v[1].unsigned_abs() <= most && v[2].unsigned_abs() <= most
}

/// The vector of these raw numbers, which are known to be in range.
pub fn known_vector(v: &[i128; 3]) -> V3
    requires { IsRowWithin (2 ^ 46) v.now }
    ensures { result ≡ vector (component v.now) }
{
    V3 {
        x: Fix::from_known(v[0]),
        y: Fix::from_known(v[1]),
        z: Fix::from_known(v[2]),
    }
}

/// The vector of these raw numbers, if none is too large: else a fault at this place.
pub fn reached(place: Place, v: &[i128; 3]) -> Result<V3, ParseFault>
    ensures value { result ≡ reached place (vector (component v.now)) }
    ensures small { IfOk result (IsVectorWithin (2 ^ 36)) }
    ensures memory { IfErr result (λ f. f ≢ NoMemory) }
{
    if is_small(v, MOST_REACH) {
        Ok(known_vector(v))
    } else {
        Err(ParseFault::ValueRange { place })
    }
}

fn difference(a: Fix, b: Fix) -> Fix
    requires a_small { unsigned_abs a ≤ 2 ^ 36 }
    requires b_small { unsigned_abs b ≤ 2 ^ 36 }
    ensures { result ≡ a -ℤ b }
{
    Fix::from_known(a.wide() - b.wide())
}

/// The way from one point to another.
pub fn way(from: &V3, to: &V3) -> V3
    requires from_small { IsVectorWithin (2 ^ 36) from.now }
    requires to_small { IsVectorWithin (2 ^ 36) to.now }
    ensures { result ≡ way from.now to.now }
{
    V3 {
        x: difference(to.x, from.x),
        y: difference(to.y, from.y),
        z: difference(to.z, from.z),
    }
}
