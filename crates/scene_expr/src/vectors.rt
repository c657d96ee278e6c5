// The calls of vectors. (Reference manual, vector functions)
ghost use Rattle.std.specs.Prelude.{◌≡◌};
ghost use Rattle.fix_math.specs.Matrices.{component, vector};
ghost use Rattle.scene_expr.specs.Vectors.{
  dot_value,
  length_value,
  vector_in_range,
  cross_value,
  turned,
  rotated,
};

use fix_math::{
    Fix, NumFault, Rows, V3, rotation_x, rotation_y, rotation_z, rounded_cross, rounded_dot,
    rounded_image,
};

/// The sum of the products, rounded once.
pub fn dot(v: &V3, w: &V3) -> Result<Fix, NumFault>
    ensures { result ≡ dot_value v.now w.now }
{
    Fix::from_raw(rounded_dot(v, w))
}

/// The length: the floor of the root, in raw.
pub fn length(v: &V3) -> Result<Fix, NumFault>
    ensures { result ≡ length_value v.now }
{
    Fix::from_raw(fix_math::length(v) as i128)
}

/// The vector product, each component rounded once.
pub fn cross(v: &V3, w: &V3) -> Result<V3, NumFault>
    ensures { result ≡ cross_value v.now w.now }
{
    in_range(&rounded_cross(v, w))
}

/// The vector of these numbers, where each is in the range of a value.
fn in_range(numbers: &[i128; 3]) -> Result<V3, NumFault>
    ensures { result ≡ vector_in_range (vector (component numbers.now)) }
{
    let x = Fix::from_raw(numbers[0])?;
    let y = Fix::from_raw(numbers[1])?;
    let z = Fix::from_raw(numbers[2])?;
    Ok(V3 { x, y, z })
}

/// The vector turned about x, then y, then z, by so many degrees each.
pub fn rotated(v: &V3, w: &V3) -> Result<V3, NumFault>
    ensures { result ≡ rotated v.now w.now }
{
    let v = turned(&rotation_x(w.x), v)?;
    let v = turned(&rotation_y(w.y), &v)?;
    turned(&rotation_z(w.z), &v)
}

fn turned(rotation: &Rows, v: &V3) -> Result<V3, NumFault>
    ensures { result ≡ turned rotation.now v.now }
{
    in_range(&rounded_image(rotation, v, 32))
}
