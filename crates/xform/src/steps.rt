// Transforms, step by step.
ghost use Rattle.std.specs.Prelude.{◌≡◌, ◌≢◌, ℕ, ◌≤◌, ◌<◌, ◌^◌, pos, ◌*ℤ◌, ◌+ℤ◌, unsigned_abs, IfOk, false};
ghost use Rattle.fix_math.specs.Matrices.{
  component,
  along,
  row_of,
  matrix,
  entry,
  IsRowWithin,
  IsMatrixWithin,
};
ghost use Rattle.fix_math.specs.Numbers.{shortened};
ghost use Rattle.xform.specs.Transforms.{
  start_of,
  direction_of,
  point_of,
  has_zero,
  translated,
  scaled,
  scaled_inverse,
  turned,
  checked,
  then_scaled,
  rotated,
  then_of,
  composed_from,
  IsPlaced,
};

use crate::checked::{checked, have_range, with_anchor};
use crate::matrix_step::multiply;
use crate::rows::{WideRows, plus, product, product_by_flipped};
use crate::transform::{Step, Xform, XformFault};
use fix_math::{
    Fix, Rows, V3, raws, rotation_x, rotation_y, rotation_z, rounded_image, rounded_quotient,
    rounded_shift,
};

const ONE: i64 = 1 << 32;

/// The transform that moves nothing.
pub fn start() -> Xform
    ensures value { result ≡ start_of }
    ensures placed { IsPlaced result }
{
    Xform {
        m: [[ONE, 0, 0], [0, ONE, 0], [0, 0, ONE]],
        n: [[ONE, 0, 0], [0, ONE, 0], [0, 0, ONE]],
        anchor: V3 {
            x: Fix(0),
            y: Fix(0),
            z: Fix(0),
        },
    }
}

/// The image of a direction, in raw: the anchor doesn't move it. It may be larger than any value.
pub fn direction(x: &Xform, v: V3) -> [i128; 3]
    ensures value { result ≡ row_of (direction_of x.now v) }
    ensures small { IsRowWithin (2 ^ 125) result }
{
    rounded_image(&x.m, &v, 32)
}

/// The image of a point, in raw: it may lie outside of any range.
pub fn point(x: &Xform, c: V3) -> [i128; 3]
    ensures value { result ≡ row_of (point_of x.now c) }
{
    let [x_part, y_part, z_part] = direction(x, c);
    [
        plus(x.anchor.x.wide(), x_part),
        plus(x.anchor.y.wide(), y_part),
        plus(x.anchor.z.wide(), z_part),
    ]
}

/// The transform after a further step.
#[tactic(auto, unfolding(crate::specs::Transforms::then_of))]
pub fn then(x: &Xform, step: &Step) -> Result<Xform, XformFault>
    ensures value { result ≡ then_of x.now step.now }
    ensures placed { IfOk result IsPlaced }
{
    match step {
        Step::Translate(by) => translate(x, by),
        Step::Scale(by) => scale(x, by),
        Step::Rotate(by) => rotate(x, by),
        Step::Matrix(v) => multiply(x, v),
    }
}

/// The transform of these steps, taken one after another.
pub fn compose(steps: &[Step]) -> Result<Xform, XformFault>
    ensures value { result ≡ composed_from start_of steps.now }
    ensures placed { IfOk result IsPlaced }
{
    let mut x = start();
    for step in steps {
        x = then(&x, step)?;
    }
    Ok(x)
}

fn translate(x: &Xform, by: &V3) -> Result<Xform, XformFault>
    ensures value { result ≡ checked (translated x.now by.now) }
    ensures placed { IfOk result IsPlaced }
{
    if !have_range(&x.m, &x.n) {
        return Err(XformFault::EntryRange);
    }
    with_anchor(x.m, x.n, &sum_of(&x.anchor, by))
}

fn sum_of(a: &V3, b: &V3) -> [i128; 3]
    ensures { result ≡ row_of (λ i. along a.now i +ℤ along b.now i) }
{
    [
        plus(a.x.wide(), b.x.wide()),
        plus(a.y.wide(), b.y.wide()),
        plus(a.z.wide(), b.z.wide()),
    ]
}

fn scale(x: &Xform, by: &V3) -> Result<Xform, XformFault>
    ensures value { result ≡ then_scaled x.now by.now }
    ensures placed { IfOk result IsPlaced }
{
    if has_zero(by) {
        return Err(XformFault::Singular);
    }
    scale_by_some(x, by)
}

fn has_zero(by: &V3) -> bool
    ensures test { result ≡ has_zero by.now }
    ensures x_some { result ≡ false → by.now.x ≢ pos 0 }
    ensures y_some { result ≡ false → by.now.y ≢ pos 0 }
    ensures z_some { result ≡ false → by.now.z ≢ pos 0 }
{
    by.x.raw() == 0 || by.y.raw() == 0 || by.z.raw() == 0
}

fn scale_by_some(x: &Xform, by: &V3) -> Result<Xform, XformFault>
    requires x_some { by.now.x ≢ pos 0 }
    requires y_some { by.now.y ≢ pos 0 }
    requires z_some { by.now.z ≢ pos 0 }
    ensures value { result ≡ checked (scaled x.now by.now) }
    ensures placed { IfOk result IsPlaced }
{
    let anchor = scaled_anchor(&x.anchor, by);
    checked(
        &scaled_rows(&x.m, by),
        &inversely_scaled_rows(&x.n, by),
        &anchor,
    )
}

fn scaled_anchor(anchor: &V3, by: &V3) -> [i128; 3]
    ensures { result ≡ row_of (λ i. shortened (along by.now i *ℤ along anchor.now i) 16) }
{
    let entries = raws(anchor);
    [
        scaled_entry(by.x, entries[0]),
        scaled_entry(by.y, entries[1]),
        scaled_entry(by.z, entries[2]),
    ]
}

fn scaled_rows(m: &Rows, by: &V3) -> WideRows
    ensures { result ≡ matrix (λ i j. shortened (along by.now i *ℤ entry m.now i j) 16) }
{
    [
        scaled_row(by.x, &m[0]),
        scaled_row(by.y, &m[1]),
        scaled_row(by.z, &m[2]),
    ]
}

fn scaled_row(by: Fix, entries: &[i64; 3]) -> [i128; 3]
    ensures { result ≡ row_of (λ j. shortened (by *ℤ component entries.now j) 16) }
{
    [
        scaled_entry(by, entries[0]),
        scaled_entry(by, entries[1]),
        scaled_entry(by, entries[2]),
    ]
}

fn scaled_entry(by: Fix, entry: i64) -> i128
    ensures { result ≡ shortened (by *ℤ entry) 16 }
{
    rounded_shift(by.wide() * entry as i128, 16)
}

fn inversely_scaled_rows(n: &Rows, by: &V3) -> WideRows
    requires x_some { by.now.x ≢ pos 0 }
    requires y_some { by.now.y ≢ pos 0 }
    requires z_some { by.now.z ≢ pos 0 }
    ensures { result ≡ matrix (λ i j. scaled_inverse (entry n.now i j) (along by.now j)) }
{
    [
        inversely_scaled_row(&n[0], by),
        inversely_scaled_row(&n[1], by),
        inversely_scaled_row(&n[2], by),
    ]
}

fn inversely_scaled_row(entries: &[i64; 3], by: &V3) -> [i128; 3]
    requires x_some { by.now.x ≢ pos 0 }
    requires y_some { by.now.y ≢ pos 0 }
    requires z_some { by.now.z ≢ pos 0 }
    ensures { result ≡ row_of (λ j. scaled_inverse (component entries.now j) (along by.now j)) }
{
    [
        inversely_scaled(entries[0], by.x),
        inversely_scaled(entries[1], by.y),
        inversely_scaled(entries[2], by.z),
    ]
}

fn inversely_scaled(entry: i64, by: Fix) -> i128
    requires { by ≢ pos 0 }
    ensures { result ≡ scaled_inverse entry by }
{
    rounded_quotient(entry as i128 * 65536, by.wide())
}

fn rotate(x: &Xform, by: &V3) -> Result<Xform, XformFault>
    ensures value { result ≡ rotated x.now by.now }
    ensures placed { IfOk result IsPlaced }
{
    let x = turn(x, &rotation_x(by.x))?;
    let x = turn(&x, &rotation_y(by.y))?;
    turn(&x, &rotation_z(by.z))
}

fn turn(x: &Xform, r: &Rows) -> Result<Xform, XformFault>
    requires { IsMatrixWithin (2 ^ 60) r.now }
    ensures value { result ≡ checked (turned x.now r.now) }
    ensures placed { IfOk result IsPlaced }
{
    let anchor = rounded_image(r, &x.anchor, 32);
    checked(
        &product(r, &x.m, 32),
        &product_by_flipped(&x.n, r, 32),
        &anchor,
    )
}
