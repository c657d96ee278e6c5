// The step of a matrix: its linear part is inverted.
ghost use Rattle.std.specs.Prelude.{◌≡◌, ◌≢◌, ℕ, ◌≤◌, ◌<◌, ◌^◌, pos, ◌+ℤ◌, ◌*ℤ◌, unsigned_abs, IfOk};
ghost use Rattle.fix_math.specs.Matrices.{
  component,
  along,
  row_of,
  matrix,
  entry,
  image,
  IsRowWithin,
  IsMatrixWithin,
};
ghost use Rattle.fix_math.specs.Numbers.{shortened};
ghost use Rattle.fix_math.specs.Vectors.{dot, cross};
ghost use Rattle.xform.specs.Products.{adjugate_at};
ghost use Rattle.xform.specs.Transforms.{
  linear_part,
  inverse_entry,
  small_inverse,
  inverted,
  multiplied,
  checked,
  by_linear,
  by_matrix,
  IsPlaced,
};

use crate::checked::checked;
use crate::rows::{
    WideRows, are_small, are_small_rows, narrow, plus, product, product_by_small, sum,
};
use crate::transform::{Xform, XformFault};
use fix_math::{Fix, Rows, V3, rounded_image, rounded_quotient, row_cross};

const LINEAR_LIMIT: u64 = 1 << 38;

const INVERSE_LIMIT: u128 = 1 << 60;

pub fn multiply(x: &Xform, v: &[Fix; 12]) -> Result<Xform, XformFault>
    ensures value { result ≡ by_matrix x.now v.now }
    ensures placed { IfOk result IsPlaced }
{
    let linear = linear_rows(v);
    if !are_small_rows(&linear, LINEAR_LIMIT) {
        return Err(XformFault::EntryRange);
    }
    multiply_linear(
        x,
        &linear,
        &V3 {
            x: v[9],
            y: v[10],
            z: v[11],
        },
    )
}

fn linear_rows(v: &[Fix; 12]) -> Rows
    ensures { result ≡ linear_part v.now }
{
    [
        [v[0].raw(), v[3].raw(), v[6].raw()],
        [v[1].raw(), v[4].raw(), v[7].raw()],
        [v[2].raw(), v[5].raw(), v[8].raw()],
    ]
}

fn multiply_linear(x: &Xform, g: &Rows, by: &V3) -> Result<Xform, XformFault>
    requires { IsMatrixWithin (2 ^ 38) g.now }
    ensures value { result ≡ by_linear x.now g.now by.now }
    ensures placed { IfOk result IsPlaced }
{
    match inverted(g) {
        Ok(inverse) => multiply_invertible(x, g, &inverse, by),
        Err(fault) => Err(fault),
    }
}

fn inverted(g: &Rows) -> Result<Rows, XformFault>
    requires { IsMatrixWithin (2 ^ 38) g.now }
    ensures value { result ≡ inverted g.now }
    ensures small { IfOk result (λ inverse. IsMatrixWithin (2 ^ 60) inverse) }
{
    let cofactors = cofactor_rows(g);
    let det = determinant_by(&g[0], &cofactors[0]);
    if det == 0 {
        return Err(XformFault::Singular);
    }
    small_inverse(&inverse_rows(&flipped(&cofactors), det))
}

fn small_inverse(inverse: &WideRows) -> Result<Rows, XformFault>
    ensures value { result ≡ small_inverse inverse.now }
    ensures small { IfOk result (λ inverse. IsMatrixWithin (2 ^ 60) inverse) }
{
    if !are_small(inverse, INVERSE_LIMIT) {
        return Err(XformFault::EntryRange);
    }
    Ok(narrow(inverse))
}

fn multiply_invertible(x: &Xform, g: &Rows, inverse: &Rows, by: &V3) -> Result<Xform, XformFault>
    requires g_small { IsMatrixWithin (2 ^ 60) g.now }
    requires inverse_small { IsMatrixWithin (2 ^ 60) inverse.now }
    ensures value { result ≡ checked (multiplied x.now g.now inverse.now by.now) }
    ensures placed { IfOk result IsPlaced }
{
    let anchor = moved_anchor(g, &x.anchor, by);
    checked(
        &product(g, &x.m, 16),
        &product_by_small(&x.n, inverse, 32),
        &anchor,
    )
}

fn moved_anchor(g: &Rows, anchor: &V3, by: &V3) -> [i128; 3]
    ensures { result ≡ row_of (λ i. shortened (image g.now anchor.now i) 16 +ℤ along by.now i) }
{
    let [x, y, z] = rounded_image(g, anchor, 16);
    [
        plus(x, by.x.wide()),
        plus(y, by.y.wide()),
        plus(z, by.z.wide()),
    ]
}

// The adjugate with rows for columns.
fn cofactor_rows(g: &Rows) -> WideRows
    requires { IsMatrixWithin (2 ^ 38) g.now }
    ensures value { result ≡ matrix (λ j i. adjugate_at g.now i j) }
    ensures small { IsMatrixWithin (2 ^ 77) result }
{
    [
        small_cross(&g[1], &g[2]),
        small_cross(&g[2], &g[0]),
        small_cross(&g[0], &g[1]),
    ]
}

fn flipped(m: &WideRows) -> WideRows
    requires { IsMatrixWithin (2 ^ 77) m.now }
    ensures value { result ≡ matrix (λ i j. entry m.now j i) }
    ensures small { IsMatrixWithin (2 ^ 77) result }
{
    [
        [m[0][0], m[1][0], m[2][0]],
        [m[0][1], m[1][1], m[2][1]],
        [m[0][2], m[1][2], m[2][2]],
    ]
}

fn small_cross(u: &[i64; 3], w: &[i64; 3]) -> [i128; 3]
    requires u_small { IsRowWithin (2 ^ 38) u.now }
    requires w_small { IsRowWithin (2 ^ 38) w.now }
    ensures value { result ≡ row_of (cross (component u.now) (component w.now)) }
    ensures small { IsRowWithin (2 ^ 77) result }
{
    row_cross(u, w)
}

fn determinant_by(entries: &[i64; 3], minors: &[i128; 3]) -> i128
    requires entries_small { IsRowWithin (2 ^ 38) entries.now }
    requires minors_small { IsRowWithin (2 ^ 77) minors.now }
    ensures value { result ≡ dot (component entries.now) (component minors.now) }
    ensures small { unsigned_abs result < 2 ^ 125 }
{
    sum(
        by_minor(entries[0], minors[0]),
        by_minor(entries[1], minors[1]),
        by_minor(entries[2], minors[2]),
    )
}

fn by_minor(entry: i64, minor: i128) -> i128
    requires entry_small { unsigned_abs entry ≤ 2 ^ 38 }
    requires minor_small { unsigned_abs minor ≤ 2 ^ 77 }
    ensures value { result ≡ entry *ℤ minor }
    ensures small { unsigned_abs result ≤ 2 ^ 123 }
{
    entry as i128 * minor
}

fn inverse_rows(adjugate: &WideRows, det: i128) -> WideRows
    requires adjugate_small { IsMatrixWithin (2 ^ 77) adjugate.now }
    requires some { det ≢ pos 0 }
    requires det_small { unsigned_abs det < 2 ^ 125 }
    ensures { result ≡ matrix (λ i j. inverse_entry (entry adjugate.now i j) det) }
{
    [
        inverse_row(&adjugate[0], det),
        inverse_row(&adjugate[1], det),
        inverse_row(&adjugate[2], det),
    ]
}

fn inverse_row(minors: &[i128; 3], det: i128) -> [i128; 3]
    requires small { IsRowWithin (2 ^ 77) minors.now }
    requires some { det ≢ pos 0 }
    requires det_small { unsigned_abs det < 2 ^ 125 }
    ensures { result ≡ row_of (λ j. inverse_entry (component minors.now j) det) }
{
    [
        inverse_by(minors[0], det),
        inverse_by(minors[1], det),
        inverse_by(minors[2], det),
    ]
}

fn inverse_by(minor: i128, det: i128) -> i128
    requires small { unsigned_abs minor ≤ 2 ^ 77 }
    requires some { det ≢ pos 0 }
    requires det_small { unsigned_abs det < 2 ^ 125 }
    ensures { result ≡ inverse_entry minor det }
{
    rounded_quotient(minor * (1 << 48), det)
}
