// Arithmetic on matrices of three rows and three columns. One factor of each product is below
// 2^60, the other any number of 64 bits.
ghost use Rattle.std.specs.Prelude.{◌≡◌, ℕ, ◌≤◌, ◌<◌, ◌^◌, pos, ◌+ℤ◌, ◌*ℤ◌, unsigned_abs, IsTrue};
ghost use Rattle.fix_math.specs.Matrices.{
  component,
  entry,
  vector,
  row_of,
  matrix,
  is_row_within,
  is_matrix_within,
  IsRowWithin,
  IsMatrixWithin,
};
ghost use Rattle.fix_math.specs.Numbers.{shortened};
ghost use Rattle.fix_math.specs.Vectors.{dot};
ghost use Rattle.xform.specs.Products.{times, times_turned};

use fix_math::{Fix, Rows, V3, rounded_shift, row_dot};

pub type WideRows = [[i128; 3]; 3];

// The product of a small matrix and another, each entry rounded once.
pub fn product(a: &Rows, b: &Rows, bits: u32) -> WideRows
    requires small { IsMatrixWithin (2 ^ 60) a.now }
    requires few { bits ≤ 48 }
    ensures { result ≡ matrix (λ i j. shortened (times a.now b.now i j) bits) }
{
    let columns = flipped(b);
    [
        small_row_products(&a[0], &columns, bits),
        small_row_products(&a[1], &columns, bits),
        small_row_products(&a[2], &columns, bits),
    ]
}

// The product of a matrix and a small one.
pub fn product_by_small(a: &Rows, b: &Rows, bits: u32) -> WideRows
    requires small { IsMatrixWithin (2 ^ 60) b.now }
    requires few { bits ≤ 48 }
    ensures { result ≡ matrix (λ i j. shortened (times a.now b.now i j) bits) }
{
    product_by_flipped(a, &flipped(b), bits)
}

// The product of a matrix and the one whose columns are the rows of b, a small one.
pub fn product_by_flipped(a: &Rows, b: &Rows, bits: u32) -> WideRows
    requires small { IsMatrixWithin (2 ^ 60) b.now }
    requires few { bits ≤ 48 }
    ensures { result ≡ matrix (λ i j. shortened (times_turned a.now b.now i j) bits) }
{
    [
        row_products_by_small(&a[0], b, bits),
        row_products_by_small(&a[1], b, bits),
        row_products_by_small(&a[2], b, bits),
    ]
}

// The matrix whose rows are the columns of b.
pub fn flipped(b: &Rows) -> Rows
    ensures { result ≡ matrix (λ i j. entry b.now j i) }
{
    [
        [b[0][0], b[1][0], b[2][0]],
        [b[0][1], b[1][1], b[2][1]],
        [b[0][2], b[1][2], b[2][2]],
    ]
}

fn small_row_products(a: &[i64; 3], b: &Rows, bits: u32) -> [i128; 3]
    requires small { IsRowWithin (2 ^ 60) a.now }
    requires few { bits ≤ 48 }
    ensures { result ≡ row_of (λ j. shortened (dot (component a.now) (entry b.now j)) bits) }
{
    [
        rounded_sum(a, &b[0], bits),
        rounded_sum(a, &b[1], bits),
        rounded_sum(a, &b[2], bits),
    ]
}

fn row_products_by_small(a: &[i64; 3], b: &Rows, bits: u32) -> [i128; 3]
    requires small { IsMatrixWithin (2 ^ 60) b.now }
    requires few { bits ≤ 48 }
    ensures { result ≡ row_of (λ j. shortened (dot (component a.now) (entry b.now j)) bits) }
{
    [
        rounded_sum_by_small(a, &b[0], bits),
        rounded_sum_by_small(a, &b[1], bits),
        rounded_sum_by_small(a, &b[2], bits),
    ]
}

// The sum of three products, exact before its one rounding.
pub fn rounded_sum(a: &[i64; 3], b: &[i64; 3], bits: u32) -> i128
    requires small { IsRowWithin (2 ^ 60) a.now }
    requires few { bits ≤ 48 }
    ensures value { result ≡ shortened (dot (component a.now) (component b.now)) bits }
    ensures small { unsigned_abs result ≤ 2 ^ 125 }
{
    rounded_shift(row_dot(a, b), bits)
}

pub fn rounded_sum_by_small(a: &[i64; 3], b: &[i64; 3], bits: u32) -> i128
    requires small { IsRowWithin (2 ^ 60) b.now }
    requires few { bits ≤ 48 }
    ensures value { result ≡ shortened (dot (component a.now) (component b.now)) bits }
    ensures small { unsigned_abs result ≤ 2 ^ 125 }
{
    rounded_sum(b, a, bits)
}

pub fn sum(a: i128, b: i128, c: i128) -> i128
    requires a_small { unsigned_abs a ≤ 2 ^ 123 }
    requires b_small { unsigned_abs b ≤ 2 ^ 123 }
    requires c_small { unsigned_abs c ≤ 2 ^ 123 }
    ensures value { result ≡ a +ℤ b +ℤ c }
    ensures small { unsigned_abs result < 2 ^ 125 }
{
    a + b + c
}

pub fn are_small(m: &WideRows, most: u128) -> bool
    ensures test { result ≡ is_matrix_within most m.now }
    ensures fact { IsTrue result → IsMatrixWithin most m.now }
{
    is_small(&m[0], most) && is_small(&m[1], most) && is_small(&m[2], most)
}

pub fn is_small(entries: &[i128; 3], most: u128) -> bool
    ensures test { result ≡ is_row_within most entries.now }
    ensures fact { IsTrue result → IsRowWithin most entries.now }
{
    entries[0].unsigned_abs() <= most
        && entries[1].unsigned_abs() <= most
        && entries[2].unsigned_abs() <= most
}

pub fn are_small_rows(m: &Rows, most: u64) -> bool
    ensures test { result ≡ is_matrix_within most m.now }
    ensures fact { IsTrue result → IsMatrixWithin most m.now }
{
    is_small_row(&m[0], most) && is_small_row(&m[1], most) && is_small_row(&m[2], most)
}

fn is_small_row(entries: &[i64; 3], most: u64) -> bool
    ensures test { result ≡ is_row_within most entries.now }
    ensures fact { IsTrue result → IsRowWithin most entries.now }
{
    entries[0].unsigned_abs() <= most
        && entries[1].unsigned_abs() <= most
        && entries[2].unsigned_abs() <= most
}

pub fn narrow(m: &WideRows) -> Rows
    requires { IsMatrixWithin (2 ^ 60) m.now }
    ensures { result ≡ matrix (entry m.now) }
{
    [narrow_row(&m[0]), narrow_row(&m[1]), narrow_row(&m[2])]
}

fn narrow_row(entries: &[i128; 3]) -> [i64; 3]
    requires { IsRowWithin (2 ^ 60) entries.now }
    ensures { result ≡ row_of (component entries.now) }
{
    [entries[0] as i64, entries[1] as i64, entries[2] as i64]
}

pub fn plus(a: i128, b: i128) -> i128
    requires a_small { unsigned_abs a ≤ 2 ^ 125 }
    requires b_small { unsigned_abs b ≤ 2 ^ 125 }
    ensures { result ≡ a +ℤ b }
{
    a + b
}

// The vector of these components, which are known to be raw numbers.
pub fn known_vector(entries: &[i128; 3]) -> V3
    requires { IsRowWithin (2 ^ 46) entries.now }
    ensures { result ≡ vector (component entries.now) }
{
    V3 {
        x: Fix::from_known(entries[0]),
        y: Fix::from_known(entries[1]),
        z: Fix::from_known(entries[2]),
    }
}
