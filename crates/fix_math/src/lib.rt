//! Fixed-point numbers, vectors and byte strings: the values that every other crate computes with.
#![tactic(auto)]

mod angles;
mod arithmetic;
mod directions;
mod fix;
mod powers;
mod root_guess;
mod roots;
mod rotations;
mod shares;
mod text;
mod vectors;

pub use angles::sincos;
pub use arithmetic::{add, div, mul, rounded, rounded_quotient, rounded_shift, sub};
pub use directions::{unit, unit_wide};
pub use fix::{Fix, NumFault, V3};
pub use powers::{power, power_unit};
pub use roots::isqrt;
pub use rotations::{rotation_x, rotation_y, rotation_z};
pub use text::Str;
pub use vectors::{
    Rows, cross, dot, length, raws, rounded_cross, rounded_dot, rounded_image, row_cross, row_dot,
};

#[cfg(test)]
mod tests;
