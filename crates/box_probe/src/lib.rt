//! Whether a ray may pass a box, in whole numbers of 64 bits and without a division: the ray's reciprocals are worked
//! out once. What is told is never too narrow: where the ray is in the box, the box is met.
#![tactic(auto)]

mod bounds;
mod probe;
mod units;

pub use bounds::{Axis, Bounds};
pub use probe::Probe;
pub use units::fine;
